// The summary at the desk: standard input is the two dumps put together, and a line is shown for each card. A first argument `old` says that the
// tables are of the old kind.
#![tactic(auto)]

use console::Page;
use memory::Format;
use std::io::Read;
use std::rt::Env;

// The two dumps put together, and the bytes of a summary, of the old kind's too.
const TABLES: usize = memory::SEQUENCE_TABLE + memory::LINE_LIST_TABLE;

const SUMMARY: usize = 128 * summary::CARD + summary::LINES;

const OLD_SUMMARY: usize = 64 * summary::CARD + summary::LINES;

// The longest argument that is looked at.
const WORD: usize = 65536;

// How a sequence ends, as its card has it: at its fault's place, with its code; at its end; or with a call, and of which sequence.
fn put_ending(page: &mut Page, card: &[u8]) {
    if octets::byte(card, 0) != 0 {
        page.put_word(b" FAULT");
        page.put_numbers(octets::part(card, 1, 2));
        page.put_word(b" NONE -");
    } else if octets::byte(card, 3) == 1 {
        page.put_word(b" PASS END -");
    } else {
        page.put_word(b" PASS CALL");
        page.put_numbers(octets::part(card, 4, 1));
    }
}

// The line of a sequence's card: how it ends, its steps, its exposures and the line lists that it uses, of which list 0 is the most
// significant bit.
fn put_card(page: &mut Page, n: u8, card: &[u8]) {
    page.put_word(b"CARD");
    page.put_number(u64::from(n));
    put_ending(page, card);
    page.put_number(octets::number(octets::part(card, 8, 8)));
    page.put_number(octets::number(octets::part(card, 16, 8)));
    page.put(b' ');
    page.put_bits(octets::number(octets::part(card, 24, 8)));
    page.put(b'\n');
}

// The lines of the cards of every sequence in order, by the last one's number.
fn put_cards(page: &mut Page, last: u8, cards: &[u8]) {
    for n in 0..=last {
        let at = usize::from(n) * summary::CARD;
        put_card(page, n, octets::part(cards, at, summary::CARD));
    }
}

// The lines of the cards of every line list in order.
fn put_lists(page: &mut Page, cards: &[u8]) {
    for k in 0..=memory::LAST_LINE_LIST {
        let at = usize::from(k) * sequence::CARD;
        page.put_list(k, octets::part(cards, at, sequence::CARD), b" BAD ");
    }
}

// The summary of two dumps, in the room lent for it, a line for each card.
// Stays: a kind is a number, as `line::kind_named` answers and `summary::make` takes it, whose clauses have it so.
fn show(rt: &impl Print, kind: u32, tables: &[u8], cards: &mut [u8], page: &mut Page) {
    let format = Format::of(kind);
    summary::make(
        kind,
        octets::part(tables, 0, memory::SEQUENCE_TABLE),
        octets::part(tables, memory::SEQUENCE_TABLE, memory::LINE_LIST_TABLE),
        cards,
    );
    put_cards(page, format.last, cards);
    put_lists(
        page,
        octets::part(cards, summary::lines_at(format), summary::LINES),
    );
    page.show(rt);
}

// The summary of what was read, or that it is not the tables wanted.
fn run(
    rt: &(impl Print + Env),
    input: &mut impl Read,
    tables: &mut [u8],
    word: &mut [u8],
    page: &mut Page,
) {
    let n = console::read_full(input, tables);
    if n != TABLES {
        console::show(rt, b"REFUSED TABLES 16\n");
        return;
    }
    let kind = line::kind_named(console::word(rt, 1, word));
    if kind == memory::FLIGHT {
        let mut cards = [0u8; SUMMARY];
        show(rt, kind, tables, &mut cards, page)
    } else {
        let mut cards = [0u8; OLD_SUMMARY];
        show(rt, kind, tables, &mut cards, page)
    }
}

fn main(rt: HostRuntime) {
    let mut tables = [0u8; TABLES + 1];
    let mut word = [0u8; WORD];
    let mut text = [0u8; 32768];
    let mut input = rt.stdin();
    let mut page = Page::over(&mut text);
    run(&rt, &mut input, &mut tables, &mut word, &mut page)
}
