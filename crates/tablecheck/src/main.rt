// The table check at the desk: standard input is the two dumps put together, arguments are sequence numbers, none means all of them;
// the argument `lists` asks for the test of every line list. A first argument `old` says that the tables are of the old kind. A first argument
// `same`, or the first after `old`, asks whether a pass still stands: standard input is then the dumps of then and those of now.
#![tactic(auto)]

use console::Page;
use memory::{Address, Format};
use sequence::Fault;
use std::env::FillError;
use std::io::Read;
use std::rt::Env;
use survey::{Ending, Reason, Report, Standing};

// The two dumps put together.
const TABLES: usize = memory::SEQUENCE_TABLE + memory::LINE_LIST_TABLE;

// The bytes of text that can wait.
const TEXT: usize = 70000;

// More text than a line has, with any argument: where there is less room, the lines so far are shown, which are 4,096 bytes then or more.
const ROOM: usize = TEXT - 4095;

// The longest argument that is looked at.
const WORD: usize = 65536;

// What the arguments ask for before they name sequences: the kind of the tables, whether passes are to be held against later tables, and the
// first argument that names one.
// Stays: a kind is a number, as `line::kind_named` answers and `survey::check` takes it, whose clauses have it so.
#[derive(Clone, Copy)]
struct Asked {
    kind: u32,
    same: bool,
    first: usize,
}

// A word and a blank on a line, and what the check was refused for.
fn put_refused(page: &mut Page, word: &[u8], code: u8) {
    page.put_word(b"REFUSED ");
    page.put_word(word);
    page.put_number(u64::from(code));
}

// A passed check: how the chain ends, steps, exposures and the chain's sequences in order.
fn put_passed(page: &mut Page, word: &[u8], how: &[u8], report: Report) {
    page.put_word(b"PASS ");
    page.put_word(word);
    page.put_word(how);
    page.put_number(report.steps);
    page.put_number(report.exposures);
    page.put_numbers(octets::part(&report.listed, 0, report.count));
}

// A fault's reason, where it has one.
fn put_reason(page: &mut Page, reason: Reason) {
    let why = reason.shown();
    if why.number != 0 {
        page.put_word(b" REASON ");
        page.put_reason(why.number, why.value);
    }
}

// A fault: its code, sequence and place, the chain through that sequence, and the reason where it has one.
fn put_fault(
    page: &mut Page,
    word: &[u8],
    sequence: u8,
    fault: Fault,
    reason: Reason,
    report: Report,
) {
    page.put_word(b"FAULT ");
    page.put_word(word);
    page.put_numbers(&[fault.code, sequence, fault.place]);
    page.put_numbers(octets::part(&report.listed, 0, report.count));
    put_reason(page, reason);
}

// The line of one report: what it tells, by its ending.
fn put_report(page: &mut Page, word: &[u8], report: Report) {
    match report.ending {
        Ending::Unlisted(code) => put_refused(page, word, code),
        Ending::Finishes => put_passed(page, word, b" ENDS", report),
        Ending::Returns => put_passed(page, word, b" RETURNS", report),
        Ending::Faults(sequence, fault, reason) => {
            put_fault(page, word, sequence, fault, reason, report)
        }
    }
    page.put(b'\n');
}

// The number of the sequence that a word names; no table has that of a word that is no number.
fn number_named(word: &[u8]) -> u32 {
    line::number(word, 0).map_or(65535, u32::from)
}

// The sequence table of two dumps put together, and their line lists.
fn seqs_of(tables: &[u8]) -> &[u8] {
    octets::part(tables, 0, memory::SEQUENCE_TABLE)
}

fn lists_of(tables: &[u8]) -> &[u8] {
    octets::part(tables, memory::SEQUENCE_TABLE, memory::LINE_LIST_TABLE)
}

// The line of the check of the sequence that a word names.
fn put_checked(page: &mut Page, kind: u32, tables: &[u8], word: &[u8]) {
    let report = survey::check(kind, seqs_of(tables), lists_of(tables), number_named(word));
    put_report(page, word, report)
}

// The line of a check that does not stand: the lowest address of a byte that is another now, in six hex digits.
fn put_changed(page: &mut Page, word: &[u8], address: Address) {
    page.put_word(b"CHANGED ");
    page.put_word(word);
    page.put(b' ');
    page.put_octets(&address.number().to_be_bytes()[1..]);
    page.put(b'\n');
}

// The line of the sequence that a word names, whose check is held against the tables of now, which come after those of then: as it was, or the
// lowest address of a byte that is not; where it did not pass, the check's own line.
fn put_standing(page: &mut Page, kind: u32, tables: &[u8], word: &[u8]) {
    let now = octets::part(tables, TABLES, TABLES);
    let standing = survey::still(
        kind,
        seqs_of(tables),
        lists_of(tables),
        seqs_of(now),
        lists_of(now),
        number_named(word),
    );
    match standing {
        Standing::Unpassed(_) => put_checked(page, kind, tables, word),
        Standing::Same => {
            page.put_word(b"SAME ");
            page.put_word(word);
            page.put(b'\n');
        }
        Standing::Changed(address) => put_changed(page, word, address),
    }
}

// Every line list in order.
fn put_lists(page: &mut Page, lists: &[u8]) {
    for n in 0..=memory::LAST_LINE_LIST {
        let card = sequence::list_card(memory::list(lists, n), true);
        page.put_list(n, &sequence::card_bytes(card), b" BAD REASON ");
    }
}

// What a word asks for: the line of the sequence that it names, or the line lists.
fn put_asked(page: &mut Page, asked: Asked, tables: &[u8], word: &[u8]) {
    if asked.same {
        put_standing(page, asked.kind, tables, word)
    } else if line::is_word(word, b"lists") {
        put_lists(page, lists_of(tables))
    } else {
        put_checked(page, asked.kind, tables, word)
    }
}

// Every sequence in order.
fn show_all(rt: &impl Print, page: &mut Page, asked: Asked, tables: &[u8], word: &mut [u8]) {
    for n in 0..=Format::of(asked.kind).last {
        let digits = line::put_number(word, 0, u64::from(n));
        page.make_room(rt, ROOM);
        put_asked(page, asked, tables, octets::part(word, 0, digits));
    }
}

// Whether the program was started with an argument of this place. It is put nowhere: a longer one than the empty buffer is there all the same.
fn is_given(rt: &impl Env, i: usize) -> bool {
    !matches!(rt.arg(i, &mut []), Err(FillError::NotPresent))
}

// What the arguments that name sequences ask for, each in its turn.
fn show_named(
    rt: &(impl Print + Env),
    page: &mut Page,
    asked: Asked,
    tables: &[u8],
    word: &mut [u8],
) {
    for i in asked.first..usize::MAX {
        if !is_given(rt, i) {
            return;
        }
        page.make_room(rt, ROOM);
        put_asked(page, asked, tables, console::word(rt, i, word));
    }
}

// What the arguments before those that name sequences ask for.
fn read_words(rt: &impl Env, word: &mut [u8]) -> Asked {
    let kind = line::kind_named(console::word(rt, 1, word));
    let next = if kind == memory::FLIGHT { 1 } else { 2 };
    let same = line::is_word(console::word(rt, next, word), b"same");
    let first = if same { next + 1 } else { next };
    Asked { kind, same, first }
}

// What is asked for, or that the input is not the tables wanted.
fn run(
    rt: &(impl Print + Env),
    input: &mut impl Read,
    tables: &mut [u8],
    word: &mut [u8],
    page: &mut Page,
) {
    let n = console::read_full(input, tables);
    let asked = read_words(rt, word);
    let wanted = if asked.same { 2 * TABLES } else { TABLES };
    if n != wanted {
        console::show(rt, b"REFUSED TABLES 16\n");
        return;
    }
    if is_given(rt, asked.first) {
        show_named(rt, page, asked, tables, word)
    } else {
        show_all(rt, page, asked, tables, word)
    }
    page.show(rt);
}

fn main(rt: HostRuntime) {
    let mut tables = [0u8; 2 * TABLES + 1];
    let mut word = [0u8; WORD];
    let mut text = [0u8; TEXT];
    let mut input = rt.stdin();
    let mut page = Page::over(&mut text);
    run(&rt, &mut input, &mut tables, &mut word, &mut page)
}
