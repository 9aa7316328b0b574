// The summary: a card for each sequence and one for each line list, kept beside the tables as lent bytes. It is made afresh, brought up to date after
// an uplink, and the chain check reads it in place of the tables.
#![tactic(auto)]

ghost use Rattle.std.specs.Prelude.{◌≡◌, ℕ, suc, ◌+◌, ◌*◌, ◌-◌, ◌/◌, ◌≤◌, ◌<◌, ◌^◌, Bool, true, cond, ◌&&◌, ◌||◌, List, [], length};
ghost use Rattle.memory.specs.Memory.{format_of, fills};
ghost use Rattle.sequence.specs.Env.{cards_kept};
ghost use Rattle.survey.specs.declared.Ending.TheVariants.{Unlisted};
ghost use Rattle.survey.specs.Tested.{has_list};
ghost use Rattle.survey.specs.Chain.{told, chain_of};
ghost use Rattle.survey.specs.Report.{report_of};
ghost use Rattle.summary.specs.Card.{passing, laid_out, bytes_of, used_in};
ghost use Rattle.summary.specs.Summary.{seq_card, lines_at, summary_wrong, card_in, make_code, made, update_code, updated};
ghost use Rattle.summary.specs.Chain.{reason_read, sayings, unless_wrong, check_cards};
ghost use Rattle.summary.specs.Held.{Sized, Tests, Lines, Renews, closing_said, said_of};

use memory::{Format, Range};
use sequence::{BadList, Fault, Lent};
use survey::{Alone, Chain, Closed, Closing, Ending, Reason, Report};

// The bytes of a sequence's card, those of all line lists' cards, and the most that one uplink brings.
pub const CARD: usize = 32;

pub const LINES: usize = sequence::CARD * memory::LINE_LISTS;

const UPLINK: u32 = 128;

// What no sequence's steps or exposures come to.
const TOO_MANY: u64 = 0x40000000000000;

// The head of a sequence's card: whether it has a fault, the fault's place and code; how it closes, and the sequence called; and the reason of a 7, by number
// and value.
// Stays: these are the card's bytes, which the definition `laid_out` has and C keeps.
#[derive(Clone, Copy)]
struct Head {
    fault: u8,
    place: u8,
    code: u8,
    closing: u8,
    target: u8,
    number: u8,
    value: u8,
}

// What a card says of its sequence: how it closes, with its steps and exposures; or its fault, and the fault's reason.
type Said = Result<Closed, (Fault, Reason)>;

// The head of a card of a sequence that passes.
fn passing(closing: u8, target: u8) -> Head
    ensures { result ≡ passing closing target }
{
    Head {
        fault: 0,
        place: 0,
        code: 0,
        closing,
        target,
        number: 0,
        value: 0,
    }
}

// Where the line lists' cards begin.
pub fn lines_at(format: Format) -> usize
    ensures { result ≡ lines_at format }
{
    (format.last as usize + 1) * CARD
}

// Whether there is no such kind of tables, or a summary has a wrong size.
#[tactic(auto, using(memory::proofs::Laws::kinds), unfolding(crate::specs::Summary::summary_wrong))]
fn summary_wrong(kind: u32, summary: &[u8]) -> bool
    ensures { result ≡ summary_wrong (format_of kind) summary.now }
{
    memory::BENCH < kind || summary.len() != lines_at(Format::of(kind)) + LINES
}

// A sequence's card: its head, then its numbers, high byte first.
fn lay(head: Head, steps: u64, exposures: u64, tested: u64) -> [u8; CARD]
    ensures { result ≡ laid_out head steps exposures tested }
{
    let mut card = [0u8; CARD];
    card[..7].copy_from_slice(&[
        head.fault,
        head.place,
        head.code,
        head.closing,
        head.target,
        head.number,
        head.value,
    ]);
    card[8..16].copy_from_slice(&octets::eight(steps));
    card[16..24].copy_from_slice(&octets::eight(exposures));
    card[24..30].copy_from_slice(&octets::eight(tested)[2..]);
    card
}

// The card of what is known of a sequence: how it ends and where it goes, with its totals; or why it fails, and no totals.
fn card_of(alone: Alone) -> [u8; CARD]
    ensures { result ≡ bytes_of alone }
{
    match alone.found {
        Ok(closed) => {
            let head = match closed.closing {
                Closing::Terminates => passing(1, 0),
                Closing::CallsOn(target) => passing(2, target),
            };
            lay(head, closed.steps, closed.exposures, alone.tested)
        }
        Err(fault) => {
            let why = alone.reason.shown();
            let head = Head {
                fault: 1,
                place: fault.place,
                code: fault.code,
                closing: 0,
                target: 0,
                number: why.number,
                value: why.value,
            };
            lay(head, 0, 0, alone.tested)
        }
    }
}

// Sequence n's card, worked out from the table and from the cards of the line lists.
fn seq_card(kind: u32, seqs: &[u8], lines: &[u8], n: u8) -> [u8; CARD]
    requires { fills (format_of kind) ≡ true }
    ensures { result ≡ seq_card (format_of kind) seqs.now (cards_kept lines.now) n }
{
    let text = memory::entry(Format::of(kind), seqs, n);
    card_of(survey::taken_alone(kind, text, Lent::Cards, lines))
}

// Works out the cards of the line lists from one to another.
fn renew_lines(lists: &[u8], lines: &mut [u8], first: u8, last: u8)
    requires { (first ≤ last) × (last ≤ 47) × (length lines.old ≡ 192) }
    ensures { Lines lists.now first (last + 1) lines.old lines.new }
{
    for k in first..=last {
        let card = sequence::card_bytes(sequence::list_card(memory::list(lists, k), true));
        memory::write(lines, k as usize * sequence::CARD, &card);
    }
}

// Sequence n's card among the cards of sequences.
fn card_at(cards: &[u8], n: u8) -> &[u8; CARD]
    requires { (n + 1) * 32 ≤ length cards.now }
    ensures { result.now ≡ card_in cards.now n }
{
    let (cards, _) = cards.as_chunks::<CARD>();
    &cards[n as usize]
}

// Works out, from the cards of the line lists, those cards of the sequences from one to another that a test names.
fn renew_cards<F: Fn(&[u8; CARD]) -> bool>(
    kind: u32,
    seqs: &[u8],
    lines: &[u8],
    cards: &mut [u8],
    first: u8,
    last: u8,
    named: F,
)
    requires callable { F.IsAlwaysCallable named }
    requires filled { fills (format_of kind) ≡ true }
    requires sized { length cards.old ≡ lines_at (format_of kind) }
    requires among { (first ≤ last) × (last ≤ (format_of kind).last) }
    ensures { (test : List ℕ → Bool) → Tests F.Fn named test → Renews (format_of kind) seqs.now lines.now (λ n. test (card_in cards.old n)) first (last + 1) cards.old cards.new }
{
    for n in first..=last {
        if named(card_at(cards, n)) {
            let card = seq_card(kind, seqs, lines, n);
            memory::write(cards, n as usize * CARD, &card);
        }
    }
}

// The line lists that a card uses, a bit for each.
fn used_in(card: &[u8; CARD]) -> u64
    ensures { result ≡ used_in card.now }
{
    octets::number(&card[24..30])
}

// The whole summary, worked out from the tables: 16 for tables or a summary of a wrong size or of no kind, with nothing written.
// Stays: the codes are numbers, since `keel_cards` hands them to C, and MakeIs and UpdateIs speak of them; and a kind and its two tables go side by
// side, since the types of this function and of `update` may not change.
#[tactic(auto, using(crate::proofs::Whole::sized_of), unfolding(crate::specs::Summary::make_code, crate::specs::Summary::made))]
pub fn make(kind: u32, seqs: &[u8], lists: &[u8], summary: &mut [u8]) -> u8
    ensures value { result ≡ make_code (format_of kind) seqs.now lists.now summary.old }
    ensures summary_after { summary.new ≡ made (format_of kind) seqs.now lists.now summary.old }
{
    if memory::tables_wrong(kind, seqs, lists) || summary_wrong(kind, summary) {
        return 16;
    }
    let format = Format::of(kind);
    let (cards, lines) = summary.split_at_mut(lines_at(format));
    renew_lines(lists, lines, 0, memory::LAST_LINE_LIST);
    renew_cards(kind, seqs, lines, cards, 0, format.last, |_| true);
    0
}

// The first and the last part of this size in which bytes from an offset on lie.
fn touched(size: usize, at: usize, len: usize) -> (u8, u8)
    requires { (0 < size) × (0 < len) × (at + len ≤ 16384) × (at + len ≤ 256 * size) }
    ensures { (result.0 ≡ at / size) × (result.1 ≡ (at + len - 1) / size) }
{
    ((at / size) as u8, ((at + len - 1) / size) as u8)
}

// The summary after an obeyed uplink of so many bytes from an address on: 16 as for `make`, then 7 for a range that no uplink could have, with nothing
// written. The cards of touched entries are worked out again, and those of the sequences that use a touched line list.
#[tactic(auto, using(crate::proofs::Whole::sized_of), unfolding(crate::specs::Summary::update_code, crate::specs::Summary::updated))]
pub fn update(
    kind: u32,
    seqs: &[u8],
    lists: &[u8],
    summary: &mut [u8],
    address: u32,
    count: u32,
) -> u8
    ensures value { result ≡ update_code (format_of kind) seqs.now lists.now summary.old address count }
    ensures summary_after { summary.new ≡ updated (format_of kind) seqs.now lists.now summary.old address count }
{
    if memory::tables_wrong(kind, seqs, lists) || summary_wrong(kind, summary) {
        return 16;
    }
    if UPLINK < count {
        return 7;
    }
    let format = Format::of(kind);
    let len = count as usize;
    let (cards, lines) = summary.split_at_mut(lines_at(format));
    match memory::range_at(address, len) {
        Range::Wrong => 7,
        Range::Sequences(at) => {
            let (first, last) = touched(format.size as usize, at, len);
            renew_cards(kind, seqs, lines, cards, first, last, |_| true);
            0
        }
        Range::LineLists(at) => {
            let (first, last) = touched(memory::LINE_LIST_SIZE, at, len);
            renew_lines(lists, lines, first, last);
            renew_cards(kind, seqs, lines, cards, 0, format.last, |card| {
                let used = used_in(card);
                survey::has_list(used, first) || survey::has_list(used, last)
            });
            0
        }
    }
}

// A reason from its number and value.
fn reason_from(number: u8, value: u8) -> Reason
    ensures { result ≡ reason_read number value }
{
    match number {
        0 => Reason::None,
        1 => Reason::OfList(BadList::WindowCount),
        2 => Reason::OfList(BadList::Length),
        3 => Reason::OfList(BadList::Checksum(value)),
        _ => Reason::Mark,
    }
}

// How the sequence of a card that passes closes; a card of another closing, or of a call past the last sequence, no tables give.
fn closing_in(format: Format, card: &[u8; CARD]) -> Option<Closing>
    ensures { result ≡ closing_said format card.now }
{
    match card[3] {
        1 => Some(Closing::Terminates),
        2 if card[4] <= format.last => Some(Closing::CallsOn(card[4])),
        _ => None,
    }
}

// What a card says of its sequence, where some tables give such a card.
#[tactic(auto, unfolding(crate::specs::Chain::card_wrong, crate::specs::Chain::said_by))]
fn said_by(format: Format, card: &[u8; CARD]) -> Option<Said>
    ensures { result ≡ said_of format card.now }
{
    match card[0] {
        0 => {
            let closing = closing_in(format, card)?;
            let steps = octets::number(&card[8..16]);
            let exposures = octets::number(&card[16..24]);
            if TOO_MANY <= steps || TOO_MANY <= exposures {
                return None;
            }
            Some(Ok(Closed {
                place: 0,
                closing,
                steps,
                exposures,
            }))
        }
        1 => {
            let fault = Fault {
                code: card[2],
                place: card[1],
            };
            Some(Err((fault, reason_from(card[5], card[6]))))
        }
        _ => None,
    }
}

// The chain from a sequence on, as the cards say it, up to its end, its return, its first fault, or a card that no tables give.
// Stays: a loop of its own, since the table check goes along its chain by two functions that call each other, the scope's own form.
fn follow(format: Format, summary: &[u8], first: u8) -> Report
    requires { Sized format summary.now × (first ≤ format.last) }
    ensures { result ≡ report_of (unless_wrong format summary.now (chain_of format (sayings summary.now) first)) }
{
    let mut chain = survey::empty();
    let mut n = first;
    for at in 0..memory::SEQUENCES {
        chain.listed[at] = n;
        chain.marks[n as usize] = true;
        chain.count = at + 1;
        let closed = match said_by(format, card_at(summary, n)) {
            Some(Ok(closed)) => closed,
            Some(Err((fault, reason))) => {
                return chain.reported(Ending::Faults(n, fault, reason));
            }
            None => return survey::unlisted(17),
        };
        chain.steps += closed.steps;
        chain.exposures += closed.exposures;
        let target = match closed.closing {
            Closing::Terminates => return chain.reported(Ending::Finishes),
            Closing::CallsOn(target) => target,
        };
        if chain.marks[target as usize] {
            return chain.reported(Ending::Returns);
        }
        n = target;
    }
    chain.reported(Ending::Returns)
}

// The table check from the cards alone: 16 for a summary of a wrong size or of no kind, then 7 for a number above the last, then the chain; 17, with
// nothing listed, for a card on the way that no tables give.
#[tactic(auto, using(crate::proofs::Whole::sized_of), unfolding(crate::specs::Chain::check_cards, crate::specs::Chain::cards_rows))]
pub fn check(kind: u32, summary: &[u8], number: u32) -> Report
    ensures { result ≡ report_of (check_cards (format_of kind) summary.now number) }
{
    if summary_wrong(kind, summary) {
        return survey::unlisted(16);
    }
    let format = Format::of(kind);
    if (format.last as u32) < number {
        return survey::unlisted(7);
    }
    follow(format, summary, number as u8)
}
