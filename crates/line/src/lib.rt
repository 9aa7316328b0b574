// The desk's text over lent slices: a line is read, answers and events are written.
//
// A writer lays its text over the output from a place on and answers the next place. It takes any output and any
// place: bytes for which the output has no place are lost, and the next place is the same, so that a text can be
// measured on an empty output.
// Stays: writers as methods of an output with its place are no plainer here: each `put_` is promised as a function of the two, and would stand
// twice. The programs have such methods, those of `console::Page`.
#![tactic(auto, using(crate::proofs::WritingLaws::laying))]

ghost use Rattle.std.specs.Prelude.{◌≡◌, true, cond, [], ◌∷◌, ◌+◌, ◌*◌, ◌≤◌, ◌<◌, length, drop};
ghost use Rattle.line.specs.Digits.{digit_of, value_of, is_hex, hex_of, bytes_in, decimal, all, each};
ghost use Rattle.line.specs.Writing.{put_over, Laid, spaced, comma, member, bits_text, marks_text, word_line, answer_text, reason_text, kind_text, block_text, event_text, bad_text};
ghost use Rattle.line.specs.Reading.{zero_leads, numeral_of, begins, is_word, kind_named, is_packet, steps_line, line_of, packet_after};

use runner::Event;

// The most hex digits that a packet's line has.
const MOST_DIGITS: usize = 280;

// The hex digits among the bytes from `0` on, a bit for each.
const HEX: u64 = 0x007E_0000_007E_03FF;

// What a line says: a packet of so many bytes, so many steps, or neither.
// Stays: what `read_line` and `line_of` answer may not change, and it is one of three.
#[derive(Clone, Copy)]
pub enum Line {
    Packet(usize),
    Steps(u16),
    Bad,
}

// A digit as it is written, in capitals.
#[tactic(auto, using(crate::proofs::DigitLaws::digits))]
fn digit(n: u8) -> u8
    requires { n < 16 }
    ensures { result ≡ digit_of n }
{
    if n < 10 { b'0' + n } else { b'A' - 10 + n }
}

// Puts a byte.
#[tactic(auto, unfolding(crate::specs::Writing::put_over))]
pub fn put(out: &mut [u8], at: usize, b: u8) -> usize
    ensures { Laid out.old out.new at result (b ∷ []) }
{
    if at < out.len() {
        out[at] = b;
    }
    at.saturating_add(1)
}

// Puts a word, or any bytes.
pub fn put_word(out: &mut [u8], at: usize, word: &[u8]) -> usize
    ensures { Laid out.old out.new at result word.now }
{
    let mut p = at;
    for b in word {
        p = put(out, p, *b);
    }
    p
}

// Puts a number in decimal: its digits are made from the last one on, and twenty hold every number.
// Stays: a `for` over the places is no plainer: it has to be left at the first digit, and needs an answer where all places are filled.
pub fn put_number(out: &mut [u8], at: usize, n: u64) -> usize
    ensures { Laid out.old out.new at result (decimal n) }
{
    let mut digits = [0u8; 20];
    let mut from = 19;
    let mut left = n;
    while 10 <= left {
        digits[from] = digit((left % 10) as u8);
        left /= 10;
        from -= 1;
    }
    digits[from] = digit(left as u8);
    put_word(out, at, &digits[from..])
}

// Puts a blank and a number.
pub fn put_blank_number(out: &mut [u8], at: usize, n: u64) -> usize
    ensures { Laid out.old out.new at result (spaced n) }
{
    let p = put(out, at, b' ');
    put_number(out, p, n)
}

// Puts the numbers of a list, each after a blank.
pub fn put_numbers(out: &mut [u8], at: usize, list: &[u8]) -> usize
    ensures { Laid out.old out.new at result (each spaced list.now) }
{
    let mut p = at;
    for n in list {
        p = put_blank_number(out, p, u64::from(*n));
    }
    p
}

// Puts a number, after a comma where others stand before it.
fn put_member(out: &mut [u8], at: usize, others: bool, n: u64) -> usize
    ensures { Laid out.old out.new at result (member others n) }
{
    let p = if others { put(out, at, b',') } else { at };
    put_number(out, p, n)
}

// Puts the numbers of the bits that are set, from the most significant on, which has the number given, with commas between them; a dash for none.
pub fn put_bits(out: &mut [u8], at: usize, bits: u64, first: u8) -> usize
    ensures { Laid out.old out.new at result (bits_text bits first) }
{
    if bits == 0 {
        return put(out, at, b'-');
    }
    let mut p = at;
    let mut others = false;
    for k in 0..64u8 {
        if (bits >> (63 - k)) % 2 == 1 {
            p = put_member(out, p, others, u64::from(first) + u64::from(k));
            others = true;
        }
    }
    p
}

// Puts the numbers of the bits that are set in a header's low byte, 8 to 15; a dash for none.
pub fn put_marks(out: &mut [u8], at: usize, marks: u8) -> usize
    ensures { Laid out.old out.new at result (marks_text marks) }
{
    put_bits(out, at, u64::from(marks) << 56, 8)
}

// Puts a byte in two hex digits.
pub fn put_octet(out: &mut [u8], at: usize, b: u8) -> usize
    ensures { Laid out.old out.new at result (hex_of b) }
{
    let p = put(out, at, digit(b / 16));
    put(out, p, digit(b % 16))
}

// Puts bytes in hex digits, where the output has a place for each: no place is tested.
// Stays: tried, and with each place tested, as `put_octets_cut` has it, the desk on 100,000 lines is slower by a tenth.
fn put_octets_within(out: &mut [u8], at: usize, s: &[u8]) -> usize
    requires { at + 2 * length s.now ≤ length out.old }
    ensures { Laid out.old out.new at result (each hex_of s.now) }
{
    let mut p = at;
    for b in s {
        out[p] = digit(b / 16);
        out[p + 1] = digit(b % 16);
        p += 2;
    }
    p
}

// Puts bytes in hex digits as far as the output goes.
fn put_octets_cut(out: &mut [u8], at: usize, s: &[u8]) -> usize
    ensures { Laid out.old out.new at result (each hex_of s.now) }
{
    let mut p = at;
    for b in s {
        p = put_octet(out, p, *b);
    }
    p
}

// Puts bytes in hex digits.
pub fn put_octets(out: &mut [u8], at: usize, s: &[u8]) -> usize
    ensures { Laid out.old out.new at result (each hex_of s.now) }
{
    if at <= out.len() && s.len() <= (out.len() - at) / 2 {
        put_octets_within(out, at, s)
    } else {
        put_octets_cut(out, at, s)
    }
}

// Puts the answer to a packet: `TC`, its BC1 in hex and the code.
pub fn put_answer(out: &mut [u8], at: usize, bc1: u8, code: u8) -> usize
    ensures { Laid out.old out.new at result (answer_text bc1 code) }
{
    let p = put_word(out, at, b"TC ");
    let q = put_octet(out, p, bc1);
    let r = put_blank_number(out, q, u64::from(code));
    put(out, r, b'\n')
}

// Puts a reason of a 7, by its number and value; nothing for none.
pub fn put_reason(out: &mut [u8], at: usize, number: u8, value: u8) -> usize
    ensures { Laid out.old out.new at result (reason_text number value) }
{
    match number {
        0 => at,
        1 => put_word(out, at, b"count"),
        2 => put_word(out, at, b"length"),
        3 => {
            let p = put_word(out, at, b"checksum ");
            put_octet(out, p, value)
        }
        _ => put_word(out, at, b"mark"),
    }
}

// Puts the block that answers a packet: a status or a dump, in hex.
pub fn put_block(out: &mut [u8], at: usize, status: bool, bytes: &[u8]) -> usize
    ensures { Laid out.old out.new at result (block_text status bytes.now) }
{
    let kind = if status { b"ST " } else { b"DU " };
    let p = put_word(out, at, kind);
    let q = put_octets(out, p, bytes);
    put(out, q, b'\n')
}

// Puts a line of a word and numbers.
fn put_line(out: &mut [u8], at: usize, word: &[u8], numbers: &[u64]) -> usize
    ensures { Laid out.old out.new at result (word_line word.now numbers.now) }
{
    let mut p = put_word(out, at, word);
    for n in numbers {
        p = put_blank_number(out, p, *n);
    }
    put(out, p, b'\n')
}

// Puts what a step shows; count is the status's count of exposures after the step.
pub fn put_event(out: &mut [u8], at: usize, event: Event, count: u16) -> usize
    ensures { Laid out.old out.new at result (event_text count event) }
{
    match event {
        Event::Idle => put_word(out, at, b"IDLE\n"),
        Event::Enter(s) => put_line(out, at, b"ENTER", &[u64::from(s)]),
        Event::Raster(id, pos, _) => {
            put_line(out, at, b"RASTER", &[u64::from(id), u64::from(pos)])
        }
        Event::Exp(pos) => put_line(out, at, b"EXP", &[u64::from(count), u64::from(pos)]),
        Event::Loop(place) => put_line(out, at, b"LOOP", &[u64::from(place)]),
        Event::Next => put_word(out, at, b"NEXT\n"),
        Event::Done => put_word(out, at, b"DONE\n"),
        Event::Wait(t) => put_line(out, at, b"WAIT", &[u64::from(t)]),
        Event::Call(s) => put_line(out, at, b"CALL", &[u64::from(s)]),
        Event::End => put_word(out, at, b"END\n"),
        Event::Abort(code, s, place) => {
            let numbers = [u64::from(code), u64::from(s), u64::from(place)];
            put_line(out, at, b"ABORT", &numbers)
        }
    }
}

// Puts the answer to a line that is neither a packet nor steps.
pub fn put_bad(out: &mut [u8], at: usize) -> usize
    ensures { Laid out.old out.new at result bad_text }
{
    put_word(out, at, b"BAD\n")
}

// Whether a byte is a hex digit of either case.
#[tactic(auto, using(crate::proofs::DigitLaws::digits))]
pub fn is_hex(b: u8) -> bool
    ensures { result ≡ is_hex b }
{
    // Stays: tried, and with `is_ascii_hexdigit` the desk on 100,000 lines is slower by a tenth to a fifth.
    matches!(b, b'0'..=b'f') && (HEX >> (b - b'0')) % 2 == 1
}

// Whether every byte is a hex digit.
fn all_hex(line: &[u8]) -> bool
    ensures { result ≡ all is_hex line.now }
{
    line.iter().all(|b| is_hex(*b))
}

// The value of a hex digit: a letter has bit 6 set and is 9 more than its low four bits.
// Stays: `to_digit` is no plainer, since its option would need an answer for a byte that is no digit.
#[tactic(auto, using(crate::proofs::DigitLaws::digits))]
fn value(b: u8) -> u8
    requires { is_hex b ≡ true }
    ensures { result ≡ value_of b }
{
    b % 16 + b / 64 * 9
}

// Whether a line is a packet's: hex digits, an even number, not too many.
fn is_packet(line: &[u8]) -> bool
    ensures { result ≡ is_packet line.now }
{
    line.len() % 2 == 0 && line.len() <= MOST_DIGITS && all_hex(line)
}

// Reads a packet's line into its bytes.
#[tactic(auto, using(crate::proofs::ReadingLaws::reading))]
fn read_packet(line: &[u8], packet: &mut [u8; 140])
    requires { is_packet line.now ≡ true }
    ensures { packet.new ≡ put_over packet.old 0 (bytes_in line.now) }
{
    for (i, pair) in line.chunks_exact(2).enumerate() {
        let high = value(pair[0]);
        let low = value(pair[1]);
        packet[i] = high * 16 + low;
    }
}

// Whether a zero stands in front of another byte.
fn zero_leads(s: &[u8]) -> bool
    ensures { result ≡ zero_leads s.now }
{
    matches!(s, [b'0', _, ..])
}

// The number that a figure shows: 0 to 65535, no sign, no leading zero.
#[tactic(auto, using(crate::proofs::ReadingLaws::reading))]
fn numeral(figure: &[u8]) -> Option<u16>
    ensures { result ≡ numeral_of figure.now }
{
    if figure.is_empty() || zero_leads(figure) {
        return None;
    }
    let mut n: u16 = 0;
    for b in figure {
        if !b.is_ascii_digit() {
            return None;
        }
        n = n.checked_mul(10)?.checked_add(u16::from(b - b'0'))?;
    }
    Some(n)
}

// The number from a place on.
pub fn number(s: &[u8], from: usize) -> Option<u16>
    ensures { result ≡ numeral_of (drop from s.now) }
{
    numeral(s.get(from..)?)
}

// Whether a line starts with a word.
pub fn begins(line: &[u8], word: &[u8]) -> bool
    ensures { result ≡ begins word.now line.now }
{
    line.starts_with(word)
}

// Whether a word is the one wanted.
pub fn is_word(word: &[u8], wanted: &[u8]) -> bool
    ensures { result ≡ is_word wanted.now word.now }
{
    word == wanted
}

// The kind of the tables, by a program's first argument: `old` or anything else.
pub fn kind_named(word: &[u8]) -> u32
    ensures { result ≡ kind_named word.now }
{
    if is_word(word, b"old") { 1 } else { 0 }
}

// The steps that a line asks for: `STEP n`.
fn steps(line: &[u8]) -> Line
    ensures { result ≡ steps_line line.now }
{
    if !begins(line, b"STEP ") {
        return Line::Bad;
    }
    match number(line, 5) {
        None | Some(0) => Line::Bad,
        Some(n) => Line::Steps(n),
    }
}

// Reads a line, without its newline; a packet's bytes go to the start of packet, which else stays as it is.
pub fn read_line(line: &[u8], packet: &mut [u8; 140]) -> Line
    ensures value { result ≡ line_of line.now }
    ensures packet_after { packet.new ≡ packet_after line.now packet.old }
{
    if is_packet(line) {
        read_packet(line, packet);
        return Line::Packet(line.len() / 2);
    }
    steps(line)
}
