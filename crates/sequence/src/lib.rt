// Sequences and line lists as bytes: the commands of a text, a raster's words, and the tests of an entry, of a line list and
// of the science flags. A text is one sequence's own bytes; every reader answers for every text.
#![tactic(auto, unfolding(crate::specs::Raster::raster_at, crate::specs::Raster::flags_good, crate::specs::Raster::needs_mark, crate::specs::Raster::mark_missing, crate::specs::Text::length_good, crate::specs::Text::limit, crate::specs::Text::none_there, crate::specs::Text::header_of, crate::specs::Text::header_rows, crate::specs::Text::size_of, crate::specs::Text::decoded))]

ghost use Rattle.std.specs.Prelude.{◌≡◌, ◌≢◌, ℕ, false, ◌+◌, ◌-◌, ◌/◌, ◌<◌, ◌≤◌, ◌&&◌, length, nat_le};
ghost use Rattle.octets.specs.Bytes.{byte_at, word_at, byte_bit, xor_on};
ghost use Rattle.sequence.specs.Text.{limit, length_good, xor_good, header_of, number_of, size_of, size_at, none_there, decoded, command_at, is_run_raster};
ghost use Rattle.sequence.specs.Starts.{among, starts, first_exposure, target_good};
ghost use Rattle.sequence.specs.Raster.{raster_at, flags_good, needs_mark, mark_missing};
ghost use Rattle.sequence.specs.LineList.{marked, list_card, reason_as, bad_shown, card_shown, marks_in, card_with, mark_bits, marks_read, card_bytes, card_read};
ghost use Rattle.sequence.specs.Env.{cards_kept, cards_lent};

use memory::Place;

// What stands at a place of a text: a command with its operand, or none there, one of an unknown number, or one that does not fit.
// Stays: `command_at` may not change, and its theorems have the last three among the commands.
#[derive(Clone, Copy)]
pub enum Command {
    RunRaster,
    Expose(u16),
    LoopBack(u8),
    CallSequence(u8),
    Terminate,
    Delay(u16),
    Nothing,
    Unknown,
    Unfit,
}

// A row of the table of commands: a command's number, and the bytes that it takes.
#[derive(Clone, Copy)]
pub struct CommandRow {
    pub op: u8,
    pub size: u8,
}

pub const RUN_RASTER: CommandRow = CommandRow { op: 0x90, size: 23 };

pub const EXPOSE: CommandRow = CommandRow { op: 0x91, size: 3 };

pub const LOOP_BACK: CommandRow = CommandRow { op: 0x92, size: 2 };

pub const CALL_SEQUENCE: CommandRow = CommandRow { op: 0x93, size: 2 };

pub const TERMINATE: CommandRow = CommandRow { op: 0x94, size: 1 };

pub const DELAY: CommandRow = CommandRow { op: 0x95, size: 3 };

// The table: a number that is in none of its rows is unknown.
const COMMANDS: [CommandRow; 6] = [
    RUN_RASTER,
    EXPOSE,
    LOOP_BACK,
    CALL_SEQUENCE,
    TERMINATE,
    DELAY,
];

// The eleven words of a run raster, every field of them.
#[derive(Clone, Copy)]
pub struct RasterWords {
    pub id: u16,
    pub initial: u16,
    pub loops: u16,
    pub compression: u16,
    pub ocbx: u8,
    pub ocby: u8,
    pub flush: u8,
    pub flushes: u8,
    pub spare: u8,
    pub exposures: u8,
    pub asrc: u8,
    pub nodes: u8,
    pub repeats: u16,
    pub skip: u8,
    pub readout: u8,
    pub step: u16,
    pub list: u8,
    pub science: u8,
}

// Why a run stops: a code at a place.
// Stays: a code is a number, as the rows of the definitions and the report have it.
#[derive(Clone, Copy)]
pub struct Fault {
    pub code: u8,
    pub place: u8,
}

// Which marks the windows of a line list have among them: header bits 11, 12 and 13, for the AEC, event and flare flags.
#[derive(Clone, Copy, Default)]
pub struct Marks {
    pub aec: bool,
    pub event: bool,
    pub flare: bool,
}

// What makes a line list bad: the first of its tests that fails, with the checksum expected.
#[derive(Clone, Copy)]
pub enum BadList {
    WindowCount,
    Length,
    Checksum(u8),
}

// What is known of a line list: it is good, with its marks, or bad.
pub type ListCard = Result<Marks, BadList>;

// The bytes of a line list's card.
pub const CARD: usize = 4;

// What is lent of the line lists: their own bytes, or their cards, four bytes each.
// Stays: `card_of`, `judge` and `taken_alone` may not change, and take what is lent by this name beside its bytes.
#[derive(Clone, Copy)]
pub enum Lent {
    Lists,
    Cards,
}

// What a walk over a line list gives: its XOR on the number that it began with, and the low bytes of its windows' headers, by OR.
#[derive(Clone, Copy)]
struct ListWalk {
    sum: u8,
    seen: u8,
}

// What is wrong with a line list, as numbers: which test, 0 for none, and the checksum expected.
#[derive(Clone, Copy)]
pub struct ReasonNumbers {
    pub number: u8,
    pub value: u8,
}

// A place as an index into a text.
fn index(at: Place) -> usize
    ensures { (result ≡ at.0) × (result < 256) }
{
    at.number() as usize
}

// The number of bytes that a command takes, 0 where no command has this number.
// Stays: the definitions `size_of` and `size_at` may not change, and have 0 where there is none.
pub fn size_of(number: u8) -> u8
    ensures { (result ≡ size_of number) × (result ≤ 23) }
{
    for row in COMMANDS {
        if row.op == number {
            return row.size;
        }
    }
    0
}

// The place of the checksum.
pub fn limit(text: &[u8]) -> u8
    ensures { result ≡ limit text.now }
{
    octets::byte(text, 0).saturating_sub(1)
}

// Whether the length byte is 6 to the entry's size.
pub fn length_good(text: &[u8]) -> bool
    ensures { result ≡ length_good text.now }
{
    let len = octets::byte(text, 0);
    6 <= len && len as usize <= text.len()
}

// Whether the last byte is the XOR of all before it: begun with that byte, the XOR of all takes it out again.
pub fn xor_good(text: &[u8]) -> bool
    ensures { result ≡ xor_good text.now }
{
    let entry = octets::part(text, 0, octets::byte(text, 0) as usize);
    let sum = octets::byte(entry, limit(text) as usize);
    sum == octets::xor_on(sum, entry)
}

// The test of an entry, length, XOR, repeats: its repeats, or why it can't be entered.
pub fn header_of(text: &[u8]) -> Result<u8, Fault>
    ensures { result ≡ header_of text.now }
{
    if !length_good(text) || !xor_good(text) {
        return Err(Fault { code: 2, place: 0 });
    }
    let repeats = octets::byte(text, 3);
    if repeats == 0 {
        return Err(Fault { code: 10, place: 3 });
    }
    Ok(repeats)
}

// Whether no command can stand at a place: it is below 4, or the length byte is bad, or it is not before the checksum.
fn none_there(text: &[u8], at: usize) -> bool
    ensures value { result ≡ none_there text.now at }
    ensures else_inside { result ≡ false → (at < limit text.now) × (limit text.now < length text.now) × (limit text.now < 256) }
{
    at < 4 || !length_good(text) || limit(text) as usize <= at
}

// How many bytes stand from a place on before the checksum.
fn room(text: &[u8], at: usize) -> u8
    requires { at ≤ limit text.now }
    ensures { at + result ≡ limit text.now }
{
    limit(text) - at as u8
}

// The word at a place of a text that holds it whole.
fn word_in(text: &[u8], at: usize) -> u16
    requires { at + 1 < length text.now }
    ensures { result ≡ word_at text.now at }
{
    octets::pair(text[at], text[at + 1])
}

// The command that stands whole at a place, its operand behind its number.
// Stays: a match is no plainer, since a row's number is no pattern and would need a constant of its own beside the row.
fn decode(text: &[u8], at: usize) -> Command
    requires nonzero { 0 < size_of (byte_at text.now at) }
    requires at_in_bounds { at + size_of (byte_at text.now at) < length text.now }
    ensures { result ≡ decoded text.now at }
{
    let number = text[at];
    if number == RUN_RASTER.op {
        return Command::RunRaster;
    }
    if number == EXPOSE.op {
        return Command::Expose(word_in(text, at + 1));
    }
    if number == LOOP_BACK.op {
        return Command::LoopBack(text[at + 1]);
    }
    if number == CALL_SEQUENCE.op {
        return Command::CallSequence(text[at + 1]);
    }
    if number == TERMINATE.op {
        return Command::Terminate;
    }
    Command::Delay(word_in(text, at + 1))
}

// What stands at a place, which may be any number.
#[tactic(auto, unfolding(crate::specs::Text::command_at))]
fn command_from(text: &[u8], at: usize) -> Command
    ensures { result ≡ command_at text.now at }
{
    if none_there(text, at) {
        return Command::Nothing;
    }
    let size = size_of(text[at]);
    if size == 0 {
        return Command::Unknown;
    }
    if room(text, at) < size {
        return Command::Unfit;
    }
    decode(text, at)
}

// The command at a place.
#[tactic(auto, using(crate::proofs::Laws::size_below), unfolding(crate::specs::Text::size_at))]
pub fn command_at(text: &[u8], at: Place) -> Command
    ensures value { result ≡ command_at text.now at.0 }
    ensures result_bound { at.0 + size_of (number_of result) < 256 }
{
    command_from(text, index(at))
}

// The byte that stands k after a place.
// Stays: here and in the next a text and a place in it, as the public readers below take them, each with its theorem of one answer.
fn byte_after(text: &[u8], at: Place, k: u8) -> u8
    ensures { result ≡ byte_at text.now (at.0 + k) }
{
    octets::byte(text, index(at) + k as usize)
}

// The word that stands k after a place.
fn word_after(text: &[u8], at: Place, k: u8) -> u16
    ensures { result ≡ word_at text.now (at.0 + k) }
{
    octets::word(text, index(at) + k as usize)
}

// The words of the run raster at a place.
pub fn raster_at(text: &[u8], at: Place) -> RasterWords
    ensures { result ≡ raster_at text.now at.0 }
{
    let set = byte_after(text, at, 13);
    RasterWords {
        id: word_after(text, at, 1),
        initial: word_after(text, at, 3),
        loops: word_after(text, at, 5),
        compression: word_after(text, at, 7),
        ocbx: byte_after(text, at, 9),
        ocby: byte_after(text, at, 10),
        flush: byte_after(text, at, 11),
        flushes: byte_after(text, at, 12),
        spare: set / 16,
        exposures: set % 16,
        asrc: byte_after(text, at, 14),
        nodes: byte_after(text, at, 15) / 16,
        repeats: word_after(text, at, 15) % 4096,
        skip: byte_after(text, at, 17),
        readout: byte_after(text, at, 18),
        step: word_after(text, at, 19),
        list: byte_after(text, at, 21),
        science: byte_after(text, at, 22),
    }
}

// The identifier of the run raster at a place.
pub fn id_at(text: &[u8], at: Place) -> u16
    ensures { result ≡ (raster_at text.now at.0).id }
{
    word_after(text, at, 1)
}

// The mirror's first position in the run raster at a place.
pub fn initial_at(text: &[u8], at: Place) -> u16
    ensures { result ≡ (raster_at text.now at.0).initial }
{
    word_after(text, at, 3)
}

// The loops of the run raster at a place.
pub fn loops_at(text: &[u8], at: Place) -> u16
    ensures { result ≡ (raster_at text.now at.0).loops }
{
    word_after(text, at, 5)
}

// The exposures in a set of the run raster at a place.
pub fn exposures_at(text: &[u8], at: Place) -> u8
    ensures { result ≡ (raster_at text.now at.0).exposures }
{
    byte_after(text, at, 13) % 16
}

// The ASRC byte of the run raster at a place.
pub fn asrc_at(text: &[u8], at: Place) -> u8
    ensures { result ≡ (raster_at text.now at.0).asrc }
{
    byte_after(text, at, 14)
}

// The repeats of the run raster at a place.
pub fn repeats_at(text: &[u8], at: Place) -> u16
    ensures { result ≡ (raster_at text.now at.0).repeats }
{
    word_after(text, at, 15) % 4096
}

// The ASRC skip of the run raster at a place.
pub fn skip_at(text: &[u8], at: Place) -> u8
    ensures { result ≡ (raster_at text.now at.0).skip }
{
    byte_after(text, at, 17)
}

// The mirror's step in the run raster at a place.
pub fn step_at(text: &[u8], at: Place) -> u16
    ensures { result ≡ (raster_at text.now at.0).step }
{
    word_after(text, at, 19)
}

// The line list's number in the run raster at a place.
pub fn list_at(text: &[u8], at: Place) -> u8
    ensures { result ≡ (raster_at text.now at.0).list }
{
    byte_after(text, at, 21)
}

// Whether the science flags, bits 2 to 5, go together: none or one of them, or the first two.
pub fn flags_good(science: u8) -> bool
    ensures { result ≡ flags_good science }
{
    matches!(
        science / 4 % 16,
        0b0000 | 0b1000 | 0b0100 | 0b0010 | 0b0001 | 0b1100
    )
}

// Whether a science flag that needs a mark is set: bit 3, 4 or 5.
pub fn needs_mark(science: u8) -> bool
    ensures { result ≡ needs_mark science }
{
    science / 4 % 8 != 0
}

impl Marks {
    // Whether a science flag is set that needs a mark which is not among these.
    pub fn lack(self, science: u8) -> bool
        ensures { result ≡ mark_missing self science }
    {
        science / 16 % 2 == 1 && !self.aec
            || science / 8 % 2 == 1 && !self.event
            || science / 4 % 2 == 1 && !self.flare
    }
}

// The marks as the bits of a byte, where a header's low byte has them.
impl From<Marks> for u8 {
    ghost from_gives = { λ marks bits. bits ≡ mark_bits marks };

    fn from(marks: Marks) -> u8 {
        u8::from(marks.aec) * 16 + u8::from(marks.event) * 8 + u8::from(marks.flare) * 4
    }
}

// The marks in the low bytes of headers.
impl From<u8> for Marks {
    ghost from_gives = { λ seen marks. marks ≡ marks_read seen };

    fn from(seen: u8) -> Marks {
        Marks {
            aec: seen / 16 % 2 == 1,
            event: seen / 8 % 2 == 1,
            flare: seen / 4 % 2 == 1,
        }
    }
}

// One walk over a line list, for its XOR and, where they are wanted, its marks. The low byte of window w's header is byte 15 + 6 x w. A
// count that grows by 171 with each byte, modulo 256, grows by 2 with each window; begun to be 0 at byte 15, it is there 2 x w, and at
// every other byte odd or above 48: so the compiler tests many bytes at once.
fn walk_list(start: u8, list: &[u8], wanted: bool) -> ListWalk
    requires { length list.now ≤ 164 }
    ensures sum_value { result.sum ≡ xor_on start list.now }
    ensures by_index { (b : ℕ) → b < 8 → byte_bit b result.seen ≡ (wanted && marked list.now (8 + b) ((length list.now - 10) / 6)) }
{
    if !wanted {
        return ListWalk {
            sum: octets::xor_on(start, list),
            seen: 0,
        };
    }
    let mut sum = start;
    let mut seen: u8 = 0;
    let mut count: u8 = 251;
    for byte in list {
        sum ^= *byte;
        if count % 2 == 0 && count <= 48 {
            seen |= *byte;
        }
        count = count.wrapping_add(171);
    }
    ListWalk { sum, seen }
}

// A line list's card: window count, length, checksum, in that order; the sum is taken as that of an entry is. Marks that are not wanted are
// not looked for.
// Stays: what says whether they are wanted, since the clauses here and of `kept_card` and `card_of` name it, `card_with wanted`; the
// private `walk_list` and `card_from` are handed it.
#[tactic(auto, unfolding(crate::specs::LineList::list_card))]
pub fn list_card(list: &[u8], wanted: bool) -> ListCard
    ensures { result ≡ card_with wanted (list_card list.now) }
{
    let len = octets::byte(list, 0);
    let windows = octets::byte(list, 2);
    if !matches!(windows, 1..=25) {
        return Err(BadList::WindowCount);
    }
    if len != 14 + 6 * windows {
        return Err(BadList::Length);
    }
    let whole = octets::part(list, 0, len as usize);
    let found = octets::byte(whole, 3);
    let walk = walk_list(found, whole, wanted);
    if found != walk.sum {
        return Err(BadList::Checksum(walk.sum));
    }
    Ok(Marks::from(walk.seen))
}

// A number and a value, put together.
fn reason_as(number: u8, value: u8) -> ReasonNumbers
    ensures { result ≡ reason_as number value }
{
    ReasonNumbers { number, value }
}

impl BadList {
    // What is wrong, by number and value.
    // Stays: `BadList::shown` may not change, and a From beside it would say the same again.
    pub fn shown(self) -> ReasonNumbers
        ensures { result ≡ bad_shown self }
    {
        match self {
            BadList::WindowCount => reason_as(1, 0),
            BadList::Length => reason_as(2, 0),
            BadList::Checksum(expected) => reason_as(3, expected),
        }
    }
}

// The test's answer by number and value.
pub fn card_shown(card: ListCard) -> ReasonNumbers
    ensures { result ≡ card_shown card }
{
    match card {
        Ok(_) => reason_as(0, 0),
        Err(bad) => bad.shown(),
    }
}

// The marks; a bad list has none.
pub fn marks_in(card: ListCard) -> Marks
    ensures { result ≡ marks_in card }
{
    card.unwrap_or_default()
}

// The card in four bytes.
pub fn card_bytes(card: ListCard) -> [u8; CARD]
    ensures { result ≡ card_bytes card }
{
    let shown = card_shown(card);
    [shown.number, shown.value, u8::from(marks_in(card)), 0]
}

// The card that four bytes are read as. Marks that are not wanted are left out.
fn card_from(card: &[u8], wanted: bool) -> ListCard
    ensures { result ≡ card_with wanted (card_read card.now) }
{
    match octets::byte(card, 0) {
        0 if wanted => Ok(Marks::from(octets::byte(card, 2))),
        0 => Ok(Marks::default()),
        1 => Err(BadList::WindowCount),
        2 => Err(BadList::Length),
        _ => Err(BadList::Checksum(octets::byte(card, 1))),
    }
}

// What is known of line list n from the cards that are kept. Marks that are not wanted are left out.
pub fn kept_card(kept: &[u8], n: u8, wanted: bool) -> ListCard
    ensures { result ≡ card_with wanted (cards_kept kept.now n) }
{
    card_from(octets::part(kept, n as usize * CARD, CARD), wanted)
}

// What is known of line list n from what is lent. Marks that are not wanted are left out.
pub fn card_of(lent: Lent, lists: &[u8], n: u8, wanted: bool) -> ListCard
    ensures { result ≡ card_with wanted (cards_lent lent lists.now n) }
{
    match lent {
        Lent::Lists => list_card(memory::list(lists, n), wanted),
        Lent::Cards => kept_card(lists, n, wanted),
    }
}

// The bytes that the command at a place takes, 0 where none stands there whole.
#[tactic(auto, unfolding(crate::specs::Text::size_at, crate::specs::Text::command_at, crate::specs::Text::size_of))]
fn size_at(text: &[u8], at: usize) -> usize
    ensures value { result ≡ size_at text.now at }
    ensures whole { result ≢ 0 → (result ≡ size_of (byte_at text.now at)) × (at + result < length text.now) × (at + result < 256) }
{
    if none_there(text, at) {
        return 0;
    }
    let size = size_of(text[at]);
    if room(text, at) < size {
        0
    } else {
        size as usize
    }
}

// Whether a run raster stands whole at a place.
pub fn raster_stands(text: &[u8], at: Place) -> bool
    ensures { result ≡ is_run_raster (command_at text.now at.0) }
{
    matches!(command_at(text, at), Command::RunRaster)
}

// The place past the command at a place, or the place itself where none stands there whole.
pub fn past(text: &[u8], at: Place) -> u8
    ensures { result ≡ at.0 + size_at text.now at.0 }
{
    let place = index(at);
    (place + size_at(text, place)) as u8
}

// Whether t is a command's start at or before the first exposure before q, both counted on from a place past the raster.
// Stays: tried with `target_good` as one `for` over an iterator of the starts, which takes 15 % more instructions and the check 11 % more time.
fn leads_to_exposure(text: &[u8], from: usize, q: usize, t: usize) -> bool
    requires { 0 < t }
    ensures { (r : ℕ) → r < from → result ≡ (among t (starts text.now (length text.now) from) && nat_le t (first_exposure text.now r q (starts text.now (length text.now) from))) }
{
    let mut at = from;
    let mut seen = false;
    while at < q {
        let size = size_at(text, at);
        if size == 0 {
            return false;
        }
        seen |= at == t;
        if text[at] == EXPOSE.op {
            return seen;
        }
        at += size;
    }
    false
}

// Whether the loop back at q may jump to t, in the raster at r. A run raster and an expose, which most texts are made of, are passed in
// branches of their own: so the next place is known before the byte is there, where the size of another command waits for it.
// Stays: tried as a `for` over an iterator of the starts, with these branches in its `next`: 15 % more instructions, the check 11 % more time.
pub fn target_good(text: &[u8], r: Place, q: Place, t: u8) -> bool
    ensures { result ≡ target_good text.now r.0 q.0 t }
{
    let raster = index(r);
    let target = t as usize;
    if target <= raster {
        return false;
    }
    let mut at = 4;
    while at <= raster {
        let number = octets::byte(text, at);
        if number == RUN_RASTER.op {
            if size_at(text, at) == 0 {
                return false;
            }
            at += RUN_RASTER.size as usize;
        } else if number == EXPOSE.op {
            if size_at(text, at) == 0 {
                return false;
            }
            at += EXPOSE.size as usize;
        } else {
            let size = size_at(text, at);
            if size == 0 {
                return false;
            }
            at += size;
        }
    }
    leads_to_exposure(text, at, index(q), target)
}
