// The two tables in memory: places, addresses, ranges that lie wholly in one table, the part that a range shows and
// the write of a packet's bytes into it.
#![tactic(auto)]

ghost use Rattle.std.specs.Prelude.{◌≡◌, ◌++◌, ◌*◌, ◌-◌, ◌≤◌, cond, length, take, drop};
ghost use Rattle.memory.specs.Memory.{format_of, place_of, address_of, range_of, range_from, range_at, within, is_wrong, part_of, tables_wrong, window_code, window_part, written, seqs_written, lists_written, entry_of, list_of};

// The sequence table: 16,384 bytes from 0x070000. In flight it has 128 entries of 128 bytes; at most so many sequences are listed.
pub const SEQUENCES: usize = 128;

pub const SEQUENCE_SIZE: usize = 128;

pub const SEQUENCE_TABLE: usize = 16384;

pub const SEQUENCE_ADDRESS: u32 = 0x070000;

// The line lists: 48 entries of 164 bytes, from 0x074000.
pub const LINE_LISTS: usize = 48;

pub const LAST_LINE_LIST: u8 = (LINE_LISTS - 1) as u8;

pub const LINE_LIST_SIZE: usize = 164;

pub const LINE_LIST_TABLE: usize = 7872;

pub const LINE_LIST_ADDRESS: u32 = 0x074000;

// The first address past both tables.
const PAST: u32 = 0x075EC0;

// The longest part that the desk may ask for, and the least output that is lent.
pub const LONGEST: usize = SEQUENCE_TABLE;

// The kinds of the sequence table: the flight unit's, and that of the old one on the bench. There is no other.
// Stays: the C interface hands a kind over as a number, and each public function that takes it, with the theorems of one answer, has an
// answer at any number, 16 for one that is no kind.
pub const FLIGHT: u32 = 0;

pub const BENCH: u32 = 1;

// The format of the sequence table: the size of an entry and the last sequence's number.
#[derive(Clone, Copy)]
pub struct Format {
    pub size: u16,
    pub last: u8,
}

impl Format {
    // The format of a kind: in flight 128 entries of 128 bytes, on the bench 64 of 256. That of no kind fills no table.
    pub fn of(kind: u32) -> Format
        ensures { result ≡ format_of kind }
    {
        match kind {
            FLIGHT => Format {
                size: 128,
                last: 127,
            },
            BENCH => Format {
                size: 256,
                last: 63,
            },
            _ => Format { size: 0, last: 0 },
        }
    }
}

// A place in a sequence. Only `Place::of` makes one.
#[derive(Clone, Copy, PartialEq, Eq)]
pub struct Place(u8);

impl Place {
    // The place of this number, where a sequence has it.
    pub fn of(format: Format, number: u8) -> Option<Place>
        ensures { result ≡ place_of format number }
    {
        (u16::from(number) < format.size).then_some(Place(number))
    }

    // The place's number.
    pub fn number(self) -> u8
        ensures { result ≡ self.0 }
    {
        self.0
    }
}

// An address in one of the tables. Only `Address::of` makes one.
// Stays: `place_of` and `address_of` may not change, and have two tests; one type for both would take a place for an address.
#[derive(Clone, Copy, PartialEq, Eq)]
pub struct Address(u32);

impl Address {
    // The address of this number, where a table has it.
    pub fn of(number: u32) -> Option<Address>
        ensures { result ≡ address_of number }
    {
        (SEQUENCE_ADDRESS..PAST)
            .contains(&number)
            .then_some(Address(number))
    }

    // The address's number.
    pub fn number(self) -> u32
        ensures { result ≡ self.0 }
    {
        self.0
    }
}

// A range of memory: in the sequence table or in the line lists at an offset, or wholly in neither.
// Stays: the definitions `range_of`, `part_of` and `is_wrong` name the three cases.
#[derive(Clone, Copy)]
pub enum Range {
    Sequences(usize),
    LineLists(usize),
    Wrong,
}

impl Range {
    // Whether the range is in no table.
    pub fn is_wrong(self) -> bool
        ensures { result ≡ is_wrong self }
    {
        matches!(self, Range::Wrong)
    }
}

// The offset of an address in the table of this size whose first address is given, where a length from it lies in that table. No sum
// is made, so no length is too long to ask.
fn offset_in(first: u32, size: usize, at: u32, len: usize) -> Option<usize>
    ensures { result ≡ cond (within first size at len) (Some (at - first)) None }
{
    let offset = at.checked_sub(first)? as usize;
    (len <= size.checked_sub(offset)?).then_some(offset)
}

impl Address {
    // The range of a length from this address.
    #[tactic(auto, unfolding(crate::specs::Memory::range_of))]
    pub fn range(self, len: usize) -> Range
        ensures { result ≡ range_of self.0 len }
    {
        if len == 0 || LONGEST < len {
            return Range::Wrong;
        }
        if let Some(at) = offset_in(SEQUENCE_ADDRESS, SEQUENCE_TABLE, self.0, len) {
            return Range::Sequences(at);
        }
        if let Some(at) = offset_in(LINE_LIST_ADDRESS, LINE_LIST_TABLE, self.0, len) {
            return Range::LineLists(at);
        }
        Range::Wrong
    }
}

// The range of a length from what the test of an address found: from none, none.
pub fn range_from(address: Option<Address>, len: usize) -> Range
    ensures { result ≡ range_from address len }
{
    match address {
        Some(address) => address.range(len),
        None => Range::Wrong,
    }
}

// The range of a length from an address that may be any number.
#[tactic(auto, unfolding(crate::specs::Memory::range_at))]
pub fn range_at(address: u32, len: usize) -> Range
    ensures { result ≡ range_at address len }
{
    range_from(Address::of(address), len)
}

// Whether there is no such kind of tables, or a lent table has a wrong size.
// Stays: here and below the kind and the two tables are three parameters, which the contracts of these public functions name.
#[tactic(auto, using(crate::proofs::Laws::kinds), unfolding(crate::specs::Memory::tables_wrong))]
pub fn tables_wrong(kind: u32, seqs: &[u8], lists: &[u8]) -> bool
    ensures { result ≡ tables_wrong (format_of kind) seqs.now lists.now }
{
    BENCH < kind || seqs.len() != SEQUENCE_TABLE || lists.len() != LINE_LIST_TABLE
}

// A range's own bytes in its table; a wrong range has none.
pub fn part_of<'a>(seqs: &'a [u8], lists: &'a [u8], len: usize, range: Range) -> &'a [u8]
    ensures { result.now ≡ part_of seqs.now lists.now len range }
{
    match range {
        Range::Sequences(at) => octets::part(seqs, at, len),
        Range::LineLists(at) => octets::part(lists, at, len),
        Range::Wrong => &[],
    }
}

// The code beside the part that the desk asks for: 16 for wrong tables or no kind, then 7, else 0.
// Stays: the definition `window_code` and its theorem of one result have the code as a number.
#[tactic(auto, unfolding(crate::specs::Memory::window_code, crate::specs::Memory::window_rows))]
pub fn window_code(kind: u32, seqs: &[u8], lists: &[u8], address: u32, len: usize) -> u8
    ensures { result ≡ window_code (format_of kind) seqs.now lists.now address len }
{
    if tables_wrong(kind, seqs, lists) {
        16
    } else if range_at(address, len).is_wrong() {
        7
    } else {
        0
    }
}

// The part that the desk asks for: the table's own bytes, or the empty part where the code is not 0.
#[tactic(auto, unfolding(crate::specs::Memory::window_part))]
pub fn window<'a>(kind: u32, seqs: &'a [u8], lists: &'a [u8], address: u32, len: usize) -> &'a [u8]
    ensures { result.now ≡ window_part (format_of kind) seqs.now lists.now address len }
{
    if window_code(kind, seqs, lists, address, len) == 0 {
        part_of(seqs, lists, len, range_at(address, len))
    } else {
        &[]
    }
}

// Copies bytes over the start of others. They go by way of a block of our own, which overlaps no lent slice: so the
// compiler makes one block move of both copies, where a copy from one lent slice to another tests for overlap first.
// Stays: without the block an uplink of 128 bytes takes 8 % more instructions, 1.80 of the plain one's time past its bar of 1.7.
fn copy(src: &[u8], dst: &mut [u8])
    requires { length src.now ≤ length dst.old }
    ensures { dst.new ≡ src.now ++ drop (length src.now) dst.old }
{
    let n = src.len();
    if LONGEST < n {
        dst[..n].copy_from_slice(src);
        return;
    }
    let mut block = [0u8; LONGEST];
    block[..n].copy_from_slice(src);
    dst[..n].copy_from_slice(&block[..n]);
}

// Writes bytes over a table from an offset on; where they do not fit, nothing.
pub fn write(table: &mut [u8], at: usize, src: &[u8])
    ensures { table.new ≡ written table.old at src.now }
{
    if at <= table.len() && src.len() <= table.len() - at {
        copy(src, &mut table[at..at + src.len()]);
    }
}

// Writes a packet's bytes into a range; a wrong range is written nowhere.
pub fn write_range(seqs: &mut [u8], lists: &mut [u8], range: Range, src: &[u8])
    ensures seqs_after { seqs.new ≡ seqs_written range seqs.old src.now }
    ensures lists_after { lists.new ≡ lists_written range lists.old src.now }
{
    match range {
        Range::Sequences(at) => write(seqs, at, src),
        Range::LineLists(at) => write(lists, at, src),
        Range::Wrong => {}
    }
}

// Entry n's own bytes in a table of entries of this size.
fn nth(table: &[u8], n: u8, size: u16) -> &[u8]
    ensures { result.now ≡ take size (drop (n * size) table.now) }
{
    let size = usize::from(size);
    octets::part(table, usize::from(n) * size, size)
}

// Sequence n's own bytes in the table.
pub fn entry(format: Format, seqs: &[u8], n: u8) -> &[u8]
    ensures { result.now ≡ entry_of format seqs.now n }
{
    nth(seqs, n, format.size)
}

// Line list n's own bytes in the table.
pub fn list(lists: &[u8], n: u8) -> &[u8]
    ensures { result.now ≡ list_of lists.now n }
{
    nth(lists, n, LINE_LIST_SIZE as u16)
}
