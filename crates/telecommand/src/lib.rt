// A packet by its own bytes: the command that it names, its length, the range that it asks for or writes.
#![tactic(auto)]

ghost use Rattle.std.specs.Prelude.{◌≡◌, drop};
ghost use Rattle.octets.specs.Bytes.{triple_at};
ghost use Rattle.octets.specs.Rows.{first_code};
ghost use Rattle.memory.specs.Memory.{part_of, seqs_written, lists_written};
ghost use Rattle.telecommand.specs.Packet.{foreign, telecommand_of, shape_rows, pair_allowed, dump_range, uplink_range, writes_to};
ghost use Rattle.telecommand.specs.Refusal.{refusal_code, result_code};

use memory::Range;

// The bytes of the longest packet.
pub const LONGEST_PACKET: usize = 133;

// The command that a packet's BC1 names: one of the table, one of another subsystem (5), or unknown (6).
// Stays: the last two are commands, and no `Result`'s error, since the clause of `telecommand_of` and the theorems on codes name them.
#[derive(Clone, Copy, PartialEq, Eq)]
pub enum Telecommand {
    Status,
    Dump,
    Allow,
    Mode,
    Clear,
    Select,
    Uplink,
    Foreign,
    Unheard,
}

// Why a packet is refused.
#[derive(Clone, Copy, PartialEq, Eq)]
pub enum Refusal {
    // The packet is empty, or its length is not its command's.
    WrongLength = 1,
    // The pair of modes is not allowed, or a start has nothing selected.
    PairNotAllowed = 3,
    // A mode change before mode changes were allowed.
    NotYetAllowed = 4,
    // The command is another subsystem's.
    OtherSubsystem = 5,
    // The command is not in the table, or the mode is one that is not built.
    NotInTable = 6,
    // A count or a range is wrong, or a sequence's number too high.
    WrongRange = 7,
    // The packet is longer than the longest.
    TooLong = 8,
    // There is no such mode.
    NoSuchMode = 9,
    // A selection outside MANUAL, or an uplink while a sequence runs.
    WrongMode = 10,
    // A lent table or the output is of wrong size.
    WrongSize = 16,
    // The state is out of range.
    OutOfRange = 17,
}

impl Refusal {
    // The code that a refused packet is answered.
    pub fn code(self) -> u8
        ensures { result ≡ refusal_code self }
    {
        self as u8
    }
}

// Whether a BC1 is another subsystem's.
fn foreign(n: u8) -> bool
    ensures { result ≡ foreign n }
{
    matches!(n, 0x00 | 0x10..=0x1F | 0xE0..=0xE4 | 0xF0..=0xF4 | 0xF6..=0xFF)
}

// The command that BC1 names.
// Stays: the name and the clause may not change, and a `From` would only call it.
#[tactic(auto, unfolding(crate::specs::Packet::telecommand_of))]
pub fn telecommand_of(bc1: u8) -> Telecommand
    ensures { result ≡ telecommand_of bc1 }
{
    match bc1 {
        0x01 => Telecommand::Status,
        0x07 => Telecommand::Dump,
        0x20 => Telecommand::Allow,
        0x21 => Telecommand::Mode,
        0x23 => Telecommand::Clear,
        0x83 => Telecommand::Select,
        0xE7 => Telecommand::Uplink,
        _ if foreign(bc1) => Telecommand::Foreign,
        _ => Telecommand::Unheard,
    }
}

impl Telecommand {
    // Why a packet is refused for its command or its length: another subsystem's, an unknown one, or another length than the command's.
    pub fn shape_fault(self, pkt: &[u8]) -> Result<(), Refusal>
        ensures { result_code result ≡ first_code (shape_rows self pkt.now) }
    {
        let n = pkt.len();
        let whole = match self {
            Telecommand::Status => n == 1,
            Telecommand::Dump => n == 7,
            Telecommand::Allow => n == 1 || n == 2,
            Telecommand::Mode => n == 2,
            Telecommand::Clear => n == 1,
            Telecommand::Select => n == 2,
            Telecommand::Uplink => n == 5 + octets::byte(pkt, 4) as usize,
            Telecommand::Foreign => return Err(Refusal::OtherSubsystem),
            Telecommand::Unheard => return Err(Refusal::NotInTable),
        };
        if whole {
            Ok(())
        } else {
            Err(Refusal::WrongLength)
        }
    }
}

// Whether a mode may follow another.
pub fn pair_allowed(from: u8, to: u8) -> bool
    ensures { result ≡ pair_allowed from to }
{
    matches!((from, to), (1, 2) | (2, 1) | (2, 3) | (3, 2))
}

// The range that a dump names.
pub fn dump_range(pkt: &[u8]) -> Range
    ensures { result ≡ dump_range pkt.now }
{
    memory::range_at(octets::triple(pkt, 1), octets::triple(pkt, 4) as usize)
}

// The range that an uplink names.
// Stays: both names may not change, and what they share is one call.
pub fn uplink_range(pkt: &[u8]) -> Range
    ensures { result ≡ uplink_range pkt.now }
{
    memory::range_at(octets::triple(pkt, 1), octets::byte(pkt, 4) as usize)
}

// The bytes that a dump names.
pub fn dumped<'a>(seqs: &'a [u8], lists: &'a [u8], pkt: &[u8]) -> &'a [u8]
    ensures { result.now ≡ part_of seqs.now lists.now (triple_at pkt.now 4) (dump_range pkt.now) }
{
    let len = octets::triple(pkt, 4) as usize;
    memory::part_of(seqs, lists, len, dump_range(pkt))
}

// Writes an uplink's data into its range; another command writes nothing.
pub fn uplink(command: Telecommand, seqs: &mut [u8], lists: &mut [u8], pkt: &[u8])
    ensures seqs_after { seqs.new ≡ seqs_written (writes_to command pkt.now) seqs.old (drop 5 pkt.now) }
    ensures lists_after { lists.new ≡ lists_written (writes_to command pkt.now) lists.old (drop 5 pkt.now) }
{
    if command == Telecommand::Uplink {
        memory::write_range(
            seqs,
            lists,
            uplink_range(pkt),
            octets::part(pkt, 5, pkt.len()),
        );
    }
}
