// What the unit shows of itself: its counts and its log, what commands set, what a run leaves, and the status that is written of them.
#![tactic(auto)]

ghost use Rattle.std.specs.Prelude.{◌+◌, ◌≡◌, ◌≤◌, cond, ltb, length};
ghost use Rattle.std.proofs.lemmas.List.Edits.{sets};
ghost use Rattle.octets.specs.Bytes.{halves};
ghost use Rattle.memory.specs.Memory.{written};
ghost use Rattle.status.specs.State.{log_of, arrived, failed, cleared, watched};
ghost use Rattle.status.specs.Status.{running, or_zero, status_bytes};

use runner::{Event, Runner};

// The bytes of a status: 4, and a block of 100.
pub const STATUS: usize = 104;

// The log of the last packet: BC1, BC2, BC3, length.
#[derive(Clone, Copy, Default)]
pub struct Log {
    pub bc1: u8,
    pub bc2: u8,
    pub bc3: u8,
    pub size: u8,
}

// What a refusal may change: the counts, the failure fields and the log.
// Stays: the code and the number are numbers, since the state that C lends may hold any and the status shows what it holds.
#[derive(Clone, Copy, Default)]
pub struct Ledger {
    pub received: u16,
    pub failed: u16,
    pub code: u8,
    pub number: u8,
    pub log: Log,
}

// What commands set: the mode, whether mode changes are allowed, STATUS_PC, and the selection, 255 for none.
#[derive(Clone, Copy)]
pub struct Control {
    pub mode: u8,
    pub allowed: bool,
    pub requests: u16,
    pub selection: u8,
}

// What the status shows of the run beside the runner: line list, exposures since AUTO, abort code.
#[derive(Clone, Copy, Default)]
pub struct Watch {
    pub list: u8,
    pub exposures: u16,
    pub abort: u8,
}

// The length that the log keeps: 255 for a packet longer than any that is taken.
fn log_size(n: usize) -> u8
    ensures { result ≡ cond (ltb 133 n) 255 n }
{
    if telecommand::LONGEST_PACKET < n {
        255
    } else {
        n as u8
    }
}

// The log of a packet: BC1 to BC3, 0 where absent, and its length.
fn log_of(pkt: &[u8]) -> Log
    ensures { result ≡ log_of pkt.now }
{
    Log {
        bc1: octets::byte(pkt, 0),
        bc2: octets::byte(pkt, 1),
        bc3: octets::byte(pkt, 2),
        size: log_size(pkt.len()),
    }
}

impl Ledger {
    // A packet counted and logged.
    pub fn arrived(self, pkt: &[u8]) -> Ledger
        ensures { result ≡ arrived pkt.now self }
    {
        Ledger {
            received: octets::counted(self.received),
            log: log_of(pkt),
            ..self
        }
    }

    // A failure counted and shown.
    pub fn failed(self, number: u8, code: u8) -> Ledger
        ensures { result ≡ failed number code self }
    {
        Ledger {
            failed: octets::counted(self.failed),
            code,
            number,
            ..self
        }
    }

    // No failure is shown.
    pub fn cleared(self) -> Ledger
        ensures { result ≡ cleared self }
    {
        Ledger {
            code: 0,
            number: 0,
            ..self
        }
    }
}

// What the status takes from a step's event: the line list, the count of exposures, the abort code.
pub fn watched(event: Event, watch: Watch) -> Watch
    ensures { result ≡ watched event watch }
{
    match event {
        Event::Raster(_, _, list) => Watch { list, ..watch },
        Event::Exp(_) => Watch {
            exposures: octets::counted(watch.exposures),
            ..watch
        },
        Event::Abort(code, _, _) => Watch {
            abort: code,
            ..watch
        },
        _ => watch,
    }
}

// Two numbers in the halves of a byte.
fn halves(high: u8, low: u8) -> u8
    ensures { result ≡ halves high low }
{
    high % 16 * 16 + low % 16
}

// Byte 17 of the status: 2 in the high half, 1 running or 2 stopped in the low.
fn running_byte(on: bool) -> u8
    ensures { result ≡ halves 2 (running on) }
{
    halves(2, if on { 1 } else { 2 })
}

// A sequence's number, 0 if none.
fn or_zero(n: u8) -> u8
    ensures { result ≡ or_zero n }
{
    if n == Runner::NONE { 0 } else { n }
}

// Writes bytes over a status from a place on.
fn put<const N: usize>(out: &mut [u8; STATUS], at: usize, bytes: [u8; N])
    requires { at + N ≤ 104 }
    ensures { out.new ≡ sets out.old at bytes.entry }
{
    out[at..at + N].copy_from_slice(&bytes);
}

// Fills an output with the status, over zeros: the paper's positions of its block are each 4 further on here.
fn fill(
    ledger: Ledger,
    control: Control,
    watch: Watch,
    runner: Runner,
    time: u32,
    out: &mut [u8; STATUS],
)
    ensures { out.new ≡ status_bytes ledger control watch runner time }
{
    let log = ledger.log;
    *out = [0; STATUS];
    put(out, 0, [0x01, 0, 0, 0x64, 0x10]);
    put(out, 5, [halves(control.mode, ledger.code)]);
    put(out, 6, control.requests.to_be_bytes());
    put(out, 8, time.to_be_bytes());
    put(out, 12, ledger.received.to_be_bytes());
    put(out, 16, ledger.failed.to_be_bytes());
    put(out, 18, [ledger.number]);
    put(out, 21, [running_byte(runner.running)]);
    put(
        out,
        24,
        [or_zero(runner.sequence), runner.place, watch.list],
    );
    put(out, 28, watch.exposures.to_be_bytes());
    put(out, 30, runner.mirror.to_be_bytes());
    put(out, 68, [log.bc1, log.bc2, log.bc3, log.size]);
    put(out, 94, [halves(watch.abort, 0)]);
}

// Writes the status over the output's start, where it has room.
// Stays: the contract of `put_status` names the four parts, and the unit that holds them is of a crate above.
pub fn put_status(
    ledger: Ledger,
    control: Control,
    watch: Watch,
    runner: Runner,
    time: u32,
    out: &mut [u8],
)
    ensures { out.new ≡ written out.old 0 (status_bytes ledger control watch runner time) }
{
    if let Some(status) = out.first_chunk_mut() {
        fill(ledger, control, watch, runner, time, status);
    }
}
