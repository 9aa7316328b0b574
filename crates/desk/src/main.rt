// The desk: packets and steps from standard input, answers and events to standard output; `desk old` for a unit of the old kind. Text waits
// to be written until a piece of input is worked off, or until it has no room left; so a person sees each answer before the next read.
#![tactic(auto)]

ghost use Rattle.std.specs.Prelude.{◌<◌, ◌≤◌, length};

use console::Page;
use line::Line;
use std::io::Read;
use unit::{Unit, UnitStep};

// The bytes of a piece of input, and those of text that can wait.
const PIECE: usize = 65536;

// More text than one packet is answered with: its TC line and the DU line of 16,384 bytes.
const ANSWER: usize = 33000;

// More text than one step shows.
const EVENT: usize = 40;

// More bytes than a packet's line or a STEP has.
const TOO_LONG: usize = 512;

// The unit's tables and their kind, what it is lent for an answer, and the page for what is shown. Each method that is given the unit answers
// what it is then.
// Stays: a kind is a number, as `line::kind_named` answers and `Unit::packet` takes it, whose clauses have it so.
#[derive(Drop)]
struct Desk<'a> {
    kind: u32,
    seqs: &'a mut [u8],
    lists: &'a mut [u8],
    out: &'a mut [u8],
    page: Page<'a>,
}

impl<'a> Desk<'a> {
    // A packet obeyed or refused, and its answer shown: the code, and the bytes where there are any, a status block or a dump.
    fn take_packet(&mut self, rt: &impl Print, unit: Unit, packet: &[u8]) -> Unit {
        let answer = unit.packet(self.kind, self.seqs, self.lists, self.out, 0, packet);
        let bc1 = octets::byte(packet, 0);
        self.page.make_room(rt, ANSWER);
        self.page.put_answer(bc1, answer.code);
        if answer.size != 0 {
            let out = &mut *self.out;
            self.page
                .put_block(bc1 == 0x01, octets::part(out, 0, answer.size));
        }
        answer.unit
    }

    // The unit's next step.
    fn step(&self, unit: Unit) -> UnitStep {
        unit.step(self.kind, self.seqs, self.lists)
    }

    // One step, and its event shown. The desk's tables and state are never refused.
    fn take_step(&mut self, rt: &impl Print, unit: Unit) -> Unit {
        self.page.make_room(rt, EVENT);
        let step = self.step(unit);
        if let Ok(event) = step.outcome {
            self.page.put_event(event, step.unit.watch.exposures);
        }
        step.unit
    }

    // So many steps.
    fn take_steps(&mut self, rt: &impl Print, start: Unit, n: u16) -> Unit {
        let mut unit = start;
        for _ in 0..n {
            unit = self.take_step(rt, unit);
        }
        unit
    }

    // A line: a packet, steps, or BAD, which reaches the unit in no way.
    fn take_line(&mut self, rt: &impl Print, unit: Unit, typed: &[u8]) -> Unit {
        let mut packet = [0u8; 140];
        match line::read_line(typed, &mut packet) {
            Line::Packet(n) => self.take_packet(rt, unit, octets::part(&packet, 0, n)),
            Line::Steps(n) => self.take_steps(rt, unit, n),
            Line::Bad => {
                self.page.make_room(rt, EVENT);
                self.page.put_bad();
                unit
            }
        }
    }

    // All lines of what was typed, each with its newline, and their answers shown.
    fn take_lines(&mut self, rt: &impl Print, start: Unit, typed: &[u8]) -> Unit {
        let mut unit = start;
        for part in typed.split_inclusive(|b| *b == b'\n') {
            unit = self.take_line(rt, unit, part.strip_suffix(b"\n").unwrap_or(part));
        }
        self.page.show(rt);
        unit
    }
}

// How many bytes the whole lines of what was typed have.
fn whole(typed: &[u8]) -> usize
    ensures { result ≤ length typed.now }
{
    match typed.iter().rposition(|b| *b == b'\n') {
        Some(last) => last + 1,
        None => 0,
    }
}

// Keeps the line that is not whole yet: moves it to the front, and answers how long it is. No more of it is kept than makes it too long, so
// that it is BAD whatever comes.
fn keep(piece: &mut [u8], from: usize, count: usize) -> usize
    requires whole { from ≤ count }
    requires read { count ≤ length piece.old }
    ensures { result ≤ 512 }
{
    let rest = &piece[from..count];
    let kept = rest.len().min(TOO_LONG);
    let mut block = [0u8; TOO_LONG];
    block[..kept].copy_from_slice(&rest[..kept]);
    piece[..kept].copy_from_slice(&block[..kept]);
    kept
}

// Closes the line that is kept with a newline, where there is one, and answers how many bytes it has then.
fn close(piece: &mut [u8], kept: usize) -> usize
    requires { kept < length piece.old }
    ensures { result ≤ length piece.old }
{
    if kept == 0 {
        return 0;
    }
    piece[kept] = b'\n';
    kept + 1
}

// Every piece of input, behind the line that is kept of the last one; where the input has ended, that line. A proved loop has to end: so many
// pieces no input has.
fn run(rt: &impl Print, input: &mut impl Read, desk: &mut Desk, piece: &mut [u8; PIECE]) {
    let mut unit = Unit::power_on();
    let mut kept = 0;
    for _ in 0..u64::MAX {
        let more = console::read_some(input, &mut piece[kept..]);
        let count = kept + more;
        let end = if more == 0 {
            close(piece, kept)
        } else {
            whole(&piece[..count])
        };
        unit = desk.take_lines(rt, unit, &piece[..end]);
        if more == 0 {
            return;
        }
        kept = keep(piece, end, count);
    }
}

fn main(rt: HostRuntime) {
    let mut seqs = [0u8; Unit::SEQUENCE_TABLE];
    let mut lists = [0u8; Unit::LINE_LIST_TABLE];
    let mut out = [0u8; Unit::SEQUENCE_TABLE];
    let mut piece = [0u8; PIECE];
    let mut text = [0u8; PIECE];
    let kind = line::kind_named(console::word(&rt, 1, &mut piece));
    let page = Page::over(&mut text);
    let mut desk = Desk {
        kind,
        seqs: &mut seqs,
        lists: &mut lists,
        out: &mut out,
        page,
    };
    let mut input = rt.stdin();
    run(&rt, &mut input, &mut desk, &mut piece)
}
