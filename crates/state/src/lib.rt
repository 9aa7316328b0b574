// The unit kept as the 36 bytes of the library's state: read out of them, and what changed written over them. Nothing is written past
// the end of a slice.
#![tactic(auto)]

ghost use Rattle.std.specs.Prelude.{◌≡◌, ◌+◌, ◌<◌, ◌≤◌};
ghost use Rattle.std.proofs.lemmas.List.Edits.{sets};
ghost use Rattle.octets.specs.Bytes.{word_at, two};
ghost use Rattle.octets.specs.Layout.{signed};
ghost use Rattle.unit.specs.State.{with_runner};
ghost use Rattle.state.specs.State.{held_unit, unit_of, flags_wrong};
ghost use Rattle.state.specs.Parts.{log_over, ledger_over, place_over, run_over, shift_over, raster_over, next_over, step_over, obeyed_over, answer_over};

use runner::{Event, OpenRaster, Runner};
use status::{Control, Ledger, Log, Watch};
use telecommand::Telecommand;
use unit::{Answer, Unit};

// The bytes that hold a state.
pub const STATE: usize = 36;

// The word at a place inside a state.
fn word_in(state: &[u8; STATE], at: usize) -> u16
    requires { at < 35 }
    ensures { result ≡ word_at state.now at }
{
    u16::from_be_bytes([state[at], state[at + 1]])
}

// The ledger that the bytes of a state hold.
fn ledger_of(state: &[u8; STATE]) -> Ledger
    ensures { result ≡ (held_unit state.now).ledger }
{
    Ledger {
        received: word_in(state, 4),
        failed: word_in(state, 6),
        code: state[8],
        number: state[9],
        log: Log {
            bc1: state[11],
            bc2: state[12],
            bc3: state[13],
            size: state[14],
        },
    }
}

// The mode, the permission, the requests and the selection that the bytes of a state hold.
fn control_of(state: &[u8; STATE]) -> Control
    ensures { result ≡ (held_unit state.now).control }
{
    Control {
        mode: state[0],
        allowed: state[1] != 0,
        requests: word_in(state, 2),
        selection: state[15],
    }
}

// What the status takes from a run, as the bytes of a state hold it.
fn watch_of(state: &[u8; STATE]) -> Watch
    ensures { result ≡ (held_unit state.now).watch }
{
    Watch {
        list: state[18],
        exposures: word_in(state, 19),
        abort: state[10],
    }
}

// The shift that the bytes of a state hold.
fn shift_of(state: &[u8; STATE]) -> i16
    ensures { result ≡ signed (word_at state.now 34) }
{
    i16::from_be_bytes([state[34], state[35]])
}

// The runner that the bytes of a state hold; bytes of another size hold that of power-on.
#[tactic(auto, unfolding(crate::specs::State::unit_of))]
pub fn runner_of(state: &[u8]) -> Runner
    ensures { result ≡ (unit_of state.now).runner }
{
    let Some(state) = state.as_array::<STATE>() else {
        return Unit::power_on().runner;
    };
    Runner {
        sequence: state[16],
        place: state[17],
        running: state[23] != 0,
        entering: state[24] != 0,
        raster: OpenRaster {
            place: state[25],
            count: state[26],
            passes: word_in(state, 27),
            repeats: word_in(state, 29),
            run: word_in(state, 32),
            shift: shift_of(state),
        },
        rounds: state[31],
        mirror: word_in(state, 21),
    }
}

// The unit that the bytes of a state hold, with this runner; bytes of another size hold that of power-on. The runner is read apart, since
// the compiler takes two small reads into a call, and not one large.
#[tactic(auto, unfolding(crate::specs::State::unit_of))]
pub fn unit_of(state: &[u8], runner: Runner) -> Unit
    ensures { result ≡ with_runner runner (unit_of state.now) }
{
    match state.as_array::<STATE>() {
        Some(state) => Unit {
            ledger: ledger_of(state),
            control: control_of(state),
            watch: watch_of(state),
            runner,
        },
        None => Unit {
            runner,
            ..Unit::power_on()
        },
    }
}

// Writes bytes from a place on, nothing past the end.
fn put<const N: usize>(state: &mut [u8], at: usize, bytes: [u8; N])
    requires { at + N ≤ 36 }
    ensures { state.new ≡ sets state.old at bytes.entry }
{
    for (k, byte) in bytes.iter().enumerate() {
        if at + k < state.len() {
            state[at + k] = *byte;
        }
    }
}

// Writes a word at a place, high byte first.
fn put_word(state: &mut [u8], at: usize, n: u16)
    requires { at + 2 ≤ 36 }
    ensures { state.new ≡ sets state.old at (two n) }
{
    put(state, at, n.to_be_bytes());
}

// Writes a packet's count and log over the bytes of a state.
fn save_log(ledger: Ledger, state: &mut [u8])
    ensures { state.new ≡ log_over ledger state.old }
{
    let log = ledger.log;
    put_word(state, 4, ledger.received);
    put(state, 11, [log.bc1, log.bc2, log.bc3, log.size]);
}

// Writes what a refusal changes over the bytes of a state: the counts, the failure and the log.
fn save_ledger(ledger: Ledger, state: &mut [u8])
    ensures { state.new ≡ ledger_over ledger state.old }
{
    save_log(ledger, state);
    put_word(state, 6, ledger.failed);
    put(state, 8, [ledger.code, ledger.number]);
}

// Writes the sequence and the place over the bytes of a state.
fn save_place(runner: Runner, state: &mut [u8])
    ensures { state.new ≡ place_over runner state.old }
{
    put(state, 16, [runner.sequence, runner.place]);
}

// Writes what a start or a stop changes beside the sequence and the place over the bytes of a state.
fn save_run(watch: Watch, runner: Runner, state: &mut [u8])
    ensures { state.new ≡ run_over watch runner state.old }
{
    put(state, 10, [watch.abort]);
    put_word(state, 19, watch.exposures);
    put(
        state,
        23,
        [
            u8::from(runner.running),
            u8::from(runner.entering),
            runner.raster.place,
        ],
    );
}

// Writes the run number and the shift over the bytes of a state.
fn save_shift(raster: OpenRaster, state: &mut [u8])
    ensures { state.new ≡ shift_over raster state.old }
{
    put_word(state, 32, raster.run);
    put_word(state, 34, raster.shift.cast_unsigned());
}

// Writes the mirror and the open raster over the bytes of a state.
fn save_raster(runner: Runner, state: &mut [u8])
    ensures { state.new ≡ raster_over runner state.old }
{
    put_word(state, 21, runner.mirror);
    put(state, 25, [runner.raster.place, runner.raster.count]);
    put_word(state, 27, runner.raster.passes);
    put_word(state, 29, runner.raster.repeats);
    save_shift(runner.raster, state);
}

// Writes what an obeyed packet of this command changed over the bytes of a state, from the unit after it.
#[tactic(auto, unfolding(crate::specs::Parts::obeyed_over))]
fn save_obeyed(command: Telecommand, unit: Unit, state: &mut [u8])
    ensures { state.new ≡ obeyed_over command unit state.old }
{
    match command {
        Telecommand::Status => put_word(state, 2, unit.control.requests),
        Telecommand::Allow => {
            save_log(unit.ledger, state);
            put(state, 1, [u8::from(unit.control.allowed)]);
        }
        Telecommand::Mode => {
            save_log(unit.ledger, state);
            put(state, 0, [unit.control.mode]);
            save_place(unit.runner, state);
            save_run(unit.watch, unit.runner, state);
        }
        Telecommand::Clear => {
            save_log(unit.ledger, state);
            put(
                state,
                8,
                [unit.ledger.code, unit.ledger.number, unit.watch.abort],
            );
        }
        Telecommand::Select => {
            save_log(unit.ledger, state);
            put(state, 15, [unit.control.selection]);
            save_place(unit.runner, state);
        }
        _ => save_log(unit.ledger, state),
    }
}

// Writes what a packet changed over the bytes of a state: 16 and 17 change nothing.
#[tactic(auto, unfolding(crate::specs::Parts::answer_over))]
pub fn save_answer(answer: Answer, packet: &[u8], state: &mut [u8])
    ensures { state.new ≡ answer_over answer packet.now state.old }
{
    match answer.code {
        0 => {
            let command = telecommand::telecommand_of(octets::byte(packet, 0));
            save_obeyed(command, answer.unit, state);
        }
        1..=15 => save_ledger(answer.unit.ledger, state),
        _ => {}
    }
}

// Writes the repeats and the rounds left and the run number over the bytes of a state.
fn save_next(runner: Runner, state: &mut [u8])
    ensures { state.new ≡ next_over runner state.old }
{
    put_word(state, 29, runner.raster.repeats);
    put(state, 31, [runner.rounds]);
    put_word(state, 32, runner.raster.run);
}

// Writes what a step of this event moved over the bytes of a state, the place always, from the unit after it.
#[tactic(auto, unfolding(crate::specs::Parts::step_over))]
pub fn save_step(event: Event, unit: Unit, state: &mut [u8])
    ensures { state.new ≡ step_over event unit state.old }
{
    put(state, 17, [unit.runner.place]);
    match event {
        Event::Idle | Event::Wait(_) => {}
        Event::Enter(_) => {
            put(state, 24, [u8::from(unit.runner.entering)]);
            put(state, 31, [unit.runner.rounds]);
        }
        Event::Raster(_, _, list) => {
            put(state, 18, [list]);
            save_raster(unit.runner, state);
        }
        Event::Exp(_) => {
            put_word(state, 19, unit.watch.exposures);
            put_word(state, 21, unit.runner.mirror);
            put(state, 26, [unit.runner.raster.count]);
        }
        Event::Loop(_) => {
            put(state, 26, [unit.runner.raster.count]);
            put_word(state, 27, unit.runner.raster.passes);
        }
        Event::Next => save_next(unit.runner, state),
        Event::Done => put(state, 25, [unit.runner.raster.place]),
        Event::Call(_) => {
            put(state, 16, [unit.runner.sequence]);
            put(state, 24, [u8::from(unit.runner.entering)]);
        }
        Event::End => put(state, 23, [u8::from(unit.runner.running)]),
        Event::Abort(code, _, _) => {
            put(state, 10, [code]);
            put(state, 23, [u8::from(unit.runner.running)]);
        }
    }
}

// Whether a flag's byte is above 1.
// Stays: tried with `||`, a status request misses its bar of speed, 1.75 for 1.64, so no test branches.
#[tactic(auto, unfolding(crate::specs::State::flags_wrong))]
pub fn flags_wrong(state: &[u8]) -> bool
    ensures { result ≡ flags_wrong state.now }
{
    (1 < octets::byte(state, 1)) | (1 < octets::byte(state, 23)) | (1 < octets::byte(state, 24))
}
