// The unit: packets, answers, and its step.
#![tactic(auto)]

ghost use Rattle.std.specs.Prelude.{◌≤◌, ◌≡◌, true, ◌++◌, leb, length, drop, IfOk};
ghost use Rattle.octets.specs.Bytes.{counted};
ghost use Rattle.octets.specs.Rows.{first_code, some};
ghost use Rattle.memory.specs.Memory.{format_of, window_code, window_part};
ghost use Rattle.telecommand.specs.declared.Telecommand.TheVariants.{Mode, Select, Uplink};
ghost use Rattle.telecommand.specs.Packet.{command_of};
ghost use Rattle.telecommand.specs.Refusal.{refusal_code, result_code};
ghost use Rattle.status.specs.State.{with_abort, with_mode, with_allowed, with_requests, cleared};
ghost use Rattle.unit.specs.State.{power_on, beyond, runs_wrong, range_tests, out_of_range, with_ledger, with_watch, with_control, started, stopped, moded, selected};
ghost use Rattle.unit.specs.Packet.{own_rows, lent_wrong, code_of};
ghost use Rattle.unit.specs.Answer.{with_arrival, obeyed_unit, reply, refused_unit, answer_of, seqs_after, lists_after, out_after};
ghost use Rattle.unit.specs.Step.{with_step, unit_step};

use memory::Format;
use runner::{Event, OpenRaster, Runner, Stepped};
use status::{Control, Ledger, Watch};
use telecommand::{Refusal, Telecommand};

#[derive(Clone, Copy)]
pub struct Unit {
    pub ledger: Ledger,
    pub control: Control,
    pub watch: Watch,
    pub runner: Runner,
}

// What a packet is answered: the code, the size of what was written to the output, and the unit after it.
// Stays: the code is a number, 0 for obeyed, as the theorem `PacketIs` and demands 1 and 2 have it, and as the C interface gives it.
#[derive(Clone, Copy)]
pub struct Answer {
    pub code: u8,
    pub size: usize,
    pub unit: Unit,
}

// What a step of the unit comes to: an event, or the code that it is refused with, 16 or 17.
// Stays: that code is a number, as the clause of `step` and demand 1 have it.
pub type Outcome = Result<Event, u8>;

#[derive(Clone, Copy)]
pub struct UnitStep {
    pub outcome: Outcome,
    pub unit: Unit,
}

impl Unit {
    // The mirror's end stop, the tables' counts and sizes, and the longest packet.
    pub const END_STOP: u16 = Runner::END_STOP;

    pub const SEQUENCES: usize = memory::SEQUENCES;

    pub const LINE_LISTS: usize = memory::LINE_LISTS;

    pub const SEQUENCE_TABLE: usize = Unit::SEQUENCES * memory::SEQUENCE_SIZE;

    pub const LINE_LIST_TABLE: usize = Unit::LINE_LISTS * memory::LINE_LIST_SIZE;

    pub const LONGEST_PACKET: usize = telecommand::LONGEST_PACKET;

    // The unit at power-on.
    #[tactic(auto, unfolding(crate::specs::State::power_on))]
    pub fn power_on() -> Unit
        ensures { result ≡ power_on }
    {
        Unit {
            ledger: Ledger::default(),
            control: Control {
                mode: 1,
                allowed: false,
                requests: 0,
                selection: Runner::NONE,
            },
            watch: Watch::default(),
            runner: Runner {
                sequence: Runner::NONE,
                place: 0,
                running: false,
                entering: false,
                raster: OpenRaster {
                    place: Runner::NONE,
                    count: 0,
                    passes: 0,
                    repeats: 0,
                    run: 0,
                    shift: 0,
                },
                rounds: 0,
                mirror: 0,
            },
        }
    }
}

// Whether a sequence's number that may be none is above the last one.
fn beyond(last: u8, n: u8) -> bool
    ensures { result ≡ beyond last n }
{
    last < n && n != Runner::NONE
}

// Whether a sequence has no such place.
fn no_place(format: Format, place: u8) -> bool
    ensures { result ≡ leb format.size place }
{
    format.size <= u16::from(place)
}

impl Unit {
    // Whether it runs outside AUTO, or with selection or status sequence none.
    #[tactic(auto, unfolding(crate::specs::State::runs_wrong))]
    fn runs_wrong(self) -> bool
        ensures { result ≡ runs_wrong self }
    {
        self.runner.running
            && (self.control.mode != 3
                || self.control.selection == Runner::NONE
                || self.runner.sequence == Runner::NONE)
    }

    // Whether the place, the open raster's place, the line list, the mirror, the exposures in the set or the run itself
    // is out of range: the tests from the seventh on.
    #[tactic(auto, unfolding(crate::specs::State::range_tests))]
    fn run_out_of_range(self, format: Format) -> bool
        ensures { result ≡ some (drop 6 (range_tests format self)) }
    {
        no_place(format, self.runner.place)
            | (no_place(format, self.runner.raster.place)
                & (self.runner.raster.place != Runner::NONE))
            | (memory::LAST_LINE_LIST < self.watch.list)
            | (Unit::END_STOP < self.runner.mirror)
            | (Runner::FULL_SET < self.runner.raster.count)
            | self.runs_wrong()
    }

    // Whether the state is out of range.
    // Stays: tried with `||`, an idle step misses its bar of speed, 1.47 for 1.25, so no test branches here or in the one before it.
    #[tactic(auto, unfolding(crate::specs::State::range_tests, crate::specs::State::out_of_range))]
    pub fn out_of_range(self, format: Format) -> bool
        ensures { result ≡ out_of_range format self }
    {
        (self.control.mode < 1)
            | (3 < self.control.mode)
            | (15 < self.ledger.code)
            | (15 < self.watch.abort)
            | beyond(format.last, self.runner.sequence)
            | beyond(format.last, self.control.selection)
            | self.run_out_of_range(format)
    }
}

impl Unit {
    // The unit that a packet arrived in.
    fn with_arrival(self, pkt: &[u8]) -> Unit
        ensures { result ≡ with_arrival pkt.now self }
    {
        Unit {
            ledger: self.ledger.arrived(pkt),
            ..self
        }
    }

    // A status request counted.
    fn asked(self) -> Unit
        ensures { result ≡ with_control (with_requests (counted self.control.requests) self.control) self }
    {
        Unit {
            control: Control {
                requests: octets::counted(self.control.requests),
                ..self.control
            },
            ..self
        }
    }

    // Mode changes are allowed until power off.
    fn allowed(self) -> Unit
        ensures { result ≡ with_control (with_allowed true self.control) self }
    {
        Unit {
            control: Control {
                allowed: true,
                ..self.control
            },
            ..self
        }
    }

    // Failed code, failed number and abort code to 0.
    fn cleared(self) -> Unit
        ensures { result ≡ with_ledger (cleared self.ledger) (with_watch (with_abort 0 self.watch) self) }
    {
        Unit {
            ledger: self.ledger.cleared(),
            watch: Watch {
                abort: 0,
                ..self.watch
            },
            ..self
        }
    }

    // The selected sequence started, to be entered.
    fn started(self) -> Unit
        ensures { result ≡ started self }
    {
        Unit {
            watch: Watch {
                exposures: 0,
                abort: 0,
                ..self.watch
            },
            runner: Runner {
                sequence: self.control.selection,
                place: 0,
                raster: OpenRaster {
                    place: Runner::NONE,
                    ..self.runner.raster
                },
                running: true,
                entering: true,
                ..self.runner
            },
            ..self
        }
    }

    // The sequence stopped by a command: abort code 1, the place kept.
    fn stopped(self) -> Unit
        ensures { result ≡ stopped self }
    {
        Unit {
            watch: Watch {
                abort: 1,
                ..self.watch
            },
            runner: Runner {
                running: false,
                ..self.runner
            },
            ..self
        }
    }

    // The mode alone changed.
    fn in_mode(self, mode: u8) -> Unit
        ensures { result ≡ with_control (with_mode mode self.control) self }
    {
        Unit {
            control: Control {
                mode,
                ..self.control
            },
            ..self
        }
    }

    // The mode changed: to AUTO a start, from a running sequence a stop.
    #[tactic(auto, unfolding(crate::specs::State::moded))]
    fn moded(self, mode: u8) -> Unit
        ensures { result ≡ moded mode self }
    {
        if mode == 3 {
            return self.started().in_mode(mode);
        }
        if self.runner.running {
            return self.stopped().in_mode(mode);
        }
        self.in_mode(mode)
    }

    // A sequence selected, and shown in the status at place 0.
    #[tactic(auto, unfolding(crate::specs::State::selected))]
    fn selected(self, number: u8) -> Unit
        ensures { result ≡ selected number self }
    {
        Unit {
            control: Control {
                selection: number,
                ..self.control
            },
            runner: Runner {
                sequence: number,
                place: 0,
                ..self.runner
            },
            ..self
        }
    }
}

impl Unit {
    // Why a mode change is refused.
    #[tactic(auto, unfolding(crate::specs::Packet::own_rows))]
    fn mode_fault(self, pkt: &[u8]) -> Result<(), Refusal>
        ensures { (F : Format) → result_code result ≡ first_code (own_rows F Mode self pkt.now) }
    {
        let mode = octets::byte(pkt, 1);
        if !self.control.allowed {
            return Err(Refusal::NotYetAllowed);
        }
        if mode < 1 || 5 < mode {
            return Err(Refusal::NoSuchMode);
        }
        if 3 < mode {
            return Err(Refusal::NotInTable);
        }
        if !telecommand::pair_allowed(self.control.mode, mode) {
            return Err(Refusal::PairNotAllowed);
        }
        if mode == 3 && self.control.selection == Runner::NONE {
            return Err(Refusal::PairNotAllowed);
        }
        Ok(())
    }

    // Why a selection is refused.
    #[tactic(auto, unfolding(crate::specs::Packet::own_rows))]
    fn select_fault(self, format: Format, pkt: &[u8]) -> Result<(), Refusal>
        ensures { result_code result ≡ first_code (own_rows format Select self pkt.now) }
    {
        if self.control.mode != 2 {
            return Err(Refusal::WrongMode);
        }
        if format.last < octets::byte(pkt, 1) {
            return Err(Refusal::WrongRange);
        }
        Ok(())
    }

    // Why an uplink is refused.
    #[tactic(auto, unfolding(crate::specs::Packet::own_rows))]
    fn uplink_fault(self, pkt: &[u8]) -> Result<(), Refusal>
        ensures { (F : Format) → result_code result ≡ first_code (own_rows F Uplink self pkt.now) }
    {
        if self.runner.running {
            return Err(Refusal::WrongMode);
        }
        if telecommand::uplink_range(pkt).is_wrong() {
            return Err(Refusal::WrongRange);
        }
        Ok(())
    }

    // Why the command's own checks refuse it.
    #[tactic(auto, unfolding(crate::specs::Packet::own_rows))]
    fn own_fault(self, format: Format, command: Telecommand, pkt: &[u8]) -> Result<(), Refusal>
        ensures { result_code result ≡ first_code (own_rows format command self pkt.now) }
    {
        match command {
            Telecommand::Dump if telecommand::dump_range(pkt).is_wrong() => {
                Err(Refusal::WrongRange)
            }
            Telecommand::Mode => self.mode_fault(pkt),
            Telecommand::Select => self.select_fault(format, pkt),
            Telecommand::Uplink => self.uplink_fault(pkt),
            _ => Ok(()),
        }
    }
}

// Whether there is no such kind of tables, or a lent table or the output has a wrong size.
// Stays: a kind and its two tables go side by side, since the types of this function, `packet`, `step` and `window` may not change.
#[tactic(auto, unfolding(crate::specs::Packet::lent_wrong))]
pub fn lent_wrong(kind: u32, seqs: &[u8], lists: &[u8], out: &[u8]) -> bool
    ensures { result ≡ lent_wrong (format_of kind) seqs.now lists.now out.now }
{
    memory::tables_wrong(kind, seqs, lists) || out.len() < memory::LONGEST
}

impl Unit {
    // The command that a packet is obeyed as, or why it is refused: by the first refusal that holds. No later one is looked at.
    #[tactic(auto, unfolding(crate::specs::Packet::packet_rows, crate::specs::Packet::code_of))]
    fn command_of(
        self,
        kind: u32,
        seqs: &[u8],
        lists: &[u8],
        out: &[u8],
        pkt: &[u8],
    ) -> Result<Telecommand, Refusal>
        ensures code { result_code result ≡ code_of (format_of kind) self seqs.now lists.now out.now pkt.now }
        ensures command { IfOk result (λ k. k ≡ command_of pkt.now) }
    {
        if lent_wrong(kind, seqs, lists, out) {
            return Err(Refusal::WrongSize);
        }
        let format = Format::of(kind);
        if self.out_of_range(format) {
            return Err(Refusal::OutOfRange);
        }
        let Some(bc1) = pkt.first() else {
            return Err(Refusal::WrongLength);
        };
        if Unit::LONGEST_PACKET < pkt.len() {
            return Err(Refusal::TooLong);
        }
        let command = telecommand::telecommand_of(*bc1);
        command.shape_fault(pkt)?;
        self.own_fault(format, command, pkt)?;
        Ok(command)
    }
}

impl Unit {
    // Writes what answers an obeyed packet over the output's start and gives its length. What stands past it stays.
    #[tactic(auto, unfolding(crate::specs::Status::status_of, crate::specs::Answer::effect, crate::specs::Answer::obeyed_unit, crate::specs::Answer::reply))]
    fn reply<'a>(
        self,
        command: Telecommand,
        seqs: &'a [u8],
        lists: &'a [u8],
        out: &mut [u8],
        time: u32,
        pkt: &[u8],
    ) -> usize
        requires { 16384 ≤ length out.old }
        ensures value { result ≡ length (reply command self time seqs.now lists.now pkt.now) }
        ensures out_after { out.new ≡ reply command self time seqs.now lists.now pkt.now ++ drop (length (reply command self time seqs.now lists.now pkt.now)) out.old }
    {
        match command {
            Telecommand::Status => {
                let unit = self.asked();
                status::put_status(
                    unit.ledger,
                    unit.control,
                    unit.watch,
                    unit.runner,
                    time,
                    out,
                );
                status::STATUS
            }
            Telecommand::Dump => {
                let part = telecommand::dumped(seqs, lists, pkt);
                memory::write(out, 0, part);
                part.len()
            }
            _ => 0,
        }
    }

    // The unit after an obeyed packet. Each arm takes the packet in for itself: one unit made before the match costs three times the
    // time, since it goes through memory.
    #[tactic(auto, unfolding(crate::specs::Answer::effect, crate::specs::Answer::obeyed_unit))]
    fn obeyed(self, command: Telecommand, pkt: &[u8]) -> Unit
        ensures { result ≡ obeyed_unit command pkt.now self }
    {
        match command {
            Telecommand::Status => self.asked(),
            Telecommand::Allow => self.with_arrival(pkt).allowed(),
            Telecommand::Mode => self.with_arrival(pkt).moded(octets::byte(pkt, 1)),
            Telecommand::Clear => self.with_arrival(pkt).cleared(),
            Telecommand::Select => self.with_arrival(pkt).selected(octets::byte(pkt, 1)),
            _ => self.with_arrival(pkt),
        }
    }

    // The unit after a refused packet: 16 and 17 change nothing. In either order, failure and arrival leave the same ledger.
    #[tactic(auto, unfolding(crate::specs::Answer::refused_unit))]
    fn refused(self, refusal: Refusal, pkt: &[u8]) -> Unit
        ensures { result ≡ refused_unit (refusal_code refusal) pkt.now self }
    {
        match refusal {
            Refusal::WrongSize | Refusal::OutOfRange => self,
            _ => Unit {
                ledger: self
                    .ledger
                    .failed(octets::byte(pkt, 0), refusal.code())
                    .arrived(pkt),
                ..self
            },
        }
    }
}

impl Unit {
    // One packet: its answer, with the unit, the tables and the output after it.
    #[tactic(auto, unfolding(crate::specs::Answer::unit_after, crate::specs::Answer::reply_of, crate::specs::Answer::answer_of, crate::specs::Answer::seqs_after, crate::specs::Answer::lists_after, crate::specs::Answer::out_after))]
    pub fn packet(
        self,
        kind: u32,
        seqs: &mut [u8],
        lists: &mut [u8],
        out: &mut [u8],
        time: u32,
        pkt: &[u8],
    ) -> Answer
        ensures value { result ≡ answer_of (format_of kind) self time seqs.old lists.old out.old pkt.now }
        ensures seqs_after { seqs.new ≡ seqs_after (format_of kind) self seqs.old lists.old out.old pkt.now }
        ensures lists_after { lists.new ≡ lists_after (format_of kind) self seqs.old lists.old out.old pkt.now }
        ensures out_after { out.new ≡ out_after (format_of kind) self time seqs.old lists.old out.old pkt.now }
    {
        match self.command_of(kind, seqs, lists, out, pkt) {
            Ok(command) => {
                let size = self.reply(command, seqs, lists, out, time, pkt);
                telecommand::uplink(command, seqs, lists, pkt);
                Answer {
                    code: 0,
                    size,
                    unit: self.obeyed(command, pkt),
                }
            }
            Err(refusal) => Answer {
                code: refusal.code(),
                size: 0,
                unit: self.refused(refusal, pkt),
            },
        }
    }
}

// The code beside the part that the desk asks for: 16 for wrong tables or no kind, then 7, else 0.
// Stays: its type may not change, and its clause has the code as a number.
pub fn window_code(kind: u32, seqs: &[u8], lists: &[u8], address: u32, len: usize) -> u8
    ensures { result ≡ window_code (format_of kind) seqs.now lists.now address len }
{
    memory::window_code(kind, seqs, lists, address, len)
}

// The part that the desk asks for: the table's own bytes, or the empty part where the code is not 0.
pub fn window<'a>(kind: u32, seqs: &'a [u8], lists: &'a [u8], address: u32, len: usize) -> &'a [u8]
    ensures { result.now ≡ window_part (format_of kind) seqs.now lists.now address len }
{
    memory::window(kind, seqs, lists, address, len)
}

impl Unit {
    // The runner's step taken into the unit.
    #[tactic(auto, unfolding(crate::specs::Step::with_step))]
    fn with_step(self, stepped: Stepped) -> UnitStep
        ensures { result ≡ with_step self stepped }
    {
        let event = stepped.event;
        let runner = stepped.runner;
        let watch = status::watched(event, self.watch);
        UnitStep {
            outcome: Ok(event),
            unit: Unit {
                watch,
                runner,
                ..self
            },
        }
    }

    // One step of the unit: 16, then 17, else the runner's step and what the status takes from its event.
    #[tactic(auto, unfolding(crate::specs::Step::step_rows, crate::specs::Step::unit_step))]
    pub fn step(self, kind: u32, seqs: &[u8], lists: &[u8]) -> UnitStep
        ensures { result ≡ unit_step (format_of kind) self seqs.now lists.now }
    {
        if memory::tables_wrong(kind, seqs, lists) {
            return UnitStep {
                outcome: Err(Refusal::WrongSize.code()),
                unit: self,
            };
        }
        let format = Format::of(kind);
        if self.out_of_range(format) {
            return UnitStep {
                outcome: Err(Refusal::OutOfRange.code()),
                unit: self,
            };
        }
        self.with_step(self.runner.step(format, seqs, lists))
    }
}
