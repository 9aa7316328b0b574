// The interpreter: what the command at a place comes to, and what one step does with it.
#![tactic(auto)]

ghost use Rattle.std.specs.Prelude.{◌≡◌, ◌+◌, ◌*◌, ◌-◌, ◌/◌, ◌%◌, ◌<◌, ◌≤◌, cond, ltb, length, IfOk};
ghost use Rattle.octets.specs.Bytes.{byte_bit};
ghost use Rattle.octets.specs.Rows.{first_code, NoneHolds};
ghost use Rattle.sequence.specs.Raster.{raster_at, asrc_wrong, shift_of, start_of, strays, some_strays, leaves};
ghost use Rattle.sequence.specs.declared.Command.TheVariants.{Expose, Delay};
ghost use Rattle.sequence.specs.Text.{row_of, fault, size_at};
ghost use Rattle.sequence.specs.Env.{cards_of, cards_lent, env_of};
ghost use Rattle.runner.specs.Judge.{abort_code, abort_code_in, open_elsewhere, repeat_begun, set_of, full, count_rows, list_rows, path_rows, flag_rows, raster_rows, run_rows, expose_rows, loop_rows, close_rows, tests_list, unless, exposes_in, judge};
ghost use Rattle.runner.specs.Step.{to, open_of, aborted, entered, advances, exposed_at, next_repeat, another, act, step_in, step_of, Stands};
ghost use Rattle.runner.specs.With.{with_place, open_at, with_count, with_passes};

use memory::{Format, Place};
use sequence::{Command, Fault, Lent, ListCard, RasterWords};

// The open raster: the run number of its repeat, from 0; the passes left; its place, 255 for none; the exposures made in the present set; the
// repeats left; and the signed shift of the repeat's start, which is shown and never read.
// Stays: 255 is a place like any other, since the state that C lends may hold any, and the definition of an abort leaves it as it is.
#[derive(Clone, Copy)]
pub struct OpenRaster {
    pub run: u16,
    pub passes: u16,
    pub place: u8,
    pub count: u8,
    pub repeats: u16,
    pub shift: i16,
}

// What the interpreter moves. A count left includes the pass, repeat or round under way; 0 is taken as 1.
#[derive(Clone, Copy)]
pub struct Runner {
    // the status sequence, 255 for none
    pub sequence: u8,
    pub place: u8,
    pub running: bool,
    pub entering: bool,
    pub raster: OpenRaster,
    pub rounds: u8,
    pub mirror: u16,
}

// What a step shows, a case for each word that the desk prints.
// Stays: an abort's code is a number, as the definition of what an event shows has it, and the C interface.
#[derive(Clone, Copy)]
pub enum Event {
    Idle,
    Enter(u8),
    // id, position, line list
    Raster(u16, u16, u8),
    // position
    Exp(u16),
    Loop(u8),
    Next,
    Done,
    Wait(u16),
    Call(u8),
    End,
    // code, sequence, place
    Abort(u8, u8, u8),
}

#[derive(Clone, Copy)]
pub struct Stepped {
    pub event: Event,
    pub runner: Runner,
}

// What is seen of a step: its event, and the sequence, place and mirror after it.
#[derive(Clone, Copy)]
pub struct Sight {
    pub event: Event,
    pub sequence: u8,
    pub place: u8,
    pub mirror: u16,
}

// The raster that is open: its place, the exposures made in the set and the run number.
#[derive(Clone, Copy)]
pub struct Opened {
    pub place: Place,
    pub count: u8,
    pub run: u16,
}

// What the command at a place comes to: refused with a code, or what it does; an exposure names its raster's place.
// Stays: the code is a number, as the clause of `judge` has it, and the definitions and the theorem of what is refused exactly.
#[derive(Clone, Copy)]
pub enum Act {
    Refused(u8),
    Opens,
    Exposes(Place),
    Loops(u8),
    Waits,
    Calls(u8),
    Ends,
}

// Why a command is refused, each case with the code that is shown for it.
#[derive(Clone, Copy)]
enum AbortCode {
    // it can't stand there, or has an operand or flags that it can't have
    Forbidden = 3,
    SequenceOutOfRange = 4,
    // those of a set
    ExposureCount = 5,
    ListOutOfRange = 6,
    // a bad line list, or one without a mark that a flag needs
    ListError = 7,
    // loops or repeats of 0
    RasterRepeats = 11,
    MirrorOutOfRange = 14,
}

impl AbortCode {
    // The code's number.
    fn code(self) -> u8
        ensures { result ≡ abort_code self }
    {
        self as u8
    }
}

// An act, unless a row refused it.
fn unless(tested: Result<(), AbortCode>, judgement: Act) -> Act
    ensures { result ≡ unless (abort_code_in tested) judgement }
{
    match tested {
        Ok(()) => judgement,
        Err(why) => Act::Refused(why.code()),
    }
}

// Whether a raster is open at another place than this.
fn elsewhere(held: Option<Opened>, at: Place) -> bool
    ensures { result ≡ open_elsewhere at.0 held }
{
    held.is_some_and(|open| open.place != at)
}

// The number, from 0, of the repeat that a run raster begins.
fn repeat_begun(held: Option<Opened>) -> u16
    ensures { result ≡ repeat_begun held }
{
    held.map_or(0, |open| open.run)
}

// How many exposures fill a set of the raster at a place.
fn set_of(text: &[u8], raster: Place) -> u8
    ensures { result ≡ set_of (raster_at text.now raster.0) }
{
    sequence::exposures_at(text, raster).min(Runner::FULL_SET)
}

impl Opened {
    // Whether the raster's set is full.
    fn full(self, text: &[u8]) -> bool
        ensures { result ≡ full text.now self.place self.count }
    {
        set_of(text, self.place) <= self.count
    }
}

// Whether the ASRC byte moves the start back: its bit 0.
fn backward(asrc: u8) -> bool
    ensures { result ≡ byte_bit 0 asrc }
{
    asrc / 128 % 2 == 1
}

// How far the start of repeat k is moved: the ASRC steps times the whole part of k / skip.
fn moved_by(asrc: u8, skip: u8, k: u16) -> u32
    ensures { (result ≡ asrc % 128 * (k / skip)) × (result ≤ 127 * 65535) }
{
    if skip == 0 {
        return 0;
    }
    (asrc % 128) as u32 * (k / skip as u16) as u32
}

// Where the last of so many passes stands: the whole sum, not cut to a word.
fn last_pass(start: u32, loops: u16, step: u16) -> u64
    ensures { result ≡ start + (loops - 1) * step }
{
    start as u64 + loops.saturating_sub(1) as u64 * step as u64
}

// Whether the last of so many passes is past the end stop.
fn past_stop(start: u32, loops: u16, step: u16) -> bool
    ensures { result ≡ ltb 2400 (start + (loops - 1) * step) }
{
    (Runner::END_STOP as u64) < last_pass(start, loops, step)
}

// Whether a position of repeat k is out of 0 to the end stop: that of its first pass below, or that of its last above.
fn strays(raster: RasterWords, k: u16) -> bool
    ensures { result ≡ strays raster k }
{
    let initial = raster.initial as u32;
    let moved = moved_by(raster.asrc, raster.skip, k);
    if backward(raster.asrc) {
        initial < moved || past_stop(initial - moved, raster.loops, raster.step)
    } else {
        past_stop(initial + moved, raster.loops, raster.step)
    }
}

// Whether a position of any repeat is out of range. The shift goes one way: the first and the last repeat decide for all.
#[tactic(auto, using(crate::proofs::Laws::ends))]
fn some_strays(raster: RasterWords) -> bool
    ensures { result ≡ some_strays raster raster.repeats }
{
    raster.repeats != 0 && (strays(raster, 0) || strays(raster, raster.repeats - 1))
}

// Whether a position of any repeat is out of range, or of repeat k, which is begun.
fn leaves(raster: RasterWords, k: u16) -> bool
    ensures { result ≡ leaves raster k }
{
    some_strays(raster) || strays(raster, k)
}

// How far the start of repeat k of the run raster at a place is moved, forward or back; no row refuses its path.
fn shift_at(text: &[u8], at: Place, k: u16) -> i16
    requires { NoneHolds (path_rows (raster_at text.now at.0) k) }
    ensures { result ≡ shift_of (raster_at text.now at.0) k }
{
    let asrc = sequence::asrc_at(text, at);
    if asrc == 0 {
        return 0;
    }
    let moved = moved_by(asrc, sequence::skip_at(text, at), k) as i16;
    if backward(asrc) { -moved } else { moved }
}

// Where repeat k of the run raster at a place begins: the initial position and its shift.
fn start_at(text: &[u8], at: Place, k: u16, shift: i16) -> u16
    requires none { NoneHolds (path_rows (raster_at text.now at.0) k) }
    requires shifted { shift ≡ shift_of (raster_at text.now at.0) k }
    ensures { result ≡ start_of (raster_at text.now at.0) k }
{
    (sequence::initial_at(text, at) as i32 + shift as i32) as u16
}

// The test of a raster's loops, repeats and exposures.
fn count_fault(raster: RasterWords) -> Result<(), AbortCode>
    ensures { abort_code_in result ≡ first_code (count_rows raster) }
{
    if raster.loops == 0 || raster.repeats == 0 {
        return Err(AbortCode::RasterRepeats);
    }
    if raster.exposures == 0 || Runner::FULL_SET < raster.exposures {
        return Err(AbortCode::ExposureCount);
    }
    Ok(())
}

// The test of a raster's line list: which of the list's own tests fails is dropped.
fn list_fault(raster: RasterWords, card: ListCard) -> Result<(), AbortCode>
    ensures { abort_code_in result ≡ first_code (list_rows (λ n. card) raster) }
{
    if memory::LAST_LINE_LIST < raster.list {
        return Err(AbortCode::ListOutOfRange);
    }
    if card.is_err() {
        return Err(AbortCode::ListError);
    }
    Ok(())
}

// Whether an ASRC byte other than 0 has no steps, or skip 0 beside it.
fn asrc_wrong(raster: RasterWords) -> bool
    ensures { result ≡ asrc_wrong raster }
{
    raster.asrc != 0 && (raster.asrc % 128 == 0 || raster.skip == 0)
}

// The test of a raster's positions, given whether one of them is out of range.
fn range_fault(raster: RasterWords, leaves: bool) -> Result<(), AbortCode>
    ensures { abort_code_in result ≡ cond (ltb 2400 raster.initial) 14 (cond (ltb 2400 raster.step) 14 (cond leaves 14 0)) }
{
    if Runner::END_STOP < raster.initial || Runner::END_STOP < raster.step || leaves {
        return Err(AbortCode::MirrorOutOfRange);
    }
    Ok(())
}

// The test of a raster's path, where repeat k is begun. With an ASRC byte of 0 every repeat takes the same path.
#[tactic(auto, using(crate::proofs::Laws::path_off), unfolding(crate::specs::Judge::path_rows))]
fn path_fault(raster: RasterWords, k: u16) -> Result<(), AbortCode>
    ensures { abort_code_in result ≡ first_code (path_rows raster k) }
{
    if raster.asrc == 0 {
        let past = past_stop(raster.initial as u32, raster.loops, raster.step);
        return range_fault(raster, past);
    }
    if asrc_wrong(raster) {
        return Err(AbortCode::Forbidden);
    }
    range_fault(raster, leaves(raster, k))
}

// The test of a raster's flags; a mark that is missing comes last.
fn flag_fault(raster: RasterWords, card: ListCard) -> Result<(), AbortCode>
    ensures { abort_code_in result ≡ first_code (flag_rows (λ n. card) raster) }
{
    if !sequence::flags_good(raster.science) {
        return Err(AbortCode::Forbidden);
    }
    if sequence::marks_in(card).lack(raster.science) {
        return Err(AbortCode::ListError);
    }
    Ok(())
}

// The test of a raster's words, given its line list's card: counts, line list, path, flags.
#[tactic(auto, using(crate::proofs::Laws::raster_tests))]
fn raster_fault(raster: RasterWords, card: ListCard, k: u16) -> Result<(), AbortCode>
    ensures { abort_code_in result ≡ first_code (raster_rows (λ n. card) raster k) }
{
    count_fault(raster)?;
    list_fault(raster, card)?;
    path_fault(raster, k)?;
    flag_fault(raster, card)
}

// The test of a run raster. The marks of the line list are looked for only where a flag needs one.
// Stays: here and below a text and a place in it are two parameters, as the public readers of a text take them.
#[tactic(auto, unfolding(crate::specs::Judge::run_rows))]
fn run_fault(
    text: &[u8],
    lent: Lent,
    lists: &[u8],
    at: Place,
    held: Option<Opened>,
) -> Result<(), AbortCode>
    ensures { abort_code_in result ≡ first_code (run_rows (cards_lent lent lists.now) text.now at.0 held) }
{
    if elsewhere(held, at) {
        return Err(AbortCode::Forbidden);
    }
    let raster = sequence::raster_at(text, at);
    let wanted = sequence::needs_mark(raster.science);
    let card = sequence::card_of(lent, lists, raster.list, wanted);
    raster_fault(raster, card, repeat_begun(held))
}

// Whether the command at a place is a run raster that comes to the test of its line list: no row before it refuses.
#[tactic(auto, unfolding(crate::specs::Judge::tests_list))]
pub fn tests_list(text: &[u8], at: Place, held: Option<Opened>) -> bool
    ensures { result ≡ tests_list text.now at.0 held }
{
    if !sequence::raster_stands(text, at) || elsewhere(held, at) {
        return false;
    }
    let exposures = sequence::exposures_at(text, at);
    sequence::loops_at(text, at) != 0
        && sequence::repeats_at(text, at) != 0
        && exposures != 0
        && exposures <= Runner::FULL_SET
        && sequence::list_at(text, at) <= memory::LAST_LINE_LIST
}

// The test of an expose: the open raster's place, or why it is refused.
#[tactic(auto, unfolding(crate::specs::Judge::expose_rows))]
fn expose_fault(text: &[u8], time: u16, held: Option<Opened>) -> Result<Place, AbortCode>
    ensures code { abort_code_in result ≡ first_code (expose_rows text.now time held) }
    ensures raster { IfOk result (λ r. exposes_in held ≡ Act.Exposes r) }
{
    let open = held.ok_or(AbortCode::Forbidden)?;
    if !sequence::raster_stands(text, open.place) || time == 0 || open.full(text) {
        return Err(AbortCode::Forbidden);
    }
    Ok(open.place)
}

// The test of a loop back.
#[tactic(auto, unfolding(crate::specs::Judge::loop_rows))]
fn loop_fault(text: &[u8], at: Place, target: u8, held: Option<Opened>) -> Result<(), AbortCode>
    ensures { abort_code_in result ≡ first_code (loop_rows text.now at.0 target held) }
{
    let open = held.ok_or(AbortCode::Forbidden)?;
    if !sequence::raster_stands(text, open.place)
        || !open.full(text)
        || !sequence::target_good(text, open.place, at, target)
    {
        return Err(AbortCode::Forbidden);
    }
    Ok(())
}

// The test of a call or terminate.
#[tactic(auto, unfolding(crate::specs::Judge::close_rows))]
fn close_fault(text: &[u8], at: Place, held: Option<Opened>) -> Result<(), AbortCode>
    ensures { abort_code_in result ≡ first_code (close_rows text.now at.0 held) }
{
    if held.is_some() || sequence::past(text, at) != sequence::limit(text) {
        return Err(AbortCode::Forbidden);
    }
    Ok(())
}

// What the command at a place comes to.
#[tactic(auto, unfolding(crate::specs::Judge::judge, crate::specs::Judge::judged, sequence::specs::Text::size_at))]
pub fn judge(text: &[u8], lent: Lent, lists: &[u8], at: Place, held: Option<Opened>) -> Act
    ensures value { result ≡ judge (cards_lent lent lists.now) text.now at.0 held }
    ensures at_bound { at.0 + size_at text.now at.0 < 256 }
{
    let command = sequence::command_at(text, at);
    match command {
        Command::RunRaster => unless(run_fault(text, lent, lists, at, held), Act::Opens),
        Command::Expose(time) => match expose_fault(text, time, held) {
            Ok(raster) => Act::Exposes(raster),
            Err(why) => Act::Refused(why.code()),
        },
        Command::LoopBack(target) => unless(loop_fault(text, at, target, held), Act::Loops(target)),
        Command::CallSequence(n) => unless(close_fault(text, at, held), Act::Calls(n)),
        Command::Terminate => unless(close_fault(text, at, held), Act::Ends),
        Command::Delay(_) => Act::Waits,
        Command::Nothing | Command::Unknown | Command::Unfit => Act::Refused(
            AbortCode::Forbidden.code(),
        ),
    }
}

impl OpenRaster {
    // One pass fewer, with a new set.
    fn pass_over(self) -> OpenRaster
        requires { 1 < self.passes }
        ensures { result ≡ with_count 0 (with_passes (self.passes - 1) self) }
    {
        OpenRaster {
            count: 0,
            passes: self.passes - 1,
            ..self
        }
    }

    // One repeat fewer, and the next one's number.
    fn repeat_over(self) -> OpenRaster
        requires { 1 < self.repeats }
        ensures { result ≡ next_repeat self }
    {
        OpenRaster {
            repeats: self.repeats - 1,
            run: octets::counted(self.run),
            ..self
        }
    }

    // No raster open, the counts as they were.
    fn shut(self) -> OpenRaster
        ensures { result ≡ open_at 255 self }
    {
        OpenRaster {
            place: Runner::NONE,
            ..self
        }
    }
}

impl Runner {
    // The mirror's end stop.
    pub const END_STOP: u16 = 2400;

    // The most exposures of a set.
    pub const FULL_SET: u8 = 8;

    // No sequence, and no open raster.
    pub const NONE: u8 = 255;

    // The raster that is open.
    fn opened(self, format: Format) -> Option<Opened>
        ensures { result ≡ open_of format self }
    {
        let raster = self.raster;
        if raster.place == Runner::NONE {
            return None;
        }
        Some(Opened {
            place: Place::of(format, raster.place)?,
            count: raster.count,
            run: raster.run,
        })
    }

    // Stopped with a fault, and nothing else changed.
    #[tactic(auto, unfolding(crate::specs::Step::aborted))]
    fn aborted(self, fault: Fault) -> Stepped
        ensures { result ≡ aborted fault self }
    {
        Stepped {
            event: Event::Abort(fault.code, self.sequence, fault.place),
            runner: Runner {
                place: fault.place,
                running: false,
                ..self
            },
        }
    }

    // Stopped at the runner's own place, with why its command is refused.
    fn refused(self, why: AbortCode) -> Stepped
        ensures { result ≡ aborted (fault (abort_code why) self.place) self }
    {
        self.aborted(Fault {
            code: why.code(),
            place: self.place,
        })
    }

    // The sequence entered, or why not.
    #[tactic(auto, unfolding(crate::specs::Step::entered))]
    fn enter(self, text: &[u8]) -> Stepped
        ensures { result ≡ entered text.now self }
    {
        match sequence::header_of(text) {
            Err(fault) => self.aborted(fault),
            Ok(rounds) => Stepped {
                event: Event::Enter(self.sequence),
                runner: Runner {
                    place: 4,
                    entering: false,
                    rounds,
                    ..self
                },
            },
        }
    }

    // The run raster at the place begun: its first repeat, or the next, which doesn't reload the repeats. A repeat begins at the initial
    // position, moved by its shift.
    // Stays: what stands at the place is asked of this, `expose` and `loop_back`, since the scope's own form has them take the runner itself.
    #[tactic(auto, using(crate::proofs::Laws::path_passed), unfolding(crate::specs::Step::act))]
    fn run_raster(self, format: Format, text: &[u8], lists: &[u8], at: Place) -> Stepped
        requires { (at.0 ≡ self.place) × Stands text.now self Command.RunRaster }
        ensures { result ≡ act format text.now self (unless (first_code (run_rows (cards_of lists.now) text.now at.0 (open_of format self))) Act.Opens) }
    {
        let held = self.opened(format);
        if let Err(why) = run_fault(text, Lent::Lists, lists, at, held) {
            return self.refused(why);
        }
        let run = repeat_begun(held);
        let shift = shift_at(text, at, run);
        let position = start_at(text, at, run, shift);
        Stepped {
            event: Event::Raster(
                sequence::id_at(text, at),
                position,
                sequence::list_at(text, at),
            ),
            runner: Runner {
                place: self.place + sequence::RUN_RASTER.size,
                raster: OpenRaster {
                    place: self.place,
                    count: 0,
                    passes: sequence::loops_at(text, at),
                    repeats: if held.is_some() {
                        self.raster.repeats
                    } else {
                        sequence::repeats_at(text, at)
                    },
                    run,
                    shift,
                },
                mirror: position,
                ..self
            },
        }
    }

    // Whether this exposure fills the set of the raster at a place and passes remain.
    #[tactic(auto, unfolding(crate::specs::Step::advances))]
    fn advances(self, text: &[u8], raster: Place) -> bool
        ensures { result ≡ advances (raster_at text.now raster.0) self }
    {
        1 < self.raster.passes && self.raster.count as u16 + 1 == set_of(text, raster) as u16
    }

    // One exposure more, with the mirror where it stands after it.
    fn exposed(self, mirror: u16) -> Stepped
        requires { (self.place + (row_of (Expose 0)).size < 256) × (self.raster.count < 255) }
        ensures { result ≡ exposed_at (self.place + (row_of (Expose 0)).size) mirror self }
    {
        Stepped {
            event: Event::Exp(self.mirror),
            runner: Runner {
                place: self.place + sequence::EXPOSE.size,
                raster: OpenRaster {
                    count: self.raster.count + 1,
                    ..self.raster
                },
                mirror,
                ..self
            },
        }
    }

    // An exposure in the open raster; where it fills the set and passes remain the mirror advances after it.
    #[tactic(auto, unfolding(crate::specs::Step::act, crate::specs::Step::exposed))]
    fn expose(self, format: Format, text: &[u8], time: u16) -> Stepped
        requires { Stands text.now self (Command.Expose time) }
        ensures { result ≡ act format text.now self (unless (first_code (expose_rows text.now time (open_of format self))) (exposes_in (open_of format self))) }
    {
        let raster = match expose_fault(text, time, self.opened(format)) {
            Ok(raster) => raster,
            Err(why) => return self.refused(why),
        };
        if !self.advances(text, raster) {
            return self.exposed(self.mirror);
        }
        let mirror = self.mirror as u32 + sequence::step_at(text, raster) as u32;
        if (Runner::END_STOP as u32) < mirror {
            return self.refused(AbortCode::MirrorOutOfRange);
        }
        self.exposed(mirror as u16)
    }

    // Another pass, another repeat, or the raster's end.
    #[tactic(auto, unfolding(crate::specs::Step::act, crate::specs::Step::looped))]
    fn loop_back(self, format: Format, text: &[u8], at: Place, target: u8) -> Stepped
        requires { Stands text.now self (Command.LoopBack target) }
        ensures { result ≡ act format text.now self (unless (first_code (loop_rows text.now at.0 target (open_of format self))) (Act.Loops target)) }
    {
        if let Err(why) = loop_fault(text, at, target, self.opened(format)) {
            return self.refused(why);
        }
        let raster = self.raster;
        if 1 < raster.passes {
            return Stepped {
                event: Event::Loop(target),
                runner: Runner {
                    place: target,
                    raster: raster.pass_over(),
                    ..self
                },
            };
        }
        if 1 < raster.repeats {
            return Stepped {
                event: Event::Next,
                runner: Runner {
                    place: raster.place,
                    raster: raster.repeat_over(),
                    ..self
                },
            };
        }
        Stepped {
            event: Event::Done,
            runner: Runner {
                place: self.place + sequence::LOOP_BACK.size,
                raster: raster.shut(),
                ..self
            },
        }
    }

    // A delay shown.
    fn delay(self, time: u16) -> Stepped
        requires { self.place + (row_of (Delay time)).size < 256 }
        ensures { result ≡ to (Event.Wait time) (with_place (self.place + (row_of (Delay time)).size) self) }
    {
        Stepped {
            event: Event::Wait(time),
            runner: Runner {
                place: self.place + sequence::DELAY.size,
                ..self
            },
        }
    }

    // Another round of the sequence.
    fn another(self) -> Stepped
        requires { 1 < self.rounds }
        ensures { result ≡ another self }
    {
        Stepped {
            event: Event::Next,
            runner: Runner {
                place: 4,
                rounds: self.rounds - 1,
                ..self
            },
        }
    }

    // Another round, or the called sequence made the status sequence, to be entered next.
    #[tactic(auto, unfolding(crate::specs::Step::act, crate::specs::Step::called))]
    fn call(self, format: Format, text: &[u8], at: Place, n: u8) -> Stepped
        ensures { result ≡ act format text.now self (unless (first_code (close_rows text.now at.0 (open_of format self))) (Act.Calls n)) }
    {
        if let Err(why) = close_fault(text, at, self.opened(format)) {
            return self.refused(why);
        }
        if 1 < self.rounds {
            return self.another();
        }
        if format.last < n {
            return self.refused(AbortCode::SequenceOutOfRange);
        }
        Stepped {
            event: Event::Call(n),
            runner: Runner {
                sequence: n,
                place: 0,
                entering: true,
                ..self
            },
        }
    }

    // Another round, or the run's end.
    #[tactic(auto, unfolding(crate::specs::Step::act, crate::specs::Step::ended))]
    fn terminate(self, format: Format, text: &[u8], at: Place) -> Stepped
        ensures { result ≡ act format text.now self (unless (first_code (close_rows text.now at.0 (open_of format self))) Act.Ends) }
    {
        if let Err(why) = close_fault(text, at, self.opened(format)) {
            return self.refused(why);
        }
        if 1 < self.rounds {
            return self.another();
        }
        Stepped {
            event: Event::End,
            runner: Runner {
                running: false,
                ..self
            },
        }
    }

    // The step in a text: entering, or the command at the place.
    #[tactic(auto, unfolding(crate::specs::Step::step_in, crate::specs::Step::act, crate::specs::Judge::judge, crate::specs::Judge::judged, sequence::specs::Text::size_of))]
    fn step_in(self, format: Format, text: &[u8], lists: &[u8]) -> Stepped
        requires { length text.now ≤ format.size }
        ensures { result ≡ step_in (env_of format lists.now) text.now self }
    {
        if self.entering {
            return self.enter(text);
        }
        let Some(at) = Place::of(format, self.place) else {
            return self.refused(AbortCode::Forbidden);
        };
        let command = sequence::command_at(text, at);
        match command {
            Command::RunRaster => self.run_raster(format, text, lists, at),
            Command::Expose(time) => self.expose(format, text, time),
            Command::LoopBack(target) => self.loop_back(format, text, at, target),
            Command::CallSequence(n) => self.call(format, text, at, n),
            Command::Terminate => self.terminate(format, text, at),
            Command::Delay(time) => self.delay(time),
            Command::Nothing | Command::Unknown | Command::Unfit => self.refused(
                AbortCode::Forbidden,
            ),
        }
    }

    // One step: idle when not running, else entering or one command.
    #[tactic(auto, unfolding(crate::specs::Step::step_of))]
    pub fn step(self, format: Format, seqs: &[u8], lists: &[u8]) -> Stepped
        ensures { result ≡ step_of (env_of format lists.now) seqs.now self }
    {
        if !self.running {
            return Stepped {
                event: Event::Idle,
                runner: self,
            };
        }
        self.step_in(format, memory::entry(format, seqs, self.sequence), lists)
    }
}
