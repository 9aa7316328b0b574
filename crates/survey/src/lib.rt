// The table check: it reads and does not run.
#![tactic(auto)]

ghost use Rattle.std.specs.Prelude.{◌≡◌, ℕ, ◌+◌, ◌*◌, ◌-◌, ◌≤◌, ◌<◌, ◌^◌, true, false, cond, ◌&&◌, ◌||◌, List, ltb, leb, [], length, take, get_or, IfSome, option_and_then};
ghost use Rattle.octets.specs.Bytes.{byte_at};
ghost use Rattle.memory.specs.Memory.{format_of, fills, tables_wrong, address_of, entry_of};
ghost use Rattle.sequence.specs.declared.Command.TheVariants.{RunRaster, LoopBack};
ghost use Rattle.sequence.specs.Text.{row_of, fault, size_at};
ghost use Rattle.sequence.specs.Starts.{among};
ghost use Rattle.sequence.specs.Raster.{raster_at};
ghost use Rattle.sequence.specs.Env.{cards_lent, env_of, env_lent};
ghost use Rattle.survey.specs.Items.{raster_steps, raster_exposures};
ghost use Rattle.survey.specs.Walk.{one_more, reason_for, walk, check_one, finding_of};
ghost use Rattle.runner.specs.Judge.{tests_list};
ghost use Rattle.survey.specs.Tested.{tested_from, tested_in, bits_of, has_list};
ghost use Rattle.survey.specs.Chain.{told, total, follow, check_of};
ghost use Rattle.survey.specs.Report.{closed_at, reason_shown, report_of, walked_of, check_alone, alone_of};
ghost use Rattle.survey.specs.Frame.{lists_used};
ghost use Rattle.survey.specs.Still.{another, changed_in, first_of, lowest_changed, standing_at, still_of};
ghost use Rattle.survey.specs.Held.{Octets, found_below, moved, opened_in, with_list, RoomFor, exposures_in, pause_in, between, looped_in, all_rounds, AtMost, unmarked, Marked, Free, Is, LowCall, joined, ahead, empty_chain, reasoned, reported, MarkedJust, RestOf, reported_as};

use memory::{Address, Format, Place};
use runner::{Act, Opened};
use sequence::{BadList, Fault, Lent, ReasonNumbers};

// What a round of a sequence is made of: a delay outside rasters, by its place; or a raster, by its place, its loop back's target,
// the loop back's place, the commands before the target and those from it up to the loop back.
#[derive(Clone, Copy)]
pub enum Item {
    Pause(u8),
    Scan(u8, u8, u8, u8, u8),
}

// How a sequence closes: with terminate, or with the call of a sequence.
// Stays: these are two commands and neither is the other's absence, so an option would be no plainer.
#[derive(Clone, Copy)]
pub enum Closing {
    Terminates,
    CallsOn(u8),
}

// Why a fault is one, beyond its code: what makes a line list bad, or a mark that a raster misses in a good one; of any other nothing.
// Stays: what may not change, `Reason::shown` is a public method and `reason_shown` has its cases.
#[derive(Clone, Copy)]
pub enum Reason {
    None,
    OfList(BadList),
    Mark,
}

// A sequence without a fault: its closing command with its place, and the steps and exposures of all rounds.
#[derive(Clone, Copy)]
pub struct Closed {
    pub place: u8,
    pub closing: Closing,
    pub steps: u64,
    pub exposures: u64,
}

// What one sequence's text comes to: how it closes, or its fault.
pub type Walked = Result<Closed, Fault>;

// How the check of a chain ends: nothing listed, with a code; at a terminate; at a sequence that is listed already; at a fault, with its
// sequence and its reason.
// Stays: the definitions of a chain and the theorems of demand 3 name the four cases.
#[derive(Clone, Copy)]
pub enum Ending {
    Unlisted(u8),
    Finishes,
    Returns,
    Faults(u8, Fault, Reason),
}

// The chain so far: the sequences listed, in order, a mark for each of them, and the totals.
// Stays: what may not change, the scope's own form: an array of 128 numbers and one of marks are handed along the chain and back by value.
#[derive(Clone, Copy)]
pub struct Chain {
    pub listed: [u8; memory::SEQUENCES],
    pub marks: [bool; memory::SEQUENCES],
    pub count: usize,
    pub steps: u64,
    pub exposures: u64,
}

// What one round of a text has come to so far: the next command's place, the open raster, the steps and exposures, and the line lists tested,
// a bit for each.
#[derive(Clone, Copy)]
struct Round {
    place: u8,
    held: Option<Opened>,
    steps: u64,
    exposures: u64,
    tested: u64,
}

// What one sequence's text comes to, and the line lists that its check came to test, a bit for each.
#[derive(Clone, Copy)]
struct Surveyed {
    found: Walked,
    tested: u64,
}

// What is known of one sequence, taken alone: what its text comes to, the reason of a fault, and the line lists that its check came to test, a bit
// for each.
#[derive(Clone, Copy)]
pub struct Alone {
    pub found: Walked,
    pub reason: Reason,
    pub tested: u64,
}

// A chain and how it ends.
#[derive(Clone, Copy)]
struct Checked {
    chain: Chain,
    ending: Ending,
}

// A sequence's text, no more than an entry's bytes of it, with what it is read in: the format, and what is lent of the line lists.
#[derive(Clone, Copy)]
struct Text<'a> {
    format: Format,
    bytes: &'a [u8],
    lent: Lent,
    lists: &'a [u8],
    ghost format_fills: { fills format ≡ true },
    ghost short: { length bytes.now ≤ format.size },
    ghost octets: { Octets bytes.now },
}

// The two tables of one kind, of the sizes that they have.
#[derive(Clone, Copy)]
struct Tables<'a> {
    format: Format,
    seqs: &'a [u8],
    lists: &'a [u8],
    ghost right: { tables_wrong format seqs.now lists.now ≡ false },
    ghost octets: { Octets seqs.now },
}

// What the check answers.
// Stays: what may not change, `report_of` lays the names out in an array with their count beside it.
#[derive(Clone, Copy)]
pub struct Report {
    pub ending: Ending,
    pub listed: [u8; memory::SEQUENCES],
    pub count: usize,
    pub steps: u64,
    pub exposures: u64,
}

// What a check's pass comes to over the tables of a later time: there was no pass, and so the check ended; every byte that it rests on is as it
// was; or the lowest address of one that is not.
// Stays: the definition `still_of` names the three cases.
#[derive(Clone, Copy)]
pub enum Standing {
    Unpassed(Ending),
    Same,
    Changed(Address),
}

// The sequences and the line lists that a pass rests on: a mark for each number that a byte can have.
#[derive(Clone, Copy)]
struct Rest {
    sequences: [bool; 256],
    lists: [bool; 256],
}

// The steps of all repeats of the raster at a place, from its commands before the target and from it on.
fn raster_steps(text: &[u8], at: Place, before: u8, from: u8) -> u64
    ensures { (result ≡ raster_steps (raster_at text.now at.0) before from) × (result ≤ 2 ^ 37) }
{
    let pass = sequence::loops_at(text, at) as u64 * (from as u64 + 1);
    sequence::repeats_at(text, at) as u64 * (1 + before as u64 + pass)
}

// The exposures of all repeats of the raster at a place.
fn raster_exposures(text: &[u8], at: Place) -> u64
    ensures { (result ≡ raster_exposures (raster_at text.now at.0)) × (result ≤ 2 ^ 37) }
{
    sequence::loops_at(text, at) as u64
        * sequence::exposures_at(text, at) as u64
        * sequence::repeats_at(text, at) as u64
}

// The open raster after one exposure more.
fn one_more(held: Option<Opened>) -> Option<Opened>
    requires { exposures_in held < 255 }
    ensures { result ≡ one_more held }
{
    held.map(|open| Opened {
        count: open.count + 1,
        ..open
    })
}

// A line list's bit in a set of them: list 0 is the most significant of 48 bits, and none above the last has one.
fn list_bit(k: u8) -> u64
    ensures { result ≡ cond (leb k 47) (2 ^ (47 - k)) 0 }
{
    if k <= memory::LAST_LINE_LIST {
        1 << (memory::LAST_LINE_LIST - k)
    } else {
        0
    }
}

// Whether a set of line lists, a bit for each, has this one: list 0 is the most significant of 48 bits. Where many sets are asked for a list,
// its bit is worked out once.
#[tactic(auto, using(crate::proofs::Bits::bit_told))]
pub fn has_list(lists: u64, k: u8) -> bool
    ensures { result ≡ has_list lists k }
{
    lists & list_bit(k) != 0
}

// The steps of a delay: one of its own where no raster is open.
fn pause(held: Option<Opened>) -> u64
    ensures { result ≡ pause_in held }
{
    held.map_or(1, |_| 0)
}

// A set of line lists, a bit for each, with this one.
#[tactic(auto, using(crate::proofs::Bits::or_with))]
fn with_list(lists: u64, k: u8) -> u64
    requires { k ≤ 47 }
    ensures { result ≡ with_list lists k }
{
    lists | (1 << (memory::LAST_LINE_LIST - k))
}

impl Round {
    // The round past a command of this size that leaves this raster open, with so many steps and exposures more.
    fn past(self, size: u8, held: Option<Opened>, steps: u64, exposures: u64) -> Round
        requires { RoomFor size steps exposures self }
        ensures { result ≡ moved size held steps exposures self }
    {
        Round {
            place: self.place + size,
            held,
            steps: self.steps + steps,
            exposures: self.exposures + exposures,
            ..self
        }
    }

    // The round past the run raster at its place, which is obeyed and names this line list.
    fn opens(self, at: Place, list: u8) -> Round
        requires { RoomFor (row_of RunRaster).size 0 0 self × (list ≤ 47) }
        ensures { result ≡ opened_in at list self }
    {
        Round {
            place: self.place + sequence::RUN_RASTER.size,
            held: Some(Opened {
                place: at,
                count: 0,
                run: 0,
            }),
            tested: with_list(self.tested, list),
            ..self
        }
    }

    // The round past a loop back to this place, with the raster that it closes.
    fn loops(self, text: Text, t: u8) -> Round
        requires { RoomFor (row_of (LoopBack t)).size (2 ^ 37) (2 ^ 37) self }
        ensures { result ≡ looped_in text.entry.bytes.now t self.held self }
    {
        let Some(open) = self.held else {
            return self.past(sequence::LOOP_BACK.size, None, 0, 0);
        };
        let at = open.place;
        let before = text.between(t, sequence::past(text.bytes, at), t);
        let from = text.between(self.place, t, self.place);
        let steps = raster_steps(text.bytes, at, before, from);
        let exposures = raster_exposures(text.bytes, at);
        self.past(sequence::LOOP_BACK.size, None, steps, exposures)
    }

    // The round closed by the command at its place, which is a step too.
    fn closes(self, closing: Closing) -> Surveyed
        requires { self.steps + 1 < 2 ^ 64 }
        ensures { (result.found ≡ closed_at self.place closing (self.steps + 1) self.exposures) × (result.tested ≡ self.tested) }
    {
        Surveyed {
            found: Ok(Closed {
                place: self.place,
                closing,
                steps: self.steps + 1,
                exposures: self.exposures,
            }),
            tested: self.tested,
        }
    }

    // The round ended by a fault at its place.
    fn fails(self, code: u8) -> Surveyed
        ensures { (result.found ≡ Err (fault code self.place)) × (result.tested ≡ self.tested) }
    {
        Surveyed {
            found: Err(Fault {
                code,
                place: self.place,
            }),
            tested: self.tested,
        }
    }

    // The round ended by the refusal of the command at its place: a run raster may have come to the test of its line list.
    #[cold]
    fn refused(self, text: &[u8], at: Place, code: u8) -> Surveyed
        ensures { (result.found ≡ Err (fault code self.place)) × (result.tested ≡ cond (tests_list text.now at.0 self.held) (with_list self.tested (raster_at text.now at.0).list) self.tested) }
    {
        let held = self.held;
        if runner::tests_list(text, at, held) {
            let tested = with_list(self.tested, sequence::list_at(text, at));
            return Round { tested, ..self }.fails(code);
        }
        self.fails(code)
    }
}

// All rounds of a sequence, from what one comes to; a call above the last sequence's number is a fault of the last round.
fn all_rounds(format: Format, repeats: u8, round: Walked) -> Walked
    requires { AtMost (2 ^ 46) round }
    ensures { result ≡ all_rounds format repeats round }
{
    let round = round?;
    if let Closing::CallsOn(target) = round.closing
        && format.last < target
    {
        return Err(Fault {
            code: 4,
            place: round.place,
        });
    }
    Ok(Closed {
        steps: 1 + repeats as u64 * round.steps,
        exposures: repeats as u64 * round.exposures,
        ..round
    })
}

impl<'a> Text<'a> {
    // The text in these bytes, cut to an entry's size.
    fn of(format: Format, bytes: &'a [u8], lent: Lent, lists: &'a [u8]) -> Self
        requires { fills format ≡ true }
        ensures fields { (result.format ≡ format) × (result.lent ≡ lent) × (result.lists.now ≡ lists.now) }
        ensures cut { result.bytes.now ≡ take format.size bytes.now }
    {
        Text {
            format,
            bytes: octets::part(bytes, 0, format.size as usize),
            lent,
            lists,
        }
    }

    // The place past the command at this number, or the number itself where none stands there whole.
    fn past(self, number: u8) -> u8
        ensures { result ≡ number + size_at self.entry.bytes.now number }
    {
        match Place::of(self.format, number) {
            Some(at) => sequence::past(self.bytes, at),
            None => number,
        }
    }

    // How many commands stand from a place up to another; at most `most` are counted.
    fn between(self, most: u8, from: u8, t: u8) -> u8
        ensures { result ≡ between self.entry.bytes.now most from t }
    {
        let mut at = from;
        for n in 0..most {
            if at == t {
                return n;
            }
            at = self.past(at);
        }
        most
    }

    // One round of the text: its commands in order from place 4 on, at most as many as it has bytes.
    fn walk(self) -> Surveyed
        ensures found_value { result.found ≡ walked_of (walk (cards_lent self.entry.lent self.entry.lists.now) self.entry.bytes.now (length self.entry.bytes.now) 4 None) }
        ensures tested_value { result.tested ≡ bits_of 48 (tested_from (cards_lent self.entry.lent self.entry.lists.now) self.entry.bytes.now (length self.entry.bytes.now) 4 None) }
    {
        let mut round = Round {
            place: 4,
            held: None,
            steps: 0,
            exposures: 0,
            tested: 0,
        };
        for _ in 0..self.bytes.len() {
            let Some(at) = Place::of(self.format, round.place) else {
                return round.fails(3);
            };
            let held = round.held;
            round = match runner::judge(self.bytes, self.lent, self.lists, at, held) {
                Act::Refused(code) => return round.refused(self.bytes, at, code),
                Act::Opens => round.opens(at, sequence::list_at(self.bytes, at)),
                Act::Exposes(_) => round.past(sequence::EXPOSE.size, one_more(held), 0, 0),
                Act::Loops(t) => round.loops(self, t),
                Act::Waits => round.past(sequence::DELAY.size, held, pause(held), 0),
                Act::Calls(n) => return round.closes(Closing::CallsOn(n)),
                Act::Ends => return round.closes(Closing::Terminates),
            };
        }
        round.fails(3)
    }

    // All rounds of the text, from its header on.
    fn check(self) -> Surveyed
        ensures found_value { result.found ≡ walked_of (check_one (env_lent self.entry.format self.entry.lent self.entry.lists.now) self.entry.bytes.now) }
        ensures tested_value { result.tested ≡ bits_of 48 (tested_in (cards_lent self.entry.lent self.entry.lists.now) self.entry.bytes.now) }
        ensures found_bound { AtMost (2 ^ 54) result.found }
    {
        match sequence::header_of(self.bytes) {
            Ok(repeats) => {
                let round = self.walk();
                Surveyed {
                    found: all_rounds(self.format, repeats, round.found),
                    ..round
                }
            }
            Err(fault) => Surveyed {
                found: Err(fault),
                tested: 0,
            },
        }
    }

    // The line list that the run raster at this number names; past the text every byte is 0.
    fn list_named(self, number: u8) -> u8
        ensures { result ≡ (raster_at self.entry.bytes.now number).list }
    {
        match Place::of(self.format, number) {
            Some(at) => sequence::list_at(self.bytes, at),
            None => 0,
        }
    }

    // The reason of a fault in the text: of a 7 what the test answers for the line list that the run raster at its place names; where that is
    // good, a mark is missing.
    fn reason_for(self, fault: Fault) -> Reason
        ensures { result ≡ reason_for (cards_lent self.entry.lent self.entry.lists.now) self.entry.bytes.now fault }
    {
        if fault.code != 7 {
            return Reason::None;
        }
        let n = self.list_named(fault.place);
        match sequence::card_of(self.lent, self.lists, n, false) {
            Ok(_) => Reason::Mark,
            Err(bad) => Reason::OfList(bad),
        }
    }

    // The marks, with those of the line lists that the run rasters of the text name.
    fn mark_lists(self, marks: &mut [bool; 256])
        ensures { (k : ℕ) → k < 256 → get_or marks.new k false ≡ (get_or marks.old k false || among k (lists_used self.entry.bytes.now)) }
    {
        let mut place: u8 = 4;
        for _ in 0..self.bytes.len() {
            let Some(at) = Place::of(self.format, place) else {
                return;
            };
            let next = sequence::past(self.bytes, at);
            if next == place {
                return;
            }
            if sequence::raster_stands(self.bytes, at) {
                marks[sequence::list_at(self.bytes, at) as usize] = true;
            }
            place = next;
        }
    }
}

// One sequence's text, taken alone; 16 for no kind of tables.
#[tactic(auto, unfolding(crate::specs::Report::check_alone, crate::specs::Report::alone_of))]
pub fn check_one(kind: u32, text: &[u8], lists: &[u8]) -> Walked
    ensures { result ≡ check_alone (format_of kind) lists.now text.now }
{
    taken_alone(kind, text, Lent::Lists, lists).found
}

// Nothing listed.
pub fn empty() -> Chain
    ensures { result ≡ empty_chain }
{
    Chain {
        listed: [0u8; memory::SEQUENCES],
        marks: [false; memory::SEQUENCES],
        count: 0,
        steps: 0,
        exposures: 0,
    }
}

impl Chain {
    // What is reported of the chain and how it ends.
    pub fn reported(self, ending: Ending) -> Report
        ensures { result ≡ reported_as self ending }
    {
        let listed = self.listed;
        Report {
            ending,
            listed,
            count: self.count,
            steps: total(ending, self.steps),
            exposures: total(ending, self.exposures),
        }
    }
}

impl<'a> Tables<'a> {
    // The text of sequence n, read with the line lists themselves.
    fn text(self, n: u8) -> Text<'a>
        ensures fields { (result.format ≡ self.entry.format) × (result.lent ≡ Lent.Lists) × (result.lists.now ≡ self.entry.lists.now) }
        ensures entry { result.bytes.now ≡ entry_of self.entry.format self.entry.seqs.now n }
    {
        Text {
            format: self.format,
            bytes: memory::entry(self.format, self.seqs, n),
            lent: Lent::Lists,
            lists: self.lists,
        }
    }

    // Sequence n, which is not listed yet, listed and marked, and what its closing command leads to.
    // Stays: what may not change, the scope's own form: a sequence's check calls the check of its closing command, and that calls it.
    #[cycle(check_closing_check_sequence)]
    fn check_sequence(self, n: u8, mut chain: Chain) -> Checked
        requires { Free chain n }
        ensures { (names : List ℕ) → Is chain names → reported (env_of self.entry.format self.entry.lists.now) self.entry.seqs.now result ≡ report_of (joined names chain.steps chain.exposures (follow (finding_of (env_of self.entry.format self.entry.lists.now) self.entry.seqs.now) (unmarked chain.marks) names n)) }
    {
        let at = chain.count;
        let mark = n as usize;
        chain.listed[at] = n;
        chain.marks[mark] = true;
        chain.count = at + 1;
        match self.text(n).check().found {
            Ok(closed) => {
                chain.steps += closed.steps;
                chain.exposures += closed.exposures;
                self.check_closing(chain, closed.closing)
            }
            Err(fault) => Checked {
                chain,
                ending: Ending::Faults(n, fault, Reason::None),
            },
        }
    }

    // A closing command: terminate, a call of a listed sequence, or a call of one that is not.
    #[cycle(check_closing_check_sequence)]
    fn check_closing(self, chain: Chain, closing: Closing) -> Checked
        requires { Marked chain × LowCall closing }
        ensures { (names : List ℕ) → Is chain names → reported (env_of self.entry.format self.entry.lists.now) self.entry.seqs.now result ≡ report_of (joined names chain.steps chain.exposures (ahead (follow (finding_of (env_of self.entry.format self.entry.lists.now) self.entry.seqs.now) (unmarked chain.marks) names) closing)) }
    {
        let ending = match closing {
            Closing::Terminates => Ending::Finishes,
            Closing::CallsOn(target) => {
                let mark = target as usize;
                if !chain.marks[mark] {
                    return self.check_sequence(target, chain);
                }
                Ending::Returns
            }
        };
        Checked { chain, ending }
    }

    // How a chain ends, with the reason of a fault: it is found once, when it is reported.
    fn reasoned(self, ending: Ending) -> Ending
        ensures { result ≡ reasoned (env_of self.entry.format self.entry.lists.now) self.entry.seqs.now ending }
    {
        match ending {
            Ending::Faults(n, fault, _) => Ending::Faults(n, fault, self.text(n).reason_for(fault)),
            Ending::Unlisted(_) | Ending::Finishes | Ending::Returns => ending,
        }
    }

    // What is reported of a chain and its ending, with a fault's reason.
    #[tactic(auto, unfolding(crate::specs::Held::reported))]
    fn report(self, checked: Checked) -> Report
        ensures { result ≡ reported (env_of self.entry.format self.entry.lists.now) self.entry.seqs.now checked }
    {
        checked.chain.reported(self.reasoned(checked.ending))
    }

    // What a pass rests on: the listed sequences, and the line lists that those use.
    fn rest_of(self, listed: &[u8]) -> Rest
        ensures { RestOf self.entry.format self.entry.seqs.now listed.now result }
    {
        let mut sequences = [false; 256];
        let mut lists = [false; 256];
        for n in listed {
            sequences[*n as usize] = true;
            self.text(*n).mark_lists(&mut lists);
        }
        Rest { sequences, lists }
    }

    // The number of the lowest address at which a byte that a pass over these tables rests on is another in those of later.
    fn lowest_changed(self, later: Tables, rest: Rest) -> Option<u32>
        requires { later.format ≡ self.format }
        ensures { (names : List ℕ) → RestOf self.entry.format self.entry.seqs.now names rest → result ≡ found_below 0x075EC0 (lowest_changed self.entry.format self.entry.seqs.now self.entry.lists.now later.entry.seqs.now later.entry.lists.now names) }
    {
        let size = self.format.size as usize;
        let count = self.format.last as usize + 1;
        if let Some(at) = first_changed(self.seqs, later.seqs, size, count, &rest.sequences) {
            return Some(memory::SEQUENCE_ADDRESS + at as u32);
        }
        let size = memory::LINE_LIST_SIZE;
        let count = memory::LINE_LISTS;
        let at = first_changed(self.lists, later.lists, size, count, &rest.lists)?;
        Some(memory::LINE_LIST_ADDRESS + at as u32)
    }
}

// A sum over the chain as it is reported: 0 unless the chain ends or returns.
pub fn total(ending: Ending, sum: u64) -> u64
    ensures { result ≡ total ending sum 0 }
{
    match ending {
        Ending::Finishes | Ending::Returns => sum,
        Ending::Unlisted(_) | Ending::Faults(_, _, _) => 0,
    }
}

impl Reason {
    // The reason by number and value.
    pub fn shown(self) -> ReasonNumbers
        ensures { result ≡ reason_shown self }
    {
        match self {
            Reason::None => ReasonNumbers {
                number: 0,
                value: 0,
            },
            Reason::OfList(bad) => bad.shown(),
            Reason::Mark => ReasonNumbers {
                number: 4,
                value: 0,
            },
        }
    }
}

// What is reported where nothing is listed.
#[tactic(auto, unfolding(crate::specs::Report::report_of, crate::specs::Report::padded))]
pub fn unlisted(code: u8) -> Report
    ensures { result ≡ report_of (told [] (Ending.Unlisted code) 0 0) }
{
    Report {
        ending: Ending::Unlisted(code),
        listed: [0u8; memory::SEQUENCES],
        count: 0,
        steps: 0,
        exposures: 0,
    }
}

// The table check of a sequence and of those that it calls, in order: 16 for tables of a wrong size or of no kind, then 7 for a number above the
// last, then the chain up to its end, its return or its first fault.
// Stays: what may not change, the scope's own form: here and in the public functions below the caller lends each table, of any size.
pub fn check(kind: u32, seqs: &[u8], lists: &[u8], number: u32) -> Report
    ensures { result ≡ report_of (check_of (format_of kind) seqs.now lists.now number) }
{
    if memory::tables_wrong(kind, seqs, lists) {
        return unlisted(16);
    }
    let format = Format::of(kind);
    if (format.last as u32) < number {
        return unlisted(7);
    }
    let tables = Tables {
        format,
        seqs,
        lists,
    };
    tables.report(tables.check_sequence(number as u8, empty()))
}

// One sequence's text, taken alone, with what is lent of the line lists: what it comes to, its reason, and the line lists tested; 16 for no kind of tables.
pub fn taken_alone(kind: u32, text: &[u8], lent: Lent, lists: &[u8]) -> Alone
    ensures { result ≡ alone_of (format_of kind) (cards_lent lent lists.now) text.now }
{
    if memory::BENCH < kind {
        return Alone {
            found: Err(Fault { code: 16, place: 0 }),
            reason: Reason::None,
            tested: 0,
        };
    }
    let text = Text::of(Format::of(kind), text, lent, lists);
    let surveyed = text.check();
    Alone {
        found: surveyed.found,
        reason: match surveyed.found {
            Ok(_) => Reason::None,
            Err(fault) => text.reason_for(fault),
        },
        tested: surveyed.tested,
    }
}

// The first offset from one up to an end at which a table has another byte now.
// Stays: here and in the two below, each called by the next alone, a table of then and one of now; a struct of the two would be taken apart in each.
fn differs(was: &[u8], is: &[u8], from: usize, end: usize) -> Option<usize>
    requires { (from ≤ end) × (end ≤ length was.now) × (length is.now ≡ length was.now) }
    ensures { result ≡ found_below end (first_of (another was.now is.now) (end - from) from) }
{
    for at in from..end {
        if was[at] != is[at] {
            return Some(at);
        }
    }
    None
}

// The first offset of a byte in the entry at an offset, within its length, that is another now.
fn entry_changed(was: &[u8], is: &[u8], at: usize, size: usize) -> Option<usize>
    requires { (0 < size) × (at + size ≤ length was.now) × (length is.now ≡ length was.now) }
    ensures { result ≡ found_below (at + size) (first_of (λ i. ltb i (at + byte_at was.now at) && another was.now is.now i) size at) }
{
    let length = was[at] as usize;
    differs(was, is, at, at + length.min(size))
}

// The first offset of a byte in the marked ones of a table's entries, within its length, that is another now.
fn first_changed(
    was: &[u8],
    is: &[u8],
    size: usize,
    count: usize,
    marks: &[bool; 256],
) -> Option<usize>
    requires { (0 < size) × (count ≤ 256) × (length was.now ≡ count * size) × (length is.now ≡ length was.now) }
    ensures by_index { (entries : List ℕ) → MarkedJust 256 marks.now entries → result ≡ found_below (count * size) (first_of (changed_in size was.now is.now entries) (count * size) 0) }
    ensures in_bounds { IfSome result (λ at. at < count * size) }
{
    for n in 0..count {
        if marks[n] {
            if let Some(at) = entry_changed(was, is, n * size, size) {
                return Some(at);
            }
        }
    }
    None
}

impl Standing {
    // What stands where the lowest changed address has this number, if there is one.
    fn at(lowest: Option<u32>) -> Standing
        ensures { result ≡ standing_at (option_and_then address_of lowest) }
    {
        match lowest.and_then(Address::of) {
            Some(address) => Standing::Changed(address),
            None => Standing::Same,
        }
    }
}

// Whether the check's pass over the first tables stands over the second ones, of the same kind: 16 for tables of a wrong size or of no kind, then the
// check's own 7 or fault, then whether every byte that the pass rests on is as it was, or the lowest address of one that is not.
pub fn still(
    kind: u32,
    seqs: &[u8],
    lists: &[u8],
    seqs2: &[u8],
    lists2: &[u8],
    number: u32,
) -> Standing
    ensures { result ≡ still_of (format_of kind) seqs.now lists.now seqs2.now lists2.now number }
{
    if memory::tables_wrong(kind, seqs2, lists2) {
        return Standing::Unpassed(Ending::Unlisted(16));
    }
    let report = check(kind, seqs, lists, number);
    if let Ending::Unlisted(_) | Ending::Faults(_, _, _) = report.ending {
        return Standing::Unpassed(report.ending);
    }
    let format = Format::of(kind);
    let tables = Tables {
        format,
        seqs,
        lists,
    };
    let later = Tables {
        format,
        seqs: seqs2,
        lists: lists2,
    };
    let rest = tables.rest_of(octets::part(&report.listed, 0, report.count));
    Standing::at(tables.lowest_changed(later, rest))
}
