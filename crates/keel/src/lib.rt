// The library for C: the unit and the table check as functions on numbers and byte slices. `keel_c` exports them, and include/keel.h
// declares them.
#![tactic(auto)]

ghost use Rattle.std.specs.Prelude.{◌≡◌, ◌+◌, ◌*◌, ◌≤◌, ◌^◌, ◌∷◌, []};
ghost use Rattle.memory.specs.Memory.{format_of};
ghost use Rattle.runner.specs.Events.{shown_as};
ghost use Rattle.survey.specs.Report.{ending_shown, reason_of, reason_shown};
ghost use Rattle.keel.specs.Calls.{held_code, refused_with, power_code, powered_on, packet_answer, state_after, kept_seqs, kept_lists, kept_out, packed, denied_as, step_answer, state_stepped};
ghost use Rattle.summary.specs.Summary.{make_code, made, update_code, updated};
ghost use Rattle.keel.specs.Report.{report_laid, check_answer, report_after, cards_answer, cards_report};

use memory::Format;
use runner::{Event, Runner};
use state::STATE;
use survey::{Ending, Report};

// The bytes of a report, of which the chain is the last part.
const REPORT: usize = 152;

// What the bytes of a state are refused for before the unit's own rules, given whether something else lent is wrong: 16,
// then 17.
// Stays: a code is a number, as the C interface hands it over.
#[tactic(auto, unfolding(crate::specs::Calls::held_rows))]
fn refusal(lent: bool, state: &[u8]) -> Option<u8>
    ensures { result ≡ refused_with (held_code lent state.now) }
{
    if state.len() != STATE || lent {
        return Some(16);
    }
    state::flags_wrong(state).then_some(17)
}

// The state at power-on: mode 1, selection, status sequence and open raster none, all else 0.
#[tactic(auto, unfolding(unit::specs::State::power_on, state::specs::State::state_of))]
pub fn keel_power_on(state: &mut [u8]) -> u32
    ensures value { result ≡ power_code state.old }
    ensures state_after { state.new ≡ powered_on state.old }
{
    let Some(state) = state.as_mut_array::<STATE>() else {
        return 16;
    };
    *state = [0; STATE];
    state[0] = 1;
    state[15] = Runner::NONE;
    state[16] = Runner::NONE;
    state[25] = Runner::NONE;
    0
}

// A code, and 256 times the length of an answer.
fn answer_of(code: u8, size: usize) -> u32
    requires { size ≤ 16384 }
    ensures { result ≡ code + 256 * size }
{
    u32::from(code) + 256 * size as u32
}

// One packet: the code, and 256 times the length of what was written to the output.
// Stays: a kind, its tables, a state and an output go side by side, and codes are numbers, here and below, as the C interface has them.
pub fn keel_packet(
    kind: u32,
    state: &mut [u8],
    seqs: &mut [u8],
    lists: &mut [u8],
    out: &mut [u8],
    time: u32,
    packet: &[u8],
) -> u32
    ensures value { result ≡ packet_answer (format_of kind) state.old time seqs.old lists.old out.old packet.now }
    ensures state_after { state.new ≡ state_after (format_of kind) state.old seqs.old lists.old out.old packet.now }
    ensures seqs_after { seqs.new ≡ kept_seqs (format_of kind) state.old seqs.old lists.old out.old packet.now }
    ensures lists_after { lists.new ≡ kept_lists (format_of kind) state.old seqs.old lists.old out.old packet.now }
    ensures out_after { out.new ≡ kept_out (format_of kind) state.old time seqs.old lists.old out.old packet.now }
{
    if let Some(code) = refusal(unit::lent_wrong(kind, seqs, lists, out), state) {
        return code.into();
    }
    let unit = state::unit_of(state, state::runner_of(state));
    let answer = unit.packet(kind, seqs, lists, out, time, packet);
    state::save_answer(answer, packet, state);
    answer_of(answer.code, answer.size)
}

// An event's number and its values as one number.
fn packed(number: u8, first: u16, second: u16, third: u16) -> u64
    ensures { result ≡ number + first * 2 ^ 16 + second * 2 ^ 32 + third * 2 ^ 48 }
{
    u64::from(number) | u64::from(first) << 16 | u64::from(second) << 32 | u64::from(third) << 48
}

// The event of a step as one number, given the exposures that the unit counts after it.
fn packed_event(event: Event, exposures: u16) -> u64
    ensures { result ≡ packed (shown_as exposures event) }
{
    match event {
        Event::Idle => 0,
        Event::Enter(s) => packed(1, s.into(), 0, 0),
        Event::Raster(id, pos, _) => packed(2, id, pos, 0),
        Event::Exp(pos) => packed(3, exposures, pos, 0),
        Event::Loop(place) => packed(4, place.into(), 0, 0),
        Event::Next => 5,
        Event::Done => 6,
        Event::Wait(t) => packed(7, t, 0, 0),
        Event::Call(s) => packed(8, s.into(), 0, 0),
        Event::End => 9,
        Event::Abort(code, s, place) => packed(10, code.into(), s.into(), place.into()),
    }
}

// A refused step as one number.
fn denied(code: u8) -> u64
    ensures { result ≡ denied_as code }
{
    packed(11, code.into(), 0, 0)
}

// One step: the event in the low 8 bits, its values in 16 bits each at bits 16, 32 and 48.
pub fn keel_step(kind: u32, state: &mut [u8], seqs: &[u8], lists: &[u8]) -> u64
    ensures value { result ≡ step_answer (format_of kind) state.old seqs.now lists.now }
    ensures state_after { state.new ≡ state_stepped (format_of kind) state.old seqs.now lists.now }
{
    if let Some(code) = refusal(memory::tables_wrong(kind, seqs, lists), state) {
        return denied(code);
    }
    let unit = state::unit_of(state, state::runner_of(state));
    if !unit.runner.running {
        if unit.out_of_range(Format::of(kind)) {
            return denied(17);
        }
        return 0;
    }
    let stepped = unit.step(kind, seqs, lists);
    match stepped.outcome {
        Ok(event) => {
            let after = stepped.unit;
            state::save_step(event, after, state);
            packed_event(event, after.watch.exposures)
        }
        Err(code) => denied(code),
    }
}

// How a check ends, as the first bytes of a report: its code, how it ends, a fault's sequence and place, and its reason by number
// and value.
fn ending_bytes(ending: Ending) -> [u8; 6]
    ensures { result ≡ (ending_shown ending).code ∷ (ending_shown ending).number ∷ (ending_shown ending).sequence ∷ (ending_shown ending).place ∷ (reason_shown (reason_of ending)).number ∷ (reason_shown (reason_of ending)).value ∷ [] }
{
    match ending {
        Ending::Unlisted(code) => [code, 0, 0, 0, 0, 0],
        Ending::Finishes => [0, 1, 0, 0, 0, 0],
        Ending::Returns => [0, 2, 0, 0, 0, 0],
        Ending::Faults(sequence, fault, reason) => {
            let why = reason.shown();
            [fault.code, 3, sequence, fault.place, why.number, why.value]
        }
    }
}

// What a check found, as a report.
fn laid(found: Report) -> [u8; REPORT]
    ensures { result ≡ report_laid found }
{
    let mut report = [0; REPORT];
    report[..6].copy_from_slice(&ending_bytes(found.ending));
    report[6..8].copy_from_slice(&octets::eight(found.count as u64)[6..]);
    report[8..16].copy_from_slice(&octets::eight(found.steps));
    report[16..24].copy_from_slice(&octets::eight(found.exposures));
    report[24..].copy_from_slice(&found.listed);
    report
}

// The table check of a sequence: its code, and its report of 152 bytes.
#[tactic(auto, unfolding(survey::specs::Report::report_of, crate::specs::Report::report_bytes, crate::specs::Report::told_answer, crate::specs::Report::told_report, crate::specs::Report::check_answer, crate::specs::Report::report_after))]
pub fn keel_check(kind: u32, seqs: &[u8], lists: &[u8], number: u32, report: &mut [u8]) -> u32
    ensures value { result ≡ check_answer (format_of kind) seqs.now lists.now number report.old }
    ensures report_after { report.new ≡ report_after (format_of kind) seqs.now lists.now number report.old }
{
    match report.as_mut_array::<REPORT>() {
        Some(report) => {
            *report = laid(survey::check(kind, seqs, lists, number));
            report[0].into()
        }
        None => 16,
    }
}

// The summary of both tables, made whole: 0, or 16 with nothing written.
pub fn keel_cards(kind: u32, seqs: &[u8], lists: &[u8], summary: &mut [u8]) -> u32
    ensures value { result ≡ make_code (format_of kind) seqs.now lists.now summary.old }
    ensures summary_after { summary.new ≡ made (format_of kind) seqs.now lists.now summary.old }
{
    summary::make(kind, seqs, lists, summary).into()
}

// The summary brought up to date after an obeyed uplink of so many bytes at an address: 0, or 16 or 7 with nothing written.
pub fn keel_cards_update(
    kind: u32,
    seqs: &[u8],
    lists: &[u8],
    summary: &mut [u8],
    address: u32,
    count: u32,
) -> u32
    ensures value { result ≡ update_code (format_of kind) seqs.now lists.now summary.old address count }
    ensures summary_after { summary.new ≡ updated (format_of kind) seqs.now lists.now summary.old address count }
{
    summary::update(kind, seqs, lists, summary, address, count).into()
}

// The table check of a sequence from a summary alone: its code, and its report of 152 bytes.
#[tactic(auto, unfolding(survey::specs::Report::report_of, crate::specs::Report::report_bytes, crate::specs::Report::told_answer, crate::specs::Report::told_report, crate::specs::Report::cards_answer, crate::specs::Report::cards_report))]
pub fn keel_cards_check(kind: u32, summary: &[u8], number: u32, report: &mut [u8]) -> u32
    ensures value { result ≡ cards_answer (format_of kind) summary.now number report.old }
    ensures report_after { report.new ≡ cards_report (format_of kind) summary.now number report.old }
{
    match report.as_mut_array::<REPORT>() {
        Some(report) => {
            *report = laid(summary::check(kind, summary, number));
            report[0].into()
        }
        None => 16,
    }
}
