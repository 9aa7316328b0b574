// The exports of the library for C: each calls the function of its name in `keel`, whose clauses it has. include/keel.h declares them.
#![tactic(auto)]

ghost use Rattle.std.specs.Prelude.{◌≡◌};
ghost use Rattle.memory.specs.Memory.{format_of};
ghost use Rattle.summary.specs.Summary.{make_code, made, update_code, updated};
ghost use Rattle.keel.specs.Calls.{power_code, powered_on, packet_answer, state_after, kept_seqs, kept_lists, kept_out, step_answer, state_stepped};
ghost use Rattle.keel.specs.Report.{check_answer, report_after, cards_answer, cards_report};

// The state at power-on: mode 1, selection, status sequence and open raster none, all else 0.
#[unsafe(no_mangle)]
pub extern "C" fn keel_power_on(state: &mut [u8]) -> u32
    ensures value { result ≡ power_code state.old }
    ensures state_after { state.new ≡ powered_on state.old }
{
    keel::keel_power_on(state)
}

// One packet: the code, and 256 times the length of what was written to the output.
// Stays: here and below kinds and codes are numbers, and a kind, its tables and a state go side by side, as the C interface has them.
#[unsafe(no_mangle)]
pub extern "C" fn keel_packet(
    kind: u32,
    state: &mut [u8],
    seqs: &mut [u8],
    lists: &mut [u8],
    out: &mut [u8],
    time: u32,
    packet: &[u8],
) -> u32
    ensures value { result ≡ packet_answer (format_of kind) state.old time seqs.old lists.old out.old packet.now }
    ensures state_after { state.new ≡ state_after (format_of kind) state.old seqs.old lists.old out.old packet.now }
    ensures seqs_after { seqs.new ≡ kept_seqs (format_of kind) state.old seqs.old lists.old out.old packet.now }
    ensures lists_after { lists.new ≡ kept_lists (format_of kind) state.old seqs.old lists.old out.old packet.now }
    ensures out_after { out.new ≡ kept_out (format_of kind) state.old time seqs.old lists.old out.old packet.now }
{
    keel::keel_packet(kind, state, seqs, lists, out, time, packet)
}

// One step: the event in the low 8 bits, its values in 16 bits each at bits 16, 32 and 48.
#[unsafe(no_mangle)]
pub extern "C" fn keel_step(kind: u32, state: &mut [u8], seqs: &[u8], lists: &[u8]) -> u64
    ensures value { result ≡ step_answer (format_of kind) state.old seqs.now lists.now }
    ensures state_after { state.new ≡ state_stepped (format_of kind) state.old seqs.now lists.now }
{
    keel::keel_step(kind, state, seqs, lists)
}

// The table check of a sequence: its code, and its report of 152 bytes.
#[unsafe(no_mangle)]
pub extern "C" fn keel_check(
    kind: u32,
    seqs: &[u8],
    lists: &[u8],
    number: u32,
    report: &mut [u8],
) -> u32
    ensures value { result ≡ check_answer (format_of kind) seqs.now lists.now number report.old }
    ensures report_after { report.new ≡ report_after (format_of kind) seqs.now lists.now number report.old }
{
    keel::keel_check(kind, seqs, lists, number, report)
}

// The summary of both tables, made whole: 0, or 16 with nothing written.
#[unsafe(no_mangle)]
pub extern "C" fn keel_cards(kind: u32, seqs: &[u8], lists: &[u8], summary: &mut [u8]) -> u32
    ensures value { result ≡ make_code (format_of kind) seqs.now lists.now summary.old }
    ensures summary_after { summary.new ≡ made (format_of kind) seqs.now lists.now summary.old }
{
    keel::keel_cards(kind, seqs, lists, summary)
}

// The summary brought up to date after an obeyed uplink of so many bytes at an address: 0, or 16 or 7 with nothing written.
#[unsafe(no_mangle)]
pub extern "C" fn keel_cards_update(
    kind: u32,
    seqs: &[u8],
    lists: &[u8],
    summary: &mut [u8],
    address: u32,
    count: u32,
) -> u32
    ensures value { result ≡ update_code (format_of kind) seqs.now lists.now summary.old address count }
    ensures summary_after { summary.new ≡ updated (format_of kind) seqs.now lists.now summary.old address count }
{
    keel::keel_cards_update(kind, seqs, lists, summary, address, count)
}

// The table check of a sequence from a summary alone: its code, and its report of 152 bytes.
#[unsafe(no_mangle)]
pub extern "C" fn keel_cards_check(kind: u32, summary: &[u8], number: u32, report: &mut [u8]) -> u32
    ensures value { result ≡ cards_answer (format_of kind) summary.now number report.old }
    ensures report_after { report.new ≡ cards_report (format_of kind) summary.now number report.old }
{
    keel::keel_cards_check(kind, summary, number, report)
}
