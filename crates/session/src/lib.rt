// The run of a session: the opening, then its requests handled in order, in place (document 01, "Two runs and the last writer"; W-201, W-207).
#![tactic(auto)]

ghost use Rattle.std.specs.Prelude.{◌≡◌, true, ◌++◌, ◌+◌, ◌/◌, ◌≤◌, length};
ghost use Rattle.wire.specs.Number.{bytes};
ghost use Rattle.adapter.specs.Adapter.{medium_size};
ghost use Rattle.state.specs.State.{state_of, state_holds};
ghost use Rattle.header.specs.Sent.{sent, form_by};
ghost use Rattle.firmware.specs.Firmware.{stage_size};
ghost use Rattle.service.specs.Serve.{store_of};
ghost use Rattle.dispatch.specs.Request.{point, state_number, answered_at, handled};
ghost use Rattle.frames.specs.Frames.{prefix_size};
ghost use Rattle.session.specs.Session.{records, after_request, after_framed, after_first, after_at, ran, ran_from, session_run};

use frames::Framing;
use header::Kind;

// Writes a request's line of the record.
fn write_line(line: &mut [u8], call: u32, code: u32)
    requires { length line.old ≡ 8 }
    ensures { line.new ≡ bytes 4 call ++ bytes 4 code }
{
    wire::write32(line, 0, call);
    wire::write32(line, 4, code);
}

// Handles a request that passed the checks of the call, and writes its line.
fn record_reply(
    kind: Kind,
    state: &mut [u8; dispatch::SIZE],
    medium: &mut [u8],
    stage: &mut [u8],
    buffer: &mut [u8],
    line: &mut [u8],
)
    requires state_value { state_holds (state_of state.old) ≡ true }
    requires medium_len { length medium.old ≡ medium_size (state_of state.old).adapter }
    requires stage_len { length stage.old ≡ stage_size }
    requires kind_in_bounds { (form_by kind).size ≤ length buffer.old }
    requires line_len { length line.old ≡ 8 }
    ensures { records (point (state_of state.new) (store_of medium.new stage.new)) buffer.new line.new
        ≡ after_request (sent kind buffer.old)
        (answered_at (point (state_of state.old) (store_of medium.old stage.old)) (sent kind buffer.old)) }
{
    let answer = dispatch::reply(kind, state, medium, stage, buffer);
    write_line(line, 0, codes::answer_code(answer));
}

// Handles a request, and writes its line. `number` is that of the state, the medium and the stage.
#[tactic(auto, using(crate::proofs::RequestLaws::reply_buffer, crate::proofs::RequestLaws::reply_medium, crate::proofs::RequestLaws::reply_stage, crate::proofs::RequestLaws::reply_state, crate::proofs::RequestLaws::handled_replied, crate::proofs::RequestLaws::handled_refused))]
fn record_request(
    kind: Kind,
    number: u32,
    state: &mut [u8; dispatch::SIZE],
    medium: &mut [u8],
    stage: &mut [u8],
    buffer: &mut [u8],
    line: &mut [u8],
)
    requires number_value { number ≡ state_number (state_of state.old) (length medium.old) (length stage.old) }
    requires line_len { length line.old ≡ 8 }
    ensures { records (point (state_of state.new) (store_of medium.new stage.new)) buffer.new line.new
        ≡ after_request (sent kind buffer.old)
        (handled (point (state_of state.old) (store_of medium.old stage.old)) (sent kind buffer.old)) }
{
    let call = dispatch::buffer_number(kind, number, buffer.len());
    if call == 0 {
        record_reply(kind, state, medium, stage, buffer, line);
    } else {
        write_line(line, call, tally::NO_CODE);
    }
}

// The same of a request behind its prefix.
fn record_framed(
    framing: Framing,
    number: u32,
    state: &mut [u8; dispatch::SIZE],
    medium: &mut [u8],
    stage: &mut [u8],
    request: &mut [u8],
    line: &mut [u8],
)
    requires number_value { number ≡ state_number (state_of state.old) (length medium.old) (length stage.old) }
    requires framing_in_bounds { prefix_size framing ≤ length request.old }
    requires line_len { length line.old ≡ 8 }
    ensures { records (point (state_of state.new) (store_of medium.new stage.new)) request.new line.new
        ≡ after_framed framing (point (state_of state.old) (store_of medium.old stage.old)) request.old }
{
    let kind = frames::kind_of(frames::read_prefix(framing, request));
    let before = frames::prefix_size(framing);
    record_request(
        kind,
        number,
        state,
        medium,
        stage,
        &mut request[before..],
        line,
    )
}

// The same of the first request of a session, which stands in `size` bytes, with the first line of a record.
fn record_first(
    framing: Framing,
    size: usize,
    number: u32,
    state: &mut [u8; dispatch::SIZE],
    medium: &mut [u8],
    stage: &mut [u8],
    session: &mut [u8],
    lines: &mut [u8],
)
    requires framing_bound { (prefix_size framing ≤ size) × (size ≤ length session.old) }
    requires number_value { number ≡ state_number (state_of state.old) (length medium.old) (length stage.old) }
    requires in_bounds { 8 ≤ length lines.old }
    ensures { records (point (state_of state.new) (store_of medium.new stage.new)) session.new lines.new
        ≡ after_first framing size (point (state_of state.old) (store_of medium.old stage.old)) session.old lines.old }
{
    record_framed(
        framing,
        number,
        state,
        medium,
        stage,
        &mut session[..size],
        &mut lines[..8],
    )
}

// The same of a request that starts at an index of the session, with its line at one of the record.
fn record_at(
    framing: Framing,
    size: usize,
    number: u32,
    state: &mut [u8; dispatch::SIZE],
    medium: &mut [u8],
    stage: &mut [u8],
    session: &mut [u8],
    at: usize,
    lines: &mut [u8],
    line: usize,
)
    requires framing_bound { (prefix_size framing ≤ size) × (at + size ≤ length session.old) }
    requires number_value { number ≡ state_number (state_of state.old) (length medium.old) (length stage.old) }
    requires line_in_bounds { line + 8 ≤ length lines.old }
    ensures { records (point (state_of state.new) (store_of medium.new stage.new)) session.new lines.new
        ≡ after_at framing size at line (point (state_of state.old) (store_of medium.old stage.old)) session.old lines.old }
{
    record_first(
        framing,
        size,
        number,
        state,
        medium,
        stage,
        &mut session[at..],
        &mut lines[line..],
    )
}

// Handles the requests of a session in order, until none is whole or the record is full, and gives their number. The rules of the state
// are tested once, since no request breaks them.
#[tactic(auto, using(crate::proofs::RunLaws::run_ends, frames::proofs::FramesLaws::first_prefix, crate::proofs::RunLaws::rest_up, crate::proofs::RunLaws::run_goes_on, crate::proofs::StateLaws::number_next, crate::proofs::RunLaws::run_full))]
fn run(
    framing: Framing,
    state: &mut [u8; dispatch::SIZE],
    medium: &mut [u8],
    stage: &mut [u8],
    session: &mut [u8],
    lines: &mut [u8],
) -> usize
    ensures { ran result (store_of medium.new stage.new) session.new lines.new
        ≡ ran_from framing (length lines.old / 8) (point (state_of state.old) (store_of medium.old stage.old))
        session.old lines.old }
{
    let number = codes::call_number(dispatch::check_state(state, medium.len(), stage.len()));
    let mut at = 0;
    let mut count = 0;
    let room = lines.len() / 8;
    while count < room {
        let Some(size) = frames::first_size(framing, &session[at..]) else {
            return count;
        };
        let line = 8 * count;
        count += 1;
        record_at(
            framing, size, number, state, medium, stage, session, at, lines, line,
        );
        at += size;
    }
    count
}

// Opens the adapter and runs a session.
pub fn open_and_run(
    framing: Framing,
    text: &[u8],
    file: &[u8],
    medium: &mut [u8],
    stage: &mut [u8],
    session: &mut [u8],
    lines: &mut [u8],
) -> usize
    ensures { ran result (store_of medium.new stage.new) session.new lines.new
        ≡ session_run framing text.now file.now (store_of medium.old stage.old) session.old lines.old }
{
    let mut state = [0u8; dispatch::SIZE];
    // a refused opening leaves the zero state, which each request is refused with
    let _ = dispatch::open(text, file, medium, &mut state);
    run(framing, &mut state, medium, stage, session, lines)
}
