// The calls that handle one request, under either header.
ghost use Rattle.std.specs.Prelude.{◌≡◌, true, ◌≤◌, length};
ghost use Rattle.codes.specs.Numbers.{code_of, call_of};
ghost use Rattle.adapter.specs.Adapter.{FewPhys, FewRows, medium_size};
ghost use Rattle.tables.specs.Tables.{tables_of};
ghost use Rattle.header.specs.declared.Kind.TheVariants.{Srb, Linux};
ghost use Rattle.header.specs.Form.{return_code, with_code};
ghost use Rattle.header.specs.Sent.{sent, form_by, HasStructure, checks_code};
ghost use Rattle.firmware.specs.Firmware.{stage_size};
ghost use Rattle.service.specs.Serve.{store_of};
ghost use Rattle.state.specs.State.{state_with, state_size, state_of, state_holds};
ghost use Rattle.dispatch.specs.Request.{point, outcome, stage_number, state_number, buffer_number};
ghost use Rattle.dispatch.specs.Request.{pending, served_request, answered, answered_at, handled, RequestCall};

use codes::{CallError, ReturnCode};
use header::Kind;
use level::Level;

// The body behind the header is lent to the code's own checks and effect.
fn serve_body(
    kind: Kind,
    tables: &mut [u8; tables::SIZE],
    medium: &mut [u8],
    stage: &mut [u8; firmware::STAGE_SIZE],
    buffer: &mut [u8],
) -> Result<(), ReturnCode>
    requires few_phys { FewPhys (tables_of tables.old) × FewRows (tables_of tables.old) }
    requires medium_len { length medium.old ≡ medium_size (tables_of tables.old) }
    requires kind_in_bounds { (form_by kind).size ≤ length buffer.old }
    requires has_structure { HasStructure (sent kind buffer.old) }
    ensures { pending (code_of result) (tables_of tables.new) (store_of medium.new stage.new) buffer.new
        ≡ served_request (tables_of tables.old) (store_of medium.old stage.old) (sent kind buffer.old) }
{
    let control = header::control_code(kind, buffer);
    let size = header::size(kind);
    service::serve(tables, medium, stage, control, &mut buffer[size..])
}

// The header's checks and the level, and then the code's own.
#[tactic(auto, using(crate::proofs::Laws::checked_room, laws::specs::Choice::picks, crate::proofs::Laws::refused_by), unfolding(crate::specs::Request::answered))]
fn answer(
    kind: Kind,
    level: Level,
    tables: &mut [u8; tables::SIZE],
    medium: &mut [u8],
    stage: &mut [u8; firmware::STAGE_SIZE],
    buffer: &mut [u8],
) -> Result<(), ReturnCode>
    requires few_phys { FewPhys (tables_of tables.old) × FewRows (tables_of tables.old) }
    requires medium_len { length medium.old ≡ medium_size (tables_of tables.old) }
    requires kind_in_bounds { (form_by kind).size ≤ length buffer.old }
    ensures { pending (code_of result) (tables_of tables.new) (store_of medium.new stage.new) buffer.new
        ≡ answered (tables_of tables.old) (store_of medium.old stage.old) (sent kind buffer.old)
        (checks_code level (sent kind buffer.old)) }
{
    header::access_code(kind, level, buffer)?;
    serve_body(kind, tables, medium, stage, buffer)
}

// The return code is written here, and nowhere else, at the place that the header says.
#[tactic(auto, using(crate::proofs::Laws::code_placed, crate::proofs::Laws::code_written))]
fn write_code(kind: Kind, buffer: &mut [u8], answer: Result<(), ReturnCode>)
    requires { (form_by kind).size ≤ length buffer.old }
    ensures buffer_after { buffer.new ≡ with_code (form_by kind) buffer.old (code_of answer) }
    ensures value { code_of answer ≡ return_code (form_by kind) buffer.new }
{
    wire::write32(buffer, header::place(kind), codes::answer_code(answer));
}

// What serves a request is lent the tables, and not the level's byte.
fn reply_at(
    kind: Kind,
    level: Level,
    tables: &mut [u8; tables::SIZE],
    medium: &mut [u8],
    stage: &mut [u8; firmware::STAGE_SIZE],
    buffer: &mut [u8],
) -> Result<(), ReturnCode>
    requires few_phys { FewPhys (tables_of tables.old) × FewRows (tables_of tables.old) }
    requires medium_len { length medium.old ≡ medium_size (tables_of tables.old) }
    requires kind_in_bounds { (form_by kind).size ≤ length buffer.old }
    ensures buffer_after { outcome 0 (point (state_with level (tables_of tables.new)) (store_of medium.new stage.new)) buffer.new
        ≡ answered_at (point (state_with level (tables_of tables.old)) (store_of medium.old stage.old)) (sent kind buffer.old) }
    ensures value { code_of result ≡ return_code (form_by kind) buffer.new }
{
    let answer = answer(kind, level, tables, medium, stage, buffer);
    write_code(kind, buffer, answer);
    answer
}

/// Handles a request in a state that 107 accepts, with a medium of its length, in a buffer with room for its header. Gives what was written as the return code.
pub fn reply(
    kind: Kind,
    state: &mut [u8; state::SIZE],
    medium: &mut [u8],
    stage: &mut [u8],
    buffer: &mut [u8],
) -> Result<(), ReturnCode>
    requires state_value { state_holds (state_of state.old) ≡ true }
    requires medium_len { length medium.old ≡ medium_size (state_of state.old).adapter }
    requires stage_len { length stage.old ≡ stage_size }
    requires kind_in_bounds { (form_by kind).size ≤ length buffer.old }
    ensures buffer_after { outcome 0 (point (state_of state.new) (store_of medium.new stage.new)) buffer.new
        ≡ answered_at (point (state_of state.old) (store_of medium.old stage.old)) (sent kind buffer.old) }
    ensures value { code_of result ≡ return_code (form_by kind) buffer.new }
{
    let level = Level(state[0]);
    let (_, tables) = state.split_at_mut(1);
    let Some(tables) = tables.first_chunk_mut::<{ tables::SIZE }>() else {
        unreachable!();
    };
    let Some(stage) = stage.first_chunk_mut::<{ firmware::STAGE_SIZE }>() else {
        unreachable!();
    };
    reply_at(kind, level, tables, medium, stage, buffer)
}

/// The checks of the state, the medium's length and the stage's, in this order.
#[tactic(auto, using(laws::specs::Choice::picks), unfolding(crate::specs::Request::state_number, crate::specs::Request::stage_number))]
pub fn check_state(state: &[u8; state::SIZE], medium: usize, stage: usize) -> Result<(), CallError>
    ensures { call_of result ≡ state_number (state_of state.now) medium stage }
{
    if !state::state_holds(state) {
        return Err(CallError::BadState);
    }
    if state::medium_size(state) != medium {
        return Err(CallError::BadMediumLength);
    }
    if stage != firmware::STAGE_SIZE {
        return Err(CallError::BadMediumLength);
    }
    Ok(())
}

/// The buffer has room for its header.
#[tactic(auto, using(laws::specs::Choice::picks, crate::proofs::Laws::under_size, crate::proofs::Laws::has_size), unfolding(crate::specs::Request::buffer_number))]
pub fn check_buffer(kind: Kind, buffer: usize) -> Result<(), CallError>
    ensures { call_of result ≡ buffer_number (form_by kind) 0 buffer }
{
    if buffer < header::size(kind) {
        return Err(CallError::ShortBuffer);
    }
    Ok(())
}

/// The call's number: that of the checks before, and where it is 0 that of the buffer's length.
// Numbers, since a run keeps that of its state, medium and stage, of any value.
#[tactic(auto, using(laws::specs::Choice::picks), unfolding(crate::specs::Request::buffer_number))]
pub fn buffer_number(kind: Kind, number: u32, buffer: usize) -> u32
    ensures { result ≡ buffer_number (form_by kind) number buffer }
{
    if number == 0 {
        return codes::call_number(check_buffer(kind, buffer));
    }
    number
}

// Every check of the call, in order: the buffer's length comes last.
fn check(
    kind: Kind,
    state: &[u8; state::SIZE],
    medium: usize,
    stage: usize,
    buffer: usize,
) -> Result<(), CallError>
    ensures { call_of result ≡ buffer_number (form_by kind) (state_number (state_of state.now) medium stage) buffer }
{
    check_state(state, medium, stage)?;
    check_buffer(kind, buffer)
}

#[tactic(auto, using(crate::proofs::Laws::heard_state, crate::proofs::Laws::heard_medium, crate::proofs::Laws::heard_stage, crate::proofs::Laws::heard_room, crate::proofs::Laws::untouched_by, laws::specs::Choice::picks), unfolding(crate::specs::Request::handled))]
fn handle(
    kind: Kind,
    state: &mut [u8; state::SIZE],
    medium: &mut [u8],
    stage: &mut [u8],
    buffer: &mut [u8],
) -> Result<(), CallError>
    ensures state_len { length state.new ≡ state_size }
    ensures outcome { outcome (call_of result) (point (state_of state.new) (store_of medium.new stage.new)) buffer.new
        ≡ handled (point (state_of state.old) (store_of medium.old stage.old)) (sent kind buffer.old) }
{
    check(kind, state, medium.len(), stage.len(), buffer.len())?;
    // what the request came to stands in the buffer
    let _ = reply(kind, state, medium, stage, buffer);
    Ok(())
}

// A state of another length is 107, before all else, and nothing is touched.
fn handle_any(
    kind: Kind,
    state: &mut [u8],
    medium: &mut [u8],
    stage: &mut [u8],
    buffer: &mut [u8],
) -> Result<(), CallError>
    ensures { RequestCall kind state.old (store_of medium.old stage.old) buffer.old (call_of result)
        state.new (store_of medium.new stage.new) buffer.new }
{
    if state.len() != state::SIZE {
        return Err(CallError::BadState);
    }
    let Some(state) = state.first_chunk_mut::<{ state::SIZE }>() else {
        unreachable!();
    };
    handle(kind, state, medium, stage, buffer)
}

/// Handles one request under the first header, in place.
pub fn request(
    state: &mut [u8],
    medium: &mut [u8],
    stage: &mut [u8],
    buffer: &mut [u8],
) -> Result<(), CallError>
    ensures { RequestCall Srb state.old (store_of medium.old stage.old) buffer.old (call_of result)
        state.new (store_of medium.new stage.new) buffer.new }
{
    handle_any(Kind::Srb, state, medium, stage, buffer)
}

/// Handles one request under the Linux header, in place. Its control code stands beside the buffer.
pub fn request_linux(
    state: &mut [u8],
    medium: &mut [u8],
    stage: &mut [u8],
    control: u32,
    buffer: &mut [u8],
) -> Result<(), CallError>
    ensures { RequestCall (Linux control) state.old (store_of medium.old stage.old) buffer.old (call_of result)
        state.new (store_of medium.new stage.new) buffer.new }
{
    handle_any(Kind::Linux(control), state, medium, stage, buffer)
}
