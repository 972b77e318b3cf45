// A session on standard input: each request a 4-byte length, then its bytes. Each request's line is printed and counted from one value.
ghost use Rattle.std.specs.Prelude.{◌≡◌, ◌<◌, ◌≤◌, length};
ghost use Rattle.header.specs.declared.Kind.TheVariants.{Srb};
ghost use Rattle.service.specs.Serve.{store_of};
ghost use Rattle.dispatch.specs.Request.{RequestCall};
ghost use Rattle.tally.specs.Taken.{taken_of, Cut as WasCut, End};
ghost use Rattle.tally.specs.Totals.{after, Sums};
ghost use Rattle.simulator.specs.Line.{code_in, HandledBy};

use crate::print::say_taken;
use reading::read_full;
use std::io::Read;
use tally::{Cut, Line, Taken, Totals};

// The longest request.
const REQUEST_LIMIT: u32 = 32768;

// How many bytes a header has, and where in it the return code stands.
const HEADER_SIZE: usize = 28;

const RETURN_CODE: usize = 20;

// The return code of a reply; none is written where the call gives a number.
#[tactic(auto, unfolding(crate::specs::Line::code_in))]
fn code_of(call: u32, buffer: &[u8]) -> u32
    ensures { result ≡ code_in call buffer.now }
{
    if call == 0 && HEADER_SIZE <= buffer.len() {
        wire::read32(buffer, RETURN_CODE)
    } else {
        tally::NO_CODE
    }
}

// Handles the request whose bytes are in buffer, and gives its line.
fn handle(state: &mut [u8], medium: &mut [u8], stage: &mut [u8], buffer: &mut [u8]) -> Line
    ensures request_call { RequestCall Srb state.old (store_of medium.old stage.old) buffer.old result.call
        state.new (store_of medium.new stage.new) buffer.new }
    ensures code_value { result.code ≡ code_in result.call buffer.new }
{
    let call = codes::call_number(dispatch::request(state, medium, stage, buffer));
    let code = code_of(call, buffer);
    Line { call, code }
}

// A request of which n bytes were read into buffer. Input that ends within it cuts the session.
#[tactic(auto, using(crate::proofs::SessionLaws::handled_line))]
fn filled(
    state: &mut [u8],
    medium: &mut [u8],
    stage: &mut [u8],
    buffer: &mut [u8],
    n: usize,
) -> Taken
    ensures value { n < length buffer.old → taken_of result ≡ WasCut }
    ensures handled_by { length buffer.old ≤ n → HandledBy (taken_of result) state.old (store_of medium.old stage.old) buffer.old
        state.new (store_of medium.new stage.new) buffer.new }
{
    if n < buffer.len() {
        return Err(Cut);
    }
    Ok(Some(handle(state, medium, stage, buffer)))
}

// In a function of its own, beside the array of 32,768 bytes, so that no goal of the others lists its cells.
fn read_request<I: Read>(
    input: &mut I,
    state: &mut [u8],
    medium: &mut [u8],
    stage: &mut [u8],
    buffer: &mut [u8],
) -> Taken {
    let n = read_full(input, buffer);
    filled(state, medium, stage, buffer, n)
}

// A length that was read whole. A request that is too long cuts the session.
fn sized<I: Read>(
    input: &mut I,
    state: &mut [u8],
    medium: &mut [u8],
    stage: &mut [u8],
    size: u32,
) -> Taken
    ensures { 32768 < size → taken_of result ≡ WasCut }
{
    if size > REQUEST_LIMIT {
        return Err(Cut);
    }
    let mut buffer = [0u8; REQUEST_LIMIT as usize];
    read_request(input, state, medium, stage, &mut buffer[..size as usize])
}

// A length of which n bytes were read.
fn measured<I: Read>(
    input: &mut I,
    state: &mut [u8],
    medium: &mut [u8],
    stage: &mut [u8],
    n: usize,
    size: u32,
) -> Taken
    ensures value { n ≡ 0 → taken_of result ≡ End }
    ensures value_2 { 0 < n → n < 4 → taken_of result ≡ WasCut }
{
    match n {
        0 => Ok(None),
        1..=3 => Err(Cut),
        _ => sized(input, state, medium, stage, size),
    }
}

fn next_request<I: Read>(
    input: &mut I,
    state: &mut [u8],
    medium: &mut [u8],
    stage: &mut [u8],
) -> Taken {
    let mut length = [0u8; 4];
    let n = read_full(input, &mut length);
    measured(input, state, medium, stage, n, u32::from_le_bytes(length))
}

// Reads on, prints what was taken, request `number` if it is one, and counts it.
fn take_next<P: Print, I: Read>(
    rt: &P,
    input: &mut I,
    number: u64,
    totals: &mut Totals,
    state: &mut [u8],
    medium: &mut [u8],
    stage: &mut [u8],
) -> Taken
    requires requests_bound { totals.old.requests < 18446744073709551615 }
    ensures { totals.new ≡ after totals.old (taken_of result) }
{
    let taken = next_request(input, state, medium, stage);
    say_taken(rt, number, taken);
    *totals = totals.after(taken);
    taken
}

// The totals of the session, whose requests are numbered from 1. A proved loop has to end, and nothing says that the input does, so it stops at a number of
// requests that no session reaches.
pub fn run<P: Print, I: Read>(
    rt: &P,
    input: &mut I,
    state: &mut [u8],
    medium: &mut [u8],
    stage: &mut [u8],
) -> Totals
    ensures { Sums result }
{
    let mut totals = Totals::none();
    for number in 1..=u64::MAX {
        let taken = take_next(rt, input, number, &mut totals, state, medium, stage);
        if tally::is_last(taken) {
            return totals;
        }
    }
    totals
}
