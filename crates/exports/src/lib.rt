// The simulator for programs in other languages: its two calls, the second under either header, a whole run and the tally of its record, over bytes
// that the caller lends. `ascheknopf.h` declares them for C.
#![tactic(auto)]

ghost use Rattle.std.specs.Prelude.{◌≡◌};
ghost use Rattle.header.specs.declared.Kind.TheVariants.{Srb, Linux};
ghost use Rattle.state.specs.Open.{OpenCall};
ghost use Rattle.service.specs.Serve.{store_of};
ghost use Rattle.dispatch.specs.Request.{RequestCall};
ghost use Rattle.frames.specs.declared.Framing.TheVariants.{FirstHeader, BothHeaders};
ghost use Rattle.session.specs.Session.{ran, session_run};
ghost use Rattle.tally.specs.Record.{wrote, tallied};

use frames::Framing;
use session::open_and_run;

// Opens an adapter. Leaves its state and gives 0, or leaves the zero state and gives the number of what is wrong.
#[unsafe(no_mangle)]
pub extern "C" fn ascheknopf_open(text: &[u8], file: &[u8], medium: &[u8], state: &mut [u8]) -> u32
    ensures { OpenCall text.now file.now medium.now state.old result state.new }
{
    let call = dispatch::open(text, file, medium, state);
    codes::call_number(call)
}

// Handles one request under the first header, in place.
#[unsafe(no_mangle)]
pub extern "C" fn ascheknopf_request(
    state: &mut [u8],
    medium: &mut [u8],
    stage: &mut [u8],
    buffer: &mut [u8],
) -> u32
    ensures { RequestCall Srb state.old (store_of medium.old stage.old) buffer.old result
        state.new (store_of medium.new stage.new) buffer.new }
{
    let call = dispatch::request(state, medium, stage, buffer);
    codes::call_number(call)
}

// Handles one request under the Linux header, in place. Its control code is handed in beside the buffer.
#[unsafe(no_mangle)]
pub extern "C" fn ascheknopf_request_linux(
    state: &mut [u8],
    medium: &mut [u8],
    stage: &mut [u8],
    control: u32,
    buffer: &mut [u8],
) -> u32
    ensures { RequestCall (Linux control) state.old (store_of medium.old stage.old) buffer.old result
        state.new (store_of medium.new stage.new) buffer.new }
{
    let call = dispatch::request_linux(state, medium, stage, control, buffer);
    codes::call_number(call)
}

// Opens the adapter and handles the requests of a session in order, until one is cut short or the record is full: the replies stand in the
// requests' places, and the record has 8 bytes for each, the call's number and the return code (FFFFFFFFh for none). A request may be of any
// length. Where the opening refuses, the zero state goes on. Gives the number of requests handled.
#[unsafe(no_mangle)]
pub extern "C" fn ascheknopf_run(
    text: &[u8],
    file: &[u8],
    medium: &mut [u8],
    stage: &mut [u8],
    session: &mut [u8],
    lines: &mut [u8],
) -> usize
    ensures { ran result (store_of medium.new stage.new) session.new lines.new
        ≡ session_run FirstHeader text.now file.now (store_of medium.old stage.old) session.old lines.old }
{
    let first = Framing::FirstHeader;
    open_and_run(first, text, file, medium, stage, session, lines)
}

// The same of a session whose requests may have either header: before each stand its header (0 the first, 1 the Linux one), its control code (0
// beside the first header) and its length, 4 bytes each. Any other header, and a control code beside the first one, end it like a cut request.
#[unsafe(no_mangle)]
pub extern "C" fn ascheknopf_run_both(
    text: &[u8],
    file: &[u8],
    medium: &mut [u8],
    stage: &mut [u8],
    session: &mut [u8],
    lines: &mut [u8],
) -> usize
    ensures { ran result (store_of medium.new stage.new) session.new lines.new
        ≡ session_run BothHeaders text.now file.now (store_of medium.old stage.old) session.old lines.old }
{
    let both = Framing::BothHeaders;
    open_and_run(both, text, file, medium, stage, session, lines)
}

// Counts the lines of a record by their kind, and writes the totals at the start of the bytes lent for them, 64 bits each: requests, granted, denied,
// otherwise refused, 100s. A rest under 8 bytes is no line. Gives 0, or 100 where fewer than 40 bytes are lent; these stay.
#[unsafe(no_mangle)]
pub extern "C" fn ascheknopf_tally(lines: &[u8], totals: &mut [u8]) -> u32
    ensures { wrote result totals.new ≡ tallied lines.now totals.old }
{
    let call = tally_record::write_tally(lines, totals);
    codes::call_number(call)
}
