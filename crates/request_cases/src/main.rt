//! Makes the two calls, openings and requests, one after the other as the lines of stdin say, and prints for each the call's number, a
//! request's return code, and digests of the file or the buffer, of the medium, of a request's stage and of the state. A line is a letter and its words; the
//! word AT:HEX puts bytes at a place, and STEP fills a medium or a buffer before that with a pattern (0: with zeros).
//!
//!   f                                  zeros in place of the file's bytes
//!   p BLOCK AT:HEX ..                  bytes of a block of the file
//!   o MEDIUM FILE STEP TEXT            an opening, with the lengths of the medium and the file, and the level text
//!   q MEDIUM SIZE STEP CODE LENGTH AT:HEX ..   a request, with the lengths of the medium and the buffer, a header, and other bytes
//!   t SIZE STEP                        the stage that requests are lent, its length and its bytes; else it is handed on. It starts at zero
//!   l LEVEL PHYS ROWS                  the state gets another level and other counts
//!   y PHY AT:HEX ..                    the state gets the phy of a block that has these bytes
//!   w ROW AT:HEX ..                    the state gets the row that has these bytes
//!   c PHY AT:HEX ..                    the state gets the connector that has these bytes
//!   i STAGED AT:HEX ..                 the state gets another byte for what is staged, and the revisions that have these bytes
//!   # ..                               a heading, printed as it stands
#![tactic(auto)]

ghost use Rattle.std.specs.Prelude.{◌≡◌, ◌≤◌, length};
ghost use Rattle.case_lines.specs.Lines.{filled_by, header_put, request_bytes, block_line, file_line};

use case_lines::{damage, digest, state_digest};
use case_words::{Pieces, field, patch, word};
use reading::{large_buffer, read_full};
use std::io;
use std::io::Write;

// How many bytes a header has, and where in it the control code, the return code and the length of what follows stand.
const HEADER_SIZE: usize = 28;

const CONTROL_CODE: usize = 16;

const RETURN_CODE: usize = 20;

const LENGTH: usize = 24;

fn open<W: Write>(
    out: &mut W,
    text: &[u8],
    file: &[u8],
    medium: &[u8],
    state: &mut [u8; dispatch::SIZE],
) -> io::Result<()> {
    let call = codes::call_number(dispatch::open(text, file, medium, state));
    let of_file = digest(1, file);
    let of_medium = digest(1, medium);
    let of_state = state_digest(state);
    out.write_all(b"o")?;
    write!(out, " {call} {of_file} {of_medium} {of_state}\n")
}

// Byte i becomes step × (i + 1) modulo 251, so step 0 makes zeros.
#[tactic(auto, using(case_lines::proofs::LinesLaws::pattern_loop))]
fn fill(d: &mut [u8], step: u32)
    ensures { d.new ≡ filled_by step (length d.old) }
{
    let by = step % 251;
    let mut v = 0;
    for b in d.iter_mut() {
        v = (v + by) % 251;
        *b = v as u8;
    }
}

fn open_line<W: Write>(
    out: &mut W,
    state: &mut [u8; dispatch::SIZE],
    s: &[u8],
    file: &[u8],
    medium: &mut [u8],
) -> io::Result<()>
    requires { (length file.now ≡ 65536) × (length medium.old ≡ 262144) }
{
    let m = (field(s, 1) % 262145) as usize;
    let f = (field(s, 2) % 65537) as usize;
    fill(medium, field(s, 3));
    open(out, word(s, 4), &file[..f], &medium[..m], state)
}

#[tactic(auto, using(case_lines::proofs::LinesLaws::headed_by))]
fn put_header(buffer: &mut [u8], control: u32, n: u32)
    requires { 28 ≤ length buffer.old }
    ensures { buffer.new ≡ header_put buffer.old control n }
{
    wire::copy_at(buffer, 0, b"\x1c\0\0\0CSMISAS\0");
    wire::write32(buffer, CONTROL_CODE, control);
    wire::write32(buffer, LENGTH, n);
}

#[tactic(auto, using(case_lines::proofs::LinesLaws::request_by))]
fn put_request(buffer: &mut [u8], s: &[u8])
    requires { 28 ≤ length buffer.old }
    ensures { buffer.new ≡ request_bytes s.now (length buffer.old) }
{
    fill(buffer, field(s, 3));
    put_header(buffer, field(s, 4), field(s, 5));
    patch(buffer, s, 6);
}

fn say_code<W: Write>(out: &mut W, call: u32, buffer: &[u8]) -> io::Result<()> {
    out.write_all(b"q")?;
    if call == 0 && HEADER_SIZE <= buffer.len() {
        let code = wire::read32(buffer, RETURN_CODE);
        write!(out, " {call} {code}")
    } else {
        write!(out, " {call} -")
    }
}

fn show_reply<W: Write>(
    out: &mut W,
    call: u32,
    buffer: &[u8],
    medium: &[u8],
    stage: &[u8],
    state: &[u8; dispatch::SIZE],
) -> io::Result<()> {
    say_code(out, call, buffer)?;
    let of_buffer = digest(1, buffer);
    let of_medium = digest(1, medium);
    let of_stage = digest(1, stage);
    let of_state = state_digest(state);
    write!(out, " {of_buffer} {of_medium} {of_stage} {of_state}\n")
}

fn send<W: Write>(
    out: &mut W,
    state: &mut [u8; dispatch::SIZE],
    medium: &mut [u8],
    stage: &mut [u8],
    buffer: &mut [u8],
) -> io::Result<()> {
    let call = codes::call_number(dispatch::request(state, medium, stage, buffer));
    show_reply(out, call, buffer, medium, stage, state)
}

// Out of line: with its buffer of 65,536 bytes in `call_line`, every line pays for so much stack.
#[inline(never)]
fn request_line<W: Write>(
    out: &mut W,
    state: &mut [u8; dispatch::SIZE],
    s: &[u8],
    medium: &mut [u8],
    stage: &mut [u8],
) -> io::Result<()>
    requires { length medium.old ≡ 262144 }
{
    let mut buffer = large_buffer();
    let m = (field(s, 1) % 262145) as usize;
    let n = (field(s, 2) % 65537) as usize;
    put_request(&mut buffer, s);
    send(out, state, &mut medium[..m], stage, &mut buffer[..n])
}

fn heading<W: Write>(out: &mut W, s: &[u8]) -> io::Result<()> {
    out.write_all(s)?;
    out.write_all(b"\n")
}

#[tactic(auto, using(case_lines::proofs::LinesLaws::block_by))]
fn block_line(file: &mut [u8], s: &[u8])
    requires { length file.old ≡ 65536 }
    ensures { file.new ≡ block_line file.old s.now }
{
    let at = 512 * (field(s, 1) % 128) as usize;
    patch(&mut file[at..], s, 2);
}

#[tactic(auto, using(laws::specs::Choice::picks), unfolding(case_lines::specs::Lines::file_line))]
fn file_line<W: Write>(out: &mut W, file: &mut [u8], s: &[u8], c: u8) -> io::Result<()>
    requires { length file.old ≡ 65536 }
    ensures { file.new ≡ file_line file.old s.now c }
{
    match c {
        b'f' => fill(file, 0),
        b'p' => block_line(file, s),
        b'#' => heading(out, s)?,
        _ => {}
    }
    Ok(())
}

fn call_line<W: Write>(
    out: &mut W,
    state: &mut [u8; dispatch::SIZE],
    s: &[u8],
    file: &[u8],
    medium: &mut [u8],
    stage: &mut [u8],
    c: u8,
) -> io::Result<()>
    requires { (length file.now ≡ 65536) × (length medium.old ≡ 262144) }
{
    match c {
        b'q' => request_line(out, state, s, medium, stage)?,
        b'o' => open_line(out, state, s, file, medium)?,
        _ => damage(state, s, c),
    }
    Ok(())
}

// How many bytes of the stage the requests after a line are lent.
fn stage_line(stage: &mut [u8], s: &[u8], c: u8, lent: usize) -> usize
    requires { lent ≤ 65536 }
    ensures { result ≤ 65536 }
{
    if c == b't' {
        fill(stage, field(s, 2));
        return (field(s, 1) % 65537) as usize;
    }
    lent
}

fn do_lines<W: Write>(
    out: &mut W,
    state: &mut [u8; dispatch::SIZE],
    input: &[u8],
    file: &mut [u8],
    medium: &mut [u8],
    stage: &mut [u8],
) -> io::Result<()>
    requires file_len { (length file.old ≡ 65536) × (length medium.old ≡ 262144) }
    requires stage_len { length stage.old ≡ 65536 }
{
    let mut lent = dispatch::STAGE_SIZE;
    let lines = Pieces {
        rest: input,
        end: b'\n',
    };
    for line in lines {
        let c = line.first().copied().unwrap_or(b'\n');
        file_line(out, file, line, c)?;
        lent = stage_line(stage, line, c, lent);
        call_line(out, state, line, file, medium, &mut stage[..lent], c)?;
    }
    Ok(())
}

// Room for the disks of 32 phys.
fn room() -> [u8; 262144]
    ensures { 262144 ≡ length result }
{
    [0; 262144]
}

fn main(rt: HostRuntime) -> io::Result<()> {
    let mut out = rt.stdout();
    let mut input = room();
    let mut file = large_buffer();
    let mut medium = room();
    let mut stage = large_buffer();
    let mut state = [0u8; dispatch::SIZE];
    let n = read_full(&mut rt.stdin(), &mut input);
    do_lines(
        &mut out,
        &mut state,
        &input[..n],
        &mut file,
        &mut medium,
        &mut stage,
    )
}
