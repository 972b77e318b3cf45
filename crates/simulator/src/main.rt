// The program (document 01, "Starred cases", its last paragraphs): opens the adapter of adapter.bin at the level of level.txt, handles the
// requests of a session on standard input, prints a line for each, and at last the totals (W-206). Every rule is in the library; here is reading and printing.
// The medium starts at zero, and so does the stage for firmware, which no line shows.
#![tactic(auto)]

mod print;
mod session;

ghost use Rattle.std.specs.Prelude.{◌≤◌, length};

use codes::CallError;
use print::say_title;
use reading::read_full;
use session::run;
use std::fs::File;
use std::io::{Read, Stdin};
use std::rt::Files;

// A file of at most 7 phys and 64 rows has 9,728 bytes; one more shows that a file is longer.
const FILE_LIMIT: usize = 9729;

// A text of 1,024 bytes, and one more.
const TEXT_LIMIT: usize = 1025;

// The most phys that this program has disks for.
const PHY_LIMIT: u8 = 7;

// Fills buf from the start of a file, and gives the number of bytes. A missing file counts as empty.
fn read_file<F: Files>(files: &F, path: &str, buf: &mut [u8]) -> usize
    ensures { result ≤ length buf.new }
{
    match File::open(files, path) {
        Ok(mut file) => read_full(&mut file, buf),
        Err(_) => 0,
    }
}

// The line of a refused opening.
fn say_refused<P: Print>(rt: &P, error: CallError) {
    let call = u32::from(error);
    let _ = println!(rt; "open {call}");
}

// Opens the adapter, and handles the session where that is accepted.
fn simulate<P: Print, I: Read>(rt: &P, input: &mut I, text: &[u8], file: &[u8], medium: &mut [u8]) {
    let mut state = [0u8; dispatch::SIZE];
    let mut stage = [0u8; dispatch::STAGE_SIZE];
    match dispatch::open(text, file, medium, &mut state) {
        Ok(()) => {
            say_title(rt);
            let totals = run(rt, input, &mut state, medium, &mut stage);
            let _ = println!(rt; "total {totals}");
        }
        Err(error) => say_refused(rt, error),
    }
}

// The disks of p phys.
fn with_disks<P: Print, I: Read>(rt: &P, input: &mut I, text: &[u8], file: &[u8], p: u8)
    requires { p ≤ 7 }
{
    let mut medium = [0u8; 57344];
    let size = 8192 * usize::from(p);
    simulate(rt, input, text, file, &mut medium[..size]);
}

// Byte 0 of the file is its phy count.
fn start<P: Print, I: Read>(rt: &P, input: &mut I, text: &[u8], file: &[u8]) {
    let p = file.first().copied().unwrap_or(0);
    if p > PHY_LIMIT {
        say_refused(rt, CallError::BadField);
    } else {
        with_disks(rt, input, text, file, p);
    }
}

fn main(rt: HostRuntime) {
    let mut text = [0u8; TEXT_LIMIT];
    let mut file = [0u8; FILE_LIMIT];
    let t = read_file(&rt, "level.txt", &mut text);
    let f = read_file(&rt, "adapter.bin", &mut file);
    start(&rt, &mut rt.stdin(), &text[..t], &file[..f]);
}
