// Reads level texts, one to a line, and prints for each the call's number, the level and the text's first bytes; then the
// need of every command code, sixteen to a line. The texts, in stdin, are those that document 01 does not star.
#![tactic(auto)]

use case_words::Pieces;
use level::Level;
use reading::read_full;
use std::io;
use std::io::Write;

// How much of a text is shown.
const SHOWN: usize = 40;

fn show<W: Write>(out: &mut W, text: &[u8]) -> io::Result<()> {
    let (call, level) = match level_text::of_text(text) {
        Ok(level) => (0, level),
        Err(error) => (u32::from(error), Level::NONE),
    };
    let level = level.0;
    write!(out, "{call} {level} ")?;
    out.write_all(&text[..text.len().min(SHOWN)])?;
    out.write_all(b"\n")
}

fn show_needs<W: Write>(out: &mut W) -> io::Result<()> {
    for command in 0..=255u8 {
        let need = Level::from_need(command).0;
        write!(out, "{need}")?;
        if command % 16 == 15 {
            out.write_all(b"\n")?;
        }
    }
    Ok(())
}

fn main(rt: HostRuntime) -> io::Result<()> {
    let mut input = [0u8; 8192];
    let n = read_full(&mut rt.stdin(), &mut input);
    let mut out = rt.stdout();
    let texts = Pieces {
        rest: &input[..n],
        end: b'\n',
    };
    for text in texts {
        show(&mut out, text)?;
    }
    show_needs(&mut out)
}
