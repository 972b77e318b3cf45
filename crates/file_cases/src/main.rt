// Builds adapter files, damages each as a line of stdin says, and prints the number that the opening's file part and the rows
// give it, with the counts of what was read. A line has six numbers of fixed width: p, a, an index and the byte to put there (an index past
// the end puts nothing), 1 if the checks are made anew after that, and by how many bytes the file is cut.
#![tactic(auto)]

ghost use Rattle.std.specs.Prelude.{◌<◌, ◌≤◌, ◌+◌, ◌*◌, length};

use codes::CallError;
use reading::{large_buffer, read_full};
use std::io;
use std::io::Write;

// The bytes of a line of stdin.
const LINE_SIZE: usize = 25;

// A line's numbers.
#[derive(Clone, Copy, Debug)]
struct Numbers {
    p: usize,
    a: usize,
    at: usize,
    value: usize,
    anew: bool,
    cut: usize,
}

fn put(file: &mut [u8], at: usize, value: usize) {
    if at < file.len() {
        file[at] = (value % 256) as u8;
    }
}

// A device of some type with some target protocols, at both rates.
fn put_attached(file: &mut [u8], at: usize, kind: usize, protocols: usize)
    requires { at < 65536 }
{
    put(file, at + 36, kind);
    put(file, at + 39, protocols);
    put(file, at + 102, 8);
    put(file, at + 103, 9);
}

// A SATA disk with a signature.
fn put_sata(file: &mut [u8], at: usize)
    requires { at < 65536 }
{
    put_attached(file, at, 0x10, 1);
    put(file, at + 80, 0x34);
    put(file, at + 100, 1);
}

// Phys have by turns no device, a SATA disk, another end device and an expander.
fn put_sas(file: &mut [u8], at: usize, turn: usize)
    requires { at < 65536 }
{
    match turn {
        1 => put_sata(file, at),
        2 => put_attached(file, at, 0x10, 8),
        3 => put_attached(file, at, 0x20, 2),
        _ => {}
    }
}

// Identify's phy identifier and signal class, the port, and the first counter.
fn put_identify(file: &mut [u8], at: usize, n: usize, port: usize)
    requires { at < 65536 }
{
    put(file, at + 20, n);
    put(file, at + 21, n % 4);
    put(file, at + 28, port);
    put(file, at + 64, n);
}

// Programmed 1.5 to 3.0 Gb/s of the same hardware range, fixed where n is odd.
fn put_rates(file: &mut [u8], at: usize, n: usize)
    requires { at < 65536 }
{
    put(file, at + 30, 0x88);
    put(file, at + 31, 0x99);
    put(file, at + 101, n % 2);
}

fn put_phy(file: &mut [u8], n: usize)
    requires { n < 64 }
{
    let at = 512 * (1 + n);
    put_identify(file, at, n, n / 2);
    put_rates(file, at, n);
    put_sas(file, at, n % 4);
}

fn put_phys(file: &mut [u8], p: usize)
    requires { p < 64 }
{
    for n in 0..p {
        put_phy(file, n);
    }
}

// Row i: a SAS address, a LUN and four OS bytes of its own.
fn put_row(file: &mut [u8], p: usize, i: usize)
    requires { (p < 64) × (i < 128) }
{
    let at = 512 * (1 + p + i / 25) + 20 * (i % 25);
    put(file, at, 0x50);
    put(file, at + 7, i);
    put(file, at + 9, i / 2);
    put(file, at + 18, i / 8);
    put(file, at + 19, i % 8);
}

fn put_rows(file: &mut [u8], p: usize, a: usize)
    requires { (p < 64) × (a < 128) }
{
    for i in 0..a {
        put_row(file, p, i);
    }
}

// The first and the last byte of configuration and of status.
fn put_controller(file: &mut [u8], at: usize)
    requires { at < 65536 }
{
    put(file, at, 0x10);
    put(file, at + 175, 0xfe);
    put(file, at + 176, 1);
    put(file, at + 211, 0xff);
}

// Connector n: lanes of SFF-8470 or, of every second phy, of SFF-8484, its name's first letter, and the last reserved byte.
fn put_connector(file: &mut [u8], at: usize, n: usize)
    requires { (at < 131072) × (n < 64) }
{
    put(file, at + 1 + n % 2, 1 + n % 15);
    put(file, at + 4, 0x4a);
    put(file, at + 35, 0x80);
}

// Those of p phys, the first at an index.
fn put_connectors(file: &mut [u8], from: usize, p: usize)
    requires { (from < 65536) × (p < 64) }
{
    for n in 0..p {
        put_connector(file, from + block::SIZE * n, n);
    }
}

// Writes the check of block k.
fn seal_block(file: &mut [u8], k: usize)
    requires { 512 * k + 512 ≤ length file.old }
{
    let block = &file[block::SIZE * k..block::SIZE * k + block::SIZE];
    let check = block::check(block.try_into().unwrap(), k);
    wire::write32(file, block::SIZE * k + 508, check);
}

fn seal(file: &mut [u8]) {
    for k in 0..file.len() / block::SIZE {
        seal_block(file, k);
    }
}

// What the file part and the rows come to.
fn judged(read: Result<(), CallError>, tables: &[u8; tables::SIZE], a: u8) -> Result<(), CallError>
    requires { a ≤ 64 }
{
    read?;
    if rows::rows_hold(tables::rows(tables), usize::from(a)) {
        Ok(())
    } else {
        Err(CallError::SharedRow)
    }
}

fn show_read<W: Write>(
    out: &mut W,
    read: Result<(), CallError>,
    tables: &[u8; tables::SIZE],
) -> io::Result<()> {
    let p = tables::phy_count(tables);
    let a = tables::row_count(tables);
    if 64 < a {
        return Ok(());
    }
    let call = codes::call_number(judged(read, tables, a));
    write!(out, "{call} {p} {a}\n")
}

// What a file gives, with the counts that were read.
fn show<W: Write>(out: &mut W, file: &[u8]) -> io::Result<()> {
    let mut tables = [0u8; tables::SIZE];
    let read = file::read_file(&mut tables, file);
    show_read(out, read, &tables)
}

// The size of a file with p phys and a rows.
fn size(p: usize, a: usize) -> usize
    requires { (p < 64) × (a < 128) }
    ensures { result ≤ 68608 }
{
    512 * (2 + 2 * p + (a + 24) / 25)
}

fn put_head(file: &mut [u8], p: usize, a: usize) {
    put(file, 0, p);
    put(file, 1, a);
    put(file, 4, 0x41);
    put(file, 177, 0x5a);
}

// A file that passes every check but, perhaps, that of the negotiated rates, which is not made here.
fn build(file: &mut [u8], p: usize, a: usize)
    requires { (p < 64) × (a < 128) }
{
    put_head(file, p, a);
    put_phys(file, p);
    put_rows(file, p, a);
    put_controller(file, 512 * (1 + p + (a + 24) / 25));
    put_connectors(file, 512 * (2 + p + (a + 24) / 25), p);
    seal(file);
}

// The file without its last bytes.
fn show_cut<W: Write>(out: &mut W, file: &[u8], cut: usize) -> io::Result<()> {
    if cut <= file.len() {
        show(out, &file[..file.len() - cut])?;
    }
    Ok(())
}

// Builds, damages and shows one file.
fn try_file<W: Write>(out: &mut W, file: &mut [u8], n: Numbers) -> io::Result<()>
    requires { (n.p < 64) × (n.a < 128) }
{
    build(file, n.p, n.a);
    put(file, n.at, n.value);
    if n.anew {
        seal(file);
    }
    show_cut(out, file, n.cut)
}

fn try_sized<W: Write>(out: &mut W, n: Numbers, end: usize) -> io::Result<()>
    requires { (n.p < 64) × (n.a < 128) × (end ≤ 68608) }
{
    let mut file = [0u8; 68608];
    try_file(out, &mut file[..end], n)
}

fn try_numbers<W: Write>(out: &mut W, n: Numbers) -> io::Result<()> {
    if n.p < 64 && n.a < 128 {
        try_sized(out, n, size(n.p, n.a))?;
    }
    Ok(())
}

// The decimal number that some digits are, its last five.
fn field(digits: &[u8]) -> usize
    ensures { result < 100000 }
{
    let mut value = 0;
    for digit in digits {
        value = value % 10000 * 10 + usize::from(*digit % 16 % 10);
    }
    value
}

// A line's numbers have 2, 3, 5, 3, 1 and 5 digits, each with a byte behind it.
fn try_line<W: Write>(out: &mut W, line: &[u8; LINE_SIZE]) -> io::Result<()> {
    try_numbers(
        out,
        Numbers {
            p: field(&line[0..2]),
            a: field(&line[3..6]),
            at: field(&line[7..12]),
            value: field(&line[13..16]),
            anew: field(&line[17..18]) == 1,
            cut: field(&line[19..24]),
        },
    )
}

fn try_lines<W: Write>(out: &mut W, input: &[u8]) -> io::Result<()> {
    let (lines, _) = input.as_chunks::<LINE_SIZE>();
    for line in lines {
        try_line(out, line)?;
    }
    Ok(())
}

fn main(rt: HostRuntime) -> io::Result<()> {
    let mut out = rt.stdout();
    let mut input = large_buffer();
    let n = read_full(&mut rt.stdin(), &mut input);
    try_lines(&mut out, &input[..n])
}
