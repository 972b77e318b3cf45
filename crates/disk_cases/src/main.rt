// Runs the disk layer on what document 01 does not star: every command code, the sectors around the end, LBAs with high
// bits, data lengths around what a command moves, and the disk afterwards.
//
// A line shows a request and what became of it: command, FIS bytes 4 to 7, count, uDataLength; return code, status and error,
// uDataBytes; a digest of the body and one of the disk.
#![tactic(auto)]

use std::io;
use std::io::Write;

// The bytes of a request's body: the structure and 8,568 bytes of data.
const BODY_SIZE: usize = 8704;

fn bytes<W: Write>(out: &mut W, s: &[u8]) -> io::Result<()> {
    for b in s {
        write!(out, "{b:02x}")?;
    }
    out.write_all(b" ")
}

// A number that tells apart runs of bytes that differ in one byte.
fn digest(s: &[u8]) -> u64 {
    let mut d = 0;
    for b in s {
        d = (d % 4294967291 * 257 + u64::from(*b)) % 4294967291;
    }
    d
}

// Byte i becomes i × (a + 2 × b + 3) + i / 256, modulo 256.
fn pattern(s: &mut [u8], a: u8, b: u8) {
    let step = b.wrapping_mul(2).wrapping_add(a).wrapping_add(3);
    let mut v: u8 = 0;
    for (i, byte) in s.iter_mut().enumerate() {
        *byte = v.wrapping_add((i / 256 % 256) as u8);
        v = v.wrapping_add(step);
    }
}

// Eight bytes make a request: the command, FIS bytes 4 to 7, the count, and two of uDataLength.
fn put(body: &mut [u8; BODY_SIZE], row: &[u8; 8]) {
    pattern(body, row[1], row[5]);
    body[stp::COMMAND] = row[0];
    body[stp::LBA_LOW..stp::LBA_LOW + 4].copy_from_slice(&row[1..5]);
    body[stp::COUNT] = row[5];
    let length = u32::from(u16::from_le_bytes([row[6], row[7]]));
    body[stp::DATA_LENGTH..stp::DATA_LENGTH + 4].copy_from_slice(&length.to_le_bytes());
}

fn show_request<W: Write>(out: &mut W, body: &[u8; BODY_SIZE]) -> io::Result<()> {
    bytes(out, &body[stp::COMMAND..stp::COMMAND + 1])?;
    bytes(out, &body[stp::LBA_LOW..stp::LBA_LOW + 4])?;
    bytes(out, &body[stp::COUNT..stp::COUNT + 1])?;
    let length = wire::read32(body, stp::DATA_LENGTH);
    write!(out, "{length} ")
}

fn show_reply<W: Write>(
    out: &mut W,
    disk: &[u8; disk::SIZE],
    body: &[u8; BODY_SIZE],
    code: u32,
) -> io::Result<()> {
    write!(out, "{code} ")?;
    bytes(out, &body[50..52])?;
    let moved = wire::read32(body, 132);
    let body_digest = digest(body);
    let disk_digest = digest(disk);
    write!(out, "{moved} {body_digest:08x} {disk_digest:08x}\n")
}

// A request whose data lies in the body, as all do here.
fn ask(disk: &mut [u8; disk::SIZE], body: &mut [u8; BODY_SIZE]) -> u32 {
    if wire::read32(body, stp::DATA_LENGTH) <= 8568 {
        codes::answer_code(disk_command::command(disk, body))
    } else {
        999
    }
}

fn case<W: Write>(
    out: &mut W,
    disk: &mut [u8; disk::SIZE],
    body: &mut [u8; BODY_SIZE],
    row: &[u8; 8],
) -> io::Result<()> {
    put(body, row);
    show_request(out, body)?;
    let code = ask(disk, body);
    show_reply(out, disk, body, code)
}

fn cases<W: Write>(
    out: &mut W,
    disk: &mut [u8; disk::SIZE],
    body: &mut [u8; BODY_SIZE],
    rows: &[u8],
) -> io::Result<()> {
    let (rows, _) = rows.as_chunks::<8>();
    for row in rows {
        case(out, disk, body, row)?;
    }
    Ok(())
}

fn every_command<W: Write>(
    out: &mut W,
    disk: &mut [u8; disk::SIZE],
    body: &mut [u8; BODY_SIZE],
) -> io::Result<()> {
    out.write_all(b"every command\n")?;
    for command in 0..=255u8 {
        case(out, disk, body, &[command, 2, 0, 0, 0x40, 1, 0, 32])?;
    }
    Ok(())
}

// 20h and 30h, each LBA from 12 to 17, each count from 0 to 5.
fn around_the_end<W: Write>(
    out: &mut W,
    disk: &mut [u8; disk::SIZE],
    body: &mut [u8; BODY_SIZE],
) -> io::Result<()> {
    out.write_all(b"around the end\n")?;
    for lba in 12..18u8 {
        for count in 0..6u8 {
            case(out, disk, body, &[0x20, lba, 0, 0, 0x40, count, 0, 32])?;
            case(out, disk, body, &[0x30, lba, 0, 0, 0x40, count, 0, 32])?;
        }
    }
    Ok(())
}

// The first eight bytes of each sector, and its digest.
fn sectors<W: Write>(out: &mut W, disk: &[u8; disk::SIZE]) -> io::Result<()> {
    out.write_all(b"disk\n")?;
    let (sectors, _) = disk.as_chunks::<{ disk::SECTOR_SIZE }>();
    for sector in sectors {
        bytes(out, &sector[..8])?;
        let d = digest(sector);
        write!(out, "{d:08x}\n")?;
    }
    Ok(())
}

fn high_bits<W: Write>(
    out: &mut W,
    disk: &mut [u8; disk::SIZE],
    body: &mut [u8; BODY_SIZE],
) -> io::Result<()> {
    out.write_all(b"LBAs with high bits\n")?;
    cases(
        out,
        disk,
        body,
        b"\x20\x00\x01\x00\x40\x01\x00\x20\x20\x00\x00\x01\x40\x01\x00\x20\x20\x00\x00\x00\x41\x01\x00\x20",
    )?;
    cases(
        out,
        disk,
        body,
        b"\x20\x00\x00\x00\x48\x01\x00\x20\x20\xff\xff\xff\x4f\x00\x00\x20\x20\xff\xff\xff\x4f\xff\x00\x20",
    )?;
    cases(
        out,
        disk,
        body,
        b"\x30\x03\x01\x00\x40\x01\x00\x20\x30\x03\x00\x01\x40\x01\x00\x20\x30\x03\x00\x00\x41\x01\x00\x20",
    )?;
    cases(
        out,
        disk,
        body,
        b"\x30\x03\x00\x00\x48\x01\x00\x20\x20\x03\x00\x00\x50\x01\x00\x20\x30\x03\x00\x00\xf0\x01\x00\x20",
    )
}

fn bit_six_clear<W: Write>(
    out: &mut W,
    disk: &mut [u8; disk::SIZE],
    body: &mut [u8; BODY_SIZE],
) -> io::Result<()> {
    out.write_all(b"bit 6 clear\n")?;
    cases(
        out,
        disk,
        body,
        b"\x20\x03\x00\x00\x00\x01\x00\x20\x30\x04\x00\x00\xb0\x01\x00\x20\x20\xff\xff\xff\x0f\x00\x00\x20",
    )?;
    cases(
        out,
        disk,
        body,
        b"\x30\x0f\x00\x00\x00\x02\x00\x20\xec\x00\x00\x00\x00\x00\x00\x20\xe5\x10\x20\x30\x00\x05\x00\x20",
    )
}

fn data_length<W: Write>(
    out: &mut W,
    disk: &mut [u8; disk::SIZE],
    body: &mut [u8; BODY_SIZE],
) -> io::Result<()> {
    out.write_all(b"data length\n")?;
    cases(
        out,
        disk,
        body,
        b"\x20\x05\x00\x00\x40\x01\xff\x01\x20\x05\x00\x00\x40\x01\x00\x02\x20\x05\x00\x00\x40\x01\x01\x02",
    )?;
    cases(
        out,
        disk,
        body,
        b"\x20\x00\x00\x00\x40\x10\xff\x1f\x20\x00\x00\x00\x40\x10\x00\x20\x20\x00\x00\x00\x40\x10\x01\x20",
    )?;
    cases(
        out,
        disk,
        body,
        b"\x30\x06\x00\x00\x40\x02\xff\x03\x30\x06\x00\x00\x40\x02\x00\x04\x30\x09\x00\x00\x40\x02\x01\x04",
    )?;
    cases(
        out,
        disk,
        body,
        b"\xec\x00\x00\x00\x40\x01\xff\x01\xec\x00\x00\x00\x40\x01\x00\x02\xec\x00\x00\x00\x40\x01\x01\x02",
    )
}

fn no_data_length<W: Write>(
    out: &mut W,
    disk: &mut [u8; disk::SIZE],
    body: &mut [u8; BODY_SIZE],
) -> io::Result<()> {
    out.write_all(b"no data length\n")?;
    cases(
        out,
        disk,
        body,
        b"\x20\x05\x00\x00\x40\x01\x00\x00\x30\x05\x00\x00\x40\x01\x00\x00\xec\x00\x00\x00\x40\x01\x00\x00",
    )?;
    cases(
        out,
        disk,
        body,
        b"\xe5\x00\x00\x00\x40\x01\x00\x00\x20\x10\x00\x00\x40\x01\x00\x00\x30\x05\x00\x00\x00\x01\x00\x00",
    )?;
    cases(out, disk, body, b"\x25\x05\x00\x00\x40\x01\x00\x00")
}

fn whole_disk<W: Write>(
    out: &mut W,
    disk: &mut [u8; disk::SIZE],
    body: &mut [u8; BODY_SIZE],
) -> io::Result<()> {
    out.write_all(b"the whole disk\n")?;
    cases(
        out,
        disk,
        body,
        b"\x30\x00\x00\x00\x40\x11\x00\x20\x30\x00\x00\x00\x40\x10\xff\x1f\x20\x00\x00\x00\x40\x10\x00\x20",
    )?;
    cases(
        out,
        disk,
        body,
        b"\x30\x00\x00\x00\x40\x10\x00\x20\x20\x00\x00\x00\x40\x10\x00\x20\x30\x08\x00\x00\x40\x02\x00\x04",
    )
}

fn main(rt: HostRuntime) -> io::Result<()> {
    let mut out = rt.stdout();
    let mut disk = [0u8; disk::SIZE];
    let mut body = [0u8; BODY_SIZE];
    pattern(&mut disk, 4, 0);
    sectors(&mut out, &disk)?;
    every_command(&mut out, &mut disk, &mut body)?;
    around_the_end(&mut out, &mut disk, &mut body)?;
    high_bits(&mut out, &mut disk, &mut body)?;
    bit_six_clear(&mut out, &mut disk, &mut body)?;
    data_length(&mut out, &mut disk, &mut body)?;
    no_data_length(&mut out, &mut disk, &mut body)?;
    sectors(&mut out, &disk)?;
    whole_disk(&mut out, &mut disk, &mut body)?;
    sectors(&mut out, &disk)
}
