// Runs the edges of the record format through decode and encode; what it writes is held to the file stdout.
// First every map byte at every length from 0 to 45: with how many of the 256 bytes where a key map would be the record is accepted, and
// written back at that length, and with how many it is refused with 10, with 12 and with 11. Shown are map byte, length and these four where they
// are others than at the length before; a map byte that is not shown is 10 throughout. Then the records of standard input, whose comments
// say how they are written.
#![tactic(auto)]

ghost use Rattle.std.specs.Prelude.{◌≤◌};

use records::{DecodeError, Direction, Record};
use std::io;

// Room for standard input; what does not fit would be missing from the output.
const TEXT_ROOM: usize = 16_384;

// The most bytes that are read as a record.
const MOST_BYTES: usize = 46;

fn main(rt: HostRuntime) -> io::Result<()> {
    print(&rt, b"input\n")?;
    sweep(&rt, Direction::Input)?;
    print(&rt, b"request\n")?;
    sweep(&rt, Direction::Request)?;
    let mut text = [0u8; TEXT_ROOM];
    let n = streams::read_full(&mut rt.stdin(), &mut text)?;
    lines(&rt, &text[..n])
}

fn print(rt: &HostRuntime, bytes: &[u8]) -> io::Result<()> {
    rt.stdout().write_all(bytes)
}

fn print_number(rt: &HostRuntime, n: u32) -> io::Result<()> {
    print!(rt; " {n}")
}

// ---- every map at every length

// How many of 256 records are accepted and written back, and how many are refused with each error.
#[derive(Clone, Copy, PartialEq, Eq)]
struct Counts {
    accepted: u32,
    kind: u32,
    keys: u32,
    length: u32,
}

// Whether some bytes are read as a record, and this is written back at their length.
fn written_back(direction: Direction, bytes: &[u8]) -> Result<bool, DecodeError> {
    let fields = records::decode(direction, bytes)?;
    let mut out = [0u8; MOST_BYTES];
    match records::encode(direction, fields, &mut out) {
        Ok(length) => Ok(length == bytes.len()),
        Err(_) => Ok(false),
    }
}

// With how many of the 256 bytes where a key map would be each happens. A record that is read and not written back is counted nowhere.
fn counts_of(direction: Direction, map: u8, length: usize) -> Counts
    requires { length ≤ 46 }
{
    let mut bytes = [0x11; MOST_BYTES];
    bytes[0] = map;
    let mut counts = Counts {
        accepted: 0,
        kind: 0,
        keys: 0,
        length: 0,
    };
    for keys in 0..256u32 {
        bytes[3] = keys as u8;
        match written_back(direction, &bytes[..length]) {
            Ok(true) => counts.accepted += 1,
            Ok(false) => {}
            Err(DecodeError::KindUnknown) => counts.kind += 1,
            Err(DecodeError::KeyMapEmpty) => counts.keys += 1,
            Err(DecodeError::CutOrTooLong) => counts.length += 1,
        }
    }
    counts
}

// Shows the counts of a length where they are not those of the length before.
fn row(rt: &HostRuntime, map: u8, length: usize, before: Counts, counts: Counts) -> io::Result<()> {
    if before == counts {
        return Ok(());
    }
    print_number(rt, u32::from(map))?;
    print!(rt; " {length}")?;
    print_number(rt, counts.accepted)?;
    print_number(rt, counts.kind)?;
    print_number(rt, counts.keys)?;
    print_number(rt, counts.length)?;
    print(rt, b"\n")
}

fn with_map(rt: &HostRuntime, direction: Direction, map: u8) -> io::Result<()> {
    let mut before = Counts {
        accepted: 0,
        kind: 256,
        keys: 0,
        length: 0,
    };
    for length in 0..MOST_BYTES {
        let counts = counts_of(direction, map, length);
        row(rt, map, length, before, counts)?;
        before = counts;
    }
    Ok(())
}

fn sweep(rt: &HostRuntime, direction: Direction) -> io::Result<()> {
    for map in 0..256u32 {
        with_map(rt, direction, map as u8)?;
    }
    Ok(())
}

// ---- the records of standard input

// What follows the last newline is no line.
fn lines(rt: &HostRuntime, text: &[u8]) -> io::Result<()> {
    let mut rest = text;
    while let Some(end) = rest.iter().position(|byte| *byte == b'\n') {
        line(rt, &rest[..end])?;
        rest = &rest[end + 1..];
    }
    Ok(())
}

// A line is shown again, with what it comes to.
fn line(rt: &HostRuntime, text: &[u8]) -> io::Result<()> {
    print(rt, text)?;
    let bytes = from_hex(text);
    answer(rt, at(text, 0), &bytes, text.len() / 3)?;
    print(rt, b"\n")
}

fn answer(rt: &HostRuntime, kind: u8, bytes: &[u8], n: usize) -> io::Result<()> {
    match kind {
        b'i' => decoded(rt, Direction::Input, bytes, n),
        b'r' => decoded(rt, Direction::Request, bytes, n),
        b'I' => tried(rt, Direction::Input, bytes),
        b'R' => tried(rt, Direction::Request, bytes),
        _ => Ok(()),
    }
}

fn at(bytes: &[u8], i: usize) -> u8 {
    bytes.get(i).copied().unwrap_or(0)
}

fn nibble(c: u8) -> u8
    ensures { result ≤ 15 }
{
    if c < b'a' { c % 16 } else { (c % 16 + 9) % 16 }
}

// The bytes of a line: a letter, and then a space and two digits for each.
fn from_hex(text: &[u8]) -> [u8; MOST_BYTES] {
    let mut bytes = [0u8; MOST_BYTES];
    for (i, byte) in bytes.iter_mut().enumerate() {
        *byte = nibble(at(text, 3 * i + 2)) * 16 + nibble(at(text, 3 * i + 3));
    }
    bytes
}

// What is shown where nothing is read.
const BLANK: Record = Record {
    map: 0,
    url: 0,
    connection: 0,
    keys: 0,
    cookies: [0; 8],
    script: 0,
    value: 0,
    target: 0,
};

// Reads the first n of the bytes, shows the answer, and where they are accepted writes them back.
fn decoded(rt: &HostRuntime, d: Direction, bytes: &[u8], n: usize) -> io::Result<()> {
    if bytes.len() < n {
        return Ok(());
    }
    match records::decode(d, &bytes[..n]) {
        Ok(fields) => {
            print_read(rt, records::ACCEPTED, fields)?;
            encoded(rt, d, fields, 42)
        }
        Err(error) => print_read(rt, error.number(), BLANK),
    }
}

fn print_read(rt: &HostRuntime, number: u32, fields: Record) -> io::Result<()> {
    print(rt, b" :")?;
    print_number(rt, number)?;
    print(rt, b" :")?;
    print_fields(rt, fields)
}

// The map, URL, connection, key map, cookie values, script, value and target.
fn print_fields(rt: &HostRuntime, r: Record) -> io::Result<()> {
    print_number(rt, u32::from(r.map))?;
    print_number(rt, u32::from(r.url))?;
    print_number(rt, u32::from(r.connection))?;
    print_number(rt, u32::from(r.keys))?;
    for value in &r.cookies {
        print_number(rt, *value)?;
    }
    print_number(rt, u32::from(r.script))?;
    print_number(rt, r.value)?;
    print_number(rt, u32::from(r.target))
}

// Encodes a record with URL 1 and connection 2 whose other fields, and room, the line gives.
fn tried(rt: &HostRuntime, d: Direction, b: &[u8]) -> io::Result<()> {
    let first = u32::from(at(b, 3));
    let last = u32::from(at(b, 4));
    let fields = Record {
        map: at(b, 1),
        url: 1,
        connection: 2,
        keys: at(b, 2),
        cookies: [first, 0, 0, 0, 0, 0, 0, last],
        script: at(b, 5),
        value: u32::from(at(b, 6)),
        target: at(b, 7),
    };
    encoded(rt, d, fields, usize::from(at(b, 0)))
}

// Writes the fields into the first `room` bytes of a buffer of 44 that are all 238, and shows the answer and the buffer after.
fn encoded(rt: &HostRuntime, d: Direction, r: Record, room: usize) -> io::Result<()> {
    let mut space = [238; 44];
    encode_within(rt, d, r, &mut space, room)
}

fn encode_within(
    rt: &HostRuntime,
    d: Direction,
    r: Record,
    space: &mut [u8],
    room: usize,
) -> io::Result<()> {
    if space.len() < room {
        return Ok(());
    }
    match records::encode(d, r, &mut space[..room]) {
        Ok(length) => print_written(rt, records::ACCEPTED, length, space),
        Err(error) => print_written(rt, error.number(), 0, space),
    }
}

fn print_written(rt: &HostRuntime, number: u32, length: usize, space: &[u8]) -> io::Result<()> {
    print(rt, b"\n ")?;
    print_number(rt, number)?;
    print!(rt; " {length} :")?;
    for byte in space {
        print_number(rt, u32::from(*byte))?;
    }
    Ok(())
}
