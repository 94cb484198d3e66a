// Runs calls of the monitor as the directives of standard input say; what it writes is held to the file stdout.
// The comments at the top of the file stdin say what a directive is.
#![tactic(auto)]

ghost use Rattle.std.specs.Prelude.{◌<◌, ◌≤◌, length};

use monitor::{Answer, OUTPUT_ROOM};
use policy::words::{NO_PARTNER, PARTNERS_AT, URL_ROWS, WORDS};
use scripts::TABLE_BYTES;
use std::io;

// Room for standard input; what does not fit would be missing from the output.
const TEXT_ROOM: usize = 262_144;

// Room for a record, longer than any that can be read.
const RECORD_ROOM: usize = 300;

// Every other buffer has room for so much more than is right.
const SPARE: usize = 128;

const POLICY_ROOM: usize = WORDS + SPARE;

const STEP_ROOM: usize = TABLE_BYTES / 4 + SPARE;

const STATE_ROOM: usize = session::words::WORDS + SPARE;

// What the directives set, in one array: the words of a policy, from 0, of a script table, a step to a word, and of a state; then the
// lengths to lend of policy, script table, state and output, and the byte that fills the output.
const SCRIPTS: usize = POLICY_ROOM;

const STATE: usize = SCRIPTS + STEP_ROOM;

const LENGTHS: usize = STATE + STATE_ROOM;

const END: usize = LENGTHS + 5;

fn main(rt: HostRuntime) -> io::Result<()> {
    let mut text = [0u8; TEXT_ROOM];
    let n = streams::read_full(&mut rt.stdin(), &mut text)?;
    let mut words = [0u32; END];
    lines(&rt, &text[..n], &mut words)
}

fn print(rt: &HostRuntime, bytes: &[u8]) -> io::Result<()> {
    rt.stdout().write_all(bytes)
}

// ---- directives

// Runs each line that a newline ends.
fn lines(rt: &HostRuntime, text: &[u8], words: &mut [u32; END]) -> io::Result<()> {
    if let Some(last) = text.iter().rposition(|&byte| byte == b'\n') {
        for text in text[..last].split(|&byte| byte == b'\n') {
            line(rt, text, words)?;
        }
    }
    Ok(())
}

fn line(rt: &HostRuntime, text: &[u8], words: &mut [u32; END]) -> io::Result<()> {
    match text {
        [b'z', ..] => reset(words),
        [b'p', numbers @ ..] => set(rt, numbers, &mut words[..SCRIPTS])?,
        [b's', numbers @ ..] => set(rt, numbers, &mut words[SCRIPTS..STATE])?,
        [b'w', numbers @ ..] => set(rt, numbers, &mut words[STATE..LENGTHS])?,
        [b'l', numbers @ ..] => set(rt, numbers, &mut words[LENGTHS..])?,
        [b'r', digits @ ..] => feed(rt, text, digits, words, true)?,
        [b't', digits @ ..] => feed(rt, text, digits, words, false)?,
        [b'm', digits @ ..] => sweep(rt, text, digits, words)?,
        _ => comment(rt, text)?,
    }
    Ok(())
}

fn comment(rt: &HostRuntime, text: &[u8]) -> io::Result<()> {
    print(rt, text)?;
    print(rt, b"\n")
}

// No URL (address 255 in each row) and no partner (255 for each URL), all else 0; the right lengths.
fn reset(words: &mut [u32; END]) {
    words.fill(0);
    for row in words[..3 * URL_ROWS].chunks_exact_mut(3) {
        row[0] = 255;
    }
    words[PARTNERS_AT..WORDS].fill(NO_PARTNER);
    words[LENGTHS..].copy_from_slice(&[
        WORDS as u32,
        TABLE_BYTES as u32,
        session::words::WORDS as u32,
        OUTPUT_ROOM as u32,
        0xee,
    ]);
}

// An index into a part of the words, and the words that go there and after.
fn set(rt: &HostRuntime, text: &[u8], part: &mut [u32]) -> io::Result<()> {
    let mut numbers = text.split(|&byte| byte == b' ').map(number);
    let mut place = numbers.next().unwrap_or(0) as usize;
    for value in numbers {
        match part.get_mut(place) {
            Some(word) => {
                *word = value;
                place += 1;
            }
            None => print(rt, b"out of range\n")?,
        }
    }
    Ok(())
}

// A hexadecimal number, or its last eight digits.
fn number(digits: &[u8]) -> u32 {
    digits
        .iter()
        .fold(0, |n, &byte| n << 4 | u32::from(digit(byte)))
}

fn digit(byte: u8) -> u8
    ensures { result < 16 }
{
    if byte < b'a' {
        byte % 16
    } else {
        (byte - 87) % 16
    }
}

// ---- calls

// Feeds the record, two digits to a byte, and shows the directive and what the call did; the state after is kept, or put back.
fn feed(
    rt: &HostRuntime,
    text: &[u8],
    digits: &[u8],
    words: &mut [u32; END],
    kept: bool,
) -> io::Result<()> {
    let mut scripts = [0u8; 4 * STEP_ROOM];
    set_scripts(&mut scripts, words);
    let mut state = [0u32; STATE_ROOM];
    state.copy_from_slice(&words[STATE..LENGTHS]);
    let mut record = [0u8; RECORD_ROOM];
    let n = from_hex(&mut record, digits);
    let fill = (words[LENGTHS + 4] % 256) as u8;
    let mut out = [fill; OUTPUT_ROOM + SPARE];
    let answer = lend(words, &scripts, &mut state, &record[..n], &mut out);
    print(rt, text)?;
    show(rt, answer, words, &state)?;
    output(rt, answer.bytes as usize, &out, fill)?;
    if kept {
        words[STATE..LENGTHS].copy_from_slice(&state);
    }
    Ok(())
}

// Calls the monitor with the lengths that are set.
fn lend(
    words: &[u32; END],
    scripts: &[u8],
    state: &mut [u32],
    record: &[u8],
    out: &mut [u8],
) -> Answer {
    let policy_long = (words[LENGTHS] as usize).min(words.len());
    let scripts_long = (words[LENGTHS + 1] as usize).min(scripts.len());
    let state_long = (words[LENGTHS + 2] as usize).min(state.len());
    let out_long = (words[LENGTHS + 3] as usize).min(out.len());
    monitor::monitor_feed(
        &words[..policy_long],
        &scripts[..scripts_long],
        &mut state[..state_long],
        record,
        &mut out[..out_long],
    )
}

// Two digits to a byte, as far as there is room; where the last has one alone, the other is 0.
fn from_hex(bytes: &mut [u8], digits: &[u8]) -> usize
    ensures { result ≤ length bytes.old }
{
    for (byte, pair) in bytes.iter_mut().zip(digits.chunks(2)) {
        *byte = match pair {
            [high, low] => digit(*high) * 16 + digit(*low),
            [high] => digit(*high) * 16,
            _ => 0,
        };
    }
    digits.len().div_ceil(2).min(bytes.len())
}

// Shows the directive, and feeds its record with each map byte, cut at each length.
fn sweep(rt: &HostRuntime, text: &[u8], digits: &[u8], words: &[u32; END]) -> io::Result<()> {
    comment(rt, text)?;
    let mut record = [0u8; RECORD_ROOM];
    let n = from_hex(&mut record, digits);
    every_map(rt, words, &mut record[..n])
}

fn every_map(rt: &HostRuntime, words: &[u32; END], record: &mut [u8]) -> io::Result<()> {
    for map in 0..=u8::MAX {
        if let Some(first) = record.first_mut() {
            *first = map;
        }
        every_length(rt, words, record, map)?;
    }
    Ok(())
}

// Shows the number of each length where it is another than at the length before.
fn every_length(rt: &HostRuntime, words: &[u32; END], record: &[u8], map: u8) -> io::Result<()> {
    let mut before = 10;
    for length in 0..=record.len() {
        let number = number_of(words, &record[..length]);
        if number != before {
            println!(rt; " {map} {length} {number}")?;
        }
        before = number;
    }
    Ok(())
}

// The number of a call, of which nothing is kept.
fn number_of(words: &[u32; END], record: &[u8]) -> u32 {
    let mut scripts = [0u8; 4 * STEP_ROOM];
    set_scripts(&mut scripts, words);
    let mut state = [0u32; STATE_ROOM];
    state.copy_from_slice(&words[STATE..LENGTHS]);
    let mut out = [0u8; OUTPUT_ROOM + SPARE];
    lend(words, &scripts, &mut state, record, &mut out).number
}

// Each step's four bytes, the most significant first.
fn set_scripts(bytes: &mut [u8], words: &[u32; END]) {
    for (step, word) in bytes.chunks_exact_mut(4).zip(&words[SCRIPTS..STATE]) {
        step.copy_from_slice(&word.to_be_bytes());
    }
}

// The answer, and the words of the state that changed.
fn show(rt: &HostRuntime, answer: Answer, words: &[u32; END], state: &[u32]) -> io::Result<()> {
    let Answer {
        number,
        bytes,
        steps,
        missing,
    } = answer;
    print!(rt; " : {number} {bytes} {steps} {missing} :")?;
    for (i, (before, after)) in words[STATE..].iter().zip(state).enumerate() {
        if before != after {
            print!(rt; " {i:x}={after:x}")?;
        }
    }
    Ok(())
}

// The bytes of the output that the answer counts, and '!' where one past them changed.
fn output(rt: &HostRuntime, n: usize, out: &[u8], fill: u8) -> io::Result<()> {
    print(rt, b" :")?;
    if out.len() < n {
        return print(rt, b" ?\n");
    }
    let (counted, past) = out.split_at(n);
    for byte in counted {
        print!(rt; " {byte:02x}")?;
    }
    if past.iter().any(|&byte| byte != fill) {
        print(rt, b" !")?;
    }
    print(rt, b"\n")
}
