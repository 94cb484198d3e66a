// Feeds the records of standard input to the monitor, from the empty state, and prints what it answers and sends (document 01,
// "Program walk"). The text of every line is `transcript`'s.
#![tactic(auto)]

ghost use Rattle.std.specs.Prelude.{◌+◌, ◌≤◌, length};
ghost use Rattle.transcript.specs.Input.{records_at, input_limit};

use monitor::{Answer, OUTPUT_ROOM, STATE_WORDS};
use std::io;
use text::Writer;
use transcript::{Counts, Ending, INPUT_LIMIT, POLICY_BYTES, RECORDS_AT, Records, Unfit};

// One byte more than the longest input, so that a longer one is seen.
const INPUT_ROOM: usize = INPUT_LIMIT + 1;

// What `transcript` asks for a record's lines.
const TEXT_BYTES: usize = 55 + 5 * OUTPUT_ROOM;

fn main(rt: HostRuntime) -> io::Result<()> {
    let mut input = [0u8; INPUT_ROOM];
    let n = streams::read_full(&mut rt.stdin(), &mut input)?;
    walk(&rt, &input[..n])
}

fn walk(rt: &HostRuntime, input: &[u8]) -> io::Result<()> {
    match transcript::input_size(input) {
        Ok(()) => feed_input(rt, input),
        unfit => print_size(rt, unfit),
    }
}

fn print(rt: &HostRuntime, text: &Writer<'_>) -> io::Result<()> {
    rt.stdout().write_all(text.written())
}

fn print_size(rt: &HostRuntime, size: Result<(), Unfit>) -> io::Result<()> {
    let mut room = [0u8; 6];
    let mut text = Writer::new(&mut room);
    transcript::write_size_line(&mut text, size);
    print(rt, &text)
}

fn feed_input(rt: &HostRuntime, input: &[u8]) -> io::Result<()>
    requires { (records_at ≤ length input.now) × (length input.now ≤ input_limit) }
{
    let policy = transcript::policy_words(input);
    let scripts = &input[POLICY_BYTES..RECORDS_AT];
    let records = Records::new(input, RECORDS_AT);
    let mut state = [0u32; STATE_WORDS];
    feed_records(rt, &policy, scripts, records, &mut state)
}

fn feed_records(
    rt: &HostRuntime,
    policy: &[u32],
    scripts: &[u8],
    mut records: Records<'_>,
    state: &mut [u32],
) -> io::Result<()>
    requires { length records.rest.now ≤ input_limit }
{
    let mut counts = Counts {
        accepted: 0,
        refused: 0,
    };
    loop {
        match records.next_record() {
            Ok(bytes) => {
                let nth = counts.accepted + counts.refused + 1;
                let number = feed_record(rt, policy, scripts, state, bytes, nth)?;
                counts = counts.counted(number);
            }
            Err(ending) => return print_last(rt, ending, counts),
        }
    }
}

// Feeds one record, prints its lines and answers the number of the monitor's answer.
fn feed_record(
    rt: &HostRuntime,
    policy: &[u32],
    scripts: &[u8],
    state: &mut [u32],
    bytes: &[u8],
    nth: u32,
) -> io::Result<u32> {
    let mut out = [0u8; OUTPUT_ROOM];
    let answer = monitor::monitor_feed(policy, scripts, state, bytes, &mut out);
    print_answer(rt, nth, answer, &out)?;
    Ok(answer.number)
}

fn print_answer(rt: &HostRuntime, nth: u32, answer: Answer, out: &[u8]) -> io::Result<()>
    requires { (answer.bytes ≤ length out.now) × (length out.now ≤ OUTPUT_ROOM) }
{
    let mut room = [0u8; TEXT_BYTES];
    let mut text = Writer::new(&mut room);
    transcript::write_record_lines(&mut text, nth, answer, &out[..answer.bytes as usize]);
    print(rt, &text)
}

fn print_last(rt: &HostRuntime, ending: Ending, counts: Counts) -> io::Result<()> {
    let mut room = [0u8; 26];
    let mut text = Writer::new(&mut room);
    transcript::write_last_line(&mut text, ending, counts);
    print(rt, &text)
}
