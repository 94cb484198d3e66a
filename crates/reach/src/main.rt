// Reads a policy from standard input and prints how many URLs each connection reaches, and how many all of them: docs/REACH.md.
#![tactic(auto)]

ghost use Rattle.std.specs.Prelude.{◌≡◌, ◌≤◌, length};
ghost use Rattle.text.specs.Writing.{HasRoom, Writes};
ghost use Rattle.reach.specs.Report.{report_room, printed};

mod report;

use report::{REPORT_BYTES, write_report};
use std::io;
use text::Writer;
use transcript::{POLICY_INPUT_ROOM, read_policy};

fn main(rt: HostRuntime) -> io::Result<()> {
    let mut input = [0u8; POLICY_INPUT_ROOM];
    let n = streams::read_full(&mut rt.stdin(), &mut input)?;
    tell(&rt, &input[..n])
}

fn tell(rt: &HostRuntime, input: &[u8]) -> io::Result<()> {
    let mut room = [0u8; REPORT_BYTES];
    let mut text = Writer::new(&mut room);
    write_reach(&mut text, input);
    print(rt, input, text.written())
}

// All that is printed of an input; one that is no policy is told as the policy without words is.
fn write_reach(text: &mut Writer<'_>, input: &[u8])
    requires { HasRoom text.old report_room }
    ensures { Writes text.old (printed input.now) text.new }
{
    let table = match read_policy(input) {
        Some(words) => reach_table::reach_count(&words),
        None => reach_table::reach_count(&[]),
    };
    write_report(text, &table);
}

// The only write: what goes out is all that is printed of the input, and nothing else.
fn print(rt: &HostRuntime, input: &[u8], text: &[u8]) -> io::Result<()>
    requires { text.now ≡ printed input.now }
{
    rt.stdout().write_all(text)
}
