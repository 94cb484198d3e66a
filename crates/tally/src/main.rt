// Counts the requests of standard input by URL and prints the counts (document 01, "A tally of requests").
#![tactic(auto)]

ghost use Rattle.std.specs.Prelude.{◌≡◌, ◌<◌, ◌≤◌, length};
ghost use Rattle.text.specs.Writing.{HasRoom, Writes};
ghost use Rattle.usage.specs.Tally.{list_bytes};
ghost use Rattle.tally.specs.Report.{report_room, printed};

mod report;

use report::{REPORT_BYTES, write_report};
use std::io;
use text::Writer;
use usage::LIST_BYTES;

// One byte more than the longest list, so that a longer one is seen.
const INPUT_ROOM: usize = LIST_BYTES + 1;

fn main(rt: HostRuntime) -> io::Result<()> {
    let mut input = [0u8; INPUT_ROOM];
    let n = streams::read_full(&mut rt.stdin(), &mut input)?;
    tally(&rt, &input, n)
}

// The first bytes of the input were read; a list that fills it is too long.
fn tally(rt: &HostRuntime, input: &[u8], n: usize) -> io::Result<()>
    requires { (list_bytes < length input.now) × (n ≤ length input.now) }
{
    let requests = &input[..n];
    let mut room = [0u8; REPORT_BYTES];
    let mut text = Writer::new(&mut room);
    write_tally(&mut text, requests);
    print(rt, requests, text.written())
}

// All that is printed of a list of requests.
fn write_tally(text: &mut Writer<'_>, requests: &[u8])
    requires { HasRoom text.old report_room }
    ensures { Writes text.old (printed requests.now) text.new }
{
    write_report(text, &usage::usage_count(requests));
}

// The only write: what goes out is all that is printed of the list, and nothing else.
fn print(rt: &HostRuntime, requests: &[u8], text: &[u8]) -> io::Result<()>
    requires { text.now ≡ printed requests.now }
{
    rt.stdout().write_all(text)
}
