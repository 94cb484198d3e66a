// Reads a policy from standard input and prints the connection that carries a journey, whose URLs are the arguments: docs/JOURNEY.md.
#![tactic(auto)]

ghost use Rattle.std.specs.Prelude.{◌≡◌, ◌≤◌, IfSome, length};
ghost use Rattle.text.specs.Writing.{HasRoom, Writes};
ghost use Rattle.journey.specs.Report.{report_room, printed};

mod report;

use journeys::MOST_URLS;
use report::{REPORT_BYTES, write_report};
use std::io;
use text::Writer;
use transcript::{POLICY_INPUT_ROOM, read_policy};

// One more than a journey may have, so that a longer one is seen.
const URLS_ROOM: usize = MOST_URLS + 1;

// The first argument is the program's own name.
const FIRST_URL: usize = 1;

// A number that no byte has names no URL, and this stands for it, which names none either.
const NO_URL: u8 = 255;

fn main(rt: HostRuntime) -> io::Result<()> {
    let mut places = [0u8; URLS_ROOM];
    match read_urls(&rt, &mut places) {
        Some(urls) => find_from_input(&rt, urls),
        None => print_usage(&rt),
    }
}

fn print_usage(rt: &impl Eprint) -> io::Result<()> {
    eprintln!(rt; "usage: journey URL.. < POLICY")?;
    eprintln!(rt;
        "One to 16 URLs, by their numbers, 0 to 63: the first is loaded, each further one reached by redirect."
    )?;
    eprintln!(rt; "POLICY is a policy's words, four bytes each, most significant first.")
}

// The URLs of the arguments, as far as there are places: none where there is no argument, or one is no number.
fn read_urls<'a>(rt: &HostRuntime, places: &'a mut [u8]) -> Option<&'a [u8]>
    ensures { IfSome result (λ urls. length urls.now ≤ length places.old) }
{
    let mut count = 0;
    for nth in FIRST_URL..usize::MAX {
        match arguments::runtime_number(rt, nth).ok()? {
            Some(url) => {
                if let Some(place) = places.get_mut(count) {
                    *place = u8::try_from(url).unwrap_or(NO_URL);
                    count += 1;
                }
            }
            None => break,
        }
    }
    if count == 0 {
        return None;
    }
    Some(&places[..count])
}

fn find_from_input(rt: &HostRuntime, urls: &[u8]) -> io::Result<()> {
    let mut input = [0u8; POLICY_INPUT_ROOM];
    let n = streams::read_full(&mut rt.stdin(), &mut input)?;
    find(rt, &input[..n], urls)
}

fn find(rt: &HostRuntime, input: &[u8], urls: &[u8]) -> io::Result<()> {
    let mut room = [0u8; REPORT_BYTES];
    let mut text = Writer::new(&mut room);
    write_journey(&mut text, input, urls);
    print(rt, input, urls, text.written())
}

// All that is printed of an input and the URLs; an input that is no policy is told as the policy without words is.
fn write_journey(text: &mut Writer<'_>, input: &[u8], urls: &[u8])
    requires { HasRoom text.old report_room }
    ensures { Writes text.old (printed input.now urls.now) text.new }
{
    match read_policy(input) {
        Some(words) => write_report(text, &words, urls),
        None => write_report(text, &[], urls),
    }
}

// The only write to standard output: what goes out is all that is printed of the input and the URLs, and nothing else.
fn print(rt: &HostRuntime, input: &[u8], urls: &[u8], text: &[u8]) -> io::Result<()>
    requires { text.now ≡ printed input.now urls.now }
{
    rt.stdout().write_all(text)
}
