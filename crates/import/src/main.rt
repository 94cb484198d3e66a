// Reads Set-Cookie lines from standard input and prints for each the policy word that it settles: docs/IMPORT.md.
#![tactic(auto)]

ghost use Rattle.std.specs.Prelude.{◌≡◌, ◌≤◌, IfOk, length};
ghost use Rattle.import.specs.Lines.{lines, IsLine};
ghost use Rattle.import.specs.Report.{line_text, printed, input_limit};

mod lines;
mod report;

use cookie::names::{NAME_BYTES, NAMES_BYTES};
use lines::Lines;
use report::{LINE_BYTES, write_line};
use std::env::{Env, FillError};
use std::io;
use text::Writer;

const INPUT_LIMIT: usize = 65_536;

// One byte more than the longest input, so that a longer one is seen.
const INPUT_ROOM: usize = INPUT_LIMIT + 1;

// The arguments: the program's own name, the host, and the names of its keys from 0 on.
const HOST: usize = 1;

const FIRST_NAME: usize = 2;

// The arguments are not what the usage asks for.
#[derive(Clone, Copy, Debug, PartialEq, Eq)]
struct BadUsage;

fn main(rt: HostRuntime) -> io::Result<()> {
    let mut names = [0u8; NAMES_BYTES];
    match read_arguments(&rt, &mut names) {
        Ok(host) => import_input(&rt, host, &names),
        Err(BadUsage) => print_usage(&rt),
    }
}

// Puts each name in its place, and answers the host.
fn read_arguments(rt: &HostRuntime, names: &mut [u8]) -> Result<u32, BadUsage> {
    read_names(rt, names)?;
    match arguments::runtime_number(rt, HOST) {
        Ok(Some(host)) => Ok(host),
        _ => Err(BadUsage),
    }
}

// There are one to eight names, and each fits.
fn read_names(rt: &HostRuntime, names: &mut [u8]) -> Result<(), BadUsage> {
    let mut next = FIRST_NAME;
    for (key, place) in names.chunks_exact_mut(NAME_BYTES).enumerate() {
        match rt.arg(FIRST_NAME + key, place) {
            Ok(_) => next = FIRST_NAME + key + 1,
            Err(FillError::NotPresent) => break,
            Err(FillError::TooLong) => return Err(BadUsage),
        }
    }
    match rt.arg(next, &mut []) {
        Err(FillError::NotPresent) if FIRST_NAME < next => Ok(()),
        _ => Err(BadUsage),
    }
}

// A line for standard error, in one write. As bytes, where `eprintln!` makes its text on the stack: two kibibytes more than anything else here takes.
fn complain(rt: &HostRuntime, line: &[u8]) -> io::Result<()> {
    rt.stderr().write_all(line)
}

fn print_usage(rt: &HostRuntime) -> io::Result<()> {
    complain(rt, b"usage: import HOST NAME.. < LINES\n")?;
    complain(
        rt,
        b"HOST is 0 to 15. One to eight NAMEs, each of at most 16 bytes, are those of the keys from 0 on.\n",
    )?;
    complain(
        rt,
        b"A line is what stands after the colon of a Set-Cookie header, or the whole header.\n",
    )
}

fn import_input(rt: &HostRuntime, host: u32, names: &[u8]) -> io::Result<()> {
    let mut input = [0u8; INPUT_ROOM];
    let n = streams::read_full(&mut rt.stdin(), &mut input)?;
    if INPUT_LIMIT < n {
        return complain(rt, b"import: the lines have more than 65,536 bytes\n");
    }
    import_lines(rt, host, names, &input[..n])?;
    Ok(())
}

// Prints a line for each line of the input, and answers how many there are.
fn import_lines(rt: &HostRuntime, host: u32, names: &[u8], input: &[u8]) -> io::Result<u32>
    requires { length input.now ≤ input_limit }
    ensures { IfOk result (λ n. n ≡ length (lines input.now)) }
{
    let mut nth = 0;
    for line in Lines::of(input) {
        nth += 1;
        import_line(rt, host, names, input, line, nth)?;
    }
    Ok(nth)
}

fn import_line(
    rt: &HostRuntime,
    host: u32,
    names: &[u8],
    input: &[u8],
    line: &[u8],
    nth: u32,
) -> io::Result<()>
    requires { IsLine input.now nth × (line_text nth host names.now line.now ≡ printed host names.now input.now nth) }
{
    let mut room = [0u8; LINE_BYTES];
    let mut text = Writer::new(&mut room);
    write_line(&mut text, nth, host, names, line);
    print(rt, host, names, input, nth, text.written())
}

// The only write to standard output: what goes out is all that is printed of line `nth` of the input, and nothing else.
fn print(
    rt: &HostRuntime,
    host: u32,
    names: &[u8],
    input: &[u8],
    nth: u32,
    text: &[u8],
) -> io::Result<()>
    requires { IsLine input.now nth × (text.now ≡ printed host names.now input.now nth) }
{
    rt.stdout().write_all(text)
}
