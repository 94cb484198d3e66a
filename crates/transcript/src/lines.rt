// The lines that walk prints.
ghost use Rattle.std.specs.Prelude.{◌≡◌, ◌+◌, ◌*◌, ◌≤◌, [], ◌∷◌, ◌++◌, length};
ghost use Rattle.text.specs.Writing.{HasRoom, Writes};
ghost use Rattle.transcript.specs.Input.{told_size};
ghost use Rattle.transcript.specs.Lines.{size_line, request_line, sent_lines, record_lines, ending_word, last_line};

use super::counts::Counts;
use super::input::{Ending, Unfit};
use monitor::Answer;
use records::Direction;
use text::Writer;

// What is printed of an input that walk does not take; of any other, nothing.
pub fn write_size_line(text: &mut Writer<'_>, size: Result<(), Unfit>)
    requires { HasRoom text.old 6 }
    ensures { Writes text.old (size_line (told_size size)) text.new }
{
    match size {
        Ok(()) => {}
        Err(Unfit::TooShort) => text.write_bytes(b"short\n"),
        Err(Unfit::TooLong) => text.write_bytes(b"long\n"),
    }
}

// A sign with a space, two numbers of at most three digits and two hexadecimal digits, each of these with the byte that ends it.
#[tactic(auto, using(text::proofs::Decimals::byte_room))]
fn write_request_line(text: &mut Writer<'_>, url: u8, connection: u8, keys: u8)
    requires { HasRoom text.old 13 }
    ensures { Writes text.old (request_line url connection keys) text.new }
{
    text.write_bytes(b"> ");
    text.write_number(u32::from(url), b' ');
    text.write_number(u32::from(connection), b' ');
    text.write_hex(keys, b'\n');
}

// A line for each request at the front of the bytes; the first bytes that are not a request end them. A request has at least
// 3 bytes and its line at most 13, so five times the bytes are room enough.
fn write_request_lines(text: &mut Writer<'_>, sent: &[u8])
    requires { HasRoom text.old (5 * length sent.now) }
    ensures { Writes text.old (sent_lines sent.now) text.new }
{
    let mut rest = sent;
    while let Ok(request) = records::decode_first(Direction::Request, rest) {
        let fields = request.fields;
        write_request_line(text, fields.url, fields.connection, fields.keys);
        rest = &rest[request.length..];
    }
}

// The lines of one record: its number among the records, what the monitor answered, and the requests among the bytes sent.
pub fn write_record_lines(text: &mut Writer<'_>, nth: u32, answer: Answer, sent: &[u8])
    requires { HasRoom text.old (55 + 5 * length sent.now) }
    ensures { Writes text.old (record_lines nth answer.number answer.bytes answer.steps answer.missing sent.now) text.new }
{
    text.write_numbers(&[
        nth,
        answer.number,
        answer.bytes,
        answer.steps,
        answer.missing,
    ]);
    write_request_lines(text, sent);
}

impl Ending {
    fn word(self) -> &'static [u8]
        ensures { result.now ≡ ending_word self }
    {
        match self {
            Ending::End => b"end",
            Ending::Cut => b"cut",
        }
    }
}

// A word of three letters and two numbers of at most ten digits, each with the byte that ends it.
pub fn write_last_line(text: &mut Writer<'_>, ending: Ending, counts: Counts)
    requires { HasRoom text.old 26 }
    ensures { Writes text.old (last_line ending counts.accepted counts.refused) text.new }
{
    text.write_line(ending.word(), &[counts.accepted, counts.refused]);
}
