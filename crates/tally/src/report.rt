// The text of a tally.
ghost use Rattle.std.specs.Prelude.{◌≡◌, ◌*◌};
ghost use Rattle.machine.specs.Policy.{url_rows};
ghost use Rattle.text.specs.Writing.{HasRoom, Writes};
ghost use Rattle.usage.specs.Lines.{lines};
ghost use Rattle.tally.specs.Report.{line_if_any, lines_text, line_room, report_room, report};

use text::Writer;
use usage::{ACCEPTED, Tally, URL_ROWS};

// Three numbers of at most ten digits, each with the byte that ends it.
const LINE_BYTES: usize = 33;

// A word of three letters and two such numbers.
const LAST_BYTES: usize = 26;

pub const REPORT_BYTES: usize = URL_ROWS * LINE_BYTES + LAST_BYTES;

// The line of a URL that has any request; of another, nothing.
fn write_line_if_any(text: &mut Writer<'_>, url: u32, records: u32, cookies: u32)
    requires { HasRoom text.old line_room }
    ensures { Writes text.old (line_if_any (record { url = url; records = records; cookies = cookies })) text.new }
{
    if records == 0 {
        return;
    }
    text.write_numbers(&[url, records, cookies]);
}

fn write_lines(text: &mut Writer<'_>, tally: &Tally)
    requires { HasRoom text.old (url_rows * line_room) }
    ensures { Writes text.old (lines_text (lines tally.now)) text.new }
{
    // By place, not by `zip`: a proof knows the items of `enumerate` by their place, and those of a `zip` only by what it has yielded.
    for (url, records) in tally.records.iter().enumerate() {
        write_line_if_any(text, url as u32, *records, tally.cookies[url]);
    }
}

// All that is printed of a tally.
pub fn write_report(text: &mut Writer<'_>, tally: &Tally)
    requires { HasRoom text.old report_room }
    ensures { Writes text.old (report tally.now) text.new }
{
    if tally.number != ACCEPTED {
        return text.write_bytes(b"bad\n");
    }
    write_lines(text, tally);
    text.write_line(b"all", &[tally.all_records, tally.all_cookies]);
}
