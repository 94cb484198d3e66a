// The text of a reach table.
ghost use Rattle.std.specs.Prelude.{◌≡◌, ◌*◌};
ghost use Rattle.machine.specs.Policy.{connections};
ghost use Rattle.text.specs.Text.{pieces_below};
ghost use Rattle.text.specs.Writing.{HasRoom, Writes};
ghost use Rattle.reach.specs.Report.{line_text, report, line_room, report_room};

use policy::words::CONNECTIONS;
use reach_table::{ACCEPTED, ReachTable};
use text::Writer;

// Two numbers of at most ten digits, each with the byte that ends it.
const LINE_BYTES: usize = 22;

// A word of three letters and such a number.
const LAST_BYTES: usize = 15;

pub const REPORT_BYTES: usize = LINE_BYTES * CONNECTIONS + LAST_BYTES;

fn write_lines(text: &mut Writer<'_>, urls: &[u32; CONNECTIONS])
    requires { HasRoom text.old (line_room * connections) }
    ensures { Writes text.old (pieces_below connections (line_text urls.now)) text.new }
{
    for (connection, count) in urls.iter().enumerate() {
        text.write_pair(connection as u32, *count);
    }
}

// All that is printed of a table.
#[tactic(auto, using(text::proofs::Decimals::number_room))]
pub fn write_report(text: &mut Writer<'_>, table: &ReachTable)
    requires { HasRoom text.old report_room }
    ensures { Writes text.old (report table.now) text.new }
{
    if table.number != ACCEPTED {
        return text.write_number(table.number, b'\n');
    }
    write_lines(text, &table.urls);
    text.write_line(b"all", &[table.all]);
}
