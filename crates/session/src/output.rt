// The output buffer while requests are written into it, one after another.
ghost use Rattle.std.specs.Prelude.{◌≡◌, ◌≤◌, length};
ghost use Rattle.session.specs.Output.{output, write_next};

use records::{Direction, Record};

// Writes a request into the part of the output that follows `at`; answers the place after it. It does not look at what encoding
// refuses: the monitor's requests can always be written (`SentReadsBack`).
fn write_next(fields: Record, out: &mut [u8], at: usize) -> usize
    requires { at ≤ length out.old }
    ensures { (output result out.new ≡ write_next fields (output at out.old))
        × (result ≤ length out.old) }
{
    let written = records::encode(Direction::Request, fields, &mut out[at..]);
    at + written.unwrap_or(0)
}

// A buffer that is lent, and how many of its bytes are written.
#[derive(Drop)]
pub struct Output<'a> {
    buffer: &'a mut [u8],
    at: usize,
    pub ghost within: { at ≤ length buffer.now },
}

impl<'a> Output<'a> {
    ghost use Rattle.std.specs.Prelude.{◌≡◌, ◌≤◌, length};
    ghost use Rattle.session.specs.Output.{output, write_next};

    // Nothing is written yet.
    pub fn new(buffer: &'a mut [u8]) -> Output<'a>
        ensures memory { result.buffer.ghost_name ≡ buffer.entry.ghost_name }
        ensures buffer { result.buffer.now ≡ buffer.old }
        ensures at { result.at ≡ 0 }
    {
        Output { buffer, at: 0 }
    }

    // The bytes before a place are written.
    pub fn at(buffer: &'a mut [u8], place: usize) -> Output<'a>
        requires { place ≤ length buffer.old }
        ensures memory { result.buffer.ghost_name ≡ buffer.entry.ghost_name }
        ensures buffer { result.buffer.now ≡ buffer.old }
        ensures at { result.at ≡ place }
    {
        Output { buffer, at: place }
    }

    // How many bytes are written.
    pub fn written(&self) -> usize
        ensures { result ≡ self.now.at }
    {
        self.at
    }

    // Writes a request after those that are written.
    pub fn write_next(&mut self, fields: Record)
        ensures memory { self.new.buffer.ghost_name ≡ self.old.buffer.ghost_name }
        ensures written { output self.new.at self.new.buffer.now
            ≡ write_next fields (output self.old.at self.old.buffer.now) }
    {
        self.at = write_next(fields, self.buffer, self.at);
    }
}
