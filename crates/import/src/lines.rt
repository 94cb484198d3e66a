// The lines of a text file, and the Set-Cookie text of each.
ghost use Rattle.std.specs.Prelude.{◌≡◌};
ghost use Rattle.std.specs.Iterator.{YieldsFirstRef, item_count};
ghost use Rattle.import.specs.Lines.{lines, after_name, text_of};

use cookie::parts::{cut, is_word, trim_end};

// Gives the lines of a text, one after another.
#[derive(Clone, Copy)]
pub struct Lines<'a> {
    left: &'a [u8],
}

impl<'a> Lines<'a> {
    pub fn of(text: &'a [u8]) -> Lines<'a>
        ensures { result.left.now ≡ text.now }
    {
        Lines { left: text }
    }
}

impl<'a> Iterator for Lines<'a> {
    type Item = &'a [u8];

    ghost next_gives = { YieldsFirstRef (λ s. lines s.left.now) };

    ghost remaining = { item_count (λ s. lines s.left.now) };

    fn next(&mut self) -> Option<&'a [u8]> {
        if self.left.is_empty() {
            return None;
        }
        let (line, behind) = cut(self.left, b'\n');
        self.left = behind.unwrap_or(&[]);
        Some(line)
    }
}

// A line may be a whole header: its name and its colon are taken off.
fn after_name(line: &[u8]) -> &[u8]
    ensures { result.now ≡ after_name line.now }
{
    match cut(line, b':') {
        (name, Some(text)) if is_word(name, b"set-cookie") => text,
        _ => line,
    }
}

// What is read as a Set-Cookie line. Carriage returns at the end of a line belong to the file and not to the line.
pub fn text_of(line: &[u8]) -> &[u8]
    ensures { result.now ≡ text_of line.now }
{
    after_name(trim_end(line, |byte| byte == b'\r'))
}
