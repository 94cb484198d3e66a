// Text: pieces of a line, for programs that print, each written behind what a writer has written. Numbers are read as well.
#![tactic(auto)]

ghost use Rattle.std.specs.Prelude.{◌+◌, ◌*◌, ◌<◌, ◌≤◌, ◌≡◌, [], ◌∷◌, ◌++◌, length, take, map};
ghost use Rattle.text.specs.Text.{decimal, hex_digit, hex, hex_word, line};

pub mod digits;

// A lent buffer, of which the bytes before `end` are written.
#[derive(Drop)]
pub struct Writer<'a> {
    buffer: &'a mut [u8],
    end: usize,
    ghost within: { end ≤ length buffer.now },
}

impl<'a> Writer<'a> {
    ghost use Rattle.text.specs.Writing.{HasRoom, Writes, written};

    // Nothing is written yet.
    pub fn new(buffer: &'a mut [u8]) -> Writer<'a>
        ensures same_memory { result.buffer.ghost_name ≡ buffer.entry.ghost_name }
        ensures same_bytes { result.buffer.now ≡ buffer.old }
        ensures at_front { result.end ≡ 0 }
    {
        Writer { buffer, end: 0 }
    }

    // The bytes before a place are written.
    pub fn at(buffer: &'a mut [u8], place: usize) -> Writer<'a>
        requires { place ≤ length buffer.old }
        ensures same_memory { result.buffer.ghost_name ≡ buffer.entry.ghost_name }
        ensures same_bytes { result.buffer.now ≡ buffer.old }
        ensures at_place { result.end ≡ place }
    {
        Writer { buffer, end: place }
    }

    pub fn written(&self) -> &[u8]
        ensures { result.now ≡ written self.now }
    {
        &self.buffer[..self.end]
    }

    pub fn write_bytes(&mut self, bytes: &[u8])
        requires { HasRoom self.old (length bytes.now) }
        ensures { Writes self.old bytes.now self.new }
    {
        let end = self.end + bytes.len();
        self.buffer[self.end..end].copy_from_slice(bytes);
        self.end = end;
    }

    fn write_byte(&mut self, byte: u8)
        requires { HasRoom self.old 1 }
        ensures { Writes self.old (byte ∷ []) self.new }
    {
        self.buffer[self.end] = byte;
        self.end += 1;
    }

    #[tactic(auto, using(crate::proofs::Writing::writes_then, crate::proofs::Decimals::decimal_one, crate::proofs::Decimals::decimal_more, crate::proofs::Decimals::decimal_longer))]
    pub fn write_decimal(&mut self, n: u32)
        requires { HasRoom self.old (length (decimal n)) }
        ensures { Writes self.old (decimal n) self.new }
    {
        if n < 10 {
            return self.write_byte(b'0' + n as u8);
        }
        self.write_decimal(n / 10);
        self.write_byte(b'0' + (n % 10) as u8);
    }

    // A number in decimal and the byte that ends it.
    #[tactic(auto, using(crate::proofs::Writing::writes_then))]
    pub fn write_number(&mut self, n: u32, end: u8)
        requires { HasRoom self.old (length (decimal n ++ (end ∷ []))) }
        ensures { Writes self.old (decimal n ++ (end ∷ [])) self.new }
    {
        self.write_decimal(n);
        self.write_byte(end);
    }

    // Numbers on a line of their own, each of at most ten digits.
    #[tactic(auto, using(crate::proofs::Decimals::number_room))]
    pub fn write_numbers(&mut self, numbers: &[u32])
        requires some { 0 < length numbers.now }
        requires room { HasRoom self.old (11 * length numbers.now) }
        ensures { Writes self.old (line (map decimal numbers.now)) self.new }
    {
        match numbers {
            [] => unreachable!(),
            [last] => self.write_number(*last, b'\n'),
            [first, rest @ ..] => {
                self.write_number(*first, b' ');
                self.write_numbers(rest);
            }
        }
    }

    // Two numbers at the end of a line.
    pub fn write_pair(&mut self, n: u32, m: u32)
        requires { HasRoom self.old 22 }
        ensures { Writes self.old (line (decimal n ∷ decimal m ∷ [])) self.new }
    {
        self.write_numbers(&[n, m]);
    }

    // A word, and numbers behind it, on a line of their own.
    pub fn write_line(&mut self, word: &[u8], numbers: &[u32])
        requires some { 0 < length numbers.now }
        requires room { HasRoom self.old (length word.now + 1 + 11 * length numbers.now) }
        ensures { Writes self.old (line (word.now ∷ map decimal numbers.now)) self.new }
    {
        self.write_bytes(word);
        self.write_byte(b' ');
        self.write_numbers(numbers);
    }

    // A byte as two hexadecimal digits.
    #[tactic(auto, using(crate::proofs::Writing::writes_then))]
    fn write_hex_byte(&mut self, n: u8)
        requires { HasRoom self.old 2 }
        ensures { Writes self.old (hex n) self.new }
    {
        self.write_byte(hex_digit(n / 16));
        self.write_byte(hex_digit(n % 16));
    }

    // Two hexadecimal digits and the byte that ends them.
    #[tactic(auto, using(crate::proofs::Writing::writes_then))]
    pub fn write_hex(&mut self, n: u8, end: u8)
        requires { HasRoom self.old 3 }
        ensures { Writes self.old (hex n ++ (end ∷ [])) self.new }
    {
        self.write_hex_byte(n);
        self.write_byte(end);
    }

    // A word as eight hexadecimal digits.
    #[tactic(auto, using(crate::proofs::Writing::writes_then))]
    pub fn write_hex_word(&mut self, n: u32)
        requires { HasRoom self.old 8 }
        ensures { Writes self.old (hex_word n) self.new }
    {
        let [first, second, third, fourth] = n.to_be_bytes();
        self.write_hex_byte(first);
        self.write_hex_byte(second);
        self.write_hex_byte(third);
        self.write_hex_byte(fourth);
    }
}

fn hex_digit(n: u8) -> u8
    requires { n < 16 }
    ensures { result ≡ hex_digit n }
{
    if n < 10 { b'0' + n } else { b'a' + (n - 10) }
}
