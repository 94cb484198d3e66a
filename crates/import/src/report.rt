// What is printed of a line.
ghost use Rattle.std.specs.Prelude.{◌≡◌, ◌<◌, ◌≤◌, length};
ghost use Rattle.labels.specs.Addresses.{hosts};
ghost use Rattle.machine.specs.Policy.{host_keys};
ghost use Rattle.text.specs.Writing.{HasRoom, Writes};
ghost use Rattle.import.specs.Report.{word_text, key_and_value, flag_text, settled_text, reason, refusal_text, line_text};
ghost use Rattle.import.specs.Report.{line_room, word_room, settled_room, refusal_room};

use super::lines::text_of;
use cookie::{ACCEPTED, HOST_UNKNOWN, Imported, NO_KEY, NO_NAME, cookie_import};
use policy::words::{COOKIE_LABELS_AT, HOST_KEYS};
use text::Writer;

// The longest text of a line has fewer.
pub const LINE_BYTES: usize = 128;

// The word of a policy that has the readers of a host's cookie, and what it is to be.
#[tactic(auto, using(text::proofs::Decimals::number_room))]
fn write_word(text: &mut Writer<'_>, host: u32, key: u32, readers: u32)
    requires room { HasRoom text.old word_room }
    requires host { host < hosts }
    requires key { key < host_keys }
    ensures { Writes text.old (word_text host key readers) text.new }
{
    let word = COOKIE_LABELS_AT as u32 + 2 * (HOST_KEYS as u32 * host + key);
    text.write_bytes(b"word ");
    text.write_number(word, b' ');
    text.write_bytes(b"= 0x");
    text.write_hex_word(readers);
}

#[tactic(auto, using(text::proofs::Decimals::decimal_ten))]
fn write_key_and_value(text: &mut Writer<'_>, key: u32, value: u32)
    requires { HasRoom text.old 34 }
    ensures { Writes text.old (key_and_value key value) text.new }
{
    text.write_bytes(b", key ");
    text.write_decimal(key);
    text.write_bytes(b", value ");
    text.write_decimal(value);
}

// A text where something is on, and nothing where it is not.
#[tactic(auto, using(text::proofs::Writing::writes_nothing))]
fn write_if(text: &mut Writer<'_>, on: bool, bytes: &[u8])
    requires { HasRoom text.old (length bytes.now) }
    ensures { Writes text.old (flag_text on bytes.now) text.new }
{
    if on {
        text.write_bytes(bytes);
    }
}

fn write_settled(text: &mut Writer<'_>, host: u32, answer: Imported)
    requires room { HasRoom text.old settled_room }
    requires host { host < hosts }
    requires key { answer.key < host_keys }
    ensures { Writes text.old (settled_text host answer) text.new }
{
    write_word(text, host, answer.key, answer.readers);
    write_key_and_value(text, answer.key, answer.value);
    write_if(text, answer.secure, b", Secure");
    write_if(text, answer.http_only, b", HttpOnly");
    text.write_bytes(b"\n");
}

// Why a number refuses a line.
fn reason(number: u32) -> &'static [u8]
    ensures reason { result.now ≡ reason number }
    ensures short { length result.now ≤ 66 }
{
    match number {
        HOST_UNKNOWN => b" the host is above 15\n",
        NO_NAME => b" the pair has no equals sign, or no name before it\n",
        NO_KEY => b" none of the names is the cookie's\n",
        _ => b" the value is not one to ten digits that make at most 4294967295\n",
    }
}

#[tactic(auto, using(text::proofs::Decimals::number_room))]
fn write_refusal(text: &mut Writer<'_>, number: u32)
    requires { HasRoom text.old refusal_room }
    ensures { Writes text.old (refusal_text number) text.new }
{
    text.write_bytes(b"refused ");
    text.write_number(number, b':');
    text.write_bytes(reason(number));
}

// All that is printed of a line, whose number in its file is `nth`.
#[tactic(auto, using(text::proofs::Decimals::number_room))]
pub fn write_line(text: &mut Writer<'_>, nth: u32, host: u32, names: &[u8], line: &[u8])
    requires { HasRoom text.old line_room }
    ensures { Writes text.old (line_text nth host names.now line.now) text.new }
{
    let answer = cookie_import(host, names, text_of(line));
    text.write_number(nth, b':');
    text.write_bytes(b" ");
    if answer.number == ACCEPTED {
        write_settled(text, host, answer);
    } else {
        write_refusal(text, answer.number);
    }
}
