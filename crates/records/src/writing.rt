// Writing a record from left to right.
ghost use Rattle.std.specs.Prelude.{◌≡◌, ◌*◌, [], ◌∷◌};
ghost use Rattle.records.specs.Bytes.{bit, digits};
ghost use Rattle.records.specs.Layout.{join};
ghost use Rattle.records.specs.Codec.{bytes_of};
ghost use Rattle.records.specs.Places.{front_widths, cookie_widths, back_widths};
ghost use Rattle.records.specs.Reading.{on};
ghost use Rattle.records.specs.Writing.{Room, Wrote};

use super::Record;
use super::layout::{COOKIES, SCRIPT, TARGET, VALUE, is_set};

// A buffer, and the place in it where writing goes on.
#[derive(Drop)]
pub struct Writer<'a> {
    out: &'a mut [u8],
    pub at: usize,
}

impl<'a> Writer<'a> {
    pub fn new(out: &'a mut [u8]) -> Writer<'a>
        ensures same_memory { result.out.ghost_name ≡ out.entry.ghost_name }
        ensures bytes { result.out.now ≡ out.old }
        ensures at { result.at ≡ 0 }
    {
        Writer { out, at: 0 }
    }

    fn put(&mut self, bytes: &[u8])
        requires { Room self.old.at self.old.out.now bytes.now }
        ensures same_memory { self.new.out.ghost_name ≡ self.old.out.ghost_name }
        ensures wrote { Wrote self.old.at self.old.out.now bytes.now self.new.at self.new.out.now }
    {
        let end = self.at + bytes.len();
        self.out[self.at..end].copy_from_slice(bytes);
        self.at = end;
    }

    fn byte(&mut self, carried: bool, value: u8)
        requires { Room self.old.at self.old.out.now (digits (on carried) value) }
        ensures same_memory { self.new.out.ghost_name ≡ self.old.out.ghost_name }
        ensures wrote { Wrote self.old.at self.old.out.now (digits (on carried) value) self.new.at self.new.out.now }
    {
        if carried {
            self.put(&[value]);
        }
    }

    fn word(&mut self, carried: bool, value: u32)
        requires { Room self.old.at self.old.out.now (digits (4 * on carried) value) }
        ensures same_memory { self.new.out.ghost_name ≡ self.old.out.ghost_name }
        ensures wrote { Wrote self.old.at self.old.out.now (digits (4 * on carried) value) self.new.at self.new.out.now }
    {
        if carried {
            self.put(&value.to_be_bytes());
        }
    }

    // The values of the keys that are set.
    fn cookies(&mut self, keys: u8, values: [u32; 8])
        requires { Room self.old.at self.old.out.now (join (cookie_widths keys) values) }
        ensures same_memory { self.new.out.ghost_name ≡ self.old.out.ghost_name }
        ensures wrote { Wrote self.old.at self.old.out.now (join (cookie_widths keys) values) self.new.at self.new.out.now }
    {
        for (key, value) in values.iter().enumerate() {
            self.word(is_set(keys, key), *value);
        }
    }

    // A record, which has a URL and a connection.
    pub fn record(&mut self, fields: Record)
        requires front { (bit fields.map 0 ≡ 1) × (bit fields.map 1 ≡ 1) }
        requires room { Room self.old.at self.old.out.now (bytes_of fields) }
        ensures same_memory { self.new.out.ghost_name ≡ self.old.out.ghost_name }
        ensures wrote { Wrote self.old.at self.old.out.now (bytes_of fields) self.new.at self.new.out.now }
    {
        let map = fields.map;
        self.put(&[map, fields.url, fields.connection]);
        self.byte(is_set(map, COOKIES), fields.keys);
        self.cookies(fields.keys, fields.cookies);
        self.byte(is_set(map, SCRIPT), fields.script);
        self.word(is_set(map, VALUE), fields.value);
        self.byte(is_set(map, TARGET), fields.target);
    }
}
