// What is asked of a record's maps and of its fields.
ghost use Rattle.std.specs.Prelude.{◌≡◌, ℕ, ◌*◌, ◌^◌, ◌<◌, eqb, ltb};
ghost use Rattle.records.specs.Bytes.{bit};
ghost use Rattle.records.specs.Layout.{maps, longest, widths, values, fit_widths};
ghost use Rattle.records.specs.Codec.{is_one_of, no_key_set, carriable};
ghost use Rattle.records.specs.Places.{cookie_widths};
ghost use Rattle.records.specs.Reading.{on};

use super::layout::{COOKIES, SCRIPT, TARGET, VALUE, is_set};
use super::{Direction, Record};

// Every record begins with the map byte, URL and connection. The longest go on with cookies of every key; an input then has a value, and a
// request a handler.
const FRONT: usize = 3;

pub const SHORTEST_REQUEST: usize = FRONT;

const ALL_COOKIES: usize = 1 + 4 * 8;

pub const LONGEST_INPUT: usize = FRONT + ALL_COOKIES + 4;

pub const LONGEST_REQUEST: usize = FRONT + ALL_COOKIES + 1;

impl Direction {
    // Whether the direction has this map. Each is compared, where `matches!` with all of them reads better (tried; the proof did not close: after an
    // arm of several numbers nothing is known of the others).
    pub fn has_map(self, map: u8) -> bool
        ensures { result ≡ is_one_of map (maps self) }
    {
        match self {
            // load; document response, script response, redirect and picture response, each without cookies and with them
            Direction::Input => {
                (map == 0x03)
                    | (map == 0x0b)
                    | (map == 0x0f)
                    | (map == 0x13)
                    | (map == 0x17)
                    | (map == 0x23)
                    | (map == 0x27)
                    | (map == 0x43)
                    | (map == 0x47)
            }
            // document request, script request and picture request, each without cookies and with them
            Direction::Request => {
                (map == 0x03)
                    | (map == 0x07)
                    | (map == 0x0b)
                    | (map == 0x0f)
                    | (map == 0x43)
                    | (map == 0x47)
            }
        }
    }

    // How many bytes the longest record of a direction has.
    pub fn longest(self) -> usize
        ensures { result ≡ longest self }
    {
        match self {
            Direction::Input => LONGEST_INPUT,
            Direction::Request => LONGEST_REQUEST,
        }
    }
}

// Whether cookies are carried and no key is set.
pub fn no_key_set(map: u8, keys: u8) -> bool
    ensures { result ≡ no_key_set map keys }
{
    is_set(map, COOKIES) & (keys == 0)
}

// What is left over of a value that is not carried: the value itself; 0 where it is carried. So it is 0 just where the
// value fits the bytes that the layout gives it: none, or as many as its type needs. Numbers, so that one comparison ends all of them (tried: with
// Booleans and `&` encoding a record without cookies takes a quarter longer, with `all` half as long again).
fn stray(carried: bool, value: u32) -> u32
    ensures { (w : ℕ) → value < 256 ^ w → eqb result 0 ≡ ltb value (256 ^ (w * on carried)) }
{
    if carried { 0 } else { value }
}

// The same of the eight cookie values.
fn stray_cookies(keys: u8, values: [u32; 8]) -> u32
    ensures { eqb result 0 ≡ fit_widths (cookie_widths keys) values }
{
    let mut all = 0u32;
    for (key, value) in values.iter().enumerate() {
        all |= stray(is_set(keys, key), *value);
    }
    all
}

// Whether the fields that are not carried are all 0; URL and connection always are carried.
fn fields_fit(fields: Record) -> bool
    requires { (bit fields.map 0 ≡ 1) × (bit fields.map 1 ≡ 1) }
    ensures { result ≡ fit_widths (widths fields.map fields.keys) (values fields) }
{
    let map = fields.map;
    stray(is_set(map, COOKIES), u32::from(fields.keys))
        | stray_cookies(fields.keys, fields.cookies)
        | stray(is_set(map, SCRIPT), u32::from(fields.script))
        | stray(is_set(map, VALUE), fields.value)
        | stray(is_set(map, TARGET), u32::from(fields.target))
        == 0
}

// Whether a map of the direction carries these fields, and every other is 0.
pub fn carriable(direction: Direction, fields: Record) -> bool
    ensures { result ≡ carriable direction fields }
{
    if !direction.has_map(fields.map) {
        return false;
    }
    if no_key_set(fields.map, fields.keys) {
        return false;
    }
    fields_fit(fields)
}
