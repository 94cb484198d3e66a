// The bits that say what a record carries.
ghost use Rattle.std.specs.Prelude.{◌≡◌, ◌<◌, ◌≤◌};
ghost use Rattle.std.specs.Int.Count.{ones};
ghost use Rattle.records.specs.Bytes.{bit};
ghost use Rattle.records.specs.Reading.{on};

// The bit of the map for each field that not every record carries. URL and connection have bits 0 and 1, and every map has both.
pub const COOKIES: usize = 2;

pub const SCRIPT: usize = 3;

pub const VALUE: usize = 4;

pub const TARGET: usize = 5;

// Whether bit k of a map is set. Over 32 bits, as the monitor asks for a key, so that the compiler sees the same question and asks it once.
pub fn is_set(map: u8, k: usize) -> bool
    requires { k < 8 }
    ensures { on result ≡ bit map k }
{
    u32::from(map) >> k & 1 == 1
}

// How many keys are set, and so how many cookie values follow.
pub fn count_keys(keys: u8) -> usize
    ensures { (result ≡ ones keys) × (result ≤ 8) }
{
    keys.count_ones() as usize
}
