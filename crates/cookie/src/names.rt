// The names of a host's keys: eight of 16 bytes, one after another. A name ends before its first zero byte, or has all 16.
ghost use Rattle.std.specs.Prelude.{◌≡◌, ◌<◌, length};
ghost use Rattle.prelude.specs.Lists.{same_numbers};
ghost use Rattle.cookie.specs.Parts.{before};
ghost use Rattle.cookie.specs.Import.{names_bytes, key_of_name};

use policy::words::HOST_KEYS;

pub const NAME_BYTES: usize = 16;

pub const NAMES_BYTES: usize = HOST_KEYS * NAME_BYTES;

// Whether a key's 16 bytes are a name.
fn is_name(field: &[u8; NAME_BYTES], name: &[u8]) -> bool
    ensures { result ≡ same_numbers (before 0 field.now) name.now }
{
    field.iter().take_while(|&&byte| byte != 0).eq(name)
}

// The lowest key that has a name, where one has it. The name is not empty, so that the empty names of keys are nobody's.
pub fn key_named(names: &[u8], name: &[u8]) -> Option<usize>
    requires { (length names.now ≡ names_bytes) × (0 < length name.now) }
    ensures { result ≡ key_of_name names.now name.now }
{
    let (fields, _) = names.as_chunks::<NAME_BYTES>();
    fields.iter().position(|field| is_name(field, name))
}
