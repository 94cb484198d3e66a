// Sets of endpoints, and the endpoints of an address (document 01, "Marks and sets").
#![tactic(auto)]

ghost use Rattle.std.specs.Prelude.{◌≡◌};
ghost use Rattle.labels.specs.Sets.{holds, missing};

pub use bits::Bits;
pub use sets::EndpointSet;

pub mod addresses;
mod bits;
mod sets;

// Endpoints are 0 to 31.
pub const LAST_ENDPOINT: u32 = 31;

// The number that tells C that no endpoint is missing.
pub const NONE_MISSING: u32 = 32;

// The two questions for C and other languages: include/labels.h.
#[unsafe(no_mangle)]
pub extern "C" fn labels_missing(a: u32, b: u32) -> u32
    ensures { result ≡ missing a b }
{
    Bits::from_word(a)
        .missing(Bits::from_word(b))
        .unwrap_or(NONE_MISSING)
}

#[unsafe(no_mangle)]
pub extern "C" fn labels_holds(set: u32, endpoint: u32) -> bool
    ensures { result ≡ holds set endpoint }
{
    Bits::from_word(set).holds(endpoint)
}
