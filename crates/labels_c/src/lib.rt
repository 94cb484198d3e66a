// The two questions of sets for C and other languages, liblabels.a: include/labels.h.
#![tactic(auto)]

ghost use Rattle.std.specs.Prelude.{◌≡◌};
ghost use Rattle.labels.specs.Sets.{holds, missing};

#[unsafe(no_mangle)]
pub extern "C" fn labels_missing(a: u32, b: u32) -> u32
    ensures { result ≡ missing a b }
{
    labels::labels_missing(a, b)
}

#[unsafe(no_mangle)]
pub extern "C" fn labels_holds(set: u32, endpoint: u32) -> bool
    ensures { result ≡ holds set endpoint }
{
    labels::labels_holds(set, endpoint)
}
