// What an accepted record did.
ghost use Rattle.std.specs.Prelude.{◌≡◌};

use session::Output;

// The bytes of requests that it wrote, and the script steps that it ran.
#[derive(Clone, Copy, Debug, PartialEq, Eq)]
pub struct Done {
    pub bytes: usize,
    pub steps: u32,
}

impl Done {
    pub fn of(out: &Output<'_>, steps: u32) -> Done
        ensures bytes { result.bytes ≡ out.now.at }
        ensures steps { result.steps ≡ steps }
    {
        Done {
            bytes: out.written(),
            steps,
        }
    }
}
