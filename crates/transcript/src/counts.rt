// How many records were accepted and how many refused.
ghost use Rattle.std.specs.Prelude.{◌≡◌, ◌+◌, ◌<◌};

#[derive(Clone, Copy)]
pub struct Counts {
    pub accepted: u32,
    pub refused: u32,
}

impl Counts {
    ghost use Rattle.transcript.specs.Input.{input_limit, counted};

    // The counts after one more record, whose answer has this number.
    pub fn counted(self, number: u32) -> Counts
        requires { self.accepted + self.refused < input_limit }
        ensures { result ≡ counted self number }
    {
        if number == records::ACCEPTED {
            Counts {
                accepted: self.accepted + 1,
                ..self
            }
        } else {
            Counts {
                refused: self.refused + 1,
                ..self
            }
        }
    }
}
