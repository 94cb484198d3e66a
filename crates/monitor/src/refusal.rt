// Why a record is refused.
ghost use Rattle.std.specs.Prelude.{◌≡◌};
ghost use Rattle.monitor.specs.Refusals.{number_of, missing_of};
ghost use Rattle.monitor.specs.declared.refusal.Refusal.TheVariants as refusals;

use policy::label_refusal::LabelRefusal;
use records::DecodeError;

// The refusals, in the order of their tests.
#[derive(Clone, Copy, Debug, PartialEq, Eq)]
pub enum Refusal {
    OutputShort,
    PolicyBad,
    ScriptsBad,
    StateUnsound,
    Malformed(DecodeError),
    NameUnknown,
    NotAwaited,
    Labels(LabelRefusal),
}

impl Refusal {
    pub fn number(self) -> u32
        ensures { result ≡ number_of self }
    {
        match self {
            Refusal::OutputShort => 1,
            Refusal::PolicyBad => 2,
            Refusal::ScriptsBad => 3,
            Refusal::StateUnsound => 4,
            Refusal::Malformed(error) => error.number(),
            Refusal::NameUnknown => 6,
            Refusal::NotAwaited => 7,
            Refusal::Labels(refusal) => refusal.number(),
        }
    }

    // The endpoint that is missing, where labels forbid it.
    pub fn missing(self) -> Option<u32>
        ensures { result ≡ missing_of self }
    {
        match self {
            Refusal::Labels(refusal) => Some(refusal.missing()),
            _ => None,
        }
    }
}

impl From<DecodeError> for Refusal {
    ghost from_gives = { λ error refusal. refusal ≡ refusals.Malformed error };

    fn from(error: DecodeError) -> Refusal {
        Refusal::Malformed(error)
    }
}

impl From<LabelRefusal> for Refusal {
    ghost from_gives = { λ refused refusal. refusal ≡ refusals.Labels refused };

    fn from(refused: LabelRefusal) -> Refusal {
        Refusal::Labels(refused)
    }
}
