// Why nothing is answered of a journey.
ghost use Rattle.std.specs.Prelude.{◌≡◌};
ghost use Rattle.journeys.specs.Answers.{number_of};

use super::{CONNECTION_UNKNOWN, JOURNEY_BAD, POLICY_BAD};

// The refusals, in their order.
#[derive(Clone, Copy, Debug, PartialEq, Eq)]
pub enum JourneyError {
    PolicyBad,
    JourneyBad,
    ConnectionUnknown,
}

impl JourneyError {
    pub fn number(self) -> u32
        ensures { result ≡ number_of self }
    {
        match self {
            JourneyError::PolicyBad => POLICY_BAD,
            JourneyError::JourneyBad => JOURNEY_BAD,
            JourneyError::ConnectionUnknown => CONNECTION_UNKNOWN,
        }
    }
}
