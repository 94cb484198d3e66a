// Where a connection does not carry a journey.
use policy::label_refusal::LabelRefusal;

// The place of the first URL that it does not take, why labels forbid it, the URL that is asked for there, and whether the set that lacks
// the endpoint is the URL's.
#[derive(Clone, Copy, Debug, PartialEq, Eq)]
pub struct Failure {
    pub place: usize,
    pub forbidden: LabelRefusal,
    pub url: usize,
    pub of_url: bool,
}
