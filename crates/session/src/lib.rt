// The session (document 01, "The state" and "What each accepted record does"): the 176 words that the caller lends, and what is done to
// them. A connection is document 01's lane.
#![tactic(auto)]

pub use kinds::Kind;
pub use output::Output;
pub use pending::Pending;
pub use state::Session;

pub mod cookies;
pub mod kinds;
pub mod output;
pub mod pending;
pub mod requests;
pub mod soundness;
pub mod state;
pub mod words;
