// Which connection carries a journey (document 01, "Find a lane for a journey"): URLs gone to one after another, the first by a load and each further
// one by a redirect. A connection is document 01's lane.
#![tactic(auto)]

ghost use Rattle.std.specs.Prelude.{◌≡◌, ◌<◌, IfOk, IfSome};
ghost use Rattle.machine.specs.Policy.{connections};
ghost use Rattle.journeys.specs.Journey.{found, stopped};
ghost use Rattle.journeys.specs.Answers.{found_by, stopped_by};

pub mod error;
pub mod failure;
pub mod legs;
pub mod search;
pub mod stops;

use error::JourneyError;
use labels::Bits;
use legs::Journey;
use policy::words::CONNECTIONS;

// The number of a journey that nothing refuses.
pub const ACCEPTED: u32 = 0;

// The policy has another length, or is not well formed.
pub const POLICY_BAD: u32 = 2;

// The journey is empty or too long, or a number in it names no URL.
pub const JOURNEY_BAD: u32 = 17;

// The connection is none of the 32.
pub const CONNECTION_UNKNOWN: u32 = 6;

// The most URLs of a journey.
pub const MOST_URLS: usize = 16;

// What is answered in place of a connection where none carries the journey.
pub const NO_CONNECTION: u32 = CONNECTIONS as u32;

// What is answered: 0 and a connection, or `NO_CONNECTION`; or the number of the first refusal that fits, and 0.
#[repr(C)]
#[derive(Clone, Copy)]
pub struct Found {
    pub number: u32,
    pub connection: u32,
}

fn find(policy: &[u32], urls: &[u8]) -> Result<Option<usize>, JourneyError>
    ensures found { found_by result ≡ found policy.now urls.now }
    ensures one { IfOk result (λ carrier. IfSome carrier (λ c. c < connections)) }
{
    let journey = Journey::<Bits>::parse(policy, urls)?;
    Ok(journey.lowest_carrier())
}

// Tells the lowest connection that carries a journey: include/journeys.h. Every length and content is answered.
#[unsafe(no_mangle)]
pub extern "C" fn journey_find(policy: &[u32], urls: &[u8]) -> Found
    ensures { result ≡ found policy.now urls.now }
{
    match find(policy, urls) {
        Ok(Some(connection)) => Found {
            number: ACCEPTED,
            connection: connection as u32,
        },
        Ok(None) => Found {
            number: ACCEPTED,
            connection: NO_CONNECTION,
        },
        Err(error) => Found {
            number: error.number(),
            connection: 0,
        },
    }
}

// Where and why a connection stops: 0, the place of the first URL that it does not take, the number by which labels forbid it, the missing endpoint,
// the URL that is asked for there, and 1 where the set that lacks the endpoint is the URL's. Where it carries the journey: 0, the length, 0,
// `NONE_MISSING`, 0 and 0. Or the number of the first refusal that fits, and zeros.
#[repr(C)]
#[derive(Clone, Copy)]
pub struct Stop {
    pub number: u32,
    pub place: u32,
    pub refusal: u32,
    pub missing: u32,
    pub url: u32,
    pub of_url: u32,
}

fn find_stop(policy: &[u32], urls: &[u8], connection: u32) -> Result<Stop, JourneyError>
    ensures { stopped_by result ≡ stopped policy.now urls.now connection }
{
    let journey = Journey::<Bits>::parse(policy, urls)?;
    if NO_CONNECTION <= connection {
        return Err(JourneyError::ConnectionUnknown);
    }
    Ok(journey.stop(connection as usize))
}

// Tells where and why a connection stops on a journey: include/journeys.h. Every length, content and number is answered.
#[unsafe(no_mangle)]
pub extern "C" fn journey_stop(policy: &[u32], urls: &[u8], connection: u32) -> Stop
    ensures { result ≡ stopped policy.now urls.now connection }
{
    match find_stop(policy, urls, connection) {
        Ok(stop) => stop,
        Err(error) => Stop {
            number: error.number(),
            place: 0,
            refusal: 0,
            missing: 0,
            url: 0,
            of_url: 0,
        },
    }
}
