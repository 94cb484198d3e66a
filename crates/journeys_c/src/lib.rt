// Which connection carries a journey, for C and other languages, libjourneys.a: include/journeys.h.
#![tactic(auto)]

ghost use Rattle.std.specs.Prelude.{◌≡◌};
ghost use Rattle.journeys.specs.Journey.{found, stopped};

use journeys::{Found, Stop};

#[unsafe(no_mangle)]
pub extern "C" fn journey_find(policy: &[u32], urls: &[u8]) -> Found
    ensures { result ≡ found policy.now urls.now }
{
    journeys::journey_find(policy, urls)
}

#[unsafe(no_mangle)]
pub extern "C" fn journey_stop(policy: &[u32], urls: &[u8], connection: u32) -> Stop
    ensures { result ≡ stopped policy.now urls.now connection }
{
    journeys::journey_stop(policy, urls, connection)
}
