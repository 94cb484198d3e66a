// How wide a policy is (document 01, "A reach table"): how many URLs each connection reaches, and how many all of them. A connection is document 01's
// lane.
#![tactic(auto)]

ghost use Rattle.std.specs.Prelude.{◌≡◌, map, ◌<◌, ◌≤◌, length, get_or};
ghost use Rattle.prelude.specs.Lists.{numbers};
ghost use Rattle.prelude.specs.Sums.{sum_below};
ghost use Rattle.machine.specs.Policy.{url_rows, connections};
ghost use Rattle.reach_table.specs.Reach.{reaches, reach, tabled, in_table};

use labels::{Bits, EndpointSet};
use policy::Policy;
use policy::words::{CONNECTIONS, URL_ROWS};
use std::array;

// The number of a policy that is not refused.
pub const ACCEPTED: u32 = 0;

// The policy has another length, or is not well formed.
pub const POLICY_BAD: u32 = 2;

// What is answered: 0, for each connection how many URLs it reaches, and their sum; or 2 and zeros.
#[repr(C)]
#[derive(Clone, Copy)]
pub struct ReachTable {
    pub number: u32,
    pub urls: [u32; CONNECTIONS],
    pub all: u32,
}

// Whether a row is not empty and a connection fits it, as it stands.
#[tactic(auto, unfolding(crate::specs::Reach::reaches))]
fn reaches<S: EndpointSet>(policy: Policy<'_, S>, connection: usize, url: usize) -> bool
    requires { connection < connections }
    ensures { result ≡ reaches policy.entry.words.now connection url }
{
    if policy.is_url(url) {
        return policy.fits(connection, url);
    }
    false
}

fn reach<S: EndpointSet>(policy: Policy<'_, S>, connection: usize) -> u32
    requires { connection < connections }
    ensures { result ≡ reach policy.entry.words.now connection }
{
    (0..URL_ROWS)
        .map(|url| u32::from(reaches(policy, connection, url)))
        .sum()
}

fn reach_of_each<S: EndpointSet>(policy: Policy<'_, S>) -> [u32; CONNECTIONS]
    ensures { result ≡ map (reach policy.entry.words.now) (numbers 0 connections) }
{
    array::from_fn(|connection| reach(policy, connection))
}

// The sum of the counts, none of which is above the number of rows.
fn total(urls: &[u32; CONNECTIONS]) -> u32
    requires { (n : _) → n < connections → get_or urls.now n 0 ≤ url_rows }
    ensures { result ≡ sum_below connections (λ n. get_or urls.now n 0) }
{
    urls.iter().sum()
}

// Counts the URLs that each connection of a policy reaches: include/reach_table.h. Every length and content is answered.
#[unsafe(no_mangle)]
pub extern "C" fn reach_count(policy: &[u32]) -> ReachTable
    ensures { result ≡ tabled policy.now }
{
    let Some(policy) = Policy::<Bits>::parse(policy) else {
        return ReachTable {
            number: POLICY_BAD,
            urls: [0; CONNECTIONS],
            all: 0,
        };
    };
    let urls = reach_of_each(policy);
    let all = total(&urls);
    ReachTable {
        number: ACCEPTED,
        urls,
        all,
    }
}

// Whether a URL is counted for a connection. Every length, content and number is answered.
#[unsafe(no_mangle)]
#[tactic(auto, unfolding(crate::specs::Reach::in_table))]
pub extern "C" fn reach_fits(policy: &[u32], connection: u32, url: u32) -> bool
    ensures { result ≡ in_table policy.now connection url }
{
    let Some(policy) = Policy::<Bits>::parse(policy) else {
        return false;
    };
    (connection as usize) < CONNECTIONS && reaches(policy, connection as usize, url as usize)
}
