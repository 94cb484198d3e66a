// The endpoints of an address, as sets, and those of a host, as a word (document 01, "Marks and sets").
ghost use Rattle.std.specs.Prelude.{◌≡◌, ℕ};
ghost use Rattle.labels.specs.Sets.{holds};
ghost use Rattle.labels.specs.Addresses.{message_set, event_set, host_endpoints};

use super::{EndpointSet, LAST_ENDPOINT};

// The http addresses are the hosts, 0 to 15, and the https addresses follow in the same order.
pub const HOSTS: u32 = 16;

// The set of an address's message endpoint, the address itself; empty where the address is above 31.
pub fn message_set<S: EndpointSet>(address: u32) -> S
    ensures { S.members result ≡ holds (message_set address) }
{
    S::only(address)
}

// The set of an address's event endpoint, http at its host; empty where the address is above 31.
pub fn event_set<S: EndpointSet>(address: u32) -> S
    ensures { S.members result ≡ holds (event_set address) }
{
    if LAST_ENDPOINT < address {
        return S::EMPTY;
    }
    S::only(address % HOSTS)
}

// The endpoints of a host as a word: https there, and http unless https alone is asked for; 0 where the host is above 15.
pub fn host_endpoints(host: u32, https_alone: bool) -> u32
    ensures { (endpoint : ℕ) → holds result endpoint ≡ host_endpoints host https_alone endpoint }
{
    if HOSTS <= host {
        return 0;
    }
    let https = 1 << (HOSTS + host);
    if https_alone {
        return https;
    }
    https + (1 << host)
}
