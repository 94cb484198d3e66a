// The words of a policy by name. Each word that is a set becomes one here, of the kind that is asked for.
ghost use Rattle.std.specs.Prelude.{◌≡◌, ◌<◌, leb, ltb, not, eqb, is_some, unwrap_or};
ghost use Rattle.labels.specs.Membership.{endpoints};
ghost use Rattle.labels.specs.Addresses.{hosts};
ghost use Rattle.labels.specs.Sets.{holds};
ghost use Rattle.machine.specs.Policy.{url_rows, host_keys, connections, cookie_index, no_partner};
ghost use Rattle.machine.specs.Policy.{address_word, is_entry, url_address, url_readers, url_writers, cookie_readers, cookie_writers};
ghost use Rattle.machine.specs.Policy.{connection_readers, script_readers, connection_writers, https_hosts, url_partner};

use labels::EndpointSet;

pub const URL_ROWS: usize = 64;

pub const HOSTS: usize = labels::addresses::HOSTS as usize;

// The keys of a host's cookies are below this.
pub const HOST_KEYS: usize = 8;

pub const CONNECTIONS: usize = 32;

pub const COOKIE_LABELS_AT: usize = 3 * URL_ROWS;

const CONNECTION_LABELS_AT: usize = COOKIE_LABELS_AT + 2 * (HOSTS * HOST_KEYS);

const HTTPS_HOSTS_AT: usize = CONNECTION_LABELS_AT + 3 * CONNECTIONS;

pub const PARTNERS_AT: usize = HTTPS_HOSTS_AT + 1;

pub const WORDS: usize = PARTNERS_AT + URL_ROWS;

// By how much the word of an entry is above its address.
pub const ENTRY: u32 = 32;

// The words of addresses are below this.
const ADDRESSES_END: u32 = 2 * ENTRY;

// What stands in the place of a partner where a row has none.
pub const NO_PARTNER: u32 = 255;

// The word of a URL's address: 32 more where it is an entry, and 255 in an empty row.
pub fn address_word(policy: &[u32; WORDS], url: usize) -> u32
    requires { url < url_rows }
    ensures { result ≡ address_word policy.now url }
{
    policy[3 * url]
}

pub fn is_entry(policy: &[u32; WORDS], url: usize) -> bool
    requires { url < url_rows }
    ensures { result ≡ is_entry policy.now url }
{
    address_word(policy, url) / ENTRY == 1
}

// Whether a row has no address, neither an entry's nor another's.
pub fn lacks_address(policy: &[u32; WORDS], url: usize) -> bool
    requires { url < url_rows }
    ensures { result ≡ leb endpoints (url_address policy.now url) }
{
    ADDRESSES_END <= address_word(policy, url)
}

// Whether a row has an address by http. The compiler makes one test of both parts.
pub fn by_http(policy: &[u32; WORDS], url: usize) -> bool
    requires { url < url_rows }
    ensures { result ≡ ltb (url_address policy.now url) hosts }
{
    !lacks_address(policy, url) & (address_word(policy, url) / labels::addresses::HOSTS % 2 == 0)
}

pub fn url_address(policy: &[u32; WORDS], url: usize) -> u32
    requires { (url < url_rows) × (url_address policy.now url < endpoints) }
    ensures { result ≡ url_address policy.now url }
{
    address_word(policy, url) % ENTRY
}

pub fn url_readers<S: EndpointSet>(policy: &[u32; WORDS], url: usize) -> S
    requires { url < url_rows }
    ensures { S.members result ≡ holds (url_readers policy.now url) }
{
    S::from_word(policy[3 * url + 1])
}

pub fn url_writers<S: EndpointSet>(policy: &[u32; WORDS], url: usize) -> S
    requires { url < url_rows }
    ensures { S.members result ≡ holds (url_writers policy.now url) }
{
    S::from_word(policy[3 * url + 2])
}

// A cookie is named by its host and its key.
pub fn cookie_readers<S: EndpointSet>(policy: &[u32; WORDS], host: usize, key: usize) -> S
    requires { (host < hosts) × (key < host_keys) }
    ensures { S.members result ≡ holds (cookie_readers policy.now (cookie_index host key)) }
{
    S::from_word(policy[COOKIE_LABELS_AT + 2 * (HOST_KEYS * host + key)])
}

pub fn cookie_writers<S: EndpointSet>(policy: &[u32; WORDS], host: usize, key: usize) -> S
    requires { (host < hosts) × (key < host_keys) }
    ensures { S.members result ≡ holds (cookie_writers policy.now (cookie_index host key)) }
{
    S::from_word(policy[COOKIE_LABELS_AT + 2 * (HOST_KEYS * host + key) + 1])
}

pub fn connection_readers<S: EndpointSet>(policy: &[u32; WORDS], connection: usize) -> S
    requires { connection < connections }
    ensures { S.members result ≡ holds (connection_readers policy.now connection) }
{
    S::from_word(policy[CONNECTION_LABELS_AT + 3 * connection])
}

pub fn script_readers<S: EndpointSet>(policy: &[u32; WORDS], connection: usize) -> S
    requires { connection < connections }
    ensures { S.members result ≡ holds (script_readers policy.now connection) }
{
    S::from_word(policy[CONNECTION_LABELS_AT + 3 * connection + 1])
}

pub fn connection_writers<S: EndpointSet>(policy: &[u32; WORDS], connection: usize) -> S
    requires { connection < connections }
    ensures { S.members result ≡ holds (connection_writers policy.now connection) }
{
    S::from_word(policy[CONNECTION_LABELS_AT + 3 * connection + 2])
}

// The word of the hosts that are always https, and the set of their http endpoints, which it is.
pub fn https_word(policy: &[u32; WORDS]) -> u32
    ensures { result ≡ https_hosts policy.now }
{
    policy[HTTPS_HOSTS_AT]
}

pub fn https_hosts<S: EndpointSet>(policy: &[u32; WORDS]) -> S
    ensures { S.members result ≡ holds (https_hosts policy.now) }
{
    S::from_word(https_word(policy))
}

// The partner of a URL, if the policy names one. 255 in its place names none.
pub fn url_partner(policy: &[u32; WORDS], url: usize) -> Option<usize>
    requires { url < url_rows }
    ensures told { unwrap_or result no_partner ≡ url_partner policy.now url }
    ensures some { is_some result ≡ not (eqb (url_partner policy.now url) no_partner) }
{
    let partner = policy[PARTNERS_AT + url];
    if partner == NO_PARTNER {
        None
    } else {
        Some(partner as usize)
    }
}
