// Whether a policy is well formed (document 01, "The policy"): refusal 2.
ghost use Rattle.std.specs.Prelude.{◌≡◌, true, ◌&&◌, ◌+◌, ◌*◌, ◌^◌, ◌<◌, ◌≤◌, eqb, ltb, get_or};
ghost use Rattle.labels.specs.Membership.{endpoints, all_below};
ghost use Rattle.labels.specs.Addresses.{hosts};
ghost use Rattle.machine.specs.Policy.{policy_words, url_rows, connections, url_address, https_hosts};
ghost use Rattle.machine.specs.Policy.{empty_row, row_well_formed, connection_well_formed, is_replaced, is_partner, partner_well_formed, well_formed};
ghost use Rattle.policy.specs.Given.{WellFormed};

use super::words::{
    CONNECTIONS, URL_ROWS, WORDS, address_word, by_http, connection_readers, https_hosts,
    https_word, lacks_address, script_readers, url_address, url_partner, url_readers,
};
use labels::EndpointSet;
use labels::addresses::{HOSTS, event_set};

// What stands in the place of an address in an empty row, whose sets are empty.
const NO_ADDRESS: u32 = 255;

// A word of hosts is below this: it has no bit but theirs.
const HOSTS_END: u32 = 0x1_0000;

// Rows are asked in groups of so many.
const GROUP: usize = 8;

fn row_empty(policy: &[u32; WORDS], url: usize) -> bool
    requires { url < url_rows }
    ensures { result ≡ empty_row policy.now url }
{
    let row = 3 * url;
    (policy[row] == NO_ADDRESS) & (policy[row + 1] == 0) & (policy[row + 2] == 0)
}

fn row_well_formed<S: EndpointSet>(policy: &[u32; WORDS], url: usize) -> bool
    requires { url < url_rows }
    ensures { result ≡ row_well_formed policy.now url }
{
    if lacks_address(policy, url) {
        return row_empty(policy, url);
    }
    event_set::<S>(url_address(policy, url)).within(url_readers(policy, url))
}

// Two words that lie side by side as one, which the compiler reads at once.
fn pair(policy: &[u32; WORDS], at: usize) -> u64
    requires { at + 2 ≤ policy_words }
    ensures { result ≡ get_or policy.now at 0 + get_or policy.now (at + 1) 0 * 4294967296 }
{
    u64::from(policy[at]) + u64::from(policy[at + 1]) * 0x1_0000_0000
}

// In what two rows differ from two empty ones, whose words are 255, 0, 0, 255, 0, 0: 0 where they are empty.
fn two_rows_left(policy: &[u32; WORDS], first: usize) -> u64
    requires { first + 2 ≤ url_rows }
    ensures { eqb result 0 ≡ empty_row policy.now first && empty_row policy.now (first + 1) }
{
    let at = 3 * first;
    (pair(policy, at) ^ 0xff) | (pair(policy, at + 2) ^ 0xff_0000_0000) | pair(policy, at + 4)
}

fn group_empty(policy: &[u32; WORDS], first: usize) -> bool
    requires { first + 8 ≤ url_rows }
    ensures { result ≡ all_below 8 (λ i. empty_row policy.now (first + i)) }
{
    two_rows_left(policy, first)
        | two_rows_left(policy, first + 2)
        | two_rows_left(policy, first + 4)
        | two_rows_left(policy, first + 6)
        == 0
}

// A policy with few URLs has groups of empty rows, which are quicker asked at once.
fn group_well_formed<S: EndpointSet>(policy: &[u32; WORDS], first: usize) -> bool
    requires { first + 8 ≤ url_rows }
    ensures { result ≡ all_below 8 (λ i. row_well_formed policy.now (first + i)) }
{
    if address_word(policy, first) == NO_ADDRESS && group_empty(policy, first) {
        return true;
    }
    (first..first + GROUP).all(|url| row_well_formed::<S>(policy, url))
}

fn rows_well_formed<S: EndpointSet>(policy: &[u32; WORDS]) -> bool
    ensures { result ≡ all_below url_rows (row_well_formed policy.now) }
{
    (0..URL_ROWS / GROUP).all(|group| group_well_formed::<S>(policy, GROUP * group))
}

// No exit, so that the compiler asks several connections at once: with `all` here and below a policy with few URLs takes half as long again.
fn connections_well_formed<S: EndpointSet>(policy: &[u32; WORDS]) -> bool
    ensures { result ≡ all_below connections (connection_well_formed policy.now) }
{
    let mut passed = true;
    for connection in 0..CONNECTIONS {
        let readers = connection_readers(policy, connection);
        passed = script_readers::<S>(policy, connection).within(readers) & passed;
    }
    passed
}

// Where no host is listed: whether no URL has a partner. No exit, as above.
fn no_partners(policy: &[u32; WORDS]) -> bool
    requires { https_hosts policy.now ≡ 0 }
    ensures { result ≡ all_below url_rows (partner_well_formed policy.now) }
{
    let mut passed = true;
    for url in 0..URL_ROWS {
        passed = url_partner(policy, url).is_none() & passed;
    }
    passed
}

// Whether a URL is by http, at a host that is always https.
fn is_replaced<S: EndpointSet>(policy: &[u32; WORDS], url: usize) -> bool
    requires { url < url_rows }
    ensures { result ≡ is_replaced policy.now url }
{
    if !by_http(policy, url) {
        return false;
    }
    event_set::<S>(url_address(policy, url)).within(https_hosts(policy))
}

// Whether a number names a URL by https at the host of `url`.
fn is_partner(policy: &[u32; WORDS], url: usize, partner: usize) -> bool
    requires { (url < url_rows) × (url_address policy.now url < endpoints) }
    ensures { result ≡ is_partner policy.now url partner }
{
    if URL_ROWS <= partner {
        return false;
    }
    if lacks_address(policy, partner) {
        return false;
    }
    url_address(policy, partner) == HOSTS + url_address(policy, url) % HOSTS
}

fn partner_well_formed<S: EndpointSet>(policy: &[u32; WORDS], url: usize) -> bool
    requires { url < url_rows }
    ensures { result ≡ partner_well_formed policy.now url }
{
    let replaced = is_replaced::<S>(policy, url);
    match url_partner(policy, url) {
        Some(partner) => replaced && is_partner(policy, url, partner),
        None => !replaced,
    }
}

fn partners_well_formed<S: EndpointSet>(policy: &[u32; WORDS]) -> bool
    ensures { result ≡ all_below url_rows (partner_well_formed policy.now) }
{
    (0..URL_ROWS).all(|url| partner_well_formed::<S>(policy, url))
}

// Where no host is listed, as in policy P, the partners are asked without looking at the rows.
fn https_well_formed<S: EndpointSet>(policy: &[u32; WORDS]) -> bool
    ensures { result
        ≡ ltb (https_hosts policy.now) (2 ^ hosts) && all_below url_rows (partner_well_formed policy.now) }
{
    let hosts = https_word(policy);
    if hosts == 0 {
        return no_partners(policy);
    }
    (hosts < HOSTS_END) & partners_well_formed::<S>(policy)
}

pub fn well_formed<S: EndpointSet>(policy: &[u32; WORDS]) -> bool
    ensures { (result ≡ well_formed policy.now) × (result ≡ true → WellFormed policy.now) }
{
    // Hosts and partners are asked last, apart from the others: one chain of `&` over all three makes a policy with few URLs a tenth slower.
    (rows_well_formed::<S>(policy) & connections_well_formed::<S>(policy))
        && https_well_formed::<S>(policy)
}
