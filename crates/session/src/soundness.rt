// Whether a state is sound (document 01, "The state"): refusal 4.
ghost use Rattle.std.specs.Prelude.{◌≡◌, ◌&&◌, ◌||◌, ◌+◌, ◌<◌, ◌≤◌, eqb, length};
ghost use Rattle.labels.specs.Addresses.{hosts};
ghost use Rattle.labels.specs.Membership.{all_below};
ghost use Rattle.machine.specs.Policy.{host_keys, connections};
ghost use Rattle.machine.specs.Session.{state_words, presence, connection_word, has, free, cookie_sound, host_sound, connection_sound, sound};
ghost use Rattle.session.specs.Strays.{none_left};

use super::cookies::has;
use super::kinds::{is_bare, is_script};
use super::pending::FREE;
use super::words::{WORDS, connection_word, cookie_value, presence};
use labels::EndpointSet;
use policy::Policy;
use policy::words::{CONNECTIONS, HOSTS, URL_ROWS};

// The strays are a word for each key: the values of absent cookies, which are to be 0, joined by "or" over the hosts.

// What the value of a cookie adds to the strays: nothing where the cookie is present.
fn stray_value(keys: u32, key: usize, value: u32) -> u32
    requires { key < host_keys }
    ensures { eqb result 0 ≡ has keys key || eqb value 0 }
{
    if has(keys, key) { 0 } else { value }
}

// The strays with the values of a host's absent cookies, by the keys that it has.
fn with_absent(strays: [u32; 8], state: &[u32], host: usize, keys: u32) -> [u32; 8]
    requires { (length state.now ≡ state_words) × (host < hosts) × (keys ≡ presence state.now host) }
    ensures { none_left result ≡ all_below host_keys (cookie_sound state.now host) && none_left strays }
{
    let mut all = strays;
    for (key, stray) in all.iter_mut().enumerate() {
        *stray |= stray_value(keys, key, cookie_value(state, host, key));
    }
    all
}

// The same by the host alone, at less cost for two kinds of host: of one that has every key no value is read, and of one that has none
// every value is a stray, with no key asked, since the compiler sees the 0.
fn with_strays_of(strays: [u32; 8], state: &[u32], host: usize) -> [u32; 8]
    requires { (length state.now ≡ state_words) × (host < hosts) }
    ensures { none_left result ≡ all_below host_keys (cookie_sound state.now host) && none_left strays }
{
    let keys = presence(state, host);
    if keys == 0xff {
        return strays;
    }
    if keys == 0 {
        return with_absent(strays, state, host, 0);
    }
    with_absent(strays, state, host, keys)
}

fn none_left(strays: [u32; 8]) -> bool
    ensures { result ≡ none_left strays }
{
    strays.iter().fold(0, |all, stray| all | *stray) == 0
}

// Two tests at the end, of what all hosts have: to stop at a host that is not sound would cost the others more.
fn hosts_sound(state: &[u32]) -> bool
    requires { length state.now ≡ state_words }
    ensures { result ≡ all_below hosts (host_sound state.now) }
{
    let mut strays = [0u32; 8];
    let mut bits = 0u32;
    for host in 0..HOSTS {
        bits |= presence(state, host);
        // with a name of its own: a call's result cannot go straight into an array that is in use
        let with_host = with_strays_of(strays, state, host);
        strays = with_host;
    }
    (bits < 0x100) & none_left(strays)
}

// URL and origin are taken below 64, which leaves `is_url` no bound to test: a word in which either is above has neither shape.
fn connection_sound<S: EndpointSet>(policy: Policy<'_, S>, connection: usize, word: u32) -> bool
    requires { connection < connections }
    ensures { result ≡ connection_sound policy.entry.words.now connection word }
{
    if word == FREE {
        return true;
    }
    let url = word as usize % URL_ROWS;
    if !policy.is_url(url) {
        return false;
    }
    if !policy.fits(connection, url) {
        return false;
    }
    if is_bare(word) {
        return true;
    }
    if !is_script(word) {
        return false;
    }
    policy.is_url(word as usize / 0x1_0000 % URL_ROWS)
}

// The words of two connections as one, which the compiler reads at once.
fn two_connections(state: &[u32], first: usize) -> u64
    requires { (length state.now ≡ state_words) × (first + 2 ≤ connections) }
    ensures { eqb result 0
        ≡ eqb (connection_word state.now first) free && eqb (connection_word state.now (first + 1)) free }
{
    connection_word(state, first) as u64 + connection_word(state, first + 1) as u64 * 0x1_0000_0000
}

// Whether the four connections from this one on are free: their words joined by "or" are 0 just where each is.
fn four_free(state: &[u32], first: usize) -> bool
    requires { (length state.now ≡ state_words) × (first + 4 ≤ connections) }
    ensures { result ≡ all_below 4 (λ i. eqb (connection_word state.now (first + i)) free) }
{
    two_connections(state, first) | two_connections(state, first + 2) == 0
}

// Whether the four connections from this one on are sound. (With `all` over the range no proof was found.)
fn four_sound<S: EndpointSet>(policy: Policy<'_, S>, state: &[u32], first: usize) -> bool
    requires { (length state.now ≡ state_words) × (first + 4 ≤ connections) }
    ensures { result
        ≡ all_below 4 (λ i. connection_sound policy.entry.words.now (first + i) (connection_word state.now (first + i))) }
{
    for connection in first..first + 4 {
        if !connection_sound(policy, connection, connection_word(state, connection)) {
            return false;
        }
    }
    true
}

// Four at a time: most connections are free, and four that are free take one test.
fn connections_sound<S: EndpointSet>(policy: Policy<'_, S>, state: &[u32]) -> bool
    requires { length state.now ≡ state_words }
    ensures { result ≡ all_below connections (λ n. connection_sound policy.entry.words.now n (connection_word state.now n)) }
{
    for four in 0..CONNECTIONS / 4 {
        let first = 4 * four;
        if !four_free(state, first) && !four_sound(policy, state, first) {
            return false;
        }
    }
    true
}

pub fn sound<S: EndpointSet>(policy: Policy<'_, S>, state: &[u32]) -> bool
    ensures { result ≡ sound policy.entry.words.now state.now }
{
    if state.len() != WORDS {
        return false;
    }
    hosts_sound(state) & connections_sound(policy, state)
}
