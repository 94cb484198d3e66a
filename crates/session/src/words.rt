// The words of a state by name.
ghost use Rattle.std.specs.Prelude.{◌≡◌, ◌<◌, length};
ghost use Rattle.labels.specs.Addresses.{hosts};
ghost use Rattle.machine.specs.Policy.{host_keys, connections, cookie_index};
ghost use Rattle.machine.specs.Session.{state_words, cookie_value, presence, connection_word, set_connection};

use policy::words::{CONNECTIONS, HOST_KEYS, HOSTS};

pub const PRESENCE_AT: usize = HOSTS * HOST_KEYS;

const CONNECTIONS_AT: usize = PRESENCE_AT + HOSTS;

pub const WORDS: usize = CONNECTIONS_AT + CONNECTIONS;

pub fn cookie_value(state: &[u32], host: usize, key: usize) -> u32
    requires { (length state.now ≡ state_words) × (host < hosts) × (key < host_keys) }
    ensures { result ≡ cookie_value state.now (cookie_index host key) }
{
    state[HOST_KEYS * host + key]
}

// The keys that a host has, bit k for key k.
pub fn presence(state: &[u32], host: usize) -> u32
    requires { (length state.now ≡ state_words) × (host < hosts) }
    ensures { result ≡ presence state.now host }
{
    state[PRESENCE_AT + host]
}

pub fn connection_word(state: &[u32], connection: usize) -> u32
    requires { (length state.now ≡ state_words) × (connection < connections) }
    ensures { result ≡ connection_word state.now connection }
{
    state[CONNECTIONS_AT + connection]
}

pub fn set_connection(state: &mut [u32], connection: usize, word: u32)
    requires { (length state.old ≡ state_words) × (connection < connections) }
    ensures { state.new ≡ set_connection connection word state.old }
{
    state[CONNECTIONS_AT + connection] = word;
}
