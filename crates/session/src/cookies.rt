// Cookies of the state: whether one is present, and how they are set and stored.
ghost use Rattle.std.specs.Prelude.{◌≡◌, ◌<◌, length};
ghost use Rattle.labels.specs.Addresses.{hosts};
ghost use Rattle.machine.specs.Policy.{host_keys};
ghost use Rattle.machine.specs.Session.{state_words, present, has, set_cookie};

use super::state::Session;
use super::words::{PRESENCE_AT, cookie_value, presence};
use labels::EndpointSet;
use policy::words::HOST_KEYS;

// Whether a key is in a map of keys.
pub fn has(keys: u32, key: usize) -> bool
    requires { key < host_keys }
    ensures { result ≡ has keys key }
{
    keys >> key & 1 == 1
}

pub fn is_present(state: &[u32], host: usize, key: usize) -> bool
    requires { (length state.now ≡ state_words) × (host < hosts) × (key < host_keys) }
    ensures { result ≡ present state.now host key }
{
    has(presence(state, host), key)
}

// A host's cookie gets a value, and is present. Bits above the eight keys' are cut off, so that this holds of any state.
pub fn set_cookie(state: &mut [u32], host: usize, key: usize, value: u32)
    requires { (length state.old ≡ state_words) × (host < hosts) × (key < host_keys) }
    ensures { state.new ≡ set_cookie host key value state.old }
{
    let keys = presence(state, host);
    state[HOST_KEYS * host + key] = value;
    state[PRESENCE_AT + host] = (keys | 1 << key) % 0x100;
}

impl<'a, S: EndpointSet> Session<'a, S> {
    ghost use Rattle.std.specs.Prelude.{◌≡◌, ◌<◌};
    ghost use Rattle.prelude.specs.Choice.{branch};
    ghost use Rattle.labels.specs.Addresses.{hosts};
    ghost use Rattle.machine.specs.Policy.{host_keys, connections, cookie_index};
    ghost use Rattle.machine.specs.Session.{cookie_value, present, has, set_cookie, store_cookie, store_cookies};
    ghost use Rattle.session.specs.Delivered.{delivered, cookie};

    pub fn is_present(&self, host: usize, key: usize) -> bool
        requires { (host < hosts) × (key < host_keys) }
        ensures { result ≡ present self.now.words.now host key }
    {
        is_present(self.words, host, key)
    }

    pub fn cookie_value(&self, host: usize, key: usize) -> u32
        requires { (host < hosts) × (key < host_keys) }
        ensures { result ≡ cookie_value self.now.words.now (cookie_index host key) }
    {
        cookie_value(self.words, host, key)
    }

    pub fn set_cookie(&mut self, host: usize, key: usize, value: u32)
        requires { (host < hosts) × (key < host_keys) }
        ensures memory { self.new.words.ghost_name ≡ self.old.words.ghost_name }
        ensures policy { self.new.policy.words.now ≡ self.old.policy.words.now }
        ensures words { self.new.words.now ≡ set_cookie host key value self.old.words.now }
    {
        set_cookie(self.words, host, key, value);
    }

    // Stores a cookie that was delivered on a connection, where it may be stored.
    #[tactic(auto, unfolding(machine::specs::Session::store_cookie, prelude::specs::Choice::branch))]
    fn store_cookie(&mut self, connection: usize, host: usize, key: usize, value: u32)
        requires { (connection < connections) × (host < hosts) × (key < host_keys) }
        ensures memory { self.new.words.ghost_name ≡ self.old.words.ghost_name }
        ensures policy { self.new.policy.words.now ≡ self.old.policy.words.now }
        ensures words { self.new.words.now
            ≡ store_cookie self.old.policy.words.now connection host (cookie key value) self.old.words.now }
    {
        if self.policy.may_store(connection, host, key) {
            self.set_cookie(host, key, value);
        }
    }

    // The same, where the cookie was delivered.
    #[tactic(auto, unfolding(prelude::specs::Choice::branch))]
    fn store_if_delivered(
        &mut self,
        connection: usize,
        host: usize,
        keys: u8,
        key: usize,
        value: u32,
    )
        requires { (connection < connections) × (host < hosts) × (key < host_keys) }
        ensures memory { self.new.words.ghost_name ≡ self.old.words.ghost_name }
        ensures policy { self.new.policy.words.now ≡ self.old.policy.words.now }
        ensures words { self.new.words.now
            ≡ branch (has keys key)
            (store_cookie self.old.policy.words.now connection host (cookie key value) self.old.words.now)
            self.old.words.now }
    {
        if has(u32::from(keys), key) {
            self.store_cookie(connection, host, key, value);
        }
    }

    // Stores the cookies that came on a connection for a host, lowest key first; one that may not be stored is passed over. Most records
    // bring none.
    pub fn store_cookies(&mut self, connection: usize, host: usize, keys: u8, values: [u32; 8])
        requires { (connection < connections) × (host < hosts) }
        ensures memory { self.new.words.ghost_name ≡ self.old.words.ghost_name }
        ensures policy { self.new.policy.words.now ≡ self.old.policy.words.now }
        ensures words { self.new.words.now
            ≡ store_cookies self.old.policy.words.now connection host (delivered keys values) self.old.words.now }
    {
        if keys == 0 {
            return;
        }
        for (key, value) in values.iter().enumerate() {
            self.store_if_delivered(connection, host, keys, key, *value);
        }
    }
}
