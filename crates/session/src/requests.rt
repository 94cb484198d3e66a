// The request that opens or moves a connection: its cookies, its fields, and its bytes in the output.
ghost use Rattle.std.specs.Prelude.{◌≡◌, map, ◌<◌, length};
ghost use Rattle.prelude.specs.Choice.{branch};
ghost use Rattle.labels.specs.Addresses.{hosts};
ghost use Rattle.records.specs.Layout.{key_numbers};
ghost use Rattle.machine.specs.Policy.{host_keys, cookie_index};
ghost use Rattle.machine.specs.Session.{state_words, cookie_value, has, request_map};

use super::cookies::has;
use super::kinds::plain_request;
use super::output::Output;
use super::pending::{Fields, Pending};
use super::state::Session;
use super::words::{cookie_value, presence, set_connection};
use labels::EndpointSet;
use records::Record;
use records::map_bytes::WITH_COOKIES;

// The value of a cookie where its key is in a map of keys, else 0.
#[tactic(auto, unfolding(prelude::specs::Choice::branch))]
fn value_in(keys: u8, key: usize, value: u32) -> u32
    requires { key < host_keys }
    ensures { result ≡ branch (has keys key) value 0 }
{
    if has(u32::from(keys), key) { value } else { 0 }
}

fn attached_values(state: &[u32], host: usize, keys: u8) -> [u32; 8]
    requires { (length state.now ≡ state_words) × (host < hosts) }
    ensures { result ≡ map (λ k. branch (has keys k) (cookie_value state.now (cookie_index host k)) 0) key_numbers }
{
    let mut values = [0; 8];
    for (key, value) in values.iter_mut().enumerate() {
        *value = value_in(keys, key, cookie_value(state, host, key));
    }
    values
}

#[tactic(auto, unfolding(machine::specs::Session::request_map, prelude::specs::Choice::branch))]
fn request_map(kind: u32, keys: u8) -> u8
    ensures { result ≡ request_map kind keys }
{
    let plain = plain_request(kind);
    if keys == 0 {
        plain
    } else {
        plain + WITH_COOKIES
    }
}

impl<'a, S: EndpointSet> Session<'a, S> {
    ghost use Rattle.std.specs.Prelude.{◌≡◌, ◌<◌};
    ghost use Rattle.machine.specs.Policy.{connections};
    ghost use Rattle.machine.specs.Session.{key_map, attaches, kind_of, handler_of, url_of, request, set_connection};
    ghost use Rattle.policy.specs.Given.{Url};
    ghost use Rattle.session.specs.Kinds.{number_of};
    ghost use Rattle.session.specs.Output.{output, write_next};
    ghost use Rattle.session.specs.Pending.{word_of};

    // The map of the keys of the cookies that a request to a URL carries. A host without cookies, the common case, is told at once.
    fn attached_keys(&self, url: usize) -> u8
        requires { Url self.now.policy.words.now url }
        ensures { result ≡ key_map (attaches self.now.policy.words.now self.now.words.now url) }
    {
        let present = presence(self.words, self.policy.url_host(url));
        if present == 0 {
            return 0;
        }
        (present & u32::from(self.policy.carried_keys(url))) as u8
    }

    // The fields of the request of what is pending on a connection.
    fn request(&self, connection: usize, kind: u32, handler: u8, url: u8) -> Record
        requires { Url self.now.policy.words.now url × (connection < connections) }
        ensures { result ≡ request self.now.policy.words.now self.now.words.now connection kind handler url }
    {
        let page = usize::from(url);
        let keys = self.attached_keys(page);
        let cookies = attached_values(self.words, self.policy.url_host(page), keys);
        Record {
            map: request_map(kind, keys),
            url,
            connection: connection as u8,
            keys,
            cookies,
            script: handler,
            value: 0,
            target: 0,
        }
    }

    // Opens or moves a connection as its new word says, whatever was pending on it, and writes its request after those that are written. Of any word,
    // that of a kind too that there is not.
    pub fn send_word(&mut self, connection: usize, word: u32, out: &mut Output<'_>)
        requires { Url self.old.policy.words.now (url_of word) × (connection < connections) }
        ensures memory { self.new.words.ghost_name ≡ self.old.words.ghost_name }
        ensures output_memory { out.new.buffer.ghost_name ≡ out.old.buffer.ghost_name }
        ensures policy { self.new.policy.words.now ≡ self.old.policy.words.now }
        ensures words { self.new.words.now ≡ set_connection connection word self.old.words.now }
        ensures written { output out.new.at out.new.buffer.now
            ≡ write_next
            (request self.old.policy.words.now self.old.words.now connection (kind_of word) (handler_of word) (url_of word))
            (output out.old.at out.old.buffer.now) }
    {
        let fields = Fields::of(word);
        let kind = fields.kind;
        out.write_next(self.request(connection, kind, fields.handler as u8, fields.url as u8));
        set_connection(self.words, connection, word);
    }

    // The same of what is to be pending.
    pub fn send(&mut self, connection: usize, pending: Pending, out: &mut Output<'_>)
        requires { Url self.old.policy.words.now pending.url × (connection < connections) }
        ensures memory { self.new.words.ghost_name ≡ self.old.words.ghost_name }
        ensures output_memory { out.new.buffer.ghost_name ≡ out.old.buffer.ghost_name }
        ensures policy { self.new.policy.words.now ≡ self.old.policy.words.now }
        ensures words { self.new.words.now ≡ set_connection connection (word_of pending) self.old.words.now }
        ensures written { output out.new.at out.new.buffer.now
            ≡ write_next
            (request self.old.policy.words.now self.old.words.now connection (number_of pending.kind) pending.handler pending.url)
            (output out.old.at out.old.buffer.now) }
    {
        self.send_word(connection, u32::from(pending), out);
    }
}
