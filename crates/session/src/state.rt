// A policy and the state that is kept under it, in memory that is lent.
ghost use Rattle.std.specs.Prelude.{◌≡◌, length};
ghost use Rattle.machine.specs.Session.{state_words};

use super::pending::{FREE, Pending};
use super::words::{connection_word, set_connection};
use labels::EndpointSet;
use policy::Policy;

// A policy that is well formed, and a state of as many words as a state has.
#[derive(Drop)]
pub struct Session<'a, S: EndpointSet> {
    pub(crate) policy: Policy<'a, S>,
    pub(crate) words: &'a mut [u32],
    pub ghost whole: { length words.now ≡ state_words },
}

impl<'a, S: EndpointSet> Session<'a, S> {
    ghost use Rattle.std.specs.Prelude.{◌≡◌, ◌<◌, length};
    ghost use Rattle.std.specs.Result.{result_ok};
    ghost use Rattle.machine.specs.Policy.{connections};
    ghost use Rattle.machine.specs.Session.{state_words, free, connection_word, set_connection};
    ghost use Rattle.session.specs.Pending.{pending_in};

    pub fn new(policy: Policy<'a, S>, words: &'a mut [u32]) -> Session<'a, S>
        requires { length words.old ≡ state_words }
        ensures memory { result.words.ghost_name ≡ words.entry.ghost_name }
        ensures policy { result.policy.words.now ≡ policy.entry.words.now }
        ensures words { result.words.now ≡ words.old }
    {
        Session { policy, words }
    }

    pub fn policy(&self) -> Policy<'a, S>
        ensures { result.words.now ≡ self.now.policy.words.now }
    {
        self.policy
    }

    // What is pending on a connection, if it is open.
    pub fn pending(&self, connection: usize) -> Option<Pending>
        requires { connection < connections }
        ensures { result ≡ pending_in (connection_word self.now.words.now connection) }
    {
        Pending::try_from(connection_word(self.words, connection)).ok()
    }

    // Frees a connection, whatever was pending on it.
    pub fn free(&mut self, connection: usize)
        requires { connection < connections }
        ensures memory { self.new.words.ghost_name ≡ self.old.words.ghost_name }
        ensures policy { self.new.policy.words.now ≡ self.old.policy.words.now }
        ensures words { self.new.words.now ≡ set_connection connection free self.old.words.now }
    {
        set_connection(self.words, connection, FREE);
    }
}
