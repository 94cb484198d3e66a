// The search for the lowest connection that carries a journey, and for the first URL that a connection does not take.
ghost use Rattle.std.specs.Prelude.{◌≡◌, ◌<◌, length, IfSome, unwrap_or};
ghost use Rattle.machine.specs.Policy.{connections};
ghost use Rattle.journeys.specs.Journey.{carrier, fails_at};

use super::legs::Journey;
use labels::EndpointSet;
use policy::words::CONNECTIONS;

impl<'a, S: EndpointSet> Journey<'a, S> {
    // The first place whose URL a connection does not take.
    pub fn fails_at(self, connection: usize) -> Option<usize>
        requires { connection < connections }
        ensures first { unwrap_or result (length self.entry.urls.now) ≡ fails_at self.entry.policy.words.now self.entry.urls.now connection }
        ensures within { IfSome result (λ i. i < length self.entry.urls.now) }
    {
        (0..self.urls.len()).find(|place| self.judge(connection, *place).is_err())
    }

    // The lowest connection that takes each URL. At the first URL that one does not take, the next one is tried.
    pub fn lowest_carrier(self) -> Option<usize>
        ensures lowest { unwrap_or result connections ≡ carrier self.entry.policy.words.now self.entry.urls.now }
        ensures one { IfSome result (λ c. c < connections) }
    {
        'search: for connection in 0..CONNECTIONS {
            for place in 0..self.urls.len() {
                if self.judge(connection, place).is_err() {
                    continue 'search;
                }
            }
            return Some(connection);
        }
        None
    }
}
