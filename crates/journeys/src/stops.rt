// Where and why a connection stops on a journey: the first URL that it does not take, and what is missing there.
ghost use Rattle.std.specs.Prelude.{◌≡◌, ◌<◌, length, IfSome};
ghost use Rattle.machine.specs.Policy.{url_rows, connections};
ghost use Rattle.policy.specs.Given.{Url};
ghost use Rattle.policy.specs.Forbidden.{forbids};
ghost use Rattle.journeys.specs.Journey.{of_url_number, stop};
ghost use Rattle.journeys.specs.Answers.{halted};

use super::failure::Failure;
use super::legs::Journey;
use super::{ACCEPTED, Stop};
use labels::EndpointSet;
use policy::NONE_MISSING;
use policy::label_refusal::LabelRefusal;

impl<'a, S: EndpointSet> Journey<'a, S> {
    // Whether the endpoint that is missing is missing in a set of the URL, and not of the connection.
    #[tactic(auto, unfolding(crate::specs::Journey::of_url_number))]
    fn url_lacks(self, connection: usize, url: usize, forbidden: LabelRefusal) -> bool
        requires { (connection < connections) × Url self.policy.words.now url }
        ensures { result ≡ of_url_number self.entry.policy.words.now connection url (forbids forbidden) }
    {
        match forbidden {
            LabelRefusal::ReadersForbid(missing) => {
                let reader = self.policy.fit_missing_reader(connection, url);
                missing == reader.unwrap_or(NONE_MISSING)
            }
            LabelRefusal::WritersForbid(missing) => {
                let writer = self.policy.fit_missing_writer(connection, url);
                missing != writer.unwrap_or(NONE_MISSING)
            }
        }
    }

    // At the first place whose URL a connection does not take; nowhere where it takes each.
    pub fn first_stop(self, connection: usize) -> Option<Failure>
        requires { connection < connections }
        ensures stop { halted self.entry.urls.now result ≡ stop self.entry.policy.words.now self.entry.urls.now connection }
        ensures there { IfSome result (λ f. (f.place < length self.entry.urls.now) × (f.url < url_rows)) }
    {
        let place = self.fails_at(connection)?;
        let forbidden = self.judge(connection, place).err()?;
        let url = self.url_at(place);
        let of_url = self.url_lacks(connection, url, forbidden);
        Some(Failure {
            place,
            forbidden,
            url,
            of_url,
        })
    }

    // The same as C is told.
    #[tactic(auto, using(prelude::proofs::Choices::as_digit))]
    pub(crate) fn stop(self, connection: usize) -> Stop
        requires { connection < connections }
        ensures { result ≡ stop self.entry.policy.words.now self.entry.urls.now connection }
    {
        match self.first_stop(connection) {
            Some(failure) => Stop {
                number: ACCEPTED,
                place: failure.place as u32,
                refusal: failure.forbidden.number(),
                missing: failure.forbidden.missing(),
                url: failure.url as u32,
                of_url: u32::from(failure.of_url),
            },
            None => Stop {
                number: ACCEPTED,
                place: self.urls.len() as u32,
                refusal: ACCEPTED,
                missing: NONE_MISSING,
                url: 0,
                of_url: 0,
            },
        }
    }
}
