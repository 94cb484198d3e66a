// The legs of a journey, a load and then redirects: whether the URL of each is there, and what the monitor's labels say of it.
ghost use Rattle.std.specs.Prelude.{◌≡◌, ◌<◌, length, IfOk, is_ok};
ghost use Rattle.prelude.specs.Refusals.{accepted, first_of};
ghost use Rattle.machine.specs.Policy.{connections};
ghost use Rattle.policy.specs.Given.{Url};
ghost use Rattle.policy.specs.Forbidden.{verdict};
ghost use Rattle.journeys.specs.Journey.{url_at, is_journey, judged, takes, journey_refusals};
ghost use Rattle.journeys.specs.Given.{Journey};
ghost use Rattle.journeys.specs.Answers.{refusal_of};

use super::MOST_URLS;
use super::error::JourneyError;
use labels::EndpointSet;
use policy::Policy;
use policy::label_refusal::LabelRefusal;
use std::alloc::AllocError;

// One to 16 numbers, each of them of a URL.
#[tactic(auto, using(crate::proofs::Judging::no_urls, crate::proofs::Judging::too_many))]
pub fn is_journey<S: EndpointSet>(policy: Policy<'_, S>, urls: &[u8]) -> bool
    ensures { result ≡ is_journey policy.entry.words.now urls.now }
{
    if urls.is_empty() || MOST_URLS < urls.len() {
        return false;
    }
    urls.iter().all(|url| policy.is_url(usize::from(*url)))
}

// A policy that is well formed, and a journey under it: what 2 and 17 do not refuse, in memory that is lent.
pub struct Journey<'a, S: EndpointSet> {
    pub policy: Policy<'a, S>,
    pub urls: &'a [u8],
    pub ghost good: { Journey policy.words.now urls.now },
}

// By hand, since a derive does not go with a ghost field in a generic type.
impl<'a, S: EndpointSet> Clone for Journey<'a, S> {
    fn clone(&self) -> Result<Self, AllocError> {
        Ok(*self)
    }
}

impl<'a, S: EndpointSet> Copy for Journey<'a, S> {}

impl<'a, S: EndpointSet> Journey<'a, S> {
    #[tactic(auto, unfolding(prelude::specs::Refusals::first_of, prelude::specs::Choice::branch))]
    pub fn parse(policy: &'a [u32], urls: &'a [u8]) -> Result<Self, JourneyError>
        ensures refusal { refusal_of result ≡ first_of (journey_refusals policy.now urls.now) accepted }
        ensures lent { IfOk result (λ j. (j.policy.words.now ≡ policy.now) × (j.urls.now ≡ urls.now)) }
    {
        let Some(policy) = Policy::parse(policy) else {
            return Err(JourneyError::PolicyBad);
        };
        if !is_journey(policy, urls) {
            return Err(JourneyError::JourneyBad);
        }
        Ok(Journey { policy, urls })
    }

    // The URL that is asked for at a place: the partner of a URL that has one.
    pub(crate) fn url_at(self, place: usize) -> usize
        requires { place < length self.urls.now }
        ensures asked { result ≡ url_at self.entry.policy.words.now self.entry.urls.now place }
        ensures there { Url self.entry.policy.words.now result }
    {
        self.policy.upgraded(usize::from(self.urls[place]))
    }

    // What labels say at a place of the journey: of a load at the first, and of a redirect at each further one.
    // Made part of its callers: a call hands the journey over and the answer back in memory, and then the whole search takes 1.3 times as long.
    #[inline(always)]
    pub fn judge(self, connection: usize, place: usize) -> Result<(), LabelRefusal>
        requires { (connection < connections) × (place < length self.urls.now) }
        ensures says { verdict result ≡ judged self.entry.policy.words.now self.entry.urls.now connection place }
        ensures taken { is_ok result ≡ takes self.entry.policy.words.now self.entry.urls.now connection place }
    {
        let url = self.url_at(place);
        if place == 0 {
            return self.policy.permit_load(connection, url);
        }
        self.policy.permit_redirect(connection, url)
    }
}
