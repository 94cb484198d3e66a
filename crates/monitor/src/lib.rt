// The monitor (document 01, "The monitor's numbers" and "What each accepted record does"): `monitor_feed`, one call for each record.
#![tactic(auto)]

ghost use Rattle.std.specs.Prelude.{◌≡◌};
ghost use Rattle.machine.specs.Machine.{feed};
ghost use Rattle.monitor.specs.Answers.{answered};

mod arrived;
mod done;
mod events;
mod refusal;
mod refusals;

use policy::NONE_MISSING;
use records::ACCEPTED;
pub use refusals::OUTPUT_ROOM;
use refusals::feed;

pub const STATE_WORDS: usize = session::words::WORDS;

// What a call answers: 0, the bytes of requests that it wrote and the script steps that it ran; or a refusal's number and zeros. Where readers or
// writers forbid it, the endpoint that is missing, and else 32.
#[repr(C)]
#[derive(Clone, Copy)]
pub struct Answer {
    pub number: u32,
    pub bytes: u32,
    pub steps: u32,
    pub missing: u32,
}

// Feeds one record to the monitor: include/monitor.h. Every length and content is answered; a refusal changes nothing.
#[unsafe(no_mangle)]
pub extern "C" fn monitor_feed(
    policy: &[u32],
    scripts: &[u8],
    state: &mut [u32],
    bytes: &[u8],
    out: &mut [u8],
) -> Answer
    ensures { answered result state.new out.new
        ≡ feed policy.now scripts.now state.old bytes.now out.old }
{
    match feed(policy, scripts, state, bytes, out) {
        Ok(done) => Answer {
            number: ACCEPTED,
            bytes: done.bytes as u32,
            steps: done.steps,
            missing: NONE_MISSING,
        },
        Err(refusal) => Answer {
            number: refusal.number(),
            bytes: 0,
            steps: 0,
            missing: refusal.missing().unwrap_or(NONE_MISSING),
        },
    }
}
