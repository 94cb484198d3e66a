// The tally of requests for C and other languages, libusage.a: include/usage.h.
#![tactic(auto)]

ghost use Rattle.std.specs.Prelude.{◌≡◌};
ghost use Rattle.usage.specs.Tally.{tallied};

use usage::Tally;

#[unsafe(no_mangle)]
pub extern "C" fn usage_count(requests: &[u8]) -> Tally
    ensures { result ≡ tallied requests.now }
{
    usage::usage_count(requests)
}
