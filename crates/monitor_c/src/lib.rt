// The monitor for C and other languages, libmonitor.a: include/monitor.h.
#![tactic(auto)]

ghost use Rattle.std.specs.Prelude.{◌≡◌};
ghost use Rattle.machine.specs.Machine.{feed};
ghost use Rattle.monitor.specs.Answers.{answered};

use monitor::Answer;

#[unsafe(no_mangle)]
pub extern "C" fn monitor_feed(
    policy: &[u32],
    scripts: &[u8],
    state: &mut [u32],
    bytes: &[u8],
    out: &mut [u8],
) -> Answer
    ensures { answered result state.new out.new
        ≡ feed policy.now scripts.now state.old bytes.now out.old }
{
    monitor::monitor_feed(policy, scripts, state, bytes, out)
}
