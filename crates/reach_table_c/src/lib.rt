// How wide a policy is, for C and other languages, libreach_table.a: include/reach_table.h.
#![tactic(auto)]

ghost use Rattle.std.specs.Prelude.{◌≡◌};
ghost use Rattle.reach_table.specs.Reach.{tabled, in_table};

use reach_table::ReachTable;

#[unsafe(no_mangle)]
pub extern "C" fn reach_count(policy: &[u32]) -> ReachTable
    ensures { result ≡ tabled policy.now }
{
    reach_table::reach_count(policy)
}

#[unsafe(no_mangle)]
pub extern "C" fn reach_fits(policy: &[u32], connection: u32, url: u32) -> bool
    ensures { result ≡ in_table policy.now connection url }
{
    reach_table::reach_fits(policy, connection, url)
}
