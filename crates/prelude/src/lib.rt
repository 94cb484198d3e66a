// No code: the definitions that every crate shares are in specs/, their laws in proofs/.
#![tactic(auto)]
