// No code: the definitions are in specs/, the theorems in proofs/.
#![tactic(auto)]
