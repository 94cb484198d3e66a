// No code: worked cases of machine. They stand here since every must-fail edit checks its whole crate.
#![tactic(auto)]
