// The interpreter of scripts: it is lent the 128 bytes of one script, the session and the output, and runs its steps until it ends.
#![tactic(auto)]

mod operation;
mod script;
mod steps;
mod table;

pub use script::Script;
use session::pending::SCRIPTS;
pub use table::Table;

// A script has as many steps.
const SCRIPT_STEPS: usize = 32;

// A step has four bytes: operation and three fields.
pub const SCRIPT_BYTES: usize = 4 * SCRIPT_STEPS;

// The script table: so many scripts, one after another.
pub const TABLE_BYTES: usize = SCRIPTS * SCRIPT_BYTES;

// The most steps that a script runs: none goes back, so as many as it has.
pub const STEP_LIMIT: u32 = SCRIPT_STEPS as u32;
