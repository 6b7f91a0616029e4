//! The commands over the lab: `simulate` and `storm`, each with what comes of it.
#![tactic(auto)]

mod laws;
mod simulate;
mod storm;

pub use laws::{nothing_is_played, one_script_reading, script_limits};
pub use simulate::{PlayFail, ScriptFault, run_simulate_command};
pub use storm::run_storm_command;
