//! The commands over framed messages: `answer`, `canon`, `show` and `check`, each with what comes of it.
#![tactic(auto)]

mod answer;
mod canon;
mod check;
mod commands;
mod families;
mod frames;
mod laws;
mod refusing;
mod running;
mod show;

pub use answer::Answer;
pub use canon::Canon;
pub use check::Check;
pub use commands::StreamCommand;
pub use families::Outermost;
pub use laws::{
    nothing_is_read, one_ending, one_reading, one_thing_is_made, something_is_made, stream_limits,
    valid_inputs,
};
pub use running::{BUDGET, run_stream_command};
pub use show::Show;
