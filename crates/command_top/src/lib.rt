//! The top call: a command by its words, over all that a run is lent; the words that a program is given; and the program with its own handler and judge.
#![tactic(auto)]

mod arguments;
mod commands;
mod echo;
mod healthy;
mod laws;
mod noting;
mod program;
mod top;
mod usage;

pub use arguments::{words, words_of};
pub use command_serve::FnJudge;
pub use commands::{Job, Task, read_job};
pub use echo::{Echo, echo_name, echoed};
pub use healthy::Healthy;
pub use laws::top_numbers;
pub use program::run_program;
pub use top::{NO_MEMORY, WRONG_WORDS, opamp_main, opamp_run};
