//! A lab of one agent on its host and ten servers, all in memory, for scripts.
//!
//! The agent and the servers are those that the running programs use. Definitions say what each line of a script does in the world of `world_model`, what the
//! agent's disk holds then, and what is written of the line. Each line is played by the agent's and the servers' own calls, as those definitions say:
//!
//! - what the agent is told of itself: `caps`, `attr`, `health`, `effective`, `custom`, `component` (`changes`);
//! - what servers do: `deliver`, `server-restart`, `offer-config`, `offer-connection`, `record` (`servers`); what they push unasked: `push`, and `take-push`,
//!   by which it is taken for the reply (`pushes`);
//! - what the agent does by itself: `send`, `giveup`, `active` (`agents`); `reply` (`replies`, `configs`); `restart` (`starting`);
//! - `stop`, which stops a device call in the next `send`, `reply` or `restart` (`playing`).
//!
//! A whole script is played by `simulate`, and a generated one by `storm`.
#![tactic(auto)]

pub mod agents;
mod attributes;
pub mod changes;
pub mod configs;
pub mod fails;
mod lab;
pub mod laws;
pub mod playing;
pub mod plays;
pub mod pushes;
pub mod replies;
pub mod servers;
pub mod simulating;
pub mod starting;
pub mod storming;
pub mod text;
pub mod written;

pub use lab::{Lab, SERVERS};
pub use plain_values::NoMemory;
pub use simulating::{SimFail, simulate};
pub use storming::{STORM_LIMIT, Summary, storm};
