//! The server's word, kept over a restart: on a shelf, for each agent with a standing offer, one file, whose name is the
//! agent's identifier and whose body is the reply that has the identifier and the offers that stand. No command uses it yet.
#![tactic(auto)]

mod bodies;
mod keeping;
mod laws;
mod names;
mod opening;
mod ordering;
mod stopping;

pub use keeping::{KeepFail, forget, keep};
pub use laws::{found_stands, word_kept};
pub use names::{agent_of, name_of};
pub use opening::{KeptOffers, OpenFail, open};
pub use ordering::order;
pub use stopping::stop_and_open;
