//! The reports of a fleet, handled by several threads.
//!
//! Each desk is in a thread of its own, and has reports handled by the servers of four shards. A server stands under a lock
//! with the journal of what it handled, so that whenever the lock is free the journal is a history of one thread. A ledger
//! for each shard counts the rows in all threads.
#![tactic(auto)]

mod checks;
mod close;
mod dealing;
mod desks;
mod fleet;
mod laws;
mod shard;
mod shards;
mod tallies;
mod working;

pub use checks::{CloseFail, compare, compare_by_desks, compare_order, compare_told};
pub use desks::{Desk, Told};
pub use fleet::{run_desks, run_fleet};
pub use laws::shard_numbers;
pub use plain_values::NoMemory;
pub use shard::Shard;
pub use shard_journals::{Journal, PlainError, PlainReply, Row, SHARDS, handle_in_order, shard_of};
pub use shards::{DESK_LIMIT, Shards};
pub use working::{Gate, work};
