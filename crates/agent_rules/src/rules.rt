//! The rules of an agent: what its calls give, what it hears in a reply, and what its lists of calls have in common.

mod laws;
mod parts;
mod replies;

pub use laws::{
    awaited_reports_are_unanswered, block_numbers, files_wait_until_applied,
    identifiers_are_not_offered, numbers_stay_reserved, settings_wait_for_their_proof,
};
pub use parts::{AgentFail, LAST_LIMIT, LocalState, Next, Prepared, RESERVED_BLOCK};
pub use replies::Heard;
