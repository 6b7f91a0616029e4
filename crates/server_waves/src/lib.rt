//! Rollouts in waves: configurations are given to the agents of a server a few at a time, and to no more of them once they failed at too
//! many. A server has some rollouts beside one another; operators begin, halt, resume and finish them while it runs.
#![tactic(auto)]

mod candidates;
mod desk;
mod fates;
mod finders;
mod fn_judge;
mod judges;
mod known;
mod laws;
mod members;
mod plans;
mod points;
mod register;
mod rollouts;
mod sorting;
mod verdicts;

pub use candidates::Candidates;
pub use desk::ServerDesk;
pub use fates::{Fate, Member, Progress};
pub use finders::Finder;
pub use fn_judge::{FnJudge, Judging};
pub use judges::Judge;
pub use laws::{
    halt_is_final, limits, members_have_places, orders_offer_nothing, points_keep_width,
    rollouts_keep_width, status_numbers, width_is_kept,
};
pub use plain_values::NoMemory;
pub use register::{BeginFail, ROLLOUT_LIMIT, Rollouts};
pub use rollouts::Rollout;
pub use verdicts::{APPLIED, FAILED};
