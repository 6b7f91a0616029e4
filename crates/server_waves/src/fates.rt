//! What is told of the agents of a rollout.

ghost use Rattle.std.specs.Prelude.{◌≡◌, ◌||◌, List, IfOk, map};
ghost use Rattle.server_core.specs.History.{is_among};
ghost use Rattle.server_waves.specs.Fates.{fate_by};

use crate::known::Known;
use plain_values::{List, NoMemory, Uid};
use std::alloc::Global;

/// What became of the offer at an agent that joined a rollout.
#[derive(Clone, Copy, Debug, PartialEq, Eq)]
pub enum Fate {
    /// It waits for the offer.
    Waiting,
    /// The offer was made to it, and nothing is known of that yet.
    Offered,
    /// It applied the offer and is fine.
    Applied,
    /// It failed, or applied the offer and isn't fine.
    Failed,
}

/// An agent of a rollout.
#[derive(Clone, Copy, Debug, PartialEq, Eq)]
pub struct Member {
    /// The agent's identifier.
    pub uid: Uid,
    /// What became of the offer at it.
    pub fate: Fate,
}

/// How far a rollout is: how many agents wait for the offer; have it, and neither applied it nor failed; applied it; and failed.
#[derive(Clone, Copy, Debug, PartialEq, Eq)]
pub struct Progress {
    /// Those that wait for the offer.
    pub waiting: u64,
    /// Those that it was made to, of which nothing is known yet.
    pub offered: u64,
    /// Those that applied it.
    pub applied: u64,
    /// Those that failed, also those that are excused.
    pub failed: u64,
    /// Whether it is made to no further agent, since too many failed or an operator said so.
    pub halted: bool,
}

/// The agents of a rollout by what became of the offer, to be looked up; those that wait are in none of them.
#[derive(Drop)]
pub(crate) struct Fates {
    pub(crate) offered: Known,
    pub(crate) applied: Known,
    pub(crate) failed: Known,
    pub(crate) excused: Known,
}

impl Fates {
    // What became of the offer at an agent.
    fn fate_of(&self, uid: &Uid) -> Fate
        ensures fate { result ≡ fate_by (is_among self.now.offered uid.now) (is_among self.now.applied uid.now) (is_among self.now.failed uid.now || is_among self.now.excused uid.now) }
    {
        if self.offered.contains(uid) {
            Fate::Offered
        } else if self.applied.contains(uid) {
            Fate::Applied
        } else if self.failed.contains(uid) || self.excused.contains(uid) {
            Fate::Failed
        } else {
            Fate::Waiting
        }
    }

    /// These agents, with what became of the offer at each.
    pub(crate) fn of_all(&self, alloc: Global, uids: &[Uid]) -> Result<List<Member>, NoMemory>
        ensures members { IfOk result (λ members. members ≡ map (λ uid. record { uid = uid; fate = fate_by (is_among self.now.offered uid) (is_among self.now.applied uid) (is_among self.now.failed uid || is_among self.now.excused uid) }) uids.now) }
    {
        let mut members = List::new(alloc);
        for uid in uids {
            members.push(Member {
                uid: *uid,
                fate: self.fate_of(uid),
            })?;
        }
        Ok(members)
    }
}
