//! The agents of a rollout.

ghost use Rattle.std.specs.Prelude.{◌≡◌, ◌+◌, ◌-◌, ◌≤◌, ◌<◌, [], ◌∷◌, ◌++◌, ℕ, List, MatchOption, IfOk, OnOk, OnErr, false, true, length, drop, take};
ghost use Rattle.server_core.specs.declared.offers.Offer.TheVariants.{Config as ConfigOffer};
ghost use Rattle.server_core.specs.Offers.{fits_offer};
ghost use Rattle.server_waves.specs.Candidates.{AreUndecidedBut, is_candidate};
ghost use Rattle.server_waves.specs.Fates.{members_of, progress_of};
ghost use Rattle.server_waves.specs.Waves.{halted_over, has_joined, no_agents, offering, resumed, room, settled, table_offering, taken_out, with_halt};

use crate::candidates::Candidates;
use crate::fates::{Fates, Member, Progress};
use crate::judges::Judge;
use crate::known::Known;
use crate::sorting::{drop_all, drop_from, drop_waiting, put_last, sort, sort_few};
use plain_values::{AgentConfigMap, Blob, List, NoMemory, Plain, Uid};
use server_core::{OfferFail, Server};
use std::alloc::Global;
use std::collections::VecDeque;
use std::marker::Model;
use std::mem::swap;

/// The agents of a rollout by what became of the offer, which contracts see as where the rollout stands.
///
/// Looking an agent up takes as many steps as the number of those that joined has binary digits. A point looks at those alone of which
/// nothing was known, or at the candidates among them.
pub(crate) struct Members {
    // All that joined, to be looked up, and in the order of joining.
    known: Known,
    joined: Vec<Uid>,
    waiting: VecDeque<Uid>,
    offered: Vec<Uid>,
    applied: Vec<Uid>,
    failed: Vec<Uid>,
    // So many of those that failed are excused, the first ones.
    excused: usize,
    halted: bool,
    // Empty between two calls, with room for those that were offered.
    spare: Vec<Uid>,
}

// By hand, so that it is a call where a value is dropped, and not laid out there.
impl Drop for Members {
    fn drop(self) {
        let Members {
            known: _,
            joined: _,
            waiting: _,
            offered: _,
            applied: _,
            failed: _,
            excused: _,
            halted: _,
            spare: _,
        } = self;
    }
}

impl Model for Members {
    ghost use Rattle.server_waves.specs.Waves.{Waves};
    ghost use Rattle.server_waves.specs.Kept.{waves_in, IsKept};

    ghost Value = { Waves };

    ghost view = { waves_in };

    ghost invariant = { IsKept };
}

impl Members {
    /// No agent has joined. Takes no memory.
    pub(crate) fn new(alloc: Global) -> Members
        ensures empty { result ≡ no_agents }
    {
        Members {
            known: Known::new(alloc),
            joined: Vec::new(alloc),
            waiting: VecDeque::new(alloc),
            offered: Vec::new(alloc),
            applied: Vec::new(alloc),
            failed: Vec::new(alloc),
            excused: 0,
            halted: false,
            spare: Vec::new(alloc),
        }
    }

    /// Whether the agent joined. Takes no memory.
    pub(crate) fn has_joined(&self, uid: &Uid) -> bool
        ensures joined { result ≡ has_joined self.now uid.now }
    {
        self.known.contains(uid)
    }

    /// Puts an agent behind those that wait.
    pub(crate) fn append(&mut self, uid: &Uid) -> Result<(), NoMemory>
        ensures waits { OnOk result (self.new ≡ record self.old { members = self.old.members ++ uid.now ∷ []; waiting = self.old.waiting ++ uid.now ∷ [] }) }
        ensures err { OnErr result (self.new ≡ self.old) }
    {
        self.waiting.reserve(1)?;
        self.joined.reserve(1)?;
        self.known.insert(uid)?;
        put_last(&mut self.joined, *uid);
        self.waiting.push_back_reserved(*uid);
        Ok(())
    }

    /// Looks up what became of the offers that were made.
    pub(crate) fn settle<J: Judge>(&mut self, judge: &J, hash: &Blob, server: &Server)
        ensures settled { self.new ≡ settled (J.finds_fine judge.now) hash.now server.now.table.records self.old }
    {
        swap(&mut self.offered, &mut self.spare);
        sort(
            self.spare.as_slice(),
            judge,
            hash,
            server,
            &mut self.offered,
            &mut self.applied,
            &mut self.failed,
        );
        self.spare.clear();
    }

    // The same, where of those that aren't candidates it isn't known, in one pass over identifiers.
    fn settle_few<J: Judge>(
        &mut self,
        candidates: &Candidates,
        judge: &J,
        hash: &Blob,
        server: &Server,
    )
        requires undecided { AreUndecidedBut (is_candidate candidates.now) (J.finds_fine judge.now) hash.now server.now.table.records self.old.offered }
        ensures settled { self.new ≡ settled (J.finds_fine judge.now) hash.now server.now.table.records self.old }
    {
        sort_few(
            candidates,
            judge,
            hash,
            server,
            &mut self.offered,
            &mut self.applied,
            &mut self.failed,
        );
    }

    /// The same, where of those that aren't candidates it isn't known what became of the offer: they aren't looked at.
    pub(crate) fn settle_at<J: Judge>(
        &mut self,
        candidates: &Candidates,
        judge: &J,
        hash: &Blob,
        server: &Server,
    )
        requires undecided { AreUndecidedBut (is_candidate candidates.now) (J.finds_fine judge.now) hash.now server.now.table.records self.old.offered }
        ensures settled { self.new ≡ settled (J.finds_fine judge.now) hash.now server.now.table.records self.old }
    {
        if candidates.all {
            self.settle(judge, hash, server);
        } else if !candidates.is_none() {
            self.settle_few(candidates, judge, hash, server);
        }
    }

    // Those that have the offer, and of which nothing is known yet.
    pub(crate) fn offered(&self) -> &[Uid]
        ensures offered { result.now ≡ self.now.offered }
    {
        self.offered.as_slice()
    }

    // How many wait for the offer.
    pub(crate) fn waiting(&self) -> usize
        ensures number { result ≡ length self.now.waiting }
    {
        self.waiting.len()
    }

    /// How many have the offer undecided. Takes no memory.
    pub(crate) fn undecided(&self) -> usize
        ensures number { result ≡ length self.now.offered }
    {
        self.offered.len()
    }

    /// Halts the rollout where more agents failed than may.
    pub(crate) fn halt_over(&mut self, allowed: u64)
        ensures halted { self.new ≡ halted_over allowed self.old }
    {
        self.halted = self.halted || self.counted() > allowed;
    }

    // How many failed and aren't excused.
    fn counted(&self) -> u64
        ensures number { result ≡ length self.now.failed }
    {
        (self.failed.len() - self.excused) as u64
    }

    /// Halts the rollout. Takes no memory.
    pub(crate) fn halt(&mut self)
        ensures halted { self.new ≡ with_halt self.old }
    {
        self.halted = true;
    }

    /// Ends the halt, and excuses those that failed. Takes no memory.
    pub(crate) fn resume(&mut self)
        ensures resumed { self.new ≡ resumed self.old }
    {
        self.halted = false;
        self.excused = self.failed.len();
    }

    /// Takes an agent out. Takes no memory.
    pub(crate) fn take_out(&mut self, uid: &Uid)
        ensures taken_out { self.new ≡ taken_out uid.now self.old }
    {
        let excused = drop_from(&mut self.failed, self.excused, uid);
        self.excused = excused;
        drop_all(&mut self.offered, uid);
        drop_all(&mut self.applied, uid);
        drop_all(&mut self.joined, uid);
        drop_waiting(&mut self.waiting, uid);
        self.known.remove(uid);
    }

    /// To how many more agents the offer may be made. Takes no memory.
    pub(crate) fn room(&self, width: u64) -> u64
        ensures room { result ≡ room width self.now }
    {
        if self.halted {
            return 0;
        }
        width
            .saturating_sub(self.offered.len() as u64)
            .saturating_sub(self.counted())
    }

    // The first of those that wait. Takes no memory.
    fn first_waiting(&self) -> Option<Uid>
        ensures first { MatchOption result (self.now.waiting ≡ []) (λ uid. take 1 self.now.waiting ≡ uid ∷ []) }
    {
        self.waiting.front().copied()
    }

    // Makes the offer to the first of those that wait. Want of memory leaves all as it was.
    fn offer_first(
        &mut self,
        server: &mut Server,
        config: &AgentConfigMap,
        uid: Uid,
    ) -> Result<(), NoMemory>
        requires first { take 1 self.old.waiting ≡ uid ∷ [] }
        requires fits { fits_offer (ConfigOffer config.now) ≡ true }
        ensures made { OnOk result (self.new ≡ offering 1 self.old) }
        ensures table { OnOk result (server.new.table ≡ table_offering config.now (uid ∷ []) server.old.table) }
        ensures err { OnErr result ((self.new ≡ self.old) × (server.new ≡ server.old)) }
        ensures profile { server.new.profile ≡ server.old.profile }
    {
        let many = self.offered.len().saturating_add(1);
        self.offered.reserve(1)?;
        self.applied.reserve(many)?;
        self.failed.reserve(many)?;
        self.spare.reserve(many)?;
        offer_where_held(*self.offered.allocator(), server, config, &uid)?;
        let _first = self.waiting.pop_front();
        put_last(&mut self.offered, uid);
        Ok(())
    }

    /// Makes the offer to as many of those that wait as there is room for, or to all. Where memory is wanting some first ones have it.
    pub(crate) fn offer(
        &mut self,
        server: &mut Server,
        config: &AgentConfigMap,
        room: u64,
    ) -> Result<(), NoMemory>
        requires fits { fits_offer (ConfigOffer config.now) ≡ true }
        ensures made { OnOk result ((self.new ≡ offering room self.old) × (server.new.table ≡ table_offering config.now (take room self.old.waiting) server.old.table)) }
        ensures part { OnErr result ((n : ℕ) × (n ≤ room) × (self.new ≡ offering n self.old) × (server.new.table ≡ table_offering config.now (take n self.old.waiting) server.old.table)) }
        ensures profile { server.new.profile ≡ server.old.profile }
    {
        let mut left = room;
        while left > 0 {
            let Some(uid) = self.first_waiting() else {
                return Ok(());
            };
            self.offer_first(server, config, uid)?;
            left -= 1;
        }
        Ok(())
    }

    /// The agents in the order of joining, with what became of the offer at each.
    pub(crate) fn members_told(&self, alloc: Global) -> Result<List<Member>, NoMemory>
        ensures members { IfOk result (λ told. told ≡ members_of self.now) }
    {
        let (earlier, later) = self.failed.as_slice().split_at(self.excused);
        let fates = Fates {
            offered: Known::of(alloc, self.offered.as_slice())?,
            applied: Known::of(alloc, self.applied.as_slice())?,
            failed: Known::of(alloc, later)?,
            excused: Known::of(alloc, earlier)?,
        };
        fates.of_all(alloc, self.joined.as_slice())
    }

    /// How far the rollout is. Takes no memory.
    pub(crate) fn progress(&self) -> Progress
        ensures progress { result ≡ progress_of self.now }
    {
        Progress {
            waiting: self.waiting.len() as u64,
            offered: self.offered.len() as u64,
            applied: self.applied.len() as u64,
            failed: self.failed.len() as u64,
            halted: self.halted,
        }
    }
}

// Makes the configuration the standing one for the agent, where it is held. Want of memory leaves the server as it was.
fn offer_where_held(
    alloc: Global,
    server: &mut Server,
    config: &AgentConfigMap,
    uid: &Uid,
) -> Result<(), NoMemory>
    requires fits { fits_offer (ConfigOffer config.now) ≡ true }
    ensures table { OnOk result (server.new.table ≡ table_offering config.now (uid.now ∷ []) server.old.table) }
    ensures err { OnErr result (server.new ≡ server.old) }
    ensures profile { server.new.profile ≡ server.old.profile }
{
    match server.offer_config(uid, config.copy(alloc)?) {
        Ok(()) | Err(OfferFail::UnknownAgent) => Ok(()),
        Err(OfferFail::TooLarge) => unreachable!(),
        Err(OfferFail::NoMemory) => Err(NoMemory),
    }
}
