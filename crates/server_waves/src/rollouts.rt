//! Rollouts.

ghost use Rattle.std.specs.Prelude.{◌≡◌, ◌≤◌, ◌&&◌, ℕ, List, drop, length, take, IfOk, OnOk, OnErr, true};
ghost use Rattle.server_waves.specs.Candidates.{AreUndecidedBut, IsUnknownOf, is_candidate};
ghost use Rattle.server_waves.specs.Fates.{members_of, progress_of};
ghost use Rattle.server_waves.specs.Points.{most, pointed};
ghost use Rattle.server_waves.specs.Register.{is_found, new_rolling, with_agent, with_agents};
ghost use Rattle.server_waves.specs.Waves.{can_join, hash_of, offered_at, resumed, table_at, taken_out, with_halt};

use crate::candidates::Candidates;
use crate::fates::{Member, Progress};
use crate::finders::{Finder, is_found};
use crate::judges::Judge;
use crate::members::Members;
use crate::plans::Plan;
use crate::verdicts::is_eligible;
use plain_values::{List, NoMemory, Text, Uid};
use server_core::{Record, Server};
use std::alloc::Global;
use std::marker::Model;

/// A configuration that is given to the agents of a server a few at a time.
pub struct Rollout {
    id: Text,
    finds: Option<Finder>,
    plan: Plan,
    members: Members,
}

// By hand, so that it is a call where a value is dropped, and not laid out there.
impl Drop for Rollout {
    fn drop(self) {
        let Rollout {
            id: _,
            finds: _,
            plan: _,
            members: _,
        } = self;
    }
}

impl Model for Rollout {
    ghost use Rattle.server_waves.specs.Register.{Rolling};

    ghost Value = { Rolling };

    ghost view = { λ r. record { id = r.id; finds = r.finds; terms = r.plan; waves = r.members } };
}

impl Rollout {
    /// A rollout of this name that no agent has joined. Takes no memory.
    pub(crate) fn new(alloc: Global, id: Text, finds: Option<Finder>, plan: Plan) -> Rollout
        ensures begun { result ≡ new_rolling id finds plan }
    {
        Rollout {
            id,
            finds,
            plan,
            members: Members::new(alloc),
        }
    }

    /// Its name. Takes no memory.
    pub fn id(&self) -> &Text
        ensures id { result.now ≡ self.now.id }
    {
        &self.id
    }

    /// Lets an agent join, of which this is kept. It doesn't where it had joined, isn't found by what is sought, has left, or doesn't take
    /// remote configurations or tell what became of them.
    pub(crate) fn join(&mut self, agent: &Record) -> Result<(), NoMemory>
        ensures joined { OnOk result (self.new ≡ with_agent agent.now self.old) }
        ensures err { OnErr result (self.new ≡ self.old) }
    {
        if self.can_join(agent) {
            self.members.append(&agent.uid)?;
        }
        Ok(())
    }

    // Whether an agent joins.
    fn can_join(&self, agent: &Record) -> bool
        ensures joins { result ≡ (is_found self.now.finds agent.now && can_join self.now.waves agent.now) }
    {
        !self.members.has_joined(&agent.uid)
            && is_eligible(agent)
            && is_found(self.finds.as_ref(), agent)
    }

    /// Lets each of these agents join, in order. Where memory is wanting some first ones did.
    pub(crate) fn join_each(&mut self, agents: &[Record]) -> Result<(), NoMemory>
        ensures joined { OnOk result (self.new ≡ with_agents agents.now self.old) }
    {
        for agent in agents {
            self.join(agent)?;
        }
        Ok(())
    }

    /// Comes to a point: looks up what became of the offers at the candidates, halts where too many agents failed, and makes the offer to as
    /// many of those that wait as there is room for. It tells how many of those that have the offer had it before. Where memory is wanting
    /// some first ones of these offers are made, and the next point goes on.
    pub(crate) fn advance<J: Judge>(
        &mut self,
        server: &mut Server,
        judge: &J,
        candidates: &Candidates,
    ) -> Result<usize, NoMemory>
        requires undecided { AreUndecidedBut (is_candidate candidates.now) (J.finds_fine judge.now) (hash_of self.old.terms) server.old.table.records self.old.waves.offered }
        ensures point { OnOk result (self.new ≡ pointed (J.finds_fine judge.now) server.old.table (most (J.finds_fine judge.now) server.old.table self.old) self.old) }
        ensures table { OnOk result (server.new.table ≡ table_at (J.finds_fine judge.now) self.old.terms server.old.table self.old.waves (most (J.finds_fine judge.now) server.old.table self.old)) }
        ensures part { OnErr result ((made : ℕ) × (made ≤ most (J.finds_fine judge.now) server.old.table self.old)
            × (self.new ≡ pointed (J.finds_fine judge.now) server.old.table made self.old)
            × (server.new.table ≡ table_at (J.finds_fine judge.now) self.old.terms server.old.table self.old.waves made)) }
        ensures within { IfOk result (λ before. before ≤ length self.new.waves.offered) }
        ensures newly { IfOk result (λ before. drop before self.new.waves.offered ≡ offered_at (J.finds_fine judge.now) self.old.terms server.old.table self.old.waves) }
        ensures unknown { IfOk result (λ before. IsUnknownOf (J.finds_fine judge.now) (hash_of self.old.terms) server.new.table.records (take before self.new.waves.offered)) }
        ensures profile { server.new.profile ≡ server.old.profile }
    {
        self.members
            .settle_at(candidates, judge, self.plan.hash(), server);
        self.members.halt_over(self.plan.allowed());
        let room = self.members.room(self.plan.width());
        let before = self.members.undecided();
        self.members.offer(server, self.plan.config(), room)?;
        Ok(before)
    }

    /// Adds to the candidates those of these agents of which it is known what became of the offer.
    pub(crate) fn weigh<J: Judge>(
        &self,
        judge: &J,
        server: &Server,
        uids: &[Uid],
        candidates: &mut Candidates,
    )
        ensures weighed { AreUndecidedBut (is_candidate candidates.new) (J.finds_fine judge.now) (hash_of self.now.terms) server.now.table.records uids.now }
        ensures kept { (u : List ℕ) → is_candidate candidates.old u ≡ true → is_candidate candidates.new u ≡ true }
    {
        candidates.weigh_all(judge, self.plan.hash(), server, uids);
    }

    /// Halts it. Takes no memory.
    pub(crate) fn halt(&mut self)
        ensures halted { self.new ≡ record self.old { waves = with_halt self.old.waves } }
    {
        self.members.halt();
    }

    /// Ends the halt. Takes no memory.
    pub(crate) fn resume(&mut self)
        ensures resumed { self.new ≡ record self.old { waves = resumed self.old.waves } }
    {
        self.members.resume();
    }

    /// Takes an agent out. Takes no memory.
    pub(crate) fn take_out(&mut self, uid: &Uid)
        ensures taken_out { self.new ≡ record self.old { waves = taken_out uid.now self.old.waves } }
    {
        self.members.take_out(uid);
    }

    /// The agents that have the offer and neither applied it nor failed, in the order of their offers. Takes no memory.
    pub fn offered(&self) -> &[Uid]
        ensures offered { result.now ≡ self.now.waves.offered }
    {
        self.members.offered()
    }

    /// How many agents wait for the offer. Takes no memory.
    pub fn waiting(&self) -> usize
        ensures number { result ≡ length self.now.waves.waiting }
    {
        self.members.waiting()
    }

    /// The agents in the order of joining, with what became of the offer at each.
    ///
    /// # Errors
    ///
    /// `NoMemory` alone.
    pub fn members(&self, alloc: Global) -> Result<List<Member>, NoMemory>
        ensures members { IfOk result (λ members. members ≡ members_of self.now.waves) }
    {
        self.members.members_told(alloc)
    }

    /// How far it is. Takes no memory.
    pub fn progress(&self) -> Progress
        ensures progress { result ≡ progress_of self.now.waves }
    {
        self.members.progress()
    }
}
