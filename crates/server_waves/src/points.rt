//! The points of all rollouts behind an event.

ghost use Rattle.std.specs.Prelude.{◌≡◌, ◌≤◌, ◌++◌, [], ℕ, List, IfOk, OnOk, OnErr, true, drop, length, take};
ghost use Rattle.server_core.specs.Table.{find_record};
ghost use Rattle.server_waves.specs.Candidates.{AreUndecidedBut, IsUnknownOf, is_candidate, is_candidate_or_heard};
ghost use Rattle.server_waves.specs.Points.{AreCurrentBut, ArePointedInPart, RollsInPart, points, rolled, rolled_newly, rolled_table, with_found, with_heard};
ghost use Rattle.server_waves.specs.Waves.{hash_of};

use crate::candidates::Candidates;
use crate::judges::Judge;
use crate::register::Rollouts;
use crate::rollouts::Rollout;
use plain_values::{List, NoMemory, Uid};
use server_core::Server;
use std::alloc::Global;

impl Rollouts {
    /// Does what follows an event in which these agents were heard: each rollout, in the order of begin, lets them join, where they can, and
    /// comes to its point. It gives the agents to which an offer was newly made, in order. What became of offers is looked up at the candidates
    /// and at those that were heard, and the candidates are then those of which it is known already.
    ///
    /// # Errors
    ///
    /// `NoMemory` alone: some first part of it was done, and nothing is said of the candidates.
    pub fn come_to_points<J: Judge>(
        &mut self,
        alloc: Global,
        server: &mut Server,
        judge: &J,
        heard: &[Uid],
        candidates: &mut Candidates,
    ) -> Result<List<Uid>, NoMemory>
        requires current { AreCurrentBut (is_candidate_or_heard candidates.old heard.now) (J.finds_fine judge.now) server.old.table.records self.old }
        ensures rollouts { OnOk result (self.new ≡ (points (J.finds_fine judge.now) heard.now self.old server.old.table).rollouts) }
        ensures table { OnOk result (server.new.table ≡ (points (J.finds_fine judge.now) heard.now self.old server.old.table).table) }
        ensures newly { IfOk result (λ newly. newly ≡ (points (J.finds_fine judge.now) heard.now self.old server.old.table).newly) }
        ensures part { OnErr result (ArePointedInPart (J.finds_fine judge.now) heard.now self.old self.new server.old.table server.new.table) }
        ensures current { OnOk result (AreCurrentBut (is_candidate candidates.new) (J.finds_fine judge.now) server.new.table.records self.new) }
        ensures profile { server.new.profile ≡ server.old.profile }
    {
        let mut later = Candidates::nobody(alloc);
        let mut newly = List::new(alloc);
        come_to_each(
            &mut self.rollouts,
            alloc,
            server,
            judge,
            heard,
            candidates,
            &mut later,
            &mut newly,
        )?;
        *candidates = later;
        Ok(newly)
    }
}

// Brings each rollout to its point, in order. Those to which an offer was newly made are added to none, and those of which it is known already what became
// of it are candidates later.
fn come_to_each<J: Judge>(
    rollouts: &mut Vec<Rollout>,
    alloc: Global,
    server: &mut Server,
    judge: &J,
    heard: &[Uid],
    before: &Candidates,
    later: &mut Candidates,
    newly: &mut List<Uid>,
) -> Result<(), NoMemory>
    requires current { AreCurrentBut (is_candidate_or_heard before.now heard.now) (J.finds_fine judge.now) server.old.table.records rollouts.old.items }
    requires none { newly.old ≡ [] }
    ensures rollouts { OnOk result (rollouts.new.items ≡ (points (J.finds_fine judge.now) heard.now rollouts.old.items server.old.table).rollouts) }
    ensures table { OnOk result (server.new.table ≡ (points (J.finds_fine judge.now) heard.now rollouts.old.items server.old.table).table) }
    ensures newly { OnOk result (newly.new ≡ (points (J.finds_fine judge.now) heard.now rollouts.old.items server.old.table).newly) }
    ensures part { OnErr result (ArePointedInPart (J.finds_fine judge.now) heard.now rollouts.old.items rollouts.new.items server.old.table server.new.table) }
    ensures current { OnOk result (AreCurrentBut (is_candidate later.new) (J.finds_fine judge.now) server.new.table.records rollouts.new.items) }
    ensures profile { server.new.profile ≡ server.old.profile }
{
    let mut at = 0;
    while at < rollouts.len() {
        follow_event(
            &mut rollouts[at],
            alloc,
            server,
            judge,
            heard,
            before,
            later,
            newly,
        )?;
        at += 1;
    }
    Ok(())
}

// The agents of which it may be known what became of the rollout's offer: those of before, and of those that were heard the ones of which it is.
fn candidates_of<J: Judge>(
    alloc: Global,
    rollout: &Rollout,
    server: &Server,
    judge: &J,
    heard: &[Uid],
    before: &Candidates,
) -> Candidates
    requires undecided { AreUndecidedBut (is_candidate_or_heard before.now heard.now) (J.finds_fine judge.now) (hash_of rollout.now.terms) server.now.table.records rollout.now.waves.offered }
    ensures undecided { AreUndecidedBut (is_candidate result) (J.finds_fine judge.now) (hash_of rollout.now.terms) server.now.table.records rollout.now.waves.offered }
{
    let mut own = Candidates::nobody(alloc);
    own.add_those(before);
    rollout.weigh(judge, server, heard, &mut own);
    own
}

// Lets those that were heard join, and comes to the rollout's point. Those to which it newly makes the offer are added to the others, and those of which it is known
// already what became of it are candidates later.
fn follow_event<J: Judge>(
    rollout: &mut Rollout,
    alloc: Global,
    server: &mut Server,
    judge: &J,
    heard: &[Uid],
    before: &Candidates,
    later: &mut Candidates,
    newly: &mut List<Uid>,
) -> Result<(), NoMemory>
    requires undecided { AreUndecidedBut (is_candidate_or_heard before.now heard.now) (J.finds_fine judge.now) (hash_of rollout.old.terms) server.old.table.records rollout.old.waves.offered }
    ensures rolled { OnOk result (rollout.new ≡ rolled (J.finds_fine judge.now) heard.now server.old.table rollout.old) }
    ensures table { OnOk result (server.new.table ≡ rolled_table (J.finds_fine judge.now) heard.now server.old.table rollout.old) }
    ensures newly { OnOk result (newly.new ≡ newly.old ++ rolled_newly (J.finds_fine judge.now) heard.now server.old.table rollout.old) }
    ensures part { OnErr result (RollsInPart (J.finds_fine judge.now) heard.now rollout.old rollout.new server.old.table server.new.table) }
    ensures undecided { OnOk result (AreUndecidedBut (is_candidate later.new) (J.finds_fine judge.now) (hash_of rollout.old.terms) server.new.table.records rollout.new.waves.offered) }
    ensures kept { (u : List ℕ) → is_candidate later.old u ≡ true → is_candidate later.new u ≡ true }
    ensures profile { server.new.profile ≡ server.old.profile }
{
    let own = candidates_of(alloc, rollout, server, judge, heard, before);
    let from = come_to_point(rollout, server, judge, heard, &own)?;
    let added = offered_behind(rollout, from);
    rollout.weigh(judge, server, added, later);
    add_each(newly, added)
}

// Lets those that were heard join, and comes to the rollout's point. It tells how many of those that have the offer had it before.
fn come_to_point<J: Judge>(
    rollout: &mut Rollout,
    server: &mut Server,
    judge: &J,
    heard: &[Uid],
    own: &Candidates,
) -> Result<usize, NoMemory>
    requires undecided { AreUndecidedBut (is_candidate own.now) (J.finds_fine judge.now) (hash_of rollout.old.terms) server.old.table.records rollout.old.waves.offered }
    ensures rolled { OnOk result (rollout.new ≡ rolled (J.finds_fine judge.now) heard.now server.old.table rollout.old) }
    ensures table { OnOk result (server.new.table ≡ rolled_table (J.finds_fine judge.now) heard.now server.old.table rollout.old) }
    ensures part { OnErr result (RollsInPart (J.finds_fine judge.now) heard.now rollout.old rollout.new server.old.table server.new.table) }
    ensures within { IfOk result (λ from. from ≤ length rollout.new.waves.offered) }
    ensures newly { IfOk result (λ from. drop from rollout.new.waves.offered ≡ rolled_newly (J.finds_fine judge.now) heard.now server.old.table rollout.old) }
    ensures undecided { IfOk result (λ from. IsUnknownOf (J.finds_fine judge.now) (hash_of rollout.old.terms) server.new.table.records (take from rollout.new.waves.offered)) }
    ensures profile { server.new.profile ≡ server.old.profile }
{
    join_heard(rollout, server, heard)?;
    rollout.advance(server, judge, own)
}

// Those that have the offer, from this place on.
fn offered_behind(rollout: &Rollout, from: usize) -> &[Uid]
    requires within { from ≤ length rollout.now.waves.offered }
    ensures newly { result.now ≡ drop from rollout.now.waves.offered }
{
    &rollout.offered()[from..]
}

// Lets an agent join, where the server holds it.
fn join_found(rollout: &mut Rollout, server: &Server, uid: &Uid) -> Result<(), NoMemory>
    ensures joined { OnOk result (rollout.new ≡ with_found (find_record server.now.table.records uid.now) rollout.old) }
    ensures err { OnErr result (rollout.new ≡ rollout.old) }
{
    match server.find(uid) {
        Some(agent) => rollout.join(agent),
        None => Ok(()),
    }
}

// Lets each of these agents join, where the server holds it. Where memory is wanting some first ones joined.
fn join_heard(rollout: &mut Rollout, server: &Server, heard: &[Uid]) -> Result<(), NoMemory>
    ensures joined { OnOk result (rollout.new ≡ with_heard server.now.table.records heard.now rollout.old) }
    ensures some { OnErr result ((count : ℕ) × (rollout.new ≡ with_heard server.now.table.records (take count heard.now) rollout.old)) }
{
    for uid in heard {
        join_found(rollout, server, uid)?;
    }
    Ok(())
}

// Adds these behind the others. Where memory is wanting some first ones are added.
fn add_each(uids: &mut List<Uid>, more: &[Uid]) -> Result<(), NoMemory>
    ensures added { OnOk result (uids.new ≡ uids.old ++ more.now) }
{
    for uid in more {
        uids.push(*uid)?;
    }
    Ok(())
}
