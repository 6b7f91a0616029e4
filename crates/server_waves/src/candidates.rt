//! Of which agents a point looks up what became of the offer.

ghost use Rattle.std.specs.Prelude.{◌≡◌, ℕ, List, false, true};
ghost use Rattle.server_core.specs.History.{is_among};
ghost use Rattle.server_core.specs.Table.{find_record};
ghost use Rattle.server_waves.specs.Candidates.{AreUndecidedBut, is_candidate};
ghost use Rattle.server_waves.specs.Waves.{is_decided, passes};

use crate::judges::Judge;
use crate::verdicts::{Verdict, verdict_of};
use plain_values::{Blob, Uid};
use server_core::Server;
use std::alloc::Global;

/// The number of agents that are told apart at most. Of more all are candidates.
const FEW: usize = 64;

/// The agents of which it may be known what became of the offer: some few, or all.
#[derive(Drop)]
pub struct Candidates {
    pub(crate) all: bool,
    pub(crate) uids: Vec<Uid>,
}

impl Candidates {
    /// All agents. Takes no memory.
    pub fn everyone(alloc: Global) -> Candidates
        ensures all { (uid : List ℕ) → is_candidate result uid ≡ true }
    {
        Candidates {
            all: true,
            uids: Vec::new(alloc),
        }
    }

    /// No agent. Takes no memory.
    pub(crate) fn nobody(alloc: Global) -> Candidates
        ensures none { (uid : List ℕ) → is_candidate result uid ≡ false }
    {
        Candidates {
            all: false,
            uids: Vec::new(alloc),
        }
    }

    /// Makes all agents candidates. Takes no memory.
    pub fn add_everyone(&mut self)
        ensures all { (uid : List ℕ) → is_candidate self.new uid ≡ true }
    {
        self.all = true;
    }

    /// Whether no agent is one. Takes no memory.
    pub(crate) fn is_none(&self) -> bool
        ensures none { result ≡ true → (uid : List ℕ) → is_candidate self.now uid ≡ false }
    {
        !self.all && self.uids.is_empty()
    }

    /// Whether the agent is one. Takes no memory.
    pub(crate) fn contains(&self, uid: &Uid) -> bool
        ensures candidate { result ≡ is_candidate self.now uid.now }
    {
        self.all || self.uids.contains(uid)
    }

    // Adds the agent. Where there are many, or memory is wanting, all are candidates.
    fn add(&mut self, uid: &Uid)
        ensures added { is_candidate self.new uid.now ≡ true }
        ensures kept { (u : List ℕ) → is_candidate self.old u ≡ true → is_candidate self.new u ≡ true }
    {
        if self.uids.len() >= FEW {
            self.all = true;
            return;
        }
        match self.uids.push(*uid) {
            Ok(()) => {}
            Err(_) => self.all = true,
        }
    }

    /// Adds the others' agents.
    pub(crate) fn add_those(&mut self, others: &Candidates)
        ensures added { (u : List ℕ) → is_candidate others.now u ≡ true → is_candidate self.new u ≡ true }
        ensures kept { (u : List ℕ) → is_candidate self.old u ≡ true → is_candidate self.new u ≡ true }
    {
        if others.all {
            self.all = true;
        } else {
            self.add_each(others.uids.as_slice());
        }
    }

    // Adds each of these agents.
    fn add_each(&mut self, uids: &[Uid])
        ensures added { (u : List ℕ) → is_among uids.now u ≡ true → is_candidate self.new u ≡ true }
        ensures kept { (u : List ℕ) → is_candidate self.old u ≡ true → is_candidate self.new u ≡ true }
    {
        for uid in uids {
            self.add(uid);
        }
    }

    // Adds the agent where it is known what became of the offer.
    fn weigh<J: Judge>(&mut self, judge: &J, hash: &Blob, server: &Server, uid: &Uid)
        ensures weighed { is_candidate self.new uid.now ≡ false → passes (is_decided (J.finds_fine judge.now) hash.now) (find_record server.now.table.records uid.now) ≡ false }
        ensures kept { (u : List ℕ) → is_candidate self.old u ≡ true → is_candidate self.new u ≡ true }
    {
        match verdict_of(judge, hash, server.find(uid)) {
            Verdict::Open => {}
            Verdict::Applied | Verdict::Failed => self.add(uid),
        }
    }

    /// Adds those of these agents of which it is known what became of the offer.
    pub(crate) fn weigh_all<J: Judge>(
        &mut self,
        judge: &J,
        hash: &Blob,
        server: &Server,
        uids: &[Uid],
    )
        ensures weighed { AreUndecidedBut (is_candidate self.new) (J.finds_fine judge.now) hash.now server.now.table.records uids.now }
        ensures kept { (u : List ℕ) → is_candidate self.old u ≡ true → is_candidate self.new u ≡ true }
    {
        for uid in uids {
            self.weigh(judge, hash, server, uid);
        }
    }
}
