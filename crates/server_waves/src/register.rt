//! The rollouts of a server.

ghost use Rattle.std.specs.Prelude.{◌≡◌, ◌++◌, ◌∷◌, [], IfOk, IfErr, OnOk, OnErr, true};
ghost use Rattle.std.specs.Option.{option_copied};
ghost use Rattle.std.specs.Str.{bytes_eq};
ghost use Rattle.server_core.specs.declared.offers.Offer.TheVariants.{Config as ConfigOffer};
ghost use Rattle.server_core.specs.Offers.{fits_offer};
ghost use Rattle.server_waves.specs.Begins.{PlansNot};
ghost use Rattle.server_waves.specs.Register.{BeginsNot, CanBegin, all_without, changed, find_rolling, finished, is_there, new_rolling, with_agents, with_rolling, with_waves};
ghost use Rattle.server_waves.specs.Turns.{turned};
ghost use Rattle.server_waves.specs.Waves.{resumed, with_halt};

use crate::finders::Finder;
use crate::plans::{Plan, PlanFail};
use crate::rollouts::Rollout;
use plain_values::{AgentConfigMap, Text, Uid};
use server_core::Server;
use std::alloc::Global;
use std::marker::Model;
use thiserror::Error;

/// So many rollouts are there at a time at most.
pub const ROLLOUT_LIMIT: usize = 16;

/// Why a rollout doesn't begin. What is told is the first of these.
#[derive(Clone, Copy, Debug, PartialEq, Eq, Error)]
pub enum BeginFail {
    /// A rollout of that name is there.
    #[error("a rollout of that name is there")]
    There,
    /// As many rollouts are there as may be.
    #[error("there are too many rollouts")]
    TooMany,
    /// The offer with its hash has more than 1,048,576 bytes.
    #[error("the offer is too large")]
    TooLarge,
    /// There was no memory.
    #[error("there was no memory")]
    NoMemory,
}

/// The rollouts of a server, in the order in which they began. Contracts see them as a list.
#[derive(Drop)]
pub struct Rollouts {
    pub(crate) rollouts: Vec<Rollout>,
}

impl Model for Rollouts {
    ghost use Rattle.std.specs.Prelude.{List};
    ghost use Rattle.server_waves.specs.Register.{Rolling};

    ghost Value = { List Rolling };

    ghost view = { λ r. r.rollouts.items };
}

impl Rollouts {
    /// No rollouts. Takes no memory.
    pub fn new(alloc: Global) -> Rollouts
        ensures none { result ≡ [] }
    {
        Rollouts {
            rollouts: Vec::new(alloc),
        }
    }

    /// All of them, in the order in which they began. Takes no memory.
    pub fn list(&self) -> &[Rollout]
        ensures all { result.now ≡ self.now }
    {
        self.rollouts.as_slice()
    }

    /// The rollout of this name; none exactly where none is there. Takes no memory.
    pub fn find(&self, id: &Text) -> Option<&Rollout>
        ensures found { option_copied result ≡ find_rolling self.now id.now }
    {
        find_in(self.rollouts.as_slice(), id)
    }

    // Whether one of this name is there.
    fn is_there(&self, id: &Text) -> bool
        ensures there { result ≡ is_there self.now id.now }
    {
        self.find(id).is_some()
    }

    /// Begins a rollout behind the others: a configuration for all agents that are found by what is sought, or for all agents where nothing
    /// is, of which `width` at a time may have it without having applied it, and `allowed` may fail before it is halted. All agents that the
    /// server holds join, where they can, in ascending order of their identifiers.
    ///
    /// # Errors
    ///
    /// The first that is so, with nothing changed: `There`, `TooMany`, `TooLarge`; or `NoMemory`.
    pub fn begin(
        &mut self,
        alloc: Global,
        server: &Server,
        id: Text,
        finds: Option<Finder>,
        files: AgentConfigMap,
        width: u64,
        allowed: u64,
    ) -> Result<(), BeginFail>
        ensures can { OnOk result (CanBegin self.old id files) }
        ensures begun { OnOk result (self.new ≡ with_rolling server.now.table.records id finds (record { files = files; width = width; allowed = allowed }) self.old) }
        ensures failed { IfErr result (BeginsNot self.old id files) }
        ensures err { OnErr result (self.new ≡ self.old) }
    {
        if self.is_there(&id) {
            return Err(BeginFail::There);
        }
        if self.rollouts.len() >= ROLLOUT_LIMIT {
            return Err(BeginFail::TooMany);
        }
        match begun(alloc, server, id, finds, files, width, allowed) {
            Ok(rollout) => self.add(rollout),
            Err(PlanFail::TooLarge) => Err(BeginFail::TooLarge),
            Err(PlanFail::NoMemory) => Err(BeginFail::NoMemory),
        }
    }

    // Adds one behind the others.
    fn add(&mut self, rollout: Rollout) -> Result<(), BeginFail>
        ensures added { OnOk result (self.new ≡ self.old ++ rollout ∷ []) }
        ensures failed { IfErr result (λ fail. fail ≡ BeginFail.NoMemory) }
        ensures err { OnErr result (self.new ≡ self.old) }
    {
        match self.rollouts.push(rollout) {
            Ok(()) => Ok(()),
            Err(_) => Err(BeginFail::NoMemory),
        }
    }

    /// Halts the rollout of this name, and tells whether it is there. Takes no memory.
    pub fn halt(&mut self, id: &Text) -> bool
        ensures there { result ≡ is_there self.old id.now }
        ensures halted { self.new ≡ changed with_halt id.now self.old }
    {
        let there = self.is_there(id);
        turn_all(&mut self.rollouts, Turn::Halt, id);
        there
    }

    /// Ends the halt of the rollout of this name, and tells whether it is there. Those that failed are excused: they count neither against
    /// its width nor against those that may fail. Takes no memory.
    pub fn resume(&mut self, id: &Text) -> bool
        ensures there { result ≡ is_there self.old id.now }
        ensures resumed { self.new ≡ changed resumed id.now self.old }
    {
        let there = self.is_there(id);
        turn_all(&mut self.rollouts, Turn::Resume, id);
        there
    }

    /// Takes the rollout of this name away, and tells whether it was there. The offers that it made stand. Takes no memory.
    pub fn finish(&mut self, id: &Text) -> bool
        ensures there { result ≡ is_there self.old id.now }
        ensures finished { self.new ≡ finished id.now self.old }
    {
        let there = self.is_there(id);
        drop_named(&mut self.rollouts, id);
        there
    }

    /// Takes an agent out of all rollouts, as if it had never joined. Takes no memory.
    pub fn take_out(&mut self, uid: &Uid)
        ensures taken_out { self.new ≡ all_without uid.now self.old }
    {
        take_out_of_all(&mut self.rollouts, uid);
    }
}

// What an operator does to a rollout.
#[derive(Clone, Copy)]
enum Turn {
    Halt,
    Resume,
}

// The one of this name.
fn find_in<'a>(rollouts: &'a [Rollout], id: &Text) -> Option<&'a Rollout>
    ensures found { option_copied result ≡ find_rolling rollouts.now id.now }
{
    rollouts.iter().find(|rollout| is_named(rollout, id))
}

// Whether it has this name.
fn is_named(rollout: &Rollout, id: &Text) -> bool
    ensures named { result ≡ bytes_eq rollout.now.id id.now }
{
    rollout.id().as_str() == id.as_str()
}

// A rollout that all agents that the server holds joined, where they can.
fn begun(
    alloc: Global,
    server: &Server,
    id: Text,
    finds: Option<Finder>,
    files: AgentConfigMap,
    width: u64,
    allowed: u64,
) -> Result<Rollout, PlanFail>
    ensures begun { IfOk result (λ rollout. rollout ≡ with_agents server.now.table.records (new_rolling id finds (record { files = files; width = width; allowed = allowed }))) }
    ensures fits { IfOk result (λ rollout. fits_offer (ConfigOffer files) ≡ true) }
    ensures failed { IfErr result (PlansNot files) }
{
    let plan = Plan::new(alloc, files, width, allowed)?;
    let mut rollout = Rollout::new(alloc, id, finds, plan);
    rollout.join_each(server.list())?;
    Ok(rollout)
}

// Does that to the rollout, where it has this name.
fn turn_named(rollout: &mut Rollout, turn: Turn, id: &Text)
    ensures turned { rollout.new ≡ with_waves (turned turn) id.now rollout.old }
{
    if is_named(rollout, id) {
        match turn {
            Turn::Halt => rollout.halt(),
            Turn::Resume => rollout.resume(),
        }
    }
}

// Does that to those of this name.
fn turn_all(rollouts: &mut Vec<Rollout>, turn: Turn, id: &Text)
    ensures turned { rollouts.new.items ≡ changed (turned turn) id.now rollouts.old.items }
{
    let mut at = 0;
    while at < rollouts.len() {
        turn_named(&mut rollouts[at], turn, id);
        at += 1;
    }
}

// Lets those of this name go.
fn drop_named(rollouts: &mut Vec<Rollout>, id: &Text)
    ensures finished { rollouts.new.items ≡ finished id.now rollouts.old.items }
{
    rollouts.retain(|rollout| !is_named(rollout, id));
}

// Takes an agent out of each of them.
fn take_out_of_all(rollouts: &mut Vec<Rollout>, uid: &Uid)
    ensures taken_out { rollouts.new.items ≡ all_without uid.now rollouts.old.items }
{
    let mut at = 0;
    while at < rollouts.len() {
        rollouts[at].take_out(uid);
        at += 1;
    }
}
