//! The agent and its calls.

ghost use Rattle.std.specs.Prelude.{◌≡◌, true, false, None, IsTrue, is_some};
ghost use Rattle.edge_devices.specs.Endpoints.{is_endpoint};
ghost use Rattle.agent_store.specs.Found.{AllKept};
ghost use Rattle.agent_rules.specs.Right.{is_right};
ghost use Rattle.agent_rules.specs.Half.{target};
ghost use Rattle.agent_rules.specs.Keeping.{Change, GiveUp, AbandonTry, Say, BeginTry};
ghost use Rattle.agent_rules.specs.Calls.{call_after};
ghost use Rattle.agent_state.specs.Starting.{started_with};

mod replies;
mod reports;
mod saves;
mod teaching;

use crate::starting::first_saved;
use agent_rules::{LocalState, Saved};
use agent_store::{Opened, Store};
use message_values::{CustomMessage, Settings, State};
use plain_values::{Blob, Uid};
use std::alloc::Global;
use std::marker::Model;

/// An agent's side of the protocol, which contracts see as its half of the world, and its store.
pub struct Agent {
    store: Store,
    local: LocalState,
    saved: Saved,
    is_kept: bool,
    asks_uid: bool,
    next: u64,
    awaits: bool,
    last: Option<State>,
    detailed: bool,
    linked: bool,
    wants_details: bool,
    trial: Option<Settings>,
    proved: bool,
    abandoned: Option<Blob>,
    message: Option<CustomMessage>,
    alloc: Global,
}

// By hand, so that it is a call where a value is dropped, and not laid out there.
impl Drop for Agent {
    fn drop(self) {
        let Agent {
            store: _,
            local: _,
            saved: _,
            is_kept: _,
            asks_uid: _,
            next: _,
            awaits: _,
            last: _,
            detailed: _,
            linked: _,
            wants_details: _,
            trial: _,
            proved: _,
            abandoned: _,
            message: _,
            alloc: _,
        } = self;
    }
}

impl Model for Agent {
    ghost use Rattle.agent_state.specs.View.{AgentView};
    ghost use Rattle.std.specs.Coded.{codes};
    ghost use Rattle.message_values.specs.contracts.components.AvailableComponents as components;
    ghost use Rattle.message_values.specs.contracts.packages.PackageStatuses as packages;
    ghost use Rattle.message_values.specs.contracts.state.State as state;
    ghost use Rattle.message_values.specs.contracts.attributes.AgentDescription as description;
    ghost use Rattle.message_values.specs.contracts.health.ComponentHealth as health;

    ghost Value = { AgentView };

    ghost coded = { Prim.hlevel (codes, state.the_row.coded, description.the_row.coded, health.the_row.coded, components.the_row.coded, packages.the_row.coded) };

    ghost use Rattle.agent_state.specs.Sound.{view_of, IsSoundAgent};

    ghost view = { view_of };

    ghost invariant = { IsSoundAgent };
}

impl Agent {
    /// An agent that starts with what its store keeps. A fresh store gives it the identifier `fresh` and the settings `first`. Its first report is whole.
    pub fn start(
        alloc: Global,
        store: Store,
        opened: Opened<Saved>,
        local: LocalState,
        fresh: Uid,
        first: Settings,
        ask_uid: bool,
    ) -> Agent
        requires opened { AllKept (λ s. IsTrue (is_right s)) opened }
        requires endpoint { IsTrue (is_endpoint first.endpoint) }
        ensures started { result.half ≡ started_with opened local fresh first store.layout.room ask_uid }
        ensures store { result.store ≡ store }
    {
        let (saved, is_kept) = match opened {
            Opened::Kept(saved) => (saved, true),
            Opened::Fresh => (first_saved(alloc, fresh, first), false),
        };
        Agent {
            store,
            local,
            next: saved.limit,
            saved,
            is_kept,
            asks_uid: ask_uid,
            awaits: false,
            last: None,
            detailed: false,
            linked: false,
            wants_details: false,
            trial: None,
            proved: false,
            abandoned: None,
            message: None,
            alloc,
        }
    }

    /// Changes what the agent knows of itself; the next report tells it. Takes no memory.
    pub fn change(&mut self, local: LocalState)
        ensures changed { self.new.half ≡ call_after self.old.half (Change local) }
        ensures store { self.new.store ≡ self.old.store }
    {
        self.local = local;
    }

    /// Gives the awaited reply up: the report counts as unanswered, and the next one is whole. Takes no memory.
    pub fn give_up(&mut self)
        requires awaiting { self.old.half.awaits ≡ true }
        ensures given_up { self.new.half ≡ call_after self.old.half GiveUp }
        ensures store { self.new.store ≡ self.old.store }
    {
        self.awaits = false;
    }

    /// Tries these settings from the next report on. Takes no memory.
    pub fn begin_try(&mut self, next: Settings)
        requires idle { self.old.half.awaits ≡ false }
        requires settled { self.old.half.trial ≡ None }
        requires endpoint { IsTrue (is_endpoint next.endpoint) }
        ensures begun { self.new.half ≡ call_after self.old.half (BeginTry next) }
        ensures store { self.new.store ≡ self.old.store }
    {
        self.trial = Some(next);
        self.proved = false;
        self.linked = false;
    }

    /// Goes back to the former settings. Takes no memory.
    pub fn abandon_try(&mut self)
        requires trying { is_some self.old.half.trial ≡ true }
        requires idle { self.old.half.awaits ≡ false }
        ensures left { self.new.half ≡ call_after self.old.half AbandonTry }
        ensures store { self.new.store ≡ self.old.store }
    {
        if let Some(tried) = self.trial.take() {
            self.abandoned = Some(tried.hash);
        }
        self.proved = false;
        self.linked = false;
    }

    /// Has this to say with the next report. Takes no memory.
    pub fn say(&mut self, message: CustomMessage)
        ensures said { self.new.half ≡ call_after self.old.half (Say message) }
        ensures store { self.new.store ≡ self.old.store }
    {
        self.message = Some(message);
    }

    /// Whether the reply to the last report is awaited. Takes no memory.
    pub fn awaits(&self) -> bool
        ensures awaits { result ≡ self.now.half.awaits }
    {
        self.awaits
    }

    /// Whether settings are tried. Takes no memory.
    pub fn trying(&self) -> bool
        ensures trying { result ≡ is_some self.now.half.trial }
    {
        self.trial.is_some()
    }

    /// Whether the disk failed in a save. Takes no memory.
    pub fn broken(&self) -> bool
        ensures broken { result ≡ self.now.store.broken }
    {
        self.store.broken()
    }

    /// The number of the next report. Takes no memory.
    pub fn number(&self) -> u64
        ensures number { result ≡ self.now.half.next }
    {
        self.next
    }

    /// The settings by which the next report is to be sent. Takes no memory.
    pub fn target(&self) -> &Settings
        ensures target { result.now ≡ target self.now.half }
        ensures endpoint { IsTrue (is_endpoint result.now.endpoint) }
    {
        match &self.trial {
            Some(tried) => tried,
            None => &self.saved.settings,
        }
    }

    /// What is in use of what the agent keeps. Takes no memory.
    pub fn saved(&self) -> &Saved
        ensures saved { result.now ≡ self.now.half.saved }
        ensures right { IsTrue (is_right result.now) }
    {
        &self.saved
    }
}
