//! How far a connection is, from its handshake to its end.

ghost use Rattle.std.specs.Prelude.{◌≡◌, ◌↔◌, ◌<◌, ◌≤◌, ℕ, IsTrue, true, false, IfSome, IfNone};
ghost use Rattle.edge_wire.specs.Stages.{after_drop, after_end, after_sent, after_greeting, first_stage, greeting_stage, is_known, is_late};

use crate::{DRAIN_LIMIT, ENDING_MILLIS, GREETING_MILLIS};
use std::marker::Model;

/// How far a connection is.
#[derive(Clone, Copy, Debug, PartialEq, Eq)]
pub(crate) enum Phase {
    /// It is in its handshake, and the wire's events don't know it.
    Greeting,
    /// It gives events and takes what is sent.
    Open,
    /// It gives no event more. What waits is still sent.
    Ending,
    /// All is sent, and the peer was told so. What the peer still sends is dropped.
    Draining,
}

// The stage of a connection, with the time at which it is dropped if it isn't open, in milliseconds, and the number of
// bytes that were dropped while it drained.
#[derive(Drop)]
pub(crate) struct Stage {
    phase: Phase,
    until: u64,
    drained: u64,
}

impl Model for Stage {
    ghost use Rattle.edge_wire.specs.StageStates.{StageState};

    ghost Value = { StageState };

    ghost view = { λ s. record { phase = s.phase; until = s.until; drained = s.drained } };
}

impl Stage {
    // A connection that is open from the start.
    pub(crate) fn opened() -> Stage
        ensures { result ≡ first_stage }
    {
        Stage {
            phase: Phase::Open,
            until: 0,
            drained: 0,
        }
    }

    // A connection whose handshake begins now.
    pub(crate) fn greeting(now: u64) -> Stage
        ensures { result ≡ greeting_stage now }
    {
        Stage {
            phase: Phase::Greeting,
            until: now.saturating_add(GREETING_MILLIS),
            drained: 0,
        }
    }

    pub(crate) fn phase(&self) -> Phase
        ensures { result ≡ self.now.phase }
    {
        self.phase
    }

    // Whether events know the connection.
    pub(crate) fn is_known(&self) -> bool
        ensures { result ≡ is_known self.now }
    {
        self.phase == Phase::Open
    }

    // Whether the time is up.
    pub(crate) fn is_late(&self, now: u64) -> bool
        ensures { result ≡ is_late self.now now }
    {
        self.phase != Phase::Open && self.until <= now
    }

    // When the time is up; none where it is open.
    pub(crate) fn late_from(&self) -> Option<u64>
        ensures before { IfSome result (λ until. (now : ℕ) → now < until → is_late self.now now ≡ false) }
        ensures other { IfSome result (λ _. is_known self.now ≡ false) }
        ensures open { IfNone result (is_known self.now ≡ true) }
        ensures never { IfNone result ((now : ℕ) → is_late self.now now ≡ false) }
    {
        match self.phase {
            Phase::Open => None,
            Phase::Greeting | Phase::Ending | Phase::Draining => Some(self.until),
        }
    }

    // The handshake is done.
    pub(crate) fn greet(&mut self)
        ensures { self.new ≡ after_greeting self.old }
    {
        if self.phase == Phase::Greeting {
            self.phase = Phase::Open;
        }
    }

    // It gives no event from now on.
    pub(crate) fn end(&mut self, now: u64)
        ensures end { self.new ≡ after_end self.old now }
        ensures over { is_known self.new ≡ false }
    {
        match self.phase {
            Phase::Greeting | Phase::Open => {
                self.phase = Phase::Ending;
                self.until = now.saturating_add(ENDING_MILLIS);
            }
            Phase::Ending | Phase::Draining => {}
        }
    }

    // All that waited was sent.
    pub(crate) fn sent_all(&mut self)
        ensures { self.new ≡ after_sent self.old }
    {
        if self.phase == Phase::Ending {
            self.phase = Phase::Draining;
        }
    }

    // So many bytes were dropped. Whether more may be.
    pub(crate) fn drop_bytes(&mut self, count: u64) -> bool
        ensures dropped { self.new ≡ after_drop self.old count }
        ensures more { IsTrue result ↔ (self.new.drained ≤ 1048576) }
    {
        self.drained = self.drained.saturating_add(count);
        self.drained <= DRAIN_LIMIT
    }
}
