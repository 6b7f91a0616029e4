//! What follows an event.

ghost use Rattle.std.specs.Prelude.{◌≡◌, [], ℕ, List, OnErr, OnOk};
ghost use Rattle.server_sessions.specs.Behind.{IsBehind, LeadsBy, is_piece, post_of};
ghost use Rattle.server_sessions.specs.Connections.{AreOpen, Known};
ghost use Rattle.server_sessions.specs.Runs.{Gives};
ghost use Rattle.server_sessions.specs.Sessions.{Following, Offering, OffersBy};
ghost use Rattle.server_core.specs.Table.{Table};
ghost use Rattle.server_waves.specs.Register.{Rolling};
ghost use Rattle.server_sessions.specs.Wiring.{view_of};

use crate::answers::Stepped;
use crate::connections::Connections;
use edge_devices::{Wire, WireEvent};
use plain_values::NoMemory;
use server_waves::ServerDesk;
use std::alloc::Global;

/// What follows each event of a session, when all that is due for it was done.
pub trait Behind {
    // What is kept for it, as contracts see it.
    ghost Kept: { Type 0 };

    ghost kept: { Self → Kept };

    // What follows, and what of it was done where memory was wanting.
    ghost follows: { Following Kept };

    ghost part: { Following Kept };

    // The offers that it makes.
    ghost offers: { Offering Kept };

    // It fits the known connections, the table and the rollouts.
    ghost fits: { Self → Known → Table → List Rolling → Type 0 };

    // What it keeps to in all that it does, also where memory is wanting.
    ghost keeps: { Self → Self → Type 0 };

    /// Does what follows an event. It is told whether bytes came on a connection.
    ///
    /// # Errors
    ///
    /// `NoMemory` alone.
    fn follow<W: Wire>(
        &mut self,
        alloc: Global,
        connections: &mut Connections,
        desk: &mut ServerDesk,
        wire: &mut W,
        piece: bool,
        stepped: &mut Stepped,
    ) -> Result<(), NoMemory>
        requires behind { IsBehind (fits self.old) piece connections.old desk.old.server.table desk.old.rollouts stepped.old }
        requires open { AreOpen (W.calls wire.old) connections.old }
        ensures follows { OnOk result (LeadsBy follows desk.old.server.profile
            (post_of connections.old (view_of (W.calls wire.old) (W.faults wire.old)) desk.old.server.table desk.old.rollouts stepped.old (kept self.old))
            (post_of connections.new (view_of (W.calls wire.new) (W.faults wire.new)) desk.new.server.table desk.new.rollouts stepped.new (kept self.new))) }
        ensures part { OnErr result (LeadsBy part desk.old.server.profile
            (post_of connections.old (view_of (W.calls wire.old) (W.faults wire.old)) desk.old.server.table desk.old.rollouts stepped.old (kept self.old))
            (post_of connections.new (view_of (W.calls wire.new) (W.faults wire.new)) desk.new.server.table desk.new.rollouts stepped.new (kept self.new))) }
        ensures fits { OnOk result (fits self.new connections.new desk.new.server.table desk.new.rollouts) }
        ensures keeps { keeps self.old self.new }
        ensures open { OnOk result (AreOpen (W.calls wire.new) connections.new) }
        ensures calls { OnOk result (Gives (view_of (W.calls wire.old) (W.faults wire.old)) (view_of (W.calls wire.new) (W.faults wire.new)) []) }
        ensures profile { desk.new.server.profile ≡ desk.old.server.profile };

    // The offers are all that it changes of the table.
    ghost changes: { OffersBy follows offers };

    // What is kept to is so from step to step.
    ghost keeps_none: { (a : Self) → keeps a a };

    ghost keeps_more: { (a b c : Self) → keeps a b → keeps b c → keeps a c };
}

/// Nothing follows.
#[derive(Drop)]
pub struct Nothing;

impl Behind for Nothing {
    ghost use Rattle.std.specs.Prelude.{[], ⊤};
    ghost use Rattle.std.proofs.Common.{ap};
    ghost use Rattle.server_sessions.specs.Session.{Moment};
    ghost use Rattle.server_sessions.specs.Sessions.{Nothing as NothingFollows};

    ghost Kept = { Unit };

    ghost kept = { λ nothing. tt };

    ghost follows = { NothingFollows };

    ghost part = { NothingFollows };

    ghost offers = { λ end kept. [] };

    ghost fits = { λ nothing known table rollouts. ⊤ };

    ghost keeps = { λ a b. ⊤ };

    ghost changes = { λ profile ended end kept last kept' is. ap (λ (m : Moment). m.scene.sheet.desk.table) is };

    ghost keeps_none = { λ a. tt };

    ghost keeps_more = { λ a b c p q. tt };

    fn follow<W: Wire>(
        &mut self,
        _alloc: Global,
        _connections: &mut Connections,
        _desk: &mut ServerDesk,
        _wire: &mut W,
        _piece: bool,
        _stepped: &mut Stepped,
    ) -> Result<(), NoMemory> {
        Ok(())
    }
}

/// Whether bytes came on a connection.
pub fn is_piece(event: &WireEvent) -> bool
    ensures piece { result ≡ is_piece event.now }
{
    matches!(event, WireEvent::Piece { .. })
}
