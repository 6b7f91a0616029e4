//! Serving with pushes, event after event.

ghost use Rattle.std.specs.Prelude.{◌≡◌, ◌≤◌, ◌<◌, ◌⊎◌, [], ◌∷◌, ℕ, List, Ok, IfOk, IsErrOf, IsSome, OnErr, OnOk, true, false};
ghost use Rattle.std.specs.Option.{option_map};
ghost use Rattle.edge_devices.specs.Clocks.{EntropyState};
ghost use Rattle.edge_devices.specs.Faults.{HasRisen};
ghost use Rattle.server_core.specs.History.{is_among};
ghost use Rattle.server_core.specs.Table.{pushed_from};
ghost use Rattle.message_replies.specs.Canonical.{canonical_reply};
ghost use Rattle.message_replies.specs.Header.{wrapped};
ghost use Rattle.server_waves.specs.Register.{Rolling};
ghost use Rattle.server_sessions.specs.Reports.{Desk, desk_of, host_of};
ghost use Rattle.server_sessions.specs.Wiring.{view_of};
ghost use Rattle.server_sessions.specs.Behind.{LeadsBy, post_of as behind_of};
ghost use Rattle.server_sessions.specs.Connections.{AreOpen, known_at};
ghost use Rattle.server_sessions.specs.Runs.{Gives};
ghost use Rattle.server_deliveries.specs.Pushing.{PushesEvents, PushesOver, PushesOverInPart, PushesTo, PushesToAll, PushingFails, PushingWants, SendsPush, but_for, pushed_to};
ghost use Rattle.server_deliveries.specs.Routes.{Reach, routes_ended, routes_noted};
ghost use Rattle.server_deliveries.specs.Turns.{AreKnown, Leads, PushesFirst, WereKnown, post_of};
ghost use Rattle.server_deliveries.specs.Views.{reach_of};

use crate::routes::Routes;
use edge_devices::{Entropy, Wire};
use message_handlers::{Handler, Handlers};
use message_replies::{WriteFail, encode_reply, ws_wrap};
use plain_values::{Blob, NoMemory, Uid};
use server_core::Server;
use server_sessions::{
    Behind, Connections, ServeEnd, Stepped, calls_join, endings_are_told, forgotten_streams_end,
    known_connections_stay_open, serve_by, streams_stay_keyed,
};
use server_waves::ServerDesk;
use std::alloc::Global;

// The payload that is pushed to an agent, if there is one.
fn payload_for(alloc: Global, server: &Server, uid: &Uid) -> Result<Option<Blob>, NoMemory>
    ensures payload { IfOk result (λ payload. payload ≡ option_map (λ message. wrapped (canonical_reply message)) (pushed_from server.now.profile server.now.table uid.now)) }
{
    let Some(message) = server.pushed(uid)? else {
        return Ok(None);
    };
    match encode_reply(alloc, &message) {
        Ok(bytes) => Ok(Some(ws_wrap(alloc, bytes.as_slice())?)),
        Err(WriteFail::NoMemory) => Err(NoMemory),
        Err(WriteFail::TooLarge | WriteFail::TooDeep) => unreachable!(),
    }
}

// Sends a payload on a connection, which isn't known any more where that is lost.
fn send_push<W: Wire>(
    connections: &mut Connections,
    routes: &mut Routes,
    wire: &mut W,
    conn: u64,
    payload: &[u8],
)
    requires own { IsSome (known_at connections.old conn) }
    requires open { AreOpen (W.calls wire.old) connections.old }
    requires known { AreKnown connections.old (reach_of routes.old) }
    ensures sends { (desk : Desk) → Leads (SendsPush (record { conn = conn; payload = payload.now })) desk
        (post_of connections.old (reach_of routes.old) (view_of (W.calls wire.old) (W.faults wire.old)))
        (post_of connections.new (reach_of routes.new) (view_of (W.calls wire.new) (W.faults wire.new))) }
    ensures open { AreOpen (W.calls wire.new) connections.new }
    ensures known { AreKnown connections.new (reach_of routes.new) }
    ensures calls { Gives (view_of (W.calls wire.old) (W.faults wire.old)) (view_of (W.calls wire.new) (W.faults wire.new)) [] }
{
    known_connections_stay_open();
    forgotten_streams_end();
    calls_join();
    if wire.send(conn, payload).is_ok() {
        return;
    }
    routes.forget(conn);
    connections.forget(conn);
}

// Pushes to an agent, where a connection reaches it and there is something to push.
fn push_to<W: Wire>(
    alloc: Global,
    connections: &mut Connections,
    routes: &mut Routes,
    server: &Server,
    wire: &mut W,
    uid: &Uid,
) -> Result<(), NoMemory>
    requires open { AreOpen (W.calls wire.old) connections.old }
    requires known { AreKnown connections.old (reach_of routes.old) }
    ensures pushes { OnOk result ((entropy : EntropyState) (rollouts : List Rolling) → Leads (PushesTo server.now.profile uid.now) (desk_of entropy server.now.table rollouts)
        (post_of connections.old (reach_of routes.old) (view_of (W.calls wire.old) (W.faults wire.old)))
        (post_of connections.new (reach_of routes.new) (view_of (W.calls wire.new) (W.faults wire.new)))) }
    ensures unsent { OnErr result ((connections.new ≡ connections.old) × (routes.new ≡ routes.old) × (wire.new ≡ wire.old)) }
    ensures open { AreOpen (W.calls wire.new) connections.new }
    ensures known { AreKnown connections.new (reach_of routes.new) }
    ensures calls { Gives (view_of (W.calls wire.old) (W.faults wire.old)) (view_of (W.calls wire.new) (W.faults wire.new)) [] }
{
    calls_join();
    let Some(conn) = routes.route(uid) else {
        return Ok(());
    };
    let Some(payload) = payload_for(alloc, server, uid)? else {
        return Ok(());
    };
    send_push(connections, routes, wire, conn, payload.as_slice());
    Ok(())
}

/// Pushes to each of these agents, in order. Where memory is wanting it pushed to some first ones of them.
pub fn push_to_all<W: Wire>(
    alloc: Global,
    connections: &mut Connections,
    routes: &mut Routes,
    server: &Server,
    wire: &mut W,
    uids: &[Uid],
) -> Result<(), NoMemory>
    requires open { AreOpen (W.calls wire.old) connections.old }
    requires known { AreKnown connections.old (reach_of routes.old) }
    ensures pushes { OnOk result ((entropy : EntropyState) (rollouts : List Rolling) → Leads (PushesToAll server.now.profile uids.now) (desk_of entropy server.now.table rollouts)
        (post_of connections.old (reach_of routes.old) (view_of (W.calls wire.old) (W.faults wire.old)))
        (post_of connections.new (reach_of routes.new) (view_of (W.calls wire.new) (W.faults wire.new)))) }
    ensures some { OnErr result (PushesFirst server.now.profile uids.now server.now.table
        (post_of connections.old (reach_of routes.old) (view_of (W.calls wire.old) (W.faults wire.old)))
        (post_of connections.new (reach_of routes.new) (view_of (W.calls wire.new) (W.faults wire.new)))) }
    ensures open { AreOpen (W.calls wire.new) connections.new }
    ensures known { AreKnown connections.new (reach_of routes.new) }
    ensures calls { Gives (view_of (W.calls wire.old) (W.faults wire.old)) (view_of (W.calls wire.new) (W.faults wire.new)) [] }
{
    calls_join();
    for uid in uids {
        push_to(alloc, connections, routes, server, wire, uid)?;
    }
    Ok(())
}

/// Notes what an event did to the routes, and sends the pushes that it asks for. After want of memory nothing is said of the routes.
pub fn push_due<W: Wire>(
    alloc: Global,
    connections: &mut Connections,
    routes: &mut Routes,
    server: &Server,
    wire: &mut W,
    stepped: &Stepped,
) -> Result<(), NoMemory>
    requires open { AreOpen (W.calls wire.old) connections.old }
    requires known { AreKnown connections.old (routes_ended stepped.now.ended (routes_noted stepped.now.handled (reach_of routes.old))) }
    ensures pushes { OnOk result ((entropy : EntropyState) (rollouts : List Rolling) → Leads (PushesToAll server.now.profile stepped.now.ordered) (desk_of entropy server.now.table rollouts)
        (post_of connections.old (routes_ended stepped.now.ended (routes_noted stepped.now.handled (reach_of routes.old))) (view_of (W.calls wire.old) (W.faults wire.old)))
        (post_of connections.new (reach_of routes.new) (view_of (W.calls wire.new) (W.faults wire.new)))) }
    ensures some { OnErr result ((reach : Reach) × PushesFirst server.now.profile stepped.now.ordered server.now.table
        (post_of connections.old (routes_ended stepped.now.ended (routes_noted stepped.now.handled (reach_of routes.old))) (view_of (W.calls wire.old) (W.faults wire.old)))
        (post_of connections.new reach (view_of (W.calls wire.new) (W.faults wire.new)))) }
    ensures open { OnOk result (AreOpen (W.calls wire.new) connections.new) }
    ensures known { OnOk result (AreKnown connections.new (reach_of routes.new)) }
    ensures calls { OnOk result (Gives (view_of (W.calls wire.old) (W.faults wire.old)) (view_of (W.calls wire.new) (W.faults wire.new)) []) }
{
    routes.follow(stepped.handled.as_slice(), stepped.ended.as_slice())?;
    push_to_all(
        alloc,
        connections,
        routes,
        server,
        wire,
        stepped.ordered.as_slice(),
    )
}

// Whether the agent is among these.
fn is_among(uids: &[Uid], uid: &Uid) -> bool
    ensures among { result ≡ is_among uids.now uid.now }
{
    uids.contains(uid)
}

// Pushes to an agent that isn't among the others.
fn push_unless<W: Wire>(
    alloc: Global,
    connections: &mut Connections,
    routes: &mut Routes,
    server: &Server,
    wire: &mut W,
    uid: &Uid,
    others: &[Uid],
) -> Result<(), NoMemory>
    requires open { AreOpen (W.calls wire.old) connections.old }
    requires known { AreKnown connections.old (reach_of routes.old) }
    ensures pushes { OnOk result ((entropy : EntropyState) (rollouts : List Rolling) → Leads (PushesToAll server.now.profile (but_for others.now (uid.now ∷ []))) (desk_of entropy server.now.table rollouts)
        (post_of connections.old (reach_of routes.old) (view_of (W.calls wire.old) (W.faults wire.old)))
        (post_of connections.new (reach_of routes.new) (view_of (W.calls wire.new) (W.faults wire.new)))) }
    ensures unsent { OnErr result ((connections.new ≡ connections.old) × (routes.new ≡ routes.old) × (wire.new ≡ wire.old)) }
    ensures open { AreOpen (W.calls wire.new) connections.new }
    ensures known { AreKnown connections.new (reach_of routes.new) }
    ensures calls { Gives (view_of (W.calls wire.old) (W.faults wire.old)) (view_of (W.calls wire.new) (W.faults wire.new)) [] }
{
    calls_join();
    if is_among(others, uid) {
        return Ok(());
    }
    push_to(alloc, connections, routes, server, wire, uid)
}

// Pushes to those of these agents that aren't among the others, in order. Where memory is wanting it pushed to some first ones of them.
fn push_to_others<W: Wire>(
    alloc: Global,
    connections: &mut Connections,
    routes: &mut Routes,
    server: &Server,
    wire: &mut W,
    uids: &[Uid],
    others: &[Uid],
) -> Result<(), NoMemory>
    requires open { AreOpen (W.calls wire.old) connections.old }
    requires known { AreKnown connections.old (reach_of routes.old) }
    ensures pushes { OnOk result ((entropy : EntropyState) (rollouts : List Rolling) → Leads (PushesToAll server.now.profile (but_for others.now uids.now)) (desk_of entropy server.now.table rollouts)
        (post_of connections.old (reach_of routes.old) (view_of (W.calls wire.old) (W.faults wire.old)))
        (post_of connections.new (reach_of routes.new) (view_of (W.calls wire.new) (W.faults wire.new)))) }
    ensures some { OnErr result (PushesFirst server.now.profile (but_for others.now uids.now) server.now.table
        (post_of connections.old (reach_of routes.old) (view_of (W.calls wire.old) (W.faults wire.old)))
        (post_of connections.new (reach_of routes.new) (view_of (W.calls wire.new) (W.faults wire.new)))) }
    ensures open { AreOpen (W.calls wire.new) connections.new }
    ensures known { AreKnown connections.new (reach_of routes.new) }
    ensures calls { Gives (view_of (W.calls wire.old) (W.faults wire.old)) (view_of (W.calls wire.new) (W.faults wire.new)) [] }
{
    calls_join();
    for uid in uids {
        push_unless(alloc, connections, routes, server, wire, uid, others)?;
    }
    Ok(())
}

/// Notes what an event did to the routes, and sends the pushes that its orders ask for, and then those to the agents that were newly
/// offered to behind it and aren't among those of its orders. After want of memory nothing is said of the routes.
pub fn push_behind<W: Wire>(
    alloc: Global,
    connections: &mut Connections,
    routes: &mut Routes,
    server: &Server,
    wire: &mut W,
    stepped: &Stepped,
    newly: &[Uid],
) -> Result<(), NoMemory>
    requires open { AreOpen (W.calls wire.old) connections.old }
    requires known { WereKnown connections.old stepped.now (reach_of routes.old) }
    ensures follows { OnOk result ((rollouts : List Rolling) → LeadsBy (PushesOver (pushed_to stepped.now.ordered newly.now)) server.now.profile
        (behind_of connections.old (view_of (W.calls wire.old) (W.faults wire.old)) server.now.table rollouts stepped.now (reach_of routes.old))
        (behind_of connections.new (view_of (W.calls wire.new) (W.faults wire.new)) server.now.table rollouts stepped.now (reach_of routes.new))) }
    ensures part { OnErr result ((rollouts : List Rolling) → LeadsBy (PushesOverInPart (pushed_to stepped.now.ordered newly.now)) server.now.profile
        (behind_of connections.old (view_of (W.calls wire.old) (W.faults wire.old)) server.now.table rollouts stepped.now (reach_of routes.old))
        (behind_of connections.new (view_of (W.calls wire.new) (W.faults wire.new)) server.now.table rollouts stepped.now (reach_of routes.new))) }
    ensures open { OnOk result (AreOpen (W.calls wire.new) connections.new) }
    ensures known { OnOk result (AreKnown connections.new (reach_of routes.new)) }
    ensures calls { OnOk result (Gives (view_of (W.calls wire.old) (W.faults wire.old)) (view_of (W.calls wire.new) (W.faults wire.new)) []) }
{
    calls_join();
    streams_stay_keyed();
    push_due(alloc, connections, routes, server, wire, stepped)?;
    let ordered = stepped.ordered.as_slice();
    push_to_others(alloc, connections, routes, server, wire, newly, ordered)
}

impl Behind for Routes {
    ghost use Rattle.std.specs.Prelude.{[], ⊤};
    ghost use Rattle.std.proofs.Common.{ap};
    ghost use Rattle.server_sessions.specs.Answers.{Sheet};
    ghost use Rattle.server_deliveries.specs.Pushing.{Pushes, PushesInPart};
    ghost use Rattle.server_deliveries.specs.Routes.{Reach};
    ghost use Rattle.server_deliveries.specs.Turns.{AreKnown};
    ghost use Rattle.server_deliveries.specs.Views.{reach_of};

    ghost Kept = { Reach };

    ghost kept = { λ routes. reach_of routes };

    ghost follows = { Pushes };

    ghost part = { PushesInPart };

    ghost offers = { λ end kept. [] };

    ghost fits = { λ routes known table rollouts. AreKnown known (reach_of routes) };

    ghost keeps = { λ a b. ⊤ };

    ghost changes = { λ profile ended end kept last kept' pushes. ap (λ (s : Sheet). s.desk.table) pushes.1 };

    ghost keeps_none = { λ a. tt };

    ghost keeps_more = { λ a b c p q. tt };

    fn follow<W: Wire>(
        &mut self,
        alloc: Global,
        connections: &mut Connections,
        desk: &mut ServerDesk,
        wire: &mut W,
        _piece: bool,
        stepped: &mut Stepped,
    ) -> Result<(), NoMemory> {
        streams_stay_keyed();
        push_due(alloc, connections, self, &desk.server, wire, stepped)
    }
}

/// Serves as `serve` of `server_sessions`, and pushes to the agents of the operator's lines that were answered by `ok`: behind the event that brought a line,
/// the message of the offers that are due to its agent goes out on the connection of WebSocket that last had a report of it answered without error.
///
/// # Errors
///
/// As `serve`; `NoMemory` also where memory for a push is wanting.
pub fn serve_pushing<W: Wire, E: Entropy>(
    alloc: Global,
    desk: &mut ServerDesk,
    handlers: &Handlers,
    wire: &mut W,
    entropy: &mut E,
    turns: u64,
) -> Result<u64, ServeEnd>
    // What went out and the table are those of the session of the events that the wire gave, with its pushes, and `stop` was the last of them.
    ensures within { IfOk result (λ n. n ≤ turns) }
    ensures stopped { IfOk result (λ n. PushesEvents (host_of answers desk.old.server.profile handlers.now) n
        (view_of (W.calls wire.old) (W.faults wire.old)) (view_of (W.calls wire.new) (W.faults wire.new)) (desk_of (E.state entropy.old) desk.old.server.table desk.old.rollouts) (desk_of (E.state entropy.new) desk.new.server.table desk.new.rollouts) true) }

    // All turns were taken, and none was `stop`.
    ensures spent { IsErrOf result ServeEnd.TurnsSpent → PushesEvents (host_of answers desk.old.server.profile handlers.now) turns
        (view_of (W.calls wire.old) (W.faults wire.old)) (view_of (W.calls wire.new) (W.faults wire.new)) (desk_of (E.state entropy.old) desk.old.server.table desk.old.rollouts) (desk_of (E.state entropy.new) desk.new.server.table desk.new.rollouts) false }

    // The wire failed where a next event was asked for.
    ensures failed { IsErrOf result ServeEnd.WireFault → (n : ℕ) × (n < turns) × PushingFails (host_of answers desk.old.server.profile handlers.now) n
        (view_of (W.calls wire.old) (W.faults wire.old)) (view_of (W.calls wire.new) (W.faults wire.new)) (desk_of (E.state entropy.old) desk.old.server.table desk.old.rollouts) (desk_of (E.state entropy.new) desk.new.server.table desk.new.rollouts) }
    ensures fault { IsErrOf result ServeEnd.WireFault → HasRisen (W.faults wire.old) (W.faults wire.new) }

    // Memory was wanting where a next event was asked for, or for that event: then nothing was done for it, or all that is due, and of its pushes some
    // first ones went out.
    ensures wanting { IsErrOf result ServeEnd.NoMemory → (n : ℕ) × (n < turns) × PushingWants (host_of answers desk.old.server.profile handlers.now) n
        (view_of (W.calls wire.old) (W.faults wire.old)) (view_of (W.calls wire.new) (W.faults wire.new)) (desk_of (E.state entropy.old) desk.old.server.table desk.old.rollouts) (desk_of (E.state entropy.new) desk.new.server.table desk.new.rollouts) }

    // The other way round, where the wire tells its calls: a run of all turns without `stop` ends so, but for want of memory, and but for one that ended by
    // `stop` at its last turn with the same calls.
    ensures spent_told { PushesEvents (host_of answers desk.old.server.profile handlers.now) turns
        (view_of (W.calls wire.old) (W.faults wire.old)) (view_of (W.calls wire.new) (W.faults wire.new)) (desk_of (E.state entropy.old) desk.old.server.table desk.old.rollouts) (desk_of (E.state entropy.new) desk.new.server.table desk.new.rollouts) false
        → IsSome (W.calls wire.old) → IsErrOf result ServeEnd.TurnsSpent ⊎ (IsErrOf result ServeEnd.NoMemory ⊎ ((result ≡ Ok turns) × PushesEvents (host_of answers desk.old.server.profile handlers.now) turns
        (view_of (W.calls wire.old) (W.faults wire.old)) (view_of (W.calls wire.new) (W.faults wire.new)) (desk_of (E.state entropy.old) desk.old.server.table desk.old.rollouts) (desk_of (E.state entropy.new) desk.new.server.table desk.new.rollouts) true)) }
    ensures profile { desk.new.server.profile ≡ desk.old.server.profile }
{
    let mut routes = Routes::new(alloc);
    endings_are_told(&desk.server, handlers, &routes);
    serve_by(alloc, desk, handlers, wire, entropy, turns, &mut routes)
}
