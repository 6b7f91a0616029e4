//! Serving at the three addresses.

ghost use Rattle.std.specs.Prelude.{◌≡◌, ◌⊎◌, [], None, IfErr, IfOk, IsSome, OnErr, OnOk, false};
ghost use Rattle.edge_devices.specs.declared.wires.WireCall.TheVariants.{Listened};
ghost use Rattle.message_handlers.specs.Asking.{MayAnswer};
ghost use Rattle.message_handlers.specs.Names.{names_of};
ghost use Rattle.server_core.specs.Table.{empty_within};
ghost use Rattle.server_sessions.specs.Wiring.{IsDone, IsFailed, view_of};
ghost use Rattle.std.specs.Option.{option_copied};
ghost use Rattle.server_deliveries.specs.Deliveries.{anew, delivered_of};
ghost use Rattle.edge_notes.specs.Noted.{IsNoted};
ghost use Rattle.command_serve.specs.Notes.{NotesAddress, RunNotes, ServingNotes, address_line};
ghost use Rattle.command_serve.specs.Outcomes.{Served, ServeOutcome};
ghost use Rattle.command_serve.specs.Rolling.{progress_in};
ghost use Rattle.command_serve.specs.Serving.{Dispatch, FailsToListen, IsProfileWith, Listens, RunEnds, Serves, StopsLast, listenings};
ghost use Rattle.command_serve.specs.Statuses.{status_of};

use crate::lines::lines_of;
use crate::notes::{note_address, note_listening, note_sockets};
use crate::reporting::report;
use crate::status::ServeStatus;
use command_words::ServeOptions;
use edge_devices::{Entropy, Kind, Sink, Wire, WireFault};
use message_handlers::{Handler, Handlers};
use plain_values::{NoMemory, Text};
use server_core::{Limits, Server, few_names_fit};
use server_deliveries::{Delivery, deliveries_have_cases, serve_delivering, sessions_keep_width};
use server_sessions::{ServeEnd, runs_have_one_ending, server_sessions_are_cases};
use server_waves::{Judge, Progress, Rollouts, ServerDesk, rollouts_keep_width};
use std::alloc::Global;

/// What the server can do: AcceptsStatus, OffersRemoteConfig, AcceptsEffectiveConfig, OffersPackages, AcceptsPackagesStatus and
/// OffersConnectionSettings (OpAMP specification, "ServerToAgent.capabilities").
pub const SERVER_CAPABILITIES: u64 = 0x3F;

// A server of no agents, within the limits of the options, with the capabilities of these handlers.
fn server_with(
    alloc: Global,
    options: &ServeOptions,
    handlers: &Handlers,
) -> Result<Server, NoMemory>
    ensures profile { IfOk result (λ server. IsProfileWith (names_of handlers.now) options.now.connections server.profile) }
    ensures table { IfOk result (λ server. server.table ≡ empty_within options.now.agents) }
{
    few_names_fit();
    let names = handlers.names(alloc)?;
    let limits = Limits {
        agents: options.agents as usize,
        connections: options.connections as usize,
    };
    Ok(Server::with_limits(alloc, limits, SERVER_CAPABILITIES, names))
}

/// A desk of no agents, within the limits of the options, and of no rollouts, with the capabilities of these handlers.
pub(crate) fn desk_with(
    alloc: Global,
    options: &ServeOptions,
    handlers: &Handlers,
) -> Result<ServerDesk, NoMemory>
    ensures profile { IfOk result (λ desk. IsProfileWith (names_of handlers.now) options.now.connections desk.server.profile) }
    ensures table { IfOk result (λ desk. desk.server.table ≡ empty_within options.now.agents) }
    ensures rollouts { IfOk result (λ desk. desk.rollouts ≡ []) }
{
    let server = server_with(alloc, options, handlers)?;
    Ok(ServerDesk {
        server,
        rollouts: Rollouts::new(alloc),
    })
}

// How far the rollout of the name that is told is, if one is told and it is there.
fn progress_in(rollouts: &Rollouts, told: Option<&Text>) -> Option<Progress>
    ensures progress { result ≡ progress_in (option_copied told.entry) rollouts.now }
{
    match told {
        None => None,
        Some(id) => match rollouts.find(id) {
            None => None,
            Some(rollout) => Some(rollout.progress()),
        },
    }
}

// Takes connections of the kind at the address, and notes where it can't.
fn listen<W: Wire, N: Sink>(
    wire: &mut W,
    notes: &mut N,
    kind: Kind,
    address: &Text,
) -> Result<(), WireFault>
    ensures done { OnOk result (IsDone (Listened kind address.now) (view_of (W.calls wire.old) (W.faults wire.old)) (view_of (W.calls wire.new) (W.faults wire.new))) }
    ensures failed { OnErr result (IsFailed (view_of (W.calls wire.old) (W.faults wire.old)) (view_of (W.calls wire.new) (W.faults wire.new))) }
    ensures noted { IfErr result (λ fault. IsNoted (address_line address.now fault) (record { taken = N.taken notes.old; faults = N.faults notes.old }) (record { taken = N.taken notes.new; faults = N.faults notes.new })) }
    ensures silent { OnOk result (notes.new ≡ notes.old) }
{
    match wire.listen(kind, address) {
        Ok(()) => Ok(()),
        Err(fault) => {
            note_address(notes, address, fault);
            Err(fault)
        }
    }
}

// Takes connections at the three addresses, until an address fails, which is noted.
fn listen_all<W: Wire, N: Sink>(
    wire: &mut W,
    notes: &mut N,
    options: &ServeOptions,
) -> Result<(), WireFault>
    ensures listens { OnOk result (Listens (listenings options.now) (view_of (W.calls wire.old) (W.faults wire.old)) (view_of (W.calls wire.new) (W.faults wire.new))) }
    ensures failed { OnErr result (FailsToListen options.now (view_of (W.calls wire.old) (W.faults wire.old)) (view_of (W.calls wire.new) (W.faults wire.new))) }
    ensures noted { OnErr result (NotesAddress options.now (view_of (W.calls wire.old) (W.faults wire.old)) (view_of (W.calls wire.new) (W.faults wire.new)) (record { taken = N.taken notes.old; faults = N.faults notes.old }) (record { taken = N.taken notes.new; faults = N.faults notes.new })) }
    ensures silent { OnOk result (notes.new ≡ notes.old) }
{
    match listen(wire, notes, Kind::Http, &options.http) {
        Ok(()) => {}
        Err(fault) => return Err(fault),
    }
    match listen(wire, notes, Kind::Ws, &options.ws) {
        Ok(()) => {}
        Err(fault) => return Err(fault),
    }
    match listen(wire, notes, Kind::Operator, &options.operator) {
        Ok(()) => Ok(()),
        Err(fault) => Err(fault),
    }
}

// Serves at the three addresses from this desk, with what delivers offers, and gives the number of events. The addresses are noted once they are listened to,
// and where they or the sockets fail.
fn serve_all<W: Wire, N: Sink, E: Entropy, J: Judge>(
    alloc: Global,
    options: &ServeOptions,
    handlers: &Handlers,
    wire: &mut W,
    notes: &mut N,
    entropy: &mut E,
    desk: &mut ServerDesk,
    delivery: &mut Delivery<J>,
) -> Result<u64, ServeEnd>
    requires profile { IsProfileWith (names_of handlers.now) options.now.connections desk.old.server.profile }
    requires table { desk.old.server.table ≡ empty_within options.now.agents }
    ensures ends { RunEnds (names_of handlers.now) (MayAnswer answers handlers.now) options.now (record { rollouts = desk.old.rollouts; delivered = anew (delivered_of J.finds_fine delivery.old) })
        (view_of (W.calls wire.old) (W.faults wire.old)) (view_of (W.calls wire.new) (W.faults wire.new)) (E.state entropy.old) (E.state entropy.new) (record { rollouts = desk.new.rollouts; delivered = delivered_of J.finds_fine delivery.new }) result }
    ensures stops_last { IfOk result (λ n. (last : Dispatch) → Serves (names_of handlers.now) (MayAnswer answers handlers.now) options.now (record { rollouts = desk.old.rollouts; delivered = anew (delivered_of J.finds_fine delivery.old) }) options.now.turns
        (view_of (W.calls wire.old) (W.faults wire.old)) (view_of (W.calls wire.new) (W.faults wire.new)) (E.state entropy.old) (E.state entropy.new) last false
        → IsSome (W.calls wire.old) → StopsLast (names_of handlers.now) (MayAnswer answers handlers.now) options.now (record { rollouts = desk.old.rollouts; delivered = anew (delivered_of J.finds_fine delivery.old) })
        (view_of (W.calls wire.old) (W.faults wire.old)) (view_of (W.calls wire.new) (W.faults wire.new)) (E.state entropy.old) (E.state entropy.new)) }
    ensures noted { RunNotes (MayAnswer answers handlers.now) options.now (view_of (W.calls wire.old) (W.faults wire.old)) (view_of (W.calls wire.new) (W.faults wire.new)) result (record { taken = N.taken notes.old; faults = N.faults notes.old }) (record { taken = N.taken notes.new; faults = N.faults notes.new }) }
{
    runs_have_one_ending(&desk.server, handlers);
    server_sessions_are_cases(&desk.server, handlers);
    deliveries_have_cases(&desk.server, handlers);
    sessions_keep_width(&desk.server, handlers);
    rollouts_keep_width();
    let turns = options.turns;
    match listen_all(wire, notes, options) {
        Ok(()) => {
            note_listening(notes, options);
            let journal = options.journal;
            let ending = serve_delivering(
                alloc, desk, handlers, wire, entropy, turns, delivery, notes, journal,
            );
            note_sockets(notes, ending);
            ending
        }
        Err(_) => Err(ServeEnd::WireFault),
    }
}

/// Serves agents and operators at the addresses of the options from this desk, with what delivers offers, and writes the lines that say how
/// it went, where an operator said `stop` or all turns were taken: with the rollout of the name that is told, if one is told and it is there.
pub(crate) fn run_desk<K: Sink, N: Sink, W: Wire, E: Entropy, J: Judge>(
    alloc: Global,
    options: &ServeOptions,
    told: Option<&Text>,
    sink: &mut K,
    notes: &mut N,
    handlers: &Handlers,
    wire: &mut W,
    entropy: &mut E,
    desk: &mut ServerDesk,
    delivery: &mut Delivery<J>,
) -> ServeStatus
    requires profile { IsProfileWith (names_of handlers.now) options.now.connections desk.old.server.profile }
    requires table { desk.old.server.table ≡ empty_within options.now.agents }
    ensures served { Served (names_of handlers.now) (MayAnswer answers handlers.now) options.now (record { rollouts = desk.old.rollouts; delivered = anew (delivered_of J.finds_fine delivery.old) }) (option_copied told.entry)
        (record { sink = record { taken = K.taken sink.old; faults = K.faults sink.old }; wire = view_of (W.calls wire.old) (W.faults wire.old); entropy = E.state entropy.old })
        (record { sink = record { taken = K.taken sink.new; faults = K.faults sink.new }; wire = view_of (W.calls wire.new) (W.faults wire.new); entropy = E.state entropy.new }) result }

    // Where the wire failed or memory was wanting nothing was written.
    ensures silent { (result ≡ ServeStatus.WireFault) ⊎ (result ≡ ServeStatus.NoMemory) → sink.new ≡ sink.old }

    // What was noted so far.
    ensures noted { ServingNotes (MayAnswer answers handlers.now) options.now (view_of (W.calls wire.old) (W.faults wire.old)) (view_of (W.calls wire.new) (W.faults wire.new)) result (record { taken = N.taken notes.old; faults = N.faults notes.old }) (record { taken = N.taken notes.new; faults = N.faults notes.new }) }
{
    match serve_all(
        alloc, options, handlers, wire, notes, entropy, desk, delivery,
    ) {
        Ok(events) => {
            let lines = lines_of(alloc, events, progress_in(&desk.rollouts, told));
            report(sink, lines, true)
        }
        Err(ServeEnd::TurnsSpent) => {
            let lines = lines_of(alloc, options.turns, progress_in(&desk.rollouts, told));
            report(sink, lines, false)
        }
        Err(ServeEnd::WireFault) => ServeStatus::WireFault,
        Err(ServeEnd::NoMemory) => ServeStatus::NoMemory,
    }
}

/// Serves agents and operators at the addresses of the options, and writes the line `events N` with the number of events that
/// were taken, where an operator said `stop` or all turns were taken. Operators may begin rollouts, for which this judge decides.
///
/// The addresses are listened to in this order: HTTP, WebSocket, operators. The server says the capabilities 63 and the names of
/// the handlers' capabilities, holds no agent at first, and never more agents than the options say, nor knows more connections. Want of
/// memory can end it at any time.
pub fn run_serve<K: Sink, N: Sink, W: Wire, E: Entropy, J: Judge>(
    alloc: Global,
    options: &ServeOptions,
    judge: J,
    sink: &mut K,
    notes: &mut N,
    handlers: &Handlers,
    wire: &mut W,
    entropy: &mut E,
) -> ServeStatus
    ensures outcome { ServeOutcome (names_of handlers.now) (MayAnswer answers handlers.now) (J.finds_fine judge) options.now
        (record { sink = record { taken = K.taken sink.old; faults = K.faults sink.old }; wire = view_of (W.calls wire.old) (W.faults wire.old); entropy = E.state entropy.old })
        (record { sink = record { taken = K.taken sink.new; faults = K.faults sink.new }; wire = view_of (W.calls wire.new) (W.faults wire.new); entropy = E.state entropy.new }) (status_of result) }

    // Where the wire failed or memory was wanting nothing was written.
    ensures silent { (result ≡ ServeStatus.WireFault) ⊎ (result ≡ ServeStatus.NoMemory) → sink.new ≡ sink.old }

    // What was noted before the status is: the addresses once they were listened to, or the one that failed; and where the sockets failed.
    ensures noted { ServingNotes (MayAnswer answers handlers.now) options.now (view_of (W.calls wire.old) (W.faults wire.old)) (view_of (W.calls wire.new) (W.faults wire.new)) result (record { taken = N.taken notes.old; faults = N.faults notes.old }) (record { taken = N.taken notes.new; faults = N.faults notes.new }) }
{
    let Ok(mut desk) = desk_with(alloc, options, handlers) else {
        return ServeStatus::NoMemory;
    };
    let mut delivery = Delivery::new(alloc, judge, options.push);
    run_desk(
        alloc,
        options,
        None,
        sink,
        notes,
        handlers,
        wire,
        entropy,
        &mut desk,
        &mut delivery,
    )
}
