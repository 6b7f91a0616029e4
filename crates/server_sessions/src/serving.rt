//! Serving, event after event.

ghost use Rattle.std.specs.Prelude.{◌≡◌, ◌+◌, ◌≤◌, ◌<◌, ◌⊎◌, [], ℕ, Ok, IfOk, OnOk, IsErrOf, IsSome, true, false};
ghost use Rattle.edge_devices.specs.Faults.{HasRisen};
ghost use Rattle.server_sessions.specs.Reports.{desk_of, host_of};
ghost use Rattle.server_sessions.specs.Wiring.{view_of};
ghost use Rattle.server_sessions.specs.Behind.{Stands, TurnEndsBy, looking};
ghost use Rattle.server_sessions.specs.Connections.{AreOpen};
ghost use Rattle.server_sessions.specs.Journaling.{Journaling, journaled};
ghost use Rattle.server_sessions.specs.Runs.{FailsAfter, IsLostLast, ServesEvents, WantsAfter};
ghost use Rattle.server_sessions.specs.Sessions.{EndsBy, site_of};

use crate::behind::{Behind, Nothing, is_piece};
use crate::connections::Connections;
use crate::journaling::put_journal;
use crate::marking::mark_behind;
use edge_devices::{Entropy, MemorySink, Sink, Wire, WireFail};
use message_handlers::{Handler, Handlers};
use plain_values::NoMemory;
use server_lines::Sightings;
use server_lines::laws::one_order_a_line;
use server_waves::{ServerDesk, orders_offer_nothing};
use std::alloc::Global;
use thiserror::Error;

/// Why serving ended without `stop`.
#[derive(Clone, Copy, Debug, PartialEq, Eq, Error)]
pub enum ServeEnd {
    /// The wire failed where it was asked for the next event.
    #[error("the wire failed")]
    WireFault,
    /// All turns were taken.
    #[error("all turns were taken")]
    TurnsSpent,
    /// There was no memory for an event, or for what is kept of a connection.
    #[error("there was no memory")]
    NoMemory,
}

impl From<WireFail> for ServeEnd {
    ghost use Rattle.server_sessions.specs.Ends.{end_of};
    ghost use Rattle.std.specs.Prelude.{◌≡◌};

    ghost from_gives = { λ fail end. end ≡ end_of fail };

    fn from(fail: WireFail) -> ServeEnd {
        match fail {
            WireFail::Fault => ServeEnd::WireFault,
            WireFail::NoMemory => ServeEnd::NoMemory,
        }
    }
}

impl From<NoMemory> for ServeEnd {
    ghost use Rattle.server_sessions.specs.declared.serving.ServeEnd.TheVariants.{NoMemory};
    ghost use Rattle.std.specs.Prelude.{◌≡◌};

    ghost from_gives = { λ _ end. end ≡ NoMemory };

    fn from(_error: NoMemory) -> ServeEnd {
        ServeEnd::NoMemory
    }
}

// Takes an event of the wire, does what is due for it, counts it, notes the lines of its orders, where a journal is kept, and does what follows it. It tells
// whether the run ends.
fn turn<W: Wire, E: Entropy, B: Behind, N: Sink>(
    alloc: Global,
    connections: &mut Connections,
    seen: &mut Sightings,
    desk: &mut ServerDesk,
    handlers: &Handlers,
    wire: &mut W,
    entropy: &mut E,
    behind: &mut B,
    notes: &mut N,
    journal: bool,
    taken: &mut u64,
) -> Result<bool, ServeEnd>
    requires stands { Stands connections.old }
    requires open { AreOpen (W.calls wire.old) connections.old }
    requires room { taken.old < 18446744073709551615 }
    requires fits { B.fits behind.old connections.old desk.old.server.table desk.old.rollouts }
    ensures ends { TurnEndsBy (Journaling journal B.follows) (Journaling journal B.part) (host_of answers desk.old.server.profile handlers.now) (looking connections.old seen.old) (looking connections.new seen.new)
        (site_of (view_of (W.calls wire.old) (W.faults wire.old)) (desk_of (E.state entropy.old) desk.old.server.table desk.old.rollouts) (journaled (B.kept behind.old) taken.old (record { taken = N.taken notes.old; faults = N.faults notes.old })))
        (site_of (view_of (W.calls wire.new) (W.faults wire.new)) (desk_of (E.state entropy.new) desk.new.server.table desk.new.rollouts) (journaled (B.kept behind.new) taken.new (record { taken = N.taken notes.new; faults = N.faults notes.new }))) result }
    ensures silent { journal ≡ false → notes.new ≡ notes.old }
    ensures counted { OnOk result (taken.new ≡ taken.old + 1) }
    ensures open { OnOk result (AreOpen (W.calls wire.new) connections.new) }
    ensures fits { OnOk result (B.fits behind.new connections.new desk.new.server.table desk.new.rollouts) }
    ensures keeps { B.keeps behind.old behind.new }
    ensures profile { desk.new.server.profile ≡ desk.old.server.profile }
{
    orders_offer_nothing();
    let given = wire.next(alloc)?;
    let piece = is_piece(&given.event);
    seen.begin(given.at);
    let mut stepped = connections.step(alloc, desk, seen, handlers, wire, entropy, given.event)?;
    mark_behind(seen, &desk.server, stepped.handled.as_slice())?;
    *taken += 1;
    put_journal(notes, journal, *taken, stepped.entries.as_slice());
    let stop = stepped.stop;
    behind.follow(alloc, connections, desk, wire, piece, &mut stepped)?;
    Ok(stop)
}

/// Serves the events of a wire until the line `stop` comes, at most so many of them, and gives their number. What goes out on each
/// connection, and what becomes of the server's table, is said by `specs/Sessions.antt`: for each event what is due, and then what
/// follows it. Where a journal is kept, the sink of notes gets a line `order N C WORDS: ANSWER` for each order that isn't a question, before what follows
/// its event, whose number N is, counted from 1; C is the connection's. A line that it doesn't take changes nothing else.
///
/// # Errors
///
/// `WireFault` only where the wire answered a fault when it was asked for the next event, `TurnsSpent` exactly where so many events
/// were taken without `stop`, and `NoMemory`, where memory is wanting for an event, for what is kept of a connection, or for what follows.
pub fn serve_noting<W: Wire, E: Entropy, B: Behind, N: Sink>(
    alloc: Global,
    desk: &mut ServerDesk,
    handlers: &Handlers,
    wire: &mut W,
    entropy: &mut E,
    turns: u64,
    behind: &mut B,
    notes: &mut N,
    journal: bool,
) -> Result<u64, ServeEnd>
    requires fits { B.fits behind.old [] desk.old.server.table desk.old.rollouts }
    ensures ends { EndsBy B.follows B.part (host_of answers desk.old.server.profile handlers.now) turns
        (site_of (view_of (W.calls wire.old) (W.faults wire.old)) (desk_of (E.state entropy.old) desk.old.server.table desk.old.rollouts) (B.kept behind.old))
        (site_of (view_of (W.calls wire.new) (W.faults wire.new)) (desk_of (E.state entropy.new) desk.new.server.table desk.new.rollouts) (B.kept behind.new)) result }

    // The same with the lines of the journal, of which there are none where none is kept.
    ensures journals { (count : ℕ) × EndsBy (Journaling journal B.follows) (Journaling journal B.part) (host_of answers desk.old.server.profile handlers.now) turns
        (site_of (view_of (W.calls wire.old) (W.faults wire.old)) (desk_of (E.state entropy.old) desk.old.server.table desk.old.rollouts) (journaled (B.kept behind.old) 0 (record { taken = N.taken notes.old; faults = N.faults notes.old })))
        (site_of (view_of (W.calls wire.new) (W.faults wire.new)) (desk_of (E.state entropy.new) desk.new.server.table desk.new.rollouts) (journaled (B.kept behind.new) count (record { taken = N.taken notes.new; faults = N.faults notes.new }))) result }
    ensures silent { journal ≡ false → notes.new ≡ notes.old }
    ensures keeps { B.keeps behind.old behind.new }
    ensures profile { desk.new.server.profile ≡ desk.old.server.profile }
{
    let mut connections = Connections::new(alloc);
    let mut seen = Sightings::new(alloc);
    let mut taken = 0;
    while taken < turns {
        match turn(
            alloc,
            &mut connections,
            &mut seen,
            desk,
            handlers,
            wire,
            entropy,
            behind,
            notes,
            journal,
            &mut taken,
        ) {
            Err(end) => return Err(end),
            Ok(stop) => {
                if stop {
                    return Ok(taken);
                }
            }
        }
    }
    Err(ServeEnd::TurnsSpent)
}

/// Serves as `serve_noting`, and keeps no journal.
///
/// # Errors
///
/// Those of `serve_noting`.
pub fn serve_by<W: Wire, E: Entropy, B: Behind>(
    alloc: Global,
    desk: &mut ServerDesk,
    handlers: &Handlers,
    wire: &mut W,
    entropy: &mut E,
    turns: u64,
    behind: &mut B,
) -> Result<u64, ServeEnd>
    requires fits { B.fits behind.old [] desk.old.server.table desk.old.rollouts }
    ensures ends { EndsBy B.follows B.part (host_of answers desk.old.server.profile handlers.now) turns
        (site_of (view_of (W.calls wire.old) (W.faults wire.old)) (desk_of (E.state entropy.old) desk.old.server.table desk.old.rollouts) (B.kept behind.old))
        (site_of (view_of (W.calls wire.new) (W.faults wire.new)) (desk_of (E.state entropy.new) desk.new.server.table desk.new.rollouts) (B.kept behind.new)) result }
    ensures keeps { B.keeps behind.old behind.new }
    ensures profile { desk.new.server.profile ≡ desk.old.server.profile }
{
    let mut notes = MemorySink::new(alloc, 0, Vec::new(alloc));
    serve_noting(
        alloc, desk, handlers, wire, entropy, turns, behind, &mut notes, false,
    )
}

/// Serves as `serve_by`, where nothing follows an event. What goes out on each connection, and what becomes of the server's table, is
/// said by `specs/Session.antt`.
///
/// # Errors
///
/// `WireFault` only where the wire answered a fault when it was asked for the next event, `TurnsSpent` exactly where so many events
/// were taken without `stop`, and `NoMemory`, where memory is wanting for an event or for what is kept of a connection.
pub fn serve<W: Wire, E: Entropy>(
    alloc: Global,
    desk: &mut ServerDesk,
    handlers: &Handlers,
    wire: &mut W,
    entropy: &mut E,
    turns: u64,
) -> Result<u64, ServeEnd>
    // What went out and the table are those of the session of the events that the wire gave, and `stop` was the last of them.
    ensures within { IfOk result (λ n. n ≤ turns) }
    ensures stopped { IfOk result (λ n. ServesEvents (host_of answers desk.old.server.profile handlers.now) n
        (view_of (W.calls wire.old) (W.faults wire.old)) (view_of (W.calls wire.new) (W.faults wire.new)) (desk_of (E.state entropy.old) desk.old.server.table desk.old.rollouts) (desk_of (E.state entropy.new) desk.new.server.table desk.new.rollouts) true) }

    // All turns were taken, and none was `stop`.
    ensures spent { IsErrOf result ServeEnd.TurnsSpent → ServesEvents (host_of answers desk.old.server.profile handlers.now) turns
        (view_of (W.calls wire.old) (W.faults wire.old)) (view_of (W.calls wire.new) (W.faults wire.new)) (desk_of (E.state entropy.old) desk.old.server.table desk.old.rollouts) (desk_of (E.state entropy.new) desk.new.server.table desk.new.rollouts) false }

    // The wire failed where a next event was asked for.
    ensures failed { IsErrOf result ServeEnd.WireFault → (n : ℕ) × (n < turns) × FailsAfter (host_of answers desk.old.server.profile handlers.now) n
        (view_of (W.calls wire.old) (W.faults wire.old)) (view_of (W.calls wire.new) (W.faults wire.new)) (desk_of (E.state entropy.old) desk.old.server.table desk.old.rollouts) (desk_of (E.state entropy.new) desk.new.server.table desk.new.rollouts) }
    ensures fault { IsErrOf result ServeEnd.WireFault → HasRisen (W.faults wire.old) (W.faults wire.new) }

    // Memory was wanting where a next event was asked for, or for that event: then nothing was done for it, or all that is due.
    ensures wanting { IsErrOf result ServeEnd.NoMemory → (n : ℕ) × (n < turns) × WantsAfter (host_of answers desk.old.server.profile handlers.now) n
        (view_of (W.calls wire.old) (W.faults wire.old)) (view_of (W.calls wire.new) (W.faults wire.new)) (desk_of (E.state entropy.old) desk.old.server.table desk.old.rollouts) (desk_of (E.state entropy.new) desk.new.server.table desk.new.rollouts) }

    // The other way round, where the wire tells its calls: a run of so many events has the ending that is theirs, but for want of memory.
    // Whether a `stop` was answered can't be told of a run that ends by an answer that was lost.
    ensures spent_told { ServesEvents (host_of answers desk.old.server.profile handlers.now) turns
        (view_of (W.calls wire.old) (W.faults wire.old)) (view_of (W.calls wire.new) (W.faults wire.new)) (desk_of (E.state entropy.old) desk.old.server.table desk.old.rollouts) (desk_of (E.state entropy.new) desk.new.server.table desk.new.rollouts) false
        → IsSome (W.calls wire.old) → IsErrOf result ServeEnd.TurnsSpent ⊎ (IsErrOf result ServeEnd.NoMemory ⊎ IsLostLast (W.calls wire.new)) }
    ensures stop_told { (n : ℕ) → ServesEvents (host_of answers desk.old.server.profile handlers.now) n
        (view_of (W.calls wire.old) (W.faults wire.old)) (view_of (W.calls wire.new) (W.faults wire.new)) (desk_of (E.state entropy.old) desk.old.server.table desk.old.rollouts) (desk_of (E.state entropy.new) desk.new.server.table desk.new.rollouts) true
        → IsSome (W.calls wire.old) → (result ≡ Ok n) ⊎ (IsErrOf result ServeEnd.NoMemory ⊎ IsLostLast (W.calls wire.new)) }
    ensures profile { desk.new.server.profile ≡ desk.old.server.profile }
{
    one_order_a_line();
    let mut nothing = Nothing;
    serve_by(alloc, desk, handlers, wire, entropy, turns, &mut nothing)
}
