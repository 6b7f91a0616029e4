//! The command `serve`, with a rollout and without, and the program's status.

ghost use Rattle.std.specs.Prelude.{◌≡◌, ◌⊎◌};
ghost use Rattle.message_handlers.specs.Asking.{MayAnswer};
ghost use Rattle.message_handlers.specs.Names.{names_of};
ghost use Rattle.server_sessions.specs.Wiring.{view_of};
ghost use Rattle.command_serve.specs.Notes.{ServeNotes};
ghost use Rattle.command_serve.specs.Outcomes.{RolloutOutcome, ServeOutcome};

use crate::notes::{note_end, note_rollout_end};
use crate::rolling::run_rollout;
use crate::serving::run_serve;
use command_words::{RolloutOptions, ServeOptions};
use edge_devices::{Entropy, Sink, Wire};
use message_handlers::{Handler, Handlers};
use server_waves::Judge;
use std::alloc::Global;

/// Serves as `run_serve` does, and gives the program's status: 0 `stop` came, 4 write fault, 5 want of memory, 8 wire fault, 9 all turns taken.
pub fn run_serve_command<K: Sink, N: Sink, W: Wire, E: Entropy, J: Judge>(
    alloc: Global,
    options: &ServeOptions,
    judge: J,
    sink: &mut K,
    notes: &mut N,
    handlers: &Handlers,
    wire: &mut W,
    entropy: &mut E,
) -> u8
    ensures outcome { ServeOutcome (names_of handlers.now) (MayAnswer answers handlers.now) (J.finds_fine judge) options.now
        (record { sink = record { taken = K.taken sink.old; faults = K.faults sink.old }; wire = view_of (W.calls wire.old) (W.faults wire.old); entropy = E.state entropy.old })
        (record { sink = record { taken = K.taken sink.new; faults = K.faults sink.new }; wire = view_of (W.calls wire.new) (W.faults wire.new); entropy = E.state entropy.new }) result }

    // Where the wire failed or memory was wanting nothing was written.
    ensures silent { (result ≡ 8) ⊎ (result ≡ 5) → sink.new ≡ sink.old }

    // What is noted: the addresses once they are listened to, and with a status other than 0 what was refused or failed, and where.
    ensures noted { ServeNotes (MayAnswer answers handlers.now) options.now (view_of (W.calls wire.old) (W.faults wire.old)) (view_of (W.calls wire.new) (W.faults wire.new)) result (record { taken = N.taken notes.old; faults = N.faults notes.old }) (record { taken = N.taken notes.new; faults = N.faults notes.new }) }
{
    let status = run_serve(alloc, options, judge, sink, notes, handlers, wire, entropy);
    note_end(notes, status);
    status.code()
}

/// Serves as `run_rollout` does, and gives the program's status: that of `serve`, or 11 for an offer that is too large.
pub fn run_rollout_command<K: Sink, N: Sink, W: Wire, E: Entropy, J: Judge>(
    alloc: Global,
    options: &ServeOptions,
    rollout_options: &RolloutOptions,
    judge: J,
    sink: &mut K,
    notes: &mut N,
    handlers: &Handlers,
    wire: &mut W,
    entropy: &mut E,
) -> u8
    ensures outcome { RolloutOutcome (names_of handlers.now) (MayAnswer answers handlers.now) (J.finds_fine judge) options.now rollout_options.now
        (record { sink = record { taken = K.taken sink.old; faults = K.faults sink.old }; wire = view_of (W.calls wire.old) (W.faults wire.old); entropy = E.state entropy.old })
        (record { sink = record { taken = K.taken sink.new; faults = K.faults sink.new }; wire = view_of (W.calls wire.new) (W.faults wire.new); entropy = E.state entropy.new }) result }

    // Where the offer is too large nothing was done; where the wire failed or memory was wanting nothing was written.
    ensures untouched { result ≡ 11 → (sink.new ≡ sink.old) × (wire.new ≡ wire.old) × (entropy.new ≡ entropy.old) }
    ensures silent { (result ≡ 8) ⊎ (result ≡ 5) → sink.new ≡ sink.old }

    // What is noted: the addresses once they are listened to, and with a status other than 0 what was refused or failed, and where.
    ensures noted { ServeNotes (MayAnswer answers handlers.now) options.now (view_of (W.calls wire.old) (W.faults wire.old)) (view_of (W.calls wire.new) (W.faults wire.new)) result (record { taken = N.taken notes.old; faults = N.faults notes.old }) (record { taken = N.taken notes.new; faults = N.faults notes.new }) }
{
    let status = run_rollout(
        alloc,
        options,
        rollout_options,
        judge,
        sink,
        notes,
        handlers,
        wire,
        entropy,
    );
    note_rollout_end(notes, status);
    status.code()
}
