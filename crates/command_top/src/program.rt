//! The program below `main`: its own handler and judge, and the top call with them.

ghost use Rattle.std.specs.Prelude.{◌≡◌, ◌⊎◌, Some};
ghost use Rattle.edge_devices.specs.Faults.{HasRisen};
ghost use Rattle.command_words.specs.declared.commands.Command.{Command};
ghost use Rattle.command_words.specs.Meaning.{AreWords, NameNone};
ghost use Rattle.server_sessions.specs.Wiring.{view_of};
ghost use Rattle.world_lab.specs.Labs.{lab_state, unplayed};
ghost use Rattle.edge_notes.specs.Noted.{IsNoted, NotedIf};
ghost use Rattle.edge_notes.specs.declared.notes.Note.TheVariants as the_note;
ghost use Rattle.command_top.specs.Notes.{Noted};
ghost use Rattle.command_top.specs.Outcomes.{Outcome};
ghost use Rattle.command_top.specs.Own.{own};
ghost use Rattle.command_top.specs.Usage.{usage};

use crate::echo::{Echo, echo_name};
use crate::healthy::Healthy;
use crate::top::{NO_MEMORY, opamp_main};
use command_fleet::nothing_is_handled;
use command_frames::nothing_is_read;
use command_scripts::nothing_is_played;
use command_serve::FnJudge;
use edge_devices::{Clock, Disk, Entropy, Folder, PushDialer, Sink, Source, Wire};
use edge_notes::{Note, put_note};
use message_handlers::{FnHandler, Handlers};
use plain_values::Text;
use std::alloc::Global;
use std::marker::Sync;
use std::sync::Wait;
use std::thread::Threads;
use world_lab::Lab;

/// Runs the command that the words name, as `opamp_main` does, with the program's own handler and judge: the server of `serve` and the agent of `agent`
/// answer the custom capability `com.example.echo` with the message itself, and a rollout goes on where agents tell no health or are healthy.
///
/// It makes both and hands them down, since a function that handed one out would hide from its callers which functions may be called.
pub fn run_program<
    R: Threads + Wait + Sync,
    S: Source,
    K: Sink,
    N: Sink,
    D: Disk,
    F: Folder,
    W: Wire,
    G: PushDialer,
    C: Clock,
    E: Entropy,
>(
    rt: &R,
    alloc: Global,
    words: &[Text],
    source: &mut S,
    sink: &mut K,
    notes: &mut N,
    disk: &mut D,
    folder: &mut F,
    wire: &mut W,
    dialer: &mut G,
    clock: &mut C,
    entropy: &mut E,
    lab: &mut Lab,
) -> u8
    requires unplayed { lab_state lab.old ≡ unplayed }

    // What comes of the command that the words name, with that handler and that judge.
    ensures ran { (command : Command) → AreWords words.now command → Outcome own command
        (record {
          source = record { left = S.left source.old; faults = S.faults source.old };
          sink = record { taken = K.taken sink.old; faults = K.faults sink.old };
          disk = D.state disk.old;
          folder = F.state folder.old;
          wire = view_of (W.calls wire.old) (W.faults wire.old);
          dialer = G.state dialer.old;
          clock = C.state clock.old;
          entropy = E.state entropy.old;
          lab = lab_state lab.old;
        })
        (record {
          source = record { left = S.left source.new; faults = S.faults source.new };
          sink = record { taken = K.taken sink.new; faults = K.faults sink.new };
          disk = D.state disk.new;
          folder = F.state folder.new;
          wire = view_of (W.calls wire.new) (W.faults wire.new);
          dialer = G.state dialer.new;
          clock = C.state clock.new;
          entropy = E.state entropy.new;
          lab = lab_state lab.new;
        })
        (record {
          source = source.new ≡ source.old;
          sink = sink.new ≡ sink.old;
          disk = disk.new ≡ disk.old;
          folder = folder.new ≡ folder.old;
          wire = wire.new ≡ wire.old;
          dialer = dialer.new ≡ dialer.old;
          clock = clock.new ≡ clock.old;
          entropy = entropy.new ≡ entropy.old;
          lab = lab.new ≡ lab.old;
        })
        result }

    // Other words give 2, or want of memory, and then nothing is read, written, served or played.
    ensures words { result ≡ 2 → NameNone words.now }
    ensures other_words { NameNone words.now → (result ≡ 2) ⊎ (result ≡ 5) }
    ensures untouched { (result ≡ 2) ⊎ NameNone words.now
        → (source.new ≡ source.old) × (sink.new ≡ sink.old) × (disk.new ≡ disk.old) × (folder.new ≡ folder.old) × (wire.new ≡ wire.old) × (dialer.new ≡ dialer.old) × (clock.new ≡ clock.old) × (entropy.new ≡ entropy.old) × (lab.new ≡ lab.old) }

    // Whatever the words are, a fault has its status only where its object failed, as `opamp_main` says.
    ensures read_fault { result ≡ 3 → HasRisen (S.faults source.old) (S.faults source.new) }
    ensures read_fault_leaves { result ≡ 3 → lab.new ≡ lab.old }
    ensures write_fault { result ≡ 4 → HasRisen (K.faults sink.old) (K.faults sink.new) }
    ensures store_fault { result ≡ 6 → HasRisen (D.state disk.old).faults (D.state disk.new).faults }
    ensures outside_fault { result ≡ 8 → HasRisen (W.faults wire.old) (W.faults wire.new)
        ⊎ (HasRisen (F.state folder.old).faults (F.state folder.new).faults
        ⊎ (HasRisen (C.state clock.old).faults (C.state clock.new).faults ⊎ HasRisen (E.state entropy.old).faults (E.state entropy.new).faults)) }

    // What is noted beside the output, as `opamp_main` says.
    ensures noted { (command : Command) → AreWords words.now command → Noted own.answers command (view_of (W.calls wire.old) (W.faults wire.old)) (view_of (W.calls wire.new) (W.faults wire.new)) result (record { taken = N.taken notes.old; faults = N.faults notes.old }) (record { taken = N.taken notes.new; faults = N.faults notes.new }) }
    ensures usage_noted { result ≡ 2 → IsNoted usage (record { taken = N.taken notes.old; faults = N.faults notes.old }) (record { taken = N.taken notes.new; faults = N.faults notes.new }) }
    ensures memory_noted { NameNone words.now → result ≡ 5 → NotedIf (Some the_note.NoMemory) (record { taken = N.taken notes.old; faults = N.faults notes.old }) (record { taken = N.taken notes.new; faults = N.faults notes.new }) }
{
    nothing_is_read();
    nothing_is_played();
    nothing_is_handled();
    let Ok(echo) = Box::new(alloc, FnHandler::new(Echo)) else {
        put_note(notes, Some(Note::NoMemory));
        return NO_MEMORY;
    };
    let Ok(name) = Text::from_str(alloc, echo_name()) else {
        put_note(notes, Some(Note::NoMemory));
        return NO_MEMORY;
    };
    let mut handlers = Handlers::new(alloc);
    if handlers.register(name, echo).is_err() {
        put_note(notes, Some(Note::NoMemory));
        return NO_MEMORY;
    }
    let judge = FnJudge::new(Healthy);
    opamp_main(
        rt, alloc, words, source, sink, notes, disk, folder, wire, dialer, clock, entropy,
        &handlers, lab, judge,
    )
}
