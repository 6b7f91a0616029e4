//! The top call: a command by its words, over all that a run is lent.

ghost use Rattle.std.specs.Prelude.{◌≡◌, ◌⊎◌, Some};
ghost use Rattle.edge_devices.specs.Faults.{HasRisen};
ghost use Rattle.command_words.specs.declared.commands.Command.{Command};
ghost use Rattle.command_words.specs.Meaning.{AreWords, NameNone};
ghost use Rattle.message_handlers.specs.Asking.{MayAnswer};
ghost use Rattle.message_handlers.specs.Names.{names_of};
ghost use Rattle.server_sessions.specs.Wiring.{view_of};
ghost use Rattle.world_lab.specs.Labs.{lab_state, unplayed};
ghost use Rattle.edge_notes.specs.Noted.{IsNoted, NotedIf};
ghost use Rattle.edge_notes.specs.declared.notes.Note.TheVariants as the_note;
ghost use Rattle.command_top.specs.Notes.{Noted};
ghost use Rattle.command_top.specs.Usage.{usage};
ghost use Rattle.command_top.specs.Words.{CanRun, command_of};
ghost use Rattle.command_top.specs.Outcomes.{Outcome};

use crate::commands::{Job, Task, read_job};
use crate::noting::{noted_agent, noted_fleet, noted_simulate, noted_storm, noted_stream};
use crate::usage::put_usage;
use command_fleet::nothing_is_handled;
use command_frames::nothing_is_read;
use command_scripts::nothing_is_played;
use command_serve::{Judge, run_rollout_command, run_serve_command};
use command_words::{WordsFail, one_command};
use edge_devices::{Clock, Disk, Entropy, Folder, PushDialer, Sink, Source, Wire};
use edge_notes::{Note, put_note};
use message_handlers::{Handler, Handlers};
use plain_values::Text;
use std::alloc::Global;
use std::marker::Sync;
use std::sync::Wait;
use std::thread::Threads;
use world_lab::Lab;

/// The status of words that name no command.
pub const WRONG_WORDS: u8 = 2;

/// The status of want of memory.
pub const NO_MEMORY: u8 = 5;

/// Does in one thread what the task says, and gives the program's status. What comes of it and what the statuses mean is as of `opamp_main`.
pub fn opamp_run<
    S: Source,
    K: Sink,
    N: Sink,
    D: Disk,
    F: Folder,
    W: Wire,
    G: PushDialer,
    C: Clock,
    E: Entropy,
    J: Judge,
>(
    alloc: Global,
    task: Task,
    source: &mut S,
    sink: &mut K,
    notes: &mut N,
    disk: &mut D,
    folder: &mut F,
    wire: &mut W,
    dialer: &mut G,
    clock: &mut C,
    entropy: &mut E,
    handlers: &Handlers,
    lab: &mut Lab,
    judge: J,
) -> u8
    requires unplayed { lab_state lab.old ≡ unplayed }
    requires can_run { CanRun task }
    ensures ran { Outcome
        (record { names = names_of handlers.now; answers = MayAnswer answers handlers.now; fine = J.finds_fine judge })
        (command_of task)
        (record {
          source = record { left = S.left source.old; faults = S.faults source.old };
          sink = record { taken = K.taken sink.old; faults = K.faults sink.old };
          disk = D.state disk.old;
          folder = F.state folder.old;
          wire = view_of (W.calls wire.old) (W.faults wire.old);
          dialer = G.state dialer.old;
          clock = C.state clock.old;
          entropy = E.state entropy.old;
          lab = lab_state lab.old;
        })
        (record {
          source = record { left = S.left source.new; faults = S.faults source.new };
          sink = record { taken = K.taken sink.new; faults = K.faults sink.new };
          disk = D.state disk.new;
          folder = F.state folder.new;
          wire = view_of (W.calls wire.new) (W.faults wire.new);
          dialer = G.state dialer.new;
          clock = C.state clock.new;
          entropy = E.state entropy.new;
          lab = lab_state lab.new;
        })
        (record {
          source = source.new ≡ source.old;
          sink = sink.new ≡ sink.old;
          disk = disk.new ≡ disk.old;
          folder = folder.new ≡ folder.old;
          wire = wire.new ≡ wire.old;
          dialer = dialer.new ≡ dialer.old;
          clock = clock.new ≡ clock.old;
          entropy = entropy.new ≡ entropy.old;
          lab = lab.new ≡ lab.old;
        })
        result }
    ensures no_wrong_words { result ≡ 2 → ⊥ }
    ensures read_fault { result ≡ 3 → HasRisen (S.faults source.old) (S.faults source.new) }
    ensures read_fault_leaves { result ≡ 3 → lab.new ≡ lab.old }
    ensures write_fault { result ≡ 4 → HasRisen (K.faults sink.old) (K.faults sink.new) }
    ensures store_fault { result ≡ 6 → HasRisen (D.state disk.old).faults (D.state disk.new).faults }
    ensures outside_fault { result ≡ 8 → HasRisen (W.faults wire.old) (W.faults wire.new)
        ⊎ (HasRisen (F.state folder.old).faults (F.state folder.new).faults
        ⊎ (HasRisen (C.state clock.old).faults (C.state clock.new).faults ⊎ HasRisen (E.state entropy.old).faults (E.state entropy.new).faults)) }
    ensures noted { Noted (MayAnswer answers handlers.now) (command_of task) (view_of (W.calls wire.old) (W.faults wire.old)) (view_of (W.calls wire.new) (W.faults wire.new)) result (record { taken = N.taken notes.old; faults = N.faults notes.old }) (record { taken = N.taken notes.new; faults = N.faults notes.new }) }
{
    match task {
        Task::Stream(command) => noted_stream(alloc, command, source, sink, notes),
        Task::Simulate => noted_simulate(alloc, source, sink, notes, lab),
        Task::Storm { start, count } => noted_storm(alloc, start, count, sink, notes, lab),
        Task::Serve(options) => {
            run_serve_command(alloc, &options, judge, sink, notes, handlers, wire, entropy)
        }
        Task::Rollout(options, told) => run_rollout_command(
            alloc, &options, &told, judge, sink, notes, handlers, wire, entropy,
        ),
        Task::Agent(options) => noted_agent(
            alloc, &options, sink, notes, handlers, disk, dialer, folder, clock, entropy,
        ),
    }
}

/// Runs the command that the words name, and gives the program's status. docs/COMMANDS.md has the words, what each command reads and writes, and the
/// statuses.
///
/// Of all commands `fleet` alone starts threads and waits for locks, so that it alone uses `rt`; the others are done by `opamp_run`. Status 5 can come at
/// any time; what was written before stays. A lab in which a script was played, or which `simulate` or `storm` left with 4 or 5, isn't lent again.
pub fn opamp_main<
    R: Threads + Wait + Sync,
    S: Source,
    K: Sink,
    N: Sink,
    D: Disk,
    F: Folder,
    W: Wire,
    G: PushDialer,
    C: Clock,
    E: Entropy,
    J: Judge,
>(
    rt: &R,
    alloc: Global,
    words: &[Text],
    source: &mut S,
    sink: &mut K,
    notes: &mut N,
    disk: &mut D,
    folder: &mut F,
    wire: &mut W,
    dialer: &mut G,
    clock: &mut C,
    entropy: &mut E,
    handlers: &Handlers,
    lab: &mut Lab,
    judge: J,
) -> u8
    requires unplayed { lab_state lab.old ≡ unplayed }

    // What comes of the command that the words name: its output and status, and what it leaves. `Outcome` has the promise of each command.
    ensures ran { (command : Command) → AreWords words.now command → Outcome
        (record { names = names_of handlers.now; answers = MayAnswer answers handlers.now; fine = J.finds_fine judge })
        command
        (record {
          source = record { left = S.left source.old; faults = S.faults source.old };
          sink = record { taken = K.taken sink.old; faults = K.faults sink.old };
          disk = D.state disk.old;
          folder = F.state folder.old;
          wire = view_of (W.calls wire.old) (W.faults wire.old);
          dialer = G.state dialer.old;
          clock = C.state clock.old;
          entropy = E.state entropy.old;
          lab = lab_state lab.old;
        })
        (record {
          source = record { left = S.left source.new; faults = S.faults source.new };
          sink = record { taken = K.taken sink.new; faults = K.faults sink.new };
          disk = D.state disk.new;
          folder = F.state folder.new;
          wire = view_of (W.calls wire.new) (W.faults wire.new);
          dialer = G.state dialer.new;
          clock = C.state clock.new;
          entropy = E.state entropy.new;
          lab = lab_state lab.new;
        })
        (record {
          source = source.new ≡ source.old;
          sink = sink.new ≡ sink.old;
          disk = disk.new ≡ disk.old;
          folder = folder.new ≡ folder.old;
          wire = wire.new ≡ wire.old;
          dialer = dialer.new ≡ dialer.old;
          clock = clock.new ≡ clock.old;
          entropy = entropy.new ≡ entropy.old;
          lab = lab.new ≡ lab.old;
        })
        result }

    // Other words give 2, or want of memory, and then nothing is read, written, served or played.
    ensures words { result ≡ 2 → NameNone words.now }
    ensures other_words { NameNone words.now → (result ≡ 2) ⊎ (result ≡ 5) }
    ensures untouched { (result ≡ 2) ⊎ NameNone words.now
        → (source.new ≡ source.old) × (sink.new ≡ sink.old) × (disk.new ≡ disk.old) × (folder.new ≡ folder.old) × (wire.new ≡ wire.old) × (dialer.new ≡ dialer.old) × (clock.new ≡ clock.old) × (entropy.new ≡ entropy.old) × (lab.new ≡ lab.old) }

    // Whatever the words are, 3 comes only where the source failed, and the lab is then as it was; 4 comes only where the sink failed, 6 where the disk did,
    // and 8 where the wire, the folder, the clock or the random bytes did.
    ensures read_fault { result ≡ 3 → HasRisen (S.faults source.old) (S.faults source.new) }
    ensures read_fault_leaves { result ≡ 3 → lab.new ≡ lab.old }
    ensures write_fault { result ≡ 4 → HasRisen (K.faults sink.old) (K.faults sink.new) }
    ensures store_fault { result ≡ 6 → HasRisen (D.state disk.old).faults (D.state disk.new).faults }
    ensures outside_fault { result ≡ 8 → HasRisen (W.faults wire.old) (W.faults wire.new)
        ⊎ (HasRisen (F.state folder.old).faults (F.state folder.new).faults
        ⊎ (HasRisen (C.state clock.old).faults (C.state clock.new).faults ⊎ HasRisen (E.state entropy.old).faults (E.state entropy.new).faults)) }

    // What is noted beside the output: of a command what its status says, and of `serve` its addresses once it listens; with 2 the usage; and want of memory.
    // Where the sink of notes fails it takes a front of a note, and nothing else changes.
    ensures noted { (command : Command) → AreWords words.now command → Noted (MayAnswer answers handlers.now) command (view_of (W.calls wire.old) (W.faults wire.old)) (view_of (W.calls wire.new) (W.faults wire.new)) result (record { taken = N.taken notes.old; faults = N.faults notes.old }) (record { taken = N.taken notes.new; faults = N.faults notes.new }) }
    ensures usage_noted { result ≡ 2 → IsNoted usage (record { taken = N.taken notes.old; faults = N.faults notes.old }) (record { taken = N.taken notes.new; faults = N.faults notes.new }) }
    ensures memory_noted { NameNone words.now → result ≡ 5 → NotedIf (Some the_note.NoMemory) (record { taken = N.taken notes.old; faults = N.faults notes.old }) (record { taken = N.taken notes.new; faults = N.faults notes.new }) }
{
    one_command();
    nothing_is_read();
    nothing_is_played();
    nothing_is_handled();
    match read_job(alloc, words) {
        Ok(Job::Fleet { desks }) => noted_fleet(rt, alloc, desks, source, sink, notes),
        Ok(Job::Task(task)) => opamp_run(
            alloc, task, source, sink, notes, disk, folder, wire, dialer, clock, entropy, handlers,
            lab, judge,
        ),
        Err(WordsFail::Refused) => {
            put_usage(notes);
            WRONG_WORDS
        }
        Err(WordsFail::NoMemory) => {
            put_note(notes, Some(Note::NoMemory));
            NO_MEMORY
        }
    }
}
