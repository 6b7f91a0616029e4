//! Runs of commands over inputs and of agents, with the note of their status.

ghost use Rattle.std.specs.Prelude.{◌≡◌, ◌≤◌, ◌<◌, ◌^◌, IsTrue};
ghost use Rattle.edge_devices.specs.Endpoints.{is_endpoint};
ghost use Rattle.edge_devices.specs.Faults.{HasRisen};
ghost use Rattle.message_handlers.specs.Asking.{MayAnswer};
ghost use Rattle.message_handlers.specs.Names.{names_of};
ghost use Rattle.world_lab.specs.Labs.{lab_state, unplayed};
ghost use Rattle.command_agent.specs.Outcomes.{AgentOutcome};
ghost use Rattle.command_agent.specs.Statuses.{IsSilentStatus};
ghost use Rattle.command_fleet.specs.Outcomes.{FleetOutcome};
ghost use Rattle.command_frames.specs.Outcomes.{StreamOutcome};
ghost use Rattle.command_frames.specs.declared.running.TheConstants.{BUDGET};
ghost use Rattle.edge_notes.specs.Noted.{NotedIf};
ghost use Rattle.command_scripts.specs.Outcomes.{SimulateOutcome, StormOutcome};
ghost use Rattle.command_top.specs.Notes.{agent_note, input_note};

use command_agent::run_agent_command;
use command_fleet::run_fleet_command;
use command_frames::{BUDGET, StreamCommand, run_stream_command};
use command_scripts::{run_simulate_command, run_storm_command};
use command_words::AgentOptions;
use edge_devices::{Clock, Disk, Entropy, Folder, PushDialer, Sink, Source};
use edge_notes::{Note, put_note};
use message_handlers::{Handler, Handlers};
use std::alloc::Global;
use std::marker::Sync;
use std::sync::Wait;
use std::thread::Threads;
use world_lab::Lab;

fn input_note(status: u8) -> Option<Note>
    ensures note { result ≡ input_note status }
{
    match status {
        0 => None,
        1 => Some(Note::InputRefused),
        3 => Some(Note::InputUnread),
        4 => Some(Note::OutputUnwritten),
        5 => Some(Note::NoMemory),
        9 => Some(Note::InputTooLong),
        _ => Some(Note::MessageTooLarge),
    }
}

fn agent_note(status: u8) -> Option<Note>
    ensures note { result ≡ agent_note status }
{
    match status {
        0 => None,
        4 => Some(Note::OutputUnwritten),
        5 => Some(Note::NoMemory),
        6 => Some(Note::StoreFault),
        7 => Some(Note::StoreDamaged),
        8 => Some(Note::OutsideFault),
        9 => Some(Note::RoundsSpent),
        10 => Some(Note::NumbersSpent),
        _ => Some(Note::ReportTooLarge),
    }
}

/// Runs a command over framed messages as `run_stream_command` does, and notes its status.
pub fn noted_stream<S: Source, K: Sink, N: Sink>(
    alloc: Global,
    command: StreamCommand,
    source: &mut S,
    sink: &mut K,
    notes: &mut N,
) -> u8
    ensures outcome { StreamOutcome command
        (record { source = record { left = S.left source.old; faults = S.faults source.old }; sink = record { taken = K.taken sink.old; faults = K.faults sink.old } })
        (record { source = record { left = S.left source.new; faults = S.faults source.new }; sink = record { taken = K.taken sink.new; faults = K.faults sink.new } }) result }
    ensures read_fault { result ≡ 3 → HasRisen (S.faults source.old) (S.faults source.new) }
    ensures write_fault { result ≡ 4 → HasRisen (K.faults sink.old) (K.faults sink.new) }
    ensures no_wrong_words { result ≡ 2 → ⊥ }
    ensures no_store_fault { result ≡ 6 → ⊥ }
    ensures no_outside_fault { result ≡ 8 → ⊥ }
    ensures noted { NotedIf (input_note result) (record { taken = N.taken notes.old; faults = N.faults notes.old }) (record { taken = N.taken notes.new; faults = N.faults notes.new }) }
{
    let status = run_stream_command(alloc, command, source, sink);
    put_note(notes, input_note(status));
    status
}

/// Runs `fleet` as `run_fleet_command` does, and notes its status.
pub fn noted_fleet<R: Threads + Wait + Sync, S: Source, K: Sink, N: Sink>(
    rt: &R,
    alloc: Global,
    desks: u64,
    source: &mut S,
    sink: &mut K,
    notes: &mut N,
) -> u8
    requires desks { (1 ≤ desks) × (desks ≤ 64) }
    ensures outcome { FleetOutcome desks BUDGET
        (record { source = record { left = S.left source.old; faults = S.faults source.old }; sink = record { taken = K.taken sink.old; faults = K.faults sink.old } })
        (record { source = record { left = S.left source.new; faults = S.faults source.new }; sink = record { taken = K.taken sink.new; faults = K.faults sink.new } }) result }
    ensures silent { result ≡ 3 → sink.new ≡ sink.old }
    ensures read_fault { result ≡ 3 → HasRisen (S.faults source.old) (S.faults source.new) }
    ensures write_fault { result ≡ 4 → HasRisen (K.faults sink.old) (K.faults sink.new) }
    ensures no_wrong_words { result ≡ 2 → ⊥ }
    ensures no_store_fault { result ≡ 6 → ⊥ }
    ensures no_outside_fault { result ≡ 8 → ⊥ }
    ensures noted { NotedIf (input_note result) (record { taken = N.taken notes.old; faults = N.faults notes.old }) (record { taken = N.taken notes.new; faults = N.faults notes.new }) }
{
    let status = run_fleet_command(rt, alloc, desks, source, sink, BUDGET);
    put_note(notes, input_note(status));
    status
}

/// Runs `simulate` as `run_simulate_command` does, and notes its status.
pub fn noted_simulate<S: Source, K: Sink, N: Sink>(
    alloc: Global,
    source: &mut S,
    sink: &mut K,
    notes: &mut N,
    lab: &mut Lab,
) -> u8
    requires unplayed { lab_state lab.old ≡ unplayed }
    ensures outcome { SimulateOutcome
        (record { source = record { left = S.left source.old; faults = S.faults source.old }; sink = record { taken = K.taken sink.old; faults = K.faults sink.old }; lab = lab_state lab.old })
        (record { source = record { left = S.left source.new; faults = S.faults source.new }; sink = record { taken = K.taken sink.new; faults = K.faults sink.new }; lab = lab_state lab.new }) result }
    ensures read_fault { result ≡ 3 → HasRisen (S.faults source.old) (S.faults source.new) }
    ensures read_fault_leaves { result ≡ 3 → lab.new ≡ lab.old }
    ensures write_fault { result ≡ 4 → HasRisen (K.faults sink.old) (K.faults sink.new) }
    ensures no_wrong_words { result ≡ 2 → ⊥ }
    ensures no_store_fault { result ≡ 6 → ⊥ }
    ensures no_outside_fault { result ≡ 8 → ⊥ }
    ensures noted { NotedIf (input_note result) (record { taken = N.taken notes.old; faults = N.faults notes.old }) (record { taken = N.taken notes.new; faults = N.faults notes.new }) }
{
    let status = run_simulate_command(alloc, source, sink, lab);
    put_note(notes, input_note(status));
    status
}

/// Runs `storm` as `run_storm_command` does, and notes its status.
pub fn noted_storm<K: Sink, N: Sink>(
    alloc: Global,
    start: u64,
    count: u64,
    sink: &mut K,
    notes: &mut N,
    lab: &mut Lab,
) -> u8
    requires unplayed { lab_state lab.old ≡ unplayed }
    requires few { count ≤ 100000 }
    ensures outcome { StormOutcome start count
        (record { sink = record { taken = K.taken sink.old; faults = K.faults sink.old }; lab = lab_state lab.old })
        (record { sink = record { taken = K.taken sink.new; faults = K.faults sink.new }; lab = lab_state lab.new }) result }
    ensures silent { result ≡ 5 → sink.new ≡ sink.old }
    ensures noted { NotedIf (input_note result) (record { taken = N.taken notes.old; faults = N.faults notes.old }) (record { taken = N.taken notes.new; faults = N.faults notes.new }) }
{
    let status = run_storm_command(alloc, start, count, sink, lab);
    put_note(notes, input_note(status));
    status
}

/// Runs an agent as `run_agent_command` does, and notes its status.
pub fn noted_agent<K: Sink, N: Sink, D: Disk, G: PushDialer, F: Folder, C: Clock, E: Entropy>(
    alloc: Global,
    options: &AgentOptions,
    sink: &mut K,
    notes: &mut N,
    handlers: &Handlers,
    disk: &mut D,
    dialer: &mut G,
    folder: &mut F,
    clock: &mut C,
    entropy: &mut E,
) -> u8
    requires endpoint { IsTrue (is_endpoint options.now.server) }
    ensures outcome { AgentOutcome (names_of handlers.now) (MayAnswer answers handlers.now) options.now
        (record { sink = record { taken = K.taken sink.old; faults = K.faults sink.old }; around = record { disk = D.state disk.old; folder = F.state folder.old; dialer = G.state dialer.old; clock = C.state clock.old; entropy = E.state entropy.old } })
        (record { sink = record { taken = K.taken sink.new; faults = K.faults sink.new }; around = record { disk = D.state disk.new; folder = F.state folder.new; dialer = G.state dialer.new; clock = C.state clock.new; entropy = E.state entropy.new } }) result }
    ensures silent { IsSilentStatus result → sink.new ≡ sink.old }
    ensures noted { NotedIf (agent_note result) (record { taken = N.taken notes.old; faults = N.faults notes.old }) (record { taken = N.taken notes.new; faults = N.faults notes.new }) }
{
    let status = run_agent_command(
        alloc, options, sink, handlers, disk, dialer, folder, clock, entropy,
    );
    put_note(notes, agent_note(status));
    status
}
