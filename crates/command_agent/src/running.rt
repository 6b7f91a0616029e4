//! An agent's run.

ghost use Rattle.std.specs.Prelude.{◌≡◌, ◌⊎◌, ℕ, List, [], false, IsSome, IsTrue, Ok};
ghost use Rattle.std.specs.Io.KnownBytes.{Appends};
ghost use Rattle.message_handlers.specs.Asking.{MayAnswer};
ghost use Rattle.message_handlers.specs.Names.{IsOrdered, names_of};
ghost use Rattle.agent_rules.specs.Half.{kept_part};
ghost use Rattle.agent_state.specs.View.{FitsDisk};
ghost use Rattle.agent_rules.specs.declared.saved.Saved.{Saved};
ghost use Rattle.agent_rounds.specs.Area.{LeavesConfig};
ghost use Rattle.agent_rounds.specs.Ends.{ReportSpent, ReportTooLarge, RoundsDoneBy, RunEndsBy};
ghost use Rattle.agent_rounds.specs.Moments.{Leads, nothing_held, stage_at};
ghost use Rattle.agent_rounds.specs.Proving.{LeavesFormerOrProved};
ghost use Rattle.agent_rounds.specs.Rounds.{RoundsBy};
ghost use Rattle.agent_rounds.specs.Status.{HeldView};
ghost use Rattle.edge_devices.specs.Disks.{disk_bytes};
ghost use Rattle.edge_devices.specs.Endpoints.{is_endpoint};
ghost use Rattle.edge_devices.specs.Faults.{HasRisen};
ghost use Rattle.agent_store.specs.Slots as slots;
ghost use Rattle.agent_rules.specs.Codec.{codec};
ghost use Rattle.command_agent.specs.Endings.{IsSilent, Tells, ending_of, ending_without};
ghost use Rattle.command_agent.specs.Lines.{text_of};
ghost use Rattle.command_agent.specs.Running.{AgentRuns, asking_of, waiting_of, DoesAllRounds, EndsSo, FailsOutside, RunsOutOfNumbers, RunsOutOfRoom};
ghost use Rattle.command_agent.specs.Starting.{FindsDamage, store_layout};
ghost use Rattle.command_agent.specs.declared.endings.Ending.{Ending as EndingOf};
ghost use Rattle.command_agent.specs.declared.lines.Line.TheVariants as lines;

use crate::endings::Ending;
use crate::reporting::tell;
use crate::starting::{StartFail, start};
use crate::status::AgentStatus;
use agent_rounds::{AgentEnd, configuration_stays, supervise, supervise_pushed};
use agent_state::Agent;
use command_words::AgentOptions;
use edge_devices::{Clock, Disk, Entropy, Folder, PushDialer, Sink};
use message_handlers::{Handler, Handlers};
use std::alloc::Global;

// How rounds ended.
fn ending_of(end: Result<u64, AgentEnd>) -> Ending
    ensures ending { result ≡ ending_of end }
{
    match end {
        Ok(round) => Ending::Restarted(round),
        Err(AgentEnd::StoreFault) => Ending::StoreFault,
        Err(AgentEnd::FolderFault) => Ending::OutsideFault,
        Err(AgentEnd::ClockFault) => Ending::OutsideFault,
        Err(AgentEnd::RoundsSpent) => Ending::RoundsSpent,
        Err(AgentEnd::NumbersSpent) => Ending::NumbersSpent,
        Err(AgentEnd::TooLarge) => Ending::TooLarge,
        Err(AgentEnd::NoMemory) => Ending::NoMemory,
    }
}

// Why there were none.
fn ending_without(fail: StartFail) -> Ending
    ensures ending { result ≡ ending_without fail }
{
    match fail {
        StartFail::StoreFault => Ending::StoreFault,
        StartFail::Damaged(slot) => Ending::Damaged(slot),
        StartFail::EntropyFault => Ending::OutsideFault,
        StartFail::NoMemory => Ending::NoMemory,
    }
}

// So many rounds at most, in which what comes unasked is heeded or not.
fn do_rounds<D: Disk, G: PushDialer, F: Folder, C: Clock>(
    alloc: Global,
    options: &AgentOptions,
    agent: &mut Agent,
    handlers: &Handlers,
    disk: &mut D,
    dialer: &mut G,
    folder: &mut F,
    clock: &mut C,
) -> Result<u64, AgentEnd>
    requires idle { agent.old.half.awaits ≡ false }
    requires fits { FitsDisk (D.state disk.old) agent.old.store (kept_part agent.old.half) }
    ensures rounds { (held : HeldView) × Leads (RoundsBy (asking_of options.now.push) (waiting_of options.now.push) (MayAnswer answers handlers.now) (λ names. IsOrdered (names_of handlers.now) names.capabilities) options.now.rounds 0)
        (record { agent = agent.old; held = nothing_held options.now.prove; disk = D.state disk.old; folder = F.state folder.old; dialer = G.state dialer.old; clock = C.state clock.old })
        (record { agent = agent.new; held = held; disk = D.state disk.new; folder = F.state folder.new; dialer = G.state dialer.new; clock = C.state clock.new }) result }
    ensures proved { IsSome options.now.prove → LeavesFormerOrProved
        (record { agent = agent.old; held = nothing_held options.now.prove; disk = D.state disk.old; folder = F.state folder.old; dialer = G.state dialer.old; clock = C.state clock.old })
        (D.state disk.new) (F.state folder.new) }
    ensures configuration { (held : HeldView)
        → Leads (RoundsBy (asking_of options.now.push) (waiting_of options.now.push) (MayAnswer answers handlers.now) (λ names. IsOrdered (names_of handlers.now) names.capabilities) options.now.rounds 0)
        (record { agent = agent.old; held = nothing_held options.now.prove; disk = D.state disk.old; folder = F.state folder.old; dialer = G.state dialer.old; clock = C.state clock.old })
        (record { agent = agent.new; held = held; disk = D.state disk.new; folder = F.state folder.new; dialer = G.state dialer.new; clock = C.state clock.new }) result
        → IsTrue (F.state folder.old).told → LeavesConfig
        (stage_at (record { agent = agent.old; held = nothing_held options.now.prove; disk = D.state disk.old; folder = F.state folder.old; dialer = G.state dialer.old; clock = C.state clock.old }) [])
        (stage_at (record { agent = agent.new; held = held; disk = D.state disk.new; folder = F.state folder.new; dialer = G.state dialer.new; clock = C.state clock.new }) []) result }
    ensures store_fault { result ≡ Err AgentEnd.StoreFault → HasRisen (D.state disk.old).faults (D.state disk.new).faults }
    ensures folder_fault { result ≡ Err AgentEnd.FolderFault → HasRisen (F.state folder.old).faults (F.state folder.new).faults }
    ensures clock_fault { result ≡ Err AgentEnd.ClockFault → HasRisen (C.state clock.old).faults (C.state clock.new).faults }
    ensures rounds_spent { result ≡ Err AgentEnd.RoundsSpent → (held : HeldView) × (saves : List Saved) × RoundsDoneBy (asking_of options.now.push) (waiting_of options.now.push) (MayAnswer answers handlers.now) (λ names. IsOrdered (names_of handlers.now) names.capabilities) options.now.rounds
        (stage_at (record { agent = agent.old; held = nothing_held options.now.prove; disk = D.state disk.old; folder = F.state folder.old; dialer = G.state dialer.old; clock = C.state clock.old }) [])
        (stage_at (record { agent = agent.new; held = held; disk = D.state disk.new; folder = F.state folder.new; dialer = G.state dialer.new; clock = C.state clock.new }) saves) }
    ensures numbers_spent { result ≡ Err AgentEnd.NumbersSpent → ReportSpent agent.new ⊎ ((held : HeldView) × (saves : List Saved) × RunEndsBy (asking_of options.now.push) (waiting_of options.now.push) AgentEnd.NumbersSpent (MayAnswer answers handlers.now) (λ names. IsOrdered (names_of handlers.now) names.capabilities) options.now.rounds
        (stage_at (record { agent = agent.old; held = nothing_held options.now.prove; disk = D.state disk.old; folder = F.state folder.old; dialer = G.state dialer.old; clock = C.state clock.old }) [])
        (stage_at (record { agent = agent.new; held = held; disk = D.state disk.new; folder = F.state folder.new; dialer = G.state dialer.new; clock = C.state clock.new }) saves)) }
    ensures too_large { result ≡ Err AgentEnd.TooLarge → ReportTooLarge agent.new ⊎ ((held : HeldView) × (saves : List Saved) × RunEndsBy (asking_of options.now.push) (waiting_of options.now.push) AgentEnd.TooLarge (MayAnswer answers handlers.now) (λ names. IsOrdered (names_of handlers.now) names.capabilities) options.now.rounds
        (stage_at (record { agent = agent.old; held = nothing_held options.now.prove; disk = D.state disk.old; folder = F.state folder.old; dialer = G.state dialer.old; clock = C.state clock.old }) [])
        (stage_at (record { agent = agent.new; held = held; disk = D.state disk.new; folder = F.state folder.new; dialer = G.state dialer.new; clock = C.state clock.new }) saves)) }
{
    configuration_stays(handlers);
    let rounds = options.rounds;
    let push = options.push;
    let prove = options.prove;
    if push {
        supervise_pushed(
            alloc, agent, handlers, disk, dialer, folder, clock, rounds, prove,
        )
    } else {
        supervise(
            alloc, agent, handlers, disk, dialer, folder, clock, rounds, prove,
        )
    }
}

// Starts an agent, and has it do its rounds.
fn run<D: Disk, G: PushDialer, F: Folder, C: Clock, E: Entropy>(
    alloc: Global,
    options: &AgentOptions,
    handlers: &Handlers,
    disk: &mut D,
    dialer: &mut G,
    folder: &mut F,
    clock: &mut C,
    entropy: &mut E,
) -> Ending
    requires endpoint { IsTrue (is_endpoint options.now.server) }
    ensures ends { EndsSo (names_of handlers.now) (MayAnswer answers handlers.now) options.now
        (record { disk = D.state disk.old; folder = F.state folder.old; dialer = G.state dialer.old; clock = C.state clock.old; entropy = E.state entropy.old })
        (record { disk = D.state disk.new; folder = F.state folder.new; dialer = G.state dialer.new; clock = C.state clock.new; entropy = E.state entropy.new }) result }
    ensures store_fault { result ≡ Ending.StoreFault → HasRisen (D.state disk.old).faults (D.state disk.new).faults }
    ensures outside_fault { result ≡ Ending.OutsideFault → FailsOutside (names_of handlers.now) (MayAnswer answers handlers.now) options.now
        (record { disk = D.state disk.old; folder = F.state folder.old; dialer = G.state dialer.old; clock = C.state clock.old; entropy = E.state entropy.old })
        (record { disk = D.state disk.new; folder = F.state folder.new; dialer = G.state dialer.new; clock = C.state clock.new; entropy = E.state entropy.new }) }
    ensures damage_told { (slot : ℕ) → IsTrue (D.state disk.old).told → slots.reading codec store_layout (disk_bytes (D.state disk.old)) ≡ slots.Damaged slot
        → (result ≡ Ending.Damaged slot) ⊎ ((result ≡ Ending.StoreFault) ⊎ (result ≡ Ending.NoMemory)) }
{
    let mut agent = match start(alloc, options, handlers, disk, entropy) {
        Ok(agent) => agent,
        Err(fail) => return ending_without(fail),
    };
    let end = do_rounds(
        alloc, options, &mut agent, handlers, disk, dialer, folder, clock,
    );
    ending_of(end)
}

/// Runs an agent: its store is loaded, where nothing was kept an identifier is drawn, and then come so many rounds at most. At the end a line tells a
/// restart, all rounds done, or a damaged store; other endings write nothing.
///
/// Want of memory can end it at any time.
pub fn run_agent<K: Sink, D: Disk, G: PushDialer, F: Folder, C: Clock, E: Entropy>(
    alloc: Global,
    options: &AgentOptions,
    sink: &mut K,
    handlers: &Handlers,
    disk: &mut D,
    dialer: &mut G,
    folder: &mut F,
    clock: &mut C,
    entropy: &mut E,
) -> AgentStatus
    requires endpoint { IsTrue (is_endpoint options.now.server) }

    // The run ended so, and its ending was told with this status.
    ensures ended { (ending : EndingOf) × EndsSo (names_of handlers.now) (MayAnswer answers handlers.now) options.now
        (record { disk = D.state disk.old; folder = F.state folder.old; dialer = G.state dialer.old; clock = C.state clock.old; entropy = E.state entropy.old })
        (record { disk = D.state disk.new; folder = F.state folder.new; dialer = G.state dialer.new; clock = C.state clock.new; entropy = E.state entropy.new }) ending
        × Tells options.now.rounds ending (K.taken sink.old) (K.taken sink.new) result }

    // A restart was commanded in the round of this number, which was written.
    ensures restarted { result ≡ AgentStatus.Restarted → (round : ℕ) × AgentRuns (names_of handlers.now) (MayAnswer answers handlers.now) options.now
        (record { disk = D.state disk.old; folder = F.state folder.old; dialer = G.state dialer.old; clock = C.state clock.old; entropy = E.state entropy.old })
        (record { disk = D.state disk.new; folder = F.state folder.new; dialer = G.state dialer.new; clock = C.state clock.new; entropy = E.state entropy.new }) (Ok round)
        × Appends (K.taken sink.old) (K.taken sink.new) (text_of (lines.Restart round)) }

    // All rounds were done, and their number was written.
    ensures rounds_spent { result ≡ AgentStatus.RoundsSpent → DoesAllRounds (names_of handlers.now) (MayAnswer answers handlers.now) options.now
        (record { disk = D.state disk.old; folder = F.state folder.old; dialer = G.state dialer.old; clock = C.state clock.old; entropy = E.state entropy.old })
        (record { disk = D.state disk.new; folder = F.state folder.new; dialer = G.state dialer.new; clock = C.state clock.new; entropy = E.state entropy.new })
        × Appends (K.taken sink.old) (K.taken sink.new) (text_of (lines.Rounds options.now.rounds)) }

    // The store is damaged in the slot of this number, which was written, and no round was begun. So it comes where it is damaged, unless the disk or the
    // sink fails or memory is wanting.
    ensures damaged { result ≡ AgentStatus.Damaged → (slot : ℕ) × FindsDamage (D.state disk.old) (D.state disk.new) slot
        × Appends (K.taken sink.old) (K.taken sink.new) (text_of (lines.Damaged slot)) }
    ensures damage_told { (slot : ℕ) → IsTrue (D.state disk.old).told → slots.reading codec store_layout (disk_bytes (D.state disk.old)) ≡ slots.Damaged slot
        → (result ≡ AgentStatus.Damaged) ⊎ ((result ≡ AgentStatus.StoreFault) ⊎ ((result ≡ AgentStatus.NoMemory) ⊎ (result ≡ AgentStatus.WriteFault))) }

    // No number was left for a report, or no generation of the store for what was to be kept; or a report was too large, or what was to be kept had no room.
    ensures numbers_spent { result ≡ AgentStatus.NumbersSpent → RunsOutOfNumbers (names_of handlers.now) (MayAnswer answers handlers.now) options.now
        (record { disk = D.state disk.old; folder = F.state folder.old; dialer = G.state dialer.old; clock = C.state clock.old; entropy = E.state entropy.old })
        (record { disk = D.state disk.new; folder = F.state folder.new; dialer = G.state dialer.new; clock = C.state clock.new; entropy = E.state entropy.new }) }
    ensures too_large { result ≡ AgentStatus.TooLarge → RunsOutOfRoom (names_of handlers.now) (MayAnswer answers handlers.now) options.now
        (record { disk = D.state disk.old; folder = F.state folder.old; dialer = G.state dialer.old; clock = C.state clock.old; entropy = E.state entropy.old })
        (record { disk = D.state disk.new; folder = F.state folder.new; dialer = G.state dialer.new; clock = C.state clock.new; entropy = E.state entropy.new }) }

    // A fault has its cause in this call.
    ensures write_fault { result ≡ AgentStatus.WriteFault → HasRisen (K.faults sink.old) (K.faults sink.new) }
    ensures store_fault { result ≡ AgentStatus.StoreFault → HasRisen (D.state disk.old).faults (D.state disk.new).faults }
    ensures outside_fault { result ≡ AgentStatus.OutsideFault → FailsOutside (names_of handlers.now) (MayAnswer answers handlers.now) options.now
        (record { disk = D.state disk.old; folder = F.state folder.old; dialer = G.state dialer.old; clock = C.state clock.old; entropy = E.state entropy.old })
        (record { disk = D.state disk.new; folder = F.state folder.new; dialer = G.state dialer.new; clock = C.state clock.new; entropy = E.state entropy.new }) }

    // With the other statuses nothing is written.
    ensures silent { IsSilent result → sink.new ≡ sink.old }
{
    let ending = run(
        alloc, options, handlers, disk, dialer, folder, clock, entropy,
    );
    tell(alloc, sink, ending, options.rounds)
}
