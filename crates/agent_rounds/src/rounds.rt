//! Rounds, and the run of them.

ghost use Rattle.std.specs.Prelude.{◌≡◌, ◌≤◌, ◌⊎◌, List, [], false, true, IfErr, IfOk, IfSome, IsErrOf, IsSome, IsTrue, OnOk};
ghost use Rattle.agent_rules.specs.Half.{kept_part};
ghost use Rattle.agent_config.specs.Config.{AreFiles, files_of};
ghost use Rattle.message_handlers.specs.Asking.{MayAnswer};
ghost use Rattle.message_handlers.specs.Names.{IsOrdered, names_of};
ghost use Rattle.agent_state.specs.View.{FitsDisk};
ghost use Rattle.edge_devices.specs.Faults.{HasRisen};
ghost use Rattle.edge_devices.specs.declared.folders.Area.TheVariants.{Config};
ghost use Rattle.agent_rules.specs.declared.saved.Saved.{Saved};
ghost use Rattle.agent_rounds.specs.Area.{FailsBetween, HasConfigOrDue, LeavesConfig};
ghost use Rattle.agent_rounds.specs.Ends.{ReplySpent, ReplyTooLarge, ReportSpent, ReportTooLarge, RoundsDone, RoundsDoneBy, RunEndsBy, RunSpent, RunTooLarge};
ghost use Rattle.agent_rounds.specs.Proving.{LeavesFormerOrProved};
ghost use Rattle.agent_rounds.specs.Moments.{Leads, held_view, nothing_held, stage_at, with_agent, with_clock, with_dialer, with_held};
ghost use Rattle.agent_rounds.specs.Rounds.{AgentRound, AgentRounds, Asking, AsksAndDeals, RoundBy, RoundsBy, Waiting};
ghost use Rattle.agent_rounds.specs.Listening.{AsksQuietServer, ListensWith, PushedRounds};
ghost use Rattle.agent_rounds.specs.Stages.{Stage};
ghost use Rattle.agent_rounds.specs.Status.{HeldView};

use crate::dealing::deal;
use crate::ends::{AgentEnd, Pause};
use crate::held::Held;
use crate::linking::ask_server;
use crate::listening::{ask_quiet_server, end_listening};
use crate::reports::prepare_report;
use crate::waiting::end_round;
use agent_state::Agent;
use edge_devices::{Clock, Dialer, Disk, Folder, PushDialer};
use message_handlers::{Handler, Handlers};
use message_values::ServerToAgent;
use std::alloc::Global;

/// One round: a report is prepared and asked, its answer is dealt with, and the clock waits. `Ok(true)` exactly where a restart command came.
///
/// # Errors
///
/// `StoreFault`, `FolderFault` at the first settling and `ClockFault` only where that object's count of faults rose in this call; `NumbersSpent` where no
/// number is left for the report or no generation of the store for what is to be kept; `TooLarge` where the report or what is to be kept is; `NoMemory`.
/// What the round did before that stays done.
pub fn round<D: Disk, G: Dialer, F: Folder, C: Clock>(
    alloc: Global,
    agent: &mut Agent,
    held: &mut Held<G::Link>,
    handlers: &Handlers,
    disk: &mut D,
    dialer: &mut G,
    folder: &mut F,
    clock: &mut C,
) -> Result<bool, AgentEnd>
    requires idle { agent.old.half.awaits ≡ false }
    requires fits { FitsDisk (D.state disk.old) agent.old.store (kept_part agent.old.half) }
    ensures round { Leads (AgentRound (MayAnswer answers handlers.now) (λ names. IsOrdered (names_of handlers.now) names.capabilities))
        (record { agent = agent.old; held = held_view G.number held.old; disk = D.state disk.old; folder = F.state folder.old; dialer = G.state dialer.old; clock = C.state clock.old })
        (record { agent = agent.new; held = held_view G.number held.new; disk = D.state disk.new; folder = F.state folder.new; dialer = G.state dialer.new; clock = C.state clock.new }) result }

    // An offer that fails half way leaves a working configuration: a round leaves its files in the area, or the settling due.
    ensures configuration { IsTrue (F.state folder.old).told → HasConfigOrDue (stage_at (record { agent = agent.old; held = held_view G.number held.old; disk = D.state disk.old; folder = F.state folder.old; dialer = G.state dialer.old; clock = C.state clock.old }) [])
        → LeavesConfig (stage_at (record { agent = agent.old; held = held_view G.number held.old; disk = D.state disk.old; folder = F.state folder.old; dialer = G.state dialer.old; clock = C.state clock.old }) []) (stage_at (record { agent = agent.new; held = held_view G.number held.new; disk = D.state disk.new; folder = F.state folder.new; dialer = G.state dialer.new; clock = C.state clock.new }) []) result }

    // After a round that goes on the agent awaits nothing, its store fits the disk, and no count has fallen.
    ensures idle { OnOk result (agent.new.half.awaits ≡ false) }
    ensures fits { OnOk result (FitsDisk (D.state disk.new) agent.new.store (kept_part agent.new.half)) }
    ensures disk_count { OnOk result ((D.state disk.old).faults ≤ (D.state disk.new).faults) }
    ensures folder_count { OnOk result ((F.state folder.old).faults ≤ (F.state folder.new).faults) }
    ensures clock_count { OnOk result ((C.state clock.old).faults ≤ (C.state clock.new).faults) }

    // The causes of its end. For want of numbers or of room it ends by what it leaves of the agent, or by the reply that it got.
    ensures store_fault { result ≡ Err AgentEnd.StoreFault → HasRisen (D.state disk.old).faults (D.state disk.new).faults }
    ensures folder_fault { result ≡ Err AgentEnd.FolderFault → HasRisen (F.state folder.old).faults (F.state folder.new).faults }
    ensures clock_fault { result ≡ Err AgentEnd.ClockFault → HasRisen (C.state clock.old).faults (C.state clock.new).faults }
    ensures numbers_spent { result ≡ Err AgentEnd.NumbersSpent → ReportSpent agent.new ⊎ ((saves : List Saved) × ReplySpent (MayAnswer answers handlers.now) (λ names. IsOrdered (names_of handlers.now) names.capabilities)
        (stage_at (record { agent = agent.old; held = held_view G.number held.old; disk = D.state disk.old; folder = F.state folder.old; dialer = G.state dialer.old; clock = C.state clock.old }) [])
        (stage_at (record { agent = agent.new; held = held_view G.number held.new; disk = D.state disk.new; folder = F.state folder.new; dialer = G.state dialer.new; clock = C.state clock.new }) saves)) }
    ensures too_large { result ≡ Err AgentEnd.TooLarge → ReportTooLarge agent.new ⊎ ((saves : List Saved) × ReplyTooLarge (MayAnswer answers handlers.now) (λ names. IsOrdered (names_of handlers.now) names.capabilities)
        (stage_at (record { agent = agent.old; held = held_view G.number held.old; disk = D.state disk.old; folder = F.state folder.old; dialer = G.state dialer.old; clock = C.state clock.old }) [])
        (stage_at (record { agent = agent.new; held = held_view G.number held.new; disk = D.state disk.new; folder = F.state folder.new; dialer = G.state dialer.new; clock = C.state clock.new }) saves)) }
    ensures no_rounds_spent { result ≡ Err AgentEnd.RoundsSpent → ⊥ }
{
    run_parts::<D, G, F, C, Polling>(alloc, agent, held, handlers, disk, dialer, folder, clock)
}

// How a round asks its report, and how it ends with its wait.
trait Rounds<G: Dialer, C: Clock> {
    // What asking does, and what ending does.
    ghost asks: { Asking };

    ghost waits: { Waiting };

    // Asks the report's bytes, and gives the reply to it, if there is one.
    fn ask_server(
        alloc: Global,
        agent: &Agent,
        held: &mut Held<G::Link>,
        dialer: &mut G,
        bytes: &[u8],
    ) -> Result<Option<ServerToAgent>, AgentEnd>
        ensures asks { (s : Stage) → asks bytes.now
            (with_agent agent.now (with_held (held_view G.number held.old) (with_dialer (G.state dialer.old) s)))
            (with_agent agent.now (with_held (held_view G.number held.new) (with_dialer (G.state dialer.new) s))) result }
        ensures to_it { IfOk result (λ reply. IfSome reply (λ reply. reply.instance_uid ≡ agent.now.half.saved.uid)) }
        ensures end { IfErr result (λ end. end ≡ AgentEnd.NoMemory) };

    // Ends the round with its wait, if it has one, and says whether a restart was commanded.
    fn end_round(
        alloc: Global,
        held: &mut Held<G::Link>,
        dialer: &mut G,
        clock: &mut C,
        pause: Pause,
    ) -> Result<bool, AgentEnd>
        ensures does { (s : Stage) → waits pause
            (with_held (held_view G.number held.old) (with_dialer (G.state dialer.old) (with_clock (C.state clock.old) s)))
            (with_held (held_view G.number held.new) (with_dialer (G.state dialer.new) (with_clock (C.state clock.new) s))) result }
        ensures counts { (C.state clock.old).faults ≤ (C.state clock.new).faults }
        ensures end { IfErr result (λ end. end ≡ AgentEnd.ClockFault) }
        ensures fault { IsErrOf result AgentEnd.ClockFault → HasRisen (C.state clock.old).faults (C.state clock.new).faults };
}

// The link is asked as it is, and the clock waits.
struct Polling;

impl<G: Dialer, C: Clock> Rounds<G, C> for Polling {
    ghost use Rattle.agent_rounds.specs.Rounds.{AsksServer};
    ghost use Rattle.agent_rounds.specs.Replies.{EndsWith};

    ghost asks = { AsksServer };

    ghost waits = { EndsWith };

    fn ask_server(
        alloc: Global,
        agent: &Agent,
        held: &mut Held<G::Link>,
        dialer: &mut G,
        bytes: &[u8],
    ) -> Result<Option<ServerToAgent>, AgentEnd> {
        ask_server(alloc, agent, held, dialer, bytes)
    }

    fn end_round(
        _alloc: Global,
        _held: &mut Held<G::Link>,
        _dialer: &mut G,
        clock: &mut C,
        pause: Pause,
    ) -> Result<bool, AgentEnd> {
        end_round(clock, pause)
    }
}

// What came unasked is dropped before the link is asked, and ends a wait.
struct Listening;

impl<G: PushDialer, C: Clock> Rounds<G, C> for Listening {
    ghost use Rattle.agent_rounds.specs.Listening.{AsksQuietServer, ListensWith};

    ghost asks = { AsksQuietServer };

    ghost waits = { ListensWith };

    fn ask_server(
        alloc: Global,
        agent: &Agent,
        held: &mut Held<G::Link>,
        dialer: &mut G,
        bytes: &[u8],
    ) -> Result<Option<ServerToAgent>, AgentEnd> {
        ask_quiet_server(alloc, agent, held, dialer, bytes)
    }

    fn end_round(
        alloc: Global,
        held: &mut Held<G::Link>,
        dialer: &mut G,
        clock: &mut C,
        pause: Pause,
    ) -> Result<bool, AgentEnd> {
        end_listening(alloc, held, dialer, clock, pause)
    }
}

// The parts of a round, one after the other.
fn run_parts<D: Disk, G: Dialer, F: Folder, C: Clock, R: Rounds<G, C>>(
    alloc: Global,
    agent: &mut Agent,
    held: &mut Held<G::Link>,
    handlers: &Handlers,
    disk: &mut D,
    dialer: &mut G,
    folder: &mut F,
    clock: &mut C,
) -> Result<bool, AgentEnd>
    requires idle { agent.old.half.awaits ≡ false }
    requires fits { FitsDisk (D.state disk.old) agent.old.store (kept_part agent.old.half) }
    ensures round { Leads (RoundBy R.asks R.waits (MayAnswer answers handlers.now) (λ names. IsOrdered (names_of handlers.now) names.capabilities))
        (record { agent = agent.old; held = held_view G.number held.old; disk = D.state disk.old; folder = F.state folder.old; dialer = G.state dialer.old; clock = C.state clock.old })
        (record { agent = agent.new; held = held_view G.number held.new; disk = D.state disk.new; folder = F.state folder.new; dialer = G.state dialer.new; clock = C.state clock.new }) result }

    // After a round that goes on the agent awaits nothing, its store fits the disk, and no count has fallen.
    ensures idle { OnOk result (agent.new.half.awaits ≡ false) }
    ensures fits { OnOk result (FitsDisk (D.state disk.new) agent.new.store (kept_part agent.new.half)) }
    ensures disk_count { OnOk result ((D.state disk.old).faults ≤ (D.state disk.new).faults) }
    ensures folder_count { OnOk result ((F.state folder.old).faults ≤ (F.state folder.new).faults) }
    ensures clock_count { OnOk result ((C.state clock.old).faults ≤ (C.state clock.new).faults) }

    // The causes of its end.
    ensures store_fault { result ≡ Err AgentEnd.StoreFault → HasRisen (D.state disk.old).faults (D.state disk.new).faults }
    ensures folder_fault { result ≡ Err AgentEnd.FolderFault → HasRisen (F.state folder.old).faults (F.state folder.new).faults }
    ensures clock_fault { result ≡ Err AgentEnd.ClockFault → HasRisen (C.state clock.old).faults (C.state clock.new).faults }
    ensures no_rounds_spent { result ≡ Err AgentEnd.RoundsSpent → ⊥ }
{
    let bytes = match prepare_report(alloc, agent, held, handlers, disk, folder) {
        Ok(bytes) => bytes,
        Err(end) => return Err(end),
    };
    ask_and_deal::<D, G, F, C, R>(
        alloc,
        agent,
        held,
        handlers,
        disk,
        dialer,
        folder,
        clock,
        bytes.as_slice(),
    )
}

// Asks a report, deals with its answer, and ends the round with its wait.
fn ask_and_deal<D: Disk, G: Dialer, F: Folder, C: Clock, R: Rounds<G, C>>(
    alloc: Global,
    agent: &mut Agent,
    held: &mut Held<G::Link>,
    handlers: &Handlers,
    disk: &mut D,
    dialer: &mut G,
    folder: &mut F,
    clock: &mut C,
    bytes: &[u8],
) -> Result<bool, AgentEnd>
    requires awaiting { agent.old.half.awaits ≡ true }
    requires fits { FitsDisk (D.state disk.old) agent.old.store (kept_part agent.old.half) }
    ensures deals { Leads (AsksAndDeals R.asks R.waits (MayAnswer answers handlers.now) bytes.now)
        (record { agent = agent.old; held = held_view G.number held.old; disk = D.state disk.old; folder = F.state folder.old; dialer = G.state dialer.old; clock = C.state clock.old })
        (record { agent = agent.new; held = held_view G.number held.new; disk = D.state disk.new; folder = F.state folder.new; dialer = G.state dialer.new; clock = C.state clock.new }) result }
    ensures idle { OnOk result (agent.new.half.awaits ≡ false) }
    ensures fits { OnOk result (FitsDisk (D.state disk.new) agent.new.store (kept_part agent.new.half)) }
    ensures folder_count { OnOk result ((F.state folder.old).faults ≤ (F.state folder.new).faults) }
    ensures clock_count { OnOk result ((C.state clock.old).faults ≤ (C.state clock.new).faults) }
    ensures no_folder_fault { result ≡ Err AgentEnd.FolderFault → ⊥ }
    ensures clock_fault { result ≡ Err AgentEnd.ClockFault → HasRisen (C.state clock.old).faults (C.state clock.new).faults }
    ensures no_rounds_spent { result ≡ Err AgentEnd.RoundsSpent → ⊥ }
{
    let reply = match R::ask_server(alloc, agent, held, dialer, bytes) {
        Ok(reply) => reply,
        Err(end) => return Err(end),
    };
    let pause = match deal(
        alloc, agent, held, handlers, disk, dialer, folder, clock, reply,
    ) {
        Ok(pause) => pause,
        Err(end) => return Err(end),
    };
    R::end_round(alloc, held, dialer, clock, pause)
}

/// So many rounds at most, which begin with nothing held. `Ok(n)` where a restart command came in round n, counted from 1.
///
/// # Errors
///
/// As `round`, and `RoundsSpent` exactly where all rounds were done.
pub fn supervise<D: Disk, G: Dialer, F: Folder, C: Clock>(
    alloc: Global,
    agent: &mut Agent,
    handlers: &Handlers,
    disk: &mut D,
    dialer: &mut G,
    folder: &mut F,
    clock: &mut C,
    rounds: u64,
    prove: Option<u64>,
) -> Result<u64, AgentEnd>
    requires idle { agent.old.half.awaits ≡ false }
    requires fits { FitsDisk (D.state disk.old) agent.old.store (kept_part agent.old.half) }
    ensures rounds { (held : HeldView) × Leads (AgentRounds (MayAnswer answers handlers.now) (λ names. IsOrdered (names_of handlers.now) names.capabilities) rounds 0)
        (record { agent = agent.old; held = nothing_held prove; disk = D.state disk.old; folder = F.state folder.old; dialer = G.state dialer.old; clock = C.state clock.old })
        (record { agent = agent.new; held = held; disk = D.state disk.new; folder = F.state folder.new; dialer = G.state dialer.new; clock = C.state clock.new }) result }

    // Where the collector proves configurations, what a crash leaves has the configuration that was kept at first, or one that the collector proved meanwhile.
    ensures proved { IsSome prove → LeavesFormerOrProved
        (record { agent = agent.old; held = nothing_held prove; disk = D.state disk.old; folder = F.state folder.old; dialer = G.state dialer.old; clock = C.state clock.old })
        (D.state disk.new) (F.state folder.new) }

    // After a restart command the area has the files of the agent's configuration and no others, or the folder failed in the run.
    ensures configuration { IsTrue (F.state folder.old).told → OnOk result (AreFiles ((F.state folder.new).files Config) (files_of agent.new.half.saved.config.config_map)
        ⊎ FailsBetween (F.state folder.old).faults (F.state folder.new).faults) }

    // After a restart command, and where all rounds were done, the agent awaits nothing.
    ensures idle { OnOk result (agent.new.half.awaits ≡ false) }
    ensures idle_at_last { result ≡ Err AgentEnd.RoundsSpent → agent.new.half.awaits ≡ false }

    // The causes of its end. All rounds were done, or in the last of them it ended by what it leaves of the agent, or by the reply that it got.
    ensures store_fault { result ≡ Err AgentEnd.StoreFault → HasRisen (D.state disk.old).faults (D.state disk.new).faults }
    ensures folder_fault { result ≡ Err AgentEnd.FolderFault → HasRisen (F.state folder.old).faults (F.state folder.new).faults }
    ensures clock_fault { result ≡ Err AgentEnd.ClockFault → HasRisen (C.state clock.old).faults (C.state clock.new).faults }
    ensures rounds_spent { result ≡ Err AgentEnd.RoundsSpent → (held : HeldView) × (saves : List Saved) × RoundsDone (MayAnswer answers handlers.now) (λ names. IsOrdered (names_of handlers.now) names.capabilities) rounds
        (stage_at (record { agent = agent.old; held = nothing_held prove; disk = D.state disk.old; folder = F.state folder.old; dialer = G.state dialer.old; clock = C.state clock.old }) [])
        (stage_at (record { agent = agent.new; held = held; disk = D.state disk.new; folder = F.state folder.new; dialer = G.state dialer.new; clock = C.state clock.new }) saves) }
    ensures numbers_spent { result ≡ Err AgentEnd.NumbersSpent → ReportSpent agent.new ⊎ ((held : HeldView) × (saves : List Saved) × RunSpent (MayAnswer answers handlers.now) (λ names. IsOrdered (names_of handlers.now) names.capabilities) rounds
        (stage_at (record { agent = agent.old; held = nothing_held prove; disk = D.state disk.old; folder = F.state folder.old; dialer = G.state dialer.old; clock = C.state clock.old }) [])
        (stage_at (record { agent = agent.new; held = held; disk = D.state disk.new; folder = F.state folder.new; dialer = G.state dialer.new; clock = C.state clock.new }) saves)) }
    ensures too_large { result ≡ Err AgentEnd.TooLarge → ReportTooLarge agent.new ⊎ ((held : HeldView) × (saves : List Saved) × RunTooLarge (MayAnswer answers handlers.now) (λ names. IsOrdered (names_of handlers.now) names.capabilities) rounds
        (stage_at (record { agent = agent.old; held = nothing_held prove; disk = D.state disk.old; folder = F.state folder.old; dialer = G.state dialer.old; clock = C.state clock.old }) [])
        (stage_at (record { agent = agent.new; held = held; disk = D.state disk.new; folder = F.state folder.new; dialer = G.state dialer.new; clock = C.state clock.new }) saves)) }
{
    let mut held = Held::new(prove);
    run_rounds::<D, G, F, C, Polling>(
        alloc, agent, &mut held, handlers, disk, dialer, folder, clock, rounds,
    )
}

/// So many rounds at most, with a server that sends unasked too: before each report is asked what came is dropped, 64 messages at most, and where there are
/// more or the link is dead the report is given up; a wait goes in parts of a second at most, and a message that came ends it.
///
/// # Errors
///
/// As `supervise`.
pub fn supervise_pushed<D: Disk, G: PushDialer, F: Folder, C: Clock>(
    alloc: Global,
    agent: &mut Agent,
    handlers: &Handlers,
    disk: &mut D,
    dialer: &mut G,
    folder: &mut F,
    clock: &mut C,
    rounds: u64,
    prove: Option<u64>,
) -> Result<u64, AgentEnd>
    requires idle { agent.old.half.awaits ≡ false }
    requires fits { FitsDisk (D.state disk.old) agent.old.store (kept_part agent.old.half) }
    ensures rounds { (held : HeldView) × Leads (PushedRounds (MayAnswer answers handlers.now) (λ names. IsOrdered (names_of handlers.now) names.capabilities) rounds 0)
        (record { agent = agent.old; held = nothing_held prove; disk = D.state disk.old; folder = F.state folder.old; dialer = G.state dialer.old; clock = C.state clock.old })
        (record { agent = agent.new; held = held; disk = D.state disk.new; folder = F.state folder.new; dialer = G.state dialer.new; clock = C.state clock.new }) result }

    // Where the collector proves configurations, what a crash leaves has the configuration that was kept at first, or one that the collector proved meanwhile.
    ensures proved { IsSome prove → LeavesFormerOrProved
        (record { agent = agent.old; held = nothing_held prove; disk = D.state disk.old; folder = F.state folder.old; dialer = G.state dialer.old; clock = C.state clock.old })
        (D.state disk.new) (F.state folder.new) }

    // After a restart command the area has the files of the agent's configuration and no others, or the folder failed in the run.
    ensures configuration { IsTrue (F.state folder.old).told → OnOk result (AreFiles ((F.state folder.new).files Config) (files_of agent.new.half.saved.config.config_map)
        ⊎ FailsBetween (F.state folder.old).faults (F.state folder.new).faults) }

    // After a restart command, and where all rounds were done, the agent awaits nothing.
    ensures idle { OnOk result (agent.new.half.awaits ≡ false) }
    ensures idle_at_last { result ≡ Err AgentEnd.RoundsSpent → agent.new.half.awaits ≡ false }

    // The causes of its end. All rounds were done, or in the last of them it ended by what it leaves of the agent, or by the reply that it got.
    ensures store_fault { result ≡ Err AgentEnd.StoreFault → HasRisen (D.state disk.old).faults (D.state disk.new).faults }
    ensures folder_fault { result ≡ Err AgentEnd.FolderFault → HasRisen (F.state folder.old).faults (F.state folder.new).faults }
    ensures clock_fault { result ≡ Err AgentEnd.ClockFault → HasRisen (C.state clock.old).faults (C.state clock.new).faults }
    ensures rounds_spent { result ≡ Err AgentEnd.RoundsSpent → (held : HeldView) × (saves : List Saved) × RoundsDoneBy AsksQuietServer ListensWith (MayAnswer answers handlers.now) (λ names. IsOrdered (names_of handlers.now) names.capabilities) rounds
        (stage_at (record { agent = agent.old; held = nothing_held prove; disk = D.state disk.old; folder = F.state folder.old; dialer = G.state dialer.old; clock = C.state clock.old }) [])
        (stage_at (record { agent = agent.new; held = held; disk = D.state disk.new; folder = F.state folder.new; dialer = G.state dialer.new; clock = C.state clock.new }) saves) }
    ensures numbers_spent { result ≡ Err AgentEnd.NumbersSpent → ReportSpent agent.new ⊎ ((held : HeldView) × (saves : List Saved) × RunEndsBy AsksQuietServer ListensWith AgentEnd.NumbersSpent (MayAnswer answers handlers.now) (λ names. IsOrdered (names_of handlers.now) names.capabilities) rounds
        (stage_at (record { agent = agent.old; held = nothing_held prove; disk = D.state disk.old; folder = F.state folder.old; dialer = G.state dialer.old; clock = C.state clock.old }) [])
        (stage_at (record { agent = agent.new; held = held; disk = D.state disk.new; folder = F.state folder.new; dialer = G.state dialer.new; clock = C.state clock.new }) saves)) }
    ensures too_large { result ≡ Err AgentEnd.TooLarge → ReportTooLarge agent.new ⊎ ((held : HeldView) × (saves : List Saved) × RunEndsBy AsksQuietServer ListensWith AgentEnd.TooLarge (MayAnswer answers handlers.now) (λ names. IsOrdered (names_of handlers.now) names.capabilities) rounds
        (stage_at (record { agent = agent.old; held = nothing_held prove; disk = D.state disk.old; folder = F.state folder.old; dialer = G.state dialer.old; clock = C.state clock.old }) [])
        (stage_at (record { agent = agent.new; held = held; disk = D.state disk.new; folder = F.state folder.new; dialer = G.state dialer.new; clock = C.state clock.new }) saves)) }
{
    let mut held = Held::new(prove);
    run_rounds::<D, G, F, C, Listening>(
        alloc, agent, &mut held, handlers, disk, dialer, folder, clock, rounds,
    )
}

// So many rounds at most, which begin with what is held.
fn run_rounds<D: Disk, G: Dialer, F: Folder, C: Clock, R: Rounds<G, C>>(
    alloc: Global,
    agent: &mut Agent,
    held: &mut Held<G::Link>,
    handlers: &Handlers,
    disk: &mut D,
    dialer: &mut G,
    folder: &mut F,
    clock: &mut C,
    rounds: u64,
) -> Result<u64, AgentEnd>
    requires idle { agent.old.half.awaits ≡ false }
    requires fits { FitsDisk (D.state disk.old) agent.old.store (kept_part agent.old.half) }
    ensures rounds { Leads (RoundsBy R.asks R.waits (MayAnswer answers handlers.now) (λ names. IsOrdered (names_of handlers.now) names.capabilities) rounds 0)
        (record { agent = agent.old; held = held_view G.number held.old; disk = D.state disk.old; folder = F.state folder.old; dialer = G.state dialer.old; clock = C.state clock.old })
        (record { agent = agent.new; held = held_view G.number held.new; disk = D.state disk.new; folder = F.state folder.new; dialer = G.state dialer.new; clock = C.state clock.new }) result }
    ensures idle { OnOk result (agent.new.half.awaits ≡ false) }
    ensures idle_at_last { result ≡ Err AgentEnd.RoundsSpent → agent.new.half.awaits ≡ false }
    ensures store_fault { result ≡ Err AgentEnd.StoreFault → HasRisen (D.state disk.old).faults (D.state disk.new).faults }
    ensures folder_fault { result ≡ Err AgentEnd.FolderFault → HasRisen (F.state folder.old).faults (F.state folder.new).faults }
    ensures clock_fault { result ≡ Err AgentEnd.ClockFault → HasRisen (C.state clock.old).faults (C.state clock.new).faults }
{
    for done in 0..rounds {
        match run_parts::<D, G, F, C, R>(
            alloc, agent, held, handlers, disk, dialer, folder, clock,
        ) {
            Ok(true) => return Ok(done + 1),
            Ok(false) => {}
            Err(end) => return Err(end),
        }
    }
    Err(AgentEnd::RoundsSpent)
}
