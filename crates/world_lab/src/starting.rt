//! The agent's start: again, and after a stop.

ghost use Rattle.std.specs.Prelude.{◌≡◌, ◌≤◌, ◌+◌, ℕ, List, [], IfOk, OnOk, if◌then◌else◌};
ghost use Rattle.edge_devices.specs.Disks.{disk_bytes};
ghost use Rattle.edge_devices.specs.MemoryDisks.{memory_disk};
ghost use Rattle.server_core.specs.Served.{Served};
ghost use Rattle.agent_store.specs.Plans.{load_plan};
ghost use Rattle.agent_rules.specs.Half.{restarted};
ghost use Rattle.agent_rules.specs.Keeping.{Call};
ghost use Rattle.agent_stopped.specs.Endings.{stops_in};
ghost use Rattle.agent_stopped.specs.Stages.{left_on};
ghost use Rattle.world_scripts.specs.declared.lines.Line.TheVariants as lines;
ghost use Rattle.world_lab.specs.Playing.{stop_call};
ghost use Rattle.world_lab.specs.Hosts.{IsHosted, StopsIn, lab_opening};
ghost use Rattle.world_lab.specs.Transcripts.{crash_line, start_line};
ghost use Rattle.world_lab.specs.Mirrors.{IsMirror, Plays};
ghost use Rattle.world_lab.specs.declared.plays.Host.{Host as HostState};

use crate::configs::bring_back;
use crate::plays::{ArmedStop, Host, Play, call_of, mode_of};
use crate::written::Written;
use agent_rules::LocalState;
use agent_state::Agent;
use agent_stopped::Opening;
use edge_devices::Mode;
use plain_values::{NoMemory, Plain};
use std::alloc::Global;

/// The agent starts again from its disk, and once more where that start is stopped. Its folder is brought to its configuration.
pub fn restart(play: &mut Play) -> Result<Written, NoMemory>
    requires mirror { (servers : List Served) × IsMirror play.old servers }
    ensures played { IfOk result (λ written. (servers : List Served) → Plays lines.Restart play.old servers play.new servers written) }
{
    world_model::runs_go_on();
    agent_stopped::stages_join();
    agent_stopped::events_are_their_calls();
    agent_stopped::outcomes_tell_endings();
    let local = play.local.copy(play.alloc)?;
    let stop = play.stop;
    play.stop = None;
    play.pushes.clear();
    let stopped = restart_host(play.alloc, &mut play.host, &play.opening, stop, local)?;
    shown(play.alloc, &play.host.agent, stopped)
}

// The agent starts again from its disk, knowing this of itself, which is what it knew. Whether its first start was stopped.
fn restart_host(
    alloc: Global,
    host: &mut Host,
    opening: &Opening,
    stop: Option<ArmedStop>,
    local: LocalState,
) -> Result<bool, NoMemory>
    requires hosted { IsHosted host.old }
    requires opening { opening.now ≡ lab_opening }
    requires local { local ≡ host.old.agent.half.local }
    ensures half { OnOk result (host.new.agent.half ≡ restarted host.old.agent.half) }
    ensures stopped { IfOk result (λ stopped. stopped ≡ stops_in (stop_call stop) load_plan) }
    ensures hosted { OnOk result (IsHosted host.new) }
    ensures image { OnOk result (disk_bytes (memory_disk host.new.disk) ≡ disk_bytes (memory_disk host.old.disk)) }
    ensures generation { OnOk result (host.new.agent.store.generation ≤ host.old.agent.store.generation) }
{
    agent_stopped::rest_starts_again();
    agent_store::bytes_tell_store();
    let disk = &mut host.disk;
    let (agent, stopped) = agent_stopped::restart(
        alloc,
        disk,
        call_of(stop),
        mode_of(stop),
        opening,
        local,
    )?;
    host.agent = agent;
    bring_back(alloc, host)?;
    Ok(stopped)
}

/// A device call was stopped, and the agent starts again from what a crash in this mode leaves of its disk. Its folder is brought to its configuration.
pub fn recover(play: &mut Play, mode: Mode) -> Result<Written, NoMemory>
    requires stopped { (before : HostState) × (calls : List Call) × (most : ℕ) × StopsIn before play.old.host calls most × (play.old.local ≡ before.agent.half.local) }
    requires opening { play.old.opening ≡ lab_opening }
    ensures half { OnOk result ((before : HostState) (calls : List Call) (most : ℕ) (s : StopsIn before play.old.host calls most) → play.old.local ≡ before.agent.half.local
        → play.new.host.agent.half ≡ s.stopped.half mode) }
    ensures hosted { OnOk result (IsHosted play.new.host) }
    ensures image { OnOk result (disk_bytes (memory_disk play.new.host.disk) ≡ left_on play.old.host.disk mode) }
    ensures generation { OnOk result ((before : HostState) (calls : List Call) (most : ℕ) → StopsIn before play.old.host calls most
        → play.new.host.agent.store.generation ≤ before.agent.store.generation + most) }
    ensures stop { play.new.stop ≡ play.old.stop }
    ensures opening { play.new.opening ≡ play.old.opening }
    ensures local { play.new.local ≡ play.old.local }
    ensures sent { play.new.sent.items ≡ play.old.sent.items }
    ensures pushes { play.new.pushes.items ≡ [] }
    ensures written { IfOk result (λ written. written ≡ crash_line play.new.host.agent.half) }
{
    play.pushes.clear();
    let local = play.local.copy(play.alloc)?;
    let disk = &mut play.host.disk;
    let agent = agent_stopped::recover(play.alloc, disk, mode, &play.opening, local)?;
    play.host.agent = agent;
    bring_back(play.alloc, &mut play.host)?;
    crashed(play.alloc, &play.host.agent)
}

// The line of an agent that started again, by whether its first start was stopped.
fn shown(alloc: Global, agent: &Agent, stopped: bool) -> Result<Written, NoMemory>
    ensures line { IfOk result (λ line. line ≡ (if stopped then crash_line agent.now.half else start_line agent.now.half)) }
{
    if stopped {
        crashed(alloc, agent)
    } else {
        restarted(alloc, agent)
    }
}

// The line of an agent that started again behind a crash.
fn crashed(alloc: Global, agent: &Agent) -> Result<Written, NoMemory>
    ensures line { IfOk result (λ line. line ≡ crash_line agent.now.half) }
{
    let saved = agent.saved();
    Ok(Written::Crashed {
        number: saved.limit,
        endpoint: saved.settings.endpoint.copy(alloc)?,
    })
}

// The line of an agent that started again.
fn restarted(alloc: Global, agent: &Agent) -> Result<Written, NoMemory>
    ensures line { IfOk result (λ line. line ≡ start_line agent.now.half) }
{
    let saved = agent.saved();
    Ok(Written::Restarted {
        number: saved.limit,
        endpoint: saved.settings.endpoint.copy(alloc)?,
    })
}
