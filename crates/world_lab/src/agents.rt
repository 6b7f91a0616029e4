//! The lines in which the agent acts by itself.

ghost use Rattle.std.specs.Option.{option_map};
ghost use Rattle.std.specs.Prelude.{◌≡◌, ◌+◌, ◌++◌, ◌∷◌, [], List, None, false, true, length, IfOk, OnOk, IsErrOf};
ghost use Rattle.message_values.specs.declared.report.AgentToServer.{AgentToServer};
ghost use Rattle.message_reports.specs.Reports.{MeansReport};
ghost use Rattle.server_core.specs.Served.{Served};
ghost use Rattle.agent_rules.specs.Half.{AgentHalf, target};
ghost use Rattle.agent_rules.specs.Keeping.{Report};
ghost use Rattle.agent_rules.specs.Calls.{may_report};
ghost use Rattle.agent_rules.specs.Events.{GivesUp, agent_after};
ghost use Rattle.agent_state.specs.Refusals.{IsPrepared};
ghost use Rattle.world_scripts.specs.declared.lines.Line.TheVariants as lines;
ghost use Rattle.world_lab.specs.Hosts.{HasGenerations, IsHosted, IsServer, StopsIn};
ghost use Rattle.world_lab.specs.Mirrors.{IsMirror, Plays};
ghost use Rattle.world_lab.specs.Reports.{IsKept, Reports};

use crate::fails::HostFail;
use crate::plays::{Host, Play, SentReport, number_at, take_stop};
use crate::starting::recover;
use crate::written::Written;
use agent_rules::{AgentFail, Prepared};
use agent_state::Agent;
use message_codec::reader::items::ReadFail;
use message_reports::decoding::decode_report;
use message_values::AgentToServer;
use plain_values::{NoMemory, Plain, Text};
use std::alloc::Global;

/// The agent reports, where it may. The armed stop is taken.
pub fn send(play: &mut Play) -> Result<Written, NoMemory>
    requires mirror { (servers : List Served) × IsMirror play.old servers }
    requires generations { HasGenerations 1 play.old.host }
    ensures played { IfOk result (λ written. (servers : List Served) → Plays lines.Send play.old servers play.new servers written) }
{
    world_model::runs_go_on();
    agent_stopped::stages_join();
    agent_stopped::events_are_their_calls();
    agent_stopped::outcomes_tell_endings();
    let mode = take_stop(play);
    if play.host.agent.awaits() {
        return Ok(Written::Nothing);
    }
    match report(&mut play.host) {
        Ok(made) => match made {
            Some(prepared) => keep_sent(play, prepared),
            None => Ok(Written::Nothing),
        },
        Err(HostFail::Stopped) => recover(play, mode),
        Err(HostFail::NoMemory) => Err(NoMemory),
    }
}

/// The agent's report, where it may make one.
pub fn report(host: &mut Host) -> Result<Option<Prepared>, HostFail>
    requires hosted { IsHosted host.old }
    requires generations { HasGenerations 1 host.old }
    requires idle { host.old.agent.half.awaits ≡ false }
    ensures sent { IfOk result (Reports host.old host.new) }
    ensures stopped { IsErrOf result HostFail.Stopped → StopsIn host.old host.new (Report ∷ []) 1 }
    ensures due { IsErrOf result HostFail.Stopped → may_report host.old.agent.half ≡ true }
{
    match agent_stopped::report(&mut host.agent, &mut host.disk) {
        Ok(prepared) => Ok(Some(prepared)),
        Err(AgentFail::TooLarge) => Ok(None),
        Err(AgentFail::NumbersSpent) => Ok(None),
        Err(AgentFail::StoreFault) => Err(HostFail::Stopped),
        Err(AgentFail::NoMemory) => Err(HostFail::NoMemory),
        Err(AgentFail::WrongUid) => unreachable!(),
    }
}

// The report stands behind those that were sent before.
fn keep_sent(play: &mut Play, prepared: Prepared) -> Result<Written, NoMemory>
    requires prepared { (m : AgentToServer) × MeansReport prepared.bytes m }
    requires server { IsServer (target play.old.host.agent.half).endpoint }
    ensures host { play.new.host ≡ play.old.host }
    ensures stop { play.new.stop ≡ play.old.stop }
    ensures opening { play.new.opening ≡ play.old.opening }
    ensures local { play.new.local ≡ play.old.local }
    ensures pushes { play.new.pushes.items ≡ play.old.pushes.items }
    ensures kept { IfOk result (λ written. (before : AgentHalf) → IsPrepared before prepared → (target before).endpoint ≡ (target play.old.host.agent.half).endpoint
        → IsKept before play.old.sent.items play.new.sent.items written) }
{
    message_reports::laws::one_report();
    let server = number_at(play.host.agent.target().endpoint.as_str());
    let bytes = prepared.bytes.as_slice();
    let report = keep_message(play.alloc, &mut play.sent, server, bytes)?;
    Ok(Written::SentReport {
        report,
        server,
        number: prepared.number,
        is_whole: prepared.whole,
        bytes: prepared.bytes,
    })
}

// What the bytes say stands behind the reports that were sent before, as one to this server. Its place, counted from 1.
fn keep_message(
    alloc: Global,
    sent: &mut Vec<SentReport>,
    server: u8,
    bytes: &[u8],
) -> Result<u64, NoMemory>
    requires report { (m : AgentToServer) × MeansReport bytes.now m }
    ensures kept { IfOk result (λ place. (m : AgentToServer) × MeansReport bytes.now m
        × (sent.new.items ≡ sent.old.items ++ record { server = server; message = m; reply = None } ∷ []) × (place ≡ length sent.old.items + 1)) }
{
    let message = decoded(alloc, bytes)?;
    sent.push(SentReport {
        server,
        message,
        reply: None,
    })?;
    Ok(sent.len() as u64)
}

/// What the bytes of a report say.
pub fn decoded(alloc: Global, bytes: &[u8]) -> Result<AgentToServer, NoMemory>
    requires report { (m : AgentToServer) × MeansReport bytes.now m }
    ensures means { IfOk result (MeansReport bytes.now) }
{
    message_codec::reader::laws::no_fault();
    match decode_report(alloc, bytes) {
        Ok(message) => Ok(message),
        Err(ReadFail::NoMemory) => Err(NoMemory),
        Err(ReadFail::Refused(_)) => unreachable!(),
    }
}

/// The agent gives the awaited reply up, and settings that it tries with it.
pub fn give_up(play: &mut Play) -> Result<Written, NoMemory>
    ensures played { IfOk result (λ written. (servers : List Served) → Plays lines.GiveUp play.old servers play.new servers written) }
{
    world_model::runs_go_on();
    if !play.host.agent.awaits() {
        return Ok(Written::Nothing);
    }
    let abandoned = stop_waiting(play.alloc, &mut play.host.agent)?;
    play.pushes.clear();
    Ok(Written::GaveUp { abandoned })
}

// The agent waits no longer, and tries no settings: the endpoint of those that it tried, if there were some.
fn stop_waiting(alloc: Global, agent: &mut Agent) -> Result<Option<Text>, NoMemory>
    requires awaits { agent.old.half.awaits ≡ true }
    ensures left { OnOk result (agent.new.half ≡ agent_after agent.old.half GivesUp) }
    ensures store { agent.new.store ≡ agent.old.store }
    ensures abandoned { IfOk result (λ abandoned. abandoned ≡ option_map (λ tried. tried.endpoint) agent.old.half.trial) }
{
    if !agent.trying() {
        agent.give_up();
        return Ok(None);
    }
    let endpoint = agent.target().endpoint.copy(alloc)?;
    agent.give_up();
    agent.abandon_try();
    Ok(Some(endpoint))
}

/// The endpoint and the files that the agent uses are written.
pub fn show_active(play: &Play) -> Result<Written, NoMemory>
    ensures played { IfOk result (λ written. (servers : List Served) → Plays lines.Active play.now servers play.now servers written) }
{
    let saved = play.host.agent.saved();
    Ok(Written::InUse {
        endpoint: saved.settings.endpoint.copy(play.alloc)?,
        files: saved.config.config_map.copy(play.alloc)?,
    })
}
