//! What the agent does about a reply that reached it.

ghost use Rattle.std.specs.Prelude.{◌≡◌, ◌⊎◌, ◌∷◌, [], Some, None, true, false, not, ◌&&◌, ◌||◌, is_some, if◌then◌else◌, IfOk, IfSome, OnOk, IsErrOf, List, length, ◌-◌};
ghost use Rattle.std.specs.Option.{option_map, option_copied};
ghost use Rattle.agent_rules.specs.Half.{target};
ghost use Rattle.agent_rules.specs.Keeping.{CommitTry, TakeReply, fits};
ghost use Rattle.agent_rules.specs.Offers.{trial_calls};
ghost use Rattle.agent_rules.specs.Events.{Hears, calls_in};
ghost use Rattle.server_core.specs.Served.{Served};
ghost use Rattle.world_model.specs.World.{no_reactions};
ghost use Rattle.world_scripts.specs.declared.lines.Line.TheVariants as lines;
ghost use Rattle.world_lab.specs.declared.written.Attempt.TheVariants.{Refused};
ghost use Rattle.world_lab.specs.Transcripts.{attempt, heard_line, trial_end};
ghost use Rattle.world_lab.specs.Hearing.{Takes, trying_calls};
ghost use Rattle.world_lab.specs.Mirrors.{IsMirror, Plays, kept_at};
ghost use Rattle.world_lab.specs.Hosts.{Commits, GoesOn, HasGenerations, IsHosted, IsReply, IsServer, StopsIn};
ghost use Rattle.world_lab.specs.Taken.{HasTaken};

use crate::configs::configure;
use crate::fails::HostFail;
use crate::plays::{Host, Play, SentReport, WaitingPush, take_stop};
use crate::starting::recover;
use crate::written::{Attempt, TrialEnd, Written};
use agent_rules::{AgentFail, Next};
use agent_state::Agent;
use message_values::{ServerToAgent, Settings};
use plain_values::{NoMemory, Plain, Text};
use std::alloc::Global;

/// The reply that was kept of the last report reaches the agent, where that awaits it. The armed stop is taken.
pub fn hear(play: &mut Play) -> Result<Written, NoMemory>
    requires mirror { (servers : List Served) × IsMirror play.old servers }
    requires generations { HasGenerations 4 play.old.host }
    ensures played { IfOk result (λ written. (servers : List Served) → Plays lines.Reply play.old servers play.new servers written) }
{
    world_model::runs_go_on();
    agent_stopped::stages_join();
    agent_stopped::events_are_their_calls();
    agent_stopped::outcomes_tell_endings();
    let mode = take_stop(play);
    if !play.host.agent.awaits() {
        return Ok(Written::Nothing);
    }
    let tried = play.host.agent.trying();
    match last_reply(play.sent.as_slice()) {
        Some(reply) => match hear_reply(play.alloc, &mut play.host, reply) {
            Ok(written) => {
                keep_pushes(&play.host.agent, &mut play.pushes, tried);
                Ok(written)
            }
            Err(HostFail::Stopped) => recover(play, mode),
            Err(HostFail::NoMemory) => Err(NoMemory),
        },
        None => Ok(Written::Nothing),
    }
}

/// Behind an answer, before which the agent tried settings or didn't: no push waits any more where a trial of settings began or ended by the answer. Takes no
/// memory.
pub fn keep_pushes(agent: &Agent, pushes: &mut Vec<WaitingPush>, tried: bool)
    ensures kept { pushes.new.items ≡ (if not agent.now.half.awaits && (tried || is_some agent.now.half.trial) then [] else pushes.old.items) }
{
    if !agent.awaits() && (tried || agent.trying()) {
        pushes.clear();
    }
}

// The reply that was kept of the last report. Takes no memory.
fn last_reply(sent: &[SentReport]) -> Option<&ServerToAgent>
    ensures last { option_copied result ≡ kept_at sent.now (length sent.now - 1) }
{
    sent.last()?.reply.as_ref()
}

/// The awaited reply reaches the agent, and is dealt with.
pub fn hear_reply(
    alloc: Global,
    host: &mut Host,
    reply: &ServerToAgent,
) -> Result<Written, HostFail>
    requires hosted { IsHosted host.old }
    requires generations { HasGenerations 4 host.old }
    requires awaits { host.old.agent.half.awaits ≡ true }
    requires reply { IsReply reply.now }
    ensures goes { OnOk result (GoesOn host.old host.new (calls_in host.old.agent.half (Hears reply.now no_reactions)) 4) }
    ensures written { IfOk result (λ written. written ≡ heard_line host.old.agent.half reply.now) }
    ensures stopped { IsErrOf result HostFail.Stopped → StopsIn host.old host.new (calls_in host.old.agent.half (Hears reply.now no_reactions)) 4 }
{
    let Some(mut next) = take_reply(host, reply)? else {
        return Ok(Written::Nothing);
    };
    let written = see_to(alloc, host, &mut next);
    drop(next);
    written
}

// What the reply asks is seen to. It is behind a reference, so that no exit drops it part by part.
fn see_to(alloc: Global, host: &mut Host, next: &mut Next) -> Result<Written, HostFail>
    requires taken { (before : Host) × (reply : ServerToAgent) × HasTaken before host.old reply next.old }
    ensures goes { OnOk result ((before : Host) (reply : ServerToAgent) → HasTaken before host.old reply next.old
        → GoesOn before host.new (calls_in before.agent.half (Hears reply no_reactions)) 4) }
    ensures written { IfOk result (λ written. (before : Host) (reply : ServerToAgent) → HasTaken before host.old reply next.old
        → written ≡ heard_line before.agent.half reply) }
    ensures stopped { IsErrOf result HostFail.Stopped → (before : Host) (reply : ServerToAgent) → HasTaken before host.old reply next.old
        → StopsIn before host.new (calls_in before.agent.half (Hears reply no_reactions)) 4 }
{
    let trial = end_trial(alloc, host, next.proved)?;
    let config = next.config.take();
    let configured = configure(alloc, host, config)?;
    let offered = next.connection.take();
    let connection = where_kept(configured.kept, offered);
    let refused = next.refused.take();
    let attempt = begin(alloc, host, connection, refused)?;
    Ok(Written::Heard {
        full: next.full,
        trial,
        applied: configured.applied,
        attempt,
    })
}

/// The agent takes the awaited reply, where there is room for what it teaches.
pub fn take_reply(host: &mut Host, reply: &ServerToAgent) -> Result<Option<Next>, HostFail>
    requires hosted { IsHosted host.old }
    requires generations { HasGenerations 1 host.old }
    requires awaits { host.old.agent.half.awaits ≡ true }
    requires reply { IsReply reply.now }
    ensures goes { OnOk result (GoesOn host.old host.new (TakeReply reply.now ∷ []) 1) }
    ensures taken { IfOk result (Takes host.old.agent.half reply.now) }
    ensures stopped { IsErrOf result HostFail.Stopped → StopsIn host.old host.new (TakeReply reply.now ∷ []) 1 }
{
    match agent_stopped::on_reply(&mut host.agent, &mut host.disk, reply) {
        Ok(next) => Ok(Some(next)),
        Err(AgentFail::TooLarge) => Ok(None),
        Err(AgentFail::StoreFault) => Err(HostFail::Stopped),
        Err(AgentFail::NoMemory) => Err(HostFail::NoMemory),
        Err(AgentFail::NumbersSpent) => unreachable!(),
        Err(AgentFail::WrongUid) => unreachable!(),
    }
}

/// A trial of settings ends: they become the agent's own where they have their proof and there is room for them.
pub fn end_trial(alloc: Global, host: &mut Host, proved: bool) -> Result<Option<TrialEnd>, HostFail>
    requires hosted { IsHosted host.old }
    requires generations { HasGenerations 1 host.old }
    requires idle { host.old.agent.half.awaits ≡ false }
    requires proved { proved ≡ host.old.agent.half.proved }
    ensures goes { OnOk result (GoesOn host.old host.new (trial_calls host.old.agent.half) 1) }
    ensures end { IfOk result (λ end. end ≡ trial_end host.old.agent.half) }
    ensures stopped { IsErrOf result HostFail.Stopped → StopsIn host.old host.new (trial_calls host.old.agent.half) 1 }
{
    if !host.agent.trying() {
        return Ok(None);
    }
    let endpoint = host.agent.target().endpoint.copy(alloc)?;
    if !proved {
        return Ok(Some(abandon(host, endpoint)));
    }
    match commit(host) {
        Ok(true) => Ok(Some(TrialEnd::Kept { endpoint })),
        Ok(false) => Ok(Some(abandon(host, endpoint))),
        Err(fail) => Err(fail),
    }
}

/// The settings under trial become the agent's own, where there is room for them.
pub fn commit(host: &mut Host) -> Result<bool, HostFail>
    requires hosted { IsHosted host.old }
    requires generations { HasGenerations 1 host.old }
    requires trying { is_some host.old.agent.half.trial ≡ true }
    requires proved { host.old.agent.half.proved ≡ true }
    ensures commits { IfOk result (Commits host.old host.new) }
    ensures stopped { IsErrOf result HostFail.Stopped → StopsIn host.old host.new (CommitTry ∷ []) 1 }
{
    match agent_stopped::commit_try(&mut host.agent, &mut host.disk) {
        Ok(()) => Ok(true),
        Err(AgentFail::TooLarge) => Ok(false),
        Err(AgentFail::StoreFault) => Err(HostFail::Stopped),
        Err(AgentFail::NoMemory) => Err(HostFail::NoMemory),
        Err(AgentFail::NumbersSpent) => unreachable!(),
        Err(AgentFail::WrongUid) => unreachable!(),
    }
}

/// The settings with this endpoint aren't tried any longer: they have no proof, or there is no room for them. Takes no memory.
pub fn abandon(host: &mut Host, endpoint: Text) -> TrialEnd
    requires hosted { IsHosted host.old }
    requires idle { host.old.agent.half.awaits ≡ false }
    requires trying { is_some host.old.agent.half.trial ≡ true }
    requires lost { (host.old.agent.half.proved ≡ false) ⊎ (fits host.old.agent.half CommitTry ≡ false) }
    requires endpoint { endpoint ≡ (target host.old.agent.half).endpoint }
    ensures goes { GoesOn host.old host.new (trial_calls host.old.agent.half) 0 }
    ensures end { Some result ≡ trial_end host.old.agent.half }
{
    agent_stopped::calls_beside_disk();
    host.agent.abandon_try();
    TrialEnd::Abandoned { endpoint }
}

/// Settings are tried from the next report on, if some are offered that are acceptable.
pub fn begin(
    alloc: Global,
    host: &mut Host,
    next: Option<Settings>,
    refused: Option<Text>,
) -> Result<Option<Attempt>, NoMemory>
    requires hosted { IsHosted host.old }
    requires idle { host.old.agent.half.awaits ≡ false }
    requires settled { host.old.agent.half.trial ≡ None }
    requires server { IfSome next (λ settings. IsServer settings.endpoint) }
    ensures goes { OnOk result (GoesOn host.old host.new (trying_calls next) 0) }
    ensures attempt { IfOk result (λ made. made ≡ attempt next refused) }
{
    agent_stopped::calls_beside_disk();
    match next {
        Some(settings) => {
            let endpoint = settings.endpoint.copy(alloc)?;
            host.agent.begin_try(settings);
            Ok(Some(Attempt::Tried { endpoint }))
        }
        None => Ok(refused_one(refused)),
    }
}

// The settings, where what came before them was kept.
fn where_kept(kept: bool, next: Option<Settings>) -> Option<Settings>
    ensures next { result ≡ (if kept then next else None) }
{
    if kept { next } else { None }
}

fn refused_one(refused: Option<Text>) -> Option<Attempt>
    ensures refused { result ≡ option_map Refused refused }
{
    match refused {
        Some(endpoint) => Some(Attempt::Refused { endpoint }),
        None => None,
    }
}
