//! What is done with the answer to a report.

ghost use Rattle.std.specs.Prelude.{◌≡◌, ◌≤◌, ℕ, true, false, None, Some, IfOk, IfErr, IfSome, OnOk};
ghost use Rattle.agent_rules.specs.Half.{kept_part};
ghost use Rattle.agent_rules.specs.Keeping.{TakeReply};
ghost use Rattle.agent_rules.specs.Offers.{next_of};
ghost use Rattle.message_handlers.specs.Asking.{MayAnswer};
ghost use Rattle.agent_state.specs.View.{FitsDisk};
ghost use Rattle.agent_rounds.specs.Dealing.{CanBeTried, DealsWithRest, done_of};
ghost use Rattle.agent_rounds.specs.Moments.{IsCallEnd, RunsPart, held_view, with_agent, with_clock, with_dialer, with_folder, with_held};
ghost use Rattle.agent_rounds.specs.Replies.{DealsWith, DealsWithNext};
ghost use Rattle.agent_rounds.specs.Stages.{MakesCall, Stage};

use crate::answering::handle;
use crate::configuring::configure;
use crate::ends::{AgentEnd, Pause, end_of};
use crate::giving_up::give_up_round;
use crate::held::Held;
use crate::installing::install;
use crate::pauses::pause_after;
use crate::trials::{begin_trial, end_trial};
use agent_rules::Next;
use agent_state::Agent;
use edge_devices::{Clock, Dialer, Disk, Folder};
use message_handlers::{Handler, Handlers};
use message_values::ServerToAgent;
use std::alloc::Global;

// Has the agent take the reply, and gives what it asks.
fn take_reply<D: Disk>(
    agent: &mut Agent,
    disk: &mut D,
    reply: &ServerToAgent,
) -> Result<Next, AgentEnd>
    requires fits { FitsDisk (D.state disk.old) agent.old.store (kept_part agent.old.half) }
    requires awaiting { agent.old.half.awaits ≡ true }
    requires to_it { reply.now.instance_uid ≡ agent.old.half.saved.uid }
    ensures does { (s : Stage) → RunsPart (MakesCall (TakeReply reply.now)) (D.state disk.old) (D.state disk.new) (with_agent agent.old s) (with_agent agent.new s) (done_of result) }
    ensures fits { OnOk result (FitsDisk (D.state disk.new) agent.new.store (kept_part agent.new.half)) }
    ensures next { IfOk result (λ next. next ≡ next_of reply.now agent.old.half) }
    ensures idle { OnOk result (agent.new.half.awaits ≡ false) }
    ensures proved { IfOk result (λ next. agent.new.half.proved ≡ next.proved) }
    ensures endpoint { IfOk result (λ next. CanBeTried next.connection) }
    ensures end { IfErr result IsCallEnd }
{
    let _target = agent.target();
    let _saved = agent.saved();
    match agent.on_reply(disk, reply) {
        Ok(next) => Ok(next),
        Err(fail) => Err(end_of(fail)),
    }
}

// Deals with what a reply asked behind the configuration: packages, message and settings, in this order.
fn deal_with_rest<D: Disk, G: Dialer, F: Folder>(
    alloc: Global,
    agent: &mut Agent,
    handlers: &Handlers,
    disk: &mut D,
    dialer: &mut G,
    folder: &mut F,
    next: &mut Next,
) -> Result<Pause, AgentEnd>
    requires fits { FitsDisk (D.state disk.old) agent.old.store (kept_part agent.old.half) }
    requires idle { agent.old.half.awaits ≡ false }
    requires settled { agent.old.half.trial ≡ None }
    requires endpoint { CanBeTried next.old.connection }
    ensures does { (s : Stage) → RunsPart (DealsWithRest (MayAnswer answers handlers.now) next.old) (D.state disk.old) (D.state disk.new)
        (with_agent agent.old (with_folder (F.state folder.old) (with_dialer (G.state dialer.old) s)))
        (with_agent agent.new (with_folder (F.state folder.new) (with_dialer (G.state dialer.new) s))) result }
    ensures fits { OnOk result (FitsDisk (D.state disk.new) agent.new.store (kept_part agent.new.half)) }
    ensures idle { OnOk result (agent.new.half.awaits ≡ false) }
    ensures folder_count { OnOk result ((F.state folder.old).faults ≤ (F.state folder.new).faults) }
    ensures end { IfErr result IsCallEnd }
{
    match install(alloc, agent, disk, dialer, folder, &next.packages) {
        Ok(()) => {}
        Err(end) => return Err(end),
    }
    match handle(alloc, agent, handlers, &next.message) {
        Ok(()) => {}
        Err(end) => return Err(end),
    }
    let pause = pause_after(next, agent.saved().settings.interval);
    let connection = next.connection.take();
    begin_trial(agent, connection);
    Ok(pause)
}

// Deals with what a reply asked: a trial ends, and then come configuration, packages, message and settings, in this order. It borrows what was asked, so that
// no end of it drops that part by part.
fn deal_with_next<D: Disk, G: Dialer, F: Folder, C: Clock>(
    alloc: Global,
    agent: &mut Agent,
    held: &mut Held<G::Link>,
    handlers: &Handlers,
    disk: &mut D,
    dialer: &mut G,
    folder: &mut F,
    clock: &mut C,
    next: &mut Next,
) -> Result<Pause, AgentEnd>
    requires fits { FitsDisk (D.state disk.old) agent.old.store (kept_part agent.old.half) }
    requires idle { agent.old.half.awaits ≡ false }
    requires proved { agent.old.half.proved ≡ next.old.proved }
    requires endpoint { CanBeTried next.old.connection }
    ensures does { (s : Stage) → RunsPart (DealsWithNext (MayAnswer answers handlers.now) next.old) (D.state disk.old) (D.state disk.new)
        (with_agent agent.old (with_held (held_view G.number held.old) (with_folder (F.state folder.old) (with_dialer (G.state dialer.old) (with_clock (C.state clock.old) s)))))
        (with_agent agent.new (with_held (held_view G.number held.new) (with_folder (F.state folder.new) (with_dialer (G.state dialer.new) (with_clock (C.state clock.new) s))))) result }
    ensures fits { OnOk result (FitsDisk (D.state disk.new) agent.new.store (kept_part agent.new.half)) }
    ensures idle { OnOk result (agent.new.half.awaits ≡ false) }
    ensures folder_count { OnOk result ((F.state folder.old).faults ≤ (F.state folder.new).faults) }
    ensures clock_count { (C.state clock.old).faults ≤ (C.state clock.new).faults }
    ensures end { IfErr result IsCallEnd }
{
    match end_trial(agent, disk, next.proved) {
        Ok(()) => {}
        Err(end) => return Err(end),
    }
    let config = next.config.take();
    match configure(alloc, agent, held, disk, folder, clock, config) {
        Ok(()) => {}
        Err(end) => return Err(end),
    }
    deal_with_rest(alloc, agent, handlers, disk, dialer, folder, next)
}

// Takes the reply, and deals with what it asks.
fn deal_with_reply<D: Disk, G: Dialer, F: Folder, C: Clock>(
    alloc: Global,
    agent: &mut Agent,
    held: &mut Held<G::Link>,
    handlers: &Handlers,
    disk: &mut D,
    dialer: &mut G,
    folder: &mut F,
    clock: &mut C,
    reply: &ServerToAgent,
) -> Result<Pause, AgentEnd>
    requires fits { FitsDisk (D.state disk.old) agent.old.store (kept_part agent.old.half) }
    requires awaiting { agent.old.half.awaits ≡ true }
    requires to_it { reply.now.instance_uid ≡ agent.old.half.saved.uid }
    ensures does { (s : Stage) → RunsPart (DealsWith (MayAnswer answers handlers.now) (Some reply.now)) (D.state disk.old) (D.state disk.new)
        (with_agent agent.old (with_held (held_view G.number held.old) (with_folder (F.state folder.old) (with_dialer (G.state dialer.old) (with_clock (C.state clock.old) s)))))
        (with_agent agent.new (with_held (held_view G.number held.new) (with_folder (F.state folder.new) (with_dialer (G.state dialer.new) (with_clock (C.state clock.new) s))))) result }
    ensures fits { OnOk result (FitsDisk (D.state disk.new) agent.new.store (kept_part agent.new.half)) }
    ensures idle { OnOk result (agent.new.half.awaits ≡ false) }
    ensures folder_count { OnOk result ((F.state folder.old).faults ≤ (F.state folder.new).faults) }
    ensures clock_count { (C.state clock.old).faults ≤ (C.state clock.new).faults }
    ensures end { IfErr result IsCallEnd }
{
    let mut next = match take_reply(agent, disk, reply) {
        Ok(next) => next,
        Err(end) => return Err(end),
    };
    let ended = deal_with_next(
        alloc, agent, held, handlers, disk, dialer, folder, clock, &mut next,
    );
    drop(next);
    ended
}

/// Deals with the answer to the awaited report: a reply is taken, and what it asks is dealt with; where there is none the report is given up.
pub(crate) fn deal<D: Disk, G: Dialer, F: Folder, C: Clock>(
    alloc: Global,
    agent: &mut Agent,
    held: &mut Held<G::Link>,
    handlers: &Handlers,
    disk: &mut D,
    dialer: &mut G,
    folder: &mut F,
    clock: &mut C,
    reply: Option<ServerToAgent>,
) -> Result<Pause, AgentEnd>
    requires fits { FitsDisk (D.state disk.old) agent.old.store (kept_part agent.old.half) }
    requires awaiting { agent.old.half.awaits ≡ true }
    requires to_it { IfSome reply (λ reply. reply.instance_uid ≡ agent.old.half.saved.uid) }
    ensures does { (s : Stage) → RunsPart (DealsWith (MayAnswer answers handlers.now) reply) (D.state disk.old) (D.state disk.new)
        (with_agent agent.old (with_held (held_view G.number held.old) (with_folder (F.state folder.old) (with_dialer (G.state dialer.old) (with_clock (C.state clock.old) s)))))
        (with_agent agent.new (with_held (held_view G.number held.new) (with_folder (F.state folder.new) (with_dialer (G.state dialer.new) (with_clock (C.state clock.new) s))))) result }
    ensures fits { OnOk result (FitsDisk (D.state disk.new) agent.new.store (kept_part agent.new.half)) }
    ensures idle { OnOk result (agent.new.half.awaits ≡ false) }
    ensures folder_count { OnOk result ((F.state folder.old).faults ≤ (F.state folder.new).faults) }
    ensures clock_count { (C.state clock.old).faults ≤ (C.state clock.new).faults }
    ensures end { IfErr result IsCallEnd }
{
    match reply {
        Some(reply) => {
            let dealt = deal_with_reply(
                alloc, agent, held, handlers, disk, dialer, folder, clock, &reply,
            );
            drop(reply);
            dealt
        }
        None => Ok(give_up_round(agent, held)),
    }
}
