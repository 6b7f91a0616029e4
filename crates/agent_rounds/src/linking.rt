//! The link to the server, and what is asked through it.

ghost use Rattle.std.specs.Prelude.{◌≡◌, ℕ, false, None, IfErr, IfOk, IfSome, IsSome, IsTrue, OnErr};
ghost use Rattle.edge_devices.specs.Endpoints.{is_endpoint};
ghost use Rattle.agent_rounds.specs.Moments.{DialsTo, held_view, link_given, link_view, number_held, with_agent, with_dialer, with_held};
ghost use Rattle.agent_rounds.specs.Parts.{AsksReport, HasLink, idle_to};
ghost use Rattle.agent_rounds.specs.Rounds.{AsksServer};
ghost use Rattle.agent_rounds.specs.Stages.{Stage};
ghost use Rattle.agent_rounds.specs.Status.{has_settings, is_to};

use crate::ends::AgentEnd;
use crate::held::{Dialled, Held};
use crate::identifying::dialled_headers;
use crate::questions::{question, reply_to};
use agent_state::Agent;
use edge_devices::{Dialer, Idle, read_endpoint};
use message_values::{ServerToAgent, Settings};
use plain_values::{NoMemory, Plain, Uid};
use std::alloc::Global;

// The link was dialled with the target's endpoint and headers. Takes no memory.
fn has_settings<L: Drop>(target: &Settings, dialled: &Dialled<L>) -> bool
    ensures { (number : L → ℕ) → result ≡ has_settings target.now (link_view number dialled.now) }
{
    dialled.endpoint.as_str() == target.endpoint.as_str() && dialled.headers.same(&target.headers)
}

// The link was dialled as an agent of this identifier dials the target. Takes no memory.
fn is_to<L: Drop>(uid: &Uid, target: &Settings, dialled: &Dialled<L>) -> bool
    ensures { (number : L → ℕ) → result ≡ is_to uid.now target.now (link_view number dialled.now) }
{
    dialled.uid.as_slice() == uid.as_slice() && has_settings(target, dialled)
}

// Whether the link held, if there is one, was dialled as an agent of this identifier dials the target. Takes no memory.
fn holds_link<L: Drop>(uid: &Uid, target: &Settings, held: &Held<L>) -> bool
    ensures found { (number : L → ℕ) → IsTrue result → idle_to uid.now target.now (held_view number held.now) ≡ number_held (held_view number held.now) }
    ensures some { (number : L → ℕ) → IsTrue result → IsSome (number_held (held_view number held.now)) }
    ensures linked { IsTrue result → IsSome held.now.link }
    ensures none { (number : L → ℕ) → result ≡ false → idle_to uid.now target.now (held_view number held.now) ≡ None }
{
    match &held.link {
        Some(dialled) => is_to(uid, target, dialled),
        None => false,
    }
}

// Dials the target as an agent of this identifier; none where the dial was refused. Its own memory is taken before the dial.
fn dial_target<G: Dialer>(
    alloc: Global,
    uid: &Uid,
    target: &Settings,
    dialer: &mut G,
) -> Result<Option<Dialled<G::Link>>, NoMemory>
    requires endpoint { IsTrue (is_endpoint target.now.endpoint) }
    ensures dials { IfOk result (DialsTo G.number uid.now target.now (G.state dialer.old) (G.state dialer.new)) }
    ensures untouched { OnErr result (dialer.new ≡ dialer.old) }
{
    let Some(to) = read_endpoint(alloc, target.endpoint.as_str())? else {
        unreachable!()
    };
    let endpoint = target.endpoint.copy(alloc)?;
    let headers = target.headers.copy(alloc)?;
    let told = dialled_headers(alloc, uid, &target.headers)?;
    match dialer.dial(alloc, &to, &told) {
        Ok(link) => Ok(Some(Dialled {
            link: Idle::new(link),
            uid: uid.copy(),
            endpoint,
            headers,
        })),
        Err(_) => Ok(None),
    }
}

/// Dials the target where no link is held that was dialled with its settings and the agent's identifier, and tells whether there is one.
pub(crate) fn has_link<G: Dialer>(
    alloc: Global,
    agent: &Agent,
    held: &mut Held<G::Link>,
    dialer: &mut G,
) -> Result<bool, AgentEnd>
    ensures links { (s : Stage) → HasLink (with_agent agent.now (with_held (held_view G.number held.old) (with_dialer (G.state dialer.old) s)))
        (with_agent agent.now (with_held (held_view G.number held.new) (with_dialer (G.state dialer.new) s))) (link_given (held_view G.number held.new) result) }
    ensures linked { IfOk result (λ linked. IsTrue linked → IsSome held.new.link) }
    ensures end { IfErr result (λ end. end ≡ AgentEnd.NoMemory) }
{
    let target = agent.target();
    let uid = &agent.saved().uid;
    if holds_link(uid, target, held) {
        return Ok(true);
    }
    match dial_target(alloc, uid, target, dialer) {
        Ok(Some(dialled)) => {
            held.link = Some(dialled);
            Ok(true)
        }
        Ok(None) => Ok(false),
        Err(NoMemory) => Err(AgentEnd::NoMemory),
    }
}

/// Asks the report's bytes through the link held, and gives the reply to it; none where the link is dead or its answer isn't one. A dead link is dropped.
pub(crate) fn ask_link<G: Dialer>(
    alloc: Global,
    agent: &Agent,
    held: &mut Held<G::Link>,
    dialer: &mut G,
    bytes: &[u8],
) -> Result<Option<ServerToAgent>, AgentEnd>
    requires linked { IsSome held.old.link }
    ensures asks { (s : Stage) → AsksReport bytes.now (number_held (held_view G.number held.old))
        (with_agent agent.now (with_held (held_view G.number held.old) (with_dialer (G.state dialer.old) s)))
        (with_agent agent.now (with_held (held_view G.number held.new) (with_dialer (G.state dialer.new) s))) result }
    ensures to_it { IfOk result (λ reply. IfSome reply (λ reply. reply.instance_uid ≡ agent.now.half.saved.uid)) }
    ensures end { IfErr result (λ end. end ≡ AgentEnd.NoMemory) }
{
    let target = agent.target();
    let asked = match question(alloc, target, bytes) {
        Ok(asked) => asked,
        Err(NoMemory) => return Err(AgentEnd::NoMemory),
    };
    let Some(dialled) = held.link.take() else {
        unreachable!()
    };
    let Dialled {
        link,
        uid,
        endpoint,
        headers,
    } = dialled;
    let (link, answer) = match link.ask(alloc, dialer, asked.as_slice()) {
        Ok(answered) => answered,
        Err(_) => return Ok(None),
    };
    held.link = Some(Dialled {
        link,
        uid,
        endpoint,
        headers,
    });
    match reply_to(
        alloc,
        target,
        agent.saved().uid.as_slice(),
        answer.as_slice(),
    ) {
        Ok(reply) => Ok(reply),
        Err(NoMemory) => Err(AgentEnd::NoMemory),
    }
}

/// Asks the report's bytes, through a link that is dialled where none to the target is held.
pub(crate) fn ask_server<G: Dialer>(
    alloc: Global,
    agent: &Agent,
    held: &mut Held<G::Link>,
    dialer: &mut G,
    bytes: &[u8],
) -> Result<Option<ServerToAgent>, AgentEnd>
    ensures asks { (s : Stage) → AsksServer bytes.now
        (with_agent agent.now (with_held (held_view G.number held.old) (with_dialer (G.state dialer.old) s)))
        (with_agent agent.now (with_held (held_view G.number held.new) (with_dialer (G.state dialer.new) s))) result }
    ensures to_it { IfOk result (λ reply. IfSome reply (λ reply. reply.instance_uid ≡ agent.now.half.saved.uid)) }
    ensures end { IfErr result (λ end. end ≡ AgentEnd.NoMemory) }
{
    let linked = match has_link(alloc, agent, held, dialer) {
        Ok(linked) => linked,
        Err(end) => return Err(end),
    };
    if linked {
        ask_link(alloc, agent, held, dialer, bytes)
    } else {
        Ok(None)
    }
}
