//! What a server sends unasked: before a report is asked it is dropped, and while a round waits it ends the wait.

ghost use Rattle.std.specs.Prelude.{◌≡◌, ◌≢◌, ◌≤◌, ◌-◌, ◌*◌, Ok, IfErr, IfOk, IfSome, IsErrOf, IsSome, IsTrue};
ghost use Rattle.edge_devices.specs.Faults.{HasRisen};
ghost use Rattle.agent_rounds.specs.Listening.{AsksQuietServer, Drains, Listens, ListensWith, WaitsInParts, arrival_of_message, longest_part, most_looks, parts_before};
ghost use Rattle.agent_rounds.specs.Moments.{held_view, number_held, with_agent, with_clock, with_dialer, with_held};
ghost use Rattle.agent_rounds.specs.Stages.{Stage};

use crate::ends::{AgentEnd, Pause};
use crate::held::{Dialled, Held};
use crate::linking::{ask_link, has_link};
use agent_state::Agent;
use edge_devices::{Clock, PushDialer};
use message_values::ServerToAgent;
use plain_values::Blob;
use std::alloc::Global;

/// What a look for a message that came unasked gave.
#[derive(Clone, Copy, Debug, PartialEq, Eq)]
pub enum Arrival {
    /// Nothing had come.
    Quiet,
    /// A message had come, and was dropped.
    Came,
    /// The link is dead, and was dropped.
    Gone,
}

/// How many messages are dropped at most before a report is asked, and one look more.
pub const MOST_LOOKS: u32 = 65;

/// The most that one part of a wait takes, in nanoseconds.
pub const LONGEST_PART: u64 = 1_000_000_000;

// Whether the message is there.
fn what_came(message: Option<Blob>) -> Arrival
    ensures { result ≡ arrival_of_message message }
{
    match message {
        Some(_) => Arrival::Came,
        None => Arrival::Quiet,
    }
}

// Takes a message that came unasked on the link held, if there is one, and drops it. A dead link is dropped.
fn look<G: PushDialer>(alloc: Global, held: &mut Held<G::Link>, dialer: &mut G) -> Arrival
    ensures listens { (s : Stage) → Listens (with_held (held_view G.number held.old) (with_dialer (G.state dialer.old) s))
        (with_held (held_view G.number held.new) (with_dialer (G.state dialer.new) s)) (Ok result) }
    ensures number { result ≢ Arrival.Gone → number_held (held_view G.number held.new) ≡ number_held (held_view G.number held.old) }
    ensures linked { result ≢ Arrival.Gone → IsSome held.old.link → IsSome held.new.link }
{
    let Some(dialled) = held.link.take() else {
        return Arrival::Quiet;
    };
    let Dialled {
        link,
        uid,
        endpoint,
        headers,
    } = dialled;
    match link.arrived(alloc, dialer) {
        Ok((link, message)) => {
            held.link = Some(Dialled {
                link,
                uid,
                endpoint,
                headers,
            });
            what_came(message)
        }
        Err(_) => Arrival::Gone,
    }
}

// Drops what came unasked on the link held, 64 messages at most, and says whether nothing was left and the link isn't dead.
fn drain<G: PushDialer>(alloc: Global, held: &mut Held<G::Link>, dialer: &mut G) -> bool
    ensures drains { (s : Stage) → Drains most_looks (with_held (held_view G.number held.old) (with_dialer (G.state dialer.old) s))
        (with_held (held_view G.number held.new) (with_dialer (G.state dialer.new) s)) (Ok result) }
    ensures number { IsTrue result → number_held (held_view G.number held.new) ≡ number_held (held_view G.number held.old) }
    ensures linked { IsTrue result → IsSome held.old.link → IsSome held.new.link }
{
    for _ in 0..MOST_LOOKS {
        match look(alloc, held, dialer) {
            Arrival::Quiet => return true,
            Arrival::Came => {}
            Arrival::Gone => return false,
        }
    }
    false
}

/// Asks the report's bytes, through a link on which nothing is left that came unasked, and which is dialled where none to the target is held.
pub(crate) fn ask_quiet_server<G: PushDialer>(
    alloc: Global,
    agent: &Agent,
    held: &mut Held<G::Link>,
    dialer: &mut G,
    bytes: &[u8],
) -> Result<Option<ServerToAgent>, AgentEnd>
    ensures asks { (s : Stage) → AsksQuietServer bytes.now
        (with_agent agent.now (with_held (held_view G.number held.old) (with_dialer (G.state dialer.old) s)))
        (with_agent agent.now (with_held (held_view G.number held.new) (with_dialer (G.state dialer.new) s))) result }
    ensures to_it { IfOk result (λ reply. IfSome reply (λ reply. reply.instance_uid ≡ agent.now.half.saved.uid)) }
    ensures end { IfErr result (λ end. end ≡ AgentEnd.NoMemory) }
{
    let linked = match has_link(alloc, agent, held, dialer) {
        Ok(linked) => linked,
        Err(end) => return Err(end),
    };
    if !linked {
        return Ok(None);
    }
    if drain(alloc, held, dialer) {
        ask_link(alloc, agent, held, dialer, bytes)
    } else {
        Ok(None)
    }
}

// Waits part by part; a message that came ends the wait.
fn wait_in_parts<G: PushDialer, C: Clock>(
    alloc: Global,
    held: &mut Held<G::Link>,
    dialer: &mut G,
    clock: &mut C,
    nanos: u64,
    restart: bool,
) -> Result<bool, AgentEnd>
    ensures does { (s : Stage) → WaitsInParts (parts_before nanos) (nanos - parts_before nanos * longest_part) restart
        (with_held (held_view G.number held.old) (with_dialer (G.state dialer.old) (with_clock (C.state clock.old) s)))
        (with_held (held_view G.number held.new) (with_dialer (G.state dialer.new) (with_clock (C.state clock.new) s))) result }
    ensures counts { (C.state clock.old).faults ≤ (C.state clock.new).faults }
    ensures end { IfErr result (λ end. end ≡ AgentEnd.ClockFault) }
    ensures fault { IsErrOf result AgentEnd.ClockFault → HasRisen (C.state clock.old).faults (C.state clock.new).faults }
{
    let before = nanos.saturating_sub(1) / LONGEST_PART;
    for _ in 0..before {
        match clock.wait(LONGEST_PART) {
            Ok(()) => {}
            Err(_) => return Err(AgentEnd::ClockFault),
        }
        match look(alloc, held, dialer) {
            Arrival::Came => return Ok(restart),
            Arrival::Quiet => {}
            Arrival::Gone => {}
        }
    }
    match clock.wait(nanos - before * LONGEST_PART) {
        Ok(()) => {}
        Err(_) => return Err(AgentEnd::ClockFault),
    }
    let _arrival = look(alloc, held, dialer);
    Ok(restart)
}

/// Ends the round with its wait, if it has one, which a message that came unasked ends; and says whether a restart was commanded.
pub(crate) fn end_listening<G: PushDialer, C: Clock>(
    alloc: Global,
    held: &mut Held<G::Link>,
    dialer: &mut G,
    clock: &mut C,
    pause: Pause,
) -> Result<bool, AgentEnd>
    ensures does { (s : Stage) → ListensWith pause
        (with_held (held_view G.number held.old) (with_dialer (G.state dialer.old) (with_clock (C.state clock.old) s)))
        (with_held (held_view G.number held.new) (with_dialer (G.state dialer.new) (with_clock (C.state clock.new) s))) result }
    ensures counts { (C.state clock.old).faults ≤ (C.state clock.new).faults }
    ensures end { IfErr result (λ end. end ≡ AgentEnd.ClockFault) }
    ensures fault { IsErrOf result AgentEnd.ClockFault → HasRisen (C.state clock.old).faults (C.state clock.new).faults }
{
    match pause.nanos {
        None => Ok(pause.restart),
        Some(nanos) => wait_in_parts(alloc, held, dialer, clock, nanos, pause.restart),
    }
}
