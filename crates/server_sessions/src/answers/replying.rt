//! The reply to a report.

ghost use Rattle.std.specs.Prelude.{◌≡◌, ◌≤◌, ℕ, List, Option, IfOk, IfSome, OnErr, IsTrue, None, true, false, length};
ghost use Rattle.server_core.specs.Lengths.{fits_reply};
ghost use Rattle.message_replies.specs.Canonical.{canonical_reply};
ghost use Rattle.server_sessions.specs.Plain.{IsRepliedPlainly};
ghost use Rattle.server_sessions.specs.Reports.{Draws, HalfTakes, IsAnswer, Replies, asks_uid, can_carry, carrying, intake_of, host_of, reply_at, table_with, uid_in, version_4};
ghost use Rattle.message_handlers.specs.Asking.{MayAnswer};

use edge_devices::Entropy;
use message_handlers::{Handler, Handlers};
use message_replies::reply_len;
use message_values::{AgentToServer, CustomMessage, ServerToAgent};
use plain_values::{NoMemory, Uid};
use server_core::{MESSAGE_LIMIT, REPORT_FULL_STATE, REQUEST_INSTANCE_UID, Server};
use std::alloc::Global;
use uuid::Builder;

// The identifier of version 4 that the bytes make.
fn fresh_uid(bytes: [u8; 16]) -> Uid
    ensures { result ≡ version_4 bytes }
{
    Uid::of(Builder::from_random_bytes(bytes).into_uuid().into_bytes())
}

/// The report's identifier, where it has sixteen bytes.
pub fn uid_of(report: &AgentToServer) -> Option<Uid>
    ensures uid { result ≡ uid_in report.now.instance_uid }
{
    match <[u8; 16]>::try_from(report.instance_uid.as_slice()) {
        Ok(bytes) => Some(Uid::of(bytes)),
        Err(_) => None,
    }
}

// Whether the report asks for an identifier.
#[tactic(auto, unfolding(crate::specs::Reports::asks_uid))]
fn asks_uid(report: &AgentToServer) -> bool
    ensures { result ≡ asks_uid report.now }
{
    report.flags & REQUEST_INSTANCE_UID != 0
}

// An identifier for a report that asks for one; none also where the draw answered its fault.
fn draw_for<E: Entropy>(entropy: &mut E, report: &AgentToServer) -> Option<Uid>
    ensures draws { Draws report.now (E.state entropy.old) (E.state entropy.new) result }
{
    if !asks_uid(report) {
        return None;
    }
    let mut bytes = [0u8; 16];
    match entropy.fill(&mut bytes) {
        Ok(()) => Some(fresh_uid(bytes)),
        Err(_) => None,
    }
}

// What a handler answers to the report's custom message.
fn ask(
    alloc: Global,
    handlers: &Handlers,
    report: &AgentToServer,
) -> Result<Option<CustomMessage>, NoMemory>
    ensures asked { IfOk result (IsAnswer (MayAnswer answers handlers.now) report.now.custom_message) }
{
    match &report.custom_message {
        None => Ok(None),
        Some(message) => handlers.handle(alloc, message),
    }
}

// Whether the reply can carry a custom message.
#[tactic(auto, unfolding(crate::specs::Reports::can_carry))]
fn can_carry(reply: &ServerToAgent) -> bool
    ensures { result ≡ can_carry reply.now }
{
    reply.command.is_none()
        && reply.error_response.is_none()
        && reply.flags & REPORT_FULL_STATE == 0
}

// Whether the reply isn't too large.
#[tactic(auto, unfolding(server_core::specs::Lengths::fits_reply))]
fn fits(reply: &ServerToAgent) -> bool
    ensures fits { result ≡ fits_reply reply.now }
    ensures short { IsTrue result → length (canonical_reply reply.now) ≤ 4194304 }
{
    reply_len(reply) <= MESSAGE_LIMIT
}

// The reply with the answer, where it can carry one and isn't too large with it.
fn carrying(mut reply: ServerToAgent, answer: Option<CustomMessage>) -> ServerToAgent
    requires fits { length (canonical_reply reply) ≤ 4194304 }
    ensures carries { result ≡ carrying reply answer }
    ensures fits { length (canonical_reply result) ≤ 4194304 }
{
    if answer.is_none() || !can_carry(&reply) {
        return reply;
    }
    let before = reply.custom_message.take();
    reply.custom_message = answer;
    if !fits(&reply) {
        reply.custom_message = before;
    }
    reply
}

// Whether the report asks neither for an identifier nor for a handler's answer.
fn asks_nothing(report: &AgentToServer) -> bool
    ensures unasked { result ≡ true → asks_uid report.now ≡ false }
    ensures silent { result ≡ true → report.now.custom_message ≡ None }
{
    report.custom_message.is_none() && !asks_uid(report)
}

/// Takes the parts out of a report that asks for nothing, where its reply is the plain one, and gives its agent's identifier, as
/// `Server::take_plainly` does. Where it gives none it has taken nothing.
pub fn take_plainly(server: &mut Server, report: &mut AgentToServer) -> Option<Uid>
    ensures plain { IfSome result (IsRepliedPlainly server.old.profile report.old server.old.table server.new.table) }
    ensures profile { server.new.profile ≡ server.old.profile }
    ensures none { result ≡ None → server.new ≡ server.old }
    ensures left { result ≡ None → report.new ≡ report.old }
{
    if !asks_nothing(report) {
        return None;
    }
    server.take_plainly(report)
}

// Hands a report's parts to the server.
#[tactic(auto, unfolding(crate::specs::Reports::reply_at, crate::specs::Reports::table_with))]
fn take(
    server: &mut Server,
    report: &mut AgentToServer,
    fresh: Option<Uid>,
) -> Result<ServerToAgent, NoMemory>
    ensures reply { IfOk result (λ reply. reply ≡ reply_at server.old.profile server.old.table report.old fresh) }
    ensures fits { IfOk result (λ reply. length (canonical_reply reply) ≤ 4194304) }
    ensures table { IfOk result (λ _. server.new.table ≡ table_with server.old.table report.old) }
    ensures profile { server.new.profile ≡ server.old.profile }
    ensures err { OnErr result (server.new.table ≡ server.old.table) }
{
    server.take(report, fresh)
}

/// Takes a report's parts out of it, and gives the reply to it.
pub fn reply_to<E: Entropy>(
    alloc: Global,
    server: &mut Server,
    handlers: &Handlers,
    entropy: &mut E,
    report: &mut AgentToServer,
) -> Result<ServerToAgent, NoMemory>
    ensures replies { IfOk result (Replies (host_of answers server.old.profile handlers.now) report.old
        (intake_of (E.state entropy.old) server.old.table) (intake_of (E.state entropy.new) server.new.table)) }
    ensures takes { OnErr result (HalfTakes report.old
        (intake_of (E.state entropy.old) server.old.table) (intake_of (E.state entropy.new) server.new.table)) }
    ensures fits { IfOk result (λ reply. length (canonical_reply reply) ≤ 4194304) }
    ensures profile { server.new.profile ≡ server.old.profile }
{
    let fresh = draw_for(entropy, report);
    let answer = ask(alloc, handlers, report)?;
    let reply = take(server, report, fresh)?;
    Ok(carrying(reply, answer))
}
