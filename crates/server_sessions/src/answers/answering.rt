//! The answer to a report.

ghost use Rattle.std.specs.Prelude.{◌≡◌, ◌≤◌, ◌∷◌, ◌++◌, [], IfOk, OnErr, OnOk, length, true};
ghost use Rattle.message_replies.specs.Canonical.{canonical_reply};
ghost use Rattle.server_core.specs.Replies.{bare_reply};
ghost use Rattle.server_sessions.specs.Reports.{AnswersReport, HalfTakes, intake_of, enclosed, host_of, is_message, note_handled};

use crate::answers::plain::plain_answer;
use crate::answers::replying::{reply_to, take_plainly, uid_of};
use crate::answers::reports::{note_handled, write_reply};
use crate::answers::stepped::Handled;
use edge_devices::Entropy;
use edge_http::response_bytes;
use message_handlers::{Handler, Handlers};
use message_replies::ws_wrap;
use message_values::{AgentToServer, ServerToAgent};
use plain_values::{Blob, List, NoMemory, Uid};
use server_core::Server;
use std::alloc::Global;

/// In what a reply goes out.
#[derive(Clone, Copy)]
pub enum Envelope {
    /// A message of WebSocket, behind its header.
    Message,
    /// A response 200.
    Response {
        /// Whether the connection is closed behind it.
        closes: bool,
    },
}

fn is_message(envelope: Envelope) -> bool
    ensures message { result ≡ is_message envelope }
{
    matches!(envelope, Envelope::Message)
}

fn enclose(alloc: Global, envelope: Envelope, reply: &[u8]) -> Result<Blob, NoMemory>
    ensures enclosed { IfOk result (λ bytes. bytes ≡ enclosed envelope reply.now) }
{
    match envelope {
        Envelope::Message => ws_wrap(alloc, reply),
        Envelope::Response { closes } => response_bytes(alloc, 200, reply, closes),
    }
}

// Notes the report of this agent, and gives the bytes with its reply. The note comes last, so that none is left where memory is wanting.
fn finish(
    alloc: Global,
    handled: &mut List<Handled>,
    conn: u64,
    envelope: Envelope,
    uid: Option<Uid>,
    reply: &ServerToAgent,
) -> Result<Blob, NoMemory>
    requires fits { length (canonical_reply reply.now) ≤ 4194304 }
    ensures answer { IfOk result (λ answer. answer ≡ enclosed envelope (canonical_reply reply.now)) }
    ensures handled { OnOk result (handled.new ≡ note_handled conn (is_message envelope) uid reply.now handled.old) }
    ensures err { OnErr result (handled.new ≡ handled.old) }
{
    let bytes = write_reply(alloc, reply)?;
    let answer = enclose(alloc, envelope, bytes.as_slice())?;
    note_handled(handled, conn, is_message(envelope), uid, reply)?;
    Ok(answer)
}

// The same where the reply tells these capabilities alone.
fn finish_plainly(
    alloc: Global,
    handled: &mut List<Handled>,
    conn: u64,
    envelope: Envelope,
    uid: Uid,
    capabilities: u64,
) -> Result<Blob, NoMemory>
    ensures answer { IfOk result (λ answer. answer ≡ enclosed envelope (canonical_reply (bare_reply uid capabilities))) }
    ensures handled { OnOk result (handled.new ≡ handled.old ++ record { conn = conn; ws = is_message envelope; uid = uid; taken = true } ∷ []) }
    ensures err { OnErr result (handled.new ≡ handled.old) }
{
    let answer = plain_answer(alloc, envelope, &uid, capabilities)?;
    handled.push(Handled {
        conn,
        ws: is_message(envelope),
        uid,
        taken: true,
    })?;
    Ok(answer)
}

// The answer whose reply is put together. Apart, since few reports take it and it has some hundreds of bytes of locals.
#[inline(never)]
fn answer_wholly<E: Entropy>(
    alloc: Global,
    server: &mut Server,
    handlers: &Handlers,
    entropy: &mut E,
    handled: &mut List<Handled>,
    conn: u64,
    envelope: Envelope,
    report: &mut AgentToServer,
) -> Result<Blob, NoMemory>
    ensures answers { IfOk result (AnswersReport envelope (host_of answers server.old.profile handlers.now) conn report.old
        (intake_of (E.state entropy.old) server.old.table) (intake_of (E.state entropy.new) server.new.table) handled.old handled.new) }
    ensures half { OnErr result (HalfTakes report.old (intake_of (E.state entropy.old) server.old.table) (intake_of (E.state entropy.new) server.new.table)) }
    ensures handled { OnErr result (handled.new ≡ handled.old) }
    ensures profile { server.new.profile ≡ server.old.profile }
{
    let uid = uid_of(report);
    let reply = reply_to(alloc, server, handlers, entropy, report)?;
    finish(alloc, handled, conn, envelope, uid, &reply)
}

/// The bytes with the reply to a report, whose parts are taken out of it. A report that was answered without error is noted; where memory
/// is wanting none is, and the server took the report or not.
pub(crate) fn answer_report<E: Entropy>(
    alloc: Global,
    server: &mut Server,
    handlers: &Handlers,
    entropy: &mut E,
    handled: &mut List<Handled>,
    conn: u64,
    envelope: Envelope,
    report: &mut AgentToServer,
) -> Result<Blob, NoMemory>
    ensures answers { IfOk result (AnswersReport envelope (host_of answers server.old.profile handlers.now) conn report.old
        (intake_of (E.state entropy.old) server.old.table) (intake_of (E.state entropy.new) server.new.table) handled.old handled.new) }
    ensures half { OnErr result (HalfTakes report.old (intake_of (E.state entropy.old) server.old.table) (intake_of (E.state entropy.new) server.new.table)) }
    ensures handled { OnErr result (handled.new ≡ handled.old) }
    ensures profile { server.new.profile ≡ server.old.profile }
{
    match take_plainly(server, report) {
        Some(uid) => {
            let capabilities = server.capabilities();
            finish_plainly(alloc, handled, conn, envelope, uid, capabilities)
        }
        None => answer_wholly(
            alloc, server, handlers, entropy, handled, conn, envelope, report,
        ),
    }
}
