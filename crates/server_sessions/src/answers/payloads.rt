//! Messages of WebSocket.

ghost use Rattle.std.specs.Prelude.{◌≡◌, IfOk, OnErr};
ghost use Rattle.message_replies.specs.Header.{payload_of};
ghost use Rattle.server_sessions.specs.Answers.{AnswersPayload};
ghost use Rattle.server_sessions.specs.Reports.{HalfReads, intake_of, host_of};

use crate::answers::answering::{Envelope, answer_report};
use crate::answers::limits::BAD_MESSAGE;
use crate::answers::reports::read_report;
use crate::answers::stepped::Handled;
use edge_devices::Entropy;
use message_handlers::{Handler, Handlers};
use message_replies::ws_payload;
use plain_values::{Blob, List, NoMemory};
use server_core::Server;
use std::alloc::Global;

/// The payload that answers a payload which came on the connection (OpAMP specification, "WebSocket Message Format").
///
/// A report that was answered without error is noted. Where memory is wanting none is, and the server took the report or not.
pub fn answer_payload<E: Entropy>(
    alloc: Global,
    server: &mut Server,
    handlers: &Handlers,
    entropy: &mut E,
    handled: &mut List<Handled>,
    conn: u64,
    payload: &[u8],
) -> Result<Blob, NoMemory>
    ensures answers { IfOk result (AnswersPayload (host_of answers server.old.profile handlers.now) conn payload.now
        (intake_of (E.state entropy.old) server.old.table) (intake_of (E.state entropy.new) server.new.table) handled.old handled.new) }
    ensures half { OnErr result (HalfReads (payload_of payload.now) (intake_of (E.state entropy.old) server.old.table) (intake_of (E.state entropy.new) server.new.table)) }
    ensures handled { OnErr result (handled.new ≡ handled.old) }
    ensures profile { server.new.profile ≡ server.old.profile }
{
    match read_report(alloc, ws_payload(payload)) {
        Ok(Some(mut report)) => {
            let envelope = Envelope::Message;
            let answer = answer_report(
                alloc,
                server,
                handlers,
                entropy,
                handled,
                conn,
                envelope,
                &mut report,
            );
            drop(report);
            answer
        }
        Ok(None) => Blob::from_slice(alloc, &BAD_MESSAGE),
        Err(NoMemory) => Err(NoMemory),
    }
}
