//! Reports as they are read, and replies as they are written.

ghost use Rattle.std.specs.Prelude.{◌≡◌, ◌≤◌, IfOk, IsTrue, MatchOption, OnErr, OnOk, length};
ghost use Rattle.message_replies.specs.Canonical.{canonical_reply};
ghost use Rattle.server_sessions.specs.Reports.{IsNoReport, IsReport, note_handled};

use crate::answers::stepped::Handled;
use message_codec::reader::items::ReadFail;
use message_replies::{WriteFail, encode_reply};
use message_short::decode_report;
use message_values::{AgentToServer, ServerToAgent};
use plain_values::{Blob, List, NoMemory, Uid};
use server_core::REPORT_FULL_STATE;
use std::alloc::Global;

/// The report that the bytes mean, a short one told at a glance, or none where they mean none.
#[tactic(auto, unfolding(crate::specs::Reports::IsReport, crate::specs::Reports::IsNoReport))]
pub fn read_report(alloc: Global, bytes: &[u8]) -> Result<Option<AgentToServer>, NoMemory>
    ensures read { IfOk result (λ read. MatchOption read (IsNoReport bytes.now) (IsReport bytes.now)) }
{
    match decode_report(alloc, bytes) {
        Ok(report) => Ok(Some(report)),
        Err(ReadFail::Refused(_)) => Ok(None),
        Err(ReadFail::NoMemory) => Err(NoMemory),
    }
}

/// The canonical bytes of a reply that isn't too large.
pub fn write_reply(alloc: Global, reply: &ServerToAgent) -> Result<Blob, NoMemory>
    requires fits { length (canonical_reply reply.now) ≤ 4194304 }
    ensures bytes { IfOk result (λ bytes. bytes ≡ canonical_reply reply.now) }
{
    match encode_reply(alloc, reply) {
        Ok(bytes) => Ok(bytes),
        Err(WriteFail::NoMemory) => Err(NoMemory),
        Err(WriteFail::TooLarge) => unreachable!(),
        Err(WriteFail::TooDeep) => unreachable!(),
    }
}

/// Notes a report of the agent, where it was answered without error.
pub fn note_handled(
    handled: &mut List<Handled>,
    conn: u64,
    ws: bool,
    uid: Option<Uid>,
    reply: &ServerToAgent,
) -> Result<(), NoMemory>
    ensures ok { OnOk result (handled.new ≡ note_handled conn ws uid reply.now handled.old) }
    ensures err { OnErr result (handled.new ≡ handled.old) }
{
    if reply.error_response.is_some() {
        return Ok(());
    }
    let taken = reply.flags & REPORT_FULL_STATE == 0;
    match uid {
        Some(uid) => handled.push(Handled {
            conn,
            ws,
            uid,
            taken,
        }),
        None => Ok(()),
    }
}
