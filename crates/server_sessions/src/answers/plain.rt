//! The answer whose reply tells the server's capabilities alone, which most reports get, written from the identifier and the capabilities.

ghost use Rattle.std.specs.Prelude.{◌≡◌, ◌++◌, IfOk, OnOk};
ghost use Rattle.message_replies.specs.Canonical.{canonical_reply};
ghost use Rattle.server_core.specs.Replies.{bare_reply};
ghost use Rattle.server_sessions.specs.Reports.{enclosed};

use crate::answers::answering::Envelope;
use edge_http::response_bytes;
use message_codec::wire::Out;
use message_codec::writer::putting::{put_content, put_unsigned};
use plain_values::{Blob, NoMemory, Uid};
use std::alloc::Global;

/// The number of the field `instance_uid` (OpAMP specification, "ServerToAgent Message").
const INSTANCE_UID: u32 = 1;

/// The number of the field `capabilities`.
const CAPABILITIES: u32 = 7;

/// Room for the reply with a byte before it: 18 bytes of the identifier, and at most 11 of the capabilities.
const ROOM: u64 = 32;

// Appends the reply to this agent that tells these capabilities alone.
fn put_plain(out: &mut Out, uid: &Uid, capabilities: u64) -> Result<(), NoMemory>
    ensures put { OnOk result (out.new.bytes ≡ out.old.bytes ++ canonical_reply (bare_reply uid.now capabilities)) }
{
    put_content(out, INSTANCE_UID, uid.as_slice())?;
    put_unsigned(out, CAPABILITIES, capabilities)
}

// Appends these bytes, and the reply behind them.
fn put_behind(out: &mut Out, front: &[u8], uid: &Uid, capabilities: u64) -> Result<(), NoMemory>
    ensures put { OnOk result (out.new.bytes ≡ out.old.bytes ++ (front.now ++ canonical_reply (bare_reply uid.now capabilities))) }
{
    out.reserve(ROOM)?;
    out.append(front)?;
    put_plain(out, uid, capabilities)
}

// These bytes, and the reply behind them.
fn bytes_behind(alloc: Global, front: &[u8], uid: &Uid, capabilities: u64) -> Result<Blob, NoMemory>
    ensures bytes { IfOk result (λ bytes. bytes ≡ front.now ++ canonical_reply (bare_reply uid.now capabilities)) }
{
    let mut out = Out::new(alloc);
    put_behind(&mut out, front, uid, capabilities)?;
    Ok(Blob::of(out.into_vec()))
}

/// The bytes with the reply to this agent that tells these capabilities alone.
pub(crate) fn plain_answer(
    alloc: Global,
    envelope: Envelope,
    uid: &Uid,
    capabilities: u64,
) -> Result<Blob, NoMemory>
    ensures enclosed { IfOk result (λ answer. answer ≡ enclosed envelope (canonical_reply (bare_reply uid.now capabilities))) }
{
    match envelope {
        Envelope::Message => bytes_behind(alloc, &[0], uid, capabilities),
        Envelope::Response { closes } => {
            let reply = bytes_behind(alloc, &[], uid, capabilities)?;
            response_bytes(alloc, 200, reply.as_slice(), closes)
        }
    }
}
