//! What is asked of a server, and what its answer says.

ghost use Rattle.std.specs.Prelude.{◌≡◌, IfOk};
ghost use Rattle.edge_devices.specs.Endpoints.{is_ws};
ghost use Rattle.agent_rounds.specs.Parts.{IsReplyTo, carried, question_of};

use message_codec::reader::items::ReadFail;
use message_replies::{decode_reply, ws_payload, ws_wrap};
use message_values::{ServerToAgent, Settings};
use plain_values::{Blob, NoMemory};
use std::alloc::Global;

fn is_ws(endpoint: &str) -> bool
    ensures { result ≡ is_ws endpoint.now }
{
    endpoint.as_bytes().starts_with(b"ws://")
}

/// What is asked with these bytes of a report: on a WebSocket with its header (OpAMP specification, "WebSocket Message Format").
pub fn question(alloc: Global, to: &Settings, bytes: &[u8]) -> Result<Blob, NoMemory>
    ensures question { IfOk result (λ asked. asked ≡ question_of to.now bytes.now) }
{
    if is_ws(to.endpoint.as_str()) {
        ws_wrap(alloc, bytes)
    } else {
        Ok(Blob::of(Vec::from_slice(alloc, bytes)?))
    }
}

// The message that an answer carries.
fn carried<'a>(to: &Settings, answer: &'a [u8]) -> &'a [u8]
    ensures { result.now ≡ carried to.now answer.now }
{
    if is_ws(to.endpoint.as_str()) {
        ws_payload(answer)
    } else {
        answer
    }
}

/// The reply that an answer carries to the agent with this identifier; none exactly where it carries none, or one to another agent.
pub fn reply_to(
    alloc: Global,
    to: &Settings,
    uid: &[u8],
    answer: &[u8],
) -> Result<Option<ServerToAgent>, NoMemory>
    ensures reply { IfOk result (IsReplyTo uid.now (carried to.now answer.now)) }
{
    match decode_reply(alloc, carried(to, answer)) {
        Ok(reply) => {
            if reply.instance_uid.as_slice() == uid {
                Ok(Some(reply))
            } else {
                Ok(None)
            }
        }
        Err(ReadFail::NoMemory) => Err(NoMemory),
        Err(ReadFail::Refused(_)) => Ok(None),
    }
}
