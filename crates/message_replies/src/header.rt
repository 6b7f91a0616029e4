//! The header of a message on a WebSocket (OpAMP specification, "WebSocket Message Format").

ghost use Rattle.std.specs.Prelude.{◌≡◌, ◌+◌, ℕ, List, ◌∷◌, length, IfOk};
ghost use Rattle.message_codec.specs.Tables.{Name};
ghost use Rattle.message_codec.specs.Values.{Values};
ghost use Rattle.message_codec.specs.Means.{Means};
ghost use Rattle.message_replies.specs.Header.{payload_of, wrapped};

use plain_values::{Blob, NoMemory};
use std::alloc::Global;

/// The payload of a WebSocket message that carries these bytes: the header, which is one byte of 0, and then the message.
pub fn ws_wrap(alloc: Global, message: &[u8]) -> Result<Blob, NoMemory>
    ensures wraps { IfOk result (λ payload. payload ≡ wrapped message.now) }
{
    let mut payload = Vec::new(alloc);
    payload.push(0u8)?;
    payload.extend_from_slice(message)?;
    Ok(Blob::of(payload))
}

/// The message that a payload carries: what stands behind the header, or the whole payload where it has none, as earlier agents and servers send
/// it. It takes no memory.
pub fn ws_payload(payload: &[u8]) -> &[u8]
    ensures carries { result.now ≡ payload_of payload.now }
{
    match payload {
        [0, message @ ..] => message,
        _ => payload,
    }
}

/// The header is one byte, which is 0.
pub fn websocket_header()
    ensures is_zero { (message : List ℕ) → wrapped message ≡ 0 ∷ message }
    ensures is_one_byte { (message : List ℕ) → length (wrapped message) ≡ length message + 1 }
{}

/// A payload that wraps a message carries it.
pub fn payload_of_wrapped()
    ensures carried { (message : List ℕ) → payload_of (wrapped message) ≡ message }
{}

/// What came without a header is taken as it stands, whatever message it means: none begins with the header's byte.
pub fn payload_of_message()
    ensures stays { (levels : ℕ) (name : Name) (bytes : List ℕ) (columns : Values) → Means levels name bytes columns → payload_of bytes ≡ bytes }
{}
