//! Frames of messages in canonical form.

ghost use Rattle.std.specs.Prelude.{◌≡◌, ◌≤◌, ◌++◌, length, OnOk, OnErr};
ghost use Rattle.message_codec.specs.Canonical.{capped};
ghost use Rattle.command_streams.specs.Framing.{frame_of};

use crate::families::Outermost;
use command_streams::MESSAGE_LIMIT;
use message_codec::wire::Out;
use plain_values::NoMemory;

/// Adds the frame of a message whose canonical form has `len` bytes: the length in four bytes, most significant first, and the canonical form. Room is
/// made for all of it at once, so that after want of memory the output is as it was.
#[tactic(auto, unfolding(command_streams::specs::Framing::frame_of, message_codec::specs::Canonical::capped))]
pub(crate) fn add_frame<M: Outermost>(
    output: &mut Out,
    message: &M,
    len: u64,
) -> Result<(), NoMemory>
    requires measured { len ≡ capped (M.family.canonical message.now) }
    requires fits { length (M.family.canonical message.now) ≤ MESSAGE_LIMIT }
    ensures added { OnOk result (output.new.bytes ≡ output.old.bytes ++ frame_of (M.family.canonical message.now)) }
    ensures kept { OnErr result (output.new.bytes ≡ output.old.bytes) }
{
    output.reserve(4 + len)?;
    output.append(&(len as u32).to_be_bytes())?;
    message.append_measured(output, len)
}

/// Adds the frame of a message that has these bytes, as `add_frame` does.
#[tactic(auto, unfolding(command_streams::specs::Framing::frame_of))]
pub(crate) fn add_frame_of(output: &mut Out, message: &[u8]) -> Result<(), NoMemory>
    requires fits { length message.now ≤ MESSAGE_LIMIT }
    ensures added { OnOk result (output.new.bytes ≡ output.old.bytes ++ frame_of message.now) }
    ensures kept { OnErr result (output.new.bytes ≡ output.old.bytes) }
{
    output.reserve(4 + message.len() as u64)?;
    output.append(&(message.len() as u32).to_be_bytes())?;
    output.append(message)
}
