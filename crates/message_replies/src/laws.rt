//! What holds of all replies: of bytes that are read as one, and of one that is written and read again.

ghost use Rattle.std.specs.Prelude.{◌≡◌, ◌≤◌, ◌⊎◌, ℕ, List, length, IfOk, IfErr};
ghost use Rattle.message_codec.specs.declared.wire.field.Why.{Why};
ghost use Rattle.message_codec.specs.Fields.{AreBytes};
ghost use Rattle.message_values.specs.declared.reply.ServerToAgent.{ServerToAgent};
ghost use Rattle.message_codec.specs.Faults.{SameFault};
ghost use Rattle.message_replies.specs.Canonical.{ReplyFails};
ghost use Rattle.message_replies.specs.Replies.{MeansReply, ReplyFault};

use crate::decoding::decode_reply;
use crate::writing::encode_reply;
use message_codec::reader::items::ReadFail;
use message_codec::writer::encoding::WriteFail;
use message_values::ServerToAgent;
use std::alloc::Global;

/// Bytes mean one reply at most: whoever reads them finds the same fields, with the same values.
pub fn one_reply()
    ensures one { (bytes : List ℕ) (m n : ServerToAgent) → MeansReply bytes m → MeansReply bytes n → m ≡ n }
{}

/// Bytes that mean a reply have no fault. Others have one at most, which lies within them.
pub fn reply_fault()
    ensures not_both { (bytes : List ℕ) (m : ServerToAgent) (at : ℕ) (why : Why) → MeansReply bytes m → ReplyFault bytes at why → ⊥ }
    ensures one_fault { (bytes : List ℕ) (i j : ℕ) (v w : Why) → ReplyFault bytes i v → ReplyFault bytes j w → SameFault i j v w }
    ensures within { (bytes : List ℕ) (at : ℕ) (why : Why) → ReplyFault bytes at why → at ≤ length bytes }
{}

/// Bytes mean a reply, a value and not its columns alone, or they have a fault.
pub fn reply_or_fault()
    ensures either { (bytes : List ℕ) → AreBytes bytes → ((m : ServerToAgent) × MeansReply bytes m) ⊎ ((at : ℕ) × (why : Why) × ReplyFault bytes at why) }
{}

/// Encodes a reply and decodes it again. What was encoded is never refused, and it is the same reply.
pub fn read_back(alloc: Global, message: &ServerToAgent) -> Result<ServerToAgent, WriteFail>
    ensures same { IfOk result (λ again. again ≡ message.now) }
    ensures failed { IfErr result (ReplyFails message.now) }
{
    let bytes = encode_reply(alloc, message)?;
    match decode_reply(alloc, bytes.as_slice()) {
        Ok(again) => Ok(again),
        Err(ReadFail::NoMemory) => Err(WriteFail::NoMemory),
        Err(ReadFail::Refused(_)) => unreachable!(),
    }
}
