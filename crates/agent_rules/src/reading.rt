//! Payloads as they are read.

ghost use Rattle.std.specs.Prelude.{◌≡◌, ◌<◌, ◌^◌, IfOk, IfSome, IsTrue, Option, length};
ghost use Rattle.std.specs.Option.{option_map};
ghost use Rattle.message_codec.specs.Values.{Values};
ghost use Rattle.message_codec.specs.Read.{FailsWith};
ghost use Rattle.agent_rules.specs.Columns.{parts_columns, saved_columns};
ghost use Rattle.agent_rules.specs.Payloads.{MeansFields, MeansSaved, FitsTypes, canonical_saved};
ghost use Rattle.agent_rules.specs.Right.{is_right};
ghost use Rattle.agent_rules.specs.Codec.{kept_if, meaning};

use crate::Kept;
use crate::drafts::SavedDraft;
use crate::parts::{SavedParts, fill, saved_of};
use crate::saved::{Saved, is_right};
use crate::written::{LENGTH_LIMIT, saved_len};
use message_codec::reader::decoding::{MOST_LEVELS, read_message};
use message_codec::reader::items::ReadFail;
use plain_values::{NoMemory, Uid};
use std::alloc::Global;

/// The fields that the bytes mean, with messages at most 100 deep. Refused exactly where the bytes mean none.
pub fn read_parts(alloc: Global, bytes: &[u8]) -> Result<SavedParts, ReadFail>
    ensures means { IfOk result (λ parts. MeansFields bytes.now (parts_columns parts)) }
    ensures refused { FailsWith result (λ at why. (vs : Values) → MeansFields bytes.now vs → ⊥) }
{
    let draft = read_message::<Kept, SavedDraft>(alloc, bytes, MOST_LEVELS - 1)?;
    Ok(fill(alloc, draft)?)
}

/// The value of the fields, or none exactly where it may not be kept. A value of which the canonical bytes don't fit into memory is answered by
/// want of memory.
pub fn settle(parts: SavedParts) -> Result<Option<Saved>, NoMemory>
    ensures kept { IfOk result (λ found. option_map saved_columns found ≡ kept_if (parts_columns parts)) }
    ensures right { IfOk result (λ found. IfSome found (λ saved. IsTrue (is_right saved))) }
    ensures typed { IfOk result (λ found. IfSome found FitsTypes) }
{
    let Some(uid) = Uid::from_slice(parts.uid.as_slice()) else {
        drop(parts);
        return Ok(None);
    };
    let saved = saved_of(uid, parts);
    if !is_right(&saved) {
        return Ok(None);
    }
    if saved_len(&saved) >= LENGTH_LIMIT {
        return Err(NoMemory);
    }
    Ok(Some(saved))
}

/// The value that a payload means, where it may be kept: none exactly where the bytes mean no such value.
pub fn read_saved(alloc: Global, bytes: &[u8]) -> Result<Option<Saved>, NoMemory>
    ensures means { IfOk result (λ found. option_map canonical_saved found ≡ meaning bytes.now) }
    ensures fields { IfOk result (λ found. IfSome found (MeansSaved bytes.now)) }
    ensures right { IfOk result (λ found. IfSome found (λ saved. IsTrue (is_right saved))) }
    ensures typed { IfOk result (λ found. IfSome found FitsTypes) }
{
    match read_parts(alloc, bytes) {
        Ok(parts) => settle(parts),
        Err(ReadFail::NoMemory) => Err(NoMemory),
        Err(ReadFail::Refused(_)) => Ok(None),
    }
}
