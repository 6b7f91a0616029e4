//! The frames of journals.

ghost use Rattle.std.specs.Prelude.{◌≡◌, ◌≤◌, ◌<◌, ◌++◌, ℕ, List, OnOk, length, slice_get, Some};
ghost use Rattle.shard_journals.specs.declared.rows.Row.{Row};
ghost use Rattle.command_fleet.specs.Output.{AreSendable, fleet_frames, journal_frames, place_bytes};
ghost use Rattle.command_streams.specs.Framing.{frame_of};
ghost use Rattle.message_replies.specs.Canonical.{canonical_reply};

use message_codec::wire::Out;
use message_replies::{put_reply, reply_len};
use message_values::ServerToAgent;
use plain_values::{List, NoMemory};
use shard_journals::Row;
use std::alloc::Global;

/// Adds the frames of the journals to the output, shard by shard and row by row. Each reply is short enough for a frame.
pub fn put_journals(
    alloc: Global,
    output: &mut Out,
    journals: &[List<Row<'_>>],
) -> Result<(), NoMemory>
    requires few { length journals.now ≤ 256 }
    requires sendable { (shard : ℕ) (rows : List Row) → slice_get journals.now shard ≡ Some rows → AreSendable rows }
    ensures added { OnOk result (output.new.bytes ≡ output.old.bytes ++ fleet_frames journals.now) }
{
    for shard in 0..journals.len() {
        put_journal(alloc, output, shard as u8, journals[shard].as_slice())?;
    }
    Ok(())
}

fn put_journal(alloc: Global, output: &mut Out, shard: u8, rows: &[Row<'_>]) -> Result<(), NoMemory>
    requires sendable { AreSendable rows.now }
    ensures added { OnOk result (output.new.bytes ≡ output.old.bytes ++ journal_frames shard rows.now) }
{
    for at in 0..rows.len() {
        let row = &rows[at];
        put_place(output, shard, row.item)?;
        put_row_reply(alloc, output, row)?;
    }
    Ok(())
}

// The frame of nine bytes: the shard and the item.
#[tactic(auto, using(crate::proofs::Frames::place_put))]
fn put_place(output: &mut Out, shard: u8, item: u64) -> Result<(), NoMemory>
    ensures added { OnOk result (output.new.bytes ≡ output.old.bytes ++ frame_of (place_bytes shard item)) }
{
    output.append(&[0, 0, 0, 9, shard])?;
    output.append(&item.to_be_bytes())
}

// The frame of a row's reply, which is put together for it.
fn put_row_reply(alloc: Global, output: &mut Out, row: &Row<'_>) -> Result<(), NoMemory>
    requires fits { length (canonical_reply row.now.reply) ≤ 4194304 }
    ensures added { OnOk result (output.new.bytes ≡ output.old.bytes ++ frame_of (canonical_reply row.now.reply)) }
{
    let reply = row.message(alloc)?;
    put_framed(output, &reply)
}

#[tactic(auto, unfolding(command_streams::specs::Framing::frame_of, message_codec::specs::Canonical::capped))]
fn put_framed(output: &mut Out, reply: &ServerToAgent) -> Result<(), NoMemory>
    requires fits { length (canonical_reply reply.now) ≤ 4194304 }
    ensures added { OnOk result (output.new.bytes ≡ output.old.bytes ++ frame_of (canonical_reply reply.now)) }
{
    let len = reply_len(reply);
    output.append(&(len as u32).to_be_bytes())?;
    put_reply(output, reply)
}
