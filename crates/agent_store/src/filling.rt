//! The rows in which a save is made. Each has the room for it since the load, so that a save takes no memory.

ghost use Rattle.std.specs.Prelude.{◌≡◌, ◌+◌, ◌<◌, ◌≤◌, ◌^◌, [], length, Some, IfOk, IfErr, OnOk, OnErr, IsOk};
ghost use Rattle.agent_store.specs.Codecs.{IsRight};
ghost use Rattle.agent_store.specs.Log.{entry_bytes};
ghost use Rattle.agent_store.specs.Rooms.{room_of};
ghost use Rattle.agent_store.specs.Slots.{body_bytes};

use crate::payload::Payload;
use crate::slots::Layout;
use message_codec::wire::Out;
use plain_values::NoMemory;
use std::alloc::Global;

/// Fills a row with the canonical bytes of a part.
pub fn fill<P: Payload>(row: &mut Out, part: &P) -> Result<(), NoMemory>
    requires few { length (P.canonical part.now) < 2 ^ 62 }
    ensures bytes { OnOk result (row.new.bytes ≡ P.canonical part.now) }
    ensures err { OnErr result (row.new.bytes ≡ []) }
    ensures room { length (P.canonical part.now) ≤ room_of row.old → IsOk result }
    ensures right { OnOk result (P.right part.now → IsRight P.codec (P.canonical part.now)) }
    ensures larger { room_of row.old ≤ room_of row.new }
{
    row.clear();
    part.put(row)
}

/// Fills a row that has the room for it with the canonical bytes of a part.
pub fn stage<P: Payload>(row: &mut Out, part: &P)
    requires few { length (P.canonical part.now) < 2 ^ 62 }
    requires room { length (P.canonical part.now) ≤ room_of row.old }
    ensures bytes { row.new.bytes ≡ P.canonical part.now }
    ensures right { P.right part.now → IsRight P.codec (P.canonical part.now) }
    ensures larger { room_of row.old ≤ room_of row.new }
{
    if fill(row, part).is_err() {
        unreachable!()
    }
}

/// Fills a row with the canonical bytes of a part that was read. It may take memory.
pub fn hold<P: Payload>(row: &mut Out, part: &P) -> Result<(), NoMemory>
    ensures bytes { OnOk result (row.new.bytes ≡ P.canonical part.now) }
    ensures err { OnErr result (length row.new.bytes ≤ length row.old.bytes) }
    ensures few { OnOk result (length (P.canonical part.now) < 2 ^ 62) }
    ensures right { OnOk result (P.right part.now → IsRight P.codec (P.canonical part.now)) }
    ensures larger { room_of row.old ≤ room_of row.new }
{
    if part.len() >= 1 << 62 {
        return Err(NoMemory);
    }
    fill(row, part)
}

/// Fills a row with an entry's bytes behind its gate, and a closed gate for the next entry.
#[tactic(auto, unfolding(crate::specs::Log::entry_bytes))]
pub fn fill_entry<P: Payload>(row: &mut Out, former: &[u8], next: &[u8]) -> Result<(), NoMemory>
    requires former_few { length former.now < 2 ^ 62 }
    requires next_few { length next.now < 2 ^ 62 }
    requires former { IsRight P.codec former.now }
    requires next { IsRight P.codec next.now }
    requires few { length (P.codec.change former.now next.now) < 2 ^ 32 }
    ensures bytes { OnOk result (row.new.bytes ≡ entry_bytes (P.codec.change former.now next.now)) }
    ensures leads { OnOk result (P.codec.changed former.now (P.codec.change former.now next.now) ≡ Some next.now) }
    ensures room { 5 + length (P.codec.change former.now next.now) ≤ room_of row.old → IsOk result }
    ensures larger { room_of row.old ≤ room_of row.new }
{
    row.clear();
    let size = P::change_len(former, next) as u32;
    row.append(&size.to_le_bytes())?;
    P::put_change(former, next, row)?;
    row.append(&[0])
}

/// Fills a row with a slot's bytes behind its gate.
#[tactic(auto, unfolding(crate::specs::Slots::body_bytes))]
pub fn fill_body(row: &mut Out, generation: u64, payload: &[u8]) -> Result<(), NoMemory>
    requires few { length payload.now < 2 ^ 32 }
    ensures bytes { OnOk result (row.new.bytes ≡ body_bytes generation payload.now) }
    ensures room { 15 + length payload.now ≤ room_of row.old → IsOk result }
    ensures larger { room_of row.old ≤ room_of row.new }
{
    row.clear();
    row.append(&generation.to_le_bytes())?;
    row.append(&(payload.len() as u32).to_le_bytes())?;
    row.append(&[2, 0, 0])?;
    row.append(payload)
}

/// The rows of a store: two with room for a slot's bytes behind its gate, and one with room for an entry.
pub fn reserve(alloc: Global, layout: Layout) -> Result<(Out, Out, Out), NoMemory>
    ensures empty { IfOk result (λ rows. rows.0.bytes ≡ []) }
    ensures former { IfOk result (λ rows. layout.room + 15 ≤ room_of rows.0) }
    ensures next { IfOk result (λ rows. layout.room + 15 ≤ room_of rows.1) }
    ensures entry { IfOk result (λ rows. layout.log ≤ room_of rows.2) }
{
    let slot = u64::from(layout.room) + 15;
    let mut former = Out::new(alloc);
    former.reserve(slot)?;
    let mut next = Out::new(alloc);
    next.reserve(slot)?;
    let mut entry = Out::new(alloc);
    entry.reserve(u64::from(layout.log))?;
    Ok((former, next, entry))
}
