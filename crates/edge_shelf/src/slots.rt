//! The files of a shelf in memory.

ghost use Rattle.std.specs.Prelude.{◌≡◌, IsTrue, IfOk, OnOk, OnErr, Err, Some, None, is_some, map, if◌then◌else◌, ℕ, List};
ghost use Rattle.std.specs.Str.{bytes_eq};
ghost use Rattle.plain_values.specs.Pairs.{on_value, value_at};
ghost use Rattle.edge_devices.specs.Folders.{AreGood, AreNames};
ghost use Rattle.edge_devices.specs.Names.{is_good_name};
ghost use Rattle.edge_shelf.specs.MemoryShelves.{files_in, kept_body, left_body, settled_slot};

use crate::memory_shelf::Mode;
use edge_devices::name_good;
use plain_values::{Blob, List as Items, Map, NoMemory, Pair, Plain, Text};
use std::alloc::Global;

/// What the file of a name holds, and what was asked for since and not done.
#[derive(Drop)]
pub struct Slot {
    /// What it holds; none where it isn't there.
    pub kept: Option<Blob>,
    /// What it was last to hold, where that wasn't done.
    pub tried: Option<Option<Blob>>,
}

// What the file holds.
pub(crate) fn kept(alloc: Global, slots: &Map<Slot>, name: &Text) -> Result<Option<Blob>, NoMemory>
    ensures kept { IfOk result (λ body. body ≡ kept_body (value_at slots.now name.now)) }
{
    match slots.get(name) {
        Some(slot) => slot.kept.copy(alloc),
        None => Ok(None),
    }
}

// The file is to hold this body, which fails or is done.
pub(crate) fn put(
    alloc: Global,
    slots: &mut Map<Slot>,
    name: &Text,
    body: Option<Blob>,
    fails: bool,
) -> Result<(), NoMemory>
    ensures put { OnOk result ((q : List ℕ) → value_at slots.new q ≡ (if bytes_eq name.now q
        then Some (if fails then record { kept = kept_body (value_at slots.old name.now); tried = Some body } else record { kept = body; tried = None })
        else value_at slots.old q)) }
    ensures same { OnErr result (slots.new ≡ slots.old) }
{
    let name_copy = name.copy(alloc)?;
    if fails {
        let kept = kept(alloc, slots, name)?;
        slots.put(
            name_copy,
            Slot {
                kept,
                tried: Some(body),
            },
        )
    } else {
        slots.put(
            name_copy,
            Slot {
                kept: body,
                tried: None,
            },
        )
    }
}

// The names of the files that are there.
pub(crate) fn names(alloc: Global, slots: &Map<Slot>) -> Result<Items<Text>, NoMemory>
    ensures names { IfOk result (AreNames (files_in slots.now)) }
    ensures good { IfOk result AreGood }
{
    let mut names = Items::new(alloc);
    for pair in slots.as_slice() {
        if is_there(slots, &pair.key) {
            names.push(pair.key.copy(alloc)?)?;
        }
    }
    Ok(names)
}

fn is_there(slots: &Map<Slot>, name: &Text) -> bool
    ensures { result ≡ is_some (files_in slots.now name.now) }
{
    if !name_good(name.as_str()) {
        return false;
    }
    match slots.get(name) {
        Some(slot) => slot.kept.is_some(),
        None => false,
    }
}

// The slots as a stop leaves them.
pub(crate) fn settle(alloc: Global, slots: &Map<Slot>, mode: Mode) -> Result<Map<Slot>, NoMemory>
    ensures settled { IfOk result (λ settled. settled ≡ map (on_value (settled_slot mode)) slots.now) }
{
    let pairs = slots.as_slice();
    let mut made = Items::new(alloc);
    for pair in pairs {
        let key = pair.key.copy(alloc)?;
        let kept = left(alloc, &pair.value, mode)?;
        made.push(Pair {
            key,
            value: Slot { kept, tried: None },
        })?;
    }
    Ok(Map::from_ascending(made.into_vec()))
}

// What a stop leaves of a slot.
fn left(alloc: Global, slot: &Slot, mode: Mode) -> Result<Option<Blob>, NoMemory>
    ensures left { IfOk result (λ body. body ≡ left_body mode slot.now) }
{
    match (mode, &slot.tried) {
        (Mode::New, Some(body)) => body.copy(alloc),
        _ => slot.kept.copy(alloc),
    }
}
