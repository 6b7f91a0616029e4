//! The components that an agent can have, each of which holds a map of such (OpAMP specification, "AvailableComponents Message",
//! "ComponentDetails Message").

ghost use Rattle.std.specs.Prelude.{◌≡◌, ℕ, suc, ◌+◌, ◌-◌, ◌<◌, ◌≤◌, OnOk, IfOk, true, List as Seq};
ghost use Rattle.std.specs.Result.{is_ok};
ghost use Rattle.message_codec.specs.Fields.{payload_in};
ghost use Rattle.message_codec.specs.Tables as tables;
ghost use Rattle.message_codec.specs.Tables.{Keyed, Held, rows_of};
ghost use Rattle.message_codec.specs.Values.{Several, Present};
ghost use Rattle.message_codec.specs.Means.{empty_of};
ghost use Rattle.message_codec.specs.Openings.{ClosesColumn};
ghost use Rattle.message_codec.specs.Reads.{Reads, Takes, TakesIn};
ghost use Rattle.message_codec.specs.Faults.{FirstFault};
ghost use Rattle.message_codec.specs.Read.{IsItem, field_of, FailsWith, FieldFails, PartFails, arrived_of};
ghost use Rattle.message_reports.specs.ComponentColumns.{available_components_columns, available_components_draft_columns, details_columns, details_draft_columns, details_entry_draft_columns};

use crate::Agent;
use crate::maps::map_of;
use crate::payloads::{around_payload, payload};
use message_codec::reader::columns::{take_blob, take_text};
use message_codec::reader::items::{Item, ReadFail};
use message_codec::reader::message::{Message, Named, in_message, next_item, take_many};
use message_values::{AvailableComponents, ComponentDetails, KeyValue};
use plain_values::{Blob, List, NoMemory, Pair, Text};
use std::alloc::Global;

struct DetailsTable;

impl Named for DetailsTable {
    ghost name = { tables.ComponentDetails };
}

struct DetailsEntryTable;

impl Named for DetailsEntryTable {
    ghost name = { tables.Entry tables.ComponentDetails };
}

/// A ComponentDetails while it is read: its metadata, and its components as they come.
#[derive(Drop)]
pub struct DetailsDraft {
    pub metadata: List<KeyValue>,
    /// The entries in the order in which they came. An entry is read to its end before the next one begins, so its value is settled by then.
    pub sub_component_map: List<Pair<ComponentDetails>>,
}

/// An entry of the components while it is read.
#[derive(Drop)]
pub struct DetailsEntryDraft {
    pub key: Text,
    pub value: DetailsDraft,
}

impl DetailsDraft {
    /// The message that was read, of each key the last entry. Takes time of n log n in the number of entries.
    pub fn settle(self, alloc: Global) -> Result<ComponentDetails, NoMemory>
        ensures columns { IfOk result (λ d. details_columns d ≡ details_draft_columns self) }
    {
        Ok(ComponentDetails {
            metadata: self.metadata,
            sub_component_map: map_of(alloc, self.sub_component_map)?,
        })
    }
}

pub(crate) fn empty_details(alloc: Global) -> DetailsDraft
    ensures empty { details_draft_columns result ≡ empty_of tables.ComponentDetails }
{
    DetailsDraft {
        metadata: List::new(alloc),
        sub_component_map: List::new(alloc),
    }
}

pub(crate) fn empty_details_entry(alloc: Global) -> DetailsEntryDraft
    ensures empty { details_entry_draft_columns result ≡ empty_of (tables.Entry tables.ComponentDetails) }
{
    DetailsEntryDraft {
        key: Text::of(String::new(alloc)),
        value: empty_details(alloc),
    }
}

// Puts the entry behind those of the map, its value settled.
pub(crate) fn put_details(
    alloc: Global,
    map: &mut List<Pair<ComponentDetails>>,
    entry: DetailsEntryDraft,
) -> Result<(), NoMemory>
    ensures closes { OnOk result (ClosesColumn (Keyed tables.ComponentDetails) (Several (arrived_of details_columns map.old)) (details_entry_draft_columns entry) (Several (arrived_of details_columns map.new))) }
{
    let DetailsEntryDraft { key, value } = entry;
    let value = value.settle(alloc)?;
    map.push(Pair { key, value })?;
    Ok(())
}

// Puts an entry that was read behind those of the map, unless its reading failed.
fn put_read_details(
    alloc: Global,
    map: &mut List<Pair<ComponentDetails>>,
    entry: DetailsEntryDraft,
    read: Result<(), ReadFail>,
) -> Result<(), ReadFail>
    ensures closes { OnOk result (ClosesColumn (Keyed tables.ComponentDetails) (Several (arrived_of details_columns map.old)) (details_entry_draft_columns entry) (Several (arrived_of details_columns map.new))) }
    ensures read { OnOk result (is_ok read ≡ true) }
    ensures refused { (levels : ℕ) (bytes : Seq ℕ) → FailsWith read (FirstFault levels (tables.Entry tables.ComponentDetails) bytes) → FailsWith result (FirstFault levels (tables.Entry tables.ComponentDetails) bytes) }
{
    match read {
        Ok(()) => Ok(put_details(alloc, map, entry)?),
        Err(fail) => {
            drop(entry);
            Err(fail)
        }
    }
}

// A recursion may not go through a trait's method, so details and entry have a loop, their fields and their columns as plain functions.
// The bytes are read into the details, where `below` levels may stand below it.
#[cycle(reading)]
fn read_details_into(
    alloc: Global,
    details: &mut DetailsDraft,
    bytes: &[u8],
    below: u32,
) -> Result<(), ReadFail>
    ensures ok { OnOk result (Reads (suc below) tables.ComponentDetails bytes.now (details_draft_columns details.old) (details_draft_columns details.new)) }
    ensures refused { FailsWith result (FirstFault (suc below) tables.ComponentDetails bytes.now) }
{
    let mut at = 0;
    while at < bytes.len() as u64 {
        let item = next_item::<DetailsTable>(bytes, at, below)?;
        let taken = take_details(alloc, details, bytes, &item, below);
        in_message::<DetailsTable>(taken, bytes, &item, below)?;
        at = item.next;
    }
    Ok(())
}

// Inlined into the loops, so that a field is no call of the recursion: an entry of the map is.
#[inline(always)]
#[cycle(reading)]
pub(crate) fn take_details(
    alloc: Global,
    details: &mut DetailsDraft,
    bytes: &[u8],
    item: &Item,
    below: u32,
) -> Result<(), ReadFail>
    requires { IsItem bytes.now item.now }
    ensures ok { OnOk result (TakesIn below tables.ComponentDetails (field_of bytes.now item.now) (details_draft_columns details.old) (details_draft_columns details.new)) }
    ensures refused { FailsWith result (FieldFails below (rows_of tables.ComponentDetails) bytes.now item.now) }
{
    match item.number {
        1 => take_many(alloc, &mut details.metadata, bytes, item, below),
        2 => take_details_part(alloc, &mut details.sub_component_map, bytes, item, below),
        _ => Ok(()),
    }
}

#[inline(never)]
#[cycle(reading)]
fn take_details_part(
    alloc: Global,
    parts: &mut List<Pair<ComponentDetails>>,
    bytes: &[u8],
    item: &Item,
    below: u32,
) -> Result<(), ReadFail>
    requires { IsItem bytes.now item.now }
    ensures ok { OnOk result (Takes below (Keyed tables.ComponentDetails) (payload_in bytes.now item.now.value) (Several (arrived_of details_columns parts.old)) (Several (arrived_of details_columns parts.new))) }
    ensures refused { FailsWith result (PartFails below (tables.Entry tables.ComponentDetails) bytes.now item.now) }
{
    let Some(payload) = payload::<DetailsEntryTable>(bytes, item, below)? else {
        return Ok(());
    };
    let mut part = empty_details_entry(alloc);
    let read = read_details_part_into(alloc, &mut part, payload, below - 1);
    let put = put_read_details(alloc, parts, part, read);
    around_payload::<DetailsEntryTable>(put, bytes, item, payload, below)
}

#[cycle(reading)]
fn read_details_part_into(
    alloc: Global,
    part: &mut DetailsEntryDraft,
    bytes: &[u8],
    below: u32,
) -> Result<(), ReadFail>
    ensures ok { OnOk result (Reads (suc below) (tables.Entry tables.ComponentDetails) bytes.now (details_entry_draft_columns part.old) (details_entry_draft_columns part.new)) }
    ensures refused { FailsWith result (FirstFault (suc below) (tables.Entry tables.ComponentDetails) bytes.now) }
{
    let mut at = 0;
    while at < bytes.len() as u64 {
        let item = next_item::<DetailsEntryTable>(bytes, at, below)?;
        let taken = take_details_entry(alloc, part, bytes, &item, below);
        in_message::<DetailsEntryTable>(taken, bytes, &item, below)?;
        at = item.next;
    }
    Ok(())
}

#[cycle(reading)]
pub(crate) fn take_details_entry(
    alloc: Global,
    part: &mut DetailsEntryDraft,
    bytes: &[u8],
    item: &Item,
    below: u32,
) -> Result<(), ReadFail>
    requires { IsItem bytes.now item.now }
    ensures ok { OnOk result (TakesIn below (tables.Entry tables.ComponentDetails) (field_of bytes.now item.now) (details_entry_draft_columns part.old) (details_entry_draft_columns part.new)) }
    ensures refused { FailsWith result (FieldFails below (rows_of (tables.Entry tables.ComponentDetails)) bytes.now item.now) }
{
    match item.number {
        1 => take_text(alloc, &mut part.key, bytes, item),
        2 => take_details_value(alloc, &mut part.value, bytes, item, below),
        _ => Ok(()),
    }
}

#[cycle(reading)]
fn take_details_value(
    alloc: Global,
    value: &mut DetailsDraft,
    bytes: &[u8],
    item: &Item,
    below: u32,
) -> Result<(), ReadFail>
    requires { IsItem bytes.now item.now }
    ensures ok { OnOk result (Takes below (Held tables.ComponentDetails) (payload_in bytes.now item.now.value) (Present (details_draft_columns value.old)) (Present (details_draft_columns value.new))) }
    ensures refused { FailsWith result (PartFails below tables.ComponentDetails bytes.now item.now) }
{
    let Some(payload) = payload::<DetailsTable>(bytes, item, below)? else {
        return Ok(());
    };
    let read = read_details_into(alloc, value, payload, below - 1);
    around_payload::<DetailsTable>(read, bytes, item, payload, below)
}

impl Message<Agent> for DetailsDraft {
    ghost name = { tables.ComponentDetails };

    ghost columns = { details_draft_columns };

    fn empty(alloc: Global) -> DetailsDraft {
        empty_details(alloc)
    }

    fn take(
        &mut self,
        alloc: Global,
        bytes: &[u8],
        item: &Item,
        below: u32,
    ) -> Result<(), ReadFail> {
        take_details(alloc, self, bytes, item, below)
    }
}

/// An AvailableComponents while it is read.
#[derive(Drop)]
pub struct AvailableComponentsDraft {
    /// The entries in the order in which they came.
    pub components: List<Pair<ComponentDetails>>,
    pub hash: Blob,
}

impl AvailableComponentsDraft {
    /// The message that was read, of each key the last entry. Takes time of n log n in the number of entries.
    pub fn settle(self, alloc: Global) -> Result<AvailableComponents, NoMemory>
        ensures columns { IfOk result (λ m. available_components_columns m ≡ available_components_draft_columns self) }
    {
        Ok(AvailableComponents {
            components: map_of(alloc, self.components)?,
            hash: self.hash,
        })
    }
}

impl Message<Agent> for AvailableComponentsDraft {
    ghost name = { tables.AvailableComponents };

    ghost columns = { available_components_draft_columns };

    fn empty(alloc: Global) -> AvailableComponentsDraft {
        AvailableComponentsDraft {
            components: List::new(alloc),
            hash: Blob::of(Vec::new(alloc)),
        }
    }

    fn take(
        &mut self,
        alloc: Global,
        bytes: &[u8],
        item: &Item,
        below: u32,
    ) -> Result<(), ReadFail> {
        match item.number {
            1 => take_details_part(alloc, &mut self.components, bytes, item, below)?,
            2 => take_blob(alloc, &mut self.hash, bytes, item)?,
            _ => {}
        }
        Ok(())
    }
}
