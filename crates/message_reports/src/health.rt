//! A component's health, which holds a map of such (OpAMP specification, "ComponentHealth Message").

ghost use Rattle.std.specs.Prelude.{◌≡◌, ℕ, suc, ◌+◌, ◌-◌, ◌<◌, ◌≤◌, OnOk, IfOk, true, List as Seq};
ghost use Rattle.std.specs.Result.{is_ok};
ghost use Rattle.message_codec.specs.Fields.{payload_in};
ghost use Rattle.message_codec.specs.Tables as tables;
ghost use Rattle.message_codec.specs.Tables.{Keyed, Held, rows_of};
ghost use Rattle.message_codec.specs.Values.{Several, Present};
ghost use Rattle.message_codec.specs.Means.{empty_of};
ghost use Rattle.message_reports.specs.HealthColumns.{health_columns, health_draft_columns, health_entry_draft_columns};
ghost use Rattle.message_codec.specs.Openings.{ClosesColumn};
ghost use Rattle.message_codec.specs.Reads.{Reads, Takes, TakesIn};
ghost use Rattle.message_codec.specs.Faults.{FirstFault};
ghost use Rattle.message_codec.specs.Read.{IsItem, field_of, FailsWith, FieldFails, PartFails, arrived_of};

use crate::Agent;
use crate::maps::map_of;
use crate::payloads::{around_payload, payload};
use message_codec::reader::columns::{take_fixed, take_text, take_truth};
use message_codec::reader::items::{Item, ReadFail};
use message_codec::reader::message::{Message, Named, in_message, next_item};
use message_values::ComponentHealth;
use plain_values::{List, NoMemory, Pair, Text};
use std::alloc::Global;

struct HealthTable;

impl Named for HealthTable {
    ghost name = { tables.ComponentHealth };
}

struct HealthEntryTable;

impl Named for HealthEntryTable {
    ghost name = { tables.Entry tables.ComponentHealth };
}

/// A ComponentHealth while it is read: its fields, but for the map.
#[derive(Drop)]
pub struct HealthDraft {
    pub healthy: bool,
    pub start_time_unix_nano: u64,
    pub last_error: Text,
    pub status: Text,
    pub status_time_unix_nano: u64,
    /// The entries in the order in which they came. An entry is read to its end before the next one begins, so its value is settled by then.
    pub component_health_map: List<Pair<ComponentHealth>>,
}

/// An entry of the components while it is read.
#[derive(Drop)]
pub struct HealthEntryDraft {
    pub key: Text,
    pub value: HealthDraft,
}

impl HealthDraft {
    /// The message that was read, of each key the last entry. Takes time of n log n in the number of entries, and linear time where their keys ascend.
    pub fn settle(self, alloc: Global) -> Result<ComponentHealth, NoMemory>
        ensures columns { IfOk result (λ h. health_columns h ≡ health_draft_columns self) }
    {
        Ok(ComponentHealth {
            healthy: self.healthy,
            start_time_unix_nano: self.start_time_unix_nano,
            last_error: self.last_error,
            status: self.status,
            status_time_unix_nano: self.status_time_unix_nano,
            component_health_map: map_of(alloc, self.component_health_map)?,
        })
    }
}

pub(crate) fn empty_health(alloc: Global) -> HealthDraft
    ensures empty { health_draft_columns result ≡ empty_of tables.ComponentHealth }
{
    HealthDraft {
        healthy: false,
        start_time_unix_nano: 0,
        last_error: Text::of(String::new(alloc)),
        status: Text::of(String::new(alloc)),
        status_time_unix_nano: 0,
        component_health_map: List::new(alloc),
    }
}

pub(crate) fn empty_health_entry(alloc: Global) -> HealthEntryDraft
    ensures empty { health_entry_draft_columns result ≡ empty_of (tables.Entry tables.ComponentHealth) }
{
    HealthEntryDraft {
        key: Text::of(String::new(alloc)),
        value: empty_health(alloc),
    }
}

// Puts the entry behind those of the map, its value settled.
pub(crate) fn put_health(
    alloc: Global,
    map: &mut List<Pair<ComponentHealth>>,
    entry: HealthEntryDraft,
) -> Result<(), NoMemory>
    ensures closes { OnOk result (ClosesColumn (Keyed tables.ComponentHealth) (Several (arrived_of health_columns map.old)) (health_entry_draft_columns entry) (Several (arrived_of health_columns map.new))) }
{
    let HealthEntryDraft { key, value } = entry;
    let value = value.settle(alloc)?;
    map.push(Pair { key, value })?;
    Ok(())
}

// Puts an entry that was read behind those of the map, unless its reading failed.
fn put_read_health(
    alloc: Global,
    map: &mut List<Pair<ComponentHealth>>,
    entry: HealthEntryDraft,
    read: Result<(), ReadFail>,
) -> Result<(), ReadFail>
    ensures closes { OnOk result (ClosesColumn (Keyed tables.ComponentHealth) (Several (arrived_of health_columns map.old)) (health_entry_draft_columns entry) (Several (arrived_of health_columns map.new))) }
    ensures read { OnOk result (is_ok read ≡ true) }
    ensures refused { (levels : ℕ) (bytes : Seq ℕ) → FailsWith read (FirstFault levels (tables.Entry tables.ComponentHealth) bytes) → FailsWith result (FirstFault levels (tables.Entry tables.ComponentHealth) bytes) }
{
    match read {
        Ok(()) => Ok(put_health(alloc, map, entry)?),
        Err(fail) => {
            drop(entry);
            Err(fail)
        }
    }
}

// Adds a field other than the map's to its column.
#[inline(always)]
fn take_plain(
    alloc: Global,
    health: &mut HealthDraft,
    bytes: &[u8],
    item: &Item,
) -> Result<(), ReadFail>
    requires item { IsItem bytes.now item.now }
    requires plain { item.now.number ≡ 6 → ⊥ }
    ensures ok { (below : ℕ) → OnOk result (TakesIn below tables.ComponentHealth (field_of bytes.now item.now) (health_draft_columns health.old) (health_draft_columns health.new)) }
    ensures refused { (below : ℕ) → FailsWith result (FieldFails below (rows_of tables.ComponentHealth) bytes.now item.now) }
{
    match item.number {
        1 => take_truth(&mut health.healthy, bytes, item),
        2 => take_fixed(&mut health.start_time_unix_nano, bytes, item),
        3 => take_text(alloc, &mut health.last_error, bytes, item)?,
        4 => take_text(alloc, &mut health.status, bytes, item)?,
        5 => take_fixed(&mut health.status_time_unix_nano, bytes, item),
        _ => {}
    }
    Ok(())
}

// A recursion may not go through a trait's method, so health and entry have a loop, their fields and their columns as plain functions.
// The bytes are read into the health, where `below` levels may stand below it.
#[cycle(reading)]
fn read_health_into(
    alloc: Global,
    health: &mut HealthDraft,
    bytes: &[u8],
    below: u32,
) -> Result<(), ReadFail>
    ensures ok { OnOk result (Reads (suc below) tables.ComponentHealth bytes.now (health_draft_columns health.old) (health_draft_columns health.new)) }
    ensures refused { FailsWith result (FirstFault (suc below) tables.ComponentHealth bytes.now) }
{
    let mut at = 0;
    while at < bytes.len() as u64 {
        let item = next_item::<HealthTable>(bytes, at, below)?;
        let taken = take_health(alloc, health, bytes, &item, below);
        in_message::<HealthTable>(taken, bytes, &item, below)?;
        at = item.next;
    }
    Ok(())
}

// Inlined into the loops, so that a field is no call of the recursion: an entry of the map is.
#[inline(always)]
#[cycle(reading)]
pub(crate) fn take_health(
    alloc: Global,
    health: &mut HealthDraft,
    bytes: &[u8],
    item: &Item,
    below: u32,
) -> Result<(), ReadFail>
    requires { IsItem bytes.now item.now }
    ensures ok { OnOk result (TakesIn below tables.ComponentHealth (field_of bytes.now item.now) (health_draft_columns health.old) (health_draft_columns health.new)) }
    ensures refused { FailsWith result (FieldFails below (rows_of tables.ComponentHealth) bytes.now item.now) }
{
    match item.number {
        6 => take_health_part(alloc, &mut health.component_health_map, bytes, item, below),
        _ => take_plain(alloc, health, bytes, item),
    }
}

#[inline(never)]
#[cycle(reading)]
fn take_health_part(
    alloc: Global,
    parts: &mut List<Pair<ComponentHealth>>,
    bytes: &[u8],
    item: &Item,
    below: u32,
) -> Result<(), ReadFail>
    requires { IsItem bytes.now item.now }
    ensures ok { OnOk result (Takes below (Keyed tables.ComponentHealth) (payload_in bytes.now item.now.value) (Several (arrived_of health_columns parts.old)) (Several (arrived_of health_columns parts.new))) }
    ensures refused { FailsWith result (PartFails below (tables.Entry tables.ComponentHealth) bytes.now item.now) }
{
    let Some(payload) = payload::<HealthEntryTable>(bytes, item, below)? else {
        return Ok(());
    };
    let mut part = empty_health_entry(alloc);
    let read = read_health_part_into(alloc, &mut part, payload, below - 1);
    let put = put_read_health(alloc, parts, part, read);
    around_payload::<HealthEntryTable>(put, bytes, item, payload, below)
}

#[cycle(reading)]
fn read_health_part_into(
    alloc: Global,
    part: &mut HealthEntryDraft,
    bytes: &[u8],
    below: u32,
) -> Result<(), ReadFail>
    ensures ok { OnOk result (Reads (suc below) (tables.Entry tables.ComponentHealth) bytes.now (health_entry_draft_columns part.old) (health_entry_draft_columns part.new)) }
    ensures refused { FailsWith result (FirstFault (suc below) (tables.Entry tables.ComponentHealth) bytes.now) }
{
    let mut at = 0;
    while at < bytes.len() as u64 {
        let item = next_item::<HealthEntryTable>(bytes, at, below)?;
        let taken = take_health_entry(alloc, part, bytes, &item, below);
        in_message::<HealthEntryTable>(taken, bytes, &item, below)?;
        at = item.next;
    }
    Ok(())
}

#[cycle(reading)]
pub(crate) fn take_health_entry(
    alloc: Global,
    part: &mut HealthEntryDraft,
    bytes: &[u8],
    item: &Item,
    below: u32,
) -> Result<(), ReadFail>
    requires { IsItem bytes.now item.now }
    ensures ok { OnOk result (TakesIn below (tables.Entry tables.ComponentHealth) (field_of bytes.now item.now) (health_entry_draft_columns part.old) (health_entry_draft_columns part.new)) }
    ensures refused { FailsWith result (FieldFails below (rows_of (tables.Entry tables.ComponentHealth)) bytes.now item.now) }
{
    match item.number {
        1 => take_text(alloc, &mut part.key, bytes, item),
        2 => take_health_value(alloc, &mut part.value, bytes, item, below),
        _ => Ok(()),
    }
}

#[cycle(reading)]
fn take_health_value(
    alloc: Global,
    value: &mut HealthDraft,
    bytes: &[u8],
    item: &Item,
    below: u32,
) -> Result<(), ReadFail>
    requires { IsItem bytes.now item.now }
    ensures ok { OnOk result (Takes below (Held tables.ComponentHealth) (payload_in bytes.now item.now.value) (Present (health_draft_columns value.old)) (Present (health_draft_columns value.new))) }
    ensures refused { FailsWith result (PartFails below tables.ComponentHealth bytes.now item.now) }
{
    let Some(payload) = payload::<HealthTable>(bytes, item, below)? else {
        return Ok(());
    };
    let read = read_health_into(alloc, value, payload, below - 1);
    around_payload::<HealthTable>(read, bytes, item, payload, below)
}

impl Message<Agent> for HealthDraft {
    ghost name = { tables.ComponentHealth };

    ghost columns = { health_draft_columns };

    fn empty(alloc: Global) -> HealthDraft {
        empty_health(alloc)
    }

    fn take(
        &mut self,
        alloc: Global,
        bytes: &[u8],
        item: &Item,
        below: u32,
    ) -> Result<(), ReadFail> {
        take_health(alloc, self, bytes, item, below)
    }
}
