//! The components of an agent in canonical form (OpAMP specification, "AvailableComponents Message", "ComponentDetails Message").

ghost use Rattle.std.specs.Prelude.{◌≡◌, ◌<◌, ◌≤◌, ◌^◌, length, min};
ghost use Rattle.message_codec.specs.Tables as tables;
ghost use Rattle.message_codec.specs.Values.{Content, Several};
ghost use Rattle.message_codec.specs.Means.{entry_of};
ghost use Rattle.message_codec.specs.Read.{each_of};
ghost use Rattle.message_codec.specs.Canonical.{canonical, capped, column_bytes, entry_head, part_spelling, Puts};
ghost use Rattle.message_codec.specs.Fits.{FitsMessage};
ghost use Rattle.message_codec.specs.Levels.{deepest};
ghost use Rattle.message_attributes.specs.AnyColumns.{pair_columns};
ghost use Rattle.message_reports.specs.ComponentColumns.{available_components_columns, details_columns};

use crate::Agent;
use message_codec::wire::Out;
use message_codec::writer::counting::{count_blob, count_many, count_map, count_part, count_text};
use message_codec::writer::levels::{depth_many, depth_map};
use message_codec::writer::putting::{put_blob, put_head, put_many, put_map, put_text};
use message_codec::writer::written::Written;
use message_values::{AvailableComponents, ComponentDetails, KeyValue};
use plain_values::{List, NoMemory, Text};

/// A length that no bytes reach: they are fewer than 2^62.
pub(crate) const LENGTH_LIMIT: u64 = 1 << 62;

// A recursion may not go through a trait's method, so the components are gone over by plain functions.
fn details_len(details: &ComponentDetails) -> u64
    ensures bound { result ≤ 2 ^ 62 }
    ensures counts { result ≡ capped (canonical tables.ComponentDetails (details_columns details.now)) }
    ensures fits { FitsMessage tables.ComponentDetails (details_columns details.now) }
{
    let mut total = count_many(0, 1, &details.metadata);
    for pair in details.sub_component_map.as_slice() {
        let key = count_text(0, 1, &pair.key);
        let entry = count_part(key, 2, details_len(&pair.value));
        total = count_part(total, 2, entry);
    }
    total
}

fn details_deepest(details: &ComponentDetails) -> u64
    ensures levels { result ≡ min (deepest (details_columns details.now)) 100 }
{
    let metadata = depth_many(&details.metadata);
    let mut most = 0u64;
    for pair in details.sub_component_map.as_slice() {
        most = most.max((2 + details_deepest(&pair.value)).min(100));
    }
    metadata.max(most)
}

// Appends the metadata. That its bytes are fewer than 2^62 is a premise, as it is of `put_details`; here they are counted.
#[tactic(auto, unfolding(message_codec::specs::Canonical::plus_length))]
fn put_metadata(out: &mut Out, metadata: &List<KeyValue>) -> Result<(), NoMemory>
    ensures puts { length (column_bytes 1 (tables.Many tables.KeyValue) (Several (each_of pair_columns metadata.now))) < 2 ^ 62 → Puts out.old out.new (column_bytes 1 (tables.Many tables.KeyValue) (Several (each_of pair_columns metadata.now))) result }
{
    if count_many(0, 1, metadata) >= LENGTH_LIMIT {
        return Err(NoMemory);
    }
    put_many(out, 1, metadata)
}

// Appends an entry of the components up to its value.
fn put_entry_head(out: &mut Out, key: &Text, value: &ComponentDetails) -> Result<(), NoMemory>
    ensures puts { length (part_spelling 2 (canonical (tables.Entry tables.ComponentDetails) (entry_of details_columns (record { key = key.now; value = value.now })))) < 2 ^ 62 → Puts out.old out.new (entry_head 2 (column_bytes 1 tables.Text (Content key.now)) (canonical tables.ComponentDetails (details_columns value.now))) result }
{
    let len = details_len(value);
    let entry = count_part(count_text(0, 1, key), 2, len);
    put_head(out, 2, entry)?;
    put_text(out, 1, key)?;
    put_head(out, 2, len)
}

// Appends the canonical bytes. That they are fewer than 2^62 is a premise, since a recursion has no `requires` that its own calls prove.
fn put_details(out: &mut Out, details: &ComponentDetails) -> Result<(), NoMemory>
    ensures puts { length (canonical tables.ComponentDetails (details_columns details.now)) < 2 ^ 62 → Puts out.old out.new (canonical tables.ComponentDetails (details_columns details.now)) result }
{
    put_metadata(out, &details.metadata)?;
    for pair in details.sub_component_map.as_slice() {
        put_entry_head(out, &pair.key, &pair.value)?;
        put_details(out, &pair.value)?;
    }
    Ok(())
}

impl Written<Agent> for ComponentDetails {
    ghost name = { tables.ComponentDetails };

    ghost columns = { details_columns };

    fn len(&self) -> u64 {
        details_len(self)
    }

    fn deepest(&self) -> u64 {
        details_deepest(self)
    }

    fn put(&self, out: &mut Out) -> Result<(), NoMemory> {
        put_details(out, self)
    }
}

impl Written<Agent> for AvailableComponents {
    ghost name = { tables.AvailableComponents };

    ghost columns = { available_components_columns };

    #[tactic(auto, using(message_codec::proofs::Canonical::count_first, message_codec::proofs::Canonical::count_more))]
    fn len(&self) -> u64 {
        let total = count_map(0, 1, &self.components);
        count_blob(total, 2, &self.hash)
    }

    fn deepest(&self) -> u64 {
        depth_map(&self.components)
    }

    fn put(&self, out: &mut Out) -> Result<(), NoMemory> {
        put_map(out, 1, &self.components)?;
        put_blob(out, 2, &self.hash)
    }
}
