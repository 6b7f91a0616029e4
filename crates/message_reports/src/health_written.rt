//! A component's health in canonical form (OpAMP specification, "ComponentHealth Message").

ghost use Rattle.std.specs.Prelude.{◌≡◌, ◌<◌, ◌≤◌, ◌^◌, [], length, min};
ghost use Rattle.message_codec.specs.Filling.{HasPlace, Fills};
ghost use Rattle.message_codec.specs.Tables as tables;
ghost use Rattle.message_codec.specs.Read.{one_of};
ghost use Rattle.message_codec.specs.Canonical.{canonical, canonical_onto, capped, column_bytes, part_spelling, Puts};
ghost use Rattle.message_codec.specs.Fits.{FitsMessage};
ghost use Rattle.message_codec.specs.Levels.{deepest};
ghost use Rattle.message_reports.specs.HealthColumns.{front_columns, front_rows, health_columns};

use crate::Agent;
use message_codec::wire::Out;
use message_codec::writer::counting::{count_fixed, count_part, count_text, count_truth};
use message_codec::writer::filling::{fill_fixed, fill_head, fill_text, fill_truth};
use message_codec::writer::putting::put_head;
use message_codec::writer::written::Written;
use message_values::ComponentHealth;
use plain_values::NoMemory;

// A recursion may not go through a trait's method, so the components are gone over by plain functions.
fn health_len(health: &ComponentHealth) -> u64
    ensures bound { result ≤ 2 ^ 62 }
    ensures counts { result ≡ capped (canonical tables.ComponentHealth (health_columns health.now)) }
    ensures fits { FitsMessage tables.ComponentHealth (health_columns health.now) }
{
    let healthy = count_truth(0, 1, health.healthy);
    let start = count_fixed(healthy, 2, health.start_time_unix_nano);
    let error = count_text(start, 3, &health.last_error);
    let status = count_text(error, 4, &health.status);
    let mut total = count_fixed(status, 5, health.status_time_unix_nano);
    for pair in health.component_health_map.as_slice() {
        let key = count_text(0, 1, &pair.key);
        let entry = count_part(key, 2, health_len(&pair.value));
        total = count_part(total, 6, entry);
    }
    total
}

fn health_deepest(health: &ComponentHealth) -> u64
    ensures levels { result ≡ min (deepest (health_columns health.now)) 100 }
{
    let mut most = 0u64;
    for pair in health.component_health_map.as_slice() {
        most = most.max((2 + health_deepest(&pair.value)).min(100));
    }
    most
}

// Writes the columns before the components. Each function here writes over a place that was made, and answers where its bytes begin.
fn fill_front(out: &mut Out, end: u64, health: &ComponentHealth) -> u64
    ensures fills { HasPlace out.old end (canonical_onto [] front_rows (front_columns health.now)) → Fills out.old out.new end (canonical_onto [] front_rows (front_columns health.now)) result }
{
    let status_time = fill_fixed(out, end, 5, health.status_time_unix_nano);
    let status = fill_text(out, status_time, 4, &health.status);
    let error = fill_text(out, status, 3, &health.last_error);
    let start = fill_fixed(out, error, 2, health.start_time_unix_nano);
    fill_truth(out, start, 1, health.healthy)
}

// Writes a health from its end to its front, so that the length of a component is never measured again. That the place is there is a premise,
// since a recursion has no `requires` that its own calls prove.
fn fill_health(out: &mut Out, end: u64, health: &ComponentHealth) -> u64
    ensures fills { HasPlace out.old end (canonical tables.ComponentHealth (health_columns health.now)) → Fills out.old out.new end (canonical tables.ComponentHealth (health_columns health.now)) result }
{
    let components = health.component_health_map.as_slice();
    let mut at = end;
    let mut left = components.len();
    while left > 0 {
        left -= 1;
        let pair = &components[left];
        let start = fill_health(out, at, &pair.value);
        let value = fill_head(out, start, at, 2);
        let entry = fill_text(out, value, 1, &pair.key);
        at = fill_head(out, entry, at, 6);
    }
    fill_front(out, at, health)
}

// Makes the place of a health that was measured, and writes it there.
fn put_measured(out: &mut Out, health: &ComponentHealth, len: u64) -> Result<(), NoMemory>
    requires few { length (canonical tables.ComponentHealth (health_columns health.now)) < 2 ^ 62 }
    requires measured { len ≡ capped (canonical tables.ComponentHealth (health_columns health.now)) }
    ensures puts { Puts out.old out.new (canonical tables.ComponentHealth (health_columns health.now)) result }
{
    out.append_zeros(len)?;
    let end = out.as_slice().len() as u64;
    fill_health(out, end, health);
    Ok(())
}

// Appends a health as a field. It is measured once, for its head and for its place.
fn put_part(out: &mut Out, number: u32, health: &ComponentHealth) -> Result<(), NoMemory>
    requires few { length (part_spelling number (canonical tables.ComponentHealth (health_columns health.now))) < 2 ^ 62 }
    ensures puts { Puts out.old out.new (part_spelling number (canonical tables.ComponentHealth (health_columns health.now))) result }
{
    let len = health_len(health);
    put_head(out, number, len)?;
    put_measured(out, health, len)
}

/// Appends a health that is present, also an empty one; an absent one is left out. It is what `put_one` writes, which measures it twice.
#[tactic(auto, using(message_codec::proofs::Canonical::length_alone, message_codec::proofs::Canonical::appended_after))]
pub(crate) fn put_health(
    out: &mut Out,
    number: u32,
    value: &Option<ComponentHealth>,
) -> Result<(), NoMemory>
    requires few { length (column_bytes number (tables.One tables.ComponentHealth) (one_of health_columns value.now)) < 2 ^ 62 }
    ensures puts { Puts out.old out.new (column_bytes number (tables.One tables.ComponentHealth) (one_of health_columns value.now)) result }
{
    if let Some(health) = value {
        put_part(out, number, health)?;
    }
    Ok(())
}

impl Written<Agent> for ComponentHealth {
    ghost name = { tables.ComponentHealth };

    ghost columns = { health_columns };

    fn len(&self) -> u64 {
        health_len(self)
    }

    fn deepest(&self) -> u64 {
        health_deepest(self)
    }

    fn put(&self, out: &mut Out) -> Result<(), NoMemory> {
        put_measured(out, self, health_len(self))
    }
}
