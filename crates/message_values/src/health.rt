ghost use Rattle.std.specs.Prelude.{◌≡◌, ◌↔◌, IsTrue, IfOk};
ghost use Rattle.message_values.specs.declared.health.ComponentHealth.{out-ComponentHealth};

use plain_values::{Map, NoMemory, Pair, Plain, Text};
use std::alloc::Global;

/// How an agent or a component fares, with the components within it (OpAMP specification, "ComponentHealth Message").
#[derive(Drop)]
pub struct ComponentHealth {
    /// Whether it is up and healthy.
    pub healthy: bool,
    /// When it started, in nanoseconds since 1970-01-01 UTC; 0 where it is not up.
    pub start_time_unix_nano: u64,
    /// The last error, for people to read; empty where it is healthy.
    pub last_error: Text,
    /// Its status, in words of the component's own.
    pub status: Text,
    /// When the status was seen, in nanoseconds since 1970-01-01 UTC.
    pub status_time_unix_nano: u64,
    /// The components within it by their names.
    pub component_health_map: Map<ComponentHealth>,
}

impl Plain for ComponentHealth {
    fn copy(&self, alloc: Global) -> Result<ComponentHealth, NoMemory> {
        copy_health(alloc, self)
    }

    fn same(&self, other: &ComponentHealth) -> bool {
        same_health(self, other)
    }
}

// A recursion cannot go through `Map<T>::copy`, whose call at a value is one through a bound.
fn copy_health(alloc: Global, health: &ComponentHealth) -> Result<ComponentHealth, NoMemory>
    ensures { IfOk result (λ copied. copied ≡ health.now) }
{
    let mut components = Vec::new(alloc);
    for pair in health.component_health_map.as_slice() {
        let key = pair.key.copy(alloc)?;
        let value = copy_health(alloc, &pair.value)?;
        components.push(Pair { key, value })?;
    }
    copy_around(alloc, health, Map::from_ascending(components))
}

// A copy of what is told beside the components within, round a copy of these.
#[tactic(auto, using(crate::proofs::FieldLemmas::equal_component_health, std::proofs::lemmas::Grind::common_steps))]
fn copy_around(
    alloc: Global,
    health: &ComponentHealth,
    components: Map<ComponentHealth>,
) -> Result<ComponentHealth, NoMemory>
    requires within { components ≡ (out-ComponentHealth health.now).component_health_map }
    ensures copied { IfOk result (λ copied. copied ≡ health.now) }
{
    let last_error = health.last_error.copy(alloc)?;
    let status = health.status.copy(alloc)?;
    Ok(ComponentHealth {
        healthy: health.healthy,
        start_time_unix_nano: health.start_time_unix_nano,
        last_error,
        status,
        status_time_unix_nano: health.status_time_unix_nano,
        component_health_map: components,
    })
}

#[tactic(auto, using(crate::proofs::FieldLemmas::equal_component_health, std::proofs::lemmas::Grind::common_steps))]
fn same_health(health: &ComponentHealth, other: &ComponentHealth) -> bool
    ensures { IsTrue result ↔ (health.now ≡ other.now) }
{
    let components = health.component_health_map.as_slice();
    let others = other.component_health_map.as_slice();
    if components.len() != others.len() {
        return false;
    }
    for i in 0..components.len() {
        let (pair, that) = (&components[i], &others[i]);
        if !(pair.key.same(&that.key) && same_health(&pair.value, &that.value)) {
            return false;
        }
    }
    health.healthy == other.healthy
        && health.start_time_unix_nano == other.start_time_unix_nano
        && health.last_error.same(&other.last_error)
        && health.status.same(&other.status)
        && health.status_time_unix_nano == other.status_time_unix_nano
}
