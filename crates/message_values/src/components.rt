ghost use Rattle.std.specs.Prelude.{◌≡◌, ◌↔◌, IsTrue, IfOk};
ghost use Rattle.message_values.specs.declared.components.ComponentDetails.{out-ComponentDetails};

use crate::attributes::KeyValue;
use plain_values::{Blob, List, Map, NoMemory, Pair, Plain};
use std::alloc::Global;

/// A component that an agent can have, and those within it (OpAMP specification, "ComponentDetails Message").
#[derive(Drop)]
pub struct ComponentDetails {
    /// What is told of the component, as its version or its place of origin.
    pub metadata: List<KeyValue>,
    /// The components within it by their names.
    pub sub_component_map: Map<ComponentDetails>,
}

/// The components that an agent can have (OpAMP specification, "AvailableComponents Message").
#[derive(Drop)]
pub struct AvailableComponents {
    /// The components by their names.
    pub components: Map<ComponentDetails>,
    /// The agent's hash of all of them.
    pub hash: Blob,
}

impl Plain for ComponentDetails {
    fn copy(&self, alloc: Global) -> Result<ComponentDetails, NoMemory> {
        copy_details(alloc, self)
    }

    fn same(&self, other: &ComponentDetails) -> bool {
        same_details(self, other)
    }
}

impl Plain for AvailableComponents {
    fn copy(&self, alloc: Global) -> Result<AvailableComponents, NoMemory> {
        Ok(AvailableComponents {
            components: self.components.copy(alloc)?,
            hash: self.hash.copy(alloc)?,
        })
    }

    fn same(&self, other: &AvailableComponents) -> bool {
        self.components.same(&other.components) && self.hash.same(&other.hash)
    }
}

// A recursion cannot go through `Map<T>::copy`, whose call at a value is one through a bound.
fn copy_details(alloc: Global, details: &ComponentDetails) -> Result<ComponentDetails, NoMemory>
    ensures { IfOk result (λ copied. copied ≡ details.now) }
{
    let mut components = Vec::new(alloc);
    for pair in details.sub_component_map.as_slice() {
        let key = pair.key.copy(alloc)?;
        let value = copy_details(alloc, &pair.value)?;
        components.push(Pair { key, value })?;
    }
    copy_around(alloc, details, Map::from_ascending(components))
}

// A copy of what is told beside the components within, round a copy of these.
#[tactic(auto, using(crate::proofs::FieldLemmas::equal_component_details, std::proofs::lemmas::Grind::common_steps))]
fn copy_around(
    alloc: Global,
    details: &ComponentDetails,
    components: Map<ComponentDetails>,
) -> Result<ComponentDetails, NoMemory>
    requires within { components ≡ (out-ComponentDetails details.now).sub_component_map }
    ensures copied { IfOk result (λ copied. copied ≡ details.now) }
{
    let metadata = details.metadata.copy(alloc)?;
    Ok(ComponentDetails {
        metadata,
        sub_component_map: components,
    })
}

#[tactic(auto, using(crate::proofs::FieldLemmas::equal_component_details, std::proofs::lemmas::Grind::common_steps))]
fn same_details(details: &ComponentDetails, other: &ComponentDetails) -> bool
    ensures { IsTrue result ↔ (details.now ≡ other.now) }
{
    let components = details.sub_component_map.as_slice();
    let others = other.sub_component_map.as_slice();
    if components.len() != others.len() {
        return false;
    }
    for i in 0..components.len() {
        let (pair, that) = (&components[i], &others[i]);
        if !(pair.key.same(&that.key) && same_details(&pair.value, &that.value)) {
            return false;
        }
    }
    details.metadata.same(&other.metadata)
}
