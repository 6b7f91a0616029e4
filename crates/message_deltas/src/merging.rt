ghost use Rattle.std.specs.Prelude.{◌≡◌, unwrap_or, IfOk, OnOk, OnErr};
ghost use Rattle.std.specs.Option.{option_or};
ghost use Rattle.message_deltas.specs.Obligations.{IsFull};
ghost use Rattle.message_deltas.specs.Merging.{hash_in, carried_fields, empty_state, merged_state, state_of, state_with};

use crate::fields::CarriedFields;
use message_values::{
    AgentDescription, AgentToServer, AvailableComponents, CustomCapabilities, State,
};
use plain_values::{Blob, List, NoMemory, Plain, copy_four};
use std::alloc::Global;

/// A copy of the parts of a state that the report carries.
pub fn carried_fields(alloc: Global, report: &AgentToServer) -> Result<CarriedFields, NoMemory>
    ensures fields { IfOk result (λ fields. fields ≡ carried_fields report.now) }
{
    let parts = copy_four(
        alloc,
        &report.health,
        &report.effective_config,
        &report.remote_config_status,
        &report.package_statuses,
    )?;
    let description = report.agent_description.copy(alloc)?;
    let components = hash_in(alloc, &report.available_components)?;
    let custom = report.custom_capabilities.copy(alloc)?;
    let (health, effective, remote, packages) = parts.into_parts();
    Ok(CarriedFields {
        description,
        capabilities: report.capabilities,
        health,
        effective,
        remote,
        packages,
        components,
        custom,
    })
}

/// Puts the carried fields in place of the state's own. Takes no memory.
pub fn replace(state: &mut State, fields: CarriedFields)
    ensures state { state.new ≡ state_with state.old fields }
{
    let CarriedFields {
        description,
        capabilities,
        health,
        effective,
        remote,
        packages,
        components,
        custom,
    } = fields;
    state.capabilities = capabilities;
    put(&mut state.description, description);
    put_optional(&mut state.health, health);
    put_optional(&mut state.effective, effective);
    put_optional(&mut state.remote, remote);
    put_optional(&mut state.packages, packages);
    put_optional(&mut state.components, components);
    put(&mut state.custom, custom);
}

/// Merges a report into the state: each field that it carries replaces the state's own, and the others stay.
///
/// Want of memory leaves the state as it was.
pub fn merge(alloc: Global, state: &mut State, report: &AgentToServer) -> Result<(), NoMemory>
    ensures ok { OnOk result (state.new ≡ merged_state state.old report.now) }
    ensures err { OnErr result (state.new ≡ state.old) }
{
    let fields = carried_fields(alloc, report)?;
    replace(state, fields);
    Ok(())
}

/// Merges a report into the state, as `merge` does, by taking its fields out of it. What the report holds afterwards isn't told. Takes no memory.
pub fn merge_taken(state: &mut State, report: &mut AgentToServer)
    ensures state { state.new ≡ merged_state state.old report.old }
{
    state.capabilities = report.capabilities;
    swap_in(&mut state.description, &mut report.agent_description);
    swap_optional(&mut state.health, &mut report.health);
    swap_optional(&mut state.effective, &mut report.effective_config);
    swap_optional(&mut state.remote, &mut report.remote_config_status);
    swap_optional(&mut state.packages, &mut report.package_statuses);
    take_hash(&mut state.components, &mut report.available_components);
    swap_in(&mut state.custom, &mut report.custom_capabilities);
}

/// The state of which nothing was reported. Takes no memory.
pub fn empty_state(alloc: Global) -> State
    ensures state { result ≡ empty_state }
{
    State {
        description: AgentDescription {
            identifying_attributes: List::new(alloc),
            non_identifying_attributes: List::new(alloc),
        },
        capabilities: 0,
        health: None,
        effective: None,
        remote: None,
        packages: None,
        components: None,
        custom: CustomCapabilities {
            capabilities: List::new(alloc),
        },
    }
}

/// The state of which these fields were reported and no others. Takes no memory.
pub fn state_from(alloc: Global, fields: CarriedFields) -> State
    ensures state { result ≡ state_with empty_state fields }
{
    let mut state = empty_state(alloc);
    replace(&mut state, fields);
    state
}

/// The state that a full report says by itself. Absent custom capabilities are none.
pub fn state_of(alloc: Global, report: &AgentToServer) -> Result<State, NoMemory>
    requires full { IsFull report.now }
    ensures state { IfOk result (λ state. state ≡ state_of report.now) }
{
    Ok(state_from(alloc, carried_fields(alloc, report)?))
}

fn put<T: Drop>(value: &mut T, new: Option<T>)
    ensures value { value.new ≡ unwrap_or new value.old }
{
    if let Some(new) = new {
        *value = new;
    }
}

fn put_optional<T: Drop>(value: &mut Option<T>, new: Option<T>)
    ensures value { value.new ≡ option_or new value.old }
{
    if let Some(new) = new {
        *value = Some(new);
    }
}

fn swap_in<T>(value: &mut T, new: &mut Option<T>)
    ensures value { value.new ≡ unwrap_or new.old value.old }
{
    if let Some(new) = new {
        std::mem::swap(value, new);
    }
}

fn swap_optional<T>(value: &mut Option<T>, new: &mut Option<T>)
    ensures value { value.new ≡ option_or new.old value.old }
{
    if new.is_some() {
        std::mem::swap(value, new);
    }
}

fn hash_in(alloc: Global, carried: &Option<AvailableComponents>) -> Result<Option<Blob>, NoMemory>
    ensures hash { IfOk result (λ hash. hash ≡ hash_in carried.now) }
{
    match carried {
        Some(components) => Ok(Some(components.hash.copy(alloc)?)),
        None => Ok(None),
    }
}

fn take_hash(kept: &mut Option<Blob>, carried: &mut Option<AvailableComponents>)
    ensures kept { kept.new ≡ option_or (hash_in carried.old) kept.old }
{
    if let Some(
        AvailableComponents {
            components: _,
            hash,
        },
    ) = carried.take()
    {
        *kept = Some(hash);
    }
}
