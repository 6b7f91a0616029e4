ghost use Rattle.std.specs.Prelude.{◌≡◌, ◌↔◌, ℕ, List, Bool, true, false, IsTrue, IfOk, IfSome, IsSome, Some, is_some};
ghost use Rattle.std.specs.Option.{option_map, option_copied};
ghost use Rattle.std.specs.Coded.{Coded};
ghost use Rattle.message_values.specs.contracts.attributes.AgentDescription as description;
ghost use Rattle.message_values.specs.contracts.config.EffectiveConfig as effective;
ghost use Rattle.message_values.specs.contracts.config.RemoteConfigStatus as remote;
ghost use Rattle.message_values.specs.contracts.health.ComponentHealth as health;
ghost use Rattle.message_values.specs.declared.report.AgentToServer.{AgentToServer};
ghost use Rattle.message_values.specs.declared.state.State.{State};
ghost use Rattle.message_deltas.specs.Obligations.{is_full, IsValidState};
ghost use Rattle.message_deltas.specs.Merging.{merged_state, state_of};
ghost use Rattle.message_deltas.specs.Sameness.{same, where_differs};
ghost use Rattle.message_deltas.specs.Deltas.{Details, DiffersInAll, IsDelta, MustBeWhole, delta_report, differs_in_all, differs_where, hash_carried, must_be_whole, told_under, whole_report};

use crate::obligations::obliged;
use message_values::{
    AgentDescription, AgentToServer, AvailableComponents, ComponentDetails, ComponentHealth,
    CustomCapabilities, EffectiveConfig, RemoteConfigStatus, State,
};
use plain_values::{Blob, Four, Map, NoMemory, Plain, Uid, copy_four};
use std::alloc::Global;

/// Whether no delta can say the change from the state reported before: the capabilities differ, or all obliged
/// parts do, so that a delta would be taken for a full report. A report that is `detailed` carries the components in any
/// case. Takes no memory.
pub fn must_be_whole(before: &State, now: &State, detailed: bool) -> bool
    ensures whole { result ≡ must_be_whole before.now now.now detailed }
    ensures exactly { IsTrue result ↔ MustBeWhole before.now now.now detailed }
{
    before.capabilities != now.capabilities || differ_in_all(before, now, detailed)
}

#[tactic(auto, unfolding(crate::specs::Deltas::differs_in_all))]
fn differ_in_all(before: &State, now: &State, detailed: bool) -> bool
    ensures { result ≡ differs_in_all before.now now.now detailed }
{
    let owes = obliged(now.capabilities);
    !is_same(&before.description, &now.description)
        && differ_where(owes.health, &before.health, &now.health)
        && differ_where(owes.effective, &before.effective, &now.effective)
        && differ_where(owes.remote, &before.remote, &now.remote)
        && differ_where(owes.packages, &before.packages, &now.packages)
        && differ_where(
            owes.components && !detailed,
            &before.components,
            &now.components,
        )
}

#[tactic(auto, unfolding(crate::specs::Deltas::differs_where))]
fn differ_where<T: Plain>(owed: bool, before: &Option<T>, now: &Option<T>) -> bool
    ensures { (code : Coded T) → result ≡ differs_where owed code before.now now.now }
{
    !owed || !is_same(before, now)
}

fn is_same<T: Plain>(value: &T, other: &T) -> bool
    ensures { (code : Coded T) → result ≡ same code value.now other.now }
{
    value.same(other)
}

/// The report, under that number, of each part that the state has. The state need not be valid.
pub fn full(
    alloc: Global,
    uid: &Uid,
    number: u64,
    state: &State,
    details: Option<&Map<ComponentDetails>>,
) -> Result<AgentToServer, NoMemory>
    requires details { IfSome (option_copied details) (λ _. IsSome state.now.components) }
    ensures report { IfOk result (λ report. report ≡ whole_report uid.now number state.now (option_copied details.entry)) }
{
    let parts = copy_four(
        alloc,
        &state.health,
        &state.effective,
        &state.remote,
        &state.packages,
    )?;
    let heading = heading(alloc, uid, state, details)?;
    let (health, effective_config, remote_config_status, package_statuses) = parts.into_parts();
    let (instance_uid, description, custom, available_components) = heading.into_parts();
    Ok(AgentToServer {
        instance_uid,
        sequence_num: number,
        agent_description: Some(description),
        capabilities: state.capabilities,
        health,
        effective_config,
        remote_config_status,
        package_statuses,
        agent_disconnect: None,
        flags: 0,
        custom_capabilities: Some(custom),
        custom_message: None,
        available_components,
    })
}

/// The report, under that number, of exactly what differs from the state reported before.
pub fn delta(
    alloc: Global,
    uid: &Uid,
    number: u64,
    before: &State,
    now: &State,
    details: Option<&Map<ComponentDetails>>,
) -> Result<AgentToServer, NoMemory>
    requires details { IfSome (option_copied details) (λ _. IsSome now.now.components) }
    ensures report { IfOk result (λ report. report ≡ delta_report uid.now number before.now now.now (option_copied details.entry)) }
{
    let parts = changes(alloc, before, now)?;
    let package_statuses = optional_change(alloc, &before.packages, &now.packages)?;
    let custom_capabilities = change(alloc, &before.custom, &now.custom)?;
    let available_components = components_change(alloc, before, now, details)?;
    let instance_uid = uid_bytes(alloc, uid)?;
    let (agent_description, health, effective_config, remote_config_status) = parts.into_parts();
    Ok(AgentToServer {
        instance_uid,
        sequence_num: number,
        agent_description,
        capabilities: now.capabilities,
        health,
        effective_config,
        remote_config_status,
        package_statuses,
        agent_disconnect: None,
        flags: 0,
        custom_capabilities,
        custom_message: None,
        available_components,
    })
}

/// Law: a report of changes carries exactly what differs from the state reported before.
pub fn delta_carries_changes()
    ensures exactly { (uid : List ℕ) (number : ℕ) (before now : State) (details : Details)
        → IsDelta uid number before now details (delta_report uid number before now details) }
{}

/// Law: the test whether a report must be whole is exact, and one that need not be has the capabilities reported before.
pub fn must_be_whole_is_exact()
    ensures all { (before now : State) (detailed : Bool) → (IsTrue (differs_in_all before now detailed) ↔ DiffersInAll before now detailed) }
    ensures exactly { (before now : State) (detailed : Bool) → (IsTrue (must_be_whole before now detailed) ↔ MustBeWhole before now detailed) }
    ensures capabilities { (before now : State) (detailed : Bool) → must_be_whole before now detailed ≡ false → before.capabilities ≡ now.capabilities }
{}

/// Law: a delta merged into the state that it stands on gives the state that it reports.
pub fn merge_of_delta()
    ensures merged { (uid : List ℕ) (number : ℕ) (before now : State) (details : Details)
        → IsValidState before → IsValidState now → before.capabilities ≡ now.capabilities
        → IfSome details (λ _. IsSome now.components)
        → merged_state before (delta_report uid number before now details) ≡ now }
{}

/// Law: no server takes a delta for a full report.
pub fn delta_is_not_full()
    ensures not_full { (uid : List ℕ) (number : ℕ) (before now : State) (details : Details)
        → must_be_whole before now (is_some details) ≡ false → is_full (delta_report uid number before now details) ≡ false }
{}

/// Law: the whole report of a valid state is full, and says that state, by itself or merged into another one.
pub fn whole_report_is_full()
    ensures full { (uid : List ℕ) (number : ℕ) (s : State) (details : Details) → IsValidState s → is_full (whole_report uid number s details) ≡ true }
    ensures state { (uid : List ℕ) (number : ℕ) (s : State) (details : Details) → state_of (whole_report uid number s details) ≡ s }
    ensures merged { (uid : List ℕ) (number : ℕ) (before now : State) (details : Details)
        → IsValidState before → IsValidState now → before.capabilities ≡ now.capabilities
        → merged_state before (whole_report uid number now details) ≡ now }
{}

fn uid_bytes(alloc: Global, uid: &Uid) -> Result<Blob, NoMemory>
    ensures bytes { IfOk result (λ bytes. bytes ≡ uid.now) }
{
    Blob::from_slice(alloc, uid.as_slice())
}

fn change<T: Plain>(alloc: Global, before: &T, now: &T) -> Result<Option<T>, NoMemory>
    ensures { (code : Coded T) → IfOk result (λ change. change ≡ where_differs code (Some before.now) (Some now.now)) }
{
    if is_same(before, now) {
        Ok(None)
    } else {
        Ok(Some(now.copy(alloc)?))
    }
}

fn optional_change<T: Plain>(
    alloc: Global,
    before: &Option<T>,
    now: &Option<T>,
) -> Result<Option<T>, NoMemory>
    ensures { (code : Coded T) → IfOk result (λ change. change ≡ where_differs code before.now now.now) }
{
    if is_same(before, now) {
        Ok(None)
    } else {
        now.copy(alloc)
    }
}

// The parts of a whole report that stand beside the optional ones: the identifier, the description, the custom capabilities and the components.
fn heading(
    alloc: Global,
    uid: &Uid,
    state: &State,
    details: Option<&Map<ComponentDetails>>,
) -> Result<Four<Blob, AgentDescription, CustomCapabilities, Option<AvailableComponents>>, NoMemory>
    ensures parts { IfOk result (λ parts. parts ≡ record {
      first = uid.now;
      second = state.now.description;
      third = state.now.custom;
      fourth = option_map (told_under (option_copied details.entry)) state.now.components;
    }) }
{
    Ok(Four {
        first: uid_bytes(alloc, uid)?,
        second: state.description.copy(alloc)?,
        third: state.custom.copy(alloc)?,
        fourth: told_with(alloc, details, state.components.copy(alloc)?)?,
    })
}

// What differs of the description, the health and the configuration.
fn changes(
    alloc: Global,
    before: &State,
    now: &State,
) -> Result<
    Four<
        Option<AgentDescription>,
        Option<ComponentHealth>,
        Option<EffectiveConfig>,
        Option<RemoteConfigStatus>,
    >,
    NoMemory,
>
    ensures parts { IfOk result (λ parts. parts ≡ record {
      first = where_differs description.the_row.coded (Some before.now.description) (Some now.now.description);
      second = where_differs health.the_row.coded before.now.health now.now.health;
      third = where_differs effective.the_row.coded before.now.effective now.now.effective;
      fourth = where_differs remote.the_row.coded before.now.remote now.now.remote;
    }) }
{
    Ok(Four {
        first: change(alloc, &before.description, &now.description)?,
        second: optional_change(alloc, &before.health, &now.health)?,
        third: optional_change(alloc, &before.effective, &now.effective)?,
        fourth: optional_change(alloc, &before.remote, &now.remote)?,
    })
}

// The components under the hash, where there is one.
fn told_with(
    alloc: Global,
    details: Option<&Map<ComponentDetails>>,
    hash: Option<Blob>,
) -> Result<Option<AvailableComponents>, NoMemory>
    ensures told { IfOk result (λ told. told ≡ option_map (told_under (option_copied details.entry)) hash) }
{
    match hash {
        Some(hash) => Ok(Some(told_under(alloc, details, hash)?)),
        None => Ok(None),
    }
}

// The components under their hash.
fn told_under(
    alloc: Global,
    details: Option<&Map<ComponentDetails>>,
    hash: Blob,
) -> Result<AvailableComponents, NoMemory>
    ensures told { IfOk result (λ told. told ≡ told_under (option_copied details.entry) hash) }
{
    let components = match details {
        Some(details) => details.copy(alloc)?,
        None => Map::new(alloc),
    };
    Ok(AvailableComponents { components, hash })
}

#[tactic(auto, unfolding(crate::specs::Deltas::hash_carried))]
fn hash_carried(
    alloc: Global,
    before: &State,
    now: &State,
    detailed: bool,
) -> Result<Option<Blob>, NoMemory>
    ensures hash { IfOk result (λ hash. hash ≡ hash_carried detailed before.now.components now.now.components) }
{
    if detailed {
        now.components.copy(alloc)
    } else {
        optional_change(alloc, &before.components, &now.components)
    }
}

fn components_change(
    alloc: Global,
    before: &State,
    now: &State,
    details: Option<&Map<ComponentDetails>>,
) -> Result<Option<AvailableComponents>, NoMemory>
    ensures carried { IfOk result (λ carried. carried ≡ option_map (told_under (option_copied details.entry)) (hash_carried (is_some (option_copied details.entry)) before.now.components now.now.components)) }
{
    let hash = hash_carried(alloc, before, now, details.is_some())?;
    told_with(alloc, details, hash)
}
