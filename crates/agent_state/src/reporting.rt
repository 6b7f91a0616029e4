//! What a report of an agent is made from.

ghost use Rattle.std.specs.Prelude.{◌≡◌, true, false, not, ◌&&◌, IfOk, IfErr, OnOk, IsErrOf};
ghost use Rattle.std.specs.Option.{option_copied};
ghost use Rattle.message_reports.specs.Reports.{canonical_report, MeansReport};
ghost use Rattle.agent_rules.specs.Reports.{basis_for, fits_bytes, fits_message, state_of_agent, where_true};
ghost use Rattle.agent_rules.specs.Half.{is_news};

use agent_rules::{LocalState, Saved};
use message_codec::writer::encoding::WriteFail;
use message_deltas::{Obliged, must_be_whole, obliged};
use message_reports::encoding::encode_report;
use message_values::{
    AgentDescription, AgentToServer, ComponentHealth, CustomCapabilities, EffectiveConfig,
    PackageStatuses, RemoteConfigStatus, State,
};
use plain_values::{Blob, NoMemory, Plain};
use std::alloc::Global;

/// The agent's state: what it knows of itself and what it keeps, as far as its capabilities oblige to it.
pub(crate) fn state_of_agent(
    alloc: Global,
    local: &LocalState,
    saved: &Saved,
) -> Result<State, NoMemory>
    ensures state { IfOk result (λ state. state ≡ state_of_agent local.now saved.now) }
{
    let owes = obliged(local.capabilities);
    let (remote, packages) = kept_parts(alloc, owes, saved)?;
    let (health, effective, components) = local_parts(alloc, owes, local)?;
    let (description, custom) = names_of(alloc, local)?;
    Ok(State {
        description,
        capabilities: local.capabilities,
        health,
        effective,
        remote,
        packages,
        components,
        custom,
    })
}

// What the agent keeps, as far as it owes it.
fn kept_parts(
    alloc: Global,
    owes: Obliged,
    saved: &Saved,
) -> Result<(Option<RemoteConfigStatus>, Option<PackageStatuses>), NoMemory>
    ensures remote { IfOk result (λ parts. parts.0 ≡ where_true owes.remote saved.now.remote) }
    ensures packages { IfOk result (λ parts. parts.1 ≡ where_true owes.packages saved.now.packages) }
{
    let remote = where_true(alloc, owes.remote, &saved.remote)?;
    let packages = where_true(alloc, owes.packages, &saved.packages)?;
    Ok((remote, packages))
}

// What it knows of itself, as far as it owes it.
fn local_parts(
    alloc: Global,
    owes: Obliged,
    local: &LocalState,
) -> Result<
    (
        Option<ComponentHealth>,
        Option<EffectiveConfig>,
        Option<Blob>,
    ),
    NoMemory,
>
    ensures health { IfOk result (λ parts. parts.0 ≡ where_true owes.health local.now.health) }
    ensures effective { IfOk result (λ parts. parts.1 ≡ where_true owes.effective local.now.effective) }
    ensures components { IfOk result (λ parts. parts.2 ≡ where_true owes.components local.now.components.hash) }
{
    let health = where_true(alloc, owes.health, &local.health)?;
    let effective = where_true(alloc, owes.effective, &local.effective)?;
    let components = where_true(alloc, owes.components, &local.components.hash)?;
    Ok((health, effective, components))
}

// What it always reports: what it is, and its custom capabilities.
fn names_of(
    alloc: Global,
    local: &LocalState,
) -> Result<(AgentDescription, CustomCapabilities), NoMemory>
    ensures description { IfOk result (λ parts. parts.0 ≡ local.now.description) }
    ensures custom { IfOk result (λ parts. parts.1 ≡ local.now.custom) }
{
    let description = local.description.copy(alloc)?;
    let custom = local.custom.copy(alloc)?;
    Ok((description, custom))
}

fn where_true<T: Plain>(alloc: Global, holds: bool, value: &T) -> Result<Option<T>, NoMemory>
    ensures part { IfOk result (λ part. part ≡ where_true holds value.now) }
{
    if holds {
        Ok(Some(value.copy(alloc)?))
    } else {
        Ok(None)
    }
}

/// The state reported last, where a report of the changes from it will do. Takes no memory.
pub(crate) fn basis_for<'a>(
    linked: bool,
    last: &'a Option<State>,
    now: &State,
    detailed: bool,
) -> Option<&'a State>
    ensures basis { option_copied result ≡ basis_for linked last.now now.now detailed }
{
    match last {
        Some(last) => {
            if linked && !must_be_whole(last, now, detailed) {
                Some(last)
            } else {
                None
            }
        }
        None => None,
    }
}

/// Whether the hash of components was kept, and is no longer theirs. Takes no memory.
pub(crate) fn is_news(kept: &Blob, now: &Blob) -> bool
    ensures news { result ≡ is_news kept.now now.now }
{
    !kept.as_slice().is_empty() && kept.as_slice() != now.as_slice()
}

/// The message's canonical bytes.
#[tactic(auto, using(crate::proofs::FittingLemmas::short, crate::proofs::FittingLemmas::long, crate::proofs::FittingLemmas::fit, crate::proofs::FittingLemmas::too_large, crate::proofs::FittingLemmas::too_deep))]
pub(crate) fn encoded(alloc: Global, message: &AgentToServer) -> Result<Blob, WriteFail>
    ensures bytes { IfOk result (λ bytes. bytes ≡ canonical_report message.now) }
    ensures means { IfOk result (λ bytes. MeansReport bytes message.now) }
    ensures small { OnOk result (fits_bytes message.now ≡ true) }
    ensures fits { OnOk result (fits_message message.now ≡ true) }
    ensures large { IsErrOf result WriteFail.TooLarge → fits_bytes message.now ≡ false }
    ensures too_large { IsErrOf result WriteFail.TooLarge → fits_message message.now ≡ false }
    ensures short { IsErrOf result WriteFail.TooDeep → fits_bytes message.now ≡ true }
    ensures deep { IsErrOf result WriteFail.TooDeep → fits_message message.now ≡ false }
{
    encode_report(alloc, message)
}
