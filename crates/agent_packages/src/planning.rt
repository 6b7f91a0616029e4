//! What is to be done for an offer of packages.

ghost use Rattle.std.specs.Prelude.{◌≡◌, ℤ, Bool, true, false, IfOk, is_some, map, filter, not};
ghost use Rattle.std.specs.Option.{option_copied};
ghost use Rattle.plain_values.specs.Pairs.{value_at};
ghost use Rattle.agent_packages.specs.Packages.{is_empty, is_installed, has_hash, is_same, is_same_offer, names_where, to_fetch, to_keep, to_remove};

use crate::plans::Plan;
use message_values::{PackageAvailable, PackageStatus, PackageStatuses, PackagesAvailable};
use plain_values::{Blob, List, Map, NoMemory, Pair, Plain, Text};
use std::alloc::Global;

/// What is to be done for the offer.
///
/// Where the offered all-packages hash isn't empty and is the held one, all held packages stay. Else an offered package stays
/// where its hash isn't empty and the package held under its name is Installed with that hash, and it is to be fetched where
/// not; a held package that isn't offered is to be removed.
pub fn plan(
    alloc: Global,
    held: &PackageStatuses,
    offered: &PackagesAvailable,
) -> Result<Plan, NoMemory>
    ensures fetch { IfOk result (λ plan. plan.fetch ≡ to_fetch held.now offered.now) }
    ensures same { IfOk result (λ plan. plan.same ≡ to_keep held.now offered.now) }
    ensures gone { IfOk result (λ plan. plan.gone ≡ to_remove held.now offered.now) }
{
    if is_held_offer(held, offered) {
        return Ok(Plan {
            fetch: List::new(alloc),
            same: all_names(alloc, held.packages.as_slice())?,
            gone: List::new(alloc),
        });
    }
    Ok(Plan {
        fetch: names_to_fetch(alloc, &held.packages, offered.packages.as_slice())?,
        same: names_to_keep(alloc, &held.packages, offered.packages.as_slice())?,
        gone: names_to_remove(alloc, held.packages.as_slice(), &offered.packages)?,
    })
}

// Whether the offer as a whole is the one that is held.
pub(crate) fn is_held_offer(held: &PackageStatuses, offered: &PackagesAvailable) -> bool
    ensures { result ≡ is_same_offer held.now offered.now }
{
    if holds_nothing(&offered.all_packages_hash) {
        return false;
    }
    offered
        .all_packages_hash
        .same(&held.server_provided_all_packages_hash)
}

fn holds_nothing(bytes: &Blob) -> bool
    ensures { result ≡ is_empty bytes.now }
{
    match bytes.as_slice() {
        [] => true,
        _ => false,
    }
}

// Whether the package that is held is installed with this hash.
fn is_installed_with(status: Option<&PackageStatus>, hash: &Blob) -> bool
    ensures { result ≡ has_hash (option_copied status.entry) hash.now }
{
    match status {
        Some(status) => is_zero(status.status) && status.agent_has_hash.same(hash),
        None => false,
    }
}

fn is_zero(status: i32) -> bool
    ensures { result ≡ is_installed status }
{
    status == 0
}

// Whether the offered package is the one that is held under its name.
pub(crate) fn is_held(held: &Map<PackageStatus>, item: &Pair<PackageAvailable>) -> bool
    ensures { result ≡ is_same held.now item.now }
{
    if holds_nothing(&item.value.hash) {
        return false;
    }
    is_installed_with(held.get(&item.key), &item.value.hash)
}

fn all_names(alloc: Global, packages: &[Pair<PackageStatus>]) -> Result<List<Text>, NoMemory>
    ensures { IfOk result (λ names. names ≡ map (λ item. item.key) packages.now) }
{
    let mut names = List::new(alloc);
    for item in packages {
        names.push(item.key.copy(alloc)?)?;
    }
    Ok(names)
}

fn names_to_fetch(
    alloc: Global,
    held: &Map<PackageStatus>,
    packages: &[Pair<PackageAvailable>],
) -> Result<List<Text>, NoMemory>
    ensures { IfOk result (λ names. names ≡ names_where (λ item. not (is_same held.now item)) packages.now) }
{
    let mut names = List::new(alloc);
    for item in packages {
        if !is_held(held, item) {
            names.push(item.key.copy(alloc)?)?;
        }
    }
    Ok(names)
}

fn names_to_keep(
    alloc: Global,
    held: &Map<PackageStatus>,
    packages: &[Pair<PackageAvailable>],
) -> Result<List<Text>, NoMemory>
    ensures { IfOk result (λ names. names ≡ names_where (is_same held.now) packages.now) }
{
    let mut names = List::new(alloc);
    for item in packages {
        if is_held(held, item) {
            names.push(item.key.copy(alloc)?)?;
        }
    }
    Ok(names)
}

fn names_to_remove(
    alloc: Global,
    packages: &[Pair<PackageStatus>],
    offered: &Map<PackageAvailable>,
) -> Result<List<Text>, NoMemory>
    ensures { IfOk result (λ names. names ≡ names_where (λ item. not (is_some (value_at offered.now item.key))) packages.now) }
{
    let mut names = List::new(alloc);
    for item in packages {
        if offered.get(&item.key).is_none() {
            names.push(item.key.copy(alloc)?)?;
        }
    }
    Ok(names)
}
