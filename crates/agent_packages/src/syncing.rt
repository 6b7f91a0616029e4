//! The doing of an offer of packages.

ghost use Rattle.std.specs.Prelude.{◌≡◌, List, IfOk, OnOk, true, false, [], ◌∷◌, ◌&&◌, filter, fold, not, is_some};
ghost use Rattle.std.specs.Str.{bytes_eq};
ghost use Rattle.plain_values.specs.Pairs.{put_pair, value_at};
ghost use Rattle.edge_devices.specs.declared.folders.Area.TheVariants.{Packages};
ghost use Rattle.edge_devices.specs.Folders.{SameAreas};
ghost use Rattle.agent_packages.specs.Due.{AsksOnly, IsDue, IsDueFetch, IsFetchedWrite, IsGoneRemove, IsOwnFetch, IsOwnWrite, IsRemoveOf, MakesOnly};
ghost use Rattle.agent_packages.specs.Packages.{is_same, is_same_offer};
ghost use Rattle.agent_packages.specs.Statuses.{status_after, status_left};
ghost use Rattle.agent_packages.specs.Touched.{KeepsOthers, fetched_names, gone_names, is_named, is_touched};
ghost use Rattle.agent_packages.specs.Visits.{IsCleared, IsSynced, IsVisited, RemovesSo, put_next, under};

use crate::install::{Ended, install};
use crate::planning::{is_held, is_held_offer};
use crate::statuses::{status_of, still_there};
use edge_devices::{Area, Dialer, Folder, FolderFail, name_good};
use message_values::{PackageAvailable, PackageStatus, PackageStatuses, PackagesAvailable};
use plain_values::{Map, NoMemory, Pair, Plain, Text};
use std::alloc::Global;

// Puts the status that a package had in the map, where it had one.
fn keep_status(
    alloc: Global,
    held: &Map<PackageStatus>,
    name: &Text,
    made: &mut Map<PackageStatus>,
) -> Result<(), NoMemory>
    ensures kept { OnOk result (made.new ≡ fold put_next made.old (under name.now (value_at held.now name.now))) }
{
    if let Some(status) = held.get(name) {
        made.put(name.copy(alloc)?, status.copy(alloc)?)?;
    }
    Ok(())
}

// Puts the status of a package that was to be fetched in the map.
fn put_status(
    alloc: Global,
    held: &Map<PackageStatus>,
    item: &Pair<PackageAvailable>,
    ended: Ended,
    made: &mut Map<PackageStatus>,
) -> Result<(), NoMemory>
    ensures put { OnOk result (made.new ≡ put_pair made.old item.now.key (status_after item.now.key item.now.value (value_at held.now item.now.key) ended)) }
{
    let status = status_of(alloc, &item.key, &item.value, held.get(&item.key), ended)?;
    made.put(item.key.copy(alloc)?, status)?;
    Ok(())
}

// Visits a package of the offer, and puts its status in the map.
fn visit<G: Dialer, F: Folder>(
    alloc: Global,
    dialer: &mut G,
    folder: &mut F,
    held: &Map<PackageStatus>,
    item: &Pair<PackageAvailable>,
    made: &mut Map<PackageStatus>,
) -> Result<(), NoMemory>
    ensures visited { OnOk result (IsVisited (G.state dialer.old) (G.state dialer.new) (F.state folder.old) (F.state folder.new) held.now (item.now ∷ []) made.old made.new) }
    ensures others { SameAreas Packages (F.state folder.old).files (F.state folder.new).files }
    ensures kept { KeepsOthers (λ name. not (is_same held.now item.now) && bytes_eq item.now.key name) (F.state folder.old) (F.state folder.new) }
    ensures only { MakesOnly (IsOwnWrite held.now item.now) (F.state folder.old) (F.state folder.new) }
    ensures fetches { AsksOnly (IsOwnFetch held.now item.now) (G.state dialer.old) (G.state dialer.new) }
{
    if is_held(held, item) {
        return keep_status(alloc, held, &item.key, made);
    }
    let ended = install(alloc, dialer, folder, &item.key, &item.value)?;
    put_status(alloc, held, item, ended, made)
}

// Visits the packages of the offer, in their order.
fn visit_all<G: Dialer, F: Folder>(
    alloc: Global,
    dialer: &mut G,
    folder: &mut F,
    held: &Map<PackageStatus>,
    items: &[Pair<PackageAvailable>],
    made: &mut Map<PackageStatus>,
) -> Result<(), NoMemory>
    ensures visited { OnOk result (IsVisited (G.state dialer.old) (G.state dialer.new) (F.state folder.old) (F.state folder.new) held.now items.now made.old made.new) }
    ensures others { SameAreas Packages (F.state folder.old).files (F.state folder.new).files }
    ensures kept { KeepsOthers (is_named (fetched_names held.now items.now)) (F.state folder.old) (F.state folder.new) }
    ensures only { MakesOnly (IsFetchedWrite held.now items.now) (F.state folder.old) (F.state folder.new) }
    ensures fetches { AsksOnly (IsDueFetch held.now items.now) (G.state dialer.old) (G.state dialer.new) }
{
    for item in items {
        visit(alloc, dialer, folder, held, item, made)?;
    }
    Ok(())
}

// Removes the file of a package that is not offered any more, and says whether its status is left out.
fn leaves_out<F: Folder>(alloc: Global, folder: &mut F, name: &Text) -> Result<bool, NoMemory>
    ensures removed { IfOk result (RemovesSo (F.state folder.old) (F.state folder.new) name.now) }
    ensures others { SameAreas Packages (F.state folder.old).files (F.state folder.new).files }
    ensures kept { KeepsOthers (bytes_eq name.now) (F.state folder.old) (F.state folder.new) }
    ensures only { MakesOnly (IsRemoveOf name.now) (F.state folder.old) (F.state folder.new) }
{
    if !name_good(name.as_str()) {
        return Ok(true);
    }
    match folder.remove(alloc, Area::Packages, name) {
        Ok(()) => Ok(true),
        Err(FolderFail::Fault) => Ok(false),
        Err(FolderFail::NoMemory) => Err(NoMemory),
    }
}

// Puts the status of a package whose file could not be removed in the map.
fn leave_status(
    alloc: Global,
    item: &Pair<PackageStatus>,
    made: &mut Map<PackageStatus>,
) -> Result<(), NoMemory>
    ensures put { OnOk result (made.new ≡ put_pair made.old item.now.key (status_left item.now.value)) }
{
    let status = still_there(alloc, &item.value)?;
    made.put(item.key.copy(alloc)?, status)?;
    Ok(())
}

// Removes a package that is not offered any more. Where that fails its status stays in the map.
fn clear<F: Folder>(
    alloc: Global,
    folder: &mut F,
    item: &Pair<PackageStatus>,
    made: &mut Map<PackageStatus>,
) -> Result<(), NoMemory>
    ensures cleared { OnOk result (IsCleared (F.state folder.old) (F.state folder.new) (item.now ∷ []) made.old made.new) }
    ensures others { SameAreas Packages (F.state folder.old).files (F.state folder.new).files }
    ensures kept { KeepsOthers (bytes_eq item.now.key) (F.state folder.old) (F.state folder.new) }
    ensures only { MakesOnly (IsRemoveOf item.now.key) (F.state folder.old) (F.state folder.new) }
{
    if leaves_out(alloc, folder, &item.key)? {
        return Ok(());
    }
    leave_status(alloc, item, made)
}

// Whether a package of that name is offered.
fn is_offered(offered: &Map<PackageAvailable>, name: &Text) -> bool
    ensures { result ≡ is_some (value_at offered.now name.now) }
{
    match offered.get(name) {
        Some(_) => true,
        None => false,
    }
}

// Removes the packages that are not offered any more, in their order.
fn clear_all<F: Folder>(
    alloc: Global,
    folder: &mut F,
    items: &[Pair<PackageStatus>],
    offered: &Map<PackageAvailable>,
    made: &mut Map<PackageStatus>,
) -> Result<(), NoMemory>
    ensures cleared { OnOk result (IsCleared (F.state folder.old) (F.state folder.new) (filter (λ item. not (is_some (value_at offered.now item.key))) items.now) made.old made.new) }
    ensures others { SameAreas Packages (F.state folder.old).files (F.state folder.new).files }
    ensures kept { KeepsOthers (is_named (gone_names offered.now items.now)) (F.state folder.old) (F.state folder.new) }
    ensures only { MakesOnly (IsGoneRemove offered.now items.now) (F.state folder.old) (F.state folder.new) }
{
    for item in items {
        if !is_offered(offered, &item.key) {
            clear(alloc, folder, item, made)?;
        }
    }
    Ok(())
}

// Fetches the packages of an offer that isn't the one that is held, removes those that are gone, and gives the statuses.
fn do_offer<G: Dialer, F: Folder>(
    alloc: Global,
    dialer: &mut G,
    folder: &mut F,
    held: &PackageStatuses,
    offered: &PackagesAvailable,
) -> Result<Map<PackageStatus>, NoMemory>
    requires other { is_same_offer held.now offered.now ≡ false }
    ensures synced { IfOk result (IsSynced (G.state dialer.old) (G.state dialer.new) (F.state folder.old) (F.state folder.new) held.now offered.now) }
    ensures others { SameAreas Packages (F.state folder.old).files (F.state folder.new).files }
    ensures kept { KeepsOthers (is_touched held.now offered.now) (F.state folder.old) (F.state folder.new) }
    ensures only { MakesOnly (IsDue held.now offered.now) (F.state folder.old) (F.state folder.new) }
    ensures fetches { AsksOnly (IsDueFetch held.now.packages offered.now.packages) (G.state dialer.old) (G.state dialer.new) }
{
    let mut made = Map::new(alloc);
    visit_all(
        alloc,
        dialer,
        folder,
        &held.packages,
        offered.packages.as_slice(),
        &mut made,
    )?;
    clear_all(
        alloc,
        folder,
        held.packages.as_slice(),
        &offered.packages,
        &mut made,
    )?;
    Ok(made)
}

// The statuses under the hash of the offer.
fn statuses_of(
    alloc: Global,
    packages: Map<PackageStatus>,
    offered: &PackagesAvailable,
) -> Result<PackageStatuses, NoMemory>
    ensures packages { IfOk result (λ statuses. statuses.packages ≡ packages) }
    ensures hash { IfOk result (λ statuses. statuses.server_provided_all_packages_hash ≡ offered.now.all_packages_hash) }
    ensures message { IfOk result (λ statuses. statuses.error_message ≡ []) }
{
    Ok(PackageStatuses {
        packages,
        server_provided_all_packages_hash: offered.all_packages_hash.copy(alloc)?,
        error_message: Text::of(String::new(alloc)),
    })
}

/// Does the plan of the offer, and gives the statuses of the packages afterwards. Each package to fetch is fetched once where
/// its name is good and a file is offered, in ascending order of names; then the files of packages that aren't offered any more
/// are removed. A failed package has the status InstallFailed, keeps what the agent had, and says why in its message.
///
/// Where memory is wanting the files that were written or removed stay so: whatever the answer, a file was written only for a
/// package to fetch, with content of the offered hash, and removed only for one that isn't offered any more; and the dialer
/// was asked for nothing but files of packages to fetch.
pub fn sync<G: Dialer, F: Folder>(
    alloc: Global,
    dialer: &mut G,
    folder: &mut F,
    held: &PackageStatuses,
    offered: &PackagesAvailable,
) -> Result<PackageStatuses, NoMemory>
    ensures held { is_same_offer held.now offered.now ≡ true → IfOk result (λ statuses. statuses.packages ≡ held.now.packages) }
    ensures untouched { is_same_offer held.now offered.now ≡ true → (dialer.new ≡ dialer.old) × (folder.new ≡ folder.old) }
    ensures synced { is_same_offer held.now offered.now ≡ false → IfOk result (λ statuses.
        IsSynced (G.state dialer.old) (G.state dialer.new) (F.state folder.old) (F.state folder.new) held.now offered.now statuses.packages) }
    ensures hash { IfOk result (λ statuses. statuses.server_provided_all_packages_hash ≡ offered.now.all_packages_hash) }
    ensures message { IfOk result (λ statuses. statuses.error_message ≡ []) }
    ensures others { SameAreas Packages (F.state folder.old).files (F.state folder.new).files }
    ensures kept { KeepsOthers (is_touched held.now offered.now) (F.state folder.old) (F.state folder.new) }
    ensures only { MakesOnly (IsDue held.now offered.now) (F.state folder.old) (F.state folder.new) }
    ensures fetches { AsksOnly (IsDueFetch held.now.packages offered.now.packages) (G.state dialer.old) (G.state dialer.new) }
{
    if is_held_offer(held, offered) {
        let packages = held.packages.copy(alloc)?;
        return statuses_of(alloc, packages, offered);
    }
    let packages = do_offer(alloc, dialer, folder, held, offered)?;
    statuses_of(alloc, packages, offered)
}
