//! Offered packages, seen to.

ghost use Rattle.std.specs.Prelude.{◌≡◌, ◌≤◌, OnOk, IfErr, Some};
ghost use Rattle.agent_rules.specs.Half.{kept_part};
ghost use Rattle.agent_rules.specs.Keeping.{PackagesDone};
ghost use Rattle.agent_state.specs.View.{FitsDisk};
ghost use Rattle.agent_rounds.specs.Moments.{IsCallEnd, RunsPart, with_agent, with_dialer, with_folder};
ghost use Rattle.agent_rounds.specs.Replies.{Installs, Syncs};
ghost use Rattle.agent_rounds.specs.Stages.{MakesCall, Stage};

use crate::ends::{AgentEnd, end_of};
use agent_packages::sync;
use agent_state::Agent;
use edge_devices::{Dialer, Disk, Folder};
use message_values::{PackageStatuses, PackagesAvailable};
use plain_values::NoMemory;
use std::alloc::Global;

// Does what the offer asks of the folder and the dialer.
fn sync_offer<G: Dialer, F: Folder>(
    alloc: Global,
    agent: &Agent,
    dialer: &mut G,
    folder: &mut F,
    offer: &PackagesAvailable,
) -> Result<PackageStatuses, AgentEnd>
    ensures does { (s : Stage) → Syncs offer.now
        (with_agent agent.now (with_folder (F.state folder.old) (with_dialer (G.state dialer.old) s)))
        (with_agent agent.now (with_folder (F.state folder.new) (with_dialer (G.state dialer.new) s))) result }
    ensures folder_count { OnOk result ((F.state folder.old).faults ≤ (F.state folder.new).faults) }
    ensures end { IfErr result (λ end. end ≡ AgentEnd.NoMemory) }
{
    match sync(alloc, dialer, folder, &agent.saved().packages, offer) {
        Ok(statuses) => Ok(statuses),
        Err(NoMemory) => Err(AgentEnd::NoMemory),
    }
}

// Keeps what became of the packages.
fn keep_statuses<D: Disk>(
    agent: &mut Agent,
    disk: &mut D,
    statuses: PackageStatuses,
) -> Result<(), AgentEnd>
    requires fits { FitsDisk (D.state disk.old) agent.old.store (kept_part agent.old.half) }
    ensures does { (s : Stage) → RunsPart (MakesCall (PackagesDone statuses)) (D.state disk.old) (D.state disk.new) (with_agent agent.old s) (with_agent agent.new s) result }
    ensures fits { OnOk result (FitsDisk (D.state disk.new) agent.new.store (kept_part agent.new.half)) }
    ensures awaits { OnOk result (agent.new.half.awaits ≡ agent.old.half.awaits) }
    ensures trial { OnOk result (agent.new.half.trial ≡ agent.old.half.trial) }
    ensures end { IfErr result IsCallEnd }
{
    match agent.packages_done(disk, statuses) {
        Ok(()) => Ok(()),
        Err(fail) => Err(end_of(fail)),
    }
}

// Sees to offered packages, and keeps what became of them.
fn install_offer<D: Disk, G: Dialer, F: Folder>(
    alloc: Global,
    agent: &mut Agent,
    disk: &mut D,
    dialer: &mut G,
    folder: &mut F,
    offer: &PackagesAvailable,
) -> Result<(), AgentEnd>
    requires fits { FitsDisk (D.state disk.old) agent.old.store (kept_part agent.old.half) }
    ensures does { (s : Stage) → RunsPart (Installs (Some offer.now)) (D.state disk.old) (D.state disk.new)
        (with_agent agent.old (with_folder (F.state folder.old) (with_dialer (G.state dialer.old) s)))
        (with_agent agent.new (with_folder (F.state folder.new) (with_dialer (G.state dialer.new) s))) result }
    ensures fits { OnOk result (FitsDisk (D.state disk.new) agent.new.store (kept_part agent.new.half)) }
    ensures awaits { OnOk result (agent.new.half.awaits ≡ agent.old.half.awaits) }
    ensures trial { OnOk result (agent.new.half.trial ≡ agent.old.half.trial) }
    ensures folder_count { OnOk result ((F.state folder.old).faults ≤ (F.state folder.new).faults) }
    ensures end { IfErr result IsCallEnd }
{
    let statuses = match sync_offer(alloc, agent, dialer, folder, offer) {
        Ok(statuses) => statuses,
        Err(end) => return Err(end),
    };
    keep_statuses(agent, disk, statuses)
}

/// Sees to offered packages, if there are any, and keeps what became of them.
pub(crate) fn install<D: Disk, G: Dialer, F: Folder>(
    alloc: Global,
    agent: &mut Agent,
    disk: &mut D,
    dialer: &mut G,
    folder: &mut F,
    offer: &Option<PackagesAvailable>,
) -> Result<(), AgentEnd>
    requires fits { FitsDisk (D.state disk.old) agent.old.store (kept_part agent.old.half) }
    ensures does { (s : Stage) → RunsPart (Installs offer.now) (D.state disk.old) (D.state disk.new)
        (with_agent agent.old (with_folder (F.state folder.old) (with_dialer (G.state dialer.old) s)))
        (with_agent agent.new (with_folder (F.state folder.new) (with_dialer (G.state dialer.new) s))) result }
    ensures fits { OnOk result (FitsDisk (D.state disk.new) agent.new.store (kept_part agent.new.half)) }
    ensures awaits { OnOk result (agent.new.half.awaits ≡ agent.old.half.awaits) }
    ensures trial { OnOk result (agent.new.half.trial ≡ agent.old.half.trial) }
    ensures folder_count { OnOk result ((F.state folder.old).faults ≤ (F.state folder.new).faults) }
    ensures end { IfErr result IsCallEnd }
{
    match offer {
        Some(offer) => install_offer(alloc, agent, disk, dialer, folder, offer),
        None => Ok(()),
    }
}
