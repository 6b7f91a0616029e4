//! The area of configuration files, settled where that is due.

ghost use Rattle.std.specs.Prelude.{◌≡◌, ◌≤◌, ℕ, IsTrue, IfErr};
ghost use Rattle.edge_devices.specs.Faults.{HasRisen};
ghost use Rattle.edge_devices.specs.Names.{are_good_names};
ghost use Rattle.agent_rounds.specs.Moments.{IsSettlingEnd, held_view, with_folder, with_held};
ghost use Rattle.agent_rounds.specs.Parts.{SettlesArea, SettlesWhereDue};
ghost use Rattle.agent_rounds.specs.Stages.{Stage};

use crate::ends::AgentEnd;
use crate::held::{Held, Settling};
use agent_config::settle;
use edge_devices::{Folder, FolderFail};
use plain_values::AgentConfigMap;
use std::alloc::Global;

/// Settles the area of configuration files to those of the active configuration, where that is due. The first settling that fails ends the round, and a
/// later one stays due.
pub(crate) fn settle_where_due<L: Drop, F: Folder>(
    alloc: Global,
    active: &AgentConfigMap,
    held: &mut Held<L>,
    folder: &mut F,
) -> Result<(), AgentEnd>
    requires names { IsTrue (are_good_names active.now.config_map) }
    ensures settles { (number : L → ℕ) (s : Stage)
        → s.half.saved.config ≡ active.now → SettlesWhereDue (with_held (held_view number held.old) (with_folder (F.state folder.old) s)) (with_held (held_view number held.new) (with_folder (F.state folder.new) s)) result }
    ensures end { IfErr result IsSettlingEnd }
    ensures fault { result ≡ Err AgentEnd.FolderFault → HasRisen (F.state folder.old).faults (F.state folder.new).faults }
    ensures counts { (F.state folder.old).faults ≤ (F.state folder.new).faults }
{
    match held.settling {
        Settling::Settled => Ok(()),
        Settling::First => settle_area(alloc, active, held, folder),
        Settling::Again => settle_area(alloc, active, held, folder),
    }
}

// Settles the area.
fn settle_area<L: Drop, F: Folder>(
    alloc: Global,
    active: &AgentConfigMap,
    held: &mut Held<L>,
    folder: &mut F,
) -> Result<(), AgentEnd>
    requires names { IsTrue (are_good_names active.now.config_map) }
    ensures settles { (number : L → ℕ) (s : Stage)
        → s.half.saved.config ≡ active.now → SettlesArea (with_held (held_view number held.old) (with_folder (F.state folder.old) s)) (with_held (held_view number held.new) (with_folder (F.state folder.new) s)) result }
    ensures end { IfErr result IsSettlingEnd }
    ensures fault { result ≡ Err AgentEnd.FolderFault → HasRisen (F.state folder.old).faults (F.state folder.new).faults }
    ensures counts { (F.state folder.old).faults ≤ (F.state folder.new).faults }
{
    let due = held.settling;
    match settle(alloc, folder, active) {
        Ok(()) => {
            held.settling = Settling::Settled;
            Ok(())
        }
        Err(FolderFail::NoMemory) => Err(AgentEnd::NoMemory),
        Err(FolderFail::Fault) => match due {
            Settling::First => Err(AgentEnd::FolderFault),
            Settling::Again => Ok(()),
            Settling::Settled => Ok(()),
        },
    }
}
