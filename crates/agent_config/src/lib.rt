//! Brings an agent's configuration files into its folder, and back where that fails (OpAMP specification, "Configuration
//! Files"); and says what the collector's word on them is, where it has to prove them.
#![tactic(auto)]

mod area;
mod word;

ghost use Rattle.std.specs.Prelude.{◌≡◌, ℕ, List, Bool, IsTrue, OnOk, true, false};
ghost use Rattle.std.specs.Option.{option_copied};
ghost use Rattle.edge_devices.specs.declared.folders.Area.TheVariants.{Config};
ghost use Rattle.edge_devices.specs.Faults.{HasRisen};
ghost use Rattle.edge_devices.specs.Folders.{SameAreas, Runs};
ghost use Rattle.edge_devices.specs.Names.{are_good_names};
ghost use Rattle.agent_config.specs.Config.{AreFiles, files_of, first_bad};
ghost use Rattle.agent_config.specs.Outcomes.{Applies, RisesAgain};

use agent_offers::Trying;
use edge_devices::{Folder, FolderFail, name_good_among};
use plain_values::{AgentConfigFile, AgentConfigMap, Map, NoMemory, Plain, Text};
use std::alloc::Global;
pub use word::{Said, said_of};

/// How an offered configuration ended.
#[derive(Drop)]
pub enum Outcome {
    /// The area is its files and no others.
    Applied,
    /// A name is not good, and this is the first such name. Nothing was done.
    BadName(Text),
    /// The folder failed. Where the area was settled it is the active configuration's files again.
    FolderFault {
        /// Whether the area was settled.
        settled: bool,
    },
}

/// Brings the area of configuration files to those of the active configuration: all are written, and then the files that aren't
/// its are removed. The other areas stay as they were, whatever the answer.
///
/// # Errors
///
/// `Fault` exactly where a call of the folder answered it, and `NoMemory`; the area may then be mixed.
pub fn settle<F: Folder>(
    alloc: Global,
    folder: &mut F,
    active: &AgentConfigMap,
) -> Result<(), FolderFail>
    requires { IsTrue (are_good_names active.now.config_map) }
    ensures files { OnOk result (IsTrue (F.state folder.new).told → AreFiles ((F.state folder.new).files Config) (files_of active.now.config_map)) }
    ensures others { SameAreas Config (F.state folder.old).files (F.state folder.new).files }
    ensures calls { Runs (F.state folder.old) (F.state folder.new) result }
    ensures fault { result ≡ Err FolderFail.Fault → HasRisen (F.state folder.old).faults (F.state folder.new).faults }
{
    area::bring(alloc, folder, active)
}

/// Brings the area to the files of the tried configuration, and where the folder fails back to those of the active one, beginning
/// with the next call. The other areas stay as they were, whatever the answer.
///
/// Where memory is wanting the area may be mixed, and `settle` is called.
pub fn apply<F: Folder>(
    alloc: Global,
    folder: &mut F,
    trial: &Trying<AgentConfigMap>,
) -> Result<Outcome, NoMemory>
    requires { IsTrue (are_good_names trial.now.former.config_map) }
    ensures applied { result ≡ Ok Outcome.Applied → IsTrue (F.state folder.new).told → AreFiles ((F.state folder.new).files Config) (files_of trial.now.tried.config_map) }
    ensures names { result ≡ Ok Outcome.Applied → IsTrue (are_good_names trial.now.tried.config_map) }
    ensures settled { result ≡ Ok (Outcome.FolderFault true) → IsTrue (F.state folder.new).told → AreFiles ((F.state folder.new).files Config) (files_of trial.now.former.config_map) }
    ensures others { SameAreas Config (F.state folder.old).files (F.state folder.new).files }

    // The first bad name is told before anything is done.
    ensures bad_name { (name : List ℕ) → first_bad trial.now.tried.config_map ≡ Some name → OnOk result (result ≡ Ok (Outcome.BadName name)) }
    ensures good_names { (name : List ℕ) → result ≡ Ok (Outcome.BadName name) → first_bad trial.now.tried.config_map ≡ Some name }
    ensures untouched { (name : List ℕ) → first_bad trial.now.tried.config_map ≡ Some name → folder.new ≡ folder.old }

    // The calls of the folder tell whether it failed, and whether the area was settled.
    ensures calls { Applies (F.state folder.old) (F.state folder.new) result }
    ensures again { result ≡ Ok (Outcome.FolderFault false) → RisesAgain (F.state folder.old).faults (F.state folder.new).faults }
    ensures fault { (settled : Bool) → result ≡ Ok (Outcome.FolderFault settled) → HasRisen (F.state folder.old).faults (F.state folder.new).faults }
{
    let tried = trial.tried();
    if let Some(name) = first_bad_name(&tried.config_map) {
        return Ok(Outcome::BadName(name.copy(alloc)?));
    }
    match area::bring(alloc, folder, tried) {
        Ok(()) => Ok(Outcome::Applied),
        Err(FolderFail::NoMemory) => Err(NoMemory),
        Err(FolderFail::Fault) => match area::bring(alloc, folder, trial.active()) {
            Ok(()) => Ok(Outcome::FolderFault { settled: true }),
            Err(FolderFail::NoMemory) => Err(NoMemory),
            Err(FolderFail::Fault) => Ok(Outcome::FolderFault { settled: false }),
        },
    }
}

// The first name that is not good.
fn first_bad_name(config: &Map<AgentConfigFile>) -> Option<&Text>
    ensures bad { option_copied result ≡ first_bad config.now }
{
    let count = config.len();
    let file = config
        .as_slice()
        .iter()
        .find(|file| !name_good_among(count, file.key.as_str()))?;
    Some(&file.key)
}
