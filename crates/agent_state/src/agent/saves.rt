//! What an agent keeps.

ghost use Rattle.std.specs.Prelude.{◌≡◌, ◌≤◌, true, Some, None, IsTrue, is_some, IfOk, IfErr, OnOk};
ghost use Rattle.std.specs.Option.{ForSome, option_map};
ghost use Rattle.edge_devices.specs.Names.{are_good_names};
ghost use Rattle.agent_rules.specs.Right.{is_right};
ghost use Rattle.agent_rules.specs.Half.{kept_part};
ghost use Rattle.agent_rules.specs.Keeping.{CommitTry, ConfigDone, PackagesDone, fits, fits_room};
ghost use Rattle.agent_rules.specs.Calls.{call_after};
ghost use Rattle.agent_state.specs.View.{FitsDisk, IsOneSave, CallRefusal};
ghost use Rattle.agent_state.specs.Changes.{with_change, KeepsPart};

use crate::agent::Agent;
use crate::changes::Change;
use crate::keeping::keep;
use agent_offers::{Settled, Trying};
use agent_rules::{AgentFail, Saved};
use agent_store::Store;
use edge_devices::Disk;
use message_values::{PackageStatuses, RemoteConfigStatus};
use plain_values::{AgentConfigMap, Blob, NoMemory, Plain};
use std::mem::{replace, swap};

impl Agent {
    // Keeps what is kept with this change, which is then in use; a refusal leaves what is in use. Takes no memory.
    pub(super) fn keep_changed<D: Disk>(
        &mut self,
        disk: &mut D,
        mut change: Change,
    ) -> Result<(), AgentFail>
        requires fits { FitsDisk (D.state disk.old) self.old.store (kept_part self.old.half) }
        requires right { IsTrue (is_right self.old.half.saved) → IsTrue (is_right (with_change change self.old.half.saved)) }
        requires reserved { self.old.half.saved.limit ≤ (with_change change self.old.half.saved).limit }
        ensures keeps { KeepsPart (D.state disk.old) (D.state disk.new) (D.countdown disk.old) (D.countdown disk.new) self.old self.new (with_change change self.old.half.saved) result }
    {
        change.exchange(&mut self.saved);
        match keep(&mut self.store, disk, &self.saved) {
            Ok(()) => {
                self.is_kept = true;
                Ok(())
            }
            Err(fail) => {
                change.exchange(&mut self.saved);
                Err(fail)
            }
        }
    }

    /// Keeps the settings under trial as the agent's own.
    pub fn commit_try<D: Disk>(&mut self, disk: &mut D) -> Result<(), AgentFail>
        requires fits { FitsDisk (D.state disk.old) self.old.store (kept_part self.old.half) }
        requires trying { is_some self.old.half.trial ≡ true }
        requires proved { self.old.half.proved ≡ true }
        ensures kept { OnOk result (self.new.half ≡ call_after self.old.half CommitTry) }
        ensures room { OnOk result (fits self.old.half CommitTry ≡ true) }
        ensures one_save { IsOneSave (D.state disk.old) (D.state disk.new) (D.countdown disk.old) (D.countdown disk.new) self.old self.new CommitTry result }
        ensures refused { IfErr result (CallRefusal self.old CommitTry) }
    {
        let Some(tried) = self.trial.take() else {
            unreachable!()
        };
        let former = replace(&mut self.saved.settings, tried);
        match keep(&mut self.store, disk, &self.saved) {
            Ok(()) => {
                self.is_kept = true;
                self.proved = false;
                Ok(())
            }
            Err(fail) => {
                self.trial = Some(replace(&mut self.saved.settings, former));
                Err(fail)
            }
        }
    }

    /// Keeps what became of the agent's packages.
    pub fn packages_done<D: Disk>(
        &mut self,
        disk: &mut D,
        statuses: PackageStatuses,
    ) -> Result<(), AgentFail>
        requires fits { FitsDisk (D.state disk.old) self.old.store (kept_part self.old.half) }
        ensures kept { OnOk result (self.new.half ≡ call_after self.old.half (PackagesDone statuses)) }
        ensures room { OnOk result (fits self.old.half (PackagesDone statuses) ≡ true) }
        ensures one_save { IsOneSave (D.state disk.old) (D.state disk.new) (D.countdown disk.old) (D.countdown disk.new) self.old self.new (PackagesDone statuses) result }
        ensures refused { IfErr result (CallRefusal self.old (PackagesDone statuses)) }
    {
        self.keep_changed(disk, Change::Packages(statuses))
    }

    /// A trial of these files, from the active configuration.
    pub fn config_trial(&self, next: AgentConfigMap) -> Result<Trying<AgentConfigMap>, NoMemory>
        ensures former { IfOk result (λ trial. trial.former ≡ self.now.half.saved.config) }
        ensures tried { IfOk result (λ trial. trial.tried ≡ next) }
    {
        let active = self.saved.config.copy(self.alloc)?;
        Ok(Settled::new(active).begin(next))
    }

    /// Whether there is room for these files and this status in place of those that are kept: they change places, are measured, and change back. Of all
    /// this the offer's hash alone is copied.
    pub fn config_fits(
        &mut self,
        files: &mut AgentConfigMap,
        status: &mut RemoteConfigStatus,
    ) -> Result<bool, NoMemory>
        ensures fits { IfOk result (λ room. room ≡ fits self.old.half (ConfigDone (Some files.old) status.old)) }
        ensures same { self.new ≡ self.old }
        ensures files { files.new ≡ files.old }
        ensures status { status.new ≡ status.old }
    {
        let mut hash = status.last_remote_config_hash.copy(self.alloc)?;
        Ok(fits_with(&self.store, &mut self.saved, files, &mut hash, status))
    }

    /// Keeps what became of an offered configuration, and its files where they were applied.
    pub fn config_done<D: Disk>(
        &mut self,
        disk: &mut D,
        applied: Option<Trying<AgentConfigMap>>,
        status: RemoteConfigStatus,
    ) -> Result<(), AgentFail>
        requires fits { FitsDisk (D.state disk.old) self.old.store (kept_part self.old.half) }
        requires active { ForSome applied (λ trial. trial.former ≡ self.old.half.saved.config) }
        requires names { ForSome applied (λ trial. IsTrue (are_good_names trial.tried.config_map)) }
        ensures kept { OnOk result (self.new.half ≡ call_after self.old.half (ConfigDone (option_map (λ trial. trial.tried) applied) status)) }
        ensures room { OnOk result (fits self.old.half (ConfigDone (option_map (λ trial. trial.tried) applied) status) ≡ true) }
        ensures one_save { IsOneSave (D.state disk.old) (D.state disk.new) (D.countdown disk.old) (D.countdown disk.new) self.old self.new (ConfigDone (option_map (λ trial. trial.tried) applied) status) result }
        ensures refused { IfErr result (CallRefusal self.old (ConfigDone (option_map (λ trial. trial.tried) applied) status)) }
    {
        match applied {
            Some(trial) => self.config_applied(disk, trial.into_tried(), status),
            None => self.config_failed(disk, status),
        }
    }

    fn config_failed<D: Disk>(
        &mut self,
        disk: &mut D,
        status: RemoteConfigStatus,
    ) -> Result<(), AgentFail>
        requires fits { FitsDisk (D.state disk.old) self.old.store (kept_part self.old.half) }
        ensures kept { OnOk result (self.new.half ≡ call_after self.old.half (ConfigDone None status)) }
        ensures room { OnOk result (fits self.old.half (ConfigDone None status) ≡ true) }
        ensures one_save { IsOneSave (D.state disk.old) (D.state disk.new) (D.countdown disk.old) (D.countdown disk.new) self.old self.new (ConfigDone None status) result }
        ensures refused { IfErr result (CallRefusal self.old (ConfigDone None status)) }
    {
        self.keep_changed(disk, Change::Status(status))
    }

    fn config_applied<D: Disk>(
        &mut self,
        disk: &mut D,
        files: AgentConfigMap,
        status: RemoteConfigStatus,
    ) -> Result<(), AgentFail>
        requires names { IsTrue (are_good_names files.config_map) }
        requires fits { FitsDisk (D.state disk.old) self.old.store (kept_part self.old.half) }
        ensures kept { OnOk result (self.new.half ≡ call_after self.old.half (ConfigDone (Some files) status)) }
        ensures room { OnOk result (fits self.old.half (ConfigDone (Some files) status) ≡ true) }
        ensures one_save { IsOneSave (D.state disk.old) (D.state disk.new) (D.countdown disk.old) (D.countdown disk.new) self.old self.new (ConfigDone (Some files) status) result }
        ensures refused { IfErr result (CallRefusal self.old (ConfigDone (Some files) status)) }
    {
        let hash = match status.last_remote_config_hash.copy(self.alloc) {
            Ok(hash) => hash,
            Err(NoMemory) => return Err(AgentFail::NoMemory),
        };
        self.keep_changed(
            disk,
            Change::Files {
                files,
                hash,
                status,
            },
        )
    }
}

// Whether the store has room for what is kept with these in place of its own. They change places, it is measured, and they change back.
fn fits_with(
    store: &Store,
    saved: &mut Saved,
    files: &mut AgentConfigMap,
    hash: &mut Blob,
    status: &mut RemoteConfigStatus,
) -> bool
    ensures fits { result ≡ fits_room store.now.layout.room (Some (record (saved.old) { config = files.old; config_hash = hash.old; remote = status.old })) }
    ensures saved { saved.new ≡ saved.old }
    ensures files { files.new ≡ files.old }
    ensures status { status.new ≡ status.old }
{
    swap(files, &mut saved.config);
    swap(hash, &mut saved.config_hash);
    swap(status, &mut saved.remote);
    let room = store.has_room(saved);
    swap(files, &mut saved.config);
    swap(hash, &mut saved.config_hash);
    swap(status, &mut saved.remote);
    room
}
