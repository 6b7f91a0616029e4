//! An offered configuration, applied to the area of configuration files.

ghost use Rattle.std.specs.Prelude.{true, ◌≡◌, ◌≤◌, ℕ, List, OnOk, IfOk, IfErr, IsTrue, Some, Ok, false, unwrap_or};
ghost use Rattle.edge_devices.specs.Names.{are_good_names};
ghost use Rattle.agent_config.specs.Config.{as_offer};
ghost use Rattle.agent_rules.specs.Half.{kept_part, no_config};
ghost use Rattle.agent_rules.specs.Keeping.{fits};
ghost use Rattle.agent_rules.specs.Offers.{applied_call, failed_call, failed_with, status_of};
ghost use Rattle.agent_state.specs.View.{FitsDisk};
ghost use Rattle.agent_rounds.specs.Moments.{IsCallEnd, RunsPart, held_view, with_agent, with_clock, with_folder, with_held};
ghost use Rattle.agent_rounds.specs.Replies.{AppliesFiles, BringsBack, ConfigEnds, Configures, FailsBack, KeepsBy, KeepsProved, KeepsUnless, Brings, IsTriedFor, TriesBy, TriesFor, TriesNamed, WatchesTrial, held_after};
ghost use Rattle.agent_rounds.specs.Proving.{NamesTrial, name_of, refusal, refused_text};
ghost use Rattle.agent_rounds.specs.Stages.{MakesCall, Stage, Then};
ghost use Rattle.agent_rounds.specs.Status.{HeldView};

use crate::ends::{AgentEnd, end_of};
use crate::held::{Held, Settling};
use crate::proving::{Trial, name_of, refused_text, watch_for, write_name};
use agent_config::{Outcome, Said, apply, settle};
use agent_offers::Trying;
use agent_rules::{APPLIED, AgentFail, FAILED};
use agent_state::Agent;
use edge_devices::{Clock, Disk, Folder, FolderFail, name_ok};
use message_values::{AgentRemoteConfig, RemoteConfigStatus};
use plain_values::{AgentConfigMap, Blob, Map, NoMemory, Plain, Text};
use std::alloc::Global;

// The files of an offer. Takes no memory.
fn offered_files(alloc: Global, config: Option<AgentConfigMap>) -> AgentConfigMap
    ensures { result ≡ unwrap_or config no_config }
{
    match config {
        Some(files) => files,
        None => AgentConfigMap {
            config_map: Map::new(alloc),
        },
    }
}

// The status of a configuration of this hash whose files were applied.
fn status_of(alloc: Global, hash: &Blob) -> Result<RemoteConfigStatus, NoMemory>
    ensures { IfOk result (λ status. status ≡ status_of (as_offer no_config hash.now)) }
{
    Ok(RemoteConfigStatus {
        last_remote_config_hash: hash.copy(alloc)?,
        status: APPLIED,
        error_message: Text::of(String::new(alloc)),
    })
}

// The status of a configuration of this hash that failed for this reason.
fn failed_with(alloc: Global, hash: &Blob, reason: &str) -> Result<RemoteConfigStatus, NoMemory>
    ensures { IfOk result (λ status. status ≡ failed_with (as_offer no_config hash.now) reason.now) }
{
    Ok(RemoteConfigStatus {
        last_remote_config_hash: hash.copy(alloc)?,
        status: FAILED,
        error_message: Text::of(String::from_str(alloc, reason)?),
    })
}

// Whether the area is to be settled, after an offer that ended so.
fn settling_after(outcome: &Outcome, settling: Settling) -> Settling
    ensures { (held : HeldView) → held.settling ≡ settling → held_after (Ok outcome.now) held ≡ record held { settling = result } }
{
    match outcome {
        Outcome::Applied => settling,
        Outcome::BadName(_) => settling,
        Outcome::FolderFault { settled: true } => settling,
        Outcome::FolderFault { settled: false } => Settling::Again,
    }
}

// Applies the offered files to the area, or not.
fn apply_files<L: Drop, F: Folder>(
    alloc: Global,
    agent: &Agent,
    held: &mut Held<L>,
    folder: &mut F,
    trial: &Trying<AgentConfigMap>,
) -> Result<Outcome, AgentEnd>
    requires former { trial.now.former ≡ agent.now.half.saved.config }
    ensures does { (hash : List ℕ) (number : L → ℕ) (s : Stage) → AppliesFiles (as_offer trial.now.tried hash)
        (with_agent agent.now (with_held (held_view number held.old) (with_folder (F.state folder.old) s)))
        (with_agent agent.now (with_held (held_view number held.new) (with_folder (F.state folder.new) s))) result }
    ensures folder_count { (F.state folder.old).faults ≤ (F.state folder.new).faults }
    ensures names { result ≡ Ok Outcome.Applied → IsTrue (are_good_names trial.now.tried.config_map) }
    ensures end { IfErr result (λ end. end ≡ AgentEnd.NoMemory) }
{
    let _active = agent.saved();
    match apply(alloc, folder, trial) {
        Ok(outcome) => {
            held.settling = settling_after(&outcome, held.settling);
            Ok(outcome)
        }
        Err(NoMemory) => {
            held.settling = Settling::Again;
            Err(AgentEnd::NoMemory)
        }
    }
}

// Brings the area back to the active configuration. Where that fails it stays due.
fn bring_back<L: Drop, F: Folder>(
    alloc: Global,
    agent: &Agent,
    held: &mut Held<L>,
    folder: &mut F,
) -> Result<(), AgentEnd>
    ensures does { (number : L → ℕ) (s : Stage) → BringsBack
        (with_agent agent.now (with_held (held_view number held.old) (with_folder (F.state folder.old) s)))
        (with_agent agent.now (with_held (held_view number held.new) (with_folder (F.state folder.new) s))) result }
    ensures folder_count { (F.state folder.old).faults ≤ (F.state folder.new).faults }
    ensures end { IfErr result (λ end. end ≡ AgentEnd.NoMemory) }
{
    match settle(alloc, folder, &agent.saved().config) {
        Ok(()) => Ok(()),
        Err(FolderFail::Fault) => {
            held.settling = Settling::Again;
            Ok(())
        }
        Err(FolderFail::NoMemory) => {
            held.settling = Settling::Again;
            Err(AgentEnd::NoMemory)
        }
    }
}

// Keeps that the configuration failed, for this reason.
fn keep_failure<D: Disk>(
    alloc: Global,
    agent: &mut Agent,
    disk: &mut D,
    hash: &Blob,
    reason: &str,
) -> Result<(), AgentEnd>
    requires fits { FitsDisk (D.state disk.old) agent.old.store (kept_part agent.old.half) }
    ensures does { (s : Stage) → RunsPart (MakesCall (failed_call (as_offer no_config hash.now) reason.now)) (D.state disk.old) (D.state disk.new) (with_agent agent.old s) (with_agent agent.new s) result }
    ensures fits { OnOk result (FitsDisk (D.state disk.new) agent.new.store (kept_part agent.new.half)) }
    ensures awaits { OnOk result (agent.new.half.awaits ≡ agent.old.half.awaits) }
    ensures trial { OnOk result (agent.new.half.trial ≡ agent.old.half.trial) }
    ensures end { IfErr result IsCallEnd }
{
    let status = match failed_with(alloc, hash, reason) {
        Ok(status) => status,
        Err(NoMemory) => return Err(AgentEnd::NoMemory),
    };
    match agent.config_done(disk, None, status) {
        Ok(()) => Ok(()),
        Err(fail) => Err(end_of(fail)),
    }
}

// Brings the area back, and keeps that the configuration failed, for this reason.
fn fail_back<L: Drop, D: Disk, F: Folder>(
    alloc: Global,
    agent: &mut Agent,
    held: &mut Held<L>,
    disk: &mut D,
    folder: &mut F,
    hash: &Blob,
    reason: &str,
) -> Result<(), AgentEnd>
    requires fits { FitsDisk (D.state disk.old) agent.old.store (kept_part agent.old.half) }
    ensures does { (number : L → ℕ) (s : Stage) → RunsPart (FailsBack (as_offer no_config hash.now) reason.now) (D.state disk.old) (D.state disk.new)
        (with_agent agent.old (with_held (held_view number held.old) (with_folder (F.state folder.old) s)))
        (with_agent agent.new (with_held (held_view number held.new) (with_folder (F.state folder.new) s))) result }
    ensures fits { OnOk result (FitsDisk (D.state disk.new) agent.new.store (kept_part agent.new.half)) }
    ensures awaits { OnOk result (agent.new.half.awaits ≡ agent.old.half.awaits) }
    ensures trial { OnOk result (agent.new.half.trial ≡ agent.old.half.trial) }
    ensures folder_count { (F.state folder.old).faults ≤ (F.state folder.new).faults }
    ensures end { IfErr result IsCallEnd }
{
    match bring_back(alloc, agent, held, folder) {
        Ok(()) => {}
        Err(end) => return Err(end),
    }
    keep_failure(alloc, agent, disk, hash, reason)
}

// Keeps the applied files as the active configuration. Where there is no room for them the area is brought back, and the configuration failed.
fn keep_files<L: Drop, D: Disk, F: Folder>(
    alloc: Global,
    agent: &mut Agent,
    held: &mut Held<L>,
    disk: &mut D,
    folder: &mut F,
    hash: &Blob,
    trial: Trying<AgentConfigMap>,
) -> Result<(), AgentEnd>
    requires fits { FitsDisk (D.state disk.old) agent.old.store (kept_part agent.old.half) }
    requires former { trial.former ≡ agent.old.half.saved.config }
    requires names { IsTrue (are_good_names trial.tried.config_map) }
    ensures does { (number : L → ℕ) (s : Stage) → RunsPart (KeepsBy (fits agent.old.half (applied_call (as_offer trial.tried hash.now))) (as_offer trial.tried hash.now)) (D.state disk.old) (D.state disk.new)
        (with_agent agent.old (with_held (held_view number held.old) (with_folder (F.state folder.old) s)))
        (with_agent agent.new (with_held (held_view number held.new) (with_folder (F.state folder.new) s))) result }
    ensures fits { OnOk result (FitsDisk (D.state disk.new) agent.new.store (kept_part agent.new.half)) }
    ensures awaits { OnOk result (agent.new.half.awaits ≡ agent.old.half.awaits) }
    ensures trial { OnOk result (agent.new.half.trial ≡ agent.old.half.trial) }
    ensures folder_count { (F.state folder.old).faults ≤ (F.state folder.new).faults }
    ensures end { IfErr result IsCallEnd }
{
    let status = match status_of(alloc, hash) {
        Ok(status) => status,
        Err(NoMemory) => {
            held.settling = Settling::Again;
            return Err(AgentEnd::NoMemory);
        }
    };
    let fail = match agent.config_done(disk, Some(trial), status) {
        Ok(()) => return Ok(()),
        Err(fail) => fail,
    };
    match fail {
        AgentFail::TooLarge => { fail_back(alloc, agent, held, disk, folder, hash, "too large") }
        other => {
            held.settling = Settling::Again;
            Err(end_of(other))
        }
    }
}

// Brings the area back, and keeps that the collector failed with the files, for this reason.
fn fail_refused<L: Drop, D: Disk, F: Folder>(
    alloc: Global,
    agent: &mut Agent,
    held: &mut Held<L>,
    disk: &mut D,
    folder: &mut F,
    hash: &Blob,
    error: &Text,
) -> Result<(), AgentEnd>
    requires fits { FitsDisk (D.state disk.old) agent.old.store (kept_part agent.old.half) }
    ensures does { (number : L → ℕ) (s : Stage) → RunsPart (FailsBack (as_offer no_config hash.now) (refused_text error.now)) (D.state disk.old) (D.state disk.new)
        (with_agent agent.old (with_held (held_view number held.old) (with_folder (F.state folder.old) s)))
        (with_agent agent.new (with_held (held_view number held.new) (with_folder (F.state folder.new) s))) result }
    ensures fits { OnOk result (FitsDisk (D.state disk.new) agent.new.store (kept_part agent.new.half)) }
    ensures awaits { OnOk result (agent.new.half.awaits ≡ agent.old.half.awaits) }
    ensures trial { OnOk result (agent.new.half.trial ≡ agent.old.half.trial) }
    ensures folder_count { (F.state folder.old).faults ≤ (F.state folder.new).faults }
    ensures end { IfErr result IsCallEnd }
{
    let text = match refused_text(alloc, error) {
        Ok(text) => text,
        Err(NoMemory) => {
            held.settling = Settling::Again;
            return Err(AgentEnd::NoMemory);
        }
    };
    fail_back(alloc, agent, held, disk, folder, hash, text.as_str())
}

// Watches for the collector's word on the trial. Where the round ends here the area is to be settled again.
fn watch_trial<L: Drop, F: Folder, C: Clock>(
    alloc: Global,
    held: &mut Held<L>,
    folder: &mut F,
    clock: &mut C,
    watch: &Trial,
) -> Result<Said, AgentEnd>
    ensures does { (number : L → ℕ) (s : Stage) → WatchesTrial watch.now
        (with_held (held_view number held.old) (with_folder (F.state folder.old) (with_clock (C.state clock.old) s)))
        (with_held (held_view number held.new) (with_folder (F.state folder.new) (with_clock (C.state clock.new) s))) result }
    ensures folder_count { (F.state folder.old).faults ≤ (F.state folder.new).faults }
    ensures clock_count { (C.state clock.old).faults ≤ (C.state clock.new).faults }
    ensures end { IfErr result (λ end. end ≡ AgentEnd.NoMemory) }
{
    match watch_for(alloc, folder, clock, &watch.name, watch.seconds) {
        Ok(said) => Ok(said),
        Err(end) => {
            held.settling = Settling::Again;
            Err(end)
        }
    }
}

// Keeps the applied files of which the collector said this, or brings the area back.
fn keep_said<L: Drop, D: Disk, F: Folder>(
    alloc: Global,
    agent: &mut Agent,
    held: &mut Held<L>,
    disk: &mut D,
    folder: &mut F,
    hash: &Blob,
    trial: Trying<AgentConfigMap>,
    said: &Said,
) -> Result<(), AgentEnd>
    requires fits { FitsDisk (D.state disk.old) agent.old.store (kept_part agent.old.half) }
    requires former { trial.former ≡ agent.old.half.saved.config }
    requires names { IsTrue (are_good_names trial.tried.config_map) }
    ensures does { (number : L → ℕ) (s : Stage) → RunsPart (KeepsUnless (refusal said.now) (as_offer trial.tried hash.now)) (D.state disk.old) (D.state disk.new)
        (with_agent agent.old (with_held (held_view number held.old) (with_folder (F.state folder.old) s)))
        (with_agent agent.new (with_held (held_view number held.new) (with_folder (F.state folder.new) s))) result }
    ensures fits { OnOk result (FitsDisk (D.state disk.new) agent.new.store (kept_part agent.new.half)) }
    ensures awaits { OnOk result (agent.new.half.awaits ≡ agent.old.half.awaits) }
    ensures trial { OnOk result (agent.new.half.trial ≡ agent.old.half.trial) }
    ensures folder_count { (F.state folder.old).faults ≤ (F.state folder.new).faults }
    ensures end { IfErr result IsCallEnd }
{
    match said {
        Said::Taken => keep_files(alloc, agent, held, disk, folder, hash, trial),
        Said::Nothing => {
            drop(trial);
            fail_back(alloc, agent, held, disk, folder, hash, "not taken")
        }
        Said::Refused(error) => {
            drop(trial);
            fail_refused(alloc, agent, held, disk, folder, hash, error)
        }
    }
}

// Keeps the applied files once the collector took them.
fn keep_watched<L: Drop, D: Disk, F: Folder, C: Clock>(
    alloc: Global,
    agent: &mut Agent,
    held: &mut Held<L>,
    disk: &mut D,
    folder: &mut F,
    clock: &mut C,
    hash: &Blob,
    trial: Trying<AgentConfigMap>,
    watch: &Trial,
) -> Result<(), AgentEnd>
    requires fits { FitsDisk (D.state disk.old) agent.old.store (kept_part agent.old.half) }
    requires former { trial.former ≡ agent.old.half.saved.config }
    requires names { IsTrue (are_good_names trial.tried.config_map) }
    ensures does { (number : L → ℕ) (s : Stage) → RunsPart (KeepsProved (Some watch.now) (as_offer trial.tried hash.now)) (D.state disk.old) (D.state disk.new)
        (with_agent agent.old (with_held (held_view number held.old) (with_folder (F.state folder.old) (with_clock (C.state clock.old) s))))
        (with_agent agent.new (with_held (held_view number held.new) (with_folder (F.state folder.new) (with_clock (C.state clock.new) s)))) result }
    ensures fits { OnOk result (FitsDisk (D.state disk.new) agent.new.store (kept_part agent.new.half)) }
    ensures awaits { OnOk result (agent.new.half.awaits ≡ agent.old.half.awaits) }
    ensures trial { OnOk result (agent.new.half.trial ≡ agent.old.half.trial) }
    ensures folder_count { (F.state folder.old).faults ≤ (F.state folder.new).faults }
    ensures clock_count { (C.state clock.old).faults ≤ (C.state clock.new).faults }
    ensures end { IfErr result IsCallEnd }
{
    let said = match watch_trial(alloc, held, folder, clock, watch) {
        Ok(said) => said,
        Err(end) => {
            drop(trial);
            return Err(end);
        }
    };
    let kept = keep_said(alloc, agent, held, disk, folder, hash, trial, &said);
    drop(said);
    kept
}

// Keeps the applied files, once they are proved.
fn keep_proved<L: Drop, D: Disk, F: Folder, C: Clock>(
    alloc: Global,
    agent: &mut Agent,
    held: &mut Held<L>,
    disk: &mut D,
    folder: &mut F,
    clock: &mut C,
    hash: &Blob,
    trial: Trying<AgentConfigMap>,
    watch: &Option<Trial>,
) -> Result<(), AgentEnd>
    requires fits { FitsDisk (D.state disk.old) agent.old.store (kept_part agent.old.half) }
    requires former { trial.former ≡ agent.old.half.saved.config }
    requires names { IsTrue (are_good_names trial.tried.config_map) }
    ensures does { (number : L → ℕ) (s : Stage) → RunsPart (KeepsProved watch.now (as_offer trial.tried hash.now)) (D.state disk.old) (D.state disk.new)
        (with_agent agent.old (with_held (held_view number held.old) (with_folder (F.state folder.old) (with_clock (C.state clock.old) s))))
        (with_agent agent.new (with_held (held_view number held.new) (with_folder (F.state folder.new) (with_clock (C.state clock.new) s)))) result }
    ensures fits { OnOk result (FitsDisk (D.state disk.new) agent.new.store (kept_part agent.new.half)) }
    ensures awaits { OnOk result (agent.new.half.awaits ≡ agent.old.half.awaits) }
    ensures trial { OnOk result (agent.new.half.trial ≡ agent.old.half.trial) }
    ensures folder_count { (F.state folder.old).faults ≤ (F.state folder.new).faults }
    ensures clock_count { (C.state clock.old).faults ≤ (C.state clock.new).faults }
    ensures end { IfErr result IsCallEnd }
{
    match watch {
        Some(watch) => keep_watched(alloc, agent, held, disk, folder, clock, hash, trial, watch),
        None => keep_files(alloc, agent, held, disk, folder, hash, trial),
    }
}

// Keeps what became of an offered configuration.
fn keep_outcome<L: Drop, D: Disk, F: Folder, C: Clock>(
    alloc: Global,
    agent: &mut Agent,
    held: &mut Held<L>,
    disk: &mut D,
    folder: &mut F,
    clock: &mut C,
    hash: &Blob,
    trial: Trying<AgentConfigMap>,
    watch: &Option<Trial>,
    outcome: &Outcome,
) -> Result<(), AgentEnd>
    requires fits { FitsDisk (D.state disk.old) agent.old.store (kept_part agent.old.half) }
    requires former { trial.former ≡ agent.old.half.saved.config }
    requires names { outcome.now ≡ Outcome.Applied → IsTrue (are_good_names trial.tried.config_map) }
    ensures does { (number : L → ℕ) (s : Stage) → RunsPart (ConfigEnds watch.now (as_offer trial.tried hash.now) outcome.now) (D.state disk.old) (D.state disk.new)
        (with_agent agent.old (with_held (held_view number held.old) (with_folder (F.state folder.old) (with_clock (C.state clock.old) s))))
        (with_agent agent.new (with_held (held_view number held.new) (with_folder (F.state folder.new) (with_clock (C.state clock.new) s)))) result }
    ensures fits { OnOk result (FitsDisk (D.state disk.new) agent.new.store (kept_part agent.new.half)) }
    ensures awaits { OnOk result (agent.new.half.awaits ≡ agent.old.half.awaits) }
    ensures trial { OnOk result (agent.new.half.trial ≡ agent.old.half.trial) }
    ensures folder_count { (F.state folder.old).faults ≤ (F.state folder.new).faults }
    ensures clock_count { (C.state clock.old).faults ≤ (C.state clock.new).faults }
    ensures end { IfErr result IsCallEnd }
{
    match outcome {
        Outcome::BadName(_) => {
            drop(trial);
            keep_failure(alloc, agent, disk, hash, "bad name")
        }
        Outcome::FolderFault { settled: _ } => {
            drop(trial);
            keep_failure(alloc, agent, disk, hash, "folder fault")
        }
        Outcome::Applied => {
            keep_proved(alloc, agent, held, disk, folder, clock, hash, trial, watch)
        }
    }
}

// Brings the files of an offered configuration, and keeps what became of it.
fn bring_offer<L: Drop, D: Disk, F: Folder, C: Clock>(
    alloc: Global,
    agent: &mut Agent,
    held: &mut Held<L>,
    disk: &mut D,
    folder: &mut F,
    clock: &mut C,
    files: AgentConfigMap,
    hash: &Blob,
    watch: &Option<Trial>,
) -> Result<(), AgentEnd>
    requires fits { FitsDisk (D.state disk.old) agent.old.store (kept_part agent.old.half) }
    ensures does { (number : L → ℕ) (s : Stage) → RunsPart (Brings watch.now (as_offer files hash.now)) (D.state disk.old) (D.state disk.new)
        (with_agent agent.old (with_held (held_view number held.old) (with_folder (F.state folder.old) (with_clock (C.state clock.old) s))))
        (with_agent agent.new (with_held (held_view number held.new) (with_folder (F.state folder.new) (with_clock (C.state clock.new) s)))) result }
    ensures fits { OnOk result (FitsDisk (D.state disk.new) agent.new.store (kept_part agent.new.half)) }
    ensures awaits { OnOk result (agent.new.half.awaits ≡ agent.old.half.awaits) }
    ensures trial { OnOk result (agent.new.half.trial ≡ agent.old.half.trial) }
    ensures folder_count { (F.state folder.old).faults ≤ (F.state folder.new).faults }
    ensures clock_count { (C.state clock.old).faults ≤ (C.state clock.new).faults }
    ensures end { IfErr result IsCallEnd }
{
    let trial = match agent.config_trial(files) {
        Ok(trial) => trial,
        Err(NoMemory) => {
            held.settling = Settling::Again;
            return Err(AgentEnd::NoMemory);
        }
    };
    let outcome = match apply_files(alloc, agent, held, folder, &trial) {
        Ok(outcome) => outcome,
        Err(end) => {
            drop(trial);
            return Err(end);
        }
    };
    let kept = keep_outcome(
        alloc, agent, held, disk, folder, clock, hash, trial, watch, &outcome,
    );
    drop(outcome);
    kept
}

// Tries an offer once the trial's name is written.
fn try_named<L: Drop, D: Disk, F: Folder, C: Clock>(
    alloc: Global,
    agent: &mut Agent,
    held: &mut Held<L>,
    disk: &mut D,
    folder: &mut F,
    clock: &mut C,
    files: AgentConfigMap,
    hash: &Blob,
    watch: Trial,
) -> Result<(), AgentEnd>
    requires fits { FitsDisk (D.state disk.old) agent.old.store (kept_part agent.old.half) }
    ensures does { (number : L → ℕ) (s : Stage) → RunsPart (Then (NamesTrial watch.name) (λ named. TriesNamed watch (as_offer files hash.now) named)) (D.state disk.old) (D.state disk.new)
        (with_agent agent.old (with_held (held_view number held.old) (with_folder (F.state folder.old) (with_clock (C.state clock.old) s))))
        (with_agent agent.new (with_held (held_view number held.new) (with_folder (F.state folder.new) (with_clock (C.state clock.new) s)))) result }
    ensures fits { OnOk result (FitsDisk (D.state disk.new) agent.new.store (kept_part agent.new.half)) }
    ensures awaits { OnOk result (agent.new.half.awaits ≡ agent.old.half.awaits) }
    ensures trial { OnOk result (agent.new.half.trial ≡ agent.old.half.trial) }
    ensures folder_count { (F.state folder.old).faults ≤ (F.state folder.new).faults }
    ensures clock_count { (C.state clock.old).faults ≤ (C.state clock.new).faults }
    ensures end { IfErr result IsCallEnd }
{
    match write_name(alloc, folder, &watch.name) {
        Ok(true) => try_offer(alloc, agent, held, disk, folder, clock, files, hash, watch),
        Ok(false) => {
            drop(files);
            keep_failure(alloc, agent, disk, hash, "folder fault")
        }
        Err(end) => {
            drop(files);
            Err(end)
        }
    }
}

// Tries an offer.
fn try_offer<L: Drop, D: Disk, F: Folder, C: Clock>(
    alloc: Global,
    agent: &mut Agent,
    held: &mut Held<L>,
    disk: &mut D,
    folder: &mut F,
    clock: &mut C,
    files: AgentConfigMap,
    hash: &Blob,
    watch: Trial,
) -> Result<(), AgentEnd>
    requires fits { FitsDisk (D.state disk.old) agent.old.store (kept_part agent.old.half) }
    ensures does { (number : L → ℕ) (s : Stage) → RunsPart (Brings (Some watch) (as_offer files hash.now)) (D.state disk.old) (D.state disk.new)
        (with_agent agent.old (with_held (held_view number held.old) (with_folder (F.state folder.old) (with_clock (C.state clock.old) s))))
        (with_agent agent.new (with_held (held_view number held.new) (with_folder (F.state folder.new) (with_clock (C.state clock.new) s)))) result }
    ensures fits { OnOk result (FitsDisk (D.state disk.new) agent.new.store (kept_part agent.new.half)) }
    ensures awaits { OnOk result (agent.new.half.awaits ≡ agent.old.half.awaits) }
    ensures trial { OnOk result (agent.new.half.trial ≡ agent.old.half.trial) }
    ensures folder_count { (F.state folder.old).faults ≤ (F.state folder.new).faults }
    ensures clock_count { (C.state clock.old).faults ≤ (C.state clock.new).faults }
    ensures end { IfErr result IsCallEnd }
{
    let watch = Some(watch);
    let tried = bring_offer(alloc, agent, held, disk, folder, clock, files, hash, &watch);
    drop(watch);
    tried
}

// Whether there is room for the files of an offer of this hash.
fn has_room(
    alloc: Global,
    agent: &mut Agent,
    files: &mut AgentConfigMap,
    hash: &Blob,
) -> Result<bool, NoMemory>
    ensures room { IfOk result (λ room. room ≡ fits agent.old.half (applied_call (as_offer files.old hash.now))) }
    ensures agent { agent.new ≡ agent.old }
    ensures files { files.new ≡ files.old }
{
    let mut status = status_of(alloc, hash)?;
    let room = agent.config_fits(files, &mut status);
    drop(status);
    room
}

// A trial of an offer of this hash for so many seconds.
fn trial_for(alloc: Global, agent: &Agent, hash: &Blob, seconds: u64) -> Result<Trial, NoMemory>
    ensures { IfOk result (λ watch. watch ≡ record { seconds = seconds; name = name_of agent.now.half (as_offer no_config hash.now) }) }
{
    let name = name_of(alloc, agent, hash)?;
    Ok(Trial { seconds, name })
}

// Tries an offer that can be kept for so many seconds.
fn try_roomy<L: Drop, D: Disk, F: Folder, C: Clock>(
    alloc: Global,
    agent: &mut Agent,
    held: &mut Held<L>,
    disk: &mut D,
    folder: &mut F,
    clock: &mut C,
    files: AgentConfigMap,
    hash: &Blob,
    seconds: u64,
) -> Result<(), AgentEnd>
    requires fits { FitsDisk (D.state disk.old) agent.old.store (kept_part agent.old.half) }
    ensures does { (number : L → ℕ) (s : Stage) → RunsPart (TriesBy true (record { seconds = seconds; name = name_of agent.old.half (as_offer files hash.now) }) (as_offer files hash.now)) (D.state disk.old) (D.state disk.new)
        (with_agent agent.old (with_held (held_view number held.old) (with_folder (F.state folder.old) (with_clock (C.state clock.old) s))))
        (with_agent agent.new (with_held (held_view number held.new) (with_folder (F.state folder.new) (with_clock (C.state clock.new) s)))) result }
    ensures fits { OnOk result (FitsDisk (D.state disk.new) agent.new.store (kept_part agent.new.half)) }
    ensures awaits { OnOk result (agent.new.half.awaits ≡ agent.old.half.awaits) }
    ensures trial { OnOk result (agent.new.half.trial ≡ agent.old.half.trial) }
    ensures folder_count { (F.state folder.old).faults ≤ (F.state folder.new).faults }
    ensures clock_count { (C.state clock.old).faults ≤ (C.state clock.new).faults }
    ensures end { IfErr result IsCallEnd }
{
    match trial_for(alloc, agent, hash, seconds) {
        Ok(watch) => try_named(alloc, agent, held, disk, folder, clock, files, hash, watch),
        Err(NoMemory) => {
            drop(files);
            Err(AgentEnd::NoMemory)
        }
    }
}

// Tries an offer for so many seconds, where it can be kept.
fn try_for<L: Drop, D: Disk, F: Folder, C: Clock>(
    alloc: Global,
    agent: &mut Agent,
    held: &mut Held<L>,
    disk: &mut D,
    folder: &mut F,
    clock: &mut C,
    mut files: AgentConfigMap,
    hash: &Blob,
    seconds: u64,
) -> Result<(), AgentEnd>
    requires fits { FitsDisk (D.state disk.old) agent.old.store (kept_part agent.old.half) }
    ensures does { (number : L → ℕ) (s : Stage) → RunsPart (TriesFor (Some seconds) (as_offer files hash.now)) (D.state disk.old) (D.state disk.new)
        (with_agent agent.old (with_held (held_view number held.old) (with_folder (F.state folder.old) (with_clock (C.state clock.old) s))))
        (with_agent agent.new (with_held (held_view number held.new) (with_folder (F.state folder.new) (with_clock (C.state clock.new) s)))) result }
    ensures fits { OnOk result (FitsDisk (D.state disk.new) agent.new.store (kept_part agent.new.half)) }
    ensures awaits { OnOk result (agent.new.half.awaits ≡ agent.old.half.awaits) }
    ensures trial { OnOk result (agent.new.half.trial ≡ agent.old.half.trial) }
    ensures folder_count { (F.state folder.old).faults ≤ (F.state folder.new).faults }
    ensures clock_count { (C.state clock.old).faults ≤ (C.state clock.new).faults }
    ensures end { IfErr result IsCallEnd }
{
    match has_room(alloc, agent, &mut files, hash) {
        Ok(true) => try_roomy(
            alloc, agent, held, disk, folder, clock, files, hash, seconds,
        ),
        Ok(false) => {
            drop(files);
            keep_failure(alloc, agent, disk, hash, "too large")
        }
        Err(NoMemory) => {
            drop(files);
            Err(AgentEnd::NoMemory)
        }
    }
}

// In how many seconds the collector has to take these files, if they are tried.
fn seconds_for(prove: Option<u64>, active: &AgentConfigMap, files: &AgentConfigMap) -> Option<u64>
    ensures { (hash : List ℕ) → IsTriedFor prove active.now (as_offer files.now hash) result }
{
    if !name_ok(files) {
        return None;
    }
    if files.same(active) {
        return None;
    }
    prove
}

// Tries or brings the files of an offer of this hash, and keeps what became of it.
fn configure_files<L: Drop, D: Disk, F: Folder, C: Clock>(
    alloc: Global,
    agent: &mut Agent,
    held: &mut Held<L>,
    disk: &mut D,
    folder: &mut F,
    clock: &mut C,
    files: AgentConfigMap,
    hash: &Blob,
) -> Result<(), AgentEnd>
    requires fits { FitsDisk (D.state disk.old) agent.old.store (kept_part agent.old.half) }
    ensures does { (number : L → ℕ) (s : Stage) → RunsPart (Configures (Some (as_offer files hash.now))) (D.state disk.old) (D.state disk.new)
        (with_agent agent.old (with_held (held_view number held.old) (with_folder (F.state folder.old) (with_clock (C.state clock.old) s))))
        (with_agent agent.new (with_held (held_view number held.new) (with_folder (F.state folder.new) (with_clock (C.state clock.new) s)))) result }
    ensures fits { OnOk result (FitsDisk (D.state disk.new) agent.new.store (kept_part agent.new.half)) }
    ensures awaits { OnOk result (agent.new.half.awaits ≡ agent.old.half.awaits) }
    ensures trial { OnOk result (agent.new.half.trial ≡ agent.old.half.trial) }
    ensures folder_count { (F.state folder.old).faults ≤ (F.state folder.new).faults }
    ensures clock_count { (C.state clock.old).faults ≤ (C.state clock.new).faults }
    ensures end { IfErr result IsCallEnd }
{
    match seconds_for(held.prove, &agent.saved().config, &files) {
        Some(seconds) => try_for(
            alloc, agent, held, disk, folder, clock, files, hash, seconds,
        ),
        None => bring_offer(alloc, agent, held, disk, folder, clock, files, hash, &None),
    }
}

// Tries or brings an offered configuration, and keeps what became of it.
fn configure_offer<L: Drop, D: Disk, F: Folder, C: Clock>(
    alloc: Global,
    agent: &mut Agent,
    held: &mut Held<L>,
    disk: &mut D,
    folder: &mut F,
    clock: &mut C,
    offer: AgentRemoteConfig,
) -> Result<(), AgentEnd>
    requires fits { FitsDisk (D.state disk.old) agent.old.store (kept_part agent.old.half) }
    ensures does { (number : L → ℕ) (s : Stage) → RunsPart (Configures (Some offer)) (D.state disk.old) (D.state disk.new)
        (with_agent agent.old (with_held (held_view number held.old) (with_folder (F.state folder.old) (with_clock (C.state clock.old) s))))
        (with_agent agent.new (with_held (held_view number held.new) (with_folder (F.state folder.new) (with_clock (C.state clock.new) s)))) result }
    ensures fits { OnOk result (FitsDisk (D.state disk.new) agent.new.store (kept_part agent.new.half)) }
    ensures awaits { OnOk result (agent.new.half.awaits ≡ agent.old.half.awaits) }
    ensures trial { OnOk result (agent.new.half.trial ≡ agent.old.half.trial) }
    ensures folder_count { (F.state folder.old).faults ≤ (F.state folder.new).faults }
    ensures clock_count { (C.state clock.old).faults ≤ (C.state clock.new).faults }
    ensures end { IfErr result IsCallEnd }
{
    let AgentRemoteConfig {
        config,
        config_hash,
    } = offer;
    let files = offered_files(alloc, config);
    let ended = configure_files(alloc, agent, held, disk, folder, clock, files, &config_hash);
    drop(config_hash);
    ended
}

/// Applies an offered configuration, if there is one, and keeps what became of it.
pub(crate) fn configure<L: Drop, D: Disk, F: Folder, C: Clock>(
    alloc: Global,
    agent: &mut Agent,
    held: &mut Held<L>,
    disk: &mut D,
    folder: &mut F,
    clock: &mut C,
    offer: Option<AgentRemoteConfig>,
) -> Result<(), AgentEnd>
    requires fits { FitsDisk (D.state disk.old) agent.old.store (kept_part agent.old.half) }
    ensures does { (number : L → ℕ) (s : Stage) → RunsPart (Configures offer) (D.state disk.old) (D.state disk.new)
        (with_agent agent.old (with_held (held_view number held.old) (with_folder (F.state folder.old) (with_clock (C.state clock.old) s))))
        (with_agent agent.new (with_held (held_view number held.new) (with_folder (F.state folder.new) (with_clock (C.state clock.new) s)))) result }
    ensures fits { OnOk result (FitsDisk (D.state disk.new) agent.new.store (kept_part agent.new.half)) }
    ensures awaits { OnOk result (agent.new.half.awaits ≡ agent.old.half.awaits) }
    ensures trial { OnOk result (agent.new.half.trial ≡ agent.old.half.trial) }
    ensures folder_count { (F.state folder.old).faults ≤ (F.state folder.new).faults }
    ensures clock_count { (C.state clock.old).faults ≤ (C.state clock.new).faults }
    ensures end { IfErr result IsCallEnd }
{
    match offer {
        Some(offer) => configure_offer(alloc, agent, held, disk, folder, clock, offer),
        None => Ok(()),
    }
}
