//! The calls of an agent that may keep something, over a disk of which a device call may be stopped.

ghost use Rattle.std.specs.Prelude.{◌≡◌, ◌≢◌, ◌⊎◌, ◌&&◌, true, false, Some, is_some, IfOk, IfErr, OnOk, IsErrOf, IsTrue, ℕ};
ghost use Rattle.std.specs.Option.{ForSome, option_map};
ghost use Rattle.edge_devices.specs.Faults.{HasRisen};
ghost use Rattle.edge_devices.specs.MemoryDisks.{memory_disk, disk_countdown};
ghost use Rattle.edge_devices.specs.Names.{are_good_names};
ghost use Rattle.agent_rules.specs.Half.{kept_part};
ghost use Rattle.agent_rules.specs.Keeping.{Report, TakeReply, CommitTry, ConfigDone, fits, kept_by};
ghost use Rattle.agent_rules.specs.Calls.{call_after, may_report};
ghost use Rattle.agent_rules.specs.Offers.{next_of};
ghost use Rattle.agent_state.specs.View.{AgentView, FitsDisk, CallRefusal, save_plan};
ghost use Rattle.agent_state.specs.Refusals.{IsPrepared, ReportRefusal, ReplyRefusal};
ghost use Rattle.agent_stopped.specs.Endings.{stops_in};
ghost use Rattle.agent_stopped.specs.Plays.{IsPlayed};
ghost use Rattle.agent_stopped.specs.Stages.{stage_of};
ghost use Rattle.agent_stopped.specs.Starts.{IsAtRest};
ghost use Rattle.agent_stopped.specs.declared.opening.Opening.{Opening};

use agent_offers::Trying;
use agent_rules::{AgentFail, Next, Prepared};
use agent_state::Agent;
use agent_store::{bytes_tell_store, stopped_save_leaves};
use edge_devices::MemDisk;
use message_values::{RemoteConfigStatus, ServerToAgent};
use plain_values::AgentConfigMap;

/// Stops the device call of this number, counted from 1 from now on; 0 stops none. A later call takes its place.
pub fn arm(disk: &mut MemDisk, stop: u64)
    ensures stage { (agent : AgentView) → stage_of agent disk.new ≡ record (stage_of agent disk.old) { left = stop } }
    ensures at_rest { (opening : Opening) (agent : AgentView) → IsAtRest opening agent disk.old → IsAtRest opening agent disk.new }
{
    disk.arm(stop);
}

/// `Agent::report`. `StoreFault` is answered where the device call that is stopped is one of this call's, and where the disk failed otherwise, `NoMemory`.
pub fn report(agent: &mut Agent, disk: &mut MemDisk) -> Result<Prepared, AgentFail>
    requires idle { agent.old.half.awaits ≡ false }
    requires fits { FitsDisk (memory_disk disk.old) agent.old.store (kept_part agent.old.half) }
    ensures prepared { IfOk result (IsPrepared agent.old.half) }
    ensures due { OnOk result (may_report agent.old.half ≡ true) }
    ensures reported { OnOk result (agent.new.half ≡ call_after agent.old.half Report) }
    ensures played { IsPlayed agent.old agent.new disk.old disk.new Report result }
    ensures fault_due { IsErrOf result AgentFail.StoreFault → may_report agent.old.half ≡ true }
    ensures stop_due { IsErrOf result AgentFail.StoreFault → stops_in (disk_countdown disk.old).left (save_plan agent.old.store (kept_by agent.old.half Report)) ≡ true }
    ensures refused { IfErr result (ReportRefusal agent.old) }
{
    bytes_tell_store();
    stopped_save_leaves();
    let others = disk.other_faults();
    match agent.report(disk) {
        Ok(prepared) => Ok(prepared),
        Err(fail) => Err(stop_or_memory(disk, others, fail)),
    }
}

/// `Agent::on_reply`, with faults as in `report`.
pub fn on_reply(
    agent: &mut Agent,
    disk: &mut MemDisk,
    reply: &ServerToAgent,
) -> Result<Next, AgentFail>
    requires awaiting { agent.old.half.awaits ≡ true }
    requires fits { FitsDisk (memory_disk disk.old) agent.old.store (kept_part agent.old.half) }
    ensures to_it { OnOk result (reply.now.instance_uid ≡ agent.old.half.saved.uid) }
    ensures told { OnOk result (agent.new.half ≡ call_after agent.old.half (TakeReply reply.now)) }
    ensures next { IfOk result (λ next. next ≡ next_of reply.now agent.old.half) }
    ensures room { OnOk result (fits agent.old.half (TakeReply reply.now) ≡ true) }
    ensures played { IsPlayed agent.old agent.new disk.old disk.new (TakeReply reply.now) result }
    ensures stop_due { IsErrOf result AgentFail.StoreFault → stops_in (disk_countdown disk.old).left (save_plan agent.old.store (kept_by agent.old.half (TakeReply reply.now))) ≡ true }
    ensures refused { IfErr result (ReplyRefusal agent.old reply.now) }
{
    bytes_tell_store();
    stopped_save_leaves();
    let others = disk.other_faults();
    match agent.on_reply(disk, reply) {
        Ok(next) => Ok(next),
        Err(fail) => Err(stop_or_memory(disk, others, fail)),
    }
}

/// `Agent::commit_try`, with faults as in `report`.
pub fn commit_try(agent: &mut Agent, disk: &mut MemDisk) -> Result<(), AgentFail>
    requires fits { FitsDisk (memory_disk disk.old) agent.old.store (kept_part agent.old.half) }
    requires trying { is_some agent.old.half.trial ≡ true }
    requires proved { agent.old.half.proved ≡ true }
    ensures kept { OnOk result (agent.new.half ≡ call_after agent.old.half CommitTry) }
    ensures room { OnOk result (fits agent.old.half CommitTry ≡ true) }
    ensures played { IsPlayed agent.old agent.new disk.old disk.new CommitTry result }
    ensures stop_due { IsErrOf result AgentFail.StoreFault → stops_in (disk_countdown disk.old).left (save_plan agent.old.store (kept_by agent.old.half CommitTry)) ≡ true }
    ensures refused { IfErr result (CallRefusal agent.old CommitTry) }
{
    bytes_tell_store();
    stopped_save_leaves();
    let others = disk.other_faults();
    match agent.commit_try(disk) {
        Ok(()) => Ok(()),
        Err(fail) => Err(stop_or_memory(disk, others, fail)),
    }
}

/// `Agent::config_done`, with faults as in `report`.
pub fn config_done(
    agent: &mut Agent,
    disk: &mut MemDisk,
    applied: Option<Trying<AgentConfigMap>>,
    status: RemoteConfigStatus,
) -> Result<(), AgentFail>
    requires fits { FitsDisk (memory_disk disk.old) agent.old.store (kept_part agent.old.half) }
    requires active { ForSome applied (λ trial. trial.former ≡ agent.old.half.saved.config) }
    requires names { ForSome applied (λ trial. IsTrue (are_good_names trial.tried.config_map)) }
    ensures kept { OnOk result (agent.new.half ≡ call_after agent.old.half (ConfigDone (option_map (λ trial. trial.tried) applied) status)) }
    ensures room { OnOk result (fits agent.old.half (ConfigDone (option_map (λ trial. trial.tried) applied) status) ≡ true) }
    ensures played { IsPlayed agent.old agent.new disk.old disk.new (ConfigDone (option_map (λ trial. trial.tried) applied) status) result }
    ensures stop_due { IsErrOf result AgentFail.StoreFault → stops_in (disk_countdown disk.old).left (save_plan agent.old.store (kept_by agent.old.half (ConfigDone (option_map (λ trial. trial.tried) applied) status))) ≡ true }
    ensures refused { IfErr result (CallRefusal agent.old (ConfigDone (option_map (λ trial. trial.tried) applied) status)) }
{
    bytes_tell_store();
    stopped_save_leaves();
    let others = disk.other_faults();
    match agent.config_done(disk, applied, status) {
        Ok(()) => Ok(()),
        Err(fail) => Err(stop_or_memory(disk, others, fail)),
    }
}

// A fault of the disk came of the stop, where no other fault was counted since; or of want of memory, since no other call of the disk fails.
fn stop_or_memory(disk: &MemDisk, others: u64, fail: AgentFail) -> AgentFail
    ensures stop { result ≡ AgentFail.StoreFault → (fail ≡ AgentFail.StoreFault) × (HasRisen others (disk_countdown disk.now).others → ⊥) }
    ensures memory { fail ≡ AgentFail.StoreFault → (result ≡ AgentFail.StoreFault) ⊎ (result ≡ AgentFail.NoMemory) }
    ensures same { (fail ≡ AgentFail.StoreFault → ⊥) → result ≡ fail }
{
    match fail {
        AgentFail::StoreFault => {
            let now = disk.other_faults();
            if now == others && now != u64::MAX {
                AgentFail::StoreFault
            } else {
                AgentFail::NoMemory
            }
        }
        other => other,
    }
}
