//! The report of a round.

ghost use Rattle.std.specs.Prelude.{◌≡◌, ◌≤◌, ℕ, IfErr, OnOk, true, false};
ghost use Rattle.agent_rules.specs.Half.{kept_part};
ghost use Rattle.message_handlers.specs.Names.{IsOrdered, names_of};
ghost use Rattle.agent_state.specs.View.{FitsDisk};
ghost use Rattle.edge_devices.specs.Faults.{HasRisen};
ghost use Rattle.agent_rounds.specs.Moments.{IsCallEnd, IsPreparingEnd, IsSettlingEnd, RunsPart, held_view, with_agent, with_folder, with_held};
ghost use Rattle.agent_rounds.specs.Parts.{MakesReport};
ghost use Rattle.agent_rounds.specs.Rounds.{Informs, Prepares};
ghost use Rattle.agent_rounds.specs.Stages.{Stage};

use crate::ends::{AgentEnd, end_of};
use crate::held::Held;
use crate::settling::settle_where_due;
use crate::status_file::{read_status, tell_local};
use agent_state::Agent;
use edge_devices::{Disk, Folder};
use message_handlers::Handlers;
use plain_values::Blob;
use std::alloc::Global;

/// Makes the report that is due, and gives its canonical bytes.
pub(crate) fn make_report<D: Disk>(agent: &mut Agent, disk: &mut D) -> Result<Blob, AgentEnd>
    requires idle { agent.old.half.awaits ≡ false }
    requires fits { FitsDisk (D.state disk.old) agent.old.store (kept_part agent.old.half) }
    ensures runs { (s : Stage) → RunsPart MakesReport (D.state disk.old) (D.state disk.new) (with_agent agent.old s) (with_agent agent.new s) result }
    ensures fits { OnOk result (FitsDisk (D.state disk.new) agent.new.store (kept_part agent.new.half)) }
    ensures awaits { OnOk result (agent.new.half.awaits ≡ true) }
    ensures end { IfErr result IsCallEnd }
{
    match agent.report(disk) {
        Ok(prepared) => Ok(prepared.bytes),
        Err(fail) => Err(end_of(fail)),
    }
}

// Settles the area where that is due, reads the status file, and tells the agent of it.
fn inform<L: Drop, F: Folder>(
    alloc: Global,
    agent: &mut Agent,
    held: &mut Held<L>,
    handlers: &Handlers,
    folder: &mut F,
) -> Result<(), AgentEnd>
    ensures informs { (number : L → ℕ) (s : Stage) → Informs (λ names. IsOrdered (names_of handlers.now) names.capabilities)
        (with_agent agent.old (with_held (held_view number held.old) (with_folder (F.state folder.old) s)))
        (with_agent agent.new (with_held (held_view number held.new) (with_folder (F.state folder.new) s))) result }
    ensures awaits { agent.new.half.awaits ≡ agent.old.half.awaits }
    ensures kept { kept_part agent.new.half ≡ kept_part agent.old.half }
    ensures store { agent.new.store ≡ agent.old.store }
    ensures end { IfErr result IsSettlingEnd }
    ensures fault { result ≡ Err AgentEnd.FolderFault → HasRisen (F.state folder.old).faults (F.state folder.new).faults }
    ensures counts { (F.state folder.old).faults ≤ (F.state folder.new).faults }
{
    match settle_where_due(alloc, &agent.saved().config, held, folder) {
        Ok(()) => {}
        Err(end) => return Err(end),
    }
    match read_status(alloc, held, folder) {
        Ok(()) => {}
        Err(end) => return Err(end),
    }
    tell_local(alloc, agent, held, handlers)
}

/// Prepares a report: settles the area where that is due, reads the status file, tells the agent of it, and makes the report.
pub(crate) fn prepare_report<L: Drop, D: Disk, F: Folder>(
    alloc: Global,
    agent: &mut Agent,
    held: &mut Held<L>,
    handlers: &Handlers,
    disk: &mut D,
    folder: &mut F,
) -> Result<Blob, AgentEnd>
    requires idle { agent.old.half.awaits ≡ false }
    requires fits { FitsDisk (D.state disk.old) agent.old.store (kept_part agent.old.half) }
    ensures runs { (number : L → ℕ) (s : Stage) → RunsPart (Prepares (λ names. IsOrdered (names_of handlers.now) names.capabilities)) (D.state disk.old) (D.state disk.new)
        (with_agent agent.old (with_held (held_view number held.old) (with_folder (F.state folder.old) s)))
        (with_agent agent.new (with_held (held_view number held.new) (with_folder (F.state folder.new) s))) result }
    ensures fits { OnOk result (FitsDisk (D.state disk.new) agent.new.store (kept_part agent.new.half)) }
    ensures awaits { OnOk result (agent.new.half.awaits ≡ true) }
    ensures end { IfErr result IsPreparingEnd }
    ensures fault { result ≡ Err AgentEnd.FolderFault → HasRisen (F.state folder.old).faults (F.state folder.new).faults }
    ensures counts { (F.state folder.old).faults ≤ (F.state folder.new).faults }
{
    match inform(alloc, agent, held, handlers, folder) {
        Ok(()) => {}
        Err(end) => return Err(end),
    }
    make_report(agent, disk)
}
