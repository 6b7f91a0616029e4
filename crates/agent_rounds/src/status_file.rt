//! The status file, by which an agent knows of itself.

ghost use Rattle.std.specs.Prelude.{◌≡◌, ◌≤◌, ℕ, Ok, Some, IfErr, IfOk, IsTrue, OnErr, OnOk, codes};
ghost use Rattle.agent_rules.specs.Half.{kept_part};
ghost use Rattle.message_handlers.specs.Names.{IsOrdered, names_of};
ghost use Rattle.edge_devices.specs.Folders.{Calls, SameFiles};
ghost use Rattle.edge_devices.specs.declared.folders.Area.TheVariants.{Status as StatusArea};
ghost use Rattle.agent_rounds.specs.Moments.{held_view, with_agent, with_folder, with_held};
ghost use Rattle.agent_rounds.specs.Parts.{ReadsStatus, TellsLocal, TellsStatus};
ghost use Rattle.agent_rounds.specs.Stages.{Stage};

use crate::ends::AgentEnd;
use crate::held::Held;
use crate::local::local_state;
use agent_state::Agent;
use edge_devices::{Area, Folder, FolderCall, FolderFail};
use message_codec::reader::items::ReadFail;
use message_handlers::Handlers;
use message_reports::decoding::decode_report;
use message_values::AgentToServer;
use plain_values::{Blob, NoMemory, Text};
use std::alloc::Global;
use std::mem;

fn status_name(alloc: Global) -> Result<Text, NoMemory>
    ensures { IfOk result (λ name. name ≡ codes "status.pb") }
{
    Ok(Text::of(String::from_str(alloc, "status.pb")?))
}

/// Reads the file, if it is there.
pub(crate) fn read_file<F: Folder>(
    alloc: Global,
    folder: &mut F,
) -> Result<Option<Blob>, FolderFail>
    ensures body { IfOk result (λ body. IsTrue (F.state folder.new).told → body ≡ (F.state folder.old).files StatusArea (codes "status.pb")) }
    ensures same { SameFiles (F.state folder.old).files (F.state folder.new).files }
    ensures call { Calls (F.state folder.old) (F.state folder.new) (FolderCall.Read StatusArea (codes "status.pb")) result }
{
    let name = match status_name(alloc) {
        Ok(name) => name,
        Err(NoMemory) => return Err(FolderFail::NoMemory),
    };
    folder.read(alloc, Area::Status, &name)
}

// Keeps what the file means; where it is refused the status that was read last stays. The former one is dropped by a call.
fn keep_status(alloc: Global, last: &mut Option<AgentToServer>, file: &[u8]) -> Result<(), AgentEnd>
    ensures told { OnOk result (TellsStatus last.old (Ok (Some file.now)) last.new) }
    ensures kept { OnErr result (last.new ≡ last.old) }
    ensures end { IfErr result (λ end. end ≡ AgentEnd.NoMemory) }
{
    match decode_report(alloc, file) {
        Ok(status) => {
            drop(mem::replace(last, Some(status)));
            Ok(())
        }
        Err(ReadFail::NoMemory) => Err(AgentEnd::NoMemory),
        Err(ReadFail::Refused(_)) => Ok(()),
    }
}

/// Reads the status file. Where it isn't there or is refused, or the folder fails, the one that was read last stays.
pub(crate) fn read_status<L: Drop, F: Folder>(
    alloc: Global,
    held: &mut Held<L>,
    folder: &mut F,
) -> Result<(), AgentEnd>
    ensures reads { (number : L → ℕ) (s : Stage)
        → ReadsStatus (with_held (held_view number held.old) (with_folder (F.state folder.old) s)) (with_held (held_view number held.new) (with_folder (F.state folder.new) s)) result }
    ensures end { IfErr result (λ end. end ≡ AgentEnd.NoMemory) }
    ensures counts { (F.state folder.old).faults ≤ (F.state folder.new).faults }
{
    let read = match read_file(alloc, folder) {
        Ok(read) => read,
        Err(FolderFail::Fault) => return Ok(()),
        Err(FolderFail::NoMemory) => return Err(AgentEnd::NoMemory),
    };
    let Some(file) = read else {
        return Ok(());
    };
    keep_status(alloc, &mut held.status, file.as_slice())
}

/// Tells the agent what it knows of itself, by the status file that was read last.
pub(crate) fn tell_local<L: Drop>(
    alloc: Global,
    agent: &mut Agent,
    held: &Held<L>,
    handlers: &Handlers,
) -> Result<(), AgentEnd>
    ensures tells { (number : L → ℕ) (s : Stage)
        → TellsLocal (λ names. IsOrdered (names_of handlers.now) names.capabilities) (with_agent agent.old (with_held (held_view number held.now) s)) (with_agent agent.new (with_held (held_view number held.now) s)) result }
    ensures end { IfErr result (λ end. end ≡ AgentEnd.NoMemory) }
    ensures awaits { agent.new.half.awaits ≡ agent.old.half.awaits }
    ensures kept { kept_part agent.new.half ≡ kept_part agent.old.half }
    ensures store { agent.new.store ≡ agent.old.store }
{
    let names = match handlers.names(alloc) {
        Ok(names) => names,
        Err(NoMemory) => return Err(AgentEnd::NoMemory),
    };
    let local = match local_state(alloc, &held.status, &agent.saved().config, &names) {
        Ok(local) => local,
        Err(NoMemory) => return Err(AgentEnd::NoMemory),
    };
    agent.change(local);
    Ok(())
}
