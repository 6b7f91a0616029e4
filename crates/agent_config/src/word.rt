//! The collector's word on a configuration that is tried: what its status says of the trial, by the trial's name.

ghost use Rattle.std.specs.Prelude.{◌≡◌, IfOk};
ghost use Rattle.agent_config.specs.Word.{SaysOfTrial, word_of};

use message_values::profile::{APPLIED, FAILED};
use message_values::{AgentToServer, RemoteConfigStatus};
use plain_values::{Blob, NoMemory, Plain, Text};
use std::alloc::Global;

/// What a status says on a trial.
#[derive(Drop)]
pub enum Said {
    /// Nothing.
    Nothing,
    /// The collector applied the files.
    Taken,
    /// The collector failed with them, for this reason.
    Refused(Text),
}

// The collector's word on a configuration.
fn word_of(alloc: Global, remote: &RemoteConfigStatus) -> Result<Said, NoMemory>
    ensures { IfOk result (λ said. said ≡ word_of remote.now) }
{
    if remote.status == APPLIED {
        return Ok(Said::Taken);
    }
    if remote.status == FAILED {
        return Ok(Said::Refused(remote.error_message.copy(alloc)?));
    }
    Ok(Said::Nothing)
}

/// What a status says on the trial of this name: its word, where its remote_config_status has the name as its last hash; else nothing. So no word on
/// another trial counts.
pub fn said_of(alloc: Global, name: &Blob, status: &AgentToServer) -> Result<Said, NoMemory>
    ensures { IfOk result (SaysOfTrial name.now status.now) }
{
    let Some(remote) = &status.remote_config_status else {
        return Ok(Said::Nothing);
    };
    if remote.last_remote_config_hash.same(name) {
        word_of(alloc, remote)
    } else {
        Ok(Said::Nothing)
    }
}
