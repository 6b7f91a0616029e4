//! The lab.

ghost use Rattle.std.specs.Prelude.{◌≡◌, []};
ghost use Rattle.std.specs.Option.{option_copied, option_map};
ghost use Rattle.world_lab.specs.Histories.{server_after};
ghost use Rattle.edge_devices.specs.Disks.{disk_bytes};
ghost use Rattle.edge_devices.specs.MemoryDisks.{disk_schedule, memory_disk};
ghost use Rattle.edge_devices.specs.MemoryFolders.{folder_schedule, memory_folder};
ghost use Rattle.agent_store.specs.Slots.{Nothing, reading};
ghost use Rattle.agent_rules.specs.Codec.{codec};
ghost use Rattle.agent_rules.specs.Half.{no_config};
ghost use Rattle.world_lab.specs.Labs.{files_in_use, lab_state, unplayed};

use crate::plays::LAYOUT;
use agent_state::Agent;
use edge_devices::{MemDisk, MemoryFolder};
use message_values::CustomCapabilities;
use plain_values::List;
use server_core::Server;
use std::alloc::Global;
use std::marker::Model;

/// The number of servers of a lab. The endpoint of server S, a digit, is `http://sS`.
pub const SERVERS: usize = 10;

/// All capabilities of a server that this profile of the protocol names (OpAMP specification, "ServerToAgent.capabilities").
const CAPABILITIES: u64 = 63;

/// An agent on its host, and its servers. Contracts see these four parts, and speak of them by `lab_state`: the agent's half of the world, or none; what each
/// server is and holds; what the disk reads; and what the areas of the folder hold.
pub struct Lab {
    pub(crate) agent: Option<Agent>,
    pub(crate) servers: [Server; SERVERS],
    pub(crate) disk: MemDisk,
    pub(crate) folder: MemoryFolder,
    pub(crate) alloc: Global,
}

impl Model for Lab {
    ghost use Rattle.std.specs.Coded.{codes};
    ghost use Rattle.agent_state.specs.contracts.agent.Agent as agent_;
    ghost use Rattle.edge_devices.specs.contracts.memory_disk.MemDisk as disk_;
    ghost use Rattle.edge_devices.specs.contracts.memory_folder.MemoryFolder as folder_;
    ghost use Rattle.server_core.specs.contracts.server.Server as server_;
    ghost use Rattle.world_lab.specs.Labs.{LabShown};

    ghost Value = { LabShown };

    ghost coded = { Prim.hlevel (codes, agent_.the_row.coded, server_.the_row.coded, disk_.the_row.coded, folder_.the_row.coded) };

    ghost view = { λ lab. record { agent = lab.agent; servers = lab.servers; disk = lab.disk; folder = lab.folder } };
}

// By hand, so that its drop is a call: laid out in each function that holds a lab it is dear to prove.
impl Drop for Lab {
    fn drop(self) {
        let Lab {
            agent: _,
            servers: _,
            disk: _,
            folder: _,
            alloc: _,
        } = self;
    }
}

impl Lab {
    /// A lab in which no script was played: ten servers that hold nothing, an empty disk and folder of which no call is to fail, and no agent. Takes no
    /// memory.
    pub fn new(alloc: Global) -> Lab
        ensures unplayed { lab_state result ≡ unplayed }
        ensures disk { (disk_schedule result.disk).failing ≡ [] }
        ensures folder { (folder_schedule result.folder).failing ≡ [] }
    {
        Lab {
            agent: None,
            servers: [
                fresh_server(alloc),
                fresh_server(alloc),
                fresh_server(alloc),
                fresh_server(alloc),
                fresh_server(alloc),
                fresh_server(alloc),
                fresh_server(alloc),
                fresh_server(alloc),
                fresh_server(alloc),
                fresh_server(alloc),
            ],
            disk: empty_disk(alloc),
            folder: empty_folder(alloc),
            alloc,
        }
    }

    /// The agent of the script that was played, if one was. Takes no memory.
    pub fn agent(&self) -> Option<&Agent>
        ensures agent { option_map (λ a. a.half) (option_copied result) ≡ (lab_state self.now).agent }
    {
        self.agent.as_ref()
    }

    /// The servers, in the order of their numbers. Takes no memory.
    pub fn servers(&self) -> &[Server]
        ensures servers { result.now ≡ (lab_state self.now).servers }
    {
        &self.servers
    }
}

/// A server that no report reached since its start. Takes no memory.
pub(crate) fn fresh_server(alloc: Global) -> Server
    ensures fresh { result ≡ server_after [] }
{
    let custom = CustomCapabilities {
        capabilities: List::new(alloc),
    };
    Server::new(alloc, CAPABILITIES, custom)
}

/// A disk that was never written and of which no call is to fail. Takes no memory.
pub(crate) fn empty_disk(alloc: Global) -> MemDisk
    ensures blank { reading codec LAYOUT (disk_bytes (memory_disk result)) ≡ Nothing }
    ensures sound { (disk_schedule result).failing ≡ [] }
{
    let failing = Vec::new(alloc);
    MemDisk::new(alloc, failing)
}

/// A folder without files, of which no call is to fail. Takes no memory.
pub(crate) fn empty_folder(alloc: Global) -> MemoryFolder
    ensures empty { (memory_folder result).files ≡ files_in_use no_config }
    ensures sound { (folder_schedule result).failing ≡ [] }
{
    let failing = Vec::new(alloc);
    MemoryFolder::new(alloc, failing)
}
