//! What is known of a script while it is played.

ghost use Rattle.std.specs.Prelude.{◌≡◌, ◌<◌, None, map, [], IfOk};
ghost use Rattle.world_lab.specs.Playing.{endpoint_of, first_local, first_progress, script_start, stop_call, stop_mode};
ghost use Rattle.world_lab.specs.Histories.{server_after, server_numbers};
ghost use Rattle.world_lab.specs.Hosts.{IsHosted, IsServer, lab_opening, stage_at};
ghost use Rattle.world_lab.specs.Mirrors.{Mirrors};

use crate::changes::healthy;
use crate::lab::empty_folder;
use agent_rules::LocalState;
use agent_state::Agent;
use agent_stopped::Opening;
use agent_store::Layout;
use edge_devices::{MemDisk, MemoryFolder, Mode};
use message_values::{
    AgentDescription, AgentToServer, AvailableComponents, CustomCapabilities, EffectiveConfig,
    ServerToAgent, Settings,
};
use plain_values::{Blob, Headers, List, Map, NoMemory, Text, Uid};
use std::alloc::Global;

/// Where the agent's store lies on its disk.
pub const LAYOUT: Layout = Layout {
    room: 2_097_152,
    log: 65_536,
};

/// A report that the agent sent.
pub struct SentReport {
    /// The number of the server that it was sent to, a digit.
    pub server: u8,
    /// What its bytes say.
    pub message: AgentToServer,
    /// The server's reply to its latest delivery.
    pub reply: Option<ServerToAgent>,
}

// By hand, so that it is a call where a value is dropped, and not laid out there.
impl Drop for SentReport {
    fn drop(self) {
        let SentReport {
            server: _,
            message,
            reply,
        } = self;
        drop(message);
        drop(reply);
    }
}

/// A message that a server pushed, and that the agent didn't take yet.
pub struct WaitingPush {
    /// The number of the server, a digit.
    pub server: u8,
    /// The message.
    pub message: ServerToAgent,
}

// By hand, so that it is a call where a value is dropped, and not laid out there.
impl Drop for WaitingPush {
    fn drop(self) {
        let WaitingPush {
            server: _,
            message: _,
        } = self;
    }
}

impl WaitingPush {
    /// The message. Takes no memory.
    pub fn into_message(self) -> ServerToAgent
        ensures message { result ≡ self.message }
    {
        let WaitingPush { server: _, message } = self;
        message
    }
}

/// An agent, its disk and its folder.
#[derive(Drop)]
pub struct Host {
    /// The agent.
    pub agent: Agent,
    /// The disk on which it keeps what it must not lose.
    pub disk: MemDisk,
    /// The folder of its configuration.
    pub folder: MemoryFolder,
}

/// A stop that waits for the next line in which the agent may keep something.
#[derive(Clone, Copy, Debug, PartialEq, Eq)]
pub struct ArmedStop {
    /// The device call that is stopped, counted from 1 in that line.
    pub call: u64,
    /// What a crash then leaves of the bytes that were not synced.
    pub mode: Mode,
}

/// An agent at work, and what the script did to it.
#[derive(Drop)]
pub struct Play {
    /// The agent on its host.
    pub host: Host,
    /// What the agent is started with, each time.
    pub opening: Opening,
    /// What the agent was last told of itself.
    pub local: LocalState,
    /// The stop that is armed, if one is.
    pub stop: Option<ArmedStop>,
    /// All reports that it sent, in their order.
    pub sent: Vec<SentReport>,
    /// The pushes that wait, the oldest first.
    pub pushes: Vec<WaitingPush>,
    /// The memory that all is made in.
    pub alloc: Global,
}

/// The play of a script, before its first line.
pub fn opening(alloc: Global) -> Result<Play, NoMemory>
    ensures mirrors { IfOk result (λ play. Mirrors first_progress play (map (λ server. server_after []) server_numbers)) }
{
    let opening = first_opening(alloc)?;
    let first = first_local(alloc);
    let (agent, disk) = agent_stopped::begin(alloc, &opening, first)?;
    let folder = empty_folder(alloc);
    let local = first_local(alloc);
    Ok(Play {
        host: Host {
            agent,
            disk,
            folder,
        },
        opening,
        local,
        stop: None,
        sent: Vec::new(alloc),
        pushes: Vec::new(alloc),
        alloc,
    })
}

/// What a script's agent is started with, each time.
pub fn first_opening(alloc: Global) -> Result<Opening, NoMemory>
    ensures opening { IfOk result (λ opening. opening ≡ lab_opening) }
{
    Ok(Opening {
        layout: LAYOUT,
        uid: first_uid(),
        settings: first_settings(alloc)?,
        asks_uid: false,
    })
}

/// The number of the device call that is stopped; 0 where no stop is armed. Takes no memory.
pub fn call_of(stop: Option<ArmedStop>) -> u64
    ensures call { result ≡ stop_call stop }
{
    match stop {
        Some(stop) => stop.call,
        None => 0,
    }
}

/// What a crash leaves where the armed stop comes. Takes no memory.
pub fn mode_of(stop: Option<ArmedStop>) -> Mode
    ensures mode { result ≡ stop_mode stop }
{
    match stop {
        Some(stop) => stop.mode,
        None => Mode::Old,
    }
}

/// The armed stop is taken: its device call, counted from now on, is stopped. The mode of a crash then. Takes no memory.
pub fn take_stop(play: &mut Play) -> Mode
    ensures agent { play.new.host.agent ≡ play.old.host.agent }
    ensures folder { play.new.host.folder ≡ play.old.host.folder }
    ensures stage { stage_at play.new.host ≡ record (stage_at play.old.host) { left = stop_call play.old.stop } }
    ensures hosted { IsHosted play.old.host → IsHosted play.new.host }
    ensures mode { result ≡ stop_mode play.old.stop }
    ensures taken { play.new.stop ≡ None }
    ensures opening { play.new.opening ≡ play.old.opening }
    ensures local { play.new.local ≡ play.old.local }
    ensures sent { play.new.sent.items ≡ play.old.sent.items }
    ensures pushes { play.new.pushes.items ≡ play.old.pushes.items }
{
    let stop = play.stop;
    play.stop = None;
    agent_stopped::arm(&mut play.host.disk, call_of(stop));
    mode_of(stop)
}

/// The identifier of a script's agent. Takes no memory.
pub fn first_uid() -> Uid
    ensures uid { result ≡ script_start.uid }
{
    Uid::of([0, 1, 2, 3, 4, 5, 6, 7, 8, 9, 10, 11, 12, 13, 14, 15])
}

/// The connection settings that a script's agent has at first.
pub fn first_settings(alloc: Global) -> Result<Settings, NoMemory>
    ensures settings { IfOk result (λ settings. settings ≡ script_start.settings) }
{
    Ok(Settings {
        endpoint: Text::of(String::from_str(alloc, "http://s0")?),
        headers: Headers {
            headers: List::new(alloc),
        },
        interval: 0,
        hash: Blob::of(Vec::new(alloc)),
    })
}

/// What the agent knows of itself at first. Takes no memory.
pub fn first_local(alloc: Global) -> LocalState
    ensures local { result ≡ first_local }
{
    LocalState {
        description: AgentDescription {
            identifying_attributes: List::new(alloc),
            non_identifying_attributes: List::new(alloc),
        },
        capabilities: 0x801,
        health: healthy(alloc),
        effective: EffectiveConfig { config_map: None },
        components: AvailableComponents {
            components: Map::new(alloc),
            hash: Blob::of(Vec::new(alloc)),
        },
        custom: CustomCapabilities {
            capabilities: List::new(alloc),
        },
    }
}

/// The number of the server at this endpoint. Takes no memory.
pub fn number_at(endpoint: &str) -> u8
    requires server { IsServer endpoint.now }
    ensures digit { result < 10 }
    ensures endpoint { endpoint_of result ≡ endpoint.now }
{
    endpoint.as_bytes()[8] - b'0'
}
