//! What an agent knows, and what its calls give.

use message_values::{
    AgentDescription, AgentRemoteConfig, AvailableComponents, ComponentHealth, CustomCapabilities,
    CustomMessage, EffectiveConfig, PackagesAvailable, ServerErrorResponse, Settings,
};
use plain_values::{Blob, NoMemory, Plain, Text};
use std::alloc::Global;
use thiserror::Error;

/// How many report numbers are reserved at once. An agent that starts again goes on at the first number that isn't reserved, so that no number is
/// used twice.
pub const RESERVED_BLOCK: u64 = 1_024;

/// The largest limit at which a further block of numbers can be reserved.
pub const LAST_LIMIT: u64 = u64::MAX - RESERVED_BLOCK;

/// What an agent knows of itself by its own means.
///
/// Of the health, the effective configuration and the components it reports what its capabilities oblige it to.
pub struct LocalState {
    /// What the agent is.
    pub description: AgentDescription,
    /// What the agent can do, as the bits of `AgentCapabilities`.
    pub capabilities: u64,
    /// How the agent and its components fare.
    pub health: ComponentHealth,
    /// The configuration that the agent runs with.
    pub effective: EffectiveConfig,
    /// The components that the agent can have, with their hash.
    pub components: AvailableComponents,
    /// The custom capabilities that the agent has.
    pub custom: CustomCapabilities,
}

// By hand, so that it is a call where a value is dropped, and not laid out there.
impl Drop for LocalState {
    fn drop(self) {
        let LocalState {
            description: _,
            capabilities: _,
            health: _,
            effective: _,
            components: _,
            custom: _,
        } = self;
    }
}

/// A report that is ready to be sent.
#[derive(Drop)]
pub struct Prepared {
    /// Its number (OpAMP specification, "AgentToServer.sequence_num").
    pub number: u64,
    /// Whether it carries the whole state, and not only what has changed.
    pub whole: bool,
    /// Its canonical bytes, at most 4,194,304.
    pub bytes: Blob,
}

/// What a reply asks of the agent's caller.
#[derive(Drop)]
pub struct Next {
    /// Whether the server asks for the full state; the next report is whole then.
    pub full: bool,
    /// The error that came in place of an answer. The next report is whole after it.
    pub error: Option<ServerErrorResponse>,
    /// Whether the agent is to be restarted.
    pub restart: bool,
    /// Whether the settings under trial have their proof.
    pub proved: bool,
    /// A configuration to be applied.
    pub config: Option<AgentRemoteConfig>,
    /// Packages to be installed.
    pub packages: Option<PackagesAvailable>,
    /// Connection settings to be tried.
    pub connection: Option<Settings>,
    /// The endpoint of offered settings that aren't acceptable.
    pub refused: Option<Text>,
    /// A custom message for a handler.
    pub message: Option<CustomMessage>,
}

/// Why a call of an agent was refused. Each refusal but that of the disk leaves the agent as it was.
#[derive(Clone, Copy, Debug, PartialEq, Eq, Error)]
pub enum AgentFail {
    /// The disk failed. The agent is broken, and starts again with what its store reads.
    #[error("the disk failed")]
    StoreFault,
    /// The report needs a number, and no more can be reserved; or nothing more can be kept.
    #[error("no more numbers can be reserved")]
    NumbersSpent,
    /// The reply is to another agent.
    #[error("the reply is to another agent")]
    WrongUid,
    /// The report has more than 4,194,304 bytes in canonical form, or more than 100 levels; or what is to be kept is more than there is room for.
    #[error("the report, or what is to be kept, is too large")]
    TooLarge,
    /// Memory ran out.
    #[error("there was no memory")]
    NoMemory,
}

impl From<NoMemory> for AgentFail {
    ghost use Rattle.std.specs.Prelude.{◌≡◌};
    ghost use Rattle.agent_rules.specs.declared.rules.parts.AgentFail.TheVariants as fails;

    ghost from_gives = { λ _ result. result ≡ fails.NoMemory };

    fn from(_: NoMemory) -> AgentFail {
        AgentFail::NoMemory
    }
}

impl Plain for LocalState {
    fn copy(&self, alloc: Global) -> Result<LocalState, NoMemory> {
        Ok(LocalState {
            description: self.description.copy(alloc)?,
            capabilities: self.capabilities,
            health: self.health.copy(alloc)?,
            effective: self.effective.copy(alloc)?,
            components: self.components.copy(alloc)?,
            custom: self.custom.copy(alloc)?,
        })
    }

    fn same(&self, other: &LocalState) -> bool {
        self.description.same(&other.description)
            && self.capabilities == other.capabilities
            && self.health.same(&other.health)
            && self.effective.same(&other.effective)
            && self.components.same(&other.components)
            && self.custom.same(&other.custom)
    }
}
