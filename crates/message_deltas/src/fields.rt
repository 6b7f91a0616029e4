use message_values::{
    AgentDescription, ComponentHealth, CustomCapabilities, EffectiveConfig, PackageStatuses,
    RemoteConfigStatus,
};
use plain_values::Blob;

/// What an agent's capabilities oblige it to report. The description is always obliged and has no flag.
#[derive(Clone, Copy, Debug, PartialEq, Eq)]
pub struct Obliged {
    /// The health.
    pub health: bool,
    /// The effective configuration.
    pub effective: bool,
    /// The status of the remote configuration.
    pub remote: bool,
    /// The statuses of the packages.
    pub packages: bool,
    /// The hash of the components.
    pub components: bool,
}

/// The parts of a state that one report carries, each none where the report leaves it out.
#[derive(Drop)]
pub struct CarriedFields {
    /// What the agent is.
    pub description: Option<AgentDescription>,
    /// What the agent can do, a set of bits, which each report carries.
    pub capabilities: u64,
    /// The health of the agent and its components.
    pub health: Option<ComponentHealth>,
    /// The configuration that is in effect.
    pub effective: Option<EffectiveConfig>,
    /// How the agent fares with the configuration that it was offered.
    pub remote: Option<RemoteConfigStatus>,
    /// How the agent fares with its packages.
    pub packages: Option<PackageStatuses>,
    /// The hash of the components.
    pub components: Option<Blob>,
    /// The custom capabilities.
    pub custom: Option<CustomCapabilities>,
}
