//! What the examples are made of.

use agent_rules::LocalState;
use message_values::{
    AgentDescription, AgentIdentification, AgentRemoteConfig, AvailableComponents,
    ComponentDetails, ComponentHealth, ConnectionSettingsOffers, CustomCapabilities, CustomMessage,
    EffectiveConfig, OpAMPConnectionSettings, PackageStatuses, PackagesAvailable,
    RemoteConfigStatus, ServerErrorResponse, ServerToAgent, ServerToAgentCommand, Settings,
};
use plain_values::{AgentConfigFile, AgentConfigMap, Blob, Header, Headers, List, Map, Text};
use std::process::Abort;

pub(crate) const UID: [u8; 16] = [0, 1, 2, 3, 4, 5, 6, 7, 8, 9, 10, 11, 12, 13, 14, 15];

/// An agent that tells its health, and what it is.
#[derive(Clone, Copy)]
pub(crate) struct Look {
    pub(crate) capabilities: u64,
    /// The last error of one that isn't healthy.
    pub(crate) error: &'static str,
    /// The names of the components.
    pub(crate) components: &'static [&'static str],
    pub(crate) components_hash: &'static [u8],
}

pub(crate) const HEALTHY: Look = Look {
    capabilities: 0x801,
    error: "",
    components: &[],
    components_hash: b"",
};

pub(crate) const UNWELL: Look = Look {
    error: "no",
    ..HEALTHY
};

/// A connection that is offered: the endpoint, the hash, and a header's name and value.
#[derive(Clone, Copy)]
pub(crate) struct Connection {
    pub(crate) url: &'static str,
    pub(crate) hash: &'static [u8],
    pub(crate) header: Option<(&'static str, &'static str)>,
}

/// A configuration that is offered: the name of its one file, whose body is `hi`, and the offer's hash.
#[derive(Clone, Copy)]
pub(crate) struct Config {
    pub(crate) name: &'static str,
    pub(crate) hash: &'static [u8],
}

/// A reply.
#[derive(Clone, Copy)]
pub(crate) struct Answer {
    pub(crate) to: [u8; 16],
    pub(crate) flags: u64,
    pub(crate) error: Option<&'static str>,
    /// The type of the command.
    pub(crate) command: Option<i32>,
    pub(crate) new_uid: Option<[u8; 16]>,
    pub(crate) connection: Option<Connection>,
    pub(crate) config: Option<Config>,
    /// The hash of all packages.
    pub(crate) packages: Option<&'static [u8]>,
}

pub(crate) const PLAIN: Answer = Answer {
    to: UID,
    flags: 0,
    error: None,
    command: None,
    new_uid: None,
    connection: None,
    config: None,
    packages: None,
};

fn text(rt: &(impl Abort + AllocGlobal), text: &str) -> Text {
    Text::from_str(rt.alloc(), text).expect(rt, "memory")
}

fn blob(rt: &(impl Abort + AllocGlobal), bytes: &[u8]) -> Blob {
    Blob::from_slice(rt.alloc(), bytes).expect(rt, "memory")
}

fn components(rt: &(impl Abort + AllocGlobal), names: &[&str]) -> Map<ComponentDetails> {
    let mut components = Map::new(rt.alloc());
    for name in names {
        let details = ComponentDetails {
            metadata: List::new(rt.alloc()),
            sub_component_map: Map::new(rt.alloc()),
        };
        components.put(text(rt, name), details).expect(rt, "memory");
    }
    components
}

fn health(rt: &(impl Abort + AllocGlobal), error: &str) -> ComponentHealth {
    ComponentHealth {
        healthy: error.is_empty(),
        start_time_unix_nano: 0,
        last_error: text(rt, error),
        status: Text::new(rt.alloc()),
        status_time_unix_nano: 0,
        component_health_map: Map::new(rt.alloc()),
    }
}

fn available(rt: &(impl Abort + AllocGlobal), look: Look) -> AvailableComponents {
    AvailableComponents {
        components: components(rt, look.components),
        hash: blob(rt, look.components_hash),
    }
}

pub(crate) fn local(rt: &(impl Abort + AllocGlobal), look: Look) -> LocalState {
    LocalState {
        description: AgentDescription {
            identifying_attributes: List::new(rt.alloc()),
            non_identifying_attributes: List::new(rt.alloc()),
        },
        capabilities: look.capabilities,
        health: health(rt, look.error),
        effective: EffectiveConfig { config_map: None },
        components: available(rt, look),
        custom: CustomCapabilities {
            capabilities: List::new(rt.alloc()),
        },
    }
}

pub(crate) fn settings(rt: &(impl Abort + AllocGlobal), endpoint: &str) -> Settings {
    Settings {
        endpoint: text(rt, endpoint),
        headers: Headers {
            headers: List::new(rt.alloc()),
        },
        interval: 0,
        hash: Blob::new(rt.alloc()),
    }
}

pub(crate) fn message(rt: &(impl Abort + AllocGlobal)) -> CustomMessage {
    CustomMessage {
        capability: text(rt, "c"),
        kind: text(rt, "t"),
        body: blob(rt, b"d"),
    }
}

pub(crate) fn files(rt: &(impl Abort + AllocGlobal), name: &str) -> AgentConfigMap {
    let file = AgentConfigFile {
        body: blob(rt, b"hi"),
        content_type: text(rt, ""),
    };
    let mut config_map = Map::new(rt.alloc());
    config_map.put(text(rt, name), file).expect(rt, "memory");
    AgentConfigMap { config_map }
}

pub(crate) fn status(
    rt: &(impl Abort + AllocGlobal),
    hash: &[u8],
    status: i32,
    why: &str,
) -> RemoteConfigStatus {
    RemoteConfigStatus {
        last_remote_config_hash: blob(rt, hash),
        status,
        error_message: text(rt, why),
    }
}

pub(crate) fn packages(rt: &(impl Abort + AllocGlobal), hash: &[u8]) -> PackageStatuses {
    PackageStatuses {
        packages: Map::new(rt.alloc()),
        server_provided_all_packages_hash: blob(rt, hash),
        error_message: text(rt, ""),
    }
}

fn header(rt: &(impl Abort + AllocGlobal), key: &str, value: &str) -> Header {
    Header {
        key: text(rt, key),
        value: text(rt, value),
    }
}

fn headers_of(rt: &(impl Abort + AllocGlobal), offer: Connection) -> Option<Headers> {
    match offer.header {
        Some((key, value)) => {
            let mut headers = List::new(rt.alloc());
            headers.push(header(rt, key, value)).expect(rt, "memory");
            Some(Headers { headers })
        }
        None => None,
    }
}

fn endpoint_of(rt: &(impl Abort + AllocGlobal), offer: Connection) -> OpAMPConnectionSettings {
    OpAMPConnectionSettings {
        destination_endpoint: text(rt, offer.url),
        headers: headers_of(rt, offer),
        certificate: None,
        heartbeat_interval_seconds: 0,
    }
}

fn connection_of(rt: &(impl Abort + AllocGlobal), offer: Connection) -> ConnectionSettingsOffers {
    ConnectionSettingsOffers {
        hash: blob(rt, offer.hash),
        opamp: Some(endpoint_of(rt, offer)),
    }
}

fn offers_config(
    rt: &(impl Abort + AllocGlobal),
    offer: Option<Config>,
) -> Option<AgentRemoteConfig> {
    match offer {
        Some(offer) => Some(AgentRemoteConfig {
            config: Some(files(rt, offer.name)),
            config_hash: blob(rt, offer.hash),
        }),
        None => None,
    }
}

fn offers_connection(
    rt: &(impl Abort + AllocGlobal),
    offer: Option<Connection>,
) -> Option<ConnectionSettingsOffers> {
    match offer {
        Some(offer) => Some(connection_of(rt, offer)),
        None => None,
    }
}

fn offers_packages(
    rt: &(impl Abort + AllocGlobal),
    hash: Option<&[u8]>,
) -> Option<PackagesAvailable> {
    match hash {
        Some(hash) => Some(PackagesAvailable {
            packages: Map::new(rt.alloc()),
            all_packages_hash: blob(rt, hash),
        }),
        None => None,
    }
}

fn error_of(rt: &(impl Abort + AllocGlobal), error: Option<&str>) -> Option<ServerErrorResponse> {
    match error {
        Some(error) => Some(ServerErrorResponse {
            kind: 2,
            error_message: text(rt, error),
            retry_info: None,
        }),
        None => None,
    }
}

fn identification_of(
    rt: &(impl Abort + AllocGlobal),
    uid: Option<[u8; 16]>,
) -> Option<AgentIdentification> {
    match uid {
        Some(uid) => Some(AgentIdentification {
            new_instance_uid: blob(rt, &uid),
        }),
        None => None,
    }
}

// Each part is made where it is put, so that none is dropped.
pub(crate) fn reply_of(rt: &(impl Abort + AllocGlobal), answer: Answer) -> ServerToAgent {
    ServerToAgent {
        instance_uid: blob(rt, &answer.to),
        error_response: error_of(rt, answer.error),
        remote_config: offers_config(rt, answer.config),
        connection_settings: offers_connection(rt, answer.connection),
        packages_available: offers_packages(rt, answer.packages),
        flags: answer.flags,
        capabilities: 63,
        agent_identification: identification_of(rt, answer.new_uid),
        command: answer.command.map(|kind| ServerToAgentCommand { kind }),
        custom_capabilities: None,
        custom_message: None,
    }
}
