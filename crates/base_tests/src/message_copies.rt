use message_values::{
    AgentDescription, AgentDisconnect, AgentIdentification, AgentRemoteConfig, AgentToServer,
    AnyValue, AvailableComponents, ComponentDetails, ComponentHealth, ConnectionSettingsOffers,
    CustomCapabilities, CustomMessage, DownloadableFile, EffectiveConfig, KeyValue,
    OpAMPConnectionSettings, PackageAvailable, PackageStatus, PackageStatuses, PackagesAvailable,
    RemoteConfigStatus, RetryInfo, ServerErrorResponse, ServerToAgent, ServerToAgentCommand,
    Settings, State,
};
use plain_values::{
    AgentConfigFile, AgentConfigMap, Blob, Header, Headers, List, Map, Plain, Text,
};
use std::alloc::Global;
use std::process::Abort;

fn no_text(alloc: Global) -> Text {
    Text::of(String::new(alloc))
}

fn no_bytes(alloc: Global) -> Blob {
    Blob::of(Vec::new(alloc))
}

fn description(alloc: Global) -> AgentDescription {
    AgentDescription {
        identifying_attributes: List::new(alloc),
        non_identifying_attributes: List::new(alloc),
    }
}

fn health(alloc: Global, healthy: bool) -> ComponentHealth {
    ComponentHealth {
        healthy,
        start_time_unix_nano: 1,
        last_error: no_text(alloc),
        status: no_text(alloc),
        status_time_unix_nano: 2,
        component_health_map: Map::new(alloc),
    }
}

fn details(alloc: Global) -> ComponentDetails {
    ComponentDetails {
        metadata: List::new(alloc),
        sub_component_map: Map::new(alloc),
    }
}

fn custom(alloc: Global) -> CustomCapabilities {
    CustomCapabilities {
        capabilities: List::new(alloc),
    }
}

// A copy can be made, and equals its source.
fn copies<T: Plain>(rt: &(impl Abort + AllocGlobal), value: T) {
    let copied = value.copy(rt.alloc()).expect(rt, "memory");
    assert!(rt; copied.same(&value));
}

fn differ<T: Plain>(value: T, other: T) -> bool {
    !value.same(&other)
}

fn effective(alloc: Global) -> EffectiveConfig {
    EffectiveConfig {
        config_map: Some(AgentConfigMap {
            config_map: Map::new(alloc),
        }),
    }
}

fn remote(alloc: Global) -> RemoteConfigStatus {
    RemoteConfigStatus {
        last_remote_config_hash: no_bytes(alloc),
        status: 1,
        error_message: no_text(alloc),
    }
}

fn statuses(alloc: Global) -> PackageStatuses {
    PackageStatuses {
        packages: Map::new(alloc),
        server_provided_all_packages_hash: no_bytes(alloc),
        error_message: no_text(alloc),
    }
}

fn message(alloc: Global) -> CustomMessage {
    CustomMessage {
        capability: no_text(alloc),
        kind: no_text(alloc),
        body: no_bytes(alloc),
    }
}

fn components(alloc: Global) -> AvailableComponents {
    AvailableComponents {
        components: Map::new(alloc),
        hash: no_bytes(alloc),
    }
}

// A report with each of its parts.
fn report(alloc: Global) -> AgentToServer {
    AgentToServer {
        instance_uid: no_bytes(alloc),
        sequence_num: 3,
        agent_description: Some(description(alloc)),
        capabilities: 0x1,
        health: Some(health(alloc, true)),
        effective_config: Some(effective(alloc)),
        remote_config_status: Some(remote(alloc)),
        package_statuses: Some(statuses(alloc)),
        agent_disconnect: Some(AgentDisconnect),
        flags: 0x1,
        custom_capabilities: Some(custom(alloc)),
        custom_message: Some(message(alloc)),
        available_components: Some(components(alloc)),
    }
}

#[test]
fn reports(rt: HostRuntime) {
    copies(&rt, report(rt.alloc()));
}

fn error(alloc: Global) -> ServerErrorResponse {
    ServerErrorResponse {
        kind: 2,
        error_message: no_text(alloc),
        retry_info: Some(RetryInfo {
            retry_after_nanoseconds: 1_000_000_000,
        }),
    }
}

fn offered_config(alloc: Global) -> AgentRemoteConfig {
    AgentRemoteConfig {
        config: None,
        config_hash: no_bytes(alloc),
    }
}

fn headers(alloc: Global) -> Headers {
    Headers {
        headers: List::new(alloc),
    }
}

fn offered_connection(alloc: Global) -> ConnectionSettingsOffers {
    ConnectionSettingsOffers {
        hash: no_bytes(alloc),
        opamp: Some(OpAMPConnectionSettings {
            destination_endpoint: no_text(alloc),
            headers: Some(headers(alloc)),
            certificate: Some(no_bytes(alloc)),
            heartbeat_interval_seconds: 30,
        }),
    }
}

fn offered_packages(alloc: Global) -> PackagesAvailable {
    PackagesAvailable {
        packages: Map::new(alloc),
        all_packages_hash: no_bytes(alloc),
    }
}

// A reply with each of its parts but the custom ones.
fn reply(alloc: Global) -> ServerToAgent {
    ServerToAgent {
        instance_uid: no_bytes(alloc),
        error_response: Some(error(alloc)),
        remote_config: Some(offered_config(alloc)),
        connection_settings: Some(offered_connection(alloc)),
        packages_available: Some(offered_packages(alloc)),
        flags: 0x1,
        capabilities: 0x3,
        agent_identification: Some(AgentIdentification {
            new_instance_uid: no_bytes(alloc),
        }),
        command: Some(ServerToAgentCommand { kind: 0 }),
        custom_capabilities: None,
        custom_message: None,
    }
}

#[test]
fn replies(rt: HostRuntime) {
    copies(&rt, reply(rt.alloc()));
}

fn file(alloc: Global) -> AgentConfigFile {
    AgentConfigFile {
        body: no_bytes(alloc),
        content_type: no_text(alloc),
    }
}

fn status(alloc: Global) -> PackageStatus {
    PackageStatus {
        name: no_text(alloc),
        agent_has_version: no_text(alloc),
        agent_has_hash: no_bytes(alloc),
        server_offered_version: no_text(alloc),
        server_offered_hash: no_bytes(alloc),
        status: 2,
        error_message: no_text(alloc),
    }
}

fn package(alloc: Global) -> PackageAvailable {
    PackageAvailable {
        kind: 1,
        version: no_text(alloc),
        file: Some(DownloadableFile {
            download_url: no_text(alloc),
            content_hash: no_bytes(alloc),
            signature: no_bytes(alloc),
        }),
        hash: no_bytes(alloc),
    }
}

fn header(alloc: Global) -> Header {
    Header {
        key: no_text(alloc),
        value: no_text(alloc),
    }
}

fn settings(alloc: Global) -> Settings {
    Settings {
        endpoint: no_text(alloc),
        headers: headers(alloc),
        interval: 30,
        hash: no_bytes(alloc),
    }
}

// What stands only in lists and maps, and what is no message.
#[test]
fn other_structs(rt: HostRuntime) {
    let alloc = rt.alloc();
    copies(&rt, file(alloc));
    copies(&rt, status(alloc));
    copies(&rt, package(alloc));
    copies(&rt, header(alloc));
    copies(&rt, settings(alloc));
}

fn state(alloc: Global) -> State {
    State {
        description: description(alloc),
        capabilities: 0x1,
        health: Some(health(alloc, true)),
        effective: None,
        remote: None,
        packages: None,
        custom: custom(alloc),
        components: Some(no_bytes(alloc)),
    }
}

#[test]
fn states(rt: HostRuntime) {
    copies(&rt, state(rt.alloc()));
}

// An array of a number and of bytes.
fn array(rt: &(impl Abort + AllocGlobal)) -> AnyValue {
    let mut values = List::new(rt.alloc());
    let number = AnyValue::Double(0x7ff8_0000_0000_0001);
    values.push(number).expect(rt, "memory");
    let bytes = AnyValue::Bytes(no_bytes(rt.alloc()));
    values.push(bytes).expect(rt, "memory");
    AnyValue::Array(values)
}

// The array in a list of pairs.
fn attribute(rt: &(impl Abort + AllocGlobal)) -> AnyValue {
    let pair = KeyValue {
        key: no_text(rt.alloc()),
        value: Some(array(rt)),
    };
    let mut pairs = List::new(rt.alloc());
    pairs.push(pair).expect(rt, "memory");
    AnyValue::Pairs(pairs)
}

// Values within values of their own type.
#[test]
fn nested_attributes(rt: HostRuntime) {
    copies(&rt, attribute(&rt));
    assert!(rt; differ(attribute(&rt), AnyValue::Nothing));
}

// A healthy agent with one component, which isn't healthy.
fn nested_health(rt: &(impl Abort + AllocGlobal)) -> ComponentHealth {
    let mut outer = health(rt.alloc(), true);
    let inner = health(rt.alloc(), false);
    outer
        .component_health_map
        .put(no_text(rt.alloc()), inner)
        .expect(rt, "memory");
    outer
}

#[test]
fn nested_healths(rt: HostRuntime) {
    copies(&rt, nested_health(&rt));
    assert!(rt; differ(nested_health(&rt), health(rt.alloc(), true)));
}

// A component with one component.
fn nested_details(rt: &(impl Abort + AllocGlobal)) -> ComponentDetails {
    let mut outer = details(rt.alloc());
    let inner = details(rt.alloc());
    outer
        .sub_component_map
        .put(no_text(rt.alloc()), inner)
        .expect(rt, "memory");
    outer
}

#[test]
fn nested_components(rt: HostRuntime) {
    let mut available = components(rt.alloc());
    let details = nested_details(&rt);
    available
        .components
        .put(no_text(rt.alloc()), details)
        .expect(&rt, "memory");
    copies(&rt, available);
}
