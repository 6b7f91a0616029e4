// The expected texts follow from the rules by hand.
use message_reports::decoding::decode_report;
use message_texts::{show_reply, show_report};
use message_values::{
    ConnectionSettingsOffers, OpAMPConnectionSettings, ServerToAgent, ServerToAgentCommand,
};
use plain_values::{Blob, Text};
use std::alloc::Global;
use std::process::Abort;

// Whether the bytes are a report that is shown so.
fn shows(rt: &(impl Abort + AllocGlobal), bytes: &[u8], text: &str) -> bool {
    match decode_report(rt.alloc(), bytes) {
        Ok(report) => {
            let shown = show_report(rt.alloc(), &report).expect(rt, "memory");
            drop(report);
            shown.as_str() == text
        }
        Err(_) => false,
    }
}

#[test]
fn lines_of_reports(rt: HostRuntime) {
    for (bytes, text) in [
        (b"".as_slice(), ""),
        (b"\x4a\x00", "agent_disconnect = {}\n"),
        (
            b"\x1a\x10\x0a\x0e\x0a\x01d\x12\x09\x21\x00\x00\x00\x00\x00\x00\xf8\x3f",
            "agent_description.identifying_attributes[0].key = \"d\"\nagent_description.identifying_attributes[0].value.double_value = bits 3ff8000000000000\n",
        ),
        (
            b"\x6a\x09\x0a\x07\"\\\n\x01\x7f\xc3\xbc",
            "custom_message.capability = \"\\\"\\\\\\n\\x01\\x7f\u{fc}\"\n",
        ),
        (
            b"\x32\x0e\x0a\x0c\x0a\x0a\x0a\x02a\"\x12\x04\x0a\x02\xab\x0f",
            "effective_config.config_map.config_map[\"a\\\"\"].body = hex ab0f\n",
        ),
        (
            b"\x2a\x09\x08\x01\x32\x05\x0a\x01x\x12\x00",
            "health.healthy = true\nhealth.component_health_map[\"x\"] = {}\n",
        ),
        (
            b"\x10\x07\x62\x05\x0a\x01c\x0a\x00",
            "sequence_num = 7\ncustom_capabilities.capabilities[0] = \"c\"\ncustom_capabilities.capabilities[1] = \"\"\n",
        ),
        (
            b"\x72\x25\x0a\x1b\x0a\x01a\x12\x16\x0a\x08\x0a\x01v\x12\x03\x0a\x011\x12\x0a\x0a\x01s\x12\x05\x0a\x03\x0a\x01k\x0a\x02\x12\x00\x12\x02\x01\x02",
            "available_components.components[\"\"] = {}\navailable_components.components[\"a\"].metadata[0].key = \"v\"\navailable_components.components[\"a\"].metadata[0].value.string_value = \"1\"\navailable_components.components[\"a\"].sub_component_map[\"s\"].metadata[0].key = \"k\"\navailable_components.hash = hex 0102\n",
        ),
    ] {
        assert!(rt; shows(&rt, bytes, text));
    }
}

#[test]
fn values_of_attributes(rt: HostRuntime) {
    for (bytes, text) in [
        (
            b"\x1a\x0c\x0a\x0a\x12\x08\x2a\x06\x0a\x02\x0a\x00\x0a\x00".as_slice(),
            "agent_description.identifying_attributes[0].value.array_value.values[0].string_value = \"\"\nagent_description.identifying_attributes[0].value.array_value.values[1] = {}\n",
        ),
        (
            b"\x1a\x08\x12\x06\x12\x04\x32\x02\x0a\x00",
            "agent_description.non_identifying_attributes[0].value.kvlist_value.values[0] = {}\n",
        ),
        (
            b"\x1a\x06\x12\x04\x12\x02\x2a\x00",
            "agent_description.non_identifying_attributes[0].value.array_value = {}\n",
        ),
        (
            b"\x1a\x06\x12\x04\x12\x02\x10\x00",
            "agent_description.non_identifying_attributes[0].value.bool_value = false\n",
        ),
        (
            b"\x1a\x0f\x12\x0d\x12\x0b\x18\xff\xff\xff\xff\xff\xff\xff\xff\xff\x01",
            "agent_description.non_identifying_attributes[0].value.int_value = -1\n",
        ),
    ] {
        assert!(rt; shows(&rt, bytes, text));
    }
}

fn reply_of(
    alloc: Global,
    capabilities: u64,
    connection_settings: Option<ConnectionSettingsOffers>,
    command: Option<ServerToAgentCommand>,
) -> ServerToAgent {
    ServerToAgent {
        instance_uid: Blob::of(Vec::new(alloc)),
        error_response: None,
        remote_config: None,
        connection_settings,
        packages_available: None,
        flags: 0,
        capabilities,
        agent_identification: None,
        command,
        custom_capabilities: None,
        custom_message: None,
    }
}

fn settings(rt: &(impl Abort + AllocGlobal)) -> OpAMPConnectionSettings {
    let certificate = Vec::from_slice(rt.alloc(), b"\x30\x82").expect(rt, "memory");
    OpAMPConnectionSettings {
        destination_endpoint: Text::of(String::new(rt.alloc())),
        headers: None,
        certificate: Some(Blob::of(certificate)),
        heartbeat_interval_seconds: 0,
    }
}

#[test]
fn lines_of_replies(rt: HostRuntime) {
    let alloc = rt.alloc();
    let reply = reply_of(alloc, 1, None, Some(ServerToAgentCommand { kind: -1 }));
    let shown = show_reply(alloc, &reply).expect(&rt, "memory");
    assert!(rt; shown.as_str() == "capabilities = 1\ncommand.type = -1\n");
    drop(reply);
}

#[test]
fn kept_certificate(rt: HostRuntime) {
    let alloc = rt.alloc();
    let offers = ConnectionSettingsOffers {
        hash: Blob::of(Vec::new(alloc)),
        opamp: Some(settings(&rt)),
    };
    let reply = reply_of(alloc, 0, Some(offers), None);
    let shown = show_reply(alloc, &reply).expect(&rt, "memory");
    assert!(rt; shown.as_str() == "connection_settings.opamp.certificate = hex 3082\n");
    drop(reply);
}
