use crate::comparing::expect_same;
use crate::reports::{is_healthy_after, nested};
use message_codec::wire::Out;
use message_codec::writer::encoding::WriteFail;
use message_reports::decoding::{decode_report, read_package_statuses, read_remote_config_status};
use message_reports::encoding::{
    components_hash, encode_report, package_statuses_len, put_package_statuses,
    put_remote_config_status, put_report, read_back, remote_config_status_len, report_len,
};
use message_values::{
    AgentDescription, AgentToServer, AnyValue, ComponentDetails, ComponentHealth, KeyValue,
    PackageStatuses, RemoteConfigStatus,
};
use plain_values::{Blob, List, Map, Text};
use std::alloc::Global;
use std::process::Abort;

// Whether both ways of writing give these bytes, which are fewer than 1,000, and the length is theirs.
#[tactic(auto, unfolding(message_codec::specs::Canonical::capped))]
fn is_written(rt: &(impl Abort + AllocGlobal), report: &AgentToServer, expected: &[u8]) -> bool {
    let len = report_len(report);
    if len != expected.len() as u64 || len >= 1_000 {
        return false;
    }
    let mut out = Out::new(rt.alloc());
    put_report(&mut out, report).expect(rt, "memory");
    match encode_report(rt.alloc(), report) {
        Ok(bytes) => bytes.as_slice() == expected && out.as_slice() == expected,
        Err(_) => false,
    }
}

// Whether the bytes are a report that is written as these.
fn is_rewritten(rt: &(impl Abort + AllocGlobal), bytes: &[u8], expected: &[u8]) -> bool {
    let report = decode_report(rt.alloc(), bytes).expect(rt, "a report");
    let is_so = is_written(rt, &report, expected);
    drop(report);
    is_so
}

// Spellings by the Protocol Buffers encoding guide; the last has an unknown field, and a known one of another wire type.
#[test]
fn canonical_reports(rt: HostRuntime) {
    for (bytes, expected) in [
        (
            b"\x2a\x02\x08\x01".as_slice(),
            b"\x2a\x02\x08\x01".as_slice(),
        ),
        (b"\x2a\x04\x1a\x02no", b"\x2a\x04\x1a\x02no"),
        (
            b"\x2a\x02\x08\x01\x2a\x04\x1a\x02no",
            b"\x2a\x06\x08\x01\x1a\x02no",
        ),
        (b"\x2a\x02\x32\x00", b"\x2a\x04\x32\x02\x12\x00"),
        (
            b"\x7a\x01\xff\x10\x81\x00\x1a\x00\x08\x01\x20\x81\x10\x0a\x01u",
            b"\x0a\x01u\x10\x01\x1a\x00\x20\x81\x10",
        ),
        // components: by their names, of each the last entry; metadata before those within
        (
            b"\x72\x2f\x12\x02\x01\x02\x0a\x05\x0a\x01x\x12\x00\x0a\x05\x0a\x01a\x12\x00\x0a\x1b\x0a\x01a\x12\x16\x12\x0a\x0a\x01s\x12\x05\x0a\x03\x0a\x01k\x0a\x08\x0a\x01v\x12\x03\x0a\x011",
            b"\x72\x28\x0a\x1b\x0a\x01a\x12\x16\x0a\x08\x0a\x01v\x12\x03\x0a\x011\x12\x0a\x0a\x01s\x12\x05\x0a\x03\x0a\x01k\x0a\x05\x0a\x01x\x12\x00\x12\x02\x01\x02",
        ),
        (b"\x72\x00", b"\x72\x00"),
    ] {
        assert!(rt; is_rewritten(&rt, bytes, expected));
    }
}

// Whether the hash of the report's components is this one.
fn has_hash(rt: &(impl Abort + AllocGlobal), bytes: &[u8], expected: &[u8]) -> bool {
    let report = decode_report(rt.alloc(), bytes).expect(rt, "a report");
    let is_so = match &report.available_components {
        Some(available) => is_hash(rt, &available.components, expected),
        None => false,
    };
    drop(report);
    is_so
}

fn is_hash(
    rt: &(impl Abort + AllocGlobal),
    components: &Map<ComponentDetails>,
    expected: &[u8],
) -> bool {
    let hash = components_hash(rt.alloc(), components).expect(rt, "memory");
    hash.as_slice() == expected
}

// The hashes are those that Python's `hashlib.sha256` gives of the bytes before field 2, which were written by hand. What the report says its
// hash is doesn't count.
#[test]
fn hashes_of_components(rt: HostRuntime) {
    for (bytes, expected) in [
        (b"\x72\x04\x12\x02\x01\x02".as_slice(), b"".as_slice()),
        (
            b"\x72\x07\x0a\x05\x0a\x01x\x12\x00",
            b"\x35\xd7\x6e\xdd\x44\x71\x94\x3d\xd9\xa9\xd7\x07\x9e\x5d\x11\xb3\x21\x42\x86\xe4\xc8\x4c\x85\xd2\xb2\x93\x2f\x8c\xd3\x15\x77\x63",
        ),
        (
            b"\x72\x28\x0a\x1b\x0a\x01a\x12\x16\x0a\x08\x0a\x01v\x12\x03\x0a\x011\x12\x0a\x0a\x01s\x12\x05\x0a\x03\x0a\x01k\x0a\x05\x0a\x01x\x12\x00\x12\x02\x01\x02",
            b"\x72\x6d\x0a\x85\x4d\xa9\x70\xc6\xe3\x6c\x14\x07\x96\x55\xf6\xe8\xfe\x66\x03\x96\xba\x3b\x07\x85\x0d\xf3\x14\xd4\xe3\x44\x2c\xca",
        ),
    ] {
        assert!(rt; has_hash(&rt, bytes, expected));
    }
}

#[tactic(auto, unfolding(message_codec::specs::Canonical::capped))]
fn status_row(rt: &(impl Abort + AllocGlobal), status: &RemoteConfigStatus) -> Out {
    let mut out = Out::new(rt.alloc());
    if remote_config_status_len(status) == 5 {
        put_remote_config_status(&mut out, status).expect(rt, "memory");
    }
    out
}

#[test]
fn remote_config_status(rt: HostRuntime) {
    let bytes = b"\x10\x03\x0a\x01h".as_slice();
    let status = read_remote_config_status(rt.alloc(), bytes, 0, 5, 2).expect(&rt, "a status");
    let out = status_row(&rt, &status);
    expect_same(&rt, &out.as_slice(), &b"\x0a\x01h\x10\x03".as_slice());
}

#[tactic(auto, unfolding(message_codec::specs::Canonical::capped))]
fn statuses_row(rt: &(impl Abort + AllocGlobal), statuses: &PackageStatuses) -> Out {
    let mut out = Out::new(rt.alloc());
    if package_statuses_len(statuses) == 10 {
        put_package_statuses(&mut out, statuses).expect(rt, "memory");
    }
    out
}

// An entry that has no value is written with an empty one.
#[test]
fn package_statuses(rt: HostRuntime) {
    let bytes = b"\x1a\x01e\x0a\x03\x0a\x01p".as_slice();
    let statuses = read_package_statuses(rt.alloc(), bytes, 0, 8, 2).expect(&rt, "statuses");
    let out = statuses_row(&rt, &statuses);
    let expected = b"\x0a\x05\x0a\x01p\x12\x00\x1a\x01e".as_slice();
    expect_same(&rt, &out.as_slice(), &expected);
}

// Whether what is read of the report's own bytes is healthy, after this error.
fn is_read_back(rt: &(impl Abort + AllocGlobal), report: &AgentToServer, error: &str) -> bool {
    let again = read_back(rt.alloc(), report).expect(rt, "a report");
    let is_told = is_healthy_after(again.health.as_ref(), error);
    drop(again);
    is_told
}

#[test]
fn reads_back(rt: HostRuntime) {
    let bytes = b"\x2a\x06\x08\x01\x1a\x02no".as_slice();
    let report = decode_report(rt.alloc(), bytes).expect(&rt, "a report");
    assert!(rt; is_read_back(&rt, &report, "no"));
    drop(report);
}

fn report_of(
    alloc: Global,
    agent_description: Option<AgentDescription>,
    health: Option<ComponentHealth>,
) -> AgentToServer {
    AgentToServer {
        instance_uid: Blob::of(Vec::new(alloc)),
        sequence_num: 0,
        agent_description,
        capabilities: 0,
        health,
        effective_config: None,
        remote_config_status: None,
        package_statuses: None,
        agent_disconnect: None,
        flags: 0,
        custom_capabilities: None,
        custom_message: None,
        available_components: None,
    }
}

// A report of this last error.
fn failing(alloc: Global, last_error: String) -> AgentToServer {
    let health = ComponentHealth {
        healthy: false,
        start_time_unix_nano: 0,
        last_error: Text::of(last_error),
        status: Text::of(String::new(alloc)),
        status_time_unix_nano: 0,
        component_health_map: Map::new(alloc),
    };
    report_of(alloc, None, Some(health))
}

// How the report can't be encoded, if it can't.
fn failure(alloc: Global, report: &AgentToServer) -> Option<WriteFail> {
    encode_report(alloc, report).err()
}

#[test]
fn too_large(rt: HostRuntime) {
    let alloc = rt.alloc();
    let letters = vec![in alloc; b'a'; 4_194_304].expect(&rt, "memory");
    let letters = String::from_utf8(letters).expect(&rt, "letters");
    let report = failing(alloc, letters);
    assert!(rt; failure(alloc, &report) == Some(WriteFail::TooLarge));
    drop(report);
}

// Lists of one list, so many of them, around an empty one.
fn lists(rt: &(impl Abort + AllocGlobal), around: u32) -> AnyValue {
    let mut value = AnyValue::Array(List::new(rt.alloc()));
    for _ in 0..around {
        let mut values = List::new(rt.alloc());
        values.push(value).expect(rt, "memory");
        value = AnyValue::Array(values);
    }
    value
}

// A report of an agent that has one attribute, of this value.
fn described(rt: &(impl Abort + AllocGlobal), value: AnyValue) -> AgentToServer {
    let alloc = rt.alloc();
    let attribute = KeyValue {
        key: Text::of(String::new(alloc)),
        value: Some(value),
    };
    let mut attributes = List::new(alloc);
    attributes.push(attribute).expect(rt, "memory");
    let description = AgentDescription {
        identifying_attributes: attributes,
        non_identifying_attributes: List::new(alloc),
    };
    report_of(alloc, Some(description), None)
}

#[test]
fn hundred_levels(rt: HostRuntime) {
    let bytes = nested(&rt, 49, b"");
    assert!(rt; is_rewritten(&rt, bytes.as_slice(), bytes.as_slice()));
}

// The report, its description and the attribute are three levels, and each list two.
#[test]
fn too_deep(rt: HostRuntime) {
    let report = described(&rt, lists(&rt, 48));
    assert!(rt; failure(rt.alloc(), &report) == Some(WriteFail::TooDeep));
    drop(report);
}
