use crate::comparing::expect_same;
use message_codec::reader::items::ReadFail;
use message_codec::wire::{Refused, Why};
use message_reports::decoding::decode_report;
use message_values::{AgentToServer, ComponentHealth, PackageStatuses};
use plain_values::Text;
use std::process::Abort;

fn refusal(outcome: Result<AgentToServer, ReadFail>) -> Option<Refused> {
    match outcome {
        Err(ReadFail::Refused(refused)) => Some(refused),
        _ => None,
    }
}

#[test]
fn refuses_at_the_first_fault(rt: HostRuntime) {
    for (bytes, at, why) in [
        (b"\x1a\x05".as_slice(), 1, Why::Truncated),
        (b"\x2a\x01\x80", 2, Why::Truncated),
        (b"\x00\x01", 0, Why::BadTag),
        (b"\x80\x80\x80\x80\x10\x01", 0, Why::BadTag),
        (b"\x0e", 0, Why::BadWireType),
        (b"\x0b", 0, Why::Group),
        (b"\x29\x01", 1, Why::Truncated),
        (b"\x2a\x03\x11\x00\x00", 3, Why::Truncated),
        (
            b"\x1a\xff\xff\xff\xff\xff\xff\xff\xff\xff\x02",
            1,
            Why::VarintTooLong,
        ),
        (
            b"\x1a\xff\xff\xff\xff\xff\xff\xff\xff\xff\x01",
            1,
            Why::Truncated,
        ),
        (
            b"\x10\xff\xff\xff\xff\xff\xff\xff\xff\xff\x02",
            1,
            Why::VarintTooLong,
        ),
    ] {
        assert!(rt; refusal(decode_report(rt.alloc(), bytes)) == Some(Refused { at, why }));
    }
}

// The place of a fault within a part of the report counts from the report's first byte.
#[test]
fn refuses_within_its_parts(rt: HostRuntime) {
    for (bytes, at, why) in [
        (b"\x1a\x05\x0a\x03\x0a\x02a".as_slice(), 5, Why::Truncated),
        (b"\x2a\x03\x1a\x01\xff", 4, Why::NotUtf8),
        (b"\x2a\x08\x32\x06\x12\x04\x1a\x02a\xff", 8, Why::NotUtf8),
        // a component's metadata, and a component within it
        (
            b"\x72\x09\x0a\x07\x12\x05\x0a\x03\x0a\x01\xff",
            10,
            Why::NotUtf8,
        ),
        (
            b"\x72\x08\x0a\x06\x12\x04\x12\x02\x0a\x05",
            9,
            Why::Truncated,
        ),
    ] {
        assert!(rt; refusal(decode_report(rt.alloc(), bytes)) == Some(Refused { at, why }));
    }
}

// Healthy, with this error told last.
pub fn is_healthy_after(health: Option<&ComponentHealth>, error: &str) -> bool {
    match health {
        Some(health) => health.healthy && health.last_error.as_str() == error,
        None => false,
    }
}

#[test]
fn full_report(rt: HostRuntime) {
    let bytes =
        b"\x0a\x10\x00\x01\x02\x03\x04\x05\x06\x07\x08\x09\x0a\x0b\x0c\x0d\x0e\x0f\x10\x01\x1a\x00\x20\x81\x10\x2a\x02\x08\x01\x72\x00\x2a\x04\x1a\x02no\x7a\x01\xff\x08\x01";
    let report = decode_report(rt.alloc(), bytes).expect(&rt, "a report");
    expect_same(&rt, &report.instance_uid.as_slice().len(), &16);
    expect_same(&rt, &report.sequence_num, &1);
    assert!(rt; report.agent_description.is_some());
    expect_same(&rt, &report.capabilities, &0x801);
    assert!(rt; is_healthy_after(report.health.as_ref(), "no"));
    assert!(rt; report.effective_config.is_none());
    drop(report);
}

// The field with this tag whose payload is the bytes, fewer than 16,384.
fn wrapped(rt: &(impl Abort + AllocGlobal), tag: u8, bytes: &[u8]) -> Vec<u8> {
    let mut field: Vec<u8> = Vec::new(rt.alloc());
    field.push(tag).expect(rt, "memory");
    let len = bytes.len() % 16_384;
    if len < 128 {
        field.push(len as u8).expect(rt, "memory");
    } else {
        field.push((len % 128) as u8 + 0x80).expect(rt, "memory");
        field.push((len / 128) as u8).expect(rt, "memory");
    }
    field.extend_from_slice(bytes).expect(rt, "memory");
    field
}

// A report whose health has so many components, each inside the one before, around these bytes.
pub fn nested(rt: &(impl Abort + AllocGlobal), levels: u32, innermost: &[u8]) -> Vec<u8> {
    let mut health: Vec<u8> = Vec::from_slice(rt.alloc(), innermost).expect(rt, "memory");
    for _ in 0..levels {
        let entry = wrapped(rt, 0x12, health.as_slice());
        health = wrapped(rt, 0x32, entry.as_slice());
    }
    wrapped(rt, 0x2a, health.as_slice())
}

fn is_report(rt: &impl AllocGlobal, bytes: &[u8]) -> bool {
    match decode_report(rt.alloc(), bytes) {
        Ok(report) => {
            drop(report);
            true
        }
        Err(_) => false,
    }
}

#[test]
fn hundred_levels(rt: HostRuntime) {
    let deepest = nested(&rt, 49, b"");
    expect_same(&rt, &deepest.len(), &233);
    assert!(rt; is_report(&rt, deepest.as_slice()));
    let deeper = nested(&rt, 49, b"\x32\x00");
    expect_same(&rt, &deeper.len(), &236);
    let refused = Some(Refused {
        at: 235,
        why: Why::TooDeep,
    });
    assert!(rt; refusal(decode_report(rt.alloc(), deeper.as_slice())) == refused);
}

// Two packages, of which the one under the key is there in this version.
fn is_one_of_two(statuses: Option<&PackageStatuses>, key: &Text, version: &str) -> bool {
    let Some(statuses) = statuses else {
        return false;
    };
    match statuses.packages.get(key) {
        Some(status) => {
            statuses.packages.len() == 2 && status.agent_has_version.as_str() == version
        }
        None => false,
    }
}

#[test]
fn last_entry_of_a_key(rt: HostRuntime) {
    let alloc = rt.alloc();
    let bytes =
        b"\x42\x0a\x0a\x08\x0a\x01b\x12\x03\x12\x011\x42\x0c\x0a\x0a\x0a\x01b\x12\x05\x12\x032.0\x42\x05\x0a\x03\x0a\x01a";
    let report = decode_report(alloc, bytes).expect(&rt, "a report");
    let key = Text::of(String::from_str(alloc, "b").expect(&rt, "memory"));
    assert!(rt; is_one_of_two(report.package_statuses.as_ref(), &key, "2.0"));
    drop(report);
}
