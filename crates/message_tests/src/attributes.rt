use crate::comparing::expect_same;
use message_attributes::decoding::{
    read_agent_config_map, read_any_value, read_custom_capabilities, read_custom_message,
    read_key_value,
};
use message_attributes::encoding::{
    agent_config_map_len, any_value_len, custom_capabilities_len, custom_message_len,
    key_value_len, put_agent_config_map, put_any_value, put_custom_capabilities,
    put_custom_message, put_key_value,
};
use message_codec::reader::items::ReadFail;
use message_codec::wire::{Out, Refused, Why};
use message_values::{AnyValue, CustomCapabilities, CustomMessage, KeyValue};
use plain_values::{AgentConfigFile, AgentConfigMap, Blob, List, Map, Text};
use std::process::Abort;

// The first fault of the bytes as an AnyValue of level 1.
#[test]
fn refuses_at_the_first_fault(rt: HostRuntime) {
    for (bytes, at, why) in [
        (b"\x0a\x02a\xff".as_slice(), 2, Why::NotUtf8),
        (b"\x2a\x04\x0a\x02\x0a\x05", 5, Why::Truncated),
        (b"\x2a\x03\x0a\x01\x0b", 4, Why::Group),
        (
            b"\x10\xff\xff\xff\xff\xff\xff\xff\xff\xff\x02",
            1,
            Why::VarintTooLong,
        ),
        (b"\x10\x01\x00", 2, Why::BadTag),
    ] {
        match read_any_value(rt.alloc(), bytes, 0, bytes.len() as u64, 1) {
            Err(fail) => assert!(rt; fail == ReadFail::Refused(Refused { at, why })),
            Ok(_) => assert!(rt; false),
        }
    }
}

fn is_text(value: &AnyValue, text: &str) -> bool {
    match value {
        AnyValue::Str(held) => held.as_str() == text,
        _ => false,
    }
}

fn is_number(value: Option<&AnyValue>, number: i64) -> bool {
    match value {
        Some(AnyValue::Int(held)) => *held == number,
        _ => false,
    }
}

// An array of two numbers.
fn is_pair_of(value: &AnyValue, first: i64, second: i64) -> bool {
    match value {
        AnyValue::Array(values) => {
            values.len() == 2 && is_number(values.get(0), first) && is_number(values.get(1), second)
        }
        _ => false,
    }
}

fn read(rt: &(impl Abort + AllocGlobal), bytes: &[u8]) -> AnyValue {
    read_any_value(rt.alloc(), bytes, 0, bytes.len() as u64, 1).expect(rt, "a value")
}

#[test]
fn last_member_counts(rt: HostRuntime) {
    assert!(rt; is_text(&read(&rt, b"\x0a\x01a\x10\x01\x0a\x01b"), "b"));
    let bytes = b"\x0a\x01k\x12\x02\x18\x07\x12\x02\x18\x08";
    let pair = read_key_value(rt.alloc(), bytes, 0, 11, 1).expect(&rt, "a pair");
    assert!(rt; pair.key.as_str() == "k");
    assert!(rt; is_number(pair.value.as_ref(), 8));
}

#[test]
fn payloads_of_an_array_merge(rt: HostRuntime) {
    let bytes =
        b"\x2a\x04\x0a\x02\x18\x01\x2a\x0d\x0a\x0b\x18\xff\xff\xff\xff\xff\xff\xff\xff\xff\x01";
    assert!(rt; is_pair_of(&read(&rt, bytes), 1, -1));
}

fn text(rt: &(impl Abort + AllocGlobal), words: &str) -> Text {
    Text::of(String::from_str(rt.alloc(), words).expect(rt, "memory"))
}

// Whether the value is written as these bytes, which are fewer than 1,000, and the length is theirs.
#[tactic(auto, unfolding(message_codec::specs::Canonical::capped))]
fn is_written(rt: &(impl Abort + AllocGlobal), value: &AnyValue, expected: &[u8]) -> bool {
    let len = any_value_len(value);
    if len != expected.len() as u64 || len >= 1_000 {
        return false;
    }
    let mut out = Out::new(rt.alloc());
    put_any_value(&mut out, value).expect(rt, "memory");
    out.as_slice() == expected
}

#[tactic(auto, unfolding(message_codec::specs::Canonical::capped))]
fn is_pair_written(rt: &(impl Abort + AllocGlobal), value: &KeyValue, expected: &[u8]) -> bool {
    let len = key_value_len(value);
    if len != expected.len() as u64 || len >= 1_000 {
        return false;
    }
    let mut out = Out::new(rt.alloc());
    put_key_value(&mut out, value).expect(rt, "memory");
    out.as_slice() == expected
}

fn array_of(rt: &(impl Abort + AllocGlobal), value: AnyValue) -> AnyValue {
    let mut values = List::new(rt.alloc());
    values.push(value).expect(rt, "memory");
    AnyValue::Array(values)
}

// An array of an array of the empty text, of false, and of a value with no member.
fn nested(rt: &(impl Abort + AllocGlobal)) -> AnyValue {
    let mut values = List::new(rt.alloc());
    values
        .push(array_of(rt, AnyValue::Str(text(rt, ""))))
        .expect(rt, "memory");
    values.push(AnyValue::Bool(false)).expect(rt, "memory");
    values.push(AnyValue::Nothing).expect(rt, "memory");
    AnyValue::Array(values)
}

fn pair(rt: &(impl Abort + AllocGlobal), key: &str, value: Option<AnyValue>) -> KeyValue {
    KeyValue {
        key: text(rt, key),
        value,
    }
}

// A key with no value, and a value with no member under the empty key.
fn pairs(rt: &(impl Abort + AllocGlobal)) -> AnyValue {
    let mut pairs = List::new(rt.alloc());
    pairs.push(pair(rt, "k", None)).expect(rt, "memory");
    pairs
        .push(pair(rt, "", Some(AnyValue::Nothing)))
        .expect(rt, "memory");
    AnyValue::Pairs(pairs)
}

// Bytes by the Protocol Buffers encoding guide, "Submessages".
#[test]
fn values_are_written(rt: HostRuntime) {
    let expected = b"\x2a\x0e\x0a\x06\x2a\x04\x0a\x02\x0a\x00\x0a\x02\x10\x00\x0a\x00";
    assert!(rt; is_written(&rt, &nested(&rt), expected));
    let expected = b"\x32\x09\x0a\x03\x0a\x01k\x0a\x02\x12\x00";
    assert!(rt; is_written(&rt, &pairs(&rt), expected));
}

// The attribute d, whose value is 1.5.
#[test]
fn double_is_written(rt: HostRuntime) {
    let value = pair(&rt, "d", Some(AnyValue::Double(0x3ff8_0000_0000_0000)));
    let expected = b"\x0a\x01d\x12\x09\x21\x00\x00\x00\x00\x00\x00\xf8\x3f";
    assert!(rt; is_pair_written(&rt, &value, expected));
}

// A configuration of one file, `a`, which is empty.
fn files(rt: &(impl Abort + AllocGlobal)) -> AgentConfigMap {
    let file = AgentConfigFile {
        body: Blob::of(Vec::new(rt.alloc())),
        content_type: Text::of(String::new(rt.alloc())),
    };
    let mut files = Map::new(rt.alloc());
    files.put(text(rt, "a"), file).expect(rt, "memory");
    AgentConfigMap { config_map: files }
}

#[tactic(auto, unfolding(message_codec::specs::Canonical::capped))]
fn files_bytes(rt: &(impl Abort + AllocGlobal), files: &AgentConfigMap) -> Out {
    let mut out = Out::new(rt.alloc());
    if agent_config_map_len(files) == 7 {
        put_agent_config_map(&mut out, files).expect(rt, "memory");
    }
    out
}

fn capabilities(rt: &(impl Abort + AllocGlobal)) -> CustomCapabilities {
    let mut names = List::new(rt.alloc());
    names.push(text(rt, "a")).expect(rt, "memory");
    names.push(text(rt, "")).expect(rt, "memory");
    CustomCapabilities {
        capabilities: names,
    }
}

#[tactic(auto, unfolding(message_codec::specs::Canonical::capped))]
fn capabilities_bytes(rt: &(impl Abort + AllocGlobal), capabilities: &CustomCapabilities) -> Out {
    let mut out = Out::new(rt.alloc());
    if custom_capabilities_len(capabilities) == 5 {
        put_custom_capabilities(&mut out, capabilities).expect(rt, "memory");
    }
    out
}

fn custom(rt: &(impl Abort + AllocGlobal)) -> CustomMessage {
    CustomMessage {
        capability: text(rt, "c"),
        kind: Text::of(String::new(rt.alloc())),
        body: Blob::of(Vec::from_slice(rt.alloc(), b"\x00").expect(rt, "memory")),
    }
}

#[tactic(auto, unfolding(message_codec::specs::Canonical::capped))]
fn custom_bytes(rt: &(impl Abort + AllocGlobal), message: &CustomMessage) -> Out {
    let mut out = Out::new(rt.alloc());
    if custom_message_len(message) == 6 {
        put_custom_message(&mut out, message).expect(rt, "memory");
    }
    out
}

#[test]
fn parts_are_written(rt: HostRuntime) {
    expect_same(
        &rt,
        &files_bytes(&rt, &files(&rt)).as_slice(),
        &b"\x0a\x05\x0a\x01a\x12\x00".as_slice(),
    );
    expect_same(
        &rt,
        &capabilities_bytes(&rt, &capabilities(&rt)).as_slice(),
        &b"\x0a\x01a\x0a\x00".as_slice(),
    );
    expect_same(
        &rt,
        &custom_bytes(&rt, &custom(&rt)).as_slice(),
        &b"\x0a\x01c\x1a\x01\x00".as_slice(),
    );
}

// Each stands between bytes of another part, in a spelling of its own: a file told twice, names behind a field of no number here, a body before its
// capability, which is told twice.
#[test]
fn parts_are_read(rt: HostRuntime) {
    let bytes = b"\x0a\x01\x0a\x08\x0a\x01a\x12\x03\x0a\x01x\x0a\x05\x0a\x01a\x12\x00\xff";
    let files = read_agent_config_map(rt.alloc(), bytes, 2, 19, 2).expect(&rt, "files");
    expect_same(
        &rt,
        &files_bytes(&rt, &files).as_slice(),
        &b"\x0a\x05\x0a\x01a\x12\x00".as_slice(),
    );
    let bytes = b"\x0a\x01\x12\x01z\x0a\x01a\x0a\x00\xff";
    let names = read_custom_capabilities(rt.alloc(), bytes, 2, 10, 2).expect(&rt, "names");
    expect_same(
        &rt,
        &capabilities_bytes(&rt, &names).as_slice(),
        &b"\x0a\x01a\x0a\x00".as_slice(),
    );
    let bytes = b"\x0a\x01\x1a\x01\x00\x0a\x01b\x0a\x01c\xff";
    let message = read_custom_message(rt.alloc(), bytes, 2, 11, 2).expect(&rt, "a message");
    expect_same(
        &rt,
        &custom_bytes(&rt, &message).as_slice(),
        &b"\x0a\x01c\x1a\x01\x00".as_slice(),
    );
}

// Whether the bytes were refused there and for this reason.
fn is_refused<T: Drop>(read: Result<T, ReadFail>, at: u64, why: Why) -> bool {
    match read {
        Err(fail) => fail == ReadFail::Refused(Refused { at, why }),
        Ok(part) => {
            drop(part);
            false
        }
    }
}

// The place of a fault counts from the first byte, and not from that of the part.
#[test]
fn parts_are_refused_where_they_stand(rt: HostRuntime) {
    let files = read_agent_config_map(rt.alloc(), b"\x0a\x01\x0a\x02\x0a\x05", 2, 6, 2);
    assert!(rt; is_refused(files, 5, Why::Truncated));
    let names = read_custom_capabilities(rt.alloc(), b"\x0a\x01\x0a\x01\xff", 2, 5, 2);
    assert!(rt; is_refused(names, 4, Why::NotUtf8));
    let message = read_custom_message(rt.alloc(), b"\x0a\x01\x1a\x05", 2, 4, 2);
    assert!(rt; is_refused(message, 3, Why::Truncated));
}
