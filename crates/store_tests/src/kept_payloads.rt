// The expected bytes follow by hand from the table of what is kept and from the Protocol Buffers encoding guide.
use agent_rules::{Saved, change_len, change_saved, put_change, put_saved, read_saved, saved_len};
use message_codec::wire::Out;
use std::alloc::Global;

// An agent's first save: its identifier, the limit 1,025, the endpoint `http://s0`, and four empty messages.
const FIRST: &[u8] =
    b"\x0a\x10\x00\x01\x02\x03\x04\x05\x06\x07\x08\x09\x0a\x0b\x0c\x0d\x0e\x0f\x10\x81\x08\x22\x09http://s0\x2a\x00\x42\x00\x4a\x00\x52\x00";

// The same with the limit 2,049.
const NEXT: &[u8] =
    b"\x0a\x10\x00\x01\x02\x03\x04\x05\x06\x07\x08\x09\x0a\x0b\x0c\x0d\x0e\x0f\x10\x81\x10\x22\x09http://s0\x2a\x00\x42\x00\x4a\x00\x52\x00";

// The same with all twelve fields.
const ALL: &[u8] =
    b"\x0a\x10\x00\x01\x02\x03\x04\x05\x06\x07\x08\x09\x0a\x0b\x0c\x0d\x0e\x0f\x10\x81\x10\x18\x01\x22\x09http://s0\x2a\x08\x0a\x06\x0a\x01K\x12\x01V\x30\x1e\x3a\x01\x01\x42\x0a\x0a\x08\x0a\x01a\x12\x03\x0a\x01x\x4a\x05\x0a\x01\x02\x10\x01\x52\x03\x12\x01\x03\x5a\x01\x04\x62\x01\x05";

fn is_written(alloc: Global, saved: &Saved, expected: &[u8]) -> bool {
    let len = saved_len(saved);
    if len != expected.len() as u64 || len > 1000 {
        return false;
    }
    let mut out = Out::new(alloc);
    put_saved(&mut out, saved).is_ok() && out.as_slice() == expected
}

// Whether the bytes mean a value that is written as these; no bytes stand for no value.
fn becomes(alloc: Global, bytes: &[u8], expected: &[u8]) -> bool {
    match read_saved(alloc, bytes) {
        Ok(Some(saved)) => is_written(alloc, &saved, expected),
        Ok(None) => expected.is_empty(),
        Err(_) => false,
    }
}

// Whether the change leads from one payload to the other; no bytes stand for no value.
fn leads(alloc: Global, former: &[u8], change: &[u8], expected: &[u8]) -> bool {
    let Ok(Some(saved)) = read_saved(alloc, former) else {
        return false;
    };
    match change_saved(alloc, saved, change) {
        Ok(Some(next)) => is_written(alloc, &next, expected),
        Ok(None) => expected.is_empty(),
        Err(_) => false,
    }
}

fn changes(alloc: Global, former: &[u8], next: &[u8], expected: &[u8]) -> bool {
    let len = change_len(former, next);
    if len != expected.len() as u64 || len > 1000 {
        return false;
    }
    let mut out = Out::new(alloc);
    put_change(&mut out, former, next).is_ok() && out.as_slice() == expected
}

// Bytes, and those as which the value that they mean is written.
const PAYLOADS: [(&[u8], &[u8]); 9] = [
    (FIRST, FIRST),
    (ALL, ALL),
    // no messages, the fields in another order, a varint that is not the shortest, a field that is not in the table
    (
        b"\x22\x09http://s0\x10\x81\x88\x00\x0a\x10\x00\x01\x02\x03\x04\x05\x06\x07\x08\x09\x0a\x0b\x0c\x0d\x0e\x0f\x78\x01",
        FIRST,
    ),
    // nothing; a limit of 0; an identifier of 15 bytes; an endpoint that is not of the grammar; a name that begins with `.`; a cut payload
    (b"", b""),
    (
        b"\x0a\x10\x00\x01\x02\x03\x04\x05\x06\x07\x08\x09\x0a\x0b\x0c\x0d\x0e\x0f\x22\x09http://s0",
        b"",
    ),
    (
        b"\x0a\x0f\x00\x01\x02\x03\x04\x05\x06\x07\x08\x09\x0a\x0b\x0c\x0d\x0e\x10\x01\x22\x09http://s0",
        b"",
    ),
    (
        b"\x0a\x10\x00\x01\x02\x03\x04\x05\x06\x07\x08\x09\x0a\x0b\x0c\x0d\x0e\x0f\x10\x01\x22\x09https://s",
        b"",
    ),
    (
        b"\x0a\x10\x00\x01\x02\x03\x04\x05\x06\x07\x08\x09\x0a\x0b\x0c\x0d\x0e\x0f\x10\x01\x22\x09http://s0\x42\x08\x0a\x06\x0a\x02.a\x12\x00",
        b"",
    ),
    (
        b"\x0a\x10\x00\x01\x02\x03\x04\x05\x06\x07\x08\x09\x0a\x0b\x0c\x0d\x0e\x0f\x10\x01\x22\x09http://s",
        b"",
    ),
];

#[test]
fn payloads(rt: HostRuntime) {
    for (bytes, expected) in &PAYLOADS {
        assert!(rt; becomes(rt.alloc(), bytes, expected));
    }
}

// A payload, a change and the payload to which it leads.
const CHANGED: [(&[u8], &[u8], &[u8]); 7] = [
    (FIRST, b"\x12\x03\x10\x81\x10", NEXT),
    (FIRST, b"", FIRST),
    // a field that is not in the table is skipped, and other fields within a field's payload do not count
    (FIRST, b"\x6a\x00\x12\x06\x10\x81\x10\x30\x81\x10", NEXT),
    // an empty payload stands for the default: an empty message, and the limit 0
    (FIRST, b"\x2a\x00", FIRST),
    (FIRST, b"\x12\x00", b""),
    // a payload that is no message, and a cut change
    (FIRST, b"\x12\x01\x10", b""),
    (FIRST, b"\x12\x03\x10\x81", b""),
];

#[test]
fn changes_lead(rt: HostRuntime) {
    for (former, change, expected) in &CHANGED {
        assert!(rt; leads(rt.alloc(), former, change, expected));
    }
}

// Two payloads, and the change from the one to the other.
const CHANGES: [(&[u8], &[u8], &[u8]); 5] = [
    (FIRST, FIRST, b""),
    (FIRST, NEXT, b"\x12\x03\x10\x81\x10"),
    (NEXT, FIRST, b"\x12\x03\x10\x81\x08"),
    // fields that are only there before, or only after
    (
        ALL,
        NEXT,
        b"\x1a\x00\x2a\x02\x2a\x00\x32\x00\x3a\x00\x42\x02\x42\x00\x4a\x02\x4a\x00\x52\x02\x52\x00\x5a\x00\x62\x00",
    ),
    (
        NEXT,
        ALL,
        b"\x1a\x02\x18\x01\x2a\x0a\x2a\x08\x0a\x06\x0a\x01K\x12\x01V\x32\x02\x30\x1e\x3a\x03\x3a\x01\x01\x42\x0c\x42\x0a\x0a\x08\x0a\x01a\x12\x03\x0a\x01x\x4a\x07\x4a\x05\x0a\x01\x02\x10\x01\x52\x05\x52\x03\x12\x01\x03\x5a\x03\x5a\x01\x04\x62\x03\x62\x01\x05",
    ),
];

#[test]
fn changes_in_bytes(rt: HostRuntime) {
    for (former, next, expected) in &CHANGES {
        assert!(rt; changes(rt.alloc(), former, next, expected));
    }
}
