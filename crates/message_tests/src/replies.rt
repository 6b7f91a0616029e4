// The expected bytes of whole replies are those that Google's `protoc --encode` writes for the same replies; the others follow by hand from the
// tables of "opamp.proto" and from the Protocol Buffers encoding guide.
use message_codec::reader::items::ReadFail;
use message_codec::wire::{Out, Refused, Why};
use message_replies::laws::read_back;
use message_replies::{
    agent_remote_config_len, connection_settings_offers_len, decode_reply, encode_reply,
    headers_len, package_available_len, packages_available_len, put_agent_remote_config,
    put_connection_settings_offers, put_headers, put_package_available, put_packages_available,
    put_reply, read_agent_remote_config, read_connection_settings_offers, read_headers,
    read_package_available, read_packages_available, reply_len, ws_payload, ws_wrap,
};
use message_values::ServerToAgent;
use plain_values::Blob;
use std::alloc::Global;
use std::process::Abort;

fn writes(alloc: Global, reply: &ServerToAgent, expected: &[u8]) -> bool {
    match encode_reply(alloc, reply) {
        Ok(bytes) => bytes.as_slice() == expected,
        Err(_) => false,
    }
}

// Whether the bytes are a reply that is written as these.
fn becomes(alloc: Global, bytes: &[u8], expected: &[u8]) -> bool {
    match decode_reply(alloc, bytes) {
        Ok(reply) => {
            let is_so = writes(alloc, &reply, expected);
            drop(reply);
            is_so
        }
        Err(_) => false,
    }
}

#[test]
fn canonical_replies_stay(rt: HostRuntime) {
    for bytes in [
        b"".as_slice(),
        b"\x0a\x03\x00\x01\x02\x30\x01\x38\x05",
        b"\x12\x1b\x08\x02\x12\x0ftoo many agents\x1a\x06\x08\x80\xd8\x8e\xe1\x6f",
        b"\x1a\x24\x0a\x1f\x0a\x16\x0a\x01a\x12\x11\x0a\x04a: 1\x12\x09text/yaml\x0a\x05\x0a\x01b\x12\x00\x12\x01\xff",
        b"\x22\x22\x0a\x01\x01\x12\x1d\x0a\x06ws://h\x12\x0d\x0a\x06\x0a\x01K\x12\x01V\x0a\x03\x0a\x01K\x1a\x02\x30\x82\x20\x1e",
        b"\x2a\x1f\x0a\x1a\x0a\x01p\x12\x15\x08\x01\x12\x031.2\x1a\x09\x0a\x01u\x12\x01\x02\x1a\x01\x03\x22\x01\x04\x12\x01\x05",
        b"\x42\x03\x0a\x01\x06",
        b"\x4a\x0b\x08\xff\xff\xff\xff\xff\xff\xff\xff\xff\x01",
        b"\x52\x05\x0a\x01x\x0a\x00",
        b"\x5a\x09\x0a\x01x\x12\x01t\x1a\x01\x07",
        // parts of no fields, and a certificate of no bytes
        b"\x12\x00\x1a\x00\x22\x00\x2a\x00\x42\x00\x4a\x00\x52\x00\x5a\x00",
        b"\x22\x06\x12\x04\x12\x00\x1a\x00",
        // a certificate isn't read: its bytes are no message
        b"\x22\x06\x12\x04\x1a\x02\x30\x82",
    ] {
        assert!(rt; becomes(rt.alloc(), bytes, bytes));
    }
}

#[test]
fn other_spellings(rt: HostRuntime) {
    for (bytes, expected) in [
        // the order of fields, and defaults
        (
            b"\x0a\x00\x38\x01\x30\x00".as_slice(),
            b"\x38\x01".as_slice(),
        ),
        // the low 32 bits of an enum as a signed number
        (
            b"\x4a\x06\x08\xff\xff\xff\xff\x0f",
            b"\x4a\x0b\x08\xff\xff\xff\xff\xff\xff\xff\xff\xff\x01",
        ),
        (b"\x4a\x06\x08\x83\x80\x80\x80\x10", b"\x4a\x02\x08\x03"),
        // the last scalar, and payloads of a message as if they were one
        (b"\x30\x01\x30\x02", b"\x30\x02"),
        (
            b"\x12\x02\x08\x01\x12\x03\x12\x01e",
            b"\x12\x05\x08\x01\x12\x01e",
        ),
        // two occurrences of a certificate
        (
            b"\x22\x0a\x12\x08\x1a\x02\x30\x82\x1a\x02\x01\x02",
            b"\x22\x08\x12\x06\x1a\x04\x30\x82\x01\x02",
        ),
    ] {
        assert!(rt; becomes(rt.alloc(), bytes, expected));
    }
}

#[test]
fn other_spellings_of_maps_and_unknown_fields(rt: HostRuntime) {
    for (bytes, expected) in [
        // entries of a map in the order of their keys, of each key the last, also over two payloads of the map's message
        (
            b"\x2a\x0e\x0a\x05\x0a\x01b\x12\x00\x0a\x05\x0a\x01a\x12\x00".as_slice(),
            b"\x2a\x0e\x0a\x05\x0a\x01a\x12\x00\x0a\x05\x0a\x01b\x12\x00".as_slice(),
        ),
        (
            b"\x2a\x09\x0a\x07\x0a\x01a\x12\x02\x08\x01\x2a\x05\x0a\x03\x0a\x01a",
            b"\x2a\x07\x0a\x05\x0a\x01a\x12\x00",
        ),
        // fields of unknown numbers and of other wire types
        (
            b"\x60\x01\x62\x01x\x38\x02\x3a\x01y\x65\x00\x00\x00\x00",
            b"\x38\x02",
        ),
    ] {
        assert!(rt; becomes(rt.alloc(), bytes, expected));
    }
}

fn refusal(outcome: Result<ServerToAgent, ReadFail>) -> Option<Refused> {
    match outcome {
        Err(ReadFail::Refused(refused)) => Some(refused),
        _ => None,
    }
}

#[test]
fn refuses_at_the_first_fault(rt: HostRuntime) {
    for (bytes, at, why) in [
        (b"\x0a\x05".as_slice(), 1, Why::Truncated),
        (b"\x00\x38\x01", 0, Why::BadTag),
        (b"\x0b", 0, Why::Group),
        (b"\x0e", 0, Why::BadWireType),
        (b"\x12\x03\x12\x01\xff", 4, Why::NotUtf8),
        (b"\x38\x01\x22\x04\x12\x02\x22\x05", 7, Why::Truncated),
        (
            b"\x30\xff\xff\xff\xff\xff\xff\xff\xff\xff\x02",
            1,
            Why::VarintTooLong,
        ),
    ] {
        assert!(rt; refusal(decode_reply(rt.alloc(), bytes)) == Some(Refused { at, why }));
    }
}

// Whether a reply is appended to a row, and read back, as these bytes.
#[tactic(auto, unfolding(message_codec::specs::Canonical::capped))]
fn is_appended(rt: &(impl Abort + AllocGlobal), reply: &ServerToAgent, bytes: &[u8]) -> bool {
    if reply_len(reply) != bytes.len() as u64 || bytes.len() > 1_000 {
        return false;
    }
    let mut out = Out::new(rt.alloc());
    put_reply(&mut out, reply).expect(rt, "memory");
    out.as_slice() == bytes
}

// Whether the reply's own bytes are read as a reply that is written as these.
fn is_read_back(rt: &(impl Abort + AllocGlobal), reply: &ServerToAgent, bytes: &[u8]) -> bool {
    let again = read_back(rt.alloc(), reply).expect(rt, "a reply");
    let is_so = writes(rt.alloc(), &again, bytes);
    drop(again);
    is_so
}

#[test]
fn appended_and_read_back(rt: HostRuntime) {
    let alloc = rt.alloc();
    let bytes = b"\x0a\x01\x07\x12\x04\x12\x02no\x38\x05";
    let reply = decode_reply(alloc, bytes).expect(&rt, "a reply");
    assert!(rt; is_appended(&rt, &reply, bytes));
    assert!(rt; is_read_back(&rt, &reply, bytes));
    drop(reply);
}

// Each reads the bytes as a part of a reply, and appends what is written of it to the row.
#[tactic(auto, unfolding(message_codec::specs::Canonical::capped))]
fn appends_headers(rt: &(impl Abort + AllocGlobal), bytes: &[u8], out: &mut Out) -> bool {
    match read_headers(rt.alloc(), bytes, 0, bytes.len() as u64, 100) {
        Ok(headers) if headers_len(&headers) < 100 => {
            put_headers(out, &headers).expect(rt, "memory");
            true
        }
        _ => false,
    }
}

#[tactic(auto, unfolding(message_codec::specs::Canonical::capped))]
fn appends_agent_remote_config(
    rt: &(impl Abort + AllocGlobal),
    bytes: &[u8],
    out: &mut Out,
) -> bool {
    match read_agent_remote_config(rt.alloc(), bytes, 0, bytes.len() as u64, 100) {
        Ok(config) if agent_remote_config_len(&config) < 100 => {
            put_agent_remote_config(out, &config).expect(rt, "memory");
            true
        }
        _ => false,
    }
}

#[tactic(auto, unfolding(message_codec::specs::Canonical::capped))]
fn appends_package_available(rt: &(impl Abort + AllocGlobal), bytes: &[u8], out: &mut Out) -> bool {
    match read_package_available(rt.alloc(), bytes, 0, bytes.len() as u64, 100) {
        Ok(offer) if package_available_len(&offer) < 100 => {
            put_package_available(out, &offer).expect(rt, "memory");
            true
        }
        _ => false,
    }
}

#[tactic(auto, unfolding(message_codec::specs::Canonical::capped))]
fn appends_packages_available(
    rt: &(impl Abort + AllocGlobal),
    bytes: &[u8],
    out: &mut Out,
) -> bool {
    match read_packages_available(rt.alloc(), bytes, 0, bytes.len() as u64, 100) {
        Ok(offers) if packages_available_len(&offers) < 100 => {
            put_packages_available(out, &offers).expect(rt, "memory");
            true
        }
        _ => false,
    }
}

#[tactic(auto, unfolding(message_codec::specs::Canonical::capped))]
fn appends_connection_settings_offers(
    rt: &(impl Abort + AllocGlobal),
    bytes: &[u8],
    out: &mut Out,
) -> bool {
    match read_connection_settings_offers(rt.alloc(), bytes, 0, bytes.len() as u64, 100) {
        Ok(settings) if connection_settings_offers_len(&settings) < 100 => {
            put_connection_settings_offers(out, &settings).expect(rt, "memory");
            true
        }
        _ => false,
    }
}

#[test]
fn parts_into_a_row(rt: HostRuntime) {
    let mut out = Out::new(rt.alloc());
    assert!(rt; appends_package_available(&rt, b"\x22\x01h\x08\x01", &mut out));
    assert!(rt; out.as_slice() == b"\x08\x01\x22\x01h".as_slice());
    // each of the others has messages below it, and no level is left for them
    assert!(rt; !appends_headers(&rt, b"\x0a\x00", &mut out));
    assert!(rt; appends_headers(&rt, b"", &mut out));
    assert!(rt; appends_agent_remote_config(&rt, b"\x12\x01h", &mut out));
    assert!(rt; appends_packages_available(&rt, b"\x12\x01i", &mut out));
    assert!(rt; appends_connection_settings_offers(&rt, b"\x0a\x01j", &mut out));
    assert!(rt; out.as_slice() == b"\x08\x01\x22\x01h\x12\x01h\x12\x01i\x0a\x01j".as_slice());
}

// What comes of a reply of so many bytes, in 4 of which its length is spelled: how many bytes it is written as.
fn length_of(rt: &(impl Abort + AllocGlobal), len: usize) -> Option<usize> {
    let mut reply = decode_reply(rt.alloc(), b"").expect(rt, "a reply");
    reply.instance_uid = Blob::of(vec![in rt.alloc(); 7u8; len].expect(rt, "memory"));
    let len = match encode_reply(rt.alloc(), &reply) {
        Ok(bytes) => Some(bytes.as_slice().len()),
        Err(_) => None,
    };
    drop(reply);
    len
}

// A tag, a length of four bytes and 4,194,299 bytes are 4,194,304.
#[test]
fn largest_reply(rt: HostRuntime) {
    assert!(rt; length_of(&rt, 4_194_299) == Some(4_194_304));
    assert!(rt; length_of(&rt, 4_194_300) == None);
}

fn carries(rt: &(impl Abort + AllocGlobal), message: &[u8], expected: &[u8]) -> bool {
    let payload = ws_wrap(rt.alloc(), message).expect(rt, "memory");
    payload.as_slice() == expected && ws_payload(payload.as_slice()) == message
}

#[test]
fn headers_of_websocket_messages(rt: HostRuntime) {
    assert!(rt; carries(&rt, b"\x38\x01", b"\x00\x38\x01"));
    assert!(rt; carries(&rt, b"", b"\x00"));
    assert!(rt; ws_payload(b"\x38\x01") == b"\x38\x01".as_slice());
    assert!(rt; ws_payload(b"\x00\x00\x38") == b"\x00\x38".as_slice());
    assert!(rt; ws_payload(b"") == b"".as_slice());
}
