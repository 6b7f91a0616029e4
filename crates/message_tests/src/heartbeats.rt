use message_codec::reader::items::ReadFail;
use message_reports::decoding::decode_report as decode_any;
use message_short::{decode_report, short_report};
use message_values::AgentToServer;
use plain_values::Plain;
use std::process::Abort;

// The field `instance_uid`, of the bytes 0 to 15.
const UID: &[u8] = b"\x0a\x10\x00\x01\x02\x03\x04\x05\x06\x07\x08\x09\x0a\x0b\x0c\x0d\x0e\x0f";

// What stands behind that field, and the number, the capabilities and the health that it tells.
const TOLD: [(&[u8], (u64, u64, Option<bool>)); 10] = [
    (b"", (0, 0, None)),
    (b"\x10\x01", (1, 0, None)),
    (b"\x10\x7f", (127, 0, None)),
    (b"\x10\xac\x02", (300, 0, None)),
    (b"\x10\x80\x80\x01", (16_384, 0, None)),
    (b"\x10\xff\xff\xff\x7f", (268_435_455, 0, None)),
    (b"\x20\x81\x10", (0, 0x801, None)),
    (b"\x10\x01\x20\x81\x10", (1, 0x801, None)),
    (
        b"\x10\x02\x20\x81\x10\x2a\x02\x08\x01",
        (2, 0x801, Some(true)),
    ),
    (b"\x10\x02\x20\x81\x10\x2a\x00", (2, 0x801, Some(false))),
];

// The same of reports that aren't short, or not in canonical form, and of bytes that are none.
const UNTOLD: [&[u8]; 14] = [
    // a field behind, and one between
    b"\x10\x01\x50\x01",
    b"\x10\x01\x1a\x00\x20\x01",
    // numbers in more bytes than they take, a 0, and numbers that are cut off
    b"\x10\x81\x00",
    b"\x20\x81\x80\x00",
    b"\x10\x00",
    b"\x10",
    b"\x10\x81",
    // one of five bytes
    b"\x10\x80\x80\x80\x80\x01",
    // another order, and a field twice
    b"\x20\x01\x10\x01",
    b"\x10\x01\x10\x02",
    // healths
    b"\x2a\x02\x08\x00",
    b"\x2a\x02\x08\x01\x00",
    b"\x2a\x01",
    b"\x2a\x04\x1a\x02no",
];

// Bytes that don't begin with an identifier of 16 bytes.
const UNNAMED: [&[u8]; 4] = [
    b"",
    b"\x10\x01",
    b"\x0a\x0f\x00\x01\x02\x03\x04\x05\x06\x07\x08\x09\x0a\x0b\x0c\x0d\x0e\x10\x01",
    b"\x0a\x10\x00\x01\x02\x03\x04\x05\x06\x07\x08\x09\x0a\x0b\x0c\x0d\x0e",
];

// These bytes behind the identifier.
fn named(rt: &(impl Abort + AllocGlobal), behind: &[u8]) -> Vec<u8> {
    let mut bytes = Vec::from_slice(rt.alloc(), UID).expect(rt, "memory");
    bytes.extend_from_slice(behind).expect(rt, "memory");
    bytes
}

// Whether a glance tells this, under the identifier.
fn tells(bytes: &[u8], want: (u64, u64, Option<bool>)) -> bool {
    match short_report(bytes) {
        Some(short) => {
            short.instance_uid.as_slice() == &UID[2..]
                && (short.sequence_num, short.capabilities, short.healthy) == want
        }
        None => false,
    }
}

fn is_read_as(rt: &impl AllocGlobal, bytes: &[u8], want: &Result<AgentToServer, ReadFail>) -> bool {
    let read = decode_report(rt.alloc(), bytes);
    let is_so = match (&read, want) {
        (Ok(report), Ok(other)) => report.same(other),
        (Err(fail), Err(other)) => fail == other,
        _ => false,
    };
    drop(read);
    is_so
}

// Whether the bytes are read as they are without a glance.
fn is_read_alike(rt: &impl AllocGlobal, bytes: &[u8]) -> bool {
    let want = decode_any(rt.alloc(), bytes);
    let is_so = is_read_as(rt, bytes, &want);
    drop(want);
    is_so
}

#[test]
fn short_reports_are_told(rt: HostRuntime) {
    for (behind, want) in TOLD {
        let bytes = named(&rt, behind);
        assert!(rt; tells(bytes.as_slice(), want));
        assert!(rt; is_read_alike(&rt, bytes.as_slice()));
    }
}

#[test]
fn others_are_read(rt: HostRuntime) {
    for behind in UNTOLD {
        let bytes = named(&rt, behind);
        assert!(rt; short_report(bytes.as_slice()).is_none());
        assert!(rt; is_read_alike(&rt, bytes.as_slice()));
    }
    for bytes in UNNAMED {
        assert!(rt; short_report(bytes).is_none());
        assert!(rt; is_read_alike(&rt, bytes));
    }
}
