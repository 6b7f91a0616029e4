//! How much of a report is held, and how many messages are open, wherever the report is cut. The expected numbers follow by hand from the
//! Protocol Buffers encoding guide: what is held is the part of a tag, a number, a length, a text or bytes that isn't whole.

use crate::comparing::expect_same;
use crate::report_pieces::{feed, report_with_file};
use message_reports::report_reader::ReportReader;
use std::process::Abort;

// A field, and behind each of its bytes how many are held and how many messages are open, as hexadecimal digits.
#[derive(Drop)]
struct Field {
    bytes: &'static [u8],
    held: &'static [u8],
    open: &'static [u8],
}

// A report's fields. No field has the number 31.
const FIELDS: [Field; 11] = [
    // instance_uid
    Field {
        bytes: b"\x0a\x10\x00\x01\x02\x03\x04\x05\x06\x07\x08\x09\x0a\x0b\x0c\x0d\x0e\x0f",
        held: b"00123456789abcdef0",
        open: b"111111111111111111",
    },
    // sequence_num 300
    Field {
        bytes: b"\x10\xac\x02",
        held: b"010",
        open: b"111",
    },
    // agent_description with the attribute k, a text of ten bytes
    Field {
        bytes: b"\x1a\x13\x0a\x11\x0a\x01k\x12\x0c\x0a\x0asome value",
        held: b"000000000001234567890",
        open: b"122333334444444444441",
    },
    // capabilities 7175
    Field {
        bytes: b"\x20\x87\x38",
        held: b"010",
        open: b"111",
    },
    // health: healthy since a time, with a status, and below it the component p with an error
    Field {
        bytes: b"\x2a\x1b\x08\x01\x11\x01\x02\x03\x04\x05\x06\x07\x08\x22\x02ok\x32\x0a\x0a\x01p\x12\x05\x1a\x03bad",
        held: b"00000123456700010000000000120",
        open: b"12222222222222222233333444441",
    },
    // agent_disconnect, which has no content
    Field {
        bytes: b"\x4a\x00",
        held: b"00",
        open: b"11",
    },
    // custom_capabilities with one name
    Field {
        bytes: b"\x62\x05\x0a\x03cap",
        held: b"0000120",
        open: b"1222221",
    },
    // available_components: a component without a name and without details, and the hash
    Field {
        bytes: b"\x72\x0a\x0a\x04\x0a\x00\x12\x00\x12\x02\xab\xcd",
        held: b"000000000010",
        open: b"122333322221",
    },
    // number 31 with bytes, whose length is two bytes long
    Field {
        bytes: b"\xfa\x01\x82\x00\x02\x03",
        held: b"101000",
        open: b"111111",
    },
    // number 31 with a number
    Field {
        bytes: b"\xf8\x01\xff\x7f",
        held: b"1010",
        open: b"1111",
    },
    // custom_message
    Field {
        bytes: b"\x6a\x06\x0a\x01c\x1a\x01\xff",
        held: b"00000000",
        open: b"12222221",
    },
];

// The report of the fields, with what is held and what is open behind each of its bytes.
#[derive(Drop)]
struct Wanted {
    bytes: Vec<u8>,
    held: Vec<u8>,
    open: Vec<u8>,
}

fn all_fields(rt: &(impl Abort + AllocGlobal)) -> Wanted {
    let mut all = Wanted {
        bytes: Vec::new(rt.alloc()),
        held: Vec::new(rt.alloc()),
        open: Vec::new(rt.alloc()),
    };
    for field in FIELDS {
        all.bytes
            .extend_from_slice(field.bytes)
            .expect(rt, "memory");
        all.held.extend_from_slice(field.held).expect(rt, "memory");
        all.open.extend_from_slice(field.open).expect(rt, "memory");
    }
    all
}

// What is held of a front of a report, and how many messages are open; then it is read to its end, where it is the report alone.
fn at_cut(rt: &(impl Abort + AllocGlobal), front: &[u8], rest: &[u8]) -> (u64, u64) {
    let mut reader = ReportReader::new(rt.alloc());
    feed(rt, &mut reader, front);
    let held = reader.held();
    let open = reader.levels();
    feed(rt, &mut reader, rest);
    expect_same(rt, &reader.held(), &0);
    expect_same(rt, &reader.levels(), &1);
    drop(reader);
    (held, open)
}

// The hexadecimal digit of a number below 16.
fn digit(number: u64) -> Option<u8> {
    b"0123456789abcdef".get(number as usize).copied()
}

// Cut behind each byte of the report, the reader holds what the rows say, and so many messages are open.
#[test]
fn the_item_that_is_cut_is_held(rt: HostRuntime) {
    let all = all_fields(&rt);
    let bytes = all.bytes.as_slice();
    expect_same(&rt, &all.held.len(), &bytes.len());
    expect_same(&rt, &all.open.len(), &bytes.len());
    for at in 1..bytes.len() {
        let (front, rest) = bytes.split_at(at);
        let (held, open) = at_cut(&rt, front, rest);
        expect_same(&rt, &digit(held), &all.held.get(at - 1).copied());
        expect_same(&rt, &digit(open), &all.open.get(at - 1).copied());
    }
}

// How many bytes of a file a report has, how many come behind them, and the longest of the report's other texts.
const CONTENT: usize = 300;

const BEHIND: usize = 8;

const LONGEST: u64 = 19;

fn held_of(rt: &(impl Abort + AllocGlobal), front: &[u8]) -> u64 {
    let mut reader = ReportReader::new(rt.alloc());
    feed(rt, &mut reader, front);
    let held = reader.held();
    drop(reader);
    held
}

// Of a collector's report a file's content is held as far as it came, and elsewhere never more than a short text.
#[test]
fn no_more_than_one_content_is_held(rt: HostRuntime) {
    let report = report_with_file(&rt, CONTENT);
    let end = report.len().saturating_sub(BEHIND);
    let begin = end.saturating_sub(CONTENT);
    for at in 0..report.len() {
        let held = held_of(&rt, &report[..at]);
        if begin <= at && at < end {
            expect_same(&rt, &held, &((at - begin) as u64));
        } else {
            assert!(rt; held < LONGEST);
        }
    }
}

// Nothing is held behind a fault, and no message is open.
#[test]
fn nothing_is_held_behind_a_fault(rt: HostRuntime) {
    let mut reader = ReportReader::new(rt.alloc());
    feed(&rt, &mut reader, b"\x10\x01\x2a\x05\x0b");
    expect_same(&rt, &reader.held(), &0);
    expect_same(&rt, &reader.levels(), &0);
    drop(reader);
}
