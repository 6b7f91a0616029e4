// Faults of the input stand at their places, by each command.
ghost use Rattle.std.specs.Prelude.{◌<◌, ◌^◌, length};

use crate::comparing::expect_same;
use crate::frames::{ACCEPTED, bytes_of, frame, noted};
use crate::reports::{collector_report, nested};
use crate::runs::expect_in_pieces;
use message_codec::reader::items::ReadFail;
use message_codec::wire::{Refused, Why};
use message_reports::decoding::decode_report;
use message_reports::encoding::encode_report;
use std::marker::Sync;
use std::ops::Range;
use std::process::Abort;
use std::sync::Wait;
use std::test::Fail;
use std::thread::Threads;

// The length of a collector's report.
const COLLECTOR_REPORT: usize = 31_054;

// Where its fields begin. Each has a tag of one byte.
const FIELDS: [usize; 7] = [0, 18, 20, 202, 205, 1_010, 31_046];

const COMMANDS: [&str; 2] = ["answer", "canon report"];

// Of the input the note alone is written: behind four bytes where the output is frames, as a line where it is text.
fn expect_note(
    rt: &(impl Abort + AllocGlobal + Threads + Wait + Sync),
    input: &[u8],
    note: &str,
) -> Result<(), Fail> {
    let want = noted(rt.alloc(), note)?;
    for command in COMMANDS {
        expect_in_pieces(rt, command, input, &want, 1)?;
    }
    let line = format!(in rt.alloc(); "{note}\n")?;
    expect_in_pieces(rt, "show report", input, line.as_bytes(), 1)
}

// Frames, and the note that is written of them.
const FAULTS: [(&str, &str); 16] = [
    (
        "0000000b 10 ffffffffffffffffff02",
        "refused at 5: VarintTooLong",
    ),
    ("00000007 1a05 0a03 0a02 61", "refused at 9: Truncated"),
    ("00000005 2a031a01ff", "refused at 8: NotUtf8"),
    ("00000001 0b", "refused at 4: Group"),
    ("0000001d 0a", "refused at 0: Truncated"),
    ("00400001", "refused at 0: TooLarge"),
    ("00400001 0a", "refused at 0: TooLarge"),
    ("00000002 1a05", "refused at 5: Truncated"),
    ("00000003 2a0180", "refused at 6: Truncated"),
    ("00000002 0001", "refused at 4: BadTag"),
    ("00000006 808080801001", "refused at 4: BadTag"),
    ("00000001 0e", "refused at 4: BadWireType"),
    ("00000002 2901", "refused at 5: Truncated"),
    ("00000005 2a03 110000", "refused at 7: Truncated"),
    (
        "0000000b 1a ffffffffffffffffff02",
        "refused at 5: VarintTooLong",
    ),
    (
        "0000000b 1a ffffffffffffffffff01",
        "refused at 5: Truncated",
    ),
];

#[test]
fn faults_stand_at_their_places(rt: HostRuntime) -> Result<(), Fail> {
    for (input, note) in &FAULTS {
        expect_note(&rt, &bytes_of(rt.alloc(), input)?, note)?;
    }
    Ok(())
}

#[test]
fn too_deep(rt: HostRuntime) -> Result<(), Fail> {
    let deep = nested(rt.alloc(), "3200")?;
    assert_eq!(rt; deep.len(), 236);
    expect_note(&rt, &frame(rt.alloc(), &deep)?, "refused at 239: TooDeep")
}

// What came before a fault stays written, and the fault's place counts from the input's first byte.
#[test]
fn what_came_before_a_fault_stays(rt: HostRuntime) -> Result<(), Fail> {
    let input = bytes_of(
        rt.alloc(),
        "0000001d 0a10 U 1001 1a00 208110 2a020801 00000001 0b",
    )?;
    let mut want = bytes_of(rt.alloc(), ACCEPTED)?;
    want.extend_from_slice(&noted(rt.alloc(), "refused at 37: Group")?)?;
    expect_in_pieces(&rt, "answer", &input, &want, 1)
}

// Where the field begins in which the first `len` bytes of a collector's report end; none where they are whole fields.
fn cut_field(len: usize) -> Option<usize> {
    if len == COLLECTOR_REPORT || FIELDS.contains(&len) {
        return None;
    }
    FIELDS.iter().copied().filter(|field| *field < len).max()
}

// Whole fields are read, and written again as they stand. Another prefix is refused behind the tag of the field that is cut.
fn expect_read(rt: &(impl Abort + AllocGlobal), prefix: &[u8]) {
    let cut = cut_field(prefix.len());
    match decode_report(rt.alloc(), prefix) {
        Ok(report) => {
            let again = encode_report(rt.alloc(), &report).expect(rt, "memory");
            drop(report);
            expect_same(rt, &(again.as_slice(), cut), &(prefix, None));
        }
        Err(ReadFail::Refused(refused)) => expect_refused(rt, refused, cut),
        Err(ReadFail::NoMemory) => panic!(rt; "memory"),
    }
}

fn expect_refused(rt: &impl Abort, refused: Refused, cut: Option<usize>) {
    let at = cut.map(|field| (field as u64).wrapping_add(1));
    expect_same(rt, &(refused.why, Some(refused.at)), &(Why::Truncated, at));
}

fn expect_all_read(rt: &(impl Abort + AllocGlobal), lens: Range<usize>) {
    let report = collector_report(rt.alloc()).expect(rt, "memory");
    expect_same(rt, &report.len(), &COLLECTOR_REPORT);
    for len in lens {
        expect_read(rt, &report[..len.min(report.len())]);
    }
}

// The file that a collector's report carries begins in the first part.
#[test]
fn prefixes_before_the_file(rt: HostRuntime) {
    expect_all_read(&rt, 0..8_000);
}

#[test]
fn prefixes_within_the_file(rt: HostRuntime) {
    expect_all_read(&rt, 8_000..16_000);
}

#[test]
fn prefixes_further_within_the_file(rt: HostRuntime) {
    expect_all_read(&rt, 16_000..24_000);
}

#[test]
fn prefixes_behind_the_file(rt: HostRuntime) {
    expect_all_read(&rt, 24_000..COLLECTOR_REPORT + 1);
}

// The same for a frame of the prefix, of which four bytes stand before it, in whatever pieces it comes.
fn expect_rewritten(
    rt: &(impl Abort + AllocGlobal + Threads + Wait + Sync),
    prefix: &[u8],
) -> Result<(), Fail>
    requires { length prefix.now < 2 ^ 32 }
{
    let framed = frame(rt.alloc(), prefix)?;
    let Some(field) = cut_field(prefix.len()) else {
        return expect_in_pieces(rt, "canon report", &framed, &framed, 0);
    };
    let at = field.wrapping_add(5);
    let note = format!(in rt.alloc(); "refused at {at}: Truncated")?;
    let want = noted(rt.alloc(), &note)?;
    expect_in_pieces(rt, "canon report", &framed, &want, 1)
}

fn expect_rewritten_by(
    rt: &(impl Abort + AllocGlobal + Threads + Wait + Sync),
    lens: Range<usize>,
    step: usize,
) -> Result<(), Fail>
    requires { 0 < step }
{
    let report = collector_report(rt.alloc())?;
    assert_eq!(rt; report.len(), COLLECTOR_REPORT);
    for len in lens.step_by(step) {
        assert!(rt; len <= report.len());
        expect_rewritten(rt, &report[..len])?;
    }
    Ok(())
}

#[test]
fn prefixes_round_the_file_in_pieces(rt: HostRuntime) -> Result<(), Fail> {
    expect_rewritten_by(&rt, 0..1_100, 1)?;
    expect_rewritten_by(&rt, 31_040..COLLECTOR_REPORT + 1, 1)
}

// Within the file one byte is like the next.
#[test]
fn prefixes_within_the_file_in_pieces(rt: HostRuntime) -> Result<(), Fail> {
    expect_rewritten_by(&rt, 1_100..31_040, 256)
}
