// The command `canon report` by worked examples.
use crate::comparing::expect_same;
use crate::frames::{bytes_of, frame, joined, noted};
use crate::reports::{collector_report, field, nested};
use crate::runs::{expect_in_pieces, expect_in_pieces_of};
use plain_values::NoMemory;
use std::alloc::Global;
use std::marker::Sync;
use std::process::Abort;
use std::sync::Wait;
use std::test::Fail;
use std::thread::Threads;

fn expect_rewritten(
    rt: &(impl Abort + AllocGlobal + Threads + Wait + Sync),
    command: &str,
    input: &str,
    output: &str,
) -> Result<(), Fail> {
    let input = bytes_of(rt.alloc(), input)?;
    let want = bytes_of(rt.alloc(), output)?;
    expect_in_pieces(rt, command, &input, &want, 0)
}

// Frames, and their canonical form.
const REPORTS: [(&str, &str); 7] = [
    ("", ""),
    (
        "0000000a 2a020801 2a041a026e6f",
        "00000008 2a0608011a026e6f",
    ),
    (
        "00000012 1a10 0a0e 0a0164 1209 21000000000000f83f",
        "00000012 1a10 0a0e 0a0164 1209 21000000000000f83f",
    ),
    (
        "00000012 1a10 0a0e 0a0164 1209 21010000000000f87f",
        "00000012 1a10 0a0e 0a0164 1209 21010000000000f87f",
    ),
    (
        "0000000b 10 ffffffffffffffffff01",
        "0000000b 10 ffffffffffffffffff01",
    ),
    ("00000005 7a01ff 0801", "00000000"),
    (
        "0000000e 1a0c 0a0a 1208 0a0161 1001 0a0162",
        "00000009 1a07 0a05 1203 0a0162",
    ),
];

// Reports as agents send them most. The first two and the last but one are in canonical form; the others have a number in more bytes than it takes, a
// number twice, fields in another order, and two that say what goes without saying. Behind them stands a fault.
const SENT: [&str; 9] = [
    "00000017 0a10 U 1002 208110",
    "0000001b 0a10 U 1003 208110 2a020801",
    "0000001c 0a10 U 108400 208110 2a020801",
    "0000001d 0a10 U 1004 1005 208110 2a020801",
    "00000017 1006 0a10 U 208110",
    "00000017 0a10 U 1000 208110",
    "0000001b 0a10 U 1008 208110 2a020800",
    "00000019 0a10 U 1009 208110 2a00",
    "00000001 0b",
];

const REWRITTEN: [&str; 8] = [
    "00000017 0a10 U 1002 208110",
    "0000001b 0a10 U 1003 208110 2a020801",
    "0000001b 0a10 U 1004 208110 2a020801",
    "0000001b 0a10 U 1005 208110 2a020801",
    "00000017 0a10 U 1006 208110",
    "00000015 0a10 U 208110",
    "00000019 0a10 U 1008 208110 2a00",
    "00000019 0a10 U 1009 208110 2a00",
];

const REPLIES: [(&str, &str); 3] = [
    ("00000006 0a00 3801 3000", "00000002 3801"),
    (
        "00000008 2206 1204 1a02 3082",
        "00000008 2206 1204 1a02 3082",
    ),
    (
        "00000008 4a06 08ffffffff0f",
        "0000000d 4a0b 08ffffffffffffffffff01",
    ),
];

#[test]
fn reports_are_rewritten(rt: HostRuntime) -> Result<(), Fail> {
    for (input, output) in &REPORTS {
        expect_rewritten(&rt, "canon report", input, output)?;
    }
    Ok(())
}

#[test]
fn short_reports_are_rewritten_up_to_a_fault(rt: HostRuntime) -> Result<(), Fail> {
    let input = joined(rt.alloc(), &SENT).expect(&rt, "memory");
    let mut want = joined(rt.alloc(), &REWRITTEN).expect(&rt, "memory");
    let note = noted(rt.alloc(), "refused at 241: Group").expect(&rt, "memory");
    want.extend_from_slice(&note).expect(&rt, "memory");
    expect_in_pieces(&rt, "canon report", &input, &want, 1)
}

#[test]
fn replies_are_rewritten(rt: HostRuntime) -> Result<(), Fail> {
    for (input, output) in &REPLIES {
        expect_rewritten(&rt, "canon reply", input, output)?;
    }
    Ok(())
}

// The message is in canonical form already.
fn expect_itself(
    rt: &(impl Abort + AllocGlobal + Threads + Wait + Sync),
    message: &[u8],
) -> Result<(), Fail> {
    assert!(rt; message.len() < 40_000);
    let framed = frame(rt.alloc(), message)?;
    expect_in_pieces(rt, "canon report", &framed, &framed, 0)
}

#[test]
fn a_hundred_levels_and_a_collectors_report(rt: HostRuntime) -> Result<(), Fail> {
    let shallow = nested(rt.alloc(), "")?;
    expect_same(&rt, &shallow.len(), &233);
    expect_itself(&rt, &shallow)?;
    drop(shallow);
    expect_itself(&rt, &collector_report(rt.alloc())?)
}

// A key of six letters; greater numbers have greater keys.
fn key_of(number: u32) -> [u8; 6] {
    let letter = |place: u32| b'a' + (number / place % 26) as u8;
    [
        b'k',
        letter(456_976),
        letter(17_576),
        letter(676),
        letter(26),
        letter(1),
    ]
}

// Health with so many components, each without a value: an entry has 10 bytes, and 12 in canonical form.
fn crowded_health(alloc: Global, components: u32) -> Result<Vec<u8>, NoMemory> {
    let mut health = Vec::new(alloc);
    for number in 0..components {
        health.extend_from_slice(&[0x32, 0x08, 0x0a, 0x06])?;
        health.extend_from_slice(&key_of(number))?;
    }
    field(alloc, 0x2a, &health)
}

// The canonical form of 400,000 components passes the limit, and nothing is written.
fn expect_too_large(
    rt: &(impl Abort + AllocGlobal + Threads + Wait + Sync),
    pieces: &[usize],
) -> Result<(), Fail> {
    let message = crowded_health(rt.alloc(), 400_000)?;
    assert_eq!(rt; message.len(), 4_000_005);
    let input = frame(rt.alloc(), &message)?;
    expect_in_pieces_of(rt, pieces, "canon report", &input, &[], 11)
}

#[test]
fn canonical_form_too_large(rt: HostRuntime) -> Result<(), Fail> {
    expect_too_large(&rt, &[7, 4_096, 65_536])
}

#[test]
fn canonical_form_too_large_byte_by_byte(rt: HostRuntime) -> Result<(), Fail> {
    expect_too_large(&rt, &[1])
}
