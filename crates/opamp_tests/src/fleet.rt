// The command `fleet` by worked examples.
use crate::comparing::expect_same;
use crate::frames::{ACCEPTED, ASKED, FULL, GAP, NEXT, bytes_of, copy_of, joined, noted};
use crate::runs::{expect_in_pieces, expect_in_pieces_of, run_words, words_of};
use command_fleet::run_fleet_command;
use edge_devices::{MemorySink, MemorySource};
use plain_values::NoMemory;
use std::alloc::Global;
use std::process::Abort;
use std::test::Fail;

// The first reports of two agents more, whose identifiers end with 0d and 0e, and the replies to them.
const FULL_0D: &str = "0000001d 0a10 000102030405060708090a0b0c0d0e0d 1001 1a00 208110 2a020801";

const ACCEPTED_0D: &str = "00000014 0a10 000102030405060708090a0b0c0d0e0d 3805";

const FULL_0E: &str = "0000001d 0a10 000102030405060708090a0b0c0d0e0e 1001 1a00 208110 2a020801";

const ACCEPTED_0E: &str = "00000014 0a10 000102030405060708090a0b0c0d0e0e 3805";

// A report with an identifier of two bytes, and the error that says so.
const SHORT: &str = "00000004 0a02 0102";

const REFUSED: &str = "0000001a 0a02 0102 1214 0801 1210 62616420696e7374616e63655f756964";

#[test]
fn one_desk_keeps_the_order(rt: HostRuntime) -> Result<(), Fail> {
    let cases: [(&[&str], &[&str]); 3] = [
        (&[], &[]),
        (&[FULL], &["00000009 03 0000000000000000", ACCEPTED]),
        (
            &[FULL, NEXT, GAP],
            &[
                "00000009 03 0000000000000000",
                ACCEPTED,
                "00000009 03 0000000000000001",
                ACCEPTED,
                "00000009 03 0000000000000002",
                ASKED,
            ],
        ),
    ];
    for (input, output) in cases {
        let input = joined(rt.alloc(), input)?;
        let output = joined(rt.alloc(), output)?;
        expect_in_pieces(&rt, "fleet 1", &input, &output, 0)?;
    }
    Ok(())
}

// Each shard has one row, so that the output is the same however the desks run.
#[test]
fn desks_write_one_output(rt: HostRuntime) -> Result<(), Fail> {
    let input = joined(rt.alloc(), &[FULL, SHORT, FULL_0E, FULL_0D])?;
    let output = joined(
        rt.alloc(),
        &[
            "00000009 00 0000000000000001",
            REFUSED,
            "00000009 01 0000000000000003",
            ACCEPTED_0D,
            "00000009 02 0000000000000002",
            ACCEPTED_0E,
            "00000009 03 0000000000000000",
            ACCEPTED,
        ],
    )?;
    for words in ["fleet 1", "fleet 2", "fleet 3", "fleet 64"] {
        expect_in_pieces(&rt, words, &input, &output, 0)?;
    }
    Ok(())
}

// What came before a fault is handled and written, and then the note stands.
#[test]
fn a_fault_ends_the_reading(rt: HostRuntime) -> Result<(), Fail> {
    let alloc = rt.alloc();
    let input = joined(alloc, &[FULL, "00000001 0b", FULL])?;
    let mut output = joined(alloc, &["00000009 03 0000000000000000", ACCEPTED])?;
    output.extend_from_slice(&noted(alloc, "refused at 37: Group")?)?;
    let cut = joined(alloc, &["0000001d 0a"])?;
    let note = noted(alloc, "refused at 0: Truncated")?;
    for words in ["fleet 1", "fleet 2"] {
        expect_in_pieces(&rt, words, &input, &output, 1)?;
        expect_in_pieces(&rt, words, &cut, &note, 1)?;
    }
    Ok(())
}

// The source would fail at its first call: of words that name no command nothing is read.
#[test]
fn words_of_fleet(rt: HostRuntime) -> Result<(), Fail> {
    for line in [
        "fleet 0",
        "fleet 65",
        "fleet",
        "fleet 1 2",
        "fleet +1",
        "fleet two",
        "fleets 1",
    ] {
        let words = words_of(rt.alloc(), line)?;
        let ran = run_words(&rt, &words, Vec::new(rt.alloc()), 1, &[0], &[0])?;
        expect_same(&rt, &(line, ran.status, ran.output.len()), &(line, 2, 0));
    }
    Ok(())
}

// All is read before anything is written: where the source fails there is no output. Where the sink fails it took three bytes of what it was given.
#[test]
fn source_and_sink_fail(rt: HostRuntime) -> Result<(), Fail> {
    let alloc = rt.alloc();
    let words = words_of(alloc, "fleet 2")?;
    let cases: [(&[u64], &[u64], (u8, usize)); 4] = [
        (&[0], &[], (3, 0)),
        (&[1], &[], (3, 0)),
        (&[], &[0], (4, 3)),
        (&[], &[1], (4, 40)),
    ];
    for (takes, puts, want) in cases {
        let input = joined(alloc, &[FULL, "00000001 0b"])?;
        let ran = run_words(&rt, &words, input, 33, takes, puts)?;
        expect_same(&rt, &(ran.status, ran.output.len()), &want);
    }
    Ok(())
}

// The reports within the budget of bytes are handled and written.
#[test]
fn the_budget_is_spent(rt: HostRuntime) -> Result<(), Fail> {
    let alloc = rt.alloc();
    let mut source = MemorySource::new(joined(alloc, &[FULL, FULL])?, 100, Vec::new(alloc));
    let mut sink = MemorySink::new(alloc, 3, Vec::new(alloc));
    let status = run_fleet_command(&rt, alloc, 2, &mut source, &mut sink, 33);
    let want = joined(alloc, &["00000009 03 0000000000000000", ACCEPTED])?;
    expect_same(&rt, &(sink.bytes(), status), &(want.as_slice(), 9));
    Ok(())
}

// A report with an identifier that ends with this byte, and a field of 1,000,000 bytes that no report has: a frame of 1,000,038 bytes.
fn wide_report(alloc: Global, agent: u8) -> Result<Vec<u8>, NoMemory> {
    let mut bytes = bytes_of(alloc, "000f4262 0a10 000102030405060708090a0b0c0d0e")?;
    bytes.push(agent)?;
    bytes.extend_from_slice(&bytes_of(alloc, "1001 1a00 208110 2a020801 a206 c0843d")?)?;
    bytes.resize(1_000_038, 0)?;
    Ok(bytes)
}

// The frames of a shard and an item below 256, and of the reply to its report.
fn add_row(alloc: Global, shard: u8, item: u8, output: &mut Vec<u8>) -> Result<(), NoMemory> {
    output.extend_from_slice(&[0, 0, 0, 9, shard, 0, 0, 0, 0, 0, 0, 0, item])?;
    output.extend_from_slice(&bytes_of(alloc, "00000014 0a10 000102030405060708090a0b0c0d0e")?)?;
    output.push(item)?;
    output.extend_from_slice(&bytes_of(alloc, "3805")?)?;
    Ok(())
}

// The rows of ten such reports, whose identifiers end with their places. With one, two or four desks those of a shard are one desk's.
fn ten_rows(alloc: Global) -> Result<Vec<u8>, NoMemory> {
    let mut output = Vec::new(alloc);
    for (shard, item) in [
        (0, 0),
        (0, 4),
        (0, 8),
        (1, 1),
        (1, 5),
        (1, 9),
        (2, 2),
        (2, 6),
        (3, 3),
        (3, 7),
    ] {
        add_row(alloc, shard, item, &mut output)?;
    }
    Ok(output)
}

// Several desks share the reports of a block, in whatever pieces it comes, and so they do before a fault in it.
#[test]
fn blocks_are_read_alike(rt: HostRuntime) -> Result<(), Fail> {
    let alloc = rt.alloc();
    let mut input = Vec::new(alloc);
    for agent in 0..10 {
        input.extend_from_slice(&wide_report(alloc, agent)?)?;
    }
    let mut refused = copy_of(alloc, &input)?;
    refused.extend_from_slice(&joined(alloc, &["00000001 0b", FULL])?)?;
    let output = ten_rows(alloc)?;
    let mut cut = copy_of(alloc, &output)?;
    cut.extend_from_slice(&noted(alloc, "refused at 10000384: Group")?)?;
    for words in ["fleet 1", "fleet 2", "fleet 4"] {
        expect_in_pieces_of(&rt, &[70_000, 9_000_000], words, &input, &output, 0)?;
        expect_in_pieces_of(&rt, &[3_000_000], words, &refused, &cut, 1)?;
    }
    Ok(())
}

// The rows of the ten of forty such reports that are of one of the four shards.
fn add_rows(alloc: Global, shard: u8, output: &mut Vec<u8>) -> Result<(), NoMemory> {
    for turn in 0..10 {
        add_row(alloc, shard, shard.wrapping_add(4 * turn), output)?;
    }
    Ok(())
}

// The rows of forty such reports.
fn forty_rows(alloc: Global) -> Result<Vec<u8>, NoMemory> {
    let mut output = Vec::new(alloc);
    for shard in 0..4 {
        add_rows(alloc, shard, &mut output)?;
    }
    Ok(output)
}

// Several desks read blocks of 16 MiB and more: the reports of three blocks are those of one input, and so are those before a fault in the third one.
#[test]
fn blocks_follow_one_another(rt: HostRuntime) -> Result<(), Fail> {
    let alloc = rt.alloc();
    let mut input = Vec::new(alloc);
    for agent in 0..40 {
        input.extend_from_slice(&wide_report(alloc, agent)?)?;
    }
    let output = forty_rows(alloc)?;
    expect_in_pieces_of(&rt, &[9_000_000], "fleet 2", &input, &output, 0)?;
    input.extend_from_slice(&joined(alloc, &["00000001 0b", FULL])?)?;
    let mut cut = copy_of(alloc, &output)?;
    cut.extend_from_slice(&noted(alloc, "refused at 40001524: Group")?)?;
    expect_in_pieces_of(&rt, &[70_000], "fleet 4", &input, &cut, 1)?;
    Ok(())
}
