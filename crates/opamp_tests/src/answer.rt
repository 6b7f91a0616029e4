// The command `answer` by worked examples, and the sources and sinks of all commands over frames that fail.
use crate::frames::{ACCEPTED, ASKED, FULL, GAP, NEXT, bytes_of, frame, joined};
use crate::reports::{collector_report, field};
use crate::runs::{expect_in_pieces, run_words, words_of};
use plain_values::NoMemory;
use std::alloc::Global;
use std::marker::Sync;
use std::process::Abort;
use std::sync::Wait;
use std::test::Fail;
use std::thread::Threads;

// Reports, and the replies to them.
const ANSWERED: [(&[&str], &[&str]); 7] = [
    (&[FULL], &[ACCEPTED]),
    (&[], &[]),
    (&["00000017 0a10 U 1003 208110"], &[ASKED]),
    (&[FULL, NEXT, GAP], &[ACCEPTED, ACCEPTED, ASKED]),
    (&[FULL, NEXT, NEXT], &[ACCEPTED, ACCEPTED, ASKED]),
    (
        &["00000004 0a02 0102"],
        &["0000001a 0a02 0102 1214 0801 1210 62616420696e7374616e63655f756964"],
    ),
    // the hash of components is asked for the components
    (
        &["00000023 0a10 U 1001 1a00 20819001 2a020801 7203 120161"],
        &["00000016 0a10 U 3002 3805"],
    ),
];

fn expect_answered(
    rt: &(impl Abort + AllocGlobal + Threads + Wait + Sync),
    reports: &[&str],
    replies: &[&str],
) -> Result<(), Fail> {
    let input = joined(rt.alloc(), reports)?;
    let output = joined(rt.alloc(), replies)?;
    expect_in_pieces(rt, "answer", &input, &output, 0)
}

#[test]
fn reports_are_answered(rt: HostRuntime) -> Result<(), Fail> {
    for (reports, replies) in &ANSWERED {
        expect_answered(&rt, reports, replies)?;
    }
    Ok(())
}

// A report of as many bytes as a message may have, most of them in the last error.
fn largest_report(alloc: Global) -> Result<Vec<u8>, NoMemory> {
    let mut error = Vec::new(alloc);
    error.resize(4_194_269, b'a')?;
    let health = field(alloc, 0x1a, &error)?;
    drop(error);
    let mut message = bytes_of(alloc, "0a10 U 1001 1a00 208110")?;
    message.extend_from_slice(&field(alloc, 0x2a, &health)?)?;
    Ok(message)
}

#[test]
fn largest_message(rt: HostRuntime) -> Result<(), Fail> {
    let message = largest_report(rt.alloc())?;
    assert_eq!(rt; message.len(), 4_194_304);
    let input = frame(rt.alloc(), &message)?;
    let output = bytes_of(rt.alloc(), ACCEPTED)?;
    expect_in_pieces(&rt, "answer", &input, &output, 0)
}

// Words, frames, the calls of the source and of the sink that fail, and what it ends with: the status and the length of what is written.
type Ending = (
    &'static str,
    &'static str,
    &'static [u64],
    &'static [u64],
    (u8, usize),
);

// Call 0 of the source takes the frame, for which the output goes out before call 1 finds the end. The sink takes three bytes of what it fails to write.
const ENDINGS: [Ending; 19] = [
    ("answer", FULL, &[0], &[], (3, 0)),
    ("answer", FULL, &[1], &[], (3, 24)),
    ("answer", FULL, &[], &[0], (4, 3)),
    ("answer", "00000001 0b", &[], &[0], (4, 3)),
    ("frobnicate", FULL, &[0], &[0], (2, 0)),
    ("answers", FULL, &[0], &[0], (2, 0)),
    ("", FULL, &[0], &[0], (2, 0)),
    ("canon report", FULL, &[0], &[], (3, 0)),
    ("canon report", FULL, &[1], &[], (3, 33)),
    ("canon report", FULL, &[], &[0], (4, 3)),
    ("canon reply", ACCEPTED, &[0], &[], (3, 0)),
    ("canon reply", ACCEPTED, &[1], &[], (3, 24)),
    ("canon reply", ACCEPTED, &[], &[0], (4, 3)),
    ("show report", "00000002 1001", &[0], &[], (3, 0)),
    ("show report", "00000002 1001", &[1], &[], (3, 26)),
    ("show report", "00000002 1001", &[], &[0], (4, 3)),
    ("show reply", "00000002 3801", &[0], &[], (3, 0)),
    ("show reply", "00000002 3801", &[1], &[], (3, 25)),
    ("show reply", "00000002 3801", &[], &[0], (4, 3)),
];

fn ends_so(
    rt: &(impl AllocGlobal + Threads + Wait + Sync),
    ending: &Ending,
) -> Result<bool, NoMemory> {
    let (line, input, takes, puts, want) = *ending;
    let words = words_of(rt.alloc(), line)?;
    let input = bytes_of(rt.alloc(), input)?;
    let ran = run_words(rt, &words, input, 100, takes, puts)?;
    Ok((ran.status, ran.output.len()) == want)
}

#[test]
fn source_sink_and_words_fail(rt: HostRuntime) -> Result<(), Fail> {
    for ending in &ENDINGS {
        assert!(rt; ends_so(&rt, ending)?, "{}", ending.0);
    }
    Ok(())
}

#[test]
fn a_collectors_report_is_answered(rt: HostRuntime) -> Result<(), Fail> {
    let report = collector_report(rt.alloc())?;
    assert!(rt; report.len() < 40_000);
    let input = frame(rt.alloc(), &report)?;
    let output = bytes_of(rt.alloc(), ACCEPTED)?;
    expect_in_pieces(&rt, "answer", &input, &output, 0)
}
