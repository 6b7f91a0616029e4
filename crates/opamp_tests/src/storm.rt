// The command `storm` by worked examples.

use crate::comparing::expect_same;
use crate::runs::{run_words, words_of};
use std::marker::Sync;
use std::process::Abort;
use std::sync::Wait;
use std::test::Fail;
use std::thread::Threads;

// Words, the calls of the sink that fail, and what is written with which status.
struct Example {
    words: &'static str,
    failing_puts: &'static [u64],
    written: &'static str,
    status: u8,
}

const EXAMPLES: [Example; 9] = [
    Example {
        words: "storm 7 20000",
        failing_puts: &[],
        written: "events 20000 sent 2177 deltas 829 takes 4386 asks 1885 plain 893 full 290 number 295980\n",
        status: 0,
    },
    Example {
        words: "storm 0 1",
        failing_puts: &[],
        written: "events 1 sent 0 deltas 0 takes 0 asks 0 plain 0 full 0 number 0\n",
        status: 0,
    },
    Example {
        words: "storm 1 1",
        failing_puts: &[],
        written: "events 1 sent 1 deltas 0 takes 0 asks 0 plain 0 full 0 number 0\n",
        status: 0,
    },
    Example {
        words: "storm 0 1",
        failing_puts: &[0],
        written: "eve",
        status: 4,
    },
    Example {
        words: "storm 1",
        failing_puts: &[],
        written: "",
        status: 2,
    },
    Example {
        words: "storm 1 0",
        failing_puts: &[],
        written: "",
        status: 2,
    },
    Example {
        words: "storm 1 100001",
        failing_puts: &[],
        written: "",
        status: 2,
    },
    Example {
        words: "storm 18446744073709551616 1",
        failing_puts: &[],
        written: "",
        status: 2,
    },
    Example {
        words: "storm -1 1",
        failing_puts: &[],
        written: "",
        status: 2,
    },
];

// The source would fail at its first call: nothing is read.
fn expect_storm(
    rt: &(impl Abort + AllocGlobal + Threads + Wait + Sync),
    example: &Example,
) -> Result<(), Fail> {
    let words = words_of(rt.alloc(), example.words)?;
    let ran = run_words(
        rt,
        &words,
        Vec::new(rt.alloc()),
        1,
        &[0],
        example.failing_puts,
    )?;
    let want = (example.words, example.written.as_bytes(), example.status);
    expect_same(
        rt,
        &(example.words, ran.output.as_slice(), ran.status),
        &want,
    );
    Ok(())
}

#[test]
fn storms_are_summed_up(rt: HostRuntime) -> Result<(), Fail> {
    for example in &EXAMPLES {
        expect_storm(&rt, example)?;
    }
    Ok(())
}
