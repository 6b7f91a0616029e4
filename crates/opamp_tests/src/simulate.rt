// The command `simulate` by worked examples.
ghost use Rattle.std.specs.Prelude.{◌<◌};

use crate::comparing::expect_same;
use crate::frames::copy_of;
use crate::runs::{PIECES, Ran, run_words, words_of};
use command_scripts::run_simulate_command;
use edge_devices::{MemorySink, ReadFault, Source};
use plain_values::NoMemory;
use std::alloc::Global;
use std::marker::Sync;
use std::process::Abort;
use std::sync::Wait;
use std::test::Fail;
use std::thread::Threads;
use world_lab::Lab;

// A script, what is written for it, and the status. `U` in what is written stands for the identifier of a script's agent, in digits.
pub struct Example {
    pub name: &'static str,
    pub script: &'static str,
    pub written: &'static str,
    pub status: u8,
}

const UID: &str = "000102030405060708090a0b0c0d0e0f";

const EXAMPLES: [Example; 5] = [
    Example {
        name: "whole where all obliged fields differ",
        script: "custom x\nsend\ndeliver 1\nreply\nattr a b\nhealth bad no\nsend\n",
        written: "changed\n\
            sent 1 0 1 whole 0a10U10011a002081102a02080162030a0178\n\
            takes 0 1\nplain\nchanged\nchanged\n\
            sent 2 0 2 whole 0a10U10021a0a0a080a016112030a01622081102a041a026e6f62030a0178\n",
        status: 0,
    },
    Example {
        name: "delta after a lost table",
        script: "send\ndeliver 1\nreply\nserver-restart 0\nhealth bad no\nsend\n\
            deliver 2\nreply\nsend\ndeliver 3\nreply\n",
        written: "sent 1 0 1 whole 0a10U10011a002081102a0208016200\n\
            takes 0 1\nplain\nemptied 0\nchanged\n\
            sent 2 0 2 delta 0a10U10022081102a041a026e6f\n\
            asks 0\nfull\n\
            sent 3 0 3 whole 0a10U10031a002081102a041a026e6f6200\n\
            takes 0 3\nplain\n",
        status: 0,
    },
    Example {
        name: "line outside the grammar",
        script: "send\nfly\n",
        written: "refused at 5: BadLine\n",
        status: 1,
    },
    Example {
        name: "no line feed behind the last line",
        script: "server-restart 7",
        written: "emptied 7\n",
        status: 0,
    },
    Example {
        name: "empty script",
        script: "",
        written: "",
        status: 0,
    },
];

// The text with the identifier's digits in place of `U`.
pub fn with_uid(alloc: Global, text: &str) -> Result<Vec<u8>, NoMemory> {
    let mut bytes = Vec::new(alloc);
    for byte in text.bytes() {
        if byte == b'U' {
            bytes.extend_from_slice(UID.as_bytes())?;
        } else {
            bytes.push(byte)?;
        }
    }
    Ok(bytes)
}

// Plays a script of which a call of the source gives so many bytes at most; calls that are listed fail.
pub fn played(
    rt: &(impl AllocGlobal + Threads + Wait + Sync),
    script: &[u8],
    most: usize,
    failing_takes: &[u64],
    failing_puts: &[u64],
) -> Result<Ran, NoMemory>
    requires { 0 < most }
{
    let words = words_of(rt.alloc(), "simulate")?;
    let script = copy_of(rt.alloc(), script)?;
    run_words(rt, &words, script, most, failing_takes, failing_puts)
}

// The run of this name wrote this, and ended with this status.
pub fn expect_output(
    rt: &(impl Abort + AllocGlobal),
    ran: &Ran,
    written: &str,
    status: u8,
    name: &str,
) -> Result<(), Fail> {
    let want = with_uid(rt.alloc(), written)?;
    let output = ran.output.as_slice();
    expect_same(
        rt,
        &(name, output, ran.status),
        &(name, want.as_slice(), status),
    );
    Ok(())
}

pub fn expect_played(
    rt: &(impl Abort + AllocGlobal + Threads + Wait + Sync),
    example: &Example,
) -> Result<(), Fail> {
    for most in PIECES {
        let ran = played(rt, example.script.as_bytes(), most, &[], &[])?;
        expect_output(rt, &ran, example.written, example.status, example.name)?;
    }
    Ok(())
}

#[test]
fn scripts_are_played(rt: HostRuntime) -> Result<(), Fail> {
    for example in &EXAMPLES {
        expect_played(&rt, example)?;
    }
    Ok(())
}

// Lines `send`, as many bytes as are wanted; the last may be cut.
fn sends(alloc: Global, len: usize) -> Result<Vec<u8>, NoMemory> {
    let mut script = Vec::new(alloc);
    script.resize(len, b'\n')?;
    for line in script.chunks_exact_mut(5) {
        line.copy_from_slice(b"send\n");
    }
    Ok(script)
}

// The byte behind the limit is noted, however the bytes come. The limit itself has a line that is none.
const TOO_LARGE: [(usize, &str); 3] = [
    (1_048_576, "refused at 1048575: BadLine\n"),
    (1_048_577, "refused at 1048576: TooLarge\n"),
    (1_200_000, "refused at 1048576: TooLarge\n"),
];

fn expect_refused(
    rt: &(impl Abort + AllocGlobal + Threads + Wait + Sync),
    script: &[u8],
    note: &str,
) -> Result<(), Fail> {
    for most in PIECES {
        let ran = played(rt, script, most, &[], &[])?;
        expect_same(
            rt,
            &(ran.output.as_slice(), ran.status),
            &(note.as_bytes(), 1),
        );
    }
    Ok(())
}

#[test]
fn script_too_large(rt: HostRuntime) -> Result<(), Fail> {
    for (len, note) in &TOO_LARGE {
        expect_refused(&rt, &sends(rt.alloc(), *len)?, note)?;
    }
    Ok(())
}

// A source that never ends, as `/dev/zero`: each call fills the buffer. What is left it can't tell, so it counts what it gave.
#[derive(Drop)]
struct Endless {
    given: u64,
}

impl Source for Endless {
    ghost use Rattle.std.specs.Prelude.{None};

    ghost left = { λ source. None };

    ghost faults = { λ source. 0 };

    fn take(&mut self, into: &mut [u8]) -> Result<usize, ReadFault> {
        into.fill(b'\n');
        self.given = self.given.saturating_add(into.len() as u64);
        Ok(into.len())
    }
}

// Of an endless source no more is taken than the largest script and a block.
#[test]
fn an_endless_source_is_left(rt: HostRuntime) -> Result<(), Fail> {
    let alloc = rt.alloc();
    let mut source = Endless { given: 0 };
    let mut sink = MemorySink::new(alloc, 0, Vec::new(alloc));
    let mut lab = Lab::new(alloc);
    let status = run_simulate_command(alloc, &mut source, &mut sink, &mut lab);
    drop(lab);
    let note: &[u8] = b"refused at 1048576: TooLarge\n";
    expect_same(&rt, &(sink.bytes(), status), &(note, 1));
    assert!(rt; source.given <= 1_114_112);
    Ok(())
}

// A script, the calls of the source and of the sink that fail, the status, and what is written.
const FAILING: [(&str, &[u64], &[u64], u8, &str); 4] = [
    ("active\n", &[0], &[], 3, ""),
    ("active\n", &[1], &[], 3, ""),
    (
        "active\nserver-restart 3\n",
        &[],
        &[1],
        4,
        "active http://s0\nemp",
    ),
    ("fly\n", &[], &[0], 4, "ref"),
];

// Nothing is written where the source fails, and the part that the sink took where that fails.
#[test]
fn source_and_sink_fail(rt: HostRuntime) -> Result<(), Fail> {
    for (script, takes, puts, status, written) in &FAILING {
        let ran = played(&rt, script.as_bytes(), 100, takes, puts)?;
        let want = (written.as_bytes(), *status);
        expect_same(&rt, &(ran.output.as_slice(), ran.status), &want);
    }
    Ok(())
}
