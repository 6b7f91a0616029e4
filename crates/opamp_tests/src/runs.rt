//! Commands by their words over bytes.

ghost use Rattle.std.specs.Prelude.{◌<◌};

use crate::frames::copy_of;
use crate::lent::{Lent, run_over};
use edge_devices::{MemorySink, MemorySource, MemoryWire};
use plain_values::{NoMemory, Text};
use std::alloc::Global;
use std::marker::Sync;
use std::sync::Wait;
use std::test::Fail;
use std::thread::Threads;

/// How many bytes a source gives in a call, where an example is run over several sources.
pub const PIECES: [usize; 4] = [1, 7, 4_096, 65_536];

/// What a run over bytes left.
pub struct Ran {
    pub output: Vec<u8>,
    pub status: u8,
}

// By hand, so that it is a call where a value is dropped, and not laid out there.
impl Drop for Ran {
    fn drop(self) {
        let Ran {
            output: _,
            status: _,
        } = self;
    }
}

/// Runs the words over the input. The source gives at most `most` bytes in a call; calls that are listed fail.
pub fn run_words(
    rt: &(impl AllocGlobal + Threads + Wait + Sync),
    words: &[Text],
    input: Vec<u8>,
    most: usize,
    failing_takes: &[u64],
    failing_puts: &[u64],
) -> Result<Ran, NoMemory>
    requires { 0 < most }
{
    let alloc = rt.alloc();
    let takes = copy_of(alloc, failing_takes)?;
    let puts = copy_of(alloc, failing_puts)?;
    let mut lent = Lent::of(
        alloc,
        MemorySource::new(input, most, takes),
        MemorySink::new(alloc, 3, puts),
        MemoryWire::new(alloc, Vec::new(alloc), Vec::new(alloc)),
    );
    let status = run_over(rt, words, &mut lent);
    let output = copy_of(alloc, lent.sink.bytes());
    drop(lent);
    Ok(Ran {
        output: output?,
        status,
    })
}

/// The words, one for each text between blanks.
pub fn words_of(alloc: Global, line: &str) -> Result<Vec<Text>, NoMemory> {
    let mut words = Vec::new(alloc);
    for word in line.split_ascii_whitespace() {
        words.push(Text::of(String::from_str(alloc, word)?))?;
    }
    Ok(words)
}

/// A run that came out otherwise than its example has it.
#[derive(Clone, Copy, Debug)]
pub struct OtherRun {
    /// How many bytes a call of the source gave at most.
    pub most: usize,
    /// The status of the run.
    pub status: u8,
    /// How many bytes it wrote.
    pub len: usize,
}

// The words give this output and this status, where a call of the source gives so many bytes at most.
fn expect_ran(
    rt: &(impl AllocGlobal + Threads + Wait + Sync),
    words: &[Text],
    most: usize,
    input: &[u8],
    output: &[u8],
    status: u8,
) -> Result<(), Fail> {
    let input = copy_of(rt.alloc(), input)?;
    let ran = run_words(rt, words, input, most.max(1), &[], &[])?;
    if ran.status == status && ran.output.as_slice() == output {
        return Ok(());
    }
    Err(Fail::from(OtherRun {
        most,
        status: ran.status,
        len: ran.output.len(),
    }))
}

/// The command gives this output and this status, where a call of the source gives so many bytes at most.
pub fn expect_in_pieces_of(
    rt: &(impl AllocGlobal + Threads + Wait + Sync),
    pieces: &[usize],
    command: &str,
    input: &[u8],
    output: &[u8],
    status: u8,
) -> Result<(), Fail> {
    let words = words_of(rt.alloc(), command)?;
    for most in pieces {
        expect_ran(rt, &words, *most, input, output, status)?;
    }
    Ok(())
}

/// The command gives this output and this status, in whatever pieces the input comes.
pub fn expect_in_pieces(
    rt: &(impl AllocGlobal + Threads + Wait + Sync),
    command: &str,
    input: &[u8],
    output: &[u8],
    status: u8,
) -> Result<(), Fail> {
    expect_in_pieces_of(rt, &PIECES, command, input, output, status)
}
