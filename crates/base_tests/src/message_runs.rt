// A command at work over sources and sinks in memory.
ghost use Rattle.std.specs.Prelude.{◌<◌, ◌^◌};
ghost use Rattle.std.proofs.Common.{rules};

use crate::comparing::expect_same;
use command_streams::{Handled, Handler, OutputForm, run, status};
use edge_devices::{MemorySink, MemorySource, ReadFault, Source};
use message_codec::wire::{Out, Why};
use plain_values::NoMemory;
use std::alloc::Global;
use std::process::Abort;

// Writes each message back without its length. The empty message is refused, one of more bytes than `longest` is too long, and for `!` there is no memory.
#[derive(Drop)]
struct Echo {
    longest: usize,
}

impl Handler for Echo {
    ghost gives = { λ echo message made after. Unit {0} };

    ghost counted = { λ echo. 0 };

    ghost counts = { λ before after message output given. Prim.search rules };

    fn handle(
        &mut self,
        _alloc: Global,
        message: &[u8],
        output: &mut Out,
    ) -> Result<Handled, NoMemory> {
        if message.is_empty() {
            return Ok(Handled::Refused {
                at: 0,
                why: Why::BadTag,
            });
        }
        if message == b"!".as_slice() {
            return Err(NoMemory);
        }
        if message.len() > self.longest {
            return Ok(Handled::TooLong);
        }
        output.append(message)?;
        Ok(Handled::Written)
    }
}

// What is written for the source's bytes, and the status. Those calls of the sink fail that are listed, after one byte.
fn echoed_from(
    rt: &(impl Abort + AllocGlobal),
    source: &mut MemorySource,
    longest: usize,
    budget: u64,
    failing_puts: &[u64],
) -> (Vec<u8>, u8)
    requires budget { budget < 2 ^ 62 }
{
    let mut sink = MemorySink::new(rt.alloc(), 1, copy(rt, failing_puts));
    let mut echo = Echo { longest };
    let ending = run(
        rt.alloc(),
        source,
        &mut sink,
        &mut echo,
        OutputForm::Frames,
        budget,
    );
    (copy(rt, sink.bytes()), status(ending))
}

// The same for an input, of which a call of the source gives three bytes at most; those calls fail that are listed. Messages have eight bytes at most.
fn echoed(
    rt: &(impl Abort + AllocGlobal),
    input: &[u8],
    budget: u64,
    failing_takes: &[u64],
    failing_puts: &[u64],
) -> (Vec<u8>, u8)
    requires budget { budget < 2 ^ 62 }
{
    let mut source = MemorySource::new(copy(rt, input), 3, copy(rt, failing_takes));
    echoed_from(rt, &mut source, 8, budget, failing_puts)
}

fn copy<T: Copy>(rt: &(impl Abort + AllocGlobal), items: &[T]) -> Vec<T> {
    let mut copied = Vec::new(rt.alloc());
    copied.extend_from_slice(items).expect(rt, "memory");
    copied
}

#[test]
fn inputs_and_their_endings(rt: HostRuntime) {
    let note = b"ab\xff\xff\xff\xffrefused at 6: ";
    let cases: [(&[u8], u64, &[u8], &[u8], u8); 8] = [
        (b"", 99, b"", b"", 0),
        (b"\0\0\0\x02ab\0\0\0\x01c", 99, b"abc", b"", 0),
        (b"\0\0\0\x02ab\0\0\0\x02c", 99, note, b"Truncated\n", 1),
        (b"\0\0\0\x02ab\0", 99, note, b"Truncated\n", 1),
        (b"\0\0\0\x02ab\0\x40\0\x01c", 99, note, b"TooLarge\n", 1),
        (b"\0\0\0\x02ab\0\0\0\x09abcdefghi", 99, b"ab", b"", 11),
        (b"\0\0\0\x02ab\0\0\0\x02cd", 11, b"ab", b"", 9),
        (b"\0\0\0\x02ab", 6, b"ab", b"", 9),
    ];
    for (input, budget, output, end, want) in cases {
        assert!(rt; budget < 100);
        let (written, status) = echoed(&rt, input, budget, &[], &[]);
        assert!(rt; written.starts_with(output) && written.ends_with(end));
        expect_same(
            &rt,
            &(written.len(), status),
            &(output.len() + end.len(), want),
        );
    }
}

#[test]
fn faults_of_the_message_the_source_and_the_sink(rt: HostRuntime) {
    let input = b"\0\0\0\x02ab\0\0\0\0";
    let (written, status) = echoed(&rt, input, 99, &[], &[]);
    expect_same(
        &rt,
        &written.as_slice(),
        &b"ab\xff\xff\xff\xffrefused at 10: BadTag\n".as_slice(),
    );
    expect_same(&rt, &status, &1);
    let (_, status) = echoed(&rt, input, 99, &[3], &[]);
    expect_same(&rt, &status, &3);
    let (none, _) = echoed(&rt, input, 99, &[0], &[]);
    expect_same(&rt, &none.len(), &0);
    let (cut, status) = echoed(&rt, input, 99, &[], &[0]);
    expect_same(&rt, &cut.as_slice(), &b"a".as_slice());
    expect_same(&rt, &status, &4);
}

// Adds a frame whose message is so many times one byte, and to the output the message.
fn add_frame(rt: &impl Abort, input: &mut Vec<u8>, output: &mut Vec<u8>, byte: u8, len: u32) {
    input
        .extend_from_slice(&len.to_be_bytes())
        .expect(rt, "memory");
    for _ in 0..len {
        input.push(byte).expect(rt, "memory");
        output.push(byte).expect(rt, "memory");
    }
}

// Small frames, frames longer than a block, and at the end less than a frame.
fn mixed(rt: &(impl Abort + AllocGlobal)) -> (Vec<u8>, Vec<u8>) {
    let mut input = Vec::new(rt.alloc());
    let mut output = Vec::new(rt.alloc());
    for len in [1u32, 70_000, 5, 140_000, 65_532, 7] {
        add_frame(rt, &mut input, &mut output, 97, len);
    }
    input.extend_from_slice(b"\0\0\0\x02z").expect(rt, "memory");
    output
        .extend_from_slice(b"\xff\xff\xff\xffrefused at 275569: Truncated\n")
        .expect(rt, "memory");
    (input, output)
}

#[test]
fn pieces_of_any_size(rt: HostRuntime) {
    let (input, output) = mixed(&rt);
    for most in [1usize, 7, 4_096, 65_536, 1_000_000] {
        assert!(rt; most > 0);
        let bytes = copy(&rt, &input);
        let mut source = MemorySource::new(bytes, most, Vec::new(rt.alloc()));
        let (written, status) = echoed_from(&rt, &mut source, 1_000_000, 1_000_000, &[]);
        assert!(rt; written.as_slice() == output.as_slice());
        expect_same(&rt, &status, &1);
    }
}

// The second call of the source fails. The first brought two frames and a part of the third one, whose outputs one call of the sink took before.
#[test]
fn outputs_go_out_before_the_next_take(rt: HostRuntime) {
    let input = copy(&rt, b"\0\0\0\x02ab\0\0\0\x01c\0\0\0\x01d");
    let failing = vec![in rt.alloc(); 1u64].expect(&rt, "memory");
    let mut source = MemorySource::new(input, 15, failing);
    let (written, status) = echoed_from(&rt, &mut source, 8, 99, &[1]);
    expect_same(&rt, &(written.as_slice(), status), &(b"abc".as_slice(), 3));
}

// A source of which the second call fails. The first one brings so many of the bytes.
fn failing_second(rt: &(impl Abort + AllocGlobal), input: &[u8], most: usize) -> MemorySource
    requires some { 0 < most }
{
    let failing = vec![in rt.alloc(); 1u64].expect(rt, "memory");
    MemorySource::new(copy(rt, input), most, failing)
}

// The sink refuses the output of the first call's frames. It was asked before the source was again: the call that fails is still to come.
#[test]
fn the_source_waits_for_the_sink(rt: HostRuntime) {
    let input = b"\0\0\0\x02ab\0\0\0\x01c\0\0\0\x01d";
    let mut source = failing_second(&rt, input, 15);
    let (written, status) = echoed_from(&rt, &mut source, 8, 99, &[0]);
    expect_same(&rt, &(written.as_slice(), status), &(b"a".as_slice(), 4));
    expect_same(&rt, &source.take(&mut [0; 9]), &Err(ReadFault));
}

// A length above the limit: the call that fails is still to come.
#[test]
fn the_source_is_left_behind_a_fault(rt: HostRuntime) {
    let mut source = failing_second(&rt, b"\0\x40\0\x01", 4);
    let (_, status) = echoed_from(&rt, &mut source, 8, 99, &[]);
    expect_same(&rt, &status, &1);
    expect_same(&rt, &source.take(&mut [0; 9]), &Err(ReadFault));
}

// Both frames come at once.
#[test]
fn outputs_go_out_before_want_of_memory(rt: HostRuntime) {
    let input = copy(&rt, b"\0\0\0\x02ab\0\0\0\x01!");
    let mut source = MemorySource::new(input, 99, Vec::new(rt.alloc()));
    let (written, status) = echoed_from(&rt, &mut source, 8, 99, &[]);
    expect_same(&rt, &(written.as_slice(), status), &(b"ab".as_slice(), 5));
}

// The same, where the sink takes the first one's output no more.
#[test]
fn a_refused_output_is_told_before_want_of_memory(rt: HostRuntime) {
    let input = copy(&rt, b"\0\0\0\x02ab\0\0\0\x01!");
    let mut source = MemorySource::new(input, 99, Vec::new(rt.alloc()));
    let (written, status) = echoed_from(&rt, &mut source, 8, 99, &[0]);
    expect_same(&rt, &(written.as_slice(), status), &(b"a".as_slice(), 4));
}

// What the budget leaves is still in the source.
#[test]
fn no_more_than_the_budget_is_taken(rt: HostRuntime) {
    let input = copy(&rt, b"\0\0\0\x02ab\0\0\0\x02cd");
    let mut source = MemorySource::new(input, 99, Vec::new(rt.alloc()));
    let (written, status) = echoed_from(&rt, &mut source, 8, 9, &[]);
    expect_same(&rt, &(written.as_slice(), status), &(b"ab".as_slice(), 9));
    let mut rest = [0u8; 9];
    expect_same(&rt, &source.take(&mut rest), &Ok(3));
    expect_same(&rt, &rest.starts_with(b"\x02cd"), &true);
}

// In output of lines a note is one more line.
#[test]
fn note_among_lines(rt: HostRuntime) {
    let mut source = MemorySource::new(copy(&rt, b"\0\0\0\x02ab\0"), 3, Vec::new(rt.alloc()));
    let mut sink = MemorySink::new(rt.alloc(), 1, Vec::new(rt.alloc()));
    let mut echo = Echo { longest: 8 };
    let ending = run(
        rt.alloc(),
        &mut source,
        &mut sink,
        &mut echo,
        OutputForm::Lines,
        99,
    );
    expect_same(&rt, &status(ending), &1);
    expect_same(
        &rt,
        &sink.bytes(),
        &b"abrefused at 6: Truncated\n".as_slice(),
    );
}
