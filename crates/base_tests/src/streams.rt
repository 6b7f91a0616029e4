use crate::comparing::expect_same;
use edge_devices::{
    MemorySink, MemorySource, ReadFault, Reading, Sink, Source, WriteFault, Writing,
};
use std::io;
use std::io::{Read, Write};
use std::process::Abort;

// What a source gives up to its end, at most three bytes in a call, with a `!` for each fault.
fn drained<S: Source>(rt: &(impl Abort + AllocGlobal), source: &mut S) -> Vec<u8> {
    let mut all = Vec::new(rt.alloc());
    for _ in 0..100u32 {
        let mut part = [0u8; 3];
        match source.take(&mut part) {
            Ok(0) => return all,
            Ok(n) => all.extend_from_slice(&part[..n]).expect(rt, "memory"),
            Err(ReadFault) => all.push(b'!').expect(rt, "memory"),
        }
    }
    all
}

// Gives all its bytes, but its second call fails.
#[derive(Drop)]
struct FailsOnce {
    bytes: &'static [u8],
    calls: u8,
}

impl Read for FailsOnce {
    fn read(&mut self, buf: &mut [u8]) -> io::Result<usize> {
        self.calls = self.calls.saturating_add(1);
        if self.calls == 2 {
            return Err(io::ErrorKind::Interrupted.into());
        }
        self.bytes.read(buf)
    }
}

// Takes all bytes, but can't pass them on.
#[derive(Drop)]
struct NeverFlushes;

impl Write for NeverFlushes {
    fn write(&mut self, buf: &[u8]) -> io::Result<usize> {
        Ok(buf.len())
    }

    fn flush(&mut self) -> io::Result<()> {
        Err(io::ErrorKind::Other.into())
    }
}

#[test]
fn sources(rt: HostRuntime) {
    let bytes = vec![in rt.alloc(); b'h', b'e', b'l', b'l', b'o'].expect(&rt, "memory");
    let failing = vec![in rt.alloc(); 1u64].expect(&rt, "memory");
    let mut source = MemorySource::new(bytes, 2, failing);
    expect_same(
        &rt,
        &drained(&rt, &mut source).as_slice(),
        &b"he!llo".as_slice(),
    );

    let mut whole = Reading::new(b"hello".as_slice());
    expect_same(
        &rt,
        &drained(&rt, &mut whole).as_slice(),
        &b"hello".as_slice(),
    );

    // An interrupted read is a fault too, and the bytes behind it come next.
    let bytes: &[u8] = b"hello";
    let mut cut = Reading::new(FailsOnce { bytes, calls: 0 });
    expect_same(
        &rt,
        &drained(&rt, &mut cut).as_slice(),
        &b"hel!lo".as_slice(),
    );
}

#[test]
fn sinks(rt: HostRuntime) {
    let failing = vec![in rt.alloc(); 1u64].expect(&rt, "memory");
    let mut sink = MemorySink::new(rt.alloc(), 2, failing);
    let put = [sink.put(b"ab"), sink.put(b"cdef"), sink.put(b"g")];
    expect_same(&rt, &put, &[Ok(()), Err(WriteFault), Ok(())]);
    expect_same(&rt, &sink.bytes(), &b"abcdg".as_slice());
    expect_same(&rt, &sink.faults(), &1);

    let mut grows = Writing::new(Vec::new(rt.alloc()));
    expect_same(&rt, &grows.put(b"abc"), &Ok(()));

    let mut room = [0u8; 5];
    let mut fixed = Writing::new(room.as_mut_slice());
    let put = [fixed.put(b"abc"), fixed.put(b"def")];
    expect_same(&rt, &put, &[Ok(()), Err(WriteFault)]);

    // What can't be passed on is a fault of the call itself.
    expect_same(
        &rt,
        &Writing::new(NeverFlushes).put(b"abc"),
        &Err(WriteFault),
    );
}
