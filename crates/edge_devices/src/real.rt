//! Sources and sinks over std's readers and writers: the edge of the program that its proofs trust. Of
//! a real file or terminal they tell no bytes.

ghost use Rattle.std.specs.Prelude.{◌≡◌};
ghost use Rattle.edge_devices.specs.Faults.{PutAppends};

use crate::counts::raised;
use crate::{ReadFault, Sink, Source, WriteFault};
use std::io::{Read, Write};
use std::marker::Model;

/// A source over a reader. Each error of the reader is a fault, `ErrorKind::Interrupted` too: nothing
/// is tried again. Contracts see the reader and the count of faults.
#[derive(Drop)]
pub struct Reading<R> {
    reader: R,
    faults: u64,
}

impl<R> Model for Reading<R> {
    ghost use Rattle.edge_devices.specs.Objects.{Counted};

    ghost Value = { Counted R };

    ghost view = { λ s. record { inner = s.reader; faults = s.faults } };
}

impl<R: Read> Reading<R> {
    /// No fault yet.
    pub fn new(reader: R) -> Reading<R>
        ensures made { result ≡ record { inner = reader; faults = 0 } }
    {
        Reading { reader, faults: 0 }
    }
}

impl<R: Read> Source for Reading<R> {
    ghost left = { λ s. R.remaining s.inner };

    ghost faults = { λ s. s.faults };

    fn take(&mut self, into: &mut [u8]) -> Result<usize, ReadFault> {
        match self.reader.read(into) {
            Ok(n) => Ok(n),
            Err(_) => {
                self.faults = raised(self.faults);
                Err(ReadFault)
            }
        }
    }
}

/// A sink over a writer, which each call flushes, so that no fault comes after the last one. Each
/// error of the writer is a fault, as is a write that takes nothing. Contracts see the writer and the
/// count of faults.
#[derive(Drop)]
pub struct Writing<W> {
    writer: W,
    faults: u64,
}

impl<W> Model for Writing<W> {
    ghost use Rattle.edge_devices.specs.Objects.{Counted};

    ghost Value = { Counted W };

    ghost view = { λ s. record { inner = s.writer; faults = s.faults } };
}

impl<W: Write> Writing<W> {
    /// No fault yet.
    pub fn new(writer: W) -> Writing<W>
        ensures made { result ≡ record { inner = writer; faults = 0 } }
    {
        Writing { writer, faults: 0 }
    }
}

impl<W: Write> Sink for Writing<W> {
    ghost taken = { λ s. W.contents s.inner };

    ghost faults = { λ s. s.faults };

    fn put(&mut self, bytes: &[u8]) -> Result<(), WriteFault> {
        match write_whole(&mut self.writer, bytes) {
            Ok(()) => Ok(()),
            Err(WriteFault) => {
                self.faults = raised(self.faults);
                Err(WriteFault)
            }
        }
    }
}

/// Writes all the bytes, and flushes. After a fault the writer has a prefix of them.
fn write_whole<W: Write>(writer: &mut W, bytes: &[u8]) -> Result<(), WriteFault>
    ensures { PutAppends (W.contents writer.old) (W.contents writer.new) result bytes.now }
{
    let mut at = 0;
    while at < bytes.len() {
        match writer.write(&bytes[at..]) {
            Ok(0) => return Err(WriteFault),
            Ok(n) => at += n,
            Err(_) => return Err(WriteFault),
        }
    }
    match writer.flush() {
        Ok(()) => Ok(()),
        Err(_) => Err(WriteFault),
    }
}
