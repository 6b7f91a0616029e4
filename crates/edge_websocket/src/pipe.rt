//! A stream in memory between a socket and what speaks a protocol.

ghost use Rattle.std.specs.Prelude.{◌≡◌, ◌≢◌, ◌++◌, [], Some, ◌==◌, None, IfSome, IfNone, IfOk, IfErr, IsOk, OnOk, OnErr, length, take, drop, slice_get};
ghost use Rattle.std.specs.Io.{ReadsAtMost, WritesAtMost};
ghost use Rattle.std.specs.Io.KnownBytes.{Keeps, ReadConsumes, WriteAppends};
ghost use Rattle.std.specs.IoError.{error_kind};
ghost use Rattle.edge_websocket.specs.Pipes.{after_read, empty_pipe, is_drained, next_frame, read_count};

use crate::frames::frame_len;
use crate::unsent::Unsent;
use std::alloc::{AllocError, Global};
use std::io;
use std::io::{ErrorKind, Read, Write};
use std::marker::Model;

/// What came from the peer and isn't read yet, and what is to go to it. It is read one frame at a time: where the frame
/// under way is read, a read gives nothing until the next one is opened.
#[derive(Drop)]
pub struct Pipe {
    came: Vec<u8>,
    // How many of these were read.
    read: usize,
    // How many bytes of the frame under way may still be read.
    left: u64,
    going: Vec<u8>,
}

impl Model for Pipe {
    ghost use Rattle.std.specs.Prelude.{◌≤◌, drop, vec_len};
    ghost use Rattle.edge_websocket.specs.Pipes.{PipeState};

    ghost Value = { PipeState };

    ghost view = { λ p. record { waiting = drop p.read p.came.items; left = p.left; going = p.going.items } };

    ghost invariant = { λ p. p.read ≤ vec_len p.came };
}

impl Pipe {
    /// Nothing came, and nothing is to go. Takes no memory.
    pub fn new(alloc: Global) -> Pipe
        ensures empty { result ≡ empty_pipe }
    {
        Pipe {
            came: Vec::new(alloc),
            read: 0,
            left: 0,
            going: Vec::new(alloc),
        }
    }

    /// Bytes came from the peer. Want of memory changes nothing.
    pub fn feed(&mut self, bytes: &[u8]) -> Result<(), AllocError>
        ensures ok { OnOk result (self.new ≡ record self.old { waiting = self.old.waiting ++ bytes.now }) }
        ensures err { OnErr result (self.new ≡ self.old) }
    {
        self.compact();
        self.came.extend_from_slice(bytes)
    }

    /// Bytes came from the peer that are read as they are, and not as frames: the head of a handshake. Want of memory
    /// changes nothing.
    pub fn feed_open(&mut self, bytes: &[u8]) -> Result<(), AllocError>
        ensures ok { OnOk result (self.new ≡ record self.old { waiting = self.old.waiting ++ bytes.now; left = length bytes.now }) }
        ensures err { OnErr result (self.new ≡ self.old) }
    {
        self.feed(bytes)?;
        self.left = bytes.len() as u64;
        Ok(())
    }

    /// The bytes that came and aren't read yet.
    pub fn waiting(&self) -> &[u8]
        ensures waiting { result.now ≡ self.now.waiting }
    {
        &self.came[self.read..]
    }

    /// Whether the frame under way was read, as far as the pipe goes.
    pub fn is_between(&self) -> bool
        ensures between { result ≡ (self.now.left == 0) }
    {
        self.left == 0
    }

    /// Opens the next frame where the one before it was read, and its length came: gives its first byte and its length.
    pub fn open_frame(&mut self) -> Option<(u8, u64)>
        ensures opened { IfSome result (λ opened. next_frame self.old ≡ Some opened.1) }
        ensures left { IfSome result (λ opened. self.new ≡ record self.old { left = opened.1 }) }
        ensures first { IfSome result (λ opened. slice_get self.old.waiting 0 ≡ Some opened.0) }
        ensures none { IfNone result (self.new ≡ self.old) }
        ensures only { IfNone result (next_frame self.old ≡ None) }
    {
        let len = self.next_frame()?;
        let first = *self.waiting().first()?;
        self.left = len;
        Some((first, len))
    }

    /// Whether nothing can be read until more bytes come: no byte of the frame under way is here, and no next frame can
    /// be opened.
    pub fn is_drained(&self) -> bool
        ensures drained { result ≡ is_drained self.now }
    {
        self.left.min(self.waiting().len() as u64) == 0 && self.next_frame().is_none()
    }

    // The length of the next frame, where the one before it was read and the bytes say it.
    fn next_frame(&self) -> Option<u64>
        ensures next { result ≡ next_frame self.now }
    {
        if self.left > 0 {
            return None;
        }
        frame_len(self.waiting())
    }

    /// Moves the bytes that are to go to the peer behind those that wait to be sent. Want of memory changes nothing.
    pub fn take_going(&mut self, unsent: &mut Unsent) -> Result<(), AllocError>
        ensures moved { OnOk result (unsent.new ≡ unsent.old ++ self.old.going) }
        ensures taken { OnOk result (self.new ≡ record self.old { going = [] }) }
        ensures unsent_kept { OnErr result (unsent.new ≡ unsent.old) }
        ensures kept { OnErr result (self.new ≡ self.old) }
    {
        unsent.append_row(&mut self.going)
    }

    /// Gives back the room of what came, where all of it was read, and of what went.
    pub fn give_back(&mut self)
        ensures same { self.new ≡ self.old }
    {
        if self.read >= self.came.len() {
            self.came.clear();
            self.came.shrink_to(0);
            self.read = 0;
        }
        if self.going.is_empty() {
            self.going.shrink_to(0);
        }
    }

    // Drops the bytes that were read.
    fn compact(&mut self)
        ensures { self.new ≡ self.old }
    {
        if self.read > 0 {
            self.came.drain(..self.read);
            self.read = 0;
        }
    }

    // Reads what there is of the frame under way, as far as there is room.
    fn pull(&mut self, into: &mut [u8]) -> usize
        ensures count { result ≡ read_count self.old (length into.old) }
        ensures bytes { into.new ≡ take result self.old.waiting ++ drop result into.old }
        ensures state { self.new ≡ after_read self.old result }
    {
        let left = self.left.min(into.len() as u64) as usize;
        let count = left.min(self.came.len() - self.read);
        into[..count].copy_from_slice(&self.came[self.read..self.read + count]);
        self.read += count;
        self.left -= count as u64;
        count
    }
}

impl Read for Pipe {
    ghost remaining = { λ p. Some p.waiting };

    // Where all that may be read was read it would block, since more may come.
    fn read(&mut self, into: &mut [u8]) -> io::Result<usize>
        ensures bound { ReadsAtMost result into.new }
        ensures bytes { ReadConsumes (Some self.old.waiting) (Some self.new.waiting) result into.new }
        ensures count { IfOk result (λ count. count ≡ read_count self.old (length into.old)) }
        ensures some { IfOk result (λ count. count ≢ 0) }
        ensures came { IfOk result (λ count. into.new ≡ take count self.old.waiting ++ drop count into.old) }
        ensures state { IfOk result (λ count. self.new ≡ after_read self.old count) }
        ensures blocks { IfErr result (λ error. (error_kind error ≡ ErrorKind.WouldBlock) × (read_count self.old (length into.old) ≡ 0)) }
        ensures kept { OnErr result (self.new ≡ self.old) }
    {
        let count = self.pull(into);
        if count == 0 {
            return Err(io::Error::from(ErrorKind::WouldBlock));
        }
        Ok(count)
    }
}

impl Write for Pipe {
    ghost contents = { λ p. Some p.going };

    fn write(&mut self, bytes: &[u8]) -> io::Result<usize>
        ensures bound { WritesAtMost result bytes.now }
        ensures bytes { WriteAppends (Some self.old.going) (Some self.new.going) result bytes.now }
        ensures whole { IfOk result (λ count. count ≡ length bytes.now) }
        ensures state { OnOk result (self.new ≡ record self.old { going = self.old.going ++ bytes.now }) }
        ensures no_memory { IfErr result (λ error. error_kind error ≡ ErrorKind.OutOfMemory) }
        ensures kept { OnErr result (self.new ≡ self.old) }
    {
        match self.going.extend_from_slice(bytes) {
            Ok(()) => Ok(bytes.len()),
            Err(_) => Err(io::Error::from(ErrorKind::OutOfMemory)),
        }
    }

    fn flush(&mut self) -> io::Result<()>
        ensures bytes { Keeps (Some self.old.going) (Some self.new.going) }
        ensures flushed { IsOk result }
        ensures kept { self.new ≡ self.old }
    {
        Ok(())
    }
}
