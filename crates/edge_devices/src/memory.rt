//! Sources and sinks in memory, which tell their bytes, and which fail where they are told to.

ghost use Rattle.std.specs.Prelude.{◌≡◌, ◌+◌, ◌-◌, ◌^◌, ◌<◌, ◌≤◌, ◌↔◌, ◌⊎◌, IsErr, IfOk, OnOk, OnErr, Some, Contains, length, min, drop, take, ◌++◌, []};
ghost use Rattle.std.specs.Io.KnownBytes.{ReadConsumes};
ghost use Rattle.edge_devices.specs.Faults.{HasRisen, PutAppends};

use crate::counts::raised;
use crate::{ReadFault, Sink, Source, WriteFault};
use std::alloc::Global;
use std::marker::Model;

/// A source of the bytes of a list. A call gives as many of them as the buffer takes and are left, but at
/// most `most`; the calls whose numbers `failing` lists fail. Calls are numbered from 0.
pub struct MemorySource {
    bytes: Vec<u8>,
    at: usize,
    most: usize,
    failing: Vec<u64>,
    calls: u64,
    faults: u64,
}

// By hand, so that it is a call where a value is dropped, and not laid out there.
impl Drop for MemorySource {
    fn drop(self) {
        let MemorySource {
            bytes: _,
            at: _,
            most: _,
            failing: _,
            calls: _,
            faults: _,
        } = self;
    }
}

impl Model for MemorySource {
    ghost use Rattle.std.specs.Prelude.{◌<◌, ◌≤◌, drop, vec_len};
    ghost use Rattle.edge_devices.specs.Objects.{SourceState};

    ghost Value = { SourceState };

    ghost view = { λ s. record {
      left = drop s.at s.bytes.items;
      most = s.most;
      failing = s.failing.items;
      calls = s.calls;
      faults = s.faults;
    } };

    ghost invariant = { λ s. (s.at ≤ vec_len s.bytes) × (0 < s.most) };
}

impl MemorySource {
    /// A source of all the bytes, with no call yet.
    pub fn new(bytes: Vec<u8>, most: usize, failing: Vec<u64>) -> MemorySource
        requires some { 0 < most }
        ensures made { result ≡ record {
          left = bytes.items;
          most = most;
          failing = failing.items;
          calls = 0;
          faults = 0;
        } }
    {
        MemorySource {
            bytes,
            at: 0,
            most,
            failing,
            calls: 0,
            faults: 0,
        }
    }
}

// Moves bytes from a place on to the front of a buffer, as many as the buffer, the most of a call and what is there
// allow, and gives their number.
fn move_front(bytes: &[u8], at: usize, most: usize, into: &mut [u8]) -> usize
    requires there { at ≤ length bytes.now }
    requires some { 0 < most }
    ensures count { result ≡ min (min (length into.new) most) (length bytes.now - at) }
    ensures len { length into.new ≡ length into.old }
    ensures front { drop at bytes.now ≡ take result into.new ++ drop (at + result) bytes.now }
{
    let count = into.len().min(most).min(bytes.len() - at);
    into[..count].copy_from_slice(&bytes[at..at + count]);
    count
}

impl Source for MemorySource {
    ghost left = { λ s. Some s.left };

    ghost faults = { λ s. s.faults };

    fn take(&mut self, into: &mut [u8]) -> Result<usize, ReadFault>
        ensures within { IfOk result (λ n. n ≤ length into.new) }
        ensures bytes { ReadConsumes (Some self.old.left) (Some self.new.left) result into.new }
        ensures fault { OnErr result (HasRisen self.old.faults self.new.faults) }
        ensures count { self.old.faults ≤ self.new.faults }

        // It fails where the call is listed, and nowhere else.
        ensures fails { IsErr result ↔ Contains self.old.failing self.old.calls }

        // A call that succeeds gives as many bytes as the buffer, the most of a call and what is left allow, and counts no fault.
        ensures gives { IfOk result (λ n. n ≡ min (min (length into.new) self.old.most) (length self.old.left)) }
        ensures no_fault { OnOk result (self.new.faults ≡ self.old.faults) }

        // A call that fails leaves the buffer.
        ensures untouched { OnErr result (into.new ≡ into.old) }
        ensures next_call { self.new.calls ≡ min (self.old.calls + 1) (2 ^ 64 - 1) }
        ensures same { (self.new.failing ≡ self.old.failing) × (self.new.most ≡ self.old.most) }
    {
        let call = self.calls;
        self.calls = raised(call);
        if self.failing.contains(&call) {
            self.faults = raised(self.faults);
            return Err(ReadFault);
        }
        let count = move_front(&self.bytes, self.at, self.most, into);
        self.at += count;
        Ok(count)
    }
}

/// A sink into a list. The calls whose numbers `failing` lists fail, after `partial` of their bytes.
/// Calls are numbered from 0. A call also fails where the list can't grow; it then takes nothing.
pub struct MemorySink {
    bytes: Vec<u8>,
    partial: usize,
    failing: Vec<u64>,
    calls: u64,
    faults: u64,
    short: u64,
}

// By hand, so that it is a call where a value is dropped, and not laid out there.
impl Drop for MemorySink {
    fn drop(self) {
        let MemorySink {
            bytes: _,
            partial: _,
            failing: _,
            calls: _,
            faults: _,
            short: _,
        } = self;
    }
}

impl Model for MemorySink {
    ghost use Rattle.std.specs.Prelude.{◌≤◌};
    ghost use Rattle.edge_devices.specs.Objects.{SinkState};

    ghost Value = { SinkState };

    ghost view = { λ s. record {
      taken = s.bytes.items;
      partial = s.partial;
      failing = s.failing.items;
      calls = s.calls;
      faults = s.faults;
      short = s.short;
    } };

    ghost invariant = { λ s. s.short ≤ s.faults };
}

impl MemorySink {
    /// A sink that took nothing yet, with no call yet.
    pub fn new(alloc: Global, partial: usize, failing: Vec<u64>) -> MemorySink
        ensures made { result ≡ record {
          taken = [];
          partial = partial;
          failing = failing.items;
          calls = 0;
          faults = 0;
          short = 0;
        } }
    {
        MemorySink {
            bytes: Vec::new(alloc),
            partial,
            failing,
            calls: 0,
            faults: 0,
            short: 0,
        }
    }

    /// The bytes that were taken.
    pub fn bytes(&self) -> &[u8]
        ensures taken { result.now ≡ self.now.taken }
    {
        self.bytes.as_slice()
    }

    /// How many calls failed.
    pub fn faults(&self) -> u64
        ensures faults { result ≡ self.now.faults }
    {
        self.faults
    }
}

impl Sink for MemorySink {
    ghost use Rattle.edge_devices.specs.Objects.{TakesPart};

    ghost taken = { λ s. Some s.taken };

    ghost faults = { λ s. s.faults };

    fn put(&mut self, bytes: &[u8]) -> Result<(), WriteFault>
        ensures bytes { PutAppends (Some self.old.taken) (Some self.new.taken) result bytes.now }
        ensures fault { OnErr result (HasRisen self.old.faults self.new.faults) }
        ensures count { self.old.faults ≤ self.new.faults }

        // It fails where the call is listed, or a growth was refused, and nowhere else.
        ensures listed { Contains self.old.failing self.old.calls → IsErr result }
        ensures only { IsErr result → Contains self.old.failing self.old.calls ⊎ HasRisen self.old.short self.new.short }

        // What a call that fails took, and that the refused growths are a part of the faults.
        ensures part { OnErr result (TakesPart self.old self.new bytes.now) }
        ensures short { self.new.short ≤ self.new.faults }

        // A call that succeeds counts no fault and no refused growth.
        ensures no_fault { OnOk result (self.new.faults ≡ self.old.faults) }
        ensures no_short { OnOk result (self.new.short ≡ self.old.short) }
        ensures next_call { self.new.calls ≡ min (self.old.calls + 1) (2 ^ 64 - 1) }
        ensures same { (self.new.failing ≡ self.old.failing) × (self.new.partial ≡ self.old.partial) }
    {
        let call = self.calls;
        self.calls = raised(call);
        let fails = self.failing.contains(&call);
        let count = if fails {
            self.partial.min(bytes.len())
        } else {
            bytes.len()
        };
        if self.bytes.extend_from_slice(&bytes[..count]).is_err() {
            self.short = raised(self.short);
            self.faults = raised(self.faults);
            return Err(WriteFault);
        }
        if fails {
            self.faults = raised(self.faults);
            return Err(WriteFault);
        }
        Ok(())
    }
}
