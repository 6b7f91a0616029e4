//! A clock and a source of random bytes in memory.

ghost use Rattle.std.specs.Prelude.{◌≡◌, ◌⊎◌, ◌+◌, ◌<◌, ◌∷◌, [], false, true, IsErr, IsSome, IfSome, IfNone, OnOk, OnErr, IsTrue, drop, length};
ghost use Rattle.edge_devices.specs.Clocks.{Fills, Waits};
ghost use Rattle.edge_devices.specs.MemoryStates.{HasNoDraw, clock_schedule, entropy_schedule, memory_clock, memory_entropy};
ghost use Rattle.edge_devices.specs.Schedules.{HasFailed, IsListed, after_call, after_refusal, opening};

use crate::clocks::{Clock, ClockFault, Entropy, EntropyFault};
use crate::schedule::Schedule;
use std::alloc::Global;

/// A clock in memory, which waits for nothing and tells its waits. It fails at the calls whose numbers `failing`
/// lists, where its list of waits can't grow, and nowhere else. Calls are numbered from 0.
pub struct MemoryClock {
    waits: Vec<u64>,
    schedule: Schedule,
}

// By hand, so that it is a call where a value is dropped, and not laid out there.
impl Drop for MemoryClock {
    fn drop(self) {
        let MemoryClock {
            waits: _,
            schedule: _,
        } = self;
    }
}

impl MemoryClock {
    /// A clock with no call yet.
    pub fn new(alloc: Global, failing: Vec<u64>) -> MemoryClock
        ensures told { IsTrue (memory_clock result).told }
        ensures no_waits { (memory_clock result).waits ≡ [] }
        ensures made { clock_schedule result ≡ opening failing.items }
    {
        MemoryClock {
            waits: Vec::new(alloc),
            schedule: Schedule::new(failing),
        }
    }

    /// The waits that ended, in nanoseconds and in their order.
    pub fn waits(&self) -> &[u64]
        ensures waits { result.now ≡ (memory_clock self.now).waits }
    {
        self.waits.as_slice()
    }
}

impl Clock for MemoryClock {
    ghost use Rattle.edge_devices.specs.MemoryStates.{memory_clock};

    ghost state = { memory_clock };

    fn wait(&mut self, nanos: u64) -> Result<(), ClockFault>
        ensures waits { Waits (memory_clock self.old) (memory_clock self.new) nanos result }

        // It fails where the call is listed, or a growth was refused, and nowhere else.
        ensures listed { IsListed (clock_schedule self.old) → IsErr result }
        ensures failed { OnErr result (HasFailed (IsListed (clock_schedule self.old)) (clock_schedule self.old) (clock_schedule self.new)) }
        ensures counts { OnOk result (clock_schedule self.new ≡ after_call (clock_schedule self.old) false) }
    {
        if self.schedule.begin() {
            self.schedule.fail();
            return Err(ClockFault);
        }
        if self.waits.push(nanos).is_err() {
            self.schedule.refuse();
            return Err(ClockFault);
        }
        Ok(())
    }
}

/// A source in memory of the bytes of a list, sixteen a call. It fails at the calls whose numbers `failing` lists, where
/// nothing is left, where its list of calls can't grow, and nowhere else. From a call on that it couldn't put down it
/// tells nothing. Calls are numbered from 0.
pub struct MemoryEntropy {
    draws: Vec<[u8; 16]>,
    at: usize,
    calls: Vec<Option<[u8; 16]>>,
    told: bool,
    schedule: Schedule,
}

// By hand, so that it is a call where a value is dropped, and not laid out there.
impl Drop for MemoryEntropy {
    fn drop(self) {
        let MemoryEntropy {
            draws: _,
            at: _,
            calls: _,
            told: _,
            schedule: _,
        } = self;
    }
}

impl MemoryEntropy {
    /// A source of these draws, with no call yet.
    pub fn new(alloc: Global, draws: Vec<[u8; 16]>, failing: Vec<u64>) -> MemoryEntropy
        ensures told { IsTrue (memory_entropy result).told }
        ensures draws { (memory_entropy result).left ≡ draws.items }
        ensures no_calls { (memory_entropy result).calls ≡ [] }
        ensures made { entropy_schedule result ≡ opening failing.items }
    {
        MemoryEntropy {
            draws,
            at: 0,
            calls: Vec::new(alloc),
            told: true,
            schedule: Schedule::new(failing),
        }
    }
}

// The bytes of the next call, where there are some and the call isn't to fail.
fn next_draw(draws: &[[u8; 16]], at: usize, fails: bool) -> Option<[u8; 16]>
    ensures some { IfSome result (λ draw. (fails ≡ false) × (drop at draws.now ≡ draw ∷ drop (at + 1) draws.now)) }
    ensures within { IsSome result → at < length draws.now }
    ensures none { IfNone result ((fails ≡ true) ⊎ (drop at draws.now ≡ [])) }
{
    if fails || at >= draws.len() {
        return None;
    }
    Some(draws[at])
}

impl Entropy for MemoryEntropy {
    ghost use Rattle.edge_devices.specs.MemoryStates.{memory_entropy};

    ghost state = { memory_entropy };

    fn fill(&mut self, into: &mut [u8; 16]) -> Result<(), EntropyFault>
        ensures fills { Fills (memory_entropy self.old) (memory_entropy self.new) into.new result }

        // It fails where the call is listed, where nothing is left, or a growth was refused, and nowhere else.
        ensures none { HasNoDraw self.old → IsErr result }
        ensures failed { OnErr result (HasFailed (HasNoDraw self.old) (entropy_schedule self.old) (entropy_schedule self.new)) }
        ensures counts { OnOk result (entropy_schedule self.new ≡ after_call (entropy_schedule self.old) false) }
        ensures told { ((memory_entropy self.new).told ≡ (memory_entropy self.old).told) ⊎ (entropy_schedule self.new ≡ after_refusal (entropy_schedule self.old)) }
    {
        let fails = self.schedule.begin();
        let draw = next_draw(&self.draws, self.at, fails);
        if self.calls.push(draw).is_err() {
            self.told = false;
            self.schedule.refuse();
            return Err(EntropyFault);
        }
        match draw {
            Some(bytes) => {
                *into = bytes;
                self.at += 1;
                Ok(())
            }
            None => {
                self.schedule.fail();
                Err(EntropyFault)
            }
        }
    }
}
