//! A disk in memory. It keeps a record of its calls, so that it answers for every moment, and beside it the bytes that
//! a read gives.

ghost use Rattle.std.specs.Prelude.{◌≡◌, ◌==◌, ◌||◌, ◌+◌, ◌-◌, ◌<◌, ◌≤◌, ◌^◌, ◌⊎◌, ◌↔◌, ℕ, [], ◌∷◌, ◌++◌, true, false, length, slice_index, if◌then◌else◌, vec_len, vec_capacity, is_err, OnOk, OnErr, IsErr, IfOk, IfSome, IfNone, IsTrue};
ghost use Rattle.edge_devices.specs.Disks.{Counts, medium, disk_bytes, HasBytes, IsCovered, SameOutside, StaysSettled, MayLeave, IsSettled, Elapses, HasCause, JoinsWrite, JoinsSync, Crash};
ghost use Rattle.edge_devices.specs.DiskStops.{bytes_of};
ghost use Rattle.edge_devices.specs.DiskReplays.{after, is_inside, settled_cell, cell_after as after_one, left_byte, IsContent, NonePending};
ghost use Rattle.edge_devices.specs.Schedules.{IsListed, HasFailed, after_call, opening};

use crate::counts::raised;
use crate::disk_calls::{Call, Cell, Mode, Stop, Tally};
use crate::disks::{Disk, DiskFault};
use crate::spare::put_last;
use std::alloc::{AllocError, Global};

/// A disk in memory, which tells its bytes and its calls. It fails at the calls whose numbers `failing` lists, where a
/// growth is refused, at a device call that is stopped, and nowhere else. Calls are numbered from 0. Device calls are
/// those of `write_at` and `sync`.
pub struct MemDisk {
    alloc: Global,
    calls: Vec<Call>,
    content: Vec<u8>,
    failing: Vec<u64>,
    made: u64,
    tally: Tally,
    stop: Stop,
    crashed: bool,
    ghost matches: { IsContent content.items calls.items },
    ghost spare: { crashed ≡ false → vec_len calls < vec_capacity calls },
    ghost none_pending: { crashed ≡ true → NonePending calls.items },
}

// By hand, so that it is a call where a value is dropped, and not laid out there.
impl Drop for MemDisk {
    fn drop(self) {
        let MemDisk {
            alloc: _,
            calls: _,
            content: _,
            failing: _,
            made: _,
            tally: _,
            stop: _,
            crashed: _,
        } = self;
    }
}

impl MemDisk {
    ghost use Rattle.edge_devices.specs.MemoryDisks.{memory_disk, disk_countdown, disk_schedule, was_stopped};

    /// A disk that was never written.
    #[tactic(auto, unfolding(crate::specs::DiskReplays::device_calls, crate::specs::DiskReplays::history_of))]
    pub fn new(alloc: Global, failing: Vec<u64>) -> Self
        ensures told { IsTrue (memory_disk result).told }
        ensures no_calls { (memory_disk result).calls ≡ [] }
        ensures first { (memory_disk result).moment ≡ 0 }
        ensures blank { (place : ℕ) → disk_bytes (memory_disk result) place ≡ 0 }
        ensures settled { IsSettled (medium (memory_disk result)) }
        ensures made { disk_schedule result ≡ opening failing.items }
        ensures no_stop { (disk_countdown result).left ≡ 0 }
        ensures not_stopped { was_stopped result ≡ false }
    {
        MemDisk {
            alloc,
            calls: Vec::new(alloc),
            content: Vec::new(alloc),
            failing,
            made: 0,
            tally: Tally::new(),
            stop: Stop::never(),
            crashed: true,
        }
    }

    /// Stops the device call of this number, counted from 1 from now on; 0 stops none. A later call takes its place.
    pub fn arm(&mut self, calls: u64)
        ensures same { memory_disk self.new ≡ memory_disk self.old }
        ensures schedule { disk_schedule self.new ≡ disk_schedule self.old }
        ensures armed { (disk_countdown self.new).left ≡ calls }
        ensures others { (disk_countdown self.new).others ≡ (disk_countdown self.old).others }
        ensures not_stopped { was_stopped self.new ≡ false }
    {
        self.stop = Stop::at(calls);
    }

    /// Whether a device call was stopped since the last `arm`.
    pub fn stopped(&self) -> bool
        ensures stopped { result ≡ was_stopped self.now }
    {
        self.stop.stopped()
    }

    /// How many device calls failed that were not stopped.
    pub fn other_faults(&self) -> u64
        ensures others { result ≡ (disk_countdown self.now).others }
    {
        self.tally.others()
    }

    /// Ends a run: the bytes written since the last sync, those of a write that was stopped included, are as the mode
    /// says, and nothing is pending.
    pub fn crash(&mut self, mode: Mode)
        ensures left { (place : ℕ) → disk_bytes (memory_disk self.new) place ≡ (bytes_of (memory_disk self.old).calls).left mode place }
        ensures image { MayLeave (medium (memory_disk self.old)) (disk_bytes (memory_disk self.new)) }
        ensures settled { IsSettled (medium (memory_disk self.new)) }
        ensures time { Elapses (memory_disk self.old) (memory_disk self.new) }
        ensures calls { ((memory_disk self.new).calls ≡ (memory_disk self.old).calls ++ Crash mode ∷ []) ⊎ ((memory_disk self.new).calls ≡ (memory_disk self.old).calls) }
        ensures schedule { disk_schedule self.new ≡ disk_schedule self.old }
        ensures countdown { disk_countdown self.new ≡ disk_countdown self.old }
        ensures stopped { was_stopped self.new ≡ was_stopped self.old }
    {
        if self.crashed {
            return;
        }
        leave(&mut self.content, &self.calls, mode);
        put_last(&mut self.calls, Call::Crashed(mode));
        self.crashed = true;
    }
}

fn settled(byte: u8) -> Cell
    ensures { result ≡ settled_cell byte }
{
    Cell {
        kept: byte,
        seen: byte,
        newest: byte,
        pending: false,
    }
}

// The byte at a place that a write covers, if it does.
fn written(at: u64, bytes: &[u8], place: u64) -> Option<u8>
    ensures { result ≡ (if is_inside at (length bytes.now) place then Some (slice_index bytes.now (place - at)) else None) }
{
    if at <= place && place - at < bytes.len() as u64 {
        Some(bytes[(place - at) as usize])
    } else {
        None
    }
}

// The byte at a place after one call more.
fn cell_after(cell: Cell, call: &Call, place: u64) -> Cell
    ensures { result ≡ after_one cell call.now place }
{
    match call {
        Call::Wrote { at, bytes } => match written(*at, bytes, place) {
            Some(byte) => Cell {
                kept: cell.kept,
                seen: byte,
                newest: byte,
                pending: true,
            },
            None => cell,
        },
        Call::Cut { at, bytes } => match written(*at, bytes, place) {
            Some(byte) => Cell {
                kept: cell.kept,
                seen: cell.seen,
                newest: byte,
                pending: true,
            },
            None => cell,
        },
        Call::Synced => settled(cell.seen),
        Call::Crashed(mode) => {
            if cell.pending {
                match mode {
                    Mode::Old => settled(cell.kept),
                    Mode::New => settled(cell.newest),
                    Mode::Torn => settled(0xaa),
                }
            } else {
                settled(cell.seen)
            }
        }
    }
}

// The byte at a place after these calls.
fn cell_at(calls: &[Call], place: u64) -> Cell
    ensures { result ≡ after calls.now place }
{
    let mut cell = settled(0);
    for call in calls {
        cell = cell_after(cell, call, place);
    }
    cell
}

// Whether the byte is pending after a call, where the call alone decides it.
fn decided(call: &Call, place: u64) -> Option<bool>
    ensures some { IfSome result (λ pending. (cell : Cell) → (after_one cell call.now place).pending ≡ pending) }
    ensures none { IfNone result ((cell : Cell) → (after_one cell call.now place).pending ≡ cell.pending) }
{
    let covers = match call {
        Call::Wrote { at, bytes } => written(*at, bytes, place).is_some(),
        Call::Cut { at, bytes } => written(*at, bytes, place).is_some(),
        Call::Synced => return Some(false),
        Call::Crashed(_) => return Some(false),
    };
    if covers { Some(true) } else { None }
}

// Whether a call since the last sync or crash covers the place.
fn is_pending(calls: &[Call], place: u64) -> bool
    ensures { result ≡ (after calls.now place).pending }
{
    match calls.split_last() {
        None => false,
        Some((last, earlier)) => match decided(last, place) {
            Some(pending) => pending,
            None => is_pending(earlier, place),
        },
    }
}

// What a crash leaves of a byte.
fn left(calls: &[Call], mode: Mode, place: u64, byte: u8) -> u8
    requires { byte ≡ (after calls.now place).seen }
    ensures { result ≡ left_byte mode (after calls.now place) }
{
    if !is_pending(calls, place) {
        return byte;
    }
    match mode {
        Mode::Old => cell_at(calls, place).kept,
        Mode::New => cell_at(calls, place).newest,
        Mode::Torn => 0xaa,
    }
}

// Changes the bytes to what a crash leaves of them.
fn leave(content: &mut Vec<u8>, calls: &[Call], mode: Mode)
    requires { (place : ℕ) → (after calls.now place).seen ≡ slice_index content.old.items place }
    ensures len { vec_len content.new ≡ vec_len content.old }
    ensures left { (place : ℕ) → place < vec_len content.new → slice_index content.new.items place ≡ left_byte mode (after calls.now place) }
{
    for (i, byte) in content.iter_mut().enumerate() {
        *byte = left(calls, mode, i as u64, *byte);
    }
}

// The bytes from a place on, and zeros behind them.
fn copy_out(content: &[u8], at: u64, into: &mut [u8])
    requires { at + length into.old < 2 ^ 62 }
    ensures { (k : ℕ) → k < length into.new → slice_index content.now (at + k) ≡ slice_index into.new k }
{
    for (i, byte) in into.iter_mut().enumerate() {
        let place = at as usize + i;
        *byte = if place < content.len() {
            content[place]
        } else {
            0
        };
    }
}

// Makes room for the bytes up to an end and for two calls more, and copies what is to be written.
fn prepare(
    alloc: Global,
    content: &mut Vec<u8>,
    calls: &mut Vec<Call>,
    end: u64,
    bytes: &[u8],
) -> Result<Vec<u8>, AllocError>
    requires { end < 2 ^ 63 }
    ensures copy { IfOk result (λ copy. copy.items ≡ bytes.now) }
    ensures end { OnOk result (end ≤ vec_len content.new) }
    ensures longer { vec_len content.old ≤ vec_len content.new }
    ensures content { (place : ℕ) → slice_index content.new.items place ≡ slice_index content.old.items place }
    ensures room { OnOk result (vec_len calls.new + 2 ≤ vec_capacity calls.new) }
    ensures calls { calls.new.items ≡ calls.old.items }
    ensures capacity { vec_capacity calls.old ≤ vec_capacity calls.new }
{
    let copy = Vec::from_slice(alloc, bytes)?;
    calls.reserve(2)?;
    if content.len() < end as usize {
        content.resize(end as usize, 0)?;
    }
    Ok(copy)
}

// Writes over bytes that are there.
fn write_over(content: &mut Vec<u8>, at: u64, bytes: &[u8])
    requires { at + length bytes.now ≤ vec_len content.old }
    ensures len { vec_len content.new ≡ vec_len content.old }
    ensures over { (place : ℕ) → slice_index content.new.items place ≡ (if is_inside at (length bytes.now) place then slice_index bytes.now (place - at) else slice_index content.old.items place) }
{
    let at = at as usize;
    content[at..at + bytes.len()].copy_from_slice(bytes);
}

impl Disk for MemDisk {
    ghost use Rattle.edge_devices.specs.MemoryDisks.{memory_disk, disk_countdown, disk_schedule, was_stopped};

    ghost state = { memory_disk };

    ghost countdown = { disk_countdown };

    fn read(&mut self, at: u64, into: &mut [u8]) -> Result<(), DiskFault>
        requires range { at + length into.old < 2 ^ 62 }
        ensures gives { OnOk result (IsTrue true → HasBytes (disk_bytes (memory_disk self.old)) at into.new) }
        ensures same { medium (memory_disk self.new) ≡ medium (memory_disk self.old) }
        ensures calls { (memory_disk self.new).calls ≡ (memory_disk self.old).calls }
        ensures counts { IsTrue true → disk_countdown self.new ≡ disk_countdown self.old }
        ensures time { Elapses (memory_disk self.old) (memory_disk self.new) }
        ensures cause { HasCause (memory_disk self.old) (memory_disk self.new) result }

        // It fails where the call is listed, and nowhere else; and so do the faults rise.
        ensures fails { IsErr result ↔ IsListed (disk_schedule self.old) }
        ensures schedule { disk_schedule self.new ≡ after_call (disk_schedule self.old) (is_err result) }
        ensures stopped { was_stopped self.new ≡ was_stopped self.old }
    {
        let call = self.made;
        self.made = raised(call);
        if self.failing.contains(&call) {
            return Err(self.tally.fail());
        }
        copy_out(&self.content, at, into);
        Ok(())
    }

    fn write_at(&mut self, at: u64, bytes: &[u8]) -> Result<(), DiskFault>
        requires range { at + length bytes.now < 2 ^ 62 }
        ensures written { OnOk result (IsTrue true → HasBytes (disk_bytes (memory_disk self.new)) at bytes.now) }
        ensures covered { OnOk result (IsTrue true → IsCovered at (length bytes.now) (medium (memory_disk self.new))) }
        ensures elsewhere { SameOutside at (length bytes.now) (medium (memory_disk self.old)) (medium (memory_disk self.new)) }
        ensures calls { IsTrue true → JoinsWrite at bytes.now (memory_disk self.old) (memory_disk self.new) (disk_countdown self.old) (disk_countdown self.new) result }
        ensures counts { IsTrue true → Counts (disk_countdown self.old) (disk_countdown self.new) result }
        ensures time { Elapses (memory_disk self.old) (memory_disk self.new) }
        ensures cause { HasCause (memory_disk self.old) (memory_disk self.new) result }

        // It fails where the call is listed or stopped, or a growth was refused, and nowhere else.
        ensures listed { IsListed (disk_schedule self.old) → IsErr result }
        ensures failed { OnErr result (HasFailed (IsListed (disk_schedule self.old) ⊎ ((disk_countdown self.old).left ≡ 1)) (disk_schedule self.old) (disk_schedule self.new)) }
        ensures schedule { OnOk result (disk_schedule self.new ≡ after_call (disk_schedule self.old) false) }
        ensures stopped { was_stopped self.new ≡ (was_stopped self.old || (disk_countdown self.old).left == 1) }
    {
        let call = self.made;
        self.made = raised(call);
        let stop = self.stop.hits();
        if !stop && self.failing.contains(&call) {
            return Err(self.tally.fail_unstopped());
        }
        let end = at + bytes.len() as u64;
        let copy = match prepare(self.alloc, &mut self.content, &mut self.calls, end, bytes) {
            Ok(copy) => copy,
            Err(_) => return Err(self.tally.refuse()),
        };
        self.crashed = false;
        if stop {
            put_last(&mut self.calls, Call::Cut { at, bytes: copy });
            return Err(self.tally.fail());
        }
        put_last(&mut self.calls, Call::Wrote { at, bytes: copy });
        write_over(&mut self.content, at, bytes);
        Ok(())
    }

    fn sync(&mut self) -> Result<(), DiskFault>
        ensures settled { OnOk result (IsSettled (medium (memory_disk self.new))) }
        ensures same { disk_bytes (memory_disk self.new) ≡ disk_bytes (memory_disk self.old) }
        ensures kept { StaysSettled (medium (memory_disk self.old)) (medium (memory_disk self.new)) }
        ensures calls { IsTrue true → JoinsSync (memory_disk self.old) (memory_disk self.new) result }
        ensures counts { IsTrue true → Counts (disk_countdown self.old) (disk_countdown self.new) result }
        ensures time { Elapses (memory_disk self.old) (memory_disk self.new) }
        ensures cause { HasCause (memory_disk self.old) (memory_disk self.new) result }

        // It fails where the call is listed or stopped, or a growth was refused, and nowhere else.
        ensures listed { IsListed (disk_schedule self.old) → IsErr result }
        ensures failed { OnErr result (HasFailed (IsListed (disk_schedule self.old) ⊎ ((disk_countdown self.old).left ≡ 1)) (disk_schedule self.old) (disk_schedule self.new)) }
        ensures schedule { OnOk result (disk_schedule self.new ≡ after_call (disk_schedule self.old) false) }
        ensures stopped { was_stopped self.new ≡ (was_stopped self.old || (disk_countdown self.old).left == 1) }
    {
        let call = self.made;
        self.made = raised(call);
        if self.stop.hits() {
            return Err(self.tally.fail());
        }
        if self.failing.contains(&call) {
            return Err(self.tally.fail_unstopped());
        }
        if self.calls.reserve(2).is_err() {
            return Err(self.tally.refuse());
        }
        put_last(&mut self.calls, Call::Synced);
        self.crashed = false;
        Ok(())
    }
}
