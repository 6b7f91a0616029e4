// The bytes of a stream that were taken and not passed yet, and how more are taken.
ghost use Rattle.std.specs.Prelude.{◌≡◌, ◌≢◌, ◌+◌, ◌-◌, ◌*◌, ◌<◌, ◌≤◌, ◌^◌, ◌++◌, [], ℕ, length, vec_len, take, drop, min, IfOk, IfErr, OnOk, OnErr, IsErrOf};
ghost use Rattle.std.specs.Io.KnownBytes.{IsAtEnd, Keeps};
ghost use Rattle.edge_devices.specs.Faults.{HasRisen};
ghost use Rattle.command_streams.specs.declared.TheConstants.{MESSAGE_LIMIT};
ghost use Rattle.command_streams.specs.Held.{taken_of};
ghost use Rattle.command_streams.specs.Supplies.{HoldsFew, TakesBehind, TakesMore, SupplyIs};

use crate::blocks::BLOCK_BYTES;
use crate::stop::RunFail;
use edge_devices::{ReadFault, Source};
use plain_values::NoMemory;
use std::alloc::Global;
use std::marker::Model;

/// How many bytes more than the next frame takes are asked for at once.
const BLOCK: usize = 65_536;

/// What a call of the source brought.
#[derive(Clone, Copy, Debug, PartialEq, Eq)]
pub enum Supply {
    /// Some bytes.
    More,
    /// The end of the input.
    End,
    /// It wasn't asked, since the budget was taken before.
    Spent,
}

/// Bytes of a stream that are held. They lie in a buffer that grows to the longest frame and a block, with as much room in front of it where a block is
/// filled apart from the bytes before it, and never becomes shorter.
#[derive(Drop)]
pub struct HeldBytes {
    buffer: Vec<u8>,
    start: usize,
    end: usize,
    at: u64,
}

impl Model for HeldBytes {
    ghost use Rattle.std.specs.Prelude.{◌-◌, ◌≤◌, take, drop, vec_len};
    ghost use Rattle.command_streams.specs.Held.{HeldState};

    ghost Value = { HeldState };

    ghost view = { λ h. record {
      at = h.at;
      bytes = drop h.start (take h.end h.buffer.items);
      room = vec_len h.buffer - h.end;
    } };

    ghost invariant = { λ h. (h.start ≤ h.end) × (h.end ≤ vec_len h.buffer) };
}

// The least of the bytes that there is room for and those that the budget leaves.
fn within_both(room: usize, allowed: u64) -> usize
    ensures least { result ≡ min room allowed }
{
    if allowed < room as u64 {
        allowed as usize
    } else {
        room
    }
}

// Takes from the source once, at most so many bytes, into the buffer behind its first `end` ones.
fn take_behind<S: Source>(
    source: &mut S,
    buffer: &mut [u8],
    end: usize,
    most: usize,
) -> Result<usize, ReadFault>
    requires room { end + most ≤ length buffer.old }
    ensures within { IfOk result (λ n. n ≤ most) }
    ensures more { IfOk result (TakesBehind (take end buffer.old) buffer.new (S.left source.old) (S.left source.new)) }
    ensures at_end { IfOk result (λ n. n ≡ 0 → 0 < most → IsAtEnd (S.left source.new)) }
    ensures fault { OnErr result (HasRisen (S.faults source.old) (S.faults source.new)) }
    ensures kept { OnErr result (Keeps (S.left source.old) (S.left source.new)) }
    ensures count { S.faults source.old ≤ S.faults source.new }
    ensures len { length buffer.new ≡ length buffer.old }
{
    let until = end + most;
    source.take(&mut buffer[end..until])
}

// Makes a buffer so long, if it isn't.
fn lengthen(buffer: &mut Vec<u8>, len: usize) -> Result<(), NoMemory>
    ensures longer { vec_len buffer.old ≤ vec_len buffer.new }
    ensures long { OnOk result (len ≤ vec_len buffer.new) }
    ensures begins { OnOk result (take (length buffer.old.items) buffer.new.items ≡ buffer.old.items) }
{
    if buffer.len() < len {
        buffer.resize(len, 0)?;
    }
    Ok(())
}

// Where the bytes between two places of the buffer begin once there is so much room in front of them. Where there isn't they are moved.
fn leave_front(
    buffer: &mut Vec<u8>,
    start: usize,
    end: usize,
    front: usize,
) -> Result<usize, NoMemory>
    requires within { (start ≤ end) × (end ≤ vec_len buffer.old) }
    requires fits { front + (end - start) < 2 ^ 63 }
    ensures longer { vec_len buffer.old ≤ vec_len buffer.new }
    ensures front { IfOk result (λ at. front ≤ at) }
    ensures within { IfOk result (λ at. at + (end - start) ≤ vec_len buffer.new) }
    ensures kept { IfOk result (λ at. drop at (take (at + (end - start)) buffer.new.items) ≡ drop start (take end buffer.old.items)) }
{
    if start >= front {
        return Ok(start);
    }
    lengthen(buffer, front + (end - start))?;
    buffer.copy_within(start..end, front);
    Ok(front)
}

// Writes bytes at a place of the buffer.
fn write_at(buffer: &mut [u8], from: usize, bytes: &[u8])
    requires within { from + length bytes.now ≤ length buffer.old }
    ensures len { length buffer.new ≡ length buffer.old }
    ensures put { (end : ℕ) → from + length bytes.now ≤ end → end ≤ length buffer.old
        → drop from (take end buffer.new) ≡ bytes.now ++ drop (from + length bytes.now) (take end buffer.old) }
{
    let until = from + bytes.len();
    buffer[from..until].copy_from_slice(bytes);
}

impl HeldBytes {
    /// Nothing is held yet. Takes no memory.
    pub fn new(alloc: Global) -> HeldBytes
        ensures made { result ≡ record { at = 0; bytes = []; room = 0 } }
    {
        HeldBytes {
            buffer: Vec::new(alloc),
            start: 0,
            end: 0,
            at: 0,
        }
    }

    /// The place of the first byte in the input.
    pub fn at(&self) -> u64
        ensures place { result ≡ self.now.at }
    {
        self.at
    }

    /// The bytes.
    pub fn bytes(&self) -> &[u8]
        ensures bytes { result.now ≡ self.now.bytes }
    {
        &self.buffer[self.start..self.end]
    }

    /// Passes over so many bytes.
    pub fn pass(&mut self, count: usize)
        requires held { count ≤ length self.old.bytes }
        requires place { self.old.at + count < 2 ^ 64 }
        ensures passed { self.new ≡ record self.old { at = self.old.at + count; bytes = drop count self.old.bytes } }
    {
        self.start += count;
        self.at += count as u64;
    }

    /// Begins anew at a place of the input: nothing is held, and there is room for a block, and some in front of it for [`put_front`](Self::put_front).
    pub fn begin_at(&mut self, at: u64) -> Result<(), NoMemory>
        ensures begun { OnOk result ((self.new.at ≡ at) × (self.new.bytes ≡ [])) }
    {
        self.at = at;
        self.start = 0;
        self.end = 0;
        lengthen(&mut self.buffer, BLOCK + BLOCK_BYTES + BLOCK)?;
        self.start = BLOCK;
        self.end = BLOCK;
        Ok(())
    }

    /// Puts the bytes of the input in front that come before those that are held.
    pub fn put_front(&mut self, bytes: &[u8]) -> Result<(), NoMemory>
        requires place { length bytes.now ≤ self.old.at }
        requires fits { length bytes.now + length self.old.bytes < 2 ^ 62 }
        ensures place { OnOk result (self.new.at + length bytes.now ≡ self.old.at) }
        ensures bytes { OnOk result (self.new.bytes ≡ bytes.now ++ self.old.bytes) }
    {
        let held = self.end - self.start;
        let start = leave_front(&mut self.buffer, self.start, self.end, bytes.len())?;
        let from = start - bytes.len();
        write_at(self.buffer.as_mut_slice(), from, bytes);
        self.start = from;
        self.end = start + held;
        self.at -= bytes.len() as u64;
        Ok(())
    }

    // Moves the bytes to the front of the buffer. They stay there until they are passed, so each byte is moved once at most.
    fn move_to_front(&mut self)
        ensures kept { (self.new.at ≡ self.old.at) × (self.new.bytes ≡ self.old.bytes) }
    {
        if self.start > 0 {
            self.buffer.copy_within(self.start..self.end, 0);
            self.end -= self.start;
            self.start = 0;
        }
    }

    // Makes room for so many bytes behind those that are held.
    fn make_room(&mut self, room: usize) -> Result<(), NoMemory>
        requires fits { length self.old.bytes + room < 2 ^ 63 }
        ensures kept { OnOk result ((self.new.at ≡ self.old.at) × (self.new.bytes ≡ self.old.bytes)) }
        ensures room { OnOk result (room ≤ self.new.room) }
    {
        if self.buffer.len() - self.end >= room {
            return Ok(());
        }
        self.move_to_front();
        lengthen(&mut self.buffer, self.end + room)
    }

    // Takes from the source once, at most so many bytes.
    fn take_once<S: Source>(&mut self, source: &mut S, most: usize) -> Result<usize, ReadFault>
        requires room { most ≤ self.old.room }
        ensures within { IfOk result (λ n. n ≤ most) }
        ensures more { IfOk result (TakesMore self.old self.new (S.left source.old) (S.left source.new)) }
        ensures at_end { IfOk result (λ n. n ≡ 0 → 0 < most → IsAtEnd (S.left source.new)) }
        ensures fault { OnErr result (HasRisen (S.faults source.old) (S.faults source.new)) }
        ensures kept { OnErr result (Keeps (S.left source.old) (S.left source.new)) }
        ensures count { S.faults source.old ≤ S.faults source.new }
    {
        let n = take_behind(source, self.buffer.as_mut_slice(), self.end, most)?;
        self.end += n;
        Ok(n)
    }

    /// Takes from the source once, where at least `need` bytes are to be held, of the next frame or of a block, and never more than `budget` bytes of the input in
    /// all.
    pub fn take_more<S: Source>(
        &mut self,
        source: &mut S,
        need: usize,
        budget: u64,
    ) -> Result<Supply, RunFail>
        requires need { (length self.old.bytes < need) × (need ≤ 4 * (4 + MESSAGE_LIMIT)) }
        requires within { (taken_of self.old ≤ budget) × (budget < 2 ^ 62) }
        ensures supply { IfOk result (SupplyIs budget self.old self.new (S.left source.old) (S.left source.new)) }
        ensures few { OnOk result (HoldsFew need self.new) }
        ensures read_fault { IsErrOf result RunFail.ReadFault → HasRisen (S.faults source.old) (S.faults source.new) }
        ensures kept { OnErr result (Keeps (S.left source.old) (S.left source.new)) }
        ensures no_write { IfErr result (λ fail. fail ≢ RunFail.WriteFault) }
        ensures count { S.faults source.old ≤ S.faults source.new }
    {
        let held = self.bytes().len();
        let allowed = budget - self.at - held as u64;
        if allowed == 0 {
            return Ok(Supply::Spent);
        }
        let room = need - held + BLOCK;
        self.make_room(room)?;
        let n = self.take_once(source, within_both(room, allowed))?;
        Ok(if n == 0 { Supply::End } else { Supply::More })
    }
}
