//! The payload of the tests of the store alone.

ghost use Rattle.std.specs.Prelude.{◌≡◌, ◌^◌, ℕ, List, Some, None, false, length, min, IfOk, IfSome, IfNone, IsTrue, if◌then◌else◌};
ghost use Rattle.store_tests.specs.Notes.{is_note, note_codec};

use agent_store::Payload;
use message_codec::wire::Out;
use plain_values::NoMemory;
use std::alloc::Global;
use std::marker::Model;

/// Bytes of which the first isn't 0.
#[derive(Drop)]
pub struct Note {
    bytes: Vec<u8>,
}

impl Model for Note {
    ghost use Rattle.std.specs.Prelude.{ℕ, List};

    ghost Value = { List ℕ };

    ghost view = { λ n. n.bytes.items };
}

impl Note {
    /// These bytes.
    pub fn of(bytes: Vec<u8>) -> Self
        ensures bytes { result ≡ bytes.items }
    {
        Note { bytes }
    }

    /// The bytes.
    pub fn as_slice(&self) -> &[u8]
        ensures bytes { result.now ≡ self.now }
    {
        self.bytes.as_slice()
    }
}

fn is_right(bytes: &[u8]) -> bool
    ensures right { result ≡ is_note bytes.now }
{
    match bytes {
        [] => false,
        [first, ..] => *first != 0,
    }
}

fn capped(bytes: &[u8]) -> u64
    ensures len { result ≡ min (length bytes.now) (2 ^ 62) }
{
    let len = bytes.len() as u64;
    if len < 1 << 62 { len } else { 1 << 62 }
}

fn read_note(alloc: Global, bytes: &[u8]) -> Result<Option<Note>, NoMemory>
    ensures some { IfOk result (λ found. IfSome found (λ note. (note ≡ bytes.now) × IsTrue (is_note note))) }
    ensures none { IfOk result (λ found. IfNone found (is_note bytes.now ≡ false)) }
{
    if !is_right(bytes) {
        return Ok(None);
    }
    let bytes = Vec::from_slice(alloc, bytes)?;
    Ok(Some(Note { bytes }))
}

impl Payload for Note {
    ghost codec = { note_codec };

    ghost canonical = { λ n. n };

    ghost right = { λ n. IsTrue (is_note n) };

    ghost typed = { λ n. Unit {0} };

    fn is_right(&self) -> bool {
        is_right(self.as_slice())
    }

    fn len(&self) -> u64 {
        capped(self.as_slice())
    }

    fn put(&self, out: &mut Out) -> Result<(), NoMemory> {
        out.append(self.as_slice())
    }

    fn read(alloc: Global, payload: &[u8]) -> Result<Option<Self>, NoMemory> {
        read_note(alloc, payload)
    }

    fn changed(self, alloc: Global, change: &[u8]) -> Result<Option<Self>, NoMemory> {
        read_note(alloc, change)
    }

    fn change_len(_former: &[u8], next: &[u8]) -> u64 {
        capped(next)
    }

    fn put_change(_former: &[u8], next: &[u8], out: &mut Out) -> Result<(), NoMemory> {
        out.append(next)
    }

    ghost one_value = { λ a b right_a typed_a right_b typed_b few itself is. is };
}
