//! What a store asks of what it keeps.

use crate::applying::change_saved;
use crate::changing::{change_len, put_change};
use crate::reading::read_saved;
use crate::saved::{Saved, is_right};
use crate::written::{put_saved, saved_len};
use agent_store::Payload;
use message_codec::wire::Out;
use plain_values::NoMemory;
use std::alloc::Global;

impl Payload for Saved {
    ghost use Rattle.std.specs.Prelude.{IsTrue};
    ghost use Rattle.agent_rules.specs.Codec as codecs;
    ghost use Rattle.agent_rules.specs.Payloads.{canonical_saved, FitsTypes};
    ghost use Rattle.agent_rules.specs.Right as rights;
    ghost use Rattle.agent_rules.specs.Laws.{one_value};

    ghost codec = { codecs.codec };

    ghost canonical = { canonical_saved };

    ghost right = { λ s. IsTrue (rights.is_right s) };

    ghost typed = { FitsTypes };

    fn is_right(&self) -> bool {
        is_right(self)
    }

    fn len(&self) -> u64 {
        saved_len(self)
    }

    fn put(&self, out: &mut Out) -> Result<(), NoMemory> {
        put_saved(out, self)
    }

    fn read(alloc: Global, payload: &[u8]) -> Result<Option<Saved>, NoMemory> {
        read_saved(alloc, payload)
    }

    fn changed(self, alloc: Global, change: &[u8]) -> Result<Option<Saved>, NoMemory> {
        change_saved(alloc, self, change)
    }

    fn change_len(former: &[u8], next: &[u8]) -> u64 {
        change_len(former, next)
    }

    fn put_change(former: &[u8], next: &[u8], out: &mut Out) -> Result<(), NoMemory> {
        put_change(out, former, next)
    }

    ghost one_value = { one_value };
}
