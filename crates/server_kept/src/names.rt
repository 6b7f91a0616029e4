//! The name of an agent's file.

ghost use Rattle.std.specs.Prelude.{◌≡◌, ℕ, List, length, IfOk, IfSome, IfNone, IsTrue};
ghost use Rattle.edge_devices.specs.Names.{is_good_name};
ghost use Rattle.server_kept.specs.Files.{IsUid, file_name};

use hex::FromHex;
use plain_values::{NoMemory, Plain, Text, Uid};
use std::alloc::Global;

/// The name of the agent's file: its identifier in 32 lower-case hexadecimal digits.
#[tactic(auto, using(crate::proofs::Naming::good_name))]
pub fn name_of(alloc: Global, uid: &Uid) -> Result<Text, NoMemory>
    ensures name { IfOk result (λ name. name ≡ file_name uid.now) }
    ensures good { IsTrue (is_good_name (file_name uid.now)) }
    ensures uid { IsUid uid.now }
{
    let bytes = uid.as_slice();
    let digits = hex::encode(alloc, bytes)?;
    Ok(Text::of(digits))
}

/// The agent whose file has this name; none exactly where the name is no agent's.
pub fn agent_of(alloc: Global, name: &Text) -> Result<Option<Uid>, NoMemory>
    ensures some { IfOk result (λ agent. IfSome agent (λ uid. IsUid uid × (file_name uid ≡ name.now))) }
    ensures none { IfOk result (λ agent. IfNone agent ((uid : List ℕ) → IsUid uid → file_name uid ≡ name.now → ⊥)) }
{
    let bytes = match <[u8; 16] as FromHex>::from_hex(name.as_str()) {
        Ok(bytes) => bytes,
        Err(_) => return Ok(None),
    };
    let uid = Uid::of(bytes);
    let lower = name_of(alloc, &uid)?;
    if lower.same(name) {
        Ok(Some(uid))
    } else {
        Ok(None)
    }
}
