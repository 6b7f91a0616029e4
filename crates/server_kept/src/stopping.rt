//! What a stop of the machine amid keeping leaves, from end to end on the shelf in memory.

ghost use Rattle.std.specs.Prelude.{◌≡◌, ℕ, List, IfOk, IsErrOf};
ghost use Rattle.edge_shelf.specs.MemoryShelves.{memory_shelf};
ghost use Rattle.server_core.specs.declared.offers.Offers as of;
ghost use Rattle.server_kept.specs.Standing.{Leaves};
ghost use Rattle.server_kept.specs.Stopping.{IsFormerOrNext, NoneLost};

use crate::keeping::keep;
use crate::opening::{KeptOffers, OpenFail, open};
use edge_shelf::{MemoryShelf, Mode};
use message_replies::laws::one_reply;
use plain_values::{List as Items, Uid};
use server_core::Offers;
use std::alloc::Global;

/// Keeps offers to an agent with a stop at a write or removal of this number (0 for none), starts again, and reads what stands: for each agent
/// what stood before, and for this one that or the offers. No file is found wrong.
pub fn stop_and_open(
    alloc: Global,
    shelf: &mut MemoryShelf,
    uid: &Uid,
    offers: &Offers,
    stop: u64,
    mode: Mode,
) -> Result<Items<KeptOffers>, OpenFail>
    ensures found { IfOk result (λ found. (standing : List ℕ → of.Offers) → Leaves standing (memory_shelf shelf.old) → IsFormerOrNext standing uid.now offers.now found) }
    ensures none_lost { IfOk result (λ found. (standing : List ℕ → of.Offers) → Leaves standing (memory_shelf shelf.old) → NoneLost standing uid.now found) }
    ensures right { (name : List ℕ) → IsErrOf result (OpenFail.Wrong name) → (standing : List ℕ → of.Offers) → Leaves standing (memory_shelf shelf.old) → ⊥ }
{
    one_reply();
    shelf.arm(stop);
    let _ = keep(alloc, shelf, uid, offers);
    match shelf.crash(alloc, mode) {
        Ok(()) => open(alloc, shelf),
        Err(_) => Err(OpenFail::NoMemory),
    }
}
