//! Keeping a part in the store.

ghost use Rattle.std.specs.Prelude.{◌≡◌, true, Some, OnOk, IfErr, IsTrue};
ghost use Rattle.agent_store.specs.Store.{Fits};
ghost use Rattle.agent_rules.specs.Codec.{codec};
ghost use Rattle.agent_rules.specs.Right.{is_right};
ghost use Rattle.agent_rules.specs.Keeping.{fits_room};
ghost use Rattle.agent_state.specs.View.{IsSaving, KeepRefusal};

use agent_rules::{AgentFail, Saved};
use agent_store::{Store, StoreFail};
use edge_devices::Disk;

/// Keeps the part. Takes no memory.
#[tactic(auto, using(crate::proofs::KeepLemmas::rises_once))]
pub(crate) fn keep<D: Disk>(store: &mut Store, disk: &mut D, part: &Saved) -> Result<(), AgentFail>
    requires fits { Fits codec (D.state disk.old) store.old }
    requires right { IsTrue (is_right part.now) }
    ensures saving { IsSaving (D.state disk.old) (D.state disk.new) (D.countdown disk.old) (D.countdown disk.new) store.old store.new part.now result }
    ensures layout { store.new.layout ≡ store.old.layout }
    ensures within { OnOk result (fits_room store.old.layout.room (Some part.now) ≡ true) }
    ensures refused { IfErr result (KeepRefusal store.old part.now) }
{
    match store.save(disk, part) {
        Ok(()) => Ok(()),
        Err(StoreFail::DiskFault) => Err(AgentFail::StoreFault),
        Err(StoreFail::TooBig) => Err(AgentFail::TooLarge),
        Err(StoreFail::Spent) => Err(AgentFail::NumbersSpent),
        Err(StoreFail::NoMemory) => unreachable!(),
        Err(StoreFail::Damaged { slot: _ }) => unreachable!(),
    }
}
