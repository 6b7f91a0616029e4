// Shows that the store keeps what `Keep` promises: a keeper over it, and an offer of other settings that is tried over a disk which stops at each device
// call of the save, and is read again after a crash of each mode.

ghost use Rattle.std.specs.Prelude.{◌≡◌, ◌⊎◌, IsTrue};
ghost use Rattle.edge_devices.specs.Disks.{disk_bytes};
ghost use Rattle.edge_devices.specs.MemoryDisks.{memory_disk};
ghost use Rattle.agent_store.specs.Slots.{Holds, reading};
ghost use Rattle.agent_rules.specs.Codec.{codec};
ghost use Rattle.agent_rules.specs.Payloads.{FitsTypes, canonical_saved};
ghost use Rattle.agent_rules.specs.Right.{is_right};
ghost use Rattle.store_tests.specs.Keeping.{HoldsPart, IsReady, large};

use crate::kept::{FIRST, LARGE, LONGER, is_written_as, value_of};
use agent_offers::{Keep, KeepFail, NotKept, Settled, Trying};
use agent_rules::Saved;
use agent_store::{Disk, MemDisk, Mode, Opened, Payload, Store, StoreFail};
use std::process::Abort;

// Keeps whole parts by the store of a disk.
#[derive(Drop)]
struct Keeper {
    store: Store,
}

impl<P: Payload, D: Disk> Keep<P, D> for Keeper {
    ghost use Rattle.std.specs.Prelude.{◌≡◌, ◌<◌, ◌≤◌, ◌-◌, ◌^◌, length, false, IsTrue};
    ghost use Rattle.edge_devices.specs.Disks.{disk_bytes};
    ghost use Rattle.agent_store.specs.Store.{entry_fits};
    ghost use Rattle.store_tests.specs.Keeping.{HoldsPart, IsLeft, IsReady};
    ghost use Rattle.store_tests.specs.Holding.{one_part};

    ghost faults = { λ disk. (D.state disk).faults };

    ghost admits = { λ keeper disk part. IsReady P.codec (D.state disk) keeper.store × P.right part };

    ghost keeps = { λ keeper disk part. IsReady P.codec (D.state disk) keeper.store
        × HoldsPart P.right P.typed (record { codec = P.codec; canonical = P.canonical }) (D.state disk) part };

    ghost holds = { λ disk part. HoldsPart P.right P.typed (record { codec = P.codec; canonical = P.canonical }) (D.state disk) part };

    ghost tells = { λ disk. IsTrue (D.state disk).told };

    ghost crashes = { λ old new left. IsLeft (D.state old) (D.state new) (disk_bytes (D.state left)) };

    ghost exceeds = { λ keeper disk part. keeper.store.layout.room < length (P.canonical part) };

    ghost exhausts = { λ keeper disk part. (length (P.canonical part) ≤ keeper.store.layout.room)
        × (keeper.store.generation ≡ 2 ^ 64 - 1) × (entry_fits P.codec keeper.store (P.canonical part) ≡ false) };

    fn keep(&mut self, device: &mut D, value: &P) -> Result<(), KeepFail> {
        match self.store.save(device, value) {
            Ok(()) => Ok(()),
            Err(StoreFail::DiskFault) => Err(KeepFail::Fault),
            Err(StoreFail::TooBig) => Err(KeepFail::TooBig),
            Err(StoreFail::Spent) => Err(KeepFail::Spent),
            Err(StoreFail::NoMemory) => unreachable!(),
            Err(StoreFail::Damaged { slot: _ }) => unreachable!(),
        }
    }

    ghost keeps_what_it_holds = { λ keeper disk part kept. kept.1 };

    ghost holds_one = { λ disk part other told a b. one_part P.right P.typed (record { codec = P.codec; canonical = P.canonical }) P.one_value (D.state disk) part other a b };
}

// What the disk stands for.
fn read_again(rt: &(impl Abort + AllocGlobal), disk: &mut MemDisk) -> Saved
    ensures found { reading codec large (disk_bytes (memory_disk disk.old)) ≡ Holds (canonical_saved result) }
    ensures right { IsTrue (is_right result) }
    ensures typed { FitsTypes result }
{
    let Ok((_, opened)) = Store::load::<Saved, MemDisk>(rt.alloc(), disk, LARGE) else {
        panic!(rt; "no load");
    };
    match opened {
        Opened::Kept(saved) => saved,
        Opened::Fresh => panic!(rt; "nothing is kept"),
    }
}

// Keeps the tried part on a disk that may be stopped. Where the disk failed a crash comes, and what stands is read off the disk.
fn settled_after(
    rt: &(impl Abort + AllocGlobal),
    disk: &mut MemDisk,
    store: Store,
    trying: Trying<Saved>,
    mode: Mode,
) -> Settled<Saved>
    requires ready { IsReady codec (memory_disk disk.old) store }
    requires right { IsTrue (is_right trying.tried) }
    requires former { HoldsPart (λ s. IsTrue (is_right s)) FitsTypes (record { codec = codec; canonical = canonical_saved }) (memory_disk disk.old) trying.former }
    ensures one_of { (result ≡ trying.former) ⊎ (result ≡ trying.tried) }
{
    let mut keeper = Keeper { store };
    match trying.commit(&mut keeper, disk) {
        Ok(settled) => settled,
        Err(NotKept::Broken(broken)) => {
            disk.crash(mode);
            let found = read_again(rt, disk);
            broken.reopen(found)
        }
        Err(NotKept::TooBig(trying)) => trying.abandon(),
        Err(NotKept::NoMemory(trying)) => trying.abandon(),
        Err(NotKept::Spent(trying)) => trying.abandon(),
    }
}

// A disk that keeps the first part, with its store.
fn kept_first(rt: &(impl Abort + AllocGlobal), first: &Saved) -> (MemDisk, Store)
    requires right { IsTrue (is_right first.now) }
    ensures ready { IsReady codec (memory_disk result.0) result.1 }
    ensures former { HoldsPart (λ s. IsTrue (is_right s)) FitsTypes (record { codec = codec; canonical = canonical_saved }) (memory_disk result.0) first.now }
{
    let mut disk = MemDisk::new(rt.alloc(), Vec::new(rt.alloc()));
    let Ok((mut store, opened)) = Store::load::<Saved, MemDisk>(rt.alloc(), &mut disk, LARGE) else {
        panic!(rt; "no load");
    };
    drop(opened);
    match store.save(&mut disk, first) {
        Ok(()) => (disk, store),
        Err(fail) => panic!(rt; "{fail:?}"),
    }
}

// Whether an offer of other settings that is stopped at this device call leaves the part of these bytes, by the offer and by the disk.
fn leaves(rt: &(impl Abort + AllocGlobal), stop: u64, mode: Mode, expected: &[u8]) -> bool {
    let first = value_of(rt, FIRST);
    let tried = value_of(rt, LONGER);
    let (mut disk, store) = kept_first(rt, &first);
    disk.arm(stop);
    let settled = settled_after(rt, &mut disk, store, Settled::new(first).begin(tried), mode);
    let by_offer = is_written_as(rt, settled.active(), expected);
    drop(settled);
    disk.arm(0);
    let found = read_again(rt, &mut disk);
    let by_disk = is_written_as(rt, &found, expected);
    drop(found);
    by_offer && by_disk
}

// The device call of the save that is stopped, what a crash leaves, and the part that is kept then. The save is an entry: its bytes, a sync, its gate, a
// sync. A crash leaves it where the gate's byte stays.
const OFFERS: [(u64, Mode, &[u8]); 14] = [
    (0, Mode::Old, LONGER),
    (1, Mode::Old, FIRST),
    (1, Mode::New, FIRST),
    (1, Mode::Torn, FIRST),
    (2, Mode::Old, FIRST),
    (2, Mode::New, FIRST),
    (2, Mode::Torn, FIRST),
    (3, Mode::Old, FIRST),
    (3, Mode::New, LONGER),
    (3, Mode::Torn, FIRST),
    (4, Mode::Old, FIRST),
    (4, Mode::New, LONGER),
    (4, Mode::Torn, FIRST),
    (5, Mode::Torn, LONGER),
];

#[test]
fn offers_are_kept_or_not(rt: HostRuntime) {
    for (stop, mode, expected) in &OFFERS {
        assert!(rt; leaves(&rt, *stop, *mode, expected), "at {stop}");
    }
}
