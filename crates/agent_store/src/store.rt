//! The store: one part, saved so that a crash leaves the former one or the next.

ghost use Rattle.std.specs.Prelude.{◌≡◌, ◌+◌, ◌-◌, ◌<◌, ◌≤◌, ◌^◌, ◌↔◌, ℕ, length, Some, true, false, nat_le, OnOk, OnErr, IfOk, IsTrue, IsErrOf};
ghost use Rattle.edge_devices.specs.Faults.{HasRisen};
ghost use Rattle.edge_devices.specs.Disks.{DiskState, Countdown, medium, disk_bytes, MayLeave, LeftSince};
ghost use Rattle.edge_devices.specs.DiskCalls.{MadeAll, EndsAmid, EndsAmidOrAfter};
ghost use Rattle.agent_store.specs.Codecs.{IsRight};
ghost use Rattle.agent_store.specs.Slots.{log_start, log_stop, slot_start, reading, Damaged, IsFormerOrNext, StandsFor};
ghost use Rattle.agent_store.specs.Runs.{LeavesOnly};
ghost use Rattle.agent_store.specs.Store.{Fits, fresh_store, entry_fits as entry_fits_in, generation_after};
ghost use Rattle.agent_store.specs.Headers.{TellsHeader, header_choice};
ghost use Rattle.agent_store.specs.Openings.{Opens, ReadsHeaders, holding};
ghost use Rattle.agent_store.specs.Plans.{planned, load_plan};
ghost use Rattle.agent_store.specs.Saves.{Saves};
ghost use Rattle.agent_store.specs.Stops.{CanSave};
ghost use Rattle.agent_store.specs.Found.{part_of, reading_of, AllKept};
ghost use Rattle.agent_store.specs.declared.opened.Opened;

use crate::fail::StoreFail;
use crate::filling::{hold, reserve, stage};
use crate::header::Header;
use crate::joining::{has_place, join};
use crate::log::read_slot;
use crate::opened::Opened;
use crate::payload::Payload;
use crate::slots::{Choice, Layout, Side};
use crate::writing::checkpoint;
use edge_devices::{Disk, DiskFault};
use message_codec::wire::Out;
use plain_values::NoMemory;
use std::alloc::Global;
use std::marker::Model;
use std::mem::swap;

/// What is kept of a disk on which a part is saved. It doesn't hold the disk; each call is lent it.
pub struct Store {
    layout: Layout,
    target: Side,
    target_open: bool,
    kept: bool,
    generation: u64,
    tail: u64,
    broken: bool,
    // the canonical bytes of the part that is kept
    former: Out,
    // room for those of the next one, and for an entry
    next: Out,
    entry: Out,
}

// By hand, so that it is a call where a value is dropped, and not laid out there.
impl Drop for Store {
    fn drop(self) {
        let Store {
            layout: _,
            target: _,
            target_open: _,
            kept: _,
            generation: _,
            tail: _,
            broken: _,
            former: _,
            next: _,
            entry: _,
        } = self;
    }
}

impl Model for Store {
    ghost use Rattle.agent_store.specs.Store.{StoreState};

    ghost Value = { StoreState };

    ghost use Rattle.agent_store.specs.Kept.{state_of, IsKept};

    ghost view = { state_of };

    ghost invariant = { IsKept };
}

impl Store {
    /// Whether a save failed by the disk. The disk is then loaded again.
    pub fn broken(&self) -> bool
        ensures broken { result ≡ self.now.broken }
    {
        self.broken
    }

    /// Whether a part's canonical bytes are within the room of a slot, so that a save of it isn't `TooBig`. It takes no
    /// memory and doesn't touch the disk.
    pub fn has_room<P: Payload>(&self, part: &P) -> bool
        ensures room { result ≡ nat_le (length (P.canonical part.now)) self.now.layout.room }
    {
        part.len() <= u64::from(self.layout.room)
    }

    /// Saves a part. Until it is done a crash leaves the former part or this one, and then this one. It takes no memory.
    ///
    /// # Errors
    /// `TooBig` exactly where the canonical bytes are more than the room, `Spent` exactly where they aren't, the
    /// generation is 2^64 - 1 and the change doesn't fit in the log: then nothing was changed. `DiskFault` where the
    /// disk failed in this call: then the store is broken.
    pub fn save<P: Payload, D: Disk>(&mut self, disk: &mut D, next: &P) -> Result<(), StoreFail>
        requires fits { Fits P.codec (D.state disk.old) self.old }
        requires right { P.right next.now }

        ensures saved { OnOk result (IsTrue (D.state disk.old).told → StandsFor P.codec self.old.layout (disk_bytes (D.state disk.new)) (Some (P.canonical next.now))) }
        ensures left { OnOk result (IsTrue (D.state disk.old).told → LeavesOnly P.codec self.old.layout (D.state disk.new) (Some (P.canonical next.now))) }
        ensures typed { P.typed next.now }
        ensures itself { OnOk result (P.typed next.now × (length (P.canonical next.now) < 2 ^ 62) × IsRight P.codec (P.canonical next.now)) }
        ensures generation { OnOk result (self.new.generation ≡ generation_after P.codec self.old (P.canonical next.now)) }
        ensures fits { (result ≡ Err StoreFail.DiskFault → ⊥) → Fits P.codec (D.state disk.new) self.new }
        ensures layout { self.new.layout ≡ self.old.layout }
        ensures told { (D.state disk.new).told ≡ (D.state disk.old).told }
        ensures any_moment { IsTrue (D.state disk.old).told → LeftSince (D.state disk.old) (D.state disk.new)
            (IsFormerOrNext P.codec self.old.layout (disk_bytes (D.state disk.old)) (P.canonical next.now)) }
        ensures made { OnOk result (IsTrue (D.state disk.old).told → MadeAll (planned P.codec self.old (P.canonical next.now)) (D.state disk.old) (D.state disk.new) (D.countdown disk.old) (D.countdown disk.new)) }
        ensures made_part { IsErrOf result StoreFail.DiskFault → IsTrue (D.state disk.old).told → EndsAmid (planned P.codec self.old (P.canonical next.now)) (D.state disk.old) (D.state disk.new) (D.countdown disk.old) (D.countdown disk.new) }
        ensures can_save { IsErrOf result StoreFail.DiskFault → CanSave P.codec self.old (P.canonical next.now) }
        ensures fault { IsErrOf result StoreFail.DiskFault → HasRisen (D.state disk.old).faults (D.state disk.new).faults × (self.new.broken ≡ true) }
        ensures counts { (D.state disk.old).faults ≤ (D.state disk.new).faults }
        ensures too_big { IsErrOf result StoreFail.TooBig ↔ (self.old.layout.room < length (P.canonical next.now)) }
        ensures spent { IsErrOf result StoreFail.Spent ↔ ((length (P.canonical next.now) ≤ self.old.layout.room) × (self.old.generation ≡ 2 ^ 64 - 1) × (entry_fits_in P.codec self.old (P.canonical next.now) ≡ false)) }
        ensures unchanged { OnErr result ((result ≡ Err StoreFail.DiskFault → ⊥) → (self.new ≡ self.old) × (disk.new ≡ disk.old)) }
        ensures no_memory { IsErrOf result StoreFail.NoMemory → ⊥ }
        ensures no_damage { (slot : ℕ) → IsErrOf result (StoreFail.Damaged slot) → ⊥ }
    {
        if next.len() > u64::from(self.layout.room) {
            return Err(StoreFail::TooBig);
        }
        self.save_fitting(disk, next)
    }

    // Saves a part that has room: by an entry where one fits, and else by a slot of the next generation.
    fn save_fitting<P: Payload, D: Disk>(&mut self, disk: &mut D, next: &P) -> Result<(), StoreFail>
        requires fits { Fits P.codec (D.state disk.old) self.old }
        requires right { P.right next.now }
        requires short { length (P.canonical next.now) ≤ self.old.layout.room }
        ensures saves { Saves P.codec self.old self.new (D.state disk.old) (D.state disk.new) (D.countdown disk.old) (D.countdown disk.new) (P.canonical next.now) result }
        ensures unchanged { OnErr result ((result ≡ Err StoreFail.DiskFault → ⊥) → (self.new ≡ self.old) × (disk.new ≡ disk.old)) }
    {
        stage(&mut self.next, next);
        if has_place::<P>(
            self.layout,
            self.target,
            self.kept,
            self.tail,
            &self.former,
            &self.next,
        ) {
            self.broken = true;
            let former = self.former.as_slice();
            let staged = self.next.as_slice();
            match join::<P, D>(disk, self.tail, former, staged, &mut self.entry) {
                Ok(len) => self.tail += len,
                Err(DiskFault) => return Err(StoreFail::DiskFault),
            }
            swap(&mut self.former, &mut self.next);
            self.broken = false;
            return Ok(());
        }
        if self.generation == u64::MAX {
            return Err(StoreFail::Spent);
        }
        self.broken = true;
        let payload = self.next.as_slice();
        match checkpoint(
            disk,
            self.layout,
            self.target,
            self.target_open,
            self.generation + 1,
            payload,
            &mut self.former,
        ) {
            Ok(()) => {}
            Err(DiskFault) => return Err(StoreFail::DiskFault),
        }
        self.tail = self.layout.log_start(self.target);
        self.target_open = self.kept;
        self.kept = true;
        self.target = self.target.other();
        self.generation += 1;
        swap(&mut self.former, &mut self.next);
        self.broken = false;
        Ok(())
    }

    /// Reads what the disk stands for, and reserves the rows of every later save.
    ///
    /// # Errors
    /// `Damaged` exactly where the slot that counts isn't right or two open slots have the same generation. `DiskFault`
    /// where the disk failed in this call. `NoMemory`.
    pub fn load<P: Payload, D: Disk>(
        alloc: Global,
        disk: &mut D,
        layout: Layout,
    ) -> Result<(Store, Opened<P>), StoreFail>
        ensures opened { IfOk result (λ pair. IsTrue (D.state disk.old).told → reading_of P.canonical pair.1 ≡ reading P.codec layout (disk_bytes (D.state disk.old))) }
        ensures left { IfOk result (λ pair. IsTrue (D.state disk.old).told → LeavesOnly P.codec layout (D.state disk.new) (part_of P.canonical pair.1)) }
        ensures right { IfOk result (λ pair. AllKept P.right pair.1) }
        ensures typed { IfOk result (λ pair. AllKept P.typed pair.1) }
        ensures fits { IfOk result (λ pair. Fits P.codec (D.state disk.new) pair.0) }
        ensures layout { IfOk result (λ pair. pair.0.layout ≡ layout) }
        ensures fresh { IfOk result (λ pair. pair.1 ≡ Opened.Fresh → pair.0.generation ≡ 0) }
        ensures damaged { (slot : ℕ) → IsErrOf result (StoreFail.Damaged slot) → IsTrue (D.state disk.old).told → reading P.codec layout (disk_bytes (D.state disk.old)) ≡ Damaged slot }
        ensures any_moment { LeftSince (D.state disk.old) (D.state disk.new) (MayLeave (medium (D.state disk.old))) }
        ensures same { disk_bytes (D.state disk.new) ≡ disk_bytes (D.state disk.old) }
        ensures made { OnOk result (IsTrue (D.state disk.old).told → MadeAll load_plan (D.state disk.old) (D.state disk.new) (D.countdown disk.old) (D.countdown disk.new)) }
        ensures made_part { IsErrOf result StoreFail.DiskFault → IsTrue (D.state disk.old).told → EndsAmidOrAfter load_plan (D.state disk.old) (D.state disk.new) (D.countdown disk.old) (D.countdown disk.new) }
        ensures fault { IsErrOf result StoreFail.DiskFault → HasRisen (D.state disk.old).faults (D.state disk.new).faults }
        ensures counts { (D.state disk.old).faults ≤ (D.state disk.new).faults }
        ensures not_too_big { IsErrOf result StoreFail.TooBig → ⊥ }
        ensures not_spent { IsErrOf result StoreFail.Spent → ⊥ }
    {
        let mut store = match Store::fresh(alloc, layout) {
            Ok(store) => store,
            Err(NoMemory) => return Err(StoreFail::NoMemory),
        };
        match store.open::<P, D>(alloc, disk, layout) {
            Ok(opened) => Ok((store, opened)),
            Err(fail) => Err(fail),
        }
    }

    // The store of a disk on which nothing was saved yet, with the rows of every later save.
    fn fresh(alloc: Global, layout: Layout) -> Result<Store, NoMemory>
        ensures fresh { IfOk result (λ store. store ≡ fresh_store layout) }
    {
        let (former, next, entry) = match reserve(alloc, layout) {
            Ok(rows) => rows,
            Err(NoMemory) => return Err(NoMemory),
        };
        Ok(Store {
            layout,
            target: Side::First,
            target_open: false,
            kept: false,
            generation: 0,
            tail: 0,
            broken: false,
            former,
            next,
            entry,
        })
    }

    // Reads what the disk stands for into a fresh store.
    fn open<P: Payload, D: Disk>(
        &mut self,
        alloc: Global,
        disk: &mut D,
        layout: Layout,
    ) -> Result<Opened<P>, StoreFail>
        requires fresh { self.old ≡ fresh_store layout }
        ensures opens { Opens P.codec P.canonical P.right P.typed layout self.new (D.state disk.old) (D.state disk.new) (D.countdown disk.old) (D.countdown disk.new) result }
    {
        let (first, second) = match Header::read_both(disk, layout) {
            Ok(headers) => headers,
            Err(DiskFault) => return Err(StoreFail::DiskFault),
        };
        match Header::choose(first, second) {
            Choice::Neither => Ok(Opened::Fresh),
            Choice::Twins => Err(StoreFail::Damaged { slot: 0 }),
            Choice::Slot(side) => self.open_slot(alloc, disk, layout, first, second, side),
        }
    }

    // Reads the slot that counts by both headers.
    fn open_slot<P: Payload, D: Disk>(
        &mut self,
        alloc: Global,
        disk: &mut D,
        layout: Layout,
        first: Header,
        second: Header,
        side: Side,
    ) -> Result<Opened<P>, StoreFail>
        requires fresh { self.old ≡ fresh_store layout }
        requires first { IsTrue (D.state disk.old).told → TellsHeader (disk_bytes (D.state disk.old)) (slot_start layout Side.First) first }
        requires second { IsTrue (D.state disk.old).told → TellsHeader (disk_bytes (D.state disk.old)) (slot_start layout Side.Second) second }
        ensures opens { (old : DiskState) (a : Countdown) → ReadsHeaders layout first second old (D.state disk.old) a (D.countdown disk.old) → header_choice first second ≡ Choice.Slot side
            → Opens P.codec P.canonical P.right P.typed layout self.new old (D.state disk.new) a (D.countdown disk.new) result }
    {
        let header = Header::on(first, second, side);
        let found = match read_slot::<P, D>(alloc, disk, layout, side, header) {
            Ok(found) => found,
            Err(fail) => return Err(fail),
        };
        match found {
            None => Err(StoreFail::Damaged {
                slot: side.number(),
            }),
            Some(found) => {
                let target = Header::on(first, second, side.other());
                match self.keep(
                    side,
                    target.is_open,
                    header.generation,
                    found.tail,
                    &found.part,
                ) {
                    Ok(()) => Ok(Opened::Kept(found.part)),
                    Err(NoMemory) => Err(StoreFail::NoMemory),
                }
            }
        }
    }

    // Takes up a part that was read from a slot.
    fn keep<P: Payload>(
        &mut self,
        side: Side,
        target_open: bool,
        generation: u64,
        tail: u64,
        part: &P,
    ) -> Result<(), NoMemory>
        requires from { log_start self.old.layout side ≤ tail }
        requires to { tail ≤ log_stop self.old.layout side }
        requires intact { self.old.broken ≡ false }
        ensures holds { OnOk result (self.new ≡ holding self.old.layout side target_open generation tail (P.canonical part.now)) }
        ensures itself { OnOk result (P.right part.now → IsRight P.codec (P.canonical part.now)) }
    {
        match hold(&mut self.former, part) {
            Ok(()) => {}
            Err(NoMemory) => return Err(NoMemory),
        }
        self.target = side.other();
        self.target_open = target_open;
        self.kept = true;
        self.generation = generation;
        self.tail = tail;
        Ok(())
    }
}
