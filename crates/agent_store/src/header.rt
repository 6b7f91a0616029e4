//! The first bytes of a slot, and which slot counts.

ghost use Rattle.std.specs.Prelude.{◌≡◌, ◌+◌, ◌<◌, ◌^◌, ℕ, length, IfOk, OnOk, OnErr, IsTrue};
ghost use Rattle.edge_devices.specs.DiskCalls.{EndsAmidOrAfter, MadeAll};
ghost use Rattle.agent_store.specs.Plans.{load_plan};
ghost use Rattle.edge_devices.specs.Disks.{medium, disk_bytes, HasBytes, IsSettled, MayLeave, HasCause, LeftSince, Reads};

use crate::slots::{Choice, Layout, Side};
use edge_devices::{Disk, DiskFault};

/// What the first 16 bytes of a slot say.
#[derive(Clone, Copy, Debug, PartialEq, Eq)]
pub struct Header {
    pub is_open: bool,
    pub form: u8,
    pub generation: u64,
    pub length: u32,
}

impl Header {
    ghost use Rattle.agent_store.specs.Headers.{TellsHeader, header_of, header_choice};
    ghost use Rattle.agent_store.specs.Slots.{slot_start};
    ghost use Rattle.agent_store.specs.declared.slots.Side.TheVariants.{First, Second};

    /// What 16 bytes say.
    pub fn of(bytes: &[u8]) -> Header
        requires { length bytes.now ≡ 16 }
        ensures { (image : ℕ → ℕ) (at : ℕ) → HasBytes image at bytes.now → TellsHeader image at result }
    {
        let mut generation = [0; 8];
        generation.copy_from_slice(&bytes[1..9]);
        let mut length = [0; 4];
        length.copy_from_slice(&bytes[9..13]);
        Header {
            is_open: bytes[0] == 1,
            form: bytes[13],
            generation: u64::from_le_bytes(generation),
            length: u32::from_le_bytes(length),
        }
    }

    /// Reads the header at a place.
    pub fn read<D: Disk>(disk: &mut D, at: u64) -> Result<Header, DiskFault>
        requires { at + 16 < 2 ^ 62 }
        ensures header { IfOk result (λ header. IsTrue (D.state disk.old).told → TellsHeader (disk_bytes (D.state disk.old)) at header) }
        ensures reads { Reads (D.state disk.old) (D.state disk.new) }
        ensures counts { IsTrue (D.state disk.old).told → D.countdown disk.new ≡ D.countdown disk.old }
        ensures cause { HasCause (D.state disk.old) (D.state disk.new) result }
    {
        let mut bytes = [0; 16];
        disk.read(at, &mut bytes)?;
        Ok(Header::of(&bytes))
    }

    /// Syncs, and reads both headers.
    pub fn read_both<D: Disk>(disk: &mut D, layout: Layout) -> Result<(Header, Header), DiskFault>
        ensures first { IfOk result (λ pair. IsTrue (D.state disk.old).told → TellsHeader (disk_bytes (D.state disk.old)) (slot_start layout First) pair.0) }
        ensures second { IfOk result (λ pair. IsTrue (D.state disk.old).told → TellsHeader (disk_bytes (D.state disk.old)) (slot_start layout Second) pair.1) }
        ensures settled { IfOk result (λ _. IsSettled (medium (D.state disk.new))) }
        ensures same { disk_bytes (D.state disk.new) ≡ disk_bytes (D.state disk.old) }
        ensures made { OnOk result (IsTrue (D.state disk.old).told → MadeAll load_plan (D.state disk.old) (D.state disk.new) (D.countdown disk.old) (D.countdown disk.new)) }
        ensures made_part { OnErr result (IsTrue (D.state disk.old).told → EndsAmidOrAfter load_plan (D.state disk.old) (D.state disk.new) (D.countdown disk.old) (D.countdown disk.new)) }
        ensures any_moment { LeftSince (D.state disk.old) (D.state disk.new) (MayLeave (medium (D.state disk.old))) }
        ensures cause { HasCause (D.state disk.old) (D.state disk.new) result }
    {
        disk.sync()?;
        let first = Header::read(disk, 0)?;
        let second = Header::read(disk, layout.slot_start(Side::Second))?;
        Ok((first, second))
    }

    /// The header of a side.
    pub fn on(first: Header, second: Header, side: Side) -> Header
        ensures { result ≡ header_of first second side }
    {
        match side {
            Side::First => first,
            Side::Second => second,
        }
    }

    /// Which slot counts.
    pub fn choose(first: Header, second: Header) -> Choice
        ensures { result ≡ header_choice first second }
    {
        if first.is_open {
            if second.is_open {
                if first.generation == second.generation {
                    Choice::Twins
                } else if first.generation < second.generation {
                    Choice::Slot(Side::Second)
                } else {
                    Choice::Slot(Side::First)
                }
            } else {
                Choice::Slot(Side::First)
            }
        } else if second.is_open {
            Choice::Slot(Side::Second)
        } else {
            Choice::Neither
        }
    }
}
