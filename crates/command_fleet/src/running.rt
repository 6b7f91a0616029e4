//! The command `fleet`, with the program's status.

ghost use Rattle.std.specs.Prelude.{◌≡◌, ◌≤◌, ◌<◌, ◌^◌, IsErrOf};
ghost use Rattle.edge_devices.specs.Faults.{HasRisen};
ghost use Rattle.command_fleet.specs.Blocks.{TakesFewBehind};
ghost use Rattle.command_fleet.specs.Collecting.{FleetWrites};
ghost use Rattle.command_fleet.specs.Outcomes.{FleetOutcome};

use crate::freeing::free_by_desks;
use crate::laws::one_reading;
use crate::reading::read_by_desks;
use crate::reports::Reports;
use crate::writing::put_fleet;
use command_streams::{RunFail, Stop, status};
use edge_devices::{Sink, Source};
use shard_servers::{Gate, run_fleet};
use std::alloc::Global;
use std::marker::Sync;
use std::sync::Wait;
use std::thread::Threads;

// A gate that does nothing.
struct Open;

impl Gate for Open {
    fn before(&self, _desk: u64, _call: u64) {}

    fn after(&self, _desk: u64, _call: u64) {}
}

// Reads the reports, has them handled and writes the journals. All is read before anything is written.
fn fleet<R: Threads + Wait + Sync, S: Source, K: Sink>(
    rt: &R,
    alloc: Global,
    desks: u64,
    source: &mut S,
    sink: &mut K,
    budget: u64,
) -> Result<Stop, RunFail>
    requires desks { (1 ≤ desks) × (desks ≤ 64) }
    requires budget { budget < 2 ^ 62 }
    ensures writes { FleetWrites desks budget (S.left source.old) (K.taken sink.old) (K.taken sink.new) result }
    ensures silent { IsErrOf result RunFail.ReadFault → sink.new ≡ sink.old }
    ensures read_fault { IsErrOf result RunFail.ReadFault → HasRisen (S.faults source.old) (S.faults source.new) }
    ensures write_fault { IsErrOf result RunFail.WriteFault → HasRisen (K.faults sink.old) (K.faults sink.new) }
    ensures few { TakesFewBehind budget (S.left source.old) (S.left source.new) }
{
    let mut reports = Reports::new(alloc);
    let stop = read_by_desks(rt, alloc, source, &mut reports, desks, budget)?;
    let journals = run_fleet(rt, alloc, reports.as_slice(), desks, &Open)?;
    put_fleet(alloc, sink, journals.as_slice(), stop)?;
    drop(journals);
    free_by_desks(rt, alloc, reports, desks);
    Ok(stop)
}

/// Runs the command `fleet` over the framed reports that the source gives, within a budget of bytes, and gives the program's status: 0 done, 1 input refused,
/// 3 read fault, 4 write fault, 5 want of memory, 9 budget spent.
///
/// So many desks, from 1 to 64, have the reports handled, each in a thread of its own where one can be made. A fault of the input ends the reading: the
/// reports before it are handled, the journals of the four shards are written as frames, and a note on the fault stands behind them. Behind a fault the
/// source is asked for two blocks and a frame at most, some 38 MB.
pub fn run_fleet_command<R: Threads + Wait + Sync, S: Source, K: Sink>(
    rt: &R,
    alloc: Global,
    desks: u64,
    source: &mut S,
    sink: &mut K,
    budget: u64,
) -> u8
    requires desks { (1 ≤ desks) × (desks ≤ 64) }
    requires budget { budget < 2 ^ 62 }
    ensures outcome { FleetOutcome desks budget
        (record { source = record { left = S.left source.old; faults = S.faults source.old }; sink = record { taken = K.taken sink.old; faults = K.faults sink.old } })
        (record { source = record { left = S.left source.new; faults = S.faults source.new }; sink = record { taken = K.taken sink.new; faults = K.faults sink.new } }) result }

    // Where the source fails nothing is written.
    ensures silent { result ≡ 3 → sink.new ≡ sink.old }

    // 3 comes only where the source failed, and 4 where the sink did; 2, 6 and 8 never come.
    ensures read_fault { result ≡ 3 → HasRisen (S.faults source.old) (S.faults source.new) }
    ensures write_fault { result ≡ 4 → HasRisen (K.faults sink.old) (K.faults sink.new) }
    ensures no_wrong_words { result ≡ 2 → ⊥ }
    ensures no_store_fault { result ≡ 6 → ⊥ }
    ensures no_outside_fault { result ≡ 8 → ⊥ }
{
    one_reading();
    status(fleet(rt, alloc, desks, source, sink, budget))
}
