//! What the command `fleet` writes.

ghost use Rattle.std.specs.Prelude.{◌≡◌, ℕ, List as PreludeList, Some, IfOk, IfErr, OnOk, IsErrOf, length, slice_get};
ghost use Rattle.std.specs.Io.KnownBytes.{Appends};
ghost use Rattle.edge_devices.specs.Faults.{HasRisen};
ghost use Rattle.shard_journals.specs.declared.rows.Row.{Row as RowValue};
ghost use Rattle.shard_journals.specs.Histories.{IsHistory};
ghost use Rattle.command_fleet.specs.Collecting.{PutsShort, fleet_output};
ghost use Rattle.command_fleet.specs.Output.{fleet_frames};

use crate::laws::histories_are_sendable;
use crate::output::put_journals;
use command_streams::{OutputForm, RunFail, Stop, put_last_words};
use edge_devices::Sink;
use message_codec::wire::Out;
use plain_values::{List, NoMemory};
use shard_journals::Row;
use std::alloc::Global;

// The frames of the journals.
fn journal_output(alloc: Global, journals: &[List<Row<'_>>]) -> Result<Out, NoMemory>
    requires four { length journals.now ≡ 4 }
    requires histories { (shard : ℕ) (rows : PreludeList RowValue) → slice_get journals.now shard ≡ Some rows → IsHistory rows }
    ensures frames { IfOk result (λ output. output.bytes ≡ fleet_frames journals.now) }
{
    histories_are_sendable();
    let mut output = Out::new(alloc);
    put_journals(alloc, &mut output, journals)?;
    Ok(output)
}

/// Writes the frames of the journals in one call, and then the note where reading stopped at a fault.
pub fn put_fleet<K: Sink>(
    alloc: Global,
    sink: &mut K,
    journals: &[List<Row<'_>>],
    stop: Stop,
) -> Result<(), RunFail>
    requires four { length journals.now ≡ 4 }
    requires histories { (shard : ℕ) (rows : PreludeList RowValue) → slice_get journals.now shard ≡ Some rows → IsHistory rows }
    ensures ok { OnOk result (Appends (K.taken sink.old) (K.taken sink.new) (fleet_output journals.now stop)) }
    ensures short { IfErr result (PutsShort (K.taken sink.old) (K.taken sink.new) journals.now stop) }
    ensures write_fault { IsErrOf result RunFail.WriteFault → HasRisen (K.faults sink.old) (K.faults sink.new) }
{
    let output = journal_output(alloc, journals)?;
    sink.put(output.as_slice())?;
    put_last_words(alloc, sink, OutputForm::Frames, stop)
}
