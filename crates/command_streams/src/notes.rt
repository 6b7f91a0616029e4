// The note on a refused input, and the status of a run.
ghost use Rattle.std.specs.Prelude.{◌≡◌, IfOk, IfErr, OnOk, IsErrOf};
ghost use Rattle.std.specs.Io.KnownBytes.{Appends};
ghost use Rattle.edge_devices.specs.Faults.{HasRisen};
ghost use Rattle.command_streams.specs.Output.{name_of, before_note, note, last_words, status_of};
ghost use Rattle.command_streams.specs.Replies.{IsCutShort};

use crate::stop::{OutputForm, RunFail, Stop};
use edge_devices::Sink;
use message_codec::wire::Why;
use plain_values::NoMemory;
use std::alloc::Global;

fn name(why: Why) -> &'static str
    ensures name { result.now ≡ name_of why }
{
    match why {
        Why::Truncated => "Truncated",
        Why::VarintTooLong => "VarintTooLong",
        Why::BadTag => "BadTag",
        Why::Group => "Group",
        Why::BadWireType => "BadWireType",
        Why::NotUtf8 => "NotUtf8",
        Why::TooDeep => "TooDeep",
        Why::TooLarge => "TooLarge",
    }
}

// What stands before a note in output of this form.
fn before_note(form: OutputForm) -> &'static [u8]
    ensures before { result.now ≡ before_note form }
{
    match form {
        OutputForm::Frames => &[255, 255, 255, 255],
        OutputForm::Lines => &[],
    }
}

// What a fault at this place adds to the output.
#[tactic(auto, unfolding(crate::specs::Output::note))]
fn note_of(alloc: Global, form: OutputForm, at: u64, why: Why) -> Result<Vec<u8>, NoMemory>
    ensures note { IfOk result (λ text. text.items ≡ note form at why) }
{
    let name = name(why);
    let text = format!(in alloc; "refused at {at}: {name}\n")?;
    let mut note = Vec::new(alloc);
    note.extend_from_slice(before_note(form))?;
    note.extend_from_slice(text.as_bytes())?;
    Ok(note)
}

/// Writes what follows the outputs, where reading stopped so.
pub fn put_last_words<K: Sink>(
    alloc: Global,
    sink: &mut K,
    form: OutputForm,
    stop: Stop,
) -> Result<(), RunFail>
    ensures ok { OnOk result (Appends (K.taken sink.old) (K.taken sink.new) (last_words form stop)) }
    ensures cut { IfErr result (IsCutShort (K.taken sink.old) (K.taken sink.new) (last_words form stop)) }
    ensures write_fault { IsErrOf result RunFail.WriteFault → HasRisen (K.faults sink.old) (K.faults sink.new) }
{
    match stop {
        Stop::Refused { at, why } => {
            let note = note_of(alloc, form, at, why)?;
            sink.put(&note)?;
            Ok(())
        }
        Stop::Ended | Stop::TooLong | Stop::Spent => Ok(()),
    }
}

/// The exit status of a run: 0 done, 1 input refused, 3 read fault, 4 write fault, 5 want of memory, 9 budget spent, 11 too large.
pub fn status(ending: Result<Stop, RunFail>) -> u8
    ensures status { result ≡ status_of ending }
{
    match ending {
        Ok(Stop::Ended) => 0,
        Ok(Stop::Refused { .. }) => 1,
        Ok(Stop::Spent) => 9,
        Ok(Stop::TooLong) => 11,
        Err(RunFail::ReadFault) => 3,
        Err(RunFail::WriteFault) => 4,
        Err(RunFail::NoMemory) => 5,
    }
}
