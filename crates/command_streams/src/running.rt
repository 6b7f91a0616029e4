// One loop for all commands over framed messages.
ghost use Rattle.std.specs.Prelude.{◌≡◌, ◌+◌, ◌^◌, ◌<◌, ◌≤◌, IfOk, IfErr, IsErrOf};
ghost use Rattle.edge_devices.specs.Faults.{HasRisen};
ghost use Rattle.command_streams.specs.Output.{Answers};
ghost use Rattle.command_streams.specs.Replies.{IsReplied, IsCut, TakesAll, TakesNoFurther, WritesAllTaken, WritesBeforeLast};
ghost use Rattle.command_streams.specs.Supplies.{end_stop};

use crate::answering::{Halt, answer_block};
use crate::handler::Handler;
use crate::held::{HeldBytes, Supply};
use crate::notes::put_last_words;
use crate::stop::{OutputForm, RunFail, Stop};
use crate::unwritten::Unwritten;
use edge_devices::{Sink, Source};
use message_codec::wire::{Out, Why};
use std::alloc::Global;

/// Where reading stops, if the input ends behind what is held, which is no whole frame.
pub fn stop_at_end(held: &HeldBytes) -> Stop
    ensures stop { result ≡ end_stop held.now.at held.now.bytes }
{
    if held.bytes().is_empty() {
        return Stop::Ended;
    }
    Stop::Refused {
        at: held.at(),
        why: Why::Truncated,
    }
}

// Answers each message, and says where reading stopped. All output is written before the source is asked for more.
fn handle_all<S: Source, K: Sink, H: Handler>(
    alloc: Global,
    source: &mut S,
    sink: &mut K,
    handler: &mut H,
    budget: u64,
) -> Result<Stop, RunFail>
    requires budget { H.counted handler.old + budget < 2 ^ 62 }
    ensures replied { IfOk result (IsReplied H.gives handler.old handler.new budget (S.left source.old) (K.taken sink.old) (K.taken sink.new)) }
    ensures cut { IfErr result (IsCut H.gives handler.old budget (S.left source.old) (K.taken sink.old) (K.taken sink.new)) }
    ensures read_fault { IsErrOf result RunFail.ReadFault → HasRisen (S.faults source.old) (S.faults source.new) }
    ensures write_fault { IsErrOf result RunFail.WriteFault → HasRisen (K.faults sink.old) (K.faults sink.new) }
    ensures before_read_fault { IsErrOf result RunFail.ReadFault → WritesAllTaken H.gives handler.old (S.left source.old) (S.left source.new) (K.taken sink.old) (K.taken sink.new) }
    ensures before_last_take { WritesBeforeLast H.gives handler.old budget (S.left source.old) (S.left source.new) (K.taken sink.old) (K.taken sink.new) }
    ensures sink_count { K.faults sink.old ≤ K.faults sink.new }
{
    let mut held = HeldBytes::new(alloc);
    let mut pending = Out::new(alloc);
    'rounds: loop {
        let need = match answer_block(alloc, &mut held, sink, handler, &mut pending)? {
            Halt::Wants(need) => need,
            Halt::Stops(stop) => return Ok(stop),
        };
        match held.take_more(source, need, budget)? {
            Supply::More => {}
            Supply::End => return Ok(stop_at_end(&held)),
            Supply::Spent => return Ok(Stop::Spent),
        }
    }
}

/// Has a command handle the framed messages of a source, within a budget of bytes, and says where reading stopped. What the command would write is
/// left out: this is for one that collects what it reads. `put_last_words` writes the note on a fault of the input, once the command's own output is out.
///
/// The source is asked for 64 KiB or more at a time. Its fault and want of memory end the run. What the handler holds then isn't told.
pub fn take_all<S: Source, H: Handler>(
    alloc: Global,
    source: &mut S,
    handler: &mut H,
    budget: u64,
) -> Result<Stop, RunFail>
    requires budget { H.counted handler.old + budget < 2 ^ 62 }
    ensures taken { IfOk result (TakesAll H.gives handler.old handler.new budget (S.left source.old)) }
    ensures read_fault { IsErrOf result RunFail.ReadFault → HasRisen (S.faults source.old) (S.faults source.new) }
    ensures no_write_fault { IsErrOf result RunFail.WriteFault → ⊥ }

    // Behind a fault of the input the source isn't asked, and it never gives more than the budget.
    ensures no_further { TakesNoFurther H.gives handler.old budget (S.left source.old) (S.left source.new) }
{
    let mut unwritten = Unwritten;
    handle_all(alloc, source, &mut unwritten, handler, budget)
}

/// Runs a command over the framed messages of a source, within a budget of bytes.
///
/// The source is asked for 64 KiB or more at a time. What is written for the whole frames among the bytes that came goes out in one call of the sink,
/// before the source is asked again. After a fault of the input a note on it is written, behind four bytes `ff` where the output is frames, which is one more call. What the handler
/// holds afterwards isn't told.
///
/// The source's fault, the sink's fault and want of memory end the run. Output of messages that were answered before goes out also where there is no
/// memory for the next one; a fault of the sink in that call is answered in place of want of memory.
pub fn run<S: Source, K: Sink, H: Handler>(
    alloc: Global,
    source: &mut S,
    sink: &mut K,
    handler: &mut H,
    form: OutputForm,
    budget: u64,
) -> Result<Stop, RunFail>
    requires budget { H.counted handler.old + budget < 2 ^ 62 }
    ensures answers { Answers form H.gives handler.old budget (S.left source.old) (K.taken sink.old) (K.taken sink.new) result }
    ensures read_fault { IsErrOf result RunFail.ReadFault → HasRisen (S.faults source.old) (S.faults source.new) }
    ensures write_fault { IsErrOf result RunFail.WriteFault → HasRisen (K.faults sink.old) (K.faults sink.new) }

    // Before a fault of the source all that is written for the whole frames that were taken has gone out.
    ensures before_read_fault { IsErrOf result RunFail.ReadFault → WritesAllTaken H.gives handler.old (S.left source.old) (S.left source.new) (K.taken sink.old) (K.taken sink.new) }

    // Behind a fault of the input the source isn't asked, and it never gives more than the budget.
    ensures no_further { TakesNoFurther H.gives handler.old budget (S.left source.old) (S.left source.new) }

    // Whatever ends the run, a fault of the sink too, all that is written for the whole frames that were taken before the last call of the source has gone out.
    ensures before_last_take { WritesBeforeLast H.gives handler.old budget (S.left source.old) (S.left source.new) (K.taken sink.old) (K.taken sink.new) }
{
    let stop = handle_all(alloc, source, sink, handler, budget)?;
    put_last_words(alloc, sink, form, stop)?;
    Ok(stop)
}
