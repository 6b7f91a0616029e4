//! What is made of a message that isn't read as a report.

ghost use Rattle.std.specs.Prelude.{IfOk};
ghost use Rattle.command_frames.specs.Serving.{IsRefusal};

use command_streams::Handled;
use message_codec::reader::items::ReadFail;
use plain_values::NoMemory;

/// The refusal at the message's fault, or want of memory.
pub(crate) fn refusal(fail: ReadFail) -> Result<Handled, NoMemory>
    ensures refused { IfOk result (IsRefusal fail) }
{
    match fail {
        ReadFail::Refused(e) => Ok(Handled::Refused {
            at: e.at,
            why: e.why,
        }),
        ReadFail::NoMemory => Err(NoMemory),
    }
}
