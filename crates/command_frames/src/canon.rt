//! The command `canon`: framed messages in, the same messages in canonical form out.

ghost use Rattle.std.specs.Prelude.{◌≡◌, length, IfOk, OnErr};
ghost use Rattle.std.proofs.Common.{rules};
ghost use Rattle.command_streams.specs.Made.{FaultsWithin, HandledAs};
ghost use Rattle.command_frames.specs.Rewriting.{IsOwnForm, Rewrites};
ghost use Rattle.command_frames.specs.Serving.{IsRewritten};

use crate::families::Outermost;
use crate::frames::{add_frame, add_frame_of};
use crate::refusing::refusal;
use command_streams::{Handled, Handler, MESSAGE_LIMIT, Told};
use message_codec::wire::Out;
use plain_values::NoMemory;
use std::alloc::Global;
use std::marker::PhantomData;

/// The most levels of messages, the outermost included.
pub(crate) const MOST_LEVELS: u64 = 100;

/// Rewrites each message by itself.
#[derive(Drop)]
pub struct Canon<M> {
    family: PhantomData<M>,
}

impl<M> Canon<M> {
    /// A command that keeps nothing. Takes no memory.
    pub fn new() -> Canon<M> {
        Canon {
            family: PhantomData,
        }
    }
}

// Adds the frame of a message in canonical form, or nothing where that is too large or too deep. It is measured once, before it is written.
#[tactic(auto, unfolding(message_codec::specs::Canonical::capped))]
fn rewritten<M: Outermost>(message: &M, output: &mut Out) -> Result<Handled, NoMemory>
    ensures rewritten { IfOk result (IsRewritten M.family message.now output.old.bytes output.new.bytes) }
    ensures kept { OnErr result (output.new.bytes ≡ output.old.bytes) }
{
    let len = message.canonical_len();
    if len > MESSAGE_LIMIT as u64 || message.levels() > MOST_LEVELS {
        return Ok(Handled::TooLong);
    }
    add_frame(output, message, len)?;
    Ok(Handled::Written)
}

impl<M: Outermost> Canon<M> {
    // Passes bytes on that are the canonical form of their message.
    fn pass_on(&self, message: &[u8], output: &mut Out) -> Result<Handled, NoMemory>
        requires own_form { IsOwnForm M.family message.now }
        ensures gives { IfOk result (HandledAs (Rewrites M.family) self.now message.now self.now output.old.bytes output.new.bytes) }
        ensures kept { OnErr result (output.new.bytes ≡ output.old.bytes) }
        ensures place { IfOk result (FaultsWithin (length message.now)) }
    {
        add_frame_of(output, message)?;
        Ok(Handled::Written)
    }

    // Reads a message and writes it again. Apart, since most reports are passed on as they are and this has some hundreds of bytes of locals.
    #[inline(never)]
    fn rewrite(&self, alloc: Global, message: &[u8], output: &mut Out) -> Result<Handled, NoMemory>
        ensures gives { IfOk result (HandledAs (Rewrites M.family) self.now message.now self.now output.old.bytes output.new.bytes) }
        ensures kept { OnErr result (output.new.bytes ≡ output.old.bytes) }
        ensures place { IfOk result (FaultsWithin (length message.now)) }
    {
        let mut read = M::read(alloc, message);
        match &mut read {
            Ok(message) => {
                let made = rewritten(message, output);
                message.shed();
                made
            }
            Err(fail) => refusal(*fail),
        }
    }
}

impl<M: Outermost> Handler for Canon<M> {
    ghost gives = { Rewrites M.family };

    ghost counted = { λ canon. 0 };

    ghost counts = { λ before after message output given. Prim.search rules };

    fn handle(
        &mut self,
        alloc: Global,
        message: &[u8],
        output: &mut Out,
    ) -> Result<Handled, NoMemory> {
        if M::is_plainly_canonical(message) {
            return self.pass_on(message, output);
        }
        self.rewrite(alloc, message, output)
    }
}

// It keeps nothing.
impl<M: Outermost> Told for Canon<M> {
    ghost State = { Unit {0} };

    ghost makes = { Rewrites M.family };

    ghost tells = { λ canon nothing. Unit {0} };
}
