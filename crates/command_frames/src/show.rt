//! The command `show`: framed messages in, their text out.

ghost use Rattle.std.specs.Prelude.{◌≡◌, ◌++◌, ℕ, OnOk, OnErr};
ghost use Rattle.std.proofs.Common.{arith};
ghost use Rattle.command_frames.specs.Showing.{headed, Shows};

use crate::families::Outermost;
use crate::refusing::refusal;
use command_streams::{Handled, Handler, Told};
use message_codec::wire::Out;
use plain_values::NoMemory;
use std::alloc::Global;
use std::marker::PhantomData;

/// Shows each message under a heading that counts them.
#[derive(Drop)]
pub struct Show<M> {
    shown: u64,
    family: PhantomData<M>,
}

impl<M> Show<M> {
    /// A command that has shown nothing. Takes no memory.
    pub fn new() -> Show<M>
        ensures none { result.shown ≡ 0 }
    {
        Show {
            shown: 0,
            family: PhantomData,
        }
    }
}

// Adds both texts, for which room is made at once.
fn add_both(output: &mut Out, first: &str, second: &str) -> Result<(), NoMemory>
    ensures added { OnOk result (output.new.bytes ≡ output.old.bytes ++ (first.now ++ second.now)) }
    ensures kept { OnErr result (output.new.bytes ≡ output.old.bytes) }
{
    output.reserve(first.len() as u64 + second.len() as u64)?;
    output.append(first.as_bytes())?;
    output.append(second.as_bytes())
}

// Adds the heading of the message of this number, and its text.
fn add_headed<M: Outermost>(
    alloc: Global,
    number: u64,
    message: &M,
    output: &mut Out,
) -> Result<(), NoMemory>
    ensures added { OnOk result (output.new.bytes ≡ output.old.bytes ++ headed M.family number message.now) }
    ensures kept { OnErr result (output.new.bytes ≡ output.old.bytes) }
{
    let text = message.text(alloc)?;
    let word = M::word();
    let heading = format!(in alloc; "{word} {number}\n")?;
    add_both(output, heading.as_str(), text.as_str())
}

impl<M: Outermost> Handler for Show<M> {
    ghost gives = { λ before bytes made after. Shows M.family before.shown bytes made after.shown };

    ghost counted = { λ show. show.shown };

    ghost counts = { λ before after message output given. Prim.omega (arith, given.3) };

    fn handle(
        &mut self,
        alloc: Global,
        message: &[u8],
        output: &mut Out,
    ) -> Result<Handled, NoMemory> {
        let message = match M::read(alloc, message) {
            Ok(message) => message,
            Err(fail) => return refusal(fail),
        };
        let number = self.shown + 1;
        add_headed(alloc, number, &message, output)?;
        self.shown = number;
        Ok(Handled::Written)
    }
}

// It is told by how many messages were shown.
impl<M: Outermost> Told for Show<M> {
    ghost State = { ℕ };

    ghost makes = { Shows M.family };

    ghost tells = { λ show number. show.shown ≡ number };
}
