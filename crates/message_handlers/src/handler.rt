//! What a handler is.

ghost use Rattle.std.specs.Prelude.{ℕ, List, Option, ◌≤◌, ◌↔◌, length, IfOk};
ghost use Rattle.message_handlers.specs.Answers.{IsShort};
ghost use Rattle.message_handlers.specs.declared.handler.CustomAnswer as answer_of;

use plain_values::{Blob, NoMemory, Text};
use std::alloc::Global;

/// What a handler answers to a custom message.
#[derive(Drop)]
pub struct CustomAnswer {
    /// Which of the capability's messages it is.
    pub kind: Text,
    /// What the message says.
    pub body: Blob,
}

/// What answers the custom messages of one capability. Which answers it may give to a question is a relation, in which none is an
/// answer like any other; a question changes nothing of the handler, and so not the relation. A question's body has at most 65,536
/// bytes, and so has an answer's.
pub trait Handler: Drop {
    // These are a question's kind and body, and an answer that the handler may give to it.
    ghost answers: { Self → List ℕ → List ℕ → Option answer_of.CustomAnswer → Type 0 };

    /// An answer to the question, or none where the handler has none.
    fn answer(
        &self,
        alloc: Global,
        kind: &Text,
        body: &Blob,
    ) -> Result<Option<CustomAnswer>, NoMemory>
        requires short { length body.now ≤ 65536 }
        ensures answer { IfOk result (answers self.now kind.now body.now) }
        ensures short_answer { IfOk result IsShort };
}
