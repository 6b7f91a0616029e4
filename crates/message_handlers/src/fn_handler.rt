//! Handlers of values that answer as a function does.

ghost use Rattle.std.specs.Prelude.{◌≡◌, ℕ, List, Option, IfOk, ◌≤◌, length};
ghost use Rattle.message_handlers.specs.Answers.{IsShort};
ghost use Rattle.message_handlers.specs.declared.handler.CustomAnswer as answer_of;

use crate::handler::{CustomAnswer, Handler};
use plain_values::{Blob, NoMemory, Text};
use std::alloc::Global;

/// What answers questions as a function does: no question changes it.
pub trait Answering {
    // It may be asked every question of at most 65,536 bytes.
    ghost ready: { Self → Type 0 };

    // These are a question's kind and body, and an answer that may be given to it.
    ghost gives: { Self → List ℕ → List ℕ → Option answer_of.CustomAnswer → Type 0 };

    /// What it answers, or none where it has no answer.
    fn ask(&self, alloc: Global, kind: &Text, body: &Blob) -> Result<Option<CustomAnswer>, NoMemory>
        requires ready { ∥ ready self.now ∥₁ }
        requires short { length body.now ≤ 65536 }
        ensures answer { IfOk result (gives self.now kind.now body.now) }
        ensures short_answer { IfOk result IsShort };
}

/// A handler of a value that answers questions, kept beside the fact that it may be asked each of them.
#[derive(Drop)]
pub struct FnHandler<T: Answering> {
    closure: T,
    ghost ready: { ∥ T.ready closure ∥₁ },
}

impl<T: Answering> FnHandler<T> {
    /// A handler of that value. Takes no memory.
    pub fn new(closure: T) -> FnHandler<T>
        requires ready { T.ready closure }
        ensures closure { result.closure ≡ closure }
    {
        FnHandler { closure }
    }
}

impl<T: Answering + Drop> Handler for FnHandler<T> {
    ghost answers = { λ handler kind body answer. T.gives handler.closure kind body answer };

    fn answer(
        &self,
        alloc: Global,
        kind: &Text,
        body: &Blob,
    ) -> Result<Option<CustomAnswer>, NoMemory> {
        self.closure.ask(alloc, kind, body)
    }
}
