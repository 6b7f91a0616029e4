//! The custom capability that the program's own server answers.

ghost use Rattle.std.specs.Prelude.{◌≡◌, ◌∷◌, [], IfOk, codes};

use message_handlers::{Answering, CustomAnswer};
use plain_values::{Blob, NoMemory, Plain, Text};
use std::alloc::Global;

/// The name of the capability: `com.example.echo`.
pub fn echo_name() -> &'static str
    ensures name { result.now ≡ codes "com.example.echo" }
    ensures bytes { result.now ≡ 99 ∷ 111 ∷ 109 ∷ 46 ∷ 101 ∷ 120 ∷ 97 ∷ 109 ∷ 112 ∷ 108 ∷ 101 ∷ 46 ∷ 101 ∷ 99 ∷ 104 ∷ 111 ∷ [] }
{
    "com.example.echo"
}

/// The question again: its own kind and body. Fails for want of memory alone.
pub fn echoed(alloc: Global, kind: &Text, body: &Blob) -> Result<CustomAnswer, NoMemory>
    ensures same { IfOk result (λ answer. answer ≡ record { kind = kind.now; body = body.now }) }
{
    Ok(CustomAnswer {
        kind: kind.copy(alloc)?,
        body: body.copy(alloc)?,
    })
}

/// What answers each question with the question.
#[derive(Drop)]
pub struct Echo;

impl Answering for Echo {
    ghost use Rattle.std.specs.Prelude.{◌≡◌, Some, ⊤};

    ghost ready = { λ echo. ⊤ };

    ghost gives = { λ echo kind body answer. answer ≡ Some (record { kind = kind; body = body }) };

    fn ask(
        &self,
        alloc: Global,
        kind: &Text,
        body: &Blob,
    ) -> Result<Option<CustomAnswer>, NoMemory> {
        Ok(Some(echoed(alloc, kind, body)?))
    }
}
