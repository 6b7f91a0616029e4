//! Where handlers are kept.

ghost use Rattle.std.specs.Prelude.{◌≡◌, ◌≤◌, vec_len};
ghost use Rattle.std.proofs.Props.{props};
ghost use Rattle.message_handlers.specs.Lengths.{AreShort};

use crate::handler::Handler;
use plain_values::Text;

/// At most 64 handlers, each of a custom capability of its own (OpAMP specification, "Custom Messages").
pub struct Handlers {
    pub(crate) names: Vec<Text>,
    pub(crate) handlers: Vec<Box<dyn Handler>>,
    ghost paired: { vec_len names ≡ vec_len handlers },
    ghost few: { vec_len names ≤ 64 },
    ghost short: { AreShort names.items } by { Prim.hlevel props },
}

// By hand, so that it is a call where a value is dropped, and not laid out there.
impl Drop for Handlers {
    fn drop(self) {
        let Handlers {
            names: _,
            handlers: _,
        } = self;
    }
}
