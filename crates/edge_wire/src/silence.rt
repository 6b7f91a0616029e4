//! What is due on a connection on which nothing comes.

ghost use Rattle.std.specs.Prelude.{◌≡◌, ◌<◌, ◌≤◌, ◌+◌, ◌-◌, ◌*◌, ℕ, IfSome, IfNone};
ghost use Rattle.edge_wire.specs.Silence.{due_after};

use crate::{HTTP_SILENCE, WS_PING, WS_SILENCE};
use edge_devices::Kind;

/// What is due on a connection that is silent.
#[derive(Clone, Copy, Debug, PartialEq, Eq)]
pub enum Due {
    /// Nothing.
    Nothing,
    /// A ping of WebSocket, which a living peer answers (RFC 6455, 5.5.2).
    Ping,
    /// Its end.
    End,
}

/// What is due on a connection of the kind on which nothing came for so many milliseconds; `pinged` says whether it was
/// pinged since.
pub fn due_after(kind: Kind, silent: u64, pinged: bool) -> Due
    ensures due { result ≡ due_after kind silent pinged }
{
    match kind {
        Kind::Http => {
            if silent >= HTTP_SILENCE {
                Due::End
            } else {
                Due::Nothing
            }
        }
        Kind::Ws => {
            if silent >= WS_SILENCE {
                Due::End
            } else if silent >= WS_PING && !pinged {
                Due::Ping
            } else {
                Due::Nothing
            }
        }
        Kind::Operator => Due::Nothing,
    }
}

/// Before which time nothing is due on a connection of the kind on which something came last at the time `heard`, in
/// milliseconds; `pinged` says whether it was pinged since. None where nothing ever is.
pub fn due_from(kind: Kind, heard: u64, pinged: bool) -> Option<u64>
    ensures before { IfSome result (λ due. (now : ℕ) → now < due → due_after kind (now - heard) pinged ≡ Due.Nothing) }
    ensures never { IfNone result ((silent : ℕ) → due_after kind silent pinged ≡ Due.Nothing) }
{
    match kind {
        Kind::Http => Some(heard.saturating_add(HTTP_SILENCE)),
        Kind::Ws => Some(heard.saturating_add(if pinged { WS_SILENCE } else { WS_PING })),
        Kind::Operator => None,
    }
}

/// The first whole second from a time in milliseconds on.
pub fn second_from(millis: u64) -> u64
    ensures reached { millis ≤ 1000 * result }
    ensures within { 1000 * result < millis + 1000 }
{
    let whole = millis / 1_000;
    if millis % 1_000 > 0 { whole + 1 } else { whole }
}
