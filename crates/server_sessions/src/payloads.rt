//! Connections of WebSocket.

ghost use Rattle.std.specs.Prelude.{◌≡◌, false};
ghost use Rattle.edge_devices.specs.Wires.{IsOpen};
ghost use Rattle.edge_devices.specs.declared.wires.Kind.TheVariants as kind;
ghost use Rattle.server_sessions.specs.Reports.{host_of};
ghost use Rattle.server_sessions.specs.Session.{Serves};
ghost use Rattle.server_sessions.specs.Streams.{Payload};
ghost use Rattle.server_sessions.specs.Wiring.{view_of};
ghost use Rattle.server_sessions.specs.Connections.{KeepsOpen, scene_at};

use crate::answers::{Stepped, WS_NO_MEMORY, answer_payload};
use crate::sending::send_answer;
use edge_devices::{Entropy, Wire};
use message_handlers::{Handler, Handlers};
use plain_values::NoMemory;
use server_waves::ServerDesk;
use std::alloc::Global;

/// Answers a payload. It tells whether the connection stays.
pub fn serve_payload<W: Wire, E: Entropy>(
    alloc: Global,
    desk: &mut ServerDesk,
    handlers: &Handlers,
    wire: &mut W,
    entropy: &mut E,
    noted: &mut Stepped,
    conn: u64,
    payload: &[u8],
) -> bool
    requires open { IsOpen (W.calls wire.old) conn }
    ensures serves { Serves (host_of answers desk.old.server.profile handlers.now) kind.Ws conn (Payload payload.now)
        (scene_at (view_of (W.calls wire.old) (W.faults wire.old)) (E.state entropy.old) desk.old.server.table desk.old.rollouts noted.old)
        (scene_at (view_of (W.calls wire.new) (W.faults wire.new)) (E.state entropy.new) desk.new.server.table desk.new.rollouts noted.new)
        (record { stays = result; stop = false }) }
    ensures open { KeepsOpen conn (W.calls wire.old) (W.calls wire.new) result }
    ensures noted { noted.new ≡ record noted.old { handled = noted.new.handled } }
    ensures profile { desk.new.server.profile ≡ desk.old.server.profile }
{
    match answer_payload(
        alloc,
        &mut desk.server,
        handlers,
        entropy,
        &mut noted.handled,
        conn,
        payload,
    ) {
        Ok(answer) => send_answer(wire, conn, answer.as_slice(), false),
        Err(NoMemory) => send_answer(wire, conn, &WS_NO_MEMORY, true),
    }
}
