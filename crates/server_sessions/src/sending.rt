//! What goes out on a connection.

ghost use Rattle.std.specs.Prelude.{◌≡◌, Some};
ghost use Rattle.edge_devices.specs.Wires.{IsOpen};
ghost use Rattle.edge_devices.specs.declared.wires.WireCall.TheVariants.{Closed};
ghost use Rattle.server_sessions.specs.Answers.{GoesOut};
ghost use Rattle.server_sessions.specs.Wiring.{IsDone, view_of};

use edge_devices::Wire;

/// Sends the answer, and closes the connection behind the last one. It tells whether the connection stays.
pub fn send_answer<W: Wire>(wire: &mut W, conn: u64, bytes: &[u8], closes: bool) -> bool
    requires open { IsOpen (W.calls wire.old) conn }
    ensures goes_out { GoesOut conn (Some bytes.now) closes (view_of (W.calls wire.old) (W.faults wire.old)) (view_of (W.calls wire.new) (W.faults wire.new)) result }
{
    if wire.send(conn, bytes).is_err() {
        return false;
    }
    if closes {
        close_open(wire, conn);
        return false;
    }
    true
}

/// Closes a connection that is open.
pub fn close_open<W: Wire>(wire: &mut W, conn: u64)
    requires open { IsOpen (W.calls wire.old) conn }
    ensures done { IsDone (Closed conn) (view_of (W.calls wire.old) (W.faults wire.old)) (view_of (W.calls wire.new) (W.faults wire.new)) }
{
    wire.close(conn);
}
