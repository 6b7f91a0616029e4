//! Why an address can't be listened to.

ghost use Rattle.std.specs.Prelude.{◌≡◌};
ghost use Rattle.std.specs.IoError.{error_kind};
ghost use Rattle.edge_wire.specs.Faults.{fault_by};

use edge_devices::WireFault;
use std::io;
use std::io::ErrorKind;

/// What a failure of the system means.
pub(crate) fn fault_of(error: &io::Error) -> WireFault
    ensures cause { result ≡ fault_by (error_kind error.now) }
{
    match error.kind() {
        ErrorKind::AddrInUse => WireFault::InUse,
        ErrorKind::AddrNotAvailable => WireFault::NotHere,
        ErrorKind::PermissionDenied => WireFault::NotPermitted,
        _ => WireFault::Failed,
    }
}
