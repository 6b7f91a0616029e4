//! Connections to hosts.

use crate::failures::system_fail;
use crate::timed::Timed;
use crate::{ADDRESS_LIMIT, CONNECT_MILLIS};
use edge_devices::LinkFail;
use std::net::{Net, OpenStream, SocketAddr, TcpStream, ToSocketAddrs};
use std::time::{Clock, Duration};

// A connection to the host's port: its first addresses are tried in turn. Looking up a name takes as long as the system
// takes for it.
pub(crate) fn connect<R: Net + Clock + Copy + Drop>(
    runtime: R,
    host: &str,
    port: u16,
) -> Result<Timed<R>, LinkFail> {
    let addresses = match (host, port).to_socket_addrs(&runtime) {
        Ok(addresses) => addresses,
        Err(error) => return Err(system_fail(&error)),
    };
    for address in addresses.take(ADDRESS_LIMIT) {
        if let Some(stream) = connect_to(runtime, &address) {
            return Ok(stream);
        }
    }
    Err(LinkFail::Fault)
}

// A connection to the address, if it can be made in time.
fn connect_to<R: Net + Clock + Copy + Drop>(runtime: R, address: &SocketAddr) -> Option<Timed<R>> {
    let limit = Duration::from_millis(CONNECT_MILLIS);
    match TcpStream::connect_timeout(&runtime, address, limit) {
        Ok(stream) => {
            let _ = stream.set_nodelay(true);
            Some(Timed::new(runtime, stream))
        }
        Err(_) => None,
    }
}
