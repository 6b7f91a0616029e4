//! The server's sockets: a [`Wire`](edge_devices::Wire) over TCP in one thread, which waits for all sockets at once.
//!
//! Connections speak HTTP, WebSocket or an operator's lines, by the address that they came to. No peer ends the run:
//! whatever it does, its own connection ends at most.
#![tactic(auto)]

mod board;
mod connection;
mod counts;
mod faults;
mod laws;
mod listeners;
mod net_wire;
mod places;
mod silence;
mod stage;
mod timers;

pub use laws::{refusal, silence_limits, wire_limits};
pub use net_wire::NetWire;
pub use silence::{Due, due_after, due_from, second_from};

/// The most bytes of a piece of a stream.
pub const PIECE_LIMIT: usize = 16_384;
/// The most bytes that may wait to be sent on one connection. A send that would pass it is lost.
pub const UNSENT_LIMIT: usize = 67_108_864;
/// How many connections have a place where no number is given: the 1,024 that a server knows, and 256 that are in their
/// handshake, are refused above, or only have something left to send.
pub const PLACES: usize = 1_280;
/// How many connections have a place at most: the 65,536 that a server may know, and as many others.
pub const PLACES_LIMIT: usize = 131_072;
/// How many steps of connections may go by without a look at the sockets.
pub const TURNS: u32 = 64;
/// The answer to what is no handshake of WebSocket, behind which the connection ends (RFC 9110, 15.5.1).
pub const BAD_REQUEST: [u8; 66] =
    *b"HTTP/1.1 400 Bad Request\r\nContent-Length: 0\r\nConnection: close\r\n\r\n";
/// How long a handshake may take, in milliseconds.
pub const GREETING_MILLIS: u64 = 10_000;
/// How long a connection that ends may take to send what waits, and for its peer to end, in milliseconds.
pub const ENDING_MILLIS: u64 = 10_000;
/// The most bytes that are dropped of what a peer still sends when its connection ends.
pub const DRAIN_LIMIT: u64 = 1_048_576;
/// How long nothing may come on an HTTP connection, in milliseconds.
pub const HTTP_SILENCE: u64 = 120_000;
/// After how long a silence a WebSocket connection is pinged, in milliseconds.
pub const WS_PING: u64 = 60_000;
/// How long nothing may come on a WebSocket connection, in milliseconds.
pub const WS_SILENCE: u64 = 120_000;
/// How often it is looked which connections have something due because of the time, in milliseconds.
pub const SWEEP_MILLIS: u64 = 1_000;
/// After how long a listener is tried again that could take no connection, in milliseconds.
pub const RETRY_MILLIS: u64 = 100;
