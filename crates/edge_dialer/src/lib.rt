//! The agent's connections to its servers: a [`Dialer`](edge_devices::Dialer) over TCP, which speaks HTTP/1.1 (RFC 9112) and
//! WebSocket (RFC 6455).
//!
//! Whatever a server does, a call of the dialer ends: each wait has its limit of time, and each thing that is read its
//! limit of bytes.
#![tactic(auto)]

mod answers;
mod connecting;
mod counts;
mod failures;
mod greeting;
mod headers;
mod http_link;
mod laws;
mod messages;
mod net_dialer;
mod targets;
mod timed;
mod ws_link;

pub use laws::{dial_limits, dial_times};
pub use net_dialer::{NetDialer, NetLink};

/// How long one address may take to be connected to, in milliseconds.
pub const CONNECT_MILLIS: u64 = 10_000;
/// How many addresses of a host are tried.
pub const ADDRESS_LIMIT: usize = 8;
/// How long the handshake of a WebSocket connection may take, in milliseconds.
pub const GREETING_MILLIS: u64 = 10_000;
/// How long an exchange may take, its writes and reads together, in milliseconds.
pub const EXCHANGE_MILLIS: u64 = 10_000;
/// How long the fetch of a package may take, its writes and reads together, in milliseconds.
pub const FETCH_MILLIS: u64 = 60_000;
/// The most bytes that one read of a socket gives.
pub const PIECE_LIMIT: usize = 16_384;
/// The most bytes of a WebSocket message: the largest message of OpAMP, 4,194,304 bytes, behind its header, which is one
/// byte (OpAMP specification, "WebSocket Message Format").
pub const WS_MESSAGE_LIMIT: usize = 4_194_305;
/// Fewer WebSocket messages than so many are passed over in one exchange before the question, and fewer behind it.
pub const OTHER_LIMIT: u32 = 1_024;
