//! HTTP/1.1 messages (RFC 9112) as the plain HTTP transport of OpAMP carries them, read from pieces however they are
//! cut, and written.
//!
//! A [`PartReader`] gives the parts of messages as they come, and a [`PollReader`] whole messages.
#![tactic(auto)]

mod laws;
mod messages;
mod part_reader;
mod poll_reader;
mod writing;

pub use edge_heads::{HttpFail, HttpHead, Side};
pub use laws::{body_limits, one_body, one_reading, one_stream};
pub use messages::{HttpMessage, Part};
pub use part_reader::PartReader;
pub use poll_reader::PollReader;
pub use writing::{get_bytes, request_bytes, response_bytes};

/// The most bytes of a body.
pub const BODY_LIMIT: u64 = 4_194_304;
/// The most bytes of a package.
pub const PACKAGE_LIMIT: u64 = 16_777_216;
