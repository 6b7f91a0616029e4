//! What stands between the contents of HTTP/1.1 messages: their heads, and the size lines, endings and trailers of
//! chunked bodies (RFC 9112, sections 2 to 7).
//!
//! Each function is given the bytes at hand and says what stands at their front: it is whole, or it is begun and more
//! bytes can make it whole, or none can come whatever follows.
#![tactic(auto)]

mod buffer;
mod chunks;
mod heads;
mod laws;
mod limits;
mod places;
mod rules;
mod targets;
mod values;

pub use buffer::HeadBuffer;
pub use chunks::{Found, LineFound, ending, size_line, trailer};
pub use heads::HeadFound;
pub use laws::{head_limits, one_head};
pub use values::{BodyForm, HttpFail, HttpHead, Side};

/// The most bytes of a head, of a chunk's size line and of a trailer.
pub const HEAD_LIMIT: usize = 16_384;
/// The most header lines of a head.
pub const HEADER_LIMIT: usize = 64;
/// The lines of the longest head: its first line, its header lines and the empty line.
pub const LINE_LIMIT: usize = 66;
