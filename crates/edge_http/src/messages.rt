// What is read: messages and their parts.

use edge_heads::HttpHead;
use plain_values::Blob;

/// A message (RFC 9112, section 2.1). Of a response the method and the target are empty, of a request the status is 0.
#[derive(Drop)]
pub struct HttpMessage {
    /// The method, as it stands there (RFC 9110, section 9).
    pub method: Blob,
    /// The target, as it stands there (RFC 9112, section 3.2).
    pub target: Blob,
    /// The status code (RFC 9110, section 15).
    pub status: u16,
    /// Whether a Content-Type is `application/x-protobuf` in any case of its letters, alone or before `;` or white space
    /// (OpAMP specification, "Plain HTTP Transport").
    pub protobuf: bool,
    /// Whether a Content-Encoding is there and isn't `identity` in any case of its letters (RFC 9110, section 8.4).
    pub coded: bool,
    /// Whether a Connection is `close` in any case of its letters, or the version is HTTP/1.0 (RFC 9112, section 9.3).
    pub close: bool,
    /// The body, without what its transfer in chunks added (RFC 9112, sections 6 and 7.1).
    pub body: Blob,
}

/// A part of a message, in the order in which they come: a head, bytes of the body, the end.
#[derive(Drop)]
pub enum Part {
    /// A message begins.
    Head(HttpHead),
    /// The next bytes of its body, one at least.
    Body(Blob),
    /// The message is whole.
    Done,
}

/// Where the message under way is.
#[derive(Clone, Copy)]
pub enum Stage {
    /// Its head is to come.
    Head,
    /// So many bytes of its body are to come.
    Sized { left: u64 },
    /// A chunk's size line is to come, after chunks of so many bytes.
    Size { sum: u64 },
    /// So many bytes of a chunk are to come. With them the chunks have `sum` bytes.
    Data { left: u64, sum: u64 },
    /// A chunk's ending is to come.
    Ending { sum: u64 },
    /// The trailer is to come.
    Trailer,
}
