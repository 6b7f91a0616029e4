// What is told of a head, and why reading fails.
ghost use Rattle.std.specs.Prelude.{◌≡◌};
ghost use Rattle.edge_heads.specs.declared.values.HttpFail.TheVariants.{NoMemory as WantsMemory};

use plain_values::Blob;
use std::alloc::{AllocError, AllocFailed};
use thiserror::Error;

/// Why reading HTTP messages fails.
#[derive(Clone, Copy, Debug, PartialEq, Eq, Error)]
pub enum HttpFail {
    /// No head can come of the bytes (RFC 9112, sections 2 to 5), or what a head says of its body's length breaks a rule
    /// (RFC 9112, sections 6.1 to 6.3).
    #[error("no head can come of the bytes")]
    BadHead,
    /// A head is longer than 16,384 bytes.
    #[error("the head is longer than 16,384 bytes")]
    HeadTooLong,
    /// A head has more than 64 header lines.
    #[error("the head has more than 64 header lines")]
    TooManyHeaders,
    /// A response doesn't say how long its body is.
    #[error("the response doesn't say how long its body is")]
    NoLength,
    /// A chunked body isn't of the grammar (RFC 9112, section 7.1), or has a size line or a trailer longer than 16,384 bytes.
    #[error("the chunked body isn't of the grammar")]
    BadChunk,
    /// A body is longer than the limit.
    #[error("the body is longer than the limit")]
    BodyTooLarge,
    /// There was no memory.
    #[error("there was no memory")]
    NoMemory,
}

impl From<AllocError> for HttpFail {
    ghost from_gives = { λ _ e. e ≡ WantsMemory };

    /// The allocator refused.
    fn from(_error: AllocError) -> HttpFail {
        HttpFail::NoMemory
    }
}

impl<T: Drop> From<AllocFailed<T>> for HttpFail {
    ghost from_gives = { λ _ e. e ≡ WantsMemory };

    /// The allocator refused, and the value that there was no room for is dropped.
    fn from(_error: AllocFailed<T>) -> HttpFail {
        HttpFail::NoMemory
    }
}

/// Which messages are read.
#[derive(Clone, Copy, Debug, PartialEq, Eq)]
pub enum Side {
    /// Requests, as a server reads them.
    Requests,
    /// Responses, as a client reads them.
    Responses,
}

/// What a head says of its body's length (RFC 9112, section 6.3).
#[derive(Clone, Copy, Debug, PartialEq, Eq)]
pub enum BodyForm {
    /// It has so many bytes.
    Sized(u64),
    /// It comes in chunks.
    Chunked,
    /// Nothing is said.
    Missing,
    /// What is said can't be right.
    Wrong,
}

/// What is told of a message's head. Of a response the method and the target are empty, of a request the status is 0.
#[derive(Drop)]
pub struct HttpHead {
    /// The method, as it stands there (RFC 9110, section 9).
    pub method: Blob,
    /// The target, as it stands there (RFC 9112, section 3.2).
    pub target: Blob,
    /// The status code (RFC 9110, section 15).
    pub status: u16,
    /// Whether a Content-Type is `application/x-protobuf` in any case of its letters, alone or before `;` or white space
    /// (OpAMP specification, "Plain HTTP Transport").
    pub protobuf: bool,
    /// Whether a Content-Encoding is there and isn't `identity` in any case of its letters (RFC 9110, section 8.4).
    pub coded: bool,
    /// Whether a Connection is `close` in any case of its letters, or the version is HTTP/1.0 (RFC 9112, section 9.3).
    pub close: bool,
}
