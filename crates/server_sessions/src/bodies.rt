//! The requests of a connection of HTTP, read as their bytes come.

ghost use Rattle.std.specs.Prelude.{[], Option, None, Some, OnOk};
ghost use Rattle.edge_http.specs.declared.messages.HttpMessage.{HttpMessage as MessageOf};
ghost use Rattle.edge_http.specs.Joined.{with_bytes};
ghost use Rattle.edge_http.specs.Streams.{with_body};
ghost use Rattle.server_sessions.specs.UnderWay.{HasReadAll, IsUnderWay};

use crate::answers::{BodyReader, refusal_of};
use edge_http::{HttpHead, PartReader};
use plain_values::NoMemory;
use std::alloc::Global;

/// A reader of the requests of a connection, which keeps no body: it is read as it comes, or passed over.
#[derive(Drop)]
pub struct RequestReader {
    /// What gives the parts of the requests.
    pub parts: PartReader,
    /// Where the request under way stands.
    pub progress: Progress,
}

/// Where the request under way stands.
#[derive(Drop)]
pub enum Progress {
    /// Its head is to come.
    Waiting,
    /// Its head isn't refused, and its body is read.
    Reading { body: BodyReader, close: bool },
    /// Its head is refused with this status, and its body is passed over.
    PassingOver { status: u16, close: bool },
}

impl RequestReader {
    /// A reader to which nothing came. Takes no memory.
    pub fn new(alloc: Global) -> RequestReader
        ensures nothing { HasReadAll result [] }
    {
        RequestReader {
            parts: PartReader::requests(alloc),
            progress: Progress::Waiting,
        }
    }
}

/// Where a request stands behind its head. Takes no memory.
pub fn begin(alloc: Global, head: &HttpHead) -> Progress
    ensures begun { IsUnderWay result (Some (with_body head.now [])) }
{
    match refusal_of(head) {
        Some(status) => Progress::PassingOver {
            status,
            close: head.close,
        },
        None => Progress::Reading {
            body: BodyReader::new(alloc),
            close: head.close,
        },
    }
}

/// Reads the body of the request under way on, or passes over these bytes of it.
pub fn read_on(alloc: Global, progress: &mut Progress, bytes: &[u8]) -> Result<(), NoMemory>
    ensures read { OnOk result ((under_way : Option MessageOf) → IsUnderWay progress.old under_way → IsUnderWay progress.new (with_bytes under_way bytes.now)) }
{
    match progress {
        Progress::Reading { body, .. } => body.feed(alloc, bytes),
        Progress::Waiting => Ok(()),
        Progress::PassingOver { .. } => Ok(()),
    }
}
