//! HTTP requests in pieces.

use anyhow::anyhow;
use edge_devices::Source;
use edge_http::{HttpFail, PollReader};
use std::alloc::Global;

// The bytes that are taken from the source at once.
const BLOCK: usize = 65_536;

/// What was read.
#[derive(Clone, Copy)]
pub struct Counts {
    pub requests: u64,
    pub bytes: u64,
}

impl Counts {
    fn with(self, len: usize) -> Counts {
        Counts {
            requests: self.requests.saturating_add(1),
            bytes: self.bytes.saturating_add(len as u64),
        }
    }
}

// Counts the requests that are whole.
fn take_all(reader: &mut PollReader, counts: Counts) -> Counts {
    let mut counts = counts;
    for _ in 0..u64::MAX {
        let Some(request) = reader.take() else {
            break;
        };
        counts = counts.with(request.body.as_slice().len());
    }
    counts
}

// Feeds a block in pieces, and counts the requests that it makes whole.
fn feed_block(
    reader: &mut PollReader,
    block: &[u8],
    size: usize,
    counts: Counts,
) -> Result<Counts, HttpFail> {
    let mut counts = counts;
    let mut rest = block;
    for _ in 0..block.len() {
        if rest.is_empty() {
            break;
        }
        let (piece, after) = rest.split_at(size.max(1).min(rest.len()));
        rest = after;
        reader.feed(piece)?;
        counts = take_all(reader, counts);
    }
    Ok(counts)
}

/// Feeds the requests of the source in pieces of this size, and counts them and the bytes of their bodies.
pub fn read_all<S: Source>(
    alloc: Global,
    source: &mut S,
    size: usize,
) -> Result<Counts, anyhow::Error> {
    let mut block = vec![in alloc; 0u8; BLOCK]?;
    let mut reader = PollReader::requests(alloc);
    let mut counts = Counts {
        requests: 0,
        bytes: 0,
    };
    for _ in 0..u64::MAX {
        let Ok(count) = source.take(block.as_mut_slice()) else {
            return Err(anyhow!("the input can't be read"));
        };
        if count == 0 {
            break;
        }
        counts = feed_block(&mut reader, &block.as_slice()[..count], size, counts)?;
    }
    Ok(counts)
}
