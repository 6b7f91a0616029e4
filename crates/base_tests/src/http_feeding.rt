// How tests feed a reader of HTTP.

use crate::comparing::expect_same;
use edge_http::{HttpFail, PollReader};
use std::alloc::Global;
use std::process::Abort;

/// What is read.
#[derive(Clone, Copy, Debug, PartialEq, Eq)]
pub enum Kind {
    Requests,
    Responses,
    Packages,
}

/// Bytes, how many messages they are, and how they fail, if they do, with the number of bytes behind which that is told.
#[derive(Clone, Copy, Debug)]
pub struct Case {
    pub kind: Kind,
    pub bytes: &'static [u8],
    pub messages: usize,
    pub failure: Option<(HttpFail, usize)>,
}

pub fn reader(alloc: Global, kind: Kind) -> PollReader {
    match kind {
        Kind::Requests => PollReader::requests(alloc),
        Kind::Responses => PollReader::responses(alloc),
        Kind::Packages => PollReader::packages(alloc),
    }
}

/// Feeds the bytes in pieces of a size, and answers the first failure with the number of bytes that were fed by then. Each
/// later piece is answered by the same failure.
pub fn feed_all(
    rt: &impl Abort,
    reader: &mut PollReader,
    bytes: &[u8],
    size: usize,
) -> Option<(HttpFail, usize)> {
    let mut first = None;
    let mut fed: usize = 0;
    let mut rest = bytes;
    for _ in 0..bytes.len() {
        if rest.is_empty() {
            break;
        }
        let (piece, after) = rest.split_at(size.max(1).min(rest.len()));
        rest = after;
        fed = fed.saturating_add(piece.len());
        let answer = reader.feed(piece);
        first = first_of(rt, first, answer, fed);
    }
    first
}

// The first failure so far. Behind it each answer is that failure.
fn first_of(
    rt: &impl Abort,
    first: Option<(HttpFail, usize)>,
    answer: Result<(), HttpFail>,
    fed: usize,
) -> Option<(HttpFail, usize)> {
    match (first, answer) {
        (Some((failure, at)), _) => {
            expect_same(rt, &answer, &Err(failure));
            Some((failure, at))
        }
        (None, Err(failure)) => Some((failure, fed)),
        (None, Ok(())) => None,
    }
}

/// Whether a message is ready. Takes it.
pub fn takes(reader: &mut PollReader) -> bool {
    let message = reader.take();
    let is_there = message.is_some();
    drop(message);
    is_there
}

/// How many messages are ready.
pub fn count(reader: &mut PollReader) -> usize {
    for messages in 0..1_000 {
        if !takes(reader) {
            return messages;
        }
    }
    1_000
}

/// Reads the bytes byte by byte, and cut in two at each place.
pub fn check(rt: &impl Abort, alloc: Global, case: Case) {
    check_bytewise(rt, alloc, case);
    for cut in 0..case.bytes.len() {
        check_halves(rt, alloc, case, &case.bytes[..cut], &case.bytes[cut..]);
    }
}

fn check_bytewise(rt: &impl Abort, alloc: Global, case: Case) {
    let mut bytewise = reader(alloc, case.kind);
    let failure = feed_all(rt, &mut bytewise, case.bytes, 1);
    let messages = count(&mut bytewise);
    drop(bytewise);
    expect_same(rt, &failure, &case.failure);
    expect_same(rt, &messages, &case.messages);
}

fn check_halves(rt: &impl Abort, alloc: Global, case: Case, first: &[u8], second: &[u8]) {
    let cut = first.len();
    let mut halves = reader(alloc, case.kind);
    let before = halves.feed(first);
    let after = halves.feed(second);
    let messages = count(&mut halves);
    drop(halves);
    expect_same(rt, &(cut, before), &(cut, answer(case.failure, cut)));
    expect_same(
        rt,
        &(cut, after),
        &(cut, answer(case.failure, case.bytes.len())),
    );
    expect_same(rt, &(cut, messages), &(cut, case.messages));
}

// What is answered behind so many bytes.
fn answer(failure: Option<(HttpFail, usize)>, fed: usize) -> Result<(), HttpFail> {
    match failure {
        Some((why, at)) if at <= fed => Err(why),
        _ => Ok(()),
    }
}
