//! Requests of HTTP.

ghost use Rattle.std.specs.Prelude.{◌≡◌, ◌==◌, ℕ, [], IfOk, OnErr, position};
ghost use Rattle.std.specs.Prelude.{List as Items};
ghost use Rattle.edge_http.specs.Streams.{with_body};
ghost use Rattle.edge_http.specs.Writing.{response_text};
ghost use Rattle.server_sessions.specs.Reports.{HalfReads, intake_of, host_of};
ghost use Rattle.server_sessions.specs.Bodies.{HasCome};
ghost use Rattle.server_sessions.specs.Requests.{AnswersBody, failure_answer, path_in, refusal_of, status_of};

use crate::answers::answering::{Envelope, answer_report};
use crate::answers::bodies::BodyReader;
use crate::answers::stepped::Handled;
use edge_devices::Entropy;
use edge_http::{HttpFail, HttpHead, response_bytes};
use message_handlers::{Handler, Handlers};
use plain_values::{Blob, List, NoMemory};
use server_core::Server;
use std::alloc::Global;

fn place_of_query(target: &[u8]) -> Option<usize>
    ensures { result ≡ position (λ byte. byte == 63) target.now }
{
    target.iter().position(|byte| *byte == b'?')
}

// The target before any `?`.
fn path_of(target: &[u8]) -> &[u8]
    ensures { result.now ≡ path_in target.now }
{
    match place_of_query(target) {
        Some(end) => target.get(..end).unwrap_or(target),
        None => target,
    }
}

/// The status of a request that is refused by its head, whatever its body is (RFC 9110, section 15.5); none where its body is to
/// be read. Takes no memory.
#[tactic(auto, unfolding(crate::specs::Requests::refusal_of))]
pub fn refusal_of(head: &HttpHead) -> Option<u16>
    ensures status { result ≡ refusal_of (with_body head.now []) }
{
    if path_of(head.target.as_slice()) != b"/v1/opamp".as_slice() {
        Some(404)
    } else if head.method.as_slice() != b"POST".as_slice() {
        Some(405)
    } else if !head.protobuf || head.coded {
        Some(415)
    } else {
        None
    }
}

// The status of a reader's failure.
fn status_of(failure: HttpFail) -> u16
    ensures { result ≡ status_of failure }
{
    match failure {
        HttpFail::BadHead | HttpFail::NoLength | HttpFail::BadChunk => 400,
        HttpFail::HeadTooLong | HttpFail::TooManyHeaders => 431,
        HttpFail::BodyTooLarge => 413,
        HttpFail::NoMemory => 503,
    }
}

/// The response that answers a reader's failure, behind which the connection is closed.
pub fn failure_bytes(alloc: Global, failure: HttpFail) -> Result<Blob, NoMemory>
    ensures bytes { IfOk result (λ bytes. bytes ≡ failure_answer failure) }
{
    response_bytes(alloc, status_of(failure), &[], true)
}

/// The response to a request that its head refuses with this status.
pub fn refusal_bytes(alloc: Global, status: u16, closes: bool) -> Result<Blob, NoMemory>
    ensures bytes { IfOk result (λ bytes. bytes ≡ response_text status [] closes) }
{
    response_bytes(alloc, status, &[], closes)
}

/// The response to a request that its head doesn't refuse, once its body is whole (OpAMP specification, "Plain HTTP Transport").
///
/// A report that was answered without error is noted. Where memory is wanting none is, and the server took the report or not.
pub fn answer_body<E: Entropy>(
    alloc: Global,
    server: &mut Server,
    handlers: &Handlers,
    entropy: &mut E,
    handled: &mut List<Handled>,
    conn: u64,
    body: BodyReader,
    closes: bool,
) -> Result<Blob, NoMemory>
    ensures answers { IfOk result (λ answer. (bytes : Items ℕ) → HasCome body bytes
        → AnswersBody (host_of answers server.old.profile handlers.now) conn bytes closes
        (intake_of (E.state entropy.old) server.old.table) (intake_of (E.state entropy.new) server.new.table) handled.old handled.new answer) }
    ensures half { OnErr result ((bytes : Items ℕ) → HasCome body bytes
        → HalfReads bytes (intake_of (E.state entropy.old) server.old.table) (intake_of (E.state entropy.new) server.new.table)) }
    ensures handled { OnErr result (handled.new ≡ handled.old) }
    ensures profile { server.new.profile ≡ server.old.profile }
{
    match body.end() {
        Ok(Some(mut report)) => {
            let envelope = Envelope::Response { closes };
            let answer = answer_report(
                alloc,
                server,
                handlers,
                entropy,
                handled,
                conn,
                envelope,
                &mut report,
            );
            drop(report);
            answer
        }
        Ok(None) => response_bytes(alloc, 400, &[], closes),
        Err(NoMemory) => Err(NoMemory),
    }
}
