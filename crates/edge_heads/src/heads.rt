// The head at the front of the bytes.
ghost use Rattle.std.specs.Prelude.{◌≡◌, ◌≤◌, ◌<◌, ◌↔◌, length, All, IfOk, IfErr, IsTrue};
ghost use Rattle.httparse.specs.declared.Error.TheVariants.{TooManyHeaders};
ghost use Rattle.httparse.specs.Spans.{IsHeaderWithin, IsRequestWithin, IsResponseWithin, IsRequestOf, IsResponseOf};
ghost use Rattle.edge_heads.specs.declared.values.Side.TheVariants.{Requests, Responses};
ghost use Rattle.edge_heads.specs.Heads.{form_on, head_with, is_closing as closing};
ghost use Rattle.edge_heads.specs.Rules.{headers_at};
ghost use Rattle.edge_heads.specs.Parsing.{ParsedIs, FoundIs, HeadFails};

use crate::limits::head_end;
use crate::rules::{Rule, any_value, body_form};
use crate::targets::ends_in_target;
use crate::values::{BodyForm, HttpFail, HttpHead, Side};
use crate::{HEAD_LIMIT, HEADER_LIMIT};
use httparse::spans::{
    EMPTY_HEADER_SPAN, HeaderSpan, RequestSpans, ResponseSpans, parse_request, parse_response,
};
use httparse::{Error, Status};
use plain_values::Blob;
use std::alloc::{AllocError, Global};

/// What stands at the front where a head is to come.
#[derive(Drop)]
pub enum HeadFound {
    /// A head of `len` bytes, what is told of it, and what it says of its body's length. Of a request without a header on
    /// its body's length that is a size of 0.
    Whole {
        head: HttpHead,
        form: BodyForm,
        len: usize,
    },
    /// Less than a head.
    More,
}

// What the parser says of the part that can be of a head.
#[derive(Drop)]
enum Parsed {
    Whole {
        head: HttpHead,
        form: BodyForm,
        len: usize,
    },
    Unfinished,
    Never,
}

fn blob_of(alloc: Global, bytes: &[u8]) -> Result<Blob, AllocError>
    ensures { IfOk result (λ b. b ≡ bytes.now) }
{
    Ok(Blob::of(Vec::from_slice(alloc, bytes)?))
}

fn head_of(
    alloc: Global,
    bytes: &[u8],
    method: &[u8],
    target: &[u8],
    status: u16,
    version: u8,
    headers: &[HeaderSpan],
) -> Result<HttpHead, AllocError>
    requires within { All (IsHeaderWithin (length bytes.now)) headers.now }
    ensures { IfOk result (λ h. h ≡ head_with method.now target.now status version (headers_at bytes.now headers.now)) }
{
    Ok(HttpHead {
        method: blob_of(alloc, method)?,
        target: blob_of(alloc, target)?,
        status,
        protobuf: any_value(bytes, headers, b"content-type", Rule::Protobuf),
        coded: any_value(bytes, headers, b"content-encoding", Rule::Coded),
        close: is_closing(bytes, headers, version),
    })
}

fn is_closing(bytes: &[u8], headers: &[HeaderSpan], version: u8) -> bool
    requires within { All (IsHeaderWithin (length bytes.now)) headers.now }
    ensures { result ≡ closing version (headers_at bytes.now headers.now) }
{
    let asked = any_value(bytes, headers, b"connection", Rule::Close);
    version == 0 || asked
}

fn request_form(form: BodyForm) -> BodyForm
    ensures { result ≡ form_on Requests form }
{
    match form {
        BodyForm::Missing => BodyForm::Sized(0),
        BodyForm::Sized(size) => BodyForm::Sized(size),
        BodyForm::Chunked => BodyForm::Chunked,
        BodyForm::Wrong => BodyForm::Wrong,
    }
}

fn whole_request(
    alloc: Global,
    bytes: &[u8],
    spans: &[HeaderSpan],
    found: RequestSpans,
) -> Result<Parsed, AllocError>
    requires within { IsRequestWithin bytes.now spans.now found }
    requires is { IsRequestOf bytes.now spans.now found }
    requires room { length spans.now ≤ HEADER_LIMIT }
    ensures { IfOk result (ParsedIs Requests bytes.now) }
{
    let headers = &spans[..found.headers];
    let form = request_form(body_form(bytes, headers));
    let method = found.method.of(bytes);
    let target = found.path.of(bytes);
    let head = head_of(alloc, bytes, method, target, 0, found.version, headers)?;
    Ok(Parsed::Whole {
        head,
        form,
        len: found.len,
    })
}

fn whole_response(
    alloc: Global,
    bytes: &[u8],
    spans: &[HeaderSpan],
    found: ResponseSpans,
) -> Result<Parsed, AllocError>
    requires within { IsResponseWithin bytes.now spans.now found }
    requires is { IsResponseOf bytes.now spans.now found }
    requires room { length spans.now ≤ HEADER_LIMIT }
    ensures { IfOk result (ParsedIs Responses bytes.now) }
{
    let headers = &spans[..found.headers];
    let form = body_form(bytes, headers);
    let head = head_of(alloc, bytes, &[], &[], found.code, found.version, headers)?;
    Ok(Parsed::Whole {
        head,
        form,
        len: found.len,
    })
}

fn is_too_many(error: Error) -> bool
    ensures { IsTrue result ↔ (error ≡ TooManyHeaders) }
{
    match error {
        Error::TooManyHeaders => true,
        _ => false,
    }
}

fn parse_as_request(alloc: Global, bytes: &[u8]) -> Result<Parsed, AllocError>
    ensures { IfOk result (ParsedIs Requests bytes.now) }
{
    let mut spans = [EMPTY_HEADER_SPAN; HEADER_LIMIT];
    match parse_request(bytes, &mut spans) {
        Ok(Status::Complete(found)) => whole_request(alloc, bytes, &spans, found),
        Ok(Status::Partial) => Ok(Parsed::Unfinished),
        Err(error) => {
            if is_too_many(error) {
                Ok(Parsed::Unfinished)
            } else if ends_in_target(bytes) {
                Ok(Parsed::Unfinished)
            } else {
                Ok(Parsed::Never)
            }
        }
    }
}

fn parse_as_response(alloc: Global, bytes: &[u8]) -> Result<Parsed, AllocError>
    ensures { IfOk result (ParsedIs Responses bytes.now) }
{
    let mut spans = [EMPTY_HEADER_SPAN; HEADER_LIMIT];
    match parse_response(bytes, &mut spans) {
        Ok(Status::Complete(found)) => whole_response(alloc, bytes, &spans, found),
        Ok(Status::Partial) => Ok(Parsed::Unfinished),
        Err(error) => {
            if is_too_many(error) {
                Ok(Parsed::Unfinished)
            } else {
                Ok(Parsed::Never)
            }
        }
    }
}

fn parse_head(alloc: Global, side: Side, bytes: &[u8]) -> Result<Parsed, AllocError>
    ensures { IfOk result (ParsedIs side bytes.now) }
{
    match side {
        Side::Requests => parse_as_request(alloc, bytes),
        Side::Responses => parse_as_response(alloc, bytes),
    }
}

/// Reads the head at the front.
pub(crate) fn read_head(alloc: Global, side: Side, bytes: &[u8]) -> Result<HeadFound, HttpFail>
    ensures found { IfOk result (FoundIs side bytes.now) }
    ensures fails { IfErr result (HeadFails side bytes.now) }
{
    let limit = head_end(bytes);
    match parse_head(alloc, side, &bytes[..limit.end])? {
        Parsed::Whole { head, form, len } => Ok(HeadFound::Whole { head, form, len }),
        Parsed::Never => Err(HttpFail::BadHead),
        Parsed::Unfinished => {
            if limit.end == HEAD_LIMIT {
                Err(HttpFail::HeadTooLong)
            } else if limit.all_lines {
                Err(HttpFail::TooManyHeaders)
            } else {
                Ok(HeadFound::More)
            }
        }
    }
}
