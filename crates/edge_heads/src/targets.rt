// Whether bytes end inside a request's target.
ghost use Rattle.std.specs.Prelude.{◌≡◌, ◌≢◌, ◌↔◌, ℕ, ◌<◌, length, slice_index, EachIndex, IsTrue, MatchOption};
ghost use Rattle.std.specs.List.{list_all};
ghost use Rattle.httparse.specs.Ascii.{space};
ghost use Rattle.edge_heads.specs.declared.values.Side.TheVariants.{Requests};
ghost use Rattle.edge_heads.specs.Heads.{is_target_byte, EndsInTarget};
ghost use Rattle.edge_heads.specs.Targets.{IsUpToBlank, HasMethod};

use crate::HEADER_LIMIT;
use httparse::spans::{EMPTY_HEADER_SPAN, parse_request};
use httparse::{Error, Status};

fn first_blank(bytes: &[u8]) -> Option<usize>
    ensures { MatchOption result (EachIndex bytes.now (λ k. slice_index bytes.now k ≢ space))
        (λ at. (at < length bytes.now) × (slice_index bytes.now at ≡ space) × ((k : ℕ) → k < at → slice_index bytes.now k ≢ space)) }
{
    for (at, byte) in bytes.iter().enumerate() {
        if *byte == b' ' {
            return Some(at);
        }
    }
    None
}

fn has_no_end(bytes: &[u8]) -> bool
    ensures { result ≡ list_all is_target_byte bytes.now }
{
    bytes.iter().all(|byte| !(*byte == b' ' || *byte == b'\n'))
}

fn has_method(bytes: &[u8]) -> bool
    requires { IsUpToBlank bytes.now }
    ensures { IsTrue result ↔ HasMethod bytes.now }
{
    let mut headers = [EMPTY_HEADER_SPAN; HEADER_LIMIT];
    match parse_request(bytes, &mut headers) {
        Ok(Status::Complete(_)) => true,
        Ok(Status::Partial) => true,
        Err(Error::TooManyHeaders) => true,
        Err(_) => false,
    }
}

/// Whether the bytes end inside a request's target, which goes from the blank after the method to the next blank or line feed.
pub(crate) fn ends_in_target(bytes: &[u8]) -> bool
    ensures { IsTrue result ↔ EndsInTarget Requests bytes.now }
{
    let Some(at) = first_blank(bytes) else {
        return false;
    };
    let target = has_no_end(&bytes[at + 1..]);
    let method = has_method(&bytes[..at + 1]);
    target && method
}
