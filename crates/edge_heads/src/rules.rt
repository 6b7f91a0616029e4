// What the header lines of a head say.
ghost use Rattle.std.specs.Prelude.{◌≡◌, ◌≤◌, ◌<◌, ℕ, length, All, codes, MatchOption, IsTrue, true, false};
ghost use Rattle.std.specs.Str.Parse.{digits_value};
ghost use Rattle.httparse.specs.Spans.{header_bytes, IsHeaderWithin};
ghost use Rattle.edge_heads.specs.Headers.{ends_type as ends_type_at, values, is_named, has_value, is_protobuf as protobuf_test, is_length, is_chunked as chunked_test, body_form as form_of_headers};
ghost use Rattle.edge_heads.specs.Rules.{headers_at, IsLone, one_more_of, rule_test};

use crate::values::BodyForm;
use httparse::spans::{HeaderSpan, Span};

// How often a header stands there.
#[derive(Clone, Copy, Debug, PartialEq, Eq)]
enum Lone {
    Nowhere,
    Once(Span),
    Several,
}

// A rule on a header's value.
#[derive(Clone, Copy, Debug, PartialEq, Eq)]
pub(crate) enum Rule {
    Protobuf,
    Coded,
    Close,
}

fn is_name(bytes: &[u8], header: HeaderSpan, name: &[u8]) -> bool
    requires within { IsHeaderWithin (length bytes.now) header }
    ensures { result ≡ is_named name.now (header_bytes bytes.now header) }
{
    header.name.of(bytes).eq_ignore_ascii_case(name)
}

fn find_lone(bytes: &[u8], headers: &[HeaderSpan], name: &[u8]) -> Lone
    requires within { All (IsHeaderWithin (length bytes.now)) headers.now }
    ensures { IsLone bytes.now (values name.now (headers_at bytes.now headers.now)) result }
{
    let mut found = Lone::Nowhere;
    for header in headers {
        if is_name(bytes, *header, name) {
            found = one_more(found, header.value);
        }
    }
    found
}

fn one_more(found: Lone, value: Span) -> Lone
    ensures { result ≡ one_more_of found value }
{
    match found {
        Lone::Nowhere => Lone::Once(value),
        Lone::Once(_) | Lone::Several => Lone::Several,
    }
}

fn is_protobuf(value: &[u8]) -> bool
    ensures { result ≡ protobuf_test value.now }
{
    let name = b"application/x-protobuf";
    if value.len() < 22 {
        return false;
    }
    value[..22].eq_ignore_ascii_case(name.as_slice()) && ends_type(&value[22..])
}

fn ends_type(rest: &[u8]) -> bool
    ensures { result ≡ ends_type_at rest.now }
{
    match rest {
        [] => true,
        [first, ..] => *first == b';' || *first == b' ' || *first == b'\t',
    }
}

fn is_chunked(value: &[u8]) -> bool
    ensures { result ≡ chunked_test value.now }
{
    value.eq_ignore_ascii_case(b"chunked")
}

fn holds(rule: Rule, value: &[u8]) -> bool
    ensures { result ≡ rule_test rule value.now }
{
    match rule {
        Rule::Protobuf => is_protobuf(value),
        Rule::Coded => !value.eq_ignore_ascii_case(b"identity"),
        Rule::Close => value.eq_ignore_ascii_case(b"close"),
    }
}

pub(crate) fn any_value(bytes: &[u8], headers: &[HeaderSpan], name: &[u8], rule: Rule) -> bool
    requires within { All (IsHeaderWithin (length bytes.now)) headers.now }
    ensures { result ≡ has_value name.now (rule_test rule) (headers_at bytes.now headers.now) }
{
    for header in headers {
        if is_name(bytes, *header, name) && holds(rule, header.value.of(bytes)) {
            return true;
        }
    }
    false
}

fn decimal(digits: &[u8]) -> Option<u64>
    ensures { MatchOption result (is_length digits.now ≡ false) (λ n. (is_length digits.now ≡ true) × (n ≡ digits_value 10 digits.now)) }
{
    if digits.is_empty() || digits.len() > 19 {
        return None;
    }
    let mut number: u64 = 0;
    for digit in digits {
        if !digit.is_ascii_digit() {
            return None;
        }
        number = number * 10 + (*digit - b'0') as u64;
    }
    Some(number)
}

pub(crate) fn body_form(bytes: &[u8], headers: &[HeaderSpan]) -> BodyForm
    requires within { All (IsHeaderWithin (length bytes.now)) headers.now }
    ensures { result ≡ form_of_headers (headers_at bytes.now headers.now) }
{
    let size = find_lone(bytes, headers, b"content-length");
    let coding = find_lone(bytes, headers, b"transfer-encoding");
    match (size, coding) {
        (Lone::Nowhere, Lone::Nowhere) => BodyForm::Missing,
        (Lone::Once(value), Lone::Nowhere) => match decimal(value.of(bytes)) {
            Some(number) => BodyForm::Sized(number),
            None => BodyForm::Wrong,
        },
        (Lone::Nowhere, Lone::Once(value)) => {
            if is_chunked(value.of(bytes)) {
                BodyForm::Chunked
            } else {
                BodyForm::Wrong
            }
        }
        (Lone::Once(_), Lone::Once(_)) => BodyForm::Wrong,
        (Lone::Several, _) => BodyForm::Wrong,
        (_, Lone::Several) => BodyForm::Wrong,
    }
}
