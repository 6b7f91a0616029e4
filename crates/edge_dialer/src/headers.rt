//! The headers that a server wants with each request or handshake.

ghost use Rattle.std.specs.Prelude.{◌≡◌, IfOk};
ghost use Rattle.edge_dialer.specs.Greetings.{field_of};

use edge_devices::LinkFail;
use http::header::{HeaderNameError, HeaderValueError};
use http::{HeaderName, HeaderValue};
use plain_values::{Header, Headers, Plain};
use std::alloc::Global;

// The name and the value of a header. One whose name is no token, or whose value has a byte that none may have, is a
// fault (RFC 9110, 5.1 and 5.5): it could end the header and begin another one.
pub(crate) fn header_parts(
    alloc: Global,
    header: &Header,
) -> Result<(HeaderName, HeaderValue), LinkFail>
    ensures parts { IfOk result (λ pair. pair ≡ field_of header.now) }
{
    let name = match HeaderName::from_bytes(alloc, header.key.as_str().as_bytes()) {
        Ok(name) => name,
        Err(HeaderNameError::OutOfMemory) => return Err(LinkFail::NoMemory),
        Err(_) => return Err(LinkFail::Fault),
    };
    match HeaderValue::from_bytes(alloc, header.value.as_str().as_bytes()) {
        Ok(value) => Ok((name, value)),
        Err(HeaderValueError::OutOfMemory) => Err(LinkFail::NoMemory),
        Err(_) => Err(LinkFail::Fault),
    }
}

// A copy of headers that are headers of HTTP.
pub(crate) fn checked(alloc: Global, headers: &Headers) -> Result<Headers, LinkFail>
    ensures { IfOk result (λ copy. copy ≡ headers.now) }
{
    for header in headers.headers.as_slice() {
        let _parts = header_parts(alloc, header)?;
    }
    Ok(headers.copy(alloc)?)
}
