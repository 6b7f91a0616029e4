//! Failures of sockets and readers as those of links and dials.

ghost use Rattle.std.specs.Prelude.{◌≡◌, ◌↔◌};
ghost use Rattle.std.specs.IoError.{error_kind};
ghost use Rattle.edge_dialer.specs.Answers.{dial_fail_of, link_fail_of};
ghost use Rattle.edge_dialer.specs.Failures.{IsWanting};

use edge_devices::{DialFail, LinkFail};
use edge_http::HttpFail;
use std::io;
use std::io::ErrorKind;
use tungstenite::Error;

// A failure of a link, where a dial or a fetch made it.
pub(crate) fn dial_fail(fail: LinkFail) -> DialFail
    ensures { result ≡ dial_fail_of fail }
{
    match fail {
        LinkFail::Fault => DialFail::Fault,
        LinkFail::NoMemory => DialFail::NoMemory,
    }
}

// What an error of the system is to a link: want of memory exactly where its kind says so.
pub(crate) fn system_fail(error: &io::Error) -> LinkFail
    ensures want { (result ≡ LinkFail.NoMemory) ↔ (error_kind error.now ≡ ErrorKind.OutOfMemory) }
{
    match error.kind() {
        ErrorKind::OutOfMemory => LinkFail::NoMemory,
        _ => LinkFail::Fault,
    }
}

// What a failure of reading a response is to a link.
pub(crate) fn reader_fail(fail: HttpFail) -> LinkFail
    ensures { result ≡ link_fail_of fail }
{
    match fail {
        HttpFail::NoMemory => LinkFail::NoMemory,
        HttpFail::BadHead
        | HttpFail::HeadTooLong
        | HttpFail::TooManyHeaders
        | HttpFail::NoLength
        | HttpFail::BadChunk
        | HttpFail::BodyTooLarge => LinkFail::Fault,
    }
}

// What an error of the protocol is to a link: want of memory exactly where it says so, or the system's error under it does.
pub(crate) fn protocol_fail(error: &Error) -> LinkFail
    ensures want { (result ≡ LinkFail.NoMemory) ↔ IsWanting error.now }
{
    match error {
        Error::OutOfMemory => LinkFail::NoMemory,
        Error::Io(error) => system_fail(error),
        _ => LinkFail::Fault,
    }
}
