// What is written.
ghost use Rattle.std.specs.Prelude.{◌≡◌, ◌++◌, IfOk, OnOk, codes, if◌then◌else◌, []};
ghost use Rattle.std.specs.Fmt.{decimal};
ghost use Rattle.std.specs.List.{flat_map};
ghost use Rattle.httparse.specs.Ascii.{crlf_bytes};
ghost use Rattle.edge_http.specs.Writing.{host_line, first_line, header_line, length_line, status_line, reason_of, request_text, get_text, response_text};

use edge_devices::Endpoint;
use plain_values::{Blob, Header, Headers, NoMemory};
use std::alloc::{AllocError, Global};

fn put_number(alloc: Global, out: &mut Vec<u8>, number: u64) -> Result<(), AllocError>
    ensures { OnOk result (out.new.items ≡ out.old.items ++ decimal number) }
{
    let text = format!(in alloc; "{number}")?;
    out.extend_from_slice(text.as_str().as_bytes())
}

fn put_host(alloc: Global, out: &mut Vec<u8>, to: &Endpoint) -> Result<(), AllocError>
    ensures { OnOk result (out.new.items ≡ out.old.items ++ host_line to.now) }
{
    out.extend_from_slice(b"Host: ")?;
    out.extend_from_slice(to.host.as_str().as_bytes())?;
    out.extend_from_slice(b":")?;
    put_number(alloc, out, u64::from(to.port))?;
    out.extend_from_slice(b"\r\n")
}

fn put_first(out: &mut Vec<u8>, method: &[u8], to: &Endpoint) -> Result<(), AllocError>
    ensures { OnOk result (out.new.items ≡ out.old.items ++ first_line method.now to.now) }
{
    out.extend_from_slice(method)?;
    out.extend_from_slice(b" ")?;
    out.extend_from_slice(to.path.as_str().as_bytes())?;
    out.extend_from_slice(b" HTTP/1.1\r\n")
}

fn put_length(alloc: Global, out: &mut Vec<u8>, len: usize) -> Result<(), AllocError>
    ensures { OnOk result (out.new.items ≡ out.old.items ++ length_line len) }
{
    out.extend_from_slice(b"Content-Length: ")?;
    put_number(alloc, out, len as u64)?;
    out.extend_from_slice(b"\r\n")
}

fn put_header(out: &mut Vec<u8>, header: &Header) -> Result<(), AllocError>
    ensures { OnOk result (out.new.items ≡ out.old.items ++ header_line header.now) }
{
    out.extend_from_slice(header.key.as_str().as_bytes())?;
    out.extend_from_slice(b": ")?;
    out.extend_from_slice(header.value.as_str().as_bytes())?;
    out.extend_from_slice(b"\r\n")
}

/// A request that posts the body to the endpoint, with the headers in their order behind its own (RFC 9112, section 3;
/// OpAMP specification, "Plain HTTP Transport"). Only want of memory refuses it.
pub fn request_bytes(
    alloc: Global,
    to: &Endpoint,
    headers: &Headers,
    body: &[u8],
) -> Result<Blob, NoMemory>
    ensures written { IfOk result (λ b. b ≡ request_text to.now headers.now.headers body.now) }
{
    let mut out = Vec::new(alloc);
    put_first(&mut out, b"POST", to)?;
    put_host(alloc, &mut out, to)?;
    out.extend_from_slice(b"Content-Type: application/x-protobuf\r\n")?;
    put_length(alloc, &mut out, body.len())?;
    put_headers(&mut out, headers.headers.as_slice())?;
    out.extend_from_slice(b"\r\n")?;
    out.extend_from_slice(body)?;
    Ok(Blob::of(out))
}

fn put_headers(out: &mut Vec<u8>, headers: &[Header]) -> Result<(), AllocError>
    ensures { OnOk result (out.new.items ≡ out.old.items ++ flat_map header_line headers.now) }
{
    for header in headers {
        put_header(out, header)?;
    }
    Ok(())
}

/// A request that gets what the endpoint's path names (RFC 9110, section 9.3.1). Only want of memory refuses it.
pub fn get_bytes(alloc: Global, to: &Endpoint) -> Result<Blob, NoMemory>
    ensures written { IfOk result (λ b. b ≡ get_text to.now) }
{
    let mut out = Vec::new(alloc);
    put_first(&mut out, b"GET", to)?;
    put_host(alloc, &mut out, to)?;
    out.extend_from_slice(b"\r\n")?;
    Ok(Blob::of(out))
}

fn reason(status: u16) -> &'static [u8]
    ensures { result.now ≡ reason_of status }
{
    match status {
        200 => b"OK",
        400 => b"Bad Request",
        404 => b"Not Found",
        405 => b"Method Not Allowed",
        413 => b"Content Too Large",
        415 => b"Unsupported Media Type",
        431 => b"Request Header Fields Too Large",
        503 => b"Service Unavailable",
        _ => b"",
    }
}

/// A response with the status and the body; `close` says that the connection is closed behind it (RFC 9112, sections 4
/// and 9.6). Only want of memory refuses it.
pub fn response_bytes(
    alloc: Global,
    status: u16,
    body: &[u8],
    close: bool,
) -> Result<Blob, NoMemory>
    ensures written { IfOk result (λ b. b ≡ response_text status body.now close) }
{
    let mut out = Vec::new(alloc);
    put_status(alloc, &mut out, status)?;
    put_if(&mut out, status == 405, b"Allow: POST\r\n")?;
    put_if(
        &mut out,
        status == 200,
        b"Content-Type: application/x-protobuf\r\n",
    )?;
    put_length(alloc, &mut out, body.len())?;
    put_if(&mut out, close, b"Connection: close\r\n")?;
    out.extend_from_slice(b"\r\n")?;
    out.extend_from_slice(body)?;
    Ok(Blob::of(out))
}

fn put_status(alloc: Global, out: &mut Vec<u8>, status: u16) -> Result<(), AllocError>
    ensures { OnOk result (out.new.items ≡ out.old.items ++ status_line status) }
{
    out.extend_from_slice(b"HTTP/1.1 ")?;
    put_number(alloc, out, u64::from(status))?;
    out.extend_from_slice(b" ")?;
    out.extend_from_slice(reason(status))?;
    out.extend_from_slice(b"\r\n")
}

fn put_if(out: &mut Vec<u8>, wanted: bool, text: &[u8]) -> Result<(), AllocError>
    ensures { OnOk result (out.new.items ≡ out.old.items ++ (if wanted then text.now else [])) }
{
    if wanted {
        return out.extend_from_slice(text);
    }
    Ok(())
}
