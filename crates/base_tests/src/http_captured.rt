// Requests as clients send them, taken from a socket on the loopback: each posts the same report to
// http://127.0.0.1:4321/v1/opamp with the Content-Type application/x-protobuf.

pub const REPORT: &[u8] =
    b"\n\x10\x00\x01\x02\x03\x04\x05\x06\x07\x08\x09\n\x0b\x0c\r\x0e\x0f\x10\x01\x1a\x00 \x81\x10*\x02\x08\x01";

/// `curl --data-binary`, version 7.88.1.
pub const CURL_SIZED: &[u8] =
    b"POST /v1/opamp HTTP/1.1\r\nHost: 127.0.0.1:4321\r\nUser-Agent: curl/7.88.1\r\nAccept: */*\r\nContent-Type: application/x-protobuf\r\nContent-Length: 29\r\n\r\n\n\x10\x00\x01\x02\x03\x04\x05\x06\x07\x08\x09\n\x0b\x0c\r\x0e\x0f\x10\x01\x1a\x00 \x81\x10*\x02\x08\x01";

/// `curl -H 'Transfer-Encoding: chunked'`.
pub const CURL_CHUNKED: &[u8] =
    b"POST /v1/opamp HTTP/1.1\r\nHost: 127.0.0.1:4321\r\nUser-Agent: curl/7.88.1\r\nAccept: */*\r\nContent-Type: application/x-protobuf\r\nTransfer-Encoding: chunked\r\n\r\n1d\r\n\n\x10\x00\x01\x02\x03\x04\x05\x06\x07\x08\x09\n\x0b\x0c\r\x0e\x0f\x10\x01\x1a\x00 \x81\x10*\x02\x08\x01\r\n0\r\n\r\n";

/// Python's `http.client`, version 3, with a body of bytes.
pub const PYTHON_SIZED: &[u8] =
    b"POST /v1/opamp HTTP/1.1\r\nHost: 127.0.0.1:4321\r\nAccept-Encoding: identity\r\nContent-Length: 29\r\nContent-Type: application/x-protobuf\r\n\r\n\n\x10\x00\x01\x02\x03\x04\x05\x06\x07\x08\x09\n\x0b\x0c\r\x0e\x0f\x10\x01\x1a\x00 \x81\x10*\x02\x08\x01";

/// Python's `http.client`, with a body from an iterator of two items.
pub const PYTHON_CHUNKED: &[u8] =
    b"POST /v1/opamp HTTP/1.1\r\nHost: 127.0.0.1:4321\r\nAccept-Encoding: identity\r\nTransfer-Encoding: chunked\r\nContent-Type: application/x-protobuf\r\n\r\nA\r\n\n\x10\x00\x01\x02\x03\x04\x05\x06\x07\r\n13\r\n\x08\x09\n\x0b\x0c\r\x0e\x0f\x10\x01\x1a\x00 \x81\x10*\x02\x08\x01\r\n0\r\n\r\n";

/// Go's `net/http`, version 1.19, with a body of known length.
pub const GO_SIZED: &[u8] =
    b"POST /v1/opamp HTTP/1.1\r\nHost: 127.0.0.1:4321\r\nUser-Agent: Go-http-client/1.1\r\nContent-Length: 29\r\nContent-Type: application/x-protobuf\r\nAccept-Encoding: gzip\r\n\r\n\n\x10\x00\x01\x02\x03\x04\x05\x06\x07\x08\x09\n\x0b\x0c\r\x0e\x0f\x10\x01\x1a\x00 \x81\x10*\x02\x08\x01";

/// Go's `net/http`, with a body of unknown length.
pub const GO_CHUNKED: &[u8] =
    b"POST /v1/opamp HTTP/1.1\r\nHost: 127.0.0.1:4321\r\nUser-Agent: Go-http-client/1.1\r\nTransfer-Encoding: chunked\r\nContent-Type: application/x-protobuf\r\nAccept-Encoding: gzip\r\n\r\n1d\r\n\n\x10\x00\x01\x02\x03\x04\x05\x06\x07\x08\x09\n\x0b\x0c\r\x0e\x0f\x10\x01\x1a\x00 \x81\x10*\x02\x08\x01\r\n0\r\n\r\n";
