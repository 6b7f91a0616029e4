use crate::comparing::expect_same;
use crate::http_feeding::{Kind, reader};
use crate::values::text;
use edge_devices::{Endpoint, read_endpoint};
use edge_http::{
    HttpFail, body_limits, get_bytes, one_body, one_reading, one_stream, request_bytes,
    response_bytes,
};
use plain_values::{Header, Headers, List};
use std::process::Abort;

fn endpoint(rt: &(impl Abort + AllocGlobal), words: &str) -> Endpoint {
    read_endpoint(rt.alloc(), words)
        .expect(rt, "memory")
        .expect(rt, "an endpoint")
}

#[test]
fn requests_are_written(rt: HostRuntime) {
    let alloc = rt.alloc();
    let to = endpoint(&rt, "http://h");
    let none = Headers {
        headers: List::new(alloc),
    };
    let bare = request_bytes(alloc, &to, &none, b"\x0a\x00").expect(&rt, "memory");
    assert!(rt;
        bare.as_slice()
            == b"POST /v1/opamp HTTP/1.1\r\nHost: h:80\r\nContent-Type: application/x-protobuf\r\nContent-Length: 2\r\n\r\n\x0a\x00".as_slice()
    );
    let package = endpoint(&rt, "http://h/p");
    let get = get_bytes(alloc, &package).expect(&rt, "memory");
    assert!(rt; get.as_slice() == b"GET /p HTTP/1.1\r\nHost: h:80\r\n\r\n".as_slice());
}

#[test]
fn headers_are_written(rt: HostRuntime) {
    let alloc = rt.alloc();
    let to = endpoint(&rt, "http://h:81/q");
    let header = Header {
        key: text(&rt, "A"),
        value: text(&rt, "b c"),
    };
    let mut list = List::new(alloc);
    list.push(header).expect(&rt, "memory");
    let headers = Headers { headers: list };
    let request = request_bytes(alloc, &to, &headers, &[]).expect(&rt, "memory");
    assert!(rt;
        request.as_slice()
            == b"POST /q HTTP/1.1\r\nHost: h:81\r\nContent-Type: application/x-protobuf\r\nContent-Length: 0\r\nA: b c\r\n\r\n".as_slice()
    );
}

// Whether the bytes are read as a response that refuses the method and closes.
fn is_refusal(rt: &(impl Abort + AllocGlobal), bytes: &[u8]) -> bool {
    let mut responses = reader(rt.alloc(), Kind::Responses);
    expect_same(rt, &responses.feed(bytes), &Ok(()));
    let message = responses.take().expect(rt, "a response");
    let is_so = message.status == 405 && message.close;
    drop(message);
    drop(responses);
    is_so
}

#[test]
fn responses_are_written(rt: HostRuntime) {
    let alloc = rt.alloc();
    let refused = response_bytes(alloc, 405, &[], true).expect(&rt, "memory");
    assert!(rt;
        refused.as_slice()
            == b"HTTP/1.1 405 Method Not Allowed\r\nAllow: POST\r\nContent-Length: 0\r\nConnection: close\r\n\r\n".as_slice()
    );
    let answered = response_bytes(alloc, 200, b"\x0a\x00", false).expect(&rt, "memory");
    assert!(rt;
        answered.as_slice()
            == b"HTTP/1.1 200 OK\r\nContent-Type: application/x-protobuf\r\nContent-Length: 2\r\n\r\n\x0a\x00".as_slice()
    );
    assert!(rt; is_refusal(&rt, refused.as_slice()));
}

#[test]
fn failures_are_shown(rt: HostRuntime) {
    for (failure, words) in [
        (HttpFail::BadHead, "no head can come of the bytes"),
        (
            HttpFail::HeadTooLong,
            "the head is longer than 16,384 bytes",
        ),
        (
            HttpFail::TooManyHeaders,
            "the head has more than 64 header lines",
        ),
        (
            HttpFail::NoLength,
            "the response doesn't say how long its body is",
        ),
        (HttpFail::BadChunk, "the chunked body isn't of the grammar"),
        (HttpFail::BodyTooLarge, "the body is longer than the limit"),
        (HttpFail::NoMemory, "there was no memory"),
    ] {
        let shown = format!(in rt.alloc(); "{failure}").expect(&rt, "memory");
        expect_same(&rt, &shown.as_str(), &words);
    }
}

#[test]
fn laws() {
    one_body();
    one_reading();
    one_stream();
    body_limits();
}
