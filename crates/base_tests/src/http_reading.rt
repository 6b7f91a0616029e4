use crate::comparing::expect_same;
use crate::http_captured::{
    CURL_CHUNKED, CURL_SIZED, GO_CHUNKED, GO_SIZED, PYTHON_CHUNKED, PYTHON_SIZED, REPORT,
};
use crate::http_feeding::{Case, Kind, check, count, feed_all, reader, takes};
use edge_http::{HttpFail, HttpMessage, Part, PartReader, PollReader};
use std::alloc::Global;
use std::process::Abort;

fn is_report(message: &HttpMessage) -> bool {
    message.method.as_slice() == b"POST".as_slice()
        && message.target.as_slice() == b"/v1/opamp".as_slice()
        && message.status == 0
        && message.protobuf
        && !message.coded
        && !message.close
        && message.body.as_slice() == REPORT
}

// Whether the report is ready. Takes the message.
fn takes_report(reader: &mut PollReader) -> bool {
    match reader.take() {
        Some(message) => {
            let is_so = is_report(&message);
            drop(message);
            is_so
        }
        None => false,
    }
}

// The report is read in two pieces, and no sooner than its last byte is there.
fn check_report(rt: &(impl Abort + AllocGlobal), first: &[u8], second: &[u8]) {
    let cut = first.len();
    let mut halves = reader(rt.alloc(), Kind::Requests);
    let before = halves.feed(first);
    let is_early = takes(&mut halves);
    let after = halves.feed(second);
    let is_read = takes_report(&mut halves);
    let is_twice = takes(&mut halves);
    drop(halves);
    expect_same(rt, &(cut, before, is_early), &(cut, Ok(()), false));
    expect_same(
        rt,
        &(cut, after, is_read, is_twice),
        &(cut, Ok(()), true, false),
    );
}

// Each is read however it is cut in two.
#[test]
fn clients(rt: HostRuntime) {
    for bytes in [
        CURL_SIZED,
        CURL_CHUNKED,
        PYTHON_SIZED,
        PYTHON_CHUNKED,
        GO_SIZED,
        GO_CHUNKED,
    ] {
        for cut in 0..bytes.len() {
            check_report(&rt, &bytes[..cut], &bytes[cut..]);
        }
    }
}

const REQUEST_CASES: [Case; 20] = [
    // Another target.
    Case {
        kind: Kind::Requests,
        bytes: b"POST /x HTTP/1.1\r\n\r\n",
        messages: 1,
        failure: None,
    },
    // Another method.
    Case {
        kind: Kind::Requests,
        bytes: b"GET /v1/opamp HTTP/1.1\r\n\r\n",
        messages: 1,
        failure: None,
    },
    // A type of content that is none of OpAMP.
    Case {
        kind: Kind::Requests,
        bytes: b"POST /v1/opamp HTTP/1.1\r\nContent-Type: text/plain\r\n\r\n",
        messages: 1,
        failure: None,
    },
    // A coded body.
    Case {
        kind: Kind::Requests,
        bytes: b"POST /v1/opamp HTTP/1.1\r\nContent-Type: application/x-protobuf\r\nContent-Encoding: gzip\r\n\r\n",
        messages: 1,
        failure: None,
    },
    // A body that is no report.
    Case {
        kind: Kind::Requests,
        bytes: b"POST /v1/opamp HTTP/1.1\r\nContent-Type: application/x-protobuf\r\nContent-Length: 1\r\n\r\n\x0b",
        messages: 1,
        failure: None,
    },
    // Two lengths.
    Case {
        kind: Kind::Requests,
        bytes: b"POST /v1/opamp HTTP/1.1\r\nContent-Length: 1\r\nContent-Length: 1\r\n\r\n",
        messages: 0,
        failure: Some((HttpFail::BadHead, 65)),
    },
    // A body that is too long by one.
    Case {
        kind: Kind::Requests,
        bytes: b"POST /v1/opamp HTTP/1.1\r\nContent-Length: 4194305\r\n\r\n",
        messages: 0,
        failure: Some((HttpFail::BodyTooLarge, 52)),
    },
    // No size line.
    Case {
        kind: Kind::Requests,
        bytes: b"POST /v1/opamp HTTP/1.1\r\nTransfer-Encoding: chunked\r\n\r\nzz",
        messages: 0,
        failure: Some((HttpFail::BadChunk, 56)),
    },
    // A coding that is not only `chunked`.
    Case {
        kind: Kind::Requests,
        bytes: b"POST /v1/opamp HTTP/1.1\r\nTransfer-Encoding: gzip, chunked\r\n\r\n",
        messages: 0,
        failure: Some((HttpFail::BadHead, 61)),
    },
    // A length beside chunks.
    Case {
        kind: Kind::Requests,
        bytes: b"POST /v1/opamp HTTP/1.1\r\nTransfer-Encoding: chunked\r\ncontent-length: 1\r\n\r\n",
        messages: 0,
        failure: Some((HttpFail::BadHead, 74)),
    },
    // A length that is no digits.
    Case {
        kind: Kind::Requests,
        bytes: b"POST /v1/opamp HTTP/1.1\r\nContent-Length: +1\r\n\r\n",
        messages: 0,
        failure: Some((HttpFail::BadHead, 47)),
    },
    // Names and codings in any case, an extension and a trailer.
    Case {
        kind: Kind::Requests,
        bytes: b"POST /v1/opamp HTTP/1.1\r\ntransfer-encoding: CHUNKED\r\n\r\n1;a=b\r\nx\r\n0\r\nx: y\r\n\r\nGET / HTTP/1.0\r\n\r\n",
        messages: 2,
        failure: None,
    },
    // A chunk without its end.
    Case {
        kind: Kind::Requests,
        bytes: b"POST /v1/opamp HTTP/1.1\r\nTransfer-Encoding: chunked\r\n\r\n1\r\nab",
        messages: 0,
        failure: Some((HttpFail::BadChunk, 60)),
    },
    // Chunks that are too long by one.
    Case {
        kind: Kind::Requests,
        bytes: b"POST /v1/opamp HTTP/1.1\r\nTransfer-Encoding: chunked\r\n\r\n1\r\na\r\n400000\r\n",
        messages: 0,
        failure: Some((HttpFail::BodyTooLarge, 69)),
    },
    // No method, behind empty lines.
    Case {
        kind: Kind::Requests,
        bytes: b"\r\n\n\r\nG\x01",
        messages: 0,
        failure: Some((HttpFail::BadHead, 7)),
    },
    // A target that may still go on.
    Case {
        kind: Kind::Requests,
        bytes: b"GET /\x01",
        messages: 0,
        failure: None,
    },
    // A target that is none at its end.
    Case {
        kind: Kind::Requests,
        bytes: b"GET /\x01 ",
        messages: 0,
        failure: Some((HttpFail::BadHead, 7)),
    },
    // A blank in a name of a header.
    Case {
        kind: Kind::Requests,
        bytes: b"GET / HTTP/1.1\r\na b",
        messages: 0,
        failure: Some((HttpFail::BadHead, 18)),
    },
    // CR without LF.
    Case {
        kind: Kind::Requests,
        bytes: b"GET / HTTP/1.1\r\na: b\rc",
        messages: 0,
        failure: Some((HttpFail::BadHead, 22)),
    },
    // A later version, behind a whole request.
    Case {
        kind: Kind::Requests,
        bytes: b"GET / HTTP/1.1\r\n\r\nGET / HTTP/2.0\r\n\r\n",
        messages: 1,
        failure: Some((HttpFail::BadHead, 30)),
    },
];

#[test]
fn requests(rt: HostRuntime) {
    for case in &REQUEST_CASES {
        check(&rt, rt.alloc(), *case);
    }
}

const RESPONSE_CASES: [Case; 5] = [
    // A response without a length.
    Case {
        kind: Kind::Responses,
        bytes: b"HTTP/1.1 200 OK\r\n\r\n",
        messages: 0,
        failure: Some((HttpFail::NoLength, 19)),
    },
    // Two responses.
    Case {
        kind: Kind::Responses,
        bytes: b"HTTP/1.1 200 OK\r\nContent-Length: 2\r\n\r\nabHTTP/1.0 404\nContent-Length: 0\n\n",
        messages: 2,
        failure: None,
    },
    // A body that is too long by one.
    Case {
        kind: Kind::Responses,
        bytes: b"HTTP/1.1 200 OK\r\nContent-Length: 4194305\r\n\r\n",
        messages: 0,
        failure: Some((HttpFail::BodyTooLarge, 44)),
    },
    // The longest package begins.
    Case {
        kind: Kind::Packages,
        bytes: b"HTTP/1.1 200 OK\r\nContent-Length: 16777216\r\n\r\n",
        messages: 0,
        failure: None,
    },
    // A package that is too long by one.
    Case {
        kind: Kind::Packages,
        bytes: b"HTTP/1.1 200 OK\r\nContent-Length: 16777217\r\n\r\n",
        messages: 0,
        failure: Some((HttpFail::BodyTooLarge, 45)),
    },
];

#[test]
fn responses(rt: HostRuntime) {
    for case in &RESPONSE_CASES {
        check(&rt, rt.alloc(), *case);
    }
}

fn repeated(
    rt: &(impl Abort + AllocGlobal),
    front: &[u8],
    part: &[u8],
    times: usize,
    back: &[u8],
) -> Vec<u8> {
    let mut bytes: Vec<u8> = Vec::from_slice(rt.alloc(), front).expect(rt, "memory");
    for _ in 0..times {
        bytes.extend_from_slice(part).expect(rt, "memory");
    }
    bytes.extend_from_slice(back).expect(rt, "memory");
    bytes
}

// Byte by byte, in pieces of 100 bytes, and whole: how many messages there are, and behind how many bytes reading fails.
fn check_long(
    rt: &impl Abort,
    alloc: Global,
    bytes: &[u8],
    messages: usize,
    failure: Option<(HttpFail, usize)>,
) {
    for size in [1, 100, 65_536] {
        let mut requests = reader(alloc, Kind::Requests);
        let found = feed_all(rt, &mut requests, bytes, size);
        let counted = count(&mut requests);
        drop(requests);
        expect_same(
            rt,
            &found.map(|failed| failed.0),
            &failure.map(|failed| failed.0),
        );
        if size == 1 {
            expect_same(rt, &found, &failure);
        }
        expect_same(rt, &counted, &messages);
    }
}

#[test]
fn limits_of_a_head(rt: HostRuntime) {
    let alloc = rt.alloc();
    let line = b"\r\n\nPOST / HTTP/1.1\r\n";
    let most = repeated(&rt, line, b"a:b\r\n", 64, b"\r\n");
    check_long(&rt, alloc, most.as_slice(), 1, None);
    let many = repeated(&rt, line, b"a:b\r\n", 65, b"\r\n");
    check_long(
        &rt,
        alloc,
        many.as_slice(),
        0,
        Some((HttpFail::TooManyHeaders, 345)),
    );
    let too_long = Some((HttpFail::HeadTooLong, 16_384));
    let long = repeated(&rt, b"POST / HTTP/1.1\r\nx: ", b"a", 20_000, b"\r\n\r\n");
    check_long(&rt, alloc, long.as_slice(), 0, too_long);
    let blank = repeated(&rt, b"", b"\r\n", 10_000, b"");
    check_long(&rt, alloc, blank.as_slice(), 0, too_long);
    let target = repeated(&rt, b"GET /", b"a", 20_000, b"");
    check_long(&rt, alloc, target.as_slice(), 0, too_long);
}

// What a head says, in the words of the next table's requests.
fn told(alloc: Global, bytes: &[u8]) -> Option<HttpMessage> {
    let mut requests = reader(alloc, Kind::Requests);
    let message = match requests.feed(bytes) {
        Ok(()) => requests.take(),
        Err(_) => None,
    };
    drop(requests);
    message
}

// Whether the message is `protobuf`, `coded` and `close`.
fn said(rt: &(impl Abort + AllocGlobal), bytes: &[u8]) -> (bool, bool, bool) {
    let message = told(rt.alloc(), bytes).expect(rt, "a message");
    let said = (message.protobuf, message.coded, message.close);
    drop(message);
    said
}

// The headers, and whether the message is `protobuf`, `coded` and `close`.
const HEADS: [(&[u8], bool, bool, bool); 9] = [
    (b"GET / HTTP/1.1\r\n\r\n", false, false, false),
    (b"GET / HTTP/1.0\r\n\r\n", false, false, true),
    (
        b"GET / HTTP/1.1\r\nCONNECTION:\tClose \r\n\r\n",
        false,
        false,
        true,
    ),
    (
        b"GET / HTTP/1.1\r\nConnection: closed\r\n\r\n",
        false,
        false,
        false,
    ),
    (
        b"GET / HTTP/1.1\r\ncontent-type: Application/X-Protobuf; a=b\r\n\r\n",
        true,
        false,
        false,
    ),
    (
        b"GET / HTTP/1.1\r\nContent-Type: application/x-protobuffer\r\n\r\n",
        false,
        false,
        false,
    ),
    (
        b"GET / HTTP/1.1\r\nContent-Encoding: Identity\r\n\r\n",
        false,
        false,
        false,
    ),
    (
        b"GET / HTTP/1.1\r\nContent-Encoding: identity\r\nContent-Encoding: gzip\r\n\r\n",
        false,
        true,
        false,
    ),
    (
        b"GET / HTTP/1.1\r\nContent-Encoding:\r\n\r\n",
        false,
        true,
        false,
    ),
];

#[test]
fn what_headers_say(rt: HostRuntime) {
    for (bytes, protobuf, coded, close) in HEADS {
        expect_same(&rt, &said(&rt, bytes), &(protobuf, coded, close));
    }
}

fn begins(reader: &mut PartReader) -> bool {
    let part = reader.part();
    let is_head = matches!(&part, Some(Part::Head(_)));
    drop(part);
    is_head
}

// Whether no part is ready. Takes it where there is one.
fn gives_nothing(reader: &mut PartReader) -> bool {
    let part = reader.part();
    let is_nothing = part.is_none();
    drop(part);
    is_nothing
}

// Appends a part behind the head, and tells whether it is the end of the message.
fn join(rt: &impl Abort, body: &mut Vec<u8>, part: &Part) -> bool {
    match part {
        Part::Head(_) => panic!(rt; "a second head"),
        Part::Body(bytes) => {
            body.extend_from_slice(bytes.as_slice())
                .expect(rt, "memory");
            false
        }
        Part::Done => true,
    }
}

// The bodies of the parts, joined, up to the first end of a message.
fn joined(rt: &(impl Abort + AllocGlobal), reader: &mut PartReader) -> Vec<u8> {
    let mut body: Vec<u8> = Vec::new(rt.alloc());
    assert!(rt; begins(reader));
    for _ in 0..1_000 {
        let part = reader.part().expect(rt, "an end");
        let is_end = join(rt, &mut body, &part);
        drop(part);
        if is_end {
            assert!(rt; gives_nothing(reader));
            return body;
        }
    }
    panic!(rt; "no end")
}

#[test]
fn parts(rt: HostRuntime) {
    for bytes in [PYTHON_CHUNKED, PYTHON_SIZED] {
        for size in [1, 7, 300] {
            let mut reader = PartReader::requests(rt.alloc());
            for piece in bytes.chunks(size) {
                expect_same(&rt, &reader.feed(piece), &Ok(()));
            }
            expect_same(&rt, &reader.failure(), &None);
            assert!(rt; joined(&rt, &mut reader).as_slice() == REPORT);
            drop(reader);
        }
    }
}

#[test]
fn nothing_is_ready_at_first(rt: HostRuntime) {
    let mut responses = PartReader::responses(rt.alloc());
    assert!(rt; gives_nothing(&mut responses));
    drop(responses);
    let mut packages = PartReader::packages(rt.alloc());
    assert!(rt; gives_nothing(&mut packages));
    drop(packages);
}
