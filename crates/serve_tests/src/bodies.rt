// Bodies of requests whose bytes come in pieces.
use crate::comparing::expect_same;
use crate::playing::{REPLY, REPORT, Script, fill, joined, put};
use crate::polling::{HEAD, OK, TYPE, is_answered};
use edge_devices::Kind;
use std::process::Abort;

// The first report of a collector up to its health: 40 components in 402 bytes.
const FRONT: &[u8] =
    b"\x0a\x10\x00\x01\x02\x03\x04\x05\x06\x07\x08\x09\x0a\x0b\x0c\x0d\x0e\x0f\x10\x01\x1a\x00\x20\x87\x38\x2a\x92\x03\x08\x01";

// Its effective configuration up to the 30,000 bytes of its file.
const FILE: &[u8] =
    b"\x32\xd0\xea\x01\x0a\xcc\xea\x01\x0a\xc8\xea\x01\x0a\x0ecollector.yaml\x12\xb4\xea\x01\x0a\xb0\xea\x01";

// What it says of the configuration that was offered to it.
const STATUS: &[u8] = b"\x3a\x06\x0a\x02\xab\xcd\x10\x01";

// The bytes of a collector's report.
fn collector_report(rt: &(impl Abort + AllocGlobal)) -> Vec<u8> {
    let mut report = Vec::from_slice(rt.alloc(), FRONT).expect(rt, "memory");
    for number in 0..40u8 {
        put(rt, &mut report, b"\x32\x08\x0a\x02");
        report.push(b'a' + number / 10).expect(rt, "memory");
        report.push(b'0' + number % 10).expect(rt, "memory");
        put(rt, &mut report, b"\x12\x02\x08\x01");
    }
    put(rt, &mut report, FILE);
    fill(rt, &mut report, b'c', 30_000);
    put(rt, &mut report, STATUS);
    report
}

// The body in chunks of 256 bytes, what is left in chunks of one byte.
fn chunked(rt: &(impl Abort + AllocGlobal), body: &[u8]) -> Vec<u8> {
    let mut request = joined(rt, &[HEAD, b"Transfer-Encoding: chunked\r\n", TYPE]);
    for chunk in body.chunks(256) {
        if chunk.len() == 256 {
            put(rt, &mut request, b"100\r\n");
            put(rt, &mut request, chunk);
            put(rt, &mut request, b"\r\n");
        } else {
            put_single(rt, &mut request, chunk);
        }
    }
    put(rt, &mut request, b"0\r\n\r\n");
    request
}

// A chunk for each byte.
fn put_single(rt: &impl Abort, request: &mut Vec<u8>, bytes: &[u8]) {
    for byte in bytes {
        put(rt, request, b"1\r\n");
        request.push(*byte).expect(rt, "memory");
        put(rt, request, b"\r\n");
    }
}

// What is answered where the bytes come in pieces of this size.
fn told_in(rt: &(impl Abort + AllocGlobal), bytes: &[u8], size: usize) -> Vec<u8> {
    let mut script = Script::new(rt.alloc());
    script.open(rt, 1, Kind::Http);
    for piece in bytes.chunks(size.max(1)) {
        script.piece(rt, 1, piece);
    }
    script.play(rt, &[], &[])
}

#[test]
fn collector_is_answered_in_pieces(rt: HostRuntime) {
    let request = chunked(&rt, &collector_report(&rt));
    let want = joined(
        &rt,
        &[b"1:", OK, b"Content-Length: 20\r\n\r\n", REPLY, b"|spent"],
    );
    for size in [1, 7, 4_096] {
        expect_same(
            &rt,
            &told_in(&rt, &request, size).as_slice(),
            &want.as_slice(),
        );
    }
}

// Whether a request whose body is a report is refused so by its head, wherever it is cut, and the report behind it is answered.
fn is_refused(rt: &(impl Abort + AllocGlobal), head: &[u8], status: &[u8]) -> bool {
    let requests = joined(
        rt,
        &[
            head,
            b"Content-Length: 29\r\n\r\n",
            REPORT,
            HEAD,
            b"Content-Length: 29\r\n",
            TYPE,
            REPORT,
        ],
    );
    let want = joined(
        rt,
        &[
            b"1:HTTP/1.1 ",
            status,
            b"\r\nContent-Length: 0\r\n\r\n|1:",
            OK,
            b"Content-Length: 20\r\n\r\n",
            REPLY,
            b"|spent",
        ],
    );
    is_answered(rt, &requests, &want)
}

#[test]
fn refused_bodies_are_passed_over(rt: HostRuntime) {
    let table: [(&[u8], &[u8]); 3] = [
        (
            b"POST /v2/opamp HTTP/1.1\r\nContent-Type: application/x-protobuf\r\n",
            b"404 Not Found",
        ),
        (
            b"PUT /v1/opamp HTTP/1.1\r\nContent-Type: application/x-protobuf\r\n",
            b"405 Method Not Allowed\r\nAllow: POST",
        ),
        (
            b"POST /v1/opamp HTTP/1.1\r\nContent-Type: text/plain\r\n",
            b"415 Unsupported Media Type",
        ),
    ];
    for (head, status) in table {
        assert!(rt; is_refused(&rt, head, status));
    }
}

// Chunks that pass the limit of a body behind a whole report, and a report behind them.
#[test]
fn too_large_behind_a_report(rt: HostRuntime) {
    let requests = joined(
        &rt,
        &[
            HEAD,
            b"Transfer-Encoding: chunked\r\n",
            TYPE,
            b"1d\r\n",
            REPORT,
            b"\r\n400000\r\n",
            HEAD,
            b"Content-Length: 29\r\n",
            TYPE,
            REPORT,
        ],
    );
    let want = joined(
        &rt,
        &[
            b"1:HTTP/1.1 413 Content Too Large\r\nContent-Length: 0\r\nConnection: close\r\n\r\n|1 closed|spent",
        ],
    );
    for size in [1, 40, 1_000] {
        expect_same(
            &rt,
            &told_in(&rt, &requests, size).as_slice(),
            &want.as_slice(),
        );
    }
}
