// The words of lines as a journal tells them. They follow from the table of lines by hand; the hashes are what Python's `hashlib.sha256` gives of the bytes
// that the hexadecimal digits spell.
use server_lines::{journal_words, read_line};
use std::process::Abort;

// Whether the line has these words in a journal.
fn is_told(rt: &(impl Abort + AllocGlobal), line: &[u8], want: Option<&str>) -> bool {
    let Some(order) = read_line(rt.alloc(), line).expect(rt, "memory") else {
        return false;
    };
    let words = journal_words(rt.alloc(), &order).expect(rt, "memory");
    match (&words, want) {
        (Some(words), Some(want)) => words.as_str() == want,
        (None, None) => true,
        _ => false,
    }
}

#[test]
fn orders_in_a_journal(rt: HostRuntime) {
    for (line, want) in [
        (
            b"config 00010203-0405-0607-0809-0a0b0c0d0e0f f text/plain 6869".as_slice(),
            "config 00010203-0405-0607-0809-0a0b0c0d0e0f f text/plain 8f434346648f6b96df89dda901c5176b10a6d83961dd3c1ac88b59b2dc327aa4",
        ),
        (
            b"config {00010203-0405-0607-0809-0a0b0c0d0e0f} - - - a.yaml - 6869 - x 00",
            "config 00010203-0405-0607-0809-0a0b0c0d0e0f - x 6e340b9cffb37a989ca544e6bb780a2c78901d3fb33738768511a30617afa01d a.yaml - 8f434346648f6b96df89dda901c5176b10a6d83961dd3c1ac88b59b2dc327aa4",
        ),
        (
            b"config 000102030405060708090A0B0C0D0E0F f - -",
            "config 00010203-0405-0607-0809-0a0b0c0d0e0f f - e3b0c44298fc1c149afbf4c8996fb92427ae41e4649b934ca495991b7852b855",
        ),
        (
            b"connect 00010203-0405-0607-0809-0a0b0c0d0e0f http://h",
            "settings 00010203-0405-0607-0809-0a0b0c0d0e0f http://h 0",
        ),
        (
            b"settings 00010203-0405-0607-0809-0a0b0c0d0e0f - 18446744073709551615 A:6869 b:-",
            "settings 00010203-0405-0607-0809-0a0b0c0d0e0f - 18446744073709551615 A:8f434346648f6b96df89dda901c5176b10a6d83961dd3c1ac88b59b2dc327aa4 b:e3b0c44298fc1c149afbf4c8996fb92427ae41e4649b934ca495991b7852b855",
        ),
        (
            b"packages 00010203-0405-0607-0809-0a0b0c0d0e0f p 1 http://h/p 00fF q 2 http://h/q -",
            "packages 00010203-0405-0607-0809-0a0b0c0d0e0f p 1 http://h/p 00ff q 2 http://h/q -",
        ),
        (
            b"restart 00010203-0405-0607-0809-0a0b0c0d0e0f",
            "restart 00010203-0405-0607-0809-0a0b0c0d0e0f",
        ),
        (
            b"withdraw urn:uuid:00010203-0405-0607-0809-0a0b0c0d0e0f",
            "withdraw 00010203-0405-0607-0809-0a0b0c0d0e0f",
        ),
        (
            b"forget 00010203-0405-0607-0809-0a0b0c0d0e0f",
            "forget 00010203-0405-0607-0809-0a0b0c0d0e0f",
        ),
        (b"forget left", "forget left"),
        (
            b"rollout r-1 2/1 x - 6869",
            "rollout r-1 2/1 x - 8f434346648f6b96df89dda901c5176b10a6d83961dd3c1ac88b59b2dc327aa4",
        ),
        (
            b"rollout r-1 2/1 where os=linux x - 6869",
            "rollout r-1 2/1 where os=linux x - 8f434346648f6b96df89dda901c5176b10a6d83961dd3c1ac88b59b2dc327aa4",
        ),
        (b"halt r-1", "halt r-1"),
        (b"resume r-1", "resume r-1"),
        (b"finish r-1", "finish r-1"),
        (b"stop", "stop"),
    ] {
        assert!(rt; is_told(&rt, line, Some(want)));
    }
}

#[test]
fn questions_in_no_journal(rt: HostRuntime) {
    for line in [
        b"list".as_slice(),
        b"show 00010203-0405-0607-0809-0a0b0c0d0e0f",
        b"waits 00010203-0405-0607-0809-0a0b0c0d0e0f",
        b"rollouts",
        b"members r-1",
        b"ages",
        b"count",
    ] {
        assert!(rt; is_told(&rt, line, None));
    }
}
