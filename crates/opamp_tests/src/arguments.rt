// The program's arguments, from an environment of the test's own.
use crate::comparing::expect_same;
use crate::notes::USAGE;
use command_top::words;
use edge_devices::MemorySink;
use std::alloc::Global;
use std::env::{Env, FillError};
use std::process::Abort;

// The program's name, and behind it an argument with these bytes, an empty one and one more.
#[derive(Drop)]
struct ThreeArguments {
    bytes: &'static [u8],
}

impl Env for ThreeArguments {
    fn arg(&self, i: usize, buf: &mut [u8]) -> Result<usize, FillError> {
        let text: &[u8] = match i {
            0 => b"opamp",
            1 => self.bytes,
            2 => b"",
            3 => b"report",
            _ => return Err(FillError::NotPresent),
        };
        let len = text.len();
        if len > buf.len() {
            return Err(FillError::TooLong);
        }
        buf[..len].copy_from_slice(text);
        Ok(len)
    }

    fn var(&self, _name: &str, _buf: &mut [u8]) -> Result<usize, FillError> {
        Err(FillError::NotPresent)
    }

    fn var_at(&self, _i: usize, _buf: &mut [u8]) -> Result<usize, FillError> {
        Err(FillError::NotPresent)
    }
}

// Whether the words are the three arguments, each in its place.
fn are_the_words(alloc: Global, bytes: &'static [u8]) -> bool {
    let mut notes = MemorySink::new(alloc, 3, Vec::new(alloc));
    let words = words(&(ThreeArguments { bytes }, alloc), &mut notes);
    let silent = notes.bytes().is_empty();
    drop(notes);
    match words {
        Ok(words) => {
            silent
                && words.len() == 3
                && words[0].as_str().as_bytes() == bytes
                && words[1].as_str().is_empty()
                && words[2].as_str() == "report"
        }
        Err(_) => false,
    }
}

// An argument that isn't UTF-8 is no word: the usage is noted.
fn expect_usage(rt: &(impl Abort + AllocGlobal)) {
    let alloc = rt.alloc();
    let mut notes = MemorySink::new(alloc, 3, Vec::new(alloc));
    let bytes = b"canon\xff";
    let status = match words(&(ThreeArguments { bytes }, alloc), &mut notes) {
        Ok(words) => {
            drop(words);
            0
        }
        Err(status) => status,
    };
    expect_same(rt, &(status, notes.bytes()), &(2, USAGE.as_bytes()));
    drop(notes);
}

#[test]
fn arguments(rt: HostRuntime) {
    assert!(rt; are_the_words(rt.alloc(), b"canon"));
    expect_usage(&rt);
}
