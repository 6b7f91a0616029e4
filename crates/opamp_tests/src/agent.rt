// The command `agent` by worked examples, over everything in memory.

ghost use Rattle.std.specs.Prelude.{◌<◌};

use crate::comparing::expect_same;
use crate::frames::{bytes_of, copy_of};
use crate::lent::{Lent, run_over};
use crate::notes::USAGE;
use crate::runs::words_of;
use edge_devices::{
    Area, DialerCall, Disk, Folder, FolderCall, MemDisk, MemoryClock, MemoryDialer, MemoryEntropy,
    MemoryFolder, MemorySink, MemorySource, MemoryWire, name_good,
};
use plain_values::{Blob, Text};
use std::marker::Sync;
use std::process::Abort;
use std::sync::Wait;
use std::thread::Threads;

// The identifier that is made of sixteen bytes 255, which stands as `V` in the examples (RFC 9562, section 5.4).
const UID: &str = "ffffffffffff4fffbfffffffffffffff";

// The calls that fail, by their numbers from 0, and the call of the disk that is stopped, by its number from 1.
#[derive(Clone, Copy)]
struct Failing {
    disk: &'static [u64],
    stop: u64,
    folder: &'static [u64],
    dialer: &'static [u64],
    clock: &'static [u64],
    entropy: &'static [u64],
    sink: &'static [u64],
}

const NONE: Failing = Failing {
    disk: &[],
    stop: 0,
    folder: &[],
    dialer: &[],
    clock: &[],
    entropy: &[],
    sink: &[],
};

// Words, what fails, the answers that are given, and what is asked, each question behind a bar, then written, and the status.
struct Example {
    name: &'static str,
    words: &'static str,
    failing: Failing,
    answers: [&'static str; 2],
    asked: &'static str,
    written: &'static str,
    status: u8,
}

const TWO_ROUNDS: &str = "agent --server http://s0 --rounds 2";

// A server with all capabilities that accepts the report.
const ACCEPTED: &str = "0a10V383f";

const FIRST: &str = "0a10V10011a002081102a006200|";

const EXAMPLES: [Example; 17] = [
    Example {
        name: "two rounds",
        words: TWO_ROUNDS,
        failing: NONE,
        answers: [ACCEPTED, ACCEPTED],
        asked: "0a10V10011a002081102a006200|0a10V1002208110|",
        written: "rounds 2\n",
        status: 9,
    },
    Example {
        name: "first exchange fails",
        words: TWO_ROUNDS,
        failing: Failing {
            dialer: &[1],
            ..NONE
        },
        answers: [ACCEPTED, ACCEPTED],
        asked: "0a10V10011a002081102a006200|0a10V10021a002081102a006200|",
        written: "rounds 2\n",
        status: 9,
    },
    Example {
        name: "first dial fails",
        words: TWO_ROUNDS,
        failing: Failing {
            dialer: &[0],
            ..NONE
        },
        answers: [ACCEPTED, ACCEPTED],
        asked: "0a10V10021a002081102a006200|",
        written: "rounds 2\n",
        status: 9,
    },
    Example {
        name: "no rounds",
        words: "agent --rounds 0",
        failing: NONE,
        answers: [ACCEPTED, ACCEPTED],
        asked: "",
        written: "rounds 0\n",
        status: 9,
    },
    Example {
        name: "restart",
        words: TWO_ROUNDS,
        failing: NONE,
        answers: ["0a10V383f4a00", ACCEPTED],
        asked: FIRST,
        written: "restart 1\n",
        status: 0,
    },
    Example {
        name: "an identifier is asked for",
        words: "agent --server http://s0 --request-uid --rounds 1",
        failing: NONE,
        answers: [ACCEPTED, ACCEPTED],
        asked: "0a10V10011a002081102a0050016200|",
        written: "rounds 1\n",
        status: 9,
    },
    Example {
        name: "header byte",
        words: "agent --server ws://s0 --rounds 1",
        failing: NONE,
        answers: ["000a10V383f", ACCEPTED],
        asked: "000a10V10011a002081102a006200|",
        written: "rounds 1\n",
        status: 9,
    },
    Example {
        name: "the load fails",
        words: TWO_ROUNDS,
        failing: Failing { disk: &[0], ..NONE },
        answers: [ACCEPTED, ACCEPTED],
        asked: "",
        written: "",
        status: 6,
    },
    Example {
        name: "the first device call is stopped",
        words: TWO_ROUNDS,
        failing: Failing { stop: 1, ..NONE },
        answers: [ACCEPTED, ACCEPTED],
        asked: "",
        written: "",
        status: 6,
    },
    Example {
        name: "the first save fails",
        words: TWO_ROUNDS,
        failing: Failing { stop: 3, ..NONE },
        answers: [ACCEPTED, ACCEPTED],
        asked: "",
        written: "",
        status: 6,
    },
    Example {
        name: "the first settling fails",
        words: TWO_ROUNDS,
        failing: Failing {
            folder: &[0],
            ..NONE
        },
        answers: [ACCEPTED, ACCEPTED],
        asked: "",
        written: "",
        status: 8,
    },
    Example {
        name: "the clock fails",
        words: TWO_ROUNDS,
        failing: Failing {
            clock: &[0],
            ..NONE
        },
        answers: [ACCEPTED, ACCEPTED],
        asked: FIRST,
        written: "",
        status: 8,
    },
    Example {
        name: "no identifier is drawn",
        words: TWO_ROUNDS,
        failing: Failing {
            entropy: &[0],
            ..NONE
        },
        answers: [ACCEPTED, ACCEPTED],
        asked: "",
        written: "",
        status: 8,
    },
    Example {
        name: "the sink fails",
        words: TWO_ROUNDS,
        failing: Failing { sink: &[0], ..NONE },
        answers: [ACCEPTED, ACCEPTED],
        asked: "0a10V10011a002081102a006200|0a10V1002208110|",
        written: "rou",
        status: 4,
    },
    Example {
        name: "no second to prove",
        words: "agent --prove 0",
        failing: NONE,
        answers: [ACCEPTED, ACCEPTED],
        asked: "",
        written: "",
        status: 2,
    },
    Example {
        name: "too many seconds to prove",
        words: "agent --prove 61",
        failing: NONE,
        answers: [ACCEPTED, ACCEPTED],
        asked: "",
        written: "",
        status: 2,
    },
    Example {
        name: "another scheme",
        words: "agent --server wss://h",
        failing: NONE,
        answers: [ACCEPTED, ACCEPTED],
        asked: "",
        written: "",
        status: 2,
    },
];

// What a run left.
#[derive(Drop)]
struct Told {
    asked: Vec<u8>,
    written: Vec<u8>,
    noted: Vec<u8>,
    status: u8,
}

// What is noted, by the status.
const NOTED: [(u8, &str); 8] = [
    (0, ""),
    (2, USAGE),
    (4, "standard output: can't be written\n"),
    (6, "store: can't be read or written\n"),
    (7, "store: damaged\n"),
    (8, "folder, clock or random bytes: failed\n"),
    (9, "rounds: all done\n"),
    (11, "report or store: too large\n"),
];

// The note is that of the status.
fn expect_noted(rt: &(impl Abort + AllocGlobal), name: &str, told: &Told) {
    let found = (name, told.status, told.noted.as_slice());
    for (status, note) in &NOTED {
        if told.status == *status {
            expect_same(rt, &found, &(name, *status, note.as_bytes()));
            return;
        }
    }
    panic!(rt; "a status without a row");
}

// The text with the identifier's digits in place of `V`.
fn with_uid(rt: &(impl Abort + AllocGlobal), text: &str) -> String {
    let mut whole = String::new(rt.alloc());
    for c in text.chars() {
        if c == 'V' {
            whole.push_str(UID).expect(rt, "memory");
        } else {
            whole.push(c).expect(rt, "memory");
        }
    }
    whole
}

// The bytes of hexadecimal digits, in which `V` stands for the identifier.
fn blob_of(rt: &(impl Abort + AllocGlobal), text: &str) -> Blob {
    let whole = with_uid(rt, text);
    Blob::of(bytes_of(rt.alloc(), whole.as_str()).expect(rt, "memory"))
}

fn list_of<T: Copy>(rt: &(impl Abort + AllocGlobal), items: &[T]) -> Vec<T> {
    copy_of(rt.alloc(), items).expect(rt, "memory")
}

fn digit(nibble: u8) -> u8
    requires nibble { nibble < 16 }
{
    if nibble < 10 {
        b'0' + nibble
    } else {
        b'a' + nibble - 10
    }
}

fn put_hex(rt: &impl Abort, text: &mut Vec<u8>, bytes: &[u8]) {
    for byte in bytes {
        text.push(digit(*byte / 16)).expect(rt, "memory");
        text.push(digit(*byte % 16)).expect(rt, "memory");
    }
}

// The questions of a dialer's exchanges, each behind a bar.
fn asked(rt: &(impl Abort + AllocGlobal), calls: &[DialerCall]) -> Vec<u8> {
    let mut text = Vec::new(rt.alloc());
    for call in calls {
        if let DialerCall::Exchange(_, question, _) = call {
            put_hex(rt, &mut text, question.as_slice());
            text.push(b'|').expect(rt, "memory");
        }
    }
    text
}

fn dialer_of(rt: &(impl Abort + AllocGlobal), answers: &[&str], failing: &[u64]) -> MemoryDialer {
    let mut blobs = Vec::new(rt.alloc());
    for answer in answers {
        blobs.push(blob_of(rt, answer)).expect(rt, "memory");
    }
    MemoryDialer::new(
        rt.alloc(),
        blobs,
        Vec::new(rt.alloc()),
        list_of(rt, failing),
    )
}

fn disk_of(rt: &(impl Abort + AllocGlobal), failing: &Failing) -> MemDisk {
    let mut disk = MemDisk::new(rt.alloc(), list_of(rt, failing.disk));
    disk.arm(failing.stop);
    disk
}

// The source would fail, and the wire has no events.
fn new_lent(rt: &(impl Abort + AllocGlobal), failing: &Failing, answers: &[&str]) -> Lent {
    let alloc = rt.alloc();
    Lent {
        source: MemorySource::new(Vec::new(alloc), 1, list_of(rt, &[0])),
        sink: MemorySink::new(alloc, 3, list_of(rt, failing.sink)),
        notes: MemorySink::new(alloc, 3, Vec::new(alloc)),
        disk: disk_of(rt, failing),
        folder: MemoryFolder::new(alloc, list_of(rt, failing.folder)),
        wire: MemoryWire::new(alloc, Vec::new(alloc), Vec::new(alloc)),
        dialer: dialer_of(rt, answers, failing.dialer),
        clock: MemoryClock::new(alloc, list_of(rt, failing.clock)),
        entropy: MemoryEntropy::new(
            alloc,
            list_of(rt, &[[255u8; 16]]),
            list_of(rt, failing.entropy),
        ),
    }
}

fn run_words(
    rt: &(impl Abort + AllocGlobal + Threads + Wait + Sync),
    words: &str,
    lent: &mut Lent,
) -> Told {
    let words = words_of(rt.alloc(), words).expect(rt, "memory");
    let status = run_over(rt, &words, lent);
    Told {
        asked: asked(rt, lent.dialer.calls()),
        written: list_of(rt, lent.sink.bytes()),
        noted: list_of(rt, lent.notes.bytes()),
        status,
    }
}

fn expect(rt: &(impl Abort + AllocGlobal), told: &Told, example: &Example) {
    let asked = with_uid(rt, example.asked);
    let name = example.name;
    expect_same(
        rt,
        &(name, told.asked.as_slice()),
        &(name, asked.as_bytes()),
    );
    let written = example.written.as_bytes();
    expect_same(rt, &(name, told.written.as_slice()), &(name, written));
    expect_same(rt, &(name, told.status), &(name, example.status));
    expect_noted(rt, name, told);
}

fn runs(rt: &(impl Abort + AllocGlobal + Threads + Wait + Sync), example: &Example) -> Told {
    let mut lent = new_lent(rt, &example.failing, &example.answers);
    let told = run_words(rt, example.words, &mut lent);
    drop(lent);
    told
}

#[test]
fn agents_run(rt: HostRuntime) {
    for example in &EXAMPLES {
        expect(&rt, &runs(&rt, example), example);
    }
}

// The disk's byte 0 is 1.
fn damage(rt: &impl Abort, disk: &mut MemDisk) {
    assert!(rt; disk.write_at(0, &[1]).is_ok());
    assert!(rt; disk.sync().is_ok());
}

fn has_first_bytes(disk: &mut MemDisk, want: [u8; 4]) -> bool {
    let mut bytes = [7u8; 4];
    disk.read(0, &mut bytes).is_ok() && bytes == want
}

// A disk whose byte 0 is 1 and whose other bytes are 0. Nothing is written to it.
#[test]
fn damaged_store(rt: HostRuntime) {
    let mut lent = new_lent(&rt, &NONE, &[]);
    damage(&rt, &mut lent.disk);
    let told = run_words(&rt, TWO_ROUNDS, &mut lent);
    let unchanged = has_first_bytes(&mut lent.disk, [1, 0, 0, 0]);
    drop(lent);
    let written = b"store damaged in slot 0\n".as_slice();
    expect_same(&rt, &(told.written.as_slice(), told.status), &(written, 7));
    expect_noted(&rt, "a damaged store", &told);
    assert!(rt; unchanged);
}

// The place of the first call that wrote a file, if one was made.
fn first_write(calls: &[FolderCall]) -> Option<usize> {
    calls.iter().position(|call| matches!(call, FolderCall::Write(Area::Config, _, _, _)))
}

// An offer of the file `x`, whose bytes are `hi`, under the hash of these bytes' message.
const OFFER: &str = "0a10V1a2f0a0b0a090a017812040a0268691220\
    8cfcbc1126b7061e6a84e59099f42adfc713823dd1ae0a1a735bfe6e6e39eda3383f";

// The local state of an agent that takes configurations and reports on them.
const STATUS: &str = "2083302a020801";

// The folder has this state as the agent's.
fn put_status(rt: &(impl Abort + AllocGlobal), folder: &mut MemoryFolder) {
    let name = Text::of(String::from_str(rt.alloc(), "status.pb").expect(rt, "memory"));
    assert!(rt; name_good(name.as_str()));
    let status = blob_of(rt, STATUS);
    assert!(rt;
        folder
            .write(rt.alloc(), Area::Status, &name, &status)
            .is_ok()
    );
}

// Two rounds of such an agent, whose server offers the file in the first, and the folder's call that wrote it.
fn offered(
    rt: &(impl Abort + AllocGlobal + Threads + Wait + Sync),
    failing: &[u64],
) -> (Told, Option<usize>) {
    let mut lent = new_lent(rt, &NONE, &[OFFER, ACCEPTED]);
    lent.folder = MemoryFolder::new(rt.alloc(), list_of(rt, failing));
    put_status(rt, &mut lent.folder);
    let told = run_words(rt, TWO_ROUNDS, &mut lent);
    let place = first_write(lent.folder.calls());
    drop(lent);
    (told, place)
}

fn expect_offered(rt: &(impl Abort + AllocGlobal), told: &Told, asked: &str) {
    let asked = with_uid(rt, asked);
    expect_same(rt, &told.asked.as_slice(), &asked.as_bytes());
    let written = b"rounds 2\n".as_slice();
    expect_same(rt, &(told.written.as_slice(), told.status), &(written, 9));
}

const APPLIED: &str = "0a10V10011a002083302a0208013a006200|0a10V10022083303a240a20\
    8cfcbc1126b7061e6a84e59099f42adfc713823dd1ae0a1a735bfe6e6e39eda31001|";

const FAULTED: &str = "0a10V10011a002083302a0208013a006200|0a10V10022083303a320a20\
    8cfcbc1126b7061e6a84e59099f42adfc713823dd1ae0a1a735bfe6e6e39eda3\
    10031a0c666f6c646572206661756c74|";

const UNTAKEN: &str = "0a10V10011a002083302a0208013a006200|0a10V10022083303a2f0a20\
    8cfcbc1126b7061e6a84e59099f42adfc713823dd1ae0a1a735bfe6e6e39eda3\
    10031a096e6f742074616b656e|";

// A collector that is asked for its word and says nothing is waited for four times, and each round waits once.
#[test]
fn collector_says_nothing(rt: HostRuntime) {
    let mut lent = new_lent(&rt, &NONE, &[OFFER, ACCEPTED]);
    put_status(&rt, &mut lent.folder);
    let words = "agent --server http://s0 --rounds 2 --prove 1";
    let told = run_words(&rt, words, &mut lent);
    let waits = lent.clock.waits().len();
    drop(lent);
    expect_offered(&rt, &told, UNTAKEN);
    expect_same(&rt, &waits, &6);
}

// The offered file is applied, or its write fails, and the run goes on.
#[test]
fn folder_fails_in_an_offer(rt: HostRuntime) {
    let (told, place) = offered(&rt, &[]);
    expect_offered(&rt, &told, APPLIED);
    let place = place.expect(&rt, "a write") as u64;
    let (told, _) = offered(&rt, &[place]);
    expect_offered(&rt, &told, FAULTED);
}
