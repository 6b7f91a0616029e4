//! Generated lists of saves, stopped at each device call in each mode, beside a plain model.

ghost use Rattle.std.specs.Prelude.{◌<◌, ◌≤◌, IsTrue};
ghost use Rattle.store_tests.specs.Notes.{is_note};

use crate::notes::Note;
use crate::saves::note;
use agent_store::{Layout, MemDisk, Mode, Opened, Store, StoreFail};
use std::process::Abort;

// A log has room for one short entry, so that lists have both kinds of saves, and a third checkpoint closes an open gate.
const LAYOUT: Layout = Layout { room: 8, log: 8 };

// The number that is kept, or 0; the bytes of the log that are taken; whether the other slot's gate is open.
#[derive(Clone, Copy)]
struct Plain {
    value: u8,
    used: u64,
    open: bool,
}

const NOTHING: Plain = Plain {
    value: 0,
    used: 0,
    open: false,
};

// A number is saved as one to five bytes.
fn len_of(value: u8) -> u64
    ensures few { result ≤ 5 }
{
    u64::from(value % 5) + 1
}

fn note_of(rt: &(impl Abort + AllocGlobal), value: u8) -> Note
    ensures right { IsTrue (is_note result) }
{
    let bytes = vec![in rt.alloc(); value; len_of(value) as usize].expect(rt, "memory");
    note(rt, &bytes)
}

impl Plain {
    fn takes_entry(self, value: u8) -> bool {
        self.value != 0 && self.used.saturating_add(6 + len_of(value)) <= 8
    }

    // The device calls of a save.
    fn calls(self, value: u8) -> u64 {
        if self.takes_entry(value) {
            4
        } else if self.open {
            7
        } else {
            5
        }
    }

    // After a save.
    fn saved(self, value: u8) -> Plain {
        if self.takes_entry(value) {
            let used = self.used.saturating_add(5 + len_of(value));
            Plain {
                value,
                used,
                open: self.open,
            }
        } else {
            Plain {
                value,
                used: 0,
                open: self.value != 0,
            }
        }
    }

    // After a save that was stopped at this call of it, and a crash.
    fn stopped(self, value: u8, at: u64, mode: Mode) -> Plain {
        if matches!(mode, Mode::New) && at.saturating_add(1) >= self.calls(value) {
            return self.saved(value);
        }
        let closes = !self.takes_entry(value) && (at > 2 || !matches!(mode, Mode::Old));
        Plain {
            value: self.value,
            used: self.used,
            open: self.open && !closes,
        }
    }

    // After a load whose device call of this number is stopped, a save and a crash. None where the save, the disk and the store
    // don't all tell whether the save was stopped.
    fn behind(self, value: u8, stop: u64, mode: Mode, told: (bool, bool, bool)) -> Option<Plain> {
        let stops = stop > 1 && stop - 1 <= self.calls(value);
        if told != (stops, stops, stops) {
            None
        } else if stops {
            Some(self.stopped(value, stop - 1, mode))
        } else {
            Some(self.saved(value))
        }
    }
}

fn is_plain(opened: &Opened<Note>, value: u8) -> bool {
    match opened {
        Opened::Fresh => value == 0,
        Opened::Kept(note) => {
            let bytes = note.as_slice();
            bytes.len() as u64 == len_of(value) && bytes.iter().all(|byte| *byte == value)
        }
    }
}

// Loads, saves and crashes, where the device call of this number is stopped, the load's sync being the first; 0 stops
// none. None where the store isn't as the model says.
fn step(
    rt: &(impl Abort + AllocGlobal),
    disk: &mut MemDisk,
    plain: Plain,
    value: u8,
    stop: u64,
    mode: Mode,
) -> Option<Plain> {
    let next = note_of(rt, value);
    disk.arm(stop);
    match Store::load::<Note, MemDisk>(rt.alloc(), disk, LAYOUT) {
        Ok((mut store, opened)) => {
            let is_known = is_plain(&opened, plain.value);
            let saved = store.save(disk, &next);
            let told = (saved.is_err(), disk.stopped(), store.broken());
            disk.crash(mode);
            if is_known {
                plain.behind(value, stop, mode, told)
            } else {
                None
            }
        }
        Err(StoreFail::DiskFault) => {
            disk.crash(mode);
            if stop == 1 { Some(plain) } else { None }
        }
        Err(fail) => panic!(rt; "{fail:?}"),
    }
}

// The next number of a sequence.
fn drawn(seed: u64) -> u64 {
    let seed = seed ^ (seed << 13);
    let seed = seed ^ (seed >> 7);
    seed ^ (seed << 17)
}

fn mode_of(number: u64) -> Mode {
    match number % 3 {
        0 => Mode::Old,
        1 => Mode::New,
        _ => Mode::Torn,
    }
}

// A list of twelve steps.
fn list(rt: &(impl Abort + AllocGlobal), seed: u64) -> bool {
    let mut disk = MemDisk::new(rt.alloc(), Vec::new(rt.alloc()));
    let mut plain = NOTHING;
    let mut seed = seed;
    for _ in 0..12 {
        seed = drawn(seed);
        let value = (seed % 250) as u8 + 1;
        let stop = (seed / 256) % 12;
        let mode = mode_of(seed / 4096);
        match step(rt, &mut disk, plain, value, stop, mode) {
            Some(next) => plain = next,
            None => return false,
        }
    }
    true
}

// The number that is saved at a place of a list.
fn value_at(seed: u64, place: u64) -> u8 {
    (drawn(seed ^ (place << 32)) % 250) as u8 + 1
}

// The list up to this save, which is stopped at this device call, and one save more, whose load finds what is left.
fn is_left(rt: &(impl Abort + AllocGlobal), seed: u64, last: u64, stop: u64, mode: Mode) -> bool
    requires { last < 100 }
{
    let mut disk = MemDisk::new(rt.alloc(), Vec::new(rt.alloc()));
    let mut plain = NOTHING;
    for place in 0..last + 2 {
        let stop = if place == last { stop } else { 0 };
        match step(rt, &mut disk, plain, value_at(seed, place), stop, mode) {
            Some(next) => plain = next,
            None => return false,
        }
    }
    true
}

// Four saves, each stopped at each of its device calls in each mode. A load and a save have eight calls at most; a stop
// at the ninth stops none of them.
fn each_stop(rt: &(impl Abort + AllocGlobal), seed: u64) -> bool {
    for number in 0..4 * 9 * 3 {
        let last = number / 27;
        let stop = number / 3 % 9 + 1;
        if !is_left(rt, seed, last, stop, mode_of(number)) {
            return false;
        }
    }
    true
}

#[test]
fn each_call_is_stopped_in_each_mode(rt: HostRuntime) {
    for seed in 1..1001 {
        assert!(rt; each_stop(&rt, seed), "list {seed}");
    }
}

// Lists in which stops follow on one another.
#[test]
fn stops_follow_on_stops(rt: HostRuntime) {
    for seed in 1..1001 {
        assert!(rt; list(&rt, seed), "list {seed}");
    }
}
