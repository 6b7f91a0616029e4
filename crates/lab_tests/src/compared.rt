// Worked scripts, played by hand and by `simulate`, compared line by line.

ghost use Rattle.std.specs.Prelude.{◌≤◌, length};
ghost use Rattle.lab_tests.specs.Wells.{IsWell};

use crate::comparing::expect_same;
use crate::hand::{Desk, begins, plays, set_up};
use agent_state::Agent;
use edge_devices::{MemDisk, MemorySink};
use std::process::Abort;
use world_lab::{Lab, simulate};
use world_scripts::{Line, Script};

// The scripts: a whole report where all differs, a lost report and a restart, trials of settings, and a push that is taken for the reply.
const SCRIPTS: [&str; 4] = [
    "custom x\nsend\ndeliver 1\nreply\nattr a b\nhealth bad no\nsend\n",
    "send\ndeliver 1\nreply\nhealth bad no\nsend\ngiveup\nrestart\nsend\ndeliver 3\nreply\n\
        deliver 2\nrecord 0\n",
    "caps 901\nsend\ndeliver 1\nreply\noffer-connection 0 http://s1\nsend\ndeliver 2\nreply\n\
        send\ngiveup\nsend\ndeliver 4\nreply\nactive\noffer-connection 0 http://s2\nsend\n\
        deliver 5\nreply\nsend\ndeliver 6\nreply\nrestart\nactive\n",
    "caps 1803\nsend\ndeliver 1\nreply\noffer-config 0 x hi\npush 0\nsend\ntake-push\n\
        send\ndeliver 3\nreply\nrecord 0\n",
];

// What `simulate` writes of a script.
fn simulated(rt: &(impl Abort + AllocGlobal), script: &Script) -> Vec<u8> {
    let mut lab = Lab::new(rt.alloc());
    let mut sink = MemorySink::new(rt.alloc(), 1 << 20, Vec::new(rt.alloc()));
    simulate(&mut lab, script, &mut sink).expect(rt, "a transcript");
    drop(lab);
    let written = Vec::from_slice(rt.alloc(), sink.bytes()).expect(rt, "memory");
    drop(sink);
    written
}

// So many lines were played by hand of which the same is written.
fn right_lines(
    rt: &(impl Abort + AllocGlobal),
    desk: &mut Desk,
    disk: &mut MemDisk,
    agent: &mut Agent,
    lines: &[Line],
    written: &[u8],
) -> usize
    requires well { IsWell disk.old agent.old }
    requires few { length lines.now ≤ 1048576 }
{
    let mut right = 0;
    let mut rest = written;
    for line in lines {
        let text = plays(rt, desk, disk, agent, line);
        match rest.strip_prefix(text.as_bytes()) {
            Some(more) => rest = more,
            None => return right,
        }
        right += 1;
    }
    if rest.is_empty() { right } else { right + 1 }
}

// The same of a script, by an agent that starts from the disk.
fn right_lines_on(
    rt: &(impl Abort + AllocGlobal),
    desk: &mut Desk,
    disk: &mut MemDisk,
    script: &Script,
    written: &[u8],
) -> usize {
    let mut agent = begins(rt, disk);
    let right = right_lines(rt, desk, disk, &mut agent, script.lines(), written);
    drop(agent);
    right
}

fn right_lines_of(rt: &(impl Abort + AllocGlobal), script: &Script, written: &[u8]) -> usize {
    let mut desk = set_up(rt);
    let mut disk = MemDisk::new(rt.alloc(), Vec::new(rt.alloc()));
    let right = right_lines_on(rt, &mut desk, &mut disk, script, written);
    drop(disk);
    drop(desk);
    right
}

#[test]
fn simulate_writes_what_is_played_by_hand(rt: HostRuntime) {
    for script in &SCRIPTS {
        let script = Script::read(rt.alloc(), script.as_bytes()).expect(&rt, "a script");
        let written = simulated(&rt, &script);
        let right = right_lines_of(&rt, &script, written.as_slice());
        expect_same(&rt, &right, &script.lines().len());
        drop(script);
    }
}
