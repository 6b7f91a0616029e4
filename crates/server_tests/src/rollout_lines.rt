// Lines of rollouts and of agents that are forgotten. The texts follow from the table of lines by hand.
use crate::exchanges::desk;
use crate::operator_words::{UNKNOWN, WORDS, hear, is_answer};
use server_waves::ServerDesk;
use std::process::Abort;

// The first report of a healthy agent that takes configurations and tells what became of them, behind its identifier.
const PLAIN: &[u8] = b"\x10\x01\x1a\x00\x20\x83\x30\x2a\x02\x08\x01\x3a\x00";

// The same with the identifying attribute `zone` of the text `north`.
const IDENTIFIED: &[u8] =
    b"\x10\x01\x1a\x11\x0a\x0f\x0a\x04zone\x12\x07\x0a\x05north\x20\x83\x30\x2a\x02\x08\x01\x3a\x00";

// The same with that attribute as one that doesn't identify.
const DESCRIBED: &[u8] =
    b"\x10\x01\x1a\x11\x12\x0f\x0a\x04zone\x12\x07\x0a\x05north\x20\x83\x30\x2a\x02\x08\x01\x3a\x00";

// The first report of one that takes no configurations.
const OTHER: &[u8] = b"\x10\x01\x1a\x00\x20\x81\x10\x2a\x02\x08\x01";

// A second report, with which an agent leaves.
const LEAVING: &[u8] = b"\x10\x02\x20\x83\x30\x4a\x00";

// The agents 1, 2 and 3, of which 2 and 3 are in the north, and 4, which takes no configurations.
fn four(rt: &(impl Abort + AllocGlobal)) -> ServerDesk {
    let mut desk = desk(rt.alloc());
    hear(rt, &mut desk.server, &[3; 16], DESCRIBED);
    hear(rt, &mut desk.server, &[1; 16], PLAIN);
    hear(rt, &mut desk.server, &[4; 16], OTHER);
    hear(rt, &mut desk.server, &[2; 16], IDENTIFIED);
    desk
}

const NO_ROLLOUT: &str = "refused: no rollout\n";

#[test]
fn rollout_lines(rt: HostRuntime) {
    let mut desk = four(&rt);
    for (line, want) in [
        (b"rollouts".as_slice(), "end\n"),
        (b"rollout main 1/0 x - 6869", "ok\n"),
        (b"rollout main 2/1 y - -", "refused: rollout there\n"),
        (
            b"rollouts",
            "main waiting 3 offered 0 applied 0 failed 0\nend\n",
        ),
        (
            b"members main",
            "01010101-0101-0101-0101-010101010101 waiting\n02020202-0202-0202-0202-020202020202 waiting\n03030303-0303-0303-0303-030303030303 waiting\nend\n",
        ),
        (
            b"rollout North_2 18446744073709551615/18446744073709551614 where zone=north f t 31 - - -",
            "ok\n",
        ),
        (
            b"members North_2",
            "02020202-0202-0202-0202-020202020202 waiting\n03030303-0303-0303-0303-030303030303 waiting\nend\n",
        ),
        (b"rollout - 03/02 where zone=a=b where - -", "ok\n"),
        (b"members -", "end\n"),
        (b"halt main", "ok\n"),
        (
            b"rollouts",
            "main waiting 3 offered 0 applied 0 failed 0 halted\nNorth_2 waiting 2 offered 0 applied 0 failed 0\n- waiting 0 offered 0 applied 0 failed 0\nend\n",
        ),
        (b"resume main", "ok\n"),
        (b"finish North_2", "ok\n"),
        (
            b"rollouts",
            "main waiting 3 offered 0 applied 0 failed 0\n- waiting 0 offered 0 applied 0 failed 0\nend\n",
        ),
        (b"halt North_2", NO_ROLLOUT),
        (b"resume North_2", NO_ROLLOUT),
        (b"finish North_2", NO_ROLLOUT),
        (b"members North_2", NO_ROLLOUT),
    ] {
        assert!(rt; is_answer(&rt, &mut desk, line, want));
    }
    drop(desk);
}

// An agent that is forgotten leaves rollouts, by its name or with those that have left.
#[test]
fn forgotten(rt: HostRuntime) {
    let mut desk = four(&rt);
    hear(&rt, &mut desk.server, &[3; 16], LEAVING);
    for (line, want) in [
        (b"rollout main 1/0 x - 6869".as_slice(), "ok\n"),
        (
            b"members main",
            "01010101-0101-0101-0101-010101010101 waiting\n02020202-0202-0202-0202-020202020202 waiting\nend\n",
        ),
        (b"forget 02020202-0202-0202-0202-020202020202", "ok\n"),
        (b"forget 02020202-0202-0202-0202-020202020202", UNKNOWN),
        (
            b"members main",
            "01010101-0101-0101-0101-010101010101 waiting\nend\n",
        ),
        (b"forget left", "ok\n"),
        (b"forget left", "ok\n"),
        (
            b"list",
            "01010101-0101-0101-0101-010101010101 1 here healthy\n04040404-0404-0404-0404-040404040404 1 here healthy\nend\n",
        ),
    ] {
        assert!(rt; is_answer(&rt, &mut desk, line, want));
    }
    hear(&rt, &mut desk.server, &[1; 16], LEAVING);
    assert!(rt; is_answer(&rt, &mut desk, b"forget left", "ok\n"));
    assert!(rt; is_answer(&rt, &mut desk, b"members main", "end\n"));
    drop(desk);
}

// Sixteen rollouts have room, whatever they are called.
#[test]
fn too_many_rollouts(rt: HostRuntime) {
    let mut desk = desk(rt.alloc());
    for id in b"0123456789abcdef" {
        let mut line = Vec::from_slice(rt.alloc(), b"rollout ").expect(&rt, "memory");
        line.push(*id).expect(&rt, "memory");
        line.extend_from_slice(b" 1/0 x - -").expect(&rt, "memory");
        assert!(rt; is_answer(&rt, &mut desk, &line, "ok\n"));
    }
    for (line, want) in [
        (
            b"rollout g 1/0 x - -".as_slice(),
            "refused: too many rollouts\n",
        ),
        (b"rollout f 1/0 x - -", "refused: rollout there\n"),
        (b"finish 7", "ok\n"),
        (b"rollout g 1/0 x - -", "ok\n"),
    ] {
        assert!(rt; is_answer(&rt, &mut desk, line, want));
    }
    drop(desk);
}

// With a body of n bytes, of 1,048,523 or so, the offer has n + 53, as that of a `config` line.
#[test]
fn rollout_too_large(rt: HostRuntime) {
    let mut desk = desk(rt.alloc());
    let mut line = Vec::from_slice(rt.alloc(), b"rollout main 1/0 f - ").expect(&rt, "memory");
    let front = line.len();
    line.resize(front + 2 * 1_048_524, b'0')
        .expect(&rt, "memory");
    assert!(rt; is_answer(&rt, &mut desk, &line, "refused: too large\n"));
    line.truncate(front + 2 * 1_048_523);
    assert!(rt; is_answer(&rt, &mut desk, &line, "ok\n"));
    drop(desk);
}

// A name has 64 bytes at most.
#[test]
fn name_of_a_rollout(rt: HostRuntime) {
    let mut desk = desk(rt.alloc());
    let mut line = Vec::from_slice(rt.alloc(), b"finish ").expect(&rt, "memory");
    line.resize(7 + 64, b'Z').expect(&rt, "memory");
    assert!(rt; is_answer(&rt, &mut desk, &line, NO_ROLLOUT));
    line.resize(7 + 65, b'Z').expect(&rt, "memory");
    assert!(rt; is_answer(&rt, &mut desk, &line, WORDS));
    drop(desk);
}

#[test]
fn no_lines_of_rollouts(rt: HostRuntime) {
    let mut desk = four(&rt);
    for line in [
        b"rollouts all".as_slice(),
        b"members",
        b"members main all",
        b"members a.b",
        b"halt",
        b"halt a/b",
        b"halt main now",
        b"resume",
        b"finish main main",
        b"rollout",
        b"rollout main",
        b"rollout main 1/0",
        b"rollout main 1/0 x -",
        b"rollout main 1/0 x - 6869 y",
        b"rollout main 1/0 x - 686",
        b"rollout main 1/1 x - 6869",
        b"rollout main 0/0 x - 6869",
        b"rollout main 1 x - 6869",
        b"rollout main 1/0/0 x - 6869",
        b"rollout main /0 x - 6869",
        b"rollout main 1/ x - 6869",
        b"rollout main +1/0 x - 6869",
        b"rollout main 18446744073709551616/0 x - 6869",
        b"rollout m\xc3\xa4in 1/0 x - 6869",
        b"rollout main 1/0 where",
        b"rollout main 1/0 where k=v",
        b"rollout main 1/0 where - 6869",
        b"rollout main 1/0 where x - 6869",
        b"rollout main 1/0 where =v x - 6869",
        b"rollout main 1/0 where where k=v x - 6869",
        b"forget",
        b"forget Left",
        b"forget left left",
        b"forget 01010101-0101-0101-0101-010101010101 left",
    ] {
        assert!(rt; is_answer(&rt, &mut desk, line, WORDS));
    }
    assert!(rt; is_answer(&rt, &mut desk, b"rollouts", "end\n"));
    drop(desk);
}
