// The command `serve --rollout` by its words, over a wire in memory.
use crate::comparing::expect_same;
use crate::frames::bytes_of;
use crate::runs::words_of;
use crate::serve::{add, add_piece, put, told, told_of};
use edge_devices::{Given, Kind};
use plain_values::Text;
use std::process::Abort;

// Reports of the agents `U`, with the identifier 00 to 0f, and `V`, with 10 in the place of 0f, and replies to them, behind the header of WebSocket. The
// agents take configurations, report on them and are healthy. The offer is of the file `x` with the bytes `hi`, under the hash of these bytes' message.
const OTHER: &str = "000102030405060708090a0b0c0d0e10";

const FIRST: &str = "00 0a10 V 1001 1a00 208330 2a020801 3a00";

const SAME: &str = "00 0a10 V 1002 208330";

const APPLIED: &str = "00 0a10 V 1003 208330 3a24 0a20 \
    8cfcbc1126b7061e6a84e59099f42adfc713823dd1ae0a1a735bfe6e6e39eda3 1001";

const FAILED: &str = "00 0a10 V 1003 208330 3a24 0a20 \
    8cfcbc1126b7061e6a84e59099f42adfc713823dd1ae0a1a735bfe6e6e39eda3 1003";

const PLAIN: &str = "00 0a10 V 383f";

const OFFERED: &str = "00 0a10 V 1a2f 0a0b0a090a017812040a026869 1220 \
    8cfcbc1126b7061e6a84e59099f42adfc713823dd1ae0a1a735bfe6e6e39eda3 383f";

// The bytes of digits in which `V` stands for the agent of that connection.
fn bytes_for(rt: &(impl Abort + AllocGlobal), conn: u64, digits: &str) -> Vec<u8> {
    let agent = if conn == 1 { "U" } else { OTHER };
    let mut whole = String::new(rt.alloc());
    for c in digits.chars() {
        if c == 'V' {
            whole.push_str(agent).expect(rt, "memory");
        } else {
            whole.push(c).expect(rt, "memory");
        }
    }
    bytes_of(rt.alloc(), whole.as_str()).expect(rt, "memory")
}

// The first report of each agent, on a connection of its own.
fn begun(rt: &(impl Abort + AllocGlobal), conns: &[u64]) -> Vec<Given> {
    let mut events = Vec::new(rt.alloc());
    for conn in conns {
        let report = bytes_for(rt, *conn, FIRST);
        add(rt, &mut events, *conn, Kind::Ws, report.as_slice());
    }
    events
}

// Both agents report, the first one applies the offer, the second one fails it, and an operator ends the run.
fn two_agents(rt: &(impl Abort + AllocGlobal)) -> Vec<Given> {
    let mut events = begun(rt, &[1, 2]);
    for (conn, report) in [(1u64, SAME), (1, APPLIED), (2, SAME), (2, FAILED)] {
        let report = bytes_for(rt, conn, report);
        add_piece(rt, &mut events, conn, report.as_slice());
    }
    add(rt, &mut events, 3, Kind::Operator, b"stop\n");
    events
}

// What goes out to the agents, behind the three addresses.
fn sent(rt: &(impl Abort + AllocGlobal), replies: &[(u64, &str)], end: &[u8]) -> Vec<u8> {
    let mut all = Vec::new(rt.alloc());
    put(
        rt,
        &mut all,
        b"127.0.0.1:4321|127.0.0.1:4320|127.0.0.1:4322|",
    );
    for (conn, reply) in replies {
        put(rt, &mut all, &bytes_for(rt, *conn, reply));
        put(rt, &mut all, b"|");
    }
    put(rt, &mut all, end);
    all
}

// The second reply to each agent carries the offer, that to the second one only where the first has applied it.
const HALTED: [(u64, &str); 6] = [
    (1, PLAIN),
    (2, PLAIN),
    (1, OFFERED),
    (1, PLAIN),
    (2, OFFERED),
    (2, PLAIN),
];

#[test]
fn rollout_halts(rt: HostRuntime) {
    let told = told(&rt, "serve --rollout 1/0/x/6869", two_agents(&rt));
    let end = b"ok\n|events 10\nrollout waiting 0 offered 0 applied 1 failed 1 halted\n\x00";
    let want = sent(&rt, &HALTED, end);
    expect_same(&rt, &told.as_slice(), &want.as_slice());
}

#[test]
fn rollout_begins(rt: HostRuntime) {
    let told = told(
        &rt,
        "serve --rollout 1/0/x/6869 --turns 2",
        begun(&rt, &[1]),
    );
    let end = b"events 2\nrollout waiting 0 offered 1 applied 0 failed 0\n\x09";
    let want = sent(&rt, &[(1, PLAIN)], end);
    expect_same(&rt, &told.as_slice(), &want.as_slice());
}

// With pushes the offer goes out behind the agent's first full report, on its connection, before its next report.
#[test]
fn rollouts_are_pushed(rt: HostRuntime) {
    let end = b"events 2\nrollout waiting 0 offered 1 applied 0 failed 0\n\x09";
    let want = sent(&rt, &[(1, PLAIN), (1, OFFERED)], end);
    for words in [
        "serve --push --rollout 1/0/x/6869 --turns 2",
        "serve --rollout 1/0/x/6869 --push --turns 2",
    ] {
        let told = told(&rt, words, begun(&rt, &[1]));
        expect_same(&rt, &told.as_slice(), &want.as_slice());
    }
}

// Both agents report; an operator begins the rollout; the first one applies the offer, the second one fails it; and the operator asks, and ends the run.
fn steered(rt: &(impl Abort + AllocGlobal)) -> Vec<Given> {
    let mut events = begun(rt, &[1, 2]);
    add(
        rt,
        &mut events,
        3,
        Kind::Operator,
        b"rollout main 1/0 x - 6869\nrollout main 1/0 x - 6869\nhalt other\n",
    );
    for (conn, report) in [(1u64, SAME), (1, APPLIED), (2, SAME), (2, FAILED)] {
        let report = bytes_for(rt, conn, report);
        add_piece(rt, &mut events, conn, report.as_slice());
    }
    add_piece(
        rt,
        &mut events,
        3,
        b"rollouts\nmembers main\nfinish main\nrollouts\nstop\n",
    );
    events
}

// What goes out where the rollout is begun by a line: the replies are those of `HALTED`, with the operator's answers between them.
#[test]
fn rollouts_are_steered_by_lines(rt: HostRuntime) {
    let told = told(&rt, "serve", steered(&rt));
    let mut want = sent(&rt, &[(1, PLAIN), (2, PLAIN)], b"ok\n|");
    put(
        &rt,
        &mut want,
        b"refused: rollout there\n|refused: no rollout\n|",
    );
    for (conn, reply) in [(1, OFFERED), (1, PLAIN), (2, OFFERED), (2, PLAIN)] {
        put(&rt, &mut want, &bytes_for(&rt, conn, reply));
        put(&rt, &mut want, b"|");
    }
    let end = b"main waiting 0 offered 0 applied 1 failed 1 halted\nend\n|\
        00010203-0405-0607-0809-0a0b0c0d0e0f applied\n\
        00010203-0405-0607-0809-0a0b0c0d0e10 failed\nend\n|ok\n|end\n|ok\n|events 11\n\x00";
    put(&rt, &mut want, end);
    expect_same(&rt, &told.as_slice(), &want.as_slice());
}

// Words that name no rollout: no address is listened to, and nothing is written.
const REFUSED: [&str; 20] = [
    "serve --rollout 1/0/x/- --rollout 1/0/x/-",
    "agent --rollout 1/0/x/6869",
    "serve --rollout",
    "serve --rollout 1/0/x",
    "serve --rollout 1/0/x/-/-",
    "serve --rollout /0/x/-",
    "serve --rollout 1//x/-",
    "serve --rollout 1/0//-",
    "serve --rollout 1/1/x/-",
    "serve --rollout 1/2/x/-",
    "serve --rollout 0/0/x/-",
    "serve --rollout +1/0/x/-",
    "serve --rollout 1/-0/x/-",
    "serve --rollout 18446744073709551616/0/x/-",
    "serve --rollout 000000000000000000001/0/x/-",
    "serve --rollout 1/0/.x/-",
    "serve --rollout 1/0/x*/-",
    "serve --rollout 1/0/x/6",
    "serve --rollout 1/0/x/zz",
    "serve --rollout 1/0/x/--",
];

#[test]
fn other_forms_are_refused(rt: HostRuntime) {
    for line in REFUSED {
        let told = told(&rt, line, begun(&rt, &[1]));
        expect_same(&rt, &(line, told.as_slice()), &(line, b"\x02".as_slice()));
    }
}

// The words of a rollout of the file `x` with so many bytes 0.
fn words_with(rt: &(impl Abort + AllocGlobal), len: usize) -> Vec<Text> {
    let mut words = words_of(rt.alloc(), "serve --turns 0 --rollout").expect(rt, "memory");
    let digits = vec![in rt.alloc(); b'0'; len.saturating_mul(2)].expect(rt, "memory");
    let digits = String::from_utf8(digits).expect(rt, "digits");
    let word = format!(in rt.alloc(); "1/0/x/{digits}").expect(rt, "memory");
    words.push(Text::of(word)).expect(rt, "memory");
    words
}

// What a run without events writes.
const NOTHING: &[u8] = b"events 0\nrollout waiting 0 offered 0 applied 0 failed 0\n\x09";

// The offer's message has 53 bytes beside the file's, so that with 1,048,523 of these it has 1,048,576. One more is too much, and then nothing is done.
#[test]
fn too_large(rt: HostRuntime) {
    let most = told_of(&rt, &words_with(&rt, 1_048_523), begun(&rt, &[1]));
    let none = told_of(&rt, &words_with(&rt, 1_048_524), begun(&rt, &[1]));
    let want = sent(&rt, &[], NOTHING);
    expect_same(&rt, &most.as_slice(), &want.as_slice());
    expect_same(&rt, &none.as_slice(), &b"\x0b".as_slice());
}

// No content is written as `-` or as nothing.
#[test]
fn empty_files(rt: HostRuntime) {
    for line in [
        "serve --turns 0 --rollout 1/0/x/-",
        "serve --turns 0 --rollout=1/0/x/",
    ] {
        let told = told(&rt, line, begun(&rt, &[1]));
        let want = sent(&rt, &[], NOTHING);
        expect_same(&rt, &(line, told.as_slice()), &(line, want.as_slice()));
    }
}
