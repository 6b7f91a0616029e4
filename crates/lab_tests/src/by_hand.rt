// Worked scripts, of which each line is played by its own call. What is written of it is compared before the next one is played.

ghost use Rattle.std.specs.Prelude.{◌≡◌, ◌≤◌, [], length, map};
ghost use Rattle.world_lab.specs.Histories.{server_after, server_numbers};
ghost use Rattle.world_lab.specs.Mirrors.{HasGenerations, IsMirror, Mirrors, Plays};
ghost use Rattle.world_lab.specs.Playing.{first_progress};

use crate::comparing::expect_same;
use message_values::CustomCapabilities;
use plain_values::List;
use server_core::Server;
use std::alloc::Global;
use std::process::Abort;
use world_lab::laws::lines_make_one_event;
use world_lab::playing::play_line;
use world_lab::plays::{Play, opening};
use world_lab::text::put_written;
use world_lab::written::Written;
use world_scripts::{Line, Script};

// A script, and what is written of each of its lines.
struct Example {
    name: &'static str,
    script: &'static str,
    written: &'static [&'static str],
}

const EXAMPLES: [Example; 4] = [
    Example {
        name: "a report is lost, and the agent restarts",
        script: "send\ndeliver 1\nreply\nhealth bad no\nsend\ngiveup\nrestart\nsend\n\
            deliver 3\nreply\ndeliver 2\nrecord 0\n",
        written: &[
            "sent 1 0 1 whole 0a10000102030405060708090a0b0c0d0e0f10011a002081102a0208016200\n",
            "takes 0 1\n",
            "plain\n",
            "changed\n",
            "sent 2 0 2 delta 0a10000102030405060708090a0b0c0d0e0f10022081102a041a026e6f\n",
            "gave-up\n",
            "restarted 1025 http://s0\n",
            "sent 3 0 1025 whole 0a10000102030405060708090a0b0c0d0e0f1081081a002081102a041a026e6f6200\n",
            "takes 0 1025\n",
            "plain\n",
            "asks 0\n",
            "record 0 1025 0a10000102030405060708090a0b0c0d0e0f1081081a002081102a041a026e6f6200\n",
        ],
    },
    Example {
        name: "a trial is given up, another one is kept",
        script: "caps 901\nsend\ndeliver 1\nreply\noffer-connection 0 http://s1\nsend\ndeliver 2\nreply\n\
            send\ngiveup\nsend\ndeliver 4\nreply\nactive\noffer-connection 0 http://s2\nsend\n\
            deliver 5\nreply\nsend\ndeliver 6\nreply\nrestart\nactive\n",
        written: &[
            "changed\n",
            "sent 1 0 1 whole 0a10000102030405060708090a0b0c0d0e0f10011a002081122a0208016200\n",
            "takes 0 1\n",
            "plain\n",
            "offered\n",
            "sent 2 0 2 delta 0a10000102030405060708090a0b0c0d0e0f1002208112\n",
            "takes 0 2\n",
            "plain try http://s1\n",
            "sent 3 1 3 whole 0a10000102030405060708090a0b0c0d0e0f10031a002081122a0208016200\n",
            "gave-up abandoned http://s1\n",
            "sent 4 0 4 whole 0a10000102030405060708090a0b0c0d0e0f10041a002081122a0208016200\n",
            "takes 0 4\n",
            "plain\n",
            "active http://s0\n",
            "offered\n",
            "sent 5 0 5 delta 0a10000102030405060708090a0b0c0d0e0f1005208112\n",
            "takes 0 5\n",
            "plain try http://s2\n",
            "sent 6 2 6 whole 0a10000102030405060708090a0b0c0d0e0f10061a002081122a0208016200\n",
            "takes 2 6\n",
            "plain kept http://s2\n",
            "restarted 1025 http://s2\n",
            "active http://s2\n",
        ],
    },
    Example {
        name: "a push is taken for the reply",
        script: "caps 1803\nsend\ndeliver 1\nreply\noffer-config 0 x hi\npush 0\nsend\ntake-push\n\
            send\ndeliver 3\nreply\nrecord 0\n",
        written: &[
            "changed\n",
            "sent 1 0 1 whole 0a10000102030405060708090a0b0c0d0e0f10011a002083302a0208013a006200\n",
            "takes 0 1\n",
            "plain\n",
            "offered\n",
            "pushed 0\n",
            "sent 2 0 2 delta 0a10000102030405060708090a0b0c0d0e0f1002208330\n",
            "plain config applied\n",
            "sent 3 0 3 delta 0a10000102030405060708090a0b0c0d0e0f10032083303a240a208cfcbc1126b7061e6a84e59099f42adfc713823dd1ae0a1a735bfe6e6e39eda31001\n",
            "asks 0\n",
            "full\n",
            "record 0 1 0a10000102030405060708090a0b0c0d0e0f10011a002083302a0208013a006200\n",
        ],
    },
    Example {
        name: "pushes wait until the agent gives up, starts again or tries settings",
        script: "push 0\ntake-push\nsend\ndeliver 1\nreply\npush 0\npush 1\nsend\ngiveup\nsend\ntake-push\n\
            push 0\nrestart\nsend\ntake-push\ndeliver 4\nreply\npush 0\npush 0\ntake-push\nsend\ntake-push\ntake-push\n\
            send\ntake-push\nsend\ntake-push\n",
        written: &[
            "nothing\n",
            "nothing\n",
            "sent 1 0 1 whole 0a10000102030405060708090a0b0c0d0e0f10011a002081102a0208016200\n",
            "takes 0 1\n",
            "plain\n",
            "pushed 0\n",
            "nothing\n",
            "sent 2 0 2 delta 0a10000102030405060708090a0b0c0d0e0f1002208110\n",
            "gave-up\n",
            "sent 3 0 3 whole 0a10000102030405060708090a0b0c0d0e0f10031a002081102a0208016200\n",
            "nothing\n",
            "pushed 0\n",
            "restarted 1025 http://s0\n",
            "sent 4 0 1025 whole 0a10000102030405060708090a0b0c0d0e0f1081081a002081102a0208016200\n",
            "nothing\n",
            "takes 0 1025\n",
            "plain\n",
            "pushed 0\n",
            "pushed 0\n",
            "nothing\n",
            "sent 5 0 1026 delta 0a10000102030405060708090a0b0c0d0e0f108208208110\n",
            "plain\n",
            "nothing\n",
            "sent 6 0 1027 delta 0a10000102030405060708090a0b0c0d0e0f108308208110\n",
            "plain\n",
            "sent 7 0 1028 delta 0a10000102030405060708090a0b0c0d0e0f108408208110\n",
            "nothing\n",
        ],
    },
];

// A server that no report reached.
fn fresh_server(alloc: Global) -> Server
    ensures fresh { result ≡ server_after [] }
{
    let custom = CustomCapabilities {
        capabilities: List::new(alloc),
    };
    Server::new(alloc, 63, custom)
}

// The ten servers of a lab.
fn fresh_servers(alloc: Global) -> [Server; 10]
    ensures fresh { result ≡ map (λ server. server_after []) server_numbers }
{
    [
        fresh_server(alloc),
        fresh_server(alloc),
        fresh_server(alloc),
        fresh_server(alloc),
        fresh_server(alloc),
        fresh_server(alloc),
        fresh_server(alloc),
        fresh_server(alloc),
        fresh_server(alloc),
        fresh_server(alloc),
    ]
}

// What is written of a line that is played. By an arm and not by `expect`, so that what the call ensures of its Ok stands there for the clause.
fn played(rt: &impl Abort, play: &mut Play, servers: &mut [Server], line: &Line) -> Written
    requires mirror { IsMirror play.old servers.old }
    requires generations { HasGenerations 4 play.old.host }
    ensures played { Plays line.now play.old servers.old play.new servers.new result }
{
    let Ok(written) = play_line(play, servers, line) else {
        panic!(rt; "memory");
    };
    written
}

// The number of the first lines of which what is wanted was written, up to the first other one.
fn right_lines(
    rt: &impl Abort,
    play: &mut Play,
    servers: &mut [Server],
    lines: &[Line],
    written: &[&str],
) -> usize
    requires opened { Mirrors first_progress play.old servers.old }
    requires few { length lines.now ≤ 1048576 }
{
    lines_make_one_event();
    let alloc = play.alloc;
    let mut text = String::new(alloc);
    let mut right = 0;
    for line in lines {
        text.clear();
        let shown = played(rt, play, servers, line);
        put_written(alloc, &mut text, &shown).expect(rt, "memory");
        drop(shown);
        if written.get(right) != Some(&text.as_str()) {
            return right;
        }
        right += 1;
    }
    right
}

// The same of a script, in a lab that is opened for it.
fn right_lines_of(rt: &(impl Abort + AllocGlobal), script: &Script, written: &[&str]) -> usize {
    let mut servers = fresh_servers(rt.alloc());
    let Ok(mut play) = opening(rt.alloc()) else {
        panic!(rt; "memory");
    };
    let right = right_lines(rt, &mut play, &mut servers, script.lines(), written);
    drop(play);
    drop(servers);
    right
}

#[test]
fn scripts_are_played_by_hand(rt: HostRuntime) {
    for example in &EXAMPLES {
        let script = Script::read(rt.alloc(), example.script.as_bytes()).expect(&rt, "a script");
        let right = right_lines_of(&rt, &script, example.written);
        let wanted = (example.name, example.written.len());
        expect_same(&rt, &(example.name, script.lines().len()), &wanted);
        expect_same(&rt, &(example.name, right), &wanted);
        drop(script);
    }
}
