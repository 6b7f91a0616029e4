// Scripts with restarts, offers, trials, stops, components and pushes, by worked examples.

use crate::simulate::{Example, expect_output, expect_played, played};
use std::marker::Sync;
use std::process::Abort;
use std::sync::Wait;
use std::test::Fail;
use std::thread::Threads;

const EXAMPLES: [Example; 9] = [
    Example {
        name: "delta lost, then a restart",
        script: "send\ndeliver 1\nreply\nhealth bad no\nsend\ngiveup\nrestart\nsend\n\
            deliver 3\nreply\ndeliver 2\nrecord 0\n",
        written: "sent 1 0 1 whole 0a10U10011a002081102a0208016200\n\
            takes 0 1\nplain\nchanged\n\
            sent 2 0 2 delta 0a10U10022081102a041a026e6f\n\
            gave-up\nrestarted 1025 http://s0\n\
            sent 3 0 1025 whole 0a10U1081081a002081102a041a026e6f6200\n\
            takes 0 1025\nplain\nasks 0\n\
            record 0 1025 0a10U1081081a002081102a041a026e6f6200\n",
        status: 0,
    },
    Example {
        name: "trial given up and kept",
        script: "caps 901\nsend\ndeliver 1\nreply\noffer-connection 0 http://s1\n\
            send\ndeliver 2\nreply\nsend\ngiveup\nsend\ndeliver 4\nreply\nactive\n\
            offer-connection 0 http://s2\nsend\ndeliver 5\nreply\nsend\ndeliver 6\nreply\n\
            restart\nactive\n",
        written: "changed\n\
            sent 1 0 1 whole 0a10U10011a002081122a0208016200\n\
            takes 0 1\nplain\noffered\n\
            sent 2 0 2 delta 0a10U1002208112\n\
            takes 0 2\nplain try http://s1\n\
            sent 3 1 3 whole 0a10U10031a002081122a0208016200\n\
            gave-up abandoned http://s1\n\
            sent 4 0 4 whole 0a10U10041a002081122a0208016200\n\
            takes 0 4\nplain\nactive http://s0\noffered\n\
            sent 5 0 5 delta 0a10U1005208112\n\
            takes 0 5\nplain try http://s2\n\
            sent 6 2 6 whole 0a10U10061a002081122a0208016200\n\
            takes 2 6\nplain kept http://s2\n\
            restarted 1025 http://s2\nactive http://s2\n",
        status: 0,
    },
    Example {
        name: "trial refused",
        script: "caps 901\nsend\ndeliver 1\nreply\noffer-connection 0 wss://s1\n\
            send\ndeliver 2\nreply\nsend\ngiveup\nsend\ndeliver 4\nreply\nactive\n\
            offer-connection 0 http://s2\nsend\ndeliver 5\nreply\nsend\ndeliver 6\nreply\n\
            restart\nactive\n",
        written: "changed\n\
            sent 1 0 1 whole 0a10U10011a002081122a0208016200\n\
            takes 0 1\nplain\noffered\n\
            sent 2 0 2 delta 0a10U1002208112\n\
            takes 0 2\nplain refused wss://s1\n\
            sent 3 0 3 delta 0a10U1003208112\n\
            gave-up\n\
            sent 4 0 4 whole 0a10U10041a002081122a0208016200\n\
            takes 0 4\nplain refused wss://s1\nactive http://s0\noffered\n\
            sent 5 0 5 delta 0a10U1005208112\n\
            takes 0 5\nplain try http://s2\n\
            sent 6 2 6 whole 0a10U10061a002081122a0208016200\n\
            takes 2 6\nplain kept http://s2\n\
            restarted 1025 http://s2\nactive http://s2\n",
        status: 0,
    },
    Example {
        name: "bad name fails",
        script: "caps 1803\nsend\ndeliver 1\nreply\noffer-config 0 ../x hi\n\
            send\ndeliver 2\nreply\nsend\ndeliver 3\nreply\nactive\n",
        written: "changed\n\
            sent 1 0 1 whole 0a10U10011a002083302a0208013a006200\n\
            takes 0 1\nplain\noffered\n\
            sent 2 0 2 delta 0a10U1002208330\n\
            takes 0 2\nplain config failed\n\
            sent 3 0 3 delta 0a10U10032083303a2e0a20\
            931fcc8dc80ec224d1f1ec508b95cf1465b3810b4501420b00c00fcac141d576\
            10031a08626164206e616d65\n\
            takes 0 3\nplain\nactive http://s0\n",
        status: 0,
    },
    Example {
        name: "stopped before it was kept",
        script: "caps 1803\nsend\ndeliver 1\nreply\noffer-config 0 x hi\n\
            send\ndeliver 2\nstop 1 old\nreply\nactive\nsend\ndeliver 3\nreply\nactive\nsend\n",
        written: "changed\n\
            sent 1 0 1 whole 0a10U10011a002083302a0208013a006200\n\
            takes 0 1\nplain\noffered\n\
            sent 2 0 2 delta 0a10U1002208330\n\
            takes 0 2\ncrashed 1025 http://s0\nactive http://s0\n\
            sent 3 0 1025 whole 0a10U1081081a002083302a0208013a006200\n\
            takes 0 1025\nplain config applied\nactive http://s0 x=6869\n\
            sent 4 0 1026 delta 0a10U1082082083303a240a20\
            8cfcbc1126b7061e6a84e59099f42adfc713823dd1ae0a1a735bfe6e6e39eda3\
            1001\n",
        status: 0,
    },
    Example {
        name: "first send stopped",
        script: "stop 1 torn\nsend\nsend\n",
        written: "crashed 1 http://s0\n\
            sent 1 0 1 whole 0a10U10011a002081102a0208016200\n",
        status: 0,
    },
    Example {
        name: "component is told once",
        script: "caps 4801\ncomponent x\nsend\ndeliver 1\nreply\nsend\ndeliver 2\nreply\nsend\n",
        written: "changed\nchanged\n\
            sent 1 0 1 whole 0a10U10011a00208190012a020801620072221220\
            35d76edd4471943dd9a9d7079e5d11b3214286e4c84c85d2b2932f8cd3157763\n\
            takes 0 1\nplain\n\
            sent 2 0 2 delta 0a10U10022081900172290a050a017812001220\
            35d76edd4471943dd9a9d7079e5d11b3214286e4c84c85d2b2932f8cd3157763\n\
            takes 0 2\nplain\n\
            sent 3 0 3 delta 0a10U100320819001\n",
        status: 0,
    },
    Example {
        name: "components after a restart",
        script: "caps 4801\ncomponent x\nsend\ndeliver 1\nreply\nsend\ndeliver 2\nreply\n\
            component y\nrestart\nsend\n",
        written: "changed\nchanged\n\
            sent 1 0 1 whole 0a10U10011a00208190012a020801620072221220\
            35d76edd4471943dd9a9d7079e5d11b3214286e4c84c85d2b2932f8cd3157763\n\
            takes 0 1\nplain\n\
            sent 2 0 2 delta 0a10U10022081900172290a050a017812001220\
            35d76edd4471943dd9a9d7079e5d11b3214286e4c84c85d2b2932f8cd3157763\n\
            takes 0 2\nplain\nchanged\nrestarted 1025 http://s0\n\
            sent 3 0 1025 whole 0a10U1081081a00208190012a020801620072300a050a017812000a050a01791200\
            12209b2707962cd687068dbab0af7166618cd2373815f0a5b95053ad3acbf99fda88\n",
        status: 0,
    },
    Example {
        name: "a push is taken for the reply",
        script: "caps 1803\nsend\ndeliver 1\nreply\noffer-config 0 x hi\npush 0\nsend\ntake-push\n\
            send\ndeliver 3\nreply\nrecord 0\n",
        written: "changed\n\
            sent 1 0 1 whole 0a10U10011a002083302a0208013a006200\n\
            takes 0 1\nplain\noffered\npushed 0\n\
            sent 2 0 2 delta 0a10U1002208330\n\
            plain config applied\n\
            sent 3 0 3 delta 0a10U10032083303a240a20\
            8cfcbc1126b7061e6a84e59099f42adfc713823dd1ae0a1a735bfe6e6e39eda3\
            1001\n\
            asks 0\nfull\n\
            record 0 1 0a10U10011a002083302a0208013a006200\n",
        status: 0,
    },
];

#[test]
fn scripts_of_agents(rt: HostRuntime) -> Result<(), Fail> {
    for example in &EXAMPLES {
        expect_played(&rt, example)?;
    }
    Ok(())
}

// The example of the two trials as far as the delivery of the report that proves the second.
const TWO_TRIALS: &str = "caps 901\nsend\ndeliver 1\nreply\noffer-connection 0 http://s1\n\
    send\ndeliver 2\nreply\nsend\ngiveup\nsend\ndeliver 4\nreply\nactive\n\
    offer-connection 0 http://s2\nsend\ndeliver 5\nreply\nsend\ndeliver 6\n";

const TWO_TRIALS_WRITTEN: &str = "changed\n\
    sent 1 0 1 whole 0a10U10011a002081122a0208016200\n\
    takes 0 1\nplain\noffered\n\
    sent 2 0 2 delta 0a10U1002208112\n\
    takes 0 2\nplain try http://s1\n\
    sent 3 1 3 whole 0a10U10031a002081122a0208016200\n\
    gave-up abandoned http://s1\n\
    sent 4 0 4 whole 0a10U10041a002081122a0208016200\n\
    takes 0 4\nplain\nactive http://s0\noffered\n\
    sent 5 0 5 delta 0a10U1005208112\n\
    takes 0 5\nplain try http://s2\n\
    sent 6 2 6 whole 0a10U10061a002081122a0208016200\n\
    takes 2 6\n";

// What the last two lines write: the former settings came back, the tried ones did, or nothing was stopped.
const FORMER: &str = "crashed 1025 http://s0\n\
    sent 7 0 1025 whole 0a10U1081081a002081122a0208016200\n";

const TRIED: &str = "crashed 1025 http://s2\n\
    sent 7 2 1025 whole 0a10U1081081a002081122a0208016200\n";

const KEPT: &str = "plain kept http://s2\nsent 7 2 7 delta 0a10U1007208112\n";

// A stop in the line `reply`, and what this and the line `send` behind it write.
const STOPS: [(&str, &str); 16] = [
    ("stop 1 old", FORMER),
    ("stop 2 old", FORMER),
    ("stop 3 old", FORMER),
    ("stop 4 old", FORMER),
    ("stop 5 old", KEPT),
    ("stop 1 new", FORMER),
    ("stop 2 new", FORMER),
    ("stop 3 new", TRIED),
    ("stop 4 new", TRIED),
    ("stop 5 new", KEPT),
    ("stop 1 torn", FORMER),
    ("stop 2 torn", FORMER),
    ("stop 3 torn", FORMER),
    ("stop 4 torn", FORMER),
    ("stop 5 torn", KEPT),
    ("stop 999999 torn", KEPT),
];

fn expect_stopped(
    rt: &(impl Abort + AllocGlobal + Threads + Wait + Sync),
    stop: &str,
    ending: &str,
) -> Result<(), Fail> {
    let script = format!(in rt.alloc(); "{TWO_TRIALS}{stop}\nreply\nsend\n")?;
    let written = format!(in rt.alloc(); "{TWO_TRIALS_WRITTEN}{ending}")?;
    let ran = played(rt, script.as_bytes(), 4_096, &[], &[])?;
    expect_output(rt, &ran, &written, 0, stop)
}

// The save of proved settings is four device calls, and is stopped in each of them in each mode.
#[test]
fn stops_while_storing(rt: HostRuntime) -> Result<(), Fail> {
    for (stop, ending) in &STOPS {
        expect_stopped(&rt, stop, ending)?;
    }
    Ok(())
}
