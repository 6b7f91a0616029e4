// Reading, with memory to spare, by what each line prints.
use crate::comparing::expect_same;
use std::process::Abort;
use world_scripts::{SCRIPT_LIMIT, Script, ScriptFail};

#[test]
fn every_kind_of_line_is_read(rt: HostRuntime) {
    let text =
        "caps 7d1f\nattr service.name a-b\nhealth ok\nhealth bad no\neffective f {}\ncustom x\nsend\ndeliver 999999\nreply\ngiveup\nrestart\nserver-restart 9\noffer-config 3 a.yaml v\noffer-connection 0 http://s1\ncomponent x\nstop 12 torn\nrecord 0\nactive";
    let want = [
        "Caps { bits: 32031 }",
        "Attr { key: Text { text: \"service.name\" }, text: Text { text: \"a-b\" } }",
        "HealthOk",
        "HealthBad { text: Text { text: \"no\" } }",
        "Effective { name: Text { text: \"f\" }, text: Text { text: \"{}\" } }",
        "Custom { name: Text { text: \"x\" } }",
        "Send",
        "Deliver { report: 999999 }",
        "Reply",
        "GiveUp",
        "Restart",
        "ServerRestart { server: ServerNumber { number: 9 } }",
        "OfferConfig { server: ServerNumber { number: 3 }, name: Text { text: \"a.yaml\" }, text: Text { text: \"v\" } }",
        "OfferConnection { server: ServerNumber { number: 0 }, url: Text { text: \"http://s1\" } }",
        "Component { name: Text { text: \"x\" } }",
        "Stop { call: 12, mode: Torn }",
        "Record { server: ServerNumber { number: 0 } }",
        "Active",
    ];
    let script = Script::read(rt.alloc(), text.as_bytes()).expect(&rt, "a script");
    expect_same(&rt, &script.lines().len(), &want.len());
    for (line, want) in script.lines().iter().zip(want.iter()) {
        let printed = format!(in rt.alloc(); "{line:?}").expect(&rt, "memory");
        expect_same(&rt, &printed.as_str(), want);
    }
    drop(script);
}

// Why these bytes are no script, if they are none.
fn refusal(rt: &impl AllocGlobal, bytes: &[u8]) -> Option<ScriptFail> {
    Script::read(rt.alloc(), bytes).err()
}

// The script is refused at this place.
fn expect_refused(rt: &(impl Abort + AllocGlobal), text: &str, place: u64) {
    let refusal = refusal(rt, text.as_bytes());
    let wanted = Some(ScriptFail::BadLine { at: place });
    expect_same(rt, &(text, refusal), &(text, wanted));
}

#[test]
fn lines_outside_the_grammar_are_refused(rt: HostRuntime) {
    let cases = [
        ("send\nfly", 5u64),
        ("send\nfly\nfly\n", 5),
        ("\n", 0),
        ("send\n\nsend", 5),
        ("send\nreply \n", 5),
        ("health ok\nhealth ok ok", 10),
        ("caps 8000", 0),
        ("caps 7D1F", 0),
        ("caps 00000000000000001", 0),
        ("deliver 0", 0),
        ("deliver 01", 0),
        ("deliver 1000000", 0),
        ("record 10", 0),
        ("send\noffer-connection 0 http://s0:80", 5),
        ("send\nstop 0 torn\n", 5),
        ("attr a\tb c", 0),
        ("custom \u{e9}", 0),
    ];
    for (text, place) in cases {
        expect_refused(&rt, text, place);
    }
}

// So many lines of five bytes.
fn sends(rt: &(impl Abort + AllocGlobal), count: usize) -> Vec<u8> {
    let mut lines = Vec::new(rt.alloc());
    for _ in 0..count {
        lines.extend_from_slice(b"send\n").expect(rt, "memory");
    }
    lines
}

#[test]
fn the_limit_is_exact(rt: HostRuntime) {
    let mut bytes = Vec::new(rt.alloc());
    bytes.resize(SCRIPT_LIMIT, b' ').expect(&rt, "memory");
    let longest = refusal(&rt, &bytes);
    bytes.push(b' ').expect(&rt, "memory");
    let longer = refusal(&rt, &bytes);
    drop(bytes);
    expect_same(&rt, &longest, &Some(ScriptFail::BadLine { at: 0 }));
    expect_same(&rt, &longer, &Some(ScriptFail::TooLarge));

    // A line of five bytes fits into the limit 209,715 times, with one byte to spare.
    let lines = sends(&rt, SCRIPT_LIMIT / 5);
    let script = Script::read(rt.alloc(), &lines).expect(&rt, "a script");
    let read = script.lines().len();
    drop(script);
    expect_same(&rt, &read, &209_715);
}
