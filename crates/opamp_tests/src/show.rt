// The command `show` by worked examples.
use crate::frames::{bytes_of, frame};
use crate::reports::collector_report;
use crate::runs::expect_in_pieces;
use std::marker::Sync;
use std::process::Abort;
use std::sync::Wait;
use std::test::Fail;
use std::thread::Threads;

pub fn expect_text(
    rt: &(impl Abort + AllocGlobal + Threads + Wait + Sync),
    command: &str,
    input: &str,
    text: &str,
    status: u8,
) -> Result<(), Fail> {
    let input = bytes_of(rt.alloc(), input)?;
    expect_in_pieces(rt, command, &input, text.as_bytes(), status)
}

// Words, frames, their text and the status.
const SHOWN: [(&str, &str, &str, u8); 5] = [
    ("show report", "", "", 0),
    ("show reply", "00000000", "reply 1\n", 0),
    (
        "show reply",
        "00000006 0a00 3801 3000",
        "reply 1\ncapabilities = 1\n",
        0,
    ),
    (
        "show report",
        "00000012 1a10 0a0e 0a0164 1209 21000000000000f83f",
        "report 1\n\
            agent_description.identifying_attributes[0].key = \"d\"\n\
            agent_description.identifying_attributes[0].value.double_value = bits 3ff8000000000000\n",
        0,
    ),
    // headings count the messages, and a note is a line as it stands
    (
        "show report",
        "00000002 1001 00000000 00000001 0b",
        "report 1\nsequence_num = 1\nreport 2\nrefused at 14: Group\n",
        1,
    ),
];

#[test]
fn messages_are_shown(rt: HostRuntime) -> Result<(), Fail> {
    for (command, input, text, status) in &SHOWN {
        expect_text(&rt, command, input, text, *status)?;
    }
    Ok(())
}

// The keys of a collector's attributes, which all have the value `some value`.
const ATTRIBUTES: [&str; 6] = [
    "service.name",
    "service.version",
    "service.instance.id",
    "os.type",
    "host.name",
    "host.arch",
];

fn put(rt: &impl Abort, text: &mut String, part: &str) {
    text.push_str(part).expect(rt, "memory");
}

// The lines of a collector's attributes.
fn put_attributes(rt: &(impl Abort + AllocGlobal), text: &mut String) {
    for (index, key) in ATTRIBUTES.iter().enumerate() {
        let path = format!(in rt.alloc();
            "agent_description.identifying_attributes[{index}]"
        ).expect(rt, "memory");
        put(rt, text, &path);
        put(rt, text, ".key = \"");
        put(rt, text, key);
        put(rt, text, "\"\n");
        put(rt, text, &path);
        put(rt, text, ".value.string_value = \"some value\"\n");
    }
}

// The lines of a collector's 40 components.
fn put_components(rt: &(impl Abort + AllocGlobal), text: &mut String) {
    for number in 0..40u8 {
        let line = format!(in rt.alloc();
            "health.component_health_map[\"component {}{}\"].healthy = true\n",
            number / 10,
            number % 10
        )
        .expect(rt, "memory");
        put(rt, text, &line);
    }
}

// The text of a collector's report: each field of it, the file of 30,000 letters `c` in whole.
fn collectors_text(rt: &(impl Abort + AllocGlobal)) -> String {
    let mut text = String::new(rt.alloc());
    put(rt, &mut text, "report 1\n");
    put(
        rt,
        &mut text,
        "instance_uid = hex 000102030405060708090a0b0c0d0e0f\n",
    );
    put(rt, &mut text, "sequence_num = 1\n");
    put_attributes(rt, &mut text);
    put(
        rt,
        &mut text,
        "capabilities = 7175\nhealth.healthy = true\n",
    );
    put_components(rt, &mut text);
    put(
        rt,
        &mut text,
        "effective_config.config_map.config_map[\"collector.yaml\"].body = hex ",
    );
    for _ in 0..30_000u32 {
        put(rt, &mut text, "63");
    }
    put(
        rt,
        &mut text,
        "\nremote_config_status.last_remote_config_hash = hex abcd\n",
    );
    put(rt, &mut text, "remote_config_status.status = 1\n");
    text
}

#[test]
fn a_collectors_report_is_shown_whole(rt: HostRuntime) -> Result<(), Fail> {
    let report = collector_report(rt.alloc())?;
    assert!(rt; report.len() < 40_000);
    let input = frame(rt.alloc(), &report)?;
    let text = collectors_text(&rt);
    expect_in_pieces(&rt, "show report", &input, text.as_bytes(), 0)
}
