// The command `check` by worked examples: what a report lacks, by its own capabilities.
use crate::show::expect_text;
use std::marker::Sync;
use std::process::Abort;
use std::sync::Wait;
use std::test::Fail;
use std::thread::Threads;

// Frames, the lines of their reports and the status.
const CHECKED: [(&str, &str, u8); 6] = [
    ("", "", 0),
    // of no capabilities the description alone is wanted
    ("00000000", "report 1 lacks agent_description\n", 0),
    // health is there, the effective configuration isn't
    (
        "00000009 1a00 208510 2a020801",
        "report 1 lacks effective_config\n",
        0,
    ),
    // capabilities 1, 4, 0x10, 0x800, 0x1000 and 0x4000, and nothing of what they oblige to
    (
        "00000004 2095b001",
        "report 1 lacks agent_description health effective_config remote_config_status package_statuses available_components\n",
        0,
    ),
    // a part that isn't obliged doesn't make it less full
    ("00000008 1a00 2001 2a020801", "report 1 full\n", 0),
    // lines count the reports, and a note is a line as it stands
    (
        "0000001d 0a10 U 1001 1a00 208110 2a020801 0000001b 0a10 U 1004 208110 2a020801 00000001 0b",
        "report 1 full\nreport 2 lacks agent_description\nrefused at 68: Group\n",
        1,
    ),
];

#[test]
fn reports_are_checked(rt: HostRuntime) -> Result<(), Fail> {
    for (input, text, status) in &CHECKED {
        expect_text(&rt, "check", input, text, *status)?;
    }
    Ok(())
}
