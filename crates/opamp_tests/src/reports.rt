//! Messages that are large or deep.

use crate::frames::bytes_of;
use plain_values::NoMemory;
use std::alloc::Global;

/// The messages of health nested in components: the innermost holds `inner`, and 49 components stand round it.
pub fn nested(alloc: Global, inner: &str) -> Result<Vec<u8>, NoMemory> {
    let mut health = bytes_of(alloc, inner)?;
    for _ in 0..49 {
        let entry = field(alloc, 0x12, &health)?;
        health = field(alloc, 0x32, &entry)?;
    }
    field(alloc, 0x2a, &health)
}

/// A field of a message: its tag, its length and its bytes.
pub fn field(alloc: Global, tag: u8, bytes: &[u8]) -> Result<Vec<u8>, NoMemory> {
    let mut field = Vec::new(alloc);
    field.push(tag)?;
    let mut rest = bytes.len();
    for _ in 0..9 {
        if rest < 128 {
            break;
        }
        field.push((rest % 128) as u8 + 128)?;
        rest /= 128;
    }
    field.push((rest % 128) as u8)?;
    field.extend_from_slice(bytes)?;
    Ok(field)
}

fn attribute(alloc: Global, key: &str) -> Result<Vec<u8>, NoMemory> {
    let mut pair = field(alloc, 0x0a, key.as_bytes())?;
    let value = field(alloc, 0x0a, b"some value")?;
    pair.extend_from_slice(&field(alloc, 0x12, &value)?)?;
    field(alloc, 0x0a, &pair)
}

// A healthy agent with so many healthy components.
fn healthy(alloc: Global, components: u8) -> Result<Vec<u8>, NoMemory> {
    let mut health = bytes_of(alloc, "0801")?;
    for number in 0..components {
        let key = format!(in alloc; "component {}{}", number / 10, number % 10)?;
        let mut entry = field(alloc, 0x0a, key.as_bytes())?;
        entry.extend_from_slice(&field(alloc, 0x12, &[0x08, 0x01])?)?;
        health.extend_from_slice(&field(alloc, 0x32, &entry)?)?;
    }
    field(alloc, 0x2a, &health)
}

// An effective configuration of one file of 30,000 bytes.
fn configured(alloc: Global) -> Result<Vec<u8>, NoMemory> {
    let mut body = Vec::new(alloc);
    body.resize(30_000, b'c')?;
    let mut entry = field(alloc, 0x0a, b"collector.yaml")?;
    let file = field(alloc, 0x0a, &body)?;
    entry.extend_from_slice(&field(alloc, 0x12, &file)?)?;
    let map = field(alloc, 0x0a, &entry)?;
    let config = field(alloc, 0x0a, &map)?;
    field(alloc, 0x32, &config)
}

/// A collector's report: seven fields.
pub fn collector_report(alloc: Global) -> Result<Vec<u8>, NoMemory> {
    let mut description = Vec::new(alloc);
    for key in [
        "service.name",
        "service.version",
        "service.instance.id",
        "os.type",
        "host.name",
        "host.arch",
    ] {
        description.extend_from_slice(&attribute(alloc, key)?)?;
    }
    let mut report = bytes_of(alloc, "0a10 U 1001")?;
    report.extend_from_slice(&field(alloc, 0x1a, &description)?)?;
    report.extend_from_slice(&bytes_of(alloc, "208738")?)?;
    report.extend_from_slice(&healthy(alloc, 40)?)?;
    report.extend_from_slice(&configured(alloc)?)?;
    report.extend_from_slice(&bytes_of(alloc, "3a06 0a02 abcd 1001")?)?;
    Ok(report)
}
