//! Names of files.

ghost use Rattle.std.specs.Prelude.{◌≡◌, nat_le, ◌&&◌};
ghost use Rattle.std.specs.List.{list_all};
ghost use Rattle.edge_devices.specs.Names.{is_name_byte, begins_with_dot, is_good_name, is_good_among, are_good_names};

use plain_values::AgentConfigMap;

// A letter, a digit, `.`, `_` or `-`.
fn is_name_character(byte: u8) -> bool
    ensures { result ≡ is_name_byte byte }
{
    matches!(byte, b'a'..=b'z' | b'A'..=b'Z' | b'0'..=b'9' | b'.' | b'_' | b'-')
}

/// Whether a file may have that name: it has one to 255 letters, digits, `.`, `_` or `-` and does not begin with `.`.
/// Takes no memory.
pub fn name_good(name: &str) -> bool
    ensures { result ≡ is_good_name name.now }
{
    let bytes = name.as_bytes();
    if !is_short(bytes.len()) {
        return false;
    }
    if is_hidden(bytes) {
        return false;
    }
    are_name_characters(bytes)
}

fn are_name_characters(bytes: &[u8]) -> bool
    ensures { result ≡ list_all is_name_byte bytes.now }
{
    bytes.iter().all(|byte| is_name_character(*byte))
}

// From 1 to 255.
fn is_short(length: usize) -> bool
    ensures { result ≡ (nat_le 1 length && nat_le length 255) }
{
    1 <= length && length <= 255
}

// Whether the name begins with `.`.
fn is_hidden(name: &[u8]) -> bool
    ensures { result ≡ begins_with_dot name.now }
{
    match name {
        [first, ..] => *first == b'.',
        [] => false,
    }
}

/// Whether a file of a configuration of so many files may have that name: the empty one is good where it is alone.
pub fn name_good_among(count: u64, name: &str) -> bool
    ensures { result ≡ is_good_among count name.now }
{
    name_good(name) || (name.len() == 0 && count == 1)
}

/// Whether all names of the configuration are good. Takes no memory.
pub fn name_ok(config: &AgentConfigMap) -> bool
    ensures { result ≡ are_good_names config.now.config_map }
{
    let count = config.config_map.len();
    config
        .config_map
        .as_slice()
        .iter()
        .all(|file| name_good_among(count, file.key.as_str()))
}
