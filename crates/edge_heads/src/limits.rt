// How far into the bytes a head can go.
ghost use Rattle.std.specs.Prelude.{◌≡◌, ◌<◌, ◌≤◌, ◌↔◌, length, take, IsTrue};
ghost use Rattle.edge_heads.specs.Heads.{head_part, HasAllLines};

use crate::{HEAD_LIMIT, LINE_LIMIT};

/// Where the part ends that can be of a head, and whether all lines that a head can have are in it.
#[derive(Clone, Copy, Debug, PartialEq, Eq)]
pub struct HeadEnd {
    pub end: usize,
    pub all_lines: bool,
}

pub(crate) fn head_end(bytes: &[u8]) -> HeadEnd
    ensures within { result.end ≤ length bytes.now }
    ensures part { take result.end bytes.now ≡ head_part bytes.now }
    ensures least { result.end ≤ HEAD_LIMIT }
    ensures lines { result.end < HEAD_LIMIT → (IsTrue result.all_lines ↔ HasAllLines bytes.now) }
{
    let mut begun = false;
    let mut lines_left = LINE_LIMIT;
    let mut end: usize = 0;
    'bytes: while end < bytes.len() && end < HEAD_LIMIT && lines_left > 0 {
        let byte = bytes[end];
        if begun {
            if byte == b'\n' {
                lines_left -= 1;
            }
        } else if byte != b'\r' && byte != b'\n' {
            begun = true;
        }
        end += 1;
    }
    HeadEnd {
        end,
        all_lines: lines_left == 0,
    }
}
