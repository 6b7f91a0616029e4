//! Lines, read one after the other.

ghost use Rattle.std.specs.Prelude.{◌≡◌, ◌≢◌, Some, IfOk, IfErr};
ghost use Rattle.world_scripts.specs.declared.reading.ScriptFail.TheVariants.{NoMemory};
ghost use Rattle.world_scripts.specs.Cuts.{lines_in};
ghost use Rattle.world_scripts.specs.Scripts.{Says, IfBadLine, first_bad_line};

use crate::cuts::first_line;
use crate::lines::Line;
use crate::tables::line_of;
use plain_values::NoMemory;
use std::alloc::{AllocFailed, Global};
use thiserror::Error;

/// Why there is no script.
#[derive(Clone, Copy, Debug, PartialEq, Eq, Error)]
pub enum ScriptFail {
    /// The line that begins at this byte, counted from 0, is outside the grammar, and no earlier one is.
    #[error("the line at byte {at} is outside the grammar")]
    BadLine { at: u64 },
    /// There are more bytes than a script may have.
    #[error("the script is too large")]
    TooLarge,
    /// There is no memory for the lines.
    #[error("there was no memory")]
    NoMemory,
}

impl From<NoMemory> for ScriptFail {
    ghost from_gives = { λ _ e. e ≡ NoMemory };

    /// There is no memory for a line.
    fn from(_error: NoMemory) -> ScriptFail {
        ScriptFail::NoMemory
    }
}

impl<T: Drop> From<AllocFailed<T>> for ScriptFail {
    ghost from_gives = { λ _ e. e ≡ NoMemory };

    /// The allocator refused, and the value that there was no room for is dropped.
    fn from(_error: AllocFailed<T>) -> ScriptFail {
        ScriptFail::NoMemory
    }
}

/// The lines of bytes of any number, up to the first that is outside the grammar.
pub fn lines_of(alloc: Global, bytes: &[u8]) -> Result<Vec<Line>, ScriptFail>
    ensures read { IfOk result (λ lines. Says bytes.now lines.items) }
    ensures bad_line { IfErr result (IfBadLine (λ at. first_bad_line (lines_in bytes.now) ≡ Some at)) }
    ensures not_too_large { result ≢ Err ScriptFail.TooLarge }
{
    let mut lines = Vec::new(alloc);
    let mut rest = bytes;
    while !rest.is_empty() {
        let (line, behind) = first_line(rest);
        let Some(line) = line_of(alloc, line)? else {
            let at = (bytes.len() - rest.len()) as u64;
            return Err(ScriptFail::BadLine { at });
        };
        lines.push(line)?;
        rest = behind;
    }
    Ok(lines)
}
