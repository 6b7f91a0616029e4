//! Scripts, and their reading.

ghost use Rattle.std.specs.Prelude.{◌≡◌, ◌<◌, ◌≤◌, ◌↔◌, Some, length, IfOk, IfErr, OnOk};
ghost use Rattle.world_scripts.specs.Cuts.{lines_in};
ghost use Rattle.world_scripts.specs.Scripts.{Says, IfBadLine, first_bad_line};

use crate::lines::Line;
use crate::reading::{ScriptFail, lines_of};
use std::alloc::Global;
use std::marker::Model;

/// The most bytes that a script may have.
pub const SCRIPT_LIMIT: usize = 1_048_576;

/// The lines of a script in their order, which contracts see as the list of them. There are at most as many as a script may have bytes.
#[derive(Debug, Drop)]
pub struct Script {
    lines: Vec<Line>,
}

impl Model for Script {
    ghost use Rattle.std.specs.Prelude.{List, ◌≤◌, length};
    ghost use Rattle.world_scripts.specs.declared.lines.Line.{Line};

    ghost Value = { List Line };

    ghost view = { λ s. s.lines.items };

    ghost invariant = { λ s. length s.lines.items ≤ 1048576 };
}

impl Script {
    /// The script that the bytes write, whole, before anything of it happens.
    ///
    /// More than `SCRIPT_LIMIT` bytes are refused first, and then the first line outside the grammar; both exactly so. Only want of memory can refuse
    /// other bytes. Each byte is read a few times, so that the time grows as their number.
    pub fn read(alloc: Global, bytes: &[u8]) -> Result<Script, ScriptFail>
        ensures read { IfOk result (Says bytes.now) }
        ensures small { OnOk result (length bytes.now ≤ SCRIPT_LIMIT) }
        ensures bad_line { IfErr result (IfBadLine (λ at. (length bytes.now ≤ SCRIPT_LIMIT) × (first_bad_line (lines_in bytes.now) ≡ Some at))) }
        ensures too_large { (result ≡ Err ScriptFail.TooLarge) ↔ (SCRIPT_LIMIT < length bytes.now) }
    {
        if bytes.len() > SCRIPT_LIMIT {
            return Err(ScriptFail::TooLarge);
        }
        let lines = lines_of(alloc, bytes)?;
        Ok(Script { lines })
    }

    /// The lines in their order. Takes no memory.
    pub fn lines(&self) -> &[Line]
        ensures value { result.now ≡ self.now }
        ensures few { length result.now ≤ 1048576 }
    {
        self.lines.as_slice()
    }
}
