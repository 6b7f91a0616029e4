//! What holds of all scripts and storms. No function here does anything: each stands for its clauses.

ghost use Rattle.std.specs.Prelude.{◌≡◌, ◌≤◌, ◌+◌, length};
ghost use Rattle.world_scripts.specs.declared.lines.Line.{Line};
ghost use Rattle.world_lab.specs.Playing.{Progress, after_line};

use crate::lab::SERVERS;
use crate::plays::LAYOUT;
use crate::storming::STORM_LIMIT;

/// Law: a storm has at most so many events, a lab so many servers, and the store of its agent so much room for what is kept and for its log, in bytes.
pub fn limits()
    ensures storm { STORM_LIMIT ≡ 100000 }
    ensures servers { SERVERS ≡ 10 }
    ensures layout { LAYOUT ≡ record { room = 2097152; log = 65536 } }
{}

/// Law: a line makes one event at most.
pub fn lines_make_one_event()
    ensures one { (p : Progress) (line : Line) → length (after_line p line).events ≤ length p.events + 1 }
{}
