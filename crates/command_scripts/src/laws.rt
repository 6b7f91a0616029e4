//! Laws over the readings of scripts, and the numbers of the commands. No function here does anything: each stands for its clauses.

ghost use Rattle.std.specs.Prelude.{◌≡◌, ℕ, List};
ghost use Rattle.world_lab.specs.Labs.{unplayed};
ghost use Rattle.command_scripts.specs.Outcomes.{ScriptEnds, SimulateOutcome, StormEnds, StormOutcome};
ghost use Rattle.command_scripts.specs.Simulating.{ScriptReading, ReadsScript};
ghost use Rattle.command_scripts.specs.TakingScripts.{most_taken};
ghost use Rattle.command_scripts.specs.declared.simulate.TheConstants.{BLOCK};

use world_scripts::laws::read_or_bad;

/// Law: each list of bytes has one reading: it is a script of these lines, or it has this fault at this place.
pub fn one_script_reading()
    ensures some { (bytes : List ℕ) → (reading : ScriptReading) × ReadsScript bytes reading }
    ensures one { (bytes : List ℕ) (a b : ScriptReading) → ReadsScript bytes a → ReadsScript bytes b → a ≡ b }
{
    read_or_bad();
}

/// Law: how many bytes of a script are asked for at once, and how many are taken at most.
pub fn script_limits()
    ensures block { BLOCK ≡ 65536 }
    ensures most { most_taken ≡ 1114112 }
{}

/// Law: want of memory before anything is read, written or played is an ending of each command.
pub fn nothing_is_played()
    ensures simulate { (ends : ScriptEnds) → ends.lab ≡ unplayed → SimulateOutcome ends ends 5 }
    ensures storm { (start count : ℕ) (ends : StormEnds) → StormOutcome start count ends ends 5 }
{
    one_script_reading();
}
