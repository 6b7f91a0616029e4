//! The statuses of the program's own. No function here does anything: each stands for its clauses.

ghost use Rattle.std.specs.Prelude.{◌≡◌};
ghost use Rattle.command_top.specs.declared.top.TheConstants.{NO_MEMORY, WRONG_WORDS};

/// Law: the statuses of words that name no command and of want of memory.
pub fn top_numbers()
    ensures wrong_words { WRONG_WORDS ≡ 2 }
    ensures no_memory { NO_MEMORY ≡ 5 }
{}
