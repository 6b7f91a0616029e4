//! What holds of an agent over several starts. No function here does anything: each stands for its clauses.

ghost use Rattle.std.specs.Prelude.{◌≡◌, ◌⊎◌, ℕ, List, Option, Some, IfSome, IsTrue, Ok};
ghost use Rattle.agent_rules.specs.Half.{kept_part};
ghost use Rattle.agent_rules.specs.declared.saved.Saved.{Saved};
ghost use Rattle.agent_state.specs.View.{HasPart, MeansItself};
ghost use Rattle.command_agent.specs.Lives.{AllProve, Follows, IsLeftBy, IsLife, LeadsToKept, LeavesImage, OneProves, Run, RunsTo, last_run};
ghost use Rattle.command_agent.specs.Starting.{store_layout};
ghost use Rattle.edge_devices.specs.Disks.{disk_bytes};
ghost use Rattle.message_handlers.specs.Asking.{MayAnswer};
ghost use Rattle.message_handlers.specs.Names.{names_of};

use agent_rounds::{proved_configuration_stays, what_is_left_is_events};
use agent_store::Opened;
use message_handlers::{Handler, Handlers};

/// Law: an agent's life over several starts is one run of its half of the world. Each later run begins with what may be left of the one before, as it ended
/// or by a crash at any moment, and its words may be others, `--request-uid` among them. Then events that may happen to an agent lead from its first start to
/// the last one; to the end of the last run, where a restart command ended it; and to whatever may be left of the last run. What may be left is what each
/// image stands for that a crash may leave, of a disk that tells what a read gives; so a run that begins on such an image, and finds something kept, follows.
pub fn lives_are_runs(handlers: &Handlers)
    ensures starts { (run : Run (names_of handlers.now) (MayAnswer answers handlers.now)) (rest : List (Run (names_of handlers.now) (MayAnswer answers handlers.now)))
        → IsLife run rest → RunsTo run.runs.first.half (last_run run rest).runs.first.half }
    ensures ends { (run : Run (names_of handlers.now) (MayAnswer answers handlers.now)) (rest : List (Run (names_of handlers.now) (MayAnswer answers handlers.now))) (n : ℕ)
        → IsLife run rest → (last_run run rest).result ≡ Ok n → RunsTo run.runs.first.half (last_run run rest).runs.last.half }
    ensures left { (run : Run (names_of handlers.now) (MayAnswer answers handlers.now)) (rest : List (Run (names_of handlers.now) (MayAnswer answers handlers.now))) (part : Option Saved)
        → IsLife run rest → IsLeftBy (last_run run rest) part → LeadsToKept run.runs.first.half part }
    ensures images { (run : Run (names_of handlers.now) (MayAnswer answers handlers.now)) (image : ℕ → ℕ) → IsTrue run.old.disk.told → LeavesImage run image
        → (part : Option Saved) × (IsLeftBy run part × HasPart store_layout part image) }
    ensures found { (run next : Run (names_of handlers.now) (MayAnswer answers handlers.now)) (found : Saved) → IsTrue run.old.disk.told → IsTrue next.old.disk.told
        → IfSome (kept_part run.runs.first.half) MeansItself → LeavesImage run (disk_bytes next.old.disk) → next.runs.starts.opened ≡ Opened.Kept found → Follows run next × MeansItself found }
{
    what_is_left_is_events(handlers);
}

/// Law: an agent whose collector has to prove configurations is left with what worked, over several starts too. Of a life in whose runs it has to, what may be
/// left of the last run has the configuration with which the first one began, or one that the collector proved in one of these runs, under the number of a
/// report that was made in it. The first may be any run with `--prove`: what it began with is what was kept as the option was first given.
pub fn lives_keep_what_is_proved(handlers: &Handlers)
    ensures configuration { (run : Run (names_of handlers.now) (MayAnswer answers handlers.now)) (rest : List (Run (names_of handlers.now) (MayAnswer answers handlers.now))) (part : Saved)
        → IsLife run rest → AllProve run rest → IsLeftBy (last_run run rest) (Some part) → (part.config ≡ run.runs.first.half.saved.config) ⊎ OneProves run rest part.config }
{
    proved_configuration_stays(handlers);
}
