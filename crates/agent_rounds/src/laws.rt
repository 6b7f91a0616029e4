//! Laws of the definitions.

ghost use Rattle.std.specs.Prelude.{◌≡◌, ℕ, ◌+◌, ◌<◌, ◌^◌, List, Bool, Option, None, Some, Result, Ok, Err, IsTrue, false, true};
ghost use Rattle.hex.specs.Hex.{IsBytes};
ghost use Rattle.message_handlers.specs.Asking.{MayAnswer};
ghost use Rattle.message_handlers.specs.Names.{IsOrdered, names_of};
ghost use Rattle.agent_rules.specs.Reports.{fits_message, message_of};
ghost use Rattle.agent_rules.specs.Half.{entry_of};
ghost use Rattle.agent_rules.specs.Keeping.{Report, fits};
ghost use Rattle.agent_rules.specs.Calls.{has_number, may_report};
ghost use Rattle.agent_rounds.specs.declared.ends.AgentEnd.{AgentEnd as EndOf};
ghost use Rattle.agent_rounds.specs.declared.ends.AgentEnd.TheVariants.{NumbersSpent, RoundsSpent, StoreFault, TooLarge};
ghost use Rattle.agent_rounds.specs.Area.{HasConfigOrDue, IsFormerOrApplied, LeavesConfig};
ghost use Rattle.agent_rounds.specs.Moments.{nothing_held, store_failed};
ghost use Rattle.agent_rounds.specs.Parts.{MakesReport};
ghost use Rattle.agent_rounds.specs.Listening.{AsksQuietServer, ListensWith, PushedRound, PushedRounds};
ghost use Rattle.message_values.specs.declared.config.AgentRemoteConfig.{AgentRemoteConfig};
ghost use Rattle.agent_rounds.specs.Proving.{KeepsFormerOrProved, KeepsWhatIsProved, trial_name};
ghost use Rattle.agent_config.specs.Word.{SaysOfTrial};
ghost use Rattle.agent_config.specs.declared.word.Said.{Said};
ghost use Rattle.message_values.specs.declared.report.AgentToServer.{AgentToServer};
ghost use Rattle.agent_rounds.specs.RoundEvents.{HappensAsRound};
ghost use Rattle.agent_rounds.specs.Replies.{Brings, Configures, EndsWith};
ghost use Rattle.agent_rounds.specs.Rounds.{AgentRound, AgentRounds, AsksServer, GoesOn, NoAnswer, NoNames};
ghost use Rattle.agent_rounds.specs.Stages.{Stage};

use message_handlers::{Handler, Handlers};

/// Of an agent without handlers: where no round is left nothing is done, and the run ends as spent; behind a round with a restart command it ends with
/// that round's number.
pub fn rounds_end()
    ensures spent { (done : ℕ) (s t : Stage) (result : Result ℕ EndOf) → AgentRounds NoAnswer NoNames 0 done s t result → (t ≡ s) × (result ≡ Err RoundsSpent) }
    ensures restart { (left done : ℕ) (s t : Stage) (result : Result ℕ EndOf)
        → GoesOn done (AgentRounds NoAnswer NoNames left (done + 1)) true s t result → (t ≡ s) × (result ≡ Ok (done + 1)) }
{}

/// An offer that fails half way never leaves an agent without a working configuration. Behind each round that goes on, the area of configuration files has
/// the files of the agent's configuration and no others, or its folder failed in the round and the next one begins by settling the area; one that ends
/// leaves the files or a settling that is due, unless the agent's disk failed, and so do rounds that follow one another. The configuration changes only
/// to one whose files are in the area. A run begins with the settling due, so that an agent that was killed comes back to what it keeps. All this holds of
/// rounds that heed what comes unasked, too. Of a folder that tells its files.
pub fn configuration_stays(handlers: &Handlers)
    ensures round { (s t : Stage) (result : Result Bool EndOf) → IsTrue s.folder.told → HasConfigOrDue s
        → AgentRound (MayAnswer answers handlers.now) (λ names. IsOrdered (names_of handlers.now) names.capabilities) s t result → LeavesConfig s t result }
    ensures former { (s t : Stage) (result : Result Bool EndOf) → IsTrue s.folder.told → HasConfigOrDue s
        → AgentRound (MayAnswer answers handlers.now) (λ names. IsOrdered (names_of handlers.now) names.capabilities) s t result → store_failed result ≡ false → IsFormerOrApplied s t }
    ensures rounds { (left done : ℕ) (s t : Stage) (result : Result ℕ EndOf) → IsTrue s.folder.told → HasConfigOrDue s
        → AgentRounds (MayAnswer answers handlers.now) (λ names. IsOrdered (names_of handlers.now) names.capabilities) left done s t result → LeavesConfig s t result }
    ensures pushed_round { (s t : Stage) (result : Result Bool EndOf) → IsTrue s.folder.told → HasConfigOrDue s
        → PushedRound (MayAnswer answers handlers.now) (λ names. IsOrdered (names_of handlers.now) names.capabilities) s t result → LeavesConfig s t result }
    ensures pushed_former { (s t : Stage) (result : Result Bool EndOf) → IsTrue s.folder.told → HasConfigOrDue s
        → PushedRound (MayAnswer answers handlers.now) (λ names. IsOrdered (names_of handlers.now) names.capabilities) s t result → store_failed result ≡ false → IsFormerOrApplied s t }
    ensures pushed_rounds { (left done : ℕ) (s t : Stage) (result : Result ℕ EndOf) → IsTrue s.folder.told → HasConfigOrDue s
        → PushedRounds (MayAnswer answers handlers.now) (λ names. IsOrdered (names_of handlers.now) names.capabilities) left done s t result → LeavesConfig s t result }
    ensures begins { (s : Stage) (prove : Option ℕ) → s.held ≡ nothing_held prove → HasConfigOrDue s }
{}

/// An offered configuration that the collector has to prove is kept only where the status file, read meanwhile, said on this very trial, by its name, that
/// the collector applied it; so it is of each part that is kept meanwhile, and so of each that a crash may leave. A status has one word on a trial, and a
/// trial's name tells its number and the offer's hash, so that no word on a former trial counts. Where no word is asked for an offer is brought as ever.
pub fn collector_proves()
    ensures kept { (offer : AgentRemoteConfig) (s t : Stage) (seconds : ℕ) (result : Result Unit EndOf) → s.held.prove ≡ Some seconds → Configures (Some offer) s t result → KeepsWhatIsProved offer s t result }
    ensures one_word { (name : List ℕ) (status : AgentToServer) (one other : Said) → SaysOfTrial name status one → SaysOfTrial name status other → one ≡ other }
    ensures one_name { (n m : ℕ) (a b : List ℕ) → n < 2 ^ 64 → m < 2 ^ 64 → IsBytes a → IsBytes b → trial_name n a ≡ trial_name m b → (n ≡ m) × (a ≡ b) }
    ensures plain { (offer : AgentRemoteConfig) (s t : Stage) (result : Result Unit EndOf) → s.held.prove ≡ None → Configures (Some offer) s t result → Brings None offer s t result }
{}

/// An agent whose collector proves its configurations is left with what worked: whatever the folder, the clock and the status file answer, each part that a
/// round or a run keeps has the configuration with which it began, or one whose trial the collector proved meanwhile; so has what a crash at any moment may
/// leave, and so has the agent behind it. The trial's name has the number of a report that was made meanwhile.
pub fn proved_configuration_stays(handlers: &Handlers)
    ensures round { (s t : Stage) (seconds : ℕ) (result : Result Bool EndOf) → s.held.prove ≡ Some seconds
        → AgentRound (MayAnswer answers handlers.now) (λ names. IsOrdered (names_of handlers.now) names.capabilities) s t result → KeepsFormerOrProved s t result }
    ensures rounds { (left done : ℕ) (s t : Stage) (seconds : ℕ) (result : Result ℕ EndOf) → s.held.prove ≡ Some seconds
        → AgentRounds (MayAnswer answers handlers.now) (λ names. IsOrdered (names_of handlers.now) names.capabilities) left done s t result → KeepsFormerOrProved s t result }
    ensures pushed_round { (s t : Stage) (seconds : ℕ) (result : Result Bool EndOf) → s.held.prove ≡ Some seconds
        → PushedRound (MayAnswer answers handlers.now) (λ names. IsOrdered (names_of handlers.now) names.capabilities) s t result → KeepsFormerOrProved s t result }
    ensures pushed_rounds { (left done : ℕ) (s t : Stage) (seconds : ℕ) (result : Result ℕ EndOf) → s.held.prove ≡ Some seconds
        → PushedRounds (MayAnswer answers handlers.now) (λ names. IsOrdered (names_of handlers.now) names.capabilities) left done s t result → KeepsFormerOrProved s t result }
{}

/// A round that goes on is what may happen to an agent in the world: it learns what it knows of itself, it reports, and then it hears a reply to it, with
/// what was answered to what the reply asks, or gives up; and the round keeps what these events keep, in their order. So what holds of an agent over all
/// runs of such events holds over all rounds. What it learned is what it knew as its report was made, and what it heard is the reply that came of the
/// report's asking and was dealt with.
pub fn rounds_are_events(handlers: &Handlers)
    ensures round { (s t : Stage) (restart : Bool)
        → AgentRound (MayAnswer answers handlers.now) (λ names. IsOrdered (names_of handlers.now) names.capabilities) s t (Ok restart)
        → HappensAsRound AsksServer EndsWith (MayAnswer answers handlers.now) (λ names. IsOrdered (names_of handlers.now) names.capabilities) s t }
    ensures pushed { (s t : Stage) (restart : Bool)
        → PushedRound (MayAnswer answers handlers.now) (λ names. IsOrdered (names_of handlers.now) names.capabilities) s t (Ok restart)
        → HappensAsRound AsksQuietServer ListensWith (MayAnswer answers handlers.now) (λ names. IsOrdered (names_of handlers.now) names.capabilities) s t }
{}

/// Of one moment a report has one ending: one that is made is within the limits, has a number, and its block has room; and it isn't both too large and
/// without a number. So a round that ends for want of numbers had a report within the limits, and one that ends for want of room had a number for it. One
/// for whose numbers the disk failed was due too.
pub fn reports_end_one_way()
    ensures small { (s t : Stage) (bytes : List ℕ) → MakesReport s t (Ok bytes) → fits_message (message_of (entry_of s.half)) ≡ true }
    ensures numbered { (s t : Stage) (bytes : List ℕ) → MakesReport s t (Ok bytes) → has_number s.half ≡ true }
    ensures roomy { (s t : Stage) (bytes : List ℕ) → MakesReport s t (Ok bytes) → fits s.half Report ≡ true }
    ensures not_large { (s t u : Stage) (bytes : List ℕ) → MakesReport s t (Ok bytes) → MakesReport s u (Err TooLarge) → ⊥ }
    ensures apart { (s t u : Stage) → MakesReport s t (Err NumbersSpent) → MakesReport s u (Err TooLarge) → ⊥ }
    ensures due { (s t : Stage) → MakesReport s t (Err StoreFault) → may_report s.half ≡ true }
{}
