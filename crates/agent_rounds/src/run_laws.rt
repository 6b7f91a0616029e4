//! What holds of the rounds of a run, one after another. No function here does anything: each stands for its clauses.

ghost use Rattle.std.specs.Prelude.{◌≡◌, ◌≤◌, ◌+◌, ℕ, List, [], Result, Ok, Err};
ghost use Rattle.message_handlers.specs.Asking.{MayAnswer};
ghost use Rattle.message_handlers.specs.Names.{IsOrdered, names_of};
ghost use Rattle.agent_rules.specs.Events.{AgentEvent, AllHearOwn};
ghost use Rattle.agent_rounds.specs.declared.ends.AgentEnd.{AgentEnd as EndOf};
ghost use Rattle.agent_rounds.specs.Listening.{AsksQuietServer, ListensWith, PushedRound, PushedRounds};
ghost use Rattle.agent_rounds.specs.Lives.{EachIsLeft};
ghost use Rattle.agent_rounds.specs.Replies.{EndsWith};
ghost use Rattle.agent_rounds.specs.RoundEvents.{Happens};
ghost use Rattle.agent_rounds.specs.Rounds.{AgentRound, AgentRounds, AsksServer};
ghost use Rattle.agent_rounds.specs.RunEvents.{AreRounds, EndsInRound, EndsRun, HappensInRounds};
ghost use Rattle.agent_rounds.specs.Stages.{Stage};

use message_handlers::{Handler, Handlers};

/// Law: the rounds of a run are events of an agent in the world, one after another. A run that a restart command ended is so many rounds that happened as
/// its number says; another one is all of its rounds, or fewer and then the round that ended it. Of that round what came before the part that ended it
/// happened too. Rounds that happened, joined, are their events in order, and keep what these keep.
pub fn runs_are_events(handlers: &Handlers)
    ensures restarted { (left done n : ℕ) (s t : Stage)
        → AgentRounds (MayAnswer answers handlers.now) (λ names. IsOrdered (names_of handlers.now) names.capabilities) left done s t (Ok n)
        → (k : ℕ) × (n ≡ done + k) × (k ≤ left) × HappensInRounds AsksServer EndsWith (MayAnswer answers handlers.now) (λ names. IsOrdered (names_of handlers.now) names.capabilities) k s t }
    ensures ended { (left done : ℕ) (s t : Stage) (end : EndOf)
        → AgentRounds (MayAnswer answers handlers.now) (λ names. IsOrdered (names_of handlers.now) names.capabilities) left done s t (Err end)
        → EndsRun AsksServer EndsWith (MayAnswer answers handlers.now) (λ names. IsOrdered (names_of handlers.now) names.capabilities) left s t end }
    ensures within { (s t : Stage) (end : EndOf)
        → AgentRound (MayAnswer answers handlers.now) (λ names. IsOrdered (names_of handlers.now) names.capabilities) s t (Err end)
        → EndsInRound AsksServer EndsWith (MayAnswer answers handlers.now) (λ names. IsOrdered (names_of handlers.now) names.capabilities) s t end }
    ensures joined { (n : ℕ) (s t : Stage)
        → HappensInRounds AsksServer EndsWith (MayAnswer answers handlers.now) (λ names. IsOrdered (names_of handlers.now) names.capabilities) n s t
        → (events : List AgentEvent) × AreRounds n events × Happens events s t }
{}

/// Law: the same of rounds that heed what comes unasked.
pub fn pushed_runs_are_events(handlers: &Handlers)
    ensures restarted { (left done n : ℕ) (s t : Stage)
        → PushedRounds (MayAnswer answers handlers.now) (λ names. IsOrdered (names_of handlers.now) names.capabilities) left done s t (Ok n)
        → (k : ℕ) × (n ≡ done + k) × (k ≤ left) × HappensInRounds AsksQuietServer ListensWith (MayAnswer answers handlers.now) (λ names. IsOrdered (names_of handlers.now) names.capabilities) k s t }
    ensures ended { (left done : ℕ) (s t : Stage) (end : EndOf)
        → PushedRounds (MayAnswer answers handlers.now) (λ names. IsOrdered (names_of handlers.now) names.capabilities) left done s t (Err end)
        → EndsRun AsksQuietServer ListensWith (MayAnswer answers handlers.now) (λ names. IsOrdered (names_of handlers.now) names.capabilities) left s t end }
    ensures within { (s t : Stage) (end : EndOf)
        → PushedRound (MayAnswer answers handlers.now) (λ names. IsOrdered (names_of handlers.now) names.capabilities) s t (Err end)
        → EndsInRound AsksQuietServer ListensWith (MayAnswer answers handlers.now) (λ names. IsOrdered (names_of handlers.now) names.capabilities) s t end }
    ensures joined { (n : ℕ) (s t : Stage)
        → HappensInRounds AsksQuietServer ListensWith (MayAnswer answers handlers.now) (λ names. IsOrdered (names_of handlers.now) names.capabilities) n s t
        → (events : List AgentEvent) × AreRounds n events × Happens events s t }
{}

/// Law: whatever may be left of a run, what was kept as it began or one of those that it kept, is left by events of the agent: those of rounds, and then
/// perhaps one in which it stops. Each reply in them is to the agent. A run that a restart command ended is a list of such events too. Of a run that begins
/// with nothing counted as kept.
pub fn what_is_left_is_events(handlers: &Handlers)
    ensures plain { (left done : ℕ) (s t : Stage) (result : Result ℕ EndOf) → s.keeps ≡ []
        → AgentRounds (MayAnswer answers handlers.now) (λ names. IsOrdered (names_of handlers.now) names.capabilities) left done s t result → EachIsLeft s.half t.keeps }
    ensures pushed { (left done : ℕ) (s t : Stage) (result : Result ℕ EndOf) → s.keeps ≡ []
        → PushedRounds (MayAnswer answers handlers.now) (λ names. IsOrdered (names_of handlers.now) names.capabilities) left done s t result → EachIsLeft s.half t.keeps }
    ensures whole { (left done n : ℕ) (s t : Stage)
        → AgentRounds (MayAnswer answers handlers.now) (λ names. IsOrdered (names_of handlers.now) names.capabilities) left done s t (Ok n)
        → (events : List AgentEvent) × (AllHearOwn events s.half × Happens events s t) }
    ensures pushed_whole { (left done n : ℕ) (s t : Stage)
        → PushedRounds (MayAnswer answers handlers.now) (λ names. IsOrdered (names_of handlers.now) names.capabilities) left done s t (Ok n)
        → (events : List AgentEvent) × (AllHearOwn events s.half × Happens events s t) }
{}
