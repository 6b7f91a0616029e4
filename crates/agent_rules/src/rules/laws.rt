//! The numbers of reserved blocks, written out, and what lists of an agent's calls have in common, wherever they are cut off: numbers that were handed out
//! stay reserved, and settings and files stay until others are proved or applied.
//!
//! `agent_state` says of each call which parts an image of the disk stands for at any moment of it: the one from before, or the one that the call keeps.
//! So what holds of the parts that calls keep holds of every image that a crash leaves.

ghost use Rattle.std.specs.Prelude.{◌≡◌, ◌-◌, ◌^◌, ◌<◌, ◌≤◌, ℕ, Bool, true, false, List, All, None, codes, is_some};
ghost use Rattle.plain_values.specs.declared.headers.Header.{Header};
ghost use Rattle.message_values.specs.declared.reply.ServerToAgent.{ServerToAgent};
ghost use Rattle.message_values.specs.declared.state.Settings.{Settings};
ghost use Rattle.agent_rules.specs.declared.saved.Saved.{Saved};
ghost use Rattle.agent_rules.specs.declared.rules.parts.LocalState.{LocalState};
ghost use Rattle.agent_rules.specs.declared.rules.replies.Heard.TheVariants.{Asked, Failed, Plain};
ghost use Rattle.agent_rules.specs.Half.{AgentHalf, entry_of, started};
ghost use Rattle.agent_rules.specs.Keeping.{Call, Report, TakeReply, BeginTry, heard_in};
ghost use Rattle.agent_rules.specs.Calls.{call_after, calls_after, saves_of};
ghost use Rattle.agent_rules.specs.Kinds.{IsReserved, IsUnanswered, applies_files, is_reply, keeps_trial};
ghost use Rattle.agent_rules.specs.Offers.{is_offered_header, same_name};

use crate::rules::parts::{LAST_LIMIT, RESERVED_BLOCK};

/// Law: report numbers are reserved by 1,024 at once, and the last limit at which a block can be reserved is 2^64 - 1,025.
pub fn block_numbers()
    ensures block { RESERVED_BLOCK ≡ 1024 }
    ensures last { LAST_LIMIT ≡ 2 ^ 64 - 1025 }
{}

/// Law: a number that was handed out is below the limit of every part that is kept from then on, so that an agent that starts again from any of them goes
/// on above it.
pub fn numbers_stay_reserved()
    ensures starts { (local : LocalState) (saved : Saved) (is_kept : Bool) (room : ℕ) (asks_uid : Bool) → IsReserved (started local saved is_kept room asks_uid) }
    ensures stays { (a : AgentHalf) (call : Call) → IsReserved a → IsReserved (call_after a call) }
    // A report that is made hands its number out when a part with a higher limit is kept.
    ensures handed_out { (a : AgentHalf) → IsReserved a → ((call_after a Report).is_kept ≡ true) × (a.next < (call_after a Report).saved.limit) }
    ensures kept { (a : AgentHalf) (calls : List Call) → All (λ part. a.saved.limit ≤ part.limit) (saves_of a calls) }
    ensures left { (a : AgentHalf) (calls : List Call) → a.saved.limit ≤ (calls_after a calls).saved.limit }
{}

/// Law: while an answer is awaited, the report that it is to isn't known to be answered. So after a reply with an error, which counts as no answer, and
/// after one that wishes for the full state, the next report is whole.
pub fn awaited_reports_are_unanswered()
    ensures starts { (local : LocalState) (saved : Saved) (is_kept : Bool) (room : ℕ) (asks_uid : Bool) → IsUnanswered (started local saved is_kept room asks_uid) }
    ensures stays { (a : AgentHalf) (call : Call) → IsUnanswered a → IsUnanswered (call_after a call) }
    ensures failed { (a : AgentHalf) (reply : ServerToAgent) → IsUnanswered a → a.awaits ≡ true → heard_in reply ≡ Failed
        → (entry_of (call_after a (TakeReply reply))).basis ≡ None }
    ensures asked { (a : AgentHalf) (reply : ServerToAgent) → IsUnanswered a → a.awaits ≡ true → heard_in reply ≡ Asked
        → (entry_of (call_after a (TakeReply reply))).basis ≡ None }
{}

/// Law: until settings under trial are kept as the agent's own, every part that is kept has the former ones; and they have their proof only by an answer
/// that is heard while they are tried.
pub fn settings_wait_for_their_proof()
    ensures kept { (a : AgentHalf) (calls : List Call) → All (λ call. keeps_trial call ≡ false) calls
        → All (λ part. part.settings ≡ a.saved.settings) (saves_of a calls) }
    ensures left { (a : AgentHalf) (calls : List Call) → All (λ call. keeps_trial call ≡ false) calls → (calls_after a calls).saved.settings ≡ a.saved.settings }
    ensures begun { (a : AgentHalf) (settings : Settings) → (call_after a (BeginTry settings)).proved ≡ false }
    ensures by_a_reply { (a : AgentHalf) (call : Call) → is_reply call ≡ false → (call_after a call).proved ≡ true → a.proved ≡ true }
    ensures by_an_answer { (a : AgentHalf) (reply : ServerToAgent) → (call_after a (TakeReply reply)).proved ≡ true
        → (heard_in reply ≡ Plain) × (is_some a.trial ≡ true) }
{}

/// Law: until files are told as applied, every part that is kept has the former ones.
pub fn files_wait_until_applied()
    ensures kept { (a : AgentHalf) (calls : List Call) → All (λ call. applies_files call ≡ false) calls
        → All (λ part. part.config ≡ a.saved.config) (saves_of a calls) }
    ensures left { (a : AgentHalf) (calls : List Call) → All (λ call. applies_files call ≡ false) calls → (calls_after a calls).saved.config ≡ a.saved.config }
{}

/// Law: the header by which each request tells the agent's identifier can't be offered, in whatever case its name is written.
pub fn identifiers_are_not_offered()
    ensures refused { (header : Header) → same_name header.key (codes "OpAMP-Instance-UID") ≡ true → is_offered_header header ≡ false }
{}
