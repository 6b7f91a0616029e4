//! What is told of rollouts.

ghost use Rattle.std.specs.Prelude.{◌≡◌, ◌++◌, IfOk, OnOk};
ghost use Rattle.std.specs.List.{flat_map};
ghost use Rattle.std.specs.Option.{option_copied};
ghost use Rattle.std.specs.String.{string_bytes};
ghost use Rattle.server_lines.specs.Answers.{end_line, fate_word, halted_mark, member_line, progress_line, rollout_line, text_of_members, text_of_rollouts};

use crate::listing::uuid_of;
use plain_values::{NoMemory, Text};
use server_waves::{Fate, Member, Progress, Rollout};
use std::alloc::Global;

fn halted_mark(halted: bool) -> &'static str
    ensures mark { result.now ≡ halted_mark halted }
{
    if halted { " halted" } else { "" }
}

#[tactic(auto, unfolding(crate::specs::Answers::progress_line))]
fn put_progress(text: &mut String, id: &str, progress: &Progress) -> Result<(), NoMemory>
    ensures ok { OnOk result (string_bytes text.new ≡ string_bytes text.old ++ progress_line id.now progress.now) }
{
    let waiting = progress.waiting;
    let offered = progress.offered;
    let applied = progress.applied;
    let failed = progress.failed;
    let mark = halted_mark(progress.halted);
    write!(
        text,
        "{id} waiting {waiting} offered {offered} applied {applied} failed {failed}{mark}\n"
    )?;
    Ok(())
}

fn put_rollout(text: &mut String, rollout: &Rollout) -> Result<(), NoMemory>
    ensures ok { OnOk result (string_bytes text.new ≡ string_bytes text.old ++ rollout_line rollout.now) }
{
    let progress = rollout.progress();
    put_progress(text, rollout.id().as_str(), &progress)
}

/// The lines of all rollouts, and `end`.
#[tactic(auto, unfolding(crate::specs::Answers::text_of_rollouts))]
pub fn rollouts_text(alloc: Global, rollouts: &[Rollout]) -> Result<Text, NoMemory>
    ensures text { IfOk result (λ text. text ≡ text_of_rollouts rollouts.now) }
{
    let mut text = String::new(alloc);
    for rollout in rollouts {
        put_rollout(&mut text, rollout)?;
    }
    text.push_str("end\n")?;
    Ok(Text::of(text))
}

fn fate_word(fate: Fate) -> &'static str
    ensures word { result.now ≡ fate_word fate }
{
    match fate {
        Fate::Waiting => "waiting",
        Fate::Offered => "offered",
        Fate::Applied => "applied",
        Fate::Failed => "failed",
    }
}

#[tactic(auto, unfolding(crate::specs::Answers::member_line))]
fn put_member(text: &mut String, member: &Member) -> Result<(), NoMemory>
    ensures ok { OnOk result (string_bytes text.new ≡ string_bytes text.old ++ member_line member.now) }
{
    let uid = uuid_of(&member.uid);
    let fate = fate_word(member.fate);
    write!(text, "{uid} {fate}\n")?;
    Ok(())
}

// The lines of agents, and `end`.
fn lines_of_members(alloc: Global, members: &[Member]) -> Result<Text, NoMemory>
    ensures text { IfOk result (λ text. text ≡ flat_map member_line members.now ++ end_line) }
{
    let mut text = String::new(alloc);
    for member in members {
        put_member(&mut text, member)?;
    }
    text.push_str("end\n")?;
    Ok(Text::of(text))
}

/// The lines of the agents that joined the rollout, in the order of joining, and `end`; or that there is no such rollout.
#[tactic(auto, unfolding(crate::specs::Answers::text_of_members))]
pub fn members_text(alloc: Global, rollout: Option<&Rollout>) -> Result<Text, NoMemory>
    ensures text { IfOk result (λ text. text ≡ text_of_members (option_copied rollout.entry)) }
{
    let Some(rollout) = rollout else {
        return Text::from_str(alloc, "refused: no rollout\n");
    };
    let members = rollout.members(alloc)?;
    lines_of_members(alloc, members.as_slice())
}
