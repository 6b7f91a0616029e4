//! The lines that say how serving went.

ghost use Rattle.std.specs.Prelude.{◌≡◌, string_bytes, IfOk};
ghost use Rattle.command_serve.specs.Rolling.{lines_of, rollout_line, rollout_lines};
ghost use Rattle.command_serve.specs.Statuses.{events_line};

use plain_values::NoMemory;
use server_waves::Progress;
use std::alloc::Global;

// The line `events N`.
#[tactic(auto, unfolding(crate::specs::Statuses::events_line))]
fn events_line(alloc: Global, events: u64) -> Result<String, NoMemory>
    ensures line { IfOk result (λ line. string_bytes line ≡ events_line events) }
{
    let line = format!(in alloc; "events {events}\n")?;
    Ok(line)
}

// The line that says how far a rollout is.
#[tactic(auto, unfolding(crate::specs::Rolling::rollout_line))]
fn rollout_line(alloc: Global, progress: Progress) -> Result<String, NoMemory>
    ensures line { IfOk result (λ line. string_bytes line ≡ rollout_line progress) }
{
    let Progress {
        waiting,
        offered,
        applied,
        failed,
        halted,
    } = progress;
    let halt = if halted { " halted" } else { "" };
    let line = format!(in alloc;
        "rollout waiting {waiting} offered {offered} applied {applied} failed {failed}{halt}\n"
    )?;
    Ok(line)
}

// Both lines: how many events were served, and how far a rollout is.
fn rollout_lines(alloc: Global, events: u64, progress: Progress) -> Result<String, NoMemory>
    ensures lines { IfOk result (λ lines. string_bytes lines ≡ rollout_lines events progress) }
{
    let mut lines = events_line(alloc, events)?;
    let line = rollout_line(alloc, progress)?;
    lines.push_str(line.as_str())?;
    Ok(lines)
}

/// How many events were served, and how far the rollout is, if there is one.
pub(crate) fn lines_of(
    alloc: Global,
    events: u64,
    progress: Option<Progress>,
) -> Result<String, NoMemory>
    ensures lines { IfOk result (λ lines. string_bytes lines ≡ lines_of events progress) }
{
    match progress {
        None => events_line(alloc, events),
        Some(progress) => rollout_lines(alloc, events, progress),
    }
}
