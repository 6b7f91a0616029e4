//! The waits between rounds.

ghost use Rattle.std.specs.Prelude.{◌≡◌};
ghost use Rattle.agent_rounds.specs.Status.{is_urgent, pause_after, pause_of, retry_of, seconds_of};

use crate::ends::Pause;
use agent_rules::Next;
use message_values::ServerErrorResponse;

// An interval of 0 stands for 30 seconds.
fn seconds_of(interval: u64) -> u64
    ensures { result ≡ seconds_of interval }
{
    if interval == 0 { 30 } else { interval }
}

// How long the server asks to wait, in nanoseconds.
fn retry_of(error: &Option<ServerErrorResponse>) -> u64
    ensures { result ≡ retry_of error.now }
{
    match error {
        Some(error) => match &error.retry_info {
            Some(retry) => retry.retry_after_nanoseconds,
            None => 0,
        },
        None => 0,
    }
}

/// The wait between two rounds in nanoseconds: the interval of so many seconds, or the time that an error asks for, where that is longer. An interval of
/// 0 stands for 30 seconds. A wait that passes 64 bits is the longest of these.
pub fn pause_of(interval: u64, error: &Option<ServerErrorResponse>) -> u64
    ensures pause { result ≡ pause_of interval error.now }
{
    let nanos = seconds_of(interval).saturating_mul(1_000_000_000);
    nanos.max(retry_of(error))
}

// Whether the next round follows at once.
fn is_urgent(next: &Next) -> bool
    ensures { result ≡ is_urgent next.now }
{
    next.full || next.connection.is_some() || next.restart
}

/// What follows a round whose reply asked this: no wait after a wish for the full state, a trial begun or a restart command.
pub fn pause_after(next: &Next, interval: u64) -> Pause
    ensures pause { result ≡ pause_after next.now interval }
{
    let nanos = if is_urgent(next) {
        None
    } else {
        Some(pause_of(interval, &next.error))
    };
    Pause {
        restart: next.restart,
        nanos,
    }
}
