//! What is seen of the agents behind an event.

ghost use Rattle.std.specs.Prelude.{◌≡◌, OnOk};
ghost use Rattle.server_sessions.specs.Session.{marked, seen_behind};

use crate::answers::Handled;
use plain_values::NoMemory;
use server_core::Server;
use server_lines::Sightings;

// Marks a report, if it was taken.
fn mark(seen: &mut Sightings, report: &Handled) -> Result<(), NoMemory>
    ensures marked { OnOk result (seen.new ≡ marked seen.old report.now) }
{
    if report.taken {
        seen.note(&report.uid, report.conn, report.ws)?;
    }
    Ok(())
}

/// Marks the reports of an event that were taken, in order. Agents that the server doesn't hold any more lose their marks.
pub fn mark_behind(
    seen: &mut Sightings,
    server: &Server,
    handled: &[Handled],
) -> Result<(), NoMemory>
    ensures seen { OnOk result (seen.new ≡ seen_behind server.now.table.records handled.now seen.old) }
{
    for report in handled {
        mark(seen, report)?;
    }
    seen.keep_held(server);
    Ok(())
}
