//! The command `check`: framed reports in, a line for each out that tells what it lacks to be full.

ghost use Rattle.std.specs.Prelude.{◌≡◌, ◌++◌, ◌∷◌, ℕ, IfOk, OnOk};
ghost use Rattle.std.specs.String.{string_bytes};
ghost use Rattle.std.proofs.Common.{arith};
ghost use Rattle.message_deltas.specs.Obligations.{missing_fields};
ghost use Rattle.command_frames.specs.Checking.{checked_line, missing_names, named, Checks};

use crate::families::Outermost;
use crate::refusing::refusal;
use command_streams::{Handled, Handler, Told};
use message_codec::wire::Out;
use message_deltas::{is_full, missing_fields};
use message_values::AgentToServer;
use plain_values::NoMemory;
use std::alloc::Global;

/// Tells of each report what it lacks, by a line with its number.
#[derive(Drop)]
pub struct Check {
    checked: u64,
}

impl Check {
    /// A command that has checked nothing. Takes no memory.
    pub fn new() -> Check
        ensures none { result.checked ≡ 0 }
    {
        Check { checked: 0 }
    }
}

// Adds the name behind a blank, where it is missing.
fn put_name(names: &mut String, is_missing: bool, name: &str) -> Result<(), NoMemory>
    ensures put { OnOk result (string_bytes names.new ≡ string_bytes names.old ++ named is_missing name.now) }
{
    if is_missing {
        names.push_str(" ")?;
        names.push_str(name)?;
    }
    Ok(())
}

// The names of the fields that the report misses.
fn missing_names(alloc: Global, report: &AgentToServer) -> Result<String, NoMemory>
    ensures names { IfOk result (λ names. string_bytes names ≡ missing_names (missing_fields report.now)) }
{
    let missed = missing_fields(report);
    let mut names = String::new(alloc);
    put_name(&mut names, missed.agent_description, "agent_description")?;
    put_name(&mut names, missed.health, "health")?;
    put_name(&mut names, missed.effective_config, "effective_config")?;
    put_name(
        &mut names,
        missed.remote_config_status,
        "remote_config_status",
    )?;
    put_name(&mut names, missed.package_statuses, "package_statuses")?;
    put_name(
        &mut names,
        missed.available_components,
        "available_components",
    )?;
    Ok(names)
}

// The line of the report of this number.
fn checked_line(alloc: Global, number: u64, report: &AgentToServer) -> Result<String, NoMemory>
    ensures line { IfOk result (λ line. string_bytes line ≡ checked_line number report.now) }
{
    if is_full(report) {
        return Ok(format!(in alloc; "report {number} full\n")?);
    }
    let names = missing_names(alloc, report)?;
    Ok(format!(in alloc; "report {number} lacks{names}\n")?)
}

impl Handler for Check {
    ghost gives = { λ before bytes made after. Checks before.checked bytes made after.checked };

    ghost counted = { λ check. check.checked };

    ghost counts = { λ before after message output given. Prim.omega (arith, given.3) };

    fn handle(
        &mut self,
        alloc: Global,
        message: &[u8],
        output: &mut Out,
    ) -> Result<Handled, NoMemory> {
        let report = match <AgentToServer as Outermost>::read(alloc, message) {
            Ok(report) => report,
            Err(fail) => return refusal(fail),
        };
        let number = self.checked + 1;
        let line = checked_line(alloc, number, &report)?;
        output.append(line.as_bytes())?;
        self.checked = number;
        Ok(Handled::Written)
    }
}

// It is told by how many reports were checked.
impl Told for Check {
    ghost State = { ℕ };

    ghost makes = { Checks };

    ghost tells = { λ check number. check.checked ≡ number };
}
