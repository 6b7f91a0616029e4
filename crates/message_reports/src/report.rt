//! The report of an agent (OpAMP specification, "AgentToServer Message").

ghost use Rattle.std.specs.Prelude.{◌≡◌, OnOk, IfOk};
ghost use Rattle.message_codec.specs.Values.{Values};
ghost use Rattle.message_codec.specs.Read.{one_of};
ghost use Rattle.message_reports.specs.HealthColumns.{health_columns};
ghost use Rattle.message_reports.specs.ComponentColumns.{available_components_columns};
ghost use Rattle.message_reports.specs.Columns.{effective_config_columns, package_statuses_columns};
ghost use Rattle.message_reports.specs.ReportColumns.{agent_to_server_columns, agent_to_server_draft_columns};

use crate::Agent;
use crate::components::AvailableComponentsDraft;
use crate::config::EffectiveConfigDraft;
use crate::health::HealthDraft;
use crate::packages::PackageStatusesDraft;
use message_codec::reader::columns::{take_blob, take_unsigned};
use message_codec::reader::items::{Item, ReadFail};
use message_codec::reader::message::{Message, take_many, take_one};
use message_values::{
    AgentDescription, AgentDisconnect, AgentToServer, AvailableComponents, ComponentHealth,
    EffectiveConfig, PackageStatuses,
};
use plain_values::{Blob, List, NoMemory};
use std::alloc::Global;

impl Message<Agent> for AgentDescription {
    ghost use Rattle.message_codec.specs.Tables as tables;
    ghost use Rattle.message_reports.specs.ReportColumns.{agent_description_columns};

    ghost name = { tables.AgentDescription };

    ghost columns = { agent_description_columns };

    fn empty(alloc: Global) -> AgentDescription {
        AgentDescription {
            identifying_attributes: List::new(alloc),
            non_identifying_attributes: List::new(alloc),
        }
    }

    fn take(
        &mut self,
        alloc: Global,
        bytes: &[u8],
        item: &Item,
        below: u32,
    ) -> Result<(), ReadFail> {
        match item.number {
            1 => take_many(alloc, &mut self.identifying_attributes, bytes, item, below)?,
            2 => take_many(
                alloc,
                &mut self.non_identifying_attributes,
                bytes,
                item,
                below,
            )?,
            _ => {}
        }
        Ok(())
    }
}

impl Message<Agent> for AgentDisconnect {
    ghost use Rattle.message_codec.specs.Tables as tables;
    ghost use Rattle.message_codec.specs.Values.{End};

    ghost name = { tables.AgentDisconnect };

    ghost columns = { λ d. End };

    fn empty(_alloc: Global) -> AgentDisconnect {
        AgentDisconnect
    }

    fn take(
        &mut self,
        _alloc: Global,
        _bytes: &[u8],
        _item: &Item,
        _below: u32,
    ) -> Result<(), ReadFail> {
        Ok(())
    }
}

/// An AgentToServer while it is read.
#[derive(Drop)]
pub struct AgentToServerDraft {
    /// The fields that hold no map, where they stay. What it has of the others doesn't count before they are settled.
    pub report: AgentToServer,
    /// The health, its components as they came.
    pub health: Option<HealthDraft>,
    /// The configuration in use, its files as they came.
    pub effective_config: Option<EffectiveConfigDraft>,
    /// The packages, as they came.
    pub package_statuses: Option<PackageStatusesDraft>,
    /// The components that the agent can have, as they came.
    pub available_components: Option<AvailableComponentsDraft>,
}

// A message that holds maps, while it is read.
trait Settles<S>: Message<Agent> {
    ghost settled: { S → Values };

    fn into_settled(self, alloc: Global) -> Result<S, NoMemory>
        ensures columns { IfOk result (λ m. settled m ≡ Self.columns self) };
}

impl Settles<ComponentHealth> for HealthDraft {
    ghost settled = { health_columns };

    fn into_settled(self, alloc: Global) -> Result<ComponentHealth, NoMemory> {
        self.settle(alloc)
    }
}

impl Settles<EffectiveConfig> for EffectiveConfigDraft {
    ghost settled = { effective_config_columns };

    fn into_settled(self, alloc: Global) -> Result<EffectiveConfig, NoMemory> {
        self.settle(alloc)
    }
}

impl Settles<PackageStatuses> for PackageStatusesDraft {
    ghost settled = { package_statuses_columns };

    fn into_settled(self, alloc: Global) -> Result<PackageStatuses, NoMemory> {
        self.settle(alloc)
    }
}

impl Settles<AvailableComponents> for AvailableComponentsDraft {
    ghost settled = { available_components_columns };

    fn into_settled(self, alloc: Global) -> Result<AvailableComponents, NoMemory> {
        self.settle(alloc)
    }
}

// Most reports have a health, and none of the other three. Where nothing came and nothing stands there, nothing is moved.
fn settle_part<S: Drop, D: Settles<S>>(
    alloc: Global,
    draft: &mut Option<D>,
    settled: &mut Option<S>,
) -> Result<(), NoMemory>
    ensures columns { OnOk result (one_of D.settled settled.new ≡ one_of D.columns draft.old) }
{
    if draft.is_none() && settled.is_none() {
        return Ok(());
    }
    match draft.take() {
        None => *settled = None,
        Some(draft) => *settled = Some(draft.into_settled(alloc)?),
    }
    Ok(())
}

impl AgentToServerDraft {
    /// Puts the fields that hold maps into the report, which then is the message that was read.
    pub fn settle(&mut self, alloc: Global) -> Result<(), NoMemory>
        ensures columns { OnOk result (agent_to_server_columns self.new.report ≡ agent_to_server_draft_columns self.old) }
    {
        settle_part(alloc, &mut self.health, &mut self.report.health)?;
        settle_part(
            alloc,
            &mut self.effective_config,
            &mut self.report.effective_config,
        )?;
        settle_part(
            alloc,
            &mut self.package_statuses,
            &mut self.report.package_statuses,
        )?;
        settle_part(
            alloc,
            &mut self.available_components,
            &mut self.report.available_components,
        )
    }
}

impl Message<Agent> for AgentToServerDraft {
    ghost use Rattle.message_codec.specs.Tables as tables;
    ghost use Rattle.message_reports.specs.ReportColumns.{agent_to_server_draft_columns};

    ghost name = { tables.AgentToServer };

    ghost columns = { agent_to_server_draft_columns };

    fn empty(alloc: Global) -> AgentToServerDraft {
        AgentToServerDraft {
            report: AgentToServer {
                instance_uid: Blob::of(Vec::new(alloc)),
                sequence_num: 0,
                agent_description: None,
                capabilities: 0,
                health: None,
                effective_config: None,
                remote_config_status: None,
                package_statuses: None,
                agent_disconnect: None,
                flags: 0,
                custom_capabilities: None,
                custom_message: None,
                available_components: None,
            },
            health: None,
            effective_config: None,
            package_statuses: None,
            available_components: None,
        }
    }

    fn take(
        &mut self,
        alloc: Global,
        bytes: &[u8],
        item: &Item,
        below: u32,
    ) -> Result<(), ReadFail> {
        match item.number {
            1 => take_blob(alloc, &mut self.report.instance_uid, bytes, item),
            2 => {
                take_unsigned(&mut self.report.sequence_num, bytes, item);
                Ok(())
            }
            3 => take_one(
                alloc,
                &mut self.report.agent_description,
                bytes,
                item,
                below,
            ),
            4 => {
                take_unsigned(&mut self.report.capabilities, bytes, item);
                Ok(())
            }
            5 => take_one(alloc, &mut self.health, bytes, item, below),
            6 => take_one(alloc, &mut self.effective_config, bytes, item, below),
            7 => take_one(
                alloc,
                &mut self.report.remote_config_status,
                bytes,
                item,
                below,
            ),
            8 => take_one(alloc, &mut self.package_statuses, bytes, item, below),
            9 => take_one(alloc, &mut self.report.agent_disconnect, bytes, item, below),
            10 => {
                take_unsigned(&mut self.report.flags, bytes, item);
                Ok(())
            }
            12 => take_one(
                alloc,
                &mut self.report.custom_capabilities,
                bytes,
                item,
                below,
            ),
            13 => take_one(alloc, &mut self.report.custom_message, bytes, item, below),
            14 => take_one(alloc, &mut self.available_components, bytes, item, below),
            _ => Ok(()),
        }
    }
}
