//! A report and its parts that are left open while a part of theirs is read.

ghost use Rattle.std.specs.Prelude.{◌≡◌, OnOk};
ghost use Rattle.message_codec.specs.Tables as tables;
ghost use Rattle.message_codec.specs.Tables.{rows_of, kind_at};
ghost use Rattle.message_codec.specs.Means.{entry_of};
ghost use Rattle.message_codec.specs.Openings.{Enters, IsPartOf, ClosesIn};
ghost use Rattle.message_values.specs.declared.attributes.AgentDescription.{AgentDescription as DescriptionOf};
ghost use Rattle.message_reports.specs.declared.health.HealthDraft.{HealthDraft as HealthDraftOf};
ghost use Rattle.message_attributes.specs.declared.parts.AgentConfigMapDraft.{AgentConfigMapDraft as AgentConfigMapDraftOf};
ghost use Rattle.plain_values.specs.declared.files.AgentConfigFile.{AgentConfigFile as AgentConfigFileOf};
ghost use Rattle.message_values.specs.declared.config.RemoteConfigStatus.{RemoteConfigStatus as RemoteConfigStatusOf};
ghost use Rattle.message_reports.specs.declared.packages.PackageStatusesDraft.{PackageStatusesDraft as PackageStatusesDraftOf};
ghost use Rattle.message_values.specs.declared.packages.PackageStatus.{PackageStatus as PackageStatusOf};
ghost use Rattle.message_values.specs.declared.custom.CustomCapabilities.{CustomCapabilities as CustomCapabilitiesOf};
ghost use Rattle.message_values.specs.declared.custom.CustomMessage.{CustomMessage as CustomMessageOf};
ghost use Rattle.message_reports.specs.declared.components.AvailableComponentsDraft.{AvailableComponentsDraft as AvailableComponentsDraftOf};
ghost use Rattle.message_reports.specs.declared.components.DetailsDraft.{DetailsDraft as DetailsDraftOf};
ghost use Rattle.message_attributes.specs.Pieces as attributes;
ghost use Rattle.message_attributes.specs.PartColumns.{config_map_draft_columns, config_file_columns};
ghost use Rattle.message_reports.specs.HealthColumns.{health_draft_columns, health_entry_draft_columns};
ghost use Rattle.message_reports.specs.ComponentColumns.{available_components_draft_columns, details_draft_columns, details_entry_draft_columns};
ghost use Rattle.message_reports.specs.Columns.{effective_config_draft_columns, package_status_columns, package_statuses_draft_columns};
ghost use Rattle.message_reports.specs.ReportColumns.{agent_description_columns, agent_to_server_draft_columns};
ghost use Rattle.message_reports.specs.Pieces.{part_name, part_columns};

use crate::Agent;
use crate::components::{
    AvailableComponentsDraft, DetailsDraft, DetailsEntryDraft, empty_details, empty_details_entry,
    put_details,
};
use crate::config::EffectiveConfigDraft;
use crate::health::{
    HealthDraft, HealthEntryDraft, empty_health, empty_health_entry, put_health, take_health,
};
use crate::inner_parts::take_inner;
use crate::packages::PackageStatusesDraft;
use crate::report::AgentToServerDraft;
use crate::report_parts::{ReportPart, attribute_in, details_entry_in};
use message_attributes::Shared;
use message_attributes::parts::AgentConfigMapDraft;
use message_attributes::pieces::AttributePart;
use message_codec::pieces::columns::{close_many, close_map, open_held, open_one};
use message_codec::pieces::open_message::{Entered, OpenMessage};
use message_codec::reader::items::{Item, ReadFail};
use message_codec::reader::message::Message;
use message_values::{
    AgentDescription, AgentDisconnect, CustomCapabilities, CustomMessage, KeyValue, PackageStatus,
    RemoteConfigStatus,
};
use plain_values::{AgentConfigFile, NoMemory, Pair};
use std::alloc::Global;
use std::mem;

fn open_report(alloc: Global, report: &mut AgentToServerDraft, number: u32) -> Entered<ReportPart>
    ensures enters { Enters part_name part_columns number (ReportPart.Report report.old) (ReportPart.Report report.new) result }
{
    Entered::Part(match number {
        1 => return Entered::Leaf,
        3 => ReportPart::Description(open_one::<Agent, AgentDescription>(
            alloc,
            &mut report.report.agent_description,
        )),
        5 => ReportPart::Health(open_one::<Agent, HealthDraft>(alloc, &mut report.health)),
        6 => ReportPart::EffectiveConfig(open_one::<Agent, EffectiveConfigDraft>(
            alloc,
            &mut report.effective_config,
        )),
        7 => ReportPart::RemoteStatus(open_one::<Agent, RemoteConfigStatus>(
            alloc,
            &mut report.report.remote_config_status,
        )),
        8 => ReportPart::Packages(open_one::<Agent, PackageStatusesDraft>(
            alloc,
            &mut report.package_statuses,
        )),
        9 => ReportPart::Disconnect(open_one::<Agent, AgentDisconnect>(
            alloc,
            &mut report.report.agent_disconnect,
        )),
        12 => ReportPart::CustomCapabilities(open_one::<Shared, CustomCapabilities>(
            alloc,
            &mut report.report.custom_capabilities,
        )),
        13 => ReportPart::CustomMessage(open_one::<Shared, CustomMessage>(
            alloc,
            &mut report.report.custom_message,
        )),
        14 => ReportPart::Components(open_one::<Agent, AvailableComponentsDraft>(
            alloc,
            &mut report.available_components,
        )),
        _ => return Entered::Skipped,
    })
}

fn open_attribute(alloc: Global, part: &mut AttributePart, number: u32) -> Entered<ReportPart>
    ensures name { attributes.part_name part.new ≡ attributes.part_name part.old }
    ensures enters { Enters part_name part_columns number (ReportPart.Attribute part.old) (ReportPart.Attribute part.new) result }
{
    match part.open(alloc, number) {
        Entered::Skipped => Entered::Skipped,
        Entered::Leaf => Entered::Leaf,
        Entered::Part(part) => Entered::Part(ReportPart::Attribute(part)),
    }
}

fn open_description(alloc: Global, number: u32) -> Entered<ReportPart>
    ensures enters { (m : DescriptionOf) → Enters part_name part_columns number (ReportPart.Description m) (ReportPart.Description m) result }
{
    match number {
        1 | 2 => Entered::Part(ReportPart::Attribute(AttributePart::pair(alloc))),
        _ => Entered::Skipped,
    }
}

fn open_health(alloc: Global, number: u32) -> Entered<ReportPart>
    ensures enters { (m : HealthDraftOf) → Enters part_name part_columns number (ReportPart.Health m) (ReportPart.Health m) result }
{
    match number {
        3 | 4 => Entered::Leaf,
        6 => Entered::Part(ReportPart::HealthEntry(empty_health_entry(alloc))),
        _ => Entered::Skipped,
    }
}

fn open_health_entry(
    alloc: Global,
    entry: &mut HealthEntryDraft,
    number: u32,
) -> Entered<ReportPart>
    ensures enters { Enters part_name part_columns number (ReportPart.HealthEntry entry.old) (ReportPart.HealthEntry entry.new) result }
{
    match number {
        1 => Entered::Leaf,
        2 => Entered::Part(ReportPart::Health(mem::replace(&mut entry.value, empty_health(alloc)))),
        _ => Entered::Skipped,
    }
}

fn open_effective(
    alloc: Global,
    config: &mut EffectiveConfigDraft,
    number: u32,
) -> Entered<ReportPart>
    ensures enters { Enters part_name part_columns number (ReportPart.EffectiveConfig config.old) (ReportPart.EffectiveConfig config.new) result }
{
    match number {
        1 => Entered::Part(ReportPart::ConfigMap(open_one::<Shared, AgentConfigMapDraft>(
            alloc,
            &mut config.config_map,
        ))),
        _ => Entered::Skipped,
    }
}

fn open_config_map(alloc: Global, number: u32) -> Entered<ReportPart>
    ensures enters { (m : AgentConfigMapDraftOf) → Enters part_name part_columns number (ReportPart.ConfigMap m) (ReportPart.ConfigMap m) result }
{
    match number {
        1 => {
            let entry: Pair<AgentConfigFile> = Message::<Shared>::empty(alloc);
            Entered::Part(ReportPart::ConfigEntry(entry))
        }
        _ => Entered::Skipped,
    }
}

fn open_config_entry(
    alloc: Global,
    entry: &mut Pair<AgentConfigFile>,
    number: u32,
) -> Entered<ReportPart>
    ensures enters { Enters part_name part_columns number (ReportPart.ConfigEntry entry.old) (ReportPart.ConfigEntry entry.new) result }
{
    match number {
        1 => Entered::Leaf,
        2 => Entered::Part(ReportPart::ConfigFile(open_held::<Shared, AgentConfigFile>(
            alloc,
            &mut entry.value,
        ))),
        _ => Entered::Skipped,
    }
}

fn open_config_file(number: u32) -> Entered<ReportPart>
    ensures enters { (m : AgentConfigFileOf) → Enters part_name part_columns number (ReportPart.ConfigFile m) (ReportPart.ConfigFile m) result }
{
    match number {
        1 | 2 => Entered::Leaf,
        _ => Entered::Skipped,
    }
}

fn open_remote(number: u32) -> Entered<ReportPart>
    ensures enters { (m : RemoteConfigStatusOf) → Enters part_name part_columns number (ReportPart.RemoteStatus m) (ReportPart.RemoteStatus m) result }
{
    match number {
        1 | 3 => Entered::Leaf,
        _ => Entered::Skipped,
    }
}

fn open_packages(alloc: Global, number: u32) -> Entered<ReportPart>
    ensures enters { (m : PackageStatusesDraftOf) → Enters part_name part_columns number (ReportPart.Packages m) (ReportPart.Packages m) result }
{
    match number {
        1 => {
            let entry: Pair<PackageStatus> = Message::<Agent>::empty(alloc);
            Entered::Part(ReportPart::PackageEntry(entry))
        }
        2 | 3 => Entered::Leaf,
        _ => Entered::Skipped,
    }
}

fn open_package_entry(
    alloc: Global,
    entry: &mut Pair<PackageStatus>,
    number: u32,
) -> Entered<ReportPart>
    ensures enters { Enters part_name part_columns number (ReportPart.PackageEntry entry.old) (ReportPart.PackageEntry entry.new) result }
{
    match number {
        1 => Entered::Leaf,
        2 => Entered::Part(ReportPart::Package(open_held::<Agent, PackageStatus>(
            alloc,
            &mut entry.value,
        ))),
        _ => Entered::Skipped,
    }
}

fn open_package(number: u32) -> Entered<ReportPart>
    ensures enters { (m : PackageStatusOf) → Enters part_name part_columns number (ReportPart.Package m) (ReportPart.Package m) result }
{
    match number {
        1 | 2 | 3 | 4 | 5 | 7 => Entered::Leaf,
        _ => Entered::Skipped,
    }
}

fn open_custom_capabilities(number: u32) -> Entered<ReportPart>
    ensures enters { (m : CustomCapabilitiesOf) → Enters part_name part_columns number (ReportPart.CustomCapabilities m) (ReportPart.CustomCapabilities m) result }
{
    match number {
        1 => Entered::Leaf,
        _ => Entered::Skipped,
    }
}

fn open_custom_message(number: u32) -> Entered<ReportPart>
    ensures enters { (m : CustomMessageOf) → Enters part_name part_columns number (ReportPart.CustomMessage m) (ReportPart.CustomMessage m) result }
{
    match number {
        1 | 2 | 3 => Entered::Leaf,
        _ => Entered::Skipped,
    }
}

fn open_components(alloc: Global, number: u32) -> Entered<ReportPart>
    ensures enters { (m : AvailableComponentsDraftOf) → Enters part_name part_columns number (ReportPart.Components m) (ReportPart.Components m) result }
{
    match number {
        1 => Entered::Part(ReportPart::DetailsEntry(empty_details_entry(alloc))),
        2 => Entered::Leaf,
        _ => Entered::Skipped,
    }
}

fn open_details(alloc: Global, number: u32) -> Entered<ReportPart>
    ensures enters { (m : DetailsDraftOf) → Enters part_name part_columns number (ReportPart.Details m) (ReportPart.Details m) result }
{
    match number {
        1 => Entered::Part(ReportPart::Attribute(AttributePart::pair(alloc))),
        2 => Entered::Part(ReportPart::DetailsEntry(empty_details_entry(alloc))),
        _ => Entered::Skipped,
    }
}

fn open_details_entry(
    alloc: Global,
    entry: &mut DetailsEntryDraft,
    number: u32,
) -> Entered<ReportPart>
    ensures enters { Enters part_name part_columns number (ReportPart.DetailsEntry entry.old) (ReportPart.DetailsEntry entry.new) result }
{
    match number {
        1 => Entered::Leaf,
        2 => Entered::Part(ReportPart::Details(mem::replace(
            &mut entry.value,
            empty_details(alloc),
        ))),
        _ => Entered::Skipped,
    }
}

fn close_report(report: &mut AgentToServerDraft, number: u32, part: ReportPart)
    requires part { IsPartOf (kind_at number (rows_of tables.AgentToServer)) (part_name part) }
    ensures closes { ClosesIn tables.AgentToServer number (agent_to_server_draft_columns report.old) (part_columns part) (agent_to_server_draft_columns report.new) }
{
    match part {
        ReportPart::Description(held) => report.report.agent_description = Some(held),
        ReportPart::Health(held) => report.health = Some(held),
        ReportPart::EffectiveConfig(held) => report.effective_config = Some(held),
        ReportPart::RemoteStatus(held) => report.report.remote_config_status = Some(held),
        ReportPart::Packages(held) => report.package_statuses = Some(held),
        ReportPart::Disconnect(held) => report.report.agent_disconnect = Some(held),
        ReportPart::CustomCapabilities(held) => report.report.custom_capabilities = Some(held),
        ReportPart::CustomMessage(held) => report.report.custom_message = Some(held),
        ReportPart::Components(held) => report.available_components = Some(held),
        other => drop(other),
    }
}

fn close_description(
    description: &mut AgentDescription,
    number: u32,
    part: ReportPart,
) -> Result<(), NoMemory>
    requires part { IsPartOf (kind_at number (rows_of tables.AgentDescription)) (part_name part) }
    ensures closes { OnOk result (ClosesIn tables.AgentDescription number (agent_description_columns description.old) (part_columns part) (agent_description_columns description.new)) }
{
    match number {
        1 => match attribute_in(part) {
            Some(pair) => close_many::<Shared, KeyValue>(
                &mut description.identifying_attributes,
                pair,
            ),
            None => Ok(()),
        },
        2 => match attribute_in(part) {
            Some(pair) => close_many::<Shared, KeyValue>(
                &mut description.non_identifying_attributes,
                pair,
            ),
            None => Ok(()),
        },
        _ => {
            drop(part);
            Ok(())
        }
    }
}

fn close_health(
    alloc: Global,
    health: &mut HealthDraft,
    number: u32,
    part: ReportPart,
) -> Result<(), NoMemory>
    requires part { IsPartOf (kind_at number (rows_of tables.ComponentHealth)) (part_name part) }
    ensures closes { OnOk result (ClosesIn tables.ComponentHealth number (health_draft_columns health.old) (part_columns part) (health_draft_columns health.new)) }
{
    match part {
        ReportPart::HealthEntry(entry) => put_health(
            alloc,
            &mut health.component_health_map,
            entry,
        ),
        other => {
            drop(other);
            Ok(())
        }
    }
}

fn close_health_entry(entry: &mut HealthEntryDraft, number: u32, part: ReportPart)
    requires part { IsPartOf (kind_at number (rows_of (tables.Entry tables.ComponentHealth))) (part_name part) }
    ensures closes { ClosesIn (tables.Entry tables.ComponentHealth) number (health_entry_draft_columns entry.old) (part_columns part) (health_entry_draft_columns entry.new) }
{
    match part {
        ReportPart::Health(value) => entry.value = value,
        other => drop(other),
    }
}

fn close_effective(config: &mut EffectiveConfigDraft, number: u32, part: ReportPart)
    requires part { IsPartOf (kind_at number (rows_of tables.EffectiveConfig)) (part_name part) }
    ensures closes { ClosesIn tables.EffectiveConfig number (effective_config_draft_columns config.old) (part_columns part) (effective_config_draft_columns config.new) }
{
    match part {
        ReportPart::ConfigMap(held) => config.config_map = Some(held),
        other => drop(other),
    }
}

fn close_config_map(
    map: &mut AgentConfigMapDraft,
    number: u32,
    part: ReportPart,
) -> Result<(), NoMemory>
    requires part { IsPartOf (kind_at number (rows_of tables.AgentConfigMap)) (part_name part) }
    ensures closes { OnOk result (ClosesIn tables.AgentConfigMap number (config_map_draft_columns map.old) (part_columns part) (config_map_draft_columns map.new)) }
{
    match part {
        ReportPart::ConfigEntry(entry) => close_map::<Shared, AgentConfigFile>(
            &mut map.config_map,
            entry,
        ),
        other => {
            drop(other);
            Ok(())
        }
    }
}

fn close_config_entry(entry: &mut Pair<AgentConfigFile>, number: u32, part: ReportPart)
    requires part { IsPartOf (kind_at number (rows_of (tables.Entry tables.AgentConfigFile))) (part_name part) }
    ensures closes { ClosesIn (tables.Entry tables.AgentConfigFile) number (entry_of config_file_columns entry.old) (part_columns part) (entry_of config_file_columns entry.new) }
{
    match part {
        ReportPart::ConfigFile(value) => entry.value = value,
        other => drop(other),
    }
}

fn close_packages(
    packages: &mut PackageStatusesDraft,
    number: u32,
    part: ReportPart,
) -> Result<(), NoMemory>
    requires part { IsPartOf (kind_at number (rows_of tables.PackageStatuses)) (part_name part) }
    ensures closes { OnOk result (ClosesIn tables.PackageStatuses number (package_statuses_draft_columns packages.old) (part_columns part) (package_statuses_draft_columns packages.new)) }
{
    match part {
        ReportPart::PackageEntry(entry) => close_map::<Agent, PackageStatus>(
            &mut packages.packages,
            entry,
        ),
        other => {
            drop(other);
            Ok(())
        }
    }
}

fn close_package_entry(entry: &mut Pair<PackageStatus>, number: u32, part: ReportPart)
    requires part { IsPartOf (kind_at number (rows_of (tables.Entry tables.PackageStatus))) (part_name part) }
    ensures closes { ClosesIn (tables.Entry tables.PackageStatus) number (entry_of package_status_columns entry.old) (part_columns part) (entry_of package_status_columns entry.new) }
{
    match part {
        ReportPart::Package(value) => entry.value = value,
        other => drop(other),
    }
}

fn close_components(
    alloc: Global,
    components: &mut AvailableComponentsDraft,
    number: u32,
    part: ReportPart,
) -> Result<(), NoMemory>
    requires part { IsPartOf (kind_at number (rows_of tables.AvailableComponents)) (part_name part) }
    ensures closes { OnOk result (ClosesIn tables.AvailableComponents number (available_components_draft_columns components.old) (part_columns part) (available_components_draft_columns components.new)) }
{
    match part {
        ReportPart::DetailsEntry(entry) => put_details(alloc, &mut components.components, entry),
        other => {
            drop(other);
            Ok(())
        }
    }
}

fn close_details(
    alloc: Global,
    details: &mut DetailsDraft,
    number: u32,
    part: ReportPart,
) -> Result<(), NoMemory>
    requires part { IsPartOf (kind_at number (rows_of tables.ComponentDetails)) (part_name part) }
    ensures closes { OnOk result (ClosesIn tables.ComponentDetails number (details_draft_columns details.old) (part_columns part) (details_draft_columns details.new)) }
{
    match number {
        2 => match details_entry_in(part) {
            Some(entry) => put_details(alloc, &mut details.sub_component_map, entry),
            None => Ok(()),
        },
        1 => match attribute_in(part) {
            Some(pair) => close_many::<Shared, KeyValue>(&mut details.metadata, pair),
            None => Ok(()),
        },
        _ => {
            drop(part);
            Ok(())
        }
    }
}

fn close_details_entry(entry: &mut DetailsEntryDraft, number: u32, part: ReportPart)
    requires part { IsPartOf (kind_at number (rows_of (tables.Entry tables.ComponentDetails))) (part_name part) }
    ensures closes { ClosesIn (tables.Entry tables.ComponentDetails) number (details_entry_draft_columns entry.old) (part_columns part) (details_entry_draft_columns entry.new) }
{
    match part {
        ReportPart::Details(value) => entry.value = value,
        other => drop(other),
    }
}

fn close_attribute(
    alloc: Global,
    attribute: &mut AttributePart,
    number: u32,
    part: ReportPart,
) -> Result<(), NoMemory>
    requires part { IsPartOf (kind_at number (rows_of (attributes.part_name attribute.old))) (part_name part) }
    ensures name { attributes.part_name attribute.new ≡ attributes.part_name attribute.old }
    ensures closes { OnOk result (ClosesIn (attributes.part_name attribute.old) number (attributes.part_columns attribute.old) (part_columns part) (attributes.part_columns attribute.new)) }
{
    match part {
        ReportPart::Attribute(part) => attribute.close(alloc, number, part),
        other => {
            drop(other);
            Ok(())
        }
    }
}

impl OpenMessage for ReportPart {
    ghost name = { part_name };

    ghost columns = { part_columns };

    fn take(
        &mut self,
        alloc: Global,
        bytes: &[u8],
        item: &Item,
        below: u32,
    ) -> Result<(), ReadFail> {
        match self {
            ReportPart::Report(m) => Message::<Agent>::take(m, alloc, bytes, item, below),
            ReportPart::Description(m) => Message::<Agent>::take(m, alloc, bytes, item, below),
            ReportPart::Health(m) => take_health(alloc, m, bytes, item, below),
            ReportPart::EffectiveConfig(m) => Message::<Agent>::take(m, alloc, bytes, item, below),
            ReportPart::RemoteStatus(m) => Message::<Agent>::take(m, alloc, bytes, item, below),
            ReportPart::Packages(m) => Message::<Agent>::take(m, alloc, bytes, item, below),
            ReportPart::Disconnect(m) => Message::<Agent>::take(m, alloc, bytes, item, below),
            ReportPart::CustomCapabilities(m) => Message::<Shared>::take(
                m, alloc, bytes, item, below,
            ),
            ReportPart::CustomMessage(m) => Message::<Shared>::take(m, alloc, bytes, item, below),
            ReportPart::Components(m) => Message::<Agent>::take(m, alloc, bytes, item, below),
            inner => take_inner(inner, alloc, bytes, item, below),
        }
    }

    fn open(&mut self, alloc: Global, number: u32) -> Entered<ReportPart> {
        match self {
            ReportPart::Report(m) => open_report(alloc, m, number),
            ReportPart::Description(_) => open_description(alloc, number),
            ReportPart::Health(_) => open_health(alloc, number),
            ReportPart::HealthEntry(m) => open_health_entry(alloc, m, number),
            ReportPart::EffectiveConfig(m) => open_effective(alloc, m, number),
            ReportPart::ConfigMap(_) => open_config_map(alloc, number),
            ReportPart::ConfigEntry(m) => open_config_entry(alloc, m, number),
            ReportPart::ConfigFile(_) => open_config_file(number),
            ReportPart::RemoteStatus(_) => open_remote(number),
            ReportPart::Packages(_) => open_packages(alloc, number),
            ReportPart::PackageEntry(m) => open_package_entry(alloc, m, number),
            ReportPart::Package(_) => open_package(number),
            ReportPart::Disconnect(_) => Entered::Skipped,
            ReportPart::CustomCapabilities(_) => open_custom_capabilities(number),
            ReportPart::CustomMessage(_) => open_custom_message(number),
            ReportPart::Components(_) => open_components(alloc, number),
            ReportPart::Details(_) => open_details(alloc, number),
            ReportPart::DetailsEntry(m) => open_details_entry(alloc, m, number),
            ReportPart::Attribute(m) => open_attribute(alloc, m, number),
        }
    }

    fn close(&mut self, alloc: Global, number: u32, part: ReportPart) -> Result<(), NoMemory> {
        match self {
            ReportPart::Report(m) => {
                close_report(m, number, part);
                Ok(())
            }
            ReportPart::Description(m) => close_description(m, number, part),
            ReportPart::Health(m) => close_health(alloc, m, number, part),
            ReportPart::HealthEntry(m) => {
                close_health_entry(m, number, part);
                Ok(())
            }
            ReportPart::EffectiveConfig(m) => {
                close_effective(m, number, part);
                Ok(())
            }
            ReportPart::ConfigMap(m) => close_config_map(m, number, part),
            ReportPart::ConfigEntry(m) => {
                close_config_entry(m, number, part);
                Ok(())
            }
            ReportPart::Packages(m) => close_packages(m, number, part),
            ReportPart::PackageEntry(m) => {
                close_package_entry(m, number, part);
                Ok(())
            }
            ReportPart::Components(m) => close_components(alloc, m, number, part),
            ReportPart::Details(m) => close_details(alloc, m, number, part),
            ReportPart::DetailsEntry(m) => {
                close_details_entry(m, number, part);
                Ok(())
            }
            ReportPart::Attribute(m) => close_attribute(alloc, m, number, part),
            _ => {
                drop(part);
                Ok(())
            }
        }
    }
}
