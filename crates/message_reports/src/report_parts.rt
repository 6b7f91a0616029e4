//! A report and its parts, each by itself.

ghost use Rattle.std.specs.Prelude.{◌≡◌};
ghost use Rattle.message_codec.specs.Tables as tables;
ghost use Rattle.message_codec.specs.Values.{Present};
ghost use Rattle.message_codec.specs.Read.{one_of};
ghost use Rattle.message_attributes.specs.AnyColumns.{pair_columns};
ghost use Rattle.message_reports.specs.ComponentColumns.{details_entry_draft_columns};
ghost use Rattle.message_reports.specs.Pieces.{part_name, part_columns};

use crate::components::{AvailableComponentsDraft, DetailsDraft, DetailsEntryDraft};
use crate::config::EffectiveConfigDraft;
use crate::health::{HealthDraft, HealthEntryDraft};
use crate::packages::PackageStatusesDraft;
use crate::report::AgentToServerDraft;
use message_attributes::parts::AgentConfigMapDraft;
use message_attributes::pieces::AttributePart;
use message_values::{
    AgentDescription, AgentDisconnect, CustomCapabilities, CustomMessage, KeyValue, PackageStatus,
    RemoteConfigStatus,
};
use plain_values::{AgentConfigFile, Pair};

/// A report or a part of one that is open.
#[derive(Drop)]
pub enum ReportPart {
    Report(AgentToServerDraft),
    Description(AgentDescription),
    Health(HealthDraft),
    HealthEntry(HealthEntryDraft),
    EffectiveConfig(EffectiveConfigDraft),
    ConfigMap(AgentConfigMapDraft),
    ConfigEntry(Pair<AgentConfigFile>),
    ConfigFile(AgentConfigFile),
    RemoteStatus(RemoteConfigStatus),
    Packages(PackageStatusesDraft),
    PackageEntry(Pair<PackageStatus>),
    Package(PackageStatus),
    Disconnect(AgentDisconnect),
    CustomCapabilities(CustomCapabilities),
    CustomMessage(CustomMessage),
    Components(AvailableComponentsDraft),
    Details(DetailsDraft),
    DetailsEntry(DetailsEntryDraft),
    Attribute(AttributePart),
}

pub(crate) fn details_entry_in(part: ReportPart) -> Option<DetailsEntryDraft>
    requires part { part_name part ≡ tables.Entry tables.ComponentDetails }
    ensures columns { one_of details_entry_draft_columns result ≡ Present (part_columns part) }
{
    match part {
        ReportPart::DetailsEntry(held) => Some(held),
        other => {
            drop(other);
            None
        }
    }
}

pub(crate) fn attribute_in(part: ReportPart) -> Option<KeyValue>
    requires part { part_name part ≡ tables.KeyValue }
    ensures columns { one_of pair_columns result ≡ Present (part_columns part) }
{
    match part {
        ReportPart::Attribute(AttributePart::Pair(pair)) => Some(pair),
        other => {
            drop(other);
            None
        }
    }
}
