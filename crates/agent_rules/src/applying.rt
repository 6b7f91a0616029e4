//! Changes as they are read and applied.

ghost use Rattle.std.specs.Prelude.{◌≡◌, IfOk, OnOk, IfSome, IsTrue};
ghost use Rattle.std.specs.Option.{option_map};
ghost use Rattle.message_codec.specs.Values.{Value, Values, Number, Flag, Content, Present};
ghost use Rattle.message_codec.specs.Read.{FailsWith, raw_of};
ghost use Rattle.message_attributes.specs.PartColumns.{config_map_columns};
ghost use Rattle.message_reports.specs.Columns.{remote_config_status_columns, package_statuses_columns};
ghost use Rattle.message_replies.specs.ReplyColumns.{headers_columns};
ghost use Rattle.agent_rules.specs.Columns.{saved_columns, parts_columns, change_columns};
ghost use Rattle.agent_rules.specs.Payloads.{FitsTypes, canonical_saved};
ghost use Rattle.agent_rules.specs.Changes.{TakesColumn, TakesColumns, Changes, ChangesSaved};
ghost use Rattle.agent_rules.specs.Right.{is_right};
ghost use Rattle.agent_rules.specs.Codec.{changed};

use crate::Kept;
use crate::drafts::ChangeDraft;
use crate::fields::{
    ComponentsHashField, ConfigField, ConfigHashField, EndpointField, Field, GivenField,
    HeadersField, IntervalField, LimitField, PackagesField, RemoteField, SettingsHashField,
    UidField,
};
use crate::parts::SavedParts;
use crate::reading::{read_parts, settle};
use crate::saved::Saved;
use crate::written::{LENGTH_LIMIT, saved_len};
use message_codec::reader::decoding::{MOST_LEVELS, read_message};
use message_codec::reader::items::ReadFail;
use message_values::{PackageStatuses, RemoteConfigStatus};
use plain_values::{AgentConfigMap, Blob, Headers, NoMemory, Text};
use std::alloc::Global;

// A field after a change: where the change has it, that of the payload that it holds, and else it stays.
fn take_field<T: Drop, F: Field<T>>(
    alloc: Global,
    field: &mut T,
    change: &Option<Blob>,
) -> Result<(), ReadFail>
    ensures takes { OnOk result (TakesColumn F.place (raw_of change.now) (F.value field.old) (F.value field.new)) }
    ensures refused { FailsWith result (λ at why. (w : Value) → TakesColumn F.place (raw_of change.now) (F.value field.old) w → ⊥) }
{
    if let Some(bytes) = change {
        *field = F::of(read_parts(alloc, bytes.as_slice())?);
    }
    Ok(())
}

// The identifier, the limit and whether the identifier was given, after a change.
fn change_identity(
    alloc: Global,
    parts: &mut SavedParts,
    change: &ChangeDraft,
) -> Result<(), ReadFail>
    ensures uid { OnOk result (TakesColumn 0 (raw_of change.now.uid) (Content parts.old.uid) (Content parts.new.uid)) }
    ensures limit { OnOk result (TakesColumn 1 (raw_of change.now.limit) (Number parts.old.limit) (Number parts.new.limit)) }
    ensures given { OnOk result (TakesColumn 2 (raw_of change.now.uid_given) (Flag parts.old.uid_given) (Flag parts.new.uid_given)) }
    ensures kept { OnOk result (parts.new ≡ record parts.old { uid = parts.new.uid; limit = parts.new.limit; uid_given = parts.new.uid_given }) }
    ensures refused { FailsWith result (λ at why. (uid limit given : Value)
        → TakesColumn 0 (raw_of change.now.uid) (Content parts.old.uid) uid
        → TakesColumn 1 (raw_of change.now.limit) (Number parts.old.limit) limit
        → TakesColumn 2 (raw_of change.now.uid_given) (Flag parts.old.uid_given) given → ⊥) }
{
    take_field::<Blob, UidField>(alloc, &mut parts.uid, &change.uid)?;
    take_field::<u64, LimitField>(alloc, &mut parts.limit, &change.limit)?;
    take_field::<bool, GivenField>(alloc, &mut parts.uid_given, &change.uid_given)
}

// The connection settings after a change.
fn change_settings(
    alloc: Global,
    parts: &mut SavedParts,
    change: &ChangeDraft,
) -> Result<(), ReadFail>
    ensures endpoint { OnOk result (TakesColumn 3 (raw_of change.now.endpoint) (Content parts.old.endpoint) (Content parts.new.endpoint)) }
    ensures headers { OnOk result (TakesColumn 4 (raw_of change.now.headers) (Present (headers_columns parts.old.headers)) (Present (headers_columns parts.new.headers))) }
    ensures interval { OnOk result (TakesColumn 5 (raw_of change.now.interval) (Number parts.old.interval) (Number parts.new.interval)) }
    ensures hash { OnOk result (TakesColumn 6 (raw_of change.now.settings_hash) (Content parts.old.settings_hash) (Content parts.new.settings_hash)) }
    ensures kept { OnOk result (parts.new ≡ record parts.old {
      endpoint = parts.new.endpoint;
      headers = parts.new.headers;
      interval = parts.new.interval;
      settings_hash = parts.new.settings_hash;
    }) }
    ensures refused { FailsWith result (λ at why. (endpoint headers interval hash : Value)
        → TakesColumn 3 (raw_of change.now.endpoint) (Content parts.old.endpoint) endpoint
        → TakesColumn 4 (raw_of change.now.headers) (Present (headers_columns parts.old.headers)) headers
        → TakesColumn 5 (raw_of change.now.interval) (Number parts.old.interval) interval
        → TakesColumn 6 (raw_of change.now.settings_hash) (Content parts.old.settings_hash) hash → ⊥) }
{
    take_field::<Text, EndpointField>(alloc, &mut parts.endpoint, &change.endpoint)?;
    take_field::<Headers, HeadersField>(alloc, &mut parts.headers, &change.headers)?;
    take_field::<u64, IntervalField>(alloc, &mut parts.interval, &change.interval)?;
    take_field::<Blob, SettingsHashField>(alloc, &mut parts.settings_hash, &change.settings_hash)
}

// The configuration with its status, the packages and the hashes, after a change.
fn change_offers(
    alloc: Global,
    parts: &mut SavedParts,
    change: &ChangeDraft,
) -> Result<(), ReadFail>
    ensures config { OnOk result (TakesColumn 7 (raw_of change.now.config) (Present (config_map_columns parts.old.config)) (Present (config_map_columns parts.new.config))) }
    ensures remote { OnOk result (TakesColumn 8 (raw_of change.now.remote) (Present (remote_config_status_columns parts.old.remote)) (Present (remote_config_status_columns parts.new.remote))) }
    ensures packages { OnOk result (TakesColumn 9 (raw_of change.now.packages) (Present (package_statuses_columns parts.old.packages)) (Present (package_statuses_columns parts.new.packages))) }
    ensures config_hash { OnOk result (TakesColumn 10 (raw_of change.now.config_hash) (Content parts.old.config_hash) (Content parts.new.config_hash)) }
    ensures components_hash { OnOk result (TakesColumn 11 (raw_of change.now.components_hash) (Content parts.old.components_hash) (Content parts.new.components_hash)) }
    ensures kept { OnOk result (parts.new ≡ record parts.old {
      config = parts.new.config;
      remote = parts.new.remote;
      packages = parts.new.packages;
      config_hash = parts.new.config_hash;
      components_hash = parts.new.components_hash;
    }) }
    ensures refused { FailsWith result (λ at why. (config remote packages config_hash components_hash : Value)
        → TakesColumn 7 (raw_of change.now.config) (Present (config_map_columns parts.old.config)) config
        → TakesColumn 8 (raw_of change.now.remote) (Present (remote_config_status_columns parts.old.remote)) remote
        → TakesColumn 9 (raw_of change.now.packages) (Present (package_statuses_columns parts.old.packages)) packages
        → TakesColumn 10 (raw_of change.now.config_hash) (Content parts.old.config_hash) config_hash
        → TakesColumn 11 (raw_of change.now.components_hash) (Content parts.old.components_hash) components_hash → ⊥) }
{
    take_field::<AgentConfigMap, ConfigField>(alloc, &mut parts.config, &change.config)?;
    take_field::<RemoteConfigStatus, RemoteField>(alloc, &mut parts.remote, &change.remote)?;
    take_field::<PackageStatuses, PackagesField>(alloc, &mut parts.packages, &change.packages)?;
    take_field::<Blob, ConfigHashField>(alloc, &mut parts.config_hash, &change.config_hash)?;
    take_field::<Blob, ComponentsHashField>(
        alloc,
        &mut parts.components_hash,
        &change.components_hash,
    )
}

// Fields with the change that is made to them. They are dropped by one call, where the change is refused.
struct Changing {
    parts: SavedParts,
    change: ChangeDraft,
}

impl Drop for Changing {
    fn drop(self) {
        let Changing {
            parts: _,
            change: _,
        } = self;
    }
}

impl Changing {
    // The fields alone.
    fn into_parts(self) -> SavedParts
        ensures parts { result ≡ self.parts }
    {
        let Changing { parts, change: _ } = self;
        parts
    }
}

// All fields after a change.
fn change_parts(
    alloc: Global,
    former: SavedParts,
    change: ChangeDraft,
) -> Result<SavedParts, ReadFail>
    ensures takes { IfOk result (λ next. TakesColumns 0 (change_columns change) (parts_columns former) (parts_columns next)) }
    ensures refused { FailsWith result (λ at why. (ws : Values) → TakesColumns 0 (change_columns change) (parts_columns former) ws → ⊥) }
{
    let mut changing = Changing {
        parts: former,
        change,
    };
    change_identity(alloc, &mut changing.parts, &changing.change)?;
    change_settings(alloc, &mut changing.parts, &changing.change)?;
    change_offers(alloc, &mut changing.parts, &changing.change)?;
    Ok(changing.into_parts())
}

/// The fields that a change leads to. Refused exactly where the bytes are no change of them.
pub fn read_change(alloc: Global, former: Saved, fields: &[u8]) -> Result<SavedParts, ReadFail>
    ensures leads { IfOk result (λ next. Changes fields.now (saved_columns former) (parts_columns next)) }
    ensures refused { FailsWith result (λ at why. (ws : Values) → Changes fields.now (saved_columns former) ws → ⊥) }
{
    let change = read_message::<Kept, ChangeDraft>(alloc, fields, MOST_LEVELS - 1)?;
    let former = former.into_parts(alloc)?;
    change_parts(alloc, former, change)
}

/// The value that a change leads to from another one, where it may be kept: none exactly where the bytes are no change that leads to such a
/// value. The fields that the change does not have are moved.
pub fn change_saved(alloc: Global, former: Saved, fields: &[u8]) -> Result<Option<Saved>, NoMemory>
    requires right { IsTrue (is_right former) }
    requires typed { FitsTypes former }
    ensures means { IfOk result (λ found. option_map canonical_saved found ≡ changed (canonical_saved former) fields.now) }
    ensures changes { IfOk result (λ found. IfSome found (ChangesSaved fields.now former)) }
    ensures right { IfOk result (λ found. IfSome found (λ saved. IsTrue (is_right saved))) }
    ensures typed { IfOk result (λ found. IfSome found FitsTypes) }
{
    if saved_len(&former) >= LENGTH_LIMIT {
        return Err(NoMemory);
    }
    match read_change(alloc, former, fields) {
        Ok(parts) => settle(parts),
        Err(ReadFail::NoMemory) => Err(NoMemory),
        Err(ReadFail::Refused(_)) => Ok(None),
    }
}
