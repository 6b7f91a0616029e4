//! The parts that reports and replies share, read from where they lie.

ghost use Rattle.std.specs.Prelude.{◌≤◌, suc, ◌-◌, IfOk, length, slice_range};
ghost use Rattle.message_codec.specs.Tables as tables;
ghost use Rattle.message_codec.specs.Means.{Means};
ghost use Rattle.message_codec.specs.Faults.{FaultFrom};
ghost use Rattle.message_codec.specs.Read.{FailsWith};
ghost use Rattle.message_attributes.specs.AnyColumns.{any_columns, pair_columns};
ghost use Rattle.message_attributes.specs.PartColumns.{config_map_columns, custom_capabilities_columns, custom_message_columns};

use crate::Shared;
use crate::parts::AgentConfigMapDraft;
use message_codec::reader::decoding::read_part;
use message_codec::reader::items::ReadFail;
use message_values::{AnyValue, CustomCapabilities, CustomMessage, KeyValue};
use plain_values::AgentConfigMap;
use std::alloc::Global;

/// Reads the bytes from `from` to `to` as a KeyValue (OpenTelemetry `common.proto`), nested `level` deep where the outermost
/// message is level 1. The place of a fault counts from the first byte of `bytes`.
pub fn read_key_value(
    alloc: Global,
    bytes: &[u8],
    from: u64,
    to: u64,
    level: u32,
) -> Result<KeyValue, ReadFail>
    requires range { from ≤ to }
    requires within { to ≤ length bytes.now }
    requires level { (1 ≤ level) × (level ≤ 100) }
    ensures means { IfOk result (λ m. Means (suc (100 - level)) tables.KeyValue (slice_range bytes.now from to) (pair_columns m)) }
    ensures refused { FailsWith result (FaultFrom from (suc (100 - level)) tables.KeyValue (slice_range bytes.now from to)) }
{
    read_part::<Shared, KeyValue>(alloc, bytes, from, to, level)
}

/// Reads a part of `bytes` as an AnyValue (OpenTelemetry `common.proto`), as `read_key_value` does.
pub fn read_any_value(
    alloc: Global,
    bytes: &[u8],
    from: u64,
    to: u64,
    level: u32,
) -> Result<AnyValue, ReadFail>
    requires range { from ≤ to }
    requires within { to ≤ length bytes.now }
    requires level { (1 ≤ level) × (level ≤ 100) }
    ensures means { IfOk result (λ m. Means (suc (100 - level)) tables.AnyValue (slice_range bytes.now from to) (any_columns m)) }
    ensures refused { FailsWith result (FaultFrom from (suc (100 - level)) tables.AnyValue (slice_range bytes.now from to)) }
{
    read_part::<Shared, AnyValue>(alloc, bytes, from, to, level)
}

/// Reads a part of `bytes` as an AgentConfigMap (OpAMP specification, "AgentConfigMap Message"), as `read_key_value` does.
pub fn read_agent_config_map(
    alloc: Global,
    bytes: &[u8],
    from: u64,
    to: u64,
    level: u32,
) -> Result<AgentConfigMap, ReadFail>
    requires range { from ≤ to }
    requires within { to ≤ length bytes.now }
    requires level { (1 ≤ level) × (level ≤ 100) }
    ensures means { IfOk result (λ m. Means (suc (100 - level)) tables.AgentConfigMap (slice_range bytes.now from to) (config_map_columns m)) }
    ensures refused { FailsWith result (FaultFrom from (suc (100 - level)) tables.AgentConfigMap (slice_range bytes.now from to)) }
{
    let draft = read_part::<Shared, AgentConfigMapDraft>(alloc, bytes, from, to, level)?;
    Ok(draft.settle(alloc)?)
}

/// Reads a part of `bytes` as a CustomCapabilities (OpAMP specification, "CustomCapabilities"), as `read_key_value` does.
pub fn read_custom_capabilities(
    alloc: Global,
    bytes: &[u8],
    from: u64,
    to: u64,
    level: u32,
) -> Result<CustomCapabilities, ReadFail>
    requires range { from ≤ to }
    requires within { to ≤ length bytes.now }
    requires level { (1 ≤ level) × (level ≤ 100) }
    ensures means { IfOk result (λ m. Means (suc (100 - level)) tables.CustomCapabilities (slice_range bytes.now from to) (custom_capabilities_columns m)) }
    ensures refused { FailsWith result (FaultFrom from (suc (100 - level)) tables.CustomCapabilities (slice_range bytes.now from to)) }
{
    read_part::<Shared, CustomCapabilities>(alloc, bytes, from, to, level)
}

/// Reads a part of `bytes` as a CustomMessage (OpAMP specification, "CustomMessage"), as `read_key_value` does.
pub fn read_custom_message(
    alloc: Global,
    bytes: &[u8],
    from: u64,
    to: u64,
    level: u32,
) -> Result<CustomMessage, ReadFail>
    requires range { from ≤ to }
    requires within { to ≤ length bytes.now }
    requires level { (1 ≤ level) × (level ≤ 100) }
    ensures means { IfOk result (λ m. Means (suc (100 - level)) tables.CustomMessage (slice_range bytes.now from to) (custom_message_columns m)) }
    ensures refused { FailsWith result (FaultFrom from (suc (100 - level)) tables.CustomMessage (slice_range bytes.now from to)) }
{
    read_part::<Shared, CustomMessage>(alloc, bytes, from, to, level)
}
