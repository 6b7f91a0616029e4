//! The parts that reports and replies share as canonical bytes.

ghost use Rattle.std.specs.Prelude.{◌≡◌, ◌<◌, ◌^◌, length, min};
ghost use Rattle.message_codec.specs.Row.{Appends};
ghost use Rattle.message_codec.specs.Tables as tables;
ghost use Rattle.message_codec.specs.Canonical.{canonical, capped};
ghost use Rattle.message_codec.specs.Fits.{FitsMessage};
ghost use Rattle.message_codec.specs.Levels.{levels};
ghost use Rattle.message_attributes.specs.AnyColumns.{any_columns, pair_columns};
ghost use Rattle.message_attributes.specs.PartColumns.{config_map_columns, custom_capabilities_columns, custom_message_columns};

use message_codec::wire::Out;
use message_codec::writer::encoding::append_message;
use message_codec::writer::written::Written;
use message_values::{AnyValue, CustomCapabilities, CustomMessage, KeyValue};
use plain_values::{AgentConfigMap, NoMemory};

/// How many canonical bytes a KeyValue has (OpenTelemetry `common.proto`), or 2^62 where they are more. It takes no memory.
pub fn key_value_len(value: &KeyValue) -> u64
    ensures counts { result ≡ capped (canonical tables.KeyValue (pair_columns value.now)) }
    ensures fits { FitsMessage tables.KeyValue (pair_columns value.now) }
{
    value.len()
}

/// How many levels of messages a KeyValue has, itself included, or 101 where there are more. It takes no memory.
pub fn key_value_levels(value: &KeyValue) -> u64
    ensures counts { result ≡ min (levels (pair_columns value.now)) 101 }
{
    1 + value.deepest()
}

/// Appends the canonical bytes of a KeyValue (OpenTelemetry `common.proto`), which are fewer than 2^62, as `key_value_len` tells. Up to the
/// row's spare it succeeds; where memory runs out the row stays as it was.
pub fn put_key_value(out: &mut Out, value: &KeyValue) -> Result<(), NoMemory>
    requires few { length (canonical tables.KeyValue (pair_columns value.now)) < 2 ^ 62 }
    ensures appends { Appends out.old out.new (canonical tables.KeyValue (pair_columns value.now)) result }
{
    append_message(out, value)
}

/// How many canonical bytes an AnyValue has (OpenTelemetry `common.proto`), or 2^62 where they are more. It takes no memory.
pub fn any_value_len(value: &AnyValue) -> u64
    ensures counts { result ≡ capped (canonical tables.AnyValue (any_columns value.now)) }
    ensures fits { FitsMessage tables.AnyValue (any_columns value.now) }
{
    value.len()
}

/// How many levels of messages an AnyValue has, itself included, or 101 where there are more. It takes no memory.
pub fn any_value_levels(value: &AnyValue) -> u64
    ensures counts { result ≡ min (levels (any_columns value.now)) 101 }
{
    1 + value.deepest()
}

/// Appends the canonical bytes of an AnyValue (OpenTelemetry `common.proto`), as `put_key_value` does.
pub fn put_any_value(out: &mut Out, value: &AnyValue) -> Result<(), NoMemory>
    requires few { length (canonical tables.AnyValue (any_columns value.now)) < 2 ^ 62 }
    ensures appends { Appends out.old out.new (canonical tables.AnyValue (any_columns value.now)) result }
{
    append_message(out, value)
}

/// How many canonical bytes an AgentConfigMap has (OpAMP specification, "AgentConfigMap Message"), or 2^62 where they are more. It takes no
/// memory.
pub fn agent_config_map_len(value: &AgentConfigMap) -> u64
    ensures counts { result ≡ capped (canonical tables.AgentConfigMap (config_map_columns value.now)) }
    ensures fits { FitsMessage tables.AgentConfigMap (config_map_columns value.now) }
{
    value.len()
}

/// Appends the canonical bytes of an AgentConfigMap (OpAMP specification, "AgentConfigMap Message"), as `put_key_value` does.
pub fn put_agent_config_map(out: &mut Out, value: &AgentConfigMap) -> Result<(), NoMemory>
    requires few { length (canonical tables.AgentConfigMap (config_map_columns value.now)) < 2 ^ 62 }
    ensures appends { Appends out.old out.new (canonical tables.AgentConfigMap (config_map_columns value.now)) result }
{
    append_message(out, value)
}

/// How many canonical bytes a CustomCapabilities has (OpAMP specification, "CustomCapabilities"), or 2^62 where they are more. It takes no
/// memory.
pub fn custom_capabilities_len(value: &CustomCapabilities) -> u64
    ensures counts { result ≡ capped (canonical tables.CustomCapabilities (custom_capabilities_columns value.now)) }
    ensures fits { FitsMessage tables.CustomCapabilities (custom_capabilities_columns value.now) }
{
    value.len()
}

/// Appends the canonical bytes of a CustomCapabilities (OpAMP specification, "CustomCapabilities"), as `put_key_value` does.
pub fn put_custom_capabilities(out: &mut Out, value: &CustomCapabilities) -> Result<(), NoMemory>
    requires few { length (canonical tables.CustomCapabilities (custom_capabilities_columns value.now)) < 2 ^ 62 }
    ensures appends { Appends out.old out.new (canonical tables.CustomCapabilities (custom_capabilities_columns value.now)) result }
{
    append_message(out, value)
}

/// How many canonical bytes a CustomMessage has (OpAMP specification, "CustomMessage"), or 2^62 where they are more. It takes no memory.
pub fn custom_message_len(value: &CustomMessage) -> u64
    ensures counts { result ≡ capped (canonical tables.CustomMessage (custom_message_columns value.now)) }
    ensures fits { FitsMessage tables.CustomMessage (custom_message_columns value.now) }
{
    value.len()
}

/// Appends the canonical bytes of a CustomMessage (OpAMP specification, "CustomMessage"), as `put_key_value` does.
pub fn put_custom_message(out: &mut Out, value: &CustomMessage) -> Result<(), NoMemory>
    requires few { length (canonical tables.CustomMessage (custom_message_columns value.now)) < 2 ^ 62 }
    ensures appends { Appends out.old out.new (canonical tables.CustomMessage (custom_message_columns value.now)) result }
{
    append_message(out, value)
}
