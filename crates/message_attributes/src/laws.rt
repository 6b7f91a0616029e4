//! Parts that are written and read again. No function here does anything: each stands for its clauses.

ghost use Rattle.std.specs.Prelude.{◌≤◌};
ghost use Rattle.plain_values.specs.declared.files.AgentConfigMap.{AgentConfigMap};
ghost use Rattle.message_values.specs.declared.custom.CustomCapabilities.{CustomCapabilities};
ghost use Rattle.message_values.specs.declared.custom.CustomMessage.{CustomMessage};
ghost use Rattle.message_codec.specs.Tables as tables;
ghost use Rattle.message_codec.specs.Levels.{levels};
ghost use Rattle.message_attributes.specs.AnyColumns.{any_columns, pair_columns};
ghost use Rattle.message_attributes.specs.PartColumns.{config_map_columns, custom_capabilities_columns, custom_message_columns};
ghost use Rattle.message_attributes.specs.ReadBack.{canonical_of, ReadsSame, IsNeverRefused};

/// A KeyValue that was written is read as the same, and is never refused.
pub fn key_value_reads_back()
    ensures same { ReadsSame tables.KeyValue pair_columns (canonical_of tables.KeyValue pair_columns) }
    ensures never_refused { IsNeverRefused tables.KeyValue pair_columns (canonical_of tables.KeyValue pair_columns) }
{}

/// An AnyValue that was written is read as the same, and is never refused.
pub fn any_value_reads_back()
    ensures same { ReadsSame tables.AnyValue any_columns (canonical_of tables.AnyValue any_columns) }
    ensures never_refused { IsNeverRefused tables.AnyValue any_columns (canonical_of tables.AnyValue any_columns) }
{}

/// An AgentConfigMap that was written is read as the same, and is never refused. It has at most 3 levels, itself included.
pub fn agent_config_map_reads_back()
    ensures same { ReadsSame tables.AgentConfigMap config_map_columns (canonical_of tables.AgentConfigMap config_map_columns) }
    ensures never_refused { IsNeverRefused tables.AgentConfigMap config_map_columns (canonical_of tables.AgentConfigMap config_map_columns) }
    ensures shallow { (m : AgentConfigMap) → levels (config_map_columns m) ≤ 3 }
{}

/// A CustomCapabilities that was written is read as the same, and is never refused. It has at most 1 level, itself included.
pub fn custom_capabilities_reads_back()
    ensures same { ReadsSame tables.CustomCapabilities custom_capabilities_columns (canonical_of tables.CustomCapabilities custom_capabilities_columns) }
    ensures never_refused { IsNeverRefused tables.CustomCapabilities custom_capabilities_columns (canonical_of tables.CustomCapabilities custom_capabilities_columns) }
    ensures shallow { (m : CustomCapabilities) → levels (custom_capabilities_columns m) ≤ 1 }
{}

/// A CustomMessage that was written is read as the same, and is never refused. It has at most 1 level, itself included.
pub fn custom_message_reads_back()
    ensures same { ReadsSame tables.CustomMessage custom_message_columns (canonical_of tables.CustomMessage custom_message_columns) }
    ensures never_refused { IsNeverRefused tables.CustomMessage custom_message_columns (canonical_of tables.CustomMessage custom_message_columns) }
    ensures shallow { (m : CustomMessage) → levels (custom_message_columns m) ≤ 1 }
{}
