//! Parts that are written and read again. No function here does anything: each stands for its clauses.

ghost use Rattle.std.specs.Prelude.{◌≤◌};
ghost use Rattle.message_values.specs.declared.config.AgentRemoteConfig.{AgentRemoteConfig};
ghost use Rattle.message_values.specs.declared.connection.ConnectionSettingsOffers.{ConnectionSettingsOffers};
ghost use Rattle.plain_values.specs.declared.headers.Headers.{Headers};
ghost use Rattle.message_values.specs.declared.packages.PackageAvailable.{PackageAvailable};
ghost use Rattle.message_values.specs.declared.packages.PackagesAvailable.{PackagesAvailable};
ghost use Rattle.message_codec.specs.Tables as tables;
ghost use Rattle.message_codec.specs.Levels.{levels};
ghost use Rattle.message_attributes.specs.ReadBack.{ReadsSame, IsNeverRefused};
ghost use Rattle.message_replies.specs.Canonical.{canonical_agent_remote_config, canonical_connection_settings_offers, canonical_headers, canonical_package_available, canonical_packages_available};
ghost use Rattle.message_replies.specs.ReplyColumns.{connection_offers_columns, headers_columns, package_available_columns, packages_available_columns, remote_config_columns};

/// A Headers that was written is read as the same, and is never refused. It has at most 2 levels, itself included.
pub fn headers_reads_back()
    ensures same { ReadsSame tables.Headers headers_columns canonical_headers }
    ensures never_refused { IsNeverRefused tables.Headers headers_columns canonical_headers }
    ensures shallow { (m : Headers) → levels (headers_columns m) ≤ 2 }
{}

/// An AgentRemoteConfig that was written is read as the same, and is never refused. It has at most 4 levels, itself included.
pub fn agent_remote_config_reads_back()
    ensures same { ReadsSame tables.AgentRemoteConfig remote_config_columns canonical_agent_remote_config }
    ensures never_refused { IsNeverRefused tables.AgentRemoteConfig remote_config_columns canonical_agent_remote_config }
    ensures shallow { (m : AgentRemoteConfig) → levels (remote_config_columns m) ≤ 4 }
{}

/// A PackageAvailable that was written is read as the same, and is never refused. It has at most 2 levels, itself included.
pub fn package_available_reads_back()
    ensures same { ReadsSame tables.PackageAvailable package_available_columns canonical_package_available }
    ensures never_refused { IsNeverRefused tables.PackageAvailable package_available_columns canonical_package_available }
    ensures shallow { (m : PackageAvailable) → levels (package_available_columns m) ≤ 2 }
{}

/// A PackagesAvailable that was written is read as the same, and is never refused. It has at most 4 levels, itself included.
pub fn packages_available_reads_back()
    ensures same { ReadsSame tables.PackagesAvailable packages_available_columns canonical_packages_available }
    ensures never_refused { IsNeverRefused tables.PackagesAvailable packages_available_columns canonical_packages_available }
    ensures shallow { (m : PackagesAvailable) → levels (packages_available_columns m) ≤ 4 }
{}

/// A ConnectionSettingsOffers that was written is read as the same, and is never refused. It has at most 4 levels, itself included.
pub fn connection_settings_offers_reads_back()
    ensures same { ReadsSame tables.ConnectionSettingsOffers connection_offers_columns canonical_connection_settings_offers }
    ensures never_refused { IsNeverRefused tables.ConnectionSettingsOffers connection_offers_columns canonical_connection_settings_offers }
    ensures shallow { (m : ConnectionSettingsOffers) → levels (connection_offers_columns m) ≤ 4 }
{}
