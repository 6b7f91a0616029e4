//! What holds of all bytes that are read as reports. No function here does anything: each stands for its clauses.

ghost use Rattle.std.specs.Prelude.{◌≡◌, ◌≤◌, ◌⊎◌, ℕ, List, length};
ghost use Rattle.message_codec.specs.declared.wire.field.Why.{Why};
ghost use Rattle.message_codec.specs.Fields.{AreBytes};
ghost use Rattle.message_values.specs.declared.config.RemoteConfigStatus.{RemoteConfigStatus};
ghost use Rattle.message_values.specs.declared.packages.PackageStatuses.{PackageStatuses};
ghost use Rattle.message_values.specs.declared.report.AgentToServer.{AgentToServer};
ghost use Rattle.message_codec.specs.Tables as tables;
ghost use Rattle.message_codec.specs.Faults.{SameFault};
ghost use Rattle.message_codec.specs.Levels.{levels};
ghost use Rattle.message_attributes.specs.ReadBack.{canonical_of, ReadsSame, IsNeverRefused};
ghost use Rattle.message_reports.specs.Columns.{package_statuses_columns, remote_config_status_columns};
ghost use Rattle.message_reports.specs.Reports.{MeansReport, ReportFault};

/// Bytes mean one report at most: whoever reads them finds the same fields, with the same values.
pub fn one_report()
    ensures one { (bytes : List ℕ) (m n : AgentToServer) → MeansReport bytes m → MeansReport bytes n → m ≡ n }
{}

/// Bytes that mean a report have no fault. Others have one at most, which lies within them.
pub fn report_fault()
    ensures not_both { (bytes : List ℕ) (m : AgentToServer) (at : ℕ) (why : Why) → MeansReport bytes m → ReportFault bytes at why → ⊥ }
    ensures one_fault { (bytes : List ℕ) (i j : ℕ) (v w : Why) → ReportFault bytes i v → ReportFault bytes j w → SameFault i j v w }
    ensures within { (bytes : List ℕ) (at : ℕ) (why : Why) → ReportFault bytes at why → at ≤ length bytes }
{}

/// Bytes mean a report, a value and not its columns alone, or they have a fault.
pub fn report_or_fault()
    ensures either { (bytes : List ℕ) → AreBytes bytes → ((m : AgentToServer) × MeansReport bytes m) ⊎ ((at : ℕ) × (why : Why) × ReportFault bytes at why) }
{}

/// A RemoteConfigStatus that was written is read as the same, and is never refused. It has at most 1 level, itself included.
pub fn remote_config_status_reads_back()
    ensures same { ReadsSame tables.RemoteConfigStatus remote_config_status_columns (canonical_of tables.RemoteConfigStatus remote_config_status_columns) }
    ensures never_refused { IsNeverRefused tables.RemoteConfigStatus remote_config_status_columns (canonical_of tables.RemoteConfigStatus remote_config_status_columns) }
    ensures shallow { (m : RemoteConfigStatus) → levels (remote_config_status_columns m) ≤ 1 }
{}

/// A PackageStatuses that was written is read as the same, and is never refused. It has at most 3 levels, itself included.
pub fn package_statuses_reads_back()
    ensures same { ReadsSame tables.PackageStatuses package_statuses_columns (canonical_of tables.PackageStatuses package_statuses_columns) }
    ensures never_refused { IsNeverRefused tables.PackageStatuses package_statuses_columns (canonical_of tables.PackageStatuses package_statuses_columns) }
    ensures shallow { (m : PackageStatuses) → levels (package_statuses_columns m) ≤ 3 }
{}
