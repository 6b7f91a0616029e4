//! What holds of all texts. No function here does anything: each stands for its clauses.

ghost use Rattle.std.specs.Prelude.{◌≡◌, ℕ, List, flat_map};
ghost use Rattle.message_values.specs.declared.report.AgentToServer.{AgentToServer};
ghost use Rattle.message_values.specs.declared.reply.ServerToAgent.{ServerToAgent};
ghost use Rattle.message_codec.specs.Tables as tables;
ghost use Rattle.message_codec.specs.Tables.{Name, Row};
ghost use Rattle.message_codec.specs.Values.{Value, Values};
ghost use Rattle.message_reports.specs.ReportColumns.{agent_to_server_columns};
ghost use Rattle.message_replies.specs.ReplyColumns.{server_to_agent_columns};
ghost use Rattle.message_texts.specs.Ranges.{IsMessage};
ghost use Rattle.message_texts.specs.Texts.{column_lines, columns_of, message_lines, shown, text_of_report, text_of_reply};

/// A text tells its message: no two messages of one name have the same lines at one path, no two reports the same text, and no two replies. The
/// premises are what every value of the types has.
pub fn texts_tell()
    ensures messages { (old path : List ℕ) (name : Name) (vs ws : Values) → IsMessage name vs → IsMessage name ws → shown old path name vs ≡ shown old path name ws → vs ≡ ws }
    ensures reports { (m n : AgentToServer) → IsMessage tables.AgentToServer (agent_to_server_columns m) → IsMessage tables.AgentToServer (agent_to_server_columns n) → text_of_report m ≡ text_of_report n → m ≡ n }
    ensures replies { (m n : ServerToAgent) → IsMessage tables.ServerToAgent (server_to_agent_columns m) → IsMessage tables.ServerToAgent (server_to_agent_columns n) → text_of_reply m ≡ text_of_reply n → m ≡ n }
{}

/// The lines of a message at a path are those of each of its columns, one column after the other.
pub fn lines_go_by_columns()
    ensures columns { (path : List ℕ) (rows : List Row) (vs : Values) → message_lines path rows vs ≡ flat_map (λ (column : Row × Value). column_lines path column.0.name column.0.kind column.1) (columns_of rows vs) }
{}
