//! What a reply says to the agent itself.

/// What a reply says to the agent itself.
#[derive(Clone, Copy, Debug, PartialEq, Eq)]
pub enum Heard {
    /// It carries a command, and all else in it is ignored (OpAMP specification, "ServerToAgentCommand").
    Commanded,
    /// It carries an error, and counts as no answer (OpAMP specification, "ServerErrorResponse").
    Failed,
    /// It asks for the full state.
    Asked,
    /// None of these.
    Plain,
}
