//! The commands.

/// A command over framed messages.
#[derive(Clone, Copy, Debug, PartialEq, Eq)]
pub enum StreamCommand {
    /// `answer`: a server's replies to reports.
    Answer,
    /// `canon report`: reports in canonical form.
    CanonReport,
    /// `canon reply`: replies in canonical form.
    CanonReply,
    /// `show report`: reports as text.
    ShowReport,
    /// `show reply`: replies as text.
    ShowReply,
    /// `check`: what each report lacks to be full.
    Check,
}
