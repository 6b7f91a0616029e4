//! Whole messages as texts.

ghost use Rattle.std.specs.Prelude.{◌≡◌, [], IfOk};
ghost use Rattle.message_texts.specs.Texts.{shown, text_of_report, text_of_reply};

use crate::pages::Page;
use crate::shown::Shown;
use message_values::{AgentToServer, ServerToAgent};
use plain_values::{NoMemory, Text};
use std::alloc::Global;

// The text of an outermost message, whose path is empty.
fn text_of<M: Shown>(alloc: Global, message: &M) -> Result<Text, NoMemory>
    ensures shown { IfOk result (λ text. text ≡ shown [] [] M.name (M.columns message.now)) }
{
    let mut page = Page::new(alloc);
    message.show(&mut page, "")?;
    Ok(page.into_text())
}

/// The text of a report: a line for each leaf, and nothing for the empty report. It fails only where memory runs out.
#[tactic(auto, unfolding(crate::specs::Texts::text_of_report))]
pub fn show_report(alloc: Global, message: &AgentToServer) -> Result<Text, NoMemory>
    ensures shown { IfOk result (λ text. text ≡ text_of_report message.now) }
{
    text_of(alloc, message)
}

/// The text of a reply, likewise.
#[tactic(auto, unfolding(crate::specs::Texts::text_of_reply))]
pub fn show_reply(alloc: Global, message: &ServerToAgent) -> Result<Text, NoMemory>
    ensures shown { IfOk result (λ text. text ≡ text_of_reply message.now) }
{
    text_of(alloc, message)
}
