//! Messages as readable text, exact by one definition for all messages: the tables of their fields.
//!
//! One line for each leaf, in the order of the tables' rows: the path, ` = `, the value, a line feed. A path joins wire names by `.`. An item of a
//! repeated field has `[I]` behind the field's name, counted from 0; a map's value has `[KEY]` there, the key printed as a text. What the canonical
//! form leaves out, as a scalar at its default, has no line. A message within another that has no line of its own has the line `PATH = {}`.
//!
//! Texts stand in quotation marks, with `\"`, `\\`, `\n` and, for other control bytes, `\xNN`. Bytes are lower-case hexadecimal behind `hex `,
//! numbers decimal, truth values `true` and `false`. A double is `bits ` and the sixteen hexadecimal digits of its bits.
#![tactic(auto)]

mod attributes;
pub mod columns;
mod components;
mod health;
pub mod laws;
pub mod pages;
mod parts;
mod places;
pub mod quoting;
mod reply;
mod report;
mod showing;
pub mod shown;

pub use showing::{show_reply, show_report};
