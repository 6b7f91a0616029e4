//! The text that was made so far, and the paths of what comes next.

ghost use Rattle.std.specs.Prelude.{◌≡◌, [], ◌++◌, length, IfOk, OnOk, cond, codes};
ghost use Rattle.std.specs.Fmt.{decimal, signed_decimal};
ghost use Rattle.message_texts.specs.Words.{line, closed, under, item_path, key_path};

use crate::quoting::quote;
use plain_values::{NoMemory, Text};
use std::alloc::Global;
use std::marker::Model;

/// A growing text, which contracts see as its bytes in UTF-8.
#[derive(Drop)]
pub struct Page {
    alloc: Global,
    text: String,
}

impl Model for Page {
    ghost use Rattle.std.specs.Prelude.{List, ℕ};
    ghost use Rattle.std.specs.String.{string_bytes};

    ghost Value = { List ℕ };

    ghost view = { λ p. string_bytes p.text };
}

impl Page {
    /// The empty text. It takes no memory.
    pub fn new(alloc: Global) -> Page
        ensures empty { result ≡ [] }
    {
        Page {
            alloc,
            text: String::new(alloc),
        }
    }

    /// How many bytes the text has.
    pub fn len(&self) -> usize
        ensures len { result ≡ length self.now }
    {
        self.text.len()
    }

    /// The whole text.
    pub fn into_text(self) -> Text
        ensures value { result ≡ self }
    {
        let Page { alloc: _, text } = self;
        Text::of(text)
    }

    /// The memory that more of the text is made in.
    pub fn alloc(&self) -> Global {
        self.alloc
    }

    /// Appends a line.
    #[tactic(auto, unfolding(crate::specs::Words::line))]
    pub fn line(&mut self, path: &str, value: &str) -> Result<(), NoMemory>
        ensures ok { OnOk result (self.new ≡ self.old ++ line path.now value.now) }
    {
        write!(self.text, "{path} = {value}\n")?;
        Ok(())
    }

    /// Appends a line whose value is a number in decimal.
    #[tactic(auto, unfolding(crate::specs::Words::line))]
    pub fn number(&mut self, path: &str, value: u64) -> Result<(), NoMemory>
        ensures ok { OnOk result (self.new ≡ self.old ++ line path.now (decimal value)) }
    {
        write!(self.text, "{path} = {value}\n")?;
        Ok(())
    }

    /// Appends a line whose value is a number in decimal, with `-` where it is negative.
    #[tactic(auto, unfolding(crate::specs::Words::line))]
    pub fn integer(&mut self, path: &str, value: &i64) -> Result<(), NoMemory>
        ensures ok { OnOk result (self.new ≡ self.old ++ line path.now (signed_decimal value.now)) }
    {
        write!(self.text, "{path} = {value}\n")?;
        Ok(())
    }

    /// Appends the line `PATH = {}` where the text has still as many bytes as before the message at that path was shown.
    #[tactic(auto, unfolding(crate::specs::Words::closed))]
    pub fn close(&mut self, path: &str, before: usize) -> Result<(), NoMemory>
        ensures ok { OnOk result (self.new ≡ closed self.old path.now before) }
    {
        if self.len() == before {
            self.line(path, "{}")?;
        }
        Ok(())
    }

    /// The path of the field of this name below a path. Nothing is appended.
    #[tactic(auto, unfolding(crate::specs::Words::under))]
    pub fn under(&self, path: &str, name: &str) -> Result<Text, NoMemory>
        ensures path { IfOk result (λ p. p ≡ under path.now name.now) }
    {
        let joined = if path.is_empty() {
            String::from_str(self.alloc, name)?
        } else {
            format!(in self.alloc; "{path}.{name}")?
        };
        Ok(Text::of(joined))
    }

    /// The path of an item of a repeated field, by the field's path and the item's index from 0.
    #[tactic(auto, unfolding(crate::specs::Words::item_path))]
    pub fn item(&self, path: &str, index: usize) -> Result<Text, NoMemory>
        ensures path { IfOk result (λ p. p ≡ item_path path.now index) }
    {
        Ok(Text::of(format!(in self.alloc; "{path}[{index}]")?))
    }

    /// The path of a map's value, by the map's path and the value's key.
    #[tactic(auto, unfolding(crate::specs::Words::key_path))]
    pub fn keyed(&self, path: &str, key: &Text) -> Result<Text, NoMemory>
        ensures path { IfOk result (λ p. p ≡ key_path path.now key.now) }
    {
        let quoted = quote(self.alloc, key.as_str())?;
        let quoted = quoted.as_str();
        Ok(Text::of(format!(in self.alloc; "{path}[{quoted}]")?))
    }
}
