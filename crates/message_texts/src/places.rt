//! Places of fields and messages while they are shown.

ghost use Rattle.std.specs.Prelude.{◌≡◌, length, IfOk, OnOk, IsOk};
ghost use Rattle.message_texts.specs.Words.{closed, under, item_path, key_path};

use crate::pages::Page;
use plain_values::{NoMemory, Text};

/// A path at which lines are put, and how many bytes the page had before them.
pub struct Place {
    path: Text,
    before: usize,
}

// By hand, so that it is a call where a place is dropped, and not laid out there.
impl Drop for Place {
    fn drop(self) {
        let Place { path: _, before: _ } = self;
    }
}

impl Place {
    /// The place of the field of this name below a path.
    pub fn under(page: &Page, path: &str, name: &str) -> Result<Place, NoMemory>
        ensures path { IfOk result (λ place. place.path ≡ under path.now name.now) }
        ensures before { IfOk result (λ place. place.before ≡ length page.now) }
    {
        let path = page.under(path, name)?;
        let before = page.len();
        Ok(Place { path, before })
    }

    /// The place of an item of a repeated field, by the field's path and the item's index from 0.
    pub fn item(page: &Page, path: &str, index: usize) -> Result<Place, NoMemory>
        ensures path { IfOk result (λ place. place.path ≡ item_path path.now index) }
        ensures before { IfOk result (λ place. place.before ≡ length page.now) }
    {
        let path = page.item(path, index)?;
        let before = page.len();
        Ok(Place { path, before })
    }

    /// The place of a map's value, by the map's path and the value's key.
    pub fn keyed(page: &Page, path: &str, key: &Text) -> Result<Place, NoMemory>
        ensures path { IfOk result (λ place. place.path ≡ key_path path.now key.now) }
        ensures before { IfOk result (λ place. place.before ≡ length page.now) }
    {
        let path = page.keyed(path, key)?;
        let before = page.len();
        Ok(Place { path, before })
    }

    /// The path, as Rust's text. Takes no memory.
    pub fn path(&self) -> &str
        ensures value { result.now ≡ self.now.path }
    {
        self.path.as_str()
    }

    /// Ends a message at this place, whose lines were put with this outcome; one that has none gets the line `PATH = {}`.
    pub fn close(self, page: &mut Page, shown: Result<(), NoMemory>) -> Result<(), NoMemory>
        ensures shown { OnOk result (IsOk shown) }
        ensures ok { OnOk result (page.new ≡ closed page.old self.path self.before) }
    {
        shown?;
        page.close(self.path.as_str(), self.before)
    }
}
