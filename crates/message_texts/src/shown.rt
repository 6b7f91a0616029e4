//! What a message offers so that it can be shown.

ghost use Rattle.std.specs.Prelude.{◌≡◌, OnOk};
ghost use Rattle.message_codec.specs.Tables.{Name};
ghost use Rattle.message_codec.specs.Values.{Values};
ghost use Rattle.message_texts.specs.Texts.{shown};

use crate::pages::Page;
use plain_values::NoMemory;

/// A message that is shown column by column.
pub trait Shown {
    ghost name: { Name };

    ghost columns: { Self → Values };

    /// Appends the lines of the message, whose path is given. Where memory runs out, some of them may stand at the page's end.
    fn show(&self, page: &mut Page, path: &str) -> Result<(), NoMemory>
        ensures ok { OnOk result (page.new ≡ shown page.old path.now name (columns self.now)) };
}
