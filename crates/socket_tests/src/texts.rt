// Texts of the tests.
use plain_values::Text;
use std::process::Abort;

/// The text.
pub fn text(rt: &(impl Abort + AllocGlobal), text: &str) -> Text {
    Text::of(String::from_str(rt.alloc(), text).expect(rt, "memory"))
}
