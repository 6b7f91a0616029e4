//! The components of an agent, each of which holds a map of such (OpAMP specification, "AvailableComponents Message", "ComponentDetails Message").

ghost use Rattle.std.specs.Prelude.{◌≡◌, OnOk};
ghost use Rattle.message_codec.specs.Tables as tables;
ghost use Rattle.message_reports.specs.ComponentColumns.{available_components_columns, details_columns};
ghost use Rattle.message_texts.specs.Texts.{shown};

use crate::columns::{show_blob, show_many, show_map};
use crate::pages::Page;
use crate::places::Place;
use crate::shown::Shown;
use message_values::{AvailableComponents, ComponentDetails};
use plain_values::NoMemory;

// A recursion may not go through a trait's method, so the components are gone over by a plain function.
fn show_details(page: &mut Page, path: &str, details: &ComponentDetails) -> Result<(), NoMemory>
    ensures ok { OnOk result (page.new ≡ shown page.old path.now tables.ComponentDetails (details_columns details.now)) }
{
    show_many(page, path, "metadata", &details.metadata)?;
    let field = Place::under(page, path, "sub_component_map")?;
    for pair in details.sub_component_map.as_slice() {
        let item = Place::keyed(page, field.path(), &pair.key)?;
        let shown = show_details(page, item.path(), &pair.value);
        item.close(page, shown)?;
    }
    Ok(())
}

impl Shown for ComponentDetails {
    ghost name = { tables.ComponentDetails };

    ghost columns = { details_columns };

    fn show(&self, page: &mut Page, path: &str) -> Result<(), NoMemory> {
        show_details(page, path, self)
    }
}

impl Shown for AvailableComponents {
    ghost name = { tables.AvailableComponents };

    ghost columns = { available_components_columns };

    #[tactic(auto, using(crate::proofs::Lines::by_columns))]
    fn show(&self, page: &mut Page, path: &str) -> Result<(), NoMemory> {
        show_map(page, path, "components", &self.components)?;
        show_blob(page, path, "hash", &self.hash)?;
        Ok(())
    }
}
