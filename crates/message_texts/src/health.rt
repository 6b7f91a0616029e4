//! A component's health, which holds a map of such (OpAMP specification, "ComponentHealth Message").

ghost use Rattle.std.specs.Prelude.{◌≡◌, OnOk};
ghost use Rattle.message_codec.specs.Tables as tables;
ghost use Rattle.message_reports.specs.HealthColumns.{health_columns};
ghost use Rattle.message_texts.specs.Texts.{shown};

use crate::columns::{show_fixed, show_text, show_truth};
use crate::pages::Page;
use crate::places::Place;
use crate::shown::Shown;
use message_values::ComponentHealth;
use plain_values::NoMemory;

// A recursion may not go through a trait's method, so the components are gone over by a plain function.
fn show_health(page: &mut Page, path: &str, health: &ComponentHealth) -> Result<(), NoMemory>
    ensures ok { OnOk result (page.new ≡ shown page.old path.now tables.ComponentHealth (health_columns health.now)) }
{
    show_truth(page, path, "healthy", health.healthy)?;
    show_fixed(
        page,
        path,
        "start_time_unix_nano",
        health.start_time_unix_nano,
    )?;
    show_text(page, path, "last_error", &health.last_error)?;
    show_text(page, path, "status", &health.status)?;
    show_fixed(
        page,
        path,
        "status_time_unix_nano",
        health.status_time_unix_nano,
    )?;
    let field = Place::under(page, path, "component_health_map")?;
    for pair in health.component_health_map.as_slice() {
        let item = Place::keyed(page, field.path(), &pair.key)?;
        let shown = show_health(page, item.path(), &pair.value);
        item.close(page, shown)?;
    }
    Ok(())
}

impl Shown for ComponentHealth {
    ghost name = { tables.ComponentHealth };

    ghost columns = { health_columns };

    fn show(&self, page: &mut Page, path: &str) -> Result<(), NoMemory> {
        show_health(page, path, self)
    }
}
