// A judge of agents by their health.
ghost use Rattle.std.specs.Prelude.{◌≡◌, ⊤, Bool, true, false};
ghost use Rattle.serve_tests.specs.Healthy.{is_healthy};

use server_core::Record;
use server_waves::Judging;

// Agents without health and healthy ones are fine.
#[derive(Drop)]
pub struct Healthy;

impl Judging for Healthy {
    ghost use Rattle.std.specs.Prelude.{⊤};

    ghost ready = { λ _. ⊤ };

    ghost finds = { λ _ agent. is_healthy agent };

    fn judge(&self, agent: &Record) -> bool {
        match &agent.state.health {
            Some(health) => health.healthy,
            None => true,
        }
    }
}
