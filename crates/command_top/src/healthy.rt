//! The judge of the program's own rollouts.

ghost use Rattle.std.specs.Prelude.{◌≡◌, Bool};
ghost use Rattle.command_top.specs.Judging.{is_fine};

use command_serve::Judging;
use server_core::Record;

/// What finds an agent fine exactly where it tells no health or is healthy.
#[derive(Drop)]
pub struct Healthy;

impl Judging for Healthy {
    ghost use Rattle.std.specs.Prelude.{⊤};

    ghost ready = { λ healthy. ⊤ };

    ghost finds = { λ healthy agent. is_fine agent };

    fn judge(&self, agent: &Record) -> bool {
        match &agent.state.health {
            Some(health) => health.healthy,
            None => true,
        }
    }
}
