//! Where a package's file is fetched from.

ghost use Rattle.std.specs.Prelude.{◌≡◌, IfOk, Some, false};
ghost use Rattle.edge_devices.specs.Endpoints.{reading_of};
ghost use Rattle.edge_dialer.specs.Answers.{TargetFails};
ghost use Rattle.std.specs.Prelude.{IfErr};

use edge_devices::{Endpoint, LinkFail, read_endpoint};
use std::alloc::Global;

// The endpoint of a URL from which a file can be fetched: one of the grammar of endpoints with the scheme `http`.
pub(crate) fn fetch_target(alloc: Global, url: &str) -> Result<Endpoint, LinkFail>
    ensures target { IfOk result (λ to. reading_of url.now ≡ Some to) }
    ensures scheme { IfOk result (λ to. to.ws ≡ false) }
    ensures refused { IfErr result (TargetFails url.now) }
{
    match read_endpoint(alloc, url)? {
        Some(to) if !to.ws => Ok(to),
        _ => Err(LinkFail::Fault),
    }
}
