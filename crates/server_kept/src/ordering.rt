//! An order: kept first, and only then standing.

ghost use Rattle.std.specs.Prelude.{◌≡◌, ◌<◌, length, true, is_ok, IfOk, IsErrOf};
ghost use Rattle.edge_devices.specs.Faults.{HasRisen};
ghost use Rattle.server_core.specs.Offers.{no_offers, offers_over};
ghost use Rattle.message_codec.specs.Levels.{most_bytes};
ghost use Rattle.message_replies.specs.Canonical.{canonical_reply};
ghost use Rattle.server_kept.specs.Files.{has_offer, kept_reply};
ghost use Rattle.server_kept.specs.Keeping.{Keeps};
ghost use Rattle.server_kept.specs.Standing.{asked};

use crate::bodies::copied;
use crate::keeping::{KeepFail, keep};
use edge_shelf::Shelf;
use plain_values::{NoMemory, Uid};
use server_core::Offers;
use std::alloc::Global;

// The offers take the places of the standing ones of their kinds.
fn over(standing: Offers, made: Offers) -> Offers
    ensures { result ≡ offers_over standing made }
{
    Offers {
        config: made.config.or(standing.config),
        packages: made.packages.or(standing.packages),
        connection: made.connection.or(standing.connection),
    }
}

// What an order asks to stand: these offers beside the standing ones, or none at all.
fn asked_of(alloc: Global, standing: &Offers, made: Option<Offers>) -> Result<Offers, NoMemory>
    ensures asked { IfOk result (λ offers. offers ≡ asked standing.now made) }
{
    match made {
        Some(made) => {
            let former = copied(alloc, standing)?;
            Ok(over(former, made))
        }
        None => Ok(Offers {
            config: None,
            packages: None,
            connection: None,
        }),
    }
}

/// An order to an agent for which this stands: these offers are to stand too, each in place of one of its kind, or nothing is to stand any more.
/// It is kept, and what then stands is given; where it isn't kept, what stood stands.
pub fn order<S: Shelf>(
    alloc: Global,
    shelf: &mut S,
    uid: &Uid,
    standing: &Offers,
    made: Option<Offers>,
) -> Result<Offers, KeepFail>
    ensures stands { IfOk result (λ offers. offers ≡ asked standing.now made) }
    ensures keeps { Keeps uid.now (asked standing.now made) (is_ok result) (S.state shelf.old) (S.state shelf.new) }
    ensures fault { IsErrOf result KeepFail.NotKept → HasRisen (S.state shelf.old).faults (S.state shelf.new).faults }
    ensures too_large { IsErrOf result KeepFail.TooLarge → (has_offer (asked standing.now made) ≡ true) × (most_bytes < length (canonical_reply (kept_reply uid.now (asked standing.now made)))) }
{
    let offers = asked_of(alloc, standing, made)?;
    match keep(alloc, shelf, uid, &offers) {
        Ok(()) => Ok(offers),
        Err(fail) => Err(fail),
    }
}
