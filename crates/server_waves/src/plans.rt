//! What is rolled out.

ghost use Rattle.std.specs.Prelude.{◌≡◌, IfOk, IfErr, true, false};
ghost use Rattle.sha2.specs.Sha256.{sha256};
ghost use Rattle.message_replies.specs.Canonical.{canonical_agent_remote_config};
ghost use Rattle.server_core.specs.declared.offers.Offer.TheVariants.{Config as ConfigOffer};
ghost use Rattle.server_core.specs.Offers.{fits_offer, unhashed_config};
ghost use Rattle.server_waves.specs.Waves.{hash_of};
ghost use Rattle.server_waves.specs.Begins.{PlansNot};

use message_values::AgentRemoteConfig;
use plain_values::{AgentConfigMap, Blob, NoMemory};
use server_core::{OfferFail, config_offer};
use std::alloc::Global;
use std::marker::Model;
use thiserror::Error;

/// Why there is no plan.
#[derive(Clone, Copy, Debug, PartialEq, Eq, Error)]
pub(crate) enum PlanFail {
    /// The offer with its hash has more than 1,048,576 bytes.
    #[error("the offer is too large")]
    TooLarge,
    /// There was no memory.
    #[error("there was no memory")]
    NoMemory,
}

impl From<NoMemory> for PlanFail {
    ghost use Rattle.server_waves.specs.declared.plans.PlanFail.TheVariants.{NoMemory};

    ghost from_gives = { λ _ e. e ≡ NoMemory };

    fn from(_e: NoMemory) -> PlanFail {
        PlanFail::NoMemory
    }
}

/// What is rolled out, on which terms. The offer is within its limit.
pub(crate) struct Plan {
    config: AgentConfigMap,
    // The hash that the offer of the configuration has.
    hash: Blob,
    width: u64,
    allowed: u64,
}

// By hand, so that it is a call where a value is dropped, and not laid out there.
impl Drop for Plan {
    fn drop(self) {
        let Plan {
            config: _,
            hash: _,
            width: _,
            allowed: _,
        } = self;
    }
}

impl Model for Plan {
    ghost use Rattle.server_waves.specs.Waves.{Terms};
    ghost use Rattle.server_waves.specs.Begins.{terms_in, IsPlanned};

    ghost Value = { Terms };

    ghost view = { terms_in };

    ghost invariant = { IsPlanned };
}

impl Plan {
    /// A plan of these terms.
    pub(crate) fn new(
        alloc: Global,
        config: AgentConfigMap,
        width: u64,
        allowed: u64,
    ) -> Result<Plan, PlanFail>
        ensures terms { IfOk result (λ plan. plan ≡ record { files = config; width = width; allowed = allowed }) }
        ensures fits { IfOk result (λ plan. fits_offer (ConfigOffer config) ≡ true) }
        ensures failed { IfErr result (PlansNot config) }
    {
        let (config, hash) = hashed(alloc, config)?;
        Ok(Plan {
            config,
            hash,
            width,
            allowed,
        })
    }

    /// The configuration. Takes no memory.
    pub(crate) fn config(&self) -> &AgentConfigMap
        ensures value { result.now ≡ self.now.files }
        ensures fits { fits_offer (ConfigOffer self.now.files) ≡ true }
    {
        &self.config
    }

    /// The hash by which the agents name it. Takes no memory.
    pub(crate) fn hash(&self) -> &Blob
        ensures value { result.now ≡ hash_of self.now }
    {
        &self.hash
    }

    /// How many agents at a time may have the offer without having applied it. Takes no memory.
    pub(crate) fn width(&self) -> u64
        ensures value { result ≡ self.now.width }
    {
        self.width
    }

    /// How many agents may fail. Takes no memory.
    pub(crate) fn allowed(&self) -> u64
        ensures value { result ≡ self.now.allowed }
    {
        self.allowed
    }
}

// The configuration and the hash that its offer has.
fn hashed(alloc: Global, config: AgentConfigMap) -> Result<(AgentConfigMap, Blob), PlanFail>
    ensures config { IfOk result (λ made. made.0 ≡ config) }
    ensures hash { IfOk result (λ made. made.1 ≡ sha256 (canonical_agent_remote_config (unhashed_config config))) }
    ensures fits { IfOk result (λ made. fits_offer (ConfigOffer config) ≡ true) }
    ensures failed { IfErr result (PlansNot config) }
{
    let offer = match config_offer(alloc, config) {
        Ok(offer) => offer,
        Err(OfferFail::TooLarge) => return Err(PlanFail::TooLarge),
        Err(OfferFail::NoMemory) => return Err(PlanFail::NoMemory),
        Err(OfferFail::UnknownAgent) => unreachable!(),
    };
    let AgentRemoteConfig {
        config,
        config_hash,
    } = offer;
    match config {
        Some(config) => Ok((config, config_hash)),
        None => unreachable!(),
    }
}
