//! The body of an agent's file.

ghost use Rattle.std.specs.Prelude.{◌≡◌, ℕ, List, ◌<◌, length, IfOk, IfErr, IfSome, IfNone, IsTrue};
ghost use Rattle.message_codec.specs.Levels.{most_bytes};
ghost use Rattle.server_core.specs.declared.offers.Offers as of;
ghost use Rattle.message_replies.specs.Canonical.{IsWrittenReply, ReplyFails, canonical_reply};
ghost use Rattle.message_replies.specs.Replies.{MeansReply};
ghost use Rattle.server_kept.specs.Files.{Holds, kept_reply, has_offer};

use message_codec::reader::items::ReadFail;
use message_replies::laws::{one_reply, reply_fault};
use message_replies::{WriteFail, decode_reply, encode_reply};
use message_values::ServerToAgent;
use plain_values::{Blob, NoMemory, Plain, Uid};
use server_core::Offers;
use std::alloc::Global;

// Whether an offer of any kind stands.
pub(crate) fn has_offer(offers: &Offers) -> bool
    ensures { result ≡ has_offer offers.now }
{
    offers.config.is_some() || offers.packages.is_some() || offers.connection.is_some()
}

pub(crate) fn copied(alloc: Global, offers: &Offers) -> Result<Offers, NoMemory>
    ensures copied { IfOk result (λ copied. copied ≡ offers.now) }
{
    let config = offers.config.copy(alloc)?;
    let packages = offers.packages.copy(alloc)?;
    let connection = offers.connection.copy(alloc)?;
    Ok(Offers {
        config,
        packages,
        connection,
    })
}

// The message that has the identifier and the offers, and nothing else.
fn message_of(uid: Blob, offers: Offers) -> ServerToAgent
    ensures { result ≡ kept_reply uid offers }
{
    let Offers {
        config,
        packages,
        connection,
    } = offers;
    ServerToAgent {
        instance_uid: uid,
        error_response: None,
        remote_config: config,
        connection_settings: connection,
        packages_available: packages,
        flags: 0,
        capabilities: 0,
        agent_identification: None,
        command: None,
        custom_capabilities: None,
        custom_message: None,
    }
}

// Takes the offers out of a message.
fn offers_of(message: &mut ServerToAgent) -> Offers
    ensures { result ≡ record { config = message.old.remote_config; packages = message.old.packages_available; connection = message.old.connection_settings } }
{
    Offers {
        config: message.remote_config.take(),
        packages: message.packages_available.take(),
        connection: message.connection_settings.take(),
    }
}

/// The body of the file of an agent to which these offers stand.
pub(crate) fn body_of(alloc: Global, uid: &Uid, offers: &Offers) -> Result<Blob, WriteFail>
    ensures bytes { IfOk result (λ body. body ≡ canonical_reply (kept_reply uid.now offers.now)) }
    ensures means { IfOk result (λ body. MeansReply body (kept_reply uid.now offers.now)) }
    ensures failed { IfErr result (ReplyFails (kept_reply uid.now offers.now)) }
{
    let id = Blob::from_slice(alloc, uid.as_slice())?;
    let offers = copied(alloc, offers)?;
    let message = message_of(id, offers);
    encode_reply(alloc, &message)
}

/// The offers that the body of the agent's file keeps; none exactly where it isn't such a body.
pub(crate) fn offers_in(alloc: Global, uid: &Uid, body: &Blob) -> Result<Option<Offers>, NoMemory>
    ensures some { IfOk result (λ found. IfSome found (λ offers. Holds uid.now offers body.now)) }
    ensures none { IfOk result (λ found. IfNone found ((offers : of.Offers) → Holds uid.now offers body.now → ⊥)) }
{
    one_reply();
    reply_fault();
    let mut message = match decode_reply(alloc, body.as_slice()) {
        Ok(message) => message,
        Err(ReadFail::NoMemory) => return Err(NoMemory),
        Err(ReadFail::Refused(_)) => return Ok(None),
    };
    let offers = offers_of(&mut message);
    settled(alloc, uid, body, offers)
}

// The offers, where the body is theirs.
fn settled(
    alloc: Global,
    uid: &Uid,
    body: &Blob,
    offers: Offers,
) -> Result<Option<Offers>, NoMemory>
    ensures some { IfOk result (λ found. IfSome found (λ kept. (kept ≡ offers) × Holds uid.now offers body.now)) }
    ensures none { IfOk result (λ found. IfNone found (Holds uid.now offers body.now → ⊥)) }
{
    if !has_offer(&offers) {
        return Ok(None);
    }
    match body_of(alloc, uid, &offers) {
        Ok(again) => {
            if again.same(body) {
                Ok(Some(offers))
            } else {
                Ok(None)
            }
        }
        Err(WriteFail::NoMemory) => Err(NoMemory),
        Err(_) => Ok(None),
    }
}
