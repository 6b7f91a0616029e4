//! The header by which each request tells the agent's identifier, so that a balancer can hold the agent to a server.

ghost use Rattle.std.specs.Prelude.{◌≡◌, IfOk};
ghost use Rattle.agent_rounds.specs.Identifying.{dialled_headers, identifier_header};

use plain_values::{Header, Headers, List, NoMemory, Plain, Text, Uid};
use std::alloc::Global;
use uuid::Uuid;

// The identifier as `uuid` prints it.
fn uuid_of(uid: &Uid) -> Uuid
    ensures { result ≡ uid.now }
{
    let mut bytes = [0; 16];
    bytes.copy_from_slice(uid.as_slice());
    Uuid::from_bytes(bytes)
}

// The header that tells the identifier.
#[tactic(auto, unfolding(crate::specs::Identifying::identifier_header))]
fn identifier_header(alloc: Global, uid: &Uid) -> Result<Header, NoMemory>
    ensures header { IfOk result (λ header. header ≡ identifier_header uid.now) }
{
    let mut text = [0; 36];
    let value = uuid_of(uid).hyphenated().encode_lower(&mut text);
    Ok(Header {
        key: Text::from_str(alloc, "OpAMP-Instance-UID")?,
        value: Text::from_str(alloc, value)?,
    })
}

/// The headers with which an agent of this identifier dials, where its settings have these. Only want of memory can refuse them.
#[tactic(auto, unfolding(crate::specs::Identifying::dialled_headers))]
pub(crate) fn dialled_headers(
    alloc: Global,
    uid: &Uid,
    headers: &Headers,
) -> Result<Headers, NoMemory>
    ensures headers { IfOk result (λ dialled. dialled ≡ dialled_headers uid.now headers.now) }
{
    let own = identifier_header(alloc, uid)?;
    let mut all = headers.headers.copy(alloc)?.into_vec();
    all.insert(0, own)?;
    Ok(Headers {
        headers: List::of(all),
    })
}
