//! Payloads of messages that hold a map of such messages.

ghost use Rattle.std.specs.Prelude.{◌≡◌, suc, ◌-◌, ◌<◌, false, nat_eq, IfOk, None};
ghost use Rattle.std.specs.Option.{IfSome};
ghost use Rattle.std.specs.Result.{is_ok};
ghost use Rattle.message_codec.specs.Fields.{Bytes, payload_in, wire_type};
ghost use Rattle.message_codec.specs.Faults.{FirstFault};
ghost use Rattle.message_codec.specs.Read.{IsItem, FailsWith, PartFails};

use message_codec::reader::items::{Item, ReadFail};
use message_codec::reader::message::{Named, shifted, too_deep};
use message_codec::wire::FieldValue;

/// The payload of a message field, for which a level has to be left; none where the field is of another wire type.
pub(crate) fn payload<'a, N: Named>(
    bytes: &'a [u8],
    item: &Item,
    below: u32,
) -> Result<Option<&'a [u8]>, ReadFail>
    requires item { IsItem bytes.now item.now }
    ensures payload { IfOk result (λ found. IfSome found (λ payload. (0 < below) × (payload_in bytes.now item.now.value ≡ Bytes payload.now))) }
    ensures none { IfOk result (λ found. found ≡ None → nat_eq (wire_type (payload_in bytes.now item.now.value)) 2 ≡ false) }
    ensures refused { FailsWith result (PartFails below N.name bytes.now item.now) }
{
    if let FieldValue::Bytes { from, to } = item.value {
        if below == 0 {
            return Err(too_deep::<N>(bytes, item, from, to));
        }
        return Ok(Some(&bytes[from as usize..to as usize]));
    }
    Ok(None)
}

/// What the reading of a payload is to the message around it: the place of a fault counts from that message's first byte.
pub(crate) fn around_payload<N: Named>(
    read: Result<(), ReadFail>,
    bytes: &[u8],
    item: &Item,
    payload: &[u8],
    below: u32,
) -> Result<(), ReadFail>
    requires levels { 0 < below }
    requires item { IsItem bytes.now item.now }
    requires lies { payload_in bytes.now item.now.value ≡ Bytes payload.now }
    requires fails { FailsWith read (FirstFault (suc (below - 1)) N.name payload.now) }
    ensures same { is_ok result ≡ is_ok read }
    ensures refused { FailsWith result (PartFails below N.name bytes.now item.now) }
{
    match item.value {
        FieldValue::Bytes { from, to } => match read {
            Ok(()) => Ok(()),
            Err(fail) => Err(shifted::<N>(fail, bytes, item, from, to, below)),
        },
        _ => unreachable!(),
    }
}
