//! Short reports and their bytes. Nothing here takes memory.

ghost use Rattle.std.specs.Prelude.{◌≡◌, ◌<◌, ◌≤◌, ◌^◌, ◌∷◌, ◌++◌, length, IfSome};
ghost use Rattle.message_reports.specs.Reports.{MeansReport, canonical_report, report_levels};
ghost use Rattle.message_short.specs.Short.{report_of, health_field, short_bytes};

use crate::numbers::number_behind;
use plain_values::Uid;

/// The tag of the field `sequence_num`, of number 2 (Protocol Buffers encoding guide, "Message Structure").
const SEQUENCE_NUM: u8 = 16;

/// The tag of the field `capabilities`, of number 4.
const CAPABILITIES: u8 = 32;

/// What a short report tells, which has no other fields: agents send such while nothing changes (OpAMP specification, "AgentToServer Message").
#[derive(Clone, Copy)]
pub struct ShortReport {
    /// The agent's identifier.
    pub instance_uid: Uid,
    /// The report's number.
    pub sequence_num: u64,
    /// What the agent can do, as the bits of `AgentCapabilities`.
    pub capabilities: u64,
    /// Whether the agent is healthy, where the report has a health.
    pub healthy: Option<bool>,
}

// The identifier at the front, and what stands behind it.
#[inline]
fn uid_at(bytes: &[u8]) -> Option<(&[u8; 16], &[u8])>
    ensures uid { IfSome result (λ x. length x.0.now ≡ 16) }
    ensures parts { IfSome result (λ x. bytes.now ≡ x.0.now ++ x.1.now) }
{
    let (uid, behind) = bytes.split_first_chunk::<16>()?;
    Some((uid, behind))
}

// The identifier in the field `instance_uid`, of number 1, at the front, and what stands behind the field.
#[tactic(auto, using(crate::proofs::Fronts::first_two))]
#[inline]
fn uid_behind(bytes: &[u8]) -> Option<(&[u8; 16], &[u8])>
    ensures uid { IfSome result (λ x. length x.0.now ≡ 16) }
    ensures parts { IfSome result (λ x. bytes.now ≡ 10 ∷ 16 ∷ (x.0.now ++ x.1.now)) }
{
    let [10, 16, behind @ ..] = bytes else {
        return None;
    };
    let (uid, rest) = uid_at(behind)?;
    Some((uid, rest))
}

// The health in these bytes, which are to be its field, of number 5, and nothing else.
#[tactic(auto, using(crate::proofs::Fronts::of_none, crate::proofs::Fronts::of_two, crate::proofs::Fronts::of_four))]
#[inline]
fn health_in(bytes: &[u8]) -> Option<Option<bool>>
    ensures spelled { IfSome result (λ healthy. bytes.now ≡ health_field healthy) }
{
    match bytes {
        [] => Some(None),
        [42, 0] => Some(Some(false)),
        [42, 2, 8, 1] => Some(Some(true)),
        _ => None,
    }
}

// What these bytes tell, where they are the fields of a short report in their shortest spelling.
#[inline]
fn told_by(bytes: &[u8]) -> Option<ShortReport>
    ensures uid { IfSome result (λ short. length short.instance_uid ≡ 16) }
    ensures sequence_num { IfSome result (λ short. short.sequence_num < 2 ^ 28) }
    ensures capabilities { IfSome result (λ short. short.capabilities < 2 ^ 28) }
    ensures spelled { IfSome result (λ short. bytes.now ≡ short_bytes short) }
{
    let (uid, rest) = uid_behind(bytes)?;
    let (sequence_num, rest) = number_behind(SEQUENCE_NUM, rest);
    let (capabilities, rest) = number_behind(CAPABILITIES, rest);
    let healthy = health_in(rest)?;
    Some(ShortReport {
        instance_uid: Uid::of(*uid),
        sequence_num,
        capabilities,
        healthy,
    })
}

/// The short report of which the bytes are the canonical form.
///
/// It gives none where they aren't, and where the number or the capabilities take more than four bytes, that is from 2^28 on; so of a report that it
/// doesn't give nothing is known.
pub fn short_report(bytes: &[u8]) -> Option<ShortReport>
    ensures canonical { IfSome result (λ short. bytes.now ≡ canonical_report (report_of short)) }
    ensures means { IfSome result (λ short. MeansReport bytes.now (report_of short)) }
    ensures small { IfSome result (λ short. length bytes.now ≤ 64) }
    ensures shallow { IfSome result (λ short. report_levels (report_of short) ≤ 2) }
{
    told_by(bytes)
}
