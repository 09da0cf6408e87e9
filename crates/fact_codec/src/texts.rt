//! Texts and small numbers within their ranges.
ghost use Rattle.std.specs.Prelude.{◌≡◌, ◌++◌, ◌∷◌, [], length, IfOk, Some, None};
ghost use Rattle.pcrf_values.specs.Numbers.{flow_status_number, preemption_number, subscription_number};
ghost use Rattle.fact_codec.specs.Spelling.{text_bytes};
ghost use Rattle.fact_codec.specs.Reading.{Gives};
ghost use Rattle.fact_codec.specs.Said.{byte_within, text, apn_name};

use crate::fault::Unread;
use crate::numbers::{byte_at, bytes_at, short_at};
use pcrf_values::{Apn, BoundedText, FlowStatus, Preemption, SubscriptionType};
use std::alloc::Global;

/// The Flow-Status of a rule.
#[tactic(auto, unfolding(crate::specs::Said::byte_within))]
pub(crate) fn status_at(bytes: &[u8]) -> Result<(FlowStatus, &[u8]), Unread>
    ensures read { Gives (λ x. (flow_status_number x.0, x.1.now)) result
        (byte_within 0 3 bytes.now) }
    ensures spelled { IfOk result (λ x. bytes.now ≡ flow_status_number x.0 ∷ x.1.now) }
{
    let (number, rest) = byte_at(bytes)?;
    let Some(status) = FlowStatus::from_number(u32::from(number)) else {
        return Err(Unread::BadShape);
    };
    Ok((status, rest))
}

/// Whether a bearer may take resources, or lose them.
#[tactic(auto, unfolding(crate::specs::Said::byte_within))]
pub(crate) fn preemption_at(bytes: &[u8]) -> Result<(Preemption, &[u8]), Unread>
    ensures read { Gives (λ x. (preemption_number x.0, x.1.now)) result
        (byte_within 0 1 bytes.now) }
    ensures spelled { IfOk result (λ x. bytes.now ≡ preemption_number x.0 ∷ x.1.now) }
{
    let (number, rest) = byte_at(bytes)?;
    let Some(preemption) = Preemption::from_number(u32::from(number)) else {
        return Err(Unread::BadShape);
    };
    Ok((preemption, rest))
}

/// What a subscriber is named by.
#[tactic(auto, unfolding(crate::specs::Said::byte_within))]
pub(crate) fn subscription_type_at(bytes: &[u8]) -> Result<(SubscriptionType, &[u8]), Unread>
    ensures read { Gives (λ x. (subscription_number x.0, x.1.now)) result
        (byte_within 0 4 bytes.now) }
    ensures spelled { IfOk result (λ x. bytes.now ≡ subscription_number x.0 ∷ x.1.now) }
{
    let (number, rest) = byte_at(bytes)?;
    let Some(kind) = SubscriptionType::from_number(u32::from(number)) else {
        return Err(Unread::BadShape);
    };
    Ok((kind, rest))
}

/// A text of 1 to `MOST` bytes.
#[tactic(auto, unfolding(crate::specs::Said::text))]
pub fn text_at<const MOST: usize>(
    alloc: Global,
    bytes: &[u8],
) -> Result<(BoundedText<MOST>, &[u8]), Unread>
    ensures read { Gives (λ x. (x.0, x.1.now)) result (text MOST bytes.now) }
    ensures spelled { IfOk result (λ x. bytes.now ≡ text_bytes x.0 ++ x.1.now) }
{
    let (length, rest) = short_at(bytes)?;
    let (text, rest) = bytes_at(usize::from(length), rest)?;
    let Some(text) = BoundedText::<MOST>::read(alloc, text)? else {
        return Err(Unread::BadShape);
    };
    Ok((text, rest))
}

/// The name of an access point, in small letters.
#[tactic(auto, unfolding(crate::specs::Said::apn_name))]
pub(crate) fn apn_at(alloc: Global, bytes: &[u8]) -> Result<(Apn, &[u8]), Unread>
    ensures read { Gives (λ x. (x.0, x.1.now)) result (apn_name bytes.now) }
    ensures spelled { IfOk result (λ x. bytes.now ≡ text_bytes x.0 ++ x.1.now) }
{
    let (length, rest) = short_at(bytes)?;
    let (text, rest) = bytes_at(usize::from(length), rest)?;
    let Some(apn) = Apn::folded(alloc, text)? else {
        return Err(Unread::BadShape);
    };
    if !apn.as_slice().cmp(text).is_eq() {
        return Err(Unread::BadShape);
    }
    Ok((apn, rest))
}
