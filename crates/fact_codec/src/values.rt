//! Addresses, subscribers and filters.
ghost use Rattle.std.specs.Prelude.{◌≡◌, ◌++◌, ◌∷◌, [], length, IfOk, Some, None};
ghost use Rattle.std.specs.List.{flat_map};
ghost use Rattle.std.specs.Net.Addr.{ipv4_octets};
ghost use Rattle.pcrf_values.specs.Limits.{filter_limit};
ghost use Rattle.pcrf_values.specs.Prefixes.{octets_for};
ghost use Rattle.pcrf_values.specs.Subscribers.{subscriber_cmp};
ghost use Rattle.pcrf_model.specs.Forms.{is_rising};
ghost use Rattle.fact_codec.specs.Spelling.{prefix_bytes, text_bytes, short_bytes, subscriber_bytes, filters_bytes};
ghost use Rattle.fact_codec.specs.Reading.{Gives, many};
ghost use Rattle.fact_codec.specs.Said.{text, octets, prefix, subscriber, subscribers, filters};

use crate::fault::Unread;
use crate::numbers::{byte_at, bytes_at, short_at};
use crate::texts::{subscription_type_at, text_at};
use pcrf_values::{FilterText, Filters, Ipv6Prefix, Subscriber, Subscribers};
use std::alloc::Global;
use std::net::Ipv4Addr;

/// An IPv4 address.
#[tactic(auto, unfolding(crate::specs::Said::octets))]
pub(crate) fn address_at(bytes: &[u8]) -> Result<(Ipv4Addr, &[u8]), Unread>
    ensures read { Gives (λ x. (ipv4_octets x.0, x.1.now)) result (octets bytes.now) }
    ensures spelled { IfOk result (λ x. bytes.now
        ≡ length (ipv4_octets x.0) ∷ [] ++ ipv4_octets x.0 ++ x.1.now) }
{
    let (count, rest) = byte_at(bytes)?;
    if count != 4 {
        return Err(Unread::BadShape);
    }
    let (octets, rest) = bytes_at(4, rest)?;
    let Ok(octets) = <[u8; 4]>::try_from(octets) else {
        return Err(Unread::BadShape);
    };
    Ok((Ipv4Addr::from_octets(octets), rest))
}

/// How many bytes so many bits need.
fn octets_for(bits: u8) -> usize
    ensures { result ≡ octets_for bits }
{
    usize::from(bits).div_ceil(8)
}

/// An IPv6 prefix.
#[tactic(auto, unfolding(crate::specs::Said::prefix))]
pub(crate) fn prefix_at(bytes: &[u8]) -> Result<(Ipv6Prefix, &[u8]), Unread>
    ensures read { Gives (λ x. (x.0, x.1.now)) result (prefix bytes.now) }
    ensures spelled { IfOk result (λ x. bytes.now ≡ prefix_bytes x.0 ++ x.1.now) }
{
    let (bits, rest) = byte_at(bytes)?;
    let (octets, rest) = bytes_at(octets_for(bits), rest)?;
    let Some(prefix) = Ipv6Prefix::of(bits, octets) else {
        return Err(Unread::BadShape);
    };
    if !prefix.needed().cmp(octets).is_eq() {
        return Err(Unread::BadShape);
    }
    Ok((prefix, rest))
}

/// A subscriber.
#[tactic(auto, unfolding(crate::specs::Said::subscriber))]
fn subscriber_at(alloc: Global, bytes: &[u8]) -> Result<(Subscriber, &[u8]), Unread>
    ensures read { Gives (λ x. (x.0, x.1.now)) result (subscriber bytes.now) }
    ensures spelled { IfOk result (λ x. bytes.now ≡ subscriber_bytes x.0 ++ x.1.now) }
{
    let (kind, rest) = subscription_type_at(bytes)?;
    let (name, rest) = text_at(alloc, rest)?;
    Ok((Subscriber::of(kind, name), rest))
}

/// So many subscribers. Room is made for each as it is read.
fn list_of_subscribers(
    alloc: Global,
    count: u16,
    bytes: &[u8],
) -> Result<(Vec<Subscriber>, &[u8]), Unread>
    ensures read { Gives (λ x. (x.0.items, x.1.now)) result (many subscriber count bytes.now) }
    ensures spelled { IfOk result (λ x. bytes.now
        ≡ flat_map subscriber_bytes x.0.items ++ x.1.now) }
    ensures counted { IfOk result (λ x. length x.0.items ≡ count) }
{
    let mut items = Vec::new(alloc);
    let mut rest = bytes;
    for _ in 0..count {
        let (item, after) = subscriber_at(alloc, rest)?;
        items.push(item)?;
        rest = after;
    }
    Ok((items, rest))
}

/// Each subscriber stands below the next one.
fn are_rising(subscribers: &[Subscriber]) -> bool
    ensures { result ≡ is_rising subscriber_cmp subscribers.now }
{
    let mut left = subscribers;
    while let Some((first, rest)) = left.split_first() {
        if let Some(second) = rest.first() {
            if !first.cmp(second).is_lt() {
                return false;
            }
        }
        left = rest;
    }
    true
}

/// Subscribers, strictly ascending.
#[tactic(auto, unfolding(crate::specs::Said::subscribers))]
pub(crate) fn subscribers_at(alloc: Global, bytes: &[u8]) -> Result<(Subscribers, &[u8]), Unread>
    ensures read { Gives (λ x. (x.0, x.1.now)) result (subscribers bytes.now) }
    ensures spelled { IfOk result (λ x. bytes.now
        ≡ short_bytes (length x.0) ++ flat_map subscriber_bytes x.0 ++ x.1.now) }
{
    let (count, rest) = short_at(bytes)?;
    let (list, rest) = list_of_subscribers(alloc, count, rest)?;
    if !are_rising(list.as_slice()) {
        return Err(Unread::BadShape);
    }
    let Some(subscribers) = Subscribers::of(alloc, list)? else {
        return Err(Unread::BadShape);
    };
    Ok((subscribers, rest))
}

/// So many filters. Room is made for each as it is read.
fn list_of_filters(
    alloc: Global,
    count: u8,
    bytes: &[u8],
) -> Result<(Vec<FilterText>, &[u8]), Unread>
    ensures read { Gives (λ x. (x.0.items, x.1.now)) result
        (many (text filter_limit) count bytes.now) }
    ensures spelled { IfOk result (λ x. bytes.now ≡ flat_map text_bytes x.0.items ++ x.1.now) }
    ensures counted { IfOk result (λ x. length x.0.items ≡ count) }
{
    let mut items = Vec::new(alloc);
    let mut rest = bytes;
    for _ in 0..count {
        let (item, after) = text_at(alloc, rest)?;
        items.push(item)?;
        rest = after;
    }
    Ok((items, rest))
}

/// The filters of a flow.
#[tactic(auto, unfolding(crate::specs::Said::filters))]
pub(crate) fn filters_at(alloc: Global, bytes: &[u8]) -> Result<(Filters, &[u8]), Unread>
    ensures read { Gives (λ x. (x.0, x.1.now)) result (filters bytes.now) }
    ensures spelled { IfOk result (λ x. bytes.now ≡ filters_bytes x.0 ++ x.1.now) }
{
    let (count, rest) = byte_at(bytes)?;
    let (list, rest) = list_of_filters(alloc, count, rest)?;
    let Some(filters) = Filters::of(list) else {
        return Err(Unread::BadShape);
    };
    Ok((filters, rest))
}
