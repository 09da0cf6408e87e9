//! The ranges that values keep by their types, as the form of facts and requests has them.
//!
//! The functions do nothing that a caller sees: what they tell a proof is their contracts.
ghost use Rattle.std.specs.Prelude.{◌≡◌, true};
ghost use Rattle.std.specs.List.{list_all};
ghost use Rattle.std.specs.Net.Addr.{ipv4_octets};
ghost use Rattle.pcrf_model.specs.Forms.{is_address, is_apn, is_byte, is_prefix, is_rule, is_subscriber, is_text, are_filters, are_subscribers};

use pcrf_values::{Apn, BoundedText, Filters, Ipv6Prefix, Rule, Subscriber, Subscribers};
use std::net::Ipv4Addr;

/// Bytes are bytes.
pub fn note_bytes(bytes: &[u8])
    ensures { list_all is_byte bytes.now ≡ true }
{}

/// A text has 1 byte to the most.
pub fn note_text<const MOST: usize>(text: &BoundedText<MOST>)
    ensures { is_text MOST text.now ≡ true }
{
    note_bytes(text.as_slice());
}

/// An access point name is a text in small letters.
pub fn note_apn(apn: &Apn)
    ensures { is_apn apn.now ≡ true }
{
    note_bytes(apn.as_slice());
}

/// An address has four octets.
pub fn note_address(address: &Ipv4Addr)
    ensures { is_address (ipv4_octets address.now) ≡ true }
{
    note_bytes(&address.octets());
}

/// A prefix has up to 128 bits in 16 bytes, and zeros past them.
pub fn note_prefix(prefix: &Ipv6Prefix)
    ensures { is_prefix prefix.now ≡ true }
{
    let _bits = prefix.bits();
    note_bytes(prefix.octets());
}

/// Filters are one or two, each a text.
pub fn note_filters(filters: &Filters)
    ensures { are_filters filters.now ≡ true }
{
    for filter in filters.as_slice() {
        note_text(filter);
    }
}

/// A subscriber has a type that is known, and a name.
pub fn note_subscriber(subscriber: &Subscriber)
    ensures { is_subscriber subscriber.now ≡ true }
{
    let _kind = subscriber.kind().number();
    note_text(subscriber.name());
}

/// Subscribers are 1 to 16, ascending.
pub fn note_subscribers(subscribers: &Subscribers)
    ensures { are_subscribers subscribers.now ≡ true }
{
    for subscriber in subscribers.as_slice() {
        note_subscriber(subscriber);
    }
}

/// The parts of a rule are within their ranges, whatever its name.
pub fn note_rule(rule: &Rule)
    ensures { is_rule rule.now ≡ true }
{
    let _status = rule.status().number();
    note_filters(rule.filters());
    let qos = rule.qos();
    let _class = qos.class.get();
    let _level = qos.priority.level.get();
    let _capability = qos.priority.capability.number();
    let _vulnerability = qos.priority.vulnerability.number();
    let _precedence = rule.precedence();
}
