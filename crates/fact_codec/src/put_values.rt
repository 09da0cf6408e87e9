//! Writes numbers, texts and values at the end of bytes.
ghost use Rattle.std.specs.Prelude.{◌≡◌, ◌++◌, ◌∷◌, ◌<◌, ◌^◌, [], length, OnOk};
ghost use Rattle.std.specs.List.{flat_map};
ghost use Rattle.fact_codec.specs.Spelling.{short_bytes, word_bytes, long_bytes, text_bytes, subscriber_bytes, filters_bytes, class_bytes, prefix_bytes, rule_bytes, value_bytes};
ghost use Rattle.gx_records.specs.GxFacts as gx_facts;
ghost use Rattle.lattice_core.specs.SessionFacts.{address_value};

use pcrf_values::{Filters, Ipv6Prefix, Rule, RuleQos, Subscriber, Subscribers};
use std::alloc::AllocError;
use std::net::Ipv4Addr;

/// Adds a number of two bytes, big-endian.
#[tactic(auto, unfolding(crate::specs::Spelling::short_bytes))]
pub fn put_short(out: &mut Vec<u8>, number: u16) -> Result<(), AllocError>
    ensures { OnOk result (out.new.items ≡ out.old.items ++ short_bytes number) }
{
    out.extend_from_slice(&number.to_be_bytes())
}

/// Adds a number of four bytes, big-endian.
#[tactic(auto, unfolding(crate::specs::Spelling::word_bytes))]
pub fn put_word(out: &mut Vec<u8>, number: u32) -> Result<(), AllocError>
    ensures { OnOk result (out.new.items ≡ out.old.items ++ word_bytes number) }
{
    out.extend_from_slice(&number.to_be_bytes())
}

/// Adds a number of eight bytes, big-endian.
#[tactic(auto, unfolding(crate::specs::Spelling::long_bytes))]
pub fn put_long(out: &mut Vec<u8>, number: u64) -> Result<(), AllocError>
    ensures { OnOk result (out.new.items ≡ out.old.items ++ long_bytes number) }
{
    out.extend_from_slice(&number.to_be_bytes())
}

/// Adds a text of fewer than 65,536 bytes.
#[tactic(auto, using(crate::proofs::Added::added))]
pub fn put_text(out: &mut Vec<u8>, text: &[u8]) -> Result<(), AllocError>
    requires { length text.now < 2 ^ 16 }
    ensures { OnOk result (out.new.items ≡ out.old.items ++ text_bytes text.now) }
{
    put_short(out, text.len() as u16)?;
    out.extend_from_slice(text)?;
    Ok(())
}

/// Adds a subscriber.
#[tactic(auto, using(crate::proofs::Added::added))]
fn put_subscriber(out: &mut Vec<u8>, subscriber: &Subscriber) -> Result<(), AllocError>
    ensures { OnOk result (out.new.items ≡ out.old.items ++ subscriber_bytes subscriber.now) }
{
    out.push(subscriber.kind().number() as u8)?;
    put_text(out, subscriber.name().as_slice())?;
    Ok(())
}

/// Adds subscribers, and before them how many they are.
#[tactic(auto, using(crate::proofs::Added::added))]
pub(crate) fn put_subscribers(
    out: &mut Vec<u8>,
    subscribers: &Subscribers,
) -> Result<(), AllocError>
    ensures { OnOk result (out.new.items
        ≡ out.old.items ++ (short_bytes (length subscribers.now)
        ++ flat_map subscriber_bytes subscribers.now)) }
{
    let list = subscribers.as_slice();
    put_short(out, list.len() as u16)?;
    for subscriber in list {
        put_subscriber(out, subscriber)?;
    }
    Ok(())
}

/// Adds filters, and before them how many they are.
#[tactic(auto, using(crate::proofs::Added::added))]
pub(crate) fn put_filters(out: &mut Vec<u8>, filters: &Filters) -> Result<(), AllocError>
    ensures { OnOk result (out.new.items ≡ out.old.items ++ filters_bytes filters.now) }
{
    let list = filters.as_slice();
    out.push(list.len() as u8)?;
    for filter in list {
        put_text(out, filter.as_slice())?;
    }
    Ok(())
}

/// Adds an IPv4 address, and before it how many octets it has.
#[tactic(auto, using(crate::proofs::Added::added), unfolding(crate::specs::Spelling::value_bytes))]
pub(crate) fn put_address(out: &mut Vec<u8>, address: &Ipv4Addr) -> Result<(), AllocError>
    ensures { OnOk result (out.new.items
        ≡ out.old.items ++ value_bytes (address_value address.now)) }
{
    let octets = address.octets();
    out.push(4)?;
    out.extend_from_slice(&octets)?;
    Ok(())
}

/// Adds an IPv6 prefix.
#[tactic(auto, using(crate::proofs::Added::added))]
pub(crate) fn put_prefix(out: &mut Vec<u8>, prefix: &Ipv6Prefix) -> Result<(), AllocError>
    ensures { OnOk result (out.new.items ≡ out.old.items ++ prefix_bytes prefix.now) }
{
    out.push(prefix.bits())?;
    out.extend_from_slice(prefix.needed())?;
    Ok(())
}

/// Adds the class of service of a rule.
#[tactic(auto, using(crate::proofs::Added::added))]
fn put_class(out: &mut Vec<u8>, rule: &Rule) -> Result<(), AllocError>
    ensures { OnOk result (out.new.items ≡ out.old.items ++ class_bytes rule.now) }
{
    let RuleQos {
        class,
        priority,
        max_uplink,
        max_downlink,
    } = rule.qos();
    out.push(class.get() as u8)?;
    out.push(priority.level.get() as u8)?;
    out.push(priority.capability.number() as u8)?;
    out.push(priority.vulnerability.number() as u8)?;
    put_word(out, max_uplink)?;
    put_word(out, max_downlink)?;
    Ok(())
}

/// Adds a rule without its name.
#[tactic(auto, using(crate::proofs::Added::added), unfolding(crate::specs::Spelling::rule_bytes))]
fn put_rule(out: &mut Vec<u8>, rule: &Rule) -> Result<(), AllocError>
    ensures { OnOk result (out.new.items ≡ out.old.items ++ rule_bytes rule.now) }
{
    out.push(rule.status().number() as u8)?;
    put_filters(out, rule.filters())?;
    put_class(out, rule)?;
    put_word(out, rule.precedence())?;
    Ok(())
}

/// Adds what was told under a name: nothing, or a rule.
#[tactic(auto, using(crate::proofs::Added::added), unfolding(crate::specs::Spelling::value_bytes))]
pub(crate) fn put_told(out: &mut Vec<u8>, rule: &Option<Rule>) -> Result<(), AllocError>
    ensures { OnOk result (out.new.items
        ≡ out.old.items ++ value_bytes (gx_facts.told_value rule.now)) }
{
    let Some(rule) = rule else {
        return Ok(out.push(0)?);
    };
    out.push(1)?;
    put_rule(out, rule)?;
    Ok(())
}
