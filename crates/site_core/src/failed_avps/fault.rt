//! What is at fault by a grammar.
ghost use Rattle.std.specs.Prelude.{◌≡◌, if◌then◌else◌, IfOk, is_some, option_map, None, Some};
ghost use Rattle.std.specs.List.{filter};
ghost use Rattle.pcrf_values.specs.Results.{base_result};
ghost use Rattle.dia_codec.specs.Reading.{avps_of};
ghost use Rattle.dia_codec.specs.Spelling.{avp_view, avp_views, owned_view};
ghost use Rattle.dia_base.specs.Rows.{enumerated, has_key, is_too_often, prefix_in};
ghost use Rattle.site_core.specs.Faults.{around, as_it_came, enclosed, example, fault_among, fault_view, fault_within, group_fault, one_too_many, row_fault, rows_fault, value_fault, with_value};
ghost use Rattle.site_core.specs.Grammars.{plain_kind};

use crate::failed_avps::grammar::{AvpType, Grammar, GrammarRow};
use crate::failed_avps::requests::rows_of;
use dia_base::codes::results::{
    AVP_OCCURS_TOO_MANY_TIMES, INVALID_AVP_LENGTH, INVALID_AVP_VALUE, MISSING_AVP,
};
use dia_base::{Refusal, count_of};
use dia_codec::{Avp, MsgFault, OwnedAvp, WriteFault, read_group, write_group};
use pcrf_values::Ipv6Prefix;
use std::alloc::{AllocError, Global};

/// By which code a request is refused, and the AVP at fault, unless it is longer than any message.
#[derive(Drop)]
pub struct Fault {
    pub refusal: Refusal,
    pub avp: Option<OwnedAvp>,
}

/// An AVP that says the same, with another value.
fn with_value(avp: &Avp<'_>, value: Vec<u8>) -> OwnedAvp
    ensures { owned_view result ≡ with_value (avp_view avp.now) value.items }
{
    OwnedAvp {
        code: avp.code,
        vendor: avp.vendor,
        mandatory: avp.mandatory,
        protected: avp.protected,
        value,
    }
}

/// An AVP is at fault as it came.
pub fn as_it_came(alloc: Global, avp: &Avp<'_>, refusal: Refusal) -> Result<Fault, AllocError>
    ensures { IfOk result (λ fault. fault_view fault ≡ as_it_came (avp_view avp.now) refusal) }
{
    let avp = Some(avp.owned(alloc)?);
    Ok(Fault { refusal, avp })
}

/// An AVP, with zeros of its type's least length.
pub fn example(alloc: Global, row: &GrammarRow) -> Result<OwnedAvp, AllocError>
    ensures { IfOk result (λ avp. owned_view avp ≡ example row.now) }
{
    Ok(OwnedAvp {
        code: row.key.code,
        vendor: row.key.vendor,
        mandatory: true,
        protected: false,
        value: vec![in alloc; 0; row.kind.least_length()]?,
    })
}

/// The first AVP with the key of a row that is one too many.
fn one_too_many(
    alloc: Global,
    row: &GrammarRow,
    avps: &[Avp<'_>],
) -> Result<Option<OwnedAvp>, AllocError>
    ensures { IfOk result (λ avp. option_map owned_view avp
        ≡ one_too_many row.now (avp_views avps.now)) }
{
    let mut left = row.most.unwrap_or(0);
    for avp in avps {
        if avp.key() == row.key {
            if left == 0 {
                return Ok(Some(avp.owned(alloc)?));
            }
            left -= 1;
        }
    }
    Ok(None)
}

/// Whether a value gives a prefix: a byte that doesn't count, the length in bits, and the bits (RFC 3162, 2.3).
fn is_prefix(value: &[u8]) -> bool
    ensures { result ≡ is_some (prefix_in value.now) }
{
    let Some((_, value)) = value.split_first() else {
        return false;
    };
    let Some((bits, bytes)) = value.split_first() else {
        return false;
    };
    Ipv6Prefix::of(*bits, bytes).is_some()
}

/// The refusal of a value that has to be so.
fn unless(holds: bool, code: u32) -> Option<Refusal>
    ensures { result ≡ (if holds then None else Some (base_result code)) }
{
    if holds {
        return None;
    }
    Some(Refusal::base(code))
}

/// The refusal of a number outside a range.
fn enumerated(least: u32, most: u32, avp: &Avp<'_>) -> Option<Refusal>
    ensures { result ≡ enumerated least most (avp_view avp.now).value }
{
    let Some(number) = avp.number() else {
        return Some(Refusal::base(INVALID_AVP_LENGTH));
    };
    unless(least <= number && number <= most, INVALID_AVP_VALUE)
}

/// The refusal of a value that isn't of its type, but for groups.
fn plain_refusal(kind: AvpType, avp: &Avp<'_>) -> Option<Refusal>
    ensures { result ≡ plain_kind kind (avp_view avp.now).value }
{
    let value = avp.text();
    match kind {
        AvpType::Unsigned32 => unless(value.len() == 4, INVALID_AVP_LENGTH),
        AvpType::Enumerated(least, most) => enumerated(least, most, avp),
        AvpType::Text(most) => {
            unless(1 <= value.len() && value.len() <= most, INVALID_AVP_VALUE)
        }
        AvpType::Ipv4Address => unless(value.len() == 4, INVALID_AVP_VALUE),
        AvpType::Ipv6Prefix => unless(is_prefix(value), INVALID_AVP_VALUE),
        AvpType::OctetString | AvpType::Grouped(_) => None,
    }
}

/// A group with this AVP alone in it, unless that is longer than any message.
fn around(alloc: Global, group: &Avp<'_>, avp: OwnedAvp) -> Result<Option<OwnedAvp>, AllocError>
    ensures { IfOk result (λ both. option_map owned_view both
        ≡ around (avp_view group.now) (owned_view avp)) }
{
    match write_group(alloc, &[avp.as_avp()]) {
        Ok(value) => Ok(Some(with_value(group, value))),
        Err(WriteFault::TooLong) => Ok(None),
        Err(WriteFault::NoMemory) => Err(AllocError),
    }
}

/// What is at fault in a group, with the group around it.
pub fn enclosed(alloc: Global, group: &Avp<'_>, fault: Fault) -> Result<Fault, AllocError>
    ensures { IfOk result (λ both. fault_view both
        ≡ enclosed (avp_view group.now) (fault_view fault)) }
{
    let Fault { refusal, avp } = fault;
    let avp = match avp {
        Some(avp) => around(alloc, group, avp)?,
        None => None,
    };
    Ok(Fault { refusal, avp })
}

/// What is at fault in a group.
#[cycle(faults)]
fn group_fault(
    alloc: Global,
    depth: u32,
    grammar: Grammar,
    group: &Avp<'_>,
) -> Result<Option<Fault>, AllocError>
    ensures { IfOk result (λ fault. option_map fault_view fault
        ≡ group_fault (fault_within depth grammar) (avp_view group.now)
        (avps_of (avp_view group.now).value)) }
{
    let avps = match read_group(alloc, group.text()) {
        Ok(avps) => avps,
        Err(MsgFault::NoMemory) => return Err(AllocError),
        Err(_) => {
            return Ok(Some(Fault {
                refusal: Refusal::base(INVALID_AVP_LENGTH),
                avp: Some(with_value(group, Vec::new(alloc))),
            }));
        }
    };
    let Some(fault) = fault_within(alloc, depth, grammar, &avps)? else {
        return Ok(None);
    };
    Ok(Some(enclosed(alloc, group, fault)?))
}

/// What is at fault in a value of this type.
#[cycle(faults)]
fn value_fault(
    alloc: Global,
    depth: u32,
    kind: AvpType,
    avp: &Avp<'_>,
) -> Result<Option<Fault>, AllocError>
    ensures { IfOk result (λ fault. option_map fault_view fault
        ≡ value_fault (fault_within depth) kind (avp_view avp.now)) }
{
    if let AvpType::Grouped(grammar) = kind {
        return group_fault(alloc, depth, grammar, avp);
    }
    let Some(refusal) = plain_refusal(kind, avp) else {
        return Ok(None);
    };
    Ok(Some(as_it_came(alloc, avp, refusal)?))
}

/// What is at fault first in the values with the key of a row.
#[cycle(faults)]
fn first_at_fault(
    alloc: Global,
    depth: u32,
    row: &GrammarRow,
    avps: &[Avp<'_>],
) -> Result<Option<Fault>, AllocError>
    ensures { IfOk result (λ fault. option_map fault_view fault
        ≡ fault_among (value_fault (fault_within depth) row.now.kind)
        (filter (has_key row.now.key) (avp_views avps.now))) }
{
    for avp in avps {
        if avp.key() == row.key {
            let found = value_fault(alloc, depth, row.kind, avp)?;
            if found.is_some() {
                return Ok(found);
            }
        }
    }
    Ok(None)
}

/// AVPs of a row stand more often than it allows, where it has a limit.
fn is_too_often(count: usize, most: Option<usize>) -> bool
    ensures { result ≡ is_too_often most count }
{
    match most {
        Some(most) => count > most,
        None => false,
    }
}

/// What is at fault by a row.
#[cycle(faults)]
fn row_fault(
    alloc: Global,
    depth: u32,
    row: &GrammarRow,
    avps: &[Avp<'_>],
) -> Result<Option<Fault>, AllocError>
    ensures { IfOk result (λ fault. option_map fault_view fault
        ≡ row_fault (fault_within depth) row.now (avp_views avps.now)) }
{
    let count = count_of(avps, row.key);
    if is_too_often(count, row.most) {
        return Ok(Some(Fault {
            refusal: Refusal::base(AVP_OCCURS_TOO_MANY_TIMES),
            avp: one_too_many(alloc, row, avps)?,
        }));
    }
    if count < row.least {
        return Ok(Some(Fault {
            refusal: Refusal::base(MISSING_AVP),
            avp: Some(example(alloc, row)?),
        }));
    }
    first_at_fault(alloc, depth, row, avps)
}

/// What is at fault first, row by row.
#[cycle(faults)]
fn rows_fault(
    alloc: Global,
    depth: u32,
    rows: &[GrammarRow],
    avps: &[Avp<'_>],
) -> Result<Option<Fault>, AllocError>
    ensures { IfOk result (λ fault. option_map fault_view fault
        ≡ rows_fault (fault_within depth) rows.now (avp_views avps.now)) }
{
    for row in rows {
        let found = row_fault(alloc, depth, row, avps)?;
        if found.is_some() {
            return Ok(found);
        }
    }
    Ok(None)
}

/// What is at fault first by a grammar, with groups that stand so deep.
#[cycle(faults)]
pub fn fault_within(
    alloc: Global,
    depth: u32,
    grammar: Grammar,
    avps: &[Avp<'_>],
) -> Result<Option<Fault>, AllocError>
    ensures { IfOk result (λ fault. option_map fault_view fault
        ≡ fault_within depth grammar (avp_views avps.now)) }
{
    if depth == 0 {
        return Ok(None);
    }
    rows_fault(alloc, depth - 1, rows_of(grammar), avps)
}
