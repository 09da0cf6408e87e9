//! AVPs of a request that have M and aren't recognized.
ghost use Rattle.std.specs.Prelude.{◌≡◌, IfOk, option_map};
ghost use Rattle.dia_codec.specs.Reading.{avps_of};
ghost use Rattle.dia_codec.specs.Spelling.{avp_view, avp_views};
ghost use Rattle.site_core.specs.Faults.{fault_among, fault_view};
ghost use Rattle.site_core.specs.Unsupported.{first_in_group, first_inside, has_unsupported, inner_at, inner_of, is_unsupported, unsupported_at, unsupported_within};

use crate::failed_avps::codes::results::AVP_UNSUPPORTED;
use crate::failed_avps::fault::{Fault, as_it_came, enclosed};
use crate::failed_avps::grammar::{AvpType, Grammar};
use crate::failed_avps::recognized::is_recognized;
use crate::failed_avps::requests::{DEPTH, grammar_of, rows_of};
use dia_base::Refusal;
use dia_codec::{Avp, AvpKey, Header, MsgFault, read_group};
use std::alloc::{AllocError, Global};

/// Whether who gets an AVP has to know it, and doesn't.
fn is_unsupported(avp: &Avp<'_>) -> bool
    ensures { result ≡ is_unsupported (avp_view avp.now) }
{
    avp.mandatory && !is_recognized(avp.key())
}

/// The grammar of what is in an AVP.
fn inner_of(kind: AvpType) -> Option<Grammar>
    ensures { result ≡ inner_of kind }
{
    match kind {
        AvpType::Grouped(grammar) => Some(grammar),
        _ => None,
    }
}

/// The grammar of the group that a grammar has at a key.
fn inner_at(grammar: Grammar, key: AvpKey) -> Option<Grammar>
    ensures { result ≡ inner_at grammar key }
{
    for row in rows_of(grammar) {
        if row.key == key {
            return inner_of(row.kind);
        }
    }
    None
}

/// The first in a group.
#[cycle(unsupported)]
fn first_in_group(
    alloc: Global,
    depth: u32,
    grammar: Grammar,
    group: &Avp<'_>,
) -> Result<Option<Fault>, AllocError>
    ensures { IfOk result (λ fault. option_map fault_view fault
        ≡ first_in_group (unsupported_within depth grammar) (avp_view group.now)
        (avps_of (avp_view group.now).value)) }
{
    let avps = match read_group(alloc, group.text()) {
        Ok(avps) => avps,
        Err(MsgFault::NoMemory) => return Err(AllocError),
        Err(_) => return Ok(None),
    };
    let Some(fault) = unsupported_within(alloc, depth, grammar, &avps)? else {
        return Ok(None);
    };
    Ok(Some(enclosed(alloc, group, fault)?))
}

/// The first in an AVP, by its grammar if it is a group that has one.
#[cycle(unsupported)]
fn first_inside(
    alloc: Global,
    depth: u32,
    grammar: Option<Grammar>,
    avp: &Avp<'_>,
) -> Result<Option<Fault>, AllocError>
    ensures { IfOk result (λ fault. option_map fault_view fault
        ≡ first_inside (unsupported_within depth) (avp_view avp.now) grammar) }
{
    match grammar {
        Some(grammar) => first_in_group(alloc, depth, grammar, avp),
        None => Ok(None),
    }
}

/// An AVP of a grammar, or the first in it.
#[cycle(unsupported)]
fn unsupported_at(
    alloc: Global,
    depth: u32,
    grammar: Grammar,
    avp: &Avp<'_>,
) -> Result<Option<Fault>, AllocError>
    ensures { IfOk result (λ fault. option_map fault_view fault
        ≡ unsupported_at (unsupported_within depth) grammar (avp_view avp.now)) }
{
    if is_unsupported(avp) {
        let refusal = Refusal::base(AVP_UNSUPPORTED);
        return Ok(Some(as_it_came(alloc, avp, refusal)?));
    }
    first_inside(alloc, depth, inner_at(grammar, avp.key()), avp)
}

/// The first of the AVPs of a grammar.
#[cycle(unsupported)]
fn first_unsupported(
    alloc: Global,
    depth: u32,
    grammar: Grammar,
    avps: &[Avp<'_>],
) -> Result<Option<Fault>, AllocError>
    ensures { IfOk result (λ fault. option_map fault_view fault
        ≡ fault_among (unsupported_at (unsupported_within depth) grammar) (avp_views avps.now)) }
{
    for avp in avps {
        let found = unsupported_at(alloc, depth, grammar, avp)?;
        if found.is_some() {
            return Ok(found);
        }
    }
    Ok(None)
}

/// The first of the AVPs of a grammar, with groups that stand so deep: itself as it came, in the groups in which it stands.
#[cycle(unsupported)]
pub fn unsupported_within(
    alloc: Global,
    depth: u32,
    grammar: Grammar,
    avps: &[Avp<'_>],
) -> Result<Option<Fault>, AllocError>
    ensures { IfOk result (λ fault. option_map fault_view fault
        ≡ unsupported_within depth grammar (avp_views avps.now)) }
{
    if depth == 0 {
        return Ok(None);
    }
    first_unsupported(alloc, depth - 1, grammar, avps)
}

/// Whether a request of this header, if it is one that is served, has an AVP with M that isn't recognized, also in the groups that its
/// grammar names (RFC 6733, 4.1): it is to be refused with DIAMETER_AVP_UNSUPPORTED.
#[tactic(auto, unfolding(crate::specs::Unsupported::has_unsupported))]
pub fn has_unsupported(alloc: Global, header: &Header, avps: &[Avp<'_>]) -> Result<bool, AllocError>
    ensures { IfOk result (λ has. has ≡ has_unsupported header.now (avp_views avps.now)) }
{
    match grammar_of(header) {
        Some(grammar) => Ok(unsupported_within(alloc, DEPTH, grammar, avps)?.is_some()),
        None => Ok(false),
    }
}
