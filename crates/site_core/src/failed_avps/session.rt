//! Session-Ids that aren't of their type.
ghost use Rattle.std.specs.Prelude.{◌≡◌, IfOk, option_copied, option_map};
ghost use Rattle.dia_codec.specs.Spelling.{avp_view, avp_views};
ghost use Rattle.site_core.specs.Faults.{fault_view};
ghost use Rattle.site_core.specs.SessionIds.{has_ill_formed_session, ill_formed_by, ill_formed_session, lone_session, names_session, session_fault};

use crate::failed_avps::fault::{Fault, as_it_came};
use crate::failed_avps::grammar::Grammar;
use crate::failed_avps::requests::grammar_of;
use crate::session_ids::is_utf8;
use dia_base::codes::avps::SESSION_ID;
use dia_base::codes::results::INVALID_AVP_VALUE;
use dia_base::{Refusal, base_key, count_of, first_with};
use dia_codec::{Avp, Header};
use std::alloc::{AllocError, Global};

/// Whether requests of a grammar have a Session-Id.
fn names_session(grammar: Grammar) -> bool
    ensures { result ≡ names_session grammar }
{
    match grammar {
        Grammar::CreditControl | Grammar::Authorization | Grammar::SessionTermination => true,
        _ => false,
    }
}

/// The Session-Id of AVPs that have one alone.
fn lone_session<'a, 'f>(avps: &'a [Avp<'f>]) -> Option<&'a Avp<'f>>
    ensures { option_map avp_view (option_copied result) ≡ lone_session (avp_views avps.now) }
{
    if count_of(avps, base_key(SESSION_ID)) != 1 {
        return None;
    }
    first_with(avps, base_key(SESSION_ID))
}

/// The Session-Id of a request with this grammar, where it isn't UTF-8.
fn ill_formed_session<'a, 'f>(grammar: Grammar, avps: &'a [Avp<'f>]) -> Option<&'a Avp<'f>>
    ensures { option_map avp_view (option_copied result)
        ≡ ill_formed_session grammar (avp_views avps.now) }
{
    if !names_session(grammar) {
        return None;
    }
    let session = lone_session(avps)?;
    if is_utf8(session.text()) {
        return None;
    }
    Some(session)
}

/// What is at fault of the Session-Id of a request with this grammar by its type alone.
pub fn session_fault(
    alloc: Global,
    grammar: Grammar,
    avps: &[Avp<'_>],
) -> Result<Option<Fault>, AllocError>
    ensures { IfOk result (λ fault. option_map fault_view fault
        ≡ session_fault grammar (avp_views avps.now)) }
{
    let Some(session) = ill_formed_session(grammar, avps) else {
        return Ok(None);
    };
    let refusal = Refusal::base(INVALID_AVP_VALUE);
    Ok(Some(as_it_came(alloc, session, refusal)?))
}

/// Whether a request of this header, if it is one that is served, has one Session-Id alone, and that isn't UTF-8 (RFC 6733, 4.3.1 and
/// 8.8): it is to be refused with DIAMETER_INVALID_AVP_VALUE.
#[tactic(auto, unfolding(crate::specs::SessionIds::has_ill_formed_session))]
pub fn has_ill_formed_session(header: &Header, avps: &[Avp<'_>]) -> bool
    ensures { result ≡ has_ill_formed_session header.now (avp_views avps.now) }
{
    match grammar_of(header) {
        Some(grammar) => match ill_formed_session(grammar, avps) {
            Some(_) => true,
            None => false,
        },
        None => false,
    }
}
