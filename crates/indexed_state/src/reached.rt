//! Where sessions show that their users are reached: at an address, by a prefix, or by both.
ghost use Rattle.std.specs.Prelude.{◌≡◌, ℕ, List};
ghost use Rattle.std.specs.Option.{option_copied};
ghost use Rattle.pcrf_model.specs.Holdings.{SessionFact, facts_on};
ghost use Rattle.pcrf_model.specs.Sessions.{gx, af};
ghost use Rattle.pcrf_model.specs.Views.{view};
ghost use Rattle.site_join.specs.States.{record_facts, session_of};
ghost use Rattle.indexed_state.specs.Indexed.{IsAddressOf, IsPrefixOf, IsReached};

use af_records::AfRec;
use gx_records::GxRec;
use pcrf_values::{AfSid, GxSid, Ipv6Prefix};
use site_join::{SessionFacts, State};
use std::net::Ipv4Addr;

/// Where the user of a session is reached.
#[derive(Clone, Copy)]
pub(crate) struct Reached {
    /// The address that the session shows, if it shows one.
    pub(crate) address: Option<Ipv4Addr>,
    /// The prefix that it shows, if it shows one.
    pub(crate) prefix: Option<Ipv6Prefix>,
}

/// Where the user of the session of these facts is reached.
pub(crate) fn reached_by(state: &State, facts: &SessionFacts) -> Reached
    ensures { IsReached (view state.now.facts) (session_of facts.now) result }
{
    match facts {
        SessionFacts::Gx(id, _) => gateway_reached(state, id),
        SessionFacts::Af(id, _) => call_reached(state, id),
    }
}

/// Where that of a gateway's session is.
fn gateway_reached(state: &State, id: &GxSid) -> Reached
    ensures { IsReached (view state.now.facts) (gx id.now) result }
{
    gateway_reached_in(state.gx(id))
}

/// Where that of a gateway's session of this record is, nowhere where there is no record.
pub(crate) fn gateway_reached_in(known: Option<&GxRec>) -> Reached
    ensures { (facts : List SessionFact) (id : List ℕ)
        → record_facts (option_copied known.entry) ≡ facts_on facts (gx id)
        → IsReached (view facts) (gx id) result }
{
    Reached {
        address: address_in(known),
        prefix: prefix_in(known),
    }
}

/// The address that a gateway's session of this record shows, none where there is no record.
pub(crate) fn address_in(known: Option<&GxRec>) -> Option<Ipv4Addr>
    ensures { (facts : List SessionFact) (id : List ℕ)
        → record_facts (option_copied known.entry) ≡ facts_on facts (gx id)
        → IsAddressOf (view facts) (gx id) result }
{
    let Some(known) = known else {
        return None;
    };
    let Some((_, address)) = known.address() else {
        return None;
    };
    Some(*address)
}

/// The prefix that a gateway's session of this record shows, none where there is no record.
pub(crate) fn prefix_in(known: Option<&GxRec>) -> Option<Ipv6Prefix>
    ensures { (facts : List SessionFact) (id : List ℕ)
        → record_facts (option_copied known.entry) ≡ facts_on facts (gx id)
        → IsPrefixOf (view facts) (gx id) result }
{
    let Some(known) = known else {
        return None;
    };
    let Some((_, prefix)) = known.prefix() else {
        return None;
    };
    Some(*prefix)
}

/// Where the user of an application function's session is reached.
fn call_reached(state: &State, id: &AfSid) -> Reached
    ensures { IsReached (view state.now.facts) (af id.now) result }
{
    call_reached_in(state.af(id))
}

/// Where that of an application function's session of this record is, nowhere where there is no record.
pub(crate) fn call_reached_in(known: Option<&AfRec>) -> Reached
    ensures { (facts : List SessionFact) (id : List ℕ)
        → record_facts (option_copied known.entry) ≡ facts_on facts (af id)
        → IsReached (view facts) (af id) result }
{
    Reached {
        address: call_address_in(known),
        prefix: call_prefix_in(known),
    }
}

/// The address that an application function's session of this record shows, none where there is no record.
pub(crate) fn call_address_in(known: Option<&AfRec>) -> Option<Ipv4Addr>
    ensures { (facts : List SessionFact) (id : List ℕ)
        → record_facts (option_copied known.entry) ≡ facts_on facts (af id)
        → IsAddressOf (view facts) (af id) result }
{
    let Some(known) = known else {
        return None;
    };
    let Some((_, address)) = known.address() else {
        return None;
    };
    Some(*address)
}

/// The prefix that an application function's session of this record shows, none where there is no record.
pub(crate) fn call_prefix_in(known: Option<&AfRec>) -> Option<Ipv6Prefix>
    ensures { (facts : List SessionFact) (id : List ℕ)
        → record_facts (option_copied known.entry) ≡ facts_on facts (af id)
        → IsPrefixOf (view facts) (af id) result }
{
    let Some(known) = known else {
        return None;
    };
    let Some((_, prefix)) = known.prefix() else {
        return None;
    };
    Some(*prefix)
}
