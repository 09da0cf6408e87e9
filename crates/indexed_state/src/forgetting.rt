//! What an index no longer lists: sessions under addresses and prefixes that they show no longer, gateways' sessions under
//! subscribers that they don't show, and the session of an operation under what the operation gives it and it doesn't show, being
//! ended, or showing what another operation gave it.
ghost use Rattle.std.specs.Prelude.{◌≡◌, List, Some, true};
ghost use Rattle.std.specs.Option.{option_copied};
ghost use Rattle.pcrf_model.specs.Holdings.{SessionFact, facts_on};
ghost use Rattle.pcrf_model.specs.Sessions.{gx, af};
ghost use Rattle.pcrf_model.specs.Views.{View, view};
ghost use Rattle.pcrf_values.specs.Prefixes.{Ipv6Prefix as PrefixValue};
ghost use Rattle.bind_index.specs.Index.{Covers};
ghost use Rattle.site_join.specs.States.{record_facts, session_of};
ghost use Rattle.bind_index.specs.Networks.{network_of};
ghost use Rattle.indexed_state.specs.Indexed.{IsAddressOf, IsPrefixOf, IsReached};

use crate::reached::{Reached, address_in, call_address_in, call_prefix_in, prefix_in};
use af_records::{AfFact, AfRec};
use bind_index::{Index, network_of};
use gx_records::{GxFact, GxRec};
use lattice_core::SessionValue;
use pcrf_values::{AfSid, GxSid, Ipv6Prefix, Ranked, Subscriber};
use site_join::{SessionFacts, State};
use std::alloc::{AllocError, Global};
use std::net::Ipv4Addr;

/// Takes the session of these facts out from under the address and the network that it showed, where it shows these no longer:
/// the session is ended, or moved to others.
pub(crate) fn forget_moved(
    index: &mut Index,
    facts: &SessionFacts,
    before: &Reached,
    after: &Reached,
)
    ensures { (v : View) → IsReached v (session_of facts.now) after.now
        → Covers v index.old → Covers v index.new }
{
    match facts {
        SessionFacts::Gx(id, _) => forget_gateway(index, id, before, after),
        SessionFacts::Af(id, _) => forget_call(index, id, before, after),
    }
}

/// So with a gateway's session.
pub(crate) fn forget_gateway(index: &mut Index, id: &GxSid, before: &Reached, after: &Reached)
    ensures { (v : View) → IsReached v (gx id.now) after.now
        → Covers v index.old → Covers v index.new }
{
    forget_gateway_at(index, id, before.address, after.address);
    forget_gateway_by(index, id, before.prefix, after.prefix);
}

/// Takes a gateway's session out from under an address that it shows no longer.
fn forget_gateway_at(
    index: &mut Index,
    id: &GxSid,
    before: Option<Ipv4Addr>,
    after: Option<Ipv4Addr>,
)
    ensures { (v : View) → IsAddressOf v (gx id.now) after
        → Covers v index.old → Covers v index.new }
{
    let Some(address) = before else {
        return;
    };
    if shows(after, address) {
        return;
    }
    index.forget_gateway_at(address, id);
}

/// And out from under the network of a prefix that it shows no longer.
fn forget_gateway_by(
    index: &mut Index,
    id: &GxSid,
    before: Option<Ipv6Prefix>,
    after: Option<Ipv6Prefix>,
)
    ensures { (v : View) → IsPrefixOf v (gx id.now) after
        → Covers v index.old → Covers v index.new }
{
    let Some(prefix) = before else {
        return;
    };
    let network = network_of(&prefix);
    if is_in(after, &network) {
        return;
    }
    index.forget_gateway_in(&network, id);
}

/// And with an application function's.
pub(crate) fn forget_call(index: &mut Index, id: &AfSid, before: &Reached, after: &Reached)
    ensures { (v : View) → IsReached v (af id.now) after.now
        → Covers v index.old → Covers v index.new }
{
    forget_call_at(index, id, before.address, after.address);
    forget_call_by(index, id, before.prefix, after.prefix);
}

/// Takes an application function's session out from under an address that it shows no longer.
fn forget_call_at(index: &mut Index, id: &AfSid, before: Option<Ipv4Addr>, after: Option<Ipv4Addr>)
    ensures { (v : View) → IsAddressOf v (af id.now) after
        → Covers v index.old → Covers v index.new }
{
    let Some(address) = before else {
        return;
    };
    if shows(after, address) {
        return;
    }
    index.forget_call_at(address, id);
}

/// And out from under the network of a prefix that it shows no longer.
fn forget_call_by(
    index: &mut Index,
    id: &AfSid,
    before: Option<Ipv6Prefix>,
    after: Option<Ipv6Prefix>,
)
    ensures { (v : View) → IsPrefixOf v (af id.now) after
        → Covers v index.old → Covers v index.new }
{
    let Some(prefix) = before else {
        return;
    };
    let network = network_of(&prefix);
    if is_in(after, &network) {
        return;
    }
    index.forget_call_in(&network, id);
}

/// The prefix that is shown is of this network.
fn is_in(shown: Option<Ipv6Prefix>, network: &Ipv6Prefix) -> bool
    ensures { (p : PrefixValue) → shown ≡ Some p → network_of p ≡ network.now → result ≡ true }
{
    match shown {
        Some(prefix) => network_of(&prefix).cmp(network).is_eq(),
        None => false,
    }
}

/// The address that is shown is this one.
fn shows(shown: Option<Ipv4Addr>, address: Ipv4Addr) -> bool
    ensures { (shown ≡ Some address) → result ≡ true }
{
    match shown {
        Some(other) => other.cmp(&address).is_eq(),
        None => false,
    }
}

/// The subscribers that the session of these facts shows, where it is of a gateway and may show others or none with the
/// facts; none else.
pub(crate) fn subscribers_before(
    alloc: Global,
    state: &State,
    facts: &SessionFacts,
) -> Result<Vec<Subscriber>, AllocError> {
    let SessionFacts::Gx(id, facts) = facts else {
        return Ok(Vec::new(alloc));
    };
    if !may_move(facts.as_slice()) {
        return Ok(Vec::new(alloc));
    }
    subscribers_in(alloc, state.gx(id))
}

/// One of these facts ends the session, or gives it subscribers.
fn may_move(facts: &[GxFact]) -> bool {
    facts.iter().any(|fact| match fact {
        GxFact::End => true,
        GxFact::Field(_, SessionValue::Subscribers(_)) => true,
        _ => false,
    })
}

/// The subscribers that a gateway's session of this record shows, none where there is no record.
fn subscribers_in(alloc: Global, known: Option<&GxRec>) -> Result<Vec<Subscriber>, AllocError> {
    let Some(known) = known else {
        return Ok(Vec::new(alloc));
    };
    let Some((_, subscribers)) = known.subscribers() else {
        return Ok(Vec::new(alloc));
    };
    Subscriber::try_copy_slice(alloc, subscribers.as_slice())
}

/// Takes a gateway's session out from under the subscribers that the record that stood shows and the one that is known now
/// doesn't.
pub(crate) fn forget_stood(
    index: &mut Index,
    id: &GxSid,
    stood: Option<&GxRec>,
    known: Option<&GxRec>,
)
    ensures { (facts : List SessionFact)
        → record_facts (option_copied known.entry) ≡ facts_on facts (gx id.now)
        → Covers (view facts) index.old → Covers (view facts) index.new }
{
    let Some(stood) = stood else {
        return;
    };
    let Some((_, subscribers)) = stood.subscribers() else {
        return;
    };
    index.forget_unshown(id, subscribers.as_slice(), known);
}

/// Takes the session of these facts out from under what they give it and from under these subscribers, where the state doesn't
/// show that of it.
pub(crate) fn forget_given(
    index: &mut Index,
    state: &State,
    facts: &SessionFacts,
    subscribers: &[Subscriber],
)
    ensures { Covers (view state.now.facts) index.old → Covers (view state.now.facts) index.new }
{
    match facts {
        SessionFacts::Gx(id, facts) => {
            let known = state.gx(id);
            index.forget_unshown(id, subscribers, known);
            forget_given_gateway(index, id, facts.as_slice(), known);
        }
        SessionFacts::Af(id, facts) => {
            let known = state.af(id);
            forget_given_call(index, id, facts.as_slice(), known);
        }
    }
}

/// So with what these facts give a gateway's session.
fn forget_given_gateway(index: &mut Index, id: &GxSid, given: &[GxFact], known: Option<&GxRec>)
    ensures { (facts : List SessionFact)
        → record_facts (option_copied known.entry) ≡ facts_on facts (gx id.now)
        → Covers (view facts) index.old → Covers (view facts) index.new }
{
    for fact in given {
        forget_gateway_fact(index, id, fact, known);
    }
}

/// And with what one of them gives it.
fn forget_gateway_fact(index: &mut Index, id: &GxSid, fact: &GxFact, known: Option<&GxRec>)
    ensures { (facts : List SessionFact)
        → record_facts (option_copied known.entry) ≡ facts_on facts (gx id.now)
        → Covers (view facts) index.old → Covers (view facts) index.new }
{
    match fact {
        GxFact::Field(_, SessionValue::Address(address)) => {
            forget_gateway_at(index, id, Some(*address), address_in(known));
        }
        GxFact::Field(_, SessionValue::Prefix(prefix)) => {
            forget_gateway_by(index, id, Some(*prefix), prefix_in(known));
        }
        GxFact::Field(_, SessionValue::Subscribers(subscribers)) => {
            index.forget_unshown(id, subscribers.as_slice(), known);
        }
        _ => {}
    }
}

/// So with what these facts give an application function's session.
fn forget_given_call(index: &mut Index, id: &AfSid, given: &[AfFact], known: Option<&AfRec>)
    ensures { (facts : List SessionFact)
        → record_facts (option_copied known.entry) ≡ facts_on facts (af id.now)
        → Covers (view facts) index.old → Covers (view facts) index.new }
{
    for fact in given {
        forget_call_fact(index, id, fact, known);
    }
}

/// And with what one of them gives it.
fn forget_call_fact(index: &mut Index, id: &AfSid, fact: &AfFact, known: Option<&AfRec>)
    ensures { (facts : List SessionFact)
        → record_facts (option_copied known.entry) ≡ facts_on facts (af id.now)
        → Covers (view facts) index.old → Covers (view facts) index.new }
{
    match fact {
        AfFact::Session(_, SessionValue::Address(address)) => {
            forget_call_at(index, id, Some(*address), call_address_in(known));
        }
        AfFact::Session(_, SessionValue::Prefix(prefix)) => {
            forget_call_by(index, id, Some(*prefix), call_prefix_in(known));
        }
        _ => {}
    }
}
