//! Which operations are the same.
ghost use Rattle.std.specs.Prelude.{◌≡◌, ◌↔◌, IsTrue};
ghost use Rattle.site_join.specs.States.{session_of, facts_in};

use af_records::{AfFact, ComponentValue, FlowValue};
use gx_records::{GxFact, SessionValue};
use pcrf_values::{Ranked, same};
use site_join::{Operation, SessionFacts};

/// Both lists have the same operations in the same order.
pub(crate) fn same_operations(ours: &[Operation], theirs: &[Operation]) -> bool
    ensures { IsTrue result ↔ (ours.now ≡ theirs.now) }
{
    let mut rest = theirs;
    for operation in ours {
        let Some((first, others)) = rest.split_first() else {
            return false;
        };
        if !same_operation(operation, first) {
            return false;
        }
        rest = others;
    }
    rest.is_empty()
}

/// Both are the same operation.
fn same_operation(ours: &Operation, theirs: &Operation) -> bool
    ensures { IsTrue result ↔ (ours.now ≡ theirs.now) }
{
    ours.counter() == theirs.counter()
        && ours.site() == theirs.site()
        && ours.number() == theirs.number()
        && same_session_facts(ours.facts(), theirs.facts())
}

/// Both are the same facts on the same session.
#[tactic(auto, using(crate::proofs::SameFacts::same_gx_facts, crate::proofs::SameFacts::same_af_facts))]
fn same_session_facts(ours: &SessionFacts, theirs: &SessionFacts) -> bool
    ensures { IsTrue result ↔ ((session_of ours.now ≡ session_of theirs.now)
        × (facts_in ours.now ≡ facts_in theirs.now)) }
{
    match (ours, theirs) {
        (SessionFacts::Gx(id, facts), SessionFacts::Gx(other_id, others)) => {
            same(id, other_id) && same_gx(facts.as_slice(), others.as_slice())
        }
        (SessionFacts::Af(id, facts), SessionFacts::Af(other_id, others)) => {
            same(id, other_id) && same_af(facts.as_slice(), others.as_slice())
        }
        _ => false,
    }
}

/// Both lists have the same facts in the same order.
fn same_gx(ours: &[GxFact], theirs: &[GxFact]) -> bool
    ensures { IsTrue result ↔ (ours.now ≡ theirs.now) }
{
    let mut rest = theirs;
    for fact in ours {
        let Some((first, others)) = rest.split_first() else {
            return false;
        };
        if !same_gx_fact(fact, first) {
            return false;
        }
        rest = others;
    }
    rest.is_empty()
}

/// Both lists have the same facts in the same order.
fn same_af(ours: &[AfFact], theirs: &[AfFact]) -> bool
    ensures { IsTrue result ↔ (ours.now ≡ theirs.now) }
{
    let mut rest = theirs;
    for fact in ours {
        let Some((first, others)) = rest.split_first() else {
            return false;
        };
        if !same_af_fact(fact, first) {
            return false;
        }
        rest = others;
    }
    rest.is_empty()
}

/// Both are the same fact.
fn same_gx_fact(ours: &GxFact, theirs: &GxFact) -> bool
    ensures { IsTrue result ↔ (ours.now ≡ theirs.now) }
{
    match (ours, theirs) {
        (GxFact::End, GxFact::End) => true,
        (GxFact::Field(tag, value), GxFact::Field(other_tag, other)) => {
            same(tag, other_tag) && same_value(value, other)
        }
        (GxFact::Told(tag, name, rule), GxFact::Told(other_tag, other_name, other)) => {
            same(tag, other_tag) && same(name, other_name) && same(rule, other)
        }
        _ => false,
    }
}

/// Both are the same fact.
fn same_af_fact(ours: &AfFact, theirs: &AfFact) -> bool
    ensures { IsTrue result ↔ (ours.now ≡ theirs.now) }
{
    match (ours, theirs) {
        (AfFact::End, AfFact::End) => true,
        (AfFact::Aborted, AfFact::Aborted) => true,
        (AfFact::ComponentRemoved(component), AfFact::ComponentRemoved(other)) => {
            *component == *other
        }
        (AfFact::FlowRemoved(component, flow), AfFact::FlowRemoved(other, other_flow)) => {
            *component == *other && *flow == *other_flow
        }
        (AfFact::Session(tag, value), AfFact::Session(other_tag, other)) => {
            same(tag, other_tag) && same_value(value, other)
        }
        (AfFact::Component(at, tag, value), AfFact::Component(other_at, other_tag, other)) => {
            *at == *other_at && same(tag, other_tag) && same_component(value, other)
        }
        (AfFact::Flow(at, flow, tag, value), AfFact::Flow(other_at, beside, other_tag, other)) => {
            *at == *other_at && *flow == *beside && same(tag, other_tag) && same_flow(value, other)
        }
        _ => false,
    }
}

/// Both are the same value of the same field of a session.
fn same_value<L: Ranked>(ours: &SessionValue<L>, theirs: &SessionValue<L>) -> bool
    ensures { IsTrue result ↔ (ours.now ≡ theirs.now) }
{
    match (ours, theirs) {
        (SessionValue::Address(ours), SessionValue::Address(theirs)) => same(ours, theirs),
        (SessionValue::Apn(ours), SessionValue::Apn(theirs)) => same(ours, theirs),
        (SessionValue::Subscribers(ours), SessionValue::Subscribers(theirs)) => same(ours, theirs),
        (SessionValue::Host(ours), SessionValue::Host(theirs)) => same(ours, theirs),
        (SessionValue::Realm(ours), SessionValue::Realm(theirs)) => same(ours, theirs),
        (SessionValue::Last(ours), SessionValue::Last(theirs)) => same(ours, theirs),
        (SessionValue::Prefix(ours), SessionValue::Prefix(theirs)) => same(ours, theirs),
        _ => false,
    }
}

/// Both are the same value of the same field of a component.
fn same_component(ours: &ComponentValue, theirs: &ComponentValue) -> bool
    ensures { IsTrue result ↔ (ours.now ≡ theirs.now) }
{
    match (ours, theirs) {
        (ComponentValue::MediaType(ours), ComponentValue::MediaType(theirs)) => *ours == *theirs,
        (ComponentValue::Status(ours), ComponentValue::Status(theirs)) => same(ours, theirs),
        (ComponentValue::RateUp(ours), ComponentValue::RateUp(theirs)) => *ours == *theirs,
        (ComponentValue::RateDown(ours), ComponentValue::RateDown(theirs)) => *ours == *theirs,
        _ => false,
    }
}

/// Both are the same value of the same field of a flow.
fn same_flow(ours: &FlowValue, theirs: &FlowValue) -> bool
    ensures { IsTrue result ↔ (ours.now ≡ theirs.now) }
{
    match (ours, theirs) {
        (FlowValue::Descriptions(ours), FlowValue::Descriptions(theirs)) => same(ours, theirs),
        (FlowValue::Usage(ours), FlowValue::Usage(theirs)) => same(ours, theirs),
        (FlowValue::Status(ours), FlowValue::Status(theirs)) => same(ours, theirs),
        (FlowValue::RateUp(ours), FlowValue::RateUp(theirs)) => *ours == *theirs,
        (FlowValue::RateDown(ours), FlowValue::RateDown(theirs)) => *ours == *theirs,
        _ => false,
    }
}
