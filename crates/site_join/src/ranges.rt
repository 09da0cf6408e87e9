//! The ranges that values keep by their types, as the form of facts has them.
//!
//! The functions do nothing that a caller sees: what they tell a proof is their contracts.
ghost use Rattle.std.specs.Prelude.{◌≡◌, true};
ghost use Rattle.pcrf_values.specs.declared.tag.Tag.{Tag};
ghost use Rattle.lattice_core.specs.SessionFacts.{session_fact};
ghost use Rattle.af_records.specs.RecordFacts.{fact_of};
ghost use Rattle.af_records.specs.declared.fact.AfFact.TheVariants.{Component, Flow};
ghost use Rattle.pcrf_model.specs.Sessions.{Gx, Af};
ghost use Rattle.pcrf_model.specs.Forms.{fits};

use af_records::{AfRequestType, ComponentValue, FlowValue, SessionValue};
use gx_records::OpenRequestType;
use pcrf_model::ranges::{
    note_address, note_apn, note_filters, note_prefix, note_subscribers, note_text,
};
use pcrf_values::Enumerated;

/// A value of a gateway's session fits its field.
pub(crate) fn note_gx_value(value: &SessionValue<Enumerated<OpenRequestType>>)
    ensures { (t : Tag) → fits Gx (session_fact t value.now) ≡ true }
{
    match value {
        SessionValue::Address(address) => note_address(address),
        SessionValue::Apn(apn) => note_apn(apn),
        SessionValue::Subscribers(subscribers) => note_subscribers(subscribers),
        SessionValue::Host(host) => note_text(host),
        SessionValue::Realm(realm) => note_text(realm),
        SessionValue::Last(last) => {
            let _number = last.number();
        }
        SessionValue::Prefix(prefix) => note_prefix(prefix),
    }
}

/// A value of an application function's session fits its field.
pub(crate) fn note_af_value(value: &SessionValue<Enumerated<AfRequestType>>)
    ensures { (t : Tag) → fits Af (session_fact t value.now) ≡ true }
{
    match value {
        SessionValue::Address(address) => note_address(address),
        SessionValue::Apn(apn) => note_apn(apn),
        SessionValue::Subscribers(subscribers) => note_subscribers(subscribers),
        SessionValue::Host(host) => note_text(host),
        SessionValue::Realm(realm) => note_text(realm),
        SessionValue::Last(last) => {
            let _number = last.number();
        }
        SessionValue::Prefix(prefix) => note_prefix(prefix),
    }
}

/// A value of a component fits its field.
pub(crate) fn note_component_value(component: u32, value: &ComponentValue)
    ensures { (t : Tag) → fits Af (fact_of (Component component t value.now)) ≡ true }
{
    match value {
        ComponentValue::MediaType(kind) => {
            let _kind = *kind;
        }
        ComponentValue::Status(status) => {
            let _status = status.number();
        }
        ComponentValue::RateUp(rate) => {
            let _rate = *rate;
        }
        ComponentValue::RateDown(rate) => {
            let _rate = *rate;
        }
    }
}

/// A value of a flow fits its field.
pub(crate) fn note_flow_value(component: u32, flow: u32, value: &FlowValue)
    ensures { (t : Tag) → fits Af (fact_of (Flow component flow t value.now)) ≡ true }
{
    match value {
        FlowValue::Descriptions(filters) => note_filters(filters),
        FlowValue::Usage(usage) => {
            let _usage = usage.number();
        }
        FlowValue::Status(status) => {
            let _status = status.number();
        }
        FlowValue::RateUp(rate) => {
            let _rate = *rate;
        }
        FlowValue::RateDown(rate) => {
            let _rate = *rate;
        }
    }
}
