//! What facts say of fields: a field by its number, and a value of its kind, read and written.
ghost use Rattle.std.specs.Prelude.{◌≡◌, ◌++◌, ◌∷◌, [], IfOk, OnOk, Some, None};
ghost use Rattle.pcrf_values.specs.Places.{session_field_number, component_field_number, flow_field_number};
ghost use Rattle.fact_codec.specs.Spelling.{filters_bytes, value_bytes, word_bytes};
ghost use Rattle.fact_codec.specs.Reading.{Gives};
ghost use Rattle.fact_codec.specs.Said.{session_said, component_said, flow_said};
ghost use Rattle.fact_codec.specs.Values.{session_says, component_says, flow_says};

use crate::fault::Unread;
use crate::numbers::{byte_at, word_at};
use crate::put_values::{
    put_address, put_filters, put_prefix, put_subscribers, put_text, put_word,
};
use crate::texts::{apn_at, text_at};
use crate::values::{address_at, filters_at, prefix_at, subscribers_at};
use crate::version::{LetterVersion, has_prefixes};
use af_records::{ComponentValue, FlowValue};
use lattice_core::SessionValue;
use pcrf_values::{Enumerated, Enumeration, Filters};
use std::alloc::{AllocError, Global};

/// A value of a field of a session, in whichever kind of session the type of the last request is that.
#[tactic(auto, unfolding(crate::specs::Said::session_said, crate::specs::Said::word_within, crate::specs::Spelling::value_bytes))]
pub(crate) fn session_value_at<E: Enumeration>(
    alloc: Global,
    version: LetterVersion,
    bytes: &[u8],
) -> Result<(SessionValue<Enumerated<E>>, &[u8]), Unread>
    ensures read { Gives (λ x. (session_says x.0, x.1.now)) result
        (session_said version E.LEAST E.MOST bytes.now) }
    ensures spelled { IfOk result (λ x. bytes.now ≡ session_field_number (session_says x.0).0
        ∷ [] ++ value_bytes (session_says x.0).1 ++ x.1.now) }
{
    let (field, rest) = byte_at(bytes)?;
    match field {
        1 => {
            let (address, rest) = address_at(rest)?;
            Ok((SessionValue::Address(address), rest))
        }
        2 => {
            let (apn, rest) = apn_at(alloc, rest)?;
            Ok((SessionValue::Apn(apn), rest))
        }
        3 => {
            let (subscribers, rest) = subscribers_at(alloc, rest)?;
            Ok((SessionValue::Subscribers(subscribers), rest))
        }
        4 => {
            let (host, rest) = text_at(alloc, rest)?;
            Ok((SessionValue::Host(host), rest))
        }
        5 => {
            let (realm, rest) = text_at(alloc, rest)?;
            Ok((SessionValue::Realm(realm), rest))
        }
        6 => {
            let (number, rest) = word_at(rest)?;
            let Some(last) = Enumerated::from_number(number) else {
                return Err(Unread::BadShape);
            };
            Ok((SessionValue::Last(last), rest))
        }
        7 if has_prefixes(version) => match prefix_at(rest) {
            Ok((prefix, rest)) => Ok((SessionValue::Prefix(prefix), rest)),
            Err(fault) => Err(fault),
        },
        _ => Err(Unread::BadShape),
    }
}

/// A value of a field of a component.
#[tactic(auto, unfolding(crate::specs::Said::component_said, crate::specs::Said::word_within, crate::specs::Spelling::value_bytes))]
pub(crate) fn component_value_at(bytes: &[u8]) -> Result<(ComponentValue, &[u8]), Unread>
    ensures read { Gives (λ x. (component_says x.0, x.1.now)) result (component_said bytes.now) }
    ensures spelled { IfOk result (λ x. bytes.now ≡ component_field_number (component_says x.0).0
        ∷ [] ++ value_bytes (component_says x.0).1 ++ x.1.now) }
{
    let (field, rest) = byte_at(bytes)?;
    match field {
        1 => {
            let (kind, rest) = word_at(rest)?;
            Ok((ComponentValue::MediaType(kind), rest))
        }
        2 => {
            let (number, rest) = word_at(rest)?;
            let Some(status) = Enumerated::from_number(number) else {
                return Err(Unread::BadShape);
            };
            Ok((ComponentValue::Status(status), rest))
        }
        3 => {
            let (rate, rest) = word_at(rest)?;
            Ok((ComponentValue::RateUp(rate), rest))
        }
        4 => {
            let (rate, rest) = word_at(rest)?;
            Ok((ComponentValue::RateDown(rate), rest))
        }
        _ => Err(Unread::BadShape),
    }
}

/// A value of a field of a flow.
#[tactic(auto, unfolding(crate::specs::Said::flow_said, crate::specs::Said::word_within, crate::specs::Spelling::value_bytes))]
pub(crate) fn flow_value_at(alloc: Global, bytes: &[u8]) -> Result<(FlowValue, &[u8]), Unread>
    ensures read { Gives (λ x. (flow_says x.0, x.1.now)) result (flow_said bytes.now) }
    ensures spelled { IfOk result (λ x. bytes.now ≡ flow_field_number (flow_says x.0).0
        ∷ [] ++ value_bytes (flow_says x.0).1 ++ x.1.now) }
{
    let (field, rest) = byte_at(bytes)?;
    match field {
        1 => {
            let (filters, rest) = filters_at(alloc, rest)?;
            Ok((FlowValue::Descriptions(filters), rest))
        }
        2 => {
            let (number, rest) = word_at(rest)?;
            let Some(usage) = Enumerated::from_number(number) else {
                return Err(Unread::BadShape);
            };
            Ok((FlowValue::Usage(usage), rest))
        }
        3 => {
            let (number, rest) = word_at(rest)?;
            let Some(status) = Enumerated::from_number(number) else {
                return Err(Unread::BadShape);
            };
            Ok((FlowValue::Status(status), rest))
        }
        4 => {
            let (rate, rest) = word_at(rest)?;
            Ok((FlowValue::RateUp(rate), rest))
        }
        5 => {
            let (rate, rest) = word_at(rest)?;
            Ok((FlowValue::RateDown(rate), rest))
        }
        _ => Err(Unread::BadShape),
    }
}

/// Adds what a field of a session says.
#[tactic(auto, using(crate::proofs::Added::added), unfolding(crate::specs::Spelling::value_bytes))]
fn put_session_said<E: Enumeration>(
    out: &mut Vec<u8>,
    value: &SessionValue<Enumerated<E>>,
) -> Result<(), AllocError>
    ensures { OnOk result (out.new.items
        ≡ out.old.items ++ value_bytes (session_says value.now).1) }
{
    match value {
        SessionValue::Address(address) => put_address(out, address),
        SessionValue::Apn(apn) => put_text(out, apn.as_slice()),
        SessionValue::Subscribers(subscribers) => put_subscribers(out, subscribers),
        SessionValue::Host(host) => put_text(out, host.as_slice()),
        SessionValue::Realm(realm) => put_text(out, realm.as_slice()),
        SessionValue::Last(last) => put_word(out, last.number()),
        SessionValue::Prefix(prefix) => put_prefix(out, prefix),
    }
}

/// The number of a field of a session.
fn session_number<E: Enumeration>(value: &SessionValue<Enumerated<E>>) -> u8
    ensures { result ≡ session_field_number (session_says value.now).0 }
{
    match value {
        SessionValue::Address(_) => 1,
        SessionValue::Apn(_) => 2,
        SessionValue::Subscribers(_) => 3,
        SessionValue::Host(_) => 4,
        SessionValue::Realm(_) => 5,
        SessionValue::Last(_) => 6,
        SessionValue::Prefix(_) => 7,
    }
}

/// Adds a field of a session by its number, and what it says.
#[tactic(auto, using(crate::proofs::Added::added))]
pub(crate) fn put_session_value<E: Enumeration>(
    out: &mut Vec<u8>,
    value: &SessionValue<Enumerated<E>>,
) -> Result<(), AllocError>
    ensures { OnOk result (out.new.items ≡ out.old.items
        ++ (session_field_number (session_says value.now).0 ∷ []
        ++ value_bytes (session_says value.now).1)) }
{
    out.push(session_number(value))?;
    put_session_said(out, value)?;
    Ok(())
}

/// Adds a field of a component by its number, and what it says.
#[tactic(auto, using(crate::proofs::Added::added), unfolding(crate::specs::Spelling::value_bytes))]
pub(crate) fn put_component_value(
    out: &mut Vec<u8>,
    value: &ComponentValue,
) -> Result<(), AllocError>
    ensures { OnOk result (out.new.items ≡ out.old.items
        ++ (component_field_number (component_says value.now).0 ∷ []
        ++ value_bytes (component_says value.now).1)) }
{
    match value {
        ComponentValue::MediaType(kind) => put_numbered(out, 1, *kind),
        ComponentValue::Status(status) => put_numbered(out, 2, status.number()),
        ComponentValue::RateUp(rate) => put_numbered(out, 3, *rate),
        ComponentValue::RateDown(rate) => put_numbered(out, 4, *rate),
    }
}

/// Adds a field by its number, and the number that it says.
#[tactic(auto, using(crate::proofs::Added::added))]
fn put_numbered(out: &mut Vec<u8>, field: u8, number: u32) -> Result<(), AllocError>
    ensures { OnOk result (out.new.items ≡ out.old.items ++ (field ∷ [] ++ word_bytes number)) }
{
    out.push(field)?;
    put_word(out, number)?;
    Ok(())
}

/// Adds the filters of a flow, as a field of it.
#[tactic(auto, using(crate::proofs::Added::added))]
fn put_descriptions(out: &mut Vec<u8>, filters: &Filters) -> Result<(), AllocError>
    ensures { OnOk result (out.new.items ≡ out.old.items ++ (1 ∷ [] ++ filters_bytes filters.now)) }
{
    out.push(1)?;
    put_filters(out, filters)?;
    Ok(())
}

/// Adds a field of a flow by its number, and what it says.
#[tactic(auto, unfolding(crate::specs::Spelling::value_bytes))]
pub(crate) fn put_flow_value(out: &mut Vec<u8>, value: &FlowValue) -> Result<(), AllocError>
    ensures { OnOk result (out.new.items ≡ out.old.items
        ++ (flow_field_number (flow_says value.now).0 ∷ []
        ++ value_bytes (flow_says value.now).1)) }
{
    match value {
        FlowValue::Descriptions(filters) => put_descriptions(out, filters),
        FlowValue::Usage(usage) => put_numbered(out, 2, usage.number()),
        FlowValue::Status(status) => put_numbered(out, 3, status.number()),
        FlowValue::RateUp(rate) => put_numbered(out, 4, *rate),
        FlowValue::RateDown(rate) => put_numbered(out, 5, *rate),
    }
}
