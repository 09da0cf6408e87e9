//! The form of requests, which they keep by their types.
//!
//! The functions do nothing that a caller sees: what they tell a proof is their contracts.
ghost use Rattle.std.specs.Prelude.{◌≡◌, map, option_copied, option_map, true};
ghost use Rattle.std.specs.List.{list_all};
ghost use Rattle.std.specs.Net.Addr.{ipv4_octets};
ghost use Rattle.pcrf_model.specs.Requests as request;
ghost use Rattle.pcrf_model.specs.Sessions.{Kind};
ghost use Rattle.pcrf_model.specs.Forms.{are_apart, are_filters, are_subscribers, is_address, is_apn, is_component, is_flow, is_none_or, is_origin, is_prefix, is_request, is_unsigned, is_user};
ghost use Rattle.gx_profile.specs.Requests.{ccr_view};
ghost use Rattle.rx_profile.specs.Requests.{aar_view};
ghost use Rattle.rx_profile.specs.Services.{component_numbers};
ghost use Rattle.rx_profile.specs.Terminations.{str_view};

use dia_base::Origin;
use gx_profile::Ccr;
use pcrf_model::ranges::{note_address, note_apn, note_prefix, note_subscribers, note_text};
use pcrf_values::{Apn, Ipv6Prefix, PermitFilters, SessionId, Subscribers};
use rx_profile::{Aar, Component, Components, Flow, Str};
use std::net::Ipv4Addr;

/// A credit control request has the form.
pub fn note_ccr(ccr: &Ccr)
    ensures { is_request (request.Ccr (ccr_view ccr.now)) ≡ true }
{
    note_origin(ccr.session.id(), &ccr.origin);
    note_user(ccr.address, ccr.prefix, &ccr.apn, &ccr.subscribers);
    note_unsigned(ccr.number);
}

/// An AA request has the form.
pub fn note_aar(aar: &Aar)
    ensures { is_request (request.Aar (aar_view aar.now)) ≡ true }
{
    note_origin(aar.session.id(), &aar.origin);
    note_user(aar.address, aar.prefix, &aar.apn, &aar.subscribers);
    note_components(&aar.components);
}

/// A session termination request has the form.
pub fn note_str(call: &Str)
    ensures { is_request (request.Str (str_view call.now)) ≡ true }
{
    note_origin(call.session.id(), &call.origin);
}

/// A Session-Id and a client are texts.
fn note_origin(session: &SessionId, origin: &Origin)
    ensures { is_origin session.now origin.now.host origin.now.realm ≡ true }
{
    note_text(session);
    note_text(&origin.host);
    note_text(&origin.realm);
}

/// What is given of whom a session serves is within its range.
fn note_user(
    address: Option<Ipv4Addr>,
    prefix: Option<Ipv6Prefix>,
    apn: &Option<Apn>,
    subscribers: &Option<Subscribers>,
)
    ensures { (k : Kind) → is_user k (record {
      address = option_map ipv4_octets address;
      prefix = prefix;
      apn = apn.now;
      subscribers = subscribers.now;
    }) ≡ true }
{
    note_address_given(address);
    note_prefix_given(prefix);
    note_apn_given(apn);
    note_subscribers_given(subscribers);
}

/// An address, if it is given.
fn note_address_given(address: Option<Ipv4Addr>)
    ensures { is_none_or is_address (option_map ipv4_octets address) ≡ true }
{
    if let Some(address) = address {
        note_address(&address);
    }
}

/// A prefix, if it is given.
fn note_prefix_given(prefix: Option<Ipv6Prefix>)
    ensures { is_none_or is_prefix prefix ≡ true }
{
    if let Some(prefix) = prefix {
        note_prefix(&prefix);
    }
}

/// An access point name, if it is given.
fn note_apn_given(apn: &Option<Apn>)
    ensures { is_none_or is_apn apn.now ≡ true }
{
    if let Some(apn) = apn {
        note_apn(apn);
    }
}

/// Subscribers, if any are given.
fn note_subscribers_given(subscribers: &Option<Subscribers>)
    ensures { is_none_or are_subscribers subscribers.now ≡ true }
{
    if let Some(subscribers) = subscribers {
        note_subscribers(subscribers);
    }
}

/// A number has 32 bits.
fn note_unsigned(number: u32)
    ensures { is_unsigned number ≡ true }
{
    let _ = number;
}

/// So has one that is given.
fn note_given(number: Option<u32>)
    ensures { is_none_or is_unsigned number ≡ true }
{
    if let Some(number) = number {
        note_unsigned(number);
    }
}

/// Filters that permit are one or two, each a text.
fn note_permit_filters(filters: &PermitFilters)
    ensures { are_filters filters.now ≡ true }
{
    for filter in filters.as_slice() {
        note_text(filter.text());
    }
}

/// So are those that are given.
fn note_filters_given(filters: Option<&PermitFilters>)
    ensures { is_none_or are_filters (option_copied filters.entry) ≡ true }
{
    if let Some(filters) = filters {
        note_permit_filters(filters);
    }
}

/// What is said of a flow is within its range.
fn note_flow(flow: &Flow)
    ensures { is_flow flow.now ≡ true }
{
    let parts = flow.parts();
    note_unsigned(parts.number);
    note_filters_given(flow.filters());
    note_given(parts.rates.up);
    note_given(parts.rates.down);
}

/// So is what is said of each of some flows.
fn note_flows(flows: &[Flow])
    ensures { list_all is_flow flows.now ≡ true }
{
    for flow in flows {
        note_flow(flow);
    }
}

/// What is said of a component and of its flows is within its range, and the flows have numbers of their own.
fn note_component(component: &Component)
    ensures { is_component component.now ≡ true }
{
    let parts = component.parts();
    note_unsigned(parts.number);
    note_given(parts.media_type);
    note_given(parts.rates.up);
    note_given(parts.rates.down);
    note_flows(component.flows());
}

/// So are the components of a request.
fn note_components(components: &Components)
    ensures each { list_all is_component components.now ≡ true }
    ensures apart { are_apart (component_numbers components.now) ≡ true }
{
    for component in components.as_slice() {
        note_component(component);
    }
}
