//! The facts of media components (TS 29.214, 4.4.2): what a description leaves out stays.
ghost use Rattle.std.specs.Prelude.{◌≡◌, ◌++◌, false, OnOk, map, option_map, option_to_list};
ghost use Rattle.std.specs.List.{flat_map};
ghost use Rattle.pcrf_values.specs.Numbers.{flow_status_number};
ghost use Rattle.pcrf_values.specs.Facts.{Field};
ghost use Rattle.pcrf_values.specs.Places.{OfComponent};
ghost use Rattle.pcrf_values.specs.Places as places;
ghost use Rattle.pcrf_values.specs.Values.{Number};
ghost use Rattle.af_records.specs.RecordFacts.{fact_of};
ghost use Rattle.pcrf_model.specs.Making.{component_facts, is_removed};
ghost use Rattle.rx_profile.specs.Numbers.{media_status_number};
ghost use Rattle.rx_profile.specs.Values.{component_value};

use crate::facts::flow::put_flows;
use af_records::{AfFact, ComponentValue};
use pcrf_values::{Enumerated, FlowStatus, Tag};
use rx_profile::{Component, ComponentParts, Flow, MediaStatus, is_removed};
use std::alloc::AllocError;

/// Adds the facts of components.
pub(crate) fn put_components(
    facts: &mut Vec<AfFact>,
    tag: Tag,
    components: &[Component],
) -> Result<(), AllocError>
    ensures { OnOk result (map fact_of facts.new.items
        ≡ map fact_of facts.old.items ++ flat_map (component_facts tag) components.now) }
{
    for component in components {
        put_component(facts, tag, component)?;
    }
    Ok(())
}

/// Adds the facts of a component: that it is removed, or what is said of it and of its flows.
fn put_component(facts: &mut Vec<AfFact>, tag: Tag, component: &Component) -> Result<(), AllocError>
    ensures { OnOk result (map fact_of facts.new.items
        ≡ map fact_of facts.old.items ++ component_facts tag component.now) }
{
    let parts = component.parts();
    if is_removed(parts.status) {
        return put(facts, Some(AfFact::ComponentRemoved(parts.number)));
    }
    put_said(facts, tag, &parts, component.flows())
}

/// Adds what is said of a component that stays, and of its flows.
fn put_said(
    facts: &mut Vec<AfFact>,
    tag: Tag,
    parts: &ComponentParts,
    flows: &[Flow],
) -> Result<(), AllocError>
    requires { is_removed (option_map media_status_number parts.now.status) ≡ false }
    ensures { OnOk result (map fact_of facts.new.items ≡ map fact_of facts.old.items
        ++ component_facts tag (component_value parts.now flows.now)) }
{
    let number = parts.number;
    put(facts, media_type(number, tag, parts.media_type))?;
    put(facts, status(number, tag, open_status(parts.status)))?;
    put(facts, rate_up(number, tag, parts.rates.up))?;
    put(facts, rate_down(number, tag, parts.rates.down))?;
    put_flows(facts, tag, number, flows)
}

/// Adds a fact, if there is one.
pub(crate) fn put(facts: &mut Vec<AfFact>, fact: Option<AfFact>) -> Result<(), AllocError>
    ensures { OnOk result (map fact_of facts.new.items
        ≡ map fact_of facts.old.items ++ option_to_list (option_map fact_of fact)) }
{
    if let Some(fact) = fact {
        facts.push(fact)?;
    }
    Ok(())
}

/// The Flow-Status of what stays, if one is given.
pub(crate) fn open_status(status: Option<MediaStatus>) -> Option<FlowStatus>
    requires { is_removed (option_map media_status_number status) ≡ false }
    ensures { option_map flow_status_number result ≡ option_map media_status_number status }
{
    match status {
        Some(MediaStatus::Open(open)) => Some(open),
        Some(MediaStatus::Removed) | None => None,
    }
}

/// The fact of a Media-Type.
fn media_type(component: u32, tag: Tag, given: Option<u32>) -> Option<AfFact>
    ensures { option_map fact_of result
        ≡ option_map (λ x. Field (OfComponent component places.MediaType) tag (Number x)) given }
{
    Some(AfFact::Component(component, tag, ComponentValue::MediaType(given?)))
}

/// The fact of a component's Flow-Status.
fn status(component: u32, tag: Tag, given: Option<FlowStatus>) -> Option<AfFact>
    ensures { option_map fact_of result ≡ option_map
        (λ x. Field (OfComponent component places.ComponentStatus) tag (Number x))
        (option_map flow_status_number given) }
{
    let status = Enumerated::of(given?);
    Some(AfFact::Component(component, tag, ComponentValue::Status(status)))
}

/// The fact of a component's Max-Requested-Bandwidth-UL.
fn rate_up(component: u32, tag: Tag, given: Option<u32>) -> Option<AfFact>
    ensures { option_map fact_of result ≡ option_map
        (λ x. Field (OfComponent component places.ComponentRateUp) tag (Number x)) given }
{
    Some(AfFact::Component(component, tag, ComponentValue::RateUp(given?)))
}

/// The fact of a component's Max-Requested-Bandwidth-DL.
fn rate_down(component: u32, tag: Tag, given: Option<u32>) -> Option<AfFact>
    ensures { option_map fact_of result ≡ option_map
        (λ x. Field (OfComponent component places.ComponentRateDown) tag (Number x)) given }
{
    Some(AfFact::Component(component, tag, ComponentValue::RateDown(given?)))
}
