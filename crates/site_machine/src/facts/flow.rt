//! The facts of flows (TS 29.214, 4.4.2): what a description leaves out stays.
ghost use Rattle.std.specs.Prelude.{◌≡◌, ◌++◌, false, IfOk, OnOk, map, option_map, option_copied};
ghost use Rattle.std.specs.List.{flat_map};
ghost use Rattle.pcrf_values.specs.Numbers.{flow_status_number, flow_usage_number};
ghost use Rattle.pcrf_values.specs.Facts.{Field};
ghost use Rattle.pcrf_values.specs.Places.{OfFlow};
ghost use Rattle.pcrf_values.specs.Places as places;
ghost use Rattle.pcrf_values.specs.Values.{Number, Filters};
ghost use Rattle.af_records.specs.RecordFacts.{fact_of};
ghost use Rattle.pcrf_model.specs.Making.{flow_facts, is_removed};
ghost use Rattle.rx_profile.specs.Numbers.{media_status_number};
ghost use Rattle.rx_profile.specs.Values.{flow_value};

use crate::facts::component::{open_status, put};
use af_records::{AfFact, FlowValue};
use pcrf_values::{Enumerated, FlowStatus, FlowUsage, PermitFilters, Tag, texts_of};
use rx_profile::{Flow, FlowParts, is_removed};
use std::alloc::{AllocError, Global};

/// Which flow a fact is of: the Media-Component-Number and the Flow-Number.
type Numbers = (u32, u32);

/// Adds the facts of a component's flows.
pub(crate) fn put_flows(
    facts: &mut Vec<AfFact>,
    tag: Tag,
    component: u32,
    flows: &[Flow],
) -> Result<(), AllocError>
    ensures { OnOk result (map fact_of facts.new.items
        ≡ map fact_of facts.old.items ++ flat_map (flow_facts component tag) flows.now) }
{
    for flow in flows {
        put_flow(facts, tag, component, flow)?;
    }
    Ok(())
}

/// Adds the facts of a flow: that it is removed, or what is said of it.
fn put_flow(
    facts: &mut Vec<AfFact>,
    tag: Tag,
    component: u32,
    flow: &Flow,
) -> Result<(), AllocError>
    ensures { OnOk result (map fact_of facts.new.items
        ≡ map fact_of facts.old.items ++ flow_facts component tag flow.now) }
{
    let parts = flow.parts();
    if is_removed(parts.status) {
        return put(facts, Some(AfFact::FlowRemoved(component, parts.number)));
    }
    put_said(facts, tag, component, &parts, flow.filters())
}

/// Adds what is said of a flow that stays.
fn put_said(
    facts: &mut Vec<AfFact>,
    tag: Tag,
    component: u32,
    parts: &FlowParts,
    filters: Option<&PermitFilters>,
) -> Result<(), AllocError>
    requires { is_removed (option_map media_status_number parts.now.status) ≡ false }
    ensures { OnOk result (map fact_of facts.new.items ≡ map fact_of facts.old.items
        ++ flow_facts component tag (flow_value parts.now (option_copied filters.entry))) }
{
    let numbers = (component, parts.number);
    let alloc = *facts.allocator();
    put(facts, descriptions(alloc, numbers, tag, filters)?)?;
    put(facts, usage(numbers, tag, parts.usage))?;
    put(facts, status(numbers, tag, open_status(parts.status)))?;
    put(facts, rate_up(numbers, tag, parts.rates.up))?;
    put(facts, rate_down(numbers, tag, parts.rates.down))
}

/// The fact of the Flow-Descriptions.
fn descriptions(
    alloc: Global,
    flow: Numbers,
    tag: Tag,
    given: Option<&PermitFilters>,
) -> Result<Option<AfFact>, AllocError>
    ensures { IfOk result (λ fact. option_map fact_of fact ≡ option_map
        (λ x. Field (OfFlow flow.0 flow.1 places.FlowDescriptions) tag (Filters x))
        (option_copied given.entry)) }
{
    let Some(given) = given else {
        return Ok(None);
    };
    let filters = texts_of(alloc, given)?;
    Ok(Some(AfFact::Flow(flow.0, flow.1, tag, FlowValue::Descriptions(filters))))
}

/// The fact of a Flow-Usage.
fn usage(flow: Numbers, tag: Tag, given: Option<FlowUsage>) -> Option<AfFact>
    ensures { option_map fact_of result ≡ option_map
        (λ x. Field (OfFlow flow.0 flow.1 places.FlowUsage) tag (Number x))
        (option_map flow_usage_number given) }
{
    let usage = Enumerated::of(given?);
    Some(AfFact::Flow(flow.0, flow.1, tag, FlowValue::Usage(usage)))
}

/// The fact of a flow's own Flow-Status.
fn status(flow: Numbers, tag: Tag, given: Option<FlowStatus>) -> Option<AfFact>
    ensures { option_map fact_of result ≡ option_map
        (λ x. Field (OfFlow flow.0 flow.1 places.FlowStatus) tag (Number x))
        (option_map flow_status_number given) }
{
    let status = Enumerated::of(given?);
    Some(AfFact::Flow(flow.0, flow.1, tag, FlowValue::Status(status)))
}

/// The fact of a flow's Max-Requested-Bandwidth-UL.
fn rate_up(flow: Numbers, tag: Tag, given: Option<u32>) -> Option<AfFact>
    ensures { option_map fact_of result ≡ option_map
        (λ x. Field (OfFlow flow.0 flow.1 places.FlowRateUp) tag (Number x)) given }
{
    Some(AfFact::Flow(flow.0, flow.1, tag, FlowValue::RateUp(given?)))
}

/// The fact of a flow's Max-Requested-Bandwidth-DL.
fn rate_down(flow: Numbers, tag: Tag, given: Option<u32>) -> Option<AfFact>
    ensures { option_map fact_of result ≡ option_map
        (λ x. Field (OfFlow flow.0 flow.1 places.FlowRateDown) tag (Number x)) given }
{
    Some(AfFact::Flow(flow.0, flow.1, tag, FlowValue::RateDown(given?)))
}
