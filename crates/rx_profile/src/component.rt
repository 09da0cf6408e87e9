//! Media components and flows as a request describes them (TS 29.214, 5.3.16 and 5.3.18): numbers that have to tell things apart,
//! values that are judged and made of what was read, each by itself, and the filters that application functions may give
//! (Flow-Description, 5.3.8).
ghost use Rattle.std.specs.Prelude.{◌≡◌, ℕ, ◌==◌, map, Option, None, OnOk, IfOk, IfErr, ◌↔◌, ◌≤◌, false, length, IsTrue, option_copied};
ghost use Rattle.std.specs.List.{list_any};
ghost use Rattle.rx_profile.specs.Services.{repeats, flow_numbers, numbers_refusal, services_refusal};
ghost use Rattle.pcrf_values.specs.declared.refusal.Refusal.{Refusal};
ghost use Rattle.dia_base.specs.Rows.{IsFaultOf, refusal_among};
ghost use Rattle.pcrf_values.specs.Limits.{components_limit, flows_limit};
ghost use Rattle.rx_profile.specs.Values.{component_value, flow_value};

use crate::media::{ComponentParts, FlowParts, RawComponent, RawFlow, same_status, same_usage};
use dia_base::codes::results::{FILTER_RESTRICTIONS, INVALID_SERVICE_INFORMATION};
use dia_base::{ReadFault, Refusal};
use pcrf_values::{Exact, PermitFilter, PermitFilters, Ranked, Text, same, same_items};
use std::alloc::{AllocError, Global};
use std::marker::Model;

/// What has a number.
pub trait Numbered {
    ghost number_of: { Self → ℕ };

    /// The number.
    fn number(&self) -> u32
        ensures { result ≡ number_of self.now };
}

/// Whether one of the items has this number.
fn has_number<T: Numbered>(items: &[T], number: u32) -> bool
    ensures { result ≡ list_any (λ m. m == number) (map T.number_of items.now) }
{
    for item in items {
        if item.number() == number {
            return true;
        }
    }
    false
}

/// Whether some number comes twice.
pub fn repeats<T: Numbered>(items: &[T]) -> bool
    ensures { result ≡ repeats (map T.number_of items.now) }
{
    let mut rest = items;
    while let Some((first, others)) = rest.split_first() {
        if has_number(others, first.number()) {
            return true;
        }
        rest = others;
    }
    false
}

/// What is made of a raw value, if it isn't refused.
pub trait FromRaw<R: Drop>: Sized + Drop {
    ghost refusal_of: { R → Option Refusal };

    ghost of_raw: { R → Self };

    /// Judges a raw value, and makes a value of it.
    fn from_raw(alloc: Global, raw: R) -> Result<Self, ReadFault>
        ensures accepted { OnOk result (refusal_of raw ≡ None) }
        ensures made { IfOk result (λ made. made ≡ of_raw raw) }
        ensures refused { IfErr result (IsFaultOf (refusal_of raw)) };
}

/// Judges raw values one after the other, and makes a value of each.
pub fn each_from<R: Drop, X: FromRaw<R>>(alloc: Global, raws: Vec<R>) -> Result<Vec<X>, ReadFault>
    ensures accepted { OnOk result (refusal_among X.refusal_of raws.items ≡ None) }
    ensures made { IfOk result (λ each. each.items ≡ map X.of_raw raws.items) }
    ensures refused { IfErr result (IsFaultOf (refusal_among X.refusal_of raws.items)) }
{
    let mut each = Vec::with_capacity(alloc, raws.len())?;
    for raw in raws {
        each.push(X::from_raw(alloc, raw)?)?;
    }
    Ok(each)
}

impl FromRaw<Text> for PermitFilter {
    ghost use Rattle.rx_profile.specs.Services.{filter_refusal};

    ghost refusal_of = { filter_refusal };

    ghost of_raw = { λ text. text };

    fn from_raw(_alloc: Global, raw: Text) -> Result<PermitFilter, ReadFault> {
        let Some(filter) = PermitFilter::of(raw) else {
            return Err(ReadFault::Refused(Refusal::experimental(FILTER_RESTRICTIONS)));
        };
        Ok(filter)
    }
}

/// A flow (Media-Sub-Component, TS 29.214, 5.3.18), which contracts see as a `FlowValue`.
#[derive(Debug, Drop)]
pub struct Flow {
    parts: FlowParts,
    filters: Option<PermitFilters>,
}

impl Model for Flow {
    ghost use Rattle.pcrf_model.specs.Requests.{FlowValue};
    ghost use Rattle.rx_profile.specs.Values.{flow_value};

    ghost Value = { FlowValue };

    ghost view = { λ f. flow_value f.parts f.filters };
}

impl Flow {
    /// The flow but for its filters.
    pub fn parts(&self) -> FlowParts
        ensures { flow_value result self.now.filters ≡ self.now }
    {
        self.parts
    }

    /// The filters, where any were given.
    pub fn filters(&self) -> Option<&PermitFilters>
        ensures { option_copied result ≡ self.now.filters }
    {
        self.filters.as_ref()
    }

    /// An equal flow.
    pub fn try_copy(&self) -> Result<Flow, AllocError>
        ensures { IfOk result (λ copy. copy ≡ self.now) }
    {
        Ok(Flow {
            parts: self.parts,
            filters: self.filters.try_copy()?,
        })
    }
}

impl Exact for Flow {
    fn equal(&self, other: &Flow) -> bool {
        let ours = self.parts;
        let theirs = other.parts;
        ours.number == theirs.number
            && same(&self.filters, &other.filters)
            && same_usage(ours.usage, theirs.usage)
            && same_status(ours.status, theirs.status)
            && same(&ours.rates.up, &theirs.rates.up)
            && same(&ours.rates.down, &theirs.rates.down)
    }
}

/// Equal flows, in order.
fn copy_flows(flows: &Vec<Flow>) -> Result<Vec<Flow>, AllocError>
    ensures { IfOk result (λ copies. copies.items ≡ flows.now.items) }
{
    let mut copies = Vec::new(*flows.allocator());
    for flow in flows.as_slice() {
        copies.push(flow.try_copy()?)?;
    }
    Ok(copies)
}

impl FromRaw<RawFlow> for Flow {
    ghost use Rattle.rx_profile.specs.Services.{flow_filters_refusal};

    ghost refusal_of = { flow_filters_refusal };

    ghost of_raw = { λ flow. flow };

    fn from_raw(alloc: Global, raw: RawFlow) -> Result<Flow, ReadFault> {
        let RawFlow { parts, filters } = raw;
        let filters = each_from::<Text, PermitFilter>(alloc, filters)?;
        Ok(Flow {
            parts,
            filters: PermitFilters::of(filters),
        })
    }
}

/// A component whose flows have numbers that differ.
#[derive(Drop)]
struct NumberedComponent {
    parts: ComponentParts,
    flows: Vec<RawFlow>,
}

impl Model for NumberedComponent {
    ghost use Rattle.std.specs.Prelude.{◌≡◌, ◌≤◌, false, length};
    ghost use Rattle.pcrf_model.specs.Requests.{ComponentValue};
    ghost use Rattle.pcrf_values.specs.Limits.{flows_limit};
    ghost use Rattle.rx_profile.specs.Services.{flow_numbers, repeats};
    ghost use Rattle.rx_profile.specs.Values.{component_value};

    ghost Value = { ComponentValue };

    ghost view = { λ c. component_value c.parts c.flows.items };

    ghost invariant = { λ c.
        (repeats (flow_numbers c.flows.items) ≡ false) × (length c.flows.items ≤ flows_limit) };
}

impl FromRaw<RawComponent> for NumberedComponent {
    ghost use Rattle.rx_profile.specs.Services.{flow_numbers_refusal};

    ghost refusal_of = { flow_numbers_refusal };

    ghost of_raw = { λ component. component };

    fn from_raw(_alloc: Global, raw: RawComponent) -> Result<NumberedComponent, ReadFault> {
        let RawComponent { parts, flows } = raw;
        if repeats(&flows) {
            return Err(ReadFault::Refused(Refusal::experimental(INVALID_SERVICE_INFORMATION)));
        }
        Ok(NumberedComponent { parts, flows })
    }
}

/// A media component (Media-Component-Description, TS 29.214, 5.3.16), which contracts see as a `ComponentValue`.
#[derive(Debug, Drop)]
pub struct Component {
    parts: ComponentParts,
    flows: Vec<Flow>,
}

impl Model for Component {
    ghost use Rattle.std.specs.Prelude.{◌≡◌, ◌≤◌, false, length};
    ghost use Rattle.pcrf_model.specs.Requests.{ComponentValue};
    ghost use Rattle.pcrf_values.specs.Limits.{flows_limit};
    ghost use Rattle.rx_profile.specs.Services.{flow_numbers, repeats};
    ghost use Rattle.rx_profile.specs.Values.{component_value};

    ghost Value = { ComponentValue };

    ghost view = { λ c. component_value c.parts c.flows.items };

    ghost invariant = { λ c.
        (repeats (flow_numbers c.flows.items) ≡ false) × (length c.flows.items ≤ flows_limit) };
}

impl Component {
    /// The component but for its flows.
    pub fn parts(&self) -> ComponentParts
        ensures { component_value result self.now.flows ≡ self.now }
    {
        self.parts
    }

    /// The flows, in the order of the request.
    pub fn flows(&self) -> &[Flow]
        ensures flows { result.now ≡ self.now.flows }
        ensures apart { repeats (flow_numbers self.now.flows) ≡ false }
        ensures within { length self.now.flows ≤ flows_limit }
    {
        self.flows.as_slice()
    }

    /// An equal component.
    pub fn try_copy(&self) -> Result<Component, AllocError>
        ensures { IfOk result (λ copy. copy ≡ self.now) }
    {
        Ok(Component {
            parts: self.parts,
            flows: copy_flows(&self.flows)?,
        })
    }
}

impl Exact for Component {
    fn equal(&self, other: &Component) -> bool {
        let ours = self.parts;
        let theirs = other.parts;
        ours.number == theirs.number
            && same(&ours.media_type, &theirs.media_type)
            && same_status(ours.status, theirs.status)
            && same(&ours.rates.up, &theirs.rates.up)
            && same(&ours.rates.down, &theirs.rates.down)
            && same_items(self.flows.as_slice(), other.flows.as_slice())
    }
}

/// Equal components, in order.
fn copy_components(components: &Vec<Component>) -> Result<Vec<Component>, AllocError>
    ensures { IfOk result (λ copies. copies.items ≡ components.now.items) }
{
    let mut copies = Vec::new(*components.allocator());
    for component in components.as_slice() {
        copies.push(component.try_copy()?)?;
    }
    Ok(copies)
}

impl FromRaw<NumberedComponent> for Component {
    ghost use Rattle.rx_profile.specs.Services.{filters_refusal};

    ghost refusal_of = { filters_refusal };

    ghost of_raw = { λ component. component };

    fn from_raw(alloc: Global, raw: NumberedComponent) -> Result<Component, ReadFault> {
        let NumberedComponent { parts, flows } = raw;
        let flows = each_from::<RawFlow, Flow>(alloc, flows)?;
        Ok(Component { parts, flows })
    }
}

/// The components of a request, which contracts see as their list. Their numbers differ, and in each of them those of its
/// flows.
#[derive(Debug, Drop)]
pub struct Components {
    list: Vec<Component>,
}

impl Model for Components {
    ghost use Rattle.std.specs.Prelude.{◌≡◌, ◌≤◌, List, None, length};
    ghost use Rattle.pcrf_model.specs.Requests.{ComponentValue};
    ghost use Rattle.pcrf_values.specs.Limits.{components_limit};
    ghost use Rattle.rx_profile.specs.Services.{numbers_refusal};

    ghost Value = { List ComponentValue };

    ghost view = { λ c. c.list.items };

    ghost invariant = { λ c. (numbers_refusal c.list.items ≡ None)
        × (length c.list.items ≤ components_limit) };
}

impl Components {
    /// The components, in the order of the request.
    pub fn as_slice(&self) -> &[Component]
        ensures components { result.now ≡ self.now }
        ensures apart { numbers_refusal self.now ≡ None }
        ensures within { length self.now ≤ components_limit }
    {
        self.list.as_slice()
    }

    /// Equal components.
    pub fn try_copy(&self) -> Result<Components, AllocError>
        ensures { IfOk result (λ copy. copy ≡ self.now) }
    {
        Ok(Components {
            list: copy_components(&self.list)?,
        })
    }

    /// The components that were read, judged among themselves: all numbers first, and then all filters.
    pub fn judged(alloc: Global, raw: Vec<RawComponent>) -> Result<Components, ReadFault>
        requires { length raw.items ≤ components_limit }
        ensures accepted { OnOk result (services_refusal raw.items ≡ None) }
        ensures components { IfOk result (λ components. components ≡ raw.items) }
        ensures refused { IfErr result (IsFaultOf (services_refusal raw.items)) }
    {
        if repeats(&raw) {
            return Err(ReadFault::Refused(Refusal::experimental(INVALID_SERVICE_INFORMATION)));
        }
        let numbered = each_from::<RawComponent, NumberedComponent>(alloc, raw)?;
        let list = each_from::<NumberedComponent, Component>(alloc, numbered)?;
        Ok(Components { list })
    }
}

impl Exact for Components {
    fn equal(&self, other: &Components) -> bool {
        same_items(self.list.as_slice(), other.list.as_slice())
    }
}
