//! The facts of AF sessions, and these as records of facts ask for them.
ghost use Rattle.std.specs.Prelude.{◌≡◌, IfOk, []};
ghost use Rattle.pcrf_values.specs.Facts.{position};
ghost use Rattle.pcrf_values.specs.Values.{value_cmp};
ghost use Rattle.af_records.specs.FieldValues.{component_number, component_value, flow_number, flow_value};

use crate::af_request_type::AfRequestType;
use lattice_core::{
    Beneath, COMPONENT_FIELD, FLOW_FIELD, Position, Ranked, SessionValue, Tag, TypedFact,
    compare_values, session_position,
};
use pcrf_values::{Enumerated, Filters, FlowStatus, FlowUsage};
use std::alloc::AllocError;
use std::cmp::Ordering;

/// What a fact says of a media component (TS 29.214, 5.3.16). Rates are in bit/s.
#[derive(Clone, Copy, Debug)]
pub enum ComponentValue {
    /// Media-Type.
    MediaType(u32),
    /// Flow-Status.
    Status(Enumerated<FlowStatus>),
    /// Max-Requested-Bandwidth-UL.
    RateUp(u32),
    /// Max-Requested-Bandwidth-DL.
    RateDown(u32),
}

/// What a fact says of a flow (TS 29.214, 5.3.27). Rates are in bit/s.
#[derive(Debug, Drop)]
pub enum FlowValue {
    /// Flow-Description.
    Descriptions(Filters),
    /// Flow-Usage.
    Usage(Enumerated<FlowUsage>),
    /// Flow-Status.
    Status(Enumerated<FlowStatus>),
    /// Max-Requested-Bandwidth-UL.
    RateUp(u32),
    /// Max-Requested-Bandwidth-DL.
    RateDown(u32),
}

/// A fact of an AF session. Components and flows go by their Media-Component-Number and Flow-Number.
#[derive(Debug, Drop)]
pub enum AfFact {
    /// The session is ended.
    End,
    /// A component is removed.
    ComponentRemoved(u32),
    /// A flow of a component is removed.
    FlowRemoved(u32, u32),
    /// The application function was asked to abort the session (TS 29.214, 4.4.6.1).
    Aborted,
    /// A field of the session.
    Session(Tag, SessionValue<Enumerated<AfRequestType>>),
    /// A field of a component.
    Component(u32, Tag, ComponentValue),
    /// A field of a flow of a component.
    Flow(u32, u32, Tag, FlowValue),
}

impl FlowValue {
    /// An equal value.
    pub fn try_copy(&self) -> Result<FlowValue, AllocError>
        ensures { IfOk result (λ r. r ≡ self.now) }
    {
        match self {
            FlowValue::Descriptions(filters) => Ok(FlowValue::Descriptions(filters.try_copy()?)),
            FlowValue::Usage(usage) => Ok(FlowValue::Usage(*usage)),
            FlowValue::Status(status) => Ok(FlowValue::Status(*status)),
            FlowValue::RateUp(rate) => Ok(FlowValue::RateUp(*rate)),
            FlowValue::RateDown(rate) => Ok(FlowValue::RateDown(*rate)),
        }
    }
}

impl AfFact {
    /// An equal fact.
    pub fn try_copy(&self) -> Result<AfFact, AllocError>
        ensures { IfOk result (λ r. r ≡ self.now) }
    {
        match self {
            AfFact::End => Ok(AfFact::End),
            AfFact::ComponentRemoved(component) => Ok(AfFact::ComponentRemoved(*component)),
            AfFact::FlowRemoved(component, flow) => Ok(AfFact::FlowRemoved(*component, *flow)),
            AfFact::Aborted => Ok(AfFact::Aborted),
            AfFact::Session(tag, value) => Ok(AfFact::Session(*tag, value.try_copy()?)),
            AfFact::Component(component, tag, value) => {
                Ok(AfFact::Component(*component, *tag, *value))
            }
            AfFact::Flow(component, flow, tag, value) => {
                Ok(AfFact::Flow(*component, *flow, *tag, value.try_copy()?))
            }
        }
    }
}

/// The number of a component's field.
fn component_field(value: &ComponentValue) -> u8
    ensures { result ≡ component_number value.now }
{
    match value {
        ComponentValue::MediaType(_) => 1,
        ComponentValue::Status(_) => 2,
        ComponentValue::RateUp(_) => 3,
        ComponentValue::RateDown(_) => 4,
    }
}

/// The number that it says.
fn component_says(value: &ComponentValue) -> u32
    ensures { result ≡ component_value value.now }
{
    match value {
        ComponentValue::MediaType(kind) => *kind,
        ComponentValue::Status(status) => status.number(),
        ComponentValue::RateUp(rate) => *rate,
        ComponentValue::RateDown(rate) => *rate,
    }
}

/// The number of a flow's field.
fn flow_field(value: &FlowValue) -> u8
    ensures { result ≡ flow_number value.now }
{
    match value {
        FlowValue::Descriptions(_) => 1,
        FlowValue::Usage(_) => 2,
        FlowValue::Status(_) => 3,
        FlowValue::RateUp(_) => 4,
        FlowValue::RateDown(_) => 5,
    }
}

/// How two values of one field of a flow compare.
fn compare_flow(one: &FlowValue, other: &FlowValue) -> Ordering
    requires { flow_number one.now ≡ flow_number other.now }
    ensures { result ≡ value_cmp (flow_value one.now) (flow_value other.now) }
{
    match (one, other) {
        (FlowValue::Descriptions(one), FlowValue::Descriptions(other)) => one.cmp(other),
        (FlowValue::Usage(one), FlowValue::Usage(other)) => one.cmp(other),
        (FlowValue::Status(one), FlowValue::Status(other)) => one.cmp(other),
        (FlowValue::RateUp(one), FlowValue::RateUp(other)) => one.cmp(other),
        (FlowValue::RateDown(one), FlowValue::RateDown(other)) => one.cmp(other),
        _ => Ordering::Equal,
    }
}

/// Where the field of that number of a component stands.
pub(crate) fn component_position<'a>(component: u32, field: u8) -> Position<'a>
    ensures { result ≡ (5, (component, (0, (field, [])))) }
{
    Position::of(COMPONENT_FIELD, component, 0, field)
}

/// Where the field of that number of a flow stands.
pub(crate) fn flow_position<'a>(component: u32, flow: u32, field: u8) -> Position<'a>
    ensures { result ≡ (6, (component, (flow, (field, [])))) }
{
    Position::of(FLOW_FIELD, component, flow, field)
}

impl TypedFact for AfFact {
    ghost use Rattle.af_records.specs.RecordFacts as af_facts;

    ghost fact = { af_facts.fact_of };

    fn position(&self) -> Position<'_> {
        match self {
            AfFact::End => Position::of_end(),
            AfFact::ComponentRemoved(component) => Position::of_component_removal(*component),
            AfFact::FlowRemoved(component, flow) => Position::of_flow_removal(*component, *flow),
            AfFact::Aborted => Position::of_abort(),
            AfFact::Session(_, value) => session_position(value),
            AfFact::Component(component, _, value) => {
                component_position(*component, component_field(value))
            }
            AfFact::Flow(component, flow, _, value) => {
                flow_position(*component, *flow, flow_field(value))
            }
        }
    }

    fn is_field(&self) -> bool {
        match self {
            AfFact::Session(_, _) | AfFact::Component(_, _, _) | AfFact::Flow(_, _, _, _) => true,
            _ => false,
        }
    }

    fn beneath(&self) -> Beneath {
        match self {
            AfFact::End => Beneath::Nothing,
            AfFact::ComponentRemoved(_) | AfFact::Aborted => Beneath::Session,
            AfFact::Session(_, _) => Beneath::Session,
            AfFact::FlowRemoved(component, _) => Beneath::Component(*component),
            AfFact::Component(component, _, _) => Beneath::Component(*component),
            AfFact::Flow(component, flow, _, _) => Beneath::Flow(*component, *flow),
        }
    }

    fn compare_entry(&self, other: &AfFact) -> Ordering {
        match self {
            AfFact::Session(tag, value) => match other {
                AfFact::Session(other_tag, other_value) => {
                    tag.cmp(other_tag).then(compare_values(value, other_value))
                }
                _ => Ordering::Equal,
            },
            AfFact::Component(_, tag, value) => match other {
                AfFact::Component(_, other_tag, other_value) => {
                    let values = component_says(value).cmp(&component_says(other_value));
                    tag.cmp(other_tag).then(values)
                }
                _ => Ordering::Equal,
            },
            AfFact::Flow(_, _, tag, value) => match other {
                AfFact::Flow(_, _, other_tag, other_value) => {
                    tag.cmp(other_tag).then(compare_flow(value, other_value))
                }
                _ => Ordering::Equal,
            },
            _ => Ordering::Equal,
        }
    }

    fn try_copy(&self) -> Result<AfFact, AllocError> {
        AfFact::try_copy(self)
    }
}
