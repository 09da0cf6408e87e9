//! Records of AF sessions.
ghost use Rattle.std.specs.Prelude.{◌≡◌, IfOk, IfSome, None, if◌then◌else◌, map, option_map, true};
ghost use Rattle.std.proofs.Common.{unwrap_or};
ghost use Rattle.pcrf_values.specs.Numbers.{flow_status_number};
ghost use Rattle.pcrf_values.specs.FlowWords as words;
ghost use Rattle.pcrf_values.specs.Held.{kept_list, is_ended, is_aborted, entry_shown};
ghost use Rattle.pcrf_values.specs.Held as held_words;
ghost use Rattle.pcrf_values.specs.Live.{af_is_live};
ghost use Rattle.pcrf_values.specs.Places as places;
ghost use Rattle.pcrf_values.specs.Places.{SessionField, ComponentField, FlowField, OfSession, OfComponent, OfFlow, session_field_number, component_field_number, flow_field_number};
ghost use Rattle.pcrf_values.specs.Values as values;
ghost use Rattle.pcrf_values.specs.Values.{Number, Text};
ghost use Rattle.pcrf_model.specs.Forms.{is_record};
ghost use Rattle.pcrf_model.specs.Sessions.{Af};
ghost use Rattle.lattice_core.specs.SessionValues.{entry_by, session_entry, session_number};
ghost use Rattle.lattice_core.specs.SessionFacts.{address_value};
ghost use Rattle.af_records.specs.RemovedLists.{removable_of};
ghost use Rattle.af_records.specs.FieldValues.{component_entry, component_number, flow_entry, flow_number, held_number};
ghost use Rattle.af_records.specs.RecordFacts.{fact_of};

use crate::af_request_type::AfRequestType;
use crate::fact::{AfFact, ComponentValue, FlowValue, component_position, flow_position};
use crate::flows::Flows;
use crate::rates::GivenRates;
use crate::removed::RemovedParts;
use lattice_core::{FactSet, Join, Record, SessionValue, Tag, copy_facts, position_of_field};
use pcrf_values::{
    Apn, DiameterIdentity, Enumerated, Filters, FlowStatus, FlowUsage, Ipv6Prefix, Subscribers,
};
use std::alloc::{AllocError, Global};
use std::marker::Model;
use std::net::Ipv4Addr;

/// What is known of an application function's session, at least one fact, which contracts see as the facts that are kept, ascending. Each is one that an
/// operation gives.
#[derive(Drop)]
pub struct AfRec {
    facts: Record<AfFact>,
}

impl Model for AfRec {
    ghost use Rattle.std.specs.Prelude.{◌≡◌, true, List};
    ghost use Rattle.pcrf_values.specs.Facts.{Fact};
    ghost use Rattle.pcrf_model.specs.Forms.{is_record};
    ghost use Rattle.pcrf_model.specs.Sessions.{Af};

    ghost Value = { List Fact };

    ghost view = { λ r. r.facts };

    ghost invariant = { λ r. is_record Af r.facts ≡ true };
}

impl Join for AfRec {
    ghost use Rattle.std.specs.Prelude.{◌++◌};
    ghost use Rattle.pcrf_values.specs.Held.{kept_list, join_of};
    ghost use Rattle.pcrf_values.proofs.JoinedLaws.{joined_comm, joined_assoc, joined_idem, held_twice};

    ghost joined = { join_of };

    ghost valid = { λ facts. kept_list facts ≡ facts };

    ghost commutative = { joined_comm };

    ghost associative = { joined_assoc };

    ghost idempotent = { joined_idem };

    ghost closed = { λ xs ys _ _. held_twice (xs ++ ys) };

    fn joined_copy(&self, other: &AfRec) -> Result<AfRec, AllocError> {
        let facts = self.facts.joined_copy(&other.facts)?;
        Ok(AfRec { facts })
    }

    fn join_in(&mut self, other: AfRec) -> Result<(), (AllocError, AfRec)> {
        if let Err((refused, facts)) = self.facts.join_in(other.facts) {
            return Err((refused, AfRec { facts }));
        }
        Ok(())
    }

    fn try_copy(&self) -> Result<AfRec, AllocError> {
        let facts = self.facts.try_copy()?;
        Ok(AfRec { facts })
    }

    fn note_valid(&self) {
        self.facts.note_valid();
    }
}

impl FactSet for AfRec {
    ghost use Rattle.lattice_core.specs.Sets.{facts_subset, facts_empty};

    ghost subset = { facts_subset };

    ghost empty = { facts_empty };

    fn is_subset(&self, other: &AfRec) -> bool {
        self.facts.is_subset(&other.facts)
    }

    fn is_empty(&self) -> bool {
        self.facts.is_empty()
    }
}

impl AfRec {
    /// The record of what is kept of these facts, which are those of operations, of one or of more.
    pub fn of_facts(alloc: Global, facts: &[AfFact]) -> Result<AfRec, AllocError>
        requires { is_record Af (map fact_of facts.now) ≡ true }
        ensures { IfOk result (λ r. r ≡ kept_list (map fact_of facts.now)) }
    {
        AfRec::of(copy_facts(alloc, facts)?)
    }

    /// The record of what is kept of these facts, which move into it.
    pub fn of(facts: Vec<AfFact>) -> Result<AfRec, AllocError>
        requires { is_record Af (map fact_of facts.items) ≡ true }
        ensures { IfOk result (λ r. r ≡ kept_list (map fact_of facts.items)) }
    {
        let facts = Record::of_facts(facts)?;
        Ok(AfRec { facts })
    }

    /// Does nothing: its contract tells a proof that something is known, and that each fact is one of some operation.
    pub fn note_known(&self)
        ensures { is_record Af self.now ≡ true }
    {
        let _ = &self.facts;
    }

    /// All facts that are kept, in order: a record of them is this record again. Its time and memory grow with their number.
    pub fn facts(&self, alloc: Global) -> Result<Vec<AfFact>, AllocError>
        ensures { IfOk result (λ facts. map fact_of facts.items ≡ self.now) }
    {
        copy_facts(alloc, self.facts.as_slice())
    }

    /// The same where they are.
    pub fn as_slice(&self) -> &[AfFact]
        ensures facts { map fact_of result.now ≡ self.now }
        ensures kept { kept_list self.now ≡ self.now }
    {
        self.facts.as_slice()
    }

    /// The session is ended.
    pub fn ended(&self) -> bool
        ensures { result ≡ is_ended self.now }
    {
        self.facts.ended()
    }

    /// The application function was asked to abort the session.
    pub fn aborted(&self) -> bool
        ensures { result ≡ is_aborted self.now }
    {
        self.facts.aborted()
    }

    /// The session isn't ended, and shows an address or a prefix.
    #[tactic(auto, using(crate::proofs::TypedLaws::said))]
    pub fn live(&self) -> bool
        ensures { result ≡ af_is_live self.now }
    {
        if self.ended() {
            return false;
        }
        self.address().is_some() || self.prefix().is_some()
    }

    /// What the session's field of that number shows.
    fn field(&self, number: u8) -> Option<(Tag, &SessionValue<Enumerated<AfRequestType>>)>
        ensures at { IfSome result (λ e. number ≡ session_number e.1.now) }
        ensures shown { (f : SessionField) → session_field_number f ≡ number
            → session_entry (option_map (λ e. (e.0, e.1.now)) result)
            ≡ entry_shown self.now (OfSession f) }
    {
        match self.facts.at(&position_of_field(number)) {
            None => None,
            Some(AfFact::Session(tag, value)) => Some((*tag, value)),
            Some(_) => None,
        }
    }

    /// What the component's field of that number shows.
    fn component_field(&self, component: u32, number: u8) -> Option<(Tag, &ComponentValue)>
        ensures at { IfSome result (λ e. number ≡ component_number e.1.now) }
        ensures shown { (f : ComponentField) → component_field_number f ≡ number
            → component_entry (option_map (λ e. (e.0, e.1.now)) result)
            ≡ entry_shown self.now (OfComponent component f) }
    {
        match self.facts.at(&component_position(component, number)) {
            None => None,
            Some(AfFact::Component(_, tag, value)) => Some((*tag, value)),
            Some(_) => None,
        }
    }

    /// What the flow's field of that number shows.
    fn flow_field(&self, component: u32, flow: u32, number: u8) -> Option<(Tag, &FlowValue)>
        ensures at { IfSome result (λ e. number ≡ flow_number e.1.now) }
        ensures shown { (f : FlowField) → flow_field_number f ≡ number
            → flow_entry (option_map (λ e. (e.0, e.1.now)) result)
            ≡ entry_shown self.now (OfFlow component flow f) }
    {
        match self.facts.at(&flow_position(component, flow, number)) {
            None => None,
            Some(AfFact::Flow(_, _, tag, value)) => Some((*tag, value)),
            Some(_) => None,
        }
    }

    /// The Framed-IP-Address of the user, with its tag.
    pub fn address(&self) -> Option<(Tag, &Ipv4Addr)>
        ensures { entry_by address_value (option_map (λ e. (e.0, e.1.now)) result)
            ≡ entry_shown self.now places.address }
    {
        match self.field(1) {
            None => None,
            Some((tag, SessionValue::Address(address))) => Some((tag, address)),
            Some(_) => None,
        }
    }

    /// The Called-Station-Id, with its tag.
    pub fn apn(&self) -> Option<(Tag, &Apn)>
        ensures { entry_by Text (option_map (λ e. (e.0, e.1.now)) result)
            ≡ entry_shown self.now places.apn }
    {
        match self.field(2) {
            None => None,
            Some((tag, SessionValue::Apn(apn))) => Some((tag, apn)),
            Some(_) => None,
        }
    }

    /// The subscribers, with their tag.
    pub fn subscribers(&self) -> Option<(Tag, &Subscribers)>
        ensures { entry_by values.Subscribers (option_map (λ e. (e.0, e.1.now)) result)
            ≡ entry_shown self.now places.subscribers }
    {
        match self.field(3) {
            None => None,
            Some((tag, SessionValue::Subscribers(subscribers))) => Some((tag, subscribers)),
            Some(_) => None,
        }
    }

    /// The Origin-Host of the application function, with its tag.
    pub fn host(&self) -> Option<(Tag, &DiameterIdentity)>
        ensures { entry_by Text (option_map (λ e. (e.0, e.1.now)) result)
            ≡ entry_shown self.now places.host }
    {
        match self.field(4) {
            None => None,
            Some((tag, SessionValue::Host(host))) => Some((tag, host)),
            Some(_) => None,
        }
    }

    /// The Origin-Realm of the application function, with its tag.
    pub fn realm(&self) -> Option<(Tag, &DiameterIdentity)>
        ensures { entry_by Text (option_map (λ e. (e.0, e.1.now)) result)
            ≡ entry_shown self.now places.realm }
    {
        match self.field(5) {
            None => None,
            Some((tag, SessionValue::Realm(realm))) => Some((tag, realm)),
            Some(_) => None,
        }
    }

    /// What stands for the type of the last request, with its tag.
    pub fn last(&self) -> Option<(Tag, &Enumerated<AfRequestType>)>
        ensures { entry_by Number (option_map (λ e. (e.0, e.1.now)) result)
            ≡ entry_shown self.now places.last }
    {
        match self.field(6) {
            None => None,
            Some((tag, SessionValue::Last(last))) => Some((tag, last)),
            Some(_) => None,
        }
    }

    /// The Framed-IPv6-Prefix of the user, with its tag.
    pub fn prefix(&self) -> Option<(Tag, &Ipv6Prefix)>
        ensures { entry_by values.Prefix (option_map (λ e. (e.0, e.1.now)) result)
            ≡ entry_shown self.now places.prefix }
    {
        match self.field(7) {
            None => None,
            Some((tag, SessionValue::Prefix(prefix))) => Some((tag, prefix)),
            Some(_) => None,
        }
    }

    /// The Media-Type of a component, with its tag.
    pub fn component_media_type(&self, component: u32) -> Option<(Tag, &u32)>
        ensures { entry_by Number (option_map (λ e. (e.0, e.1.now)) result)
            ≡ entry_shown self.now (OfComponent component places.MediaType) }
    {
        match self.component_field(component, 1) {
            None => None,
            Some((tag, ComponentValue::MediaType(kind))) => Some((tag, kind)),
            Some(_) => None,
        }
    }

    /// The Flow-Status of a component, with its tag.
    pub fn component_status(&self, component: u32) -> Option<(Tag, &Enumerated<FlowStatus>)>
        ensures { entry_by Number (option_map (λ e. (e.0, e.1.now)) result)
            ≡ entry_shown self.now (OfComponent component places.ComponentStatus) }
    {
        match self.component_field(component, 2) {
            None => None,
            Some((tag, ComponentValue::Status(status))) => Some((tag, status)),
            Some(_) => None,
        }
    }

    /// The Max-Requested-Bandwidth-UL of a component, with its tag.
    pub fn component_rate_up(&self, component: u32) -> Option<(Tag, &u32)>
        ensures { entry_by Number (option_map (λ e. (e.0, e.1.now)) result)
            ≡ entry_shown self.now (OfComponent component places.ComponentRateUp) }
    {
        match self.component_field(component, 3) {
            None => None,
            Some((tag, ComponentValue::RateUp(rate))) => Some((tag, rate)),
            Some(_) => None,
        }
    }

    /// The Max-Requested-Bandwidth-DL of a component, with its tag.
    pub fn component_rate_down(&self, component: u32) -> Option<(Tag, &u32)>
        ensures { entry_by Number (option_map (λ e. (e.0, e.1.now)) result)
            ≡ entry_shown self.now (OfComponent component places.ComponentRateDown) }
    {
        match self.component_field(component, 4) {
            None => None,
            Some((tag, ComponentValue::RateDown(rate))) => Some((tag, rate)),
            Some(_) => None,
        }
    }

    /// The Flow-Description of a flow, with its tag.
    pub fn flow_descriptions(&self, component: u32, flow: u32) -> Option<(Tag, &Filters)>
        ensures { entry_by values.Filters (option_map (λ e. (e.0, e.1.now)) result)
            ≡ entry_shown self.now (OfFlow component flow places.FlowDescriptions) }
    {
        match self.flow_field(component, flow, 1) {
            None => None,
            Some((tag, FlowValue::Descriptions(filters))) => Some((tag, filters)),
            Some(_) => None,
        }
    }

    /// The Flow-Usage of a flow, with its tag.
    pub fn flow_usage(&self, component: u32, flow: u32) -> Option<(Tag, &Enumerated<FlowUsage>)>
        ensures { entry_by Number (option_map (λ e. (e.0, e.1.now)) result)
            ≡ entry_shown self.now (OfFlow component flow places.FlowUsage) }
    {
        match self.flow_field(component, flow, 2) {
            None => None,
            Some((tag, FlowValue::Usage(usage))) => Some((tag, usage)),
            Some(_) => None,
        }
    }

    /// The Flow-Status of a flow itself, with its tag.
    pub fn flow_own_status(
        &self,
        component: u32,
        flow: u32,
    ) -> Option<(Tag, &Enumerated<FlowStatus>)>
        ensures { entry_by Number (option_map (λ e. (e.0, e.1.now)) result)
            ≡ entry_shown self.now (OfFlow component flow places.FlowStatus) }
    {
        match self.flow_field(component, flow, 3) {
            None => None,
            Some((tag, FlowValue::Status(status))) => Some((tag, status)),
            Some(_) => None,
        }
    }

    /// The Max-Requested-Bandwidth-UL of a flow, with its tag.
    pub fn flow_rate_up(&self, component: u32, flow: u32) -> Option<(Tag, &u32)>
        ensures { entry_by Number (option_map (λ e. (e.0, e.1.now)) result)
            ≡ entry_shown self.now (OfFlow component flow places.FlowRateUp) }
    {
        match self.flow_field(component, flow, 4) {
            None => None,
            Some((tag, FlowValue::RateUp(rate))) => Some((tag, rate)),
            Some(_) => None,
        }
    }

    /// The Max-Requested-Bandwidth-DL of a flow, with its tag.
    pub fn flow_rate_down(&self, component: u32, flow: u32) -> Option<(Tag, &u32)>
        ensures { entry_by Number (option_map (λ e. (e.0, e.1.now)) result)
            ≡ entry_shown self.now (OfFlow component flow places.FlowRateDown) }
    {
        match self.flow_field(component, flow, 5) {
            None => None,
            Some((tag, FlowValue::RateDown(rate))) => Some((tag, rate)),
            Some(_) => None,
        }
    }

    /// The flow shows that it is RTCP.
    fn is_rtcp(&self, component: u32, flow: u32) -> bool
        ensures { result ≡ words.is_rtcp (entry_shown self.now) component flow }
    {
        match self.flow_usage(component, flow) {
            Some(told) => matches!(told.1.value(), FlowUsage::Rtcp),
            None => false,
        }
    }

    /// The Flow-Status of a flow: its own, else its component's, else ENABLED.
    pub fn flow_status(&self, component: u32, flow: u32) -> FlowStatus
        ensures { flow_status_number result
            ≡ words.flow_status (entry_shown self.now) component flow }
    {
        let own = self.flow_own_status(component, flow);
        status_of(own, self.component_status(component))
    }

    /// The bit rates that requests gave a flow: in each direction its own, else, unless it is RTCP, its component's.
    pub fn flow_rates(&self, component: u32, flow: u32) -> GivenRates
        ensures up { result.up
            ≡ words.given_rate (entry_shown self.now) component flow
            places.FlowRateUp places.ComponentRateUp }
        ensures down { result.down
            ≡ words.given_rate (entry_shown self.now) component flow
            places.FlowRateDown places.ComponentRateDown }
    {
        let is_rtcp = self.is_rtcp(component, flow);
        let up = self.flow_rate_up(component, flow);
        let down = self.flow_rate_down(component, flow);
        GivenRates {
            up: given_rate(up, is_rtcp, self.component_rate_up(component)),
            down: given_rate(down, is_rtcp, self.component_rate_down(component)),
        }
    }

    /// The flows of which a field shows, ascending.
    #[tactic(auto, using(crate::proofs::FlowLaws::flows_is))]
    pub fn flows(&self) -> Flows<'_>
        ensures { result ≡ words.flows self.now }
    {
        Flows::of(self.as_slice())
    }

    /// The components and flows that are removed, as far as that is kept, components first.
    #[tactic(auto, using(crate::proofs::RemovedLaws::removed_is))]
    pub fn removed_parts(&self) -> RemovedParts<'_>
        ensures { map removable_of result ≡ held_words.removed_parts self.now }
    {
        RemovedParts::of(self.as_slice())
    }
}

/// The Flow-Status of a flow, by what it and its component say.
fn status_of(
    own: Option<(Tag, &Enumerated<FlowStatus>)>,
    whole: Option<(Tag, &Enumerated<FlowStatus>)>,
) -> FlowStatus
    ensures { flow_status_number result ≡ unwrap_or
        (words.or_else (held_number (option_map (λ e. (e.0, e.1.now)) own.entry)) (held_number (option_map (λ e. (e.0, e.1.now)) whole.entry))) 2 }
{
    match own {
        Some(told) => told.1.value(),
        None => match whole {
            Some(told) => told.1.value(),
            None => FlowStatus::Enabled,
        },
    }
}

/// The rate of a flow in one direction, by what it and its component say.
fn given_rate(own: Option<(Tag, &u32)>, is_rtcp: bool, whole: Option<(Tag, &u32)>) -> Option<u32>
    ensures { result ≡ words.or_else (held_number (option_map (λ e. (e.0, e.1.now)) own.entry))
        (if is_rtcp then None else held_number (option_map (λ e. (e.0, e.1.now)) whole.entry)) }
{
    match own {
        Some(told) => Some(*told.1),
        None => match whole {
            Some(told) if !is_rtcp => Some(*told.1),
            _ => None,
        },
    }
}
