//! Records of Gx sessions, and the rules that a gateway was told.
ghost use Rattle.std.specs.Prelude.{◌≡◌, ℕ, ◌++◌, IfOk, IfSome, OnOk, None, Some, map, option_map, true};
ghost use Rattle.std.specs.List.{filter_map, flat_map};
ghost use Rattle.pcrf_values.specs.Held.{kept_list, is_ended, entry_shown};
ghost use Rattle.pcrf_values.specs.Live.{gx_is_live, home};
ghost use Rattle.pcrf_values.specs.Places as places;
ghost use Rattle.pcrf_values.specs.Places.{SessionField, ComponentField, FlowField, OfSession, OfComponent, OfFlow, session_field_number};
ghost use Rattle.pcrf_model.specs.Forms.{is_record};
ghost use Rattle.pcrf_model.specs.Sessions.{Gx};
ghost use Rattle.pcrf_values.specs.ToldWords.{told_entry, told_entries, told_rules};
ghost use Rattle.pcrf_values.specs.Values as values;
ghost use Rattle.pcrf_values.specs.Values.{Number, Text};
ghost use Rattle.lattice_core.specs.SessionValues.{entry_by, session_entry, session_number};
ghost use Rattle.lattice_core.specs.SessionFacts.{address_value};
ghost use Rattle.gx_records.specs.GxFacts.{fact_of, rule_under, rules_told};

use crate::fact::GxFact;
use crate::open_request_type::OpenRequestType;
use lattice_core::{
    FactSet, Join, Record, SessionValue, Tag, copy_facts, position_of_field, session_position,
};
use pcrf_values::{
    Apn, DiameterIdentity, Enumerated, Ipv6Prefix, Ranked, Rule, RuleName, Subscribers,
};
use std::alloc::{AllocError, Global};
use std::marker::Model;
use std::net::Ipv4Addr;

/// The names that show a rule, each with its rule, ascending by name; which contracts see as that list.
#[derive(Drop)]
pub struct Told {
    pub(crate) pairs: Vec<(RuleName, Rule)>,
}

impl Model for Told {
    ghost use Rattle.std.specs.Prelude.{ℕ, List};
    ghost use Rattle.pcrf_values.specs.RuleValues.{RuleValue};

    ghost Value = { List (List ℕ × RuleValue) };

    ghost view = { λ t. t.pairs.items };
}

impl Told {
    ghost use Rattle.std.specs.Prelude.{◌≡◌};

    /// These names and their rules.
    pub fn of(pairs: Vec<(RuleName, Rule)>) -> Told
        ensures { result ≡ pairs.items }
    {
        Told { pairs }
    }

    /// The names and their rules.
    pub fn as_slice(&self) -> &[(RuleName, Rule)]
        ensures { result.now ≡ self.now }
    {
        self.pairs.as_slice()
    }
}

/// What is known of a gateway's session, at least one fact, which contracts see as the facts that are kept, ascending. Each is one that an
/// operation gives.
#[derive(Drop)]
pub struct GxRec {
    facts: Record<GxFact>,
}

impl Model for GxRec {
    ghost use Rattle.std.specs.Prelude.{◌≡◌, true, List};
    ghost use Rattle.pcrf_values.specs.Facts.{Fact};
    ghost use Rattle.pcrf_model.specs.Forms.{is_record};
    ghost use Rattle.pcrf_model.specs.Sessions.{Gx};

    ghost Value = { List Fact };

    ghost view = { λ r. r.facts };

    ghost invariant = { λ r. is_record Gx r.facts ≡ true };
}

impl Join for GxRec {
    ghost use Rattle.std.specs.Prelude.{◌++◌};
    ghost use Rattle.pcrf_values.specs.Held.{kept_list, join_of};
    ghost use Rattle.pcrf_values.proofs.JoinedLaws.{joined_comm, joined_assoc, joined_idem, held_twice};

    ghost joined = { join_of };

    ghost valid = { λ facts. kept_list facts ≡ facts };

    ghost commutative = { joined_comm };

    ghost associative = { joined_assoc };

    ghost idempotent = { joined_idem };

    ghost closed = { λ xs ys _ _. held_twice (xs ++ ys) };

    fn joined_copy(&self, other: &GxRec) -> Result<GxRec, AllocError> {
        let facts = self.facts.joined_copy(&other.facts)?;
        Ok(GxRec { facts })
    }

    fn join_in(&mut self, other: GxRec) -> Result<(), (AllocError, GxRec)> {
        if let Err((refused, facts)) = self.facts.join_in(other.facts) {
            return Err((refused, GxRec { facts }));
        }
        Ok(())
    }

    fn try_copy(&self) -> Result<GxRec, AllocError> {
        let facts = self.facts.try_copy()?;
        Ok(GxRec { facts })
    }

    fn note_valid(&self) {
        self.facts.note_valid();
    }
}

impl FactSet for GxRec {
    ghost use Rattle.lattice_core.specs.Sets.{facts_subset, facts_empty};

    ghost subset = { facts_subset };

    ghost empty = { facts_empty };

    fn is_subset(&self, other: &GxRec) -> bool {
        self.facts.is_subset(&other.facts)
    }

    fn is_empty(&self) -> bool {
        self.facts.is_empty()
    }
}

impl GxRec {
    /// The record of what is kept of these facts, which are those of operations, of one or of more.
    pub fn of_facts(alloc: Global, facts: &[GxFact]) -> Result<GxRec, AllocError>
        requires { is_record Gx (map fact_of facts.now) ≡ true }
        ensures { IfOk result (λ r. r ≡ kept_list (map fact_of facts.now)) }
    {
        GxRec::of(copy_facts(alloc, facts)?)
    }

    /// The record of what is kept of these facts, which move into it.
    pub fn of(facts: Vec<GxFact>) -> Result<GxRec, AllocError>
        requires { is_record Gx (map fact_of facts.items) ≡ true }
        ensures { IfOk result (λ r. r ≡ kept_list (map fact_of facts.items)) }
    {
        let facts = Record::of_facts(facts)?;
        Ok(GxRec { facts })
    }

    /// Does nothing: its contract tells a proof that something is known, and that each fact is one of some operation.
    pub fn note_known(&self)
        ensures { is_record Gx self.now ≡ true }
    {
        let _ = &self.facts;
    }

    /// All facts that are kept, in order: a record of them is this record again. Its time and memory grow with their number.
    pub fn facts(&self, alloc: Global) -> Result<Vec<GxFact>, AllocError>
        ensures { IfOk result (λ facts. map fact_of facts.items ≡ self.now) }
    {
        copy_facts(alloc, self.facts.as_slice())
    }

    /// The same where they are.
    pub fn as_slice(&self) -> &[GxFact]
        ensures { map fact_of result.now ≡ self.now }
    {
        self.facts.as_slice()
    }

    /// The session is ended.
    pub fn ended(&self) -> bool
        ensures { result ≡ is_ended self.now }
    {
        self.facts.ended()
    }

    /// The session isn't ended, and shows all that an initial request gives.
    #[tactic(auto, using(crate::proofs::FieldLaws::said))]
    pub fn live(&self) -> bool
        ensures { result ≡ gx_is_live self.now }
    {
        if self.ended() {
            return false;
        }
        (self.address().is_some() || self.prefix().is_some())
            && self.apn().is_some()
            && self.subscribers().is_some()
            && self.host().is_some()
            && self.realm().is_some()
            && self.last().is_some()
    }

    /// What the session's field of that number shows.
    fn field(&self, number: u8) -> Option<(Tag, &SessionValue<Enumerated<OpenRequestType>>)>
        ensures at { IfSome result (λ e. number ≡ session_number e.1.now) }
        ensures shown { (f : SessionField) → session_field_number f ≡ number
            → session_entry (option_map (λ e. (e.0, e.1.now)) result)
            ≡ entry_shown self.now (OfSession f) }
    {
        if let Some(found) = self.field_in_place(number) {
            return Some(found);
        }
        match self.facts.at(&position_of_field(number)) {
            None => None,
            Some(GxFact::Field(tag, value)) => Some((*tag, value)),
            Some(_) => None,
        }
    }

    /// The same, where the field stands at its number's place, as it does if none before it is missing.
    fn field_in_place(
        &self,
        number: u8,
    ) -> Option<(Tag, &SessionValue<Enumerated<OpenRequestType>>)>
        ensures at { IfSome result (λ e. number ≡ session_number e.1.now) }
        ensures shown { IfSome result (λ e. (f : SessionField) → session_field_number f ≡ number
            → session_entry (Some (e.0, e.1.now)) ≡ entry_shown self.now (OfSession f)) }
    {
        self.facts.note_valid();
        let place = usize::from(number).wrapping_sub(1);
        let Some(fact) = self.facts.as_slice().get(place) else {
            return None;
        };
        let GxFact::Field(tag, value) = fact else {
            return None;
        };
        if session_position(value).field != number {
            return None;
        }
        Some((*tag, value))
    }

    /// Does nothing: its contract tells a proof that no component and no flow shows anything.
    pub fn note_places(&self)
        ensures components { (c : ℕ) (f : ComponentField)
            → None ≡ entry_shown self.now (OfComponent c f) }
        ensures flows { (c n : ℕ) (f : FlowField) → None ≡ entry_shown self.now (OfFlow c n f) }
    {
        let _ = self.facts.as_slice();
    }

    /// The Framed-IP-Address, with its tag.
    pub fn address(&self) -> Option<(Tag, &Ipv4Addr)>
        ensures { entry_by address_value (option_map (λ e. (e.0, e.1.now)) result)
            ≡ entry_shown self.now places.address }
    {
        match self.field(1) {
            None => None,
            Some((tag, SessionValue::Address(address))) => Some((tag, address)),
            Some(_) => None,
        }
    }

    /// The Called-Station-Id, with its tag.
    pub fn apn(&self) -> Option<(Tag, &Apn)>
        ensures { entry_by Text (option_map (λ e. (e.0, e.1.now)) result)
            ≡ entry_shown self.now places.apn }
    {
        match self.field(2) {
            None => None,
            Some((tag, SessionValue::Apn(apn))) => Some((tag, apn)),
            Some(_) => None,
        }
    }

    /// The subscribers, with their tag.
    pub fn subscribers(&self) -> Option<(Tag, &Subscribers)>
        ensures { entry_by values.Subscribers (option_map (λ e. (e.0, e.1.now)) result)
            ≡ entry_shown self.now places.subscribers }
    {
        match self.field(3) {
            None => None,
            Some((tag, SessionValue::Subscribers(subscribers))) => Some((tag, subscribers)),
            Some(_) => None,
        }
    }

    /// The Origin-Host of the gateway, with its tag.
    pub fn host(&self) -> Option<(Tag, &DiameterIdentity)>
        ensures { entry_by Text (option_map (λ e. (e.0, e.1.now)) result)
            ≡ entry_shown self.now places.host }
    {
        match self.field(4) {
            None => None,
            Some((tag, SessionValue::Host(host))) => Some((tag, host)),
            Some(_) => None,
        }
    }

    /// The Origin-Realm of the gateway, with its tag.
    pub fn realm(&self) -> Option<(Tag, &DiameterIdentity)>
        ensures { entry_by Text (option_map (λ e. (e.0, e.1.now)) result)
            ≡ entry_shown self.now places.realm }
    {
        match self.field(5) {
            None => None,
            Some((tag, SessionValue::Realm(realm))) => Some((tag, realm)),
            Some(_) => None,
        }
    }

    /// The CC-Request-Type of the last request, with its tag.
    pub fn last(&self) -> Option<(Tag, &Enumerated<OpenRequestType>)>
        ensures { entry_by Number (option_map (λ e. (e.0, e.1.now)) result)
            ≡ entry_shown self.now places.last }
    {
        match self.field(6) {
            None => None,
            Some((tag, SessionValue::Last(last))) => Some((tag, last)),
            Some(_) => None,
        }
    }

    /// The Framed-IPv6-Prefix, with its tag.
    pub fn prefix(&self) -> Option<(Tag, &Ipv6Prefix)>
        ensures { entry_by values.Prefix (option_map (λ e. (e.0, e.1.now)) result)
            ≡ entry_shown self.now places.prefix }
    {
        match self.field(7) {
            None => None,
            Some((tag, SessionValue::Prefix(prefix))) => Some((tag, prefix)),
            Some(_) => None,
        }
    }

    /// The site that served the last request, by the tag of its type.
    pub fn home(&self) -> Option<u8>
        ensures { result ≡ home self.now }
    {
        match self.last() {
            Some((tag, _)) => Some(tag.site),
            None => None,
        }
    }

    /// The facts in order, of which those told under names are the last.
    pub fn told_facts(&self) -> &[GxFact]
        ensures { filter_map told_entry (map fact_of result.now) ≡ told_entries self.now }
    {
        self.facts.as_slice()
    }

    /// The names that show a rule, each with its rule.
    pub fn told_rules(&self, alloc: Global) -> Result<Told, AllocError>
        ensures { IfOk result (λ t. t ≡ told_rules self.now) }
    {
        let mut pairs = Vec::new(alloc);
        add_rules(&mut pairs, self.told_facts())?;
        Ok(Told { pairs })
    }
}

/// Adds the rules that facts tell, each with its name.
fn add_rules(pairs: &mut Vec<(RuleName, Rule)>, facts: &[GxFact]) -> Result<(), AllocError>
    ensures { OnOk result (pairs.new.items ≡ pairs.old.items ++ flat_map rules_told facts.now) }
{
    for fact in facts {
        add_fact(pairs, fact)?;
    }
    Ok(())
}

/// Adds the rule that a fact tells, if it tells one.
fn add_fact(pairs: &mut Vec<(RuleName, Rule)>, fact: &GxFact) -> Result<(), AllocError>
    ensures { OnOk result (pairs.new.items ≡ pairs.old.items ++ rules_told fact.now) }
{
    match fact {
        GxFact::Told(_, name, told) => add_rule(pairs, name, told),
        _ => Ok(()),
    }
}

/// Adds a rule under its name, where there is one.
fn add_rule(
    pairs: &mut Vec<(RuleName, Rule)>,
    name: &RuleName,
    told: &Option<Rule>,
) -> Result<(), AllocError>
    ensures { OnOk result (pairs.new.items ≡ pairs.old.items ++ rule_under name.now told.now) }
{
    let Some(rule) = told else {
        return Ok(());
    };
    let name = name.try_copy()?;
    let rule = rule.try_copy()?;
    pairs.push((name, rule))?;
    Ok(())
}
