//! The facts of Gx sessions, and these as records of facts ask for them.
ghost use Rattle.std.specs.Prelude.{◌≡◌, IfOk};
ghost use Rattle.pcrf_values.specs.Values.{value_cmp};
ghost use Rattle.gx_records.specs.GxFacts.{told_value};

use crate::open_request_type::OpenRequestType;
use lattice_core::{
    Beneath, Position, RULE_NAME, Ranked, SessionValue, Tag, TypedFact, compare_values,
    session_position,
};
use pcrf_values::{Enumerated, Rule, RuleName};
use std::alloc::AllocError;
use std::cmp::Ordering;

/// A fact of a Gx session.
#[derive(Debug, Drop)]
pub enum GxFact {
    /// The session is ended.
    End,
    /// A field of the session.
    Field(Tag, SessionValue<Enumerated<OpenRequestType>>),
    /// What the gateway was told under the name of a rule: the rule, or none where no rule counts as told under it, by a removal
    /// or a retelling.
    Told(Tag, RuleName, Option<Rule>),
}

impl GxFact {
    /// An equal fact.
    pub fn try_copy(&self) -> Result<GxFact, AllocError>
        ensures { IfOk result (λ r. r ≡ self.now) }
    {
        match self {
            GxFact::End => Ok(GxFact::End),
            GxFact::Field(tag, value) => Ok(GxFact::Field(*tag, value.try_copy()?)),
            GxFact::Told(tag, name, rule) => {
                Ok(GxFact::Told(*tag, name.try_copy()?, rule.try_copy()?))
            }
        }
    }
}

/// How what was told under one name compares: that no rule is told is below every rule.
#[tactic(auto, using(crate::proofs::FieldLaws::told_order))]
fn compare_told(one: &Option<Rule>, other: &Option<Rule>) -> Ordering
    ensures { result ≡ value_cmp (told_value one.now) (told_value other.now) }
{
    one.cmp(other)
}

impl TypedFact for GxFact {
    ghost use Rattle.gx_records.specs.GxFacts as gx_facts;

    ghost fact = { gx_facts.fact_of };

    fn position(&self) -> Position<'_> {
        match self {
            GxFact::End => Position::of_end(),
            GxFact::Field(_, value) => session_position(value),
            GxFact::Told(_, name, _) => Position {
                code: RULE_NAME,
                component: 0,
                flow: 0,
                field: 0,
                name: name.as_slice(),
            },
        }
    }

    fn is_field(&self) -> bool {
        match self {
            GxFact::End => false,
            GxFact::Field(_, _) | GxFact::Told(_, _, _) => true,
        }
    }

    fn beneath(&self) -> Beneath {
        match self {
            GxFact::End => Beneath::Nothing,
            GxFact::Field(_, _) | GxFact::Told(_, _, _) => Beneath::Session,
        }
    }

    fn compare_entry(&self, other: &GxFact) -> Ordering {
        match self {
            GxFact::End => Ordering::Equal,
            GxFact::Field(tag, value) => match other {
                GxFact::Field(other_tag, other_value) => {
                    tag.cmp(other_tag).then(compare_values(value, other_value))
                }
                _ => Ordering::Equal,
            },
            GxFact::Told(tag, _, rule) => match other {
                GxFact::Told(other_tag, _, other_rule) => {
                    tag.cmp(other_tag).then(compare_told(rule, other_rule))
                }
                _ => Ordering::Equal,
            },
        }
    }

    fn try_copy(&self) -> Result<GxFact, AllocError> {
        GxFact::try_copy(self)
    }
}
