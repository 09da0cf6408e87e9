//! Whether a gateway was told all.
ghost use Rattle.std.specs.Prelude.{◌≡◌, not};
ghost use Rattle.std.specs.List.{list_any};
ghost use Rattle.pcrf_values.specs.ToldWords.{told_rules};
ghost use Rattle.pcrf_model.specs.Differences.{difference, holds, is_empty};
ghost use Rattle.gx_records.specs.GxFacts.{rules_told};
ghost use Rattle.rule_delta.specs.ToldAll.{has_no_rule, tell};

use crate::application::has_name;
use gx_records::{GxFact, GxRec};
use pcrf_values::Rule;
use std::cmp::Ordering;

/// Whether a gateway of this record was told just these rules, so that it is to be told nothing. It takes no memory; its time grows
/// with the number of what was told times that of the rules.
pub fn is_told_all(known: &GxRec, rules: &[Rule]) -> bool
    ensures { result ≡ is_empty (difference (told_rules known.now) rules.now) }
{
    let facts = known.told_facts();
    !lacks_a_rule(facts, rules) && !lacks_a_fact(facts, rules)
}

/// Whether a rule that facts tell has no rule of its name.
fn lacks_a_rule(facts: &[GxFact], rules: &[Rule]) -> bool
    ensures { result ≡ list_any (has_no_rule rules.now) facts.now }
{
    facts.iter().any(|fact| has_no_rule(fact, rules))
}

/// Whether a rule isn't told just so.
fn lacks_a_fact(facts: &[GxFact], rules: &[Rule]) -> bool
    ensures { result ≡ list_any (λ r. not (tell facts.now r)) rules.now }
{
    rules.iter().any(|rule| !tell(facts, rule))
}

/// Whether facts tell just this rule under its name.
pub(crate) fn tell(facts: &[GxFact], rule: &Rule) -> bool
    ensures { result ≡ tell facts.now rule.now }
{
    facts.iter().any(|fact| tells(fact, rule))
}

/// Whether a fact tells just this rule under its name.
fn tells(fact: &GxFact, rule: &Rule) -> bool
    ensures { result ≡ holds (rules_told fact.now) rule.now }
{
    match fact {
        GxFact::Told(_, name, Some(told)) => {
            name.cmp(rule.name()) == Ordering::Equal && told.cmp(rule) == Ordering::Equal
        }
        _ => false,
    }
}

/// Whether a fact tells a rule, and no rule has its name.
fn has_no_rule(fact: &GxFact, rules: &[Rule]) -> bool
    ensures { result ≡ has_no_rule rules.now fact.now }
{
    match fact {
        GxFact::Told(_, name, Some(_)) => !has_name(rules, name),
        _ => false,
    }
}
