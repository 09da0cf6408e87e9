//! The difference between what the gateway of a record was told and the rules that it is to have.
ghost use Rattle.std.specs.Prelude.{◌≡◌, ◌++◌, IfOk, OnOk, not};
ghost use Rattle.std.specs.List.{filter, flat_map};
ghost use Rattle.pcrf_values.specs.ToldWords.{told_rules};
ghost use Rattle.pcrf_model.specs.Differences.{difference};
ghost use Rattle.rule_delta.specs.ToldAll.{names_left, tell};

use crate::application::has_name;
use crate::differences::difference;
use crate::told_all::tell;
use gx_records::{GxFact, GxRec};
use pcrf_values::{Delta, Ranked, Rule, RuleName};
use std::alloc::{AllocError, Global};

/// So many rules at most are each compared with all that was told.
const FEW_RULES: usize = 8;

/// What a gateway of this record is still to be told to have just these rules, as `difference` gives it. Where the rules are few
/// nothing is copied but the names that are removed and the rules that are installed: where there are none of either it takes
/// no memory.
pub fn difference_of(alloc: Global, known: &GxRec, rules: &[Rule]) -> Result<Delta, AllocError>
    ensures { IfOk result (λ delta. delta ≡ difference (told_rules known.now) rules.now) }
{
    if rules.len() > FEW_RULES {
        return difference(alloc, &known.told_rules(alloc)?, rules);
    }
    let facts = known.told_facts();
    let removed = names_to_remove(alloc, facts, rules)?;
    let installed = rules_to_install(alloc, facts, rules)?;
    Ok(Delta::of(removed, installed))
}

/// The names under which facts tell a rule and that no rule has.
fn names_to_remove(
    alloc: Global,
    facts: &[GxFact],
    rules: &[Rule],
) -> Result<Vec<RuleName>, AllocError>
    ensures { IfOk result (λ found. found.items ≡ flat_map (names_left rules.now) facts.now) }
{
    let mut removed = Vec::new(alloc);
    for fact in facts {
        add_name(&mut removed, fact, rules)?;
    }
    Ok(removed)
}

/// Adds the name under which a fact tells a rule, if no rule has it.
fn add_name(removed: &mut Vec<RuleName>, fact: &GxFact, rules: &[Rule]) -> Result<(), AllocError>
    ensures { OnOk result (removed.new.items
        ≡ removed.old.items ++ names_left rules.now fact.now) }
{
    let GxFact::Told(_, name, Some(_)) = fact else {
        return Ok(());
    };
    if has_name(rules, name) {
        return Ok(());
    }
    removed.push(name.try_copy()?)?;
    Ok(())
}

/// The rules that facts don't tell just so.
fn rules_to_install(
    alloc: Global,
    facts: &[GxFact],
    rules: &[Rule],
) -> Result<Vec<Rule>, AllocError>
    ensures { IfOk result (λ found.
        found.items ≡ filter (λ r. not (tell facts.now r)) rules.now) }
{
    let mut installed = Vec::new(alloc);
    for rule in rules {
        if !tell(facts, rule) {
            let copy = rule.try_copy()?;
            installed.push(copy)?;
        }
    }
    Ok(installed)
}
