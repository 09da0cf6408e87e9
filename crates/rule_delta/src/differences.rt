//! The difference between the rules that a gateway was told and those that it is to have, by rules and their names, for look-ups.
ghost use Rattle.std.specs.Prelude.{◌≡◌, ℕ, List, IfOk};
ghost use Rattle.std.specs.BTreeSet.{contains_by};
ghost use Rattle.std.specs.List.{list_any};
ghost use Rattle.std.specs.Ordering.{is_eq};
ghost use Rattle.pcrf_values.specs.Orders.{pair_cmp, text_cmp};
ghost use Rattle.pcrf_values.specs.RuleValues.{RuleValue, rule_cmp};
ghost use Rattle.pcrf_model.specs.Differences.{has_name, holds, difference};

use gx_records::Told;
use pcrf_values::{Delta, Ranked, Rule, RuleName};
use std::alloc::{AllocError, Global};
use std::collections::BTreeSet;

/// The names of rules.
pub fn names_of<'a>(alloc: Global, rules: &'a [Rule]) -> Result<BTreeSet<&'a RuleName>, AllocError>
    ensures { IfOk result (λ names. (n : List ℕ) →
        contains_by (λ k. text_cmp n k.now) names ≡ list_any (has_name n) rules.now) }
{
    let mut names = BTreeSet::new(alloc);
    for rule in rules {
        names.insert(rule.name())?;
    }
    Ok(names)
}

/// What was told, each name with its rule.
pub fn pairs_of<'a>(
    alloc: Global,
    told: &'a [(RuleName, Rule)],
) -> Result<BTreeSet<(&'a RuleName, &'a Rule)>, AllocError>
    ensures { IfOk result (λ pairs. (r : RuleValue) → contains_by
        (λ k. pair_cmp text_cmp rule_cmp (r.name, r) (k.0.now, k.1.now)) pairs ≡ holds told.now r) }
{
    let mut pairs = BTreeSet::new(alloc);
    for (name, rule) in told {
        pairs.insert((name, rule))?;
    }
    Ok(pairs)
}

/// The names of a list.
pub fn set_of<'a>(
    alloc: Global,
    names: &'a [RuleName],
) -> Result<BTreeSet<&'a RuleName>, AllocError>
    ensures { IfOk result (λ set. (n : List ℕ) → contains_by (λ k. text_cmp n k.now) set
        ≡ list_any (λ m. is_eq (text_cmp m n)) names.now) }
{
    let mut set = BTreeSet::new(alloc);
    for name in names {
        set.insert(name)?;
    }
    Ok(set)
}

/// What a gateway that was told these rules is still to be told to have those: the names to remove that the rules lack,
/// ascending, and the rules to install that it wasn't told just so, in their order. Its time grows with the number of both
/// and the logarithm of it.
pub fn difference(alloc: Global, told: &Told, rules: &[Rule]) -> Result<Delta, AllocError>
    ensures { IfOk result (λ delta. delta ≡ difference told.now rules.now) }
{
    let removed = removed_names(alloc, told.as_slice(), rules)?;
    let installed = new_rules(alloc, told.as_slice(), rules)?;
    Ok(Delta::of(removed, installed))
}

/// The names told that no rule has.
fn removed_names(
    alloc: Global,
    told: &[(RuleName, Rule)],
    rules: &[Rule],
) -> Result<Vec<RuleName>, AllocError>
    ensures { IfOk result (λ found. found.items ≡ (difference told.now rules.now).removed) }
{
    let names = names_of(alloc, rules)?;
    let mut removed = Vec::new(alloc);
    for (name, _) in told {
        if !names.contains(&name) {
            let copy = name.try_copy()?;
            removed.push(copy)?;
        }
    }
    Ok(removed)
}

/// The rules that were not told just so.
fn new_rules(
    alloc: Global,
    told: &[(RuleName, Rule)],
    rules: &[Rule],
) -> Result<Vec<Rule>, AllocError>
    ensures { IfOk result (λ found. found.items ≡ (difference told.now rules.now).installed) }
{
    let pairs = pairs_of(alloc, told)?;
    let mut installed = Vec::new(alloc);
    for rule in rules {
        if !pairs.contains(&(rule.name(), rule)) {
            let copy = rule.try_copy()?;
            installed.push(copy)?;
        }
    }
    Ok(installed)
}
