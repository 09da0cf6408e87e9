//! What a gateway has after it was told a difference.
ghost use Rattle.std.specs.Prelude.{◌≡◌, ◌++◌, map, IfOk, OnOk};
ghost use Rattle.std.specs.List.{filter, list_any};
ghost use Rattle.pcrf_model.specs.Differences.{apply, as_told, has_name, last_of_names, stays};

use crate::differences::{names_of, set_of};
use gx_records::Told;
use pcrf_values::{Delta, Ranked, Rule, RuleName, ascending_of};
use std::alloc::{AllocError, Global};
use std::cmp::Ordering;

/// What a gateway that was told these rules has after this difference: without the removed names, and with the installed
/// rules in the place of those of their names; of two that are installed under one name the later one.
pub fn apply(alloc: Global, told: &Told, delta: &Delta) -> Result<Told, AllocError>
    ensures { IfOk result (λ after. after ≡ apply told.now delta.now) }
{
    let mut pairs = staying(alloc, told.as_slice(), delta)?;
    add_rules(&mut pairs, delta.installed())?;
    Ok(Told::of(ascending_of(alloc, pairs)?))
}

/// What was told that is neither removed nor installed anew.
fn staying(
    alloc: Global,
    told: &[(RuleName, Rule)],
    delta: &Delta,
) -> Result<Vec<(RuleName, Rule)>, AllocError>
    ensures { IfOk result (λ kept. kept.items ≡ filter (stays delta.now) told.now) }
{
    let removed = set_of(alloc, delta.removed())?;
    let installed = names_of(alloc, delta.installed())?;
    let mut kept = Vec::new(alloc);
    for pair in told {
        if !removed.contains(&&pair.0) && !installed.contains(&&pair.0) {
            let copy = pair.try_copy()?;
            kept.push(copy)?;
        }
    }
    Ok(kept)
}

/// Adds rules under their names; of one name the last.
fn add_rules(pairs: &mut Vec<(RuleName, Rule)>, rules: &[Rule]) -> Result<(), AllocError>
    ensures { OnOk result (pairs.new.items
        ≡ pairs.old.items ++ map as_told (last_of_names rules.now)) }
{
    let mut rest = rules;
    while let Some((rule, later)) = rest.split_first() {
        if !has_name(later, rule.name()) {
            let name = rule.name().try_copy()?;
            let copy = rule.try_copy()?;
            pairs.push((name, copy))?;
        }
        rest = later;
    }
    Ok(())
}

/// Whether a rule has this name.
pub(crate) fn has_name(rules: &[Rule], name: &RuleName) -> bool
    ensures { result ≡ list_any (has_name name.now) rules.now }
{
    rules
        .iter()
        .any(|rule| rule.name().cmp(name) == Ordering::Equal)
}
