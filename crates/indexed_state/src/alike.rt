//! Records of a gateway's session by which rules and bindings are the same.
ghost use Rattle.std.specs.Prelude.{◌≡◌, Some, true, map, option_map};
ghost use Rattle.std.specs.Option.{option_copied};
ghost use Rattle.gx_records.specs.GxFacts.{fact_of};
ghost use Rattle.pcrf_values.specs.Facts.{Fact};
ghost use Rattle.pcrf_values.specs.Sets.{In};
ghost use Rattle.site_join.specs.States.{record_facts};
ghost use Rattle.indexed_state.specs.Alike.{Refreshes, ShowAlike, tagged};

use gx_records::{GxFact, GxRec, SessionValue};
use pcrf_values::{Ranked, Tag, same};

/// Both records show the same address and the same prefix under the same tags, by which bindings choose, the same access point
/// and the same subscribers, and both sessions are live or neither is: so rules and bindings by the one are those by the other.
pub(crate) fn show_alike(before: Option<&GxRec>, after: Option<&GxRec>) -> bool
    ensures { result ≡ true → ShowAlike (record_facts (option_copied before.entry))
        (record_facts (option_copied after.entry)) }
{
    match (before, after) {
        (Some(before), Some(after)) => records_alike(before, after),
        _ => false,
    }
}

/// So of two records that are there.
fn records_alike(before: &GxRec, after: &GxRec) -> bool
    ensures { result ≡ true → ShowAlike before.now after.now }
{
    before.live() == after.live()
        && same_entry(before.address(), after.address())
        && same_entry(before.prefix(), after.prefix())
        && same_value(before.apn(), after.apn())
        && same_value(before.subscribers(), after.subscribers())
}

/// Both show the same value under the same tag, or neither shows one.
fn same_entry<T: Ranked>(before: Option<(Tag, &T)>, after: Option<(Tag, &T)>) -> bool
    ensures { result ≡ true → option_map (λ e. tagged e.0 e.1.now) before.entry
        ≡ option_map (λ e. tagged e.0 e.1.now) after.entry }
{
    match (before, after) {
        (Some((tag, ours)), Some((other, theirs))) => same(&tag, &other) && same(ours, theirs),
        (None, None) => true,
        _ => false,
    }
}

/// Both show the same value, under whatever tags, or neither shows one.
fn same_value<T: Ranked>(before: Option<(Tag, &T)>, after: Option<(Tag, &T)>) -> bool
    ensures { result ≡ true → option_map (λ e. e.1.now) before.entry
        ≡ option_map (λ e. e.1.now) after.entry }
{
    match (before, after) {
        (Some((_, ours)), Some((_, theirs))) => same(ours, theirs),
        (None, None) => true,
        _ => false,
    }
}

/// Each of these facts is a field of which rules and bindings read nothing, or read what the record shows already.
pub(crate) fn refresh(known: &GxRec, facts: &[GxFact]) -> bool
    ensures { result ≡ true → (f : Fact) → In f (map fact_of facts.now) → Refreshes known.now f }
{
    let mut left = facts;
    'each: while let Some((first, rest)) = left.split_first() {
        if !refreshes(known, first) {
            return false;
        }
        left = rest;
    }
    true
}

/// So is one.
fn refreshes(known: &GxRec, fact: &GxFact) -> bool
    ensures { result ≡ true → Refreshes known.now (fact_of fact.now) }
{
    match fact {
        GxFact::Field(_, SessionValue::Apn(apn)) => shows_value(known.apn(), apn),
        GxFact::Field(_, SessionValue::Subscribers(ids)) => shows_value(known.subscribers(), ids),
        GxFact::Field(_, SessionValue::Host(_)) => true,
        GxFact::Field(_, SessionValue::Realm(_)) => true,
        GxFact::Field(_, SessionValue::Last(_)) => true,
        _ => false,
    }
}

/// This value shows, under whatever tag.
fn shows_value<T: Ranked>(shown: Option<(Tag, &T)>, value: &T) -> bool
    ensures { result ≡ true → option_map (λ e. e.1.now) shown.entry ≡ Some value.now }
{
    match shown {
        Some((_, standing)) => same(standing, value),
        None => false,
    }
}
