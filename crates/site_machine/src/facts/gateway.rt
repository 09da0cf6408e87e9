//! The facts of gateways' sessions: of credit control requests (TS 29.212, 4.5.1 and 4.5.7), and those that tell a gateway of rules
//! (4.5.2).
ghost use Rattle.std.specs.Prelude.{◌≡◌, ◌∷◌, [], IfOk, map, ◌++◌, OnOk, true};
ghost use Rattle.pcrf_values.specs.Facts.{End, fact_cmp};
ghost use Rattle.lattice_core.specs.SessionFacts.{session_fact};
ghost use Rattle.gx_records.specs.GxFacts.{fact_of};
ghost use Rattle.gx_records.specs.Numbers.{open_request_number};
ghost use Rattle.gx_profile.specs.Requests.{ccr_view};
ghost use Rattle.site_machine.specs.Gateway.{fields_set, made_facts};
ghost use Rattle.std.specs.List.{list_all};
ghost use Rattle.pcrf_values.specs.Ascending.{ascending};
ghost use Rattle.pcrf_model.specs.Differences.{told_name_of};
ghost use Rattle.pcrf_values.specs.Limits.{rule_name_limit};
ghost use Rattle.pcrf_values.specs.RuleValues.{RuleValue};
ghost use Rattle.pcrf_model.specs.Forms.{is_rule, is_text};
ghost use Rattle.pcrf_model.specs.Making.{told_facts};
ghost use Rattle.pcrf_model.specs.Retelling.{all_removed};
ghost use Rattle.site_machine.specs.Told.{entries_told, installed_entry, removed_entry, told_fact};

use crate::facts::session::{User, session_values};
use gx_profile::Ccr;
use gx_records::{GxFact, GxRec, OpenRequestType, SessionValue};
use pcrf_model::FirstEntries;
use pcrf_model::ranges::{note_rule, note_text};
use pcrf_values::{Enumerated, Ranked, RequestKind, Rule, RuleName, Tag, ascending_of};
use std::alloc::{AllocError, Global};

/// What values say under a tag.
fn of_values(
    alloc: Global,
    tag: Tag,
    values: Vec<SessionValue<Enumerated<OpenRequestType>>>,
) -> Result<Vec<GxFact>, AllocError>
    ensures { IfOk result (λ facts.
        map fact_of facts.items ≡ map (session_fact tag) values.items) }
{
    let mut facts = Vec::new(alloc);
    for value in values {
        facts.push(GxFact::Field(tag, value))?;
    }
    Ok(facts)
}

/// The fields that an initial request or an update sets.
#[tactic(auto, using(crate::proofs::GivenFields::values_say))]
fn fields_of(
    alloc: Global,
    ccr: &Ccr,
    tag: Tag,
    last: OpenRequestType,
) -> Result<Vec<GxFact>, AllocError>
    ensures { IfOk result (λ facts.
        map fact_of facts.items ≡ fields_set (ccr_view ccr.now) tag (open_request_number last)) }
{
    let user = User {
        address: ccr.address,
        prefix: ccr.prefix,
        apn: &ccr.apn,
        subscribers: &ccr.subscribers,
    };
    let values = session_values(alloc, user, &ccr.origin, Enumerated::of(last))?;
    of_values(alloc, tag, values)
}

/// The end of a session.
fn end_of(alloc: Global) -> Result<Vec<GxFact>, AllocError>
    ensures { IfOk result (λ facts. map fact_of facts.items ≡ End ∷ []) }
{
    let mut facts = Vec::new(alloc);
    facts.push(GxFact::End)?;
    Ok(facts)
}

/// The facts that an accepted request makes under a tag.
pub fn facts_made(alloc: Global, ccr: &Ccr, tag: Tag) -> Result<Vec<GxFact>, AllocError>
    ensures { IfOk result (λ facts.
        map fact_of facts.items ≡ made_facts (ccr_view ccr.now) ccr.now.kind tag) }
{
    match ccr.kind {
        RequestKind::Initial => fields_of(alloc, ccr, tag, OpenRequestType::Initial),
        RequestKind::Update => fields_of(alloc, ccr, tag, OpenRequestType::Update),
        RequestKind::Termination => end_of(alloc),
    }
}

/// The record of a session that has ended.
pub fn ended_gateway(alloc: Global) -> Result<GxRec, AllocError>
    ensures { IfOk result (λ known. known ≡ End ∷ []) }
{
    GxRec::of_facts(alloc, &[GxFact::End])
}

/// With what the gateway is told under each name, ascending.
#[tactic(auto, using(crate::proofs::ToldOrder::told_in_order))]
pub fn put_told(
    alloc: Global,
    facts: &mut Vec<GxFact>,
    tag: Tag,
    delta: &FirstEntries,
) -> Result<(), AllocError>
    ensures { OnOk result (map fact_of facts.new.items ≡ map fact_of facts.old.items
        ++ ascending fact_cmp (told_facts tag delta.now)) }
{
    let entries = ascending_of(alloc, entries_of(alloc, delta)?)?;
    put_entries(facts, tag, entries)
}

/// With nothing as what counts as told under each of these names, ascending.
pub fn put_told_away(
    alloc: Global,
    facts: &mut Vec<GxFact>,
    tag: Tag,
    told: &[(RuleName, Rule)],
) -> Result<(), AllocError>
    ensures { OnOk result (map fact_of facts.new.items ≡ map fact_of facts.old.items
        ++ ascending fact_cmp (told_facts tag (all_removed told.now))) }
{
    let entries = ascending_of(alloc, names_removed(alloc, told)?)?;
    put_entries(facts, tag, entries)
}

/// Each of these names as one that is removed.
fn names_removed(
    alloc: Global,
    told: &[(RuleName, Rule)],
) -> Result<Vec<(RuleName, Option<Rule>)>, AllocError>
    ensures { IfOk result (λ entries.
        entries.items ≡ map (λ pair. removed_entry (told_name_of pair)) told.now) }
{
    let mut entries = Vec::new(alloc);
    for (name, _) in told {
        let name = name.try_copy()?;
        entries.push((name, None))?;
    }
    Ok(entries)
}

/// With what is told under these names, in order.
fn put_entries(
    facts: &mut Vec<GxFact>,
    tag: Tag,
    entries: Vec<(RuleName, Option<Rule>)>,
) -> Result<(), AllocError>
    ensures { OnOk result (map fact_of facts.new.items ≡ map fact_of facts.old.items
        ++ map (told_fact tag) entries.items) }
{
    for (name, rule) in entries {
        facts.push(GxFact::Told(tag, name, rule))?;
    }
    Ok(())
}

/// Each name that is told, with the rule that is installed, or with nothing where it is removed.
fn entries_of(
    alloc: Global,
    delta: &FirstEntries,
) -> Result<Vec<(RuleName, Option<Rule>)>, AllocError>
    ensures { IfOk result (λ entries. entries.items ≡ entries_told delta.now) }
{
    let mut entries = Vec::new(alloc);
    put_removed(&mut entries, delta.removed())?;
    put_installed(&mut entries, delta.installed())?;
    Ok(entries)
}

/// With names to remove.
fn put_removed(
    entries: &mut Vec<(RuleName, Option<Rule>)>,
    names: &[RuleName],
) -> Result<(), AllocError>
    ensures { OnOk result (entries.new.items ≡ entries.old.items ++ map removed_entry names.now) }
{
    for name in names {
        let name = name.try_copy()?;
        entries.push((name, None))?;
    }
    Ok(())
}

/// With rules to install, under their names.
fn put_installed(
    entries: &mut Vec<(RuleName, Option<Rule>)>,
    rules: &[Rule],
) -> Result<(), AllocError>
    ensures { OnOk result (entries.new.items ≡ entries.old.items ++ map installed_entry rules.now) }
{
    for rule in rules {
        let name = rule.name().try_copy()?;
        let copy = rule.try_copy()?;
        entries.push((name, Some(copy)))?;
    }
    Ok(())
}

/// Does nothing: its contract tells a proof that names and rules that are told are within their ranges.
pub fn note_entries(delta: &FirstEntries)
    ensures names { list_all (is_text rule_name_limit) delta.now.removed ≡ true }
    ensures rule_names { list_all (λ (r : RuleValue). is_text rule_name_limit r.name)
        delta.now.installed ≡ true }
    ensures rules { list_all is_rule delta.now.installed ≡ true }
{
    note_names(delta.removed());
    note_rules(delta.installed());
}

/// Names of rules are texts.
fn note_names(names: &[RuleName])
    ensures { list_all (is_text rule_name_limit) names.now ≡ true }
{
    for name in names {
        note_text(name);
    }
}

/// So are those of rules, and their parts are within their ranges.
fn note_rules(rules: &[Rule])
    ensures names { list_all (λ (r : RuleValue). is_text rule_name_limit r.name) rules.now ≡ true }
    ensures parts { list_all is_rule rules.now ≡ true }
{
    for rule in rules {
        note_text(rule.name());
        note_rule(rule);
    }
}
