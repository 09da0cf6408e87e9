//! Facts of sessions of both kinds, whose tags the caller gives.
ghost use Rattle.std.specs.Prelude.{◌≡◌, ◌++◌, ◌∷◌, [], length, map, IfOk, Some, None};
ghost use Rattle.std.specs.List.{flat_map};
ghost use Rattle.gx_records.specs.GxFacts as gx_facts;
ghost use Rattle.af_records.specs.RecordFacts as af_facts;
ghost use Rattle.fact_codec.specs.Spelling.{fact_bytes, facts_bytes};
ghost use Rattle.fact_codec.specs.Reading.{Gives, many};
ghost use Rattle.fact_codec.specs.Said.{gx_fact, af_fact, facts};

use crate::fault::Unread;
use crate::numbers::{byte_at, word_at};
use crate::rules::told_at;
use crate::said::{component_value_at, flow_value_at, session_value_at};
use crate::version::{LetterVersion, has_aborts};
use af_records::AfFact;
use gx_records::GxFact;
use lattice_core::Tag;
use std::alloc::Global;

/// A fact of a gateway's session, as letters of the version have it.
#[tactic(auto, using(crate::proofs::FactViews::session_is), unfolding(crate::specs::Said::gx_fact, crate::specs::Spelling::fact_bytes))]
pub(crate) fn gx_fact_at(
    alloc: Global,
    version: LetterVersion,
    field_tag: Tag,
    told_tag: Tag,
    bytes: &[u8],
) -> Result<(GxFact, &[u8]), Unread>
    ensures read { Gives (λ x. (gx_facts.fact_of x.0, x.1.now)) result
        (gx_fact version field_tag told_tag bytes.now) }
    ensures spelled { IfOk result (λ x. bytes.now
        ≡ fact_bytes (gx_facts.fact_of x.0) ++ x.1.now) }
{
    let (code, rest) = byte_at(bytes)?;
    match code {
        1 => Ok((GxFact::End, rest)),
        2 => {
            let (value, rest) = session_value_at(alloc, version, rest)?;
            Ok((GxFact::Field(field_tag, value), rest))
        }
        7 => {
            let ((name, rule), rest) = told_at(alloc, rest)?;
            Ok((GxFact::Told(told_tag, name, rule), rest))
        }
        _ => Err(Unread::BadShape),
    }
}

/// A fact of an AF session, as letters of the version have it.
#[tactic(auto, using(crate::proofs::FactViews::session_is, crate::proofs::FactViews::component_is, crate::proofs::FactViews::flow_is), unfolding(crate::specs::Said::af_fact, crate::specs::Spelling::fact_bytes))]
pub(crate) fn af_fact_at(
    alloc: Global,
    version: LetterVersion,
    tag: Tag,
    bytes: &[u8],
) -> Result<(AfFact, &[u8]), Unread>
    ensures read { Gives (λ x. (af_facts.fact_of x.0, x.1.now)) result
        (af_fact version tag bytes.now) }
    ensures spelled { IfOk result (λ x. bytes.now
        ≡ fact_bytes (af_facts.fact_of x.0) ++ x.1.now) }
{
    let (code, rest) = byte_at(bytes)?;
    match code {
        1 => Ok((AfFact::End, rest)),
        2 => {
            let (value, rest) = session_value_at(alloc, version, rest)?;
            Ok((AfFact::Session(tag, value), rest))
        }
        3 => {
            let (component, rest) = word_at(rest)?;
            Ok((AfFact::ComponentRemoved(component), rest))
        }
        4 => {
            let (component, rest) = word_at(rest)?;
            let (flow, rest) = word_at(rest)?;
            Ok((AfFact::FlowRemoved(component, flow), rest))
        }
        5 => {
            let (component, rest) = word_at(rest)?;
            match component_value_at(rest) {
                Ok((value, rest)) => Ok((AfFact::Component(component, tag, value), rest)),
                Err(unread) => Err(unread),
            }
        }
        6 => {
            let (component, rest) = word_at(rest)?;
            let (flow, rest) = word_at(rest)?;
            let (value, rest) = flow_value_at(alloc, rest)?;
            Ok((AfFact::Flow(component, flow, tag, value), rest))
        }
        8 => {
            if !has_aborts(version) {
                return Err(Unread::BadShape);
            }
            Ok((AfFact::Aborted, rest))
        }
        _ => Err(Unread::BadShape),
    }
}

/// So many facts of a gateway's session. Room is made for each as it is read.
fn list_of_gx_facts(
    alloc: Global,
    version: LetterVersion,
    field_tag: Tag,
    told_tag: Tag,
    count: u32,
    bytes: &[u8],
) -> Result<(Vec<GxFact>, &[u8]), Unread>
    ensures read { Gives (λ x. (map gx_facts.fact_of x.0.items, x.1.now)) result
        (many (gx_fact version field_tag told_tag) count bytes.now) }
    ensures spelled { IfOk result (λ x. bytes.now
        ≡ flat_map fact_bytes (map gx_facts.fact_of x.0.items) ++ x.1.now) }
    ensures counted { IfOk result (λ x. length (map gx_facts.fact_of x.0.items) ≡ count) }
{
    let mut items = Vec::new(alloc);
    let mut rest = bytes;
    for _ in 0..count {
        let (item, after) = gx_fact_at(alloc, version, field_tag, told_tag, rest)?;
        items.push(item)?;
        rest = after;
    }
    Ok((items, rest))
}

/// So many facts of an AF session. Room is made for each as it is read.
fn list_of_af_facts(
    alloc: Global,
    version: LetterVersion,
    tag: Tag,
    count: u32,
    bytes: &[u8],
) -> Result<(Vec<AfFact>, &[u8]), Unread>
    ensures read { Gives (λ x. (map af_facts.fact_of x.0.items, x.1.now)) result
        (many (af_fact version tag) count bytes.now) }
    ensures spelled { IfOk result (λ x. bytes.now
        ≡ flat_map fact_bytes (map af_facts.fact_of x.0.items) ++ x.1.now) }
    ensures counted { IfOk result (λ x. length (map af_facts.fact_of x.0.items) ≡ count) }
{
    let mut items = Vec::new(alloc);
    let mut rest = bytes;
    for _ in 0..count {
        let (item, after) = af_fact_at(alloc, version, tag, rest)?;
        items.push(item)?;
        rest = after;
    }
    Ok((items, rest))
}

/// The facts of a gateway's session, as many as the number before them says: those of its fields under the one tag, those
/// of what it was told under the other.
#[tactic(auto, unfolding(crate::specs::Said::facts, crate::specs::Spelling::facts_bytes))]
pub fn gx_facts_at(
    alloc: Global,
    version: LetterVersion,
    field_tag: Tag,
    told_tag: Tag,
    bytes: &[u8],
) -> Result<(Vec<GxFact>, &[u8]), Unread>
    ensures read { Gives (λ x. (map gx_facts.fact_of x.0.items, x.1.now)) result
        (facts (gx_fact version field_tag told_tag) bytes.now) }
    ensures spelled { IfOk result (λ x. bytes.now
        ≡ facts_bytes (map gx_facts.fact_of x.0.items) ++ x.1.now) }
{
    let (count, rest) = word_at(bytes)?;
    list_of_gx_facts(alloc, version, field_tag, told_tag, count, rest)
}

/// The facts of an AF session under that tag, as many as the number before them says.
#[tactic(auto, unfolding(crate::specs::Said::facts, crate::specs::Spelling::facts_bytes))]
pub fn af_facts_at(
    alloc: Global,
    version: LetterVersion,
    tag: Tag,
    bytes: &[u8],
) -> Result<(Vec<AfFact>, &[u8]), Unread>
    ensures read { Gives (λ x. (map af_facts.fact_of x.0.items, x.1.now)) result
        (facts (af_fact version tag) bytes.now) }
    ensures spelled { IfOk result (λ x. bytes.now
        ≡ facts_bytes (map af_facts.fact_of x.0.items) ++ x.1.now) }
{
    let (count, rest) = word_at(bytes)?;
    list_of_af_facts(alloc, version, tag, count, rest)
}
