//! Facts of sessions of both kinds as states hold them: each value with its own tag behind it.
ghost use Rattle.std.specs.Prelude.{◌≡◌, ◌++◌, ◌∷◌, [], length, map, IfOk, Some, None};
ghost use Rattle.std.specs.List.{flat_map};
ghost use Rattle.gx_records.specs.GxFacts as gx_facts;
ghost use Rattle.af_records.specs.RecordFacts as af_facts;
ghost use Rattle.fact_codec.specs.Spelling.{tag_bytes, held_fact_bytes, held_facts_bytes};
ghost use Rattle.fact_codec.specs.Reading.{Gives, many};
ghost use Rattle.fact_codec.specs.Said.{tag, untagged, held_gx_fact, held_af_fact, facts};

use crate::facts::{af_fact_at, gx_fact_at};
use crate::fault::Unread;
use crate::numbers::{byte_at, long_at, word_at};
use crate::version::LetterVersion;
use af_records::AfFact;
use gx_records::GxFact;
use lattice_core::Tag;
use std::alloc::Global;

/// A tag of any number, counter and site.
#[tactic(auto, using(crate::proofs::Added::added), unfolding(crate::specs::Said::tag, crate::specs::Spelling::tag_bytes))]
fn tag_at(bytes: &[u8]) -> Result<(Tag, &[u8]), Unread>
    ensures read { Gives (λ x. (x.0, x.1.now)) result (tag bytes.now) }
    ensures spelled { IfOk result (λ x. bytes.now ≡ tag_bytes x.0 ++ x.1.now) }
{
    let (number, rest) = word_at(bytes)?;
    let (counter, rest) = long_at(rest)?;
    let (site, rest) = byte_at(rest)?;
    let tag = Tag {
        number,
        counter,
        site,
    };
    Ok((tag, rest))
}

/// The tag of a fact whose own follows it.
fn untagged() -> Tag
    ensures { result ≡ untagged }
{
    Tag {
        number: 0,
        counter: 0,
        site: 0,
    }
}

/// A fact of a gateway's session, with its tag.
#[tactic(auto, using(crate::proofs::Added::added, crate::proofs::FactViews::session_is), unfolding(crate::specs::Said::held_gx_fact, crate::specs::Spelling::fact_bytes, crate::specs::Spelling::held_fact_bytes))]
fn held_gx_fact_at(
    alloc: Global,
    version: LetterVersion,
    bytes: &[u8],
) -> Result<(GxFact, &[u8]), Unread>
    ensures read { Gives (λ x. (gx_facts.fact_of x.0, x.1.now)) result
        (held_gx_fact version bytes.now) }
    ensures spelled { IfOk result (λ x. bytes.now
        ≡ held_fact_bytes (gx_facts.fact_of x.0) ++ x.1.now) }
{
    let (fact, rest) = gx_fact_at(alloc, version, untagged(), untagged(), bytes)?;
    match fact {
        GxFact::End => Ok((GxFact::End, rest)),
        GxFact::Field(_, value) => {
            let (tag, rest) = tag_at(rest)?;
            Ok((GxFact::Field(tag, value), rest))
        }
        GxFact::Told(_, name, rule) => {
            let (tag, rest) = tag_at(rest)?;
            Ok((GxFact::Told(tag, name, rule), rest))
        }
    }
}

/// A fact of an AF session, with its tag.
#[tactic(auto, using(crate::proofs::Added::added, crate::proofs::FactViews::session_is, crate::proofs::FactViews::component_is, crate::proofs::FactViews::flow_is), unfolding(crate::specs::Said::held_af_fact, crate::specs::Spelling::fact_bytes, crate::specs::Spelling::held_fact_bytes))]
fn held_af_fact_at(
    alloc: Global,
    version: LetterVersion,
    bytes: &[u8],
) -> Result<(AfFact, &[u8]), Unread>
    ensures read { Gives (λ x. (af_facts.fact_of x.0, x.1.now)) result
        (held_af_fact version bytes.now) }
    ensures spelled { IfOk result (λ x. bytes.now
        ≡ held_fact_bytes (af_facts.fact_of x.0) ++ x.1.now) }
{
    let (fact, rest) = af_fact_at(alloc, version, untagged(), bytes)?;
    match fact {
        AfFact::End => Ok((AfFact::End, rest)),
        AfFact::Aborted => Ok((AfFact::Aborted, rest)),
        AfFact::ComponentRemoved(component) => Ok((AfFact::ComponentRemoved(component), rest)),
        AfFact::FlowRemoved(component, flow) => Ok((AfFact::FlowRemoved(component, flow), rest)),
        AfFact::Session(_, value) => {
            let (tag, rest) = tag_at(rest)?;
            Ok((AfFact::Session(tag, value), rest))
        }
        AfFact::Component(component, _, value) => {
            let (tag, rest) = tag_at(rest)?;
            Ok((AfFact::Component(component, tag, value), rest))
        }
        AfFact::Flow(component, flow, _, value) => {
            let (tag, rest) = tag_at(rest)?;
            Ok((AfFact::Flow(component, flow, tag, value), rest))
        }
    }
}

/// So many facts of a gateway's session. Room is made for each as it is read.
fn list_of_held_gx_facts(
    alloc: Global,
    version: LetterVersion,
    count: u32,
    bytes: &[u8],
) -> Result<(Vec<GxFact>, &[u8]), Unread>
    ensures read { Gives (λ x. (map gx_facts.fact_of x.0.items, x.1.now)) result
        (many (held_gx_fact version) count bytes.now) }
    ensures spelled { IfOk result (λ x. bytes.now
        ≡ flat_map held_fact_bytes (map gx_facts.fact_of x.0.items) ++ x.1.now) }
    ensures counted { IfOk result (λ x. length (map gx_facts.fact_of x.0.items) ≡ count) }
{
    let mut items = Vec::new(alloc);
    let mut rest = bytes;
    for _ in 0..count {
        let (item, after) = held_gx_fact_at(alloc, version, rest)?;
        items.push(item)?;
        rest = after;
    }
    Ok((items, rest))
}

/// So many facts of an AF session. Room is made for each as it is read.
fn list_of_held_af_facts(
    alloc: Global,
    version: LetterVersion,
    count: u32,
    bytes: &[u8],
) -> Result<(Vec<AfFact>, &[u8]), Unread>
    ensures read { Gives (λ x. (map af_facts.fact_of x.0.items, x.1.now)) result
        (many (held_af_fact version) count bytes.now) }
    ensures spelled { IfOk result (λ x. bytes.now
        ≡ flat_map held_fact_bytes (map af_facts.fact_of x.0.items) ++ x.1.now) }
    ensures counted { IfOk result (λ x. length (map af_facts.fact_of x.0.items) ≡ count) }
{
    let mut items = Vec::new(alloc);
    let mut rest = bytes;
    for _ in 0..count {
        let (item, after) = held_af_fact_at(alloc, version, rest)?;
        items.push(item)?;
        rest = after;
    }
    Ok((items, rest))
}

/// The facts that a state holds of a gateway's session, as many as the number before them says, each value with its tag.
#[tactic(auto, unfolding(crate::specs::Said::facts, crate::specs::Spelling::held_facts_bytes))]
pub fn held_gx_facts_at(
    alloc: Global,
    version: LetterVersion,
    bytes: &[u8],
) -> Result<(Vec<GxFact>, &[u8]), Unread>
    ensures read { Gives (λ x. (map gx_facts.fact_of x.0.items, x.1.now)) result
        (facts (held_gx_fact version) bytes.now) }
    ensures spelled { IfOk result (λ x. bytes.now
        ≡ held_facts_bytes (map gx_facts.fact_of x.0.items) ++ x.1.now) }
{
    let (count, rest) = word_at(bytes)?;
    list_of_held_gx_facts(alloc, version, count, rest)
}

/// Those of an AF session.
#[tactic(auto, unfolding(crate::specs::Said::facts, crate::specs::Spelling::held_facts_bytes))]
pub fn held_af_facts_at(
    alloc: Global,
    version: LetterVersion,
    bytes: &[u8],
) -> Result<(Vec<AfFact>, &[u8]), Unread>
    ensures read { Gives (λ x. (map af_facts.fact_of x.0.items, x.1.now)) result
        (facts (held_af_fact version) bytes.now) }
    ensures spelled { IfOk result (λ x. bytes.now
        ≡ held_facts_bytes (map af_facts.fact_of x.0.items) ++ x.1.now) }
{
    let (count, rest) = word_at(bytes)?;
    list_of_held_af_facts(alloc, version, count, rest)
}
