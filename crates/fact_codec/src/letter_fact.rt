//! Writes facts of sessions of both kinds at the end of bytes: without their tags, as operations have them, and each value with its own
//! tag behind it, as states hold them.
ghost use Rattle.std.specs.Prelude.{◌≡◌, ◌++◌, ◌≤◌, ◌^◌, length, map, OnOk, IsErrOf};
ghost use Rattle.std.specs.List.{flat_map};
ghost use Rattle.fact_codec.specs.Spelling.{word_bytes, tag_bytes, fact_bytes, facts_bytes, held_fact_bytes, held_facts_bytes};

use crate::fault::Unwritten;
use crate::put_values::{put_long, put_text, put_told, put_word};
use crate::said::{put_component_value, put_flow_value, put_session_value};
use af_records::AfFact;
use gx_records::GxFact;
use lattice_core::{Tag, TypedFact};
use std::alloc::AllocError;

/// A fact of sessions of one kind, as letters carry it.
pub trait LetterFact: TypedFact {
    /// Adds the fact without its tag.
    fn put(&self, out: &mut Vec<u8>) -> Result<(), AllocError>
        ensures { OnOk result (out.new.items ≡ out.old.items ++ fact_bytes (Self.fact self.now)) };

    /// Adds the fact, and behind a value its tag.
    fn put_held(&self, out: &mut Vec<u8>) -> Result<(), AllocError>
        ensures { OnOk result (out.new.items
            ≡ out.old.items ++ held_fact_bytes (Self.fact self.now)) };
}

impl LetterFact for GxFact {
    #[tactic(auto, using(crate::proofs::Added::added, crate::proofs::FactViews::session_is), unfolding(crate::specs::Spelling::fact_bytes))]
    fn put(&self, out: &mut Vec<u8>) -> Result<(), AllocError> {
        match self {
            GxFact::End => out.push(1)?,
            GxFact::Field(_, value) => {
                out.push(2)?;
                put_session_value(out, value)?;
            }
            GxFact::Told(_, name, rule) => {
                out.push(7)?;
                put_text(out, name.as_slice())?;
                put_told(out, rule)?;
            }
        }
        Ok(())
    }

    #[tactic(auto, using(crate::proofs::Added::added, crate::proofs::FactViews::session_is), unfolding(crate::specs::Spelling::held_fact_bytes))]
    fn put_held(&self, out: &mut Vec<u8>) -> Result<(), AllocError> {
        self.put(out)?;
        match self {
            GxFact::End => Ok(()),
            GxFact::Field(tag, _) => put_tag(out, tag),
            GxFact::Told(tag, _, _) => put_tag(out, tag),
        }
    }
}

impl LetterFact for AfFact {
    #[tactic(auto, using(crate::proofs::Added::added, crate::proofs::FactViews::session_is, crate::proofs::FactViews::component_is, crate::proofs::FactViews::flow_is), unfolding(crate::specs::Spelling::fact_bytes))]
    fn put(&self, out: &mut Vec<u8>) -> Result<(), AllocError> {
        match self {
            AfFact::End => out.push(1)?,
            AfFact::Aborted => out.push(8)?,
            AfFact::Session(_, value) => {
                out.push(2)?;
                put_session_value(out, value)?;
            }
            AfFact::ComponentRemoved(component) => {
                out.push(3)?;
                put_word(out, *component)?;
            }
            AfFact::FlowRemoved(component, flow) => {
                out.push(4)?;
                put_flow_path(out, *component, *flow)?;
            }
            AfFact::Component(component, _, value) => {
                out.push(5)?;
                put_word(out, *component)?;
                put_component_value(out, value)?;
            }
            AfFact::Flow(component, flow, _, value) => {
                out.push(6)?;
                put_flow_path(out, *component, *flow)?;
                put_flow_value(out, value)?;
            }
        }
        Ok(())
    }

    #[tactic(auto, using(crate::proofs::Added::added, crate::proofs::FactViews::session_is, crate::proofs::FactViews::component_is, crate::proofs::FactViews::flow_is), unfolding(crate::specs::Spelling::held_fact_bytes))]
    fn put_held(&self, out: &mut Vec<u8>) -> Result<(), AllocError> {
        self.put(out)?;
        match self {
            AfFact::End => Ok(()),
            AfFact::Aborted => Ok(()),
            AfFact::ComponentRemoved(_) => Ok(()),
            AfFact::FlowRemoved(_, _) => Ok(()),
            AfFact::Session(tag, _) => put_tag(out, tag),
            AfFact::Component(_, tag, _) => put_tag(out, tag),
            AfFact::Flow(_, _, tag, _) => put_tag(out, tag),
        }
    }
}

/// Adds the numbers of a component or of a flow.
#[tactic(auto, using(crate::proofs::Added::added))]
fn put_flow_path(out: &mut Vec<u8>, component: u32, flow: u32) -> Result<(), AllocError>
    ensures { OnOk result (out.new.items
        ≡ out.old.items ++ (word_bytes component ++ word_bytes flow)) }
{
    put_word(out, component)?;
    put_word(out, flow)?;
    Ok(())
}

/// Adds a tag.
#[tactic(auto, using(crate::proofs::Added::added), unfolding(crate::specs::Spelling::tag_bytes))]
fn put_tag(out: &mut Vec<u8>, tag: &Tag) -> Result<(), AllocError>
    ensures { OnOk result (out.new.items ≡ out.old.items ++ tag_bytes tag.now) }
{
    put_word(out, tag.number)?;
    put_long(out, tag.counter)?;
    out.push(tag.site)?;
    Ok(())
}

/// Adds the facts of an operation, and before them how many they are.
#[tactic(auto, using(crate::proofs::Added::added), unfolding(crate::specs::Spelling::facts_bytes))]
pub fn put_facts<F: LetterFact>(out: &mut Vec<u8>, facts: &[F]) -> Result<(), Unwritten>
    ensures written { OnOk result (out.new.items
        ≡ out.old.items ++ facts_bytes (map F.fact facts.now)) }
    ensures too_long { IsErrOf result Unwritten.TooLong
        → 2 ^ 32 ≤ length (facts_bytes (map F.fact facts.now)) }
{
    let count = facts.len();
    if count > u32::MAX as usize {
        return Err(Unwritten::TooLong);
    }
    put_word(out, count as u32)?;
    for fact in facts {
        fact.put(out)?;
    }
    Ok(())
}

/// Adds the facts that a state holds of a session, and before them how many they are.
#[tactic(auto, using(crate::proofs::Added::added), unfolding(crate::specs::Spelling::held_facts_bytes))]
pub fn put_held_facts<F: LetterFact>(out: &mut Vec<u8>, facts: &[F]) -> Result<(), Unwritten>
    ensures written { OnOk result (out.new.items
        ≡ out.old.items ++ held_facts_bytes (map F.fact facts.now)) }
    ensures too_long { IsErrOf result Unwritten.TooLong
        → 2 ^ 32 ≤ length (held_facts_bytes (map F.fact facts.now)) }
{
    let count = facts.len();
    if count > u32::MAX as usize {
        return Err(Unwritten::TooLong);
    }
    put_word(out, count as u32)?;
    for fact in facts {
        fact.put_held(out)?;
    }
    Ok(())
}
