//! The sessions of application functions.
ghost use Rattle.std.specs.Prelude.{◌≡◌, ◌++◌, IfOk, OnOk, map};
ghost use Rattle.std.specs.List.{filter_map};
ghost use Rattle.std.specs.Option.{option_to_list};
ghost use Rattle.pcrf_model.specs.Views.{view};
ghost use Rattle.indexed_state.specs.ByRecord.{af_among, af_live, af_seen};
ghost use Rattle.indexed_state.specs.Fields.{af_field};
ghost use Rattle.indexed_state.specs.Shown.{af_pair, af_session, af_shown};

use crate::binding::binding_of;
use crate::seen::{AfField, AfSeen, SessionSeen};
use af_records::{AfFact, AfRec};
use lattice_core::{FactSet, Join};
use pcrf_values::{AfSid, Ranked};
use site_join::{Entries, State};
use std::alloc::{AllocError, Global};

/// What is seen of those of these sessions that have a fact.
#[tactic(auto, using(crate::proofs::Pushes::pushed))]
pub(crate) fn calls(
    alloc: Global,
    state: &State,
    sessions: Entries<'_, AfSid, AfRec>,
) -> Result<Vec<(AfSid, SessionSeen<AfSeen>)>, AllocError>
    ensures { IfOk result (λ seen. map af_pair seen.items
        ≡ af_among (view state.now.facts) sessions.entry) }
{
    let mut found = Vec::new(alloc);
    for (session, known) in sessions {
        if !known.is_empty() {
            let seen = af_seen(alloc, state, session, known)?;
            found.push((session.try_copy()?, seen))?;
        }
    }
    Ok(found)
}

/// What is seen of one.
fn af_seen(
    alloc: Global,
    state: &State,
    session: &AfSid,
    known: &AfRec,
) -> Result<SessionSeen<AfSeen>, AllocError>
    ensures { IfOk result (λ seen. af_session seen
        ≡ af_seen (view state.now.facts) session.now known.now) }
{
    if known.ended() {
        return Ok(SessionSeen::Ended);
    }
    if !known.live() {
        return Ok(SessionSeen::Partial);
    }
    let shown = af_shown(alloc, state, session, known)?;
    Ok(SessionSeen::Live(shown))
}

/// What a live one shows.
fn af_shown(
    alloc: Global,
    state: &State,
    session: &AfSid,
    known: &AfRec,
) -> Result<AfSeen, AllocError>
    ensures { IfOk result (λ seen. af_shown seen
        ≡ af_live (view state.now.facts) session.now known.now) }
{
    known.note_valid();
    let facts = known.facts(alloc)?;
    let fields = fields_of(alloc, facts)?;
    let binding = binding_of(state, session)?;
    Ok(AfSeen {
        fields,
        binding,
        aborted: known.aborted(),
    })
}

/// The fields that facts give.
fn fields_of(alloc: Global, facts: Vec<AfFact>) -> Result<Vec<AfField>, AllocError>
    ensures { IfOk result (λ fields. fields.items ≡ filter_map af_field facts.items) }
{
    let mut fields = Vec::new(alloc);
    for fact in facts {
        add_field(&mut fields, fact)?;
    }
    Ok(fields)
}

/// Adds the field that a fact gives.
fn add_field(fields: &mut Vec<AfField>, fact: AfFact) -> Result<(), AllocError>
    ensures { OnOk result
        (fields.new.items ≡ fields.old.items ++ option_to_list (af_field fact)) }
{
    let Some(field) = field_of(fact) else {
        return Ok(());
    };
    fields.push(field)?;
    Ok(())
}

/// The field that a fact gives.
fn field_of(fact: AfFact) -> Option<AfField>
    ensures { result ≡ af_field fact }
{
    match fact {
        AfFact::Session(_, value) => Some(AfField::Session(value)),
        AfFact::Component(component, _, value) => Some(AfField::Component(component, value)),
        AfFact::Flow(component, flow, _, value) => Some(AfField::Flow(component, flow, value)),
        AfFact::End => None,
        AfFact::Aborted => None,
        AfFact::ComponentRemoved(_) => None,
        AfFact::FlowRemoved(_, _) => None,
    }
}
