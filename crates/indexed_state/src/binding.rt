//! The bindings of all calls.
ghost use Rattle.std.specs.Prelude.{◌≡◌, IfOk};
ghost use Rattle.pcrf_model.specs.SiteOverviews.{binding_id, bindings_of};
ghost use Rattle.pcrf_model.specs.Sessions.{af};
ghost use Rattle.pcrf_model.specs.Views.{view};
ghost use Rattle.bind_index.specs.Index.{Covers};
ghost use Rattle.indexed_state.specs.ByRecord.{bindings_among};

use af_records::AfRec;
use bind_index::{Index, bind};
use pcrf_values::{AfSid, GxSid, Ranked};
use site_join::{Entries, State};
use std::alloc::{AllocError, Global};

/// The live sessions of application functions in the order of their Session-Ids, each with the Session-Id of the gateway's
/// session to which it is bound, or none (TS 29.213, 5.2). Its time grows with the number of application functions' sessions
/// times that of gateways' sessions.
pub fn bindings(alloc: Global, state: &State) -> Result<Vec<(AfSid, Option<GxSid>)>, AllocError>
    ensures { IfOk result (λ found. found.items ≡ bindings_of (view state.now.facts)) }
{
    bindings_among(alloc, state, state.all_af())
}

/// Those of the live ones among these sessions.
fn bindings_among(
    alloc: Global,
    state: &State,
    sessions: Entries<'_, AfSid, AfRec>,
) -> Result<Vec<(AfSid, Option<GxSid>)>, AllocError>
    ensures { IfOk result (λ found. found.items
        ≡ bindings_among (view state.now.facts) sessions.entry) }
{
    let mut found = Vec::new(alloc);
    for (session, known) in sessions {
        if known.live() {
            let binding = binding_of(state, session)?;
            found.push((session.try_copy()?, binding))?;
        }
    }
    Ok(found)
}

/// The Session-Id of the gateway's session to which one is bound.
pub(crate) fn binding_of(state: &State, session: &AfSid) -> Result<Option<GxSid>, AllocError>
    ensures { IfOk result (λ id. id ≡ binding_id (view state.now.facts) (af session.now)) }
{
    match bind(state, session) {
        Some(bound) => Ok(Some(bound.try_copy()?)),
        None => Ok(None),
    }
}

/// As `bindings` gives them, by an index that covers the state. Its time grows with the number of application functions'
/// sessions, for each with that of gateways' sessions that are listed under its address, or of those that are given a prefix
/// where it shows no address.
pub fn bindings_by(
    alloc: Global,
    state: &State,
    index: &Index,
) -> Result<Vec<(AfSid, Option<GxSid>)>, AllocError>
    requires { Covers (view state.now.facts) index.now }
    ensures { IfOk result (λ found. found.items ≡ bindings_of (view state.now.facts)) }
{
    bindings_found(alloc, state, index, state.all_af())
}

/// Those of the live ones among these sessions, by an index.
fn bindings_found(
    alloc: Global,
    state: &State,
    index: &Index,
    sessions: Entries<'_, AfSid, AfRec>,
) -> Result<Vec<(AfSid, Option<GxSid>)>, AllocError>
    requires { Covers (view state.now.facts) index.now }
    ensures { IfOk result (λ found. found.items
        ≡ bindings_among (view state.now.facts) sessions.entry) }
{
    let mut found = Vec::new(alloc);
    for (session, known) in sessions {
        if known.live() {
            let binding = binding_by(state, index, session)?;
            found.push((session.try_copy()?, binding))?;
        }
    }
    Ok(found)
}

/// The Session-Id of the gateway's session to which one is bound, by an index.
fn binding_by(state: &State, index: &Index, session: &AfSid) -> Result<Option<GxSid>, AllocError>
    requires { Covers (view state.now.facts) index.now }
    ensures { IfOk result (λ id. id ≡ binding_id (view state.now.facts) (af session.now)) }
{
    match index.bind(state, session) {
        Some(bound) => Ok(Some(bound.try_copy()?)),
        None => Ok(None),
    }
}
