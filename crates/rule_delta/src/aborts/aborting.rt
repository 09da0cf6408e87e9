//! The abort of the first session that is abandoned.
ghost use Rattle.std.specs.Prelude.{◌≡◌, Some, true, false, IfNone, IfOk, option_map};
ghost use Rattle.std.specs.Option.{option_copied};
ghost use Rattle.pcrf_values.specs.Live.{af_is_live};
ghost use Rattle.pcrf_model.specs.Aborting.{abandoned_session, abort_of};
ghost use Rattle.pcrf_model.specs.Holdings.{facts_on};
ghost use Rattle.pcrf_model.specs.Sessions.{af};
ghost use Rattle.pcrf_model.specs.Views.{view};
ghost use Rattle.rx_profile.specs.Aborts.{abort_view};
ghost use Rattle.bind_index.specs.Index.{Covers};
ghost use Rattle.rule_delta.specs.Waits.{is_waiting};
ghost use Rattle.rule_delta.specs.Abandoned.{AbandonedWait, abort_if_left};
ghost use Rattle.rule_delta.specs.AbortsByRecord.{abort_if_abandoned, alone, first_abort, shows_client};

use crate::aborts::asked::{Asked, is_asked};
use crate::aborts::waiting::WaitingCalls;
use af_records::AfRec;
use bind_index::Index;
use pcrf_values::{AfSid, DiameterIdentity, Ranked};
use rx_profile::AbortOut;
use site_join::{Entries, State};
use std::alloc::AllocError;

/// The abort that a site has to ask for: of the live sessions of application functions that say who their client is, are bound
/// to no gateway's session and weren't asked to abort yet, whose home the site is and whose host is the given one, any where
/// none is given, that of the session with the least Session-Id (TS 29.214, 4.4.6.1); `None` where no session is abandoned. Its
/// time grows with the number of application functions' sessions.
pub fn first_abort(
    state: &State,
    index: &Index,
    site: u8,
    host: Option<&[u8]>,
) -> Result<Option<AbortOut>, AllocError>
    requires covers { Covers (view state.now.facts) index.now }
    ensures { IfOk result (λ abort. option_map abort_view abort
        ≡ option_map (abort_of (view state.now.facts))
        (abandoned_session site (view state.now.facts) (option_copied host.entry))) }
{
    let asked = Asked { site, host };
    first_of(state, index, &asked, state.all_af())
}

/// The abort of the first of these sessions that is abandoned.
fn first_of(
    state: &State,
    index: &Index,
    asked: &Asked<'_>,
    sessions: Entries<'_, AfSid, AfRec>,
) -> Result<Option<AbortOut>, AllocError>
    requires covers { Covers (view state.now.facts) index.now }
    ensures { IfOk result (λ abort. option_map abort_view abort
        ≡ first_abort (view state.now.facts) asked.now.site
        (option_copied asked.now.host) sessions.entry) }
{
    for (session, known) in sessions {
        let abort = abort_known(state, index, asked, session, known)?;
        if abort.is_some() {
            return Ok(abort);
        }
    }
    Ok(None)
}

/// The abort of the session of which this is known, if it is abandoned.
fn abort_known(
    state: &State,
    index: &Index,
    asked: &Asked<'_>,
    session: &AfSid,
    known: &AfRec,
) -> Result<Option<AbortOut>, AllocError>
    requires covers { Covers (view state.now.facts) index.now }
    ensures { IfOk result (λ abort. option_map abort_view abort
        ≡ abort_if_abandoned (view state.now.facts) asked.now.site
        (option_copied asked.now.host) session.now known.now) }
{
    if !is_asked(asked, known) || index.bind(state, session).is_some() {
        return Ok(None);
    }
    let abort = abort_of(session, known)?;
    Ok(Some(abort))
}

/// What is asked of the client of a session that says who it is.
fn abort_of(session: &AfSid, known: &AfRec) -> Result<AbortOut, AllocError>
    requires { shows_client known.now ≡ true }
    ensures { IfOk result (λ abort. abort_view abort
        ≡ abort_of (alone known.now) (af session.now)) }
{
    let Some((_, host)) = known.host() else {
        unreachable!()
    };
    let Some((_, realm)) = known.realm() else {
        unreachable!()
    };
    let session = session.try_copy()?;
    let host = host.try_copy()?;
    let realm = realm.try_copy()?;
    Ok(AbortOut {
        session,
        host,
        realm,
    })
}

/// The abort of a session, if it is abandoned.
fn abort_by(
    state: &State,
    index: &Index,
    asked: &Asked<'_>,
    session: &AfSid,
) -> Result<Option<AbortOut>, AllocError>
    requires covers { Covers (view state.now.facts) index.now }
    ensures { IfOk result (λ abort. option_map abort_view abort
        ≡ abort_if_left asked.now.site (view state.now.facts)
        (option_copied asked.now.host) (af session.now)) }
{
    let Some(known) = state.af(session) else {
        return Ok(None);
    };
    abort_known(state, index, asked, session, known)
}

/// The abort that a site has to ask for of a host, as `first_abort` gives it, where not all wait and all that are abandoned do.
/// It looks at sessions that wait under the host alone; those that it looks at and that aren't abandoned no longer wait: where
/// none is, nobody waits under the host any more. A refusal leaves what it found so far.
pub fn next_abort(
    state: &State,
    index: &Index,
    waiting: &mut WaitingCalls,
    site: u8,
    host: &DiameterIdentity,
) -> Result<Option<AbortOut>, AllocError>
    requires covers { Covers (view state.now.facts) index.now }
    requires some { waiting.old.all ≡ false }
    requires abandoned { AbandonedWait site (view state.now.facts) waiting.old }
    ensures abort { IfOk result (λ abort. option_map abort_view abort
        ≡ option_map (abort_of (view state.now.facts))
        (abandoned_session site (view state.now.facts) (Some host.now))) }
    ensures nobody { IfOk result (λ abort. IfNone abort (is_waiting waiting.new host.now ≡ false)) }
    ensures abandoned { AbandonedWait site (view state.now.facts) waiting.new }
{
    let asked = Asked {
        site,
        host: Some(host.as_slice()),
    };
    while let Some(id) = waiting.take_first(host) {
        let Ok(abort) = abort_by(state, index, &asked, &id) else {
            waiting.add(host, &id);
            return Err(AllocError);
        };
        if abort.is_some() {
            waiting.add(host, &id);
            return Ok(abort);
        }
        drop(abort);
        drop(id);
    }
    Ok(None)
}
