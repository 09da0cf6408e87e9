//! The push that is due at a site.
ghost use Rattle.std.specs.Prelude.{◌≡◌, true, IfOk, IfSome, map, option_map};
ghost use Rattle.std.specs.Option.{option_copied};
ghost use Rattle.pcrf_values.specs.Sets.{Distinct};
ghost use Rattle.pcrf_values.specs.Live.{gx_is_live};
ghost use Rattle.pcrf_model.specs.Differences.{is_empty, rule_name_of};
ghost use Rattle.pcrf_model.specs.Pushing.{due_session, push_to};
ghost use Rattle.pcrf_model.specs.Rules.{rules};
ghost use Rattle.pcrf_model.specs.Sessions.{gx};
ghost use Rattle.pcrf_model.specs.Views.{view};
ghost use Rattle.pcrf_model.specs.ReplyViews.{push_view};
ghost use Rattle.rule_delta.specs.Pushed.{push_of};
ghost use Rattle.rule_delta.specs.ByRecord.{alone, first_push, is_asked, is_at_host, is_at_home, push_due};

use crate::telling::untold_difference;
use gx_records::GxRec;
use op_tables::Tables;
use pcrf_model::{FirstEntries, PushOut};
use pcrf_values::{Delta, GxSid, Ranked};
use site_join::{Entries, State};
use std::alloc::{AllocError, Global};

/// Of which sessions a push is asked for.
#[derive(Clone, Copy)]
pub struct Asked<'a> {
    /// The site that is their home.
    pub site: u8,
    /// The host of their gateway, any where none is given.
    pub host: Option<&'a [u8]>,
}

/// The push that is due at a site: of the live sessions of gateways whose home it is, whose host is the given one (any
/// where none is given), and whose gateway isn't told all, that with the least Session-Id, with the first entries of what
/// its gateway is still to be told (TS 29.212, 4.5.2); `None` where no session is due. Its time grows with the number of
/// gateways' sessions, and is that of `untold_difference` for each that is looked at.
pub fn next_push(
    alloc: Global,
    tables: &Tables,
    state: &State,
    site: u8,
    host: Option<&[u8]>,
) -> Result<Option<PushOut>, AllocError>
    ensures push { IfOk result (λ push. option_map push_view push
        ≡ option_map (push_of tables.now (view state.now.facts))
        (due_session tables.now site (view state.now.facts) (option_copied host.entry))) }
    ensures names { IfOk result (λ push. IfSome push (λ p. Distinct (map rule_name_of
        (rules tables.now (view state.now.facts) (gx p.session))))) }
{
    let asked = Asked { site, host };
    first_push(alloc, tables, state, &asked, state.all_gx())
}

/// The push of the first of these sessions that is due.
fn first_push(
    alloc: Global,
    tables: &Tables,
    state: &State,
    asked: &Asked<'_>,
    sessions: Entries<'_, GxSid, GxRec>,
) -> Result<Option<PushOut>, AllocError>
    ensures push { IfOk result (λ push. option_map push_view push
        ≡ first_push tables.now (view state.now.facts) asked.now.site
        (option_copied asked.now.host) sessions.entry) }
    ensures names { IfOk result (λ push. IfSome push (λ p. Distinct (map rule_name_of
        (rules tables.now (view state.now.facts) (gx p.session))))) }
{
    for (session, known) in sessions {
        let push = push_due(alloc, tables, state, asked, session, known)?;
        if push.is_some() {
            return Ok(push);
        }
    }
    Ok(None)
}

/// The push of the session of which this is known, if it is due.
fn push_due(
    alloc: Global,
    tables: &Tables,
    state: &State,
    asked: &Asked<'_>,
    session: &GxSid,
    known: &GxRec,
) -> Result<Option<PushOut>, AllocError>
    ensures push { IfOk result (λ push. option_map push_view push
        ≡ push_due tables.now (view state.now.facts) asked.now.site
        (option_copied asked.now.host) session.now known.now) }
    ensures names { IfOk result (λ push. IfSome push (λ p. Distinct (map rule_name_of
        (rules tables.now (view state.now.facts) (gx p.session))))) }
{
    if !is_asked(asked, known) {
        return Ok(None);
    }
    let delta = untold_difference(alloc, tables, state, session)?;
    if is_empty(&delta) {
        return Ok(None);
    }
    let push = push_to(session, known, FirstEntries::of(delta))?;
    Ok(Some(push))
}

/// Nothing is to be removed or installed.
pub fn is_empty(delta: &Delta) -> bool
    ensures { result ≡ is_empty delta.now }
{
    delta.removed().is_empty() && delta.installed().is_empty()
}

/// The push to the gateway of a live session.
pub fn push_to(session: &GxSid, known: &GxRec, delta: FirstEntries) -> Result<PushOut, AllocError>
    requires { gx_is_live known.now ≡ true }
    ensures { IfOk result (λ push. push_view push
        ≡ push_to (alone known.now) (gx session.now) delta) }
{
    let Some((_, host)) = known.host() else {
        unreachable!()
    };
    let Some((_, realm)) = known.realm() else {
        unreachable!()
    };
    let session = session.try_copy()?;
    let host = host.try_copy()?;
    let realm = realm.try_copy()?;
    Ok(PushOut {
        session,
        host,
        realm,
        delta,
    })
}

/// The session is live, and one of those that are asked for.
pub fn is_asked(asked: &Asked<'_>, known: &GxRec) -> bool
    ensures { result ≡ is_asked asked.now.site (option_copied asked.now.host) known.now }
{
    known.live() && is_at_home(known, asked.site) && is_at_host(known, asked.host)
}

/// The site is the home of the session.
fn is_at_home(known: &GxRec, site: u8) -> bool
    ensures { result ≡ is_at_home site known.now }
{
    match known.home() {
        Some(home) => home == site,
        None => false,
    }
}

/// The session's host is this one, any where none is given.
fn is_at_host(known: &GxRec, host: Option<&[u8]>) -> bool
    ensures { result ≡ is_at_host (option_copied host.entry) known.now }
{
    let Some(wanted) = host else {
        return true;
    };
    match known.host() {
        Some((_, shown)) => shown.as_slice() == wanted,
        None => false,
    }
}
