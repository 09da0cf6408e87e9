//! The sessions of gateways.
ghost use Rattle.std.specs.Prelude.{◌≡◌, true, IfOk, Some, map, option_map};
ghost use Rattle.pcrf_values.specs.Held.{entry_shown};
ghost use Rattle.pcrf_values.specs.Live.{gx_is_live, home};
ghost use Rattle.pcrf_values.specs.Places.{FramedIpAddress, FramedIpv6Prefix};
ghost use Rattle.pcrf_model.specs.Views.{view};
ghost use Rattle.indexed_state.specs.ByRecord.{gx_among, gx_seen, gx_live};
ghost use Rattle.indexed_state.specs.Fields.{client_places, field_at, prefix_places, shown_at, user_places};
ghost use Rattle.indexed_state.specs.Shown.{address_field, client_fields, gx_pair, gx_session, gx_shown, prefix_field, prefix_fields, user_fields};

use crate::seen::{GxClient, GxSeen, GxUser, SessionSeen};
use gx_records::GxRec;
use lattice_core::FactSet;
use op_tables::Tables;
use pcc_rules::derive;
use pcrf_values::{GxSid, Ipv6Prefix, Ranked};
use site_join::{Entries, State};
use std::alloc::{AllocError, Global};
use std::net::Ipv4Addr;

/// What is seen of those of these sessions that have a fact.
#[tactic(auto, using(crate::proofs::Pushes::pushed))]
pub(crate) fn gateways(
    alloc: Global,
    tables: &Tables,
    state: &State,
    sessions: Entries<'_, GxSid, GxRec>,
) -> Result<Vec<(GxSid, SessionSeen<GxSeen>)>, AllocError>
    ensures { IfOk result (λ seen. map gx_pair seen.items
        ≡ gx_among tables.now (view state.now.facts) sessions.entry) }
{
    let mut found = Vec::new(alloc);
    for (session, known) in sessions {
        if !known.is_empty() {
            let seen = gx_seen(alloc, tables, state, session, known)?;
            found.push((session.try_copy()?, seen))?;
        }
    }
    Ok(found)
}

/// What is seen of one.
fn gx_seen(
    alloc: Global,
    tables: &Tables,
    state: &State,
    session: &GxSid,
    known: &GxRec,
) -> Result<SessionSeen<GxSeen>, AllocError>
    ensures { IfOk result (λ seen. gx_session seen
        ≡ gx_seen tables.now (view state.now.facts) session.now known.now) }
{
    if known.ended() {
        return Ok(SessionSeen::Ended);
    }
    if !known.live() {
        return Ok(SessionSeen::Partial);
    }
    let shown = gx_shown(alloc, tables, state, session, known)?;
    Ok(SessionSeen::Live(shown))
}

/// What a live one shows.
fn gx_shown(
    alloc: Global,
    tables: &Tables,
    state: &State,
    session: &GxSid,
    known: &GxRec,
) -> Result<GxSeen, AllocError>
    requires { gx_is_live known.now ≡ true }
    ensures { IfOk result (λ seen. gx_shown seen
        ≡ gx_live tables.now (view state.now.facts) session.now known.now) }
{
    known.note_places();
    let home = home_of(known);
    let (user, client) = fields_of(known)?;
    let rules = derive(alloc, tables, state, session)?;
    let told = known.told_rules(alloc)?;
    Ok(GxSeen {
        user,
        client,
        home,
        rules,
        told,
    })
}

/// The home of a live one.
fn home_of(known: &GxRec) -> u8
    requires { gx_is_live known.now ≡ true }
    ensures { Some result ≡ home known.now }
{
    let Some(home) = known.home() else {
        unreachable!()
    };
    home
}

/// The fields of a live one.
fn fields_of(known: &GxRec) -> Result<(GxUser, GxClient), AllocError>
    requires { gx_is_live known.now ≡ true }
    ensures user { IfOk result (λ fields. user_fields fields.0
        ≡ shown_at (entry_shown known.now) user_places) }
    ensures prefix { IfOk result (λ fields. prefix_fields fields.0
        ≡ shown_at (entry_shown known.now) prefix_places) }
    ensures client { IfOk result (λ fields. client_fields fields.1
        ≡ shown_at (entry_shown known.now) client_places) }
{
    let user = user_of(known)?;
    let client = client_of(known)?;
    Ok((user, client))
}

/// The user of a live one.
fn user_of(known: &GxRec) -> Result<GxUser, AllocError>
    requires { gx_is_live known.now ≡ true }
    ensures fields { IfOk result (λ user. user_fields user
        ≡ shown_at (entry_shown known.now) user_places) }
    ensures prefix { IfOk result (λ user. prefix_fields user
        ≡ shown_at (entry_shown known.now) prefix_places) }
{
    let Some((_, apn)) = known.apn() else {
        unreachable!()
    };
    let Some((_, subscribers)) = known.subscribers() else {
        unreachable!()
    };
    let apn = apn.try_copy()?;
    let subscribers = subscribers.try_copy()?;
    Ok(GxUser {
        address: address_of(known),
        prefix: prefix_of(known),
        apn,
        subscribers,
    })
}

/// The address of the user, if one shows.
fn address_of(known: &GxRec) -> Option<Ipv4Addr>
    ensures { option_map address_field result
        ≡ field_at (entry_shown known.now) FramedIpAddress }
{
    let Some((_, address)) = known.address() else {
        return None;
    };
    Some(*address)
}

/// The prefix of the user, if one shows.
fn prefix_of(known: &GxRec) -> Option<Ipv6Prefix>
    ensures { option_map prefix_field result
        ≡ field_at (entry_shown known.now) FramedIpv6Prefix }
{
    let Some((_, prefix)) = known.prefix() else {
        return None;
    };
    Some(*prefix)
}

/// The gateway of a live one.
fn client_of(known: &GxRec) -> Result<GxClient, AllocError>
    requires { gx_is_live known.now ≡ true }
    ensures { IfOk result (λ client. client_fields client
        ≡ shown_at (entry_shown known.now) client_places) }
{
    let Some((_, host)) = known.host() else {
        unreachable!()
    };
    let Some((_, realm)) = known.realm() else {
        unreachable!()
    };
    let Some((_, last)) = known.last() else {
        unreachable!()
    };
    let last = *last;
    let host = host.try_copy()?;
    let realm = realm.try_copy()?;
    Ok(GxClient { host, realm, last })
}
