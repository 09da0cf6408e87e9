//! The rules of a session, by an index of sessions.
ghost use Rattle.std.specs.Prelude.{◌≡◌, ◌++◌, [], ◌∷◌, map, true, false, IfOk, OnOk};
ghost use Rattle.pcrf_values.specs.FlowWords.{flows};
ghost use Rattle.pcrf_model.specs.Bindings.{is_bound_to};
ghost use Rattle.pcrf_model.specs.Differences.{rule_name_of};
ghost use Rattle.pcrf_model.specs.Holdings.{facts_on};
ghost use Rattle.pcrf_model.specs.Rules.{rules};
ghost use Rattle.pcrf_model.specs.Sessions.{gx, af};
ghost use Rattle.pcrf_model.specs.Views.{view};
ghost use Rattle.pcrf_values.specs.Sets.{Distinct};
ghost use Rattle.bind_index.specs.Index.{Covers};
ghost use Rattle.pcc_rules.specs.FlowsAlone.{AreLow, rules_of_flows};
ghost use Rattle.pcc_rules.specs.Listing.{keyed};
ghost use Rattle.pcc_rules.specs.Listed.{AddsCalled, AddsRules, records_of};
ghost use Rattle.pcc_rules.specs.Calls.{AddsBound, all_ids, has_address, without_address};

use crate::derivation::{add_flows, in_order, operator_rules};
use bind_index::{Index, SessionIds, network_of, spans_networks};
use gx_records::GxRec;
use op_tables::Tables;
use pcrf_values::{AfSid, GxSid, Rule};
use site_join::State;
use std::alloc::{AllocError, Global};

/// The PCC rules of a gateway's session as `derive` gives them, by an index that covers the state. Its time grows with the
/// number of application functions' sessions that are listed under the session's address, times that of gateways' sessions
/// listed there; and where the session has a prefix, with the number of application functions' sessions that are listed under
/// its network, or under all where it spans networks, and for those of them without an address times that of the gateways'
/// sessions among which one is bound.
pub fn derive_by(
    alloc: Global,
    tables: &Tables,
    state: &State,
    index: &Index,
    session: &GxSid,
) -> Result<Vec<Rule>, AllocError>
    ensures derived { IfOk result (λ made. Covers (view state.now.facts) index.now
        → made.items ≡ rules tables.now (view state.now.facts) (gx session.now)) }
    ensures names_apart { IfOk result (λ made. Covers (view state.now.facts) index.now
        → Distinct (map rule_name_of made.items)) }
{
    let Some(gateway) = state.gx(session) else {
        return Ok(Vec::new(alloc));
    };
    if !gateway.live() {
        return Ok(Vec::new(alloc));
    }
    let mut found = operator_rules(alloc, tables, gateway)?;
    add_called(alloc, &mut found, tables, state, index, session, gateway)?;
    in_order(alloc, found)
}

/// Adds the rules of the application functions' sessions that are bound to the gateway's session of which this is known.
fn add_called(
    alloc: Global,
    found: &mut Vec<(u32, Rule)>,
    tables: &Tables,
    state: &State,
    index: &Index,
    session: &GxSid,
    gateway: &GxRec,
) -> Result<(), AllocError>
    ensures { OnOk result ((gateway.now ≡ facts_on state.now.facts (gx session.now))
        → Covers (view state.now.facts) index.now → AddsCalled tables.now
        state.now.facts (gx session.now) found.old.items found.new.items) }
{
    add_at_address(alloc, found, tables, state, index, session, gateway)?;
    add_by_prefix(alloc, found, tables, state, index, session, gateway)
}

/// Adds the rules of those that show an address: it is that of the gateway's session.
fn add_at_address(
    alloc: Global,
    found: &mut Vec<(u32, Rule)>,
    tables: &Tables,
    state: &State,
    index: &Index,
    session: &GxSid,
    gateway: &GxRec,
) -> Result<(), AllocError>
    ensures { OnOk result ((gateway.now ≡ facts_on state.now.facts (gx session.now))
        → Covers (view state.now.facts) index.now → AddsBound true tables.now
        state.now.facts (gx session.now) found.old.items found.new.items) }
{
    let Some((_, address)) = gateway.address() else {
        return Ok(());
    };
    let Some(calls) = index.calls_at(*address) else {
        return Ok(());
    };
    add_listed(alloc, found, tables, state, index, session, calls)
}

/// Adds the rules of those that show none: the prefix of the gateway's session covers that of each.
fn add_by_prefix(
    alloc: Global,
    found: &mut Vec<(u32, Rule)>,
    tables: &Tables,
    state: &State,
    index: &Index,
    session: &GxSid,
    gateway: &GxRec,
) -> Result<(), AllocError>
    ensures { OnOk result ((gateway.now ≡ facts_on state.now.facts (gx session.now))
        → Covers (view state.now.facts) index.now → AddsBound false tables.now
        state.now.facts (gx session.now) found.old.items found.new.items) }
{
    let Some((_, prefix)) = gateway.prefix() else {
        return Ok(());
    };
    if spans_networks(prefix) {
        return add_in_all(alloc, found, tables, state, index, session);
    }
    let Some(calls) = index.calls_in(&network_of(prefix)) else {
        return Ok(());
    };
    add_unaddressed(alloc, found, tables, state, index, session, calls)
}

/// Adds the rules of those of all networks that show no address and are bound to the gateway's session.
fn add_in_all(
    alloc: Global,
    found: &mut Vec<(u32, Rule)>,
    tables: &Tables,
    state: &State,
    index: &Index,
    session: &GxSid,
) -> Result<(), AllocError>
    ensures { OnOk result (Covers (view state.now.facts) index.now → AddsRules tables.now
        (view state.now.facts) (gx session.now) found.old.items found.new.items
        (records_of state.now.facts
        (without_address state.now.facts (all_ids index.now.call_networks)))) }
{
    for (_, calls) in index.calls_by_network() {
        add_unaddressed(alloc, found, tables, state, index, session, calls)?;
    }
    Ok(())
}

/// Adds the rules of those of the application functions' sessions that are bound to the gateway's session.
fn add_listed(
    alloc: Global,
    found: &mut Vec<(u32, Rule)>,
    tables: &Tables,
    state: &State,
    index: &Index,
    session: &GxSid,
    calls: &SessionIds<AfSid>,
) -> Result<(), AllocError>
    ensures { OnOk result (Covers (view state.now.facts) index.now → AddsRules tables.now
        (view state.now.facts) (gx session.now) found.old.items found.new.items
        (records_of state.now.facts calls.now)) }
{
    for call in calls.iter() {
        add_if_bound(alloc, found, tables, state, index, session, call)?;
    }
    Ok(())
}

/// Adds the rules of those of the application functions' sessions that show no address and are bound to the gateway's session.
fn add_unaddressed(
    alloc: Global,
    found: &mut Vec<(u32, Rule)>,
    tables: &Tables,
    state: &State,
    index: &Index,
    session: &GxSid,
    calls: &SessionIds<AfSid>,
) -> Result<(), AllocError>
    ensures { OnOk result (Covers (view state.now.facts) index.now → AddsRules tables.now
        (view state.now.facts) (gx session.now) found.old.items found.new.items
        (records_of state.now.facts (without_address state.now.facts calls.now))) }
{
    for call in calls.iter() {
        if !has_address(state, call) {
            add_if_bound(alloc, found, tables, state, index, session, call)?;
        }
    }
    Ok(())
}

/// The application function's session shows an address.
fn has_address(state: &State, call: &AfSid) -> bool
    ensures { result ≡ has_address state.now.facts call.now }
{
    match state.af(call) {
        Some(known) => known.address().is_some(),
        None => false,
    }
}

/// Adds the rules of an application function's session, if it is bound to the gateway's session.
fn add_if_bound(
    alloc: Global,
    found: &mut Vec<(u32, Rule)>,
    tables: &Tables,
    state: &State,
    index: &Index,
    session: &GxSid,
    call: &AfSid,
) -> Result<(), AllocError>
    ensures { OnOk result (Covers (view state.now.facts) index.now → AddsRules tables.now
        (view state.now.facts) (gx session.now) found.old.items found.new.items
        (records_of state.now.facts (call.now ∷ []))) }
{
    if is_bound_by(state, index, call, session) {
        return add_call(alloc, found, tables, state, call);
    }
    Ok(())
}

/// The application function's session is bound to the gateway's session.
fn is_bound_by(state: &State, index: &Index, call: &AfSid, session: &GxSid) -> bool
    ensures { Covers (view state.now.facts) index.now → result
        ≡ is_bound_to (view state.now.facts) (gx session.now) (af call.now) }
{
    match index.bind(state, call) {
        Some(bound) => bound.cmp(session).is_eq(),
        None => false,
    }
}

/// Adds the rules of the flows of an application function's session.
fn add_call(
    alloc: Global,
    found: &mut Vec<(u32, Rule)>,
    tables: &Tables,
    state: &State,
    call: &AfSid,
) -> Result<(), AllocError>
    ensures added { OnOk result (found.new.items ≡ found.old.items ++ map keyed
        (rules_of_flows tables.now call.now (facts_on state.now.facts (af call.now)))) }
    ensures low { OnOk result (AreLow (flows (facts_on state.now.facts (af call.now)))) }
{
    let Some(known) = state.af(call) else {
        return Ok(());
    };
    add_flows(alloc, found, tables, call, known)
}
