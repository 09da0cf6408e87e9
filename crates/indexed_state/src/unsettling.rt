//! What may be other after one session changed: the lists of rules that are stale then, and the sessions that wait then.
ghost use Rattle.std.specs.Prelude.{◌≡◌, ◌||◌, ℕ, List, None, true};
ghost use Rattle.pcrf_model.specs.Sessions.{gx, is_gx};
ghost use Rattle.pcrf_model.specs.Views.{view};
ghost use Rattle.site_join.specs.States.{session_of};
ghost use Rattle.indexed_state.specs.Indexed.{IsUnsettled, TouchesAt, TouchesBy, Unsettled, WaitsBy, spans};
ghost use Rattle.rule_delta.specs.Waits.{Keeps, WaitsIfDue};

use crate::reached::Reached;
use bind_index::{Index, all_networks, network_of, spans_networks};
use pcc_rules::Rules;
use pcrf_values::{GxSid, Ipv6Prefix, same, same_address};
use rule_delta::{Waiting, wait_at, wait_in, wait_one};
use site_join::{SessionFacts, State};
use std::alloc::Global;
use std::net::Ipv4Addr;

/// Has the lists of rules be stale, and the sessions wait, to which it may count that the session of these facts changed.
pub(crate) fn unsettle(
    alloc: Global,
    state: &State,
    index: &Index,
    rules: &mut Rules,
    waiting: &mut Waiting,
    facts: &SessionFacts,
    before: &Reached,
    after: &Reached,
)
    ensures before { IsUnsettled (view state.now.facts) index.now before.now
        rules.old rules.new waiting.old waiting.new }
    ensures after { IsUnsettled (view state.now.facts) index.now after.now
        rules.old rules.new waiting.old waiting.new }
    ensures all { is_gx (session_of facts.now).kind ≡ true
        → (spans before.now.prefix || spans after.now.prefix) ≡ true
        → Unsettled rules.new waiting.new }
{
    match facts {
        SessionFacts::Gx(_, _) => {
            unsettle_gateway(alloc, state, index, rules, waiting, before, after);
        }
        SessionFacts::Af(_, _) => unsettle_both(state, index, rules, waiting, before, after),
    }
}

/// So where a gateway's session changed: those near where it was or is, and if its prefix spans networks, before or after, all,
/// since it may cover that of any.
pub(crate) fn unsettle_gateway(
    alloc: Global,
    state: &State,
    index: &Index,
    rules: &mut Rules,
    waiting: &mut Waiting,
    before: &Reached,
    after: &Reached,
)
    ensures before { IsUnsettled (view state.now.facts) index.now before.now
        rules.old rules.new waiting.old waiting.new }
    ensures after { IsUnsettled (view state.now.facts) index.now after.now
        rules.old rules.new waiting.old waiting.new }
    ensures all { (spans before.now.prefix || spans after.now.prefix) ≡ true
        → Unsettled rules.new waiting.new }
{
    if spans(before.prefix) || spans(after.prefix) {
        unsettle_all(alloc, rules, waiting);
        return;
    }
    unsettle_both(state, index, rules, waiting, before, after);
}

/// So where an application function's session changed: those near where it was or is, among which one is that it is bound to.
pub(crate) fn unsettle_both(
    state: &State,
    index: &Index,
    rules: &mut Rules,
    waiting: &mut Waiting,
    before: &Reached,
    after: &Reached,
)
    ensures before { IsUnsettled (view state.now.facts) index.now before.now
        rules.old rules.new waiting.old waiting.new }
    ensures after { IsUnsettled (view state.now.facts) index.now after.now
        rules.old rules.new waiting.old waiting.new }
{
    unsettle_near(state, index, rules, waiting, before);
    if is_same(before, after) {
        return;
    }
    unsettle_near(state, index, rules, waiting, after);
}

/// Users are reached at the same address and by the same prefix.
fn is_same(before: &Reached, after: &Reached) -> bool
    ensures { result ≡ true → before.now ≡ after.now }
{
    if !same_address(before.address, after.address) {
        return false;
    }
    same_prefix(before.prefix, after.prefix)
}

/// The prefixes are the same, or there are none.
fn same_prefix(before: Option<Ipv6Prefix>, after: Option<Ipv6Prefix>) -> bool
    ensures { result ≡ true → before ≡ after }
{
    match (before, after) {
        (Some(one), Some(other)) => same(&one, &other),
        (None, None) => true,
        _ => false,
    }
}

/// There is a prefix, and it has fewer bits than say a network.
pub(crate) fn spans(prefix: Option<Ipv6Prefix>) -> bool
    ensures { result ≡ spans prefix }
{
    match prefix {
        Some(prefix) => spans_networks(&prefix),
        None => false,
    }
}

/// No list of rules is kept, and all sessions wait.
pub(crate) fn unsettle_all(alloc: Global, rules: &mut Rules, waiting: &mut Waiting)
    ensures { Unsettled rules.new waiting.new }
{
    rules.touch_all();
    *waiting = Waiting::seeded(alloc, waiting.seed());
}

/// Has the lists of rules be stale of the gateways' sessions that are listed where a user is reached, and has these wait.
fn unsettle_near(
    state: &State,
    index: &Index,
    rules: &mut Rules,
    waiting: &mut Waiting,
    reached: &Reached,
)
    ensures { IsUnsettled (view state.now.facts) index.now reached.now
        rules.old rules.new waiting.old waiting.new }
{
    touch_at(rules, index, reached.address);
    touch_by(rules, index, reached.prefix);
    wait_at(state, index, waiting, reached.address);
    wait_by(state, index, waiting, reached.prefix);
}

/// The lists of rules of the gateways' sessions that are listed under an address are stale.
fn touch_at(rules: &mut Rules, index: &Index, address: Option<Ipv4Addr>)
    ensures { TouchesAt rules.old rules.new index.now address }
{
    let Some(address) = address else {
        return;
    };
    rules.touch(index, address);
}

/// So are those of the sessions of a prefix's network, and of those that span networks.
fn touch_by(rules: &mut Rules, index: &Index, prefix: Option<Ipv6Prefix>)
    ensures { TouchesBy rules.old rules.new index.now prefix }
{
    let Some(prefix) = prefix else {
        return;
    };
    rules.touch_in(index, &all_networks());
    if spans_networks(&prefix) {
        return;
    }
    rules.touch_in(index, &network_of(&prefix));
}

/// Has these sessions wait.
fn wait_by(state: &State, index: &Index, waiting: &mut Waiting, prefix: Option<Ipv6Prefix>)
    ensures keeps { Keeps waiting.old waiting.new }
    ensures waits { WaitsBy (view state.now.facts) index.now waiting.new prefix }
{
    let Some(prefix) = prefix else {
        return;
    };
    wait_in(state, index, waiting, &all_networks());
    if spans_networks(&prefix) {
        return;
    }
    wait_in(state, index, waiting, &network_of(&prefix));
}

/// Has the session of these facts wait, if it is of a gateway and shows no address, under which it would be listed.
pub(crate) fn wait_unlisted(
    state: &State,
    waiting: &mut Waiting,
    facts: &SessionFacts,
    after: Option<Ipv4Addr>,
)
    ensures keeps { Keeps waiting.old waiting.new }
    ensures waits { (after ≡ None) → is_gx (session_of facts.now).kind ≡ true
        → WaitsIfDue (view state.now.facts) waiting.new (session_of facts.now) }
{
    match facts {
        SessionFacts::Gx(id, _) => wait_gateway(state, waiting, id, after),
        SessionFacts::Af(_, _) => {}
    }
}

/// Has a gateway's session wait, if it shows no address.
pub(crate) fn wait_gateway(
    state: &State,
    waiting: &mut Waiting,
    id: &GxSid,
    after: Option<Ipv4Addr>,
)
    ensures keeps { Keeps waiting.old waiting.new }
    ensures waits { (after ≡ None) → WaitsIfDue (view state.now.facts) waiting.new (gx id.now) }
{
    if after.is_some() {
        return;
    }
    wait_one(state, waiting, id);
}
