//! Two gateways' sessions at one address and a call there, by `Index` and `Rules` themselves: before each step each list of rules
//! is kept, and the lists that the step leaves are those that a pass over all sessions gives. What a step makes stale is what
//! stands at its address, where a site touches it too.
use crate::checks::{check, check_same};
use crate::facts::{address, call, call_end, call_id, gateway_end, gateway_id, initial, tag};
use crate::tables::telephony;
use bind_index::{Index, bind};
use op_tables::Tables;
use pcc_rules::{Rules, derive, derive_by};
use pcrf_values::{GxSid, Ranked};
use site_join::{Operation, State};
use std::alloc::Global;
use std::process::Abort;

/// A state, with an index of it and lists of its rules: of two gateways' sessions at one address, and of one beside them.
#[derive(Drop)]
struct Kept {
    tables: Tables,
    state: State,
    index: Index,
    rules: Rules,
}

/// What a step leaves: how many rules each list has that isn't stale, to which session the call is bound, and how many rules
/// each session has.
type Left = ([Option<usize>; 3], Option<u32>, [usize; 3]);

/// Keeps the rules of each session of which none are kept.
fn keep_all(rt: &impl Abort, alloc: Global, held: &mut Kept) {
    for number in 1..4_u32 {
        let session = gateway_id(rt, alloc, number);
        if held.rules.get(&session).is_none() {
            let made = derive_by(alloc, &held.tables, &held.state, &held.index, &session);
            let made = made.expect(rt, "memory");
            held.rules.keep(&session, made).expect(rt, "memory");
        }
        drop(session);
    }
}

/// Takes an operation of a session that shows that address, or showed it.
fn take(rt: &impl Abort, held: &mut Kept, made: Operation, place: u32) {
    held.index.cover(&made).expect(rt, "memory");
    held.state.take(&made).expect(rt, "memory");
    held.rules.touch(&held.index, address(place));
    drop(made);
}

/// How many rules are kept of the session of a number, which have to be its rules.
fn kept_of(rt: &impl Abort, alloc: Global, held: &Kept, number: u32) -> Option<usize> {
    let session = gateway_id(rt, alloc, number);
    let wanted = derive(alloc, &held.tables, &held.state, &session).expect(rt, "memory");
    let (is_right, count) = match held.rules.get(&session) {
        Some(list) => (list == wanted.as_slice(), Some(list.len())),
        None => (true, None),
    };
    drop(wanted);
    drop(session);
    check(rt, is_right);
    count
}

/// How many rules are kept of each session.
fn kept_of_each(rt: &impl Abort, alloc: Global, held: &Kept) -> [Option<usize>; 3] {
    [
        kept_of(rt, alloc, held, 1),
        kept_of(rt, alloc, held, 2),
        kept_of(rt, alloc, held, 3),
    ]
}

/// The number of a session.
fn number_of(rt: &impl Abort, alloc: Global, session: Option<&GxSid>) -> Option<u32> {
    let session = session?;
    for number in 1..4_u32 {
        let other = gateway_id(rt, alloc, number);
        let is_same = other.cmp(session).is_eq();
        drop(other);
        if is_same {
            return Some(number);
        }
    }
    None
}

/// A step left this; then all lists are kept for the next. The call is bound alike by the index and by a pass over all sessions.
fn leaves(rt: &impl Abort, alloc: Global, held: &mut Kept, left: Left) {
    let (kept, bound, rules) = left;
    check_same(rt, kept_of_each(rt, alloc, held), kept);
    let asking = call_id(rt, alloc, 1);
    let found = number_of(rt, alloc, held.index.bind(&held.state, &asking));
    let wanted = number_of(rt, alloc, bind(&held.state, &asking));
    drop(asking);
    check_same(rt, [found, wanted], [bound, bound]);
    keep_all(rt, alloc, held);
    let [first, second, third] = rules;
    let all = [Some(first), Some(second), Some(third)];
    check_same(rt, kept_of_each(rt, alloc, held), all);
}

/// Nothing, of which each list is kept: a session that isn't there has no rules.
fn nothing(rt: &impl Abort, alloc: Global) -> Kept {
    let mut held = Kept {
        tables: telephony(rt, alloc),
        state: State::start(alloc),
        index: Index::start(alloc),
        rules: Rules::start(alloc),
    };
    keep_all(rt, alloc, &mut held);
    held
}

/// The sessions are set up, the first two at one address; each has the rule of its access point.
fn set_up(rt: &impl Abort, alloc: Global, held: &mut Kept) {
    take(rt, held, initial(rt, alloc, 1, tag(1, 0), 1), 1);
    leaves(rt, alloc, held, ([None, Some(0), Some(0)], None, [1, 0, 0]));
    take(rt, held, initial(rt, alloc, 2, tag(2, 0), 1), 1);
    leaves(rt, alloc, held, ([None, None, Some(0)], None, [1, 1, 0]));
    take(rt, held, initial(rt, alloc, 3, tag(3, 0), 2), 2);
    leaves(rt, alloc, held, ([Some(1), Some(1), None], None, [1, 1, 1]));
}

/// A call at the address of two sessions is bound to the one that got it last, which has the rule of its flow. That one ends, and the call
/// is bound to the other.
fn call_and_end(rt: &impl Abort, alloc: Global, held: &mut Kept) {
    take(rt, held, call(rt, alloc, 1, tag(4, 0), 1), 1);
    leaves(rt, alloc, held, ([None, None, Some(1)], Some(2), [1, 2, 1]));
    take(rt, held, gateway_end(rt, alloc, 2, tag(5, 0)), 1);
    let session = gateway_id(rt, alloc, 2);
    held.index.forget_gateway_at(address(1), &session);
    drop(session);
    leaves(rt, alloc, held, ([None, None, Some(1)], Some(1), [2, 0, 1]));
}

/// The call ends. The list of the session that ended stays: it is no longer listed there.
fn end_call(rt: &impl Abort, alloc: Global, held: &mut Kept) {
    take(rt, held, call_end(rt, alloc, 1, tag(6, 0)), 1);
    let asking = call_id(rt, alloc, 1);
    held.index.forget_call_at(address(1), &asking);
    drop(asking);
    leaves(rt, alloc, held, ([None, Some(0), Some(1)], None, [1, 0, 1]));
    let session = gateway_id(rt, alloc, 3);
    held.rules.touch_one(&session);
    drop(session);
    leaves(rt, alloc, held, ([Some(1), Some(0), None], None, [1, 0, 1]));
    held.rules.touch_all();
    leaves(rt, alloc, held, ([None, None, None], None, [1, 0, 1]));
}

#[test]
fn a_call_goes_over_to_the_session_that_is_left(rt: HostRuntime) {
    let alloc = rt.alloc();
    let mut held = nothing(&rt, alloc);
    set_up(&rt, alloc, &mut held);
    call_and_end(&rt, alloc, &mut held);
    end_call(&rt, alloc, &mut held);
    drop(held);
}
