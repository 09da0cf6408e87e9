//! States of many gateways' sessions, each with an address of its own, and of as many calls, of which one is bound to each; and what
//! the rules of such sessions are, by hand.
use crate::facts::{call, initial, tag};
use pcrf_values::Rule;
use site_join::{Operation, State};
use std::alloc::Global;
use std::process::Abort;

/// Has a state take an operation.
fn take(rt: &impl Abort, state: &mut State, made: Operation) {
    state.take(&made).expect(rt, "memory");
    drop(made);
}

/// A state of so many gateways' sessions, with a call for each so many of them, from the first on.
pub fn state_of(rt: &impl Abort, alloc: Global, size: u32, step: u32) -> State {
    let mut state = State::start(alloc);
    for number in 0..size {
        let first = 2 * u64::from(number) + 1;
        let session = initial(rt, alloc, number, tag(first, 1), number);
        take(rt, &mut state, session);
        if number.is_multiple_of(step) {
            let called = call(rt, alloc, number, tag(first + 1, 1), number);
            take(rt, &mut state, called);
        }
    }
    state
}

/// A rule has this name and this precedence.
fn is_rule(rule: &Rule, name: &[u8], precedence: u32) -> bool {
    rule.name().as_slice() == name && rule.precedence() == precedence
}

/// The list is that of a session without a call: the operator's rule of its access point.
pub fn is_without_call(list: &[Rule]) -> bool {
    match list {
        [operator] => is_rule(operator, b"op/sip", 40),
        _ => false,
    }
}

/// The list is that of the session of a number, with the call of that number: the operator's rule, whose precedence is the
/// lesser, and then that of the call's flow.
pub fn is_with_call(rt: &impl Abort, alloc: Global, list: &[Rule], number: u32) -> bool {
    let name = format!(in alloc; "af/af;1;{number}/1/1").expect(rt, "memory");
    let is_same = match list {
        [operator, flow] => {
            is_rule(operator, b"op/sip", 40) && is_rule(flow, name.as_bytes(), 100)
        }
        _ => false,
    };
    drop(name);
    is_same
}
