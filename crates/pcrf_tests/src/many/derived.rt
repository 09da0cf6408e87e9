//! The rules of many sessions beside those of each.
use crate::checks::{check, check_same};
use crate::facts::gateway_id;
use crate::many::making::{is_with_call, is_without_call, state_of};
use crate::tables::telephony;
use bind_index::Index;
use op_tables::Tables;
use pcc_rules::{derive_many, derive_many_by};
use pcrf_values::{GxSid, Rule};
use site_join::State;
use std::alloc::Global;
use std::process::Abort;
use std::test::*;
use std::thread::Threads;

/// So many sessions are shared among threads, of which one makes the rules of 128 at least.
const MANY: u32 = 3_000;

/// So few of the many are there where a pass over all calls is made for each.
const FEW: u32 = 32;

/// Of the few, one in so many has a call.
const STEP: u32 = 8;

/// The Session-Ids of so many gateways' sessions, from the last to the first.
fn sessions(rt: &impl Abort, alloc: Global, size: u32) -> Vec<GxSid> {
    let mut made = Vec::new(alloc);
    for number in 0..size {
        let id = gateway_id(rt, alloc, size - 1 - number);
        made.push(id).expect(rt, "memory");
    }
    made
}

/// The list of the session of a number, of so many that are there, with a call for each so many, is that by hand.
fn is_right(
    rt: &impl Abort,
    alloc: Global,
    list: &[Rule],
    number: u32,
    size: u32,
    step: u32,
) -> bool {
    if size <= number {
        return list.is_empty();
    }
    if number.is_multiple_of(step) {
        is_with_call(rt, alloc, list, number)
    } else {
        is_without_call(list)
    }
}

/// The lists of the many, from the last to the first, are those by hand.
fn compare(rt: &impl Abort, alloc: Global, made: &[Vec<Rule>], size: u32, step: u32) {
    check_same(rt, made.len(), MANY as usize);
    let numbers = (0..MANY).rev();
    for (list, number) in made.iter().zip(numbers) {
        check(rt, is_right(rt, alloc, list.as_slice(), number, size, step));
    }
}

/// The lists of many sessions by the index are those of each, in order.
fn many_by_index(
    rt: &(impl Threads + Abort + Sync),
    alloc: Global,
    tables: &Tables,
    state: &State,
    asked: &[GxSid],
) {
    let mut index = Index::start(alloc);
    index.cover_state(state).expect(rt, "memory");
    let made = derive_many_by(rt, alloc, tables, state, &index, asked).expect(rt, "memory");
    drop(index);
    compare(rt, alloc, made.as_slice(), MANY, 1);
    drop(made);
}

#[test]
fn many_by_index_are_those_of_each(rt: HostRuntime) {
    let alloc = rt.alloc();
    let state = state_of(&rt, alloc, MANY, 1);
    let tables = telephony(&rt, alloc);
    let asked = sessions(&rt, alloc, MANY);
    many_by_index(&rt, alloc, &tables, &state, asked.as_slice());
}

/// The lists of sessions by a pass over all calls for each are those of each, in order.
fn many_by_pass(
    rt: &(impl Threads + Abort + Sync),
    alloc: Global,
    tables: &Tables,
    state: &State,
    asked: &[GxSid],
) {
    let made = derive_many(rt, alloc, tables, state, asked).expect(rt, "memory");
    compare(rt, alloc, made.as_slice(), FEW, STEP);
    drop(made);
    let none = derive_many(rt, alloc, tables, state, &asked[..0]).expect(rt, "memory");
    check(rt, none.is_empty());
}

#[test]
fn many_by_a_pass_are_those_of_each(rt: HostRuntime) {
    let alloc = rt.alloc();
    let state = state_of(&rt, alloc, FEW, STEP);
    let tables = telephony(&rt, alloc);
    let asked = sessions(&rt, alloc, MANY);
    many_by_pass(&rt, alloc, &tables, &state, asked.as_slice());
}
