//! Sessions that come and go over few addresses, prefixes and subscribers: an index lists no more of them after each round than after the
//! first, however late their requests come once more.
use crate::checks::check_same;
use crate::facts::{
    address, call, call_end, call_within, gateway_end, initial, prefix, prefixed, subscribed, tag,
};
use crate::tables::telephony;
use crate::values::subscriber;
use bind_index::{Index, network_of};
use indexed_state::IndexedState;
use pcrf_values::{Subscriber, Tag};
use site_join::{Operation, State};
use std::alloc::Global;
use std::process::Abort;

/// How many addresses and how many subscribers they share.
const POOL: u8 = 3;

/// How many sessions come and go in a round.
const EACH: u8 = 6;

/// How many prefixes they share, of 0 to 128 bits.
const PREFIXES: u8 = 9;

/// Prefixes of each network of these, and one that spans networks.
const OF_NETWORKS: [u8; 3] = [1, 2, 5];

/// How many rounds there are.
const ROUNDS: u8 = 3;

/// How many gateways' sessions and calls are listed under addresses and under networks, and how many sessions under subscribers.
#[derive(Clone, Copy, Debug, Default, PartialEq, Eq)]
struct Listed {
    gateways: usize,
    calls: usize,
    gateways_in: usize,
    calls_in: usize,
    subscribed: usize,
}

/// Of each so many.
fn of_each(count: usize) -> Listed {
    Listed {
        gateways: count,
        calls: count,
        gateways_in: count,
        calls_in: count,
        subscribed: count,
    }
}

/// Counts one more.
fn add(count: &mut usize) {
    *count = count.saturating_add(1);
}

/// What an index lists under an address.
fn add_place(index: &Index, place: u8, listed: &mut Listed) {
    if let Some(ids) = index.gateways_at(address(u32::from(place))) {
        for _session in ids.iter() {
            add(&mut listed.gateways);
        }
    }
    if let Some(ids) = index.calls_at(address(u32::from(place))) {
        for _session in ids.iter() {
            add(&mut listed.calls);
        }
    }
}

/// Under the network of a prefix.
fn add_network(rt: &impl Abort, index: &Index, number: u8, listed: &mut Listed) {
    let network = network_of(&prefix(rt, number));
    if let Some(ids) = index.gateways_in(&network) {
        for _session in ids.iter() {
            add(&mut listed.gateways_in);
        }
    }
    if let Some(ids) = index.calls_in(&network) {
        for _session in ids.iter() {
            add(&mut listed.calls_in);
        }
    }
}

/// And under a subscriber.
fn add_subscriber(index: &Index, who: &Subscriber, listed: &mut Listed) {
    if let Some(ids) = index.gateways_of(who) {
        for _session in ids.iter() {
            add(&mut listed.subscribed);
        }
    }
}

/// What the index of a state, which is whole, lists under all addresses, networks and subscribers that are shared.
fn listed_in(rt: &impl Abort, alloc: Global, held: &IndexedState) -> Listed {
    let index = held.index().expect(rt, "a whole index");
    let mut listed = Listed::default();
    for number in 0..POOL {
        add_place(index, number, &mut listed);
        let who = subscriber(rt, alloc, number);
        add_subscriber(index, &who, &mut listed);
        drop(who);
    }
    for number in OF_NETWORKS {
        add_network(rt, index, number, &mut listed);
    }
    listed
}

/// A tag of site 1, so many behind a counter.
fn at(counter: u64, further: u64) -> Tag {
    tag(counter.saturating_add(further), 1)
}

/// Takes an operation.
fn take(rt: &impl Abort, held: &mut IndexedState, made: Operation) {
    held.take(&made).expect(rt, "memory");
    drop(made);
}

/// Takes an operation as all that another site holds.
fn take_whole(rt: &impl Abort, alloc: Global, held: &mut IndexedState, made: Operation) {
    let mut state = State::start(alloc);
    state.take(&made).expect(rt, "memory");
    drop(made);
    held.take_state(&state).expect(rt, "memory");
    drop(state);
}

/// A session of an address and a subscriber comes, and a call; then both are given a prefix, and another.
fn come(
    rt: &impl Abort,
    alloc: Global,
    held: &mut IndexedState,
    number: u8,
    counter: u64,
    place: u8,
) {
    let (id, site) = (u32::from(number), u32::from(place));
    take(rt, held, initial(rt, alloc, id, at(counter, 0), site));
    take(rt, held, subscribed(rt, alloc, id, at(counter, 1), place));
    take(rt, held, call(rt, alloc, id, at(counter, 2), site));
    for (further, turn) in [(3, 0), (4, 1)] {
        let turned = number.saturating_add(turn);
        let given = prefix(rt, turned % PREFIXES);
        take(
            rt,
            held,
            prefixed(rt, alloc, id, at(counter, further), given),
        );
        let asked = prefix(rt, turned.saturating_add(4) % PREFIXES);
        take(
            rt,
            held,
            call_within(rt, alloc, id, at(counter, further), asked),
        );
    }
}

/// It ends, and so does its call; by a state of another site if it is asked for.
fn go(
    rt: &impl Abort,
    alloc: Global,
    held: &mut IndexedState,
    number: u8,
    counter: u64,
    by_state: bool,
) {
    let id = u32::from(number);
    take(rt, held, call_end(rt, alloc, id, at(counter, 10)));
    let end = gateway_end(rt, alloc, id, at(counter, 11));
    if by_state {
        take_whole(rt, alloc, held, end);
    } else {
        take(rt, held, end);
    }
}

/// The sessions of a round come and go, one after the other; requests of each come late, at another address and of another subscriber.
fn round(rt: &impl Abort, alloc: Global, held: &mut IndexedState, first: u8) {
    for further in 0..EACH {
        let number = first.saturating_add(further);
        let (counter, place) = (100 * u64::from(number), number % POOL);
        come(rt, alloc, held, number, counter, place);
        check_same(rt, listed_in(rt, alloc, held), of_each(3));
        go(rt, alloc, held, number, counter, further == 0);
        check_same(rt, listed_in(rt, alloc, held), of_each(2));
        let other = (place + 1) % POOL;
        come(rt, alloc, held, number, counter.saturating_add(20), other);
        check_same(rt, listed_in(rt, alloc, held), of_each(2));
    }
}

#[test]
fn an_index_lists_what_shows_alone(rt: HostRuntime) {
    let alloc = rt.alloc();
    let mut held = IndexedState::start(alloc, telephony(&rt, alloc));
    come(&rt, alloc, &mut held, 1, 1, 1);
    come(&rt, alloc, &mut held, 2, 11, 2);
    for turn in 0..ROUNDS {
        round(&rt, alloc, &mut held, 10 + turn * EACH);
    }
    drop(held);
}
