//! Letters that a reply makes or doesn't, at the limits of `peer_exchange`: what sites count of each other is proved, and tried by the
//! random worlds of `cases`.
use crate::checks::check_same;
use crate::facts::{gateway_end, tag};
use peer_exchange::{Body, Cursors, Letter};
use site_join::{Operation, State};
use site_machine::Reply;
use std::alloc::AllocGlobal;
use std::process::Abort;

/// The edition of the sites' operator tables.
const EDITION: u32 = 7;

/// A letter's sender and epoch, and, if it is a range, the position of its first operation and how many it has.
type Shown = (u8, u16, Option<(u64, usize)>);

/// What a letter shows.
fn shown(letter: &Letter) -> Shown {
    let range = match letter.body() {
        Body::Range(range) => Some((range.from, range.operations.len())),
        _ => None,
    };
    (letter.site(), letter.epoch(), range)
}

/// What a letter shows, if there is one.
fn shown_by(letter: &Option<Letter>) -> Option<Shown> {
    match letter {
        Some(letter) => Some(shown(letter)),
        None => None,
    }
}

/// What the letter shows that a reply makes, where operations were asked for from that position on.
fn made(from: u64, reply: Reply) -> Option<Shown> {
    let cursors = Cursors::start(2, 5);
    let letter = cursors.letter_of(EDITION, from, reply);
    let shown = shown_by(&letter);
    drop(letter);
    drop(cursors);
    shown
}

/// So many operations.
fn operations(rt: &(impl AllocGlobal + Abort), count: u64) -> Vec<Operation> {
    let mut operations = Vec::new(rt.alloc());
    for _ in 0..count {
        let end = gateway_end(rt, rt.alloc(), 1, tag(1, 0));
        operations.push(end).expect(rt, "memory");
    }
    operations
}

/// So many operations from a position on make the letter that shows this, or none.
fn make(rt: &(impl AllocGlobal + Abort), from: u64, count: u64, wanted: Option<Shown>) {
    let reply = Reply::Own(operations(rt, count), 3);
    check_same(rt, made(from, reply), wanted);
}

/// The last position of a log.
const LAST: u64 = (1 << 63) - 1;

#[test]
fn replies_that_no_letter_carries_make_none(rt: HostRuntime) {
    make(&rt, 0, 0, Some((2, 5, Some((0, 0)))));
    make(&rt, 7, 100, Some((2, 5, Some((7, 100)))));
    make(&rt, 7, 101, None);
    make(&rt, LAST - 1, 1, Some((2, 5, Some((LAST - 1, 1)))));
    make(&rt, LAST, 1, None);
    make(&rt, LAST, 0, Some((2, 5, Some((LAST, 0)))));
    make(&rt, LAST + 1, 0, None);
    check_same(&rt, made(0, Reply::Done), None);
}

/// A whole state of a site that made so many operations makes the letter that shows this, or none.
fn make_whole(rt: &(impl AllocGlobal + Abort), made_so_many: u64, wanted: Option<Shown>) {
    let reply = Reply::Copy(State::start(rt.alloc()), made_so_many);
    check_same(rt, made(0, reply), wanted);
}

#[test]
fn whole_states_make_letters(rt: HostRuntime) {
    make_whole(&rt, LAST, Some((2, 5, None)));
    make_whole(&rt, LAST + 1, None);
}
