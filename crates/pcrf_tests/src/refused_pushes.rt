//! Sessions whose gateways refuse what they are told, and hosts that start again, at the limits of what is known of them, with memory
//! enough. What becomes of each is proved.
use crate::checks::{check, check_same};
use crate::values::text;
use pcrf_values::GxSid;
use std::alloc::Global;
use std::process::Abort;
use std::test::*;
use watched_links::{OriginStates, PIECE, Refused, RefusedPushes};

/// How many milliseconds lie between a refusal and the telling.
const PAUSE: u64 = 60_000;

/// The Session-Id of a number.
fn session(rt: &impl Abort, alloc: Global, number: u32) -> GxSid {
    GxSid::of(text(rt, alloc, &number.to_be_bytes()))
}

#[test]
fn sessions_are_due_in_pieces(rt: HostRuntime) {
    let alloc = rt.alloc();
    let mut refused = RefusedPushes::start(alloc, PAUSE);
    for number in 0..250 {
        let gw = session(&rt, alloc, number);
        check(&rt, refused.refuse(&gw, 1_000) == Refused::ToldAgain);
    }
    for count in [PIECE, PIECE, 50, 0] {
        let now = refused.next_due(200_000).expect(&rt, "memory");
        check_same(&rt, now.len(), count);
        for gw in &now {
            refused.tell_again(gw, 200_000);
        }
    }
}

#[test]
fn no_more_are_known_than_can_be(rt: HostRuntime) {
    let alloc = rt.alloc();
    let mut refused = RefusedPushes::start(alloc, PAUSE);
    for number in 0..16_384 {
        refused.refuse(&session(&rt, alloc, number), 1_000);
    }
    let further = session(&rt, alloc, 16_384);
    check(&rt, refused.refuse(&further, 1_001) == Refused::Stands);
    // One that refused twice makes room.
    let gw = session(&rt, alloc, 7);
    refused.tell_again(&gw, 61_000);
    check(&rt, refused.refuse(&gw, 61_001) == Refused::GivenUp);
    check(&rt, refused.refuse(&further, 61_002) == Refused::ToldAgain);
    check_same(&rt, refused.len(), 16_384);
    check(&rt, refused.refuse(&gw, 61_003) == Refused::Stands);
    refused.forget(&further);
    check_same(&rt, refused.len(), 16_383);
}

#[test]
fn states_are_known_once_told(rt: HostRuntime) {
    let alloc = rt.alloc();
    let mut states = OriginStates::start(alloc);
    let gw = session(&rt, alloc, 1);
    states.tell_session(&gw, 8).expect(&rt, "memory");
    check(&rt, !states.may_have_grown(&gw, 8));
    check(&rt, states.may_have_grown(&gw, 9));
    let host = text(&rt, alloc, b"gw");
    states.tell_host(&host, 4).expect(&rt, "memory");
    check_same(&rt, states.of_host(&host), Some(4));
}
