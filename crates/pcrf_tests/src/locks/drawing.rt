//! What threads ask of a site that they share: drawn from numbers of the thread's own, on sessions that all of them ask for at
//! about the same time.
use crate::events::{Kind, abort_to, push_to, retell, serve};
use rand_core::Rng;
use rand_xoshiro::SplitMix64;
use site_machine::Event;
use std::alloc::Global;
use std::process::Abort;

/// How many gateways' sessions, and how many of application functions, are asked for.
const SHARED: u32 = 8;

/// The place of the session of a draw.
fn place_at(draw: u64) -> u32 {
    let word = ((draw >> 32) & 0xffff_ffff) as u32;
    word % SHARED
}

/// What a request asks: of two hundred 70 are initial requests, 78 updates, 48 AA requests, one is a termination, one a session
/// termination request, and two are watchdogs. So most sessions are asked for long before they end, and some after it.
fn kind_of(draw: u64) -> Kind {
    match (draw >> 12) % 200 {
        0..=69 => Kind::Initial,
        70..=147 => Kind::Update,
        148..=195 => Kind::Call,
        196 => Kind::Termination,
        197 => Kind::CallEnd,
        _ => Kind::Watchdog,
    }
}

/// What a thread asks at a turn: of 64 calls one asks for all that the site holds, one for operations that it made, five have it push to
/// any gateway and as many to the one that there is, two have it abort a session of any application function and as many of the one
/// that there is, two have it count what a gateway was told as not there, and the others have it serve a request.
pub fn event_at(rt: &impl Abort, alloc: Global, draws: &mut SplitMix64, turn: u32) -> Event {
    let draw = draws.next_u64();
    let place = place_at(draw);
    match draw % 64 {
        0 => Event::AskWhole,
        1 => Event::AskOwn(u64::from(turn)),
        2..=6 => Event::Push(None),
        7..=11 => push_to(rt, alloc, b"gw"),
        12..=13 => Event::Abort(None),
        14..=15 => abort_to(rt, alloc, b"af"),
        16..=17 => retell(rt, alloc, place),
        _ => serve(rt, alloc, kind_of(draw), place, turn),
    }
}
