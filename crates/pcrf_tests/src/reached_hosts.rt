//! What no clause says of what sites say of a host, from a link's start to its end: that the calls which take memory succeed, and, once,
//! that the clauses say what they are to.
use crate::checks::check;
use crate::values::text;
use pcrf_values::DiameterIdentity;
use peer_lines::{Moment, ReachedHosts};
use std::alloc::Global;
use std::collections::BTreeSet;
use std::process::Abort;
use std::test::*;

/// Which site looks, and which one is home.
const OWN: u8 = 2;

const HOME: u8 = 7;

/// One host alone.
fn alone(rt: &impl Abort, alloc: Global, name: &[u8]) -> BTreeSet<DiameterIdentity> {
    let mut hosts = BTreeSet::new(alloc);
    hosts.insert(text(rt, alloc, name)).expect(rt, "memory");
    hosts
}

/// Whether the sessions of the host `gw` are taken over at that time, where it is borne for five seconds that its home has no link.
fn goes_over(rt: &impl Abort, alloc: Global, hosts: &ReachedHosts, now: u64) -> bool {
    let moment = Moment {
        now,
        patience: 5_000,
    };
    hosts.goes_over(&text(rt, alloc, b"gw"), HOME, moment)
}

#[test]
fn a_host_goes_over_once_its_home_doesnt_reach_it(rt: HostRuntime) {
    let alloc = rt.alloc();
    let mut hosts = ReachedHosts::start(alloc, OWN, 1_000).expect(&rt, "memory");
    check(&rt, !goes_over(&rt, alloc, &hosts, 9_000));
    hosts.link(OWN);
    hosts.say_all(OWN, alone(&rt, alloc, b"gw"));
    // Its home has had no link since this site started.
    check(&rt, !goes_over(&rt, alloc, &hosts, 5_999));
    check(&rt, goes_over(&rt, alloc, &hosts, 6_000));
    // It has one, and says nothing, that it reaches another host alone, and the host too.
    hosts.link(HOME);
    check(&rt, !goes_over(&rt, alloc, &hosts, 9_000));
    hosts.say_all(HOME, alone(&rt, alloc, b"other"));
    check(&rt, goes_over(&rt, alloc, &hosts, 9_000));
    let said = hosts.say_reached(HOME, text(&rt, alloc, b"gw"));
    said.expect(&rt, "memory");
    check(&rt, !goes_over(&rt, alloc, &hosts, 9_000));
    // Its link ends.
    hosts.unlink(HOME, 10_000);
    check(&rt, !goes_over(&rt, alloc, &hosts, 14_999));
    check(&rt, goes_over(&rt, alloc, &hosts, 15_000));
}
