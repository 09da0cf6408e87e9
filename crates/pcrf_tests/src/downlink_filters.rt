//! What no clause says: the call with memory enough, each way through it.
use crate::checks::check;
use gx_profile::as_downlink;
use std::alloc::AllocGlobal;
use std::process::Abort;
use std::test::*;

/// A filter becomes another.
fn becomes(rt: &(impl AllocGlobal + Abort), filter: &[u8], other: &[u8]) {
    let made = as_downlink(rt.alloc(), filter).expect(rt, "memory");
    let is_same = made.as_slice() == other;
    drop(made);
    check(rt, is_same);
}

#[test]
fn filters_become_those_of_the_downlink(rt: HostRuntime) {
    becomes(
        &rt,
        b"permit in 17 from 10.0.0.1 5004 to 192.0.2.9 7000-7001",
        b"permit out 17 from 192.0.2.9 7000-7001 to 10.0.0.1 5004",
    );
    let from = b"permit in 1 from any to !assigned icmptypes 0,8";
    becomes(
        &rt,
        from,
        b"permit out 1 from !assigned to any icmptypes 0,8",
    );
    let named = b"permit in udp from any to any";
    becomes(&rt, named, named);
    becomes(&rt, b"", b"");
}
