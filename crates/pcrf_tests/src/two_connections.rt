//! A host that exchanged capabilities on two connections, which end in either order; and hosts that are followed.
use pcrf_serve::{Gateways, Half, Unobserved};
use pcrf_values::DiameterIdentity;
use std::alloc::{AllocError, Global};
use std::fmt::Write as _;
use std::io::{self, Write};
use std::process::Abort;
use std::sync::{Arc, Wait};
use std::test::*;

/// A writer of which nothing is seen.
#[derive(Drop)]
struct Nowhere;

impl Write for Nowhere {
    fn write(&mut self, buf: &[u8]) -> io::Result<usize> {
        Ok(buf.len())
    }

    fn flush(&mut self) -> io::Result<()> {
        Ok(())
    }
}

/// A host.
fn host(rt: &impl Abort, alloc: Global, name: &str) -> DiameterIdentity {
    let read = DiameterIdentity::read(alloc, name.as_bytes()).expect(rt, "memory");
    read.expect(rt, "a name")
}

/// A half of a connection that is open.
fn half<R: Wait + Abort>(rt: &R, alloc: Global) -> Arc<Half<Nowhere>> {
    let half = Arc::new(alloc, Half::start()).expect(rt, "memory");
    half.open(rt, Nowhere);
    half
}

/// Whether a host is reached.
fn reaches<R: Wait + Abort>(
    rt: &R,
    alloc: Global,
    gateways: &Gateways<Nowhere>,
    name: &str,
) -> bool {
    let hosts = gateways.hosts(rt, alloc).expect(rt, "memory");
    hosts.contains(&host(rt, alloc, name))
}

/// A connection ends.
fn end<R: Wait>(rt: &R, gateways: &Gateways<Nowhere>, half: &Half<Nowhere>) {
    half.close(rt);
    gateways.take_ended_out(rt);
}

/// Whether a host is reached once the first of two connections has ended, or the second where that ends first; and once both have.
fn reached_after<R: Wait + Abort>(
    rt: &R,
    alloc: Global,
    gateways: &Gateways<Nowhere>,
    is_first_first: bool,
) -> (bool, bool) {
    let (first, second) = (half(rt, alloc), half(rt, alloc));
    for (connection, half) in [(0usize, &first), (1, &second)] {
        let registered = gateways.register(rt, host(rt, alloc, "gw"), connection, half);
        assert!(rt; registered.is_ok());
        assert!(rt; reaches(rt, alloc, gateways, "gw"));
    }
    let (sooner, later) = if is_first_first {
        (&first, &second)
    } else {
        (&second, &first)
    };
    end(rt, gateways, sooner);
    let after_one = reaches(rt, alloc, gateways, "gw");
    end(rt, gateways, later);
    (after_one, reaches(rt, alloc, gateways, "gw"))
}

#[test]
fn a_later_exchange_replaces_the_half(rt: HostRuntime) {
    let alloc = rt.alloc();
    // The end of the connection that was replaced is no matter, and that of the other one takes the host out.
    let gateways = Gateways::observed(alloc, Unobserved);
    assert_eq!(rt; reached_after(&rt, alloc, &gateways, true), (true, false));
    assert_eq!(rt; reached_after(&rt, alloc, &gateways, false), (false, false));
    // The host comes again.
    assert_eq!(rt; reached_after(&rt, alloc, &gateways, true), (true, false));
    assert_eq!(rt; gateways.count(&rt), 0);
}

#[test]
fn a_host_falls_back_to_what_is_open_still(rt: HostRuntime) {
    let alloc = rt.alloc();
    let gateways = Gateways::falling_back(alloc, Unobserved);
    assert_eq!(rt; reached_after(&rt, alloc, &gateways, true), (true, false));
    assert_eq!(rt; reached_after(&rt, alloc, &gateways, false), (true, false));
    assert_eq!(rt; gateways.count(&rt), 0);
}

/// The name of a host behind a relay.
fn behind_relay(alloc: Global, number: u32) -> Result<String, AllocError> {
    let mut name = String::new(alloc);
    write!(name, "gw{number}")?;
    Ok(name)
}

#[test]
fn hosts_are_followed_up_to_a_number(rt: HostRuntime) {
    let alloc = rt.alloc();
    let gateways = Gateways::falling_back(alloc, Unobserved);
    let relay = half(&rt, alloc);
    let registered = gateways.register(&rt, host(&rt, alloc, "relay"), 0, &relay);
    assert!(rt; registered.is_ok());
    for number in 0..4_100u32 {
        let name = behind_relay(alloc, number).expect(&rt, "memory");
        let followed = gateways.follow(&rt, host(&rt, alloc, name.as_str()), 0, &relay);
        assert!(rt; followed.is_ok());
    }
    // One that is followed already takes no further place.
    let followed = gateways.follow(&rt, host(&rt, alloc, "gw4"), 0, &relay);
    assert!(rt; followed.is_ok());
    let hosts = gateways.hosts(&rt, alloc).expect(&rt, "memory");
    assert_eq!(rt; hosts.len(), 4_097);
    assert!(rt; hosts.contains(&host(&rt, alloc, "relay")));
    for (number, is_reached) in [(0, false), (3, false), (4, true), (4_099, true)] {
        let name = behind_relay(alloc, number).expect(&rt, "memory");
        assert_eq!(rt;
            hosts.contains(&host(&rt, alloc, name.as_str())),
            is_reached
        );
    }
    end(&rt, &gateways, &relay);
    assert_eq!(rt; gateways.count(&rt), 0);
}
