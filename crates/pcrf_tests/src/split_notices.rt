//! Notices of more hosts than one has room for, and clocks that are none.
use pcrf_values::DiameterIdentity;
use peer_lines::{
    Expected, HeadFault, Hearing, Notice, ReachedHosts, Sieve, Sieved, put_all, put_change,
};
use std::alloc::Global;
use std::collections::BTreeSet;
use std::io::{self, ErrorKind};
use std::process::Abort;
use std::test::*;
use std::time::{Clock, Duration};

/// The most that the length of a notice says.
const MOST: u32 = 65_536;

/// A host of that number, whose name has so many bytes.
fn host(rt: &impl Abort, alloc: Global, number: u32, length: usize) -> DiameterIdentity {
    let mut name = vec![in alloc; b'h'; length].expect(rt, "memory");
    let mut rest = number;
    for byte in name.iter_mut().take(5) {
        *byte = b'a'.wrapping_add((rest % 26) as u8);
        rest /= 26;
    }
    let read = DiameterIdentity::read(alloc, name.as_slice()).expect(rt, "memory");
    read.expect(rt, "a name")
}

/// So many hosts, whose names have so many bytes each.
fn hosts(rt: &impl Abort, alloc: Global, count: u32, length: usize) -> BTreeSet<DiameterIdentity> {
    let mut hosts = BTreeSet::new(alloc);
    for number in 0..count {
        hosts
            .insert(host(rt, alloc, number, length))
            .expect(rt, "memory");
    }
    hosts
}

/// The notices that stand in these bytes, by their kinds; no notice has a length past the greatest.
fn kinds(rt: &impl Abort, alloc: Global, bytes: &[u8]) -> Vec<u8> {
    let mut kinds = Vec::new(alloc);
    let mut rest = bytes;
    for _ in 0..=bytes.len() {
        let Some(front) = rest.first_chunk::<6>() else {
            break;
        };
        let length = u32::from_be_bytes([front[0], front[1], front[2], front[3]]);
        assert!(rt; length <= MOST && front[4] == 240);
        kinds.push(front[5]).expect(rt, "memory");
        rest = rest
            .get((length as usize).saturating_add(4)..)
            .unwrap_or(&[]);
    }
    kinds
}

/// What comes of bytes that come in pieces of that size.
fn sieved(alloc: Global, bytes: &[u8], size: usize) -> Result<Vec<Notice>, HeadFault> {
    let expected = Expected {
        edition: 7,
        number: 0,
    };
    let mut sieve = Sieve::start(alloc, expected);
    let mut came = Sieved::nothing(alloc);
    for piece in bytes.chunks(size.max(1)) {
        sieve.take(piece, &mut came)?;
    }
    let Sieved {
        letters: _,
        notices,
    } = came;
    Ok(notices)
}

/// Whether one notice came, that these are all hosts.
fn tells(notices: &[Notice], hosts: &BTreeSet<DiameterIdentity>) -> bool {
    match notices.first() {
        Some(Notice::All(all)) => {
            let mut told = all.len() == hosts.len() && notices.len() == 1;
            for host in hosts.iter() {
                told = told && all.contains(host);
            }
            told
        }
        _ => false,
    }
}

/// What is written of so many hosts stands in so many notices, and is read again in pieces of that size.
fn check(rt: &impl Abort, alloc: Global, count: u32, length: usize, notices: usize, size: usize) {
    let hosts = hosts(rt, alloc, count, length);
    assert_eq!(rt; hosts.len(), count as usize);
    let mut bytes = Vec::new(alloc);
    put_all(alloc, &mut bytes, &hosts).expect(rt, "memory");
    let kinds = kinds(rt, alloc, bytes.as_slice());
    assert_eq!(rt; kinds.len(), notices);
    for (place, kind) in kinds.iter().enumerate() {
        assert_eq!(rt;
            *kind,
            if place.saturating_add(1) == notices {
                1
            } else {
                4
            }
        );
    }
    let came = sieved(alloc, bytes.as_slice(), size).expect(rt, "notices");
    assert!(rt; tells(came.as_slice(), &hosts));
}

#[test]
fn what_is_written_of_few_hosts_is_read(rt: HostRuntime) {
    // One notice has room for 508 hosts of 127 bytes, without a byte to spare, or for 254 of 255 bytes.
    for (count, length, notices, size) in [
        (0, 40, 1, 3),
        (1, 255, 1, 1),
        (508, 127, 1, 70_000),
        (509, 127, 2, 65_540),
        (254, 255, 1, 4_096),
        (255, 255, 2, 509),
    ] {
        check(&rt, rt.alloc(), count, length, notices, size);
    }
}

#[test]
fn what_is_written_of_many_hosts_is_read(rt: HostRuntime) {
    check(&rt, rt.alloc(), 4_096, 40, 3, 4_096);
}

#[test]
fn parts_tell_nothing_by_themselves(rt: HostRuntime) {
    let alloc = rt.alloc();
    let hosts = hosts(&rt, alloc, 600, 127);
    let mut bytes = Vec::new(alloc);
    put_all(alloc, &mut bytes, &hosts).expect(&rt, "memory");
    // The last one begins behind the first, which has 4 bytes and 65,536.
    assert!(rt; bytes.len() > 65_540);
    let (part, last) = bytes.as_slice().split_at(65_540);
    let came = sieved(alloc, part, 10_000).expect(&rt, "a notice");
    assert!(rt; came.is_empty());
    // Another notice doesn't come between them, nor a host that stood in one before.
    let mut broken = Vec::from_slice(alloc, part).expect(&rt, "memory");
    put_change(alloc, &mut broken, &host(&rt, alloc, 3, 127), true).expect(&rt, "memory");
    assert_eq!(rt;
        sieved(alloc, broken.as_slice(), 10_000).err(),
        Some(HeadFault::NoNotice)
    );
    let mut broken = Vec::from_slice(alloc, part).expect(&rt, "memory");
    broken
        .extend_from_slice(bytes.as_slice())
        .expect(&rt, "memory");
    assert_eq!(rt;
        sieved(alloc, broken.as_slice(), 10_000).err(),
        Some(HeadFault::NoNotice)
    );
    // What is told then is told anew.
    let mut twice = Vec::from_slice(alloc, bytes.as_slice()).expect(&rt, "memory");
    twice
        .extend_from_slice(bytes.as_slice())
        .expect(&rt, "memory");
    let came = sieved(alloc, twice.as_slice(), 10_000).expect(&rt, "notices");
    assert_eq!(rt; came.len(), 2);
    assert!(rt; tells(came.as_slice().get(1..).unwrap_or(&[]), &hosts));
    assert!(rt; !last.is_empty());
}

#[test]
fn a_single_notice_has_the_bytes_that_it_had(rt: HostRuntime) {
    let alloc = rt.alloc();
    let mut hosts = BTreeSet::new(alloc);
    for name in [b"gw2", b"gw1"] {
        let read = DiameterIdentity::read(alloc, name).expect(&rt, "memory");
        let name = read.expect(&rt, "a name");
        hosts.insert(name).expect(&rt, "memory");
    }
    let mut bytes = Vec::new(alloc);
    put_all(alloc, &mut bytes, &hosts).expect(&rt, "memory");
    let wanted: &[u8] = b"\0\0\0\x0e\xf0\x01\0\x02\0\x03gw1\0\x03gw2";
    assert_eq!(rt; bytes.as_slice(), wanted);
    bytes.clear();
    put_all(alloc, &mut bytes, &BTreeSet::new(alloc)).expect(&rt, "memory");
    let wanted: &[u8] = b"\0\0\0\x04\xf0\x01\0\0";
    assert_eq!(rt; bytes.as_slice(), wanted);
}

/// A clock that tells no time.
#[derive(Drop)]
struct NoClock;

impl Clock for NoClock {
    fn monotonic(&self) -> io::Result<Duration> {
        Err(io::Error::from(ErrorKind::Other))
    }

    fn since_1970(&self) -> io::Result<Duration> {
        Err(io::Error::from(ErrorKind::Other))
    }
}

#[test]
fn without_a_clock_no_site_counts_as_gone(rt: HostRuntime) {
    let alloc = rt.alloc();
    let gw = host(&rt, alloc, 1, 9);
    let hosts = ReachedHosts::start(alloc, 2, 1_000).expect(&rt, "memory");
    for patience in [0, 1, 5_000, u64::MAX] {
        let moment = Hearing::moment(&NoClock, patience);
        for site in 0..16 {
            assert!(rt; !hosts.is_left(&gw, site, moment));
        }
    }
    // With one it does, once it had no link for as long as is borne.
    let moment = Hearing::moment(&rt, 0);
    assert!(rt; hosts.is_left(&gw, 7, moment));
}
