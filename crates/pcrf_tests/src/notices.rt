//! Notices between letters, in pieces of whatever size, as docs/LETTERS.md has their bytes.
use pcrf_values::DiameterIdentity;
use peer_lines::{
    Expected, HeadFault, LetterKind, LetterTraffic, Notice, Sieve, Sieved, head_of, put_all,
    put_change,
};
use std::alloc::Global;
use std::collections::BTreeSet;
use std::process::Abort;
use std::test::*;

/// An acknowledgement of site 1.
const LETTER: &[u8] = b"\0\0\0\x14\x03\0\0\0\x07\x01\0\x01\x03\0\0\x01\0\0\0\0\0\0\0\x01";

/// That a site reaches gw1 and gw2 and no others, that it reaches gw3 too, and gw1 no more.
const ALL: &[u8] = b"\0\0\0\x0e\xf0\x01\0\x02\0\x03gw1\0\x03gw2";

const REACHED: &[u8] = b"\0\0\0\x07\xf0\x02\0\x03gw3";

const LEFT: &[u8] = b"\0\0\0\x07\xf0\x03\0\x03gw1";

/// A host.
fn host(rt: &impl Abort, alloc: Global, name: &[u8]) -> DiameterIdentity {
    let read = DiameterIdentity::read(alloc, name).expect(rt, "memory");
    read.expect(rt, "a short name")
}

/// A sieve of site 0.
fn sieve(alloc: Global) -> Sieve {
    let expected = Expected {
        edition: 7,
        number: 0,
    };
    Sieve::start(alloc, expected)
}

/// What comes of bytes that come in pieces of that size.
fn sieved(alloc: Global, parts: &[&[u8]], size: usize) -> Result<Sieved, HeadFault> {
    let mut bytes = Vec::new(alloc);
    for part in parts {
        if bytes.extend_from_slice(part).is_err() {
            return Err(HeadFault::NoMemory);
        }
    }
    let mut sieve = sieve(alloc);
    let mut came = Sieved::nothing(alloc);
    for piece in bytes.as_slice().chunks(size.max(1)) {
        sieve.take(piece, &mut came)?;
    }
    Ok(came)
}

/// The hosts that are told to be all.
fn hosts_of(notice: Option<&Notice>) -> usize {
    match notice {
        Some(Notice::All(hosts)) => hosts.len(),
        _ => 0,
    }
}

/// Whether a notice says so of one host.
fn says(notice: Option<&Notice>, is_reached: bool, name: &[u8]) -> bool {
    match notice {
        Some(Notice::Reached(host)) => is_reached && host.as_slice() == name,
        Some(Notice::Left(host)) => !is_reached && host.as_slice() == name,
        _ => false,
    }
}

#[test]
fn notices_are_taken_out_of_letters(rt: HostRuntime) {
    let alloc = rt.alloc();
    let stream = [LETTER, ALL, REACHED, LETTER, LEFT];
    for size in 1..90 {
        let came = sieved(alloc, &stream, size).expect(&rt, "letters and notices");
        assert_eq!(rt; came.letters.len(), 2 * LETTER.len());
        assert!(rt; came.letters.as_slice().starts_with(LETTER));
        assert!(rt; came.letters.as_slice().ends_with(LETTER));
        let notices = came.notices.as_slice();
        assert_eq!(rt; notices.len(), 3);
        assert_eq!(rt; hosts_of(notices.get(0)), 2);
        assert!(rt; says(notices.get(1), true, b"gw3"));
        assert!(rt; says(notices.get(2), false, b"gw1"));
    }
}

#[test]
fn notices_have_their_bytes(rt: HostRuntime) {
    let alloc = rt.alloc();
    let mut hosts = BTreeSet::new(alloc);
    hosts.insert(host(&rt, alloc, b"gw2")).expect(&rt, "memory");
    hosts.insert(host(&rt, alloc, b"gw1")).expect(&rt, "memory");
    let mut bytes = Vec::new(alloc);
    put_all(alloc, &mut bytes, &hosts).expect(&rt, "memory");
    assert_eq!(rt; bytes.as_slice(), ALL);
    bytes.clear();
    put_change(alloc, &mut bytes, &host(&rt, alloc, b"gw3"), true).expect(&rt, "memory");
    assert_eq!(rt; bytes.as_slice(), REACHED);
    bytes.clear();
    put_change(alloc, &mut bytes, &host(&rt, alloc, b"gw1"), false).expect(&rt, "memory");
    assert_eq!(rt; bytes.as_slice(), LEFT);
}

/// The fault of one notice.
fn fault(alloc: Global, notice: &[u8]) -> Option<HeadFault> {
    sieved(alloc, &[notice], 7).err()
}

#[test]
fn what_is_no_notice_is_refused(rt: HostRuntime) {
    let alloc = rt.alloc();
    let no_notice = Some(HeadFault::NoNotice);
    // No kind, another kind, a length past the greatest, a byte too many, one too few.
    assert_eq!(rt; fault(alloc, b"\0\0\0\x01\xf0"), None);
    assert_eq!(rt; fault(alloc, b"\0\0\0\x02\xf0\x04"), no_notice);
    assert_eq!(rt; fault(alloc, b"\0\x01\0\x01\xf0\x01"), no_notice);
    assert_eq!(rt; fault(alloc, b"\0\0\0\x08\xf0\x02\0\x03gw3g"), no_notice);
    assert_eq!(rt; fault(alloc, b"\0\0\0\x06\xf0\x02\0\x03gw"), no_notice);
    // No host has an empty name, and none stands there twice.
    assert_eq!(rt; fault(alloc, b"\0\0\0\x04\xf0\x02\0\0"), no_notice);
    assert_eq!(rt;
        fault(alloc, b"\0\0\0\x0a\xf0\x01\0\x02\0\x01a\0\x01a"),
        no_notice
    );
    // Another version is no notice.
    assert_eq!(rt;
        fault(alloc, b"\0\0\0\x14\x04\0\0\0\x07\x01\0\x01\x03"),
        Some(HeadFault::Version(4))
    );
}

#[test]
fn letters_are_counted_by_their_kinds(rt: HostRuntime) {
    let alloc = rt.alloc();
    let traffic = LetterTraffic::start();
    let mut sieve = sieve(alloc);
    let mut came = Sieved::nothing(alloc);
    for bytes in [LETTER, REACHED, LETTER] {
        for piece in bytes.chunks(5) {
            assert!(rt; sieve.take(piece, &mut came).is_ok());
        }
    }
    for head in sieve.uncounted() {
        traffic.taken.count(&head);
    }
    assert_eq!(rt; sieve.uncounted().len(), 0);
    let acknowledgements = traffic.taken.of(LetterKind::Acknowledgement);
    assert_eq!(rt; acknowledgements.letters.get(), 2);
    assert_eq!(rt; acknowledgements.bytes.get(), 2 * LETTER.len() as u64);
    assert_eq!(rt; traffic.taken.of(LetterKind::Range).letters.get(), 0);
    assert_eq!(rt; traffic.taken.of(LetterKind::Snapshot).letters.get(), 0);
    assert_eq!(rt; LetterKind::Acknowledgement.name(), "acknowledgement");
    assert!(rt; head_of(b"\0\0\0\x14\x03\0\0\0\x07\x01\0\x01").is_none());
}
