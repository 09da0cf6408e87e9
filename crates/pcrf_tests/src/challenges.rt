//! Challenges of sealed links, what was said on another link, and whose letters a link has.
use crate::devices::{Sink, Source};
use peer_lines::{
    Course, Expected, Greeting, Greetings, HeadFault, Key, SealFault, SealedReader, SealedWriter,
    Side, Sieve, Sieved, prove_dialling, prove_listening,
};
use std::alloc::Global;
use std::io::{self, Read, Write};
use std::process::Abort;
use std::random::RandomSource;
use std::test::*;

/// A letter of site 1: an acknowledgement.
const LETTER: &[u8] = b"\0\0\0\x14\x03\0\0\0\x07\x01\0\x01\x03\0\0\x01\0\0\0\0\0\0\0\x01";

/// A system that gives bytes which ascend from that one.
#[derive(Drop)]
struct Ascending(u8);

impl RandomSource for Ascending {
    fn fill_bytes(&self, buf: &mut [u8]) -> io::Result<()> {
        let mut next = self.0;
        for byte in buf.iter_mut() {
            *byte = next;
            next = next.wrapping_add(1);
        }
        Ok(())
    }
}

/// What an end of a site says first whose challenge begins with that byte.
fn greeting(rt: &impl Abort, site: u8, first: u8) -> Greeting {
    match Greeting::next(&Ascending(first), site) {
        Ok(greeting) => greeting,
        Err(_) => rt.abort(),
    }
}

/// The secret.
fn secret() -> Key {
    Key::of(b"a secret that both of the sites have")
}

#[test]
fn a_challenge_is_what_the_system_gives(rt: HostRuntime) {
    for first in [0u8, 7, 240] {
        let greeting = greeting(&rt, 3, first);
        assert_eq!(rt; greeting.site, 3);
        for (place, byte) in greeting.challenge.iter().enumerate() {
            assert_eq!(rt; *byte, first.wrapping_add((place % 256) as u8));
        }
    }
    // That of this machine is another each time.
    let (Ok(one), Ok(other)) = (Greeting::next(&rt, 3), Greeting::next(&rt, 3)) else {
        return rt.abort();
    };
    assert!(rt; one.challenge != other.challenge);
}

/// What site 0 says that dials site 1, by challenges that begin with these bytes.
fn said_by_dialler(rt: &impl Abort, alloc: Global, own: u8, other: u8) -> Vec<u8> {
    let (dialler, listener) = (greeting(rt, 0, own), greeting(rt, 1, other));
    let mut sink = Sink::of(alloc);
    let heard = said_by_listener(rt, alloc, own, other);
    let mut source = Source::of(heard.as_slice(), usize::MAX);
    let both = prove_dialling(&mut source, &mut sink, &secret(), dialler);
    assert!(rt; both.is_ok_and(|both| both.listener.challenge == listener.challenge));
    let Sink {
        bytes,
        most: _,
        fails_at: _,
    } = sink;
    bytes
}

/// What site 1 says that is dialled by site 0.
fn said_by_listener(rt: &impl Abort, alloc: Global, own: u8, other: u8) -> Vec<u8> {
    let (dialler, listener) = (greeting(rt, 0, own), greeting(rt, 1, other));
    let mut sink = Sink::of(alloc);
    // It has said all before it reads the other's proof, which doesn't come.
    let mut hello = Sink::of(alloc);
    let mut nothing = Source::of(&[], usize::MAX);
    let cut = prove_dialling(&mut nothing, &mut hello, &secret(), dialler);
    assert!(rt; cut.is_err());
    let mut source = Source::of(hello.bytes.as_slice(), usize::MAX);
    let cut = prove_listening(&mut source, &mut sink, &secret(), listener);
    assert!(rt; cut.is_err());
    let Sink {
        bytes,
        most: _,
        fails_at: _,
    } = sink;
    bytes
}

#[test]
fn a_proof_of_another_link_proves_nothing(rt: HostRuntime) {
    let alloc = rt.alloc();
    let said = said_by_dialler(&rt, alloc, 10, 20);
    assert_eq!(rt; said.len(), 69);
    for (challenge, fault) in [(20, None), (21, Some(SealFault::WrongProof))] {
        let mut sink = Sink::of(alloc);
        let mut source = Source::of(said.as_slice(), usize::MAX);
        let own = greeting(&rt, 1, challenge);
        let both = prove_listening(&mut source, &mut sink, &secret(), own);
        assert_eq!(rt; both.err(), fault);
    }
    let said = said_by_listener(&rt, alloc, 10, 20);
    assert_eq!(rt; said.len(), 69);
    for (challenge, fault) in [(10, None), (11, Some(SealFault::WrongProof))] {
        let mut sink = Sink::of(alloc);
        let mut source = Source::of(said.as_slice(), usize::MAX);
        let own = greeting(&rt, 0, challenge);
        let both = prove_dialling(&mut source, &mut sink, &secret(), own);
        assert_eq!(rt; both.err(), fault);
        // No proof goes to who has none.
        assert_eq!(rt; sink.bytes.len(), if fault.is_none() { 69 } else { 37 });
    }
}

/// What both ends said, by challenges that begin with these bytes.
fn greetings(rt: &impl Abort, own: u8, other: u8) -> Greetings {
    Greetings {
        dialler: greeting(rt, 0, own),
        listener: greeting(rt, 1, other),
    }
}

#[test]
fn a_record_of_another_link_is_not_read(rt: HostRuntime) {
    let alloc = rt.alloc();
    let key = greetings(&rt, 10, 20).key(&secret());
    let sink = Sink::of(alloc);
    let mut writer = SealedWriter::start(alloc, sink, Course::start(key, Side::Dialler));
    assert!(rt; writer.write_all(LETTER).is_ok());
    for (own, other, fault) in [
        (10, 20, None),
        (11, 20, Some(SealFault::WrongCode)),
        (10, 21, Some(SealFault::WrongCode)),
    ] {
        let key = greetings(&rt, own, other).key(&secret());
        let source = Source::of(writer.inner().bytes.as_slice(), usize::MAX);
        let mut reader = SealedReader::start(alloc, source, Course::start(key, Side::Dialler));
        let mut room = [0u8; 100];
        let read = reader.read(&mut room).unwrap_or(0);
        assert_eq!(rt; read, if fault.is_none() { LETTER.len() } else { 0 });
        assert_eq!(rt; reader.fault(), fault);
    }
}

/// The fault of a letter of site 1 on a link that the proof of this site opened.
fn fault_beside(alloc: Global, proved: Option<u8>, size: usize) -> Option<HeadFault> {
    let expected = Expected {
        edition: 7,
        number: 0,
    };
    let mut sieve = Sieve::beside(alloc, expected, proved);
    let mut came = Sieved::nothing(alloc);
    for piece in LETTER.chunks(size.max(1)) {
        if let Err(fault) = sieve.take(piece, &mut came) {
            return Some(fault);
        }
    }
    None
}

#[test]
fn a_letter_is_of_the_site_whose_proof_opened_the_link(rt: HostRuntime) {
    let alloc = rt.alloc();
    for size in 1..=LETTER.len() {
        assert_eq!(rt; fault_beside(alloc, None, size), None);
        assert_eq!(rt; fault_beside(alloc, Some(1), size), None);
        for site in 2..16 {
            let fault = fault_beside(alloc, Some(site), size);
            assert_eq!(rt; fault, Some(HeadFault::Unproved));
        }
    }
    let both = greetings(&rt, 10, 20);
    assert_eq!(rt; both.site_beside(Side::Dialler), 1);
    assert_eq!(rt; both.site_beside(Side::Listener), 0);
}
