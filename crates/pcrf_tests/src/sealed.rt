//! Vectors of RFC 4231, the worked example of docs/LETTERS.md as `oracle/sealed_links.py` writes it, and links on which a record is
//! dropped, repeated or moved, or a call fails. That a byte is changed, and where a stream may end, is proved.
mod rows;

use crate::devices::{Sink, Source};
use crate::sealed::rows::{
    ACKNOWLEDGEMENT, CODES, DIALLER_GREETING, DIALLER_PROOF, DIALLER_RECORD, END_OF_SESSION,
    LISTENER_GREETING, LISTENER_PROOF, LISTENER_RECORD, SECRET,
};
use hex::decode;
use peer_lines::sealed::{
    Course, Greeting, Greetings, Key, SealFault, SealedReader, SealedWriter, SecretFault, Side,
    hmac_sha256, prove_dialling, prove_listening, secret_of,
};
use std::alloc::{AllocError, Global};
use std::io::{self, Read, Write};
use std::test::Fail;

/// The bytes of digits.
fn bytes_of(alloc: Global, digits: &str) -> Result<Vec<u8>, Fail> {
    Ok(decode(alloc, digits)?)
}

/// Bytes one behind the other.
fn joined(alloc: Global, parts: &[&[u8]]) -> Result<Vec<u8>, AllocError> {
    let mut all = Vec::new(alloc);
    for part in parts {
        all.extend_from_slice(part)?;
    }
    Ok(all)
}

/// A challenge of bytes that ascend from one on.
fn challenge(first: u8) -> [u8; 32] {
    let mut bytes = [first; 32];
    for (count, byte) in bytes.iter_mut().enumerate() {
        *byte = byte.wrapping_add((count % 256) as u8);
    }
    bytes
}

/// The greetings of the example: site 0 dials site 1.
fn greetings() -> Greetings {
    Greetings {
        dialler: Greeting {
            site: 0,
            challenge: challenge(0x40),
        },
        listener: Greeting {
            site: 1,
            challenge: challenge(0x80),
        },
    }
}

/// What a side of the example's link writes.
fn course(alloc: Global, from: Side) -> Result<Course, Fail> {
    let secret = Key::of(bytes_of(alloc, SECRET)?.as_slice());
    Ok(Course::start(greetings().key(&secret), from))
}

/// What is written of some texts, each as one record, by the dialler.
fn written(alloc: Global, texts: &[&[u8]]) -> Result<Vec<u8>, Fail> {
    let mut writer = SealedWriter::start(alloc, Sink::of(alloc), course(alloc, Side::Dialler)?);
    for text in texts {
        writer.write_all(text)?;
    }
    let all = writer.inner().bytes.as_slice();
    Ok(Vec::from_slice(alloc, all)?)
}

/// What is read of a stream of the dialler's until it ends, in such pieces, and why it ends where a fault is why.
fn read_all(
    alloc: Global,
    stream: &[u8],
    most: usize,
    room: usize,
) -> Result<(Vec<u8>, Option<SealFault>), Fail> {
    let source = Source::of(stream, most);
    let mut reader = SealedReader::start(alloc, source, course(alloc, Side::Dialler)?);
    let mut all = Vec::new(alloc);
    let mut piece = [0u8; 5000];
    for _turn in 0..=stream.len() {
        match reader.read(&mut piece[..room.min(5000)]) {
            Ok(0) => break,
            Ok(count) => all.extend_from_slice(&piece[..count])?,
            Err(_fault) => break,
        }
    }
    let fault = reader.fault();
    // It is answered for good.
    if fault.is_some() && reader.read(&mut piece).is_ok() {
        return Err(Fail::from("a fault was forgotten"));
    }
    Ok((all, fault))
}

/// A text of two whole pieces and a part of a third.
fn long_text(alloc: Global) -> Result<Vec<u8>, AllocError> {
    let mut text = Vec::new(alloc);
    for count in 0..40_000u32 {
        text.push((count % 251) as u8)?;
    }
    Ok(text)
}

/// The three records of a stream, the first two of which have 39 bytes each.
fn three(stream: &[u8]) -> Option<(&[u8], &[u8], &[u8])> {
    if stream.len() < 78 {
        return None;
    }
    let (first, rest) = stream.split_at(39);
    let (second, third) = rest.split_at(39);
    Some((first, second, third))
}

#[test]
fn codes_of_rfc_4231(rt: HostRuntime) -> Result<(), Fail> {
    for (key, message, code) in CODES {
        let key = bytes_of(rt.alloc(), key)?;
        let message = bytes_of(rt.alloc(), message)?;
        let wanted = bytes_of(rt.alloc(), code)?;
        let code = hmac_sha256(key.as_slice(), message.as_slice());
        assert_eq!(rt; code.as_slice(), wanted.as_slice());
    }
    Ok(())
}

#[test]
fn the_example_of_the_page(rt: HostRuntime) -> Result<(), Fail> {
    let alloc = rt.alloc();
    let secret = Key::of(bytes_of(alloc, SECRET)?.as_slice());
    let Greetings { dialler, listener } = greetings();
    let from_dialler = bytes_of(alloc, DIALLER_GREETING)?;
    let dialler_proof = bytes_of(alloc, DIALLER_PROOF)?;
    let from_listener = bytes_of(alloc, LISTENER_GREETING)?;
    let listener_proof = bytes_of(alloc, LISTENER_PROOF)?;
    let dialler_said = joined(alloc, &[from_dialler.as_slice(), dialler_proof.as_slice()])?;
    let listener_said = joined(
        alloc,
        &[from_listener.as_slice(), listener_proof.as_slice()],
    )?;

    let mut sink = Sink::of(alloc);
    let mut source = Source::of(listener_said.as_slice(), 7);
    let both = prove_dialling(&mut source, &mut sink, &secret, dialler);
    assert!(rt; both.is_ok());
    assert_eq!(rt; sink.bytes.as_slice(), dialler_said.as_slice());

    let mut sink = Sink::of(alloc);
    let mut source = Source::of(dialler_said.as_slice(), 7);
    let both = prove_listening(&mut source, &mut sink, &secret, listener);
    assert!(rt; both.is_ok());
    assert_eq!(rt; sink.bytes.as_slice(), listener_said.as_slice());
    Ok(())
}

#[test]
fn the_records_of_the_page(rt: HostRuntime) -> Result<(), Fail> {
    let alloc = rt.alloc();
    for (from, letter, record) in [
        (Side::Dialler, END_OF_SESSION, DIALLER_RECORD),
        (Side::Listener, ACKNOWLEDGEMENT, LISTENER_RECORD),
    ] {
        let letter = bytes_of(alloc, letter)?;
        let wanted = bytes_of(alloc, record)?;
        let mut writer = SealedWriter::start(alloc, Sink::of(alloc), course(alloc, from)?);
        writer.write_all(letter.as_slice())?;
        assert_eq!(rt; writer.inner().bytes.as_slice(), wanted.as_slice());
    }
    Ok(())
}

#[test]
fn long_texts_come_back(rt: HostRuntime) -> Result<(), Fail> {
    let alloc = rt.alloc();
    let text = long_text(alloc)?;
    let whole = joined(alloc, &[text.as_slice(), &[1, 2, 3]])?;
    let stream = written(alloc, &[text.as_slice(), &[1, 2, 3]])?;
    assert_eq!(rt; stream.len(), 40_139);
    for (most, room) in [(50_000, 5000), (4096, 4096), (1000, 7), (1, 5000)] {
        let (read, fault) = read_all(alloc, stream.as_slice(), most, room)?;
        assert_eq!(rt; fault, None);
        assert_eq!(rt; read.as_slice(), whole.as_slice());
    }
    Ok(())
}

#[test]
fn records_are_moved(rt: HostRuntime) -> Result<(), Fail> {
    let alloc = rt.alloc();
    let stream = written(alloc, &[b"first", b"other", b"third"])?;
    let (first, second, third) = three(stream.as_slice()).ok_or("three records")?;
    let cases: [(&[&[u8]], &[u8]); 5] = [
        (&[second, third], b""),
        (&[first, third], b"first"),
        (&[first, first, second], b"first"),
        (&[second, first, third], b""),
        (&[first, second, second], b"firstother"),
    ];
    for (parts, wanted) in cases {
        let moved = joined(alloc, parts)?;
        let (read, fault) = read_all(alloc, moved.as_slice(), 100, 100)?;
        assert_eq!(rt; read.as_slice(), wanted);
        assert_eq!(rt; fault, Some(SealFault::WrongCode));
    }
    // What the other side wrote is none of this one's.
    let mut writer = SealedWriter::start(alloc, Sink::of(alloc), course(alloc, Side::Listener)?);
    writer.write_all(b"first")?;
    let (read, fault) = read_all(alloc, writer.inner().bytes.as_slice(), 100, 100)?;
    assert!(rt; read.is_empty());
    assert_eq!(rt; fault, Some(SealFault::WrongCode));
    Ok(())
}

#[test]
fn calls_fail(rt: HostRuntime) -> Result<(), Fail> {
    let alloc = rt.alloc();
    let stream = written(alloc, &[b"first", b"second"])?;
    for fails_at in 0..4 {
        let mut source = Source::of(stream.as_slice(), 100);
        source.fails_at = fails_at;
        let mut reader = SealedReader::start(alloc, source, course(alloc, Side::Dialler)?);
        let mut piece = [0u8; 100];
        let mut count = 0usize;
        for _turn in 0..2 {
            if let Ok(read) = reader.read(&mut piece) {
                count = count.saturating_add(read);
            }
        }
        assert_eq!(rt; count, if fails_at < 2 { 0 } else { 5 });
        assert_eq!(rt; reader.fault(), Some(SealFault::ReadFailed));
        assert!(rt; reader.read(&mut piece).is_err());
    }
    let mut sink = Sink::of(alloc);
    sink.fails_at = 1;
    let mut writer = SealedWriter::start(alloc, sink, course(alloc, Side::Dialler)?);
    writer.write_all(b"first")?;
    assert!(rt; writer.write_all(b"second").is_err());
    assert_eq!(rt; writer.fault(), Some(SealFault::WriteFailed));
    assert!(rt; writer.write_all(b"third").is_err());
    assert!(rt; writer.flush().is_err());
    assert_eq!(rt; writer.inner().bytes.len(), 39);
    Ok(())
}

#[test]
fn texts_that_are_secrets(rt: HostRuntime) -> Result<(), Fail> {
    let alloc = rt.alloc();
    assert!(rt; secret_of(alloc, SECRET.as_bytes()).is_ok());
    let short = &SECRET.as_bytes()[2..];
    assert_eq!(rt; secret_of(alloc, short).err(), Some(SecretFault::TooShort));
    let odd = &SECRET.as_bytes()[1..];
    assert_eq!(rt;
        secret_of(alloc, odd).err(),
        Some(SecretFault::NotHexadecimal)
    );
    assert_eq!(rt; secret_of(alloc, b"").err(), Some(SecretFault::TooShort));
    Ok(())
}
