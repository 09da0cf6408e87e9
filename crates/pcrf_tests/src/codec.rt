//! Tests of `dia_codec`, of what no clause says: that the calls which allocate succeed, with messages as a gateway sends them; limits;
//! and that a flush reaches the writer below. Which bytes are read and written, and by which fault they aren't, is proved, and seen of
//! the messages and streams of `cases`.
use crate::checks::{check, check_same};
use crate::devices::Sink;
use crate::messages::{INITIAL, WATCHDOG};
use dia_codec::{
    Avp, AvpKey, Counted, Flags, Header, MessageWriter, WriteFault, read_group, read_message,
    write_group, write_message,
};
use std::alloc::{AllocError, AllocGlobal, Global};
use std::io::Write;
use std::process::Abort;

/// The watchdog request with reserved bits and padding bytes set.
const FREELY_SPELLED: &[u8] =
    b"\x01\x00\x00\x2c\x8f\x00\x01\x18\x00\x00\x00\x00\x00\x00\x00\x03\x00\x00\x00\x04\
    \x00\x00\x01\x08\x5f\x00\x00\x0a\x67\x77\xff\x00\x00\x00\x01\x28\x40\x00\x00\x09\x72\x00\x00\xff";

/// The value of a Subscription-Id (RFC 8506, section 8.46), whose last AVP has 9 bytes and 3 of padding.
const SUBSCRIPTION: &[u8] = b"\x00\x00\x01\xc2\x40\x00\x00\x0c\x00\x00\x00\x01\
    \x00\x00\x01\xbc\x40\x00\x00\x09\x37\x00\x00\x00";

/// A message is read, and written as these bytes.
fn is_written_again(rt: &(impl AllocGlobal + Abort), bytes: &[u8], written: &[u8]) {
    let message = read_message(rt.alloc(), bytes).expect(rt, "a message");
    let again = write_message(rt.alloc(), &message).expect(rt, "memory");
    drop(message);
    check_same(rt, again.as_slice(), written);
}

/// Reserved bits and padding are written as zero.
#[test]
fn messages_are_read_and_written_again(rt: HostRuntime) {
    is_written_again(&rt, INITIAL, INITIAL);
    is_written_again(&rt, WATCHDOG, WATCHDOG);
    is_written_again(&rt, FREELY_SPELLED, WATCHDOG);
}

/// The last padding of a group may be missing.
#[test]
fn a_group_is_read_and_written_again(rt: HostRuntime) {
    for length in [21, 24] {
        let avps = read_group(rt.alloc(), &SUBSCRIPTION[..length]).expect(&rt, "a group");
        let again = write_group(rt.alloc(), avps.as_slice()).expect(&rt, "memory");
        drop(avps);
        check_same(&rt, again.as_slice(), SUBSCRIPTION);
    }
}

/// A Session-Id.
const SESSION: AvpKey = AvpKey {
    code: 263,
    vendor: None,
};

/// An AVP with this value.
fn session_avp(value: &[u8]) -> Avp<'_> {
    Avp {
        code: SESSION.code,
        vendor: None,
        mandatory: true,
        protected: false,
        value,
    }
}

/// How many bytes a message is written as that has a Session-Id of so many bytes alone, or why it isn't written.
fn written_bytes(rt: &(impl AllocGlobal + Abort), bytes: usize) -> Result<usize, WriteFault> {
    let value = vec![in rt.alloc(); 0; bytes].expect(rt, "memory");
    let read = read_message(rt.alloc(), WATCHDOG);
    let mut message = read.expect(rt, "a message");
    message.avps.clear();
    message.avps.push(session_avp(&value)).expect(rt, "memory");
    let written = write_message(rt.alloc(), &message).map(|written| written.len());
    drop(message);
    written
}

/// The header of an answer of Rx.
const ANSWER: Header = Header {
    flags: Flags {
        request: false,
        proxiable: true,
        error: false,
        retransmitted: false,
    },
    command: 265,
    application: 16_777_236,
    hop_id: 5,
    end_id: 6,
};

/// The same of a message that is written from front to back; none where that is too long.
fn length_with(alloc: Global, bytes: usize) -> Result<Option<usize>, AllocError> {
    let value = vec![in alloc; 0; bytes]?;
    let mut out = MessageWriter::start(alloc)?;
    out.value(SESSION, true, &value)?;
    Ok(out.into_bytes(&ANSWER).map(|written| written.len()))
}

#[test]
fn a_message_has_at_most_65532_bytes(rt: HostRuntime) {
    check(&rt, written_bytes(&rt, 65_504) == Ok(65_532));
    check(&rt, written_bytes(&rt, 65_505) == Err(WriteFault::TooLong));
    check(&rt, length_with(rt.alloc(), 65_504) == Ok(Some(65_532)));
    check(&rt, length_with(rt.alloc(), 65_505) == Ok(None));
}

/// A flush reaches the writer below, and a failure of either is remembered.
#[test]
fn a_writer_that_fails_is_remembered(rt: HostRuntime) {
    let mut sink = Sink::of(rt.alloc());
    sink.most = 1;
    sink.fails_at = 4;
    let mut writer = Counted::start(sink);
    check(&rt, writer.put(b"abc").is_ok() && writer.flush().is_ok());
    check(&rt, !writer.failed());
    check(&rt, writer.put(b"de").is_err() && writer.failed());
    let mut sink = Sink::of(rt.alloc());
    sink.fails_at = 0;
    let mut flushed = Counted::start(sink);
    check(&rt, flushed.flush().is_err() && flushed.failed());
}
