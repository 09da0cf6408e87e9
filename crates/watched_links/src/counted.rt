//! Messages are counted by their kinds, and answers by the codes that they tell. A message that comes or goes takes no memory for that, and
//! waits for nobody.
use crate::avps::first_avp;
use crate::kinds::{KIND_COUNT, MessageKind};
use dia_base::codes::avps::{EXPERIMENTAL_RESULT, EXPERIMENTAL_RESULT_CODE, RESULT_CODE};
use dia_codec::{HEADER_BYTES, Header, read_header};
use site_status::{CodeCounts, Counter};
use std::alloc::{AllocError, Global};

/// What is counted of the messages of one kind.
#[derive(Drop)]
pub struct KindCounts {
    /// Requests that came.
    pub requests_taken: Counter,
    /// Requests that went out.
    pub requests_sent: Counter,
    /// Answers that came.
    pub answers_taken: Counter,
    /// Answers that went out, by their codes, 0 where one has none.
    pub answers_sent: CodeCounts,
}

/// What is counted of all messages.
#[derive(Drop)]
pub struct MessageCounts {
    kinds: Vec<KindCounts>,
}

/// The number that the value of an AVP is.
fn number_in(value: &[u8]) -> Option<u32> {
    let four = value.first_chunk::<4>()?;
    Some(u32::from_be_bytes(*four))
}

/// The code in the value of an Experimental-Result.
fn experimental_in(value: &[u8]) -> Option<u32> {
    let mut rest = value;
    for _ in 0..value.len() {
        let avp = first_avp(rest)?;
        if !avp.has_vendor && avp.code == EXPERIMENTAL_RESULT_CODE {
            return number_in(avp.value);
        }
        rest = avp.rest;
    }
    None
}

/// The code that the AVPs of an answer tell.
fn code_among(avps: &[u8]) -> Option<u32> {
    let mut rest = avps;
    for _ in 0..avps.len() {
        let avp = first_avp(rest)?;
        match avp.code {
            RESULT_CODE if !avp.has_vendor => return number_in(avp.value),
            EXPERIMENTAL_RESULT if !avp.has_vendor => return experimental_in(avp.value),
            _ => {}
        }
        rest = avp.rest;
    }
    None
}

/// The length that a header says (RFC 6733, 3).
fn length_of(head: &[u8; HEADER_BYTES]) -> usize {
    u32::from_be_bytes([0, head[1], head[2], head[3]]) as usize
}

/// Those of no message.
fn no_counts(alloc: Global) -> Result<KindCounts, AllocError> {
    let answers_sent = CodeCounts::start(alloc)?;
    Ok(KindCounts {
        requests_taken: Counter::start(),
        requests_sent: Counter::start(),
        answers_taken: Counter::start(),
        answers_sent,
    })
}

impl MessageCounts {
    /// No message came or went.
    pub fn start(alloc: Global) -> Result<MessageCounts, AllocError> {
        let mut kinds = Vec::with_capacity(alloc, KIND_COUNT)?;
        for _ in 0..KIND_COUNT {
            kinds.push(no_counts(alloc)?)?;
        }
        Ok(MessageCounts { kinds })
    }

    /// Those of a kind.
    pub fn of(&self, kind: MessageKind) -> Option<&KindCounts> {
        self.kinds.get(kind.place())
    }

    /// A message comes that begins so.
    pub fn count_taken(&self, header: &Header) {
        let kind = MessageKind::of(header.application, header.command);
        if let Some(counts) = self.of(kind) {
            if header.flags.request {
                counts.requests_taken.add();
            } else {
                counts.answers_taken.add();
            }
        }
    }

    /// A message goes out.
    fn count_one_sent(&self, header: &Header, avps: &[u8]) {
        let kind = MessageKind::of(header.application, header.command);
        if let Some(counts) = self.of(kind) {
            if header.flags.request {
                counts.requests_sent.add();
            } else {
                counts.answers_sent.add(code_among(avps).unwrap_or(0));
            }
        }
    }

    /// Whole messages go out, one behind the other.
    pub fn count_sent(&self, bytes: &[u8]) {
        let mut rest = bytes;
        for _ in 0..bytes.len() {
            let Some(head) = rest.first_chunk::<HEADER_BYTES>() else {
                return;
            };
            let length = length_of(head).max(HEADER_BYTES);
            let avps = rest.get(HEADER_BYTES..length).unwrap_or(&[]);
            self.count_one_sent(&read_header(head), avps);
            rest = rest.get(length..).unwrap_or(&[]);
        }
    }
}
