//! The capabilities exchanges in a stream of messages, found as its bytes come. Of other messages nothing is kept.
use dia_codec::{HEADER_BYTES, Header, read_header};
use std::alloc::{AllocError, Global};
use std::mem::replace;

/// The command Capabilities-Exchange (RFC 6733, 5.3).
const CAPABILITIES_EXCHANGE: u32 = 257;

/// Whether a header is one of a capabilities exchange's request.
pub fn is_exchange(header: &Header) -> bool {
    header.flags.request && header.command == CAPABILITIES_EXCHANGE
}

/// What bytes of a stream brought.
#[derive(Clone, Copy)]
pub enum Found {
    /// Nothing that matters.
    Nothing,
    /// The header of a message.
    Head(Header),
    /// The end of a capabilities exchange, which can be taken whole.
    Exchange,
}

/// What comes next in a stream.
#[derive(Clone, Copy)]
enum Part {
    /// What lacks of a header.
    Head,
    /// So many bytes of a capabilities exchange.
    Kept(usize),
    /// So many bytes of another message.
    Passed(usize),
    /// Nothing that can be told, behind a length that no message has.
    Lost,
}

/// Where a stream of messages stands.
#[derive(Drop)]
pub struct Frames {
    alloc: Global,
    /// A header that isn't whole yet, or a capabilities exchange.
    begun: Vec<u8>,
    part: Part,
}

/// So many bytes at most.
fn up_to(bytes: &[u8], most: usize) -> &[u8] {
    bytes.get(..most).unwrap_or(bytes)
}

/// The length that a header says (RFC 6733, 3).
fn length_of(head: &[u8; HEADER_BYTES]) -> usize {
    u32::from_be_bytes([0, head[1], head[2], head[3]]) as usize
}

/// What comes behind a header.
fn behind(header: &Header, length: usize) -> Part {
    if length < HEADER_BYTES {
        return Part::Lost;
    }
    let left = length - HEADER_BYTES;
    if is_exchange(header) {
        Part::Kept(left)
    } else if left == 0 {
        Part::Head
    } else {
        Part::Passed(left)
    }
}

impl Frames {
    /// Before the first message.
    pub fn start(alloc: Global) -> Frames {
        Frames {
            alloc,
            begun: Vec::new(alloc),
            part: Part::Head,
        }
    }

    /// Takes some of the next bytes, and tells how many and what they brought.
    pub fn take(&mut self, bytes: &[u8]) -> Result<(usize, Found), AllocError> {
        match self.part {
            Part::Head => self.take_head(bytes),
            Part::Kept(left) => self.take_kept(bytes, left),
            Part::Passed(left) => Ok((self.take_passed(bytes, left), Found::Nothing)),
            Part::Lost => Ok((bytes.len(), Found::Nothing)),
        }
    }

    /// The capabilities exchange that was found.
    pub fn take_exchange(&mut self) -> Vec<u8> {
        replace(&mut self.begun, Vec::new(self.alloc))
    }

    /// Takes what lacks of a header.
    fn take_head(&mut self, bytes: &[u8]) -> Result<(usize, Found), AllocError> {
        let piece = up_to(bytes, HEADER_BYTES.saturating_sub(self.begun.len()));
        self.begun.extend_from_slice(piece)?;
        let Some(head) = self.begun.as_slice().first_chunk::<HEADER_BYTES>() else {
            return Ok((piece.len(), Found::Nothing));
        };
        let header = read_header(head);
        self.part = behind(&header, length_of(head));
        if !is_exchange(&header) {
            self.begun.clear();
        }
        Ok((piece.len(), Found::Head(header)))
    }

    /// Takes bytes of a capabilities exchange.
    fn take_kept(&mut self, bytes: &[u8], left: usize) -> Result<(usize, Found), AllocError> {
        let piece = up_to(bytes, left);
        self.begun.extend_from_slice(piece)?;
        let left = left.saturating_sub(piece.len());
        if left == 0 {
            self.part = Part::Head;
            return Ok((piece.len(), Found::Exchange));
        }
        self.part = Part::Kept(left);
        Ok((piece.len(), Found::Nothing))
    }

    /// Takes bytes of another message.
    fn take_passed(&mut self, bytes: &[u8], left: usize) -> usize {
        let piece = up_to(bytes, left);
        let left = left.saturating_sub(piece.len());
        self.part = if left == 0 {
            Part::Head
        } else {
            Part::Passed(left)
        };
        piece.len()
    }
}
