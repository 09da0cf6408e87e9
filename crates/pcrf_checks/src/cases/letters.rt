//! Lines of letters as bytes, of which no world is asked. `cut HEX` says of a letter that it is read, and written as the same bytes, or in the
//! last version, or the fault; and it cuts the letter at each of its places, with its length as it was and lowered, and feeds it byte
//! by byte. `random SEED N` judges N random frames, and `changes SEED N HEX` N frames that are this one with a byte changed.
//! `oracle/letters.py` makes the lines, and what is said of each.
use crate::fault::Fault;
use crate::makers::EDITION;
use pcrf_world::words::{Further, bytes, number, one, three, two};
use peer_exchange::{Letter, LetterAssembler, LetterFault, read_letter, write_letter};
use std::alloc::{AllocError, Global};
use std::fmt::Write as _;

/// Where the version stands, behind the length.
const VERSION: usize = 4;

/// What is said of a frame.
#[derive(Clone, Copy, PartialEq, Eq)]
enum Verdict {
    /// It is read, and written as the same bytes.
    Read,
    /// It is read, and written as the same bytes but for the version: it is of one before the last.
    Older,
    /// It is read, and written otherwise.
    Otherwise,
    /// It is not read.
    Refused(LetterFault),
}

impl Verdict {
    /// Adds the verdict.
    fn put(self, out: &mut String) -> Result<(), AllocError> {
        match self {
            Verdict::Read => out.push_str("read"),
            Verdict::Older => out.push_str("read, and written in version 3"),
            Verdict::Otherwise => out.push_str("written otherwise"),
            Verdict::Refused(fault) => write!(out, "{fault}"),
        }
    }
}

/// What is said of a letter that was read of a frame, by the bytes as which it is written.
fn compared(written: &[u8], frame: &[u8]) -> Verdict {
    if written == frame {
        return Verdict::Read;
    }
    let is_behind_same = written.get(VERSION + 1..) == frame.get(VERSION + 1..);
    if is_behind_same && written.get(..VERSION) == frame.get(..VERSION) {
        return Verdict::Older;
    }
    Verdict::Otherwise
}

/// What is said of a letter that was read of a frame.
fn written(alloc: Global, letter: &Letter, frame: &[u8]) -> Verdict {
    match write_letter(alloc, letter) {
        Ok(written) => compared(written.as_slice(), frame),
        Err(_) => Verdict::Otherwise,
    }
}

/// What is said of a frame.
fn judged(alloc: Global, frame: &[u8]) -> Verdict {
    match read_letter(alloc, frame, EDITION) {
        Ok(letter) => written(alloc, &letter, frame),
        Err(fault) => Verdict::Refused(fault),
    }
}

/// Numbers of 31 bits: the upper half of a linear congruential generator of 64 bits.
#[derive(Drop)]
struct Draws {
    state: u64,
}

impl Draws {
    /// A number below the bound, which is not 0.
    fn below(&mut self, bound: u64) -> u64 {
        self.state = self
            .state
            .wrapping_mul(6364136223846793005)
            .wrapping_add(1442695040888963407);
        (self.state >> 33).checked_rem(bound).unwrap_or(0)
    }

    /// Adds so many bytes below the bound.
    fn put_bytes(&mut self, count: u64, bound: u64, out: &mut Vec<u8>) -> Result<(), AllocError> {
        for _ in 0..count {
            out.push(self.below(bound).to_le_bytes()[0])?;
        }
        Ok(())
    }

    /// Any bytes, bytes behind a good length, version and edition, or small ones behind these.
    fn frame(&mut self, alloc: Global) -> Result<Vec<u8>, AllocError> {
        let kind = self.below(3);
        let size = self.below(48);
        let mut frame = Vec::new(alloc);
        if kind == 0 {
            self.put_bytes(size, 256, &mut frame)?;
        } else {
            let length = size.to_be_bytes()[7].wrapping_add(5);
            frame.extend_from_slice(&[0, 0, 0, length, 3, 0, 0, 0, 7])?;
            self.put_bytes(size, if kind == 1 { 256 } else { 4 }, &mut frame)?;
        }
        Ok(frame)
    }

    /// The frame with one byte changed.
    fn changed(&mut self, alloc: Global, frame: &[u8]) -> Result<Vec<u8>, AllocError> {
        let mut other = Vec::from_slice(alloc, frame)?;
        let at = self.below(frame.len() as u64);
        let byte = self.below(256).to_le_bytes()[0];
        if let Some(place) = other.get_mut(at as usize) {
            *place = byte;
        }
        Ok(other)
    }
}

/// The verdict by its number.
fn number_of(verdict: Verdict) -> u32 {
    match verdict {
        Verdict::Read => 0,
        Verdict::Refused(LetterFault::BadVersion) => 1,
        Verdict::Refused(LetterFault::BadEdition) => 2,
        Verdict::Refused(LetterFault::BadShape) => 3,
        Verdict::Older => 4,
        _ => 5,
    }
}

/// Adds how many of so many frames are read, and all verdicts in their order, mixed into one number: of random frames, or of those that
/// are this one with a byte changed.
fn put_drawn(
    alloc: Global,
    seed: u64,
    count: u32,
    frame: Option<&[u8]>,
    out: &mut String,
) -> Result<(), AllocError> {
    let mut draws = Draws { state: seed };
    let (mut read, mut mixed) = (0u32, 0u32);
    for _ in 0..count {
        let drawn = match frame {
            Some(frame) => draws.changed(alloc, frame)?,
            None => draws.frame(alloc)?,
        };
        let number = number_of(judged(alloc, drawn.as_slice()));
        read = read.wrapping_add(u32::from(number == 0 || number == 4));
        mixed = mixed.wrapping_mul(31).wrapping_add(number);
    }
    write!(out, "{read} read, verdicts {mixed}")
}

/// What is said of a letter that is cut off.
const CUT: Verdict = Verdict::Refused(LetterFault::BadShape);

/// Whether the first so many bytes are refused, with their length lowered to what follows it.
fn is_refused_lowered(alloc: Global, front: &[u8]) -> Result<bool, AllocError> {
    let Some((_, content)) = front.split_first_chunk::<4>() else {
        return Ok(true);
    };
    let length = u32::try_from(content.len()).unwrap_or(u32::MAX);
    let mut lowered = Vec::from_slice(alloc, &length.to_be_bytes())?;
    lowered.extend_from_slice(content)?;
    Ok(judged(alloc, lowered.as_slice()) == CUT)
}

/// Whether the frame is refused wherever it is cut.
fn is_refused_cut(alloc: Global, frame: &[u8]) -> Result<bool, AllocError> {
    let mut all = true;
    for at in 0..frame.len() {
        let front = &frame[..at];
        all = all && judged(alloc, front) == CUT && is_refused_lowered(alloc, front)?;
    }
    Ok(all)
}

/// Whether the next frame is that, or none.
fn gives(assembler: &mut LetterAssembler, wanted: Option<&[u8]>) -> bool {
    match (assembler.next(), wanted) {
        (Ok(Some(frame)), Some(wanted)) => frame.as_slice() == wanted,
        (Ok(None), None) => true,
        _ => false,
    }
}

/// Whether the frame comes of its single bytes, with the last.
fn comes_of_bytes(alloc: Global, frame: &[u8]) -> bool {
    let mut assembler = LetterAssembler::start(alloc);
    let mut same = true;
    for at in 0..frame.len() {
        let wanted = if frame.len() - at == 1 {
            Some(frame)
        } else {
            None
        };
        same = same && assembler.feed(&[frame[at]]).is_ok() && gives(&mut assembler, wanted);
    }
    drop(assembler);
    same
}

/// Puts what is said of a frame, and of its cuts.
fn put_cuts(alloc: Global, frame: &[u8], out: &mut String) -> Result<(), AllocError> {
    judged(alloc, frame).put(out)?;
    if !comes_of_bytes(alloc, frame) {
        out.push_str(", but not of its bytes")?;
    }
    if is_refused_cut(alloc, frame)? {
        write!(out, ", and cut at {} places", frame.len())?;
    }
    Ok(())
}

/// How many frames a word says are drawn.
fn count(word: &str) -> Result<u32, Fault> {
    match u32::try_from(number(word)?) {
        Ok(count) => Ok(count),
        Err(_) => Err(Fault::NoValue),
    }
}

/// The number from which draws begin.
fn seed(word: &str) -> Result<u64, Fault> {
    Ok(u64::from(count(word)?))
}

/// Adds what is said of the frames of a line.
pub fn put_said(
    alloc: Global,
    first: &str,
    further: Further<'_>,
    out: &mut String,
) -> Result<(), Fault> {
    match first {
        "cut" => put_cuts(alloc, bytes(alloc, one(further)?)?.as_slice(), out)?,
        "random" => {
            let (from, drawn) = two(further)?;
            put_drawn(alloc, seed(from)?, count(drawn)?, None, out)?;
        }
        _ => {
            let (from, drawn, digits) = three(further)?;
            let frame = bytes(alloc, digits)?;
            let frame = Some(frame.as_slice());
            put_drawn(alloc, seed(from)?, count(drawn)?, frame, out)?;
        }
    }
    Ok(())
}
