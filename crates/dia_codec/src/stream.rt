//! Frames from a stream in pieces, and whole streams cut into frames. A frame is the bytes of one message, cut by its length field
//! alone.
ghost use Rattle.std.specs.Prelude.{◌≡◌, ◌==◌, ◌++◌, [], IfOk, OnOk, IfErr, OnErr, IfSome, IfNone, ◌≤◌, length, take, drop, Some, None, Ok, Err, unwrap_or, ℕ, List};
ghost use Rattle.dia_codec.specs.Stream.{front_of, Splits, CutsInto, end_of, fault_of, frame_bytes, bytes_of_pieces, stream_of};
ghost use Rattle.dia_codec.specs.Spelling.{IsFrame};
ghost use Rattle.dia_codec.specs.declared.fault.FrameFault.TheVariants as faults;
ghost use Rattle.std.specs.List.{AllByRecursion};

use crate::fault::FrameFault;
use crate::reading::{HEADER_BYTES, MOST_BYTES, three_at};
use bytes::{Buf, BytesMut};
use std::alloc::{AllocError, Global};
use std::marker::Model;

/// How many bytes the frame at the front has, None where it is not whole. Its length is judged once its first four
/// bytes are there.
#[tactic(auto, unfolding(crate::specs::Stream::front_of))]
fn whole_len(bytes: &[u8]) -> Result<Option<usize>, FrameFault>
    ensures within { IfOk result (λ found. IfSome found (λ n. n ≤ length bytes.now)) }
    ensures whole { IfOk result (λ found. IfSome found (λ n.
        front_of bytes.now ≡ Ok (Some (take n bytes.now, drop n bytes.now)))) }
    ensures none { IfOk result (λ found. IfNone found (front_of bytes.now ≡ Ok None)) }
    ensures err { IfErr result (λ e. front_of bytes.now ≡ Err e) }
{
    if bytes.len() < 4 {
        return Ok(None);
    }
    let length = three_at(bytes, 1) as usize;
    if length < HEADER_BYTES {
        return Err(FrameFault::ShortLength);
    }
    if length % 4 != 0 {
        return Err(FrameFault::OddLength);
    }
    if length > MOST_BYTES {
        return Err(FrameFault::TooLong);
    }
    Ok(if bytes.len() < length {
        None
    } else {
        Some(length)
    })
}

/// The bytes of a stream that were fed and not yet handed out, and the bad length that was answered, if any.
///
/// Feeding a piece costs its length, apart from growth of the buffer by doubling. Taking a frame costs its length,
/// however long the buffer is.
#[derive(Debug, Drop)]
pub struct Assembler {
    pending: BytesMut,
    fault: Option<FrameFault>,
    alloc: Global,
}

impl Model for Assembler {
    ghost use Rattle.std.specs.Prelude.{◌≡◌, IfSome, Err};
    ghost use Rattle.dia_codec.specs.Stream.{Pending, pending_code, front_of};

    ghost Value = { Pending };

    ghost coded = { pending_code };

    ghost view = { λ a. record { bytes = a.pending.items; fault = a.fault } };

    // Only a bad length is kept.
    ghost invariant = { λ a. IfSome a.fault (λ f. front_of a.pending.items ≡ Err f) };
}

impl Assembler {
    /// An assembler to which nothing was fed.
    pub fn start(alloc: Global) -> Assembler
        ensures { result ≡ record { bytes = []; fault = None } }
    {
        Assembler {
            pending: BytesMut::new(alloc),
            fault: None,
            alloc,
        }
    }

    /// Whether all that was fed has been handed out.
    pub fn is_empty(&self) -> bool
        ensures { result ≡ (length self.now.bytes == 0) }
    {
        self.pending.is_empty()
    }

    /// Takes the next piece of the stream, unless `next` has answered a bad length.
    pub fn feed(&mut self, piece: &[u8]) -> Result<(), FrameFault>
        ensures sticky { IfSome self.old.fault (λ f. result ≡ Err f) }
        ensures sound { OnOk result (self.old.fault ≡ None) }
        ensures taken { OnOk result
            (self.new ≡ record self.old { bytes = self.old.bytes ++ piece.now }) }
        ensures fault { IfErr result (λ e. e ≡ unwrap_or self.old.fault faults.NoMemory) }
        ensures unchanged { OnErr result (self.new ≡ self.old) }
    {
        if let Some(fault) = self.fault {
            return Err(fault);
        }
        self.pending.extend_from_slice(piece)?;
        Ok(())
    }

    /// The next whole frame, None if none is whole. A bad length at the front is answered now, and by each later call.
    pub fn next(&mut self) -> Result<Option<Vec<u8>>, FrameFault>
        ensures sticky { IfSome self.old.fault (λ f. result ≡ Err f) }
        ensures sound { OnOk result (self.new.fault ≡ None) }

        // No frame is whole.
        ensures none { IfOk result (λ given. IfNone given (front_of self.old.bytes ≡ Ok None)) }
        ensures waits { IfOk result (λ given. IfNone given (self.new ≡ self.old)) }

        // The frame at the front is whole.
        ensures some { IfOk result (λ given. IfSome given (λ frame.
            front_of self.old.bytes ≡ Ok (Some (frame.items, self.new.bytes)))) }
        ensures frame { IfOk result (λ given. IfSome given (λ frame. IsFrame frame.items)) }
        ensures parts { IfOk result (λ given. IfSome given (λ frame.
            self.old.bytes ≡ frame.items ++ self.new.bytes)) }

        // The length at the front is bad.
        ensures bad { IfErr (front_of self.old.bytes) (λ e. result ≡ Err e) }
        ensures stays { IfErr (front_of self.old.bytes) (λ e.
            self.new ≡ record self.old { fault = Some e }) }

        // Memory runs out.
        ensures no_memory { OnOk (front_of self.old.bytes)
            (IfErr result (λ e. e ≡ faults.NoMemory)) }
        ensures unchanged { OnOk (front_of self.old.bytes) (OnErr result (self.new ≡ self.old)) }
    {
        if let Some(fault) = self.fault {
            return Err(fault);
        }
        match whole_len(self.pending.as_slice()) {
            Err(fault) => {
                self.fault = Some(fault);
                Err(fault)
            }
            Ok(None) => Ok(None),
            Ok(Some(length)) => {
                let frame = Vec::from_slice(self.alloc, &self.pending.as_slice()[..length])?;
                self.pending.advance(length);
                Ok(Some(frame))
            }
        }
    }
}

/// What follows the last whole frame of a stream.
#[derive(Clone, Copy, Debug, PartialEq, Eq)]
pub enum StreamEnd {
    /// Nothing: the stream ends with its last frame, or is empty.
    Whole,
    /// A first part of a frame.
    Cut,
    /// A frame whose length field no message can have. Nothing after it is read.
    Bad(FrameFault),
}

/// A stream cut into frames.
#[derive(Debug, Drop, PartialEq, Eq)]
pub struct FramedStream {
    /// The whole frames in their order, up to the stream's end or its first bad length.
    pub frames: Vec<Vec<u8>>,
    pub end: StreamEnd,
}

/// Takes each whole frame that stands at the front, and tells what is left.
fn take_frames(
    assembler: &mut Assembler,
    frames: &mut Vec<Vec<u8>>,
) -> Result<StreamEnd, AllocError>
    requires sound { assembler.old.fault ≡ None }
    requires each { AllByRecursion IsFrame (frame_bytes frames.old.items) }
    ensures splits { IfOk result (λ end.
        Splits (stream_of (frame_bytes frames.old.items) assembler.old.bytes)
        (frame_bytes frames.new.items) assembler.new.bytes) }
    ensures end { IfOk result (λ end. end ≡ end_of assembler.new.bytes) }
    ensures fault { IfOk result (λ end. assembler.new.fault ≡ fault_of end) }
{
    loop {
        match assembler.next() {
            Ok(Some(frame)) => frames.push(frame)?,
            Ok(None) => {
                return Ok(if assembler.is_empty() {
                    StreamEnd::Whole
                } else {
                    StreamEnd::Cut
                });
            }
            Err(fault) if fault != FrameFault::NoMemory => return Ok(StreamEnd::Bad(fault)),
            Err(_) => return Err(AllocError),
        }
    }
}

/// The frames of a stream that comes in pieces. How it was cut makes no difference: see `one_cut`.
pub fn frames_of(alloc: Global, pieces: &[&[u8]]) -> Result<FramedStream, AllocError>
    ensures { IfOk result (λ s. CutsInto
        (bytes_of_pieces pieces.now) (frame_bytes s.frames.items) s.end) }
{
    let mut assembler = Assembler::start(alloc);
    let mut frames = Vec::new(alloc);
    let mut end = StreamEnd::Whole;
    for piece in pieces {
        if assembler.feed(piece).is_err() {
            // No bad length was answered, so it is for want of memory.
            return Err(AllocError);
        }
        end = take_frames(&mut assembler, &mut frames)?;
        if let StreamEnd::Bad(_) = end {
            return Ok(FramedStream { frames, end });
        }
    }
    Ok(FramedStream { frames, end })
}

/// A law: a stream is cut into frames in one way, and has one end.
pub fn one_cut()
    // A stream, and what is left of it.
    ensures frames { (stream : List ℕ) (frames others : List (List ℕ)) (rest last : List ℕ)
        → Splits stream frames rest → Splits stream others last → frames ≡ others }
    ensures rest { (stream : List ℕ) (frames others : List (List ℕ)) (rest last : List ℕ)
        → Splits stream frames rest → Splits stream others last → rest ≡ last }

    // A stream, and how it ends.
    ensures cut_frames { (stream : List ℕ) (frames others : List (List ℕ)) (end last : StreamEnd)
        → CutsInto stream frames end → CutsInto stream others last → frames ≡ others }
    ensures end { (stream : List ℕ) (frames others : List (List ℕ)) (end last : StreamEnd)
        → CutsInto stream frames end → CutsInto stream others last → end ≡ last }
{}
