//! Frames of letters from a stream in pieces.
ghost use Rattle.std.specs.Prelude.{◌≡◌, ◌==◌, ◌+◌, ◌++◌, [], IfOk, OnOk, IfErr, OnErr, IfSome, IfNone, ◌<◌, ◌≤◌, length, take, drop};
ghost use Rattle.std.specs.Prelude.{Some, None, Ok, Err, unwrap_or};
ghost use Rattle.peer_exchange.specs.Frames.{IsFrame, body_length, front_of};
ghost use Rattle.peer_exchange.specs.declared.fault.FrameFault.TheVariants as faults;

use crate::fault::FrameFault;
use crate::limits::{LENGTH_BYTES, MOST_BYTES};
use bytes::{Buf, BytesMut};
use std::alloc::Global;
use std::marker::Model;

/// The number that the first four bytes are, big-endian.
#[tactic(auto, unfolding(crate::specs::Frames::body_length))]
fn body_length(bytes: &[u8]) -> u32
    requires { 4 ≤ length bytes.now }
    ensures { result ≡ body_length bytes.now }
{
    u32::from_be_bytes([bytes[0], bytes[1], bytes[2], bytes[3]])
}

/// How many bytes the frame at the front has, None where it is not whole. Its length is judged once its first four
/// bytes are there.
#[tactic(auto, unfolding(crate::specs::Frames::front_of))]
fn whole_len(bytes: &[u8]) -> Result<Option<usize>, FrameFault>
    ensures within { IfOk result (λ found. IfSome found (λ n. n ≤ length bytes.now)) }
    ensures whole { IfOk result (λ found. IfSome found (λ n.
        front_of bytes.now ≡ Ok (Some (take n bytes.now, drop n bytes.now)))) }
    ensures none { IfOk result (λ found. IfNone found (front_of bytes.now ≡ Ok None)) }
    ensures err { IfErr result (λ e. front_of bytes.now ≡ Err e) }
{
    if bytes.len() < LENGTH_BYTES {
        return Ok(None);
    }
    let length = body_length(bytes);
    if length > MOST_BYTES {
        return Err(FrameFault::TooLong);
    }
    let whole = LENGTH_BYTES + length as usize;
    Ok(if bytes.len() < whole {
        None
    } else {
        Some(whole)
    })
}

/// The bytes of a stream of letters that were fed and not yet handed out, and the bad length that was answered, if any.
///
/// What a length claims is not reserved: the buffer grows by the bytes that are fed.
#[derive(Debug, Drop)]
pub struct LetterAssembler {
    pending: BytesMut,
    fault: Option<FrameFault>,
    alloc: Global,
}

impl Model for LetterAssembler {
    ghost use Rattle.std.specs.Prelude.{◌≡◌, IfSome, Err};
    ghost use Rattle.peer_exchange.specs.Frames.{Pending, pending_code, front_of};

    ghost Value = { Pending };

    ghost coded = { pending_code };

    ghost view = { λ a. record { bytes = a.pending.items; fault = a.fault } };

    // Only a bad length is kept.
    ghost invariant = { λ a. IfSome a.fault (λ f. front_of a.pending.items ≡ Err f) };
}

impl LetterAssembler {
    /// An assembler to which nothing was fed.
    pub fn start(alloc: Global) -> LetterAssembler
        ensures { result ≡ record { bytes = []; fault = None } }
    {
        LetterAssembler {
            pending: BytesMut::new(alloc),
            fault: None,
            alloc,
        }
    }

    /// Whether all that was fed has been handed out.
    pub fn is_empty(&self) -> bool
        ensures { result ≡ (length self.now.bytes == 0) }
    {
        self.pending.is_empty()
    }

    /// Takes the next piece of the stream, unless `next` has answered a bad length.
    pub fn feed(&mut self, piece: &[u8]) -> Result<(), FrameFault>
        ensures sticky { IfSome self.old.fault (λ f. result ≡ Err f) }
        ensures sound { OnOk result (self.old.fault ≡ None) }
        ensures taken { OnOk result
            (self.new ≡ record self.old { bytes = self.old.bytes ++ piece.now }) }
        ensures fault { IfErr result (λ e. e ≡ unwrap_or self.old.fault faults.NoMemory) }
        ensures unchanged { OnErr result (self.new ≡ self.old) }
    {
        if let Some(fault) = self.fault {
            return Err(fault);
        }
        self.pending.extend_from_slice(piece)?;
        Ok(())
    }

    /// The next whole frame, its length before the letter; None if none is whole. A bad length at the front is answered
    /// now, and by each later call.
    pub fn next(&mut self) -> Result<Option<Vec<u8>>, FrameFault>
        ensures sticky { IfSome self.old.fault (λ f. result ≡ Err f) }
        ensures sound { OnOk result (self.new.fault ≡ None) }

        // No frame is whole.
        ensures none { IfOk result (λ given. IfNone given (front_of self.old.bytes ≡ Ok None)) }
        ensures waits { IfOk result (λ given. IfNone given (self.new ≡ self.old)) }

        // The frame at the front is whole.
        ensures some { IfOk result (λ given. IfSome given (λ frame.
            front_of self.old.bytes ≡ Ok (Some (frame.items, self.new.bytes)))) }
        ensures frame { IfOk result (λ given. IfSome given (λ frame. IsFrame frame.items)) }
        ensures parts { IfOk result (λ given. IfSome given (λ frame.
            self.old.bytes ≡ frame.items ++ self.new.bytes)) }

        // The length at the front is bad.
        ensures bad { IfErr (front_of self.old.bytes) (λ e. result ≡ Err e) }
        ensures stays { IfErr (front_of self.old.bytes) (λ e.
            self.new ≡ record self.old { fault = Some e }) }

        // Memory runs out.
        ensures no_memory { OnOk (front_of self.old.bytes)
            (IfErr result (λ e. e ≡ faults.NoMemory)) }
        ensures unchanged { OnOk (front_of self.old.bytes) (OnErr result (self.new ≡ self.old)) }
    {
        if let Some(fault) = self.fault {
            return Err(fault);
        }
        match whole_len(self.pending.as_slice()) {
            Err(fault) => {
                self.fault = Some(fault);
                Err(fault)
            }
            Ok(None) => Ok(None),
            Ok(Some(length)) => {
                let frame = Vec::from_slice(self.alloc, &self.pending.as_slice()[..length])?;
                self.pending.advance(length);
                Ok(Some(frame))
            }
        }
    }
}
