//! Letters on a stream.
use crate::end::LinkEnd;
use pcrf_values::HashSeed;
use peer_exchange::{Ack, Letter, LetterAssembler, read_letter_seeded, write_letter};
use std::alloc::Global;
use std::io::{Read, Write};

/// How many reads may be made for one letter.
const READ_LIMIT: u64 = 1 << 40;

/// How many bytes are read at once.
const PIECE_BYTES: usize = 4096;

/// A stream of letters of one edition of the operator tables, in both directions, with what was read of it and not yet taken.
#[derive(Drop)]
pub(crate) struct Letters<S> {
    stream: S,
    pending: LetterAssembler,
    edition: u32,
    seed: HashSeed,
    alloc: Global,
}

impl<S: Read + Write> Letters<S> {
    /// A stream of which nothing was read. Hashes of whole states that are read begin with this seed.
    pub(crate) fn start(alloc: Global, edition: u32, seed: HashSeed, stream: S) -> Letters<S> {
        Letters {
            stream,
            pending: LetterAssembler::start(alloc),
            edition,
            seed,
            alloc,
        }
    }

    /// The next letter, or how the connection ends where there is none that can be read.
    pub(crate) fn read(&mut self) -> Result<Letter, LinkEnd> {
        let mut piece = [0u8; PIECE_BYTES];
        for _read in 0..READ_LIMIT {
            if let Some(frame) = self.pending.next()? {
                let letter = read_letter_seeded(
                    self.alloc,
                    self.seed,
                    frame.as_slice(),
                    self.edition,
                );
                return Ok(letter?);
            }
            self.feed(&mut piece)?;
        }
        Err(LinkEnd::ReadFailed)
    }

    /// Reads a piece of the stream.
    fn feed(&mut self, piece: &mut [u8]) -> Result<(), LinkEnd> {
        let Ok(count) = self.stream.read(piece) else {
            return Err(LinkEnd::ReadFailed);
        };
        if count == 0 {
            return Err(self.end_of_input());
        }
        self.pending.feed(&piece[..count])?;
        Ok(())
    }

    /// How the connection ends at the end of the input.
    fn end_of_input(&self) -> LinkEnd {
        if self.pending.is_empty() {
            LinkEnd::Closed
        } else {
            LinkEnd::Cut
        }
    }

    /// Writes a letter whole.
    pub(crate) fn write(&mut self, letter: &Letter) -> Result<(), LinkEnd> {
        let frame = write_letter(self.alloc, letter)?;
        if self.stream.write_all(frame.as_slice()).is_err() || self.stream.flush().is_err() {
            return Err(LinkEnd::WriteFailed);
        }
        Ok(())
    }

    /// Writes an acknowledgement.
    pub(crate) fn acknowledge(&mut self, ack: &Ack) -> Result<(), LinkEnd> {
        let letter = ack.letter(self.edition);
        self.write(&letter)
    }
}
