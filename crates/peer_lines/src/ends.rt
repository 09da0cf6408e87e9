//! The two directions of a link, sealed or not.
use crate::line::Timely;
use crate::sealed::SealedReader;
use crate::teller::Output;
use std::io::{self, Read};
use std::time::Clock;

/// How a link is read.
#[derive(Drop)]
pub enum Input<'r, C: Clock> {
    /// As it is.
    Plain(Timely<'r, C>),
    /// With codes (docs/LETTERS.md, "Sealed links").
    Sealed(SealedReader<Timely<'r, C>>),
}

impl<C: Clock> Read for Input<'_, C> {
    fn read(&mut self, buf: &mut [u8]) -> io::Result<usize> {
        match self {
            Input::Plain(line) => line.read(buf),
            Input::Sealed(reader) => reader.read(buf),
        }
    }
}

/// The two directions of a link.
#[derive(Drop)]
pub struct Ends<'r, C: Clock> {
    pub(crate) input: Input<'r, C>,
    pub(crate) output: Output,
    /// The site whose proof opened it, if it is sealed.
    pub(crate) proved: Option<u8>,
}
