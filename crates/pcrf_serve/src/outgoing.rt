//! What a worker has still to write to its own connection.
use crate::half::Half;
use std::alloc::{AllocError, Global};
use std::io::Write;
use std::sync::Wait;

/// Answers that are gathered, so that those of one read go out by one write; and before anything else that a worker writes.
#[derive(Drop)]
pub struct Outgoing<'a, W> {
    half: Option<&'a Half<W>>,
    bytes: Vec<u8>,
}

impl<'a, W: Write + Drop> Outgoing<'a, W> {
    /// Nothing yet for the connection of that half.
    pub fn by(alloc: Global, half: &'a Half<W>) -> Outgoing<'a, W> {
        Outgoing {
            half: Some(half),
            bytes: Vec::new(alloc),
        }
    }

    /// For who gathers no answers.
    pub fn nothing(alloc: Global) -> Outgoing<'a, W> {
        Outgoing {
            half: None,
            bytes: Vec::new(alloc),
        }
    }

    /// Gathers an answer.
    pub fn gather(&mut self, answer: &[u8]) -> Result<(), AllocError> {
        self.bytes.extend_from_slice(answer)
    }

    /// Writes what was gathered. False if that can't be done, and from then on.
    pub fn flush(&mut self, rt: &impl Wait) -> bool {
        if self.bytes.is_empty() {
            return true;
        }
        let Some(half) = self.half else {
            return false;
        };
        let is_written = half.put(rt, self.bytes.as_slice());
        if is_written {
            self.bytes.clear();
        }
        is_written
    }
}
