//! Values that no script hands out: texts that are shared, two states that are merged, and letters as bytes.
use crate::makers::EDITION;
use crate::trials::given::Given;
use pcrf_values::{Ranked, SessionId};
use peer_exchange::{LetterFault, read_letter, write_letter};
use site_join::State;
use std::alloc::{AllocError, Global};
use std::io::Print;

/// The Session-Id of these bytes, and a copy of it.
fn doubled(alloc: Global, bytes: &[u8]) -> Result<Option<(SessionId, SessionId)>, AllocError> {
    let Some(id) = SessionId::read(alloc, bytes)? else {
        return Ok(None);
    };
    let copy = id.try_copy()?;
    Ok(Some((id, copy)))
}

/// The bytes of a letter, read and written.
fn carried(alloc: Global, bytes: &[u8]) -> Result<Vec<u8>, LetterFault> {
    let letter = read_letter(alloc, bytes, EDITION)?;
    write_letter(alloc, &letter)
}

impl<R: Print> Given<'_, R> {
    /// Reads and copies a text; whether that was done.
    fn double(&self, bytes: &[u8], word: &str) -> bool {
        self.begin("SessionId::read and try_copy", word);
        let both = doubled(self.alloc, bytes);
        self.end(both.is_err());
        match both {
            Ok(Some((id, copy))) => {
                self.judge(Some(id.as_slice() == bytes));
                drop(id);
                self.judge(Some(copy.as_slice() == bytes));
                true
            }
            Ok(None) => {
                self.judge(None);
                true
            }
            Err(_) => false,
        }
    }

    /// Tries to read and to copy a text.
    pub fn try_text(&self, word: &str) -> Option<bool> {
        let bytes = self.bytes(word)?;
        Some(self.double(bytes.as_slice(), word) || self.double(bytes.as_slice(), word))
    }

    /// A state is that of a line.
    fn is_state(&self, word: &str, state: &State) -> Option<bool> {
        let wanted = self.state(word)?;
        Some(state.equal(&wanted))
    }

    /// Merges two states, and gives them back where that is refused.
    fn merge(&self, ours: State, theirs: State) -> Option<(State, State)> {
        self.begin("State::merge", "two states of one session");
        let merged = ours.merge(theirs);
        self.end(merged.is_err());
        match merged {
            Ok(both) => {
                self.judge(self.is_state("both", &both));
                None
            }
            Err((_, ours, theirs)) => {
                self.judge(self.is_state("ours", &ours));
                self.judge(self.is_state("theirs", &theirs));
                Some((ours, theirs))
            }
        }
    }

    /// Tries to merge two states.
    pub fn try_merge(&self) -> Option<bool> {
        let (ours, theirs) = (self.state("ours")?, self.state("theirs")?);
        match self.merge(ours, theirs) {
            Some((ours, theirs)) => Some(self.merge(ours, theirs).is_none()),
            None => Some(true),
        }
    }

    /// Reads and writes a letter, which are borrowed alone; whether that was done.
    fn carry(&self, bytes: &[u8], word: &str) -> bool {
        self.begin("read_letter and write_letter", word);
        let carried = carried(self.alloc, bytes);
        self.end(carried.is_err());
        let is_right = match &carried {
            Ok(written) => written.as_slice() == bytes,
            Err(fault) => *fault == LetterFault::NoMemory,
        };
        self.judge(Some(is_right));
        carried.is_ok()
    }

    /// Tries to read and to write a letter.
    pub fn try_letter(&self, word: &str) -> Option<bool> {
        let bytes = self.bytes(word)?;
        Some(self.carry(bytes.as_slice(), word) || self.carry(bytes.as_slice(), word))
    }
}
