//! The sessions that ended, until they may be forgotten.
use crate::notes::{Noted, ReadNotes, read_notes};
use indexed_state::AnySid;
use std::alloc::{AllocError, Global};
use std::collections::VecDeque;

/// A session that ended.
#[derive(Drop)]
struct EndedSession {
    session: AnySid,
    /// The second in which that was read.
    since: u64,
}

/// The sessions that ended, in the order in which that was noted. Seconds are those of a clock of the caller's, which never goes back.
#[derive(Drop)]
pub struct EndedSessions {
    alloc: Global,
    waiting: VecDeque<EndedSession>,
    /// The second in which notes are read.
    now: u64,
}

impl EndedSessions {
    /// None ended.
    pub fn start(alloc: Global) -> EndedSessions {
        EndedSessions {
            alloc,
            waiting: VecDeque::new(alloc),
            now: 0,
        }
    }

    /// Reads notes, in this second. Where memory is refused, sessions that they tell of may be missing.
    pub fn read(&mut self, notes: &[u8], now: u64) -> Result<(), AllocError> {
        self.now = now;
        read_notes(self.alloc, notes, self)
    }

    /// Takes out the sessions that were read by the end of a second, the oldest first, and at most so many.
    pub fn take_due(&mut self, until: u64, most: usize) -> Result<Vec<AnySid>, AllocError> {
        let mut due = Vec::with_capacity(self.alloc, most)?;
        for _ in 0..most {
            if self.oldest().is_none_or(|since| since > until) {
                break;
            }
            if let Some(ended) = self.waiting.pop_front() {
                due.push(ended.session)?;
            }
        }
        Ok(due)
    }

    /// The second in which the oldest was read.
    pub fn oldest(&self) -> Option<u64> {
        self.waiting.front().map(|ended| ended.since)
    }

    /// How many wait.
    pub fn len(&self) -> usize {
        self.waiting.len()
    }
}

impl ReadNotes for EndedSessions {
    fn read_note(&mut self, noted: Noted, session: AnySid) -> Result<(), AllocError> {
        let Noted::Known = noted else {
            return Ok(());
        };
        let since = self.now;
        Ok(self.waiting.push_back(EndedSession { session, since })?)
    }
}
