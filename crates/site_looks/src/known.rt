//! The sessions that a site is known to know of.
use crate::notes::{Noted, ReadNotes, read_notes};
use indexed_state::AnySid;
use pcrf_values::{AfSid, GxSid};
use std::alloc::{AllocError, Global};
use std::collections::BTreeSet;

/// The sessions that notes told of, without those that the site forgot.
#[derive(Drop)]
pub struct KnownSessions {
    alloc: Global,
    gateways: BTreeSet<GxSid>,
    calls: BTreeSet<AfSid>,
}

impl KnownSessions {
    /// None is known.
    pub fn start(alloc: Global) -> KnownSessions {
        KnownSessions {
            alloc,
            gateways: BTreeSet::new(alloc),
            calls: BTreeSet::new(alloc),
        }
    }

    /// Notes a session.
    fn add(&mut self, session: AnySid) -> Result<(), AllocError> {
        let added = match session {
            AnySid::Gx(id) => self.gateways.insert(id).is_ok(),
            AnySid::Af(id) => self.calls.insert(id).is_ok(),
        };
        match added {
            true => Ok(()),
            false => Err(AllocError),
        }
    }

    /// Takes a session out.
    fn forget(&mut self, session: &AnySid) {
        match session {
            AnySid::Gx(id) => {
                self.gateways.remove(id);
            }
            AnySid::Af(id) => {
                self.calls.remove(id);
            }
        }
    }

    /// Reads notes.
    pub fn read(&mut self, notes: &[u8]) -> Result<(), AllocError> {
        read_notes(self.alloc, notes, self)
    }

    /// Those of gateways.
    pub fn gateways(&self) -> &BTreeSet<GxSid> {
        &self.gateways
    }

    /// Those of application functions.
    pub fn calls(&self) -> &BTreeSet<AfSid> {
        &self.calls
    }
}

impl ReadNotes for KnownSessions {
    fn read_note(&mut self, noted: Noted, session: AnySid) -> Result<(), AllocError> {
        match noted {
            Noted::Known => self.add(session),
            Noted::Forgotten => {
                self.forget(&session);
                Ok(())
            }
        }
    }
}
