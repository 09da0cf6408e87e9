//! Under which Origin-State-Id the host of each session spoke last.
ghost use Rattle.std.specs.Prelude.{◌≡◌, None, true, OnOk, OnErr};
ghost use Rattle.watched_links.specs.States.{has_place, host_told, may_have_grown as grown, nothing_known, session_told, state_of, with_room};

use pcrf_values::{DiameterIdentity, GxSid, Ranked};
use std::alloc::{AllocError, Global};
use std::collections::BTreeMap;
use std::marker::Model;

/// Of how many hosts it is known at most what they said of themselves. Of further ones it isn't.
const MOST_HOSTS: usize = 1 << 12;

/// Of how many sessions it is known at most. Where there are more all are forgotten.
const MOST_SESSIONS: usize = 1 << 16;

/// Under which Origin-State-Id the host of each session spoke last, as far as that is known. A host that started again and lost its
/// sessions has a greater one than before (RFC 6733, 8.16). Contracts see the states of hosts and of sessions' hosts, by name and ascending.
#[derive(Drop)]
pub struct OriginStates {
    alloc: Global,
    hosts: BTreeMap<DiameterIdentity, u32>,
    sessions: BTreeMap<GxSid, u32>,
}

impl Model for OriginStates {
    ghost use Rattle.watched_links.specs.States.{StatesValue};

    ghost Value = { StatesValue };

    ghost view = { λ s. record { hosts = s.hosts.entries; sessions = s.sessions.entries } };
}

impl OriginStates {
    /// Nothing is known.
    pub fn start(alloc: Global) -> OriginStates
        ensures { result ≡ nothing_known }
    {
        OriginStates {
            alloc,
            hosts: BTreeMap::new(alloc),
            sessions: BTreeMap::new(alloc),
        }
    }

    /// A host said this of itself as it exchanged capabilities. Of more than 4,096 hosts nothing is known. Memory may be refused for a
    /// host that wasn't known and has a place; that changes nothing.
    pub fn tell_host(&mut self, host: &DiameterIdentity, state: u32) -> Result<(), AllocError>
        ensures told { OnOk result (self.new ≡ host_told self.old host.now state) }
        ensures unchanged { OnErr result (self.new ≡ self.old) }
        ensures absent { OnErr result (state_of self.old.hosts host.now ≡ None) }
        ensures placed { OnErr result (has_place self.old.hosts host.now ≡ true) }
    {
        if let Some(before) = self.hosts.get_mut(host) {
            *before = state;
            return Ok(());
        }
        if self.hosts.len() >= MOST_HOSTS {
            return Ok(());
        }
        match self.hosts.insert(host.try_copy()?, state) {
            Ok(_) => Ok(()),
            Err(_) => Err(AllocError),
        }
    }

    /// What a host said as it exchanged capabilities.
    pub fn of_host(&self, host: &DiameterIdentity) -> Option<u32>
        ensures { result ≡ state_of self.now.hosts host.now }
    {
        self.hosts.get(host).copied()
    }

    /// A request of a session came from a host in this state. Where 65,536 sessions are known and this is a further one, all others are
    /// forgotten. Memory may be refused for a session that wasn't known; then the others are forgotten all the same.
    pub fn tell_session(&mut self, session: &GxSid, state: u32) -> Result<(), AllocError>
        ensures told { OnOk result (self.new ≡ session_told self.old session.now state) }
        ensures hosts { self.new.hosts ≡ self.old.hosts }
        ensures err { OnErr result (self.new.sessions ≡ with_room self.old.sessions session.now) }
        ensures absent { OnErr result (state_of self.old.sessions session.now ≡ None) }
    {
        if let Some(before) = self.sessions.get_mut(session) {
            *before = state;
            return Ok(());
        }
        if self.sessions.len() >= MOST_SESSIONS {
            self.sessions = BTreeMap::new(self.alloc);
        }
        match self.sessions.insert(session.try_copy()?, state) {
            Ok(_) => Ok(()),
            Err(_) => Err(AllocError),
        }
    }

    /// Whether the host of a session may have started again since the session's last request: it is in a greater state than it was then, or
    /// that isn't known.
    pub fn may_have_grown(&self, session: &GxSid, state: u32) -> bool
        ensures { result ≡ grown (state_of self.now.sessions session.now) state }
    {
        match self.sessions.get(session) {
            Some(before) => *before < state,
            None => true,
        }
    }
}
