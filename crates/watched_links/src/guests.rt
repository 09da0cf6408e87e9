//! The hosts that came, so that an operator is told once of one that something may wait for while it is away.
use pcrf_values::{DiameterIdentity, Ranked};
use std::alloc::Global;
use std::sync::{Mutex, Wait};

/// How many hosts are known at most. Of further ones nothing is told.
const MOST: usize = 1 << 12;

/// A host that came.
#[derive(Drop)]
struct Guest {
    host: DiameterIdentity,
    /// How many connections it has.
    connections: u32,
    /// As it was looked at last, something may have waited for it that no other site tells it.
    is_noticed: bool,
    /// That was told.
    is_told: bool,
    /// Something may wait for it.
    is_waiting: bool,
}

/// What is known of a host that came.
#[derive(Drop)]
pub struct HostStatus {
    pub host: DiameterIdentity,
    /// How many connections it has.
    pub connections: u32,
    /// Something may have waited for it when that was looked at last.
    pub is_waiting: bool,
}

impl Guest {
    /// Whether it is away, and nothing was told of that.
    fn is_missed(&self) -> bool {
        self.connections == 0 && !self.is_told
    }
}

/// The number of a host, or the next one where it is none of these.
fn number_of(all: &[Guest], host: &DiameterIdentity) -> usize {
    for (number, guest) in all.iter().enumerate() {
        if guest.host == *host {
            return number;
        }
    }
    all.len()
}

/// The hosts that came. Each has a number, and keeps it.
#[derive(Drop)]
pub struct Guests {
    all: Mutex<Vec<Guest>>,
}

impl Guests {
    /// Nobody came.
    pub fn start(alloc: Global) -> Guests {
        Guests {
            all: Mutex::new(Vec::new(alloc)),
        }
    }

    /// A host exchanged capabilities on a further connection: its number; none where no more can be known.
    pub fn arrive(&self, rt: &impl Wait, host: &DiameterIdentity) -> Option<usize> {
        let mut all = self.all.lock(rt);
        let number = number_of(all.as_slice(), host);
        if let Some(guest) = all.get_mut(number) {
            guest.connections = guest.connections.saturating_add(1);
            guest.is_noticed = false;
            guest.is_told = false;
            return Some(number);
        }
        if number == MOST {
            return None;
        }
        let guest = Guest {
            host: host.try_copy().ok()?,
            connections: 1,
            is_noticed: false,
            is_told: false,
            is_waiting: false,
        };
        all.push(guest).ok()?;
        Some(number)
    }

    /// A connection of that host ended.
    pub fn leave(&self, rt: &impl Wait, number: usize) {
        let mut all = self.all.lock(rt);
        if let Some(guest) = all.get_mut(number) {
            guest.connections = guest.connections.saturating_sub(1);
        }
    }

    /// The first host from that number on that is away, if nothing was told of that: its number, and what it is called.
    pub fn missed(&self, rt: &impl Wait, from: usize) -> Option<(usize, DiameterIdentity)> {
        let all = self.all.lock(rt);
        for (number, guest) in all.iter().enumerate().skip(from) {
            if guest.is_missed() {
                let host = guest.host.try_copy().ok()?;
                return Some((number, host));
            }
        }
        None
    }

    /// How many hosts came.
    pub fn count(&self, rt: &impl Wait) -> usize {
        self.all.lock(rt).len()
    }

    /// What is known of the host of a number; none where there is none, or memory ran out.
    pub fn seen(&self, rt: &impl Wait, number: usize) -> Option<HostStatus> {
        let all = self.all.lock(rt);
        let guest = all.get(number)?;
        Some(HostStatus {
            host: guest.host.try_copy().ok()?,
            connections: guest.connections,
            is_waiting: guest.is_waiting,
        })
    }

    /// Whether something may wait for that host.
    pub fn set_waiting(&self, rt: &impl Wait, number: usize, is_waiting: bool) {
        let mut all = self.all.lock(rt);
        if let Some(guest) = all.get_mut(number) {
            guest.is_waiting = is_waiting;
        }
    }

    /// A host that is away was looked at: whether something may wait for it that no other site tells it. Answers whether that is to be told,
    /// which it is where two looks behind each other saw it: a host that goes over to another site is there by the second.
    pub fn notice(&self, rt: &impl Wait, number: usize, is_missed: bool) -> bool {
        let mut all = self.all.lock(rt);
        let Some(guest) = all.get_mut(number) else {
            return false;
        };
        guest.is_told = is_missed && guest.is_noticed;
        guest.is_noticed = is_missed;
        guest.is_told
    }
}
