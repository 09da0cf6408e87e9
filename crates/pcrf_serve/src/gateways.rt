//! The gateways that can be reached.
use crate::half::Half;
use crate::observer::{Observer, Unobserved};
use pcrf_values::{DiameterIdentity, Ranked};
use std::alloc::{AllocError, Global};
use std::collections::BTreeSet;
use std::io::Write;
use std::sync::{Arc, Mutex, Wait};

/// A host with the half that it is reached by.
#[derive(Drop)]
pub(crate) struct Reached<W> {
    pub(crate) host: DiameterIdentity,
    /// The number of the connection's seat.
    pub(crate) connection: usize,
    pub(crate) half: Arc<Half<W>>,
    /// Its request came by the half, perhaps through a relay; else it exchanged capabilities.
    is_followed: bool,
}

/// How many hosts are followed at most. The one that is followed longest gives way.
const MOST_FOLLOWED: usize = 4_096;

/// By what a host is reached that has several connections.
#[derive(Clone, Copy, Debug, PartialEq, Eq)]
enum Several {
    /// By the last one alone: it takes the place of those before it, and with its end the host isn't reached any more.
    Last,
    /// By the last one that is still open.
    LastOpen,
}

/// For each host that sent an accepted capabilities exchange, or whose requests are followed, the writing halves of the connections on
/// which it did so, the last one behind. Their lock is held for no write and no call of a site. An observer is told what happens at their
/// connections.
#[derive(Drop)]
pub struct Gateways<W, O = Unobserved> {
    reached: Mutex<Vec<Reached<W>>>,
    several: Several,
    observer: O,
}

/// Takes the host out that is followed longest, where there is no room for one more.
fn make_room<W: Write + Drop>(reached: &mut Vec<Reached<W>>) {
    let mut count: usize = 0;
    let mut oldest = None;
    for (place, gateway) in reached.iter().enumerate() {
        if gateway.is_followed {
            count = count.saturating_add(1);
            if oldest.is_none() {
                oldest = Some(place);
            }
        }
    }
    if let Some(place) = oldest {
        if count >= MOST_FOLLOWED && place < reached.len() {
            drop(reached.remove(place));
        }
    }
}

/// Whether a host is reached by the connection at the seat of that number.
fn is_reached_by<W: Write + Drop>(
    reached: &[Reached<W>],
    host: &DiameterIdentity,
    connection: usize,
) -> bool {
    for gateway in reached.iter().rev() {
        if gateway.host == *host && !gateway.half.has_ended() {
            return gateway.connection == connection;
        }
    }
    false
}

impl<W: Write + Drop> Gateways<W> {
    /// No gateway can be reached, and nobody is told.
    pub fn start(alloc: Global) -> Gateways<W> {
        Gateways::observed(alloc, Unobserved)
    }
}

impl<W: Write + Drop, O: Observer> Gateways<W, O> {
    /// No gateway can be reached. The observer is told what happens. A host that exchanges capabilities on a further connection is reached
    /// by that one alone from then on, and by none behind its end.
    pub fn observed(alloc: Global, observer: O) -> Gateways<W, O> {
        Gateways {
            reached: Mutex::new(Vec::new(alloc)),
            several: Several::Last,
            observer,
        }
    }

    /// The same, but that a host is reached by the last of its connections that is still open.
    pub fn falling_back(alloc: Global, observer: O) -> Gateways<W, O> {
        Gateways {
            reached: Mutex::new(Vec::new(alloc)),
            several: Several::LastOpen,
            observer,
        }
    }

    /// Who is told what happens.
    pub fn observer(&self) -> &O {
        &self.observer
    }

    /// From now on a host is reached by that half, of the connection at the seat of that number, until it has ended: then by none, or by
    /// the one before it again that is still open, where hosts fall back.
    pub fn register(
        &self,
        rt: &impl Wait,
        host: DiameterIdentity,
        connection: usize,
        half: &Arc<Half<W>>,
    ) -> Result<(), AllocError> {
        self.put(rt, host, connection, half, false)
    }

    /// Puts a host's half behind the others.
    fn put(
        &self,
        rt: &impl Wait,
        host: DiameterIdentity,
        connection: usize,
        half: &Arc<Half<W>>,
        is_followed: bool,
    ) -> Result<(), AllocError> {
        let half = Arc::try_clone(half)?;
        let replaces = self.several == Several::Last;
        let mut reached = self.reached.lock(rt);
        reached.reserve(1)?;
        reached.retain(|other: &Reached<W>| {
            other.host != host || (!replaces && other.connection != connection)
        });
        if is_followed {
            make_room(&mut *reached);
        }
        reached.push(Reached {
            host,
            connection,
            half,
            is_followed,
        })?;
        Ok(())
    }

    /// A host's request came by that half, of the connection at the seat of that number, perhaps through a relay (RFC 6733, 2.8.1): unless
    /// the host is reached by it already, it is from now on, as `register` has it. At most 4,096 hosts are followed: for one more the one
    /// that is followed longest isn't reached any more.
    pub fn follow(
        &self,
        rt: &impl Wait,
        host: DiameterIdentity,
        connection: usize,
        half: &Arc<Half<W>>,
    ) -> Result<(), AllocError> {
        if is_reached_by(self.reached.lock(rt).as_slice(), &host, connection) {
            return Ok(());
        }
        self.put(rt, host, connection, half, true)
    }

    /// The hosts that were reached by halves which have ended are not reached any more.
    pub fn take_ended_out(&self, rt: &impl Wait) {
        let mut reached = self.reached.lock(rt);
        reached.retain(|gateway: &Reached<W>| !gateway.half.has_ended());
    }

    /// The hosts that are reached, each once.
    pub fn hosts(
        &self,
        rt: &impl Wait,
        alloc: Global,
    ) -> Result<BTreeSet<DiameterIdentity>, AllocError> {
        let mut hosts = BTreeSet::new(alloc);
        let reached = self.reached.lock(rt);
        for gateway in reached.as_slice() {
            if !gateway.half.has_ended() && hosts.insert(gateway.host.try_copy()?).is_err() {
                return Err(AllocError);
            }
        }
        Ok(hosts)
    }

    /// The half by which a host is reached, if it is.
    pub(crate) fn half_of(
        &self,
        rt: &impl Wait,
        host: &DiameterIdentity,
    ) -> Result<Option<Arc<Half<W>>>, AllocError> {
        let reached = self.reached.lock(rt);
        for gateway in reached.as_slice().iter().rev() {
            if gateway.host == *host && !gateway.half.has_ended() {
                return Ok(Some(Arc::try_clone(&gateway.half)?));
            }
        }
        Ok(None)
    }

    /// How many connections reach a host.
    pub fn count(&self, rt: &impl Wait) -> usize {
        self.reached.lock(rt).len()
    }
}
