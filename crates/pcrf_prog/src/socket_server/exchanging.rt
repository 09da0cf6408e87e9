//! Exchanges of letters with peer sites, each by a worker of its own.
use crate::socket_server::carrying::Carrying;
use crate::socket_server::journal::{tell_sending_ended, tell_sent, tell_taken, tell_taking_ended};
use crate::socket_server::settings::SiteEpoch;
use crate::socket_server::sockets::PeerLink;
use log::Log;
use pcrf_serve::{Cursors, Gate, LinkEnd, LockedSite, Pushes, Role, Seat, exchange_with};
use std::alloc::Global;
use std::sync::Wait;
use std::sync::ledger::Ledger;
use std::thread::{JoinHandle, Scope, Threads};

/// What all exchanges of a server share.
#[derive(Drop)]
pub struct Exchanges<'a, L: Ledger, P, G> {
    pub alloc: Global,
    pub site: &'a LockedSite<L>,
    pub gateways: &'a P,
    pub place: SiteEpoch,
    pub turns: u32,
    pub log: &'a G,
}

/// An exchange that is to be made.
#[derive(Drop)]
pub struct Exchange<'a, L: Ledger> {
    pub seat: Seat<L>,
    pub link: &'a PeerLink,
}

/// Lets every letter through, and tells of each that was acknowledged.
#[derive(Drop)]
struct Letters<'a, G> {
    link: &'a PeerLink,
    log: &'a G,
}

impl<G: Log> Gate for Letters<'_, G> {
    fn enter(&self, _connection: usize, _message: u64) -> bool {
        true
    }

    fn leave(&self, _connection: usize, message: u64) -> bool {
        match self.link.role {
            Role::Dial => tell_sent(self.log, message, self.link.address),
            Role::Listen => tell_taken(self.log, message, self.link.address),
        }
        true
    }
}

/// Tells how an exchange ended.
fn tell_end<G: Log>(log: &G, link: &PeerLink, end: LinkEnd) {
    match link.role {
        Role::Dial => tell_sending_ended(log, link.address, end),
        Role::Listen => tell_taking_ended(log, link.address, end),
    }
}

/// Exchanges letters over a connection until it ends. Without a connection nothing is exchanged: there was no memory for its
/// worker.
fn exchange_letters<T: Threads + Wait + Sync, L: Ledger, P: Pushes, G: Log>(
    rt: &T,
    all: &Exchanges<'_, L, P, G>,
    seat: &mut Seat<L>,
    link: &PeerLink,
) -> LinkEnd {
    let Some(stream) = link.stream.lock(rt).take() else {
        return LinkEnd::NoMemory;
    };
    let mut cursors = Cursors::start(all.place.number, all.place.epoch);
    let letters = Letters { link, log: all.log };
    let carrying = Carrying {
        stream,
        peer: link.address,
        log: all.log,
        is_begun: false,
    };
    exchange_with(
        rt,
        all.alloc,
        all.site,
        seat,
        &mut cursors,
        all.gateways,
        link.role,
        carrying,
        all.turns,
        &letters,
    )
}

/// Makes an exchange, and gives its seat back.
fn make<T: Threads + Wait + Sync, L: Ledger, P: Pushes, G: Log>(
    rt: &T,
    all: &Exchanges<'_, L, P, G>,
    exchange: Exchange<'_, L>,
) -> Seat<L> {
    let Exchange { mut seat, link } = exchange;
    let end = exchange_letters(rt, all, &mut seat, link);
    tell_end(all.log, link, end);
    seat
}

/// An exchange that runs, or the seat of one that could not be started.
#[derive(Drop)]
pub enum Begun<L: Ledger> {
    Running(JoinHandle<Seat<L>>),
    Refused(Seat<L>),
}

/// Begins an exchange. One that can't be started finds no connection.
pub fn begin<
    's,
    E,
    T: Threads + Wait + Sync,
    L: Ledger + Send + Sync + 's,
    P: Pushes + Sync + 's,
    G: Log + Sync + 's,
>(
    rt: &'s T,
    scope: &Scope<'s, E>,
    all: &'s Exchanges<'s, L, P, G>,
    exchange: Exchange<'s, L>,
) -> Begun<L> {
    let link = exchange.link;
    match scope.spawn(move || make(rt, all, exchange)) {
        Ok(handle) => Begun::Running(handle),
        Err(refused) => {
            *link.stream.lock(rt) = None;
            Begun::Refused((refused.value)())
        }
    }
}

/// Waits for an exchange, and gives its seat back.
pub fn join<T: Threads, L: Ledger>(rt: &T, begun: Begun<L>) -> Seat<L> {
    match begun {
        Begun::Running(handle) => handle.join(rt),
        Begun::Refused(seat) => seat,
    }
}
