//! What lets letters to a peer site go: each as soon as the site made something that wasn't told, as long as the other end is there and no
//! site is gone that may have told something to this one alone.
use crate::staying::exchange::journal::{tell_all_sent, tell_anew, tell_sent};
use crate::staying::journal::Journal;
use crate::staying::own_log::log_length;
use crate::staying::status::Figures;
use log::Log;
use pcrf_serve::{Gate, Gateways, SharedSite};
use peer_lines::{Board, Line, Teller};
use std::alloc::Global;
use std::net::SocketAddr;
use std::sync::atomic::{AtomicU64, Ordering};
use std::sync::{Arc, Mutex, Wait};
use std::thread;
use std::time::{Clock, Duration};
use watched_links::{Posting, Quiet};

/// How many milliseconds lie between two looks at what the site made.
const PAUSE_MILLIS: u64 = 2;

/// How many looks lie between two at the other end.
const LOOKS: u64 = 64;

/// Lets letters to a peer site go, and counts those that were acknowledged.
#[derive(Drop)]
pub struct Growing<'b, 'r, S: SharedSite, M: Wait, G> {
    pub(crate) rt: &'r M,
    pub(crate) log: &'r G,
    pub(crate) site: &'b S,
    /// The seat at which the length of the log is asked for.
    pub(crate) probe: &'b Mutex<S::Seat>,
    pub(crate) line: Arc<Line>,
    pub(crate) alloc: Global,
    pub(crate) gateways: &'b Gateways<Posting<'r, M>, Journal<'r, M, G>>,
    /// By what the other end is told which hosts are reached.
    pub(crate) teller: Arc<Teller>,
    pub(crate) board: &'b Board<S::Seat>,
    /// How often a peer site was gone before the link.
    pub(crate) losses: u64,
    pub(crate) peer: SocketAddr,
    pub(crate) letters: AtomicU64,
    /// How often the site has begun anew, and how often it had when that was looked at last.
    pub(crate) beginnings: &'r AtomicU64,
    pub(crate) begun: AtomicU64,
    pub(crate) quiet: Mutex<Quiet>,
    pub(crate) figures: &'r Figures,
    /// Which of the peer sites it is.
    pub(crate) place: usize,
}

impl<S: SharedSite, M: Wait + Clock, G: Log> Growing<'_, '_, S, M, G> {
    /// Whether the site has begun anew since it was looked at last, or made more operations since then than were told. Where memory is
    /// refused that is found at the letter.
    fn has_news(&self) -> bool {
        let begun = self.beginnings.load(Ordering::SeqCst);
        if self.begun.swap(begun, Ordering::SeqCst) != begun {
            return true;
        }
        let mut seat = self.probe.lock(self.rt);
        match log_length(self.rt, self.site, &mut *seat) {
            Some(made) => {
                self.figures.site.operations.put(made);
                made > self.line.told()
            }
            None => true,
        }
    }

    /// Tells the other end which hosts are reached, as far as it wasn't told: whether that could be done.
    fn tell_hosts(&self) -> bool {
        match self.gateways.hosts(self.rt, self.alloc) {
            Ok(hosts) => self.teller.tell(self.rt, self.alloc, hosts).is_ok(),
            Err(_) => false,
        }
    }

    /// Whether the link is to end: the other end is gone, or a site is, so that what this one holds is to be told anew.
    fn is_over(&self) -> bool {
        if self.board.losses(self.rt) != self.losses {
            tell_anew(self.log, self.peer);
            return true;
        }
        self.line.is_gone() || !self.tell_hosts()
    }
}

impl<S: SharedSite, M: Wait + Clock, G: Log> Gate for Growing<'_, '_, S, M, G> {
    fn enter(&self, _connection: usize, message: u64) -> bool {
        if message == 0 {
            return true;
        }
        let mut looks: u64 = 0;
        for _ in self.rt.forever() {
            if looks % LOOKS == 0 && self.is_over() {
                return false;
            }
            if self.has_news() {
                break;
            }
            looks = looks.saturating_add(1);
            thread::sleep(self.rt, Duration::from_millis(PAUSE_MILLIS));
        }
        true
    }

    fn leave(&self, _connection: usize, message: u64) -> bool {
        let letters = message.saturating_add(1);
        self.letters.store(letters, Ordering::SeqCst);
        if let Some(peer) = self.figures.peers.get(self.place) {
            peer.letters.add();
            peer.told.put(self.line.told());
        }
        tell_sent(self.log, self.peer, message);
        if self.quiet.lock(self.rt).is_due(self.rt) {
            tell_all_sent(self.log, self.peer, letters);
        }
        true
    }
}
