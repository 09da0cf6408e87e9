//! What a server that stays counts of itself.
use crate::staying::journal::is_lost;
use crate::staying::status::history::History;
use pcrf_serve::LinkEnd;
use peer_lines::LetterTraffic;
use site_looks::Meters;
use site_status::{CodeCounts, Counter, Gauge};
use std::alloc::{AllocError, Global};
use std::time::{Clock, Instant};
use watched_links::{Cause, MessageCounts};

/// How many nanoseconds a second has.
const NANOS: u64 = 1_000_000_000;

/// How many numbers sites have.
const SITES: usize = 16;

/// What is counted of the connections of gateways and application functions.
#[derive(Drop)]
pub struct ConnectionFigures {
    /// How many got a seat.
    pub seated: Counter,
    /// How many of them ended.
    pub ended: Counter,
    /// How many of those were lost, or ended by the site.
    pub lost: Counter,
    /// How many were closed since all seats were taken.
    pub refused: Counter,
}

/// What is counted of the site and of what it tells hosts.
#[derive(Drop)]
pub struct SiteFigures {
    /// 1 once it serves.
    pub serving: Gauge,
    /// How many operations it made itself in its epoch, when that was looked at last.
    pub operations: Gauge,
    /// How often it began its next epoch in place.
    pub begun: Counter,
    /// How many capabilities exchanges were refused.
    pub strangers: Counter,
    /// How many re-authorisation requests could not be written.
    pub unwritten: Counter,
    /// The codes of those that were answered by none of success, 0 where an answer had none.
    pub refusals: CodeCounts,
}

/// How many sessions the site knows, as they were counted last.
#[derive(Drop)]
pub struct SessionFigures {
    /// For how many nanoseconds the server had run when they were; 0 before they were counted first.
    pub since: Gauge,
    /// Live sessions of gateways, and ended ones.
    pub gateways_live: Gauge,
    pub gateways_ended: Gauge,
    /// Live sessions of application functions, ended ones, and how many of the live ones are bound.
    pub calls_live: Gauge,
    pub calls_ended: Gauge,
    pub calls_bound: Gauge,
    /// Sessions that ended and are yet to be forgotten, and the second of the server's run in which the oldest of them was noted, or in
    /// which that was looked at last, where there is none.
    pub ended_kept: Gauge,
    pub ended_since: Gauge,
    /// Sessions that were forgotten.
    pub forgotten: Counter,
}

/// What is counted of the letters to a peer site.
#[derive(Drop)]
pub struct PeerFigures {
    /// 1 while there is a link.
    pub linked: Gauge,
    /// How many letters it acknowledged.
    pub letters: Counter,
    /// How many operations of the epoch it was told when it acknowledged last.
    pub told: Gauge,
}

/// What is counted of the letters of a site with some number.
#[derive(Drop)]
pub struct SenderFigures {
    /// 1 while there is a link.
    pub linked: Gauge,
    /// How many letters were taken.
    pub letters: Counter,
}

/// What a server that stays counts of itself.
#[derive(Drop)]
pub struct Figures {
    /// When it started, if the machine tells the time.
    pub since: Option<Instant>,
    pub site: SiteFigures,
    pub connections: ConnectionFigures,
    /// The messages of these.
    pub messages: MessageCounts,
    /// How long calls of the site took, and what they brought.
    pub meters: Meters,
    /// How many sessions there are.
    pub sessions: SessionFigures,
    /// The letters of its links.
    pub traffic: LetterTraffic,
    /// What was seen every few seconds of the last minutes.
    pub history: History,
    /// Of each peer site that it was told of, in that order.
    pub peers: Vec<PeerFigures>,
    /// Of each number that a site can have.
    pub senders: Vec<SenderFigures>,
    /// The codes by which it answered over HTTP.
    pub asks: CodeCounts,
}

impl ConnectionFigures {
    /// There were none.
    fn start() -> ConnectionFigures {
        ConnectionFigures {
            seated: Counter::start(),
            ended: Counter::start(),
            lost: Counter::start(),
            refused: Counter::start(),
        }
    }

    /// One ended so, for that cause if the site ended it.
    pub fn end(&self, end: LinkEnd, cause: Option<Cause>) {
        self.ended.add();
        if cause.is_some() || is_lost(end) {
            self.lost.add();
        }
    }
}

impl SiteFigures {
    /// Nothing happened.
    fn start(alloc: Global) -> Result<SiteFigures, AllocError> {
        let refusals = CodeCounts::start(alloc)?;
        Ok(SiteFigures {
            serving: Gauge::start(),
            operations: Gauge::start(),
            begun: Counter::start(),
            strangers: Counter::start(),
            unwritten: Counter::start(),
            refusals,
        })
    }
}

impl SessionFigures {
    /// None was counted.
    fn start() -> SessionFigures {
        SessionFigures {
            since: Gauge::start(),
            gateways_live: Gauge::start(),
            gateways_ended: Gauge::start(),
            calls_live: Gauge::start(),
            calls_ended: Gauge::start(),
            calls_bound: Gauge::start(),
            ended_kept: Gauge::start(),
            ended_since: Gauge::start(),
            forgotten: Counter::start(),
        }
    }
}

/// Those of so many peer sites.
fn peer_figures(alloc: Global, count: usize) -> Result<Vec<PeerFigures>, AllocError> {
    let mut peers = Vec::with_capacity(alloc, count)?;
    for _ in 0..count {
        peers.push(PeerFigures {
            linked: Gauge::start(),
            letters: Counter::start(),
            told: Gauge::start(),
        })?;
    }
    Ok(peers)
}

/// Those of each number of a site.
fn sender_figures(alloc: Global) -> Result<Vec<SenderFigures>, AllocError> {
    let mut senders = Vec::with_capacity(alloc, SITES)?;
    for _ in 0..SITES {
        senders.push(SenderFigures {
            linked: Gauge::start(),
            letters: Counter::start(),
        })?;
    }
    Ok(senders)
}

impl Figures {
    /// Of a server with so many peer sites that starts now, and that can be asked over HTTP or can't.
    pub fn start<C: Clock>(
        clock: &C,
        alloc: Global,
        peers: usize,
        is_asked: bool,
    ) -> Result<Figures, AllocError> {
        let site = SiteFigures::start(alloc)?;
        // who has peers may not forget what they may hold as live
        let is_alone = peers == 0;
        let peers = peer_figures(alloc, peers)?;
        let senders = sender_figures(alloc)?;
        let asks = CodeCounts::start(alloc)?;
        let messages = MessageCounts::start(alloc)?;
        let meters = Meters::start(alloc, is_asked, is_alone)?;
        let history = History::start(alloc)?;
        Ok(Figures {
            since: Instant::now(clock).ok(),
            site,
            connections: ConnectionFigures::start(),
            messages,
            meters,
            sessions: SessionFigures::start(),
            traffic: LetterTraffic::start(),
            history,
            peers,
            senders,
            asks,
        })
    }

    /// A link to one of the peer sites began, or ended.
    pub fn link(&self, place: usize, is_there: bool) {
        if let Some(peer) = self.peers.get(place) {
            peer.linked.put(u64::from(is_there));
        }
    }

    /// The site began its next epoch in place: nobody was told anything of that yet.
    pub fn begin_anew(&self) {
        self.site.begun.add();
        self.site.operations.put(0);
        for peer in &self.peers {
            peer.told.put(0);
        }
    }

    /// For how many nanoseconds it runs; 0 where the machine told no time.
    pub fn uptime<C: Clock>(&self, clock: &C) -> u64 {
        let Some(since) = self.since else {
            return 0;
        };
        match since.elapsed(clock) {
            Ok(elapsed) => u64::try_from(elapsed.as_nanos()).unwrap_or(u64::MAX),
            Err(_) => 0,
        }
    }

    /// For how many whole seconds it runs; 0 where the machine told no time.
    pub fn seconds<C: Clock>(&self, clock: &C) -> u64 {
        self.uptime(clock) / NANOS
    }
}
