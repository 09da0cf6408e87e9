//! A peer site is dialled, and dialled again, as long as the server runs.
use crate::staying::exchange::growing::Growing;
use crate::staying::exchange::journal::{tell_sending_ended, tell_unreachable, tell_unsealed};
use crate::staying::exchange::peers::{LETTERS, LETTERS_SECONDS};
use crate::staying::machine::Machine;
use crate::staying::reach::Reach;
use crate::staying::sockets::ready;
use crate::staying::working::Shared;
use log::Log;
use pcrf_serve::{Cursors, LinkEnd, Role, SharedSite, exchange_with};
use peer_lines::{Line, Link, Side, Teller};
use std::alloc::Global;
use std::io::{self, ErrorKind};
use std::net::{SocketAddr, TcpStream};
use std::sync::atomic::{AtomicU64, Ordering};
use std::sync::{Arc, Mutex};
use std::thread;
use std::time::{Duration, Instant};
use watched_links::Quiet;

/// How many milliseconds a server waits before it dials again, at first and at most.
const FIRST_PAUSE: u64 = 100;

const LAST_PAUSE: u64 = 5_000;

/// How many seconds a peer site has to answer a dial, and to acknowledge a letter.
const ANSWER_SECONDS: u64 = 5;

const ACKNOWLEDGE_SECONDS: u64 = 30;

/// How many it has at most for a link's first letter, for which each that it didn't acknowledge in time gives it twice as many: what a site
/// takes whole may take it longer.
const MOST_ACKNOWLEDGE_SECONDS: u64 = 480;

/// For how many seconds it isn't told again that a peer site can't be reached or that a link with it ended behind no letter.
const UNREACHABLE_SECONDS: u64 = 60;

/// A line to a peer site.
fn dialled<M: Machine>(rt: &M, alloc: Global, peer: SocketAddr) -> io::Result<Arc<Line>> {
    let limit = Duration::from_secs(ANSWER_SECONDS);
    let stream = TcpStream::connect_timeout(rt, &peer, limit)?;
    ready(&stream)?;
    let since = Instant::now(rt)?;
    match Arc::new(alloc, Line::of(stream, since)) {
        Ok(line) => Ok(line),
        Err(_) => Err(io::Error::from(ErrorKind::OutOfMemory)),
    }
}

/// What lets letters to a peer site go over a link.
fn growing_of<'b, 'r, S: SharedSite, M: Machine, G: Log>(
    rt: &M,
    all: &'b Shared<'b, 'r, S, M, G>,
    probe: &'b Mutex<S::Seat>,
    line: Arc<Line>,
    teller: Arc<Teller>,
    peer: SocketAddr,
    place: usize,
) -> Growing<'b, 'r, S, M, G> {
    let beginnings = &all.furniture.beginnings;
    Growing {
        rt: all.rt,
        log: all.log,
        site: all.server.site,
        probe,
        line,
        alloc: all.server.alloc,
        gateways: all.server.gateways,
        teller,
        board: all.board,
        losses: all.board.losses(rt),
        peer,
        letters: AtomicU64::new(0),
        beginnings,
        begun: AtomicU64::new(beginnings.load(Ordering::SeqCst)),
        quiet: Mutex::new(Quiet::of(LETTERS_SECONDS)),
        figures: &all.furniture.figures,
        place,
    }
}

/// Sends letters over a link until it ends so.
fn send_on<'s, 'r, S: SharedSite, M: Machine, G: Log>(
    rt: &'s M,
    all: &'s Shared<'s, 'r, S, M, G>,
    seat: &mut S::Seat,
    link: Link<'r, M>,
    growing: &Growing<'_, 'r, S, M, G>,
) -> LinkEnd {
    let own = all.exchange.place;
    let mut cursors = Cursors::start(own.number, own.epoch);
    let reach = Reach {
        rt: all.rt,
        gateways: all.server.gateways,
    };
    exchange_with(
        rt,
        all.server.alloc,
        all.server.site,
        seat,
        &mut cursors,
        &reach,
        Role::Dial,
        link,
        LETTERS,
        growing,
    )
}

/// Sends letters over a link until it ends so: how many were acknowledged.
fn send<'s, 'r, S: SharedSite, M: Machine, G: Log>(
    rt: &'s M,
    all: &'s Shared<'s, 'r, S, M, G>,
    seat: &mut S::Seat,
    probe: &Mutex<S::Seat>,
    line: Arc<Line>,
    link: Link<'r, M>,
    peer: SocketAddr,
    place: usize,
) -> (u64, LinkEnd) {
    let Ok(teller) = link.teller() else {
        return (0, LinkEnd::NoMemory);
    };
    let mut link = link;
    let figures = &all.furniture.figures;
    link.count(&figures.traffic);
    figures.link(place, true);
    let growing = growing_of(rt, all, probe, line, teller, peer, place);
    let end = send_on(rt, all, seat, link, &growing);
    figures.link(place, false);
    (growing.letters.load(Ordering::SeqCst), end)
}

/// Opens a line and sends letters over it: how many were acknowledged, and how it ended, if it was opened. That isn't told too often where
/// there were none.
fn exchange<'s, 'r, S: SharedSite, M: Machine, G: Log>(
    rt: &'s M,
    all: &'s Shared<'s, 'r, S, M, G>,
    seat: &mut S::Seat,
    probe: &Mutex<S::Seat>,
    line: Arc<Line>,
    peer: SocketAddr,
    place: usize,
    patience: u64,
    quiet: &mut Quiet,
) -> Option<(u64, LinkEnd)> {
    let link = match all.exchange.opening.link(all.rt, &line, Side::Dialler) {
        Ok(link) => link,
        Err(fault) => {
            if quiet.is_due(rt) {
                tell_unsealed(all.log, peer, fault);
            }
            return None;
        }
    };
    let _ = line.open(Some(Duration::from_secs(patience)));
    let (letters, end) = send(rt, all, seat, probe, line, link, peer, place);
    if letters > 0 || quiet.is_due(rt) {
        tell_sending_ended(all.log, peer, end, letters);
    }
    Some((letters, end))
}

/// Sends that one of the peer sites letters, and dials it again whenever a link has ended, as long as the server runs.
pub fn dial_on<'s, 'r, S: SharedSite, M: Machine, G: Log>(
    rt: &'s M,
    all: &'s Shared<'s, 'r, S, M, G>,
    seat: S::Seat,
    probe: S::Seat,
    peer: SocketAddr,
    place: usize,
) {
    let mut seat = seat;
    let probe = Mutex::new(probe);
    let mut unreached = Quiet::of(UNREACHABLE_SECONDS);
    let mut ended = Quiet::of(UNREACHABLE_SECONDS);
    let mut pause = FIRST_PAUSE;
    let mut patience = ACKNOWLEDGE_SECONDS;
    for _ in rt.forever() {
        let letters = match dialled(rt, all.server.alloc, peer) {
            Ok(line) => {
                exchange(
                    rt, all, &mut seat, &probe, line, peer, place, patience, &mut ended,
                )
            }
            Err(error) => {
                if unreached.is_due(rt) {
                    tell_unreachable(all.log, peer, &error);
                }
                None
            }
        };
        match letters {
            Some((0, LinkEnd::ReadFailed)) => {
                patience = patience.saturating_mul(2).min(MOST_ACKNOWLEDGE_SECONDS);
            }
            Some((letters, _)) if letters > 0 => {
                pause = FIRST_PAUSE;
                patience = ACKNOWLEDGE_SECONDS;
                unreached = Quiet::of(UNREACHABLE_SECONDS);
                ended = Quiet::of(UNREACHABLE_SECONDS);
            }
            _ => {}
        }
        thread::sleep(rt, Duration::from_millis(pause));
        pause = pause.saturating_mul(2).min(LAST_PAUSE);
    }
}
