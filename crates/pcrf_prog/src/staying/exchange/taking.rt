//! Links of peer sites are accepted for ever, and the letters taken that come over them.
use crate::staying::accepting::{QUIET_SECONDS, arrived, rest};
use crate::staying::exchange::journal::{
    tell_all_taken, tell_earlier, tell_stranger, tell_surplus, tell_taken, tell_taking,
    tell_taking_ended, tell_too_many, tell_unlinked, tell_unopened,
};
use crate::staying::exchange::peers::{Exchange, LETTERS, LETTERS_SECONDS};
use crate::staying::journal::{tell_no_memory, tell_unbegun};
use crate::staying::machine::Machine;
use crate::staying::reach::Reach;
use crate::staying::status::SenderFigures;
use crate::staying::working::Shared;
use log::Log;
use pcrf_serve::{Cursors, Gate, Role, SharedSite, exchange_with};
use peer_lines::{Board, Claim, Line, Link, SealFault, Sender, Side, Unlinked};
use std::alloc::AllocError;
use std::net::{IpAddr, SocketAddr, TcpListener, TcpStream};
use std::sync::atomic::{AtomicU64, Ordering};
use std::sync::{Arc, Mutex};
use watched_links::{Arrived, Quiet};

/// Lets each letter of a peer site in, and counts them.
#[derive(Drop)]
struct Taking<'b, 'r, S: Drop, M, G> {
    rt: &'r M,
    log: &'r G,
    board: &'b Board<S>,
    peer: SocketAddr,
    letters: AtomicU64,
    /// Those of all peer sites.
    all: &'r AtomicU64,
    quiet: Mutex<Quiet>,
    figures: Option<&'r SenderFigures>,
}

impl<S: Drop, M: Machine, G: Log> Gate for Taking<'_, '_, S, M, G> {
    fn enter(&self, _connection: usize, _message: u64) -> bool {
        true
    }

    fn leave(&self, _connection: usize, message: u64) -> bool {
        let letters = message.saturating_add(1);
        if message == 0 {
            self.board.told(self.rt);
        }
        self.letters.store(letters, Ordering::SeqCst);
        if let Some(sender) = self.figures {
            sender.letters.add();
        }
        self.all.fetch_add(1, Ordering::SeqCst);
        tell_taken(self.log, self.peer, message);
        if self.quiet.lock(self.rt).is_due(self.rt) {
            tell_all_taken(self.log, self.peer, letters);
        }
        true
    }
}

/// Takes the letters of a link at a seat until it ends.
fn take<'s, 'r, S: SharedSite, M: Machine, G: Log>(
    rt: &'s M,
    all: &'s Shared<'s, 'r, S, M, G>,
    seat: &mut S::Seat,
    link: Link<'r, M>,
    sender: Sender,
    peer: SocketAddr,
) {
    let place = all.exchange.place;
    let mut cursors = Cursors::start(place.number, place.epoch);
    let figures = all.furniture.figures.senders.get(usize::from(sender.site));
    if let Some(sender) = figures {
        sender.linked.put(1);
    }
    let taking = Taking {
        rt: all.rt,
        log: all.log,
        board: all.board,
        peer,
        letters: AtomicU64::new(0),
        all: &all.exchange.letters,
        quiet: Mutex::new(Quiet::of(LETTERS_SECONDS)),
        figures,
    };
    let reach = Reach {
        rt: all.rt,
        gateways: all.server.gateways,
    };
    let end = exchange_with(
        rt,
        all.server.alloc,
        all.server.site,
        seat,
        &mut cursors,
        &reach,
        Role::Listen,
        link,
        LETTERS,
        &taking,
    );
    if let Some(sender) = figures {
        sender.linked.put(0);
    }
    let letters = taking.letters.load(Ordering::SeqCst);
    tell_taking_ended(all.log, sender.site, peer, end, letters);
}

/// Takes the letters of a link that has a place, once its seat is free.
fn take_claimed<'s, 'r, S: SharedSite, M: Machine, G: Log>(
    rt: &'s M,
    all: &'s Shared<'s, 'r, S, M, G>,
    claim: Claim,
    link: Link<'r, M>,
    sender: Sender,
    peer: SocketAddr,
) {
    let mut link = link;
    let hosts = &all.exchange.hosts;
    if let Some(before) = claim.later {
        if all.exchange.disagreed.lock(rt).is_due(rt) {
            tell_earlier(all.log, sender.site, sender.epoch, before);
        }
    }
    let Some(taken) = all.board.take(rt, claim) else {
        return;
    };
    let mut seat = taken;
    tell_taking(all.log, sender.site, sender.epoch, peer);
    hosts.link(rt, sender.site);
    link.hear(hosts, sender.site);
    link.count(&all.furniture.figures.traffic);
    take(rt, all, &mut seat, link, sender, peer);
    hosts.unlink(rt, sender.site);
    all.board.give_back(rt, claim, seat);
}

/// Whether that a link isn't opened was told just now.
fn quiet_of_unopened(exchange: &Exchange, why: SealFault) -> &Mutex<Quiet> {
    match why {
        SealFault::Cut => &exchange.ended,
        _ => &exchange.closed,
    }
}

/// Whether that a link had no first letter was told just now.
fn quiet_of_unlinked(exchange: &Exchange, why: Unlinked) -> &Mutex<Quiet> {
    match why {
        Unlinked::Lost(_) => &exchange.ended,
        Unlinked::Head(_) if why.is_disagreement() => &exchange.disagreed,
        Unlinked::Head(_) => &exchange.closed,
    }
}

/// Takes the letters of a link whose line is there.
fn take_line<'s, 'r, S: SharedSite, M: Machine, G: Log>(
    rt: &'s M,
    all: &'s Shared<'s, 'r, S, M, G>,
    line: Arc<Line>,
    peer: SocketAddr,
) -> Result<(), AllocError> {
    let mut link = match all.exchange.opening.link(all.rt, &line, Side::Listener) {
        Ok(link) => link,
        Err(fault) => {
            if quiet_of_unopened(all.exchange, fault).lock(rt).is_due(rt) {
                tell_unopened(all.log, peer, fault);
            }
            return Ok(());
        }
    };
    let sender = match link.first_sender() {
        Ok(sender) => sender,
        Err(why) => {
            if quiet_of_unlinked(all.exchange, why).lock(rt).is_due(rt) {
                tell_unlinked(all.log, peer, why);
            }
            return Ok(());
        }
    };
    let _ = line.open(None);
    match all.board.claim(rt, sender, &line)? {
        Some(claim) => take_claimed(rt, all, claim, link, sender, peer),
        None => {
            drop(link);
            tell_surplus(all.log, sender.site, peer);
        }
    }
    Ok(())
}

/// Takes the letters of one link behind the other, as long as the server runs.
pub fn take_links<'s, 'r, S: SharedSite, M: Machine, G: Log>(
    rt: &'s M,
    all: &'s Shared<'s, 'r, S, M, G>,
) {
    let exchange = all.exchange;
    for _ in rt.forever() {
        let Arrived {
            stream,
            address,
            since,
        } = exchange.hall.next(rt);
        let is_made = match Arc::new(all.server.alloc, Line::of(stream, since)) {
            Ok(line) => take_line(rt, all, line, address).is_ok(),
            Err(_) => false,
        };
        if !is_made {
            tell_no_memory(all.log, address);
        }
        exchange.hall.free(rt);
    }
}

/// Whether a peer site has that address.
fn is_peers<'s, 'r, S: SharedSite, M: Machine, G: Log>(
    all: &'s Shared<'s, 'r, S, M, G>,
    address: SocketAddr,
) -> bool {
    for peer in &all.exchange.peers {
        if IpAddr::V4(*peer.ip()) == address.ip() {
            return true;
        }
    }
    false
}

/// Lets a link wait for who takes its letters, or closes it.
fn admit<'s, 'r, S: SharedSite, M: Machine, G: Log>(
    rt: &'s M,
    all: &'s Shared<'s, 'r, S, M, G>,
    stream: TcpStream,
    address: SocketAddr,
    quiet: &mut Quiet,
) {
    if !is_peers(all, address) {
        if quiet.is_due(rt) {
            tell_stranger(all.log, address);
        }
        return;
    }
    let arrived = match arrived(rt, stream, address) {
        Ok(arrived) => arrived,
        Err(error) => return tell_unbegun(all.log, address, &error),
    };
    match all.exchange.hall.admit(rt, arrived) {
        Ok(true) => {}
        Ok(false) => {
            if quiet.is_due(rt) {
                tell_too_many(all.log, address);
            }
        }
        Err(_) => tell_no_memory(all.log, address),
    }
}

/// Accepts the links of peer sites, as long as the server runs.
pub fn accept_links<'s, 'r, S: SharedSite, M: Machine, G: Log>(
    rt: &'s M,
    all: &'s Shared<'s, 'r, S, M, G>,
    listener: &TcpListener,
) {
    let mut quiet = Quiet::of(QUIET_SECONDS);
    let mut failed = Quiet::of(QUIET_SECONDS);
    for _ in rt.forever() {
        match listener.accept() {
            Ok((stream, address)) => admit(rt, all, stream, address, &mut quiet),
            Err(error) => rest(rt, &error, &mut failed, all.log),
        }
    }
}
