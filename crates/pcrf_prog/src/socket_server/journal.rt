//! What an operator is told of a server: a line for each thing, if anybody listens.
use crate::socket_server::ending::Ending;
use dia_base::Origin;
use dia_base::codes::results::SUCCESS;
use log::{Log, error, info, warn};
use pcrf_serve::{LinkEnd, Observer};
use pcrf_values::{DiameterIdentity, GxSid};
use std::io;
use std::net::SocketAddr;
use std::sync::atomic::{AtomicBool, Ordering};
use watched_links::Printable;

/// What stands before each line as its target.
const TARGET: &str = "pcrf";

/// What is told of a server whose history has room for so many entries.
#[derive(Drop)]
pub struct Journal<'a, G> {
    log: &'a G,
    limit: usize,
    /// It was told that the history is nearly full.
    is_near: AtomicBool,
    /// It was told that the history is full.
    is_full: AtomicBool,
}

impl<'a, G: Log> Journal<'a, G> {
    /// Tells that log.
    pub fn of(log: &'a G, limit: usize) -> Journal<'a, G> {
        Journal {
            log,
            limit,
            is_near: AtomicBool::new(false),
            is_full: AtomicBool::new(false),
        }
    }

    /// Nine tenths of the history.
    fn near(&self) -> usize {
        self.limit - self.limit / 10
    }
}

impl<G: Log> Observer for Journal<'_, G> {
    fn exchanged(&self, _connection: usize, peer: &Origin, code: u32) {
        tell_exchanged(self.log, &peer.host, &peer.realm, code);
    }

    fn push_refused(&self, _hop_id: u32, session: &GxSid, code: Option<u32>) {
        tell_refused_push(self.log, session, code);
    }

    fn unreached(&self, host: &DiameterIdentity) {
        tell_unreached(self.log, host);
    }

    fn entered(&self, entries: usize) {
        if entries >= self.near() && !self.is_near.swap(true, Ordering::SeqCst) {
            tell_near(self.log, entries, self.limit);
        }
    }

    fn history_full(&self) {
        if !self.is_full.swap(true, Ordering::SeqCst) {
            tell_full(self.log);
        }
    }

    fn ended(&self, connection: usize, end: LinkEnd) {
        tell_ended(self.log, connection, end);
    }
}

/// A peer's capabilities exchange was answered by that Result-Code.
pub fn tell_exchanged<G: Log>(
    log: &G,
    host: &DiameterIdentity,
    realm: &DiameterIdentity,
    code: u32,
) {
    let (host, realm) = (Printable(host.as_slice()), Printable(realm.as_slice()));
    if code == SUCCESS {
        info!(log; target: TARGET, "{host} of {realm} exchanged capabilities");
    } else {
        warn!(log; target: TARGET, "{host} of {realm} was refused by {code}: it has no application in common");
    }
}

/// A gateway didn't do what a push asks for. The site counts the rules as told all the same.
fn tell_refused_push<G: Log>(log: &G, session: &GxSid, code: Option<u32>) {
    let session = Printable(session.as_slice());
    match code {
        Some(code) => {
            warn!(log; target: TARGET, "the re-authorisation of {session} was answered by {code}; its rules stand as told all the same");
        }
        None => {
            warn!(log; target: TARGET, "the re-authorisation of {session} was answered without a code; its rules stand as told all the same");
        }
    }
}

/// A re-authorisation request can't be written.
pub fn tell_unreached<G: Log>(log: &G, host: &DiameterIdentity) {
    let host = Printable(host.as_slice());
    warn!(log; target: TARGET, "a re-authorisation request to {host} could not be written; it gets none until it connects again");
}

/// The history is nearly full.
fn tell_near<G: Log>(log: &G, entries: usize, limit: usize) {
    warn!(log; target: TARGET, "the history has {entries} of {limit} entries");
}

/// The history is full.
fn tell_full<G: Log>(log: &G) {
    error!(log; target: TARGET, "the history is full; requests are answered 3004 from now on");
}

/// The server has bound its addresses.
pub fn tell_listens<G: Log>(log: &G, listen: SocketAddr, exchange: SocketAddr) {
    info!(log; target: TARGET, "listening at {listen}, and for peer sites at {exchange}");
}

/// A peer site was dialled.
pub fn tell_dialled<G: Log>(log: &G, peer: SocketAddr) {
    info!(log; target: TARGET, "peer site {peer} was dialled");
}

/// A peer site dialled.
pub fn tell_dialling<G: Log>(log: &G, peer: SocketAddr) {
    info!(log; target: TARGET, "peer site {peer} connected");
}

/// A gateway or an application function connected.
pub fn tell_connected<G: Log>(log: &G, connection: usize, peer: SocketAddr) {
    info!(log; target: TARGET, "connection {connection} from {peer}");
}

/// A connection ended.
fn tell_ended<G: Log>(log: &G, connection: usize, end: LinkEnd) {
    info!(log; target: TARGET, "connection {connection} ended: {}", Ending(end));
}

/// A letter with so many operations goes to a peer site.
pub fn tell_sending<G: Log>(log: &G, operations: u32, peer: SocketAddr) {
    info!(log; target: TARGET, "peer site {peer} is told {operations} of the site's operations");
}

/// A letter with all that the site holds goes to a peer site.
pub fn tell_sending_all<G: Log>(log: &G, peer: SocketAddr) {
    info!(log; target: TARGET, "peer site {peer} is told all that the site holds");
}

/// A letter was acknowledged by a peer site.
pub fn tell_sent<G: Log>(log: &G, letter: u64, peer: SocketAddr) {
    info!(log; target: TARGET, "letter {letter} to peer site {peer} was acknowledged");
}

/// A letter of a peer site was taken and acknowledged.
pub fn tell_taken<G: Log>(log: &G, letter: u64, peer: SocketAddr) {
    info!(log; target: TARGET, "letter {letter} of peer site {peer} was taken");
}

/// Letters are sent to a peer site no more.
pub fn tell_sending_ended<G: Log>(log: &G, peer: SocketAddr, end: LinkEnd) {
    info!(log; target: TARGET, "letters to peer site {peer} ended: {}", Ending(end));
}

/// Letters of a peer site are taken no more.
pub fn tell_taking_ended<G: Log>(log: &G, peer: SocketAddr, end: LinkEnd) {
    info!(log; target: TARGET, "letters of peer site {peer} ended: {}", Ending(end));
}

/// The machine tells no time or gives no random bytes.
pub fn tell_no_start<G: Log>(log: &G, why: &io::Error) {
    error!(log; target: TARGET, "the time or random bytes can't be had: {why}");
}
