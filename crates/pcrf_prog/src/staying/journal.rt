//! What an operator is told of a server that stays: a line for each thing, if anybody listens.
use crate::socket_server::{Ending, tell_exchanged, tell_unreached};
use crate::staying::chairs::Chair;
use crate::staying::keeping::Unbegun;
use crate::staying::retelling::Losses;
use crate::staying::status::SiteFigures;
use dia_base::Origin;
use dia_base::codes::results::SUCCESS;
use log::{Log, error, info, warn};
use pcrf_serve::{LinkEnd, Observer};
use pcrf_values::{DiameterIdentity, GxSid};
use std::io;
use std::net::SocketAddr;
use std::sync::Wait;
use std::time::Clock;
use watched_links::{Cause, Guests, Printable, Refused, SentPushes};

/// What stands before each line as its target.
const TARGET: &str = "pcrf";

/// What stands for the names of rules whose push isn't kept any more.
const UNKNOWN_RULES: &str = "rules that aren't known any more";

/// Tells what happens at connections, and notes whose capabilities exchange was accepted.
#[derive(Drop)]
pub struct Journal<'r, M, G> {
    pub(crate) rt: &'r M,
    pub(crate) log: &'r G,
    pub(crate) chairs: &'r [Chair],
    pub(crate) sent: &'r SentPushes,
    pub(crate) guests: &'r Guests,
    pub(crate) figures: &'r SiteFigures,
    pub(crate) losses: &'r Losses,
}

impl<M: Wait + Clock, G: Log> Observer for Journal<'_, M, G> {
    fn exchanged(&self, connection: usize, peer: &Origin, code: u32) {
        if let Some(chair) = self.chairs.get(connection) {
            chair.exchanged(code == SUCCESS);
            if code == SUCCESS {
                chair.seat(self.rt, self.guests, &peer.host);
            }
        }
        if code != SUCCESS {
            self.figures.strangers.add();
        }
        tell_exchanged(self.log, &peer.host, &peer.realm, code);
    }

    fn push_refused(&self, hop_id: u32, session: &GxSid, code: Option<u32>) {
        self.figures.refusals.add(code.unwrap_or(0));
        let refused = self.losses.refuse(self.rt, session);
        match self.sent.names(self.rt, hop_id) {
            Some(names) => tell_refused_rules(self.log, session, names.as_str(), code, refused),
            None => tell_refused_rules(self.log, session, UNKNOWN_RULES, code, refused),
        }
    }

    fn push_accepted(&self, session: &GxSid) {
        self.losses.accept(self.rt, session);
    }

    fn unreached(&self, host: &DiameterIdentity) {
        self.figures.unwritten.add();
        tell_unreached(self.log, host);
    }
}

/// What comes of a push that was refused.
fn outcome_of(refused: Refused) -> &'static str {
    match refused {
        Refused::ToldAgain => "all rules of the session are told again soon",
        Refused::GivenUp =>
            "they were told again: these rules stand as told until the session's rules change",
        Refused::Stands => "these rules stand as told all the same",
    }
}

/// A gateway didn't do what a push asks for of these rules.
fn tell_refused_rules<G: Log>(
    log: &G,
    session: &GxSid,
    names: &str,
    code: Option<u32>,
    refused: Refused,
) {
    let session = Printable(session.as_slice());
    let outcome = outcome_of(refused);
    match code {
        Some(code) => {
            warn!(log; target: TARGET, "the re-authorisation of {session} with {names} was answered by {code}; {outcome}");
        }
        None => {
            warn!(log; target: TARGET, "the re-authorisation of {session} with {names} was answered without a code; {outcome}");
        }
    }
}

/// Sessions are told again whose gateways refused something of them.
pub fn tell_told_again<G: Log>(log: &G, count: u64) {
    warn!(log; target: TARGET, "{count} sessions are told all their rules again, of which their gateways refused some");
}

/// Whether a connection that ended so was lost.
pub fn is_lost(end: LinkEnd) -> bool {
    match end {
        LinkEnd::Closed | LinkEnd::Disconnected | LinkEnd::Gate => false,
        LinkEnd::Cut
        | LinkEnd::Frame(_)
        | LinkEnd::ReadFailed
        | LinkEnd::WriteFailed
        | LinkEnd::NoMemory
        | LinkEnd::Letter(_)
        | LinkEnd::HistoryFull => true,
    }
}

/// A connection ended.
pub fn tell_ended<G: Log>(
    log: &G,
    connection: usize,
    peer: SocketAddr,
    end: LinkEnd,
    cause: Option<Cause>,
) {
    if let Some(cause) = cause {
        warn!(log; target: TARGET, "connection {connection} from {peer} was closed: {cause}");
    } else if is_lost(end) {
        warn!(log; target: TARGET, "connection {connection} from {peer} was lost: {}", Ending(end));
    } else {
        info!(log; target: TARGET, "connection {connection} from {peer} ended: {}", Ending(end));
    }
}

/// Something may wait for a host that isn't there.
pub fn tell_missed<G: Log>(log: &G, host: &DiameterIdentity) {
    let host = Printable(host.as_slice());
    warn!(log; target: TARGET, "{host} isn't connected, and something may wait for it: it is told once it is back");
}

/// A connection couldn't be begun.
pub fn tell_unbegun<G: Log>(log: &G, peer: SocketAddr, why: &io::Error) {
    warn!(log; target: TARGET, "the connection from {peer} was closed: {why}");
}

/// A connection was closed since all seats are taken.
pub fn tell_crowded<G: Log>(log: &G, peer: SocketAddr, seats: usize) {
    warn!(log; target: TARGET, "the connection from {peer} was closed: all {seats} are in use");
}

/// No connection could be accepted.
pub fn tell_unaccepted<G: Log>(log: &G, why: &io::Error) {
    warn!(log; target: TARGET, "no connection could be accepted: {why}");
}

/// A seat has no worker.
pub fn tell_unstaffed<G: Log>(log: &G, seat: usize) {
    warn!(log; target: TARGET, "no thread could be started for seat {seat}: it serves nobody");
}

/// What the site holds could not be shown.
pub fn tell_unshown<G: Log>(log: &G) {
    warn!(log; target: TARGET, "what the site holds could not be shown");
}

/// The next epoch was begun in place.
pub fn tell_begun_anew<G: Log>(log: &G, epoch: u16, made: u64) {
    info!(log; target: TARGET, "epoch {epoch} began in place, behind {made} operations of the one before");
}

/// The next epoch is not begun.
pub fn tell_not_begun<G: Log>(log: &G, made: u64, why: Unbegun) {
    warn!(log; target: TARGET, "the next epoch isn't begun, behind {made} operations of this one: {why}");
}

/// The next epoch will never be begun.
pub fn tell_unkept<G: Log>(log: &G) {
    warn!(log; target: TARGET, "no thread could be started for the epochs: the site stays in this one");
}

/// Nobody counts sessions.
pub fn tell_uncounted<G: Log>(log: &G) {
    warn!(log; target: TARGET, "no thread could be started that counts sessions: their figures are missing");
}

/// Sessions of gateways that went over to this site were taken over.
pub fn tell_taken_over<G: Log>(log: &G, count: u64) {
    info!(log; target: TARGET, "{count} sessions were taken over, whose gateways are connected here and not at their homes");
}

/// None could be.
pub fn tell_not_taken_over<G: Log>(log: &G) {
    warn!(log; target: TARGET, "no sessions could be taken over: memory ran out");
}

/// None ever will be.
pub fn tell_no_taking_over<G: Log>(log: &G) {
    warn!(log; target: TARGET, "no thread could be started for gateways that go over: no sessions are taken over");
}

/// No letters go to a peer site.
pub fn tell_unlinked_peer<G: Log>(log: &G, peer: SocketAddr) {
    warn!(log; target: TARGET, "no thread could be started for peer site {peer}: no letters go to it");
}

/// No memory was left for a connection.
pub fn tell_no_memory<G: Log>(log: &G, peer: SocketAddr) {
    warn!(log; target: TARGET, "the connection from {peer} was closed: memory ran out");
}

/// An address can't be bound, and why.
pub fn tell_unbound<G: Log>(log: &G, address: &str, why: &io::Error) {
    error!(log; target: TARGET, "{address} can't be bound: {why}");
}

/// A text is no address.
pub fn tell_no_address<G: Log>(log: &G, address: &str) {
    error!(log; target: TARGET, "{address} is no IPv4 address with a port from 0 to 65535");
}
