//! What an operator is told of the exchange with peer sites.
use crate::socket_server::Ending;
use log::{Log, debug, info, warn};
use pcrf_serve::LinkEnd;
use peer_lines::{SealFault, Unlinked};
use std::io::{self, ErrorKind};
use std::net::SocketAddr;

/// What stands before each line as its target.
const TARGET: &str = "pcrf";

/// A peer site can't be reached, and is dialled again.
pub fn tell_unreachable<G: Log>(log: &G, peer: SocketAddr, why: &io::Error) {
    warn!(log; target: TARGET, "peer site {peer} can't be reached, and is dialled again: {why}");
}

/// A link of a peer site isn't opened.
pub fn tell_unsealed<G: Log>(log: &G, peer: SocketAddr, why: SealFault) {
    warn!(log; target: TARGET, "the link with peer site {peer} was closed: {why}");
}

/// A link that somebody dialled isn't opened. Who only looks whether the port is there is no reason to warn.
pub fn tell_unopened<G: Log>(log: &G, peer: SocketAddr, why: SealFault) {
    match why {
        SealFault::Cut => tell_ended_early(log, peer),
        fault => warn!(log; target: TARGET, "the link from {peer} was closed: {fault}"),
    }
}

/// A link ended before its first letter.
fn tell_ended_early<G: Log>(log: &G, peer: SocketAddr) {
    info!(log; target: TARGET, "the link from {peer} ended before its first letter");
}

/// Letters are sent to a peer site no more.
pub fn tell_sending_ended<G: Log>(log: &G, peer: SocketAddr, end: LinkEnd, letters: u64) {
    warn!(log; target: TARGET, "letters to peer site {peer} ended behind {letters}: {}", Ending(end));
}

/// A peer site is to be told anew all that this site holds, since another one is gone.
pub fn tell_anew<G: Log>(log: &G, peer: SocketAddr) {
    info!(log; target: TARGET, "a site is gone that may have told something to this one alone: peer site {peer} is told all anew");
}

/// Letters of a peer site are taken no more.
pub fn tell_taking_ended<G: Log>(log: &G, site: u8, peer: SocketAddr, end: LinkEnd, letters: u64) {
    warn!(log; target: TARGET, "letters of site {site} at {peer} ended behind {letters}: {}", Ending(end));
}

/// Letters of a peer site are taken.
pub fn tell_taking<G: Log>(log: &G, site: u8, epoch: u16, peer: SocketAddr) {
    info!(log; target: TARGET, "site {site} sends letters from {peer}, in its epoch {epoch}");
}

/// A letter was acknowledged by a peer site.
pub fn tell_sent<G: Log>(log: &G, peer: SocketAddr, letter: u64) {
    debug!(log; target: TARGET, "letter {letter} to peer site {peer} was acknowledged");
}

/// A letter of a peer site was taken and acknowledged.
pub fn tell_taken<G: Log>(log: &G, peer: SocketAddr, letter: u64) {
    debug!(log; target: TARGET, "letter {letter} from {peer} was taken");
}

/// How many letters a peer site has acknowledged so far.
pub fn tell_all_sent<G: Log>(log: &G, peer: SocketAddr, letters: u64) {
    info!(log; target: TARGET, "peer site {peer} has acknowledged {letters} letters of this link");
}

/// How many letters of a peer site were taken so far.
pub fn tell_all_taken<G: Log>(log: &G, peer: SocketAddr, letters: u64) {
    info!(log; target: TARGET, "{letters} letters were taken of the link from {peer}");
}

/// A link came from an address that is no peer site's.
pub fn tell_stranger<G: Log>(log: &G, peer: SocketAddr) {
    warn!(log; target: TARGET, "the link from {peer} was closed: no peer site has this address");
}

/// A link came while too many were open.
pub fn tell_too_many<G: Log>(log: &G, peer: SocketAddr) {
    warn!(log; target: TARGET, "the link from {peer} was closed: too many are open");
}

/// A link is closed before its first letter.
pub fn tell_unlinked<G: Log>(log: &G, peer: SocketAddr, why: Unlinked) {
    match why {
        Unlinked::Head(fault) => {
            warn!(log; target: TARGET, "the link from {peer} was closed: {fault}");
        }
        Unlinked::Lost(ErrorKind::TimedOut) | Unlinked::Lost(ErrorKind::WouldBlock) => {
            warn!(log; target: TARGET, "the link from {peer} was closed: no letter came in time");
        }
        Unlinked::Lost(_) => tell_ended_early(log, peer),
    }
}

/// A link is of one site more than there are peer sites.
pub fn tell_surplus<G: Log>(log: &G, site: u8, peer: SocketAddr) {
    warn!(log; target: TARGET, "the link of site {site} from {peer} was closed: there are as many others as peer sites");
}

/// The epoch of a peer site is less than it was.
pub fn tell_earlier<G: Log>(log: &G, site: u8, epoch: u16, before: u16) {
    warn!(log; target: TARGET, "site {site} is in its epoch {epoch}, and was in {before} before: what it makes is taken for known; start it again with a greater epoch than {before}");
}
