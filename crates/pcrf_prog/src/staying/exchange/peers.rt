//! What a server knows of the exchange with its peer sites.
use crate::socket_server::SiteEpoch;
use peer_lines::{Hearing, Opening};
use std::net::SocketAddrV4;
use std::sync::Mutex;
use std::sync::atomic::AtomicU64;
use watched_links::{Hall, Quiet};

/// How many letters one link has at most.
pub const LETTERS: u32 = u32::MAX;

/// For how many seconds it isn't told again how many letters a link had.
pub const LETTERS_SECONDS: u64 = 10;

/// What a server knows of the exchange with its peer sites.
#[derive(Drop)]
pub struct Exchange {
    /// Which site it is.
    pub place: SiteEpoch,
    /// How its links are opened.
    pub opening: Opening,
    /// Where peer sites take letters.
    pub peers: Vec<SocketAddrV4>,
    /// Which hosts the sites say that they reach.
    pub hosts: Hearing,
    /// For how many milliseconds it is borne that a site has no link, before its gateways' sessions are taken over.
    pub patience: u64,
    /// How many letters of all peer sites were taken.
    pub letters: AtomicU64,
    /// Where links wait that were accepted.
    pub hall: Hall,
    /// When it was told last that a link was closed before its first letter.
    pub closed: Mutex<Quiet>,
    /// When it was told last that one ended before its first letter.
    pub ended: Mutex<Quiet>,
    /// When it was told last that sites disagree.
    pub disagreed: Mutex<Quiet>,
}
