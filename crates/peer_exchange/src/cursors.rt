//! The cursors of a site: of each maker, and of each peer.
ghost use Rattle.std.specs.Prelude.{◌≡◌, ◌≤◌, ◌<◌};
ghost use Rattle.pcrf_model.specs.Cursors.{ack_of, cursors_after_ack, letter_saying, maker_cursor, peer_cursor, start_cursors, cursors_after_letter};
ghost use Rattle.peer_exchange.specs.Values.{body_value};
ghost use Rattle.pcrf_values.specs.Limits.{site_limit};
ghost use Rattle.pcrf_model.specs.Worlds.{ByCursors, cursors_after};
ghost use Rattle.peer_exchange.specs.Making.{if_placed};

use crate::ack::Ack;
use crate::body::Body;
use crate::cursor::Cursor;
use crate::letter::Letter;
use pcrf_values::limits::SITE_LIMIT;
use std::marker::Model;

/// How many sites there may be.
const SITES: usize = SITE_LIMIT as usize;

/// What a site took of each maker, and what each peer said that it took of the site; all begins anew with each epoch of the
/// site. Contracts see it as a `CursorsValue`.
#[derive(Drop)]
pub struct Cursors {
    site: u8,
    epoch: u16,
    makers: [Cursor; SITES],
    peers: [Option<Cursor>; SITES],
}

impl Model for Cursors {
    ghost use Rattle.pcrf_model.specs.Cursors.{CursorsValue};
    ghost use Rattle.peer_exchange.specs.CursorValues.{IsCursors, cursors_of};

    ghost Value = { CursorsValue };

    ghost view = { λ c. cursors_of c.site c.epoch c.makers c.peers };

    ghost invariant = { λ c. IsCursors (cursors_of c.site c.epoch c.makers c.peers) };
}

impl Cursors {
    /// Those of a site that begins an epoch: nothing was taken, and no peer said anything.
    pub fn start(site: u8, epoch: u16) -> Cursors
        requires site { site < site_limit }
        requires epoch { 1 ≤ epoch }
        ensures { result ≡ start_cursors site epoch }
    {
        Cursors {
            site,
            epoch,
            makers: [Cursor::NOTHING; SITES],
            peers: [None; SITES],
        }
    }

    /// The site.
    pub fn site(&self) -> u8
        ensures site { result ≡ self.now.site }
        ensures within { result < site_limit }
    {
        self.site
    }

    /// The epoch of the site, from 1.
    pub fn epoch(&self) -> u16
        ensures epoch { result ≡ self.now.epoch }
        ensures began { 1 ≤ result }
    {
        self.epoch
    }

    /// How much was taken of a maker's operations.
    pub fn maker(&self, maker: u8) -> Cursor
        requires { maker < site_limit }
        ensures { result ≡ maker_cursor self.now maker }
    {
        self.makers[maker as usize]
    }

    /// How many of the site's operations a peer said that it took, if it said so, with the peer's epoch.
    pub fn peer(&self, peer: u8) -> Option<Cursor>
        requires { peer < site_limit }
        ensures { result ≡ peer_cursor self.now peer }
    {
        self.peers[peer as usize]
    }

    /// The letter of the site that says this, where it has the ranges of a letter.
    pub(crate) fn saying(&self, edition: u32, said: Body) -> Option<Letter>
        ensures { result ≡ if_placed (letter_saying self.now edition (body_value said)) }
    {
        Letter::of(edition, self.site, self.epoch, said)
    }

    /// What the site tells a maker that it took of it.
    pub fn ack_of(&self, maker: u8) -> Ack
        requires { maker < site_limit }
        ensures { result ≡ ack_of self.now maker }
    {
        Ack::of(self.site, self.epoch, maker, self.maker(maker))
    }

    /// Counts a letter that was taken whole, and gives what its sender is to be told then. An acknowledgement counts for
    /// nothing here.
    pub fn take_letter(&mut self, letter: &Letter) -> Ack
        ensures took { self.new ≡ cursors_after_letter self.old letter.now }
        ensures ack { result ≡ ack_of self.new letter.now.site }
    {
        letter.note_kept();
        let maker = letter.site();
        if let Body::Acknowledgement(_) = letter.body() {
            return self.ack_of(maker);
        }
        let known = self.maker(maker);
        self.makers[maker as usize] = known.after_letter(letter);
        self.ack_of(maker)
    }

    /// Counts what a peer said that it took; at a site that isn't its maker in that epoch it counts for nothing.
    pub fn take_ack(&mut self, ack: &Ack)
        ensures { self.new ≡ cursors_after_ack self.old ack.now }
    {
        if ack.maker() != self.site || ack.maker_epoch() != self.epoch {
            return;
        }
        let peer = ack.sender() as usize;
        self.peers[peer] = Some(Cursor::after_ack(self.peers[peer], ack));
    }

    /// Counts a letter that was taken whole: what its sender says that it took, or what was taken of its sender.
    pub fn count(&mut self, letter: &Letter)
        ensures counted { self.new ≡ cursors_after ByCursors self.old letter.now }
        ensures site { self.new.site ≡ self.old.site }
    {
        match Ack::carried_by(letter) {
            Some(ack) => self.take_ack(&ack),
            None => {
                let _ack = self.take_letter(letter);
            }
        }
    }
}
