//! How far one site took the operations of another.
ghost use Rattle.std.specs.Prelude.{◌≡◌, ◌≤◌, Some};
ghost use Rattle.pcrf_model.specs.Cursors.{maker_after, peer_after, raised_cursor};
ghost use Rattle.pcrf_values.specs.Limits.{last_counter};
ghost use Rattle.peer_exchange.specs.CursorValues.{cursor_at};

use crate::ack::Ack;
use crate::body::Body;
use crate::letter::Letter;
use std::marker::Model;

/// An epoch of a site, and how many of the operations that it made in that epoch were taken, from the first on. Contracts see
/// it as the definitions' own.
#[derive(Clone, Copy)]
pub struct Cursor {
    epoch: u16,
    taken: u64,
}

impl Model for Cursor {
    ghost use Rattle.std.specs.Prelude.{◌≤◌};
    ghost use Rattle.pcrf_model.specs.Cursors as model;
    ghost use Rattle.pcrf_values.specs.Limits.{last_counter};
    ghost use Rattle.peer_exchange.specs.CursorValues.{cursor_at};

    ghost Value = { model.Cursor };

    ghost view = { λ c. cursor_at c.epoch c.taken };

    ghost inverse = { λ x. record { epoch = x.epoch; taken = x.cursor } };

    ghost invariant = { λ c. c.taken ≤ last_counter };
}

impl Cursor {
    /// Nothing was taken, of no epoch yet.
    pub(crate) const NOTHING: Cursor = Cursor { epoch: 0, taken: 0 };

    /// So many operations of that epoch.
    pub(crate) fn at(epoch: u16, taken: u64) -> Cursor
        requires { taken ≤ last_counter }
        ensures { result ≡ cursor_at epoch taken }
    {
        Cursor { epoch, taken }
    }

    /// The epoch; 0 where nothing was taken.
    pub fn epoch(&self) -> u16
        ensures { result ≡ self.now.epoch }
    {
        self.epoch
    }

    /// How many operations of it were taken.
    pub fn taken(&self) -> u64
        ensures taken { result ≡ self.now.cursor }
        ensures within { result ≤ last_counter }
    {
        self.taken
    }

    /// The entry for a letter's maker once the letter was taken whole: a letter of an older epoch changes nothing, one of a
    /// newer epoch begins at none; a range that doesn't begin past the cursor raises it to its end.
    pub(crate) fn after_letter(self, letter: &Letter) -> Cursor
        ensures { result ≡ maker_after letter.now self }
    {
        if letter.epoch() < self.epoch {
            return self;
        }
        let known = if self.epoch < letter.epoch() {
            0
        } else {
            self.taken
        };
        Cursor::at(letter.epoch(), raised_by(letter, known))
    }

    /// The entry for a peer that said this: a first entry, or one of a newer epoch of the peer's, replaces, one of the same
    /// epoch raises the cursor, one of an older epoch changes nothing.
    pub(crate) fn after_ack(entry: Option<Cursor>, ack: &Ack) -> Cursor
        ensures { Some result ≡ peer_after ack.now entry }
    {
        let said = Cursor::at(ack.sender_epoch(), ack.cursor());
        let Some(known) = entry else {
            return said;
        };
        if known.epoch < ack.sender_epoch() {
            return said;
        }
        if known.epoch == ack.sender_epoch() {
            return Cursor::at(known.epoch, known.taken.max(ack.cursor()));
        }
        known
    }
}

/// How many operations of a letter's epoch are taken with it, where so many were before.
fn raised_by(letter: &Letter, known: u64) -> u64
    requires { known ≤ last_counter }
    ensures raised { result ≡ raised_cursor letter.now.body known }
    ensures within { result ≤ last_counter }
{
    letter.note_kept();
    match letter.body() {
        Body::Range(range) => {
            if range.from > known {
                return known;
            }
            known.max(range.from + range.operations.len() as u64)
        }
        Body::Snapshot(snapshot) => known.max(snapshot.log_length),
        Body::Acknowledgement(_) => known,
    }
}
