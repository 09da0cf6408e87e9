//! A seat: who calls.
ghost use Rattle.std.specs.Prelude.{◌≡◌, length};
ghost use Rattle.site_lock.specs.Deeds.{counted_to, last_place};

use crate::living::notes::Receipts;
use crate::living::roll::Roll;
use crate::notes::Duplicate;
use std::marker::{Model, PhantomData};

/// A seat: its number, and its copy of the note that has a receipt for each of its calls. What is there when the program runs is
/// the number, how many calls it made, and how many of the site's came before the last of them.
#[derive(Drop)]
pub struct Seat<L: Roll> {
    pub(crate) number: usize,
    pub(crate) receipts: Duplicate<Receipts>,
    pub(crate) calls: u64,
    pub(crate) last: Option<u64>,
    pub(crate) of: PhantomData<L>,
}

impl<L: Roll> Model for Seat<L> {
    ghost use Rattle.std.specs.Prelude.{◌≡◌, ◌<◌, length};
    ghost use Rattle.site_book.specs.Books.{SeatValue};
    ghost use Rattle.site_lock.specs.Deeds.{counted_to, last_place};

    ghost Value = { SeatValue };

    ghost view = { λ s. record { number = s.number; receipts = s.receipts.note } };

    ghost invariant = { λ s. (s.number < L.seats) × (s.receipts.name ≡ L.name_of s.number)
        × (s.calls ≡ counted_to (length s.receipts.note)) × (s.last ≡ last_place s.receipts.note) };
}

impl<L: Roll> Seat<L> {
    /// Its number.
    pub fn number(&self) -> usize
        ensures { result ≡ self.now.number }
    {
        self.number
    }

    /// How many calls it made, 2^64 - 1 if there are more.
    pub fn calls(&self) -> u64
        ensures { result ≡ counted_to (length self.now.receipts) }
    {
        self.calls
    }

    /// How many calls of the site came before its last one, 2^64 - 1 if there are more; `None` where it made none. It is the
    /// place of its last receipt, so no two calls of a site have the same.
    pub fn last(&self) -> Option<u64>
        ensures { result ≡ last_place self.now.receipts }
    {
        self.last
    }
}
