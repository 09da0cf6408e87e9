//! Who may have the site begin anew, and forget sessions.
ghost use Rattle.std.specs.Prelude.{◌≡◌, ◌≤◌, []};
ghost use Rattle.site_lock.specs.Deeds.{epoch_of};

use crate::living::notes::Beginnings;
use crate::living::roll::Roll;
use crate::notes::Duplicate;
use std::marker::{Model, PhantomData};

/// Who may have the site begin anew, and forget sessions that have ended: its copy of the note that has each new beginning and each
/// session that was forgotten, and in which epoch the site is. A site has one keeper, and no seat can do what it does.
#[derive(Drop)]
pub struct Keeper<L: Roll> {
    pub(crate) begun: Duplicate<Beginnings>,
    pub(crate) first: u16,
    pub(crate) times: u16,
    pub(crate) of: PhantomData<L>,
}

impl<L: Roll> Model for Keeper<L> {
    ghost use Rattle.std.specs.Prelude.{◌≡◌, ◌+◌, ◌≤◌, length};
    ghost use Rattle.pcrf_values.specs.Limits.{last_epoch};
    ghost use Rattle.site_lock.specs.Deeds.{KeeperValue};

    ghost Value = { KeeperValue };

    ghost view = { λ k. record {
      first = k.first;
      beginnings = k.begun.note.beginnings;
      forgot = k.begun.note.forgot;
    } };

    ghost invariant = { λ k. (k.begun.name ≡ L.keeper) × (k.times ≡ length k.begun.note.beginnings)
        × (1 ≤ k.first) × (k.first + k.times ≤ last_epoch) };
}

impl<L: Roll> Keeper<L> {
    /// The keeper of a site that starts in this epoch, before it ever began anew. A site starts in epoch 1 unless its keeper says
    /// otherwise.
    pub fn starting_in(self, epoch: u16) -> Keeper<L>
        requires new { self.beginnings ≡ [] }
        requires counts { 1 ≤ epoch }
        ensures { result ≡ record { first = epoch; beginnings = []; forgot = self.forgot } }
    {
        Keeper {
            begun: self.begun,
            first: epoch,
            times: 0,
            of: PhantomData,
        }
    }

    /// The epoch of the site: the one that it started in, and one more for each time that it began anew.
    pub fn epoch(&self) -> u16
        ensures { result ≡ epoch_of self.now }
    {
        self.first + self.times
    }
}
