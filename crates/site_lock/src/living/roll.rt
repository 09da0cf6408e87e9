//! Which site it is, and the notes of its seats before there are seats.
ghost use Rattle.std.specs.Prelude.{◌≡◌, ◌≤◌, ℕ, length, IfOk};

use crate::living::notes::{Beginnings, Receipts};
use crate::notes::{Duplicate, Original};
use std::alloc::{AllocError, Global};
use std::marker::{Brand, Model};

/// Which site it is, as clauses see it: how many seats it has, the name of the note of each and of the keeper's, and what it held
/// and had made when its history began. A caller of a function over any of them takes `Brand` for it, and its proof says what
/// these are.
pub trait Roll {
    ghost use Rattle.std.specs.Prelude.{ℕ};
    ghost use Rattle.pcrf_model.specs.Steps.{SiteState};

    ghost seats: { ℕ };

    ghost name_of: { ℕ → ℕ };

    ghost keeper: { ℕ };

    ghost opening: { SiteState };
}

impl Roll for Brand {
    ghost use Rattle.site_machine.specs.Sites.{new_state};

    ghost seats = { 0 };

    ghost name_of = { λ k. 0 };

    ghost keeper = { 0 };

    ghost opening = { new_state };
}

/// The notes of new seats and of their keeper, each in its two copies. Clauses see the notes' names.
#[derive(Drop)]
pub struct Roster {
    pub(crate) chairs: Vec<Original<Receipts>>,
    pub(crate) receipts: Vec<Duplicate<Receipts>>,
    pub(crate) begun: Original<Beginnings>,
    pub(crate) beginnings: Duplicate<Beginnings>,
}

impl Model for Roster {
    ghost use Rattle.std.specs.Prelude.{map};
    ghost use Rattle.site_lock.specs.Sound.{AreBlank, IsBlank, Names};

    ghost Value = { Names };

    ghost view = { λ r. record { seats = map (λ c. c.name) r.chairs.items; keeper = r.begun.name } };

    ghost invariant = { λ r. AreBlank r.chairs.items r.receipts.items × IsBlank r.begun r.beginnings };
}

impl Roster {
    /// The notes of so many seats, and of a keeper.
    pub fn new(alloc: Global, seats: usize) -> Result<Roster, AllocError>
        ensures { IfOk result (λ r. length r.seats ≡ seats) }
    {
        let mut chairs = Vec::with_capacity(alloc, seats)?;
        let mut receipts = Vec::with_capacity(alloc, seats)?;
        for _ in 0..seats {
            let (original, duplicate) = Original::new(&Receipts {});
            chairs.push_reserved(original);
            receipts.push_reserved(duplicate);
        }
        let (begun, beginnings) = Original::new(&Beginnings {});
        Ok(Roster {
            chairs,
            receipts,
            begun,
            beginnings,
        })
    }

    /// How many seats there are to be.
    pub fn len(&self) -> usize
        ensures { result ≡ length self.now.seats }
    {
        self.chairs.len()
    }
}
