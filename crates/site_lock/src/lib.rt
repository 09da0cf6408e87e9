//! One site that threads share, of two kinds: its book under one lock; or, for months, a site whose history, and the receipts of those
//! who call it, stand in the proofs alone (`living`). What workers need of either is one trait, `SharedSite`.
#![tactic(auto)]

pub mod living;
mod living_shared;
mod locked;
mod locked_shared;
mod notes;
mod shared;

pub use living::{
    BeginFault, Beginnings, Chronicle, Dated, Deeds, Grown, Keeper, LivingSite, Looker, Receipts,
    Roll, Roster, cursors_count_across_beginnings, forgetting_leaves_the_rest,
    new_beginnings_keep_all,
};
pub use locked::LockedSite;
pub use notes::{Duplicate, Original, Turn};
pub use shared::SharedSite;
pub use site_book::{HISTORY_LIMIT, SEAT_LIMIT, Seat};
pub use site_machine::{AnySid, Event, Reply, Request, Rules, Site, StepFault};
