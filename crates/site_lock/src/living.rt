//! One site that threads share for months: its history, and the receipts of those who call it, stand in the proofs alone. When the
//! program runs there is the site under its lock with counts of its calls and of its new beginnings, and three numbers at each seat.
//! So nothing grows but what the site itself holds and made, and a call costs the site's own step.

mod anew;
mod chronicle;
mod dated;
mod fault;
mod keeper;
mod laws;
mod locked;
mod looker;
mod notes;
mod roll;
mod seat;

pub use chronicle::Chronicle;
pub use dated::{Dated, Grown};
pub use fault::BeginFault;
pub use keeper::Keeper;
pub use laws::{
    cursors_count_across_beginnings, forgetting_leaves_the_rest, new_beginnings_keep_all,
};
pub use locked::LivingSite;
pub use looker::Looker;
pub use notes::{Beginnings, Deeds, Receipts};
pub use roll::{Roll, Roster};
pub use seat::Seat;
