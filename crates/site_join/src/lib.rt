//! What a site holds: the records of all sessions, joined from operations in any order.
#![tactic(auto)]

mod fact_form;
mod form;
mod groups;
pub mod laws;
mod operation;
mod ranges;
mod state;
mod tag_form;

pub use groups::are_groups;
pub use lattice_core::Entries;
pub use operation::{Operation, SessionFacts, are_af_facts, are_gx_facts};
pub use state::State;
