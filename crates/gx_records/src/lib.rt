//! What a site holds of one Gx session, joined from facts in any order.
#![tactic(auto)]

mod fact;
mod open_request_type;
mod record;

pub use fact::GxFact;
pub use lattice_core::SessionValue;
pub use open_request_type::OpenRequestType;
pub use record::{GxRec, Told};
