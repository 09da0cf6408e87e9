//! The PCC rules of a gateway's session (TS 23.203, 6.3): those of its access point, and one for each flow of the application functions'
//! sessions that are bound to it; derived by a pass over all sessions or by an index and then kept until they may have changed, and
//! those of many sessions at once, side by side in as many threads as there are processors.
#![tactic(auto)]

mod cached;
mod derivation;
mod indexed_derivation;
mod many;
mod renewing;

pub use cached::Rules;
pub use derivation::{add_flows, derive, in_order, operator_rules};
pub use indexed_derivation::derive_by;
pub use many::{derive_many, derive_many_by};
pub use renewing::renew;
