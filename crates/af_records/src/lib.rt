//! What a site holds of one AF session, joined from facts in any order.
#![tactic(auto)]

mod af_request_type;
mod fact;
mod flows;
mod rates;
mod record;
mod removed;

pub use af_request_type::AfRequestType;
pub use fact::{AfFact, ComponentValue, FlowValue};
pub use flows::Flows;
pub use lattice_core::SessionValue;
pub use rates::GivenRates;
pub use record::AfRec;
pub use removed::{RemovedPart, RemovedParts};
