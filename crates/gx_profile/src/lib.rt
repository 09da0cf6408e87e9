//! The Gx profile (TS 29.212): what is read of a credit control request and of a re-authorisation answer, the AVPs of a credit control
//! answer and of a re-authorisation request, and the filters of flows as gateways take them, with a Flow-Direction beside.
#![tactic(auto)]

mod answer;
mod ccr;
mod codes;
pub mod filters;
mod push;
mod raa;
mod rules;

pub use answer::write_cca;
pub use ccr::{Ccr, read_ccr};
pub use filters::{Direction, as_downlink};
pub use pcrf_model::{FirstEntries, GxReply, PushOut};
pub use pcrf_values::{DefaultQuality, RequestKind};
pub use push::write_rar;
pub use raa::{Raa, read_raa};
