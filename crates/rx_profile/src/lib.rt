//! The Rx profile: what is read of AA requests, session termination requests and abort session answers, the AVPs of the answers to
//! such requests, and those of an abort session request (TS 29.214).
#![tactic(auto)]

mod abort;
mod answer;
mod asa;
mod codes;
mod component;
pub mod examples;
mod media;
mod request;
mod termination;

pub use abort::{AbortOut, write_asr};
pub use answer::{write_aaa, write_sta};
pub use asa::{Asa, read_asa};
pub use component::{Component, Components, Flow};
pub use media::{ComponentParts, FlowParts, MediaStatus, Rates, is_removed};
pub use pcrf_values::FlowUsage;
pub use request::{Aar, read_aar};
pub use termination::{Str, read_str};
