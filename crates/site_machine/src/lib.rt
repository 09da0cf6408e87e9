//! One site that decides: what it holds, what it replies to each event, and which facts it makes of a request and of what a gateway
//! is told (`facts`). No bytes of messages: these are read and written above (`site_core`).
#![tactic(auto)]

mod aborting;
mod adding;
mod calls;
mod event;
pub mod facts;
mod fault;
mod forgetting;
mod granting;
mod lookup;
mod operations;
mod refusals;
mod renewing;
mod request;
mod retelling;
mod site;
mod steps;
mod witness;

pub use event::{Event, Reply};
pub use facts::{
    call_of, end_facts, ended_call, ended_gateway, facts_made, note_aar, note_ccr, note_entries,
    note_str, put_told, put_told_away,
};
pub use fault::StepFault;
pub use indexed_state::{AnySid, Rules};
pub use request::Request;
pub use site::Site;
pub use witness::Witness;
