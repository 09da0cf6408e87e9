//! The facts that a site makes: of a credit control request what it sets or that its session ends, of an AA request what it
//! describes, of a session termination request that its session has ended, what a gateway is told by an answer or a push, and
//! that it may have lost it (TS 29.212, 4.5.1, 4.5.2 and 4.5.7; TS 29.214, 4.4.1, 4.4.2 and 4.4.4).

mod call;
mod component;
mod flow;
mod forms;
mod gateway;
mod session;

pub use call::{call_of, end_facts, ended_call};
pub use forms::{note_aar, note_ccr, note_str};
pub use gateway::{ended_gateway, facts_made, note_entries, put_told, put_told_away};
