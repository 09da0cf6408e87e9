//! Sessions that have ended and are forgotten: what is held without one, and the laws that all that is read of live sessions stays the
//! same. Nothing runs here: each law is the contract of a function without a body.
#![tactic(auto)]

mod laws;

pub use laws::{ended_sessions_may_go, forgetting_is_of_one_session};
