//! What gateways are told of the rules of their sessions: what a session's gateway is still to be told, what it has then, and the push
//! that is due at a site (TS 29.212, 4.5.2), also by rules that are kept and among the sessions that wait for a push alone; and the
//! application functions' sessions that wait for an abort (TS 29.214, 4.4.6.1).
#![tactic(auto)]

pub mod aborts;
mod application;
mod cached_telling;
mod differences;
mod pushing;
mod telling;
mod told_all;
mod told_difference;
mod waiting;
mod waiting_pushing;

pub use aborts::{WaitingCalls, first_abort, next_abort};
pub use application::apply;
pub use cached_telling::untold_difference_by;
pub use differences::difference;
pub use pushing::{Asked, is_asked, is_empty, next_push, push_to};
pub use telling::{told_rules_of, untold_difference};
pub use told_all::is_told_all;
pub use told_difference::difference_of;
pub use waiting::{Waiting, gather, wait_at, wait_in, wait_one};
pub use waiting_pushing::next_waiting;
