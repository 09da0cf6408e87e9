//! The application functions' sessions that wait to be looked at for an abort (TS 29.214, 4.4.6.1): all that may be abandoned, so
//! that an abort looks at these alone.

mod aborting;
mod asked;
mod waiting;

pub use aborting::{first_abort, next_abort};
pub use waiting::{WaitingCalls, gather, wait_at, wait_in, wait_one};
