//! Tests of sites whose history stands in the proofs alone, beside those whose history is kept: what they are told, what stays of
//! them, and what the numbers of their seats are.

mod counting;
mod epochs;
mod forgetting;
mod growing;
mod renewing;
pub mod sites;
mod threads;
mod waiting;
