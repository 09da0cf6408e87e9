//! Letters between a site that stays and its peer sites: links are dialled and accepted again for ever.

mod dialing;
mod growing;
mod journal;
mod peers;
mod taking;

pub use dialing::dial_on;
pub use peers::Exchange;
pub use taking::{accept_links, take_links};
