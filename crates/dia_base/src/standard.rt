//! What an answer in the standards' form has besides its own AVPs: the way back through proxies, which credit control request
//! it refuses, what the PCRF is, and its Origin-State-Id, which its own requests have too (RFC 6733, 5.3.2, 6.2 and 8.16; RFC 8506, 3.2).

mod answered;
mod behind;
mod besides;
mod laws;
mod listed;
mod node;
mod stating;

pub use answered::Answered;
pub use behind::put_behind;
pub use besides::avps_besides;
pub use laws::avps_behind_are_spelled;
pub use stating::{state_at_start, stated};
