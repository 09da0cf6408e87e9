//! Filters of flows: IPFilterRules that permit (RFC 6733, 4.3.1) by their parts, and as gateways take them, of packets to the
//! terminal, with a Flow-Direction beside (TS 29.212, 5.3.65 and 5.4.2).

mod direction;
mod downlink;
pub mod examples;
pub mod laws;
mod parts;
mod reading;
mod words;

pub use direction::Direction;
pub use downlink::as_downlink;
