//! The bit rates of a flow.

/// The bit rates that requests gave a flow, in bit/s.
#[derive(Clone, Copy, Debug, PartialEq, Eq)]
pub struct GivenRates {
    pub up: Option<u32>,
    pub down: Option<u32>,
}
