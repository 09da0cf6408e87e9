//! The parts of a filter, as they lie in its text.
use crate::filters::direction::Direction;

/// Where packets come from or go to.
#[derive(Clone, Copy)]
pub(crate) struct Endpoint<'a> {
    /// The address.
    pub(crate) address: &'a [u8],
    /// The ports, where they are given.
    pub(crate) ports: Option<&'a [u8]>,
}

/// A filter by its parts.
#[derive(Clone, Copy)]
pub(crate) struct Parts<'a> {
    /// Which way the packets go.
    pub(crate) direction: Direction,
    /// Their protocol.
    pub(crate) protocol: &'a [u8],
    /// Where they come from.
    pub(crate) source: Endpoint<'a>,
    /// Where they go to.
    pub(crate) destination: Endpoint<'a>,
    /// What else they are, word by word.
    pub(crate) options: Option<&'a [u8]>,
}
