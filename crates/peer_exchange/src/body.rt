//! What letters say.

use site_join::{Operation, State};

/// Operations that the sender made itself in its present epoch, as they stand in its log. A letter has at most 100.
#[derive(Drop)]
pub struct Range {
    /// The position of the first, from 0.
    pub from: u64,
    pub operations: Vec<Operation>,
}

/// All that the sender holds, and how many operations it made itself in its present epoch.
#[derive(Drop)]
pub struct Snapshot {
    pub state: State,
    pub log_length: u64,
}

/// How far the sender took the operations that another site made.
#[derive(Clone, Copy, Debug, PartialEq, Eq)]
pub struct Acknowledgement {
    /// The site that made them.
    pub maker: u8,
    /// The epoch in which it made them; 0 where nothing of it was taken.
    pub maker_epoch: u16,
    /// How many of them were taken.
    pub cursor: u64,
}

/// What a letter says.
#[derive(Drop)]
pub enum Body {
    Range(Range),
    Snapshot(Snapshot),
    Acknowledgement(Acknowledgement),
}
