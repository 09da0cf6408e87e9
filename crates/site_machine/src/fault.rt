//! Why an event of a site gave nothing.
use thiserror::Error;

/// Why an event gave nothing, and changed nothing.
#[derive(Clone, Copy, Debug, PartialEq, Eq, Error)]
pub enum StepFault {
    /// The history that is kept of the site is at its limit. A site alone, which keeps none, never answers so.
    #[error("the history is full")]
    HistoryFull,
    /// Something is to be pushed or aborted, and the clock is at its end.
    #[error("the clock is at its end")]
    ClockFull,
    #[error("no memory")]
    NoMemory,
}
