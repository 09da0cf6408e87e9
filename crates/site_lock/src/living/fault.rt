//! Why a site doesn't begin anew.
use thiserror::Error;

/// Why a site did not begin anew; nothing has changed then.
#[derive(Clone, Copy, Debug, PartialEq, Eq, Error)]
pub enum BeginFault {
    /// It is in the last epoch that there is.
    #[error("the epoch is the last")]
    EpochFull,
}
