//! What a site asks of a host of its own accord.

/// What a site asks of a host of its own accord.
#[derive(Clone, Copy, Debug, PartialEq, Eq)]
pub enum Demand {
    /// That its gateway has the rules of a session as they are now, by a re-authorisation request (TS 29.212, 4.5.2).
    Rules,
    /// That its application function ends a session that is bound to none, by an abort session request (TS 29.214, 4.4.6.1).
    Abort,
}
