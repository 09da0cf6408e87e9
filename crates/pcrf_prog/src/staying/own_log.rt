//! How long the log of a site's own operations is.
use pcrf_serve::{Event, Reply, SharedSite};
use std::sync::Wait;

/// A position in the log that none has: what comes from there on is nothing, and how long the log is is told all the same.
const FAR: u64 = u64::MAX;

/// How many operations a site made itself in its epoch; none where memory is refused.
pub fn log_length<R: Wait, S: SharedSite>(rt: &R, site: &S, seat: &mut S::Seat) -> Option<u64> {
    let event = Event::AskOwn(FAR);
    let called = site.call_alone(rt, seat, &event);
    drop(event);
    match called {
        Ok(Reply::Own(_, made)) => Some(made),
        _ => None,
    }
}
