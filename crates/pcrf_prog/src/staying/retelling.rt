//! Sessions are told all their rules again whose gateways may have lost them: before an initial request is served that was sent before, or whose
//! host started again meanwhile, and a while behind a push that was refused.

mod glance;
mod losses;
mod remembering;
mod repeating;

pub use glance::Glance;
pub use losses::Losses;
use pcrf_serve::{Event, Reply, SharedSite, StepFault};
use pcrf_values::GxSid;
pub use remembering::Remembering;
pub use repeating::tell_refused_again;
use std::sync::Wait;

/// Has what the gateway of a session was told count as not there: whether it was told something, and the session is live.
fn retell<R: Wait, S: SharedSite>(
    rt: &R,
    site: &S,
    seat: &mut S::Seat,
    session: GxSid,
) -> Result<bool, StepFault> {
    let event = Event::Retell(session);
    let called = site.call_alone(rt, seat, &event);
    drop(event);
    match called {
        Ok(Reply::Retold(is_done)) => Ok(is_done),
        Ok(_) => Ok(false),
        Err(fault) => Err(fault),
    }
}
