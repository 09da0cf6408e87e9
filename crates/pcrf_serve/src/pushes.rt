//! What is to be pushed after a message.
ghost use Rattle.std.specs.Thread.{IsSync};
ghost use Rattle.pcrf_serve.specs.Earlier.{Adds};
ghost use Rattle.pcrf_serve.specs.Events.{IsPushToHost};

use site_lock::SharedSite;
use std::alloc::{AllocError, Global};
use std::sync::Wait;
use std::thread::Threads;

/// Whoever knows how gateways are reached.
pub trait Pushes {
    /// Has the site make every push that is due to a host that can be reached, of rules or an abort, each as a call of the seat, and
    /// sends them.
    /// A history or a clock that is full ends the pushing, and a gateway to which nothing can be written is passed over; want
    /// of memory alone is an error. Each push is to a host that is named, so that no gateway gets what is another's.
    fn push_all<R: Threads + Wait + Sync, S: SharedSite>(
        &self,
        rt: &R,
        alloc: Global,
        site: &S,
        seat: &mut S::Seat,
    ) -> Result<(), AllocError>
        requires { IsSync R.row }
        ensures { Adds IsPushToHost (S.seen seat.old) (S.seen seat.new) };
}
