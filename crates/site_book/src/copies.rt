//! The copies of events and replies that a book keeps.
ghost use Rattle.std.specs.Prelude.{◌≡◌, IfOk};
ghost use Rattle.site_machine.specs.Values.{event_value, reply_value};

use site_machine::{Event, Reply, Witness};
use std::alloc::AllocError;

/// Two copies of a reply: for the entry, and for the receipt.
#[derive(Drop)]
pub(crate) struct Copies {
    pub(crate) entered: Reply,
    pub(crate) received: Reply,
}

impl Copies {
    /// Of a reply that was not seen yet.
    pub(crate) fn none() -> Copies {
        Copies {
            entered: Reply::Done,
            received: Reply::Done,
        }
    }
}

impl Witness for Copies {
    ghost saw = { λ c r. (reply_value c.entered ≡ r) × (reply_value c.received ≡ r) };

    fn see(&mut self, reply: &Reply) -> Result<(), AllocError> {
        let entered = reply.try_copy()?;
        let received = reply.try_copy()?;
        *self = Copies { entered, received };
        Ok(())
    }
}

/// Two copies of an event.
pub(crate) fn twice(event: &Event) -> Result<(Event, Event), AllocError>
    ensures one { IfOk result (λ r. event_value r.0 ≡ event_value event.now) }
    ensures other { IfOk result (λ r. event_value r.1 ≡ event_value event.now) }
{
    let one = event.try_copy()?;
    let other = event.try_copy()?;
    Ok((one, other))
}
