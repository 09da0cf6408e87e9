//! How far the connection at each seat is let in.
use pcrf_serve::Gate;
use pcrf_values::DiameterIdentity;
use std::alloc::{AllocError, Global};
use std::sync::Wait;
use std::sync::atomic::{AtomicBool, AtomicUsize, Ordering};
use watched_links::Guests;

/// The number of no host.
const NOBODY: usize = usize::MAX;

/// How far the connection at one seat is let in.
#[derive(Drop)]
pub struct Chair {
    /// Its capabilities exchange was accepted.
    is_open: AtomicBool,
    /// A capabilities exchange was refused: it ends once that is answered.
    is_refused: AtomicBool,
    /// The number of the host that exchanged capabilities, if it has one.
    guest: AtomicUsize,
}

impl Chair {
    /// For a connection that exchanged nothing yet.
    fn start() -> Chair {
        Chair {
            is_open: AtomicBool::new(false),
            is_refused: AtomicBool::new(false),
            guest: AtomicUsize::new(NOBODY),
        }
    }

    /// Another connection comes.
    pub fn clear(&self) {
        self.is_open.store(false, Ordering::SeqCst);
        self.is_refused.store(false, Ordering::SeqCst);
    }

    /// A capabilities exchange was accepted, or refused.
    pub fn exchanged(&self, is_accepted: bool) {
        if is_accepted {
            self.is_open.store(true, Ordering::SeqCst);
        } else {
            self.is_refused.store(true, Ordering::SeqCst);
        }
    }

    /// A host whose capabilities exchange was accepted sits here, until it goes.
    pub fn seat(&self, rt: &impl Wait, guests: &Guests, host: &DiameterIdentity) {
        if self.guest.load(Ordering::SeqCst) == NOBODY {
            if let Some(number) = guests.arrive(rt, host) {
                self.guest.store(number, Ordering::SeqCst);
            }
        }
    }

    /// The connection ended.
    pub fn leave(&self, rt: &impl Wait, guests: &Guests) {
        guests.leave(rt, self.guest.swap(NOBODY, Ordering::SeqCst));
    }

    /// A capabilities exchange was accepted, and none refused.
    pub fn is_let_in(&self) -> bool {
        self.is_open.load(Ordering::SeqCst) && !self.is_refused.load(Ordering::SeqCst)
    }
}

/// So many.
pub fn chairs(alloc: Global, count: usize) -> Result<Vec<Chair>, AllocError> {
    let mut chairs = Vec::with_capacity(alloc, count)?;
    for _ in 0..count {
        chairs.push(Chair::start())?;
    }
    Ok(chairs)
}

/// Lets the first message of each connection in, which is a capabilities exchange, and others once one was accepted.
#[derive(Clone, Copy)]
pub struct Doors<'a> {
    pub(crate) chairs: &'a [Chair],
}

impl Doors<'_> {
    /// Whether a connection is let in.
    fn is_let_in(&self, connection: usize) -> bool {
        self.chairs.get(connection).is_some_and(Chair::is_let_in)
    }
}

impl Gate for Doors<'_> {
    fn enter(&self, connection: usize, message: u64) -> bool {
        message == 0 || self.is_let_in(connection)
    }

    fn leave(&self, connection: usize, _message: u64) -> bool {
        self.is_let_in(connection)
    }
}
