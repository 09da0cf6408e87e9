//! Connections that wait for their seats.
use std::alloc::{AllocError, Global};
use std::collections::VecDeque;
use std::net::{SocketAddr, TcpStream};
use std::sync::{Condvar, Mutex, Wait};
use std::time::Instant;

/// A connection that was accepted.
#[derive(Drop)]
pub struct Arrived {
    pub stream: TcpStream,
    pub address: SocketAddr,
    /// Since when it is there.
    pub since: Instant,
}

/// Who waits, and for how many more there are seats.
#[derive(Drop)]
struct Places {
    waiting: VecDeque<Arrived>,
    free: usize,
}

/// Where connections wait for the workers of their seats. No more wait than there are free ones.
#[derive(Drop)]
pub struct Hall {
    places: Mutex<Places>,
    changed: Condvar,
}

impl Hall {
    /// Nobody waits, and so many seats are free.
    pub fn start(alloc: Global, free: usize) -> Hall {
        Hall {
            places: Mutex::new(Places {
                waiting: VecDeque::new(alloc),
                free,
            }),
            changed: Condvar::new(),
        }
    }

    /// Lets a connection in, if a seat is free: whether one was. Else it is closed.
    pub fn admit(&self, rt: &impl Wait, arrived: Arrived) -> Result<bool, AllocError> {
        let mut places = self.places.lock(rt);
        if places.free == 0 {
            return Ok(false);
        }
        places.waiting.push_back(arrived)?;
        places.free = places.free.saturating_sub(1);
        self.changed.notify_one();
        Ok(true)
    }

    /// The connection that waits longest, once there is one.
    pub fn next(&self, rt: &impl Wait) -> Arrived {
        for _ in rt.forever() {
            let mut places = self.changed.wait_while(
                rt,
                self.places.lock(rt),
                |places| places.waiting.is_empty(),
            );
            if let Some(arrived) = places.waiting.pop_front() {
                return arrived;
            }
        }
        unreachable!()
    }

    /// A seat is free again.
    pub fn free(&self, rt: &impl Wait) {
        let mut places = self.places.lock(rt);
        places.free = places.free.saturating_add(1);
    }

    /// A seat has no worker.
    pub fn lose(&self, rt: &impl Wait) {
        let mut places = self.places.lock(rt);
        places.free = places.free.saturating_sub(1);
    }
}
