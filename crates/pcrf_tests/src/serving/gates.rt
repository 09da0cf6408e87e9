//! Gates that put messages of different connections in order.
use crate::exchanging::wire::Doors;
use pcrf_serve::Gate;
use std::sync::atomic::{AtomicBool, Ordering};
use std::thread;
use std::time::{Clock, Duration};

/// How often a gate looks again, a millisecond apart.
const TURNS: u32 = 10_000;

/// Is told of writes.
pub trait Writes {
    /// Something is to be written to a connection. The write is made when this has returned.
    fn writing(&self, _connection: usize) {}
}

impl Writes for Doors {}

/// A message, by the number of its connection and its own.
pub type Place = (usize, u64);

/// Two messages of which one waits until the other was answered, and that one until the other is there. So neither can pass
/// while what the other needs is held.
#[derive(Drop)]
pub struct Order {
    waits: Place,
    first: Place,
    is_there: AtomicBool,
    is_answered: AtomicBool,
}

/// A flag is set. It is looked at for ten seconds at most.
fn comes<R: Clock>(rt: &R, flag: &AtomicBool) -> bool {
    for _ in 0..TURNS {
        if flag.load(Ordering::SeqCst) {
            return true;
        }
        thread::sleep(rt, Duration::from_millis(1));
    }
    false
}

impl Order {
    /// The one that waits, and the one that is answered first.
    pub fn of(waits: Place, first: Place) -> Order {
        Order {
            waits,
            first,
            is_there: AtomicBool::new(false),
            is_answered: AtomicBool::new(false),
        }
    }

    /// A message is there.
    fn note_there(&self, message: Place) {
        if message == self.waits {
            self.is_there.store(true, Ordering::SeqCst);
        }
    }

    /// A message was answered.
    fn note_answered(&self, message: Place) {
        if message == self.first {
            self.is_answered.store(true, Ordering::SeqCst);
        }
    }

    /// A message may be served.
    fn lets_in<R: Clock>(&self, rt: &R, message: Place) -> bool {
        if message == self.waits {
            return comes(rt, &self.is_answered);
        }
        if message == self.first {
            return comes(rt, &self.is_there);
        }
        true
    }
}

/// Keeps orders.
#[derive(Drop)]
pub struct InOrder<'a, R> {
    pub rt: &'a R,
    pub orders: Vec<Order>,
}

impl<R: Clock> Writes for InOrder<'_, R> {}

impl<R: Clock> Gate for InOrder<'_, R> {
    fn enter(&self, connection: usize, message: u64) -> bool {
        for order in self.orders.as_slice() {
            order.note_there((connection, message));
        }
        for order in self.orders.as_slice() {
            if !order.lets_in(self.rt, (connection, message)) {
                return false;
            }
        }
        true
    }

    fn leave(&self, connection: usize, message: u64) -> bool {
        for order in self.orders.as_slice() {
            order.note_answered((connection, message));
        }
        true
    }
}

/// Holds the first write to the first connection until a message of the second was answered, which isn't let in before.
#[derive(Drop)]
pub struct AtFirstWrite<'a, R> {
    rt: &'a R,
    is_writing: AtomicBool,
    is_answered: AtomicBool,
}

impl<'a, R: Clock> AtFirstWrite<'a, R> {
    /// Nothing was written yet.
    pub fn start(rt: &'a R) -> AtFirstWrite<'a, R> {
        AtFirstWrite {
            rt,
            is_writing: AtomicBool::new(false),
            is_answered: AtomicBool::new(false),
        }
    }
}

impl<R: Clock> Writes for AtFirstWrite<'_, R> {
    fn writing(&self, connection: usize) {
        if connection == 0 {
            self.is_writing.store(true, Ordering::SeqCst);
            let _is_answered = comes(self.rt, &self.is_answered);
        }
    }
}

impl<R: Clock> Gate for AtFirstWrite<'_, R> {
    fn enter(&self, connection: usize, _message: u64) -> bool {
        connection != 1 || comes(self.rt, &self.is_writing)
    }

    fn leave(&self, connection: usize, _message: u64) -> bool {
        if connection == 1 {
            self.is_answered.store(true, Ordering::SeqCst);
        }
        true
    }
}
