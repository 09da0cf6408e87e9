//! The writing half of a connection.
ghost use Rattle.std.specs.Prelude.{◌≡◌};

use std::io::Write;
use std::sync::atomic::{AtomicBool, Ordering};
use std::sync::{Mutex, Wait};

/// The writing half of a connection under a lock of its own, since its own worker writes answers to it and every worker
/// re-authorisation requests. Once its writer is gone, at the end of the connection or after a write that failed, it stays
/// without one.
#[derive(Drop)]
pub struct Half<W> {
    writer: Mutex<Option<W>>,
    ended: AtomicBool,
    /// From which number the End-to-End Identifiers of re-authorisation requests count.
    first_end_id: u32,
}

impl<W: Write + Drop> Half<W> {
    /// A half without a writer yet. Both identifiers of a re-authorisation request are its place in the site's history.
    pub fn start() -> Half<W>
        ensures { result.first_end_id ≡ 0 }
    {
        Half::counting_from(0)
    }

    /// A half without a writer yet. The Hop-by-Hop Identifier of a re-authorisation request is its place in the site's history, and the
    /// End-to-End Identifier so much behind that number.
    pub fn counting_from(first_end_id: u32) -> Half<W>
        ensures { result.first_end_id ≡ first_end_id }
    {
        Half {
            writer: Mutex::new(None),
            ended: AtomicBool::new(false),
            first_end_id,
        }
    }

    /// From which number End-to-End Identifiers count.
    pub(crate) fn first_end_id(&self) -> u32
        ensures { result ≡ self.now.first_end_id }
    {
        self.first_end_id
    }

    /// Takes the writer in.
    pub fn open(&self, rt: &impl Wait, writer: W) {
        *self.writer.lock(rt) = Some(writer);
    }

    /// Drops the writer: nothing is written from now on.
    pub fn close(&self, rt: &impl Wait) {
        self.ended.store(true, Ordering::SeqCst);
        *self.writer.lock(rt) = None;
    }

    /// There is a writer. It waits for whoever writes.
    pub fn is_open(&self, rt: &impl Wait) -> bool {
        self.writer.lock(rt).is_some()
    }

    /// The half had its end. It waits for nobody.
    pub fn has_ended(&self) -> bool {
        self.ended.load(Ordering::SeqCst)
    }

    /// Writes all bytes, with none of another message among them. False where there is no writer. A write that failed may have
    /// left a part of a message behind, so the half ends with it.
    pub fn put(&self, rt: &impl Wait, bytes: &[u8]) -> bool {
        let mut held = self.writer.lock(rt);
        let Some(writer) = &mut *held else {
            return false;
        };
        if writer.write_all(bytes).is_ok() && writer.flush().is_ok() {
            return true;
        }
        self.ended.store(true, Ordering::SeqCst);
        *held = None;
        false
    }
}
