//! The writer beside the worker of each seat.
use crate::post::Post;
use std::alloc::{AllocError, Global};
use std::mem::replace;
use std::sync::{Arc, Condvar, Mutex, Wait};

/// What the writer of a seat has to do.
#[derive(Drop)]
enum Task {
    /// Nothing.
    Idle,
    /// To write what is left at that post, until its connection ends.
    Given(Arc<Post>),
    /// It does so.
    Taken,
}

impl Task {
    /// A post was given.
    fn is_given(&self) -> bool {
        matches!(self, Task::Given(_))
    }

    /// There is nothing to do.
    fn is_idle(&self) -> bool {
        matches!(self, Task::Idle)
    }
}

/// Where the worker of a seat gives its writer what to do.
#[derive(Drop)]
pub struct Desk {
    task: Mutex<Task>,
    changed: Condvar,
}

impl Desk {
    /// One whose writer has nothing to do.
    fn start() -> Desk {
        Desk {
            task: Mutex::new(Task::Idle),
            changed: Condvar::new(),
        }
    }

    /// Has the writer write what is left at a post.
    pub fn give(&self, rt: &impl Wait, post: Arc<Post>) {
        *self.task.lock(rt) = Task::Given(post);
        self.changed.notify_all();
    }

    /// Waits until all is written, and the connection is closed.
    pub fn wait(&self, rt: &impl Wait) {
        let task = self
            .changed
            .wait_while(rt, self.task.lock(rt), |task| !task.is_idle());
        drop(task);
    }

    /// The next post.
    fn next(&self, rt: &impl Wait) -> Option<Arc<Post>> {
        let mut task = self
            .changed
            .wait_while(rt, self.task.lock(rt), |task| !task.is_given());
        match replace(&mut *task, Task::Taken) {
            Task::Given(post) => Some(post),
            Task::Idle | Task::Taken => None,
        }
    }

    /// The writer has nothing to do again.
    fn finish(&self, rt: &impl Wait) {
        *self.task.lock(rt) = Task::Idle;
        self.changed.notify_all();
    }

    /// Writes for one connection behind the other.
    pub fn write(&self, rt: &impl Wait) {
        for _ in rt.forever() {
            if let Some(post) = self.next(rt) {
                post.write_beside(rt);
            }
            self.finish(rt);
        }
    }
}

/// So many.
pub fn desks(alloc: Global, count: usize) -> Result<Vec<Desk>, AllocError> {
    let mut desks = Vec::with_capacity(alloc, count)?;
    for _ in 0..count {
        desks.push(Desk::start())?;
    }
    Ok(desks)
}
