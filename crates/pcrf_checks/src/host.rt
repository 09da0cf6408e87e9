//! What checks need of their machine.
use std::alloc::AllocGlobal;
use std::fs;
use std::io::{self, Eprint, Print};
use std::sync::Wait;
use std::thread::Threads;
use std::time::Clock;

/// The files where a program runs.
pub trait TextFiles {
    /// The text of a file.
    fn text_of(&self, file: &str) -> io::Result<String>;
}

// For this runtime alone: what is known of a type that has `Files` isn't known in another thread.
impl TextFiles for HostRuntime {
    fn text_of(&self, file: &str) -> io::Result<String> {
        fs::read_to_string(self, file)
    }
}

/// What checks need of their machine.
pub trait Host: AllocGlobal + Clock + Eprint + Print + TextFiles + Threads + Wait + Sync {}

impl<R: AllocGlobal + Clock + Eprint + Print + TextFiles + Threads + Wait + Sync> Host for R {}
