//! Letters' operations that a state or a site takes; a merge of two states; and a whole state as a letter.
use crate::fault::{Fault, Unmeasured};
use crate::measures::figures::Figures;
use peer_exchange::{Body, Letter, LetterFault, Snapshot, read_letter, write_letter};
use site_core::Site;
use site_join::{Operation, State};
use std::alloc::{AllocError, AllocGlobal, Global};
use std::time::{Clock, Duration, Instant};

/// What takes operations.
pub trait Taker {
    /// Takes operations.
    fn take_each(&mut self, operations: &[Operation]) -> Result<(), AllocError>;
}

impl Taker for State {
    fn take_each(&mut self, operations: &[Operation]) -> Result<(), AllocError> {
        for operation in operations {
            self.take(operation)?;
        }
        Ok(())
    }
}

impl Taker for Site {
    fn take_each(&mut self, operations: &[Operation]) -> Result<(), AllocError> {
        match self.take_all(operations) {
            Ok(()) => Ok(()),
            Err((_, refused)) => Err(refused),
        }
    }
}

/// What was read or written, or that a letter was not.
fn outcome<T: Drop>(made: Result<T, LetterFault>) -> Result<T, Fault> {
    match made {
        Ok(value) => Ok(value),
        Err(_) => Err(Fault::Unmeasured(Unmeasured::NotCarried)),
    }
}

/// The letter of a frame.
pub fn letter_of(alloc: Global, frame: &[u8], edition: u32) -> Result<Letter, Fault> {
    outcome(read_letter(alloc, frame, edition))
}

/// The operations of a letter.
pub fn operations_of(letter: &Letter) -> Result<&[Operation], Fault> {
    match letter.body() {
        Body::Range(range) => Ok(range.operations.as_slice()),
        _ => Err(Fault::Unmeasured(Unmeasured::NoOperations)),
    }
}

/// How often operations of a letter are taken, and how long that takes.
fn time_letter<T: Taker>(
    rt: &impl Clock,
    taker: &mut T,
    letter: &Letter,
) -> Result<(usize, Duration), Fault> {
    let operations = operations_of(letter)?;
    let start = Instant::now(rt)?;
    taker.take_each(operations)?;
    Ok((operations.len(), start.elapsed(rt)?))
}

/// Takes the operations of letters, each read just before, which isn't counted.
pub fn measure_taking<T: Taker>(
    rt: &(impl AllocGlobal + Clock),
    taker: &mut T,
    frames: &[Vec<u8>],
    edition: u32,
    name: &str,
    figures: &mut Figures,
) -> Result<(), Fault> {
    for frame in frames {
        let letter = letter_of(rt.alloc(), frame.as_slice(), edition)?;
        let taken = time_letter(rt, taker, &letter);
        drop(letter);
        let (count, time) = taken?;
        figures.add(name, count, time)?;
    }
    Ok(())
}

/// How many sessions a state has.
pub fn count_sessions(state: &State) -> usize {
    let mut count: usize = 0;
    for _session in state.all_gx() {
        count = count.saturating_add(1);
    }
    for _session in state.all_af() {
        count = count.saturating_add(1);
    }
    count
}

/// Merges two states.
fn merge(ours: State, theirs: State) -> Result<(), AllocError> {
    let merged = ours.merge(theirs);
    let done = match &merged {
        Ok(_) => Ok(()),
        Err((refused, _, _)) => Err(*refused),
    };
    drop(merged);
    done
}

/// Merges a state with one that was copied, if it was.
fn merge_copy(ours: State, theirs: Result<State, AllocError>) -> Result<(), AllocError> {
    match theirs {
        Ok(theirs) => merge(ours, theirs),
        Err(refused) => {
            drop(ours);
            Err(refused)
        }
    }
}

/// Merges two copies of a state, and tells how long that takes.
pub fn time_merge(rt: &impl Clock, state: &State) -> Result<Duration, Fault> {
    let ours = state.try_copy()?;
    let theirs = state.try_copy();
    let start = Instant::now(rt);
    merge_copy(ours, theirs)?;
    Ok(start?.elapsed(rt)?)
}

/// Copies a state, and tells how long that takes.
fn time_copy(rt: &impl Clock, state: &State) -> Result<(State, Duration), Fault> {
    let start = Instant::now(rt)?;
    let copy = state.try_copy()?;
    match start.elapsed(rt) {
        Ok(time) => Ok((copy, time)),
        Err(error) => {
            drop(copy);
            Err(Fault::from(error))
        }
    }
}

/// The letter of a whole state.
fn snapshot_of(state: State, edition: u32) -> Result<Letter, Fault> {
    let log_length = state.clock();
    let body = Body::Snapshot(Snapshot { state, log_length });
    match Letter::of(edition, 0, 1, body) {
        Some(letter) => Ok(letter),
        None => Err(Fault::Unmeasured(Unmeasured::NotAddressed)),
    }
}

/// Writes a letter, and tells how long that takes.
fn time_write(
    rt: &(impl AllocGlobal + Clock),
    letter: &Letter,
) -> Result<(Vec<u8>, Duration), Fault> {
    let start = Instant::now(rt)?;
    let frame = outcome(write_letter(rt.alloc(), letter))?;
    let time = start.elapsed(rt)?;
    Ok((frame, time))
}

/// Reads a letter, and tells how long that takes.
fn time_read(
    rt: &(impl AllocGlobal + Clock),
    frame: &[u8],
    edition: u32,
) -> Result<Duration, Fault> {
    let start = Instant::now(rt)?;
    let letter = letter_of(rt.alloc(), frame, edition)?;
    let time = start.elapsed(rt);
    drop(letter);
    Ok(time?)
}

/// Copies a state, writes it as a letter, and reads that; how many bytes the letter has.
pub fn measure_carrying(
    rt: &(impl AllocGlobal + Clock),
    state: &State,
    edition: u32,
    name: &str,
    figures: &mut Figures,
) -> Result<usize, Fault> {
    let count = count_sessions(state);
    let (copied, copy) = time_copy(rt, state)?;
    let letter = snapshot_of(copied, edition)?;
    let written = time_write(rt, &letter);
    drop(letter);
    let (frame, write) = written?;
    let read = time_read(rt, frame.as_slice(), edition)?;
    figures.add_part(name, "copied", count, copy)?;
    figures.add_part(name, "written", count, write)?;
    figures.add_part(name, "read", count, read)?;
    Ok(frame.len())
}
