//! Operator tables: their text read again and again, copies, and look-ups of access points.
use crate::fault::{Fault, Unmeasured};
use op_tables::{Tables, read_tables};
use pcrf_values::Apn;
use std::alloc::{AllocError, AllocGlobal, Global};
use std::time::{Clock, Duration, Instant};

/// Reads the text so often, and tells how long that takes.
pub fn time_reading(
    rt: &(impl AllocGlobal + Clock),
    text: &str,
    rounds: u32,
) -> Result<Duration, Fault> {
    let start = Instant::now(rt)?;
    for _ in 0..rounds {
        drop(read_tables(rt.alloc(), text)?);
    }
    Ok(start.elapsed(rt)?)
}

/// Copies the tables so often, and tells how long that takes.
pub fn time_copying(
    rt: &(impl AllocGlobal + Clock),
    tables: &Tables,
    rounds: u32,
) -> Result<Duration, Fault> {
    let start = Instant::now(rt)?;
    for _ in 0..rounds {
        drop(tables.try_copy(rt.alloc())?);
    }
    Ok(start.elapsed(rt)?)
}

/// An access point name.
fn name_of(alloc: Global, word: &str) -> Result<Apn, Fault> {
    match Apn::folded(alloc, word.as_bytes())? {
        Some(name) => Ok(name),
        None => Err(Fault::Unmeasured(Unmeasured::NoApn)),
    }
}

/// The access point names of words.
fn names_of(alloc: Global, words: &str) -> Result<Vec<Apn>, Fault> {
    let mut names = Vec::new(alloc);
    for word in words.split(' ') {
        let name = name_of(alloc, word)?;
        names.push(name)?;
    }
    Ok(names)
}

/// How many access points of these names are found that have rules.
fn count_found(tables: &Tables, names: &[Apn]) -> usize {
    let mut found = 0_usize;
    for name in names {
        let rules = tables.apn(name).map_or(0, |point| point.rules().len());
        found = found.saturating_add(usize::from(rules > 0));
    }
    found
}

/// Looks access points up so often, which all have rules, and tells how long that takes.
fn time_names(
    rt: &impl Clock,
    tables: &Tables,
    names: &[Apn],
    rounds: u32,
) -> Result<Duration, Fault> {
    let start = Instant::now(rt)?;
    for _ in 0..rounds {
        if count_found(tables, names) != names.len() {
            return Err(Fault::Unmeasured(Unmeasured::NoAccessPoint));
        }
    }
    Ok(start.elapsed(rt)?)
}

/// How many access points are looked up so often, by their names, and how long that takes.
pub fn time_look_ups(
    rt: &(impl AllocGlobal + Clock),
    tables: &Tables,
    words: &str,
    rounds: u32,
) -> Result<(usize, Duration), Fault> {
    let names = names_of(rt.alloc(), words)?;
    let time = time_names(rt, tables, names.as_slice(), rounds)?;
    Ok((names.len(), time))
}
