//! Scripts of worlds, several in a file: each begins at its line `sites N`. Each is run line by line, and what it prints is
//! printed. Then all its events happen in one `World::run`, and what comes of the lines by its answers is compared (`replays`): `run
//! the same`, or all of it. Nothing is left out: what a line `show` prints is what a run of the events before it leaves. Last comes
//! what no script prints (`carried`), and where a site finds something else by its index than by passes over all it holds (`passes`).
use crate::cases::carried::put_carried;
use crate::cases::passes::put_passes;
use crate::cases::replays::{Run, events_of, lines_of, put_replayed};
use crate::cases::scripts::put_script;
use crate::fault::Fault;
use op_tables::Tables;
use pcrf_world::{BadLine, Line, SiteCount, World, WorldEvent};
use std::alloc::Global;

/// How many sites the first line starts.
fn site_count(lines: &[Line]) -> Result<SiteCount, Fault> {
    match lines.first() {
        Some(Line::Sites(count)) => Ok(*count),
        _ => Err(Fault::Line(BadLine::NoWorld)),
    }
}

/// Adds what is said of one run of all events, beside what the script printed.
fn put_run(
    alloc: Global,
    tables: &Tables,
    lines: &[Line],
    events: &[WorldEvent],
    printed: &str,
    out: &mut String,
) -> Result<(), Fault> {
    let count = site_count(lines)?;
    let tables = tables.try_copy(alloc)?;
    let (world, answers) = World::run(alloc, tables, count.get() as u8, events)?;
    let mut carried = String::new(alloc);
    put_carried(alloc, &world, events, answers.as_slice(), &mut carried)?;
    put_passes(alloc, &world, count.get() as usize, &mut carried)?;
    let run = Run {
        alloc,
        count,
        events,
        world: &world,
    };
    let mut replayed = String::new(alloc);
    put_replayed(&run, lines, answers, &mut replayed)?;
    if replayed.as_str() == printed {
        out.push_str("run the same\n")?;
    } else {
        out.push_str("run otherwise\n")?;
        out.push_str(replayed.as_str())?;
    }
    Ok(out.push_str(carried.as_str())?)
}

/// Runs a script in both ways, and adds what it prints and what is said of its run.
fn put_both(alloc: Global, tables: &Tables, script: &str, out: &mut String) -> Result<(), Fault> {
    let mut printed = String::new(alloc);
    put_script(
        alloc,
        tables.try_copy(alloc)?,
        script.as_bytes(),
        &mut printed,
    )?;
    out.push_str(printed.as_str())?;
    let lines = lines_of(alloc, script)?;
    let events = events_of(alloc, lines.as_slice())?;
    put_run(
        alloc,
        tables,
        lines.as_slice(),
        events.as_slice(),
        printed.as_str(),
        out,
    )
}

/// Runs each script of a file with operator tables, and adds what all print.
pub fn put_worlds(
    alloc: Global,
    tables: &Tables,
    file: &str,
    out: &mut String,
) -> Result<(), Fault> {
    for part in file.split("\nsites ").skip(1) {
        let script = format!(in alloc; "sites {part}\n")?;
        put_both(alloc, tables, script.as_str(), out)?;
    }
    Ok(())
}
