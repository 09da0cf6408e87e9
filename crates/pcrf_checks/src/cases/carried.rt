//! What no script prints of a world: how far its sites took each other, what its pushes, aborts and letters are as bytes, and
//! what all its letters tell together.
use crate::cases::questions::mixed;
use crate::cases::replays::put_anew;
use crate::fault::Fault;
use crate::makers::Answer;
use gx_profile::write_rar;
use op_tables::Tables;
use pcrf_values::limits::SITE_LIMIT;
use pcrf_world::{World, WorldEvent, WorldOutcome};
use peer_exchange::{Cursor, Cursors, Letter, LetterFault, read_letter, write_letter};
use rx_profile::write_asr;
use std::alloc::{AllocError, Global};
use std::fmt::Write as _;

/// Adds how far a site took operations, or was said to be taken.
fn put_cursor(out: &mut String, other: u8, cursor: Cursor) -> Result<(), AllocError> {
    write!(out, " {other}:{}/{}", cursor.epoch(), cursor.taken())
}

/// Adds what a site took of each maker of which it took anything, and what each peer said that it took.
fn put_cursors(out: &mut String, site: usize, cursors: &Cursors) -> Result<(), AllocError> {
    write!(out, "site {site} epoch {} took", cursors.epoch())?;
    for other in 0..SITE_LIMIT {
        let taken = cursors.maker(other);
        if taken.epoch() > 0 {
            put_cursor(out, other, taken)?;
        }
    }
    out.push_str(" said")?;
    for other in 0..SITE_LIMIT {
        if let Some(said) = cursors.peer(other) {
            put_cursor(out, other, said)?;
        }
    }
    out.push_str("\n")
}

/// Adds the re-authorisation requests of all pushes.
fn put_pushes(
    alloc: Global,
    world: &World,
    events: &[WorldEvent],
    answers: &[Answer],
    out: &mut String,
) -> Result<(), AllocError> {
    out.push_str("pushes")?;
    for (event, answer) in events.iter().zip(answers) {
        if let (WorldEvent::Push(i, _), Ok(WorldOutcome::Pushed(Some(push)))) = (event, answer)
            && let Some(site) = world.site(*i)
        {
            let bytes = write_rar(alloc, site.identity(), 1, 2, push)?;
            write!(out, " {:08x}", mixed(bytes.as_slice()))?;
        }
    }
    out.push_str("\n")
}

/// Adds the abort session requests of all aborts.
fn put_aborts(
    alloc: Global,
    world: &World,
    events: &[WorldEvent],
    answers: &[Answer],
    out: &mut String,
) -> Result<(), AllocError> {
    out.push_str("aborts")?;
    for (event, answer) in events.iter().zip(answers) {
        if let (WorldEvent::Abort(i, _), Ok(WorldOutcome::Aborted(Some(abort)))) = (event, answer)
            && let Some(site) = world.site(*i)
        {
            let bytes = write_asr(alloc, site.identity(), 7, 8, abort)?;
            write!(out, " {:08x}", mixed(bytes.as_slice()))?;
        }
    }
    out.push_str("\n")
}

/// How many letters there are.
fn letter_count(world: &World) -> usize {
    for k in 0..usize::MAX {
        if world.letter(k).is_none() {
            return k;
        }
    }
    usize::MAX
}

/// A letter as bytes, and as these are read.
fn read_again(alloc: Global, letter: &Letter) -> Result<(Vec<u8>, Letter), LetterFault> {
    let bytes = write_letter(alloc, letter)?;
    let read = read_letter(alloc, bytes.as_slice(), letter.edition())?;
    Ok((bytes, read))
}

/// Adds a letter as it is written once it was read, and whether its own bytes are others.
fn put_letter(alloc: Global, letter: &Letter, out: &mut String) -> Result<(), LetterFault> {
    let (bytes, read) = read_again(alloc, letter)?;
    let written = write_letter(alloc, &read)?;
    write!(out, " {:08x}", mixed(written.as_slice()))?;
    if written.as_slice() != bytes.as_slice() {
        out.push_str("!")?;
    }
    Ok(())
}

/// Adds all letters.
fn put_letters(alloc: Global, world: &World, out: &mut String) -> Result<(), Fault> {
    out.push_str("letters")?;
    for k in 0..letter_count(world) {
        if let Some(letter) = world.letter(k)
            && put_letter(alloc, letter, out).is_err()
        {
            return Err(Fault::NoEnd);
        }
    }
    Ok(out.push_str("\n")?)
}

/// Has the only site of a world take a letter of another as its bytes are read, if there is one of this number.
fn take(alloc: Global, world: &mut World, from: &World, k: usize) -> Result<(), Fault> {
    let Some(letter) = from.letter(k) else {
        return Ok(());
    };
    let Ok((_, read)) = read_again(alloc, letter) else {
        return Err(Fault::NoEnd);
    };
    let number = world.post(read)?;
    match world.step(&WorldEvent::Merge(0, number)) {
        Ok(_) => Ok(()),
        Err(_) => Err(Fault::NoMemory),
    }
}

/// A world of one site that took all letters of another world, the first or the last one first.
fn taken(alloc: Global, tables: Tables, from: &World, is_first: bool) -> Result<World, Fault> {
    let mut world = World::start(alloc, tables, 1)?;
    let count = letter_count(from);
    for k in 0..count {
        let number = if is_first { k } else { count - 1 - k };
        take(alloc, &mut world, from, number)?;
    }
    Ok(world)
}

/// Adds what all letters tell together, as one number, and whether they tell otherwise where the last one is taken first.
fn put_together(alloc: Global, from: &World, out: &mut String) -> Result<(), Fault> {
    let forwards = taken(alloc, from.tables().try_copy(alloc)?, from, true)?;
    let backwards = taken(alloc, from.tables().try_copy(alloc)?, from, false)?;
    let (Some(site), Some(other)) = (forwards.site(0), backwards.site(0)) else {
        return Ok(());
    };
    let mut text = String::new(alloc);
    put_anew(alloc, site, &mut text)?;
    write!(out, "together {:08x}", mixed(text.as_bytes()))?;
    if !site.sessions().equal(other.sessions()) {
        out.push_str(", otherwise backwards")?;
    }
    Ok(out.push_str("\n")?)
}

/// Adds how far each site of a world took operations, or was said to be taken.
fn put_all_cursors(world: &World, out: &mut String) -> Result<(), AllocError> {
    for site in 0..usize::from(SITE_LIMIT) {
        if let Some(cursors) = world.cursors(site) {
            put_cursors(out, site, cursors)?;
        }
    }
    Ok(())
}

/// Adds all that of a world in which these events gave these answers.
pub fn put_carried(
    alloc: Global,
    world: &World,
    events: &[WorldEvent],
    answers: &[Answer],
    out: &mut String,
) -> Result<(), Fault> {
    put_all_cursors(world, out)?;
    put_pushes(alloc, world, events, answers, out)?;
    put_aborts(alloc, world, events, answers, out)?;
    put_letters(alloc, world, out)?;
    put_together(alloc, world, out)
}
