//! What an event gave, compared with what it gives at a site or in a world in which nothing is refused.
use crate::makers::Answer;
use pcrf_world::{World, WorldEvent, WorldFault};
use site_book::Receipt;
use site_machine::{Event, Reply, Site};
use std::alloc::Global;

/// How many operations of a letter stand, where memory was refused.
pub fn taken(answer: &Answer) -> Option<usize> {
    match answer {
        Err(WorldFault::NoMemory { taken }) => Some(*taken),
        _ => None,
    }
}

/// All that two answers say is the same.
fn same_answers(alloc: Global, ours: &Answer, theirs: &Answer) -> Option<bool> {
    let ours = format!(in alloc; "{ours:?}").ok()?;
    let theirs = format!(in alloc; "{theirs:?}").ok()?;
    Some(ours.as_str() == theirs.as_str())
}

/// Has an event happen in a world: whether it gives this there. None where there is no memory to tell.
pub fn gives(
    alloc: Global,
    world: &mut World,
    event: &WorldEvent,
    answer: &Answer,
) -> Option<bool> {
    let wanted = world.step(event);
    let is_same = same_answers(alloc, answer, &wanted);
    drop(wanted);
    is_same
}

/// Has events happen in a world: whether it gives these answers. Those that were refused, and of which nothing stands, don't happen.
pub fn gives_all(
    alloc: Global,
    world: &mut World,
    events: &[WorldEvent],
    answers: &[Answer],
) -> Option<bool> {
    for (event, answer) in events.iter().zip(answers) {
        if taken(answer) != Some(0) && !gives(alloc, world, event, answer)? {
            return Some(false);
        }
    }
    Some(events.len() == answers.len())
}

/// Fewer operations stand than an event has a site take.
pub fn is_short(event: &Event, reply: &Reply) -> bool {
    match (event, reply) {
        (Event::Ops(operations), Reply::Taken(count)) => *count < operations.len(),
        _ => false,
    }
}

/// Has an event happen at a site: whether it replies so. Where fewer operations than all stand, it takes these. None where there is no
/// memory for it.
pub fn replies(site: &mut Site, event: &Event, reply: &Reply) -> Option<bool> {
    if let (Event::Ops(operations), Reply::Taken(count)) = (event, reply) {
        let first = operations.as_slice().get(..*count)?;
        return Some(site.take_all(first).is_ok());
    }
    let wanted = site.step(event).ok()?;
    let is_same = wanted.equal(reply);
    drop(wanted);
    Some(is_same)
}

/// Has what receipts say happen at a site: whether it replies what they say. None where there is no memory for it.
pub fn follows(site: &mut Site, receipts: &[Receipt]) -> Option<bool> {
    for receipt in receipts {
        if !replies(site, receipt.event(), receipt.reply())? {
            return Some(false);
        }
    }
    Some(true)
}
