//! The side that takes letters, and acknowledges them.
ghost use Rattle.std.specs.Prelude.{◌≡◌, IfOk, OnOk, OnErr};
ghost use Rattle.pcrf_model.specs.Cursors.{ack_of, cursors_after_letter};
ghost use Rattle.pcrf_model.specs.Worlds.{ByCursors, cursors_after};
ghost use Rattle.pcrf_serve.specs.Earlier.{Gains};
ghost use Rattle.site_lock.specs.Values.{event_value, reply_value};
ghost use Rattle.pcrf_serve.specs.Exchanging.{Exchanged, GainsPart, GainsWhole, IsIdle, TakesIn, takes_whole};
ghost use Rattle.pcrf_serve.specs.Headings.{IsOpened, letter_with};
ghost use Rattle.pcrf_serve.specs.Turns.{answer_to};

use crate::end::LinkEnd;
use crate::gate::Gate;
use crate::heading::Heading;
use crate::letters::Letters;
use crate::peer_link::Link;
use crate::pushes::Pushes;
use peer_exchange::{Ack, Cursors, Letter};
use site_lock::{Event, Reply, SharedSite};
use std::alloc::Global;
use std::io::{Read, Write};
use std::sync::Wait;
use std::thread::Threads;

/// Whether the reply says that all of the event was taken.
fn is_whole(event: &Event, reply: &Reply) -> bool
    ensures { result ≡ takes_whole (event_value event.now) (reply_value reply.now) }
{
    match (event, reply) {
        (Event::Ops(operations), Reply::Taken(count)) => *count == operations.len(),
        (Event::Whole(_), Reply::Done) => true,
        _ => false,
    }
}

/// Has the site take what a letter brings. What is taken in part stands, for want of memory.
fn take_whole<T: Threads + Wait + Sync, A: SharedSite>(
    rt: &T,
    site: &A,
    seat: &mut A::Seat,
    event: &Event,
) -> Result<(), LinkEnd>
    ensures whole { OnOk result
        (GainsWhole (A.seen seat.old) (A.seen seat.new) (event_value event.now)) }
    ensures part { OnErr result
        (GainsPart (A.seen seat.old) (A.seen seat.new) (event_value event.now)) }
{
    let reply = match site.call(rt, seat, event) {
        Ok(reply) => reply,
        Err(fault) => return Err(LinkEnd::from(fault)),
    };
    if !is_whole(event, &reply) {
        return Err(LinkEnd::NoMemory);
    }
    Ok(())
}

/// Takes what a letter brings, counts the letter once it is taken whole, and tells what its sender is to be told.
fn take_brought<T: Threads + Wait + Sync, A: SharedSite>(
    rt: &T,
    site: &A,
    seat: &mut A::Seat,
    cursors: &mut Cursors,
    heading: Heading,
    event: Event,
) -> Result<Ack, LinkEnd>
    requires { IsOpened heading (event_value event) }
    ensures counted { OnOk result (cursors.new
        ≡ cursors_after_letter cursors.old (letter_with heading (event_value event))) }
    ensures ack { IfOk result (λ ack. ack ≡ ack_of cursors.new heading.site) }
    ensures whole { OnOk result
        (GainsWhole (A.seen seat.old) (A.seen seat.new) (event_value event)) }
    ensures not_counted { OnErr result (cursors.new ≡ cursors.old) }
    ensures part { OnErr result
        (GainsPart (A.seen seat.old) (A.seen seat.new) (event_value event)) }
{
    take_whole(rt, site, seat, &event)?;
    let letter = heading.close(event);
    Ok(cursors.take_letter(&letter))
}

/// Takes a letter, and tells what its sender is to be told; nothing after an acknowledgement, which is counted.
fn take<T: Threads + Wait + Sync, A: SharedSite>(
    rt: &T,
    site: &A,
    seat: &mut A::Seat,
    cursors: &mut Cursors,
    letter: Letter,
) -> Result<Option<Ack>, LinkEnd>
    ensures counted { OnOk result (cursors.new ≡ cursors_after ByCursors cursors.old letter) }
    ensures answer { IfOk result (λ answer. answer ≡ answer_to cursors.new letter) }
    ensures whole { OnOk result (TakesIn (A.seen seat.old) (A.seen seat.new) letter.body) }
    ensures not_counted { OnErr result (cursors.new ≡ cursors.old) }
    ensures part { OnErr result (Gains IsIdle (A.seen seat.old) (A.seen seat.new)) }
    ensures exchanged { Exchanged (A.seen seat.old) (A.seen seat.new)
        cursors.old.makers cursors.new.makers }
{
    if let Some(ack) = Ack::carried_by(&letter) {
        cursors.take_ack(&ack);
        return Ok(None);
    }
    let Some((heading, event)) = Heading::open(letter) else {
        unreachable!()
    };
    let ack = take_brought(rt, site, seat, cursors, heading, event)?;
    Ok(Some(ack))
}

/// Reads one letter, takes it, has pushed what is then due, and acknowledges it.
fn take_letter<T: Threads + Wait + Sync, A: SharedSite, P: Pushes, G: Gate, S: Read + Write>(
    rt: &T,
    alloc: Global,
    link: &Link<'_, A, P, G>,
    seat: &mut A::Seat,
    cursors: &mut Cursors,
    letters: &mut Letters<S>,
    message: u32,
) -> Result<(), LinkEnd>
    ensures { Exchanged (A.seen seat.old) (A.seen seat.new) cursors.old.makers cursors.new.makers }
{
    let letter = letters.read()?;
    link.enter(link.site.number_of(seat), message)?;
    let Some(ack) = take(rt, link.site, seat, cursors, letter)? else {
        return link.leave(link.site.number_of(seat), message);
    };
    link.gateways.push_all(rt, alloc, link.site, seat)?;
    letters.acknowledge(&ack)?;
    link.leave(link.site.number_of(seat), message)
}

/// Takes so many letters.
pub(crate) fn take_letters<
    T: Threads + Wait + Sync,
    A: SharedSite,
    P: Pushes,
    G: Gate,
    S: Read + Write,
>(
    rt: &T,
    alloc: Global,
    link: &Link<'_, A, P, G>,
    seat: &mut A::Seat,
    cursors: &mut Cursors,
    letters: &mut Letters<S>,
    turns: u32,
) -> Result<(), LinkEnd>
    ensures { Exchanged (A.seen seat.old) (A.seen seat.new) cursors.old.makers cursors.new.makers }
{
    for message in 0..turns {
        take_letter(rt, alloc, link, seat, cursors, letters, message)?;
    }
    Ok(())
}
