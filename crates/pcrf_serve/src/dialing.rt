//! The side that sends letters, and reads what is acknowledged.
ghost use Rattle.std.specs.Prelude.{◌≡◌, IfOk, OnErr};
ghost use Rattle.pcrf_model.specs.Cursors.{cursors_after_ack};
ghost use Rattle.site_lock.specs.Calls.{GainsReceipt};
ghost use Rattle.pcrf_serve.specs.Earlier.{Adds, Gains};
ghost use Rattle.site_lock.specs.Epochs.{IfTold};
ghost use Rattle.site_lock.specs.Values.{event_value, reply_value};
ghost use Rattle.pcrf_serve.specs.Exchanging.{Exchanged, IsIdle};
ghost use Rattle.pcrf_serve.specs.Lives.{IfLetter, IsCounted, epoch_in};
ghost use Rattle.pcrf_serve.specs.Turns.{MakesLetter, Tells, asked_event, asked_past, asked_position};

use crate::end::LinkEnd;
use crate::gate::Gate;
use crate::letters::Letters;
use crate::peer_link::Link;
use pcrf_values::limits::LAST_EPOCH;
use peer_exchange::{Ack, Cursors, Letter, LetterFault};
use site_lock::{Event, Grown, SharedSite, StepFault};
use std::io::{Read, Write};
use std::sync::Wait;
use std::thread::Threads;

/// In which epoch a site is, as who sends its letters knows it: the one that it started in, and how often it began anew since.
#[derive(Clone, Copy)]
struct Life {
    first: u16,
    begun: u16,
}

/// The turn that is the next, whether it is let in already, and how often the site had begun anew by then.
#[derive(Clone, Copy)]
struct Next {
    message: u32,
    is_in: bool,
    begun: u16,
}

impl Next {
    /// The first turn of a connection.
    const FIRST: Next = Next {
        message: 0,
        is_in: false,
        begun: 0,
    };

    /// A turn in which the site was found to have begun anew.
    fn within(message: u32, begun: u16) -> Next {
        Next {
            message,
            is_in: true,
            begun,
        }
    }
}

/// A letter of the site in the epoch that it was thought to be in; or how often it has begun anew, where it is in another.
#[derive(Drop)]
enum Written {
    Letter(Letter),
    BegunAnew(u16),
}

/// What a letter was answered; or how often the site has begun anew, where it is in another epoch and no letter was sent.
#[derive(Clone, Copy)]
enum Sent {
    Acknowledged(Ack),
    BegunAnew(u16),
}

/// What the site is to be asked for a letter, from which position of its log on, and past which length of its log; at once
/// where none is given.
#[derive(Drop)]
struct Question {
    event: Event,
    from: u64,
    past: Option<u64>,
}

/// The question of the next turn. The peer is who acknowledged first; before, all that the site holds is asked for.
fn next_question(cursors: &Cursors, first: Option<Ack>) -> Question
    ensures event { event_value result.event ≡ asked_event cursors.now first }
    ensures from { result.from ≡ asked_position (event_value result.event) }
    ensures past { result.past ≡ asked_past cursors.now first }
{
    let Some(first) = first else {
        return Question {
            event: Event::AskWhole,
            from: 0,
            past: None,
        };
    };
    let peer = first.sender();
    let taken = match cursors.peer(peer) {
        Some(known) => known.taken(),
        None => 0,
    };
    // The whole is asked for where nothing was taken: from 0 on.
    Question {
        event: cursors.ask(peer),
        from: taken,
        past: Some(taken),
    }
}

/// Asks the site at once, and is told its reply if it has begun anew just so often.
fn ask_at_once<T: Threads + Wait + Sync, A: SharedSite>(
    rt: &T,
    site: &A,
    seat: &mut A::Seat,
    event: &Event,
    begun: u16,
) -> Result<Grown, StepFault>
    ensures receipt { IfOk result (λ grown. IfTold grown (λ reply. GainsReceipt
        (A.seen seat.old) (event_value event.now) reply (A.seen seat.new))) }
    ensures answered { IfOk result (λ grown. IfTold grown (λ reply.
        A.answered (A.seen seat.new) begun)) }
    ensures asked { Adds (λ asked. asked ≡ event_value event.now)
        (A.seen seat.old) (A.seen seat.new) }
{
    let told = site.call_dated(rt, seat, event)?;
    if told.begun != begun {
        return Ok(Grown::BegunAnew(told.begun));
    }
    Ok(Grown::Told(told.reply))
}

/// Asks the site what is to be asked, and is told its reply if it has begun anew just so often.
fn ask<T: Threads + Wait + Sync, A: SharedSite>(
    rt: &T,
    site: &A,
    seat: &mut A::Seat,
    question: &Question,
    begun: u16,
) -> Result<Grown, StepFault>
    ensures receipt { IfOk result (λ grown. IfTold grown (λ reply. GainsReceipt
        (A.seen seat.old) (event_value question.now.event) reply (A.seen seat.new))) }
    ensures answered { IfOk result (λ grown. IfTold grown (λ reply.
        A.answered (A.seen seat.new) begun)) }
    ensures past { IfOk result (λ grown. IfTold grown (Tells question.now.past)) }
    ensures asked { Adds (λ asked. asked ≡ event_value question.now.event)
        (A.seen seat.old) (A.seen seat.new) }
{
    match question.past {
        None => ask_at_once(rt, site, seat, &question.event, begun),
        Some(past) => site.call_grown_since(rt, seat, &question.event, past, begun),
    }
}

/// The letter of the next turn, if the site is in that epoch: what it made is told under the epoch in which it made it.
fn next_letter<T: Threads + Wait + Sync, A: SharedSite>(
    rt: &T,
    site: &A,
    seat: &mut A::Seat,
    cursors: &Cursors,
    first: Option<Ack>,
    life: Life,
) -> Result<Written, LinkEnd>
    requires { cursors.now.epoch ≡ epoch_in life }
    ensures made { IfOk result (λ written. IfLetter written (λ letter. MakesLetter
        cursors.now (A.beside site.now).edition first (A.seen seat.old) letter (A.seen seat.new))) }
    ensures answered { IfOk result (λ written. IfLetter written (λ letter.
        A.answered (A.seen seat.new) life.begun)) }
    ensures epoch { IfOk result (λ written. IfLetter written (λ letter.
        letter.epoch ≡ epoch_in life)) }
    ensures idle { Gains IsIdle (A.seen seat.old) (A.seen seat.new) }
{
    let question = next_question(cursors, first);
    let asked = ask(rt, site, seat, &question, life.begun);
    let from = question.from;
    drop(question);
    let grown = match asked {
        Ok(grown) => grown,
        Err(fault) => return Err(LinkEnd::from(fault)),
    };
    let reply = match grown {
        Grown::Told(reply) => reply,
        Grown::BegunAnew(begun) => return Ok(Written::BegunAnew(begun)),
    };
    match cursors.letter_of(site.edition(), from, reply) {
        Some(letter) => Ok(Written::Letter(letter)),
        // It is more than a letter carries.
        None => Err(LinkEnd::Letter(LetterFault::TooLong)),
    }
}

/// Reads an acknowledgement, and counts it.
fn acknowledged<S: Read + Write>(
    cursors: &mut Cursors,
    letters: &mut Letters<S>,
) -> Result<Ack, LinkEnd>
    ensures counted { IfOk result (λ ack. cursors.new ≡ cursors_after_ack cursors.old ack) }
    ensures err { OnErr result (cursors.new ≡ cursors.old) }
{
    let letter = letters.read()?;
    let Some(ack) = Ack::carried_by(&letter) else {
        return Err(LinkEnd::Letter(LetterFault::BadShape));
    };
    cursors.take_ack(&ack);
    Ok(ack)
}

/// Sends one letter, and reads its acknowledgement, if the site is in that epoch.
fn send_letter<T: Threads + Wait + Sync, A: SharedSite, S: Read + Write>(
    rt: &T,
    site: &A,
    seat: &mut A::Seat,
    cursors: &mut Cursors,
    letters: &mut Letters<S>,
    first: Option<Ack>,
    life: Life,
) -> Result<Sent, LinkEnd>
    requires { cursors.old.epoch ≡ epoch_in life }
    ensures counted { IfOk result (λ sent. IsCounted cursors.old sent cursors.new) }
    ensures not_counted { OnErr result (cursors.new ≡ cursors.old) }
    ensures idle { Gains IsIdle (A.seen seat.old) (A.seen seat.new) }
{
    let letter = match next_letter(rt, site, seat, cursors, first, life)? {
        Written::Letter(letter) => letter,
        Written::BegunAnew(begun) => return Ok(Sent::BegunAnew(begun)),
    };
    letters.write(&letter)?;
    let ack = acknowledged(cursors, letters)?;
    Ok(Sent::Acknowledged(ack))
}

/// Sends the letters of the turns that are left, each once the one before is acknowledged and the site has grown past what the peer
/// took. Where the site is in another epoch it answers which turn is the next, and how often the site has begun anew.
fn send_in_epoch<T: Threads + Wait + Sync, A: SharedSite, P, G: Gate, S: Read + Write>(
    rt: &T,
    link: &Link<'_, A, P, G>,
    seat: &mut A::Seat,
    cursors: &mut Cursors,
    letters: &mut Letters<S>,
    life: Life,
    from: Next,
    turns: u32,
) -> Result<Option<Next>, LinkEnd>
    requires { cursors.old.epoch ≡ epoch_in life }
    ensures makers { cursors.new.makers ≡ cursors.old.makers }
    ensures idle { Gains IsIdle (A.seen seat.old) (A.seen seat.new) }
{
    let connection = link.site.number_of(seat);
    let mut is_in = from.is_in;
    let mut first: Option<Ack> = None;
    for message in from.message..turns {
        link.enter_once(connection, message, is_in)?;
        let ack = match send_letter(rt, link.site, seat, cursors, letters, first, life)? {
            Sent::Acknowledged(ack) => ack,
            Sent::BegunAnew(begun) => return Ok(Some(Next::within(message, begun))),
        };
        if first.is_none() {
            first = Some(ack);
        }
        link.leave(connection, message)?;
        is_in = false;
    }
    Ok(None)
}

/// Sends the letters of the turns that are left in the epoch that the site is in by now, by cursors that begin with it.
fn go_on<T: Threads + Wait + Sync, A: SharedSite, P, G: Gate, S: Read + Write>(
    rt: &T,
    link: &Link<'_, A, P, G>,
    seat: &mut A::Seat,
    given: &Cursors,
    letters: &mut Letters<S>,
    from: Next,
    turns: u32,
) -> Result<Option<Next>, LinkEnd>
    ensures { Gains IsIdle (A.seen seat.old) (A.seen seat.new) }
{
    let first = given.epoch();
    let begun = from.begun;
    let Some(epoch) = first.checked_add(begun) else {
        // A letter has no room for such an epoch.
        return Err(LinkEnd::Letter(LetterFault::TooLong));
    };
    let mut cursors = Cursors::start(given.site(), epoch);
    let life = Life { first, begun };
    send_in_epoch(rt, link, seat, &mut cursors, letters, life, from, turns)
}

/// Sends so many letters, the first ones in the epoch of the cursors, in which the site started. Once the site has begun anew the
/// others are of its present epoch, and all that it holds goes to the peer first; the cursors that were given stay as they are
/// then.
pub(crate) fn send_letters<T: Threads + Wait + Sync, A: SharedSite, P, G: Gate, S: Read + Write>(
    rt: &T,
    link: &Link<'_, A, P, G>,
    seat: &mut A::Seat,
    cursors: &mut Cursors,
    letters: &mut Letters<S>,
    turns: u32,
) -> Result<(), LinkEnd>
    ensures { Exchanged (A.seen seat.old) (A.seen seat.new) cursors.old.makers cursors.new.makers }
{
    let started = Life {
        first: cursors.epoch(),
        begun: 0,
    };
    let mut next = send_in_epoch(
        rt,
        link,
        seat,
        cursors,
        letters,
        started,
        Next::FIRST,
        turns,
    )?;
    // A site is in no more epochs than these.
    for _ in 0..LAST_EPOCH {
        let Some(from) = next else { break };
        next = go_on(rt, link, seat, cursors, letters, from, turns)?;
    }
    Ok(())
}
