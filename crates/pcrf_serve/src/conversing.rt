//! A connection is served to its end.
ghost use Rattle.std.specs.Prelude.{◌≡◌};
ghost use Rattle.dia_codec.specs.Spelling.{IsFrame};
ghost use Rattle.pcrf_serve.specs.Earlier.{Adds, HasEarlier};
ghost use Rattle.pcrf_serve.specs.Events.{IsPushToHost};
ghost use Rattle.pcrf_serve.specs.Serving.{IsOfConnection};

use crate::end::LinkEnd;
use crate::gate::Gate;
use crate::half::Half;
use crate::link::{Link, Server};
use crate::observer::Observer;
use crate::push_answers::tell_push_answer;
use crate::pushing::push_all;
use crate::repeats::Repeats;
use crate::seat_at_site::SeatAtSite;
use dia_codec::{Assembler, FrameFault};
use site_core::{Answer, answer_frame};
use site_lock::SharedSite;
use std::alloc::{AllocError, Global};
use std::io::{Read, Write};
use std::sync::{Arc, Wait};
use std::thread::Threads;

/// How many bytes are read at once: more than a message has, so that many answers go out by one write.
const PIECE_BYTES: usize = 1 << 16;

/// Has a frame answered.
fn answer<T: Threads + Wait + Sync, S: SharedSite, O: Observer>(
    alloc: Global,
    at: &mut SeatAtSite<'_, T, S, O>,
    frame: &[u8],
) -> Result<Answer, AllocError>
    requires { IsFrame frame.now }
    ensures { Adds IsOfConnection (S.seen at.old.seat) (S.seen at.new.seat) }
{
    let answer = answer_frame(alloc, at, frame)?;
    Ok(answer)
}

/// Pushes to every gateway that can be reached what the last message may have led to.
fn push<T: Threads + Wait + Sync, S: SharedSite, W: Write + Drop, O: Observer, G: Gate, K: Repeats>(
    rt: &T,
    alloc: Global,
    at: &mut SeatAtSite<'_, T, S, O>,
    link: &mut Link<'_, W, O, G, K>,
) -> Result<(), AllocError>
    ensures { Adds IsPushToHost (S.seen at.old.seat) (S.seen at.new.seat) }
{
    push_all(
        rt,
        alloc,
        at.site,
        &mut at.seat,
        link.gateways,
        &mut link.outgoing,
    )
}

/// Gathers an answer. The host of a capabilities exchange that it accepts is registered first, and one whose request it grants is
/// followed.
fn gather<
    T: Threads + Wait + Sync,
    S: SharedSite,
    W: Write + Drop,
    O: Observer,
    G: Gate,
    K: Repeats,
>(
    rt: &T,
    at: &mut SeatAtSite<'_, T, S, O>,
    link: &mut Link<'_, W, O, G, K>,
    answer: &Answer,
) -> Result<(), AllocError>
    ensures { at.new.seat ≡ at.old.seat }
{
    if let Some(peer) = at.take_accepted() {
        link.register(rt, peer.host)?;
    }
    if let Some(host) = at.take_followed() {
        link.follow(rt, host)?;
    }
    link.gather(answer.bytes.as_slice())
}

/// Has one frame answered, its answer gathered, and if it was served kept, and pushes made. True if the connection ends with it.
fn serve_anew<
    T: Threads + Wait + Sync,
    S: SharedSite,
    W: Write + Drop,
    O: Observer,
    G: Gate,
    K: Repeats,
>(
    rt: &T,
    alloc: Global,
    at: &mut SeatAtSite<'_, T, S, O>,
    link: &mut Link<'_, W, O, G, K>,
    frame: &[u8],
) -> Result<bool, LinkEnd>
    requires { IsFrame frame.now }
    ensures { Adds IsOfConnection (S.seen at.old.seat) (S.seen at.new.seat) }
{
    let calls = at.calls();
    let answer = answer(alloc, at, frame)?;
    gather(rt, at, link, &answer)?;
    if at.calls() > calls {
        link.keep(rt, frame, answer.bytes.as_slice());
        push(rt, alloc, at, link)?;
    } else {
        tell_push_answer(alloc, link.gateways.observer(), frame);
    }
    Ok(answer.last)
}

/// Has one frame answered: by the answer that is kept for it, if it repeats a request, or else anew. True if the connection ends with it.
fn serve_frame<
    T: Threads + Wait + Sync,
    S: SharedSite,
    W: Write + Drop,
    O: Observer,
    G: Gate,
    K: Repeats,
>(
    rt: &T,
    alloc: Global,
    at: &mut SeatAtSite<'_, T, S, O>,
    link: &mut Link<'_, W, O, G, K>,
    frame: &[u8],
) -> Result<bool, LinkEnd>
    requires { IsFrame frame.now }
    ensures { Adds IsOfConnection (S.seen at.old.seat) (S.seen at.new.seat) }
{
    link.enter()?;
    if link.repeat(rt, frame)? {
        return Ok(false);
    }
    link.prepare(rt, at.site.identity(), frame)?;
    serve_anew(rt, alloc, at, link, frame)
}

/// Serves each whole frame that was fed. An error is how the connection ends among them.
fn drain<
    T: Threads + Wait + Sync,
    S: SharedSite,
    W: Write + Drop,
    O: Observer,
    G: Gate,
    K: Repeats,
>(
    rt: &T,
    alloc: Global,
    at: &mut SeatAtSite<'_, T, S, O>,
    link: &mut Link<'_, W, O, G, K>,
    assembler: &mut Assembler,
) -> Result<(), LinkEnd>
    ensures { Adds IsOfConnection (S.seen at.old.seat) (S.seen at.new.seat) }
{
    for _ in rt.forever() {
        match assembler.next() {
            Ok(Some(frame)) => {
                if serve_frame(rt, alloc, at, link, frame.as_slice())? {
                    return Err(LinkEnd::Disconnected);
                }
            }
            Ok(None) => return Ok(()),
            Err(FrameFault::NoMemory) => return Err(LinkEnd::NoMemory),
            Err(fault) => return Err(LinkEnd::Frame(fault)),
        }
    }
    unreachable!()
}

/// Reads and serves what is whole, and writes the answers to what came by one read together, until the connection ends.
fn serve_stream<
    T: Threads + Wait + Sync,
    S: SharedSite,
    R: Read,
    W: Write + Drop,
    O: Observer,
    G: Gate,
    K: Repeats,
>(
    rt: &T,
    alloc: Global,
    at: &mut SeatAtSite<'_, T, S, O>,
    link: &mut Link<'_, W, O, G, K>,
    reader: &mut R,
) -> Result<LinkEnd, LinkEnd>
    ensures { Adds IsOfConnection (S.seen at.old.seat) (S.seen at.new.seat) }
{
    let mut assembler = Assembler::start(alloc);
    let mut piece: Vec<u8> = vec![in alloc; 0; PIECE_BYTES]?;
    for _ in rt.forever() {
        let Ok(count) = reader.read(piece.as_mut_slice()) else {
            return Ok(LinkEnd::ReadFailed);
        };
        if count == 0 {
            return Ok(if assembler.is_empty() {
                LinkEnd::Closed
            } else {
                LinkEnd::Cut
            });
        }
        if assembler.feed(&piece[..count]).is_err() {
            return Ok(LinkEnd::NoMemory);
        }
        drain(rt, alloc, at, link, &mut assembler)?;
        link.flush(rt)?;
    }
    unreachable!()
}

/// Serves a connection to its end. What was gathered is written whatever the end is, and comes before it.
fn converse<
    T: Threads + Wait + Sync,
    S: SharedSite,
    R: Read,
    W: Write + Drop,
    O: Observer,
    G: Gate,
    K: Repeats,
>(
    rt: &T,
    alloc: Global,
    at: &mut SeatAtSite<'_, T, S, O>,
    link: &mut Link<'_, W, O, G, K>,
    reader: &mut R,
) -> LinkEnd
    ensures { Adds IsOfConnection (S.seen at.old.seat) (S.seen at.new.seat) }
{
    let end = match serve_stream(rt, alloc, at, link, reader) {
        Ok(end) | Err(end) => end,
    };
    let flushed = link.flush(rt);
    link.close(rt);
    match flushed {
        Ok(()) => end,
        Err(end) => end,
    }
}

/// Serves one connection at one seat to its end, and gives the seat back with how it ended: it made requests and pushes happen,
/// and nothing else. Without a writer it serves nothing: there was no memory for its worker.
pub fn serve_connection<
    'a,
    T: Threads + Wait + Sync,
    S: SharedSite,
    R: Read + Drop,
    W: Write + Drop,
    O: Observer,
    G: Gate,
    K: Repeats,
>(
    rt: &'a T,
    server: &'a Server<'a, S, W, O, G, K>,
    seat: S::Seat,
    mut reader: R,
    half: Arc<Half<W>>,
) -> (S::Seat, LinkEnd)
    ensures earlier { HasEarlier (S.seen seat) (S.seen result.0) }
    ensures served { Adds IsOfConnection (S.seen seat) (S.seen result.0) }
{
    let number = server.site.number_of(&seat);
    let observer = server.gateways.observer();
    if !half.is_open(rt) {
        observer.ended(number, LinkEnd::NoMemory);
        return (seat, LinkEnd::NoMemory);
    }
    let mut link = Link::start(server, number, &half);
    let mut at = SeatAtSite::of(rt, server.site, observer, seat);
    let end = converse(rt, server.alloc, &mut at, &mut link, &mut reader);
    observer.ended(number, end);
    (at.into_seat(), end)
}
