//! The worker of a seat: it serves one connection behind the other.
use crate::socket_server::tell_connected;
use crate::staying::chairs::{Chair, Doors};
use crate::staying::exchange::Exchange;
use crate::staying::journal::{Journal, tell_ended, tell_no_memory};
use crate::staying::machine::Machine;
use crate::staying::retelling::{Losses, Remembering};
use crate::staying::status::Figures;
use log::Log;
use pcrf_serve::{Half, LinkEnd, Server, SharedSite, serve_connection};
use peer_lines::Board;
use std::alloc::{AllocError, Global};
use std::net::TcpStream;
use std::sync::Arc;
use std::sync::atomic::AtomicU64;
use std::time::Instant;
use watched_links::{Arrived, Desk, Guests, Hall, Own, Post, Posting, SentPushes, Watched};

/// What the seats of a server have beside its site.
#[derive(Drop)]
pub struct Furniture {
    pub alloc: Global,
    pub own: Own,
    pub hall: Hall,
    pub desks: Vec<Desk>,
    pub chairs: Vec<Chair>,
    pub sent: SentPushes,
    pub guests: Guests,
    /// How often the site has begun anew.
    pub beginnings: AtomicU64,
    /// Where connections wait whose requests for its status are to be answered.
    pub asking: Hall,
    /// What gateways may have lost.
    pub losses: Losses,
    /// What is counted of it.
    pub figures: Figures,
}

/// What all workers of a server share. What their connections hold has a lifetime of its own.
#[derive(Drop)]
pub struct Shared<'s, 'r, S: SharedSite, M: Machine, G> {
    pub rt: &'r M,
    pub log: &'r G,
    pub furniture: &'r Furniture,
    pub exchange: &'r Exchange,
    pub board: &'s Board<S::Seat>,
    pub server: Server<
        's,
        S,
        Posting<'r, M>,
        Journal<'r, M, G>,
        Doors<'r>,
        Remembering<'s, 'r, S, M>,
    >,
}

/// The two halves of a connection, and its post.
#[derive(Drop)]
struct Halves<'r, M: Machine> {
    reader: Watched<'r, 'r, M>,
    half: Arc<Half<Posting<'r, M>>>,
    post: Arc<Post>,
}

/// The halves of a connection. The writer beside the worker has its post then.
fn make_halves<'r, M: Machine>(
    rt: &'r M,
    furniture: &'r Furniture,
    desk: &Desk,
    stream: TcpStream,
    since: Instant,
) -> Result<Halves<'r, M>, AllocError> {
    let alloc = furniture.alloc;
    let own = &furniture.own;
    let counts = &furniture.figures.messages;
    let post = Arc::new(alloc, Post::of(alloc, stream))?;
    let half = Arc::new(alloc, Half::counting_from(own.first_end_id))?;
    let reader = Watched::start(alloc, rt, own, counts, Arc::try_clone(&post)?, since);
    let beside = Arc::try_clone(&post)?;
    half.open(
        rt,
        Posting {
            rt,
            sent: &furniture.sent,
            counts,
            post: Arc::try_clone(&post)?,
        },
    );
    desk.give(rt, beside);
    Ok(Halves { reader, half, post })
}

/// Serves one connection to its end, until all is written. The seat is free before its end is told.
fn serve_arrived<'s, 'r, S: SharedSite, M: Machine, G: Log>(
    rt: &'s M,
    all: &'s Shared<'s, 'r, S, M, G>,
    seat: S::Seat,
    desk: &'s Desk,
    arrived: Arrived,
) -> S::Seat {
    let number = all.server.site.number_of(&seat);
    let counts = &all.furniture.figures.connections;
    counts.seated.add();
    let Arrived {
        stream,
        address,
        since,
    } = arrived;
    if let Some(chair) = all.furniture.chairs.get(number) {
        chair.clear();
    }
    match make_halves(all.rt, all.furniture, desk, stream, since) {
        Ok(Halves { reader, half, post }) => {
            tell_connected(all.log, number, address);
            let (seat, end) = serve_connection(rt, &all.server, seat, reader, half);
            desk.wait(rt);
            if let Some(chair) = all.furniture.chairs.get(number) {
                chair.leave(rt, &all.furniture.guests);
            }
            all.furniture.hall.free(rt);
            counts.end(end, post.cause(rt));
            tell_ended(all.log, number, address, end, post.cause(rt));
            seat
        }
        Err(_) => {
            all.furniture.hall.free(rt);
            counts.end(LinkEnd::NoMemory, None);
            tell_no_memory(all.log, address);
            seat
        }
    }
}

/// Serves one connection behind the other at a seat, as long as the server runs.
pub fn work<'s, 'r, S: SharedSite, M: Machine, G: Log>(
    rt: &'s M,
    all: &'s Shared<'s, 'r, S, M, G>,
    seat: S::Seat,
    desk: &'s Desk,
) {
    let hall = &all.furniture.hall;
    let mut seat = seat;
    for _ in rt.forever() {
        let arrived = hall.next(rt);
        seat = serve_arrived(rt, all, seat, desk, arrived);
    }
}
