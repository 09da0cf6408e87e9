//! A server from its start to its settled history.
ghost use Rattle.std.specs.Prelude.{◌≡◌, ◌≤◌};
ghost use Rattle.pcrf_serve.specs.Limits.{most_seats};

use crate::seeding::drawn_seed;
use crate::socket_server::accepting::{Accepted, Reading, Writing, places};
use crate::socket_server::exchanging::{Begun, Exchange, Exchanges, begin, join};
use crate::socket_server::fault::ServerFault;
use crate::socket_server::journal::Journal;
use crate::socket_server::open::Open;
use crate::socket_server::settings::Settings;
use crate::socket_server::sockets::{Sockets, open_sockets};
use dia_base::Identity;
use log::Log;
use op_tables::Tables;
use pcrf_serve::{
    Gateways, HISTORY_LIMIT, LinkEnd, LockedSite, Observer, Pushes, Seat, Site, serve_sessions,
};
use std::alloc::{AllocError, Global};
use std::io::{Read, Write};
use std::marker::Brand;
use std::net::{Net, TcpListener, TcpStream};
use std::random::RandomSource;
use std::sync::Wait;
use std::sync::ledger::{Blank, Ledger};
use std::thread::{self, Scope, Threads};
use std::time::Clock;

/// What the workers of a server begin with, and room for what they give back.
#[derive(Drop)]
struct Work<'a, L: Ledger, R, W> {
    connections: Vec<(Seat<L>, R, W)>,
    exchanges: Vec<Exchange<'a, L>>,
    begun: Vec<Begun<L>>,
    back: Vec<Seat<L>>,
}

impl<'a, L: Ledger, G: Log> Work<'a, L, Reading<'a, G>, Writing<'a>> {
    /// Nothing yet, with room for what begins.
    fn room(alloc: Global, connections: usize, exchanges: usize) -> Result<Self, AllocError> {
        Ok(Work {
            connections: Vec::with_capacity(alloc, connections)?,
            exchanges: Vec::with_capacity(alloc, exchanges)?,
            begun: Vec::new(alloc),
            back: Vec::new(alloc),
        })
    }

    /// With room for what is given back too.
    fn reserve(&mut self) -> Result<(), AllocError> {
        self.begun.reserve(self.exchanges.len())?;
        self.back.reserve(self.exchanges.len())?;
        self.back.reserve(self.connections.len())
    }

    /// Gives a seat its connection: the first ones serve, and the others exchange letters.
    fn assign(
        &mut self,
        seat: Seat<L>,
        places: &'a [Accepted],
        sockets: &'a Sockets,
        log: &'a G,
    ) -> Result<(), AllocError> {
        let number = seat.number();
        if let Some(place) = places.get(number) {
            let reading = Reading {
                listener: &sockets.listener,
                place,
                number,
                log,
            };
            self.connections.push((seat, reading, Writing { place }))?;
        } else if let Some(link) = sockets.peers.get(number.saturating_sub(places.len())) {
            self.exchanges.push(Exchange { seat, link })?;
        }
        Ok(())
    }
}

/// Each seat with its connection, and all room that is needed.
fn assigned<'a, L: Ledger, G: Log>(
    alloc: Global,
    seats: Vec<Seat<L>>,
    places: &'a [Accepted],
    sockets: &'a Sockets,
    log: &'a G,
) -> Result<Work<'a, L, Reading<'a, G>, Writing<'a>>, AllocError> {
    let mut work = Work::room(alloc, places.len(), seats.len())?;
    for seat in seats {
        work.assign(seat, places, sockets, log)?;
    }
    work.reserve()?;
    Ok(work)
}

/// Begins each exchange.
fn begin_all<
    's,
    E,
    T: Threads + Wait + Sync,
    L: Ledger + Send + Sync + 's,
    P: Pushes + Sync + 's,
    G: Log + Sync + 's,
>(
    rt: &'s T,
    scope: &Scope<'s, E>,
    all: &'s Exchanges<'s, L, P, G>,
    exchanges: Vec<Exchange<'s, L>>,
    mut begun: Vec<Begun<L>>,
) -> Result<Vec<Begun<L>>, AllocError> {
    for exchange in exchanges {
        begun.push(begin(rt, scope, all, exchange))?;
    }
    Ok(begun)
}

/// Waits for each exchange, and puts the seats behind those that came back.
fn join_all<T: Threads, L: Ledger>(
    rt: &T,
    begun: Vec<Begun<L>>,
    mut back: Vec<Seat<L>>,
) -> Result<Vec<Seat<L>>, AllocError> {
    for worker in begun {
        back.push(join(rt, worker))?;
    }
    Ok(back)
}

/// The seats that came back from connections, put behind the others.
fn seats_of<L: Ledger>(
    ended: Vec<(Seat<L>, LinkEnd)>,
    mut back: Vec<Seat<L>>,
) -> Result<Vec<Seat<L>>, AllocError> {
    for (seat, _end) in ended {
        back.push(seat)?;
    }
    Ok(back)
}

/// Serves every connection while letters are exchanged, and gives all seats back.
fn serve_all<
    's,
    E,
    T: Threads + Wait + Sync,
    L: Ledger + Send + Sync + 's,
    R: Read + Send + Drop,
    W: Write + Send + Drop + 's,
    O: Observer + Sync + 's,
    G: Log + Sync + 's,
>(
    rt: &'s T,
    scope: &Scope<'s, E>,
    all: &'s Exchanges<'s, L, Gateways<W, O>, G>,
    work: Work<'s, L, R, W>,
) -> Result<Vec<Seat<L>>, AllocError> {
    let Work {
        connections,
        exchanges,
        begun,
        back,
    } = work;
    let begun = begin_all(rt, scope, all, exchanges, begun)?;
    let served = serve_sessions(rt, all.alloc, all.site, connections, all.gateways, &Open);
    let back = join_all(rt, begun, back)?;
    match served {
        Ok(ended) => seats_of(ended, back),
        Err(_refused) => Err(AllocError),
    }
}

/// Starts all workers of a server, and gives all seats back when they have ended.
fn serve_work<
    T: Threads + Wait + Sync,
    L: Ledger + Send + Sync,
    R: Read + Send + Drop,
    W: Write + Send + Drop,
    O: Observer + Sync,
    G: Log + Sync,
>(
    rt: &T,
    alloc: Global,
    site: &LockedSite<L>,
    gateways: &Gateways<W, O>,
    work: Work<'_, L, R, W>,
    settings: &Settings<'_>,
    log: &G,
) -> Result<Vec<Seat<L>>, AllocError> {
    let all = Exchanges {
        alloc,
        site,
        gateways,
        place: settings.place,
        turns: settings.turns,
        log,
    };
    let shared = &all;
    thread::scope(
        thread::scope_env(),
        rt,
        move |scope| serve_all(rt, scope, shared, work),
    )
}

/// Serves at a locked site until every connection has ended, and gives all seats back.
fn serve_at<'a, T: Threads + Wait + Sync, L: Ledger + Send + Sync, G: Log + Sync>(
    rt: &T,
    alloc: Global,
    site: &LockedSite<L>,
    seats: Vec<Seat<L>>,
    settings: &Settings<'_>,
    places: &'a [Accepted],
    sockets: &'a Sockets,
    log: &'a G,
) -> Result<Vec<Seat<L>>, AllocError> {
    let gateways = Gateways::observed(alloc, Journal::of(log, HISTORY_LIMIT));
    let work = assigned(alloc, seats, places, sockets, log)?;
    serve_work(rt, alloc, site, &gateways, work, settings, log)
}

/// Settles the history, and tells how many entries it has.
fn settle<L: Ledger>(
    site: LockedSite<L>,
    seats: Result<Vec<Seat<L>>, AllocError>,
) -> Result<usize, ServerFault> {
    let seats = seats?;
    match site.settle(seats) {
        Ok(settled) => {
            let entries = settled.pages().entries();
            drop(settled);
            Ok(entries)
        }
        Err(unsettled) => {
            drop(unsettled);
            Err(ServerFault::Unsettled)
        }
    }
}

/// Locks a site, serves, and settles.
fn serve_locked<T: Threads + Wait + Sync, L: Ledger + Send + Sync, G: Log + Sync>(
    rt: &T,
    alloc: Global,
    blank: Blank,
    site: Site,
    count: usize,
    settings: &Settings<'_>,
    places: &[Accepted],
    sockets: &Sockets,
    log: &G,
) -> Result<usize, ServerFault>
    requires name { blank.name ≡ L.name }
    requires parts { blank.parts ≡ L.parts }
    requires one_each { blank.parts ≡ count }
    requires seats { (1 ≤ count) × (count ≤ most_seats) }
{
    let Ok((site, seats)) = LockedSite::<L>::start(alloc, blank, site, count, HISTORY_LIMIT) else {
        return Err(ServerFault::NoMemory);
    };
    let seats = serve_at(rt, alloc, &site, seats, settings, places, sockets, log);
    settle(site, seats)
}

/// Runs a server: binds its sockets, meets its peer sites, accepts its connections and serves them, each by a worker of its own,
/// and when all have ended settles the history and tells how many entries it has. The log is told what happens meanwhile.
pub fn run_server<
    R: Net<Listener = TcpListener, Stream = TcpStream>
        + Threads
        + Wait
        + Clock
        + RandomSource
        + Sync,
    G: Log + Sync,
>(
    rt: &R,
    alloc: Global,
    identity: Identity,
    tables: Tables,
    settings: &Settings<'_>,
    log: &G,
) -> Result<usize, ServerFault> {
    let seed = drawn_seed(rt, log)?;
    let sockets = open_sockets(rt, alloc, &settings.addresses, log)?;
    let places = places(alloc, settings.plan.connections)?;
    let site = Site::seeded(alloc, tables, identity, settings.place.number, seed);
    let count = settings.plan.seats();
    let blank = Blank::new(count as u64);
    serve_locked::<R, Brand, G>(
        rt,
        alloc,
        blank,
        site,
        count,
        settings,
        places.as_slice(),
        &sockets,
        log,
    )
}
