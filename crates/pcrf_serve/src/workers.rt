//! One worker for each connection.
ghost use Rattle.std.specs.Prelude.{◌≡◌, ◌≤◌, [], IfOk, IfErr, vec_len, vec_capacity};
ghost use Rattle.pcrf_serve.specs.Workers.{AllGiveBack, AllBegun, AllJoin, AllServe, BegunFrom, IsRoomFor, Joins};

use crate::conversing::serve_connection;
use crate::end::LinkEnd;
use crate::gate::Gate;
use crate::gateways::Gateways;
use crate::half::Half;
use crate::link::Server;
use crate::observer::Observer;
use crate::repeats::Unrepeated;
use site_lock::SharedSite;
use std::alloc::{AllocError, Global};
use std::io::{Read, Write};
use std::snapshot::Snapshot;
use std::sync::{Arc, Wait};
use std::thread::{self, Promise, PromisedHandle, Scope, Threads};

/// That a worker gives its seat back, with its earlier receipts as a prefix, and behind them receipts of requests and of pushes
/// to hosts alone.
#[derive(Drop)]
pub struct KeepsEarlier<S: SharedSite> {
    seat: Snapshot<S::Seat>,
}

impl<S: SharedSite> Promise<(S::Seat, LinkEnd)> for KeepsEarlier<S> {
    ghost use Rattle.pcrf_serve.specs.Earlier.{Adds};
    ghost use Rattle.pcrf_serve.specs.Serving.{IsOfConnection};

    ghost kept_by = { λ p r. Adds IsOfConnection (S.seen p.seat.value) (S.seen r.0) };
}

/// A worker that runs, or one that could not be started.
#[derive(Drop)]
enum Begun<S: SharedSite> {
    Running(PromisedHandle<(S::Seat, LinkEnd), KeepsEarlier<S>>),
    Refused(S::Seat, LinkEnd),
}

/// Begins a worker. One that can't be started ends its connection at once, since it finds no writer.
fn begin<
    's,
    E,
    T: Threads + Wait + Sync,
    S: SharedSite + Sync + 's,
    R: Read + Send + Drop + 's,
    W: Write + Send + Drop + 's,
    O: Observer + Sync + 's,
    G: Gate + Sync + 's,
>(
    rt: &'s T,
    scope: &Scope<'s, E>,
    server: &'s Server<'s, S, W, O, G>,
    seat: S::Seat,
    reader: R,
    half: Arc<Half<W>>,
    own: &Half<W>,
) -> Begun<S>
where
    S::Seat: Send,
    ensures { BegunFrom S.seen (S.seen seat) result }
{
    let promise = KeepsEarlier {
        seat: Snapshot::of(&seat),
    };
    match scope.spawn_with(
        promise,
        move || serve_connection(rt, server, seat, reader, half),
    ) {
        Ok(handle) => Begun::Running(handle),
        Err(refused) => {
            own.close(rt);
            let (seat, end) = (refused.value)();
            Begun::Refused(seat, end)
        }
    }
}

/// The half of a connection, for its worker and for who starts it.
type Pair<W> = (Arc<Half<W>>, Arc<Half<W>>);

/// Begins a worker for each connection, in order.
fn begin_all<
    's,
    E,
    T: Threads + Wait + Sync,
    S: SharedSite + Sync + 's,
    R: Read + Send + Drop + 's,
    W: Write + Send + Drop + 's,
    O: Observer + Sync + 's,
    G: Gate + Sync + 's,
>(
    rt: &'s T,
    scope: &Scope<'s, E>,
    server: &'s Server<'s, S, W, O, G>,
    connections: Vec<(S::Seat, R, W)>,
    mut halves: Vec<Pair<W>>,
    mut begun: Vec<Begun<S>>,
) -> Vec<Begun<S>>
where
    S::Seat: Send,
    requires empty { begun.items ≡ [] }
    requires room { vec_len connections ≤ vec_capacity begun }
    ensures { AllBegun S.seen connections.items result.items }
{
    for (seat, reader, writer) in connections {
        let Some((own, half)) = halves.pop() else {
            begun.push_reserved(Begun::Refused(seat, LinkEnd::NoMemory));
            continue;
        };
        own.open(rt, writer);
        begun.push_reserved(begin(rt, scope, server, seat, reader, half, &own));
    }
    begun
}

/// Waits for a worker.
fn join_one<T: Threads, S: SharedSite>(rt: &T, begun: Begun<S>) -> (S::Seat, LinkEnd)
    ensures { Joins S.seen begun result }
{
    match begun {
        Begun::Running(handle) => handle.join(rt),
        Begun::Refused(seat, end) => (seat, end),
    }
}

/// Waits for each worker, in order.
fn join_all<T: Threads, S: SharedSite>(
    rt: &T,
    begun: Vec<Begun<S>>,
    mut ended: Vec<(S::Seat, LinkEnd)>,
) -> Vec<(S::Seat, LinkEnd)>
    requires empty { ended.items ≡ [] }
    requires room { vec_len begun ≤ vec_capacity ended }
    ensures { AllJoin S.seen begun.items result.items }
{
    for worker in begun {
        ended.push_reserved(join_one(rt, worker));
    }
    ended
}

/// What workers need, reserved before any is started.
#[derive(Drop)]
struct Room<S: SharedSite, W> {
    halves: Vec<Pair<W>>,
    begun: Vec<Begun<S>>,
    ended: Vec<(S::Seat, LinkEnd)>,
}

/// A half without a writer, for its worker and for who starts it.
fn make_pair<W: Write + Drop>(alloc: Global) -> Result<Pair<W>, AllocError> {
    let half = Arc::new(alloc, Half::start())?;
    let again = Arc::try_clone(&half)?;
    Ok((half, again))
}

/// So many halves without writers.
fn make_pairs<W: Write + Drop>(alloc: Global, count: usize) -> Result<Vec<Pair<W>>, AllocError> {
    let mut pairs = Vec::with_capacity(alloc, count)?;
    for _ in 0..count {
        pairs.push(make_pair(alloc)?)?;
    }
    Ok(pairs)
}

/// Room for so many workers.
fn make_room<S: SharedSite, W: Write + Drop>(
    alloc: Global,
    count: usize,
) -> Result<Room<S, W>, AllocError>
    ensures { IfOk result (λ room. IsRoomFor count room) }
{
    let halves = make_pairs(alloc, count)?;
    let begun = Vec::with_capacity(alloc, count)?;
    let ended = Vec::with_capacity(alloc, count)?;
    Ok(Room {
        halves,
        begun,
        ended,
    })
}

/// Begins a worker for each connection, and waits for all.
fn run<
    's,
    E,
    T: Threads + Wait + Sync,
    S: SharedSite + Sync + 's,
    R: Read + Send + Drop + 's,
    W: Write + Send + Drop + 's,
    O: Observer + Sync + 's,
    G: Gate + Sync + 's,
>(
    rt: &'s T,
    scope: &Scope<'s, E>,
    server: &'s Server<'s, S, W, O, G>,
    connections: Vec<(S::Seat, R, W)>,
    room: Room<S, W>,
) -> Vec<(S::Seat, LinkEnd)>
where
    S::Seat: Send,
    requires { IsRoomFor (vec_len connections) room }
    ensures { AllServe S.seen connections.items result.items }
{
    let Room {
        halves,
        begun,
        ended,
    } = room;
    let begun = begin_all(rt, scope, server, connections, halves, begun);
    join_all(rt, begun, ended)
}

/// Serves each connection by a worker of its own, with its seat, its reader and its writer, and gives each seat back with how
/// its connection ended, in order. It is refused before any worker is started; a worker that can't be started ends its
/// connection for want of memory.
pub fn serve_sessions<
    T: Threads + Wait + Sync,
    S: SharedSite + Sync,
    R: Read + Send + Drop,
    W: Write + Send + Drop,
    O: Observer + Sync,
    G: Gate + Sync,
>(
    rt: &T,
    alloc: Global,
    site: &S,
    connections: Vec<(S::Seat, R, W)>,
    gateways: &Gateways<W, O>,
    gate: &G,
) -> Result<Vec<(S::Seat, LinkEnd)>, (AllocError, Vec<(S::Seat, R, W)>)>
where
    S::Seat: Send,
    ensures seats { IfOk result (λ ended. AllGiveBack S.seen connections.items ended.items) }
    ensures served { IfOk result (λ ended. AllServe S.seen connections.items ended.items) }
    ensures refused { IfErr result (λ refused. refused.1 ≡ connections) }
{
    let Ok(room) = make_room(alloc, connections.len()) else {
        return Err((AllocError, connections));
    };
    let all = Server {
        alloc,
        site,
        gateways,
        gate,
        repeats: &Unrepeated,
    };
    let server = &all;
    Ok(thread::scope(
        thread::scope_env(),
        rt,
        move |scope| -> Vec<(S::Seat, LinkEnd)>
            requires { IsRoomFor (vec_len connections) room }
            ensures { AllServe S.seen connections.items result.items }
        { run(rt, scope, server, connections, room) },
    ))
}
