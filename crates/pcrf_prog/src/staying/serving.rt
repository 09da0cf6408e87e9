//! A server that stays, from its start on.
ghost use Rattle.std.specs.Prelude.{◌≡◌, ◌≤◌};
ghost use Rattle.site_lock.specs.Sound.{AreNames};

use crate::seeding::drawn_seed;
use crate::socket_server::{Addresses, ServerFault, SiteEpoch, tell_listens, tell_no_start};
use crate::staying::accepting::accept_all;
use crate::staying::answers::RecentAnswers;
use crate::staying::chairs::{Doors, chairs};
use crate::staying::exchange::{Exchange, accept_links, dial_on, take_links};
use crate::staying::forgetting_ended::Forgetting;
use crate::staying::going_over::look_for_moved;
use crate::staying::journal::{
    Journal, tell_no_taking_over, tell_uncounted, tell_unkept, tell_unlinked_peer, tell_unstaffed,
};
use crate::staying::keeping::{EpochKeeper, Housekeeper, Keeping, keep_house};
use crate::staying::machine::Machine;
use crate::staying::retelling::{Losses, Remembering};
use crate::staying::showing::{Console, Input, Output, show_on};
use crate::staying::sockets::{address_of, bind};
use crate::staying::status::{ASKS, Figures, Looked, accept_asks, answer_asks, count_sessions};
use crate::staying::working::{Furniture, Shared, work};
use dia_base::Identity;
use log::Log;
use op_tables::Tables;
use pcrf_serve::{Gateways, Server, SharedSite, Site, first_end_id};
use pcrf_values::Ranked;
use peer_lines::{Board, Expected, Hearing, Key, Opening, Slot};
use site_lock::{LivingSite, Roll, Roster};
use site_looks::MeteredSite;
use std::alloc::{AllocError, Global};
use std::io;
use std::marker::Brand;
use std::net::{SocketAddr, SocketAddrV4, TcpListener};
use std::random::RandomSource;
use std::sync::Mutex;
use std::sync::atomic::AtomicU64;
use std::thread::{self, Scope};
use std::time::{Clock, Duration};
use watched_links::{Desk, Guests, Hall, Own, Posting, Quiet, SentPushes, desks};

/// What a server that stays is told beside its names and tables.
#[derive(Clone, Copy)]
pub struct StaySettings<'a> {
    /// Which site it is.
    pub place: SiteEpoch,
    /// How many connections it serves at once.
    pub connections: usize,
    /// After how many seconds without a byte a peer is asked whether it is there.
    pub watchdog: u16,
    /// How many seconds it waits at most before it serves, until a peer site told it all.
    pub wait: u16,
    /// For how many seconds a peer site may have no link before the sessions of its gateways are taken over that are connected here.
    pub over: u16,
    /// How many seconds behind a push that a gateway refused its session is told again.
    pub again: u16,
    /// How many operations of its own it makes in an epoch at most before it begins the next.
    pub log_limit: u64,
    /// How many seconds a session that ended is kept at least.
    pub keep_ended: u32,
    /// The file that says its epoch, if one does.
    pub epoch_file: Option<&'a str>,
    /// The secret that all sites have, if they have one.
    pub secret: Option<Key>,
    /// Where it can be asked over HTTP, if it can.
    pub status: Option<&'a str>,
    /// Where it and its peer sites are.
    pub addresses: Addresses<'a>,
}

/// The same names.
fn copied(identity: &Identity) -> Result<Identity, AllocError> {
    Ok(Identity {
        host: identity.host.try_copy()?,
        realm: identity.realm.try_copy()?,
        address: identity.address,
        form: identity.form,
        state: identity.state,
    })
}

/// From where the End-to-End Identifiers of a site count that starts now: no start within an hour has them (RFC 6733, 3).
fn first_now<R: Clock + RandomSource>(rt: &R) -> io::Result<u32> {
    let seconds = rt.since_1970()?.as_secs();
    let mut bytes = [0u8; 4];
    rt.fill_bytes(&mut bytes)?;
    Ok(first_end_id(seconds, u32::from_be_bytes(bytes)))
}

/// What the seats have beside their site.
fn furnished<M: Machine, G: Log>(
    rt: &M,
    alloc: Global,
    identity: &Identity,
    settings: &StaySettings<'_>,
    log: &G,
) -> Result<Furniture, ServerFault> {
    let watchdog = Duration::from_secs(u64::from(settings.watchdog));
    let first = match first_now(rt) {
        Ok(first) => first,
        Err(error) => {
            tell_no_start(log, &error);
            return Err(ServerFault::Network);
        }
    };
    let own = Own::start(copied(identity)?, watchdog, first);
    let desks = desks(alloc, settings.connections)?;
    let chairs = chairs(alloc, settings.connections)?;
    Ok(Furniture {
        alloc,
        own,
        hall: Hall::start(alloc, settings.connections),
        desks,
        chairs,
        sent: SentPushes::start(alloc),
        guests: Guests::start(alloc),
        beginnings: AtomicU64::new(0),
        asking: Hall::start(alloc, ASKS),
        losses: Losses::start(alloc, settings.again),
        figures: Figures::start(
            rt,
            alloc,
            settings.addresses.peers.len(),
            settings.status.is_some(),
        )?,
    })
}

/// The sockets of a server that stays.
#[derive(Drop)]
struct Sockets {
    /// Where gateways and application functions connect.
    serving: TcpListener,
    /// Where peer sites connect.
    exchanging: TcpListener,
    /// Where it can be asked over HTTP.
    asking: Option<TcpListener>,
}

/// Seats of a server: of who serves, of who sends letters, of who asks for those how much there is, of who shows what the site holds, of
/// who looks how long its log is, of who takes over sessions, and of who tells sessions again before a request.
#[derive(Drop)]
struct Seats<S: Drop> {
    serving: Vec<S>,
    sending: Vec<S>,
    asking: Vec<S>,
    showing: Option<S>,
    keeping: Option<S>,
    going: Option<S>,
    retelling: Option<S>,
}

impl<S: Drop> Seats<S> {
    /// Gives a seat to the exchange with peer sites, some to who takes letters.
    fn give(
        &mut self,
        seat: S,
        number: usize,
        taking: &mut Vec<Slot<S>>,
    ) -> Result<(), AllocError> {
        match number % SEATS_OF_A_PEER {
            0 => self.sending.push(seat)?,
            1 => self.asking.push(seat)?,
            _ => taking.push(Slot::of(seat))?,
        }
        Ok(())
    }
}

/// How many seats there are beside those of connections and of peer sites.
const OTHER_SEATS: usize = 4;

/// How many seats there are for each peer site.
const SEATS_OF_A_PEER: usize = 3;

/// How many links may be open at once for each peer site, also before their first letters.
const LINKS_OF_A_PEER: usize = 3;

/// For how many seconds it isn't told again that a link was closed before its first letter, and that sites disagree.
const CLOSED_SECONDS: u64 = 1;

const DISAGREED_SECONDS: u64 = 60;

/// Each seat with what it is for, those apart at which letters are taken.
fn seated<S: SharedSite>(
    alloc: Global,
    site: &S,
    all: Vec<S::Seat>,
    connections: usize,
) -> Result<(Seats<S::Seat>, Vec<Slot<S::Seat>>), AllocError> {
    let mut taking = Vec::new(alloc);
    let mut seats = Seats {
        serving: Vec::new(alloc),
        sending: Vec::new(alloc),
        asking: Vec::new(alloc),
        showing: None,
        keeping: None,
        going: None,
        retelling: None,
    };
    for seat in all {
        let number = site.number_of(&seat);
        if number < connections {
            seats.serving.push(seat)?;
        } else if number == connections {
            seats.showing = Some(seat);
        } else if number - connections == 1 {
            seats.keeping = Some(seat);
        } else if number - connections == 2 {
            seats.going = Some(seat);
        } else if number - connections == 3 {
            seats.retelling = Some(seat);
        } else {
            let number = (number - connections).saturating_sub(OTHER_SEATS);
            seats.give(seat, number, &mut taking)?;
        }
    }
    Ok((seats, taking))
}

/// Starts the worker of a seat, and the writer beside it: whether both run.
fn staff<'s, 'r, E, S: SharedSite + Sync + 's, M: Machine, G: Log + Sync>(
    rt: &'s M,
    scope: &Scope<'s, E>,
    all: &'s Shared<'s, 'r, S, M, G>,
    seat: S::Seat,
    desk: &'s Desk,
) -> bool
where
    S::Seat: Send,
{
    if scope.spawn(move || desk.write(rt)).is_err() {
        return false;
    }
    scope.spawn(move || work(rt, all, seat, desk)).is_ok()
}

/// Starts the workers that serve.
fn staff_all<'s, 'r, E, S: SharedSite + Sync + 's, M: Machine, G: Log + Sync>(
    rt: &'s M,
    scope: &Scope<'s, E>,
    all: &'s Shared<'s, 'r, S, M, G>,
    seats: Vec<S::Seat>,
)
where
    S::Seat: Send,
{
    let furniture = all.furniture;
    for seat in seats {
        let number = all.server.site.number_of(&seat);
        let Some(desk) = furniture.desks.get(number) else {
            continue;
        };
        if !staff(rt, scope, all, seat, desk) {
            tell_unstaffed(all.log, number);
            furniture.hall.lose(rt);
        }
    }
}

/// Starts the workers that send letters to peer sites.
fn send_all<'s, 'r, E, S: SharedSite + Sync + 's, M: Machine, G: Log + Sync>(
    rt: &'s M,
    scope: &Scope<'s, E>,
    all: &'s Shared<'s, 'r, S, M, G>,
    sending: Vec<S::Seat>,
    asking: Vec<S::Seat>,
)
where
    S::Seat: Send,
{
    let (mut sending, mut asking) = (sending, asking);
    for (place, peer) in all.exchange.peers.iter().enumerate() {
        let address = SocketAddr::V4(*peer);
        let (Some(seat), Some(probe)) = (sending.pop(), asking.pop()) else {
            continue;
        };
        let begun = scope.spawn(move || dial_on(rt, all, seat, probe, address, place));
        if begun.is_err() {
            tell_unlinked_peer(all.log, address);
        }
    }
}

/// Starts the workers that take letters of peer sites, and who accepts links.
fn take_all<'s, 'r, E, S: SharedSite + Sync + 's, M: Machine, G: Log + Sync>(
    rt: &'s M,
    scope: &Scope<'s, E>,
    all: &'s Shared<'s, 'r, S, M, G>,
    listener: &'s TcpListener,
)
where
    S::Seat: Send,
{
    let exchange = all.exchange;
    for _ in 0..LINKS_OF_A_PEER {
        for _peer in &exchange.peers {
            if scope.spawn(move || take_links(rt, all)).is_err() {
                exchange.hall.lose(rt);
            }
        }
    }
    let _ = scope.spawn(move || accept_links(rt, all, listener));
}

/// Starts who shows what the site holds.
fn show_all<
    's,
    'r,
    E,
    S: SharedSite + Sync + 's,
    M: Machine,
    G: Log + Sync,
    R: Input + 's,
    W: Output + 's,
>(
    rt: &'s M,
    scope: &Scope<'s, E>,
    all: &'s Shared<'s, 'r, S, M, G>,
    showing: Option<S::Seat>,
    tables: &'s Tables,
    console: Console<R, W>,
)
where
    S::Seat: Send,
{
    match showing {
        Some(seat) => {
            let _ = scope.spawn(move || show_on(rt, all, seat, tables, console));
        }
        None => drop(console),
    }
}

/// Starts who answers what is asked over HTTP.
fn answer_all<'s, 'r, E, S: Looked + Sync + 's, M: Machine, G: Log + Sync>(
    rt: &'s M,
    scope: &Scope<'s, E>,
    all: &'s Shared<'s, 'r, S, M, G>,
    asking: Option<&'s TcpListener>,
)
where
    S::Seat: Send,
{
    let Some(listener) = asking else {
        return;
    };
    for _ in 0..ASKS {
        if scope.spawn(move || answer_asks(rt, all)).is_err() {
            all.furniture.asking.lose(rt);
        }
    }
    let _ = scope.spawn(move || accept_asks(rt, all, listener));
    if scope.spawn(move || count_sessions(rt, all)).is_err() {
        tell_uncounted(all.log);
    }
}

/// Starts who has the site begin its next epoch.
fn keep_all<
    's,
    'r,
    E,
    S: SharedSite + Sync + 's,
    M: Machine,
    G: Log + Sync,
    K: Housekeeper<S> + Send + 's,
>(
    rt: &'s M,
    scope: &Scope<'s, E>,
    all: &'s Shared<'s, 'r, S, M, G>,
    keeping: Option<S::Seat>,
    premises: &Premises,
    keeper: K,
)
where
    S::Seat: Send,
{
    let alloc = premises.furniture.alloc;
    match keeping {
        Some(seat) => {
            let kept = Keeping {
                seat,
                limit: premises.log_limit,
                keeper,
                forgetting: Forgetting::start(alloc, premises.keep_ended),
            };
            let begun = scope.spawn(move || keep_house(rt, all, kept));
            if begun.is_err() {
                tell_unkept(all.log);
            }
        }
        None => drop(keeper),
    }
}

/// Starts who takes over the sessions of gateways that went over to this site, where there are other sites.
fn go_over_all<'s, 'r, E, S: SharedSite + Sync + 's, M: Machine, G: Log + Sync>(
    rt: &'s M,
    scope: &Scope<'s, E>,
    all: &'s Shared<'s, 'r, S, M, G>,
    going: Option<S::Seat>,
)
where
    S::Seat: Send,
{
    if all.exchange.peers.is_empty() {
        return;
    }
    if let Some(seat) = going {
        let begun = scope.spawn(move || look_for_moved(rt, all, seat));
        if begun.is_err() {
            tell_no_taking_over(all.log);
        }
    }
}

/// Accepts connections as long as the server runs: at once, or where there are peer sites once one told it all.
fn serve_all<'s, 'r, S: SharedSite, M: Machine, G: Log>(
    rt: &'s M,
    all: &'s Shared<'s, 'r, S, M, G>,
    premises: &'s Premises,
) {
    if !all.exchange.peers.is_empty() {
        all.board.wait(rt, u64::from(premises.wait));
    }
    let Sockets {
        serving,
        exchanging,
        asking: _,
    } = &premises.sockets;
    if let (Ok(listen), Ok(exchange)) = (serving.local_addr(), exchanging.local_addr()) {
        tell_listens(all.log, listen, exchange);
    }
    let furniture = all.furniture;
    let count = furniture.desks.len();
    furniture.figures.site.serving.put(1);
    let refused = &furniture.figures.connections.refused;
    accept_all(rt, &furniture.hall, count, serving, refused, all.log);
}

/// Starts all workers, and serves as long as the server runs.
fn stay<
    's,
    'r,
    E,
    S: Looked + Sync + 's,
    M: Machine,
    G: Log + Sync,
    R: Input + 's,
    W: Output + 's,
    K: Housekeeper<S> + Send + 's,
>(
    rt: &'s M,
    scope: &Scope<'s, E>,
    all: &'s Shared<'s, 'r, S, M, G>,
    seats: Seats<S::Seat>,
    premises: &'s Premises,
    console: Console<R, W>,
    keeper: K,
)
where
    S::Seat: Send,
{
    let Seats {
        serving,
        sending,
        asking,
        showing,
        keeping,
        going,
        retelling: _,
    } = seats;
    answer_all(rt, scope, all, premises.sockets.asking.as_ref());
    show_all(rt, scope, all, showing, &premises.tables, console);
    keep_all(rt, scope, all, keeping, premises, keeper);
    go_over_all(rt, scope, all, going);
    staff_all(rt, scope, all, serving);
    send_all(rt, scope, all, sending, asking);
    take_all(rt, scope, all, &premises.sockets.exchanging);
    serve_all(rt, all, premises);
}

/// What a server that stays is told, and what it has made of that. Nothing of it changes.
#[derive(Drop)]
struct Premises {
    furniture: Furniture,
    exchange: Exchange,
    sockets: Sockets,
    tables: Tables,
    wait: u16,
    log_limit: u64,
    keep_ended: u32,
}

/// Serves with what all workers share.
fn serve_shared<'s, 'r, S: Looked + Sync, M: Machine, G: Log + Sync, R: Input, W: Output, K>(
    rt: &'r M,
    premises: &'r Premises,
    site: &'s S,
    gateways: &'s Gateways<Posting<'r, M>, Journal<'r, M, G>>,
    doors: &'s Doors<'r>,
    repeats: &'s Remembering<'s, 'r, S, M>,
    board: &'s Board<S::Seat>,
    seats: Seats<S::Seat>,
    console: Console<R, W>,
    log: &'r G,
    keeper: K,
)
where
    S::Seat: Send,
    K: Housekeeper<S> + Send,
{
    let all = Shared {
        rt,
        log,
        furniture: &premises.furniture,
        exchange: &premises.exchange,
        board,
        server: Server {
            alloc: premises.furniture.alloc,
            site,
            gateways,
            gate: doors,
            repeats,
        },
    };
    let shared = &all;
    thread::scope(
        thread::scope_env(),
        rt,
        move |scope| stay(rt, scope, shared, seats, premises, console, keeper),
    )
}

/// Serves with all seats.
fn serve_seated<'r, S: Looked + Sync, M: Machine, G: Log + Sync, R: Input, W: Output, K>(
    rt: &'r M,
    premises: &'r Premises,
    site: &S,
    all: Vec<S::Seat>,
    console: Console<R, W>,
    log: &'r G,
    keeper: K,
) -> Result<(), AllocError>
where
    S::Seat: Send,
    K: Housekeeper<S> + Send,
{
    let alloc = premises.furniture.alloc;
    let chairs = premises.furniture.chairs.as_slice();
    let (mut seats, taking) = seated(alloc, site, all, chairs.len())?;
    let board = Board::start(taking);
    let journal = Journal {
        rt,
        log,
        chairs,
        sent: &premises.furniture.sent,
        guests: &premises.furniture.guests,
        figures: &premises.furniture.figures.site,
        losses: &premises.furniture.losses,
    };
    let gateways = Gateways::falling_back(alloc, journal);
    let repeats = Remembering {
        kept: RecentAnswers::start(alloc, rt, site.seed())?,
        losses: &premises.furniture.losses,
        site,
        tables: &premises.tables,
        seat: Mutex::new(seats.retelling.take()),
    };
    let doors = Doors { chairs };
    serve_shared(
        rt, premises, site, &gateways, &doors, &repeats, &board, seats, console, log, keeper,
    );
    Ok(())
}

/// Serves at a site whose history stands in the proofs alone.
fn serve_living<'r, L: Roll + Send + Sync, M: Machine, G: Log + Sync, R: Input, W: Output>(
    rt: &'r M,
    alloc: Global,
    roster: Roster,
    site: Site,
    premises: &'r Premises,
    console: Console<R, W>,
    log: &'r G,
    epoch_file: Option<&'r str>,
) -> Result<(), ServerFault>
    requires names { AreNames L.name_of L.seats roster.seats }
    requires keeper { roster.keeper ≡ L.keeper }
    requires opening { site.state ≡ L.opening }
{
    let Ok((site, seats, keeper)) = LivingSite::<L>::start(alloc, roster, site) else {
        return Err(ServerFault::NoMemory);
    };
    let keeper = EpochKeeper::starting(alloc, keeper, premises.exchange.place, epoch_file);
    let metered = MeteredSite::of(site, rt, &premises.furniture.figures.meters);
    let served = serve_seated(rt, premises, &metered, seats, console, log, keeper);
    drop(metered);
    Ok(served?)
}

/// The addresses of the peer sites.
fn peers_of<G: Log>(
    alloc: Global,
    texts: &[&str],
    log: &G,
) -> Result<Vec<SocketAddrV4>, ServerFault> {
    let mut peers = Vec::with_capacity(alloc, texts.len())?;
    for text in texts {
        peers.push(address_of(text, log)?)?;
    }
    Ok(peers)
}

/// What a server knows of the exchange with its peer sites.
fn exchange_of<C: Clock, G: Log>(
    rt: &C,
    alloc: Global,
    edition: u32,
    settings: &StaySettings<'_>,
    log: &G,
) -> Result<Exchange, ServerFault> {
    let peers = peers_of(alloc, settings.addresses.peers, log)?;
    let links = peers.len().saturating_mul(LINKS_OF_A_PEER);
    Ok(Exchange {
        place: settings.place,
        opening: Opening {
            alloc,
            expected: Expected {
                edition,
                number: settings.place.number,
            },
            secret: settings.secret,
        },
        peers,
        hosts: Hearing::start(alloc, rt, settings.place.number)?,
        patience: u64::from(settings.over).saturating_mul(1_000),
        letters: AtomicU64::new(0),
        hall: Hall::start(alloc, links),
        closed: Mutex::new(Quiet::of(CLOSED_SECONDS)),
        ended: Mutex::new(Quiet::of(CLOSED_SECONDS)),
        disagreed: Mutex::new(Quiet::of(DISAGREED_SECONDS)),
    })
}

/// Runs a server that stays: it binds its sockets, serves so many connections at once, one behind the other at each seat, and exchanges
/// letters with its peer sites, as long as the process runs. On its console it shows what it holds, where a line asks for that. The log is told what
/// happens.
pub fn run_staying<M: Machine, G: Log + Sync, R: Input, W: Output>(
    rt: &M,
    alloc: Global,
    identity: Identity,
    tables: Tables,
    settings: &StaySettings<'_>,
    console: Console<R, W>,
    log: &G,
) -> Result<(), ServerFault> {
    let seed = drawn_seed(rt, log)?;
    let exchange = exchange_of(rt, alloc, tables.edition(), settings, log)?;
    let seats = exchange.peers.len().saturating_mul(SEATS_OF_A_PEER);
    let serving = bind(rt, settings.addresses.listen, log)?;
    let exchanging = bind(rt, settings.addresses.exchange, log)?;
    let asking = match settings.status {
        Some(address) => Some(bind(rt, address, log)?),
        None => None,
    };
    let furniture = furnished(rt, alloc, &identity, settings, log)?;
    let shown = tables.try_copy(alloc)?;
    let premises = Premises {
        exchange,
        sockets: Sockets {
            serving,
            exchanging,
            asking,
        },
        furniture,
        tables: shown,
        wait: settings.wait,
        log_limit: settings.log_limit,
        keep_ended: settings.keep_ended,
    };
    let site = Site::seeded(alloc, tables, identity, settings.place.number, seed);
    let others = seats.saturating_add(OTHER_SEATS);
    let roster = Roster::new(alloc, settings.connections.saturating_add(others))?;
    let file = settings.epoch_file;
    serve_living::<Brand, M, G, R, W>(rt, alloc, roster, site, &premises, console, log, file)
}
