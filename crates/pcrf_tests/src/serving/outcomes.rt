//! Three connections at a site, served to their ends. A function that owns a seat or a site has nothing that may end it.
ghost use Rattle.std.specs.Prelude.{◌≡◌, ◌≤◌};
ghost use Rattle.site_book.specs.Limits.{most_entries};

use crate::books::{Settlement, opened, settled};
use crate::serving::connections::{Input, Keeping, Pieces, Place, Written};
use crate::serving::frames::put_frames;
use crate::serving::gates::Writes;
use crate::serving::notes::{Notes, Told};
use crate::sites::new_site;
use pcrf_serve::{Gate, Gateways, LinkEnd, serve_sessions};
use site_book::Seat;
use site_lock::LockedSite;
use std::alloc::{AllocError, Global};
use std::fmt::Write as _;
use std::process::Abort;
use std::sync::ledger::{Blank, Ledger};
use std::sync::{Mutex, Wait};
use std::thread::Threads;

/// How a connection ended, and what was written to it.
#[derive(Drop)]
pub struct Served {
    pub end: LinkEnd,
    pub written: Written,
}

/// How three connections ended, what an observer was told meanwhile, what was left if the history settled, and how many
/// gateways could still be reached.
#[derive(Drop)]
pub struct Outcome {
    pub served: Vec<Served>,
    pub told: Told,
    pub left: Option<Settlement>,
    pub reached: usize,
}

/// A connection with its seat.
type Connection<'a, L, R, G> = (Seat<L>, Pieces, Keeping<'a, R, G>);

/// Room for what is written to so many connections.
fn places(alloc: Global, count: usize) -> Result<Vec<Place>, AllocError> {
    let mut places = Vec::with_capacity(alloc, count)?;
    for _ in 0..count {
        let written = Written {
            bytes: Vec::new(alloc),
            writes: 0,
        };
        places.push(Mutex::new(written))?;
    }
    Ok(places)
}

/// A seat with its connection.
fn connected<'a, L: Ledger, R: Wait, G: Writes>(
    rt: &'a R,
    seat: Seat<L>,
    input: Input,
    place: &'a Place,
    told: &'a G,
) -> Connection<'a, L, R, G> {
    let Input {
        pieces,
        failing_read,
        failing_write,
    } = input;
    let writer = Keeping {
        rt,
        connection: seat.number(),
        place,
        failing: failing_write,
        told,
    };
    (seat, Pieces::of(pieces, failing_read), writer)
}

/// The seats with their connections.
fn connect<'a, L: Ledger, R: Wait, G: Writes>(
    rt: &'a R,
    alloc: Global,
    seats: Vec<Seat<L>>,
    inputs: Vec<Input>,
    places: &'a [Place],
    told: &'a G,
) -> Result<Vec<Connection<'a, L, R, G>>, AllocError> {
    let mut connections = Vec::with_capacity(alloc, places.len())?;
    for ((seat, input), place) in seats.into_iter().zip(inputs).zip(places) {
        connections.push(connected(rt, seat, input, place, told))?;
    }
    Ok(connections)
}

/// The seats that came back, and how their connections ended.
fn parted<L: Ledger>(
    alloc: Global,
    ended: Vec<(Seat<L>, LinkEnd)>,
) -> Result<(Vec<Seat<L>>, Vec<LinkEnd>), AllocError> {
    let mut seats = Vec::new(alloc);
    let mut ends = Vec::new(alloc);
    for (seat, end) in ended {
        seats.push(seat)?;
        ends.push(end)?;
    }
    Ok((seats, ends))
}

/// Serves connections to their ends.
fn serve_all<'a, L: Ledger + Send + Sync, R: Threads + Wait + Sync, G: Gate + Writes + Sync>(
    rt: &R,
    alloc: Global,
    site: &LockedSite<L>,
    connections: Vec<Connection<'a, L, R, G>>,
    gateways: &Gateways<Keeping<'a, R, G>, Notes<'a, R>>,
    gate: &G,
) -> Result<(Vec<Seat<L>>, Vec<LinkEnd>), AllocError> {
    match serve_sessions(rt, alloc, site, connections, gateways, gate) {
        Ok(ended) => parted(alloc, ended),
        Err(refused) => {
            drop(refused);
            Err(AllocError)
        }
    }
}

/// What is known once connections have ended.
#[derive(Drop)]
struct Ended {
    ends: Vec<LinkEnd>,
    told: Told,
    reached: usize,
}

/// Serves inputs to their ends, and gives the seats back.
fn serve_inputs<'a, L: Ledger + Send + Sync, R: Threads + Wait + Sync, G: Gate + Writes + Sync>(
    rt: &'a R,
    alloc: Global,
    site: &LockedSite<L>,
    seats: Vec<Seat<L>>,
    inputs: Vec<Input>,
    places: &'a [Place],
    gate: &'a G,
) -> Result<(Vec<Seat<L>>, Ended), AllocError> {
    let connections = connect(rt, alloc, seats, inputs, places, gate)?;
    let gateways = Gateways::observed(alloc, Notes::start(rt, alloc));
    let (seats, ends) = serve_all(rt, alloc, site, connections, &gateways, gate)?;
    let told = gateways.observer().told()?;
    let reached = gateways.count(rt);
    let ended = Ended {
        ends,
        told,
        reached,
    };
    Ok((seats, ended))
}

/// Each connection's end with what was written to it.
fn served_of(
    alloc: Global,
    ends: Vec<LinkEnd>,
    places: Vec<Place>,
) -> Result<Vec<Served>, AllocError> {
    let mut served = Vec::with_capacity(alloc, ends.len())?;
    for (end, place) in ends.into_iter().zip(places) {
        let written = place.into_inner();
        served.push(Served { end, written })?;
    }
    Ok(served)
}

/// Serves three connections at a site whose history has room for so many entries.
pub fn serve<L: Ledger + Send + Sync, R: Threads + Wait + Abort + Sync, G: Gate + Writes + Sync>(
    rt: &R,
    alloc: Global,
    blank: Blank,
    limit: usize,
    inputs: Vec<Input>,
    gate: &G,
) -> Result<Outcome, AllocError>
    requires name { blank.name ≡ L.name }
    requires parts { blank.parts ≡ L.parts }
    requires three { blank.parts ≡ 3 }
    requires limit { limit ≤ most_entries }
{
    let places = places(alloc, 3)?;
    let (site, seats) = opened::<L>(rt, alloc, blank, 3, limit, new_site(rt, alloc));
    let (seats, ended) = serve_inputs(rt, alloc, &site, seats, inputs, places.as_slice(), gate)?;
    let left = settled(site, seats);
    let Ended {
        ends,
        told,
        reached,
    } = ended;
    Ok(Outcome {
        served: served_of(alloc, ends, places)?,
        told,
        left,
        reached,
    })
}

impl Outcome {
    /// In words: for each connection its end, the number of writes, and what was written; then what was left, and what the
    /// observer was told.
    pub fn text(&self, alloc: Global) -> Result<String, AllocError> {
        let mut out = String::new(alloc);
        for served in self.served.as_slice() {
            write!(out, "{:?} {}:", served.end, served.written.writes)?;
            put_frames(&mut out, served.written.bytes.as_slice())?;
            writeln!(out)?;
        }
        let Some(left) = self.left else {
            writeln!(out, "unsettled")?;
            return Ok(out);
        };
        write!(out, "{} entries, ", left.entries)?;
        write!(out, "{} told, ", self.told.entries)?;
        if self.told.ended != self.served.len() {
            write!(out, "{} ends told, ", self.told.ended)?;
        }
        writeln!(out, "clock {}, {} reached", left.clock, self.reached)?;
        write!(out, "{}", self.told.lines)?;
        Ok(out)
    }
}
