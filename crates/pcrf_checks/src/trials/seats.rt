//! Calls of a seat at a book and at a locked site. A sound site beside it, to which the same happens, says what has to come of them.
ghost use Rattle.std.specs.Prelude.{◌≡◌, IfErr};

use crate::trials::answers::{follows, is_short};
use crate::trials::equality::same_sites;
use crate::trials::given::Given;
use site_book::{Receipt, Seat, Settled, SiteBook};
use site_core::{Event, Reply, Site, StepFault};
use site_lock::LockedSite;
use std::alloc::AllocError;
use std::io::Print;
use std::sync::ledger::{Blank, Ledger};
use std::sync::{Mutex, Wait};
use std::thread::Threads;

/// How many entries the history has room for.
const LIMIT: usize = 80;

/// The most bytes that are written to a connection.
const ROOM: usize = 1 << 12;

/// What is called, by words.
const CALLS: &str =
    "other-request other-call other-end abort request call push retell push whole own updates";

/// Where a seat calls.
#[derive(Drop)]
pub enum Keeper<L: Ledger> {
    Book(SiteBook<L>),
    Locked(LockedSite<L>),
}

/// A seat where it calls, beside a sound site.
#[derive(Drop)]
pub struct Room<'a, R, L: Ledger> {
    pub given: &'a Given<'a, R>,
    pub step: &'a str,
    pub keeper: Keeper<L>,
    pub seats: Vec<Seat<L>>,
    pub sound: Site,
    /// What was written to a connection.
    pub place: Mutex<Vec<u8>>,
}

/// A keeper of a site with its one seat, or what it was to be made of.
type Kept<L> = Result<(Keeper<L>, Vec<Seat<L>>), (AllocError, Blank, Site)>;

/// What was told of an event stands in its one receipt; where memory was refused there is none.
fn is_told(receipts: &[Receipt], event: &Event, told: &Result<Reply, StepFault>) -> bool {
    match (receipts, told) {
        ([one], Ok(reply)) => one.event().equal(event) && one.reply().equal(reply),
        ([], Err(fault)) => *fault == StepFault::NoMemory,
        _ => false,
    }
}

impl<R: Threads + Wait + Sync + Print, L: Ledger> Room<'_, R, L> {
    /// The seat makes a call, of which the sound site replies the same; whether nothing was refused.
    fn call(&mut self, word: &str) -> Option<bool> {
        let given = self.given;
        let event = given.event(word)?;
        let seat = self.seats.first_mut()?;
        let before = seat.receipts().len();
        given.begin(self.step, word);
        let told = match &mut self.keeper {
            Keeper::Book(book) => book.step(seat, &event),
            Keeper::Locked(site) if word == "grown" => site.call_grown(given.rt, seat, &event, 0),
            Keeper::Locked(site) => site.call(given.rt, seat, &event),
        };
        let is_done = matches!(&told, Ok(reply) if !is_short(&event, reply));
        given.end(!is_done);
        let receipts = seat.receipts().get(before..).unwrap_or(&[]);
        given.judge(Some(is_told(receipts, &event, &told)));
        given.judge(follows(&mut self.sound, receipts));
        drop(told);
        drop(event);
        Some(is_done)
    }

    /// Tries a call. After a refusal the site holds what it did, and made what it did, which the seat asks for.
    pub fn try_call(&mut self, word: &str) -> Option<bool> {
        Some(self.call(word)? || self.call("whole")? && self.call("own")? && self.call(word)?)
    }

    /// Tries all calls, and what a locked site has alone: a call at a log that has grown, and a connection.
    fn try_calls(&mut self) -> Option<bool> {
        for word in CALLS.split(' ') {
            self.given.judge(self.try_call(word));
        }
        if let Keeper::Book(_) = &self.keeper {
            return Some(true);
        }
        self.given.judge(self.try_call("grown"));
        let from = self.seats.first()?.receipts().len();
        Some(self.connect(from)? || self.connect(from)?)
    }

    /// The site, settled.
    fn settled(self) -> Option<Settled<L>> {
        let (keeper, seats) = (self.keeper, self.seats);
        match keeper {
            Keeper::Book(book) => book.settle(seats).ok(),
            Keeper::Locked(site) => site.settle(seats).ok(),
        }
    }
}

impl<R: Threads + Wait + Sync + Print> Given<'_, R> {
    /// A new site to which happens what the receipts of a settled one say becomes that one.
    fn is_history<L: Ledger>(&self, settled: &Settled<L>) -> Option<bool> {
        let mut other = self.site()?;
        let is_replied = follows(&mut other, settled.receipts(0)?)?;
        Some(is_replied && same_sites(settled.pages().site(), &other, &[])?)
    }

    /// Settles a room's site.
    fn settles<L: Ledger>(&self, room: Room<'_, R, L>) -> Option<bool> {
        let settled = room.settled()?;
        let is_same = self.is_history(&settled);
        drop(settled);
        is_same
    }

    /// Has a book keep a site, or a lock.
    fn keep<L: Ledger>(&self, is_locked: bool, blank: Blank, site: Site) -> Kept<L>
        requires { (blank.name ≡ L.name) × (blank.parts ≡ L.parts) × (blank.parts ≡ 1) }
        ensures { IfErr result (λ r. r.1 ≡ blank) }
    {
        if is_locked {
            self.begin("LockedSite::start", "a site");
            let kept = LockedSite::start(self.alloc, blank, site, 1, LIMIT);
            self.end(kept.is_err());
            let (locked, seats) = kept?;
            return Ok((Keeper::Locked(locked), seats));
        }
        self.begin("SiteBook::start", "a site");
        let kept = SiteBook::start(self.alloc, blank, site, 1, LIMIT);
        self.end(kept.is_err());
        let (book, seats) = kept?;
        Ok((Keeper::Book(book), seats))
    }

    /// Tries to have a site kept, which stays as it was where that is refused, and then all calls of its seat.
    pub fn try_seats<L: Ledger>(&self, is_locked: bool, blank: Blank) -> Option<bool>
        requires { (blank.name ≡ L.name) × (blank.parts ≡ L.parts) × (blank.parts ≡ 1) }
    {
        let place = Mutex::new(Vec::with_capacity(self.alloc, ROOM).ok()?);
        let (site, sound) = (self.site()?, self.site()?);
        let (keeper, seats) = match self.keep::<L>(is_locked, blank, site) {
            Ok(kept) => kept,
            Err((_, blank, site)) => {
                self.judge(same_sites(&site, &sound, &[]));
                self.keep(is_locked, blank, site).ok()?
            }
        };
        let step = if is_locked {
            "LockedSite::call"
        } else {
            "SiteBook::step"
        };
        let mut room = Room {
            given: self,
            step,
            keeper,
            seats,
            sound,
            place,
        };
        self.judge(room.try_calls());
        self.settles(room)
    }
}
