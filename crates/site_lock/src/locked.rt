//! A site with its history under one lock.
ghost use Rattle.std.specs.Prelude.{◌≡◌, ◌≤◌, IfOk, IfErr, OnErr};
ghost use Rattle.site_machine.specs.Values.{event_value, reply_value};
ghost use Rattle.site_book.specs.Books.{IsHistoryOf, new_seats};
ghost use Rattle.site_book.specs.Gains.{HoldsAll};
ghost use Rattle.site_book.specs.Limits.{most_entries, most_seats};
ghost use Rattle.site_book.specs.Settling.{FirstFault, Settles, receipts_below};
ghost use Rattle.site_lock.specs.Calls.{GainsReceipt, TellsPast};
ghost use Rattle.site_lock.specs.Locked.{beside};

use dia_base::Identity;
use pcrf_values::{HashSeed, Ranked};
use site_book::{Seat, Settled, SiteBook, Unsettled};
use site_machine::{Event, Reply, Site, StepFault};
use std::alloc::{AllocError, Global};
use std::marker::Model;
use std::sync::ledger::{Blank, Ledger};
use std::sync::{Condvar, Mutex, Wait};
use std::thread::Threads;

/// A book that threads share, under the one lock of its site. What a thread is told by a call is what the book's own call told:
/// the seat has a receipt of it, and only that call gives receipts. Each call wakes those that wait for the site to grow. Beside
/// the lock stands what never changes of the site.
#[derive(Drop)]
pub struct LockedSite<L: Ledger> {
    book: Mutex<SiteBook<L>>,
    grown: Condvar,
    identity: Identity,
    edition: u32,
    number: u8,
    seed: HashSeed,
}

impl<L: Ledger> Model for LockedSite<L> {
    ghost use Rattle.site_lock.specs.Locked.{LockedValue};

    ghost Value = { LockedValue };

    ghost view = { λ l. record { identity = l.identity; edition = l.edition; number = l.number } };
}

/// A copy of a site's names.
fn names_of(site: &Site) -> Result<Identity, AllocError>
    ensures { IfOk result (λ names. names ≡ site.now.identity) }
{
    let names = site.identity();
    let host = names.host.try_copy()?;
    let realm = names.realm.try_copy()?;
    Ok(Identity {
        host,
        realm,
        address: names.address,
        form: names.form,
        state: names.state,
    })
}

/// Has the site keep the rules of all its live sessions after it took a whole state of another, so that who asks for them next
/// need not wait. Where memory is refused they are derived when they are asked for.
fn renew_after<L: Ledger>(
    rt: &(impl Threads + Sync),
    book: &mut SiteBook<L>,
    event: &Event,
    reply: &Result<Reply, StepFault>,
)
    ensures { book.new ≡ book.old }
{
    if let (Event::Whole(_), Ok(Reply::Done)) = (event, reply) {
        let _ = book.renew(rt);
    }
}

impl<L: Ledger> LockedSite<L> {
    /// A locked book over a site, and its seats. Where memory is refused all comes back.
    pub fn start(
        alloc: Global,
        blank: Blank,
        site: Site,
        seats: usize,
        limit: usize,
    ) -> Result<(LockedSite<L>, Vec<Seat<L>>), (AllocError, Blank, Site)>
        requires name { blank.name ≡ L.name }
        requires parts { blank.parts ≡ L.parts }
        requires one_each { blank.parts ≡ seats }
        requires seats { (1 ≤ seats) × (seats ≤ most_seats) }
        requires limit { limit ≤ most_entries }
        ensures beside { IfOk result (λ r. r.0 ≡ beside site) }
        ensures seats { IfOk result (λ r. r.1.items ≡ new_seats seats) }
        ensures blank { IfErr result (λ r. r.1 ≡ blank) }
        ensures site { IfErr result (λ r. r.2 ≡ site) }
    {
        let Ok(identity) = names_of(&site) else {
            return Err((AllocError, blank, site));
        };
        let edition = site.tables().edition();
        let number = site.number();
        let seed = site.seed();
        let (book, chairs) = SiteBook::start(alloc, blank, site, seats, limit)?;
        let locked = LockedSite {
            book: Mutex::new(book),
            grown: Condvar::new(),
            identity,
            edition,
            number,
            seed,
        };
        Ok((locked, chairs))
    }

    /// A book under a lock; it comes back where memory is refused.
    pub fn over(book: SiteBook<L>) -> Result<LockedSite<L>, (AllocError, SiteBook<L>)>
        ensures beside { IfOk result (λ locked. locked ≡ beside book.site) }
        ensures back { IfErr result (λ e. e.1 ≡ book) }
    {
        let Ok(identity) = names_of(book.site()) else {
            return Err((AllocError, book));
        };
        let edition = book.site().tables().edition();
        let number = book.site().number();
        let seed = book.site().seed();
        Ok(LockedSite {
            book: Mutex::new(book),
            grown: Condvar::new(),
            identity,
            edition,
            number,
            seed,
        })
    }

    /// The names that the site answers under. It waits for nobody.
    pub fn identity(&self) -> &Identity
        ensures { result.now ≡ self.now.identity }
    {
        &self.identity
    }

    /// The edition of the site's operator tables. It waits for nobody.
    pub fn edition(&self) -> u32
        ensures { result ≡ self.now.edition }
    {
        self.edition
    }

    /// What hashes begin with at the site. It waits for nobody.
    pub fn seed(&self) -> HashSeed {
        self.seed
    }

    /// The site's number. It waits for nobody.
    pub fn number(&self) -> u8
        ensures { result ≡ self.now.number }
    {
        self.number
    }

    /// Makes an event happen, as a call of a seat, once the lock is free. The seat gains the receipt of this event with the
    /// reply that is answered, or stays as it was. Where the site took a whole state of another, the rules of its sessions are
    /// made before the call answers, in as many threads as there are processors.
    pub fn call<R: Threads + Wait + Sync>(
        &self,
        rt: &R,
        seat: &mut Seat<L>,
        event: &Event,
    ) -> Result<Reply, StepFault>
        ensures receipt { IfOk result (λ reply. GainsReceipt
            seat.old (event_value event.now) (reply_value reply) seat.new) }
        ensures err { OnErr result (seat.new ≡ seat.old) }
    {
        let mut book = self.book.lock(rt);
        let reply = book.step(seat, event);
        renew_after(rt, &mut book, event, &reply);
        self.grown.notify_all();
        reply
    }

    /// The same in the caller's thread alone: the rules of a whole state that the site takes are made when they are asked for.
    pub fn call_alone<R: Wait>(
        &self,
        rt: &R,
        seat: &mut Seat<L>,
        event: &Event,
    ) -> Result<Reply, StepFault>
        ensures receipt { IfOk result (λ reply. GainsReceipt
            seat.old (event_value event.now) (reply_value reply) seat.new) }
        ensures err { OnErr result (seat.new ≡ seat.old) }
    {
        let reply = self.book.lock(rt).step(seat, event);
        self.grown.notify_all();
        reply
    }

    /// What `call` does, once the site has made more operations itself than so many, or its history is full.
    #[tactic(auto, using(crate::proofs::Telling::told_grown))]
    pub fn call_grown<R: Threads + Wait + Sync>(
        &self,
        rt: &R,
        seat: &mut Seat<L>,
        event: &Event,
        past: u64,
    ) -> Result<Reply, StepFault>
        ensures receipt { IfOk result (λ reply. GainsReceipt
            seat.old (event_value event.now) (reply_value reply) seat.new) }
        ensures past { IfOk result (λ reply. TellsPast past (reply_value reply)) }
        ensures err { OnErr result (seat.new ≡ seat.old) }
    {
        let mut book = self
            .grown
            .wait_while(rt, self.book.lock(rt), |book| book.is_short(past));
        let answer = book.step(seat, event);
        renew_after(rt, &mut book, event, &answer);
        self.grown.notify_all();
        answer
    }

    /// Settles the book, or tells the first fault that stands and gives the book and the seats back. It waits for nobody.
    pub fn settle(self, seats: Vec<Seat<L>>) -> Result<Settled<L>, Unsettled<L>>
        ensures settles { IfOk result (λ s. Settles s.book seats.items) }
        ensures receipts { IfOk result (λ s. s.receipts ≡ receipts_below s.book.seats seats.items) }
        ensures replays { IfOk result (λ s. IsHistoryOf s.book) }
        ensures holds { IfOk result (λ s. HoldsAll s.book) }
        ensures fault { IfErr result (λ u. FirstFault u.book seats.items u.fault) }
        ensures seats_back { IfErr result (λ u. u.seats.items ≡ seats.items) }
    {
        let LockedSite { book, .. } = self;
        book.into_inner().settle(seats)
    }
}
