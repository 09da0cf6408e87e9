//! A site under one lock, whose history stands in the proofs alone.
ghost use Rattle.std.specs.Prelude.{◌≡◌, ◌≢◌, ℕ, List, ◌≤◌, true, false, [], length, map, All, Err, IfOk, IfErr, OnOk, OnErr};
ghost use Rattle.pcrf_values.specs.Limits.{last_epoch};
ghost use Rattle.site_machine.specs.Ended.{session_named};
ghost use Rattle.site_machine.specs.Values.{event_value, reply_value};
ghost use Rattle.site_book.specs.Books.{new_seats};
ghost use Rattle.site_book.specs.Settling.{EachOnce, Settles};
ghost use Rattle.site_lock.specs.Calls.{FindsNoneAbandoned, FindsNothingDue, GainsReceipt, TellsPast};
ghost use Rattle.site_lock.specs.Locked.{beside};
ghost use Rattle.site_lock.specs.Left.{HoldsWhatIsLeft};
ghost use Rattle.site_lock.specs.LivingCalls.{GainsBeginning, GainsForgotten, HoldsWhereLed, IsAccount, IsFound};
ghost use Rattle.site_lock.specs.Deeds.{IsAccountOf, LeadsTo, OfSeats, as_book, beginnings, calls, epoch_of, forgotten_in};
ghost use Rattle.site_lock.specs.Epochs.{HasBegun, IfBegun, IfTold, IsAnswered};
ghost use Rattle.site_lock.specs.Sound.{AreNames};

use crate::living::anew::names_of;
use crate::living::chronicle::Chronicle;
use crate::living::dated::{Dated, Grown};
use crate::living::fault::BeginFault;
use crate::living::keeper::Keeper;
use crate::living::looker::Looker;
use crate::living::notes::Deeds;
use crate::living::roll::{Roll, Roster};
use crate::living::seat::Seat;
use crate::notes::Original;
use dia_base::Identity;
use pcrf_values::{DiameterIdentity, HashSeed};
use site_machine::{AnySid, Event, Reply, Site, StepFault};
use std::alloc::{AllocError, Global};
use std::marker::Model;
use std::snapshot::Snapshot;
use std::sync::{Condvar, Mutex, Wait};
use std::thread::Threads;

/// A site that threads share, under one lock, with what never changes of it beside that. Whenever the lock is free, the history
/// that led to the site replays, and each seat has just a receipt for each of its entries. Nothing is kept of either when the
/// program runs. Each call, and each new beginning, wakes those that wait for the site to grow.
#[derive(Drop)]
pub struct LivingSite<L: Roll> {
    chronicle: Mutex<Chronicle<L>>,
    grown: Condvar,
    identity: Identity,
    edition: u32,
    number: u8,
    seed: HashSeed,
}

impl<L: Roll> Model for LivingSite<L> {
    ghost use Rattle.site_lock.specs.Locked.{LockedValue};

    ghost Value = { LockedValue };

    ghost view = { λ s. record { identity = s.identity; edition = s.edition; number = s.number } };
}

/// Has the site keep the rules of all its live sessions after it took a whole state of another, so that who asks for them next
/// need not wait. Where memory is refused they are derived when they are asked for.
fn renew_after<L: Roll>(
    rt: &(impl Threads + Sync),
    chronicle: &mut Chronicle<L>,
    event: &Event,
    told: &Result<Dated, StepFault>,
)
    ensures { chronicle.new ≡ chronicle.old }
{
    let Ok(dated) = told else {
        return;
    };
    if let (Event::Whole(_), Reply::Done) = (event, &dated.reply) {
        let _ = chronicle.renew(rt);
    }
}

impl<L: Roll> LivingSite<L> {
    /// A site under its lock, its seats, and their keeper: nothing has happened since. Where memory is refused all comes back.
    pub fn start(
        alloc: Global,
        roster: Roster,
        site: Site,
    ) -> Result<(LivingSite<L>, Vec<Seat<L>>, Keeper<L>), (AllocError, Roster, Site)>
        requires names { AreNames L.name_of L.seats roster.seats }
        requires keeper { roster.keeper ≡ L.keeper }
        requires opening { site.state ≡ L.opening }
        ensures beside { IfOk result (λ r. r.0 ≡ beside site) }
        ensures seats { IfOk result (λ r. r.1.items ≡ new_seats L.seats) }
        ensures keeper { IfOk result (λ r. r.2.beginnings ≡ []) }
        ensures none { IfOk result (λ r. r.2.forgot ≡ []) }
        ensures first { IfOk result (λ r. r.2.first ≡ 1) }
        ensures roster { IfErr result (λ r. r.1 ≡ roster) }
        ensures site { IfErr result (λ r. r.2 ≡ site) }
    {
        let Ok(identity) = names_of(&site) else {
            return Err((AllocError, roster, site));
        };
        let edition = site.tables().edition();
        let number = site.number();
        let seed = site.seed();
        let (chronicle, seats, keeper) = Chronicle::start(alloc, roster, site)?;
        let living = LivingSite {
            chronicle: Mutex::new(chronicle),
            grown: Condvar::new(),
            identity,
            edition,
            number,
            seed,
        };
        Ok((living, seats, keeper))
    }

    /// The names that the site answers under. It waits for nobody.
    pub fn identity(&self) -> &Identity
        ensures { result.now ≡ self.now.identity }
    {
        &self.identity
    }

    /// The edition of the site's operator tables. It waits for nobody.
    pub fn edition(&self) -> u32
        ensures { result ≡ self.now.edition }
    {
        self.edition
    }

    /// What hashes begin with at the site. It waits for nobody.
    pub fn seed(&self) -> HashSeed {
        self.seed
    }

    /// The site's number. It waits for nobody.
    pub fn number(&self) -> u8
        ensures { result ≡ self.now.number }
    {
        self.number
    }

    /// Whether something may be due to the gateways of a host, once the lock is free. Where it answers false nothing was due to
    /// them at the site that a history had led to in which the seat has just a receipt for each of its entries: so after all
    /// that the seat did. It makes no entry, and wakes nobody.
    pub fn is_waiting<R: Wait>(&self, rt: &R, seat: &mut Seat<L>, host: &DiameterIdentity) -> bool
        ensures none { result ≡ false
            → FindsNothingDue (IsFound L.seats L.opening) seat.old host.now }
        ensures same { seat.new ≡ seat.old }
    {
        let mut chronicle = self.chronicle.lock(rt);
        chronicle.audit(seat);
        chronicle.site().is_waiting(host)
    }

    /// Whether an application function of a host may have to be asked to abort a session whose home this site is, once the lock
    /// is free. Where it answers false none had to be at the site that a history had led to in which the seat has just a receipt
    /// for each of its entries: so after all that the seat did. It makes no entry, and wakes nobody.
    pub fn is_aborting<R: Wait>(&self, rt: &R, seat: &mut Seat<L>, host: &DiameterIdentity) -> bool
        ensures none { result ≡ false
            → FindsNoneAbandoned (IsFound L.seats L.opening) seat.old host.now }
        ensures same { seat.new ≡ seat.old }
    {
        let mut chronicle = self.chronicle.lock(rt);
        chronicle.audit(seat);
        chronicle.site().is_aborting(host)
    }

    /// Nothing is due to the gateways of any host, and no session of any may have to be asked to abort, once the lock is free: as
    /// `is_waiting` and `is_aborting` would answer of each. It makes no entry, and wakes nobody.
    pub fn is_quiet<R: Wait>(&self, rt: &R, seat: &mut Seat<L>) -> bool
        ensures pushes { result ≡ true → (host : List ℕ)
            → FindsNothingDue (IsFound L.seats L.opening) seat.old host }
        ensures aborts { result ≡ true → (host : List ℕ)
            → FindsNoneAbandoned (IsFound L.seats L.opening) seat.old host }
        ensures same { seat.new ≡ seat.old }
    {
        let mut chronicle = self.chronicle.lock(rt);
        chronicle.audit(seat);
        chronicle.site().is_quiet()
    }

    /// Lets someone see the site as it is, once the lock is free, and nobody else until that one has: what is seen is a site that
    /// a history led to. It changes nothing, makes no entry, and wakes nobody.
    pub fn look<R: Wait, K: Looker>(&self, rt: &R, looker: &mut K)
        ensures { HoldsWhereLed L.opening (λ site. K.saw looker.old site looker.new) }
    {
        let chronicle = self.chronicle.lock(rt);
        looker.see(chronicle.site());
    }

    /// Makes an event happen, as a call of a seat, once the lock is free. The seat gains the receipt of this event with the
    /// reply that is answered, or stays as it was. Where the site took a whole state of another, the rules of its sessions are
    /// made before the call answers, in as many threads as there are processors.
    pub fn call<R: Threads + Wait + Sync>(
        &self,
        rt: &R,
        seat: &mut Seat<L>,
        event: &Event,
    ) -> Result<Reply, StepFault>
        ensures receipt { IfOk result (λ reply. GainsReceipt
            seat.old (event_value event.now) (reply_value reply) seat.new) }
        ensures room { IfErr result (λ fault. fault ≢ StepFault.HistoryFull) }
        ensures err { OnErr result (seat.new ≡ seat.old) }
    {
        match self.call_dated(rt, seat, event) {
            Ok(dated) => Ok(dated.reply),
            Err(fault) => Err(fault),
        }
    }

    /// What `call` does, and how often the site had begun anew when it replied: a history that leads to just this call has so many
    /// new beginnings before it.
    pub fn call_dated<R: Threads + Wait + Sync>(
        &self,
        rt: &R,
        seat: &mut Seat<L>,
        event: &Event,
    ) -> Result<Dated, StepFault>
        ensures receipt { IfOk result (λ told. GainsReceipt
            seat.old (event_value event.now) (reply_value told.reply) seat.new) }
        ensures answered { IfOk result (λ told.
            IsAnswered L.seats L.opening seat.new told.begun) }
        ensures room { IfErr result (λ fault. fault ≢ StepFault.HistoryFull) }
        ensures err { OnErr result (seat.new ≡ seat.old) }
    {
        let mut chronicle = self.chronicle.lock(rt);
        let told = chronicle.step_dated(seat, event);
        renew_after(rt, &mut chronicle, event, &told);
        self.grown.notify_all();
        told
    }

    /// What `call` does, in the caller's thread alone: the rules of a whole state that the site takes are made when they are asked for.
    pub fn call_alone<R: Wait>(
        &self,
        rt: &R,
        seat: &mut Seat<L>,
        event: &Event,
    ) -> Result<Reply, StepFault>
        ensures receipt { IfOk result (λ reply. GainsReceipt
            seat.old (event_value event.now) (reply_value reply) seat.new) }
        ensures room { IfErr result (λ fault. fault ≢ StepFault.HistoryFull) }
        ensures err { OnErr result (seat.new ≡ seat.old) }
    {
        let reply = self.chronicle.lock(rt).step(seat, event);
        self.grown.notify_all();
        reply
    }

    /// What `call` does, once the site has made more operations itself than so many since it last began anew.
    pub fn call_grown<R: Threads + Wait + Sync>(
        &self,
        rt: &R,
        seat: &mut Seat<L>,
        event: &Event,
        past: u64,
    ) -> Result<Reply, StepFault>
        ensures receipt { IfOk result (λ reply. GainsReceipt
            seat.old (event_value event.now) (reply_value reply) seat.new) }
        ensures past { IfOk result (λ reply. TellsPast past (reply_value reply)) }
        ensures room { IfErr result (λ fault. fault ≢ StepFault.HistoryFull) }
        ensures err { OnErr result (seat.new ≡ seat.old) }
    {
        let mut chronicle = self.grown.wait_while(
            rt,
            self.chronicle.lock(rt),
            |chronicle| chronicle.is_short(past),
        );
        let told = chronicle.step_dated(seat, event);
        renew_after(rt, &mut chronicle, event, &told);
        self.grown.notify_all();
        match told {
            Ok(dated) => Ok(dated.reply),
            Err(fault) => Err(fault),
        }
    }

    /// What `call` does, once the site has made more operations itself than so many since it began anew for so many times. Who
    /// waits is woken by the next new beginning, or finds that it was, and is told so: no call is made then.
    pub fn call_grown_since<R: Threads + Wait + Sync>(
        &self,
        rt: &R,
        seat: &mut Seat<L>,
        event: &Event,
        past: u64,
        begun: u16,
    ) -> Result<Grown, StepFault>
        ensures receipt { IfOk result (λ grown. IfTold grown (λ reply. GainsReceipt
            seat.old (event_value event.now) reply seat.new)) }
        ensures answered { IfOk result (λ grown. IfTold grown (λ reply.
            IsAnswered L.seats L.opening seat.new begun)) }
        ensures past { IfOk result (λ grown. IfTold grown (TellsPast past)) }
        ensures begun { IfOk result (λ grown. IfBegun grown (λ now.
            (now ≢ begun) × HasBegun L.seats L.opening seat.old now)) }
        ensures same { IfOk result (λ grown. IfBegun grown (λ now. seat.new ≡ seat.old)) }
        ensures room { IfErr result (λ fault. fault ≢ StepFault.HistoryFull) }
        ensures err { OnErr result (seat.new ≡ seat.old) }
    {
        let mut chronicle = self.grown.wait_while(
            rt,
            self.chronicle.lock(rt),
            |chronicle| chronicle.is_short_since(past, begun),
        );
        let now = chronicle.begun_beside(seat);
        if now != begun {
            return Ok(Grown::BegunAnew(now));
        }
        let told = chronicle.step_dated(seat, event);
        renew_after(rt, &mut chronicle, event, &told);
        self.grown.notify_all();
        match told {
            Ok(dated) => Ok(Grown::Told(dated.reply)),
            Err(fault) => Err(fault),
        }
    }

    /// Has the site begin anew, once the lock is free: it forgets which operations it made itself, all that it holds stays, and its
    /// next epoch begins. The keeper's note gains it. Only in the last epoch it fails (`EpochFull`), and nothing changes. It takes no
    /// memory. Whoever waits for the site to grow is woken: in `call_grown_since` for being told so, in `call_grown` for waiting on,
    /// for as many operations as before.
    pub fn begin_anew<R: Wait>(&self, rt: &R, keeper: &mut Keeper<L>) -> Result<(), BeginFault>
        ensures keeper { OnOk result (GainsBeginning keeper.old keeper.new) }
        ensures full { OnErr result (epoch_of keeper.old ≡ last_epoch) }
        ensures last { epoch_of keeper.old ≡ last_epoch → result ≡ Err BeginFault.EpochFull }
        ensures err { OnErr result (keeper.new ≡ keeper.old) }
    {
        let begun = self.chronicle.lock(rt).begin_anew(keeper);
        self.grown.notify_all();
        begun
    }

    /// Forgets those of these sessions that have ended, once the lock is free, and answers how many these are. No fact of them is held
    /// after that, and nothing of any other session changes. The keeper's note gains them, and no others. It takes no memory and wakes
    /// nobody. Everybody else waits meanwhile, so a call takes at most 100 sessions.
    pub fn forget<R: Wait>(&self, rt: &R, keeper: &mut Keeper<L>, sessions: &[AnySid]) -> usize
        requires few { length sessions.now ≤ 100 }
        ensures { GainsForgotten keeper.old (map session_named sessions.now) result keeper.new }
    {
        self.chronicle.lock(rt).forget_all(keeper, sessions)
    }

    /// Has all sessions wait for a push or an abort, once the lock is free, as they do when a site starts, and empties the lists of those
    /// that wait. The next push to a host, and the next abort, looks at all sessions once.
    pub fn wait_anew<R: Wait>(&self, rt: &R) {
        self.chronicle.lock(rt).wait_anew();
    }

    /// Shows, at any time, that the seat has just a receipt for each of its entries in a history that replays: that history is
    /// answered, and nothing is there of it when the program runs. It changes and compares nothing.
    pub fn audit<R: Wait>(&self, rt: &R, seat: &mut Seat<L>) -> Snapshot<Original<Deeds>>
        ensures account { IsAccount L.seats L.opening result.value.note seat.old }
        ensures seat { seat.new ≡ seat.old }
    {
        let mut chronicle = self.chronicle.lock(rt);
        chronicle.audit(seat);
        let _ = chronicle.site();
        chronicle.past()
    }

    /// Takes the seats and the keeper back, and shows that the history replays, that each seat has just a receipt for each of
    /// its entries, in order, and that the keeper has just the new beginnings and the sessions that were forgotten. It compares
    /// nothing, and waits for nobody.
    pub fn settle(self, seats: Vec<Seat<L>>, keeper: Keeper<L>) -> Chronicle<L>
        ensures accounts { All (IsAccountOf L.seats result.history) seats.items }
        ensures keeper { keeper.beginnings ≡ beginnings result.history }
        ensures forgot { keeper.forgot ≡ forgotten_in result.history }
        ensures seated { OfSeats L.seats (calls result.history) }
        ensures settles { length seats.items ≡ L.seats → EachOnce L.seats seats.items
            → Settles (as_book L.seats L.opening result) seats.items }
        ensures replays { LeadsTo L.opening result.history result.site }
        ensures holds { HoldsWhatIsLeft L.opening result }
    {
        let LivingSite { chronicle, .. } = self;
        chronicle.into_inner().settle(seats, keeper)
    }
}
