//! A site with a history that stands in the proofs alone.
ghost use Rattle.std.specs.Prelude.{◌≡◌, ◌≢◌, ◌≤◌, ◌<◌, ◌==◌, ◌&&◌, length, map, true, false, [], ◌∷◌, Err, IfOk, IfErr, OnOk, OnErr, All, vec_capacity, leb};
ghost use Rattle.pcrf_values.specs.Limits.{last_epoch};
ghost use Rattle.pcrf_model.specs.Views.{view};
ghost use Rattle.site_machine.specs.Cached.{AreCached};
ghost use Rattle.site_machine.specs.Many.{AreFresh};
ghost use Rattle.site_machine.specs.Ended.{session_named};
ghost use Rattle.site_machine.specs.Forgotten.{has_ended};
ghost use Rattle.site_machine.specs.Sites.{SiteMayReply};
ghost use Rattle.site_machine.specs.Values.{event_value, reply_value, event_lacks_counter};
ghost use Rattle.site_book.specs.Books.{new_seats, with_receipt};
ghost use Rattle.site_book.specs.Settling.{EachOnce, Settles};
ghost use Rattle.site_lock.specs.LivingCalls.{GainsBeginning};
ghost use Rattle.site_lock.specs.Deeds.{ChronicleValue, LeadsTo, OfSeats, IsAccountOf, as_book, beginnings, calls, counted_to, epoch_of, forgettable, forgot_more, forgotten_in, new_chronicle, times_begun, with_all_forgotten, with_call, with_beginning, with_forgotten};
ghost use Rattle.site_lock.specs.Epochs.{HasBegun, IsAnswered};
ghost use Rattle.site_lock.specs.Left.{HoldsWhatIsLeft};
ghost use Rattle.site_lock.specs.Sound.{AreNames, AreSeatNotes};

use crate::living::dated::Dated;
use crate::living::fault::BeginFault;
use crate::living::keeper::Keeper;
use crate::living::notes::{
    Begin, Beginning, Beginnings, Call, Deeds, Enter, Forget, Forgetting, Receipts, Receive, Stay,
};
use crate::living::roll::{Roll, Roster};
use crate::living::seat::Seat;
use crate::notes::{Duplicate, Original};
use pcrf_values::limits::LAST_EPOCH;
use site_machine::{AnySid, Event, Reply, Rules, Site, StepFault};
use std::alloc::{AllocError, Global};
use std::marker::{Model, PhantomData};
use std::snapshot::Snapshot;
use std::thread::Threads;

/// The epoch that a site starts in, unless its keeper says otherwise.
const FIRST_EPOCH: u16 = 1;

/// A site, and the history that led to it, which clauses alone see. Beside it stand copies of the notes that the seats and the
/// keeper have, how many entries the history has, and how often the site began anew.
#[derive(Drop)]
pub struct Chronicle<L: Roll> {
    site: Site,
    entries: u64,
    history: Original<Deeds>,
    beside: Duplicate<Deeds>,
    chairs: Vec<Original<Receipts>>,
    begun: Original<Beginnings>,
    times: u16,
    of: PhantomData<L>,
}

impl<L: Roll> Model for Chronicle<L> {
    ghost use Rattle.site_lock.specs.Deeds.{ChronicleValue};
    ghost use Rattle.site_lock.specs.Sound.{IsSound};

    ghost Value = { ChronicleValue };

    ghost view = { λ c. record { site = c.site; history = c.history.note } };

    ghost invariant = { λ c. IsSound L.name_of L.seats L.keeper L.opening
        c.site c.entries c.times c.history c.beside c.chairs.items c.begun };
}

impl<L: Roll> Chronicle<L> {
    ghost use Rattle.std.specs.Borrow.{sem};
    ghost use Rattle.std.specs.Io.BufRead.{Rests};
    ghost use Rattle.site_lock.specs.contracts.living.chronicle.Chronicle.{the_row};

    /// The site as the history has left it: the history leads from the opening to what it holds, each reply being one that a
    /// single site may give there. It holds what is kept of the opening and of all that the entries added, without what was gathered
    /// of a session until the site forgot it; each such session had ended by then.
    pub fn site(&self) -> &Site
        ensures site { result.now ≡ self.now.site }
        ensures replays { LeadsTo L.opening self.now.history self.now.site }
        ensures holds { HoldsWhatIsLeft L.opening self.now }
    {
        &self.site
    }

    /// A site whose history begins, its seats, and their keeper. Where memory is refused all comes back.
    pub fn start(
        alloc: Global,
        roster: Roster,
        site: Site,
    ) -> Result<(Chronicle<L>, Vec<Seat<L>>, Keeper<L>), (AllocError, Roster, Site)>
        requires names { AreNames L.name_of L.seats roster.seats }
        requires keeper { roster.keeper ≡ L.keeper }
        requires opening { site.state ≡ L.opening }
        ensures chronicle { IfOk result (λ r. r.0 ≡ new_chronicle site) }
        ensures seats { IfOk result (λ r. r.1.items ≡ new_seats L.seats) }
        ensures keeper { IfOk result (λ r. r.2.beginnings ≡ []) }
        ensures none { IfOk result (λ r. r.2.forgot ≡ []) }
        ensures first { IfOk result (λ r. r.2.first ≡ 1) }
        ensures roster { IfErr result (λ r. r.1 ≡ roster) }
        ensures site { IfErr result (λ r. r.2 ≡ site) }
    {
        let Ok(room) = Vec::with_capacity(alloc, roster.len()) else {
            return Err((AllocError, roster, site));
        };
        site.sessions().note_kept();
        let (history, beside) = Original::new(&Deeds {});
        let Roster {
            chairs,
            receipts,
            begun,
            beginnings,
        } = roster;
        let seats = seated(receipts, room);
        let keeper = Keeper {
            begun: beginnings,
            first: FIRST_EPOCH,
            times: 0,
            of: PhantomData,
        };
        let chronicle = Chronicle {
            site,
            entries: 0,
            history,
            beside,
            chairs,
            begun,
            times: 0,
            of: PhantomData,
        };
        Ok((chronicle, seats, keeper))
    }

    /// How many entries the history has, 2^64 - 1 if there are more.
    pub fn entries(&self) -> u64
        ensures { result ≡ counted_to (length (calls self.now.history)) }
    {
        self.entries
    }

    /// How often the site began anew.
    pub fn begun(&self) -> u16
        ensures { result ≡ times_begun self.now.history }
    {
        self.times
    }

    /// How often the site began anew, as a seat finds it: a history has so many new beginnings in which the seat has just a receipt
    /// for each of its entries. It changes nothing.
    pub fn begun_beside(&mut self, seat: &mut Seat<L>) -> u16
        ensures times { result ≡ times_begun self.old.history }
        ensures found { HasBegun L.seats L.opening seat.old result }
        ensures same { self.new ≡ self.old }
        ensures seat { seat.new ≡ seat.old }
    {
        self.audit(seat);
        let _ = self.site();
        self.begun()
    }

    /// Whether the site made no more operations itself than so many since it last began anew: who waits for more of them has to
    /// wait.
    pub fn is_short(&self, past: u64) -> bool
        ensures { result ≡ leb (length self.now.site.state.log) past }
    {
        self.site.logged() <= past
    }

    /// Whether the site has begun anew just so often, and made no more operations itself since than so many: who waits for more of
    /// those that it makes in this epoch has to wait.
    pub fn is_short_since(&self, past: u64, begun: u16) -> bool
        ensures { result ≡ (times_begun self.now.history == begun
            && leb (length self.now.site.state.log) past) }
    {
        self.times == begun && self.site.logged() <= past
    }

    /// The history, of which nothing is there when the program runs.
    pub fn past(&self) -> Snapshot<Original<Deeds>>
        ensures { result.value.note ≡ self.now.history }
    {
        Snapshot::of(&self.history)
    }

    /// Derives the rules of each live gateway's session of which the site keeps none, in as many threads as there are
    /// processors, and has it keep them: what is answered are the lists that it keeps then, one of each live session. Nothing
    /// else changes, also where memory is refused.
    pub fn renew(&mut self, rt: &(impl Threads + Sync)) -> Result<&Rules, AllocError>
        ensures* same { sem 𝓛 (Rests (the_row L.row L.Roll) self.entry
            (λ now. now ≡ self.old)) }
        ensures fresh { IfOk result (λ lists. AreFresh self.old.site.tables
            (view self.old.site.state.holding.facts) lists.now) }
        ensures kept { IfOk result (λ lists. AreCached self.old.site.tables
            (view self.old.site.state.holding.facts) lists.now) }
    {
        self.site.renew(rt)
    }

    /// Makes an event happen, as a call of a seat. The entry comes last, and the seat gains its receipt. A fault changes
    /// neither, and is never that a history is full.
    #[tactic(auto, using(crate::proofs::Counting::last_more))]
    pub fn step(&mut self, seat: &mut Seat<L>, event: &Event) -> Result<Reply, StepFault>
        ensures reply { IfOk result (λ reply.
            SiteMayReply self.old.site (event_value event.now) (reply_value reply)) }
        ensures entry { IfOk result (λ reply. self.new
            ≡ with_call self.old seat.old.number (event_value event.now) (reply_value reply)) }
        ensures receipt { IfOk result (λ reply. seat.new ≡ with_receipt seat.old
            (length (calls self.old.history)) (event_value event.now) (reply_value reply)) }
        ensures counter { IfErr result (λ fault. fault ≡ StepFault.ClockFull
            → event_lacks_counter self.old.site.tables self.old.site.number
            self.old.site.state.holding (event_value event.now) ≡ true) }
        ensures room { IfErr result (λ fault. fault ≢ StepFault.HistoryFull) }
        ensures err { OnErr result (self.new ≡ self.old) }
        ensures err_seat { OnErr result (seat.new ≡ seat.old) }
    {
        let reply = self.site.step(event)?;
        let call = Call {
            past: Snapshot::of(&self.history),
            seat: seat.number,
            event: Snapshot::of(event),
            reply: Snapshot::of(&reply),
        };
        let chair = &mut self.chairs[seat.number];
        chair.turn::<Call, Receive>(&mut seat.receipts, &call);
        self.history.turn::<Call, Enter>(&mut self.beside, &call);
        seat.last = Some(self.entries);
        seat.calls = seat.calls.saturating_add(1);
        self.entries = self.entries.saturating_add(1);
        Ok(reply)
    }

    /// What `step` does, and how often the site had begun anew when it replied.
    pub fn step_dated(&mut self, seat: &mut Seat<L>, event: &Event) -> Result<Dated, StepFault>
        ensures reply { IfOk result (λ told.
            SiteMayReply self.old.site (event_value event.now) (reply_value told.reply)) }
        ensures entry { IfOk result (λ told. self.new
            ≡ with_call self.old seat.old.number (event_value event.now) (reply_value told.reply)) }
        ensures receipt { IfOk result (λ told. seat.new ≡ with_receipt seat.old
            (length (calls self.old.history)) (event_value event.now) (reply_value told.reply)) }
        ensures begun { IfOk result (λ told. told.begun ≡ times_begun self.old.history) }
        ensures answered { IfOk result (λ told.
            IsAnswered L.seats L.opening seat.new told.begun) }
        ensures room { IfErr result (λ fault. fault ≢ StepFault.HistoryFull) }
        ensures err { OnErr result (self.new ≡ self.old) }
        ensures err_seat { OnErr result (seat.new ≡ seat.old) }
    {
        let begun = self.begun();
        let reply = self.step(seat, event)?;
        self.audit(seat);
        let _ = self.site();
        Ok(Dated { reply, begun })
    }

    /// Forgets which operations the site made itself; all that it holds stays, with its index, the rules that are kept and those
    /// that wait, and its next epoch begins. It is a deed of the history, and the keeper's note gains it. Only in the last epoch it
    /// fails (`EpochFull`), and nothing changes. It takes no memory, and no time but to free the operations.
    pub fn begin_anew(&mut self, keeper: &mut Keeper<L>) -> Result<(), BeginFault>
        ensures deed { OnOk result (self.new ≡ with_beginning self.old) }
        ensures keeper { OnOk result (GainsBeginning keeper.old keeper.new) }
        ensures full { OnErr result (epoch_of keeper.old ≡ last_epoch) }
        ensures last { epoch_of keeper.old ≡ last_epoch → result ≡ Err BeginFault.EpochFull }
        ensures err { OnErr result (self.new ≡ self.old) }
        ensures err_keeper { OnErr result (keeper.new ≡ keeper.old) }
    {
        if keeper.epoch() == LAST_EPOCH {
            return Err(BeginFault::EpochFull);
        }
        self.site.begin_anew();
        let times = keeper.times + 1;
        let beginning = Beginning {
            past: Snapshot::of(&self.history),
        };
        self.begun
            .turn::<Beginning, Begin>(&mut keeper.begun, &beginning);
        self.history
            .turn::<Beginning, Enter>(&mut self.beside, &beginning);
        keeper.times = times;
        self.times = times;
        Ok(())
    }

    /// Forgets a session that has ended: no fact of it is held after that, and nothing else changes. It is a deed of the history, and
    /// the keeper's note gains it. If the session has not ended, or if nothing is known of it, the answer is false and nothing changes.
    pub fn forget(&mut self, keeper: &mut Keeper<L>, session: &AnySid) -> bool
        ensures ended { result
            ≡ has_ended self.old.site.state.holding (session_named session.now) }
        ensures deed { result ≡ true → self.new
            ≡ with_forgotten self.old (session_named session.now) }
        ensures keeper { result ≡ true → keeper.new
            ≡ forgot_more keeper.old (session_named session.now ∷ []) }
        ensures same { result ≡ false → self.new ≡ self.old }
        ensures same_keeper { result ≡ false → keeper.new ≡ keeper.old }
    {
        if !self.site.forget(session) {
            return false;
        }
        let forgetting = Forgetting {
            session: Snapshot::of(session),
        };
        self.begun
            .turn::<Forgetting, Forget>(&mut keeper.begun, &forgetting);
        self.history
            .turn::<Forgetting, Enter>(&mut self.beside, &forgetting);
        true
    }

    /// Forgets those of these sessions that have ended, one after the other as `forget` does, and answers how many these are.
    pub fn forget_all(&mut self, keeper: &mut Keeper<L>, sessions: &[AnySid]) -> usize
        ensures count { result ≡ length (forgettable
            self.old.site.state.holding (map session_named sessions.now)) }
        ensures deeds { self.new ≡ with_all_forgotten self.old (forgettable
            self.old.site.state.holding (map session_named sessions.now)) }
        ensures keeper { keeper.new ≡ forgot_more keeper.old (forgettable
            self.old.site.state.holding (map session_named sessions.now)) }
    {
        let mut count = 0;
        let mut left = sessions;
        while let Some((first, rest)) = left.split_first() {
            left = rest;
            if !self.forget(keeper, first) {
                continue;
            }
            count += 1;
        }
        count
    }

    /// Has all sessions wait for a push or an abort, as they do when a site starts, and empties the lists of those that wait. What is
    /// held, shown and due stays the same.
    pub fn wait_anew(&mut self)
        ensures { self.new ≡ self.old }
    {
        self.site.wait_anew();
    }

    /// Changes nothing, and shows that the seat has just a receipt for each of its entries.
    pub fn audit(&mut self, seat: &mut Seat<L>)
        ensures same { self.new ≡ self.old }
        ensures seat { seat.new ≡ seat.old }
        ensures accounts { IsAccountOf L.seats self.old.history seat.old }
    {
        let chair = &mut self.chairs[seat.number];
        chair.turn::<(), Stay>(&mut seat.receipts, &());
    }

    /// Changes nothing, and shows that the keeper has just the new beginnings and the sessions that were forgotten.
    pub fn audit_keeper(&mut self, keeper: &mut Keeper<L>)
        ensures same { self.new ≡ self.old }
        ensures keeper { keeper.new ≡ keeper.old }
        ensures accounts { keeper.old.beginnings ≡ beginnings self.old.history }
        ensures forgot { keeper.old.forgot ≡ forgotten_in self.old.history }
    {
        self.begun.turn::<(), Stay>(&mut keeper.begun, &());
    }

    /// Takes the seats and the keeper back, and shows that the history replays, that each seat has just a receipt for each of
    /// its entries, in order, and that the keeper has just the new beginnings and the sessions that were forgotten. It compares
    /// nothing.
    pub fn settle(self, seats: Vec<Seat<L>>, keeper: Keeper<L>) -> Chronicle<L>
        ensures same { result ≡ self }
        ensures accounts { All (IsAccountOf L.seats self.history) seats.items }
        ensures keeper { keeper.beginnings ≡ beginnings self.history }
        ensures forgot { keeper.forgot ≡ forgotten_in self.history }
        ensures seated { OfSeats L.seats (calls self.history) }
        ensures settles { length seats.items ≡ L.seats → EachOnce L.seats seats.items
            → Settles (as_book L.seats L.opening self) seats.items }
        ensures replays { LeadsTo L.opening self.history self.site }
        ensures holds { HoldsWhatIsLeft L.opening self }
    {
        let mut chronicle = self;
        for seat in seats {
            let mut seat = seat;
            chronicle.audit(&mut seat);
        }
        let mut keeper = keeper;
        chronicle.audit_keeper(&mut keeper);
        let _ = chronicle.site();
        chronicle
    }

    /// The site alone.
    pub fn into_site(self) -> Site
        ensures { result ≡ self.site }
    {
        self.site
    }
}

/// The seats, each with its copy of a note.
#[tactic(auto, using(crate::proofs::Counting::last_none))]
fn seated<L: Roll>(receipts: Vec<Duplicate<Receipts>>, room: Vec<Seat<L>>) -> Vec<Seat<L>>
    requires count { length receipts.items ≡ L.seats }
    requires notes { AreSeatNotes L.name_of receipts.items }
    requires none { room.items ≡ [] }
    requires room { L.seats ≤ vec_capacity room }
    ensures { result.items ≡ new_seats L.seats }
{
    let mut seats = room;
    for receipts in receipts {
        let number = seats.len();
        seats.push_reserved(Seat {
            number,
            receipts,
            calls: 0,
            last: None,
            of: PhantomData,
        });
    }
    seats
}
