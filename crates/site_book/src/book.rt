//! The book: a site with its history, and the room for what settling it gives.
ghost use Rattle.std.specs.Prelude.{◌≡◌, ◌≤◌, ◌<◌, length, true, false, Err, vec_len, vec_capacity, [], IfOk, IfErr, OnErr};
ghost use Rattle.pcrf_model.specs.Views.{view};
ghost use Rattle.site_machine.specs.Cached.{AreCached};
ghost use Rattle.site_machine.specs.Many.{AreFresh};
ghost use Rattle.site_machine.specs.Sites.{OwesNothing, SiteMayReply};
ghost use Rattle.site_machine.specs.Values.{event_value, reply_value, event_lacks_counter};
ghost use Rattle.site_book.specs.Books.{new_book, new_seats, with_entry, with_receipt, is_full, is_short, IsHistoryOf};
ghost use Rattle.site_book.specs.Limits.{most_entries, most_seats};

use crate::entry::Receipt;
use crate::pages::Pages;
use crate::seat::Seat;
use pcrf_values::DiameterIdentity;
use site_join::{Operation, State};
use site_machine::{Event, Reply, Rules, Site, StepFault};
use std::alloc::{AllocError, Global};
use std::marker::Model;
use std::sync::ledger::{Blank, Ledger, Share};
use std::thread::Threads;

/// A site with its history, and room for the receipts of each seat, which settling needs.
#[derive(Drop)]
pub struct SiteBook<L: Ledger> {
    pub(crate) pages: Pages<L>,
    pub(crate) room: Vec<Vec<Receipt>>,
}

impl<L: Ledger> Model for SiteBook<L> {
    ghost use Rattle.std.specs.Prelude.{◌≡◌, ◌≤◌, vec_len, vec_capacity};
    ghost use Rattle.site_book.specs.Books.{BookValue};

    ghost Value = { BookValue };

    ghost view = { λ b. b.pages };

    ghost invariant = { λ b. (vec_len b.room ≡ 0) × (b.pages.seats ≤ vec_capacity b.room) };
}

impl<L: Ledger> SiteBook<L> {
    ghost use Rattle.std.specs.Borrow.{sem};
    ghost use Rattle.std.specs.Io.BufRead.{Rests};
    ghost use Rattle.site_book.specs.contracts.book.SiteBook.{the_row};

    /// A book over a site, and its seats: nothing has happened since it was opened. Where memory is refused both come back.
    pub fn start(
        alloc: Global,
        blank: Blank,
        site: Site,
        seats: usize,
        limit: usize,
    ) -> Result<(SiteBook<L>, Vec<Seat<L>>), (AllocError, Blank, Site)>
        requires name { blank.name ≡ L.name }
        requires parts { blank.parts ≡ L.parts }
        requires one_each { blank.parts ≡ seats }
        requires seats { (1 ≤ seats) × (seats ≤ most_seats) }
        requires limit { limit ≤ most_entries }
        ensures book { IfOk result (λ r. r.0 ≡ new_book site seats limit) }
        ensures seats { IfOk result (λ r. r.1.items ≡ new_seats seats) }
        ensures blank { IfErr result (λ r. r.1 ≡ blank) }
        ensures site { IfErr result (λ r. r.2 ≡ site) }
    {
        let Ok((opening, opening_log)) = opening_of(&site) else {
            return Err((AllocError, blank, site));
        };
        let Ok((room, chairs)) = room_for(alloc, seats) else {
            return Err((AllocError, blank, site));
        };
        let (calls, all) = blank.open::<L>();
        let pages = Pages {
            opening,
            opening_log,
            site,
            history: Vec::new(alloc),
            limit,
            seats,
            calls,
        };
        let book = SiteBook { pages, room };
        Ok((book, seated(alloc, all, chairs, seats)))
    }

    /// How many entries the history has.
    pub fn entries(&self) -> usize
        ensures entries { result ≡ length self.now.history }
        ensures within { result ≤ self.now.limit }
    {
        self.pages.entries()
    }

    /// How many entries it may have.
    pub fn limit(&self) -> usize
        ensures { result ≡ self.now.limit }
    {
        self.pages.limit()
    }

    /// The site as the history has left it: the history replays from the opening to what it holds, each reply being one
    /// that a single site may give there.
    pub fn site(&self) -> &Site
        ensures site { result.now ≡ self.now.site }
        ensures replays { IsHistoryOf self.now }
    {
        self.pages.site()
    }

    /// Whether the site made no more operations itself than so many, and an entry can be added: who waits for more of them has
    /// to wait.
    pub fn is_short(&self, past: u64) -> bool
        ensures { result ≡ is_short self.now past }
    {
        self.entries() < self.limit() && self.site().logged() <= past
    }

    /// Whether something may be due to the gateways of a host, as the site's own `is_waiting` tells it: where it answers false
    /// nothing is. It makes no entry.
    pub fn is_waiting(&self, host: &DiameterIdentity) -> bool
        ensures { result ≡ false → OwesNothing self.now.site host.now }
    {
        self.site().is_waiting(host)
    }

    /// Derives the rules of each live gateway's session of which the site keeps none, in as many threads as there are
    /// processors, and has it keep them: what is answered are the lists that it keeps then, one of each live session. Nothing
    /// else changes, also where memory is refused.
    pub fn renew(&mut self, rt: &(impl Threads + Sync)) -> Result<&Rules, AllocError>
        ensures* same { sem 𝓛 (Rests (the_row L.row L.Ledger) self.entry
            (λ now. now ≡ self.old)) }
        ensures fresh { IfOk result (λ lists. AreFresh self.old.site.tables
            (view self.old.site.state.holding.facts) lists.now) }
        ensures kept { IfOk result (λ lists. AreCached self.old.site.tables
            (view self.old.site.state.holding.facts) lists.now) }
    {
        self.pages.renew(rt)
    }

    /// Makes an event happen, as a call of a seat. The entry comes last, and the seat gains its receipt. A fault changes
    /// neither.
    pub fn step(&mut self, seat: &mut Seat<L>, event: &Event) -> Result<Reply, StepFault>
        ensures reply { IfOk result (λ reply.
            SiteMayReply self.old.site (event_value event.now) (reply_value reply)) }
        ensures book { IfOk result (λ reply. self.new
            ≡ with_entry self.old seat.old.number (event_value event.now) (reply_value reply)) }
        ensures seat { IfOk result (λ reply. seat.new ≡ with_receipt seat.old
            (length self.old.history) (event_value event.now) (reply_value reply)) }
        ensures full { is_full self.old ≡ true → result ≡ Err StepFault.HistoryFull }
        ensures room { IfErr result (λ fault.
            fault ≡ StepFault.HistoryFull → is_full self.old ≡ true) }
        ensures counter { IfErr result (λ fault. fault ≡ StepFault.ClockFull
            → event_lacks_counter self.old.site.tables self.old.site.number
            self.old.site.state.holding (event_value event.now) ≡ true) }
        ensures err_book { OnErr result (self.new ≡ self.old) }
        ensures err_seat { OnErr result (seat.new ≡ seat.old) }
    {
        self.pages.step(seat, event)
    }
}

/// Copies of what a site holds and of what it made.
fn opening_of(site: &Site) -> Result<(State, Vec<Operation>), AllocError>
    ensures state { IfOk result (λ r. r.0 ≡ site.now.state.holding) }
    ensures log { IfOk result (λ r. r.1.items ≡ site.now.state.log) }
{
    let (state, _) = site.whole()?;
    let log = site.log_copy()?;
    Ok((state, log))
}

/// Room for the receipts of so many seats, and for the seats.
fn room_for<L: Ledger>(
    alloc: Global,
    seats: usize,
) -> Result<(Vec<Vec<Receipt>>, Vec<Seat<L>>), AllocError>
    ensures receipts { IfOk result (λ r. vec_len r.0 ≡ 0) }
    ensures receipts_room { IfOk result (λ r. seats ≤ vec_capacity r.0) }
    ensures seats { IfOk result (λ r. r.1.items ≡ []) }
    ensures seats_room { IfOk result (λ r. seats ≤ vec_capacity r.1) }
{
    let receipts = Vec::with_capacity(alloc, seats)?;
    let chairs = Vec::with_capacity(alloc, seats)?;
    Ok((receipts, chairs))
}

/// The seats, each with a part of the ledger.
fn seated<L: Ledger>(
    alloc: Global,
    all: Share<L>,
    chairs: Vec<Seat<L>>,
    seats: usize,
) -> Vec<Seat<L>>
    requires parts { all.parts ≡ seats }
    requires amount { all.amount ≡ 0 }
    requires none { chairs.items ≡ [] }
    requires room { seats ≤ vec_capacity chairs }
    ensures { result.items ≡ new_seats seats }
{
    let mut rest = all;
    let mut chairs = chairs;
    for number in 0..seats {
        let share = rest.split_off(1, 0);
        chairs.push_reserved(Seat {
            number,
            receipts: Vec::new(alloc),
            share,
        });
    }
    chairs
}
