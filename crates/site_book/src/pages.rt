//! The pages of a book: a site with its history.
ghost use Rattle.std.specs.Prelude.{◌≡◌, ◌≤◌, ◌<◌, length, true, Err, IfOk, IfErr, OnErr};
ghost use Rattle.pcrf_model.specs.Views.{view};
ghost use Rattle.site_machine.specs.Cached.{AreCached};
ghost use Rattle.site_machine.specs.Many.{AreFresh};
ghost use Rattle.site_machine.specs.Sites.{SiteMayReply};
ghost use Rattle.site_machine.specs.Values.{event_value, reply_value, event_lacks_counter};
ghost use Rattle.site_book.specs.Books.{with_entry, with_receipt, is_full, IsHistoryOf};

use crate::copies::{Copies, twice};
use crate::entry::{Entry, Receipt};
use crate::seat::Seat;
use site_join::{Operation, State};
use site_machine::{Event, Reply, Rules, Site, StepFault};
use std::alloc::AllocError;
use std::marker::Model;
use std::sync::ledger::{Book, Ledger};
use std::thread::Threads;

/// A site, what it held and had made when the book was opened, and the history since: an entry for each call, which the
/// number of the ledger counts.
#[derive(Drop)]
pub struct Pages<L: Ledger> {
    pub(crate) opening: State,
    pub(crate) opening_log: Vec<Operation>,
    pub(crate) site: Site,
    pub(crate) history: Vec<Entry>,
    pub(crate) limit: usize,
    pub(crate) seats: usize,
    pub(crate) calls: Book<L>,
}

impl<L: Ledger> Model for Pages<L> {
    ghost use Rattle.site_book.specs.Books.{BookValue};
    ghost use Rattle.site_book.specs.Sound.{IsSound};

    ghost Value = { BookValue };

    ghost view = { λ b. record {
      opening = record { holding = b.opening; log = b.opening_log.items };
      site = b.site;
      history = b.history.items;
      limit = b.limit;
      seats = b.seats;
    } };

    ghost invariant = { λ b. IsSound b.opening b.opening_log.items b.site b.history.items b.limit b.calls.total };
}

impl<L: Ledger> Pages<L> {
    ghost use Rattle.std.specs.Borrow.{sem};
    ghost use Rattle.std.specs.Io.BufRead.{Rests};
    ghost use Rattle.site_book.specs.contracts.pages.Pages.{the_row};

    /// How many entries the history has.
    pub fn entries(&self) -> usize
        ensures entries { result ≡ length self.now.history }
        ensures within { result ≤ self.now.limit }
    {
        self.history.len()
    }

    /// How many entries it may have.
    pub fn limit(&self) -> usize
        ensures { result ≡ self.now.limit }
    {
        self.limit
    }

    /// The site as the history has left it: the history replays from the opening to what it holds, each reply being one
    /// that a single site may give there.
    pub fn site(&self) -> &Site
        ensures site { result.now ≡ self.now.site }
        ensures replays { IsHistoryOf self.now }
    {
        &self.site
    }

    /// Has the site keep the rules of each live gateway's session, as its own `renew` does: nothing else changes.
    pub(crate) fn renew(&mut self, rt: &(impl Threads + Sync)) -> Result<&Rules, AllocError>
        ensures* same { sem 𝓛 (Rests (the_row L.row L.Ledger) self.entry
            (λ now. now ≡ self.old)) }
        ensures fresh { IfOk result (λ lists. AreFresh self.old.site.tables
            (view self.old.site.state.holding.facts) lists.now) }
        ensures kept { IfOk result (λ lists. AreCached self.old.site.tables
            (view self.old.site.state.holding.facts) lists.now) }
    {
        self.site.renew(rt)
    }

    /// Makes an event happen, as a call of a seat. The entry comes last, and the seat gains its receipt. A fault changes
    /// neither.
    pub fn step(&mut self, seat: &mut Seat<L>, event: &Event) -> Result<Reply, StepFault>
        ensures reply { IfOk result (λ reply.
            SiteMayReply self.old.site (event_value event.now) (reply_value reply)) }
        ensures book { IfOk result (λ reply. self.new
            ≡ with_entry self.old seat.old.number (event_value event.now) (reply_value reply)) }
        ensures seat { IfOk result (λ reply. seat.new ≡ with_receipt seat.old
            (length self.old.history) (event_value event.now) (reply_value reply)) }
        ensures full { is_full self.old ≡ true → result ≡ Err StepFault.HistoryFull }
        ensures room { IfErr result (λ fault.
            fault ≡ StepFault.HistoryFull → is_full self.old ≡ true) }
        ensures counter { IfErr result (λ fault. fault ≡ StepFault.ClockFull
            → event_lacks_counter self.old.site.tables self.old.site.number
            self.old.site.state.holding (event_value event.now) ≡ true) }
        ensures err_book { OnErr result (self.new ≡ self.old) }
        ensures err_seat { OnErr result (seat.new ≡ seat.old) }
    {
        let place = self.history.len();
        if place >= self.limit {
            return Err(StepFault::HistoryFull);
        }
        if self.history.reserve(1).is_err() {
            return Err(StepFault::NoMemory);
        }
        if seat.receipts.reserve(1).is_err() {
            return Err(StepFault::NoMemory);
        }
        let Ok((entered, received)) = twice(event) else {
            return Err(StepFault::NoMemory);
        };
        let mut copies = Copies::none();
        let reply = self.site.step_seen_by(event, &mut copies)?;
        self.history.push_reserved(Entry {
            seat: seat.number,
            event: entered,
            reply: copies.entered,
        });
        seat.receipts.push_reserved(Receipt {
            place,
            event: received,
            reply: copies.received,
        });
        self.calls.add(&mut seat.share, 1);
        Ok(reply)
    }
}
