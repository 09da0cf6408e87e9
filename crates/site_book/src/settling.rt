//! The end of a book.
ghost use Rattle.std.specs.Prelude.{◌≡◌, ◌↔◌, ◌<◌, ◌≤◌, IsTrue, IfOk, IfErr, length, None, slice_get, vec_len, vec_capacity};
ghost use Rattle.std.specs.Option.{option_copied};
ghost use Rattle.site_book.specs.Books.{IsHistoryOf};
ghost use Rattle.site_book.specs.Gains.{HoldsAll};
ghost use Rattle.site_book.specs.Settling.{times, EachOnce, receipts_in_all, IsComplete, receipts_of, receipts_below, claim, claims_of, claims_from, is_above, ClaimJudged, Verdict, Settles, FirstFault, Judged, place_in, lists_of};

use crate::book::SiteBook;
use crate::entry::Receipt;
use crate::fault::SettleFault;
use crate::pages::Pages;
use crate::seat::Seat;
use std::marker::Model;
use std::sync::ledger::Ledger;

/// The pages of a settled book, with the receipts of each seat, by the seats' numbers.
#[derive(Drop)]
pub struct Settled<L: Ledger> {
    pages: Pages<L>,
    receipts: Vec<Vec<Receipt>>,
}

impl<L: Ledger> Model for Settled<L> {
    ghost use Rattle.site_book.specs.Settling.{SettledValue, lists_of};

    ghost Value = { SettledValue };

    ghost view = { λ s. record { book = s.pages; receipts = lists_of s.receipts.items } };
}

impl<L: Ledger> Settled<L> {
    /// The pages of the book.
    pub fn pages(&self) -> &Pages<L>
        ensures { result.now ≡ self.now.book }
    {
        &self.pages
    }

    /// The receipts of the seat of that number, in order; `None` where no seat has it.
    pub fn receipts(&self, seat: usize) -> Option<&[Receipt]>
        ensures { option_copied result ≡ slice_get self.now.receipts seat }
    {
        let Some(receipts) = self.receipts.get(seat) else {
            return None;
        };
        Some(receipts.as_slice())
    }
}

/// What did not settle: why, the book, and the seats.
#[derive(Drop)]
pub struct Unsettled<L: Ledger> {
    pub fault: SettleFault,
    pub book: SiteBook<L>,
    pub seats: Vec<Seat<L>>,
}

impl<L: Ledger> SiteBook<L> {
    /// Settles the book where each seat is there, as many receipts as entries, and each receipt stands at its place with its
    /// event and its reply; else it tells the first fault, and gives the book and the seats back.
    pub fn settle(self, seats: Vec<Seat<L>>) -> Result<Settled<L>, Unsettled<L>>
        ensures settles { IfOk result (λ s. Settles self seats.items) }
        ensures book { IfOk result (λ s. s.book ≡ self) }
        ensures receipts { IfOk result (λ s. s.receipts ≡ receipts_below self.seats seats.items) }
        ensures replays { IfOk result (λ s. IsHistoryOf s.book) }
        ensures holds { IfOk result (λ s. HoldsAll s.book) }
        ensures fault { IfErr result (λ u. FirstFault self seats.items u.fault) }
        ensures back { IfErr result (λ u. u.book ≡ self) }
        ensures seats_back { IfErr result (λ u. u.seats.items ≡ seats.items) }
    {
        if let Some(fault) = self.pages.first_fault(seats.as_slice()) {
            return Err(Unsettled {
                fault,
                book: self,
                seats,
            });
        }
        let SiteBook { pages, room } = self;
        let count = pages.seats();
        let receipts = moved(seats, room, count);
        Ok(Settled { pages, receipts })
    }
}

impl<L: Ledger> Pages<L> {
    /// How many seats there are. The site holds what is kept of its opening and of all that the entries added.
    fn seats(&self) -> usize
        ensures seats { result ≡ self.now.seats }
        ensures replays { IsHistoryOf self.now }
        ensures holds { HoldsAll self.now }
    {
        self.opening.note_kept();
        self.seats
    }

    /// The first fault that stands, if one does.
    fn first_fault(&self, seats: &[Seat<L>]) -> Option<SettleFault>
        ensures { Judged self.now seats.now result }
    {
        if !self.is_complete(seats) {
            return Some(SettleFault::MissingSeat);
        }
        self.wrong_seat(seats)
    }

    /// The seats are those of the book, and there are as many receipts as entries.
    fn is_complete(&self, seats: &[Seat<L>]) -> bool
        ensures { IsTrue result ↔ IsComplete self.now seats.now }
    {
        seats.len() == self.seats
            && each_once(seats, self.seats)
            && are_in_all(seats, self.history.len())
    }

    /// The fault of the first receipt that does not stand.
    fn wrong_seat(&self, seats: &[Seat<L>]) -> Option<SettleFault>
        ensures { Verdict self.now.history (claims_from self.now.seats 0 seats.now) result }
    {
        for number in 0..self.seats {
            let wrong = self.wrong_receipt(number, receipts_of(seats, number));
            if wrong.is_some() {
                return wrong;
            }
        }
        None
    }

    /// The fault of the first receipt of a seat that does not stand.
    fn wrong_receipt(&self, number: usize, receipts: &[Receipt]) -> Option<SettleFault>
        ensures { Verdict self.now.history (claims_of number None receipts.now) result }
    {
        let mut before = None;
        for receipt in receipts {
            let wrong = self.wrong_claim(number, before, receipt);
            if wrong.is_some() {
                return wrong;
            }
            before = Some(receipt.place());
        }
        None
    }

    /// The fault of a receipt, if it does not stand.
    fn wrong_claim(
        &self,
        number: usize,
        before: Option<usize>,
        receipt: &Receipt,
    ) -> Option<SettleFault>
        ensures { ClaimJudged self.now.history (claim number before receipt.now) result }
    {
        let Some(entry) = self.history.get(receipt.place) else {
            return Some(SettleFault::WrongPlace);
        };
        if !is_above(before, receipt.place) || entry.seat != number {
            return Some(SettleFault::WrongPlace);
        }
        if receipt.event.equal(&entry.event) && receipt.reply.equal(&entry.reply) {
            None
        } else {
            Some(SettleFault::WrongContent)
        }
    }
}

/// The place is above that of the receipt before.
fn is_above(before: Option<usize>, place: usize) -> bool
    ensures { result ≡ is_above before place }
{
    match before {
        Some(before) => before < place,
        None => true,
    }
}

/// How many of the seats have that number.
fn count_of<L: Ledger>(seats: &[Seat<L>], number: usize) -> usize
    ensures { result ≡ times number seats.now }
{
    let mut count = 0;
    for seat in seats {
        if seat.number() == number {
            count += 1;
        }
    }
    count
}

/// Each number below one is that of one seat.
fn each_once<L: Ledger>(seats: &[Seat<L>], count: usize) -> bool
    ensures { IsTrue result ↔ EachOnce count seats.now }
{
    for number in 0..count {
        if count_of(seats, number) != 1 {
            return false;
        }
    }
    true
}

/// The seats have so many receipts in all.
fn are_in_all<L: Ledger>(seats: &[Seat<L>], count: usize) -> bool
    ensures { IsTrue result ↔ receipts_in_all seats.now ≡ count }
{
    let mut left = count;
    for seat in seats {
        let Some(rest) = left.checked_sub(seat.receipts().len()) else {
            return false;
        };
        left = rest;
    }
    left == 0
}

/// The receipts of the seat of that number; none if there is no such seat.
fn receipts_of<L: Ledger>(seats: &[Seat<L>], number: usize) -> &[Receipt]
    ensures { result.now ≡ receipts_of number seats.now }
{
    for seat in seats {
        if seat.number() == number {
            return seat.receipts();
        }
    }
    &[]
}

/// The place of the seat of that number.
fn place_of<L: Ledger>(seats: &[Seat<L>], number: usize) -> usize
    requires { times number seats.now ≡ 1 }
    ensures place { result ≡ place_in number seats.now }
    ensures within { result < length seats.now }
{
    for at in 0..seats.len() {
        if seats[at].number() == number {
            return at;
        }
    }
    0
}

/// The receipts of each seat, by the seats' numbers.
fn moved<L: Ledger>(seats: Vec<Seat<L>>, room: Vec<Vec<Receipt>>, count: usize) -> Vec<Vec<Receipt>>
    requires once { EachOnce count seats.items }
    requires none { vec_len room ≡ 0 }
    requires room { count ≤ vec_capacity room }
    ensures { lists_of result.items ≡ receipts_below count seats.items }
{
    let mut seats = seats;
    let mut room = room;
    for number in 0..count {
        let at = place_of(seats.as_slice(), number);
        room.push_reserved(receipts_in(seats.remove(at)));
    }
    room
}

/// The receipts of a seat, which is used up.
fn receipts_in<L: Ledger>(seat: Seat<L>) -> Vec<Receipt>
    ensures { result.items ≡ seat.receipts }
{
    let Seat {
        number: _,
        receipts,
        share: _,
    } = seat;
    receipts
}
