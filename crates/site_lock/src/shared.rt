//! A site that threads share.
ghost use Rattle.std.specs.Prelude.{◌≡◌, ◌≢◌, ℕ, List, true, false, length, IfOk, OnErr};
ghost use Rattle.std.specs.Thread.{IsSync};
ghost use Rattle.site_machine.specs.Sites.{SiteValue};
ghost use Rattle.site_machine.specs.Values.{event_value, reply_value};
ghost use Rattle.site_book.specs.Books.{SeatValue};
ghost use Rattle.site_lock.specs.Deeds.{counted_to, last_place};
ghost use Rattle.site_lock.specs.Epochs.{IfBegun, IfTold};
ghost use Rattle.site_lock.specs.Calls.{FindsNoneAbandoned, FindsNothingDue, GainsReceipt, TellsPast};
ghost use Rattle.site_lock.specs.Locked.{LockedValue};

use crate::living::{Dated, Grown};
use dia_base::Identity;
use pcrf_values::{DiameterIdentity, HashSeed};
use site_machine::{Event, Reply, StepFault};
use std::sync::Wait;
use std::thread::Threads;

/// A site that threads share: each calls at it with a seat of its own, which has a receipt for each of its calls. Whether the
/// history of these calls is kept when the program runs is the affair of the kind of site.
pub trait SharedSite {
    /// Who calls.
    type Seat: Drop;

    /// A seat's number and its receipts, as a book has them.
    ghost seen: { Self.Seat → SeatValue };

    /// What never changes of it.
    ghost beside: { Self → LockedValue };

    /// How a seat may find the site without a call: never, where each call is to have its entry.
    ghost found: { SeatValue → SiteValue → Type 0 };

    /// How often the site can have begun anew when a seat's last call was answered: never, where it can't.
    ghost answered: { SeatValue → ℕ → Type 0 };

    /// How often a seat may find that the site began anew, without a call.
    ghost has_begun: { SeatValue → ℕ → Type 0 };

    /// The names that the site answers under. It waits for nobody.
    fn identity(&self) -> &Identity
        ensures { result.now ≡ (beside self.now).identity };

    /// The edition of the site's operator tables. It waits for nobody.
    fn edition(&self) -> u32
        ensures { result ≡ (beside self.now).edition };

    /// What hashes begin with at the site. It waits for nobody.
    fn seed(&self) -> HashSeed;

    /// The site's number. It waits for nobody.
    fn number(&self) -> u8
        ensures { result ≡ (beside self.now).number };

    /// The number of a seat.
    fn number_of(&self, seat: &Self::Seat) -> usize
        ensures { result ≡ (seen seat.now).number };

    /// How many calls a seat made, 2^64 - 1 if there are more.
    fn calls_of(&self, seat: &Self::Seat) -> u64
        ensures { result ≡ counted_to (length (seen seat.now).receipts) };

    /// How many calls of the site came before a seat's last one, 2^64 - 1 if there are more; `None` where it made none. It is
    /// the place of its last receipt, and a number by which messages that tell of the call can be known.
    fn last_of(&self, seat: &Self::Seat) -> Option<u64>
        ensures { result ≡ last_place (seen seat.now).receipts };

    /// Whether a push to a host is to be asked for. Where it answers false the seat found that nothing was due to the host's
    /// gateways, and made no call of it. A site whose history is kept when the program runs has each push there that is asked
    /// for, of nothing too: it wants each.
    fn wants_push<R: Wait>(&self, rt: &R, seat: &mut Self::Seat, host: &DiameterIdentity) -> bool
        ensures none { result ≡ false → FindsNothingDue found (seen seat.old) host.now }
        ensures same { seat.new ≡ seat.old };

    /// Whether an abort at a host is to be asked for. Where it answers false the seat found that no session of the host was to be
    /// asked to abort, and made no call of it. A site whose history is kept when the program runs wants each, as with pushes.
    fn wants_abort<R: Wait>(&self, rt: &R, seat: &mut Self::Seat, host: &DiameterIdentity) -> bool
        ensures none { result ≡ false → FindsNoneAbandoned found (seen seat.old) host.now }
        ensures same { seat.new ≡ seat.old };

    /// No push is to be asked for, nor an abort, whichever the host: the seat found that nothing was due to any, and made no call
    /// of it. A site whose history is kept when the program runs is never quiet, since it has each of them there.
    fn is_quiet<R: Wait>(&self, rt: &R, seat: &mut Self::Seat) -> bool
        ensures pushes { result ≡ true → (host : List ℕ)
            → FindsNothingDue found (seen seat.old) host }
        ensures aborts { result ≡ true → (host : List ℕ)
            → FindsNoneAbandoned found (seen seat.old) host }
        ensures same { seat.new ≡ seat.old };

    /// Makes an event happen, as a call of a seat, once the lock is free. The seat gains the receipt of this event with the
    /// reply that is answered, or stays as it was. Where the site took a whole state of another, the rules of its sessions are
    /// made before the call answers, in as many threads as there are processors.
    fn call<R: Threads + Wait + Sync>(
        &self,
        rt: &R,
        seat: &mut Self::Seat,
        event: &Event,
    ) -> Result<Reply, StepFault>
        requires { IsSync R.row }
        ensures receipt { IfOk result (λ reply. GainsReceipt
            (seen seat.old) (event_value event.now) (reply_value reply) (seen seat.new)) }
        ensures err { OnErr result (seat.new ≡ seat.old) };

    /// What `call` does, and how often the site had begun anew when it replied. The epoch that the site started in and this many
    /// more are the epoch of the reply, and of a letter that is made of it.
    fn call_dated<R: Threads + Wait + Sync>(
        &self,
        rt: &R,
        seat: &mut Self::Seat,
        event: &Event,
    ) -> Result<Dated, StepFault>
        requires { IsSync R.row }
        ensures receipt { IfOk result (λ told. GainsReceipt
            (seen seat.old) (event_value event.now) (reply_value told.reply) (seen seat.new)) }
        ensures answered { IfOk result (λ told. answered (seen seat.new) told.begun) }
        ensures err { OnErr result (seat.new ≡ seat.old) };

    /// What `call` does, in the caller's thread alone: the rules of a whole state that the site takes are made when they are asked for.
    fn call_alone<R: Wait>(
        &self,
        rt: &R,
        seat: &mut Self::Seat,
        event: &Event,
    ) -> Result<Reply, StepFault>
        ensures receipt { IfOk result (λ reply. GainsReceipt
            (seen seat.old) (event_value event.now) (reply_value reply) (seen seat.new)) }
        ensures err { OnErr result (seat.new ≡ seat.old) };

    /// What `call` does, once the site has made more operations itself than so many, or its history is full, if it is one that
    /// can be.
    fn call_grown<R: Threads + Wait + Sync>(
        &self,
        rt: &R,
        seat: &mut Self::Seat,
        event: &Event,
        past: u64,
    ) -> Result<Reply, StepFault>
        requires { IsSync R.row }
        ensures receipt { IfOk result (λ reply. GainsReceipt
            (seen seat.old) (event_value event.now) (reply_value reply) (seen seat.new)) }
        ensures past { IfOk result (λ reply. TellsPast past (reply_value reply)) }
        ensures err { OnErr result (seat.new ≡ seat.old) };

    /// What `call` does, once the site has made more operations itself than so many since it began anew for so many times, or its
    /// history is full, if it is one that can be. Who waits is woken by the next new beginning, or finds that it was, and is told
    /// so: no call is made then.
    fn call_grown_since<R: Threads + Wait + Sync>(
        &self,
        rt: &R,
        seat: &mut Self::Seat,
        event: &Event,
        past: u64,
        begun: u16,
    ) -> Result<Grown, StepFault>
        requires { IsSync R.row }
        ensures receipt { IfOk result (λ grown. IfTold grown (λ reply. GainsReceipt
            (seen seat.old) (event_value event.now) reply (seen seat.new))) }
        ensures answered { IfOk result (λ grown. IfTold grown (λ reply.
            answered (seen seat.new) begun)) }
        ensures past { IfOk result (λ grown. IfTold grown (TellsPast past)) }
        ensures begun { IfOk result (λ grown. IfBegun grown (λ now.
            (now ≢ begun) × has_begun (seen seat.old) now)) }
        ensures same { IfOk result (λ grown. IfBegun grown (λ now. seat.new ≡ seat.old)) }
        ensures err { OnErr result (seat.new ≡ seat.old) };
}
