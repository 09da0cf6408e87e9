//! What is noted of calls and new beginnings: clauses alone read it, and nothing of it is there when the program runs. A type
//! whose clauses see a list stands for what a note of it says; no value of it is made but the empty one.
use crate::notes::{Original, Turn};
use site_machine::{AnySid, Event, Reply};
use std::marker::Model;
use std::snapshot::Snapshot;

/// The deeds of a history, in order: calls of seats, new beginnings, and sessions that were forgotten.
#[derive(Drop)]
pub struct Deeds {}

impl Model for Deeds {
    ghost use Rattle.std.specs.Prelude.{List, []};
    ghost use Rattle.site_lock.specs.Deeds.{Deed};

    ghost Value = { List Deed };

    ghost view = { λ e. [] };
}

/// The receipts of a seat, in order.
#[derive(Drop)]
pub struct Receipts {}

impl Model for Receipts {
    ghost use Rattle.std.specs.Prelude.{List, []};
    ghost use Rattle.site_book.specs.Books.{ReceiptValue};

    ghost Value = { List ReceiptValue };

    ghost view = { λ r. [] };
}

/// What the keeper had the site do: of each new beginning how many calls came before it, and the sessions that were forgotten, in order.
#[derive(Drop)]
pub struct Beginnings {}

impl Model for Beginnings {
    ghost use Rattle.std.specs.Prelude.{[]};
    ghost use Rattle.site_lock.specs.Deeds.{KeptValue};

    ghost Value = { KeptValue };

    ghost view = { λ b. record { beginnings = []; forgot = [] } };
}

/// A call that was made: the history before it, who called, what happened and what was replied.
#[derive(Drop)]
pub struct Call {
    pub past: Snapshot<Original<Deeds>>,
    pub seat: usize,
    pub event: Snapshot<Event>,
    pub reply: Snapshot<Reply>,
}

/// A new beginning: the history before it.
#[derive(Drop)]
pub struct Beginning {
    pub past: Snapshot<Original<Deeds>>,
}

/// A session that was forgotten.
#[derive(Drop)]
pub struct Forgetting {
    pub session: Snapshot<AnySid>,
}

/// The history gains a deed.
pub struct Enter;

impl Turn<Deeds, Call> for Enter {
    ghost use Rattle.std.specs.Prelude.{[], ◌∷◌, ◌++◌};
    ghost use Rattle.site_machine.specs.Values.{event_value, reply_value};
    ghost use Rattle.site_book.specs.Books.{entry_of};
    ghost use Rattle.site_lock.specs.Deeds.{Entered};

    ghost next = { λ history call. history
        ++ Entered (entry_of call.seat (event_value call.event.value) (reply_value call.reply.value)) ∷ [] };
}

impl Turn<Deeds, Beginning> for Enter {
    ghost use Rattle.std.specs.Prelude.{[], ◌∷◌, ◌++◌};
    ghost use Rattle.site_lock.specs.Deeds.{BegunAnew};

    ghost next = { λ history beginning. history ++ BegunAnew ∷ [] };
}

impl Turn<Deeds, Forgetting> for Enter {
    ghost use Rattle.std.specs.Prelude.{[], ◌∷◌, ◌++◌};
    ghost use Rattle.site_machine.specs.Ended.{session_named};
    ghost use Rattle.site_lock.specs.Deeds.{Forgot};

    ghost next = { λ history forgetting. history ++ Forgot (session_named forgetting.session.value) ∷ [] };
}

/// The seat gains a receipt.
pub struct Receive;

impl Turn<Receipts, Call> for Receive {
    ghost use Rattle.std.specs.Prelude.{[], ◌∷◌, ◌++◌, length};
    ghost use Rattle.site_machine.specs.Values.{event_value, reply_value};
    ghost use Rattle.site_book.specs.Books.{receipt_of};
    ghost use Rattle.site_lock.specs.Deeds.{calls};

    ghost next = { λ receipts call. receipts
        ++ receipt_of (length (calls call.past.value.note))
        (event_value call.event.value) (reply_value call.reply.value) ∷ [] };
}

/// The keeper gains a new beginning.
pub struct Begin;

impl Turn<Beginnings, Beginning> for Begin {
    ghost use Rattle.std.specs.Prelude.{[], ◌∷◌, ◌++◌, length};
    ghost use Rattle.site_lock.specs.Deeds.{calls};

    ghost next = { λ kept beginning. record kept {
      beginnings = kept.beginnings ++ length (calls beginning.past.value.note) ∷ [];
    } };
}

/// And a session that was forgotten.
pub struct Forget;

impl Turn<Beginnings, Forgetting> for Forget {
    ghost use Rattle.std.specs.Prelude.{[], ◌∷◌, ◌++◌};
    ghost use Rattle.site_machine.specs.Ended.{session_named};

    ghost next = { λ kept forgetting. record kept {
      forgot = kept.forgot ++ session_named forgetting.session.value ∷ [];
    } };
}

/// Nothing changes.
pub struct Stay;

impl Turn<Receipts, ()> for Stay {
    ghost next = { λ receipts nothing. receipts };
}

impl Turn<Beginnings, ()> for Stay {
    ghost next = { λ list nothing. list };
}
