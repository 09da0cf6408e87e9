//! An entry of the history, and the receipt of the seat that made it.
ghost use Rattle.std.specs.Prelude.{◌≡◌};
ghost use Rattle.site_book.specs.Books.{EntryValue, ReceiptValue};
ghost use Rattle.site_machine.specs.Values.{event_value, reply_value};

use site_machine::{Event, Reply};
use std::marker::Model;

/// An entry: the number of the seat that called, what happened, and what was replied.
#[derive(Drop)]
pub struct Entry {
    pub(crate) seat: usize,
    pub(crate) event: Event,
    pub(crate) reply: Reply,
}

impl Model for Entry {
    ghost use Rattle.site_book.specs.Books.{EntryValue};
    ghost use Rattle.site_machine.specs.Values.{event_value, reply_value};

    ghost Value = { EntryValue };

    ghost view = { λ e. record { seat = e.seat; event = event_value e.event; reply = reply_value e.reply } };
}

/// What a seat has of a call that it made: the place of the entry, what happened, and what was replied.
#[derive(Drop)]
pub struct Receipt {
    pub(crate) place: usize,
    pub(crate) event: Event,
    pub(crate) reply: Reply,
}

impl Model for Receipt {
    ghost use Rattle.site_book.specs.Books.{ReceiptValue};
    ghost use Rattle.site_machine.specs.Values.{event_value, reply_value};

    ghost Value = { ReceiptValue };

    ghost view = { λ r. record { place = r.place; event = event_value r.event; reply = reply_value r.reply } };
}

impl Receipt {
    /// The place of the entry.
    pub fn place(&self) -> usize
        ensures { result ≡ self.now.place }
    {
        self.place
    }

    /// What happened.
    pub fn event(&self) -> &Event
        ensures { event_value result.now ≡ self.now.event }
    {
        &self.event
    }

    /// What was replied.
    pub fn reply(&self) -> &Reply
        ensures { reply_value result.now ≡ self.now.reply }
    {
        &self.reply
    }
}
