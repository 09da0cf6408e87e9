//! What a site tells another that it took of it.
ghost use Rattle.std.specs.Prelude.{◌≡◌, ◌≤◌, ◌<◌};
ghost use Rattle.pcrf_model.specs.Cursors.{ack_letter, carried_ack};
ghost use Rattle.pcrf_values.specs.Limits.{last_counter, site_limit};
ghost use Rattle.peer_exchange.specs.CursorValues.{ack_saying};

use crate::body::{Acknowledgement, Body};
use crate::cursor::Cursor;
use crate::letter::Letter;
use std::marker::Model;

/// An acknowledgement: who says it, in which of its epochs, and how many operations of which maker and epoch it took. It keeps
/// the ranges that a letter has for these.
#[derive(Clone, Copy)]
pub struct Ack {
    sender: u8,
    sender_epoch: u16,
    maker: u8,
    maker_epoch: u16,
    cursor: u64,
}

impl Model for Ack {
    ghost use Rattle.pcrf_model.specs.Letters.{AckValue};
    ghost use Rattle.peer_exchange.specs.CursorValues.{IsAck};

    ghost Value = { AckValue };

    ghost view = { λ a. record {
      sender = a.sender;
      sender_epoch = a.sender_epoch;
      maker = a.maker;
      maker_epoch = a.maker_epoch;
      cursor = a.cursor;
    } };

    ghost inverse = { λ a. record {
      sender = a.sender;
      sender_epoch = a.sender_epoch;
      maker = a.maker;
      maker_epoch = a.maker_epoch;
      cursor = a.cursor;
    } };

    ghost invariant = { λ a. IsAck (record {
      sender = a.sender;
      sender_epoch = a.sender_epoch;
      maker = a.maker;
      maker_epoch = a.maker_epoch;
      cursor = a.cursor;
    }) };
}

impl Ack {
    /// What a site says in an epoch of its that it took of a maker.
    pub(crate) fn of(sender: u8, sender_epoch: u16, maker: u8, taken: Cursor) -> Ack
        requires sender { sender < site_limit }
        requires began { 1 ≤ sender_epoch }
        requires maker { maker < site_limit }
        ensures { result ≡ ack_saying sender sender_epoch maker taken }
    {
        Ack {
            sender,
            sender_epoch,
            maker,
            maker_epoch: taken.epoch(),
            cursor: taken.taken(),
        }
    }

    /// The acknowledgement that a letter carries, if it is one.
    pub fn carried_by(letter: &Letter) -> Option<Ack>
        ensures { result ≡ carried_ack letter.now letter.now.body }
    {
        letter.note_kept();
        let Body::Acknowledgement(said) = letter.body() else {
            return None;
        };
        let Acknowledgement {
            maker,
            maker_epoch,
            cursor,
        } = *said;
        Some(Ack {
            sender: letter.site(),
            sender_epoch: letter.epoch(),
            maker,
            maker_epoch,
            cursor,
        })
    }

    /// The letter that says it, under that edition of the operator tables.
    pub fn letter(&self, edition: u32) -> Letter
        ensures { result ≡ ack_letter edition self.now }
    {
        let said = Body::Acknowledgement(Acknowledgement {
            maker: self.maker,
            maker_epoch: self.maker_epoch,
            cursor: self.cursor,
        });
        let Some(letter) = Letter::of(edition, self.sender, self.sender_epoch, said) else {
            unreachable!()
        };
        letter
    }

    /// Who says it.
    pub fn sender(&self) -> u8
        ensures sender { result ≡ self.now.sender }
        ensures within { result < site_limit }
    {
        self.sender
    }

    /// In which of its epochs it says so, from 1.
    pub fn sender_epoch(&self) -> u16
        ensures { result ≡ self.now.sender_epoch }
    {
        self.sender_epoch
    }

    /// Whose operations were taken.
    pub fn maker(&self) -> u8
        ensures { result ≡ self.now.maker }
    {
        self.maker
    }

    /// In which of its epochs that site made them; 0 where nothing of it was taken.
    pub fn maker_epoch(&self) -> u16
        ensures { result ≡ self.now.maker_epoch }
    {
        self.maker_epoch
    }

    /// How many of them were taken, from the first on.
    pub fn cursor(&self) -> u64
        ensures cursor { result ≡ self.now.cursor }
        ensures within { result ≤ last_counter }
    {
        self.cursor
    }
}
