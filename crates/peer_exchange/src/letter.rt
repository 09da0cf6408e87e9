//! Letters between sites.
ghost use Rattle.std.specs.Prelude.{◌≡◌, true};
ghost use Rattle.std.specs.List.{list_all};
ghost use Rattle.pcrf_model.specs.Forms.{is_operation};
ghost use Rattle.pcrf_model.specs.Letters.{LetterValue};
ghost use Rattle.peer_exchange.specs.Form.{is_site, is_placed, is_formed, is_addressed, if_addressed};
ghost use Rattle.peer_exchange.specs.Values.{body_value, letter_value};

use crate::body::{Acknowledgement, Body};
use pcrf_values::limits::{LAST_COUNTER, RANGE_LIMIT, SITE_LIMIT};
use site_join::Operation;
use std::marker::Model;

/// What one site tells another: the edition of its operator tables, its number, its epoch, and what it says. Contracts see
/// it as a `LetterValue`.
#[derive(Drop)]
pub struct Letter {
    edition: u32,
    site: u8,
    epoch: u16,
    body: Body,
}

impl Model for Letter {
    ghost use Rattle.pcrf_model.specs.Letters.{LetterValue};
    ghost use Rattle.peer_exchange.specs.Form.{IsKept};
    ghost use Rattle.peer_exchange.specs.Values.{letter_value};

    ghost Value = { LetterValue };

    ghost view = { λ l. letter_value l.edition l.site l.epoch l.body };

    ghost invariant = { λ l. IsKept (letter_value l.edition l.site l.epoch l.body) };
}

/// There may be a site of that number.
fn is_site(number: u8) -> bool
    ensures { result ≡ is_site number }
{
    number < SITE_LIMIT
}

/// Positions and cursors are those that a log may have, and sites those that there may be.
fn is_placed(body: &Body) -> bool
    ensures { result ≡ is_placed (body_value body.now) }
{
    match body {
        Body::Range(range) => {
            range.operations.len() <= RANGE_LIMIT
                && range.from <= LAST_COUNTER
                && range.operations.len() as u64 <= LAST_COUNTER - range.from
        }
        Body::Snapshot(snapshot) => snapshot.log_length <= LAST_COUNTER,
        Body::Acknowledgement(said) => {
            let Acknowledgement {
                maker,
                maker_epoch: _epoch,
                cursor,
            } = *said;
            is_site(maker) && cursor <= LAST_COUNTER
        }
    }
}

/// Does nothing that a caller sees: its contract tells a proof that sites may make the operations.
fn note_operations(operations: &[Operation])
    ensures { list_all is_operation operations.now ≡ true }
{
    let mut left = operations;
    while let Some((first, rest)) = left.split_first() {
        first.note_form();
        left = rest;
    }
}

/// Does nothing that a caller sees: its contract tells a proof that what is said has the form of what sites make and hold.
fn note_formed(body: &Body)
    ensures { is_formed (body_value body.now) ≡ true }
{
    match body {
        Body::Range(range) => note_operations(range.operations.as_slice()),
        Body::Snapshot(snapshot) => snapshot.state.note_groups(),
        Body::Acknowledgement(_) => {}
    }
}

impl Letter {
    /// The letter of these parts; `None` where there is no such site, where the epoch is 0, where a range has more than 100
    /// operations, or where a position or a cursor is past the last that a log may have.
    pub fn of(edition: u32, site: u8, epoch: u16, body: Body) -> Option<Letter>
        ensures { result ≡ if_addressed (letter_value edition site epoch body) }
    {
        if !is_site(site) || epoch == 0 || !is_placed(&body) {
            return None;
        }
        note_formed(&body);
        Some(Letter {
            edition,
            site,
            epoch,
            body,
        })
    }

    /// Does nothing: its contract tells a proof that the letter is within its ranges, and what it says of the form.
    pub fn note_kept(&self)
        ensures addressed { is_addressed self.now ≡ true }
        ensures formed { is_formed self.now.body ≡ true }
    {
        let _ = &self.epoch;
    }

    /// The edition of the sender's operator tables.
    pub fn edition(&self) -> u32
        ensures { result ≡ self.now.edition }
    {
        self.edition
    }

    /// The sender.
    pub fn site(&self) -> u8
        ensures { result ≡ self.now.site }
    {
        self.site
    }

    /// How often the sender began, from 1.
    pub fn epoch(&self) -> u16
        ensures { result ≡ self.now.epoch }
    {
        self.epoch
    }

    /// What it says.
    pub fn body(&self) -> &Body
        ensures { body_value result.now ≡ self.now.body }
    {
        &self.body
    }

    /// What it says, out of the letter.
    pub fn into_body(self) -> Body
        ensures { body_value result ≡ self.body }
    {
        let Letter { body, .. } = self;
        body
    }
}
