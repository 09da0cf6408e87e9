//! What a site writes to a peer: what it is asked for a letter, and the letter that its reply makes.
ghost use Rattle.std.specs.Prelude.{◌≡◌, ◌≤◌, ◌<◌, ℕ, length, true, IfOk, IfSome};
ghost use Rattle.pcrf_model.specs.Cursors.{ask, letter_of};
ghost use Rattle.pcrf_model.specs.Letters as model;
ghost use Rattle.pcrf_values.specs.Limits.{last_counter, site_limit};
ghost use Rattle.pcrf_model.specs.Steps.{own_from};
ghost use Rattle.pcrf_model.specs.Worlds.{asked_body};
ghost use Rattle.peer_exchange.specs.Form.{is_placed};
ghost use Rattle.peer_exchange.specs.Values.{body_value};
ghost use Rattle.site_machine.specs.Values.{event_value, reply_value};
ghost use Rattle.peer_exchange.specs.Making.{asked_from, letter_made, seen_by};

use crate::body::{Body, Range, Snapshot};
use crate::cursors::Cursors;
use crate::letter::Letter;
use site_machine::{Event, Reply, Site};
use std::alloc::AllocError;

impl Cursors {
    /// From which position on the site's own operations are for the peer, where the peer said that it took any; nowhere where
    /// the whole state is.
    fn past(&self, peer: u8) -> Option<u64>
        requires { peer < site_limit }
        ensures asked { asked_from result ≡ ask self.now peer }
        ensures within { IfSome result (λ from. from ≤ last_counter) }
    {
        let Some(known) = self.peer(peer) else {
            return None;
        };
        let taken = known.taken();
        if taken == 0 {
            return None;
        }
        Some(taken)
    }

    /// What the site is to be asked, to make a letter for a peer: all that it holds, or the operations past those that the
    /// peer said it took.
    pub fn ask(&self, peer: u8) -> Event
        requires { peer < site_limit }
        ensures { event_value result ≡ ask self.now peer }
    {
        match self.past(peer) {
            Some(from) => Event::AskOwn(from),
            None => Event::AskWhole,
        }
    }

    /// The letter that the site's reply makes, where operations were asked for from that position on; none where the reply is
    /// to something else, or is more than a letter carries.
    pub fn letter_of(&self, edition: u32, from: u64, reply: Reply) -> Option<Letter>
        ensures { result ≡ letter_of self.now edition from (reply_value reply) }
    {
        match reply {
            Reply::Own(operations, _) => {
                self.saying(edition, Body::Range(Range { from, operations }))
            }
            Reply::Copy(state, log_length) => {
                state.note_form();
                self.saying(edition, Body::Snapshot(Snapshot { state, log_length }))
            }
            _ => None,
        }
    }

    /// What the site writes to a peer.
    fn said_to(&self, peer: u8, site: &Site) -> Result<Body, AllocError>
        requires { peer < site_limit }
        ensures said { IfOk result (λ said. body_value said
            ≡ asked_body (seen_by self.now site.now) (ask self.now peer)) }
        ensures placed { IfOk result (λ said. is_placed (body_value said) ≡ true) }
    {
        match self.past(peer) {
            Some(from) => own_past(site, from),
            None => whole_of(site),
        }
    }

    /// The letter of the site for a peer.
    pub fn make(&self, peer: u8, site: &Site) -> Result<Letter, AllocError>
        requires { peer < site_limit }
        ensures { IfOk result (λ letter. letter ≡ letter_made self.now site.now peer) }
    {
        let said = self.said_to(peer, site)?;
        let Some(letter) = self.saying(site.tables().edition(), said) else {
            unreachable!()
        };
        Ok(letter)
    }
}

/// The operations that a site made itself from that position on.
#[tactic(auto, using(crate::proofs::Placed::own_is_placed))]
fn own_past(site: &Site, from: u64) -> Result<Body, AllocError>
    requires { from ≤ last_counter }
    ensures said { IfOk result (λ said. body_value said
        ≡ model.Range from (own_from site.now.state.log from)) }
    ensures placed { IfOk result (λ said. is_placed (body_value said) ≡ true) }
{
    site.note_log();
    site.sessions().note_form();
    let (operations, _) = site.own_since(from)?;
    Ok(Body::Range(Range { from, operations }))
}

/// All that a site holds.
#[tactic(auto, using(crate::proofs::Placed::whole_is_placed))]
fn whole_of(site: &Site) -> Result<Body, AllocError>
    ensures said { IfOk result (λ said. body_value said
        ≡ model.Snapshot site.now.state.holding (length site.now.state.log)) }
    ensures placed { IfOk result (λ said. is_placed (body_value said) ≡ true) }
{
    site.note_log();
    site.sessions().note_form();
    let (state, log_length) = site.whole()?;
    Ok(Body::Snapshot(Snapshot { state, log_length }))
}
