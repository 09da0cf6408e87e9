//! One site of a world.
ghost use Rattle.std.specs.Prelude.{◌≡◌, ◌<◌, ◌+◌, None, IfOk, IfErr, IfSome, OnOk};
ghost use Rattle.pcrf_model.specs.Cursors.{ack_letter, ack_of};
ghost use Rattle.pcrf_values.specs.Limits.{last_epoch, site_limit};
ghost use Rattle.pcrf_model.specs.Operations.{holding_of};
ghost use Rattle.pcrf_model.specs.Seen.{brought_holding, view_in_part, view_merged};
ghost use Rattle.pcrf_model.specs.Tables as tables;
ghost use Rattle.pcrf_model.specs.Worlds.{ByCursors, MayStopAfter, first_taken};
ghost use Rattle.peer_exchange.specs.Making.{letter_made};
ghost use Rattle.peer_exchange.specs.Values.{body_value};
ghost use Rattle.site_machine.specs.Sites.{with_state};
ghost use Rattle.pcrf_world.specs.Members.{IsMember, new_member, seen_of, started_again};

use crate::identity::identity_of;
use op_tables::Tables;
use peer_exchange::{Body, Cursors, Letter};
use site_machine::Site;
use std::alloc::{AllocError, Global};

/// A site of a world, and what it and its peers took of each other.
#[derive(Drop)]
pub(crate) struct Member {
    /// What the site took of each maker, and what each peer said that it took, in the epoch in which the site is.
    pub(crate) cursors: Cursors,
    /// The site.
    pub(crate) site: Site,
}

impl Member {
    /// A site that took nothing, in its first epoch.
    pub(crate) fn start(alloc: Global, tables: Tables, number: u8) -> Result<Member, AllocError>
        requires { number < site_limit }
        ensures { IfOk result (λ member. member ≡ new_member tables number) }
    {
        let identity = identity_of(alloc, number)?;
        Ok(Member {
            cursors: Cursors::start(number, 1),
            site: Site::start(alloc, tables, identity, number),
        })
    }

    /// Begins again in the next epoch, empty; tells that epoch, or None in the last one, which changes nothing.
    pub(crate) fn restart(&mut self) -> Option<u16>
        ensures epoch { IfSome result (λ epoch. epoch ≡ self.old.cursors.epoch + 1) }
        ensures again { IfSome result (λ _. self.new ≡ started_again self.old) }
        ensures last { result ≡ None → self.old.cursors.epoch ≡ last_epoch }
        ensures unchanged { result ≡ None → self.new ≡ self.old }
    {
        let Some(epoch) = self.cursors.epoch().checked_add(1) else {
            return None;
        };
        self.cursors = Cursors::start(self.site.number(), epoch);
        self.site.clear();
        Some(epoch)
    }

    /// The letter for a peer.
    pub(crate) fn write(&self, peer: u8) -> Result<Letter, AllocError>
        requires { peer < site_limit }
        ensures { IfOk result (λ letter.
            letter ≡ letter_made self.now.cursors self.now.site peer) }
    {
        self.cursors.make(peer, &self.site)
    }

    /// The letter that tells a maker what was taken of it.
    pub(crate) fn acknowledge(&self, maker: u8) -> Letter
        requires { maker < site_limit }
        ensures { result
            ≡ ack_letter self.now.site.tables.edition (ack_of self.now.cursors maker) }
    {
        let said = self.cursors.ack_of(maker);
        said.letter(self.site.tables().edition())
    }

    /// Takes a letter, or tells how many of its operations stand taken where memory was refused.
    pub(crate) fn take(&mut self, letter: &Letter) -> Result<(), usize>
        ensures ok { OnOk result (seen_of self.new
            ≡ view_merged ByCursors letter.now (seen_of self.old)) }
        ensures part { IfErr result (λ n. MayStopAfter letter.now.body n) }
        ensures err { IfErr result (λ n. seen_of self.new
            ≡ view_in_part n letter.now (seen_of self.old)) }
        ensures stays { (t : tables.Tables) → IsMember t self.old → IsMember t self.new }
    {
        take_body(&mut self.site, letter.body())?;
        self.cursors.count(letter);
        Ok(())
    }
}

/// Has a site take what a letter says, or tells how many of its operations stand taken where memory was refused.
#[tactic(auto, using(pcrf_model::proofs::UnionLaws::union_nothing))]
fn take_body(site: &mut Site, body: &Body) -> Result<(), usize>
    ensures ok { OnOk result (site.new
        ≡ with_state site.old (brought_holding (body_value body.now))) }
    ensures part { IfErr result (λ n. MayStopAfter (body_value body.now) n) }
    ensures err { IfErr result (λ n. site.new
        ≡ with_state site.old (holding_of (first_taken n (body_value body.now)))) }
{
    site.sessions().note_kept();
    match body {
        Body::Range(range) => match site.take_all(range.operations.as_slice()) {
            Ok(()) => Ok(()),
            Err((taken, _)) => Err(taken),
        },
        Body::Snapshot(snapshot) => match site.take_state(&snapshot.state) {
            Ok(()) => Ok(()),
            Err(_) => Err(0),
        },
        Body::Acknowledgement(_) => Ok(()),
    }
}
