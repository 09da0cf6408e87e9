//! What is looked up at a site: sessions, and whether one may be due.
ghost use Rattle.std.specs.Prelude.{◌≡◌, ℕ, List, Some, true, false, IfOk, IfSome};
ghost use Rattle.indexed_state.specs.Listings.{sessions_of};
ghost use Rattle.indexed_state.specs.Index.{Covers};
ghost use Rattle.pcrf_model.specs.Pushing.{lacks_counter, nothing_pushed};
ghost use Rattle.pcrf_model.specs.Views.{view};

use crate::site::Site;
use indexed_state::Index;
use pcrf_values::{DiameterIdentity, GxSid, Subscriber};
use std::alloc::AllocError;

impl Site {
    ghost use Rattle.site_machine.specs.Sites.{NoneAbandoned, OwesNothing, push_outcome_at};

    /// The index of its sessions, where it covers what is held.
    pub fn index(&self) -> Option<&Index>
        ensures { IfSome result (λ index.
            Covers (view self.now.state.holding.facts) index.now) }
    {
        self.held.index()
    }

    /// The live sessions of gateways that have the subscriber, in the order of their Session-Ids, without a pass over all
    /// sessions.
    pub fn sessions_of(&self, subscriber: &Subscriber) -> Result<Vec<GxSid>, AllocError>
        ensures { IfOk result (λ ids. ids.items
            ≡ sessions_of (view self.now.state.holding.facts) subscriber.now) }
    {
        self.held.sessions_of(subscriber)
    }

    /// Whether something may be due to the gateways of a host. Where it answers false nothing is: a push that is asked for the
    /// host tells nothing, is never refused for want of a counter, and changes nothing. It answers true as long as a session of
    /// the host waits to be looked at, as each does of which something changed since the last push for the host told nothing;
    /// and of every host while all sessions wait, as they do until the first push after the site began, was emptied, took a
    /// whole state or was refused memory for one that waits. It is a look-up, and derives no rules.
    pub fn is_waiting(&self, host: &DiameterIdentity) -> bool
        ensures none { result ≡ false → OwesNothing self.now host.now }
        ensures push { result ≡ false → push_outcome_at self.now (Some host.now) ≡ nothing_pushed }
        ensures room { result ≡ false → lacks_counter self.now.tables self.now.number
            self.now.state.holding (Some host.now) ≡ false }
    {
        self.held.is_waiting(self.number, host)
    }

    /// Whether an application function of a host may have to be asked to abort a session whose home this site is. Where it
    /// answers false none has to be: an abort that is asked for the host asks nothing, is never refused for want of a counter,
    /// and changes nothing. It answers true as long as a session of the host waits to be looked at, as each does that may have
    /// lost the gateway's session to which it was bound; and of every host while all sessions wait, as they do until the first
    /// abort for a host after the site began, was emptied, took a whole state, had a gateway's session change whose prefix is
    /// shorter than a network's 64 bits, or was refused memory for one that waits. It is a look-up.
    pub fn is_aborting(&self, host: &DiameterIdentity) -> bool
        ensures { result ≡ false → NoneAbandoned self.now host.now }
    {
        self.held.is_aborting(self.number, host)
    }

    /// Nothing is due to the gateways of any host, and no session of any is to be asked to abort. Where it answers false there may
    /// be something: a session waits to be looked at, or all do. It is a look alone.
    pub fn is_quiet(&self) -> bool
        ensures pushes { result ≡ true → (host : List ℕ) → OwesNothing self.now host }
        ensures aborts { result ≡ true → (host : List ℕ) → NoneAbandoned self.now host }
    {
        self.held.is_quiet(self.number)
    }
}
