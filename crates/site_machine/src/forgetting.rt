//! What a site forgets: sessions that have ended, and the operations that it made itself.
ghost use Rattle.std.specs.Prelude.{◌≡◌, true, false};
ghost use Rattle.indexed_state.specs.Ended.{session_named};
ghost use Rattle.indexed_state.specs.Forgotten.{has_ended};

use crate::site::Site;
use indexed_state::AnySid;

impl Site {
    ghost use Rattle.site_machine.specs.Sites.{anew_site, site_without};

    /// Forgets a session that has ended: no fact of it is held after that, and nothing else changes, not the clock nor the log. If the
    /// session has not ended, or if nothing is known of it, the answer is false and nothing changes. It takes no memory. A later
    /// request of the session finds nothing known of it, and what a peer tells of it is taken as new.
    pub fn forget(&mut self, session: &AnySid) -> bool
        ensures ended { result ≡ has_ended self.old.state.holding (session_named session.now) }
        ensures gone { result ≡ true → self.new
            ≡ site_without self.old (session_named session.now) }
        ensures same { result ≡ false → self.new ≡ self.old }
    {
        self.held.forget(session)
    }

    /// Has all sessions wait for a push or an abort, as they do when a site starts, and empties the lists of those that wait. What is
    /// held, shown and due stays the same. The next push to a host, and the next abort, looks at all sessions once.
    pub fn wait_anew(&mut self)
        ensures { self.new ≡ self.old }
    {
        self.held.wait_anew();
    }

    /// Forgets which operations it made itself. All that it holds stays, with its index, the kept rules and the lists of sessions that
    /// wait. It takes no memory, and no time but to free the operations.
    pub fn begin_anew(&mut self)
        ensures { self.new ≡ anew_site self.old }
    {
        self.log = Vec::new(self.alloc);
    }
}
