//! Forgetting sessions that have ended.
ghost use Rattle.std.specs.Prelude.{◌≡◌, true, false};
ghost use Rattle.std.specs.Option.{option_copied};
ghost use Rattle.pcrf_values.specs.Held.{is_ended};
ghost use Rattle.pcrf_model.specs.Sessions.{gx, af};
ghost use Rattle.site_join.specs.States.{record_facts};
ghost use Rattle.ended_sessions.specs.Forgotten.{forgotten, has_ended};
ghost use Rattle.indexed_state.specs.Ended.{session_named};

use crate::indexed::IndexedState;
use af_records::AfRec;
use gx_records::GxRec;
use pcrf_values::{AfSid, GxSid};
use rule_delta::{Waiting, WaitingCalls};

/// The Session-Id of a session of either kind.
#[derive(Debug, Drop)]
pub enum AnySid {
    /// Of a gateway's session (TS 29.212).
    Gx(GxSid),
    /// Of an application function's session (TS 29.214).
    Af(AfSid),
}

impl IndexedState {
    ghost use Rattle.indexed_state.specs.Indexed.{with_holding};

    /// Forgets a session that has ended: no fact of it is held after that, and nothing else changes. If the session has not ended, or if
    /// nothing is known of it, the answer is false and nothing changes. It takes no memory, and its time does not grow with what is held.
    /// A session that has ended shows nothing: the index need not list it, no call is bound to it, and no push waits for it.
    pub fn forget(&mut self, session: &AnySid) -> bool
        ensures ended { result ≡ has_ended self.old.holding (session_named session.now) }
        ensures gone { result ≡ true → self.new ≡ with_holding self.old
            (forgotten self.old.holding (session_named session.now)) }
        ensures same { result ≡ false → self.new ≡ self.old }
    {
        match session {
            AnySid::Gx(id) => self.forget_gateway(id),
            AnySid::Af(id) => self.forget_call(id),
        }
    }

    /// Empties the lists of sessions that wait for a push and of calls that wait for an abort; instead all wait. What is held, shown and
    /// due stays the same. The next push to a host, and the next abort, looks at all sessions once. A session stays listed until its
    /// host asks for a push, so the lists of a host that never asks grow until they are emptied.
    pub fn wait_anew(&mut self)
        ensures { self.new ≡ self.old }
    {
        let seed = self.rules.seed();
        self.waiting = Waiting::seeded(self.alloc, seed);
        self.aborts = WaitingCalls::seeded(self.alloc, seed);
    }

    /// Forgets a gateway's session that has ended, and the rules that are kept of it.
    fn forget_gateway(&mut self, id: &GxSid) -> bool
        ensures ended { result ≡ has_ended self.old.holding (gx id.now) }
        ensures gone { result ≡ true → self.new
            ≡ with_holding self.old (forgotten self.old.holding (gx id.now)) }
        ensures same { result ≡ false → self.new ≡ self.old }
    {
        if !gateway_ended(self.state.gx(id)) {
            return false;
        }
        self.state.note_form();
        let clock = self.state.clock();
        self.rules.touch_one(id);
        self.state.put_gx(id, None, clock).unwrap();
        true
    }

    /// Forgets an application function's session that has ended.
    fn forget_call(&mut self, id: &AfSid) -> bool
        ensures ended { result ≡ has_ended self.old.holding (af id.now) }
        ensures gone { result ≡ true → self.new
            ≡ with_holding self.old (forgotten self.old.holding (af id.now)) }
        ensures same { result ≡ false → self.new ≡ self.old }
    {
        if !call_ended(self.state.af(id)) {
            return false;
        }
        self.state.note_form();
        let clock = self.state.clock();
        self.state.put_af(id, None, clock).unwrap();
        true
    }
}

/// The gateway's session of this record has ended.
fn gateway_ended(known: Option<&GxRec>) -> bool
    ensures { result ≡ is_ended (record_facts (option_copied known.entry)) }
{
    match known {
        Some(known) => known.ended(),
        None => false,
    }
}

/// And the application function's.
fn call_ended(known: Option<&AfRec>) -> bool
    ensures { result ≡ is_ended (record_facts (option_copied known.entry)) }
{
    match known {
        Some(known) => known.ended(),
        None => false,
    }
}
