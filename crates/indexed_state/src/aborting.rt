//! Calls that may be abandoned, and the abort of the first that is.
ghost use Rattle.std.specs.Prelude.{◌≡◌, ◌==◌, ◌&&◌, ℕ, List, Some, None, true, false, IfOk, option_map};
ghost use Rattle.std.specs.Option.{option_copied};
ghost use Rattle.pcrf_model.specs.Aborting.{abandoned_session, abort_of};
ghost use Rattle.pcrf_model.specs.Pushing.{due_session};
ghost use Rattle.pcrf_model.specs.Sessions.{is_gx};
ghost use Rattle.pcrf_model.specs.Views.{view};
ghost use Rattle.pcrf_values.specs.Prefixes.{Ipv6Prefix};
ghost use Rattle.bind_index.specs.Networks.{network_of};
ghost use Rattle.indexed_state.specs.Indexed.{spans};
ghost use Rattle.rx_profile.specs.Aborts.{abort_view};
ghost use Rattle.site_join.specs.States.{session_of};
ghost use Rattle.rule_delta.specs.Waits.{Keeps, WaitsIfDue, is_nobody_listed, is_waiting};
ghost use Rattle.rule_delta.specs.Abandoned.{ListedCallsWait, NetworkCallsWait};

use crate::indexed::{IndexedState, make_whole, name_of, wait_for};
use crate::reached::Reached;
use crate::unsettling::spans;
use bind_index::{Index, network_of};
use pcrf_values::DiameterIdentity;
use rule_delta::aborts::{gather, wait_at, wait_in, wait_one};
use rule_delta::{Waiting, WaitingCalls, first_abort, next_abort};
use rx_profile::AbortOut;
use site_join::{SessionFacts, State};
use std::alloc::{AllocError, Global};

impl IndexedState {
    /// The abort that a site has to ask for: of the live sessions of application functions that say who their client is, are
    /// bound to no gateway's session and weren't asked to abort yet, whose home the site is and whose host is the given one, any
    /// where none is given, that of the session with the least Session-Id (TS 29.214, 4.4.6.1); `None` where no session is
    /// abandoned. For a host it looks at sessions alone that wait under it.
    pub fn next_abort(
        &mut self,
        site: u8,
        host: Option<&[u8]>,
    ) -> Result<Option<AbortOut>, AllocError>
        ensures abort { IfOk result (λ abort. option_map abort_view abort
            ≡ option_map (abort_of (view self.old.holding.facts)) (abandoned_session site
            (view self.old.holding.facts) (option_copied host.entry))) }
        ensures same { self.new ≡ self.old }
    {
        if let Some(name) = name_of(self.alloc, host)? {
            return self.abort_waiting(site, &name);
        }
        make_whole(&self.state, &mut self.index, &mut self.is_whole)?;
        first_abort(&self.state, &self.index, site, host)
    }

    /// Whether an abort may be due at a site for a host: a session waits under it, or all wait. Where none does none is
    /// abandoned. It is a look-up alone.
    #[tactic(auto, using(rule_delta::proofs::FirstLeft::nobody_left))]
    pub fn is_aborting(&self, site: u8, host: &DiameterIdentity) -> bool
        ensures { result ≡ false → abandoned_session site
            (view self.now.holding.facts) (Some host.now) ≡ None }
    {
        self.site != site || self.aborts.is_waiting(host)
    }

    /// No push may be due at a site for any host, nor an abort: no session waits. It is a look alone. When it answers so, of what
    /// waits unseen, `nobody_waits` says.
    pub fn is_quiet(&self, site: u8) -> bool
        ensures pushes { result ≡ true → (host : List ℕ) → due_session self.now.tables site
            (view self.now.holding.facts) (Some host) ≡ None }
        ensures aborts { result ≡ true → (host : List ℕ) → abandoned_session site
            (view self.now.holding.facts) (Some host) ≡ None }
    {
        nobody_waits(self.site, &self.waiting, &self.aborts, site)
    }

    /// The abort that is due at a site for this host.
    fn abort_waiting(
        &mut self,
        site: u8,
        host: &DiameterIdentity,
    ) -> Result<Option<AbortOut>, AllocError>
        ensures abort { IfOk result (λ abort. option_map abort_view abort
            ≡ option_map (abort_of (view self.old.holding.facts)) (abandoned_session site
            (view self.old.holding.facts) (Some host.now))) }
        ensures same { self.new ≡ self.old }
    {
        make_whole(&self.state, &mut self.index, &mut self.is_whole)?;
        wait_for(
            self.alloc,
            &mut self.waiting,
            &mut self.aborts,
            &mut self.site,
            site,
        );
        gather(self.alloc, &self.state, &mut self.aborts)?;
        next_abort(&self.state, &self.index, &mut self.aborts, self.site, host)
    }
}

/// Whether no session waits at a site, for a push or an abort, where those that wait may be due, or abandoned, at this one: all wait
/// where it is another.
fn nobody_waits(of: u8, waiting: &Waiting, aborts: &WaitingCalls, site: u8) -> bool
    ensures exact { result ≡ (of == site
        && is_nobody_listed waiting.now && is_nobody_listed aborts.now) }
    ensures here { result ≡ true → of ≡ site }
    ensures pushes { result ≡ true → (k : List ℕ) → is_waiting waiting.now k ≡ false }
    ensures aborts { result ≡ true → (k : List ℕ) → is_waiting aborts.now k ≡ false }
{
    of == site && waiting.is_empty() && aborts.is_empty()
}

/// Has those calls wait that may be abandoned once the session of these facts changed, where it was reached so before: the
/// session itself, if it is of an application function, and else those that may lose it.
pub(crate) fn wait_calls(
    alloc: Global,
    state: &State,
    index: &Index,
    aborts: &mut WaitingCalls,
    facts: &SessionFacts,
    before: &Reached,
)
    ensures keeps { Keeps aborts.old aborts.new }
    ensures own { is_gx (session_of facts.now).kind ≡ false
        → WaitsIfDue (view state.now.facts) aborts.new (session_of facts.now) }
    ensures near { is_gx (session_of facts.now).kind ≡ true
        → ListedCallsWait (view state.now.facts) index.now aborts.new before.now.address }
    ensures near_by { is_gx (session_of facts.now).kind ≡ true
        → (p : Ipv6Prefix) → before.now.prefix ≡ Some p
        → NetworkCallsWait (view state.now.facts) index.now aborts.new (network_of p) }
    ensures all { is_gx (session_of facts.now).kind ≡ true → spans before.now.prefix ≡ true
        → aborts.new.all ≡ true }
{
    match facts {
        SessionFacts::Gx(_, _) => wait_lost(alloc, state, index, aborts, before),
        SessionFacts::Af(id, _) => wait_one(state, aborts, id),
    }
}

/// Has those calls wait that may lose a gateway's session that was reached so: those listed under its address and under the
/// network of its prefix, and all where that spans networks.
pub(crate) fn wait_lost(
    alloc: Global,
    state: &State,
    index: &Index,
    aborts: &mut WaitingCalls,
    before: &Reached,
)
    ensures keeps { Keeps aborts.old aborts.new }
    ensures near { ListedCallsWait (view state.now.facts) index.now aborts.new before.now.address }
    ensures near_by { (p : Ipv6Prefix) → before.now.prefix ≡ Some p
        → NetworkCallsWait (view state.now.facts) index.now aborts.new (network_of p) }
    ensures all { spans before.now.prefix ≡ true → aborts.new.all ≡ true }
{
    if spans(before.prefix) {
        *aborts = WaitingCalls::seeded(alloc, aborts.seed());
        return;
    }
    wait_at(state, index, aborts, before.address);
    let Some(prefix) = before.prefix else {
        return;
    };
    wait_in(state, index, aborts, &network_of(&prefix));
}
