//! Sessions that wait to be looked at for a push, and who waits after something changed.
ghost use Rattle.std.specs.Prelude.{◌≡◌, ℕ, List, true, false, IfOk, OnOk};
ghost use Rattle.pcrf_values.specs.Orders.{text_cmp};
ghost use Rattle.pcrf_values.specs.Ascending.{Rises};
ghost use Rattle.bind_index.specs.Lists.{first_of, ids_at, without_first};
ghost use Rattle.rule_delta.specs.Waits.{Keeps, WaitsUnder, is_nobody_listed, is_waiting, waiting_of, DueWait, EachListedWaits, EachWaits, ListedWait, NetworkWaits, WaitsIfDue};
ghost use Rattle.pcrf_model.specs.Sessions.{gx};
ghost use Rattle.pcrf_model.specs.Tables.{Tables as TablesValue};
ghost use Rattle.pcrf_model.specs.Views.{view};

use bind_index::{Index, SessionIds, SessionLists};
use pcrf_values::{DiameterIdentity, GxSid, HashSeed, Ipv6Prefix};
use site_join::State;
use std::alloc::{AllocError, Global};
use std::marker::Model;
use std::net::Ipv4Addr;

/// Sessions by the host of their gateway. Where memory was refused for one, all wait.
#[derive(Drop)]
pub struct Waiting {
    lists: SessionLists<DiameterIdentity, GxSid>,
    all: bool,
}

impl Model for Waiting {
    ghost use Rattle.rule_delta.specs.Waits.{WaitingValue};

    ghost Value = { WaitingValue };

    ghost view = { λ w. record { all = w.all; lists = w.lists } };
}

impl Waiting {
    /// All sessions wait. Hashes of hosts begin with this seed.
    pub fn seeded(alloc: Global, seed: HashSeed) -> Waiting
        ensures { result.all ≡ true }
    {
        Waiting {
            lists: SessionLists::seeded(alloc, seed),
            all: true,
        }
    }

    /// No session waits. Hashes of hosts begin with this seed.
    pub fn none(alloc: Global, seed: HashSeed) -> Waiting
        ensures { result.all ≡ false }
    {
        Waiting {
            lists: SessionLists::seeded(alloc, seed),
            all: false,
        }
    }

    /// What hashes begin with here.
    pub fn seed(&self) -> HashSeed {
        self.lists.seed()
    }

    /// All sessions wait.
    pub fn all_wait(&self) -> bool
        ensures { result ≡ self.now.all }
    {
        self.all
    }

    /// A session waits under a host, or all do.
    pub fn is_waiting(&self, host: &DiameterIdentity) -> bool
        ensures { result ≡ is_waiting self.now host.now }
    {
        if self.all {
            return true;
        }
        let Some(ids) = self.lists.at(host) else {
            return false;
        };
        ids.iter().next().is_some()
    }

    /// No gateway's session waits under any host.
    #[tactic(auto, using(crate::proofs::Waited::nobody_waits))]
    pub fn is_empty(&self) -> bool
        ensures exact { result ≡ is_nobody_listed self.now }
        ensures none { result ≡ true → (k : List ℕ) → is_waiting self.now k ≡ false }
    {
        !self.all && self.lists.is_empty()
    }

    /// Has a session wait under a host.
    pub fn add(&mut self, host: &DiameterIdentity, id: &GxSid)
        ensures keeps { Keeps self.old self.new }
        ensures there { WaitsUnder self.new host.now id.now }
    {
        if let Err(_) = self.lists.add(host, id) {
            self.all = true;
        }
    }

    /// Takes the first session out that waits under a host, if one does.
    pub fn take_first(&mut self, host: &DiameterIdentity) -> Option<GxSid>
        ensures first { result ≡ first_of (waiting_of self.old host.now) }
        ensures rest { (k : List ℕ) → waiting_of self.new k
            ≡ without_first text_cmp self.old.lists host.now k }
        ensures rises { Rises text_cmp (waiting_of self.old host.now) }
        ensures all { self.new.all ≡ self.old.all }
    {
        self.lists.take_first(host)
    }
}

/// Has a gateway's session wait, where it may be due.
pub fn wait_one(state: &State, waiting: &mut Waiting, id: &GxSid)
    ensures keeps { Keeps waiting.old waiting.new }
    ensures waits { WaitsIfDue (view state.now.facts) waiting.new (gx id.now) }
{
    let Some(known) = state.gx(id) else {
        return;
    };
    let Some((_, host)) = known.host() else {
        return;
    };
    waiting.add(host, id);
}

/// Has the gateways' sessions wait that are listed under an address.
pub fn wait_at(state: &State, index: &Index, waiting: &mut Waiting, address: Option<Ipv4Addr>)
    ensures keeps { Keeps waiting.old waiting.new }
    ensures waits { ListedWait (view state.now.facts) index.now waiting.new address }
{
    let Some(address) = address else {
        return;
    };
    let Some(ids) = index.gateways_at(address) else {
        return;
    };
    wait_each(state, waiting, ids);
}

/// Has the gateways' sessions wait that are listed under a network.
pub fn wait_in(state: &State, index: &Index, waiting: &mut Waiting, network: &Ipv6Prefix)
    ensures keeps { Keeps waiting.old waiting.new }
    ensures waits { NetworkWaits (view state.now.facts) index.now waiting.new network.now }
{
    let Some(ids) = index.gateways_in(network) else {
        return;
    };
    wait_each(state, waiting, ids);
}

/// Has these gateways' sessions wait.
fn wait_each(state: &State, waiting: &mut Waiting, ids: &SessionIds<GxSid>)
    ensures keeps { Keeps waiting.old waiting.new }
    ensures waits { EachListedWaits (view state.now.facts) waiting.new ids.now }
{
    for id in ids.iter() {
        wait_one(state, waiting, id);
    }
}

/// Each session of a gateway waits under its host; a refusal has none.
fn all_waiting(alloc: Global, seed: HashSeed, state: &State) -> Result<Waiting, AllocError>
    ensures some { IfOk result (λ waiting. waiting.all ≡ false) }
    ensures all { IfOk result (λ waiting. EachWaits (view state.now.facts) waiting) }
{
    let mut waiting = Waiting::none(alloc, seed);
    for (id, _) in state.all_gx() {
        wait_one(state, &mut waiting, id);
    }
    if waiting.all_wait() {
        return Err(AllocError);
    }
    Ok(waiting)
}

/// Has not all wait, but each session of a gateway under its host, where all did; a refusal has all that are due go on
/// waiting. Its time grows with the number of gateways' sessions where all waited.
pub fn gather(alloc: Global, state: &State, waiting: &mut Waiting) -> Result<(), AllocError>
    ensures some { OnOk result (waiting.new.all ≡ false) }
    ensures due { (t : TablesValue) (i : ℕ) → DueWait t i (view state.now.facts) waiting.old
        → DueWait t i (view state.now.facts) waiting.new }
{
    if !waiting.all_wait() {
        return Ok(());
    }
    let gathered = all_waiting(alloc, waiting.seed(), state)?;
    *waiting = gathered;
    Ok(())
}
