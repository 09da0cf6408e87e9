//! Lists of rules that were derived, kept until they may have changed.
ghost use Rattle.std.specs.Prelude.{◌≡◌, ℕ, List, [], ◌∷◌, Some, None, if◌then◌else◌, OnOk, OnErr};
ghost use Rattle.std.specs.Option.{option_copied};
ghost use Rattle.std.specs.Ordering.{is_eq};
ghost use Rattle.pcrf_model.specs.Rules.{rules};
ghost use Rattle.pcrf_model.specs.Sessions.{Gx, gx};
ghost use Rattle.pcrf_model.specs.Views.{view};
ghost use Rattle.pcrf_values.specs.Orders.{text_cmp};
ghost use Rattle.bind_index.specs.Index.{Covers, listed_at, listed_in};
ghost use Rattle.pcc_rules.specs.Cached.{AreCached, AreStale, cached_at};

use crate::indexed_derivation::derive_by;
use bind_index::{Index, SessionIds};
use op_tables::Tables;
use pcrf_values::{GxSid, HashSeed, Ipv6Prefix, Ranked, Rule};
use site_join::State;
use std::alloc::{AllocError, Global};
use std::collections::HashMap;
use std::marker::Model;
use std::net::Ipv4Addr;

/// The rules of one session.
#[derive(Drop)]
struct RuleList {
    rules: Vec<Rule>,
}

impl Model for RuleList {
    ghost use Rattle.std.specs.Prelude.{List};
    ghost use Rattle.pcrf_values.specs.RuleValues.{RuleValue};

    ghost Value = { List RuleValue };

    ghost view = { λ r. r.rules.items };
}

/// Lists of rules by gateways' sessions, each kept until it is stale. A list that is stale takes no memory but its place in the
/// table, which the next list that is kept may have. A list is found by the hash of its Session-Id, in the time that reading the
/// Session-Id takes, however many are kept.
#[derive(Drop)]
pub struct Rules {
    alloc: Global,
    seed: HashSeed,
    lists: HashMap<GxSid, RuleList, HashSeed>,
}

impl Model for Rules {
    ghost use Rattle.pcc_rules.specs.Cached.{RulesValue};

    ghost Value = { RulesValue };

    ghost view = { λ r. r.lists.entries };
}

impl Rules {
    /// No list. Hashes begin with a seed that anybody knows.
    pub fn start(alloc: Global) -> Rules
        ensures { (id : List ℕ) → cached_at result id ≡ None }
    {
        Rules::seeded(alloc, HashSeed::of(0))
    }

    /// No list. Hashes begin with this seed.
    pub fn seeded(alloc: Global, seed: HashSeed) -> Rules
        ensures { (id : List ℕ) → cached_at result id ≡ None }
    {
        Rules {
            alloc,
            seed,
            lists: HashMap::with_hasher(alloc, seed),
        }
    }

    /// What hashes begin with here.
    pub fn seed(&self) -> HashSeed {
        self.seed
    }

    /// The rules that were kept last of a session, `None` where none were or they are stale. It takes no memory.
    pub fn get(&self, session: &GxSid) -> Option<&[Rule]>
        ensures { option_copied result ≡ cached_at self.now session.now }
    {
        let Some(list) = self.lists.get(session) else {
            return None;
        };
        Some(list.rules.as_slice())
    }

    /// Keeps the rules of a session, in place of those that were kept of it; a refusal changes nothing.
    pub fn keep(&mut self, session: &GxSid, rules: Vec<Rule>) -> Result<(), AllocError>
        ensures kept { OnOk result ((id : List ℕ) → cached_at self.new id
            ≡ (if is_eq (text_cmp session.now id) then Some rules.items else cached_at self.old id)) }
        ensures unchanged { OnErr result (self.new ≡ self.old) }
    {
        let session = session.try_copy()?;
        if let Err(_) = self.lists.insert(session, RuleList { rules }) {
            return Err(AllocError);
        }
        Ok(())
    }

    /// Derives the rules of a session, and keeps them, where none are kept of it; a refusal changes nothing. Its time is that of
    /// `derive_by`, where none are.
    pub fn fill(
        &mut self,
        tables: &Tables,
        state: &State,
        index: &Index,
        session: &GxSid,
    ) -> Result<(), AllocError>
        requires covers { Covers (view state.now.facts) index.now }
        requires kept { AreCached tables.now (view state.now.facts) self.old }
        ensures filled { OnOk result (cached_at self.new session.now
            ≡ Some (rules tables.now (view state.now.facts) (gx session.now))) }
        ensures kept { AreCached tables.now (view state.now.facts) self.new }
    {
        if self.get(session).is_some() {
            return Ok(());
        }
        let made = derive_by(self.alloc, tables, state, index, session)?;
        self.keep(session, made)
    }

    /// The rules of one session are stale.
    pub fn touch_one(&mut self, session: &GxSid)
        ensures { AreStale self.old self.new (session.now ∷ []) }
    {
        self.lists.remove(session);
    }

    /// The rules of the gateways' sessions that are listed under an address are stale, and of no others. Its time grows with
    /// the number of these.
    pub fn touch(&mut self, index: &Index, address: Ipv4Addr)
        ensures { AreStale self.old self.new (listed_at index.now Gx address) }
    {
        let Some(sessions) = index.gateways_at(address) else {
            return;
        };
        self.touch_each(sessions);
    }

    /// The rules of the gateways' sessions that are listed under a network are stale, and of no others. Its time grows with the
    /// number of these.
    pub fn touch_in(&mut self, index: &Index, network: &Ipv6Prefix)
        ensures { AreStale self.old self.new (listed_in index.now Gx network.now) }
    {
        let Some(sessions) = index.gateways_in(network) else {
            return;
        };
        self.touch_each(sessions);
    }

    /// The rules of these sessions are stale.
    fn touch_each(&mut self, sessions: &SessionIds<GxSid>)
        ensures { AreStale self.old self.new sessions.now }
    {
        for session in sessions.iter() {
            self.touch_one(session);
        }
    }

    /// The rules of all sessions are stale.
    pub fn touch_all(&mut self)
        ensures { (id : List ℕ) → cached_at self.new id ≡ None }
    {
        self.lists = HashMap::with_hasher(self.alloc, self.seed);
    }
}
