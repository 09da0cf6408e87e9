//! Facts that bring nothing new to a gateway's session.
ghost use Rattle.std.specs.Prelude.{◌≡◌, List, Some, true, map, IfSome, OnOk, OnErr};
ghost use Rattle.pcrf_values.specs.Held.{kept_list, join_of};
ghost use Rattle.pcrf_values.specs.ToldWords.{told_rules};
ghost use Rattle.pcrf_values.specs.RuleValues.{RuleValue};
ghost use Rattle.pcrf_model.specs.Differences.{difference, is_empty};
ghost use Rattle.pcrf_model.specs.Holdings.{facts_on, kept_of};
ghost use Rattle.pcrf_model.specs.Operations.{with_operation};
ghost use Rattle.pcrf_model.specs.Sessions.{gx};
ghost use Rattle.gx_records.specs.GxFacts.{fact_of};
ghost use Rattle.pcc_rules.specs.Cached.{cached_at};
ghost use Rattle.indexed_state.specs.Alike.{BringsNothing};

use crate::alike::refresh;
use crate::indexed::IndexedState;
use gx_records::{GxFact, GxRec};
use pcc_rules::Rules;
use pcrf_values::GxSid;
use rule_delta::is_told_all;
use site_join::Operation;
use std::alloc::AllocError;

impl IndexedState {
    ghost use Rattle.indexed_state.specs.Indexed.{with_holding};

    /// The record of a gateway's session, where these facts bring nothing new to it, were they joined with it: rules and bindings
    /// stay the same, the list of the session's rules is kept, and the gateway was told just these. It takes no memory, makes
    /// no record and derives no rules: of a session of which no list is kept it answers `None`, and so where the facts say
    /// where the user is reached.
    pub fn unchanged(&self, id: &GxSid, facts: &[GxFact]) -> Option<&GxRec>
        ensures stands { IfSome result (λ known. known.now
            ≡ facts_on self.now.holding.facts (gx id.now)) }
        ensures nothing { IfSome result (λ _. BringsNothing self.now.tables self.now.holding
            (gx id.now) (join_of (facts_on self.now.holding.facts (gx id.now))
            (kept_list (map fact_of facts.now)))) }
    {
        let Some(known) = self.state.gx(id) else {
            return None;
        };
        if !refresh(known, facts) {
            return None;
        }
        if !known.live() {
            return None;
        }
        if !was_told_kept(&self.rules, id, known) {
            return None;
        }
        Some(known)
    }

    /// Takes an operation on a gateway's session as `take` does, where the record that is known of the session then brings
    /// nothing new: its facts are joined in place. No list of rules is stale then, and no session has to wait, since the
    /// gateway was told just what its rules are.
    pub fn take_refreshed(&mut self, operation: &Operation, id: &GxSid) -> Result<(), AllocError>
        requires session { operation.now.session ≡ gx id.now }
        requires nothing { BringsNothing self.old.tables self.old.holding (gx id.now)
            (join_of (facts_on self.old.holding.facts (gx id.now))
            (kept_list operation.now.facts)) }
        ensures ok { OnOk result (self.new ≡ with_holding self.old
            (kept_of (with_operation self.old.holding operation.now))) }
        ensures err { OnErr result (self.new ≡ self.old) }
    {
        self.state.note_kept();
        self.state.take(operation)?;
        Ok(())
    }
}

/// The list of the session's rules is kept, and by this record its gateway was told just these.
fn was_told_kept(lists: &Rules, id: &GxSid, known: &GxRec) -> bool
    ensures { result ≡ true → (rs : List RuleValue) × (cached_at lists.now id.now ≡ Some rs)
        × (is_empty (difference (told_rules known.now) rs) ≡ true) }
{
    match lists.get(id) {
        Some(rules) => is_told_all(known, rules),
        None => false,
    }
}
