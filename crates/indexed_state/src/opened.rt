//! Gateways' sessions of which nothing was known, and to which no call can be bound: they have the operator's rules at once.
ghost use Rattle.std.specs.Prelude.{◌≡◌, [], map, true, IfOk, IfSome, OnOk, OnErr};
ghost use Rattle.pcrf_values.specs.Ascending.{ascending};
ghost use Rattle.pcrf_values.specs.Held.{kept_list, join_of};
ghost use Rattle.pcrf_model.specs.Holdings.{facts_on, kept_of};
ghost use Rattle.pcrf_model.specs.Operations.{with_operation};
ghost use Rattle.pcrf_model.specs.Rules.{operator_rules};
ghost use Rattle.pcrf_model.specs.Sessions.{gx};
ghost use Rattle.bind_index.specs.Beside.{beside};
ghost use Rattle.pcc_rules.specs.Listing.{RowNamesApart, keyed, keyed_cmp, unkeyed};
ghost use Rattle.indexed_state.specs.Opened.{KeepsOne, NoCallAt, NoCallIn, OpensAlone};

use crate::indexed::{IndexedState, make_whole};
use bind_index::{Index, network_of, spans_networks};
use gx_records::GxRec;
use op_tables::Tables;
use pcc_rules::{Rules, in_order, operator_rules};
use pcrf_values::{GxSid, Rule};
use rule_delta::wait_one;
use site_join::Operation;
use std::alloc::{AllocError, Global};

impl IndexedState {
    ghost use Rattle.indexed_state.specs.Indexed.{with_holding};

    /// The PCC rules of a gateway's session of which nothing is known, were this record known of it: those that the operator
    /// gives each session of its access point. `None` where something is known of the session, where it isn't live by the
    /// record, or where a call may be bound to it: one is listed under its address or under the network of its prefix, or
    /// its prefix has fewer than 64 bits. Its time grows with the number of these rules alone.
    pub fn rules_alone(&self, id: &GxSid, known: &GxRec) -> Result<Option<Vec<Rule>>, AllocError>
        ensures { IfOk result (λ found. IfSome found (λ rules. OpensAlone
            self.now.tables self.now.holding id.now known.now rules.items)) }
    {
        if !self.is_whole || self.state.gx(id).is_some() || !known.live() {
            return Ok(None);
        }
        if !no_call_at(&self.index, known) || !no_call_in(&self.index, known) {
            return Ok(None);
        }
        Ok(Some(rules_of_row(self.alloc, &self.tables, known)?))
    }

    /// Takes an operation on a gateway's session of which nothing was known as `take_gateway` does, where no call can be bound to
    /// it by the record that is known of it then, and its rules are these. They are kept. No other list of rules is stale then,
    /// and no other session has to wait.
    pub fn take_opened(
        &mut self,
        operation: &Operation,
        id: &GxSid,
        known: GxRec,
        rules: Vec<Rule>,
    ) -> Result<(), AllocError>
        requires session { operation.now.session ≡ gx id.now }
        requires joins { known ≡ join_of
            (facts_on self.old.holding.facts (gx id.now)) (kept_list operation.now.facts) }
        requires alone { OpensAlone self.old.tables self.old.holding id.now known rules.items }
        ensures ok { OnOk result (self.new ≡ with_holding self.old
            (kept_of (with_operation self.old.holding operation.now))) }
        ensures err { OnErr result (self.new ≡ self.old) }
    {
        make_whole(&self.state, &mut self.index, &mut self.is_whole)?;
        self.index.cover_gateway(id, &known)?;
        self.state.note_kept();
        self.state.note_form();
        operation.note_form();
        let clock = self.state.clock().max(operation.counter());
        self.state.put_gx(id, Some(known), clock)?;
        keep_one(&mut self.rules, id, rules);
        wait_one(&self.state, &mut self.waiting, id);
        Ok(())
    }
}

/// No call is listed under the address that a gateway's session of this record shows.
fn no_call_at(index: &Index, known: &GxRec) -> bool
    ensures { result ≡ true → NoCallAt index.now known.now }
{
    let Some((_, address)) = known.address() else {
        return true;
    };
    index.calls_at(*address).is_none()
}

/// None is listed under the network of the prefix that it shows, which has no fewer bits than say a network.
fn no_call_in(index: &Index, known: &GxRec) -> bool
    ensures { result ≡ true → NoCallIn index.now known.now }
{
    let Some((_, prefix)) = known.prefix() else {
        return true;
    };
    if spans_networks(prefix) {
        return false;
    }
    index.calls_in(&network_of(prefix)).is_none()
}

/// The operator's rules for the access point of this record, by precedence and then by name.
fn rules_of_row(alloc: Global, tables: &Tables, known: &GxRec) -> Result<Vec<Rule>, AllocError>
    ensures rules { IfOk result (λ made. made.items ≡ map unkeyed (ascending keyed_cmp
        (map keyed (operator_rules tables.now (beside known.now []) (gx []))))) }
    ensures apart { IfOk result (λ _. RowNamesApart tables.now (beside known.now []) (gx [])) }
{
    let found = operator_rules(alloc, tables, known)?;
    in_order(alloc, found)
}

/// Keeps these rules of a session; where memory for them is refused none are kept of it.
fn keep_one(lists: &mut Rules, id: &GxSid, rules: Vec<Rule>)
    ensures { KeepsOne lists.old lists.new id.now rules.items }
{
    if lists.keep(id, rules).is_err() {
        lists.touch_one(id);
    }
}
