//! What follows a change of one gateway's session.
ghost use Rattle.std.specs.Prelude.{◌≡◌, ℕ, List, true, false};
ghost use Rattle.std.specs.Option.{option_copied};
ghost use Rattle.pcrf_model.specs.Holdings.{Holding, SessionFact, facts_on};
ghost use Rattle.pcrf_model.specs.Laws.{DifferInOne};
ghost use Rattle.pcrf_model.specs.Sessions.{gx};
ghost use Rattle.pcrf_model.specs.Tables.{Tables};
ghost use Rattle.pcrf_model.specs.Views.{view};
ghost use Rattle.bind_index.specs.Index.{Covers, Grows};
ghost use Rattle.site_join.specs.States.{record_facts};
ghost use Rattle.indexed_state.specs.Indexed.{Agree, Unsettled};

use crate::aborting::wait_lost;
use crate::alike::show_alike;
use crate::forgetting::{forget_gateway, forget_stood};
use crate::reached::gateway_reached_in;
use crate::unsettling::{unsettle_all, unsettle_gateway, wait_gateway};
use bind_index::Index;
use gx_records::GxRec;
use pcc_rules::Rules;
use pcrf_values::GxSid;
use rule_delta::{Waiting, WaitingCalls, wait_one};
use site_join::State;
use std::alloc::Global;

/// Has an index, lists of rules and those that wait agree with a state in which one gateway's session, of which this record
/// stood, has another than before. Where memory is refused the index isn't whole, no list is kept and all wait.
pub(crate) fn follow(
    alloc: Global,
    state: &State,
    index: &mut Index,
    is_whole: &mut bool,
    rules: &mut Rules,
    waiting: &mut Waiting,
    aborts: &mut WaitingCalls,
    id: &GxSid,
    stood: &Option<GxRec>,
)
    ensures { (t : Tables) (i : ℕ) (h : Holding) → DifferInOne h.facts state.now.facts (gx id.now)
        → record_facts stood.now ≡ facts_on h.facts (gx id.now)
        → Agree t i h is_whole.old index.old rules.old waiting.old aborts.old
        → Agree t i state.now is_whole.new index.new rules.new waiting.new aborts.new }
{
    if !*is_whole {
        keep_nothing(alloc, is_whole, rules, waiting, aborts);
        return;
    }
    let known = state.gx(id);
    if show_alike(stood.as_ref(), known) {
        // No rule of any session depends on what changed.
        wait_one(state, waiting, id);
        return;
    }
    if !list_known(known, index, id) {
        keep_nothing(alloc, is_whole, rules, waiting, aborts);
        return;
    }
    let before = gateway_reached_in(stood.as_ref());
    let after = gateway_reached_in(known);
    wait_gateway(state, waiting, id, after.address);
    unsettle_gateway(alloc, state, index, rules, waiting, &before, &after);
    wait_lost(alloc, state, index, aborts, &before);
    forget_gateway(index, id, &before, &after);
    forget_stood(index, id, stood.as_ref(), known);
}

/// The index isn't whole, no list of rules is kept, and all sessions wait.
fn keep_nothing(
    alloc: Global,
    is_whole: &mut bool,
    rules: &mut Rules,
    waiting: &mut Waiting,
    aborts: &mut WaitingCalls,
)
    ensures whole { is_whole.new ≡ false }
    ensures unsettled { Unsettled rules.new waiting.new }
    ensures calls { aborts.new.all ≡ true }
{
    *is_whole = false;
    unsettle_all(alloc, rules, waiting);
    *aborts = WaitingCalls::seeded(alloc, aborts.seed());
}

/// Lists a gateway's session by the record that is known of it; false where memory is refused.
fn list_known(known: Option<&GxRec>, index: &mut Index, id: &GxSid) -> bool
    ensures grows { Grows index.old index.new }
    ensures covers { result ≡ true → (before after : List SessionFact)
        → record_facts (option_copied known.entry) ≡ facts_on after (gx id.now)
        → DifferInOne before after (gx id.now)
        → Covers (view before) index.old → Covers (view after) index.new }
{
    let Some(known) = known else {
        return true;
    };
    match index.cover_gateway(id, known) {
        Ok(()) => true,
        Err(_) => false,
    }
}
