//! What the gateway of a session is still to be told, and its push, by rules that are kept.
ghost use Rattle.std.specs.Prelude.{◌≡◌, true, Some, IfOk, IfSome, OnOk, map, option_map};
ghost use Rattle.std.specs.Option.{option_copied};
ghost use Rattle.pcrf_values.specs.Sets.{Distinct};
ghost use Rattle.pcrf_model.specs.Differences.{difference, rule_name_of, told_rules_of};
ghost use Rattle.pcrf_model.specs.Rules.{rules};
ghost use Rattle.pcrf_model.specs.Sessions.{gx};
ghost use Rattle.pcrf_model.specs.Views.{view};
ghost use Rattle.pcrf_model.specs.ReplyViews.{push_view};
ghost use Rattle.pcc_rules.specs.Cached.{AreCached};
ghost use Rattle.rule_delta.specs.ByRecord.{push_due};
ghost use Rattle.rule_delta.specs.Pushed.{untold_difference};
ghost use Rattle.bind_index.specs.Index.{Covers};
ghost use Rattle.rule_delta.specs.Due.{push_if_due};

use crate::differences::difference;
use crate::pushing::{Asked, is_asked, is_empty, push_to};
use crate::telling::told_rules_of;
use crate::told_difference::difference_of;
use bind_index::Index;
use gx_records::GxRec;
use op_tables::Tables;
use pcc_rules::Rules;
use pcrf_model::{FirstEntries, PushOut};
use pcrf_values::{Delta, GxSid, Rule};
use site_join::State;
use std::alloc::{AllocError, Global};

/// What the gateway of a session is still to be told, as `untold_difference` gives it, by an index that covers the state and by the rules
/// that are kept: those of the session are kept then. A refusal leaves what is kept so far.
pub fn untold_difference_by(
    alloc: Global,
    tables: &Tables,
    state: &State,
    index: &Index,
    lists: &mut Rules,
    session: &GxSid,
) -> Result<Delta, AllocError>
    requires covers { Covers (view state.now.facts) index.now }
    requires kept { AreCached tables.now (view state.now.facts) lists.old }
    ensures difference { IfOk result (λ delta. delta
        ≡ untold_difference tables.now (view state.now.facts) (gx session.now)) }
    ensures names { OnOk result (Distinct (map rule_name_of
        (rules tables.now (view state.now.facts) (gx session.now)))) }
    ensures kept { AreCached tables.now (view state.now.facts) lists.new }
{
    lists.fill(tables, state, index, session)?;
    let Some(list) = lists.get(session) else {
        unreachable!()
    };
    untold_of(alloc, state, session, list)
}

/// What the gateway of a session is still to be told to have just these rules: all of them, where no fact of it is known.
fn untold_of(
    alloc: Global,
    state: &State,
    session: &GxSid,
    rules: &[Rule],
) -> Result<Delta, AllocError>
    ensures { IfOk result (λ delta. delta ≡ difference
        (told_rules_of (view state.now.facts) (gx session.now)) rules.now) }
{
    match state.gx(session) {
        Some(known) => difference_of(alloc, known, rules),
        None => {
            let told = told_rules_of(alloc, state, session)?;
            difference(alloc, &told, rules)
        }
    }
}

/// The push of a session, if it is one of those that are asked for and is due.
pub(crate) fn push_by(
    alloc: Global,
    tables: &Tables,
    state: &State,
    index: &Index,
    lists: &mut Rules,
    asked: &Asked<'_>,
    session: &GxSid,
) -> Result<Option<PushOut>, AllocError>
    requires covers { Covers (view state.now.facts) index.now }
    requires kept { AreCached tables.now (view state.now.facts) lists.old }
    ensures push { IfOk result (λ push. option_map push_view push
        ≡ push_if_due tables.now asked.now.site (view state.now.facts)
        (option_copied asked.now.host) (gx session.now)) }
    ensures names { IfOk result (λ push. IfSome push (λ p. Distinct (map rule_name_of
        (rules tables.now (view state.now.facts) (gx p.session))))) }
    ensures kept { AreCached tables.now (view state.now.facts) lists.new }
{
    let Some(known) = state.gx(session) else {
        return Ok(None);
    };
    push_known(alloc, tables, state, index, lists, asked, session, known)
}

/// The push of the session of which this is known, if it is due.
fn push_known(
    alloc: Global,
    tables: &Tables,
    state: &State,
    index: &Index,
    lists: &mut Rules,
    asked: &Asked<'_>,
    session: &GxSid,
    known: &GxRec,
) -> Result<Option<PushOut>, AllocError>
    requires covers { Covers (view state.now.facts) index.now }
    requires kept { AreCached tables.now (view state.now.facts) lists.old }
    ensures push { IfOk result (λ push. option_map push_view push
        ≡ push_due tables.now (view state.now.facts) asked.now.site
        (option_copied asked.now.host) session.now known.now) }
    ensures names { IfOk result (λ push. IfSome push (λ p. Distinct (map rule_name_of
        (rules tables.now (view state.now.facts) (gx p.session))))) }
    ensures kept { AreCached tables.now (view state.now.facts) lists.new }
{
    if !is_asked(asked, known) {
        return Ok(None);
    }
    let delta = untold_difference_by(alloc, tables, state, index, lists, session)?;
    if is_empty(&delta) {
        return Ok(None);
    }
    let push = push_to(session, known, FirstEntries::of(delta))?;
    Ok(Some(push))
}
