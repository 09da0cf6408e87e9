//! Lists of rules that are made anew, all that are stale at once.
ghost use Rattle.std.specs.Prelude.{◌≡◌, None, true, IfOk, OnOk};
ghost use Rattle.pcrf_values.specs.Live.{gx_is_live};
ghost use Rattle.pcrf_model.specs.Tables.{Tables as TablesValue};
ghost use Rattle.pcrf_model.specs.Views.{View, view};
ghost use Rattle.bind_index.specs.Index.{Covers};
ghost use Rattle.pcc_rules.specs.Cached.{AreCached, cached_at};
ghost use Rattle.pcc_rules.specs.Many.{AreAllStale, AreFresh, AreRulesOf, KeepsAll};

use crate::cached::Rules;
use crate::many::derive_many_by;
use bind_index::Index;
use gx_records::GxRec;
use op_tables::Tables;
use pcrf_values::{GxSid, Ranked, Rule};
use site_join::State;
use std::alloc::{AllocError, Global};
use std::thread::Threads;

/// Derives the rules of each live gateway's session of which none are kept, by an index that covers the state, and keeps
/// them. A refusal leaves what is kept so far.
pub fn renew(
    rt: &(impl Threads + Sync),
    alloc: Global,
    tables: &Tables,
    state: &State,
    index: &Index,
    lists: &mut Rules,
) -> Result<(), AllocError>
    requires covers { Covers (view state.now.facts) index.now }
    requires kept { AreCached tables.now (view state.now.facts) lists.old }
    ensures fresh { OnOk result (AreFresh tables.now (view state.now.facts) lists.new) }
    ensures kept { AreCached tables.now (view state.now.facts) lists.new }
{
    let stale = stale_sessions(alloc, state, lists)?;
    let made = derive_many_by(rt, alloc, tables, state, index, stale.as_slice())?;
    keep_all(lists, stale.as_slice(), made)
}

/// The live gateways' sessions of which no rules are kept.
fn stale_sessions(alloc: Global, state: &State, lists: &Rules) -> Result<Vec<GxSid>, AllocError>
    ensures { IfOk result (λ found. AreAllStale (view state.now.facts) lists.now found.items) }
{
    let mut found = Vec::new(alloc);
    for (session, known) in state.all_gx() {
        if is_stale(lists, session, known) {
            found.push(session.try_copy()?)?;
        }
    }
    Ok(found)
}

/// A session of which this is known is live, and no rules of it are kept.
fn is_stale(lists: &Rules, session: &GxSid, known: &GxRec) -> bool
    ensures { gx_is_live known.now ≡ true → cached_at lists.now session.now ≡ None
        → result ≡ true }
{
    known.live() && lists.get(session).is_none()
}

/// Keeps each of the lists as that of the session at its place. A refusal leaves what is kept so far.
fn keep_all(lists: &mut Rules, sessions: &[GxSid], made: Vec<Vec<Rule>>) -> Result<(), AllocError>
    ensures all { OnOk result ((t : TablesValue) (v : View)
        → AreRulesOf t v sessions.now made.items → AreCached t v lists.old
        → KeepsAll t v lists.old lists.new sessions.now) }
    ensures kept { (t : TablesValue) (v : View) → AreRulesOf t v sessions.now made.items
        → AreCached t v lists.old → AreCached t v lists.new }
{
    let mut left = sessions;
    for rules in made {
        let Some((session, rest)) = left.split_first() else {
            return Ok(());
        };
        lists.keep(session, rules)?;
        left = rest;
    }
    Ok(())
}
