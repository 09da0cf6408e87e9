//! What the gateway of a session is still to be told.
ghost use Rattle.std.specs.Prelude.{◌≡◌, IfOk, OnOk, map};
ghost use Rattle.pcrf_values.specs.Sets.{Distinct};
ghost use Rattle.pcrf_model.specs.Differences.{rule_name_of, told_rules_of};
ghost use Rattle.pcrf_model.specs.Rules.{rules};
ghost use Rattle.pcrf_model.specs.Sessions.{gx};
ghost use Rattle.pcrf_model.specs.Views.{view};
ghost use Rattle.rule_delta.specs.Pushed.{untold_difference};

use crate::differences::difference;
use gx_records::Told;
use op_tables::Tables;
use pcc_rules::derive;
use pcrf_values::{Delta, GxSid};
use site_join::State;
use std::alloc::{AllocError, Global};

/// What the gateway of a session is still to be told: the difference between what it was told and the session's rules
/// (TS 29.212, 4.5.2), of which no two have one name. Its time is that of `derive`, and grows with the number of rules and
/// the logarithm of it.
pub fn untold_difference(
    alloc: Global,
    tables: &Tables,
    state: &State,
    session: &GxSid,
) -> Result<Delta, AllocError>
    ensures difference { IfOk result (λ delta. delta
        ≡ untold_difference tables.now (view state.now.facts) (gx session.now)) }
    ensures names { OnOk result (Distinct (map rule_name_of
        (rules tables.now (view state.now.facts) (gx session.now)))) }
{
    let rules = derive(alloc, tables, state, session)?;
    let told = told_rules_of(alloc, state, session)?;
    difference(alloc, &told, rules.as_slice())
}

/// What the gateway of a session was told: nothing, where no fact of the session is known.
pub fn told_rules_of(alloc: Global, state: &State, session: &GxSid) -> Result<Told, AllocError>
    ensures { IfOk result (λ entries. entries
        ≡ told_rules_of (view state.now.facts) (gx session.now)) }
{
    match state.gx(session) {
        Some(record) => record.told_rules(alloc),
        None => Ok(Told::of(Vec::new(alloc))),
    }
}
