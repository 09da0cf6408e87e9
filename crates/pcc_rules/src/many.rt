//! The rules of many sessions, side by side.
ghost use Rattle.std.specs.Prelude.{IfOk};
ghost use Rattle.pcrf_model.specs.Views.{view};
ghost use Rattle.bind_index.specs.Index.{Covers};
ghost use Rattle.pcc_rules.specs.Many.{AreRulesOf, IsRulesOf};

use crate::derivation::derive;
use crate::indexed_derivation::derive_by;
use bind_index::Index;
use op_tables::Tables;
use pcrf_values::{GxSid, Rule};
use rayon::prelude::*;
use site_join::State;
use std::alloc::{AllocError, Global};
use std::thread::Threads;

/// The fewest sessions that are worth a thread.
const SESSIONS_IN_A_THREAD: usize = 128;

/// The PCC rules of each of these sessions, in their order, as `derive` gives them. They are shared among as many threads as
/// there are processors.
pub fn derive_many(
    rt: &(impl Threads + Sync),
    alloc: Global,
    tables: &Tables,
    state: &State,
    sessions: &[GxSid],
) -> Result<Vec<Vec<Rule>>, AllocError>
    ensures { IfOk result (λ lists. AreRulesOf tables.now (view state.now.facts)
        sessions.now lists.items) }
{
    sessions
        .par_iter()
        .with_min_len(SESSIONS_IN_A_THREAD)
        .map(
            |session: &GxSid| -> Result<Vec<Rule>, AllocError>
                ensures { IfOk result (IsRulesOf tables.entry.now
                    (view state.entry.now.facts) session.now) }
            { derive(alloc, tables, state, session) },
        )
        .collect::<Result<Vec<Vec<Rule>>, AllocError>>(rt, alloc)?
}

/// The same, each list as `derive_by` gives it, by an index that covers the state.
pub fn derive_many_by(
    rt: &(impl Threads + Sync),
    alloc: Global,
    tables: &Tables,
    state: &State,
    index: &Index,
    sessions: &[GxSid],
) -> Result<Vec<Vec<Rule>>, AllocError>
    ensures { IfOk result (λ lists. Covers (view state.now.facts) index.now
        → AreRulesOf tables.now (view state.now.facts) sessions.now lists.items) }
{
    sessions
        .par_iter()
        .with_min_len(SESSIONS_IN_A_THREAD)
        .map(
            |session: &GxSid| -> Result<Vec<Rule>, AllocError>
                ensures { IfOk result (λ made. Covers (view state.entry.now.facts) index.entry.now
                    → IsRulesOf tables.entry.now (view state.entry.now.facts) session.now made) }
            { derive_by(alloc, tables, state, index, session) },
        )
        .collect::<Result<Vec<Vec<Rule>>, AllocError>>(rt, alloc)?
}
