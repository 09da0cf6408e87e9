//! Lists of rules that are kept, and made anew all at once.
ghost use Rattle.std.specs.Prelude.{◌≡◌, true, IfOk, OnOk};
ghost use Rattle.pcc_rules.specs.Many.{AreFresh};
ghost use Rattle.pcrf_model.specs.Views.{view};
ghost use Rattle.pcc_rules.specs.Cached.{AreCached};
ghost use Rattle.bind_index.specs.Index.{Covers};

use crate::indexed::{IndexedState, make_whole};
use bind_index::Index;
use op_tables::Tables;
use pcc_rules::{Rules, renew};
use site_join::State;
use std::alloc::{AllocError, Global};
use std::thread::Threads;

impl IndexedState {
    ghost use Rattle.std.specs.Borrow.{sem};
    ghost use Rattle.std.specs.Io.BufRead.{Rests};
    ghost use Rattle.indexed_state.specs.contracts.indexed.IndexedState.{the_row};

    /// The lists of PCC rules that are kept, each that of its gateway's session. Of a session of which none is kept they may
    /// have changed, or nobody asked for them yet.
    pub fn cached_rules(&self) -> &Rules
        ensures { AreCached self.now.tables (view self.now.holding.facts) result.now }
    {
        &self.rules
    }

    /// Derives the rules of each live gateway's session of which none are kept, in as many threads as there are processors, and
    /// keeps them: what is answered are the lists that are kept then, one of each live session. What is held stays the same,
    /// also where memory is refused; what was kept so far is kept then.
    pub fn renew(&mut self, rt: &(impl Threads + Sync)) -> Result<&Rules, AllocError>
        ensures* same { sem 𝓛 (Rests the_row self.entry (λ now. now ≡ self.old)) }
        ensures fresh { IfOk result (λ lists.
            AreFresh self.old.tables (view self.old.holding.facts) lists.now) }
        ensures kept { IfOk result (λ lists.
            AreCached self.old.tables (view self.old.holding.facts) lists.now) }
    {
        renew_lists(
            rt,
            self.alloc,
            &self.tables,
            &self.state,
            &mut self.index,
            &mut self.is_whole,
            &mut self.rules,
        )?;
        Ok(&self.rules)
    }
}

/// Has the index cover the state, and the rules of each live gateway's session be kept. A refusal leaves what was listed and
/// what is kept so far.
fn renew_lists(
    rt: &(impl Threads + Sync),
    alloc: Global,
    tables: &Tables,
    state: &State,
    index: &mut Index,
    is_whole: &mut bool,
    lists: &mut Rules,
) -> Result<(), AllocError>
    requires covers { is_whole.old ≡ true → Covers (view state.now.facts) index.old }
    requires kept { AreCached tables.now (view state.now.facts) lists.old }
    ensures fresh { OnOk result (AreFresh tables.now (view state.now.facts) lists.new) }
    ensures covers { is_whole.new ≡ true → Covers (view state.now.facts) index.new }
    ensures kept { AreCached tables.now (view state.now.facts) lists.new }
{
    make_whole(state, index, is_whole)?;
    renew(rt, alloc, tables, state, index, lists)
}
