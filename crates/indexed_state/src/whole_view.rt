//! All that an operator sees.
ghost use Rattle.std.specs.Prelude.{◌≡◌, IfOk};
ghost use Rattle.pcrf_model.specs.SiteOverviews.{site_overview};
ghost use Rattle.indexed_state.specs.Shown.{value_view};

use crate::calls::calls;
use crate::gateways::gateways;
use crate::seen::SiteOverview;
use op_tables::Tables;
use site_join::State;
use std::alloc::{AllocError, Global};

/// What an operator sees of a site that holds this: its clock, and each session of which it knows a fact, as ended, as
/// partial, or as live with what it shows: a gateway's with its fields, its home, its rules and what its gateway was told of
/// them, an application function's with its fields, its binding and whether it was aborted. Rules and bindings are found anew for each session, so
/// its time grows with the number of application functions' sessions times the square of that of gateways' sessions.
pub fn value(alloc: Global, tables: &Tables, state: &State) -> Result<SiteOverview, AllocError>
    ensures { IfOk result (λ value. value_view value ≡ site_overview tables.now state.now) }
{
    let gx = gateways(alloc, tables, state, state.all_gx())?;
    let af = calls(alloc, state, state.all_af())?;
    Ok(SiteOverview {
        clock: state.clock(),
        gx,
        af,
    })
}
