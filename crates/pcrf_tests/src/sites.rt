//! Sites that took nothing.
ghost use Rattle.std.specs.Prelude.{◌<◌};
ghost use Rattle.pcrf_values.specs.Limits.{site_limit};

use crate::tables::{telephony, with_rules};
use crate::values::identity;
use op_tables::Tables;
use site_machine::Site;
use std::alloc::Global;
use std::process::Abort;

/// A site of this number, with these tables.
fn site_with(rt: &impl Abort, alloc: Global, tables: Tables, number: u8) -> Site
    requires { number < site_limit }
{
    Site::start(alloc, tables, identity(rt, alloc), number)
}

/// One of a network with calls.
pub fn numbered_site(rt: &impl Abort, alloc: Global, number: u8) -> Site
    requires { number < site_limit }
{
    site_with(rt, alloc, telephony(rt, alloc), number)
}

/// One of number 0.
pub fn new_site(rt: &impl Abort, alloc: Global) -> Site {
    numbered_site(rt, alloc, 0)
}

/// One whose sessions have so many rules of the operator's.
pub fn ruled_site(rt: &impl Abort, alloc: Global, number: u8, rules: u32) -> Site
    requires { number < site_limit }
{
    site_with(rt, alloc, with_rules(rt, alloc, rules), number)
}
