//! What a site finds by its index, beside what passes over all its sessions find: what calls are bound to, and the rules of gateways'
//! sessions, made by the index or kept. A line says where they differ.
use crate::fault::Fault;
use indexed_state::bindings;
use pcc_rules::derive;
use pcrf_values::{AfSid, GxSid, Ranked};
use pcrf_world::World;
use site_core::Site;
use std::alloc::{AllocError, Global};
use std::fmt::Write as _;

/// The two are the same session, or none.
fn is_same(first: Option<&GxSid>, second: Option<&GxSid>) -> bool {
    match (first, second) {
        (Some(first), Some(second)) => first.cmp(second).is_eq(),
        (None, None) => true,
        _ => false,
    }
}

/// The two are the same calls with the same sessions.
fn are_same(first: &[(AfSid, Option<GxSid>)], second: &[(AfSid, Option<GxSid>)]) -> bool {
    for (ours, theirs) in first.iter().zip(second) {
        if !ours.0.cmp(&theirs.0).is_eq() || !is_same(ours.1.as_ref(), theirs.1.as_ref()) {
            return false;
        }
    }
    first.len() == second.len()
}

/// Whether all live calls are bound alike.
fn are_bound_alike(alloc: Global, site: &Site) -> Result<bool, AllocError> {
    let found = site.bindings()?;
    let wanted = bindings(alloc, site.sessions())?;
    Ok(are_same(found.as_slice(), wanted.as_slice()))
}

/// Whether a session has the same rules, as they are found and, if they are, as they are kept.
fn has_its_rules(alloc: Global, site: &Site, session: &GxSid) -> Result<bool, AllocError> {
    let wanted = derive(alloc, site.tables(), site.sessions(), session)?;
    let found = site.rules_of(session)?;
    let is_kept = match site.cached_rules().get(session) {
        Some(list) => list == wanted.as_slice(),
        None => true,
    };
    Ok(is_kept && found.as_slice() == wanted.as_slice())
}

/// Whether a site, whose index is whole, finds all alike.
fn finds_alike(alloc: Global, site: &Site) -> Result<bool, AllocError> {
    let mut are_alike = site.index().is_some() && are_bound_alike(alloc, site)?;
    for (session, _) in site.sessions().all_gx() {
        are_alike = has_its_rules(alloc, site, session)? && are_alike;
    }
    Ok(are_alike)
}

/// Adds a line for each of so many sites of a world that finds something else by its index.
pub fn put_passes(
    alloc: Global,
    world: &World,
    sites: usize,
    out: &mut String,
) -> Result<(), Fault> {
    for i in 0..sites {
        if let Some(site) = world.site(i)
            && !finds_alike(alloc, site)?
        {
            writeln!(out, "site {i} finds something else by its index")?;
        }
    }
    Ok(())
}
