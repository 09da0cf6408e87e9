//! A site that renews its lists of rules: what it holds stays the same, and a list is kept of each live session.
use crate::checks::{check, check_same};
use crate::facts::{gateway_end, gateway_id, second_flow, tag};
use crate::many::making::{is_with_call, state_of};
use crate::sites::new_site;
use pcc_rules::Rules;
use pcrf_values::Rule;
use site_join::Operation;
use site_machine::Site;
use std::alloc::Global;
use std::process::Abort;
use std::test::*;
use std::thread::Threads;

/// So many sessions are shared among threads.
const MANY: u32 = 3_000;

/// So few that all that an operator sees of them is looked at.
const FEW: u32 = 12;

/// A site that took a state of so many sessions.
fn site_of(rt: &impl Abort, alloc: Global, size: u32) -> Site {
    let mut site = new_site(rt, alloc);
    let state = state_of(rt, alloc, size, 1);
    site.take_state(&state).expect(rt, "memory");
    drop(state);
    site
}

/// Of how many of the first sessions a list is there, the one that they have by hand.
fn count_cached(rt: &impl Abort, alloc: Global, lists: &Rules, size: u32) -> u32 {
    let mut count = 0u32;
    for number in 0..size {
        let id = gateway_id(rt, alloc, number);
        let is_kept = match lists.get(&id) {
            Some(list) => is_with_call(rt, alloc, list, number),
            None => false,
        };
        drop(id);
        count = count.saturating_add(u32::from(is_kept));
    }
    count
}

/// How many rules are kept of a session, if any list is.
fn count_rules(rt: &impl Abort, alloc: Global, site: &Site, number: u32) -> Option<usize> {
    let id = gateway_id(rt, alloc, number);
    let count = site.cached_rules().get(&id).map(|list: &[Rule]| list.len());
    drop(id);
    count
}

/// Renews a site, which holds the same then, and made as many operations: of how many of the first sessions there is a list
/// among those that are answered. The site keeps as many.
fn renew(rt: &(impl Threads + Abort + Sync), alloc: Global, site: &mut Site, size: u32) -> u32 {
    let before = site.sessions().try_copy().expect(rt, "memory");
    let logged = site.logged();
    let count = count_cached(rt, alloc, site.renew(rt).expect(rt, "memory"), size);
    let is_same = site.sessions().equal(&before);
    drop(before);
    check(rt, is_same);
    check_same(rt, site.logged(), logged);
    check_same(
        rt,
        count_cached(rt, alloc, site.cached_rules(), size),
        count,
    );
    count
}

#[test]
fn many_lists_are_kept(rt: HostRuntime) {
    let alloc = rt.alloc();
    let mut site = site_of(&rt, alloc, MANY);
    check_same(&rt, count_cached(&rt, alloc, site.cached_rules(), MANY), 0);
    check_same(&rt, renew(&rt, alloc, &mut site, MANY), MANY);
    check_same(&rt, renew(&rt, alloc, &mut site, MANY), MANY);
}

/// A site takes one operation.
fn take_one(rt: &impl Abort, alloc: Global, site: &mut Site, operation: Operation) {
    let mut operations: Vec<Operation> = Vec::new(alloc);
    operations.push(operation).expect(rt, "memory");
    let taken = site.take_all(operations.as_slice()).is_ok();
    drop(operations);
    check(rt, taken);
}

#[test]
fn an_ended_session_has_no_list_and_a_stale_list_is_made_anew(rt: HostRuntime) {
    let alloc = rt.alloc();
    let mut site = site_of(&rt, alloc, FEW);
    check_same(&rt, renew(&rt, alloc, &mut site, FEW), 12);
    take_one(
        &rt,
        alloc,
        &mut site,
        gateway_end(&rt, alloc, 3, tag(100, 1)),
    );
    check_same(&rt, count_rules(&rt, alloc, &site, 5), Some(2));
    take_one(
        &rt,
        alloc,
        &mut site,
        second_flow(&rt, alloc, 5, tag(101, 1)),
    );
    check_same(&rt, count_rules(&rt, alloc, &site, 5), None);
    check_same(&rt, count_cached(&rt, alloc, site.cached_rules(), FEW), 10);
    check_same(&rt, renew(&rt, alloc, &mut site, FEW), 10);
    check_same(&rt, count_rules(&rt, alloc, &site, 3), None);
    check_same(&rt, count_rules(&rt, alloc, &site, 5), Some(3));
}
