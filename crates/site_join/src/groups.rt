//! What a state holds, session by session.
ghost use Rattle.std.specs.Prelude.{◌≡◌, ◌++◌, true, map, IfOk, OnOk};
ghost use Rattle.std.specs.List.{filter_map, list_all};
ghost use Rattle.std.specs.Ordering.{is_lt};
ghost use Rattle.pcrf_model.specs.Forms.{is_rising};
ghost use Rattle.pcrf_model.specs.Sessions.{gx, af, session_cmp};
ghost use Rattle.site_join.specs.Groups.{are_groups, group_at, group_of, is_group, facts_of_groups};
ghost use Rattle.site_join.specs.States.{session_of};

use crate::form::are_held;
use crate::operation::SessionFacts;
use crate::state::State;
use af_records::AfRec;
use gx_records::GxRec;
use lattice_core::Entries;
use pcrf_model::ranges::note_text;
use pcrf_values::limits::LAST_COUNTER;
use pcrf_values::{AfSid, GxSid, Ranked};
use std::alloc::{AllocError, Global};

/// Adds the facts of gateways' sessions, of those that have some.
fn add_gx(
    alloc: Global,
    groups: &mut Vec<SessionFacts>,
    records: Entries<'_, GxSid, GxRec>,
) -> Result<(), AllocError>
    ensures { OnOk result (map group_of groups.new.items
        ≡ map group_of groups.old.items ++ filter_map (group_at gx) records.entry) }
{
    for (id, record) in records {
        let facts = record.facts(alloc)?;
        if !facts.is_empty() {
            let id = id.try_copy()?;
            groups.push(SessionFacts::Gx(id, facts))?;
        }
    }
    Ok(())
}

/// Adds the facts of application functions' sessions, of those that have some.
fn add_af(
    alloc: Global,
    groups: &mut Vec<SessionFacts>,
    records: Entries<'_, AfSid, AfRec>,
) -> Result<(), AllocError>
    ensures { OnOk result (map group_of groups.new.items
        ≡ map group_of groups.old.items ++ filter_map (group_at af) records.entry) }
{
    for (id, record) in records {
        let facts = record.facts(alloc)?;
        if !facts.is_empty() {
            let id = id.try_copy()?;
            groups.push(SessionFacts::Af(id, facts))?;
        }
    }
    Ok(())
}

impl State {
    /// All that is held, session by session: gateways' sessions first, each kind by Session-Id, and the facts of a session in
    /// their order. Its time and memory grow with the number of facts.
    pub fn groups(&self, alloc: Global) -> Result<Vec<SessionFacts>, AllocError>
        ensures facts { IfOk result (λ gs. facts_of_groups (map group_of gs.items)
            ≡ self.now.facts) }
        ensures form { IfOk result (λ gs. are_groups self.now.clock (map group_of gs.items)
            ≡ true) }
    {
        self.note_kept();
        self.note_form();
        let mut groups = Vec::new(alloc);
        add_gx(alloc, &mut groups, self.all_gx())?;
        add_af(alloc, &mut groups, self.all_af())?;
        Ok(groups)
    }
}

/// The session of the first stands before that of the second.
fn is_before(first: &SessionFacts, second: &SessionFacts) -> bool
    ensures { result ≡ is_lt (session_cmp (session_of first.now) (session_of second.now)) }
{
    match first {
        SessionFacts::Gx(id, _) => match second {
            SessionFacts::Gx(other, _) => id.cmp(other).is_lt(),
            SessionFacts::Af(_, _) => true,
        },
        SessionFacts::Af(id, _) => match second {
            SessionFacts::Gx(_, _) => false,
            SessionFacts::Af(other, _) => id.cmp(other).is_lt(),
        },
    }
}

/// Each session stands before the next one.
fn are_rising(groups: &[SessionFacts]) -> bool
    ensures { result ≡ is_rising session_cmp (map (λ g. g.0) (map group_of groups.now)) }
{
    let mut left = groups;
    while let Some((first, rest)) = left.split_first() {
        if let Some(second) = rest.first() {
            if !is_before(first, second) {
                return false;
            }
        }
        left = rest;
    }
    true
}

/// A state with that clock may hold the facts of the session.
fn is_group(clock: u64, group: &SessionFacts) -> bool
    ensures { result ≡ is_group clock (group_of group.now) }
{
    match group {
        SessionFacts::Gx(id, facts) => {
            note_text(id.id());
            are_held(facts.as_slice(), clock)
        }
        SessionFacts::Af(id, facts) => {
            note_text(id.id());
            are_held(facts.as_slice(), clock)
        }
    }
}

/// A state with that clock may hold all these facts: gateways' sessions stand first, each kind by Session-Id, none twice; the facts
/// of each are one or more at ascending positions, of which none removes another, with tags up to the clock.
pub fn are_groups(clock: u64, groups: &[SessionFacts]) -> bool
    ensures { result ≡ are_groups clock (map group_of groups.now) }
{
    if clock > LAST_COUNTER || !are_rising(groups) {
        return false;
    }
    let mut left = groups;
    while let Some((first, rest)) = left.split_first() {
        if !is_group(clock, first) {
            return false;
        }
        left = rest;
    }
    true
}
