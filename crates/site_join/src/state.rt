//! The records of all sessions, with the clock.
ghost use Rattle.std.specs.Prelude.{◌≡◌, ℕ, List, ◌≤◌, ◌↔◌, [], map, true, IsTrue, IfOk, IfErr, OnOk, OnErr, IsSome};
ghost use Rattle.std.specs.List.{list_all};
ghost use Rattle.std.specs.Option.{option_copied};
ghost use Rattle.pcrf_values.specs.Limits.{last_counter};
ghost use Rattle.pcrf_model.specs.Sessions.{Gx, Af, gx, af};
ghost use Rattle.pcrf_model.specs.Holdings.{nothing_held, facts_on, union, kept_of, with_facts_of};
ghost use Rattle.pcrf_model.specs.Operations.{with_operation};
ghost use Rattle.pcrf_model.specs.ToldTags.{ToldUpTo};
ghost use Rattle.pcrf_model.specs.Forms.{are_up_to, is_holding, is_record, is_recorded};
ghost use Rattle.pcrf_values.specs.Orders.{text_cmp};
ghost use Rattle.lattice_core.specs.Entries.{IsAscending, value_at};
ghost use Rattle.site_join.specs.Groups.{are_groups, group_of, groups_of_facts, held_in};
ghost use Rattle.site_join.specs.States.{record_facts, session_of, facts_in, gx_with, af_with};

use crate::operation::{Operation, SessionFacts};
use af_records::AfRec;
use gx_records::GxRec;
use lattice_core::{Entries, Join, JoinTree, same_facts};
use pcrf_model::ranges::note_text;
use pcrf_values::{AfSid, GxSid, HashSeed, Ranked};
use std::alloc::{AllocError, Global};
use std::fmt::{self, Debug, Formatter, Write};
use std::marker::Model;

/// What a site holds: a record of each session of which it knows a fact, by Session-Id, and the greatest counter of the
/// operations that it took. Contracts see it as the facts that are kept, each with its session, and the clock. It has the form
/// of what operations make.
#[derive(Drop)]
pub struct State {
    alloc: Global,
    gx: JoinTree<GxSid, GxRec>,
    af: JoinTree<AfSid, AfRec>,
    clock: u64,
}

/// Its clock alone is printed: what it holds has as many lines as there are sessions.
impl Debug for State {
    fn fmt<W: Write>(&self, f: &mut Formatter<W>) -> fmt::Result {
        f.debug_struct("State")
            .field("clock", &self.clock)
            .finish_non_exhaustive()
    }
}

impl Model for State {
    ghost use Rattle.std.specs.Prelude.{◌≡◌, true};
    ghost use Rattle.pcrf_model.specs.Forms.{is_holding};
    ghost use Rattle.pcrf_model.specs.Holdings.{Holding};
    ghost use Rattle.site_join.specs.States.{held_by};

    ghost Value = { Holding };

    ghost view = { λ s. held_by s.gx s.af s.clock };

    ghost invariant = { λ s. is_holding (held_by s.gx s.af s.clock) ≡ true };
}

impl State {
    /// Nothing is held, and hashes begin with a seed that everyone knows.
    pub fn start(alloc: Global) -> State
        ensures { result ≡ nothing_held }
    {
        State::seeded(alloc, HashSeed::of(0))
    }

    /// Nothing is held, and hashes begin with that seed.
    pub fn seeded(alloc: Global, seed: HashSeed) -> State
        ensures { result ≡ nothing_held }
    {
        State {
            alloc,
            gx: JoinTree::seeded(alloc, seed),
            af: JoinTree::seeded(alloc, seed),
            clock: 0,
        }
    }

    /// The state that holds just the facts of these groups, under that clock, whose hashes begin with that seed. Its time and memory grow with the number of facts.
    pub fn of_groups(
        alloc: Global,
        seed: HashSeed,
        clock: u64,
        groups: Vec<SessionFacts>,
    ) -> Result<State, AllocError>
        requires { are_groups clock (map group_of groups.items) ≡ true }
        ensures { IfOk result (λ s. s ≡ held_in clock (map group_of groups.items)) }
    {
        let mut gx = JoinTree::seeded(alloc, seed);
        let mut af = JoinTree::seeded(alloc, seed);
        let mut left = groups.as_slice();
        while let Some((first, rest)) = left.split_first() {
            gx.note_valid();
            af.note_valid();
            join_facts(alloc, &mut gx, &mut af, first)?;
            left = rest;
        }
        gx.note_valid();
        af.note_valid();
        Ok(State {
            alloc,
            gx,
            af,
            clock,
        })
    }

    /// The greatest counter of the operations that were taken, 0 at first.
    #[tactic(auto, using(crate::proofs::FormedLaws::clock_low))]
    pub fn clock(&self) -> u64
        ensures clock { result ≡ self.now.clock }
        ensures bounded { result ≤ last_counter }
    {
        self.clock
    }

    /// The record of a gateway's session, if a fact of it is known.
    pub fn gx(&self, id: &GxSid) -> Option<&GxRec>
        ensures { record_facts (option_copied result) ≡ facts_on self.now.facts (gx id.now) }
    {
        self.gx.note_valid();
        self.gx.get(id)
    }

    /// The record of an application function's session, if a fact of it is known.
    pub fn af(&self, id: &AfSid) -> Option<&AfRec>
        ensures { record_facts (option_copied result) ≡ facts_on self.now.facts (af id.now) }
    {
        self.af.note_valid();
        self.af.get(id)
    }

    /// All records of gateways' sessions, in the order of their Session-Ids.
    pub fn all_gx(&self) -> Entries<'_, GxSid, GxRec>
        ensures ascending { IsAscending text_cmp result }
        ensures facts { (id : List ℕ) → record_facts (value_at text_cmp result id)
            ≡ facts_on self.now.facts (gx id) }
    {
        self.gx.note_valid();
        self.gx.iter()
    }

    /// All records of application functions' sessions, in the order of their Session-Ids.
    pub fn all_af(&self) -> Entries<'_, AfSid, AfRec>
        ensures ascending { IsAscending text_cmp result }
        ensures facts { (id : List ℕ) → record_facts (value_at text_cmp result id)
            ≡ facts_on self.now.facts (af id) }
    {
        self.af.note_valid();
        self.af.iter()
    }

    /// Does nothing: its contract tells a proof that no fact that is held overshadows another.
    pub fn note_kept(&self)
        ensures { kept_of self.now ≡ self.now }
    {
        self.gx.note_valid();
        self.af.note_valid();
    }

    /// Does nothing: its contract tells a proof that what is held has the form of what operations make.
    pub fn note_form(&self)
        ensures { is_holding self.now ≡ true }
    {
        let _ = &self.clock;
    }

    /// Does nothing: its contract tells a proof that of each session stands what a state with that clock may hold.
    #[tactic(auto, using(crate::proofs::FormedGroups::held_formed))]
    pub fn note_groups(&self)
        ensures { are_groups self.now.clock (groups_of_facts self.now.facts) ≡ true }
    {
        self.note_kept();
        self.note_form();
    }

    /// Does nothing: its contract tells a proof that what gateways were told has tags up to the clock.
    #[tactic(auto, using(pcrf_model::proofs::ToldTagLaws::told_holding))]
    pub fn note_told(&self)
        ensures { ToldUpTo self.now.clock self.now.facts }
    {
        let _ = &self.clock;
    }

    /// An equal state.
    pub fn try_copy(&self) -> Result<State, AllocError>
        ensures { IfOk result (λ r. r ≡ self.now) }
    {
        let gx = self.gx.try_copy()?;
        let af = self.af.try_copy()?;
        Ok(State {
            alloc: self.alloc,
            gx,
            af,
            clock: self.clock,
        })
    }

    /// Both hold the same facts, and their clocks are equal. It takes no memory.
    pub fn equal(&self, other: &State) -> bool
        ensures { IsTrue result ↔ (self.now ≡ other.now) }
    {
        self.gx.note_valid();
        self.af.note_valid();
        other.gx.note_valid();
        other.af.note_valid();
        self.clock == other.clock
            && same_facts(&self.gx, &other.gx)
            && same_facts(&self.af, &other.af)
    }

    /// What is kept of both states; a refusal gives both back.
    pub fn merge(self, other: State) -> Result<State, (AllocError, State, State)>
        ensures merged { IfOk result (λ r. r ≡ kept_of (union self other)) }
        ensures ours_back { IfErr result (λ e. e.1 ≡ self) }
        ensures theirs_back { IfErr result (λ e. e.2 ≡ other) }
    {
        match self.merged_copy(&other) {
            Ok(both) => Ok(both),
            Err(refused) => Err((refused, self, other)),
        }
    }

    /// What is kept of both states, which stay as they are.
    pub fn merged_copy(&self, other: &State) -> Result<State, AllocError>
        ensures { IfOk result (λ r. r ≡ kept_of (union self.now other.now)) }
    {
        self.gx.note_valid();
        self.af.note_valid();
        other.gx.note_valid();
        other.af.note_valid();
        let gx = self.gx.joined_copy(&other.gx)?;
        let af = self.af.joined_copy(&other.af)?;
        Ok(State {
            alloc: self.alloc,
            gx,
            af,
            clock: self.clock.max(other.clock),
        })
    }

    /// Puts a record, or none, in the place of that of a gateway's session, sets the clock, which no tag's counter may then be
    /// above, and hands back the record that stood. Memory can be refused only where a record comes to a session that has none;
    /// nothing changes then.
    pub fn put_gx(
        &mut self,
        id: &GxSid,
        given: Option<GxRec>,
        clock: u64,
    ) -> Result<Option<GxRec>, AllocError>
        requires within { clock ≤ last_counter }
        requires counted { are_up_to clock
            (with_facts_of self.old (gx id.now) (record_facts given) clock).facts ≡ true }
        ensures stood { IfOk result (λ stood.
            record_facts stood ≡ facts_on self.old.facts (gx id.now)) }
        ensures placed { OnOk result
            (self.new ≡ with_facts_of self.old (gx id.now) (record_facts given) clock) }
        ensures unchanged { OnErr result (self.new ≡ self.old) }
        ensures refused_record { OnErr result (IsSome given) }
        ensures refused_new { OnErr result (facts_on self.old.facts (gx id.now) ≡ []) }
    {
        note_text(id.id());
        note_gx(&given);
        self.gx.note_valid();
        let stood = self.gx.place_at(id, given)?;
        self.gx.note_valid();
        self.clock = clock;
        Ok(stood)
    }

    /// Puts a record, or none, in the place of that of an application function's session, as `put_gx` does.
    pub fn put_af(
        &mut self,
        id: &AfSid,
        given: Option<AfRec>,
        clock: u64,
    ) -> Result<Option<AfRec>, AllocError>
        requires within { clock ≤ last_counter }
        requires counted { are_up_to clock
            (with_facts_of self.old (af id.now) (record_facts given) clock).facts ≡ true }
        ensures stood { IfOk result (λ stood.
            record_facts stood ≡ facts_on self.old.facts (af id.now)) }
        ensures placed { OnOk result
            (self.new ≡ with_facts_of self.old (af id.now) (record_facts given) clock) }
        ensures unchanged { OnErr result (self.new ≡ self.old) }
        ensures refused_record { OnErr result (IsSome given) }
        ensures refused_new { OnErr result (facts_on self.old.facts (af id.now) ≡ []) }
    {
        note_text(id.id());
        note_af(&given);
        self.af.note_valid();
        let stood = self.af.place_at(id, given)?;
        self.af.note_valid();
        self.clock = clock;
        Ok(stood)
    }

    /// Takes an operation, wherever it was made, once or again; a refusal changes nothing.
    pub fn take(&mut self, operation: &Operation) -> Result<(), AllocError>
        ensures ok { OnOk result (self.new ≡ kept_of (with_operation self.old operation.now)) }
        ensures err { OnErr result (self.new ≡ self.old) }
    {
        self.gx.note_valid();
        self.af.note_valid();
        operation.note_form();
        join_facts(self.alloc, &mut self.gx, &mut self.af, operation.facts())?;
        self.clock = self.clock.max(operation.counter());
        Ok(())
    }
}

/// Does nothing: its contract tells a proof that a record has facts of a gateway's session, if there is one.
fn note_gx(given: &Option<GxRec>)
    ensures { list_all (is_recorded Gx) (record_facts given.now) ≡ true }
{
    if let Some(record) = given {
        record.note_known();
    }
}

/// Does nothing: its contract tells a proof that a record has facts of an application function's session, if there is one.
fn note_af(given: &Option<AfRec>)
    ensures { list_all (is_recorded Af) (record_facts given.now) ≡ true }
{
    if let Some(record) = given {
        record.note_known();
    }
}

/// Joins facts into the record of their session.
fn join_facts(
    alloc: Global,
    gx: &mut JoinTree<GxSid, GxRec>,
    af: &mut JoinTree<AfSid, AfRec>,
    facts: &SessionFacts,
) -> Result<(), AllocError>
    requires { is_record (session_of facts.now).kind (facts_in facts.now) ≡ true }
    ensures gx { OnOk result (gx.new ≡ gx_with gx.old facts.now) }
    ensures af { OnOk result (af.new ≡ af_with af.old facts.now) }
    ensures gx_unchanged { OnErr result (gx.new ≡ gx.old) }
    ensures af_unchanged { OnErr result (af.new ≡ af.old) }
{
    match facts {
        SessionFacts::Gx(id, facts) => {
            let record = GxRec::of_facts(alloc, facts.as_slice())?;
            gx.join_under(id, record)
        }
        SessionFacts::Af(id, facts) => {
            let record = AfRec::of_facts(alloc, facts.as_slice())?;
            af.join_under(id, record)
        }
    }
}
