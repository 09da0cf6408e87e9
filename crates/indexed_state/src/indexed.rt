//! A state with its index: an index that is made whole, and what is read of the state as it stands.
ghost use Rattle.std.specs.Prelude.{◌≡◌, true, OnOk, ℕ, ◌==◌, List, [], ◌<◌, ◌≤◌, Some, None, false, not, ◌||◌, IfOk, IfSome, IsSome, OnErr, map, option_map};
ghost use Rattle.pcrf_model.specs.Views.{view, View};
ghost use Rattle.bind_index.specs.Index.{Covers, Grows};
ghost use Rattle.std.specs.Option.{option_copied};
ghost use Rattle.bind_index.specs.Asking.{with_record};
ghost use Rattle.bind_index.specs.Listings.{sessions_of};
ghost use Rattle.pcrf_model.specs.ReplyViews.{push_view};
ghost use Rattle.pcrf_model.specs.Bindings.{bind};
ghost use Rattle.pcrf_model.specs.Differences.{rule_name_of};
ghost use Rattle.pcrf_model.specs.Forms.{are_up_to, is_holding};
ghost use Rattle.pcrf_model.specs.Holdings.{facts_on, kept_of, nothing_held, with_facts_of, union};
ghost use Rattle.pcrf_values.specs.Limits.{last_counter};
ghost use Rattle.pcrf_model.specs.SiteOverviews.{bindings_of};
ghost use Rattle.pcrf_model.specs.Operations.{with_operation};
ghost use Rattle.pcrf_model.specs.Pushing.{due_session};
ghost use Rattle.pcrf_model.specs.Rules.{rules};
ghost use Rattle.pcrf_model.specs.Sessions.{gx, af};
ghost use Rattle.pcrf_model.specs.Tables.{Tables as TablesValue};
ghost use Rattle.pcrf_values.specs.Sets.{Distinct};
ghost use Rattle.rule_delta.specs.Pushed.{push_of, untold_difference};
ghost use Rattle.site_join.specs.States.{record_facts};
ghost use Rattle.rule_delta.specs.Waits.{DueWait, is_waiting};
ghost use Rattle.rule_delta.specs.Abandoned.{AbandonedWait};
ghost use Rattle.pcrf_model.specs.ToldTags.{ToldUpTo};

use crate::aborting::wait_calls;
use crate::binding::{bindings, bindings_by};
use crate::following::follow;
use crate::forgetting::{forget_given, forget_moved, subscribers_before};
use crate::reached::reached_by;
use crate::unsettling::{unsettle, wait_unlisted};
use af_records::AfRec;
use bind_index::{Index, bind, bind_by, sessions_of};
use gx_records::GxRec;
use op_tables::Tables;
use pcc_rules::{Rules, derive, derive_by};
use pcrf_model::PushOut;
use pcrf_values::{AfSid, Delta, DiameterIdentity, GxSid, HashSeed, Rule, Subscriber};
use rule_delta::{Waiting, WaitingCalls, gather, next_push, next_waiting, untold_difference_by};
use site_join::{Operation, State};
use std::alloc::{AllocError, Global};
use std::marker::Model;

/// Has the index cover the state, where it isn't whole; a refusal leaves what was listed so far. Its time grows with the
/// number of sessions where the index isn't whole.
pub(crate) fn make_whole(
    state: &State,
    index: &mut Index,
    is_whole: &mut bool,
) -> Result<(), AllocError>
    ensures grows { Grows index.old index.new }
    ensures whole { OnOk result (is_whole.new ≡ true) }
    ensures covers { (is_whole.old ≡ true → Covers (view state.now.facts) index.old)
        → is_whole.new ≡ true → Covers (view state.now.facts) index.new }
{
    if *is_whole {
        return Ok(());
    }
    index.cover_state(state)?;
    *is_whole = true;
    Ok(())
}

/// What a site holds, with the operator tables, by which it is told what rules are. Beside it, unseen, an index of the sessions
/// that are held, lists of rules that are kept until they may have changed, and the sessions that wait to be looked at for a
/// push.
#[derive(Drop)]
pub struct IndexedState {
    pub(crate) alloc: Global,
    pub(crate) tables: Tables,
    pub(crate) state: State,
    pub(crate) index: Index,
    /// The index covers the state.
    pub(crate) is_whole: bool,
    pub(crate) rules: Rules,
    pub(crate) waiting: Waiting,
    /// The calls that wait to be looked at for an abort.
    pub(crate) aborts: WaitingCalls,
    /// The number of the site at which those that wait may be due, or abandoned.
    pub(crate) site: u8,
}

impl Model for IndexedState {
    ghost use Rattle.indexed_state.specs.Indexed.{Agree, IndexedValue};

    ghost Value = { IndexedValue };

    ghost view = { λ s. record {
      tables = s.tables;
      holding = s.state;
    } };

    ghost invariant = { λ s. Agree s.tables s.site s.state s.is_whole
        s.index s.rules s.waiting s.aborts };
}

impl IndexedState {
    ghost use Rattle.indexed_state.specs.Indexed.{with_holding};

    /// Nothing is held. Hashes of Session-Ids begin with a seed that anybody knows.
    pub fn start(alloc: Global, tables: Tables) -> IndexedState
        ensures tables { result.tables ≡ tables }
        ensures holding { result.holding ≡ nothing_held }
    {
        IndexedState::seeded(alloc, tables, HashSeed::of(0))
    }

    /// Nothing is held. Hashes of Session-Ids begin with this seed.
    pub fn seeded(alloc: Global, tables: Tables, seed: HashSeed) -> IndexedState
        ensures tables { result.tables ≡ tables }
        ensures holding { result.holding ≡ nothing_held }
    {
        IndexedState {
            alloc,
            tables,
            state: State::seeded(alloc, seed),
            index: Index::seeded(alloc, seed),
            is_whole: true,
            rules: Rules::seeded(alloc, seed),
            waiting: Waiting::seeded(alloc, seed),
            aborts: WaitingCalls::seeded(alloc, seed),
            site: 0,
        }
    }

    /// What hashes of Session-Ids begin with here.
    pub fn seed(&self) -> HashSeed {
        self.rules.seed()
    }

    /// The operator tables.
    pub fn tables(&self) -> &Tables
        ensures { result.now ≡ self.now.tables }
    {
        &self.tables
    }

    /// What is held.
    pub fn state(&self) -> &State
        ensures { result.now ≡ self.now.holding }
    {
        &self.state
    }

    /// Forgets all that is held.
    pub fn clear(&mut self)
        ensures { self.new ≡ with_holding self.old nothing_held }
    {
        let seed = self.rules.seed();
        self.state = State::seeded(self.alloc, seed);
        self.index = Index::seeded(self.alloc, seed);
        self.is_whole = true;
        self.rules.touch_all();
        self.waiting = Waiting::seeded(self.alloc, seed);
        self.aborts = WaitingCalls::seeded(self.alloc, seed);
    }

    /// Takes an operation, wherever it was made, once or again; a refusal changes nothing. Its time grows with the number of
    /// gateways' sessions that are listed under the addresses and the networks of the prefixes that the operation's session
    /// shows before and after, and where it shows a prefix of those whose prefix has fewer than 64 bits. If it is of a gateway
    /// and shows such a prefix, all rules are derived anew when they are next asked for, and all sessions wait.
    pub fn take(&mut self, operation: &Operation) -> Result<(), AllocError>
        ensures ok { OnOk result (self.new ≡ with_holding self.old
            (kept_of (with_operation self.old.holding operation.now))) }
        ensures err { OnErr result (self.new ≡ self.old) }
    {
        make_whole(&self.state, &mut self.index, &mut self.is_whole)?;
        self.index.cover(operation)?;
        let facts = operation.facts();
        let before = reached_by(&self.state, facts);
        let shown = subscribers_before(self.alloc, &self.state, facts)?;
        self.state.note_kept();
        self.state.take(operation)?;
        let after = reached_by(&self.state, facts);
        wait_unlisted(&self.state, &mut self.waiting, facts, after.address);
        unsettle(
            self.alloc,
            &self.state,
            &self.index,
            &mut self.rules,
            &mut self.waiting,
            facts,
            &before,
            &after,
        );
        wait_calls(
            self.alloc,
            &self.state,
            &self.index,
            &mut self.aborts,
            facts,
            &before,
        );
        forget_moved(&mut self.index, facts, &before, &after);
        forget_given(&mut self.index, &self.state, facts, shown.as_slice());
        Ok(())
    }

    /// Takes all that another state holds; a refusal changes nothing. Its time grows with the number of sessions of both.
    pub fn take_state(&mut self, state: &State) -> Result<(), AllocError>
        ensures ok { OnOk result (self.new ≡ with_holding self.old
            (kept_of (union self.old.holding state.now))) }
        ensures err { OnErr result (self.new ≡ self.old) }
    {
        let merged = self.state.merged_copy(state)?;
        let seed = self.rules.seed();
        self.index = index_of(self.alloc, seed, &merged)?;
        self.state = merged;
        self.is_whole = true;
        self.rules.touch_all();
        self.waiting = Waiting::seeded(self.alloc, seed);
        self.aborts = WaitingCalls::seeded(self.alloc, seed);
        Ok(())
    }

    /// Puts a record, or none, in the place of that of a gateway's session, as the state's own `put_gx` does, in the time that
    /// taking an operation on the session takes.
    pub fn put_gx(
        &mut self,
        id: &GxSid,
        given: Option<GxRec>,
        clock: u64,
    ) -> Result<Option<GxRec>, AllocError>
        requires within { clock ≤ last_counter }
        requires counted { are_up_to clock
            (with_facts_of self.old.holding (gx id.now) (record_facts given) clock).facts ≡ true }
        ensures stood { IfOk result (λ stood.
            record_facts stood ≡ facts_on self.old.holding.facts (gx id.now)) }
        ensures placed { OnOk result (self.new ≡ with_holding self.old
            (with_facts_of self.old.holding (gx id.now) (record_facts given) clock)) }
        ensures unchanged { OnErr result (self.new ≡ self.old) }
        ensures refused_record { OnErr result (IsSome given) }
        ensures refused_new { OnErr result (facts_on self.old.holding.facts (gx id.now) ≡ []) }
    {
        let stood = self.state.put_gx(id, given, clock)?;
        follow(
            self.alloc,
            &self.state,
            &mut self.index,
            &mut self.is_whole,
            &mut self.rules,
            &mut self.waiting,
            &mut self.aborts,
            id,
            &stood,
        );
        Ok(stood)
    }

    /// The gateway's session to which an application function's session is bound, `None` where it is bound to none (TS 29.213,
    /// 5.2). Its time grows with the number of gateways' sessions that are listed under its address, or where it shows a prefix
    /// alone of those whose prefix is of its network or has fewer than 64 bits.
    pub fn bind(&self, session: &AfSid) -> Option<&GxSid>
        ensures { option_map gx (option_copied result)
            ≡ bind (view self.now.holding.facts) (af session.now) }
    {
        if self.is_whole {
            return self.index.bind(&self.state, session);
        }
        bind(&self.state, session)
    }

    /// The gateway's session to which an application function's session would be bound, were this its record.
    pub fn bind_by(&self, asking: &AfRec) -> Option<&GxSid>
        ensures { (a : List ℕ) → option_map gx (option_copied result)
            ≡ bind (view (with_record self.now.holding (af a) asking.now).facts) (af a) }
    {
        if self.is_whole {
            return self.index.bind_by(&self.state, asking);
        }
        bind_by(&self.state, asking)
    }

    /// The PCC rules of a gateway's session, by precedence and then by name, and no two of one name (TS 23.203, 6.3.1).
    pub fn rules_of(&self, session: &GxSid) -> Result<Vec<Rule>, AllocError>
        ensures rules { IfOk result (λ made. made.items
            ≡ rules self.now.tables (view self.now.holding.facts) (gx session.now)) }
        ensures apart { IfOk result (λ made. Distinct (map rule_name_of made.items)) }
    {
        if self.is_whole {
            return derive_by(self.alloc, &self.tables, &self.state, &self.index, session);
        }
        derive(self.alloc, &self.tables, &self.state, session)
    }

    /// The live sessions of application functions in the order of their Session-Ids, each with the Session-Id of the gateway's
    /// session to which it is bound, or none (TS 29.213, 5.2).
    pub fn bindings(&self) -> Result<Vec<(AfSid, Option<GxSid>)>, AllocError>
        ensures { IfOk result (λ found.
            found.items ≡ bindings_of (view self.now.holding.facts)) }
    {
        if self.is_whole {
            return bindings_by(self.alloc, &self.state, &self.index);
        }
        bindings(self.alloc, &self.state)
    }

    /// The live sessions of gateways that have the subscriber, in the order of their Session-Ids. Its time grows with the number
    /// of those.
    pub fn sessions_of(&self, subscriber: &Subscriber) -> Result<Vec<GxSid>, AllocError>
        ensures { IfOk result (λ ids. ids.items
            ≡ sessions_of (view self.now.holding.facts) subscriber.now) }
    {
        if self.is_whole {
            return self.index.sessions_of(self.alloc, &self.state, subscriber);
        }
        sessions_of(self.alloc, &self.state, subscriber)
    }

    /// What the gateway of a session is still to be told (TS 29.212, 4.5.2).
    pub fn untold_difference(&mut self, session: &GxSid) -> Result<Delta, AllocError>
        ensures difference { IfOk result (λ delta. delta
            ≡ untold_difference self.old.tables (view self.old.holding.facts) (gx session.now)) }
        ensures names { OnOk result (Distinct (map rule_name_of
            (rules self.old.tables (view self.old.holding.facts) (gx session.now)))) }
        ensures same { self.new ≡ self.old }
    {
        make_whole(&self.state, &mut self.index, &mut self.is_whole)?;
        untold_difference_by(
            self.alloc,
            &self.tables,
            &self.state,
            &self.index,
            &mut self.rules,
            session,
        )
    }

    /// The push that is due at a site for a host, any where none is given; `None` where no session is due (TS 29.212, 4.5.2).
    /// For a host it looks at sessions alone that wait under it.
    pub fn next_push(
        &mut self,
        site: u8,
        host: Option<&[u8]>,
    ) -> Result<Option<PushOut>, AllocError>
        ensures push { IfOk result (λ push. option_map push_view push
            ≡ option_map (push_of self.old.tables (view self.old.holding.facts))
            (due_session self.old.tables site (view self.old.holding.facts)
            (option_copied host.entry))) }
        ensures names { IfOk result (λ push. IfSome push (λ p. Distinct (map rule_name_of
            (rules self.old.tables (view self.old.holding.facts) (gx p.session))))) }
        ensures same { self.new ≡ self.old }
    {
        if let Some(name) = name_of(self.alloc, host)? {
            return self.push_waiting(site, &name);
        }
        next_push(self.alloc, &self.tables, &self.state, site, host)
    }

    /// Whether a push may be due at a site for a host: a session waits under it, or all wait. Where none does nothing is due. It
    /// is a look-up alone, and derives no rules.
    #[tactic(auto, using(rule_delta::proofs::FirstDue::nobody_due))]
    pub fn is_waiting(&self, site: u8, host: &DiameterIdentity) -> bool
        ensures { result ≡ false → due_session self.now.tables site
            (view self.now.holding.facts) (Some host.now) ≡ None }
    {
        waits_at(self.site, &self.waiting, site, host)
    }

    /// The push that is due at a site for this host.
    fn push_waiting(
        &mut self,
        site: u8,
        host: &DiameterIdentity,
    ) -> Result<Option<PushOut>, AllocError>
        ensures push { IfOk result (λ push. option_map push_view push
            ≡ option_map (push_of self.old.tables (view self.old.holding.facts))
            (due_session self.old.tables site (view self.old.holding.facts) (Some host.now))) }
        ensures names { IfOk result (λ push. IfSome push (λ p. Distinct (map rule_name_of
            (rules self.old.tables (view self.old.holding.facts) (gx p.session))))) }
        ensures same { self.new ≡ self.old }
    {
        make_whole(&self.state, &mut self.index, &mut self.is_whole)?;
        wait_for(
            self.alloc,
            &mut self.waiting,
            &mut self.aborts,
            &mut self.site,
            site,
        );
        gather(self.alloc, &self.state, &mut self.waiting)?;
        next_waiting(
            self.alloc,
            &self.tables,
            &self.state,
            &self.index,
            &mut self.rules,
            &mut self.waiting,
            self.site,
            host,
        )
    }
}

/// An index of what a state shows, and of nothing else.
fn index_of(alloc: Global, seed: HashSeed, state: &State) -> Result<Index, AllocError>
    ensures { IfOk result (λ index. Covers (view state.now.facts) index) }
{
    let mut index = Index::seeded(alloc, seed);
    index.cover_state(state)?;
    Ok(index)
}

/// Has those wait that may be due or abandoned at a site: all, where those that wait may be so at another.
pub(crate) fn wait_for(
    alloc: Global,
    waiting: &mut Waiting,
    aborts: &mut WaitingCalls,
    of: &mut u8,
    site: u8,
)
    ensures of { of.new ≡ site }
    ensures due { (t : TablesValue) (v : View) → DueWait t of.old v waiting.old
        → DueWait t site v waiting.new }
    ensures abandoned { (v : View) → AbandonedWait of.old v aborts.old
        → AbandonedWait site v aborts.new }
{
    if *of == site {
        return;
    }
    *of = site;
    *waiting = Waiting::seeded(alloc, waiting.seed());
    *aborts = WaitingCalls::seeded(alloc, aborts.seed());
}

/// Whether one waits at a site for a host, where those that wait may be due at this one: all do where it is another.
fn waits_at(of: u8, waiting: &Waiting, site: u8, host: &DiameterIdentity) -> bool
    ensures { result ≡ (not (of == site) || is_waiting waiting.now host.now) }
{
    of != site || waiting.is_waiting(host)
}

/// The host that is given, as a name under which sessions wait: none where none is given, or no name has these bytes.
pub(crate) fn name_of(
    alloc: Global,
    host: Option<&[u8]>,
) -> Result<Option<DiameterIdentity>, AllocError>
    ensures { IfOk result (λ name. IfSome name (λ n. option_copied host.entry ≡ Some n)) }
{
    let Some(bytes) = host else {
        return Ok(None);
    };
    DiameterIdentity::read(alloc, bytes)
}

impl IndexedState {
    /// The greatest counter of the operations that were taken, 0 at first.
    pub fn clock(&self) -> u64
        ensures clock { result ≡ self.now.holding.clock }
        ensures bounded { result ≤ last_counter }
    {
        self.state.clock()
    }

    /// The index of the sessions, where it covers what is held.
    pub fn index(&self) -> Option<&Index>
        ensures { IfSome result (λ index. Covers (view self.now.holding.facts) index.now) }
    {
        if !self.is_whole {
            return None;
        }
        Some(&self.index)
    }

    /// The record of a gateway's session, if a fact of it is known.
    pub fn gx(&self, id: &GxSid) -> Option<&GxRec>
        ensures { record_facts (option_copied result)
            ≡ facts_on self.now.holding.facts (gx id.now) }
    {
        self.state.gx(id)
    }

    /// The record of an application function's session, if a fact of it is known.
    pub fn af(&self, id: &AfSid) -> Option<&AfRec>
        ensures { record_facts (option_copied result)
            ≡ facts_on self.now.holding.facts (af id.now) }
    {
        self.state.af(id)
    }

    /// Does nothing: its contract tells a proof that no fact that is held overshadows another.
    pub fn note_kept(&self)
        ensures { kept_of self.now.holding ≡ self.now.holding }
    {
        self.state.note_kept();
    }

    /// Does nothing: its contract tells a proof that what is held has the form of what operations make.
    pub fn note_form(&self)
        ensures { is_holding self.now.holding ≡ true }
    {
        self.state.note_form();
    }

    /// Does nothing: its contract tells a proof that what gateways were told has tags up to the clock.
    pub fn note_told(&self)
        ensures { ToldUpTo self.now.holding.clock self.now.holding.facts }
    {
        self.state.note_told();
    }
}
