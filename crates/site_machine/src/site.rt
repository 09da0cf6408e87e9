//! One site: what it holds, and the operations that it made itself.
ghost use Rattle.std.specs.Prelude.{◌≡◌, ◌≢◌, ◌<◌, ◌≤◌, ◌+◌, ◌++◌, [], ◌∷◌, None, Some, false, true, length, map, take, if◌then◌else◌, IfOk, OnOk, OnErr, IfErr, IfSome, option_map};
ghost use Rattle.std.specs.Option.{option_copied};
ghost use Rattle.pcrf_values.specs.Sets.{Distinct};
ghost use Rattle.pcrf_values.specs.Results.{unable_to_comply};
ghost use Rattle.pcrf_values.specs.declared.numbers.RequestKind.TheVariants.{Termination};
ghost use Rattle.pcrf_values.specs.Held.{kept_list, join_of};
ghost use Rattle.pcrf_values.specs.Limits.{delta_limit, last_counter, site_limit};
ghost use Rattle.pcrf_model.specs.Holdings.{facts_on, kept_of, with_facts_of};
ghost use Rattle.pcrf_model.specs.Pushing.{due_session, lacks_counter};
ghost use Rattle.pcrf_model.specs.Replies.{OnGx, Granted, Pushed};
ghost use Rattle.pcrf_model.specs.Serving.{delta_of, empty_delta, provision_outcome, serve_base};
ghost use Rattle.pcrf_model.specs.Sessions.{Gx, gx};
ghost use Rattle.pcrf_model.specs.Steps.{own_from};
ghost use Rattle.pcrf_model.specs.Views.{view};
ghost use Rattle.pcrf_model.specs.Rules.{quality_of, rules};
ghost use Rattle.pcrf_model.specs.Differences.{rule_name_of};
ghost use Rattle.pcrf_model.specs.SiteOverviews.{bindings_of, site_overview};
ghost use Rattle.indexed_state.specs.Shown.{value_view};
ghost use Rattle.pcrf_model.specs.Refusals.{is_clock_full, ccr_refusal};
ghost use Rattle.pcrf_model.specs.ToldTags.{ToldUpTo};
ghost use Rattle.pcrf_model.specs.Forms.{are_up_to, is_holding, is_operation, is_record};
ghost use Rattle.pcrf_model.specs.Operations.{with_operation};
ghost use Rattle.pcrf_values.specs.FlowWords.{or_else};
ghost use Rattle.pcrf_model.specs.ReplyViews.{push_view};
ghost use Rattle.rule_delta.specs.Pushed.{push_of, untold_difference};
ghost use Rattle.gx_records.specs.GxFacts.{fact_of};
ghost use Rattle.gx_profile.specs.Requests.{ccr_view};
ghost use Rattle.dia_base.specs.NeighbourRequests.{base_view};
ghost use Rattle.site_join.specs.States.{record_facts};
ghost use Rattle.site_machine.specs.Replies.{gx_reply_value, is_plain};
ghost use Rattle.site_machine.specs.Values.{reply_value, request_value};

use crate::event::Reply;
use crate::facts::{ended_gateway, facts_made, note_ccr, note_entries, put_told};
use crate::fault::StepFault;
use crate::granting::quality_by;
use crate::refusals::{has_ended, is_live, lacks, row_refusal};
use crate::request::Request;
use crate::witness::{Witness, shown, shown_plain, shown_to_gateway};
use dia_base::codes::results::{INITIAL_PARAMETERS, SUCCESS, UNABLE_TO_COMPLY, UNKNOWN_SESSION_ID};
use dia_base::{BaseRequest, Identity, base_refusal};
use gx_profile::Ccr;
use gx_records::{GxFact, GxRec};
use indexed_state::{IndexedState, SiteOverview, Tables, value};
use lattice_core::Join;
use pcrf_model::ranges::note_text;
use pcrf_model::{FirstEntries, GxReply, PushOut};
use pcrf_values::limits::{LAST_COUNTER, RANGE_LIMIT};
use pcrf_values::{
    AfSid, DefaultQuality, Delta, GxSid, HashSeed, Ranked, Refusal, RequestKind, Rule, Tag,
};
use site_join::{Operation, SessionFacts, State};
use std::alloc::{AllocError, Global};
use std::marker::Model;

/// A site: the operator tables that it decides by, the names that it answers under, its number, what it holds, and the
/// operations that it made itself since it began, in order.
#[derive(Drop)]
pub struct Site {
    pub(crate) alloc: Global,
    identity: Identity,
    pub(crate) number: u8,
    pub(crate) held: IndexedState,
    pub(crate) log: Vec<Operation>,
}

impl Model for Site {
    ghost use Rattle.std.specs.Prelude.{◌<◌, ◌≤◌, length};
    ghost use Rattle.pcrf_values.specs.Limits.{site_limit};
    ghost use Rattle.site_machine.specs.Sites.{SiteValue};

    ghost Value = { SiteValue };

    ghost view = { λ s. record {
      tables = s.held.tables;
      identity = s.identity;
      number = s.number;
      state = record { holding = s.held.holding; log = s.log.items };
    } };

    ghost invariant = { λ s. (s.number < site_limit)
        × (length s.log.items ≤ s.held.holding.clock) };
}

impl Site {
    ghost use Rattle.site_machine.specs.Told.{facts_told};
    ghost use Rattle.site_machine.specs.Facts.{fields_of, opens, operation_made, operation_pushed, operation_told, operation_with};
    ghost use Rattle.site_machine.specs.Left.{LacksTheRest, fields_added, granted_opening, granted_request};
    ghost use Rattle.site_machine.specs.Replies.{told_reply};
    ghost use Rattle.site_machine.specs.Sites.{new_site, ccr_served, emptied_site, push_outcome_at, serve_outcome, with_made, with_one, with_record, with_state, with_taken};

    /// A site that took nothing. Hashes of Session-Ids begin with a seed that anybody knows: one that peers talk to is `seeded`.
    pub fn start(alloc: Global, tables: Tables, identity: Identity, number: u8) -> Site
        requires { number < site_limit }
        ensures { result ≡ new_site tables identity number }
    {
        Site::seeded(alloc, tables, identity, number, HashSeed::of(0))
    }

    /// A site that took nothing. Hashes of Session-Ids begin with this seed.
    pub fn seeded(
        alloc: Global,
        tables: Tables,
        identity: Identity,
        number: u8,
        seed: HashSeed,
    ) -> Site
        requires { number < site_limit }
        ensures { result ≡ new_site tables identity number }
    {
        Site {
            alloc,
            identity,
            number,
            held: IndexedState::seeded(alloc, tables, seed),
            log: Vec::new(alloc),
        }
    }

    /// What hashes of Session-Ids begin with at this site.
    pub fn seed(&self) -> HashSeed {
        self.held.seed()
    }

    /// The number of the site.
    pub fn number(&self) -> u8
        ensures number { result ≡ self.now.number }
        ensures within { result < site_limit }
    {
        self.number
    }

    /// The operator tables that the site decides by.
    pub fn tables(&self) -> &Tables
        ensures { result.now ≡ self.now.tables }
    {
        self.held.tables()
    }

    /// The names that the site answers under.
    pub fn identity(&self) -> &Identity
        ensures { result.now ≡ self.now.identity }
    {
        &self.identity
    }

    /// What the site holds: each session of which it knows a fact.
    pub fn sessions(&self) -> &State
        ensures { result.now ≡ self.now.state.holding }
    {
        self.held.state()
    }

    /// Each live session of an application function with the gateway's session to which it is bound, if it is bound, in the
    /// order of their Session-Ids (TS 29.213, 5.2).
    pub fn bindings(&self) -> Result<Vec<(AfSid, Option<GxSid>)>, AllocError>
        ensures { IfOk result (λ found.
            found.items ≡ bindings_of (view self.now.state.holding.facts)) }
    {
        self.held.bindings()
    }

    /// The PCC rules of a gateway's session, by precedence and name, and no two of one name; none where it isn't live (TS 23.203,
    /// 6.3.1).
    pub fn rules_of(&self, session: &GxSid) -> Result<Vec<Rule>, AllocError>
        ensures rules { IfOk result (λ made. made.items
            ≡ rules self.now.tables (view self.now.state.holding.facts) (gx session.now)) }
        ensures apart { IfOk result (λ made. Distinct (map rule_name_of made.items)) }
    {
        self.held.rules_of(session)
    }

    /// All that an operator sees of the site.
    pub fn value(&self) -> Result<SiteOverview, AllocError>
        ensures { IfOk result (λ value.
            value_view value ≡ site_overview self.now.tables self.now.state.holding) }
    {
        value(self.alloc, self.held.tables(), self.held.state())
    }

    /// The operations that the site made itself from a position on, the first 100 if there are more, and how many it made since
    /// it last began.
    pub fn own_since(&self, from: u64) -> Result<(Vec<Operation>, u64), AllocError>
        ensures operations { IfOk result (λ r. r.0.items ≡ own_from self.now.state.log from) }
        ensures length { IfOk result (λ r. r.1 ≡ length self.now.state.log) }
    {
        let copies = copy_all(self.alloc, part_from(self.log.as_slice(), from))?;
        Ok((copies, self.log.len() as u64))
    }

    /// All operations that the site made itself since it last began, in order.
    pub fn log_copy(&self) -> Result<Vec<Operation>, AllocError>
        ensures { IfOk result (λ copies. copies.items ≡ self.now.state.log) }
    {
        copy_all(self.alloc, self.log.as_slice())
    }

    /// How many operations the site made itself since it last began.
    pub fn logged(&self) -> u64
        ensures { result ≡ length self.now.state.log }
    {
        self.log.len() as u64
    }

    /// A copy of all that the site holds, and how many operations it made itself since it last began.
    pub fn whole(&self) -> Result<(State, u64), AllocError>
        ensures state { IfOk result (λ r. r.0 ≡ self.now.state.holding) }
        ensures kept { IfOk result (λ r. r.0 ≡ kept_of self.now.state.holding) }
        ensures length { IfOk result (λ r. r.1 ≡ length self.now.state.log) }
    {
        self.note_kept();
        let copy = self.held.state().try_copy()?;
        Ok((copy, self.log.len() as u64))
    }

    /// Takes all that another site holds, or changes nothing.
    pub fn take_state(&mut self, state: &State) -> Result<(), AllocError>
        ensures ok { OnOk result (self.new ≡ with_state self.old state.now) }
        ensures err { OnErr result (self.new ≡ self.old) }
    {
        self.held.take_state(state)
    }

    /// Serves a request. Where it grants an initial request or an update, the gateway lacks then just what the first 40 entries
    /// of the difference left. An error changes nothing.
    pub fn serve(&mut self, request: &Request) -> Result<Reply, AllocError>
        ensures reply { IfOk result (λ reply.
            reply_value reply ≡ (serve_outcome self.old (request_value request.now)).reply) }
        ensures ok { OnOk result (self.new
            ≡ with_made self.old (serve_outcome self.old (request_value request.now)).added) }
        ensures left { IfOk result (λ reply. IfSome (granted_request request.now reply) (λ q.
            LacksTheRest self.old (fields_added self.old q) self.new (gx q.session))) }
        ensures err { OnErr result (self.new ≡ self.old) }
    {
        self.serve_seen_by(request, &mut ())
    }

    /// Serves a request as `serve` does, and shows a witness the reply before anything is changed.
    pub(crate) fn serve_seen_by<W: Witness>(
        &mut self,
        request: &Request,
        witness: &mut W,
    ) -> Result<Reply, AllocError>
        ensures reply { IfOk result (λ reply.
            reply_value reply ≡ (serve_outcome self.old (request_value request.now)).reply) }
        ensures saw { IfOk result (λ reply. W.saw witness.new (reply_value reply)) }
        ensures ok { OnOk result (self.new
            ≡ with_made self.old (serve_outcome self.old (request_value request.now)).added) }
        ensures left { IfOk result (λ reply. IfSome (granted_request request.now reply) (λ q.
            LacksTheRest self.old (fields_added self.old q) self.new (gx q.session))) }
        ensures err { OnErr result (self.new ≡ self.old) }
    {
        match request {
            Request::Ccr(ccr) => Ok(Reply::Gx(self.serve_ccr(ccr, witness)?)),
            Request::Aar(aar) => Ok(shown_plain(self.serve_aar(aar)?, witness)),
            Request::Str(call) => Ok(shown_plain(self.serve_str(call)?, witness)),
            Request::Base(base) => Ok(shown_plain(reply_to_base(base), witness)),
        }
    }

    /// Serves a credit control request, and shows a witness the reply before anything is changed. An error changes nothing.
    fn serve_ccr<W: Witness>(&mut self, ccr: &Ccr, witness: &mut W) -> Result<GxReply, AllocError>
        ensures reply { IfOk result (λ reply. gx_reply_value reply
            ≡ (ccr_served self.old (ccr_view ccr.now)).reply) }
        ensures saw { IfOk result (λ reply. W.saw witness.new (gx_reply_value reply)) }
        ensures ok { OnOk result (self.new
            ≡ with_made self.old (ccr_served self.old (ccr_view ccr.now)).added) }
        ensures left { IfOk result (λ reply.
            IfSome (granted_opening (ccr_view ccr.now) reply) (λ q.
            LacksTheRest self.old (fields_added self.old q) self.new (gx q.session))) }
        ensures err { OnErr result (self.new ≡ self.old) }
    {
        if let Some(refusal) = self.standing_refusal(ccr) {
            return shown_to_gateway(GxReply::Refused(refusal), witness);
        }
        let Some(counter) = self.next_counter() else {
            return shown_to_gateway(GxReply::Refused(Refusal::base(UNABLE_TO_COMPLY)), witness);
        };
        match ccr.kind {
            RequestKind::Termination => self.close(ccr, counter, witness),
            RequestKind::Initial | RequestKind::Update => self.provision(ccr, counter, witness),
        }
    }

    /// Ends the session of an accepted request, or changes nothing.
    fn close<W: Witness>(
        &mut self,
        ccr: &Ccr,
        counter: u64,
        witness: &mut W,
    ) -> Result<GxReply, AllocError>
        requires within { counter ≤ last_counter }
        requires first { 1 ≤ counter }
        requires later { length self.old.state.log < counter }
        requires kind { ccr.now.kind ≡ Termination }
        ensures reply { IfOk result (λ reply.
            gx_reply_value reply ≡ OnGx (Granted empty_delta None)) }
        ensures saw { IfOk result (λ reply. W.saw witness.new (gx_reply_value reply)) }
        ensures ok { OnOk result (self.new ≡ with_made self.old (Some
            (operation_made self.old.number counter (ccr_view ccr.now) ccr.now.kind))) }
        ensures err { OnErr result (self.new ≡ self.old) }
    {
        let nothing = GxReply::Granted(FirstEntries::none(self.alloc), None);
        let reply = shown_to_gateway(nothing, witness)?;
        let operation = self.fields_made(ccr, counter)?;
        let ended = ended_gateway(self.alloc)?;
        self.add_to_gateway(operation, &ccr.session, ended)?;
        Ok(reply)
    }

    /// Sets the fields of an accepted request and tells the gateway what it lacks then, or changes nothing. Where the request
    /// brings nothing new, no record is made and no rules are derived. Where it opens a session to which no call can be bound, its
    /// rules are the operator's.
    fn provision<W: Witness>(
        &mut self,
        ccr: &Ccr,
        counter: u64,
        witness: &mut W,
    ) -> Result<GxReply, AllocError>
        requires within { counter ≤ last_counter }
        requires next { counter ≡ self.old.state.holding.clock + 1 }
        requires opens { opens ccr.now.kind ≡ true }
        requires alive { (view self.old.state.holding.facts).ended (gx ccr.now.session) ≡ false }
        ensures reply { IfOk result (λ reply. gx_reply_value reply ≡ (provision_outcome delta_limit
            self.old.tables self.old.number self.old.state.holding (ccr_view ccr.now)).reply) }
        ensures saw { IfOk result (λ reply. W.saw witness.new (gx_reply_value reply)) }
        ensures ok { OnOk result (self.new ≡ with_made self.old (provision_outcome delta_limit
            self.old.tables self.old.number self.old.state.holding (ccr_view ccr.now)).added) }
        ensures left { OnOk result (LacksTheRest self.old (fields_added self.old (ccr_view ccr.now))
            self.new (gx ccr.now.session)) }
        ensures err { OnErr result (self.new ≡ self.old) }
    {
        self.note_kept();
        self.note_told();
        self.note_form();
        let facts = facts_made(self.alloc, ccr, self.tag(ccr.number, counter))?;
        if let Some(known) = self.unchanged(ccr, facts.as_slice()) {
            let quality = quality_by(self.held.tables(), known);
            return self.refresh(ccr, counter, facts, quality, witness);
        }
        let known = self.fields_joined(ccr, counter, facts.as_slice())?;
        if let Some(rules) = self.rules_alone(ccr, &known)? {
            return self.grant(ccr, counter, facts, known, rules, witness);
        }
        let clock = self.held.clock();
        let stood = self.set_fields(ccr, counter, known)?;
        match self.tell(ccr, counter, facts, witness) {
            Ok(reply) => Ok(reply),
            Err(refused) => {
                self.put_back(&ccr.session, stood, clock);
                Err(refused)
            }
        }
    }

    /// The record of a session with what a request sets.
    pub(crate) fn with_fields(&self, session: &GxSid, made: GxRec) -> Result<GxRec, AllocError>
        ensures { IfOk result (λ both. both
            ≡ join_of (facts_on self.now.state.holding.facts (gx session.now)) made) }
    {
        made.note_valid();
        match self.held.gx(session) {
            Some(known) => known.joined_copy(&made),
            None => Ok(made),
        }
    }

    /// Puts the record that stood in its place, with the clock that was.
    fn put_back(&mut self, session: &GxSid, before: Option<GxRec>, clock: u64)
        requires within { clock ≤ last_counter }
        requires counted { length self.old.state.log ≤ clock }
        requires known { facts_on self.old.state.holding.facts (gx session.now) ≢ [] }
        requires back { are_up_to clock (with_facts_of self.old.state.holding
            (gx session.now) (record_facts before) clock).facts ≡ true }
        ensures { self.new ≡ with_record self.old (gx session.now) (record_facts before) clock }
    {
        self.held.put_gx(session, before, clock).unwrap();
    }

    /// Sets the fields of an accepted request, with which this record is known of its session, and hands back the record that
    /// stood; or changes nothing.
    fn set_fields(
        &mut self,
        ccr: &Ccr,
        counter: u64,
        known: GxRec,
    ) -> Result<Option<GxRec>, AllocError>
        requires within { counter ≤ last_counter }
        requires next { counter ≡ self.old.state.holding.clock + 1 }
        requires joins { known ≡ join_of
            (facts_on self.old.state.holding.facts (gx ccr.now.session))
            (kept_list (fields_of self.old.number counter (ccr_view ccr.now) ccr.now.kind)) }
        ensures ok { OnOk result (self.new ≡ with_one self.old
            (operation_made self.old.number counter (ccr_view ccr.now) ccr.now.kind)) }
        ensures stood { IfOk result (λ stood. record_facts stood
            ≡ facts_on self.old.state.holding.facts (gx ccr.now.session)) }
        ensures err { OnErr result (self.new ≡ self.old) }
    {
        note_ccr(ccr);
        self.note_number();
        self.note_kept();
        self.note_form();
        self.held.put_gx(&ccr.session, Some(known), counter)
    }

    /// Tells the gateway, whose request made these facts, what it lacks of the rules that its session has now, or changes
    /// nothing.
    fn tell<W: Witness>(
        &mut self,
        ccr: &Ccr,
        counter: u64,
        facts: Vec<GxFact>,
        witness: &mut W,
    ) -> Result<GxReply, AllocError>
        requires within { counter ≤ last_counter }
        requires later { length self.old.state.log < counter }
        requires opens { opens ccr.now.kind ≡ true }
        requires fields { map fact_of facts.items
            ≡ fields_of self.old.number counter (ccr_view ccr.now) ccr.now.kind }
        requires set { kept_of (with_operation self.old.state.holding
            (operation_made self.old.number counter (ccr_view ccr.now) ccr.now.kind))
            ≡ self.old.state.holding }
        ensures reply { IfOk result (λ reply. gx_reply_value reply
            ≡ told_reply self.old.tables (view self.old.state.holding.facts) (gx ccr.now.session)) }
        ensures ok { OnOk result (self.new ≡ with_made self.old (Some (operation_told
            self.old.number counter (ccr_view ccr.now) ccr.now.kind
            (delta_of delta_limit
            self.old.tables (view self.old.state.holding.facts) (gx ccr.now.session))))) }
        ensures names { OnOk result (Distinct (map rule_name_of
            (rules self.old.tables (view self.old.state.holding.facts) (gx ccr.now.session)))) }
        ensures saw { IfOk result (λ reply. W.saw witness.new (gx_reply_value reply)) }
        ensures err { OnErr result (self.new ≡ self.old) }
    {
        let quality = self.quality_of(&ccr.session);
        let missing = self.untold_difference(&ccr.session)?;
        let delta = FirstEntries::of(missing);
        note_entries(&delta);
        note_ccr(ccr);
        self.note_number();
        self.note_kept();
        let told = self.facts_told(counter, &delta)?;
        let known = self.with_told(&ccr.session, told.as_slice())?;
        let operation = self.all_made(ccr, counter, facts, told)?;
        let reply = shown_to_gateway(GxReply::Granted(delta, quality), witness)?;
        self.add_told(operation, &ccr.session, known)?;
        Ok(reply)
    }

    /// The facts that tell a gateway of the first entries of a difference.
    pub(crate) fn facts_told(
        &self,
        counter: u64,
        delta: &FirstEntries,
    ) -> Result<Vec<GxFact>, AllocError>
        ensures { IfOk result (λ facts. map fact_of facts.items
            ≡ facts_told self.now.number counter delta.now) }
    {
        let mut facts = Vec::new(self.alloc);
        put_told(self.alloc, &mut facts, self.tag(0, counter), delta)?;
        Ok(facts)
    }

    /// The record of a session with what its gateway is told, `None` where that is nothing.
    fn with_told(&self, session: &GxSid, told: &[GxFact]) -> Result<Option<GxRec>, AllocError>
        requires { map fact_of told.now ≢ [] → is_record Gx (map fact_of told.now) ≡ true }
        ensures nothing { IfOk result (λ both. (both ≡ None) → map fact_of told.now ≡ []) }
        ensures joins { IfOk result (λ both. IfSome both (λ known. known ≡ join_of
            (facts_on self.now.state.holding.facts (gx session.now))
            (kept_list (map fact_of told.now)))) }
    {
        if told.is_empty() {
            return Ok(None);
        }
        let made = GxRec::of_facts(self.alloc, told)?;
        Ok(Some(self.with_fields(session, made)?))
    }

    /// What the gateway of a session is still to be told.
    fn untold_difference(&mut self, session: &GxSid) -> Result<Delta, AllocError>
        ensures difference { IfOk result (λ delta. delta ≡ untold_difference
            self.new.tables (view self.new.state.holding.facts) (gx session.now)) }
        ensures names { OnOk result (Distinct (map rule_name_of
            (rules self.new.tables (view self.new.state.holding.facts) (gx session.now)))) }
        ensures same { self.new ≡ self.old }
    {
        self.held.untold_difference(session)
    }

    /// The operation of the end that an accepted request makes, or of the fields that it sets.
    fn fields_made(&self, ccr: &Ccr, counter: u64) -> Result<Operation, AllocError>
        requires within { counter ≤ last_counter }
        requires first { 1 ≤ counter }
        ensures { IfOk result (λ operation. operation
            ≡ operation_made self.now.number counter (ccr_view ccr.now) ccr.now.kind) }
    {
        note_ccr(ccr);
        self.note_number();
        let session = ccr.session.try_copy()?;
        let facts = facts_made(self.alloc, ccr, self.tag(ccr.number, counter))?;
        let facts = SessionFacts::Gx(session, facts);
        Ok(Operation::with_stamp(counter, self.number, ccr.number, facts))
    }

    /// The operation of the fields that an accepted request sets, which are these facts, and of what the gateway is told.
    pub(crate) fn all_made(
        &self,
        ccr: &Ccr,
        counter: u64,
        facts: Vec<GxFact>,
        told: Vec<GxFact>,
    ) -> Result<Operation, AllocError>
        requires { is_operation (operation_with self.now.number counter (ccr_view ccr.now)
            (map fact_of facts.items ++ map fact_of told.items)) ≡ true }
        ensures { IfOk result (λ operation. operation
            ≡ operation_with self.now.number counter (ccr_view ccr.now)
            (map fact_of facts.items ++ map fact_of told.items)) }
    {
        let mut facts = facts;
        let mut told = told;
        facts.append(&mut told)?;
        let facts = SessionFacts::Gx(ccr.session.try_copy()?, facts);
        Ok(Operation::with_stamp(counter, self.number, ccr.number, facts))
    }

    /// The tag of what an operation of this site says.
    pub(crate) fn tag(&self, number: u32, counter: u64) -> Tag
        ensures { result ≡ record { number = number; counter = counter; site = self.now.number } }
    {
        Tag {
            number,
            counter,
            site: self.number,
        }
    }

    /// The default quality of service of the access point that a session shows.
    fn quality_of(&self, session: &GxSid) -> Option<DefaultQuality>
        ensures { result
            ≡ quality_of self.now.tables (view self.now.state.holding.facts) (gx session.now) }
    {
        match self.held.gx(session) {
            Some(known) => quality_by(self.held.tables(), known),
            None => None,
        }
    }

    /// The refusal by what is known of the session, given by the request and stands in the tables; the end of the clock
    /// comes after it.
    fn standing_refusal(&self, ccr: &Ccr) -> Option<Refusal>
        ensures { ccr_refusal self.now.tables self.now.state.holding (ccr_view ccr.now)
            ≡ or_else result
            (if is_clock_full self.now.state.holding then Some unable_to_comply else None) }
    {
        let known = self.held.gx(&ccr.session);
        match ccr.kind {
            RequestKind::Initial if has_ended(known) => Some(Refusal::base(UNKNOWN_SESSION_ID)),
            RequestKind::Initial if lacks(ccr) => Some(Refusal::experimental(INITIAL_PARAMETERS)),
            RequestKind::Initial => row_refusal(self.held.tables(), &ccr.apn),
            RequestKind::Update if !is_live(known) => Some(Refusal::base(UNKNOWN_SESSION_ID)),
            RequestKind::Update => row_refusal(self.held.tables(), &ccr.apn),
            RequestKind::Termination if !is_live(known) => Some(Refusal::base(UNKNOWN_SESSION_ID)),
            RequestKind::Termination => None,
        }
    }

    /// The counter of the next operation, if there is one left.
    pub(crate) fn next_counter(&self) -> Option<u64>
        ensures some { IfSome result (λ counter. counter ≡ self.now.state.holding.clock + 1) }
        ensures within { IfSome result (λ counter. counter ≤ last_counter) }
        ensures later { IfSome result (λ counter. length self.now.state.log < counter) }
        ensures open { IfSome result (λ _. is_clock_full self.now.state.holding ≡ false) }
        ensures full { result ≡ None → is_clock_full self.now.state.holding ≡ true }
    {
        let clock = self.held.clock();
        if clock >= LAST_COUNTER {
            return None;
        }
        Some(clock + 1)
    }

    /// Adds an operation of the site's own, or changes nothing.
    pub(crate) fn add(&mut self, operation: Operation) -> Result<(), AllocError>
        requires { length self.old.state.log < operation.counter }
        ensures ok { OnOk result (self.new ≡ with_made self.old (Some operation)) }
        ensures err { OnErr result (self.new ≡ self.old) }
    {
        self.log.try_reserve(1)?;
        self.held.take(&operation)?;
        self.log.push(operation).unwrap();
        Ok(())
    }

    /// Pushes what the gateway of the session that is due was not told (TS 29.212, 4.5.2): of the live sessions whose home is
    /// this site and whose host is the given one, any where none is given, that with the least Session-Id; at most the first
    /// 40 entries. Its gateway lacks then just what these left. An error changes nothing.
    pub fn push(&mut self, host: Option<&[u8]>) -> Result<Option<PushOut>, StepFault>
        ensures push { IfOk result (λ push. Pushed (option_map push_view push)
            ≡ (push_outcome_at self.old (option_copied host.entry)).reply) }
        ensures ok { OnOk result (self.new
            ≡ with_made self.old (push_outcome_at self.old (option_copied host.entry)).added) }
        ensures left { IfOk result (λ push. IfSome push (λ p.
            LacksTheRest self.old self.old.state.holding.facts self.new (gx p.session))) }
        ensures room { OnOk result (lacks_counter self.old.tables self.old.number
            self.old.state.holding (option_copied host.entry) ≡ false) }
        ensures full { IfErr result (λ fault. fault ≡ StepFault.ClockFull → lacks_counter
            self.old.tables self.old.number self.old.state.holding
            (option_copied host.entry) ≡ true) }
        ensures memory { IfErr result (λ fault. fault ≢ StepFault.HistoryFull) }
        ensures err { OnErr result (self.new ≡ self.old) }
    {
        self.push_seen_by(host, &mut ())
    }

    /// Pushes as `push` does, and shows a witness the reply before anything is changed.
    pub(crate) fn push_seen_by<W: Witness>(
        &mut self,
        host: Option<&[u8]>,
        witness: &mut W,
    ) -> Result<Option<PushOut>, StepFault>
        ensures push { IfOk result (λ push. Pushed (option_map push_view push)
            ≡ (push_outcome_at self.old (option_copied host.entry)).reply) }
        ensures saw { IfOk result (λ push. W.saw witness.new (Pushed (option_map push_view push))) }
        ensures ok { OnOk result (self.new
            ≡ with_made self.old (push_outcome_at self.old (option_copied host.entry)).added) }
        ensures left { IfOk result (λ push. IfSome push (λ p.
            LacksTheRest self.old self.old.state.holding.facts self.new (gx p.session))) }
        ensures room { OnOk result (lacks_counter self.old.tables self.old.number
            self.old.state.holding (option_copied host.entry) ≡ false) }
        ensures full { IfErr result (λ fault. fault ≡ StepFault.ClockFull → lacks_counter
            self.old.tables self.old.number self.old.state.holding
            (option_copied host.entry) ≡ true) }
        ensures memory { IfErr result (λ fault. fault ≢ StepFault.HistoryFull) }
        ensures err { OnErr result (self.new ≡ self.old) }
    {
        let Ok(found) = self.next_push(host) else {
            return Err(StepFault::NoMemory);
        };
        let Ok(Reply::Pushed(found)) = shown(Reply::Pushed(found), witness) else {
            return Err(StepFault::NoMemory);
        };
        let Some(push) = found else {
            return Ok(None);
        };
        self.note_told();
        let Some(counter) = self.next_counter() else {
            return Err(StepFault::ClockFull);
        };
        note_entries(&push.delta);
        note_text(push.session.id());
        self.note_number();
        if self.tell_push(&push, counter).is_err() {
            return Err(StepFault::NoMemory);
        }
        Ok(Some(push))
    }

    /// The push that is due for a host, any where none is given.
    fn next_push(&mut self, host: Option<&[u8]>) -> Result<Option<PushOut>, AllocError>
        ensures push { IfOk result (λ push. option_map push_view push
            ≡ option_map (push_of self.new.tables (view self.new.state.holding.facts))
            (due_session self.new.tables self.new.number (view self.new.state.holding.facts)
            (option_copied host.entry))) }
        ensures names { IfOk result (λ push. IfSome push (λ p. Distinct (map rule_name_of
            (rules self.new.tables (view self.new.state.holding.facts) (gx p.session))))) }
        ensures same { self.new ≡ self.old }
    {
        self.held.next_push(self.number, host)
    }

    /// Adds the operation of a push, or changes nothing.
    fn tell_push(&mut self, push: &PushOut, counter: u64) -> Result<(), AllocError>
        requires later { length self.old.state.log < counter }
        requires formed { is_operation (operation_pushed
            self.old.number counter push.now.session push.now.delta) ≡ true }
        ensures ok { OnOk result (self.new ≡ with_made self.old
            (Some (operation_pushed self.old.number counter push.now.session push.now.delta))) }
        ensures err { OnErr result (self.new ≡ self.old) }
    {
        let mut facts = Vec::new(self.alloc);
        put_told(self.alloc, &mut facts, self.tag(0, counter), &push.delta)?;
        let facts = SessionFacts::Gx(push.session.try_copy()?, facts);
        let operation = Operation::with_stamp(counter, self.number, 0, facts);
        self.add_pushed(operation, &push.session)
    }

    /// Takes operations in order. An error tells how many stand taken.
    pub fn take_all(&mut self, operations: &[Operation]) -> Result<(), (usize, AllocError)>
        ensures ok { OnOk result (self.new ≡ with_taken self.old operations.now) }
        ensures part { IfErr result (λ e. e.0 < length operations.now) }
        ensures err { IfErr result (λ e. self.new ≡ with_taken self.old (take e.0 operations.now)) }
    {
        self.note_kept();
        for (count, operation) in operations.iter().enumerate() {
            if self.take(operation).is_err() {
                return Err((count, AllocError));
            }
        }
        Ok(())
    }

    /// Does nothing: its contract tells a proof that what is held is kept.
    pub(crate) fn note_kept(&self)
        ensures { kept_of self.now.state.holding ≡ self.now.state.holding }
    {
        self.held.note_kept();
    }

    /// Does nothing: its contract tells a proof that each operation of the site's own raised the clock.
    pub fn note_log(&self)
        ensures { length self.now.state.log ≤ self.now.state.holding.clock }
    {
        let _ = &self.log;
    }

    /// Does nothing: its contract tells a proof that the site is one of those that there may be.
    pub(crate) fn note_number(&self)
        ensures { self.now.number < site_limit }
    {
        let _ = &self.log;
    }

    /// Does nothing: its contract tells a proof that what is held has the form of what operations make.
    pub fn note_form(&self)
        ensures { is_holding self.now.state.holding ≡ true }
    {
        self.held.note_form();
    }

    /// Does nothing: its contract tells a proof that what gateways were told has tags up to the clock.
    fn note_told(&self)
        ensures { ToldUpTo self.now.state.holding.clock self.now.state.holding.facts }
    {
        self.held.note_told();
    }

    /// Takes one operation, or changes nothing.
    fn take(&mut self, operation: &Operation) -> Result<(), AllocError>
        ensures ok { OnOk result (self.new ≡ with_one self.old operation.now) }
        ensures err { OnErr result (self.new ≡ self.old) }
    {
        self.held.take(operation)
    }

    /// Forgets all that it took and made.
    pub fn clear(&mut self)
        ensures { self.new ≡ emptied_site self.old }
    {
        self.held.clear();
        self.log = Vec::new(self.alloc);
    }
}

/// The reply to a request of the base protocol: success, or why it is refused.
pub(crate) fn reply_to_base(request: &BaseRequest) -> Reply
    ensures plain { is_plain result ≡ true }
    ensures reply { reply_value result ≡ (serve_base (base_view request.now)).reply }
{
    match base_refusal(request) {
        Some(refusal) => Reply::Base(refusal.code),
        None => Reply::Base(SUCCESS),
    }
}

/// The operations from a position on, as many as are told at once.
#[tactic(auto, using(std::proofs::lemmas::List::drop_all, std::proofs::lemmas::List::take_all))]
fn part_from(log: &[Operation], from: u64) -> &[Operation]
    ensures { result.now ≡ own_from log.now from }
{
    let Ok(start) = usize::try_from(from) else {
        return &[];
    };
    if start >= log.len() {
        return &[];
    }
    let (_, left) = log.split_at(start);
    if left.len() <= RANGE_LIMIT {
        return left;
    }
    let (part, _) = left.split_at(RANGE_LIMIT);
    part
}

/// Equal operations, in order.
pub(crate) fn copy_all(
    alloc: Global,
    operations: &[Operation],
) -> Result<Vec<Operation>, AllocError>
    ensures { IfOk result (λ copies. copies.items ≡ operations.now) }
{
    let mut copies = Vec::new(alloc);
    for operation in operations {
        copies.push(operation.try_copy()?)?;
    }
    Ok(copies)
}
