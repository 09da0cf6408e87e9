//! Requests that derive no rules: those that bring nothing new, and initial requests of sessions that come alone, to which no call
//! can be bound, so that they have the operator's rules at once.
ghost use Rattle.std.specs.Prelude.{◌≡◌, ◌≤◌, ◌+◌, None, Some, map, IfOk, IfSome, OnOk, OnErr, ◌≢◌, ◌++◌, [], true};
ghost use Rattle.pcrf_values.specs.Held.{kept_list, join_of};
ghost use Rattle.pcrf_values.specs.Limits.{last_counter, delta_limit};
ghost use Rattle.pcrf_model.specs.Holdings.{facts_on};
ghost use Rattle.pcrf_model.specs.Replies.{OnGx, Granted};
ghost use Rattle.pcrf_model.specs.Serving.{empty_delta};
ghost use Rattle.pcrf_model.specs.Sessions.{gx, Gx};
ghost use Rattle.gx_records.specs.GxFacts.{fact_of};
ghost use Rattle.gx_profile.specs.Requests.{ccr_view};
ghost use Rattle.indexed_state.specs.Alike.{BringsNothing};
ghost use Rattle.site_machine.specs.Replies.{gx_reply_value, quality_shown};
ghost use Rattle.pcrf_values.specs.ToldWords.{told_rules};
ghost use Rattle.pcrf_model.specs.Differences.{difference, first};
ghost use Rattle.pcrf_model.specs.Forms.{is_record};
ghost use Rattle.indexed_state.specs.Opened.{OpensAlone};

use crate::facts::{note_ccr, note_entries};
use crate::site::Site;
use crate::witness::{Witness, shown_to_gateway};
use gx_profile::Ccr;
use gx_records::{GxFact, GxRec};
use indexed_state::Tables;
use lattice_core::Join;
use pcrf_model::{FirstEntries, GxReply};
use pcrf_values::{DefaultQuality, RequestKind, Rule};
use rule_delta::difference_of;
use std::alloc::{AllocError, Global};

impl Site {
    ghost use Rattle.site_machine.specs.Facts.{fields_of, opens, operation_made};
    ghost use Rattle.site_machine.specs.Sites.{with_made};

    /// The record of the session of an accepted request with the facts that the request makes, which are these.
    pub(crate) fn fields_joined(
        &self,
        ccr: &Ccr,
        counter: u64,
        facts: &[GxFact],
    ) -> Result<GxRec, AllocError>
        requires within { counter ≤ last_counter }
        requires next { counter ≡ self.now.state.holding.clock + 1 }
        requires fields { map fact_of facts.now
            ≡ fields_of self.now.number counter (ccr_view ccr.now) ccr.now.kind }
        ensures { IfOk result (λ known. known ≡ join_of
            (facts_on self.now.state.holding.facts (gx ccr.now.session))
            (kept_list (fields_of self.now.number counter (ccr_view ccr.now) ccr.now.kind))) }
    {
        note_ccr(ccr);
        self.note_number();
        let made = GxRec::of_facts(self.alloc, facts)?;
        self.with_fields(&ccr.session, made)
    }

    /// The record of the session of an accepted update, where the facts that the request makes, which are these, bring nothing
    /// new; `None` elsewhere.
    pub(crate) fn unchanged(&self, ccr: &Ccr, facts: &[GxFact]) -> Option<&GxRec>
        ensures stands { IfSome result (λ known. known.now
            ≡ facts_on self.now.state.holding.facts (gx ccr.now.session)) }
        ensures nothing { IfSome result (λ _. BringsNothing self.now.tables
            self.now.state.holding (gx ccr.now.session) (join_of
            (facts_on self.now.state.holding.facts (gx ccr.now.session))
            (kept_list (map fact_of facts.now)))) }
    {
        match ccr.kind {
            RequestKind::Update => self.held.unchanged(&ccr.session, facts),
            RequestKind::Initial | RequestKind::Termination => None,
        }
    }

    /// Grants an accepted request that made these facts, where the record that is known of its session with them brings nothing
    /// new, and this is its quality of service: its gateway is told nothing, and only the fields are set. Or changes nothing.
    pub(crate) fn refresh<W: Witness>(
        &mut self,
        ccr: &Ccr,
        counter: u64,
        facts: Vec<GxFact>,
        quality: Option<DefaultQuality>,
        witness: &mut W,
    ) -> Result<GxReply, AllocError>
        requires within { counter ≤ last_counter }
        requires next { counter ≡ self.old.state.holding.clock + 1 }
        requires fields { map fact_of facts.items
            ≡ fields_of self.old.number counter (ccr_view ccr.now) ccr.now.kind }
        requires nothing { BringsNothing self.old.tables self.old.state.holding
            (gx ccr.now.session) (join_of
            (facts_on self.old.state.holding.facts (gx ccr.now.session))
            (kept_list (fields_of self.old.number counter (ccr_view ccr.now) ccr.now.kind))) }
        ensures reply { IfOk result (λ reply. gx_reply_value reply
            ≡ OnGx (Granted empty_delta quality)) }
        ensures saw { IfOk result (λ reply. W.saw witness.new (gx_reply_value reply)) }
        ensures ok { OnOk result (self.new ≡ with_made self.old (Some
            (operation_made self.old.number counter (ccr_view ccr.now) ccr.now.kind))) }
        ensures err { OnErr result (self.new ≡ self.old) }
    {
        note_ccr(ccr);
        self.note_number();
        self.note_log();
        let operation = self.all_made(ccr, counter, facts, Vec::new(self.alloc))?;
        let nothing = GxReply::Granted(FirstEntries::none(self.alloc), quality);
        let reply = shown_to_gateway(nothing, witness)?;
        self.add_refreshed(operation, &ccr.session)?;
        Ok(reply)
    }
}

/// The default quality of service of the access point that the record of a session shows.
pub(crate) fn quality_by(tables: &Tables, known: &GxRec) -> Option<DefaultQuality>
    ensures { result ≡ quality_shown tables.now known.now }
{
    let (_, apn) = known.apn()?;
    tables.apn(apn)?.default_quality()
}

impl Site {
    ghost use Rattle.site_machine.specs.Facts.{fields_of, opens, operation_told};
    ghost use Rattle.site_machine.specs.Sites.{with_made};

    /// The rules of the session of an accepted initial request, by this record of it, where nothing was known of the session and
    /// no call can be bound to it; `None` elsewhere.
    pub(crate) fn rules_alone(
        &self,
        ccr: &Ccr,
        known: &GxRec,
    ) -> Result<Option<Vec<Rule>>, AllocError>
        ensures { IfOk result (λ found. IfSome found (λ rules. OpensAlone self.now.tables
            self.now.state.holding ccr.now.session known.now rules.items)) }
    {
        match ccr.kind {
            RequestKind::Initial => self.held.rules_alone(&ccr.session, known),
            RequestKind::Update | RequestKind::Termination => Ok(None),
        }
    }

    /// Grants an accepted request that made these facts, by which this record is known of its session, to which no call can be
    /// bound: its gateway is told the first entries of what it lacks of these rules, which are kept. Or changes nothing.
    pub(crate) fn grant<W: Witness>(
        &mut self,
        ccr: &Ccr,
        counter: u64,
        facts: Vec<GxFact>,
        known: GxRec,
        rules: Vec<Rule>,
        witness: &mut W,
    ) -> Result<GxReply, AllocError>
        requires within { counter ≤ last_counter }
        requires next { counter ≡ self.old.state.holding.clock + 1 }
        requires opens { opens ccr.now.kind ≡ true }
        requires fields { map fact_of facts.items
            ≡ fields_of self.old.number counter (ccr_view ccr.now) ccr.now.kind }
        requires joins { known ≡ join_of
            (facts_on self.old.state.holding.facts (gx ccr.now.session))
            (kept_list (fields_of self.old.number counter (ccr_view ccr.now) ccr.now.kind)) }
        requires alone { OpensAlone self.old.tables
            self.old.state.holding ccr.now.session known rules.items }
        ensures reply { IfOk result (λ reply. gx_reply_value reply ≡ OnGx (Granted
            (first delta_limit (difference (told_rules known) rules.items))
            (quality_shown self.old.tables known))) }
        ensures saw { IfOk result (λ reply. W.saw witness.new (gx_reply_value reply)) }
        ensures ok { OnOk result (self.new ≡ with_made self.old (Some (operation_told
            self.old.number counter (ccr_view ccr.now) ccr.now.kind
            (first delta_limit (difference (told_rules known) rules.items))))) }
        ensures err { OnErr result (self.new ≡ self.old) }
    {
        note_ccr(ccr);
        self.note_number();
        self.note_log();
        self.note_kept();
        let quality = quality_by(self.held.tables(), &known);
        let missing = difference_of(self.alloc, &known, rules.as_slice())?;
        let delta = FirstEntries::of(missing);
        note_entries(&delta);
        let told = self.facts_told(counter, &delta)?;
        let known = told_joined(self.alloc, known, told.as_slice())?;
        let operation = self.all_made(ccr, counter, facts, told)?;
        let reply = shown_to_gateway(GxReply::Granted(delta, quality), witness)?;
        self.add_opened(operation, &ccr.session, known, rules)?;
        Ok(reply)
    }
}

/// A record with what its gateway is told.
fn told_joined(alloc: Global, known: GxRec, told: &[GxFact]) -> Result<GxRec, AllocError>
    requires { map fact_of told.now ≢ [] → is_record Gx (map fact_of told.now) ≡ true }
    ensures { IfOk result (λ both. both ≡ join_of known (kept_list (map fact_of told.now))) }
{
    known.note_valid();
    if told.is_empty() {
        return Ok(known);
    }
    match known.join(GxRec::of_facts(alloc, told)?) {
        Ok(both) => Ok(both),
        Err(_) => Err(AllocError),
    }
}
