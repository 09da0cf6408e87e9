//! How a site serves application functions (TS 29.214, 4.4).
ghost use Rattle.std.specs.Prelude.{◌≡◌, ◌<◌, length, ◌+◌, ◌++◌, ◌∷◌, [], List, ◌&&◌, Some, true, IfOk, IfSome, OnOk, OnErr, is_none, map, not};
ghost use Rattle.std.specs.List.{list_any};
ghost use Rattle.std.specs.Option.{option_copied};
ghost use Rattle.pcrf_values.specs.Ascending.{ascending};
ghost use Rattle.pcrf_values.specs.Facts.{Fact, fact_cmp};
ghost use Rattle.pcrf_values.specs.FlowWords.{or_else};
ghost use Rattle.pcrf_values.specs.Held.{kept_list, is_ended, join_of};
ghost use Rattle.pcrf_values.specs.Live.{af_is_live};
ghost use Rattle.pcrf_model.specs.Forms.{is_operation};
ghost use Rattle.pcrf_model.specs.Sessions.{af};
ghost use Rattle.pcrf_model.specs.Holdings.{facts_on, under};
ghost use Rattle.pcrf_model.specs.Views.{view};
ghost use Rattle.pcrf_model.specs.Bindings.{bind};
ghost use Rattle.pcrf_model.specs.Refusals.{aar_refusal, binds_to_none, has_no_class};
ghost use Rattle.pcrf_model.specs.Requests.{gives_no_address};
ghost use Rattle.af_records.specs.RecordFacts.{fact_of};
ghost use Rattle.site_join.specs.States.{record_facts};
ghost use Rattle.rx_profile.specs.Requests.{aar_view};
ghost use Rattle.rx_profile.specs.Terminations.{str_view};
ghost use Rattle.site_machine.specs.Call.{call_facts};
ghost use Rattle.site_machine.specs.Calls.{late_refusal};
ghost use Rattle.site_machine.specs.Replies.{is_plain};
ghost use Rattle.site_machine.specs.Values.{reply_value};

use crate::event::Reply;
use crate::facts::{call_of, end_facts, ended_call, note_aar, note_str};
use crate::site::Site;
use af_records::{AfFact, AfRec};
use dia_base::codes::results::{
    MISSING_AVP, SERVICE_NOT_AUTHORIZED, SESSION_NOT_AVAILABLE, UNABLE_TO_COMPLY,
    UNKNOWN_SESSION_ID,
};
use indexed_state::Tables;
use lattice_core::Join;
use pcrf_values::{AfSid, Ranked, Refusal};
use rx_profile::{Aar, Component, Str, is_removed};
use site_join::{Operation, SessionFacts};
use std::alloc::{AllocError, Global};

impl Site {
    ghost use Rattle.site_machine.specs.Facts.{operation_on_call};
    ghost use Rattle.site_machine.specs.Sites.{aar_served, str_served, with_made};

    /// Serves an AA request: what it describes is added to its session, if that can be bound then. An error changes nothing.
    pub(crate) fn serve_aar(&mut self, aar: &Aar) -> Result<Reply, AllocError>
        ensures plain { IfOk result (λ reply. is_plain reply ≡ true) }
        ensures reply { IfOk result (λ reply.
            reply_value reply ≡ (aar_served self.old (aar_view aar.now)).reply) }
        ensures ok { OnOk result (self.new
            ≡ with_made self.old (aar_served self.old (aar_view aar.now)).added) }
        ensures err { OnErr result (self.new ≡ self.old) }
    {
        if let Some(refusal) = self.early_refusal(aar) {
            return Ok(Reply::Refused(refusal));
        }
        let Some((facts, known)) = self.made_if_bound(aar)? else {
            return Ok(Reply::Refused(Refusal::experimental(SESSION_NOT_AVAILABLE)));
        };
        let Some(counter) = self.next_counter() else {
            return Ok(Reply::Refused(Refusal::base(UNABLE_TO_COMPLY)));
        };
        note_aar(aar);
        self.note_number();
        self.add_on_call(&aar.session, counter, facts, known)?;
        Ok(Reply::Done)
    }

    /// The facts of what a request describes, under the counter that follows the clock, and the record of its session with
    /// them; `None` where the session would be bound to none then.
    fn made_if_bound(&self, aar: &Aar) -> Result<Option<(Vec<AfFact>, AfRec)>, AllocError>
        ensures bound { IfOk result (λ made. is_none made
            ≡ binds_to_none self.now.number self.now.state.holding (aar_view aar.now)) }
        ensures facts { IfOk result (λ made. IfSome made (λ m. map fact_of m.0.items
            ≡ ascending fact_cmp (call_facts self.now.number (self.now.state.holding.clock + 1)
            (aar_view aar.now)))) }
        ensures known { IfOk result (λ made. IfSome made (λ m. m.1 ≡ join_of
            (facts_on self.now.state.holding.facts (af aar.now.session))
            (kept_list (map fact_of m.0.items)))) }
    {
        self.note_number();
        let call = call_of(self.alloc, aar, self.held.clock() + 1, self.number)?;
        call.note_valid();
        let facts = call.facts(self.alloc)?;
        let known = self.with_call(&aar.session, call)?;
        if self.binds_to_none(&aar.session, &known) {
            return Ok(None);
        }
        Ok(Some((facts, known)))
    }

    /// The refusal of an AA request by what is seen before it is bound.
    fn early_refusal(&self, aar: &Aar) -> Option<Refusal>
        ensures { aar_refusal self.now.tables self.now.number
            self.now.state.holding (aar_view aar.now) ≡ or_else result
            (late_refusal self.now.number self.now.state.holding (aar_view aar.now)) }
    {
        let known = self.held.af(&aar.session);
        if has_ended(known) {
            return Some(Refusal::base(UNKNOWN_SESSION_ID));
        }
        if lacks_address(known, aar) {
            return Some(Refusal::base(MISSING_AVP));
        }
        if lack_class(self.held.tables(), aar.components.as_slice()) {
            return Some(Refusal::experimental(SERVICE_NOT_AUTHORIZED));
        }
        None
    }

    /// With this as its record, which has what a request describes, a session would be bound to none.
    fn binds_to_none(&self, session: &AfSid, known: &AfRec) -> bool
        ensures { (facts : List Fact) → known.now
            ≡ join_of (facts_on self.now.state.holding.facts (af session.now)) (kept_list facts)
            → result ≡ is_none (bind (view (self.now.state.holding.facts
            ++ under (af session.now) facts)) (af session.now)) }
    {
        self.held.bind_by(known).is_none()
    }

    /// The record of a session with what a request describes.
    fn with_call(&self, session: &AfSid, call: AfRec) -> Result<AfRec, AllocError>
        ensures { IfOk result (λ both. both
            ≡ join_of (facts_on self.now.state.holding.facts (af session.now)) call) }
    {
        call.note_valid();
        match self.held.af(session) {
            Some(known) => known.joined_copy(&call),
            None => Ok(call),
        }
    }

    /// Serves a session termination request: its session ends, for good. An error changes nothing.
    pub(crate) fn serve_str(&mut self, call: &Str) -> Result<Reply, AllocError>
        ensures plain { IfOk result (λ reply. is_plain reply ≡ true) }
        ensures reply { IfOk result (λ reply.
            reply_value reply ≡ (str_served self.old (str_view call.now)).reply) }
        ensures ok { OnOk result (self.new
            ≡ with_made self.old (str_served self.old (str_view call.now)).added) }
        ensures err { OnErr result (self.new ≡ self.old) }
    {
        if !is_live(self.held.af(&call.session)) {
            return Ok(Reply::Refused(Refusal::base(UNKNOWN_SESSION_ID)));
        }
        let Some(counter) = self.next_counter() else {
            return Ok(Reply::Refused(Refusal::base(UNABLE_TO_COMPLY)));
        };
        let facts = end_facts(self.alloc)?;
        let ended = ended_call(self.alloc)?;
        note_str(call);
        self.note_number();
        self.add_on_call(&call.session, counter, facts, ended)?;
        Ok(Reply::Done)
    }

    /// Adds the operation of these facts on an application function's session, of which this record is known then, or changes
    /// nothing.
    fn add_on_call(
        &mut self,
        session: &AfSid,
        counter: u64,
        facts: Vec<AfFact>,
        known: AfRec,
    ) -> Result<(), AllocError>
        requires later { length self.old.state.log < counter }
        requires formed { is_operation (operation_on_call
            self.old.number counter session.now (map fact_of facts.items)) ≡ true }
        requires joins { known ≡ join_of (facts_on self.old.state.holding.facts (af session.now))
            (kept_list (map fact_of facts.items)) }
        ensures ok { OnOk result (self.new ≡ with_made self.old (Some (operation_on_call
            self.old.number counter session.now (map fact_of facts.items)))) }
        ensures err { OnErr result (self.new ≡ self.old) }
    {
        let facts = SessionFacts::Af(session.try_copy()?, facts);
        let operation = Operation::with_stamp(counter, self.number, 0, facts);
        self.add_to_call(operation, session, known)
    }
}

/// The session has ended, as far as is known.
fn has_ended(known: Option<&AfRec>) -> bool
    ensures { result ≡ is_ended (record_facts (option_copied known.entry)) }
{
    match known {
        Some(call) => call.ended(),
        None => false,
    }
}

/// The session is live.
fn is_live(known: Option<&AfRec>) -> bool
    ensures { result ≡ af_is_live (record_facts (option_copied known.entry)) }
{
    match known {
        Some(call) => call.live(),
        None => false,
    }
}

/// The request says nowhere its user is reached: it gives neither an address nor a prefix.
fn gives_no_address(aar: &Aar) -> bool
    ensures { result ≡ gives_no_address (aar_view aar.now).user }
{
    aar.address.is_none() && aar.prefix.is_none()
}

/// The session isn't live, and the request says nowhere its user is reached.
fn lacks_address(known: Option<&AfRec>, aar: &Aar) -> bool
    ensures { result ≡ (not (af_is_live (record_facts (option_copied known.entry)))
        && gives_no_address (aar_view aar.now).user) }
{
    !is_live(known) && gives_no_address(aar)
}

/// A component that isn't removed has a Media-Type without a row in the tables.
fn lacks_class(tables: &Tables, component: &Component) -> bool
    ensures { result ≡ has_no_class tables.now component.now }
{
    let parts = component.parts();
    if is_removed(parts.status) {
        return false;
    }
    match parts.media_type {
        Some(media_type) => tables.media(media_type).is_none(),
        None => false,
    }
}

/// One of these components has such a Media-Type.
fn lack_class(tables: &Tables, components: &[Component]) -> bool
    ensures { result ≡ list_any (has_no_class tables.now) components.now }
{
    components
        .iter()
        .any(|component| lacks_class(tables, component))
}
