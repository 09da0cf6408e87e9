//! Sessions of application functions that a site asks to end, of its own accord.
ghost use Rattle.std.specs.Prelude.{◌≡◌, ◌≢◌, ◌<◌, ◌∷◌, [], Some, false, true, length, IfOk, IfSome, OnOk, OnErr, IfErr, option_map};
ghost use Rattle.std.specs.Option.{option_copied};
ghost use Rattle.pcrf_values.specs.Facts as facts;
ghost use Rattle.pcrf_model.specs.Aborting.{abandoned_session, abort_of, lacks_counter_to_abort};
ghost use Rattle.pcrf_model.specs.Forms.{is_operation};
ghost use Rattle.pcrf_model.specs.Replies.{Aborted};
ghost use Rattle.pcrf_model.specs.Views.{view};
ghost use Rattle.rx_profile.specs.Aborts.{abort_view};

use crate::event::Reply;
use crate::fault::StepFault;
use crate::site::Site;
use crate::witness::{Witness, shown};
use af_records::AfFact;
use pcrf_model::ranges::note_text;
use pcrf_values::{AfSid, Ranked};
use rx_profile::AbortOut;
use site_join::{Operation, SessionFacts};
use std::alloc::AllocError;

impl Site {
    ghost use Rattle.site_machine.specs.Facts.{operation_on_call};
    ghost use Rattle.site_machine.specs.Sites.{abort_outcome_at, with_made};

    /// Asks an application function to end a session that is bound to none (TS 29.214, 4.4.6.1): of the live sessions that show
    /// their client, are bound to none and weren't asked for yet, whose home is this site and whose host is the given one, any
    /// where none is given, that with the least Session-Id. It is one operation of the site's own, which says that the session
    /// was aborted: the session stays live until its application function ends it, and may be bound again. `None` where there
    /// is none such, which changes nothing. An error changes nothing. For a host it looks at sessions alone that wait under it; where
    /// none is given its time grows with the number of application functions' sessions.
    pub fn abort(&mut self, host: Option<&[u8]>) -> Result<Option<AbortOut>, StepFault>
        ensures abort { IfOk result (λ abort. Aborted (option_map abort_view abort)
            ≡ (abort_outcome_at self.old (option_copied host.entry)).reply) }
        ensures ok { OnOk result (self.new
            ≡ with_made self.old (abort_outcome_at self.old (option_copied host.entry)).added) }
        ensures room { OnOk result (lacks_counter_to_abort self.old.number
            self.old.state.holding (option_copied host.entry) ≡ false) }
        ensures full { IfErr result (λ fault. fault ≡ StepFault.ClockFull → lacks_counter_to_abort
            self.old.number self.old.state.holding (option_copied host.entry) ≡ true) }
        ensures memory { IfErr result (λ fault. fault ≢ StepFault.HistoryFull) }
        ensures err { OnErr result (self.new ≡ self.old) }
    {
        self.abort_seen_by(host, &mut ())
    }

    /// Aborts as `abort` does, and shows a witness the reply before anything is changed.
    pub(crate) fn abort_seen_by<W: Witness>(
        &mut self,
        host: Option<&[u8]>,
        witness: &mut W,
    ) -> Result<Option<AbortOut>, StepFault>
        ensures abort { IfOk result (λ abort. Aborted (option_map abort_view abort)
            ≡ (abort_outcome_at self.old (option_copied host.entry)).reply) }
        ensures saw { IfOk result (λ abort.
            W.saw witness.new (Aborted (option_map abort_view abort))) }
        ensures ok { OnOk result (self.new
            ≡ with_made self.old (abort_outcome_at self.old (option_copied host.entry)).added) }
        ensures room { OnOk result (lacks_counter_to_abort self.old.number
            self.old.state.holding (option_copied host.entry) ≡ false) }
        ensures full { IfErr result (λ fault. fault ≡ StepFault.ClockFull → lacks_counter_to_abort
            self.old.number self.old.state.holding (option_copied host.entry) ≡ true) }
        ensures memory { IfErr result (λ fault. fault ≢ StepFault.HistoryFull) }
        ensures err { OnErr result (self.new ≡ self.old) }
    {
        let Ok(found) = self.next_abort(host) else {
            return Err(StepFault::NoMemory);
        };
        let Ok(Reply::Aborted(found)) = shown(Reply::Aborted(found), witness) else {
            return Err(StepFault::NoMemory);
        };
        let Some(abort) = found else {
            return Ok(None);
        };
        let Some(counter) = self.next_counter() else {
            return Err(StepFault::ClockFull);
        };
        note_text(abort.session.id());
        self.note_number();
        if self.add_abort(&abort.session, counter).is_err() {
            return Err(StepFault::NoMemory);
        }
        Ok(Some(abort))
    }

    /// The abort that is due for a host, any where none is given.
    fn next_abort(&mut self, host: Option<&[u8]>) -> Result<Option<AbortOut>, AllocError>
        ensures abort { IfOk result (λ abort. option_map abort_view abort
            ≡ option_map (abort_of (view self.new.state.holding.facts))
            (abandoned_session self.new.number (view self.new.state.holding.facts)
            (option_copied host.entry))) }
        ensures same { self.new ≡ self.old }
    {
        self.held.next_abort(self.number, host)
    }

    /// Adds the operation of an abort, or changes nothing.
    fn add_abort(&mut self, session: &AfSid, counter: u64) -> Result<(), AllocError>
        requires later { length self.old.state.log < counter }
        requires formed { is_operation (operation_on_call
            self.old.number counter session.now (facts.Aborted ∷ [])) ≡ true }
        ensures ok { OnOk result (self.new ≡ with_made self.old (Some (operation_on_call
            self.old.number counter session.now (facts.Aborted ∷ [])))) }
        ensures err { OnErr result (self.new ≡ self.old) }
    {
        let mut facts = Vec::new(self.alloc);
        facts.push(AfFact::Aborted)?;
        let facts = SessionFacts::Af(session.try_copy()?, facts);
        self.add(Operation::with_stamp(counter, self.number, 0, facts))
    }
}
