//! Gateways that may have lost what they were told.
ghost use Rattle.std.specs.Prelude.{◌≡◌, ◌≢◌, ◌<◌, Some, false, true, [], length, if◌then◌else◌, IfOk, OnOk, OnErr, IfErr};
ghost use Rattle.pcrf_model.specs.Differences.{told_rules_of};
ghost use Rattle.pcrf_model.specs.Forms.{is_operation};
ghost use Rattle.pcrf_model.specs.Live.{is_live};
ghost use Rattle.pcrf_model.specs.Replies.{Retold};
ghost use Rattle.pcrf_model.specs.Retelling.{all_removed, lacks_counter_to_retell};
ghost use Rattle.pcrf_model.specs.Sessions.{gx};
ghost use Rattle.pcrf_model.specs.Views.{view};

use crate::facts::put_told_away;
use crate::fault::StepFault;
use crate::refusals::is_live;
use crate::site::Site;
use gx_records::Told;
use pcrf_values::{GxSid, Ranked};
use rule_delta::told_rules_of;
use site_join::{Operation, SessionFacts};
use std::alloc::AllocError;

impl Site {
    ghost use Rattle.site_machine.specs.Facts.{operation_pushed};
    ghost use Rattle.site_machine.specs.Sites.{retell_outcome_at, with_made};

    /// Counts what the gateway of a live session was told as not there, since it may have lost it: the next answer or push
    /// brings all rules of the session (TS 29.212, 4.5.2). It is one operation of the site's own, whichever site is the
    /// session's home, by which each name is told as none. `false` where the session isn't live or its gateway was told nothing,
    /// which changes nothing. An error changes nothing. Its time grows with what the gateway was told, and is else that of
    /// taking an operation.
    pub fn retell(&mut self, session: &GxSid) -> Result<bool, StepFault>
        ensures retold { IfOk result (λ done.
            Retold done ≡ (retell_outcome_at self.old session.now).reply) }
        ensures ok { OnOk result (self.new
            ≡ with_made self.old (retell_outcome_at self.old session.now).added) }
        ensures room { OnOk result
            (lacks_counter_to_retell self.old.state.holding session.now ≡ false) }
        ensures full { IfErr result (λ fault. fault ≡ StepFault.ClockFull
            → lacks_counter_to_retell self.old.state.holding session.now ≡ true) }
        ensures memory { IfErr result (λ fault. fault ≢ StepFault.HistoryFull) }
        ensures err { OnErr result (self.new ≡ self.old) }
    {
        let Ok(told) = self.told_if_live(session) else {
            return Err(StepFault::NoMemory);
        };
        if told.as_slice().is_empty() {
            return Ok(false);
        }
        let Some(counter) = self.next_counter() else {
            return Err(StepFault::ClockFull);
        };
        self.note_form();
        self.note_number();
        if self.tell_away(session, &told, counter).is_err() {
            return Err(StepFault::NoMemory);
        }
        Ok(true)
    }

    /// What the gateway of a session was told; nothing where the session isn't live.
    fn told_if_live(&self, session: &GxSid) -> Result<Told, AllocError>
        ensures { IfOk result (λ told. told
            ≡ (if is_live (view self.now.state.holding.facts) (gx session.now)
            then told_rules_of (view self.now.state.holding.facts) (gx session.now) else [])) }
    {
        if is_live(self.held.gx(session)) {
            return told_rules_of(self.alloc, self.held.state(), session);
        }
        Ok(Told::of(Vec::new(self.alloc)))
    }

    /// Adds the operation by which what was told counts as not there, or changes nothing.
    fn tell_away(&mut self, session: &GxSid, told: &Told, counter: u64) -> Result<(), AllocError>
        requires later { length self.old.state.log < counter }
        requires formed { is_operation (operation_pushed
            self.old.number counter session.now (all_removed told.now)) ≡ true }
        ensures ok { OnOk result (self.new ≡ with_made self.old
            (Some (operation_pushed self.old.number counter session.now (all_removed told.now)))) }
        ensures err { OnErr result (self.new ≡ self.old) }
    {
        let mut facts = Vec::new(self.alloc);
        put_told_away(
            self.alloc,
            &mut facts,
            self.tag(0, counter),
            told.as_slice(),
        )?;
        let facts = SessionFacts::Gx(session.try_copy()?, facts);
        let operation = Operation::with_stamp(counter, self.number, 0, facts);
        self.add_pushed(operation, session)
    }
}
