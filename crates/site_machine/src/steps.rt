//! The steps of a site.
ghost use Rattle.std.specs.Prelude.{◌≡◌, ◌≢◌, true, IfOk, IfErr, OnErr};
ghost use Rattle.pcrf_model.specs.Steps.{Serve, Push, Abort, Retell, Ops, Whole, AskOwn, AskWhole};
ghost use Rattle.site_machine.specs.Replies.{is_plain};
ghost use Rattle.site_machine.specs.Values.{event_lacks_counter, event_value, reply_value, request_value};

use crate::event::{Event, Reply};
use crate::fault::StepFault;
use crate::request::Request;
use crate::site::Site;
use crate::witness::{Witness, shown, shown_plain};
use pcrf_values::{DiameterIdentity, GxSid};
use site_join::{Operation, State};

impl Site {
    ghost use Rattle.site_machine.specs.Sites.{SiteMayReply, after_event};

    /// Makes an event happen. A fault changes nothing.
    pub fn step(&mut self, event: &Event) -> Result<Reply, StepFault>
        ensures reply { IfOk result (λ reply. SiteMayReply self.old
            (event_value event.now) (reply_value reply)) }
        ensures ok { IfOk result (λ reply. self.new
            ≡ after_event self.old (event_value event.now) (reply_value reply)) }
        ensures full { IfErr result (λ fault. fault ≡ StepFault.ClockFull → event_lacks_counter
            self.old.tables self.old.number self.old.state.holding (event_value event.now) ≡ true) }
        ensures memory { IfErr result (λ fault. fault ≢ StepFault.HistoryFull) }
        ensures err { OnErr result (self.new ≡ self.old) }
    {
        self.step_seen_by(event, &mut ())
    }

    /// Makes an event happen as `step` does, and shows a witness the reply before anything is changed: where memory for what the
    /// witness keeps is refused, the event does not happen. Of the witness a fault tells nothing.
    pub fn step_seen_by<W: Witness>(
        &mut self,
        event: &Event,
        witness: &mut W,
    ) -> Result<Reply, StepFault>
        ensures reply { IfOk result (λ reply. SiteMayReply self.old
            (event_value event.now) (reply_value reply)) }
        ensures saw { IfOk result (λ reply. W.saw witness.new (reply_value reply)) }
        ensures ok { IfOk result (λ reply. self.new
            ≡ after_event self.old (event_value event.now) (reply_value reply)) }
        ensures full { IfErr result (λ fault. fault ≡ StepFault.ClockFull → event_lacks_counter
            self.old.tables self.old.number self.old.state.holding (event_value event.now) ≡ true) }
        ensures memory { IfErr result (λ fault. fault ≢ StepFault.HistoryFull) }
        ensures err { OnErr result (self.new ≡ self.old) }
    {
        match event {
            Event::Serve(request) => self.step_serve(request, witness),
            Event::Push(host) => self.step_push(host, witness),
            Event::Abort(host) => self.step_abort(host, witness),
            Event::Retell(session) => Ok(shown_plain(self.step_retell(session)?, witness)),
            Event::Ops(operations) => {
                Ok(shown_plain(self.step_take(operations.as_slice()), witness))
            }
            Event::Whole(state) => Ok(shown_plain(self.step_whole(state)?, witness)),
            Event::AskOwn(from) => self.step_ask_own(*from, witness),
            Event::AskWhole => self.step_ask_whole(witness),
        }
    }

    /// Serves the request of an event.
    fn step_serve<W: Witness>(
        &mut self,
        request: &Request,
        witness: &mut W,
    ) -> Result<Reply, StepFault>
        ensures reply { IfOk result (λ reply. SiteMayReply self.old
            (Serve (request_value request.now)) (reply_value reply)) }
        ensures saw { IfOk result (λ reply. W.saw witness.new (reply_value reply)) }
        ensures ok { IfOk result (λ reply. self.new
            ≡ after_event self.old (Serve (request_value request.now)) (reply_value reply)) }
        ensures memory { IfErr result (λ fault. fault ≡ StepFault.NoMemory) }
        ensures err { OnErr result (self.new ≡ self.old) }
    {
        self.note_kept();
        match self.serve_seen_by(request, witness) {
            Ok(reply) => Ok(reply),
            Err(_) => Err(StepFault::NoMemory),
        }
    }

    /// Pushes as an event asks for it.
    fn step_push<W: Witness>(
        &mut self,
        host: &Option<DiameterIdentity>,
        witness: &mut W,
    ) -> Result<Reply, StepFault>
        ensures reply { IfOk result (λ reply. SiteMayReply self.old
            (Push host.now) (reply_value reply)) }
        ensures saw { IfOk result (λ reply. W.saw witness.new (reply_value reply)) }
        ensures ok { IfOk result (λ reply. self.new
            ≡ after_event self.old (Push host.now) (reply_value reply)) }
        ensures full { IfErr result (λ fault. fault ≡ StepFault.ClockFull → event_lacks_counter
            self.old.tables self.old.number self.old.state.holding (Push host.now) ≡ true) }
        ensures memory { IfErr result (λ fault. fault ≢ StepFault.HistoryFull) }
        ensures err { OnErr result (self.new ≡ self.old) }
    {
        self.note_kept();
        let host = host.as_ref().map(|host| host.as_slice());
        Ok(Reply::Pushed(self.push_seen_by(host, witness)?))
    }

    /// Aborts as an event asks for it.
    fn step_abort<W: Witness>(
        &mut self,
        host: &Option<DiameterIdentity>,
        witness: &mut W,
    ) -> Result<Reply, StepFault>
        ensures reply { IfOk result (λ reply. SiteMayReply self.old
            (Abort host.now) (reply_value reply)) }
        ensures saw { IfOk result (λ reply. W.saw witness.new (reply_value reply)) }
        ensures ok { IfOk result (λ reply. self.new
            ≡ after_event self.old (Abort host.now) (reply_value reply)) }
        ensures full { IfErr result (λ fault. fault ≡ StepFault.ClockFull → event_lacks_counter
            self.old.tables self.old.number self.old.state.holding (Abort host.now) ≡ true) }
        ensures memory { IfErr result (λ fault. fault ≢ StepFault.HistoryFull) }
        ensures err { OnErr result (self.new ≡ self.old) }
    {
        self.note_kept();
        let host = host.as_ref().map(|host| host.as_slice());
        Ok(Reply::Aborted(self.abort_seen_by(host, witness)?))
    }

    /// Retells as an event asks for it.
    fn step_retell(&mut self, session: &GxSid) -> Result<Reply, StepFault>
        ensures plain { IfOk result (λ reply. is_plain reply ≡ true) }
        ensures reply { IfOk result (λ reply. SiteMayReply self.old
            (Retell session.now) (reply_value reply)) }
        ensures ok { IfOk result (λ reply. self.new
            ≡ after_event self.old (Retell session.now) (reply_value reply)) }
        ensures full { IfErr result (λ fault. fault ≡ StepFault.ClockFull → event_lacks_counter
            self.old.tables self.old.number self.old.state.holding (Retell session.now) ≡ true) }
        ensures memory { IfErr result (λ fault. fault ≢ StepFault.HistoryFull) }
        ensures err { OnErr result (self.new ≡ self.old) }
    {
        self.note_kept();
        Ok(Reply::Retold(self.retell(session)?))
    }

    /// Takes the operations of an event.
    fn step_take(&mut self, operations: &[Operation]) -> Reply
        ensures plain { is_plain result ≡ true }
        ensures reply { SiteMayReply self.old (Ops operations.now) (reply_value result) }
        ensures ok { self.new ≡ after_event self.old (Ops operations.now) (reply_value result) }
    {
        match self.take_all(operations) {
            Ok(()) => Reply::Taken(operations.len()),
            Err((count, _)) => Reply::Taken(count),
        }
    }

    /// Takes the state of an event.
    fn step_whole(&mut self, state: &State) -> Result<Reply, StepFault>
        ensures plain { IfOk result (λ reply. is_plain reply ≡ true) }
        ensures reply { IfOk result (λ reply. SiteMayReply self.old
            (Whole state.now) (reply_value reply)) }
        ensures ok { IfOk result (λ reply. self.new
            ≡ after_event self.old (Whole state.now) (reply_value reply)) }
        ensures memory { IfErr result (λ fault. fault ≡ StepFault.NoMemory) }
        ensures err { OnErr result (self.new ≡ self.old) }
    {
        match self.take_state(state) {
            Ok(()) => Ok(Reply::Done),
            Err(_) => Err(StepFault::NoMemory),
        }
    }

    /// Tells the operations that an event asks for.
    fn step_ask_own<W: Witness>(&self, from: u64, witness: &mut W) -> Result<Reply, StepFault>
        ensures reply { IfOk result (λ reply. SiteMayReply self.now
            (AskOwn from) (reply_value reply)) }
        ensures saw { IfOk result (λ reply. W.saw witness.new (reply_value reply)) }
        ensures ok { IfOk result (λ reply. self.now
            ≡ after_event self.now (AskOwn from) (reply_value reply)) }
        ensures memory { IfErr result (λ fault. fault ≡ StepFault.NoMemory) }
    {
        self.note_kept();
        let Ok((operations, length)) = self.own_since(from) else {
            return Err(StepFault::NoMemory);
        };
        match shown(Reply::Own(operations, length), witness) {
            Ok(reply) => Ok(reply),
            Err(_) => Err(StepFault::NoMemory),
        }
    }

    /// Tells all that the site holds.
    fn step_ask_whole<W: Witness>(&self, witness: &mut W) -> Result<Reply, StepFault>
        ensures reply { IfOk result (λ reply. SiteMayReply self.now AskWhole (reply_value reply)) }
        ensures saw { IfOk result (λ reply. W.saw witness.new (reply_value reply)) }
        ensures ok { IfOk result (λ reply. self.now
            ≡ after_event self.now AskWhole (reply_value reply)) }
        ensures memory { IfErr result (λ fault. fault ≡ StepFault.NoMemory) }
    {
        self.note_kept();
        let Ok((state, length)) = self.whole() else {
            return Err(StepFault::NoMemory);
        };
        match shown(Reply::Copy(state, length), witness) {
            Ok(reply) => Ok(reply),
            Err(_) => Err(StepFault::NoMemory),
        }
    }
}
