//! What is noted of the calls of a site.
use crate::notes::SessionNotes;
use pcrf_values::limits::SITE_LIMIT;
use pcrf_values::{AfSid, GxSid, RequestKind};
use site_join::{Operation, SessionFacts, State};
use site_lock::{Event, Reply, Request};
use site_status::{Counter, Times};
use std::alloc::{AllocError, Global};
use std::sync::Wait;

/// What is noted of the calls of a site. To note a message takes no memory.
#[derive(Drop)]
pub struct Meters {
    /// How long they took.
    pub times: Times,
    /// How many operations of letters were taken, by the number of the site that made them.
    pub taken: Vec<Counter>,
    /// How many whole states of other sites were taken.
    pub wholes: Counter,
    /// Which sessions the site came to know of, if somebody reads that.
    pub sessions: Option<SessionNotes>,
    /// Which of them ended by a request, if somebody reads that.
    pub ended: Option<SessionNotes>,
}

/// Notes that somebody reads, or none.
fn notes_if(alloc: Global, is_read: bool) -> Result<Option<SessionNotes>, AllocError> {
    match is_read {
        true => Ok(Some(SessionNotes::start(alloc)?)),
        false => Ok(None),
    }
}

impl Meters {
    /// None was made. Sessions are noted, and that they ended, where somebody is to read that.
    pub fn start(
        alloc: Global,
        notes_sessions: bool,
        notes_ends: bool,
    ) -> Result<Meters, AllocError> {
        let mut taken = Vec::with_capacity(alloc, usize::from(SITE_LIMIT))?;
        for _ in 0..SITE_LIMIT {
            taken.push(Counter::start())?;
        }
        let times = Times::start(alloc)?;
        Ok(Meters {
            times,
            taken,
            wholes: Counter::start(),
            sessions: notes_if(alloc, notes_sessions)?,
            ended: notes_if(alloc, notes_ends)?,
        })
    }

    /// The site took an operation.
    fn count_operation(&self, rt: &impl Wait, operation: &Operation) {
        if let Some(count) = self.taken.get(usize::from(operation.site())) {
            count.add();
        }
        let Some(sessions) = &self.sessions else {
            return;
        };
        match operation.facts() {
            SessionFacts::Gx(id, _) => sessions.add_gateway(rt, id),
            SessionFacts::Af(id, _) => sessions.add_call(rt, id),
        }
    }

    /// The site granted an initial request of a gateway: others are of sessions that it knows.
    fn add_gateway(&self, rt: &impl Wait, id: &GxSid) {
        if let Some(sessions) = &self.sessions {
            sessions.add_gateway(rt, id);
        }
    }

    /// The site accepted a request of an application function.
    fn add_call(&self, rt: &impl Wait, id: &AfSid) {
        if let Some(sessions) = &self.sessions {
            sessions.add_call(rt, id);
        }
    }

    /// The site granted a request by which a gateway's session ends.
    fn end_gateway(&self, rt: &impl Wait, id: &GxSid) {
        if let Some(ended) = &self.ended {
            ended.add_gateway(rt, id);
        }
    }

    /// The site accepted one by which an application function's session ends.
    fn end_call(&self, rt: &impl Wait, id: &AfSid) {
        if let Some(ended) = &self.ended {
            ended.add_call(rt, id);
        }
    }

    /// The site granted a credit control request of that kind.
    fn add_granted(&self, rt: &impl Wait, kind: RequestKind, id: &GxSid) {
        match kind {
            RequestKind::Initial => self.add_gateway(rt, id),
            RequestKind::Update => {}
            RequestKind::Termination => self.end_gateway(rt, id),
        }
    }

    /// The site took all that another one holds.
    fn count_whole(&self, rt: &impl Wait, state: &State) {
        self.wholes.add();
        let Some(sessions) = &self.sessions else {
            return;
        };
        for (id, _) in state.all_gx() {
            sessions.add_taken_gateway(rt, id);
        }
        for (id, _) in state.all_af() {
            sessions.add_taken_call(rt, id);
        }
    }

    /// An event happened, and that was replied.
    pub(crate) fn note(&self, rt: &impl Wait, event: &Event, reply: &Reply) {
        match (event, reply) {
            (Event::Serve(Request::Ccr(ccr)), Reply::Gx(answer)) => {
                if answer.refusal().is_none() {
                    self.add_granted(rt, ccr.kind, &ccr.session);
                }
            }
            (Event::Serve(Request::Aar(aar)), Reply::Done) => {
                self.add_call(rt, &aar.session);
            }
            (Event::Serve(Request::Str(str)), Reply::Done) => {
                self.end_call(rt, &str.session);
            }
            (Event::Ops(operations), Reply::Taken(count)) => {
                for operation in operations.iter().take(*count) {
                    self.count_operation(rt, operation);
                }
            }
            (Event::Whole(state), Reply::Done) => self.count_whole(rt, state),
            _ => {}
        }
    }
}
