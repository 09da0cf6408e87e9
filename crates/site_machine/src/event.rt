//! What happens at a site, and what it replies.
ghost use Rattle.std.specs.Prelude.{◌≡◌, ◌↔◌, true, IfOk, IsOk, IsTrue};
ghost use Rattle.site_machine.specs.Replies.{is_plain};
ghost use Rattle.site_machine.specs.Values.{event_value, reply_value};

use crate::operations::same_operations;
use crate::request::Request;
use crate::site::copy_all;
use pcrf_model::{GxReply, PushOut};
use pcrf_values::{DiameterIdentity, Exact, GxSid, Ranked, Refusal, same};
use rx_profile::AbortOut;
use site_join::{Operation, State};
use std::alloc::AllocError;

/// What may happen at a site.
#[derive(Debug, Drop)]
pub enum Event {
    /// A request is to be served.
    Serve(Request),
    /// A gateway of this host is to be told what it was not told yet, one of any host where none is given.
    Push(Option<DiameterIdentity>),
    /// An application function of this host is to be asked to end a session that is bound to none, one of any host where none is
    /// given.
    Abort(Option<DiameterIdentity>),
    /// What the gateway of this session was told is to count as not there.
    Retell(GxSid),
    /// Operations of a letter are to be taken.
    Ops(Vec<Operation>),
    /// All that another site holds is to be taken.
    Whole(State),
    /// The operations that the site made itself are asked for, from a position on.
    AskOwn(u64),
    /// A copy of all that the site holds is asked for.
    AskWhole,
}

/// What a site replies to an event.
#[derive(Debug, Drop)]
pub enum Reply {
    /// To a credit control request.
    Gx(GxReply),
    /// To a request of an application function that is accepted, and to a state that was taken.
    Done,
    /// To one that is refused.
    Refused(Refusal),
    /// To a request of the base protocol, with the Result-Code.
    Base(u32),
    /// What was pushed; nothing where nothing was due.
    Pushed(Option<PushOut>),
    /// What was asked to end; nothing where no session is to be aborted.
    Aborted(Option<AbortOut>),
    /// Whether what a gateway was told counts as not there now: not where the session isn't live or its gateway was told nothing.
    Retold(bool),
    /// So many operations, the first of those that were given, stand taken: less than all only where memory was refused.
    Taken(usize),
    /// Operations that the site made itself, the first 100 if there are more, and how many it made in all.
    Own(Vec<Operation>, u64),
    /// A copy of all that the site holds, and how many operations it made itself.
    Copy(State, u64),
}

impl Event {
    /// An equal event.
    pub fn try_copy(&self) -> Result<Event, AllocError>
        ensures { IfOk result (λ copy. event_value copy ≡ event_value self.now) }
    {
        match self {
            Event::Serve(request) => Ok(Event::Serve(request.try_copy()?)),
            Event::Push(host) => Ok(Event::Push(host.try_copy()?)),
            Event::Abort(host) => Ok(Event::Abort(host.try_copy()?)),
            Event::Retell(session) => Ok(Event::Retell(session.try_copy()?)),
            Event::Ops(operations) => Ok(Event::Ops(copy_operations(operations)?)),
            Event::Whole(state) => Ok(Event::Whole(state.try_copy()?)),
            Event::AskOwn(from) => Ok(Event::AskOwn(*from)),
            Event::AskWhole => Ok(Event::AskWhole),
        }
    }

    /// The same would happen. It takes no memory.
    pub fn equal(&self, other: &Event) -> bool
        ensures { IsTrue result ↔ (event_value self.now ≡ event_value other.now) }
    {
        match (self, other) {
            (Event::Serve(ours), Event::Serve(theirs)) => ours.equal(theirs),
            (Event::Push(ours), Event::Push(theirs)) => same(ours, theirs),
            (Event::Abort(ours), Event::Abort(theirs)) => same(ours, theirs),
            (Event::Retell(ours), Event::Retell(theirs)) => same(ours, theirs),
            (Event::Ops(ours), Event::Ops(theirs)) => {
                same_operations(ours.as_slice(), theirs.as_slice())
            }
            (Event::Whole(ours), Event::Whole(theirs)) => ours.equal(theirs),
            (Event::AskOwn(ours), Event::AskOwn(theirs)) => *ours == *theirs,
            (Event::AskWhole, Event::AskWhole) => true,
            _ => false,
        }
    }
}

impl Reply {
    /// An equal reply. One that takes no memory is always copied.
    pub fn try_copy(&self) -> Result<Reply, AllocError>
        ensures equal { IfOk result (λ copy. reply_value copy ≡ reply_value self.now) }
        ensures plain { is_plain self.now ≡ true → IsOk result }
    {
        match self {
            Reply::Gx(reply) => Ok(Reply::Gx(reply.try_copy()?)),
            Reply::Done => Ok(Reply::Done),
            Reply::Refused(refusal) => Ok(Reply::Refused(*refusal)),
            Reply::Base(code) => Ok(Reply::Base(*code)),
            Reply::Pushed(Some(push)) => Ok(Reply::Pushed(Some(push.try_copy()?))),
            Reply::Pushed(None) => Ok(Reply::Pushed(None)),
            Reply::Aborted(Some(abort)) => Ok(Reply::Aborted(Some(abort.try_copy()?))),
            Reply::Aborted(None) => Ok(Reply::Aborted(None)),
            Reply::Retold(done) => Ok(Reply::Retold(*done)),
            Reply::Taken(count) => Ok(Reply::Taken(*count)),
            Reply::Own(operations, length) => {
                Ok(Reply::Own(copy_operations(operations)?, *length))
            }
            Reply::Copy(state, length) => Ok(Reply::Copy(state.try_copy()?, *length)),
        }
    }

    /// Both tell the same. It takes no memory.
    pub fn equal(&self, other: &Reply) -> bool
        ensures { IsTrue result ↔ (reply_value self.now ≡ reply_value other.now) }
    {
        match (self, other) {
            (Reply::Gx(ours), Reply::Gx(theirs)) => ours.equal(theirs),
            (Reply::Done, Reply::Done) => true,
            (Reply::Refused(ours), Reply::Refused(theirs)) => *ours == *theirs,
            (Reply::Base(ours), Reply::Base(theirs)) => *ours == *theirs,
            (Reply::Pushed(ours), Reply::Pushed(theirs)) => same_push(ours, theirs),
            (Reply::Aborted(ours), Reply::Aborted(theirs)) => same_abort(ours, theirs),
            (Reply::Retold(ours), Reply::Retold(theirs)) => *ours == *theirs,
            (Reply::Taken(ours), Reply::Taken(theirs)) => *ours == *theirs,
            (Reply::Own(ours, length), Reply::Own(theirs, other_length)) => {
                *length == *other_length && same_operations(ours.as_slice(), theirs.as_slice())
            }
            (Reply::Copy(ours, length), Reply::Copy(theirs, other_length)) => {
                *length == *other_length && ours.equal(theirs)
            }
            _ => false,
        }
    }
}

/// Both push the same, or nothing.
fn same_push(ours: &Option<PushOut>, theirs: &Option<PushOut>) -> bool
    ensures { IsTrue result ↔ (ours.now ≡ theirs.now) }
{
    match (ours, theirs) {
        (Some(ours), Some(theirs)) => ours.equal(theirs),
        (None, None) => true,
        _ => false,
    }
}

/// Both ask the same to end, or nothing.
fn same_abort(ours: &Option<AbortOut>, theirs: &Option<AbortOut>) -> bool
    ensures { IsTrue result ↔ (ours.now ≡ theirs.now) }
{
    match (ours, theirs) {
        (Some(ours), Some(theirs)) => ours.equal(theirs),
        (None, None) => true,
        _ => false,
    }
}

/// Equal operations, in order.
fn copy_operations(operations: &Vec<Operation>) -> Result<Vec<Operation>, AllocError>
    ensures { IfOk result (λ copies. copies.items ≡ operations.now.items) }
{
    copy_all(*operations.allocator(), operations.as_slice())
}
