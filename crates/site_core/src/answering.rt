//! What is answered to one frame, by whoever serves requests.
ghost use Rattle.std.specs.Prelude.{◌≡◌, ◌<◌, false, IfOk, OnErr};
ghost use Rattle.std.specs.Option.{option_copied};
ghost use Rattle.dia_codec.specs.Limits.{command_bound};
ghost use Rattle.dia_codec.specs.Spelling.{IsFrame};
ghost use Rattle.dia_base.specs.NeighbourRequests.{kind_view};
ghost use Rattle.site_core.specs.Answering.{answer_to, busy_answer, refusal_bytes};
ghost use Rattle.site_core.specs.Asking.{HeaderFits, ToServe, asked_value};
ghost use Rattle.site_core.specs.Frames.{Answers, AnswersFrame, IsServed, Unanswered, asks_to_disconnect, disconnects, is_disconnect, succeeds};
ghost use Rattle.site_core.specs.Realms.{meaning_at};
ghost use Rattle.site_machine.specs.Values.{reply_value, request_value};

use crate::completing::{completed, completion_of};
use crate::reading::Asked;
use crate::realms::read_request_at;
use crate::serving::{Serve, ServeFault};
use crate::writing::{write_busy, write_refusal, write_reply};
use dia_base::codes::results::SUCCESS;
use dia_base::{BaseKind, Identity};
use dia_codec::Header;
use pcrf_values::{Refusal, SessionId};
use site_machine::{Reply, Request};
use std::alloc::{AllocError, Global};

/// What a frame is answered.
#[derive(Drop)]
pub struct Answer {
    /// The bytes of the answer, none where there is none.
    pub bytes: Vec<u8>,
    /// Whether the stream ends here.
    pub last: bool,
}

/// Whether a peer asks for the end of the connection.
fn is_disconnect(kind: &BaseKind) -> bool
    ensures { result ≡ is_disconnect (kind_view kind.now) }
{
    match kind {
        BaseKind::DisconnectPeer => true,
        BaseKind::CapabilitiesExchange(_) | BaseKind::DeviceWatchdog => false,
    }
}

/// Whether a request is for the end of the connection.
fn asks_to_disconnect(request: &Request) -> bool
    ensures { result ≡ asks_to_disconnect (request_value request.now) }
{
    match request {
        Request::Base(base) => is_disconnect(&base.kind),
        Request::Ccr(_) | Request::Aar(_) | Request::Str(_) => false,
    }
}

/// Whether a request of the base protocol succeeded.
fn succeeds(reply: &Reply) -> bool
    ensures { result ≡ succeeds (reply_value reply.now) }
{
    match reply {
        Reply::Base(code) => *code == SUCCESS,
        _ => false,
    }
}

/// The answer to a request that was served.
fn answer_served(
    alloc: Global,
    identity: &Identity,
    header: &Header,
    request: &Request,
    reply: &Reply,
) -> Result<Answer, AllocError>
    requires { header.now.command < command_bound }
    ensures bytes { IfOk result (λ answer. answer.bytes.items ≡ answer_to identity.now
        header.now (request_value request.now) (reply_value reply.now)) }
    ensures ends { IfOk result (λ answer. answer.last
        ≡ disconnects (request_value request.now) (reply_value reply.now)) }
{
    let bytes = write_reply(alloc, identity, header, request, reply)?;
    Ok(Answer {
        bytes,
        last: asks_to_disconnect(request) && succeeds(reply),
    })
}

/// The answer to a request for which there is no room.
fn answer_busy(
    alloc: Global,
    identity: &Identity,
    header: &Header,
    request: &Request,
) -> Result<Answer, AllocError>
    requires { header.now.command < command_bound }
    ensures bytes { IfOk result (λ answer. answer.bytes.items
        ≡ busy_answer identity.now header.now (request_value request.now)) }
    ensures ends { IfOk result (λ answer. answer.last ≡ false) }
{
    let bytes = write_busy(alloc, identity, header, request)?;
    Ok(Answer { bytes, last: false })
}

/// Has a request served. Where memory runs out, it may have been served without an answer.
fn answer_request<S: Serve>(
    alloc: Global,
    server: &mut S,
    header: &Header,
    request: Request,
) -> Result<Answer, AllocError>
    requires { header.now.command < command_bound }
    ensures answered { IfOk result (λ answer. IsServed S.names S.may_reply S.is_full
        server.old header.now (request_value request)
        answer.bytes.items answer.last server.new) }
    ensures unanswered { OnErr result (Unanswered S.may_reply server.old
        (ToServe header.now (request_value request)) server.new) }
{
    let (request, served) = server.serve(request);
    match served {
        Ok(reply) => answer_served(alloc, server.identity(), header, &request, &reply),
        Err(ServeFault::Full) => answer_busy(alloc, server.identity(), header, &request),
        Err(ServeFault::NoMemory) => Err(AllocError),
    }
}

/// Refuses a request that could not be read, or isn't served.
fn answer_refused(
    alloc: Global,
    identity: &Identity,
    header: &Header,
    session: Option<&SessionId>,
    refusal: Refusal,
) -> Result<Answer, AllocError>
    requires { header.now.command < command_bound }
    ensures answer { IfOk result (λ answer. answer.bytes.items
        ≡ refusal_bytes identity.now header.now (option_copied session.entry) refusal) }
    ensures ends { IfOk result (λ answer. answer.last ≡ false) }
{
    let bytes = write_refusal(alloc, identity, header, session, refusal)?;
    Ok(Answer { bytes, last: false })
}

/// Does what a frame asks for. Where memory runs out, a request may have been served without an answer.
fn answer_asked<S: Serve>(alloc: Global, server: &mut S, asked: Asked) -> Result<Answer, AllocError>
    requires { HeaderFits asked }
    ensures answered { IfOk result (λ answer. Answers S.names S.may_reply S.is_full
        server.old (asked_value asked) answer.bytes.items answer.last server.new) }
    ensures unanswered { OnErr result
        (Unanswered S.may_reply server.old (asked_value asked) server.new) }
{
    match asked {
        Asked::Request(header, request) => answer_request(alloc, server, &header, request),
        Asked::Refused(header, session, refusal) => {
            answer_refused(alloc, server.identity(), &header, session.as_ref(), refusal)
        }
        Asked::Silent => Ok(Answer {
            bytes: Vec::new(alloc),
            last: false,
        }),
    }
}

/// Has a frame answered: a request is served, or refused by its first fault, and what isn't one is passed over. The answer is in the
/// form of whoever answers. Where memory runs out, a request may have been served without an answer.
pub fn answer_frame<S: Serve>(
    alloc: Global,
    server: &mut S,
    frame: &[u8],
) -> Result<Answer, AllocError>
    requires { IsFrame frame.now }
    ensures answered { IfOk result (λ answer. AnswersFrame S.names S.may_reply S.is_full
        server.old frame.now answer.bytes.items answer.last server.new) }
    ensures unanswered { OnErr result
        (Unanswered S.may_reply server.old (meaning_at (S.names server.old) frame.now) server.new) }
{
    let asked = read_request_at(alloc, server.identity(), frame)?;
    let how = completion_of(&asked);
    let Answer { bytes, last } = answer_asked(alloc, server, asked)?;
    let bytes = completed(alloc, server.identity(), how, frame, bytes)?;
    Ok(Answer { bytes, last })
}
