//! Answers in the form of whoever answers.
ghost use Rattle.std.specs.Prelude.{◌≡◌, ◌≤◌, length, drop, IfOk, option_map};
ghost use Rattle.std.specs.Option.{option_copied};
ghost use Rattle.dia_codec.specs.Limits.{header_bytes};
ghost use Rattle.dia_codec.specs.Spelling.{avp_views, owned_view};
ghost use Rattle.dia_base.specs.NeighbourRequests.{kind_view};
ghost use Rattle.dia_base.specs.Besides.{readable};
ghost use Rattle.site_core.specs.Asking.{asked_value};
ghost use Rattle.site_core.specs.Completing.{answered, answered_base, answered_refusal, answered_request, code_answered, code_by, completed, completed_there, completion_of, failed_by, refused_by, refused_request, with_failed};
ghost use Rattle.site_machine.specs.Values.{request_value};

use crate::failed_avps::failed_avp;
use crate::reading::Asked;
use crate::session_ids::lacks_session;
use dia_base::codes::avps::RESULT_CODE;
use dia_base::codes::results::MISSING_AVP;
use dia_base::{
    Answered, BaseKind, Identity, MessageForm, avps_besides, base_key, first_with, put_behind,
};
use dia_codec::{Avp, AvpKey, HEADER_BYTES, Header, MsgFault, OwnedAvp, read_group, read_header};
use pcrf_values::{Refusal, SessionId};
use site_machine::Request;
use std::alloc::{AllocError, Global};

/// What is answered, by what a peer asks.
fn answered_base(kind: &BaseKind) -> Answered
    ensures { result ≡ answered_base (kind_view kind.now) }
{
    match kind {
        BaseKind::CapabilitiesExchange(_) => Answered::Capabilities,
        BaseKind::DeviceWatchdog | BaseKind::DisconnectPeer => Answered::Other,
    }
}

/// What is answered, by what is to be served.
fn answered_request(request: &Request) -> Answered
    ensures { result ≡ answered_request (request_value request.now) }
{
    match request {
        Request::Base(base) => answered_base(&base.kind),
        Request::Ccr(_) | Request::Aar(_) | Request::Str(_) => Answered::Other,
    }
}

/// What is answered, by the refusal of what isn't served. A protocol error is told of by an answer-message, which is of no command (RFC
/// 6733, 7.1.3 and 7.2), and so is a refusal whose Session-Id lacks.
fn answered_refusal(header: &Header, session: Option<&SessionId>, refusal: Refusal) -> Answered
    ensures { result
        ≡ answered_refusal header.now (option_copied session.entry) refusal }
{
    if refusal.code / 1000 == 3 || lacks_session(header, session) {
        Answered::Other
    } else {
        Answered::Unread
    }
}

/// What is answered, by what a frame asks for.
fn answered(asked: &Asked) -> Answered
    ensures { result ≡ answered (asked_value asked.now) }
{
    match asked {
        Asked::Request(_, request) => answered_request(request),
        Asked::Refused(header, session, refusal) => {
            answered_refusal(header, session.as_ref(), *refusal)
        }
        Asked::Silent => Answered::Other,
    }
}

/// By which Result-Code a request is refused.
#[derive(Clone, Copy, Debug, PartialEq, Eq)]
enum RefusedBy {
    /// By none.
    NoCode,
    /// By this one.
    Code(u32),
    /// By DIAMETER_MISSING_AVP, if its answer says so.
    AsAnswered,
}

/// By which code a request may be refused that was read.
fn refused_request(request: &Request) -> RefusedBy
    ensures { result ≡ refused_request (request_value request.now) }
{
    match request {
        Request::Aar(_) => RefusedBy::AsAnswered,
        Request::Base(_) | Request::Ccr(_) | Request::Str(_) => RefusedBy::NoCode,
    }
}

/// By which code is refused what a frame asks for.
fn refused_by(asked: &Asked) -> RefusedBy
    ensures { result ≡ refused_by (asked_value asked.now) }
{
    match asked {
        Asked::Request(_, request) => refused_request(request),
        Asked::Refused(_, _, refusal) if !refusal.experimental => RefusedBy::Code(refusal.code),
        Asked::Refused(_, _, _) | Asked::Silent => RefusedBy::NoCode,
    }
}

/// How an answer is completed, by what is asked.
#[derive(Clone, Copy, Debug, PartialEq, Eq)]
pub(crate) struct Completion {
    answered: Answered,
    refused: RefusedBy,
}

/// How the answer to what a frame asks for is completed.
pub(crate) fn completion_of(asked: &Asked) -> Completion
    ensures { result ≡ completion_of (asked_value asked.now) }
{
    Completion {
        answered: answered(asked),
        refused: refused_by(asked),
    }
}

/// What stands behind the header of a message, if there is one.
fn behind_header(bytes: &[u8]) -> &[u8]
    ensures { result.now ≡ drop header_bytes bytes.now }
{
    bytes.get(HEADER_BYTES..).unwrap_or(&[])
}

/// The Result-Code of an answer.
fn code_answered(alloc: Global, plain: &[u8]) -> Result<Option<u32>, AllocError>
    ensures { IfOk result (λ code. code ≡ code_answered plain.now) }
{
    match read_group(alloc, behind_header(plain)) {
        Ok(avps) => Ok(number_at(&avps, base_key(RESULT_CODE))),
        Err(MsgFault::NoMemory) => Err(AllocError),
        Err(_) => Ok(None),
    }
}

/// The number at a key, where what stands there first has four bytes.
fn number_at(avps: &[Avp<'_>], key: AvpKey) -> Option<u32>
    ensures { result ≡ readable key (avp_views avps.now) }
{
    first_with(avps, key)?.number()
}

/// By which code an answer refuses a request.
fn code_by(alloc: Global, refused: RefusedBy, plain: &[u8]) -> Result<Option<u32>, AllocError>
    ensures { IfOk result (λ code. code ≡ code_by refused plain.now) }
{
    match refused {
        RefusedBy::NoCode => Ok(None),
        RefusedBy::Code(code) => Ok(Some(code)),
        RefusedBy::AsAnswered => match code_answered(alloc, plain)? {
            Some(MISSING_AVP) => Ok(Some(MISSING_AVP)),
            _ => Ok(None),
        },
    }
}

/// The Failed-AVP of an answer to a frame, if it tells of this code.
fn failed_by(
    alloc: Global,
    header: &Header,
    frame: &[u8],
    code: Option<u32>,
) -> Result<Option<OwnedAvp>, AllocError>
    requires { header_bytes ≤ length frame.now }
    ensures { IfOk result (λ failed.
        option_map owned_view failed ≡ failed_by header.now frame.now code) }
{
    match code {
        Some(code) => failed_avp(alloc, header, code, frame),
        None => Ok(None),
    }
}

/// An answer with this AVP behind its own, where there is room for it.
fn with_failed(
    alloc: Global,
    failed: Option<OwnedAvp>,
    bytes: Vec<u8>,
) -> Result<Vec<u8>, AllocError>
    ensures { IfOk result (λ both.
        both.items ≡ with_failed (option_map owned_view failed) bytes.items) }
{
    let Some(avp) = failed else {
        return Ok(bytes);
    };
    let only = [avp];
    put_behind(alloc, &only, bytes)
}

/// The bytes of an answer in the standards' form.
fn completed_there(
    alloc: Global,
    identity: &Identity,
    how: Completion,
    header: &Header,
    frame: &[u8],
    plain: Vec<u8>,
) -> Result<Vec<u8>, AllocError>
    requires { header_bytes ≤ length frame.now }
    ensures { IfOk result (λ bytes. bytes.items
        ≡ completed_there identity.now header.now how frame.now plain.items) }
{
    let code = code_by(alloc, how.refused, &plain)?;
    let failed = failed_by(alloc, header, frame, code)?;
    let avps = avps_besides(alloc, identity, how.answered, header, frame)?;
    let bytes = put_behind(alloc, &avps, plain)?;
    with_failed(alloc, failed, bytes)
}

/// The bytes of an answer to a frame in the form of whoever answers: in the standards' with what the answer has besides, and what is at
/// fault of a request that it refuses.
#[tactic(auto, unfolding(crate::specs::Completing::completed))]
pub(crate) fn completed(
    alloc: Global,
    identity: &Identity,
    how: Completion,
    frame: &[u8],
    plain: Vec<u8>,
) -> Result<Vec<u8>, AllocError>
    requires { header_bytes ≤ length frame.now }
    ensures { IfOk result (λ bytes.
        bytes.items ≡ completed identity.now how frame.now plain.items) }
{
    match identity.form {
        MessageForm::Own => Ok(plain),
        MessageForm::Standard => {
            let Some((first, _)) = frame.split_first_chunk::<HEADER_BYTES>() else {
                unreachable!()
            };
            let header = read_header(first);
            completed_there(alloc, identity, how, &header, frame, plain)
        }
    }
}
