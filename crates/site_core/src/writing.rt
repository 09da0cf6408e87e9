//! From the reply to the bytes of the answer.
ghost use Rattle.std.specs.Prelude.{◌≡◌, ◌≢◌, ◌<◌, ◌≤◌, [], is_some, true, IfOk, IfErr, OnOk};
ghost use Rattle.std.specs.Option.{option_copied};
ghost use Rattle.dia_codec.specs.declared.fault.WriteFault.TheVariants as write;
ghost use Rattle.dia_codec.specs.Drafts.{Adds};
ghost use Rattle.dia_codec.specs.Limits.{command_bound, longest_message};
ghost use Rattle.dia_codec.specs.Written.{written_len, written_spelling};
ghost use Rattle.dia_base.specs.Answers.{IsShortId, refusal_answer};
ghost use Rattle.gx_profile.specs.Answers.{cca};
ghost use Rattle.rx_profile.specs.Answers.{aaa, sta};
ghost use Rattle.dia_base.specs.NeighbourAnswers.{base_answer};
ghost use Rattle.dia_base.specs.NeighbourRequests.{base_view};
ghost use Rattle.gx_profile.specs.Requests.{ccr_view};
ghost use Rattle.site_core.specs.Answering.{answer_bytes, answer_message, answer_to, busy_answer, bytes_by, is_answer_message, is_of_kind, message_avps, refusal_bytes, to_function, to_gateway, to_peer, with_error};
ghost use Rattle.site_machine.specs.Values.{reply_value, request_value};

use crate::session_ids::lacks_session;
use dia_base::{
    AvpWriter, BaseRequest, Identity, MessageForm, answer_header, put_origin, put_result,
    write_base_answer, write_refusal_answer,
};
use dia_codec::{Header, WriteFault};
use gx_profile::{Ccr, GxReply, write_cca};
use pcrf_values::{AfSid, Refusal, SessionId};
use rx_profile::{write_aaa, write_sta};
use site_machine::{Reply, Request};
use std::alloc::{AllocError, Global};

/// The bytes of the answer to a credit control request.
#[tactic(auto, using(crate::proofs::AnswerBytes::answered, crate::proofs::AnswerBytes::some_bytes))]
fn write_gx(
    alloc: Global,
    identity: &Identity,
    header: &Header,
    ccr: &Ccr,
    reply: &Reply,
) -> Result<Vec<u8>, AllocError>
    requires { header.now.command < command_bound }
    ensures bytes { IfOk result (λ bytes. bytes.items
        ≡ bytes_by (cca identity.now header.now (ccr_view ccr.now))
        (to_gateway (reply_value reply.now))) }
    ensures some { IfOk result (λ bytes.
        is_some (to_gateway (reply_value reply.now)) ≡ true → bytes.items ≢ []) }
{
    let Reply::Gx(reply) = reply else {
        return Ok(Vec::new(alloc));
    };
    let bytes = write_cca(alloc, identity, header, ccr, reply)?;
    Ok(bytes)
}

/// What an application function's request came to, if that is what is replied.
fn to_function(reply: &Reply) -> Option<Option<Refusal>>
    ensures { result ≡ to_function (reply_value reply.now) }
{
    match reply {
        Reply::Done => Some(None),
        Reply::Refused(refusal) => Some(Some(*refusal)),
        _ => None,
    }
}

/// The bytes of the answer to an AA request of a session.
#[tactic(auto, using(crate::proofs::AnswerBytes::answered, crate::proofs::AnswerBytes::some_bytes))]
fn write_aa(
    alloc: Global,
    identity: &Identity,
    header: &Header,
    session: &AfSid,
    reply: &Reply,
) -> Result<Vec<u8>, AllocError>
    requires { header.now.command < command_bound }
    ensures bytes { IfOk result (λ bytes. bytes.items
        ≡ bytes_by (aaa identity.now header.now session.now) (to_function (reply_value reply.now))) }
    ensures some { IfOk result (λ bytes.
        is_some (to_function (reply_value reply.now)) ≡ true → bytes.items ≢ []) }
{
    let Some(refusal) = to_function(reply) else {
        return Ok(Vec::new(alloc));
    };
    let bytes = write_aaa(alloc, identity, header, session, refusal)?;
    Ok(bytes)
}

/// The bytes of the answer to a session termination request of a session.
#[tactic(auto, using(crate::proofs::AnswerBytes::answered, crate::proofs::AnswerBytes::some_bytes))]
fn write_termination(
    alloc: Global,
    identity: &Identity,
    header: &Header,
    session: &AfSid,
    reply: &Reply,
) -> Result<Vec<u8>, AllocError>
    requires { header.now.command < command_bound }
    ensures bytes { IfOk result (λ bytes. bytes.items
        ≡ bytes_by (sta identity.now header.now session.now) (to_function (reply_value reply.now))) }
    ensures some { IfOk result (λ bytes.
        is_some (to_function (reply_value reply.now)) ≡ true → bytes.items ≢ []) }
{
    let Some(refusal) = to_function(reply) else {
        return Ok(Vec::new(alloc));
    };
    let bytes = write_sta(alloc, identity, header, session, refusal)?;
    Ok(bytes)
}

/// The bytes of the answer to a request of the base protocol.
#[tactic(auto, using(crate::proofs::AnswerBytes::answered, crate::proofs::AnswerBytes::some_bytes))]
fn write_base(
    alloc: Global,
    identity: &Identity,
    header: &Header,
    request: &BaseRequest,
    reply: &Reply,
) -> Result<Vec<u8>, AllocError>
    requires { header.now.command < command_bound }
    ensures bytes { IfOk result (λ bytes. bytes.items ≡ bytes_by
        (λ _. base_answer identity.now header.now (base_view request.now))
        (to_peer (reply_value reply.now))) }
    ensures some { IfOk result (λ bytes.
        is_some (to_peer (reply_value reply.now)) ≡ true → bytes.items ≢ []) }
{
    let Reply::Base(_) = reply else {
        return Ok(Vec::new(alloc));
    };
    let bytes = write_base_answer(alloc, identity, header, request)?;
    Ok(bytes)
}

/// The bytes of the answer to a request that was served: some where the reply is of the request's kind, and none where it
/// is of another.
pub fn write_reply(
    alloc: Global,
    identity: &Identity,
    header: &Header,
    request: &Request,
    reply: &Reply,
) -> Result<Vec<u8>, AllocError>
    requires { header.now.command < command_bound }
    ensures bytes { IfOk result (λ bytes.
        bytes.items ≡ answer_to identity.now header.now
        (request_value request.now) (reply_value reply.now)) }
    ensures some { IfOk result (λ bytes. is_of_kind
        (request_value request.now) (reply_value reply.now) ≡ true → bytes.items ≢ []) }
{
    match request {
        Request::Ccr(ccr) => write_gx(alloc, identity, header, ccr, reply),
        Request::Aar(aar) => write_aa(alloc, identity, header, &aar.session, reply),
        Request::Str(call) => write_termination(alloc, identity, header, &call.session, reply),
        Request::Base(request) => write_base(alloc, identity, header, request, reply),
    }
}

/// DIAMETER_TOO_BUSY (RFC 6733, 7.1.3).
const TOO_BUSY: u32 = 3004;

/// The bytes of the answer to a request for which there is no room.
pub(crate) fn write_busy(
    alloc: Global,
    identity: &Identity,
    header: &Header,
    request: &Request,
) -> Result<Vec<u8>, AllocError>
    requires { header.now.command < command_bound }
    ensures { IfOk result (λ bytes.
        bytes.items ≡ busy_answer identity.now header.now (request_value request.now)) }
{
    let busy = Refusal::base(TOO_BUSY);
    match request {
        Request::Ccr(_) => {
            let reply = Reply::Gx(GxReply::Refused(busy));
            write_reply(alloc, identity, header, request, &reply)
        }
        Request::Aar(_) | Request::Str(_) => {
            let reply = Reply::Refused(busy);
            let written = write_reply(alloc, identity, header, request, &reply);
            drop(reply);
            written
        }
        Request::Base(_) => write_refusal(alloc, identity, header, None, busy),
    }
}

/// The bytes of a Session-Id, where there is one.
fn bytes_of_id(session: Option<&SessionId>) -> Option<&[u8]>
    ensures bytes { option_copied result ≡ option_copied session.entry }
    ensures short { IsShortId (option_copied result) }
{
    match session {
        Some(id) => Some(id.as_slice()),
        None => None,
    }
}

/// A header with E.
fn with_error(header: Header) -> Header
    ensures { result ≡ with_error header }
{
    let mut header = header;
    header.flags.error = true;
    header
}

/// Whether an answer is an answer-message since it lacks its Session-Id, which matters in the standards' form alone.
fn is_answer_message(identity: &Identity, header: &Header, session: Option<&SessionId>) -> bool
    ensures { result
        ≡ is_answer_message identity.now header.now (option_copied session.entry) }
{
    match identity.form {
        MessageForm::Own => false,
        MessageForm::Standard => lacks_session(header, session),
    }
}

/// The AVPs of an answer-message without a Session-Id (RFC 6733, 7.2).
fn message_avps(
    alloc: Global,
    identity: &Identity,
    refusal: Refusal,
) -> Result<AvpWriter, AllocError>
    ensures { IfOk result (λ out. Adds [] out (message_avps identity.now refusal)) }
{
    let mut out = AvpWriter::start(alloc)?;
    put_origin(&mut out, identity)?;
    put_result(&mut out, Some(refusal))?;
    Ok(out)
}

/// The bytes of such an answer-message, if it fits a message.
#[tactic(auto, unfolding(crate::specs::Answering::answer_message))]
fn message_bytes(
    alloc: Global,
    identity: &Identity,
    header: &Header,
    refusal: Refusal,
) -> Result<Vec<u8>, WriteFault>
    ensures written { IfOk result (λ bytes.
        bytes.items ≡ written_spelling (answer_message identity.now header.now refusal)) }
    ensures fits { OnOk result (written_len
        (answer_message identity.now header.now refusal) ≤ longest_message) }
    ensures too_long { IfErr result (λ fault. fault ≡ write.TooLong → longest_message
        < written_len (answer_message identity.now header.now refusal)) }
{
    let out = message_avps(alloc, identity, refusal)?;
    match out.into_bytes(&with_error(answer_header(header, Some(refusal)))) {
        Some(bytes) => Ok(bytes),
        None => Err(WriteFault::TooLong),
    }
}

/// The bytes of an answer-message without a Session-Id, which are some.
#[tactic(auto, using(crate::proofs::AnswerBytes::answered, crate::proofs::AnswerBytes::unanswered, crate::proofs::AnswerBytes::some_bytes))]
fn write_answer_message(
    alloc: Global,
    identity: &Identity,
    header: &Header,
    refusal: Refusal,
) -> Result<Vec<u8>, AllocError>
    ensures bytes { IfOk result (λ bytes.
        bytes.items ≡ answer_bytes (answer_message identity.now header.now refusal)) }
    ensures some { IfOk result (λ bytes. bytes.items ≢ []) }
{
    identity.note_names();
    match message_bytes(alloc, identity, header, refusal) {
        Ok(bytes) => Ok(bytes),
        Err(WriteFault::TooLong) => Ok(Vec::new(alloc)),
        Err(WriteFault::NoMemory) => Err(AllocError),
    }
}

/// The bytes of the answer of its command to a request that could not be read, which are some.
#[tactic(auto, using(crate::proofs::AnswerBytes::answered, crate::proofs::AnswerBytes::unanswered, crate::proofs::AnswerBytes::some_bytes))]
fn write_command_refusal(
    alloc: Global,
    identity: &Identity,
    header: &Header,
    session: Option<&SessionId>,
    refusal: Refusal,
) -> Result<Vec<u8>, AllocError>
    ensures bytes { IfOk result (λ bytes. bytes.items ≡ answer_bytes
        (refusal_answer identity.now header.now refusal (option_copied session.entry))) }
    ensures some { IfOk result (λ bytes. bytes.items ≢ []) }
{
    identity.note_names();
    let id = bytes_of_id(session);
    match write_refusal_answer(alloc, identity, header, refusal, id) {
        Ok(bytes) => Ok(bytes),
        Err(WriteFault::TooLong) => Ok(Vec::new(alloc)),
        Err(WriteFault::NoMemory) => Err(AllocError),
    }
}

/// The bytes of the answer to a request that could not be read, which are some: in the standards' form an answer-message where the
/// answer of its command would lack its Session-Id.
pub fn write_refusal(
    alloc: Global,
    identity: &Identity,
    header: &Header,
    session: Option<&SessionId>,
    refusal: Refusal,
) -> Result<Vec<u8>, AllocError>
    requires { header.now.command < command_bound }
    ensures bytes { IfOk result (λ bytes.
        bytes.items ≡ refusal_bytes identity.now header.now (option_copied session.entry) refusal) }
    ensures some { IfOk result (λ bytes. bytes.items ≢ []) }
{
    if is_answer_message(identity, header, session) {
        write_answer_message(alloc, identity, header, refusal)
    } else {
        write_command_refusal(alloc, identity, header, session, refusal)
    }
}
