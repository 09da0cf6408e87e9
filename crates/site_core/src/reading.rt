//! From the bytes of a message to the request that it asks to serve.
ghost use Rattle.std.specs.Prelude.{◌≡◌, ◌≤◌, ◌<◌, [], length, None, IfOk, OnOk, IfErr, Ok};
ghost use Rattle.dia_codec.specs.Limits.{header_bytes, command_bound};
ghost use Rattle.dia_codec.specs.Reading.{avps_of};
ghost use Rattle.dia_codec.specs.Spelling.{avp_views, message_view};
ghost use Rattle.dia_base.specs.Rows.{IsFaultOf};
ghost use Rattle.site_core.specs.Asking.{HeaderFits, ToRefuse, asked_value, command_of, fault_refusal, meaning_of_frame, meaning_of_request, meaning_of_table, request_of, session_among, session_if_cut, table_refusal};
ghost use Rattle.site_machine.specs.Values.{request_value};

use dia_base::codes::results::{
    APPLICATION_UNSUPPORTED, COMMAND_UNSUPPORTED, INVALID_AVP_LENGTH, INVALID_HDR_BITS,
    UNSUPPORTED_VERSION,
};
use dia_base::codes::{GX, RX, avps, commands};
use dia_base::{ReadFault, base_key, first_with, is_base_command, read_base};
use dia_codec::{
    Avp, HEADER_BYTES, Header, Message, MsgFault, read_group, read_header, read_message_with,
};
use gx_profile::read_ccr;
use pcrf_values::{Refusal, SessionId};
use rx_profile::{read_aar, read_str};
use site_machine::Request;
use std::alloc::{AllocError, Global};

/// What a frame asks for.
#[derive(Drop)]
pub enum Asked {
    /// To serve a request that was read.
    Request(Header, Request),
    /// To be refused, with the Session-Id where one is known.
    Refused(Header, Option<SessionId>, Refusal),
    /// Nothing: an answer of the peer's.
    Silent,
}

/// The first Session-Id among AVPs, unless it is empty or too long.
fn session_among(alloc: Global, avps: &[Avp<'_>]) -> Result<Option<SessionId>, AllocError>
    ensures { IfOk result (λ session. session ≡ session_among (avp_views avps.now)) }
{
    let Some(avp) = first_with(avps, base_key(avps::SESSION_ID)) else {
        return Ok(None);
    };
    SessionId::read(alloc, avp.text())
}

/// The first Session-Id of a frame, if its AVPs can be cut, whatever its header says.
fn session_if_cut(alloc: Global, bytes: &[u8]) -> Result<Option<SessionId>, AllocError>
    ensures { IfOk result (λ session. session ≡ session_if_cut (avps_of bytes.now)) }
{
    match read_group(alloc, bytes) {
        Ok(avps) => session_among(alloc, avps.as_slice()),
        Err(MsgFault::NoMemory) => Err(AllocError),
        Err(_) => Ok(None),
    }
}

/// The refusal of a frame that is no message of this version, flags and AVP lengths (RFC 6733, 7.1.3 and 7.1.5).
fn fault_refusal(fault: MsgFault) -> Refusal
    ensures { result ≡ fault_refusal fault }
{
    match fault {
        MsgFault::BadVersion => Refusal::base(UNSUPPORTED_VERSION),
        MsgFault::BadFlags => Refusal::base(INVALID_HDR_BITS),
        MsgFault::BadAvpLength | MsgFault::NotWhole | MsgFault::NoMemory => {
            Refusal::base(INVALID_AVP_LENGTH)
        }
    }
}

/// What a request asks for.
#[derive(Clone, Copy)]
enum Command {
    /// Credit control, under Gx.
    CreditControl,
    /// To set up or change a session of an application function, under Rx.
    Authorization,
    /// To end one, under Rx.
    SessionTermination,
    /// Something of the base protocol.
    Base,
}

/// What a request asks for, by its application and its command; those that aren't served are refused.
fn command_of(header: &Header) -> Result<Command, Refusal>
    ensures { result ≡ command_of header.now }
{
    let application = header.application;
    if application != 0 && application != GX && application != RX {
        return Err(Refusal::base(APPLICATION_UNSUPPORTED));
    }
    if application == GX && header.command == commands::CREDIT_CONTROL {
        return Ok(Command::CreditControl);
    }
    if application == RX && header.command == commands::AUTHORIZATION {
        return Ok(Command::Authorization);
    }
    if application == RX && header.command == commands::SESSION_TERMINATION {
        return Ok(Command::SessionTermination);
    }
    if application == 0 && is_base_command(header.command) {
        return Ok(Command::Base);
    }
    Err(Refusal::base(COMMAND_UNSUPPORTED))
}

/// The request that a message of a command asks to serve.
fn read_as(alloc: Global, command: Command, message: &Message<'_>) -> Result<Request, ReadFault>
    ensures served { OnOk result (table_refusal command (message_view message.now) ≡ None) }
    ensures read { IfOk result (λ request.
        request_value request ≡ request_of command (message_view message.now)) }
    ensures refused { IfErr result
        (IsFaultOf (table_refusal command (message_view message.now))) }
{
    match command {
        Command::CreditControl => Ok(Request::Ccr(read_ccr(alloc, message)?)),
        Command::Authorization => Ok(Request::Aar(read_aar(alloc, message)?)),
        Command::SessionTermination => Ok(Request::Str(read_str(alloc, message)?)),
        Command::Base => Ok(Request::Base(read_base(alloc, message)?)),
    }
}

/// A message that is to be refused.
pub(crate) fn refused(
    alloc: Global,
    message: &Message<'_>,
    refusal: Refusal,
) -> Result<Asked, AllocError>
    requires { message.now.header.command < command_bound }
    ensures asked { IfOk result (λ asked. asked_value asked ≡ ToRefuse message.now.header
        (session_among (avp_views message.now.avps.items)) refusal) }
    ensures command { IfOk result HeaderFits }
{
    let session = session_among(alloc, message.avps.as_slice())?;
    Ok(Asked::Refused(message.header, session, refusal))
}

/// What a message of a command asks for.
fn asked_as(alloc: Global, command: Command, message: &Message<'_>) -> Result<Asked, AllocError>
    requires { message.now.header.command < command_bound }
    ensures asked { IfOk result (λ asked. asked_value asked ≡ meaning_of_table command
        (message_view message.now) (table_refusal command (message_view message.now))) }
    ensures command { IfOk result HeaderFits }
{
    match read_as(alloc, command, message) {
        Ok(request) => Ok(Asked::Request(message.header, request)),
        Err(ReadFault::NoMemory) => Err(AllocError),
        Err(ReadFault::Refused(refusal)) => refused(alloc, message, refusal),
    }
}

/// What a message asks for.
pub(crate) fn asked_by(alloc: Global, message: &Message<'_>) -> Result<Asked, AllocError>
    requires { message.now.header.command < command_bound }
    ensures asked { IfOk result (λ asked.
        asked_value asked ≡ meaning_of_request [] (Ok (message_view message.now))) }
    ensures command { IfOk result HeaderFits }
{
    match command_of(&message.header) {
        Ok(command) => asked_as(alloc, command, message),
        Err(refusal) => refused(alloc, message, refusal),
    }
}

/// What a request asks for whose message can't be read, whose AVPs are these bytes.
pub(crate) fn unread(
    alloc: Global,
    header: Header,
    bytes: &[u8],
    fault: MsgFault,
) -> Result<Asked, AllocError>
    requires { header.command < command_bound }
    ensures asked { IfOk result (λ asked. asked_value asked
        ≡ ToRefuse header (session_if_cut (avps_of bytes.now)) (fault_refusal fault)) }
    ensures command { IfOk result HeaderFits }
{
    let session = session_if_cut(alloc, bytes)?;
    Ok(Asked::Refused(header, session, fault_refusal(fault)))
}

/// What a frame asks for: an answer of the peer's is passed over, whatever else is wrong with it; then the first of
/// these refuses: the version, the flags, the lengths of the AVPs, the application, the command, the command's table.
#[tactic(auto, unfolding(crate::specs::Asking::meaning_of_frame))]
pub fn read_request(alloc: Global, frame: &[u8]) -> Result<Asked, AllocError>
    requires { header_bytes ≤ length frame.now }
    ensures asked { IfOk result (λ asked. asked_value asked ≡ meaning_of_frame frame.now) }
    ensures command { IfOk result HeaderFits }
{
    let Some((first, rest)) = frame.split_first_chunk::<HEADER_BYTES>() else {
        unreachable!()
    };
    let header = read_header(first);
    if !header.flags.request {
        return Ok(Asked::Silent);
    }
    match read_message_with(alloc, header, frame) {
        Ok(message) => asked_by(alloc, &message),
        Err(MsgFault::NoMemory) => Err(AllocError),
        Err(fault) => unread(alloc, header, rest, fault),
    }
}
