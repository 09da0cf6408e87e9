//! What the standards' form refuses beside: requests for another realm, those with AVPs that have to be understood and aren't, and those
//! whose Session-Id isn't UTF-8.
ghost use Rattle.std.specs.Prelude.{◌≡◌, ◌<◌, ◌≤◌, length, option_copied, IfOk};
ghost use Rattle.dia_codec.specs.Limits.{command_bound, header_bytes};
ghost use Rattle.dia_codec.specs.Spelling.{avp_views, message_view};
ghost use Rattle.site_core.specs.Asking.{HeaderFits, asked_value};
ghost use Rattle.site_core.specs.Realms.{is_for_another, is_ill_named, is_other_realm, is_own_realm, is_understood, judged_at, meaning_at, meaning_here, realm_among, repeated_in, session_in};

use crate::failed_avps::{has_ill_formed_session, has_unsupported};
use crate::reading::{Asked, asked_by, refused, unread};
use crate::session_ids::{is_for_next_node, repeatable};
use dia_base::codes::avps;
use dia_base::codes::results::INVALID_AVP_VALUE;
use dia_base::{Identity, MessageForm, base_key, first_with};
use dia_codec::{Avp, HEADER_BYTES, Header, Message, MsgFault, read_header, read_message_with};
use pcrf_values::limits::IDENTITY_LIMIT;
use pcrf_values::{Refusal, SessionId};
use std::alloc::{AllocError, Global};

/// DIAMETER_REALM_NOT_SERVED (RFC 6733, 7.1.3).
const REALM_NOT_SERVED: u32 = 3003;

/// DIAMETER_AVP_UNSUPPORTED (RFC 6733, 7.1.5).
const AVP_UNSUPPORTED: u32 = 5001;

/// The Destination-Realm, unless it is empty or too long.
fn realm_among<'f>(avps: &[Avp<'f>]) -> Option<&'f [u8]>
    ensures { option_copied result ≡ realm_among (avp_views avps.now) }
{
    let realm = first_with(avps, base_key(avps::DESTINATION_REALM))?.text();
    if realm.is_empty() || realm.len() > IDENTITY_LIMIT {
        return None;
    }
    Some(realm)
}

/// Whether a realm is the node's own, whatever the case of its letters.
fn is_own_realm(identity: &Identity, realm: &[u8]) -> bool
    ensures { result ≡ is_own_realm identity.now realm.now }
{
    realm.eq_ignore_ascii_case(identity.realm.as_slice())
}

/// Whether AVPs name a realm that isn't the node's own.
fn is_other_realm(identity: &Identity, avps: &[Avp<'_>]) -> bool
    ensures { result ≡ is_other_realm identity.now (realm_among (avp_views avps.now)) }
{
    match realm_among(avps) {
        Some(realm) => !is_own_realm(identity, realm),
        None => false,
    }
}

/// Whether a request is for another realm, which a node looks at in the standards' form alone.
fn is_for_another(identity: &Identity, message: &Message<'_>) -> bool
    ensures { result ≡ is_for_another identity.now (message_view message.now) }
{
    match identity.form {
        MessageForm::Own => false,
        MessageForm::Standard => {
            !is_for_next_node(&message.header) && is_other_realm(identity, &message.avps)
        }
    }
}

/// Whether a node understands each AVP of a message that it has to, which it looks at in the standards' form alone.
fn is_understood(
    alloc: Global,
    identity: &Identity,
    message: &Message<'_>,
) -> Result<bool, AllocError>
    ensures { IfOk result (λ is_so. is_so ≡ is_understood identity.now (message_view message.now)) }
{
    match identity.form {
        MessageForm::Own => Ok(true),
        MessageForm::Standard => Ok(!has_unsupported(alloc, &message.header, &message.avps)?),
    }
}

/// Whether the Session-Id of a message isn't of its type, which a node looks at in the standards' form alone.
fn is_ill_named(identity: &Identity, message: &Message<'_>) -> bool
    ensures { result ≡ is_ill_named identity.now (message_view message.now) }
{
    match identity.form {
        MessageForm::Own => false,
        MessageForm::Standard => has_ill_formed_session(&message.header, &message.avps),
    }
}

/// What a message asks for that isn't for another realm.
fn asked_here(
    alloc: Global,
    identity: &Identity,
    message: &Message<'_>,
) -> Result<Asked, AllocError>
    requires { message.now.header.command < command_bound }
    ensures asked { IfOk result (λ asked.
        asked_value asked ≡ meaning_here identity.now (message_view message.now)) }
    ensures command { IfOk result HeaderFits }
{
    if !is_understood(alloc, identity, message)? {
        return refused(alloc, message, Refusal::base(AVP_UNSUPPORTED));
    }
    if is_ill_named(identity, message) {
        return refused(alloc, message, Refusal::base(INVALID_AVP_VALUE));
    }
    asked_by(alloc, message)
}

/// The Session-Id of a refused request that its answer repeats in this form.
fn session_in(form: MessageForm, header: &Header, session: Option<SessionId>) -> Option<SessionId>
    ensures { result ≡ session_in form header.now session }
{
    match form {
        MessageForm::Own => session,
        MessageForm::Standard => repeatable(header, session),
    }
}

/// What is asked, with the Session-Id that an answer in this form repeats.
fn repeated_in(form: MessageForm, asked: Asked) -> Asked
    requires { HeaderFits asked }
    ensures asked { asked_value result ≡ repeated_in form (asked_value asked) }
    ensures command { HeaderFits result }
{
    match asked {
        Asked::Request(header, request) => Asked::Request(header, request),
        Asked::Refused(header, session, refusal) => {
            let session = session_in(form, &header, session);
            Asked::Refused(header, session, refusal)
        }
        Asked::Silent => Asked::Silent,
    }
}

/// What a frame asks of the node of this identity, whichever Session-Id its answer repeats.
#[tactic(auto, unfolding(crate::specs::Realms::judged_at))]
fn judged_at(alloc: Global, identity: &Identity, frame: &[u8]) -> Result<Asked, AllocError>
    requires { header_bytes ≤ length frame.now }
    ensures asked { IfOk result (λ asked.
        asked_value asked ≡ judged_at identity.now frame.now) }
    ensures command { IfOk result HeaderFits }
{
    let Some((first, rest)) = frame.split_first_chunk::<HEADER_BYTES>() else {
        unreachable!()
    };
    let header = read_header(first);
    if !header.flags.request {
        return Ok(Asked::Silent);
    }
    match read_message_with(alloc, header, frame) {
        Ok(message) if is_for_another(identity, &message) => {
            refused(alloc, &message, Refusal::base(REALM_NOT_SERVED))
        }
        Ok(message) => asked_here(alloc, identity, &message),
        Err(MsgFault::NoMemory) => Err(AllocError),
        Err(fault) => unread(alloc, header, rest, fault),
    }
}

/// What a frame asks of the node of this identity: as `read_request` has it, but that in the standards' form a request for another realm
/// is refused, before its application, its command and its table are looked at, and one that is served where an AVP has M and isn't
/// recognized, or its Session-Id isn't UTF-8, before its table is; and that a refusal there repeats no Session-Id that isn't.
#[tactic(auto, unfolding(crate::specs::Realms::meaning_at))]
pub fn read_request_at(
    alloc: Global,
    identity: &Identity,
    frame: &[u8],
) -> Result<Asked, AllocError>
    requires { header_bytes ≤ length frame.now }
    ensures asked { IfOk result (λ asked.
        asked_value asked ≡ meaning_at identity.now frame.now) }
    ensures command { IfOk result HeaderFits }
{
    let asked = judged_at(alloc, identity, frame)?;
    Ok(repeated_in(identity.form, asked))
}
