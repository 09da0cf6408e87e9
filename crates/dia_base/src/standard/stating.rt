//! What a node tells of its state: Origin-State-Id (RFC 6733, 8.16).
ghost use Rattle.std.specs.Prelude.{◌≡◌, IfOk};
ghost use Rattle.dia_codec.specs.Spelling.{owned_views};
ghost use Rattle.dia_base.specs.Stated.{may_tell_state, started_at, state_at_start, state_avps, state_avps_of, stated};

use crate::form::MessageForm;
use crate::identity::Identity;
use crate::standard::behind::put_behind;
use crate::standard::listed::{NEEDED, number_avp};
use dia_codec::{Header, OwnedAvp};
use std::alloc::{AllocError, Global};

/// Origin-State-Id.
const ORIGIN_STATE_ID: u32 = 278;

/// Disconnect-Peer (RFC 6733, 5.4).
const DISCONNECT_PEER: u32 = 282;

/// The base protocol's own messages (2.4).
const BASE: u32 = 0;

/// How many states there are.
const STATES: u64 = 1 << 32;

/// A state, where one is told.
fn state_avps(alloc: Global, state: Option<u32>) -> Result<Vec<OwnedAvp>, AllocError>
    ensures { IfOk result (λ avps. owned_views avps.items ≡ state_avps state) }
{
    let mut avps = Vec::new(alloc);
    if let Some(state) = state {
        avps.push(number_avp(alloc, ORIGIN_STATE_ID, NEEDED, state)?)?;
    }
    Ok(avps)
}

/// Whether the answer to a request of this header may tell a state: each but a Disconnect-Peer-Answer (RFC 6733, 10.1).
fn may_tell_state(header: &Header) -> bool
    ensures { result ≡ may_tell_state header.now }
{
    header.application != BASE || header.command != DISCONNECT_PEER
}

/// The state that an answer to a request of this header tells, where it tells one.
pub(crate) fn state_avps_of(
    alloc: Global,
    identity: &Identity,
    header: &Header,
) -> Result<Vec<OwnedAvp>, AllocError>
    ensures { IfOk result (λ avps.
        owned_views avps.items ≡ state_avps_of identity.now header.now) }
{
    if !may_tell_state(header) {
        return Ok(Vec::new(alloc));
    }
    state_avps(alloc, identity.state)
}

/// The bytes of a request of a node's own in its form: in the standards' with its Origin-State-Id behind, if it has one, where there is
/// room for it.
#[tactic(auto, unfolding(crate::specs::Stated::stated))]
pub fn stated(alloc: Global, identity: &Identity, bytes: Vec<u8>) -> Result<Vec<u8>, AllocError>
    ensures { IfOk result (λ told. told.items ≡ stated identity.now bytes.items) }
{
    match (identity.form, identity.state) {
        (MessageForm::Standard, Some(state)) => {
            let avps = state_avps(alloc, Some(state))?;
            put_behind(alloc, &avps, bytes)
        }
        (MessageForm::Own, _) | (MessageForm::Standard, None) => Ok(bytes),
    }
}

/// The state of a site that starts at so many seconds since 1970; of one that has peer sites, which hold its sessions, 0, and so where no
/// clock tells the time.
fn started_at(has_peers: bool, seconds: Option<u64>) -> u32
    ensures { result ≡ started_at has_peers seconds }
{
    match seconds {
        Some(seconds) if !has_peers => (seconds % STATES) as u32,
        _ => 0,
    }
}

/// The Origin-State-Id of a site that starts at so many seconds since 1970, if a clock tells them: none in this project's own form.
pub fn state_at_start(form: MessageForm, has_peers: bool, seconds: Option<u64>) -> Option<u32>
    ensures { result ≡ state_at_start form has_peers seconds }
{
    match form {
        MessageForm::Own => None,
        MessageForm::Standard => Some(started_at(has_peers, seconds)),
    }
}
