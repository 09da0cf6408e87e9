//! What an answer has besides its own AVPs.
ghost use Rattle.std.specs.Prelude.{◌≡◌, ◌≤◌, ◌++◌, length, IfOk, OnOk};
ghost use Rattle.dia_codec.specs.Limits.{header_bytes};
ghost use Rattle.dia_codec.specs.Spelling.{avp_views, owned_views};
ghost use Rattle.dia_base.specs.Besides.{avps_in, besides, is_cer, kind_avps, mark_avps, proxies, readable, request_number, request_type, type_of_number, unread_avps};
ghost use Rattle.dia_base.specs.Stated.{state_avps_of};

use crate::codes::{GX, avps, commands};
use crate::identity::Identity;
use crate::rows::{base_key, first_with};
use crate::standard::answered::Answered;
use crate::standard::listed::{NEEDED, number_avp};
use crate::standard::node::{node_avps, whole_node_avps};
use crate::standard::stating::state_avps_of;
use dia_codec::{Avp, AvpKey, HEADER_BYTES, Header, MsgFault, OwnedAvp, read_group};
use std::alloc::{AllocError, Global};

/// Proxy-Info (RFC 6733, 6.7.2).
const PROXY_INFO: u32 = 284;

/// Capabilities-Exchange (RFC 6733, 5.3).
const CAPABILITIES_EXCHANGE: u32 = 257;

/// The base protocol's own messages (RFC 6733, 2.4).
const BASE: u32 = 0;

/// INITIAL_REQUEST (RFC 8506, 8.3).
const INITIAL: u32 = 1;

/// UPDATE_REQUEST.
const UPDATE: u32 = 2;

/// EVENT_REQUEST, the last CC-Request-Type.
const EVENT: u32 = 4;

/// The AVPs of a frame; none where they can't be cut.
fn avps_in(alloc: Global, frame: &[u8]) -> Result<Vec<Avp<'_>>, AllocError>
    requires { header_bytes ≤ length frame.now }
    ensures { IfOk result (λ avps. avp_views avps.items ≡ avps_in frame.now) }
{
    let Some((_, rest)) = frame.split_first_chunk::<HEADER_BYTES>() else {
        unreachable!()
    };
    match read_group(alloc, rest) {
        Ok(avps) => Ok(avps),
        Err(MsgFault::NoMemory) => Err(AllocError),
        Err(_) => Ok(Vec::new(alloc)),
    }
}

/// The number at a key, where what stands there first has four bytes.
fn readable(avps: &[Avp<'_>], key: AvpKey) -> Option<u32>
    ensures { result ≡ readable key (avp_views avps.now) }
{
    first_with(avps, key)?.number()
}

/// CC-Request-Number, 0 where none can be read.
fn request_number(avps: &[Avp<'_>]) -> u32
    ensures { result ≡ request_number (avp_views avps.now) }
{
    readable(avps, base_key(avps::CC_REQUEST_NUMBER)).unwrap_or(0)
}

/// The CC-Request-Type of a request by its number.
fn type_of_number(number: u32) -> u32
    ensures { result ≡ type_of_number number }
{
    if number == 0 { INITIAL } else { UPDATE }
}

/// CC-Request-Type, where it is one that there is; else by the number.
fn request_type(given: Option<u32>, number: u32) -> u32
    ensures { result ≡ request_type given number }
{
    match given {
        Some(given) if INITIAL <= given && given <= EVENT => given,
        _ => type_of_number(number),
    }
}

/// The CC-Request-Type and CC-Request-Number of a credit control request.
fn mark_avps(alloc: Global, avps: &[Avp<'_>]) -> Result<Vec<OwnedAvp>, AllocError>
    ensures { IfOk result (λ marks. owned_views marks.items ≡ mark_avps (avp_views avps.now)) }
{
    let number = request_number(avps);
    let given = readable(avps, base_key(avps::CC_REQUEST_TYPE));
    let kind = request_type(given, number);
    let mut marks = Vec::with_capacity(alloc, 2)?;
    marks.push(number_avp(alloc, avps::CC_REQUEST_TYPE, NEEDED, kind)?)?;
    marks.push(number_avp(alloc, avps::CC_REQUEST_NUMBER, NEEDED, number)?)?;
    Ok(marks)
}

/// Whether a header is of a Capabilities-Exchange-Request.
fn is_cer(header: &Header) -> bool
    ensures { result ≡ is_cer header.now }
{
    header.application == BASE && header.command == CAPABILITIES_EXCHANGE
}

/// What the answer to a request has besides that could not be read.
fn unread_avps(
    alloc: Global,
    identity: &Identity,
    header: &Header,
    avps: &[Avp<'_>],
) -> Result<Vec<OwnedAvp>, AllocError>
    ensures { IfOk result (λ kind.
        owned_views kind.items ≡ unread_avps identity.now header.now (avp_views avps.now)) }
{
    if header.command == commands::CREDIT_CONTROL && header.application == GX {
        return mark_avps(alloc, avps);
    }
    if is_cer(header) {
        return whole_node_avps(alloc, identity);
    }
    Ok(Vec::new(alloc))
}

/// What stands before the way back.
fn kind_avps(
    alloc: Global,
    identity: &Identity,
    answered: Answered,
    header: &Header,
    avps: &[Avp<'_>],
) -> Result<Vec<OwnedAvp>, AllocError>
    ensures { IfOk result (λ kind. owned_views kind.items
        ≡ kind_avps identity.now answered header.now (avp_views avps.now)) }
{
    match answered {
        Answered::Capabilities => node_avps(alloc),
        Answered::Unread => unread_avps(alloc, identity, header, avps),
        Answered::Other => Ok(Vec::new(alloc)),
    }
}

/// Adds each Proxy-Info of a request as it came, in their order.
fn put_proxies(alloc: Global, out: &mut Vec<OwnedAvp>, avps: &[Avp<'_>]) -> Result<(), AllocError>
    ensures { OnOk result (owned_views out.new.items
        ≡ owned_views out.old.items ++ proxies (avp_views avps.now)) }
{
    for avp in avps {
        if avp.key() == base_key(PROXY_INFO) {
            out.push(avp.owned(alloc)?)?;
        }
    }
    Ok(())
}

/// Adds a node's Origin-State-Id, where it tells one in answers to requests of this header.
fn put_state(
    alloc: Global,
    out: &mut Vec<OwnedAvp>,
    identity: &Identity,
    header: &Header,
) -> Result<(), AllocError>
    ensures { OnOk result (owned_views out.new.items
        ≡ owned_views out.old.items ++ state_avps_of identity.now header.now) }
{
    let mut state = state_avps_of(alloc, identity, header)?;
    out.append(&mut state)
}

/// What an answer to the request of this header and frame has besides, in the standards' form: a credit control request that
/// could not be read its type and number, which RFC 8506, 3.2, asks of each answer; an exchange of capabilities the vendor whose
/// AVPs are understood, and one that could not be read all that a node says of itself; every answer the request's Proxy-Infos, as they
/// came, and the Origin-State-Id of whoever answers, if it has one.
#[tactic(auto, unfolding(crate::specs::Besides::besides))]
pub fn avps_besides(
    alloc: Global,
    identity: &Identity,
    answered: Answered,
    header: &Header,
    frame: &[u8],
) -> Result<Vec<OwnedAvp>, AllocError>
    requires { header_bytes ≤ length frame.now }
    ensures { IfOk result (λ avps.
        owned_views avps.items ≡ besides identity.now answered header.now frame.now) }
{
    let avps = avps_in(alloc, frame)?;
    let mut all = kind_avps(alloc, identity, answered, header, &avps)?;
    put_proxies(alloc, &mut all, &avps)?;
    put_state(alloc, &mut all, identity, header)?;
    Ok(all)
}
