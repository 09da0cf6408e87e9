//! Credit control requests (TS 29.212, 5.6.2).
ghost use Rattle.std.specs.Prelude.{◌≡◌, ◌↔◌, OnOk, IfOk, IfErr, IsTrue, option_map};
ghost use Rattle.std.specs.Net.Addr.{ipv4_octets};
ghost use Rattle.pcrf_values.specs.Texts.{small_letters};
ghost use Rattle.dia_codec.specs.Spelling.{avp_views};
ghost use Rattle.dia_base.specs.Avps.{called_station_id, framed_ip_address, framed_ipv6_prefix};
ghost use Rattle.dia_base.specs.Rows.{Accepts, AcceptsAll, RefusesWith, IsFaultOf, rows_refusal, value_of, prefix_at};
ghost use Rattle.dia_base.specs.Subscriptions.{subscribers_of};
ghost use Rattle.gx_profile.specs.Requests.{access_rows, ccr_of, ccr_rows, ccr_table_refusal, ccr_view, kind_at, request_type_row};

use dia_base::codes::avps::{
    CALLED_STATION_ID, CC_REQUEST_NUMBER, CC_REQUEST_TYPE, FRAMED_IP_ADDRESS, FRAMED_IPV6_PREFIX,
    SESSION_ID,
};
use dia_base::{
    Origin, ReadFault, Refusal, base_key, optional_address, optional_apn, optional_prefix,
    read_origin, read_subscribers, required_number, required_number_within, required_text,
};
use dia_codec::{Avp, Message};
use pcrf_values::{
    Apn, Exact, GxSid, Ipv6Prefix, Ranked, RequestKind, Subscribers, same, same_address,
};
use std::alloc::{AllocError, Global};
use std::net::Ipv4Addr;

/// A credit control request as it was read: what this profile asks of it, and nothing else.
#[derive(Debug, Drop, PartialEq, Eq)]
pub struct Ccr {
    /// Session-Id, which names the gateway's session.
    pub session: GxSid,
    /// Origin-Host and Origin-Realm: the gateway.
    pub origin: Origin,
    /// CC-Request-Type.
    pub kind: RequestKind,
    /// CC-Request-Number, which orders the requests of one session.
    pub number: u32,
    /// Framed-IP-Address: the address that the gateway gave the subscriber.
    pub address: Option<Ipv4Addr>,
    /// Framed-IPv6-Prefix: the prefix that the gateway gave the subscriber.
    pub prefix: Option<Ipv6Prefix>,
    /// Called-Station-Id: the access point name, in small letters.
    pub apn: Option<Apn>,
    /// The Subscription-Ids, each once; None where none was given.
    pub subscribers: Option<Subscribers>,
}

impl Ccr {
    /// An equal request.
    pub fn try_copy(&self) -> Result<Ccr, AllocError>
        ensures { IfOk result (λ copy. ccr_view copy ≡ ccr_view self.now) }
    {
        let session = self.session.try_copy()?;
        let origin = self.origin.try_copy()?;
        let apn = self.apn.try_copy()?;
        let subscribers = self.subscribers.try_copy()?;
        Ok(Ccr {
            session,
            origin,
            kind: self.kind,
            number: self.number,
            address: self.address,
            prefix: self.prefix,
            apn,
            subscribers,
        })
    }

    /// Both ask for the same.
    pub fn equal(&self, other: &Ccr) -> bool
        ensures { IsTrue result ↔ (ccr_view self.now ≡ ccr_view other.now) }
    {
        same(&self.session, &other.session)
            && self.origin.equal(&other.origin)
            && self.kind == other.kind
            && self.number == other.number
            && same_address(self.address, other.address)
            && same(&self.prefix, &other.prefix)
            && same(&self.apn, &other.apn)
            && same(&self.subscribers, &other.subscribers)
    }
}

/// Whom a session serves, and where: what calls are bound by (TS 29.213, 5.2).
#[derive(Drop)]
struct Access {
    subscribers: Option<Subscribers>,
    address: Option<Ipv4Addr>,
    prefix: Option<Ipv6Prefix>,
    apn: Option<Apn>,
}

/// Reads the CC-Request-Type.
fn read_kind(avps: &[Avp<'_>]) -> Result<RequestKind, Refusal>
    ensures accepted { OnOk result (Accepts request_type_row (avp_views avps.now)) }
    ensures kind { IfOk result (λ kind. kind ≡ kind_at (avp_views avps.now)) }
    ensures refused { IfErr result (RefusesWith request_type_row (avp_views avps.now)) }
{
    let first = RequestKind::Initial.number();
    let last = RequestKind::Termination.number();
    let number = required_number_within(avps, base_key(CC_REQUEST_TYPE), first, last)?;
    let Some(kind) = RequestKind::from_number(number) else {
        unreachable!()
    };
    Ok(kind)
}

/// Reads the Subscription-Ids, the Framed-IP-Address, the Framed-IPv6-Prefix and the Called-Station-Id.
fn read_access(alloc: Global, avps: &[Avp<'_>]) -> Result<Access, ReadFault>
    ensures accepted { OnOk result (AcceptsAll access_rows (avp_views avps.now)) }
    ensures subscribers { IfOk result (λ access.
        access.subscribers ≡ subscribers_of (avp_views avps.now)) }
    ensures address { IfOk result (λ access.
        option_map ipv4_octets access.address ≡ value_of framed_ip_address (avp_views avps.now)) }
    ensures prefix { IfOk result (λ access.
        access.prefix ≡ prefix_at framed_ipv6_prefix (avp_views avps.now)) }
    ensures apn { IfOk result (λ access.
        access.apn ≡ option_map small_letters (value_of called_station_id (avp_views avps.now))) }
    ensures refused { IfErr result (IsFaultOf (rows_refusal access_rows (avp_views avps.now))) }
{
    let subscribers = read_subscribers(alloc, avps)?;
    let address = optional_address(avps, base_key(FRAMED_IP_ADDRESS))?;
    let prefix = optional_prefix(avps, base_key(FRAMED_IPV6_PREFIX))?;
    let apn = optional_apn(alloc, avps, base_key(CALLED_STATION_ID))?;
    Ok(Access {
        subscribers,
        address,
        prefix,
        apn,
    })
}

/// Reads a credit control request, or gives the first refusal of what breaks its table.
pub fn read_ccr(alloc: Global, message: &Message<'_>) -> Result<Ccr, ReadFault>
    ensures accepted { OnOk result (AcceptsAll ccr_rows (avp_views message.now.avps.items)) }
    ensures request { IfOk result (λ ccr.
        ccr_view ccr ≡ ccr_of (avp_views message.now.avps.items)) }
    ensures refused { IfErr result
        (IsFaultOf (ccr_table_refusal (avp_views message.now.avps.items))) }
{
    let avps = message.avps.as_slice();
    let session = GxSid::of(required_text(alloc, avps, base_key(SESSION_ID))?);
    let origin = read_origin(alloc, avps)?;
    let kind = read_kind(avps)?;
    let number = required_number(avps, base_key(CC_REQUEST_NUMBER))?;
    let access = read_access(alloc, avps)?;
    let Access {
        subscribers,
        address,
        prefix,
        apn,
    } = access;
    Ok(Ccr {
        session,
        origin,
        kind,
        number,
        address,
        prefix,
        apn,
        subscribers,
    })
}
