//! AA requests (TS 29.214, 5.6.1).
ghost use Rattle.std.specs.Prelude.{◌≡◌, ◌↔◌, ◌≤◌, length, None, OnOk, IfOk, IfErr, IsTrue, option_map};
ghost use Rattle.std.specs.Net.Addr.{ipv4_octets};
ghost use Rattle.pcrf_values.specs.Texts.{small_letters};
ghost use Rattle.dia_codec.specs.Spelling.{avp_views};
ghost use Rattle.dia_base.specs.Avps.{called_station_id, framed_ip_address, framed_ipv6_prefix};
ghost use Rattle.dia_base.specs.Rows.{AcceptsAll, IsFaultOf, rows_refusal, value_of, prefix_at};
ghost use Rattle.dia_base.specs.Subscriptions.{subscribers_of};
ghost use Rattle.pcrf_values.specs.Limits.{components_limit};
ghost use Rattle.rx_profile.specs.Requests.{aar_of, aar_refusal, aar_rows, aar_view, access_rows, raw_view};

use crate::codes::avps::MEDIA_COMPONENT_DESCRIPTION;
use crate::component::Components;
use crate::media::RawComponent;
use dia_base::codes::avps::{CALLED_STATION_ID, FRAMED_IP_ADDRESS, FRAMED_IPV6_PREFIX, SESSION_ID};
use dia_base::{
    Origin, ReadFault, base_key, optional_address, optional_apn, optional_prefix, read_each,
    read_origin, read_subscribers, required_text, tgpp_key,
};
use dia_codec::{Avp, Message};
use pcrf_values::limits::COMPONENTS_LIMIT;
use pcrf_values::{AfSid, Apn, Exact, Ipv6Prefix, Ranked, Subscribers, same, same_address};
use std::alloc::{AllocError, Global};
use std::net::Ipv4Addr;

/// An AA request as it was read: what this profile asks of it, and nothing else.
#[derive(Debug, Drop)]
pub struct Aar {
    /// Session-Id, which names the application function's session.
    pub session: AfSid,
    /// Origin-Host and Origin-Realm: the application function.
    pub origin: Origin,
    /// Framed-IP-Address: the address of the subscriber's side of the media.
    pub address: Option<Ipv4Addr>,
    /// Framed-IPv6-Prefix: the prefix of the subscriber's side of the media.
    pub prefix: Option<Ipv6Prefix>,
    /// Called-Station-Id: the access point name, in small letters.
    pub apn: Option<Apn>,
    /// The Subscription-Ids, each once; None where none was given.
    pub subscribers: Option<Subscribers>,
    /// The Media-Component-Descriptions.
    pub components: Components,
}

impl Aar {
    /// An equal request.
    pub fn try_copy(&self) -> Result<Aar, AllocError>
        ensures { IfOk result (λ copy. aar_view copy ≡ aar_view self.now) }
    {
        let session = self.session.try_copy()?;
        let origin = self.origin.try_copy()?;
        let apn = self.apn.try_copy()?;
        let subscribers = self.subscribers.try_copy()?;
        let components = self.components.try_copy()?;
        Ok(Aar {
            session,
            origin,
            address: self.address,
            prefix: self.prefix,
            apn,
            subscribers,
            components,
        })
    }

    /// Both ask for the same.
    pub fn equal(&self, other: &Aar) -> bool
        ensures { IsTrue result ↔ (aar_view self.now ≡ aar_view other.now) }
    {
        same(&self.session, &other.session)
            && self.origin.equal(&other.origin)
            && same_address(self.address, other.address)
            && same(&self.prefix, &other.prefix)
            && same(&self.apn, &other.apn)
            && same(&self.subscribers, &other.subscribers)
            && self.components.equal(&other.components)
    }
}

/// Whom a call serves, and where: what it is bound by (TS 29.213, 5.2).
#[derive(Drop)]
struct Access {
    address: Option<Ipv4Addr>,
    prefix: Option<Ipv6Prefix>,
    subscribers: Option<Subscribers>,
    apn: Option<Apn>,
}

/// An AA request that keeps its rows, before its components are judged among themselves.
#[derive(Drop)]
struct RawAar {
    session: AfSid,
    origin: Origin,
    access: Access,
    components: Vec<RawComponent>,
}

/// Reads the Framed-IP-Address, the Framed-IPv6-Prefix, the Subscription-Ids and the Called-Station-Id.
fn read_access(alloc: Global, avps: &[Avp<'_>]) -> Result<Access, ReadFault>
    ensures accepted { OnOk result (AcceptsAll access_rows (avp_views avps.now)) }
    ensures address { IfOk result (λ access.
        option_map ipv4_octets access.address ≡ value_of framed_ip_address (avp_views avps.now)) }
    ensures prefix { IfOk result (λ access.
        access.prefix ≡ prefix_at framed_ipv6_prefix (avp_views avps.now)) }
    ensures subscribers { IfOk result (λ access.
        access.subscribers ≡ subscribers_of (avp_views avps.now)) }
    ensures apn { IfOk result (λ access.
        access.apn ≡ option_map small_letters (value_of called_station_id (avp_views avps.now))) }
    ensures refused { IfErr result (IsFaultOf (rows_refusal access_rows (avp_views avps.now))) }
{
    let address = optional_address(avps, base_key(FRAMED_IP_ADDRESS))?;
    let prefix = optional_prefix(avps, base_key(FRAMED_IPV6_PREFIX))?;
    let subscribers = read_subscribers(alloc, avps)?;
    let apn = optional_apn(alloc, avps, base_key(CALLED_STATION_ID))?;
    Ok(Access {
        address,
        prefix,
        subscribers,
        apn,
    })
}

/// Reads the rows of an AA request.
fn read_rows(alloc: Global, avps: &[Avp<'_>]) -> Result<RawAar, ReadFault>
    ensures accepted { OnOk result (AcceptsAll aar_rows (avp_views avps.now)) }
    ensures request { IfOk result (λ raw. raw_view raw ≡ aar_of (avp_views avps.now)) }
    ensures within { IfOk result (λ raw. length raw.components.items ≤ components_limit) }
    ensures refused { IfErr result (IsFaultOf (rows_refusal aar_rows (avp_views avps.now))) }
{
    let session = AfSid::of(required_text(alloc, avps, base_key(SESSION_ID))?);
    let origin = read_origin(alloc, avps)?;
    let access = read_access(alloc, avps)?;
    let key = tgpp_key(MEDIA_COMPONENT_DESCRIPTION);
    let components = read_each::<RawComponent>(alloc, avps, key, Some(COMPONENTS_LIMIT))?;
    Ok(RawAar {
        session,
        origin,
        access,
        components,
    })
}

/// Reads an AA request, or gives its first refusal: by its table, and then by what its components have to keep among
/// themselves.
pub fn read_aar(alloc: Global, message: &Message<'_>) -> Result<Aar, ReadFault>
    ensures accepted { OnOk result (aar_refusal (avp_views message.now.avps.items) ≡ None) }
    ensures request { IfOk result (λ aar.
        aar_view aar ≡ aar_of (avp_views message.now.avps.items)) }
    ensures refused { IfErr result
        (IsFaultOf (aar_refusal (avp_views message.now.avps.items))) }
{
    let raw = read_rows(alloc, message.avps.as_slice())?;
    let RawAar {
        session,
        origin,
        access,
        components,
    } = raw;
    let components = Components::judged(alloc, components)?;
    let Access {
        address,
        prefix,
        subscribers,
        apn,
    } = access;
    Ok(Aar {
        session,
        origin,
        address,
        prefix,
        apn,
        subscribers,
        components,
    })
}
