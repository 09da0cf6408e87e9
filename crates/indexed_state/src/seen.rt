//! What an operator sees of sessions.
use af_records::{AfRequestType, ComponentValue, FlowValue};
use gx_records::{OpenRequestType, Told};
use lattice_core::SessionValue;
use pcrf_values::{AfSid, Apn, DiameterIdentity, Enumerated, GxSid, Ipv6Prefix, Rule, Subscribers};
use std::net::Ipv4Addr;

/// What is seen of a session.
#[derive(Drop)]
pub enum SessionSeen<S> {
    /// It is ended.
    Ended,
    /// Only some facts of it are known.
    Partial,
    /// It is live, with what it shows.
    Live(S),
}

/// The user of a gateway's live session, who is reached at an address, at a prefix or at both.
#[derive(Drop)]
pub struct GxUser {
    /// Framed-IP-Address, if the session shows one.
    pub address: Option<Ipv4Addr>,
    /// Framed-IPv6-Prefix (RFC 3162, 2.3), if the session shows one.
    pub prefix: Option<Ipv6Prefix>,
    /// Called-Station-Id.
    pub apn: Apn,
    /// Subscription-Id.
    pub subscribers: Subscribers,
}

/// The gateway of a live session.
#[derive(Drop)]
pub struct GxClient {
    /// Origin-Host.
    pub host: DiameterIdentity,
    /// Origin-Realm.
    pub realm: DiameterIdentity,
    /// CC-Request-Type of the last request.
    pub last: Enumerated<OpenRequestType>,
}

/// What a gateway's live session shows.
#[derive(Drop)]
pub struct GxSeen {
    pub user: GxUser,
    pub client: GxClient,
    /// The site that served the last request.
    pub home: u8,
    /// The PCC rules of the session, by precedence and name.
    pub rules: Vec<Rule>,
    /// The rules that the gateway was told, by name.
    pub told: Told,
}

/// A field of an application function's session, of a component by its Media-Component-Number, or of a flow by that number
/// and its Flow-Number.
#[derive(Drop)]
pub enum AfField {
    Session(SessionValue<Enumerated<AfRequestType>>),
    Component(u32, ComponentValue),
    Flow(u32, u32, FlowValue),
}

/// What an application function's live session shows.
#[derive(Drop)]
pub struct AfSeen {
    /// Its fields, those of the session before those of components and these before those of flows, each in order.
    pub fields: Vec<AfField>,
    /// The Session-Id of the gateway's session to which it is bound, if it is bound to one.
    pub binding: Option<GxSid>,
    /// The application function was asked to abort it (TS 29.214, 4.4.6.1).
    pub aborted: bool,
}

/// What an operator sees of a site.
#[derive(Drop)]
pub struct SiteOverview {
    /// The greatest counter of the operations that the site took, 0 at first.
    pub clock: u64,
    /// The sessions of gateways, in the order of their Session-Ids.
    pub gx: Vec<(GxSid, SessionSeen<GxSeen>)>,
    /// Those of application functions.
    pub af: Vec<(AfSid, SessionSeen<AfSeen>)>,
}
