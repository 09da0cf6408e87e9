//! What happens at a site: requests of gateways and application functions, by the place of their session, pushes, and what letters of
//! other sites bring.
use crate::facts::{access_point, address, call, call_id, gateway_id, last_end, subscribers, tag};
use crate::messages::CALL;
use crate::values::{origin, text};
use dia_base::{BaseKind, BaseRequest};
use dia_codec::HEADER_BYTES;
use gx_profile::{Ccr, RequestKind};
use pcrf_values::{DiameterIdentity, GxSid};
use rx_profile::{Aar, Str};
use site_core::{Asked, read_request};
use site_join::Operation;
use site_machine::{Event, Request};
use std::alloc::Global;
use std::net::Ipv4Addr;
use std::process::Abort;

/// What a request asks.
#[derive(Clone, Copy, Debug, PartialEq, Eq)]
pub enum Kind {
    /// An initial credit control request.
    Initial,
    /// An update that gives nothing new.
    Update,
    /// The end of a gateway's session.
    Termination,
    /// An AA request of a flow of audio, at the address of the gateway's session of its place.
    Call,
    /// A session termination request.
    CallEnd,
    /// A device watchdog request.
    Watchdog,
}

/// A credit control request that gives nothing.
fn later(rt: &impl Abort, alloc: Global, session: GxSid, kind: RequestKind, number: u32) -> Ccr {
    Ccr {
        session,
        origin: origin(rt, alloc, b"gw"),
        kind,
        number,
        address: None,
        prefix: None,
        apn: None,
        subscribers: None,
    }
}

/// An initial request of the subscriber at the access point `ims`.
fn initial(rt: &impl Abort, alloc: Global, session: GxSid, address: Ipv4Addr) -> Ccr {
    let mut request = later(rt, alloc, session, RequestKind::Initial, 0);
    request.address = Some(address);
    request.apn = Some(access_point(rt, alloc));
    request.subscribers = Some(subscribers(rt, alloc, 0));
    request
}

/// The AA request of a call of audio with one flow.
fn audio(rt: &impl Abort, alloc: Global) -> Aar {
    assert!(rt; CALL.len() >= HEADER_BYTES);
    match read_request(alloc, CALL) {
        Ok(Asked::Request(_, Request::Aar(request))) => request,
        _ => rt.abort(),
    }
}

/// The AA request of a call of a place.
fn called(rt: &impl Abort, alloc: Global, place: u32) -> Aar {
    let mut request = audio(rt, alloc);
    request.session = call_id(rt, alloc, place);
    request.address = Some(address(place));
    request
}

/// A credit control request of the session of a place, an update or a termination under this CC-Request-Number.
fn credit(rt: &impl Abort, alloc: Global, kind: RequestKind, place: u32, number: u32) -> Request {
    let session = gateway_id(rt, alloc, place);
    Request::Ccr(match kind {
        RequestKind::Initial => initial(rt, alloc, session, address(place)),
        _ => later(rt, alloc, session, kind, number),
    })
}

/// The end of a call of a place.
fn call_end(rt: &impl Abort, alloc: Global, place: u32) -> Str {
    Str {
        session: call_id(rt, alloc, place),
        origin: origin(rt, alloc, b"af"),
    }
}

/// A watchdog request of the gateway.
fn watchdog(rt: &impl Abort, alloc: Global) -> BaseRequest {
    BaseRequest {
        kind: BaseKind::DeviceWatchdog,
        origin: origin(rt, alloc, b"gw"),
    }
}

/// A request of a place.
fn made(rt: &impl Abort, alloc: Global, kind: Kind, place: u32, number: u32) -> Request {
    match kind {
        Kind::Initial => credit(rt, alloc, RequestKind::Initial, place, 0),
        Kind::Update => credit(rt, alloc, RequestKind::Update, place, number),
        Kind::Termination => credit(rt, alloc, RequestKind::Termination, place, number),
        Kind::Call => Request::Aar(called(rt, alloc, place)),
        Kind::CallEnd => Request::Str(call_end(rt, alloc, place)),
        Kind::Watchdog => Request::Base(watchdog(rt, alloc)),
    }
}

/// A request is to be served.
pub fn serve(rt: &impl Abort, alloc: Global, kind: Kind, place: u32, number: u32) -> Event {
    Event::Serve(made(rt, alloc, kind, place, number))
}

/// The gateway's session of a place is to be set up.
pub fn attach(rt: &impl Abort, alloc: Global, place: u32) -> Event {
    serve(rt, alloc, Kind::Initial, place, 0)
}

/// The session of a letter is to be set up, at an address that ends in it.
pub fn attach_lettered(rt: &impl Abort, alloc: Global, letter: u8) -> Event {
    let session = GxSid::of(text(rt, alloc, &[b'g', b'w', b';', letter]));
    let request = initial(rt, alloc, session, Ipv4Addr::new(10, 0, 0, letter));
    Event::Serve(Request::Ccr(request))
}

/// An operation of a letter is to be taken.
fn taken(rt: &impl Abort, alloc: Global, operation: Operation) -> Event {
    let mut operations = Vec::new(alloc);
    operations.push(operation).expect(rt, "memory");
    Event::Ops(operations)
}

/// A call for the session of a place, which site 1 was asked for, is to be taken from its letter.
pub fn describe(rt: &impl Abort, alloc: Global, place: u32) -> Event {
    let at = tag(1 + u64::from(place), 1);
    taken(rt, alloc, call(rt, alloc, place, at, place))
}

/// The end of some session, under the last counter that there is, is to be taken from a letter.
pub fn take_last(rt: &impl Abort, alloc: Global) -> Event {
    taken(rt, alloc, last_end(rt, alloc))
}

/// A host of that name.
pub fn host(rt: &impl Abort, alloc: Global, name: &[u8]) -> DiameterIdentity {
    text(rt, alloc, name)
}

/// The gateways of a host are to be told what they were not told.
pub fn push_to(rt: &impl Abort, alloc: Global, name: &[u8]) -> Event {
    Event::Push(Some(host(rt, alloc, name)))
}

/// An application function is to be asked to abort what lost its gateway's session.
pub fn abort_to(rt: &impl Abort, alloc: Global, name: &[u8]) -> Event {
    Event::Abort(Some(host(rt, alloc, name)))
}

/// What the gateway of the session of a place was told is to count as not there.
pub fn retell(rt: &impl Abort, alloc: Global, place: u32) -> Event {
    Event::Retell(gateway_id(rt, alloc, place))
}
