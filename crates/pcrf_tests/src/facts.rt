//! Operations of sessions told apart by a number.
use crate::values::{filters, subscriber, text};
use af_records::{AfFact, AfRequestType, ComponentValue, FlowValue};
use gx_records::{GxFact, OpenRequestType, SessionValue};
use pcrf_values::limits::LAST_COUNTER;
use pcrf_values::{AfSid, Apn, Enumerated, GxSid, Ipv6Prefix, Subscribers, Tag};
use site_join::{Operation, SessionFacts};
use std::alloc::Global;
use std::net::Ipv4Addr;
use std::process::Abort;

/// The Session-Id of the gateway's session of a number.
pub fn gateway_id(rt: &impl Abort, alloc: Global, number: u32) -> GxSid {
    let id = format!(in alloc; "gw;1;{number}").expect(rt, "memory");
    let made = GxSid::of(text(rt, alloc, id.as_bytes()));
    drop(id);
    made
}

/// The Session-Id of the call of a number.
pub fn call_id(rt: &impl Abort, alloc: Global, number: u32) -> AfSid {
    let id = format!(in alloc; "af;1;{number}").expect(rt, "memory");
    let made = AfSid::of(text(rt, alloc, id.as_bytes()));
    drop(id);
    made
}

/// The address of a number.
pub fn address(number: u32) -> Ipv4Addr {
    let [_, first, second, third] = number.to_be_bytes();
    Ipv4Addr::new(10, first, second, third)
}

/// The access point `ims`.
pub fn access_point(rt: &impl Abort, alloc: Global) -> Apn {
    let read = Apn::folded(alloc, b"IMS").expect(rt, "memory");
    read.expect(rt, "an access point")
}

/// The subscriber of a number alone.
pub fn subscribers(rt: &impl Abort, alloc: Global, number: u8) -> Subscribers {
    let mut given = Vec::new(alloc);
    let who = subscriber(rt, alloc, number);
    given.push(who).expect(rt, "memory");
    let made = Subscribers::of(alloc, given).expect(rt, "memory");
    made.expect(rt, "a subscriber")
}

/// The tag of an operation of a site under a counter.
pub fn tag(counter: u64, site: u8) -> Tag {
    Tag {
        number: 0,
        counter,
        site,
    }
}

/// One of few prefixes, of which the last ones cover the first.
pub fn prefix(rt: &impl Abort, number: u8) -> Ipv6Prefix {
    let (bits, network) = match number {
        0 => (128, 1),
        1 => (64, 1),
        2 => (64, 2),
        3 => (128, 2),
        4 => (61, 0),
        5 => (56, 0),
        6 => (65, 1),
        7 => (32, 0),
        _ => (0, 0),
    };
    let octets = [0x20, 1, 0xd, 0xb8, 0, 0, 0, network, 0, 0, 0, 0, 0, 0, 0, 5];
    Ipv6Prefix::of(bits, &octets).expect(rt, "a prefix")
}

/// The operation that has these facts, by the tag of its values.
fn operation(rt: &impl Abort, at: Tag, facts: SessionFacts) -> Operation {
    let made = Operation::of(at.counter, at.site, at.number, facts);
    made.expect(rt, "an operation")
}

/// That of a gateway's session.
fn of_gateway(
    rt: &impl Abort,
    alloc: Global,
    number: u32,
    at: Tag,
    facts: Vec<GxFact>,
) -> Operation {
    operation(
        rt,
        at,
        SessionFacts::Gx(gateway_id(rt, alloc, number), facts),
    )
}

/// Adds a field of one.
fn put(
    rt: &impl Abort,
    facts: &mut Vec<GxFact>,
    at: Tag,
    value: SessionValue<Enumerated<OpenRequestType>>,
) {
    facts.push(GxFact::Field(at, value)).expect(rt, "memory");
}

/// That a gateway's session has one of the subscribers, and no other.
pub fn subscribed(rt: &impl Abort, alloc: Global, number: u32, at: Tag, who: u8) -> Operation {
    let mut facts = Vec::new(alloc);
    let value = SessionValue::Subscribers(subscribers(rt, alloc, who));
    put(rt, &mut facts, at, value);
    of_gateway(rt, alloc, number, at, facts)
}

/// That it has a prefix.
pub fn prefixed(
    rt: &impl Abort,
    alloc: Global,
    number: u32,
    at: Tag,
    prefix: Ipv6Prefix,
) -> Operation {
    let mut facts = Vec::new(alloc);
    put(rt, &mut facts, at, SessionValue::Prefix(prefix));
    of_gateway(rt, alloc, number, at, facts)
}

/// Adds the gateway `gw` of the realm `r`, and that its request is an initial one.
fn put_gateway(rt: &impl Abort, alloc: Global, facts: &mut Vec<GxFact>, at: Tag) {
    put(rt, facts, at, SessionValue::Host(text(rt, alloc, b"gw")));
    put(rt, facts, at, SessionValue::Realm(text(rt, alloc, b"r")));
    let last = SessionValue::Last(Enumerated::of(OpenRequestType::Initial));
    put(rt, facts, at, last);
}

/// The initial request of a gateway on its session of a number, for the address of a place.
pub fn initial(rt: &impl Abort, alloc: Global, number: u32, at: Tag, place: u32) -> Operation {
    let mut facts = Vec::new(alloc);
    put(rt, &mut facts, at, SessionValue::Address(address(place)));
    put(
        rt,
        &mut facts,
        at,
        SessionValue::Apn(access_point(rt, alloc)),
    );
    let who = SessionValue::Subscribers(subscribers(rt, alloc, 0));
    put(rt, &mut facts, at, who);
    put_gateway(rt, alloc, &mut facts, at);
    of_gateway(rt, alloc, number, at, facts)
}

/// The end of a gateway's session.
pub fn gateway_end(rt: &impl Abort, alloc: Global, number: u32, at: Tag) -> Operation {
    let mut facts = Vec::new(alloc);
    facts.push(GxFact::End).expect(rt, "memory");
    of_gateway(rt, alloc, number, at, facts)
}

/// The end of one under the last counter that there is, of site 2.
pub fn last_end(rt: &impl Abort, alloc: Global) -> Operation {
    let at = Tag {
        number: 1,
        counter: LAST_COUNTER,
        site: 2,
    };
    gateway_end(rt, alloc, 9_999, at)
}

/// The operation of a call.
fn of_call(rt: &impl Abort, alloc: Global, number: u32, at: Tag, facts: Vec<AfFact>) -> Operation {
    operation(rt, at, SessionFacts::Af(call_id(rt, alloc, number), facts))
}

/// Adds a field of an application function's session.
fn put_field(
    rt: &impl Abort,
    facts: &mut Vec<AfFact>,
    at: Tag,
    value: SessionValue<Enumerated<AfRequestType>>,
) {
    facts.push(AfFact::Session(at, value)).expect(rt, "memory");
}

/// Adds a flow of its component.
fn put_flow(rt: &impl Abort, alloc: Global, facts: &mut Vec<AfFact>, at: Tag, flow: u32) {
    let described = FlowValue::Descriptions(filters(rt, alloc));
    let added = facts.push(AfFact::Flow(1, flow, at, described));
    added.expect(rt, "memory");
}

/// Adds a component of audio with one flow.
fn put_audio(rt: &impl Abort, alloc: Global, facts: &mut Vec<AfFact>, at: Tag) {
    let audio = AfFact::Component(1, at, ComponentValue::MediaType(0));
    facts.push(audio).expect(rt, "memory");
    put_flow(rt, alloc, facts, at, 1);
}

/// The request of a call of audio with one flow, for the address of a place.
pub fn call(rt: &impl Abort, alloc: Global, number: u32, at: Tag, place: u32) -> Operation {
    let mut facts = Vec::new(alloc);
    put_field(rt, &mut facts, at, SessionValue::Address(address(place)));
    put_field(
        rt,
        &mut facts,
        at,
        SessionValue::Host(text(rt, alloc, b"af")),
    );
    put_field(
        rt,
        &mut facts,
        at,
        SessionValue::Realm(text(rt, alloc, b"r")),
    );
    let last = SessionValue::Last(Enumerated::of(AfRequestType::AaRequest));
    put_field(rt, &mut facts, at, last);
    put_audio(rt, alloc, &mut facts, at);
    of_call(rt, alloc, number, at, facts)
}

/// That such a call has a prefix.
pub fn call_within(
    rt: &impl Abort,
    alloc: Global,
    number: u32,
    at: Tag,
    prefix: Ipv6Prefix,
) -> Operation {
    let mut facts = Vec::new(alloc);
    put_field(rt, &mut facts, at, SessionValue::Prefix(prefix));
    put_audio(rt, alloc, &mut facts, at);
    of_call(rt, alloc, number, at, facts)
}

/// A second flow of a call.
pub fn second_flow(rt: &impl Abort, alloc: Global, number: u32, at: Tag) -> Operation {
    let mut facts = Vec::new(alloc);
    put_flow(rt, alloc, &mut facts, at, 2);
    of_call(rt, alloc, number, at, facts)
}

/// The end of a call.
pub fn call_end(rt: &impl Abort, alloc: Global, number: u32, at: Tag) -> Operation {
    let mut facts = Vec::new(alloc);
    facts.push(AfFact::End).expect(rt, "memory");
    of_call(rt, alloc, number, at, facts)
}
