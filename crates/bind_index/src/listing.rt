//! The live sessions of gateways that have an address, a prefix that covers one, or a subscriber.
ghost use Rattle.std.specs.Prelude.{◌≡◌, IfOk};
ghost use Rattle.std.specs.Net.Addr.{ipv4_octets};
ghost use Rattle.pcrf_model.specs.Views.{view};
ghost use Rattle.pcrf_values.specs.Held.{entry_shown};
ghost use Rattle.bind_index.specs.Listings.{asked_value, listed_among, sessions_at, sessions_covering, sessions_of, shows_asked};

use crate::binding::is_among;
use gx_records::GxRec;
use pcrf_values::{GxSid, Ipv6Prefix, Ranked, Subscriber};
use site_join::{Entries, State};
use std::alloc::{AllocError, Global};
use std::cmp::Ordering;
use std::net::Ipv4Addr;

/// What a session is asked to have.
#[derive(Clone, Copy)]
enum Asked<'a> {
    Address(Ipv4Addr),
    Prefix(&'a Ipv6Prefix),
    Subscriber(&'a Subscriber),
}

/// The live sessions of gateways that have the address, in the order of their Session-Ids. Their time grows with the number
/// of gateways' sessions.
pub fn sessions_at(
    alloc: Global,
    state: &State,
    address: Ipv4Addr,
) -> Result<Vec<GxSid>, AllocError>
    ensures { IfOk result (λ ids. ids.items
        ≡ sessions_at (view state.now.facts) (ipv4_octets address)) }
{
    list(alloc, state.all_gx(), &Asked::Address(address))
}

/// The live sessions of gateways whose prefix covers this one, in the order of their Session-Ids. Their time grows with the
/// number of gateways' sessions.
pub fn sessions_covering(
    alloc: Global,
    state: &State,
    prefix: &Ipv6Prefix,
) -> Result<Vec<GxSid>, AllocError>
    ensures { IfOk result (λ ids. ids.items
        ≡ sessions_covering (view state.now.facts) prefix.now) }
{
    list(alloc, state.all_gx(), &Asked::Prefix(prefix))
}

/// The live sessions of gateways that have the subscriber, in the order of their Session-Ids. Their time grows with the
/// number of gateways' sessions.
pub fn sessions_of(
    alloc: Global,
    state: &State,
    subscriber: &Subscriber,
) -> Result<Vec<GxSid>, AllocError>
    ensures { IfOk result (λ ids. ids.items
        ≡ sessions_of (view state.now.facts) subscriber.now) }
{
    list(alloc, state.all_gx(), &Asked::Subscriber(subscriber))
}

/// The live ones among these sessions that have what is asked.
fn list(
    alloc: Global,
    sessions: Entries<'_, GxSid, GxRec>,
    asked: &Asked<'_>,
) -> Result<Vec<GxSid>, AllocError>
    ensures { IfOk result (λ ids. ids.items ≡ listed_among (asked_value asked.now) sessions.entry) }
{
    let mut found = Vec::new(alloc);
    for (session, record) in sessions {
        if record.live() && has(record, asked) {
            found.push(session.try_copy()?)?;
        }
    }
    Ok(found)
}

/// The session shows what is asked.
fn has(gateway: &GxRec, asked: &Asked<'_>) -> bool
    ensures { result ≡ shows_asked (asked_value asked.now) (entry_shown gateway.now) }
{
    match asked {
        Asked::Address(wanted) => match gateway.address() {
            Some((_, address)) => wanted.cmp(address) == Ordering::Equal,
            None => false,
        },
        Asked::Prefix(wanted) => match gateway.prefix() {
            Some((_, prefix)) => prefix.covers(wanted),
            None => false,
        },
        Asked::Subscriber(wanted) => match gateway.subscribers() {
            Some((_, subscribers)) => is_among(wanted, subscribers.as_slice()),
            None => false,
        },
    }
}
