//! What is looked up at a site, as answers.
use crate::staying::machine::Machine;
use crate::staying::status::answered::{Answered, missing};
use crate::staying::status::looked::Looked;
use crate::staying::working::Shared;
use form_urlencoded::parse;
use log::Log;
use pcrf_values::{AfSid, GxSid, Ranked, SessionId, SubscriptionData};
use serde_json::json;
use site_looks::{
    AddressLook, SessionLook, SubscriberLook, address_shown, session_shown, subscriber_shown,
};
use site_status::name_of;
use std::alloc::{AllocError, Global};
use std::net::Ipv4Addr;
use std::str;
use watched_links::Printable;

/// What the site knows of the sessions of a Session-Id.
pub fn session<'s, 'r, S: Looked, M: Machine, G: Log>(
    rt: &M,
    all: &Shared<'s, 'r, S, M, G>,
    written: &[u8],
) -> Result<Answered, AllocError> {
    let alloc = all.furniture.alloc;
    let Some(name) = name_of(alloc, written)? else {
        return missing(alloc);
    };
    let Some(id) = SessionId::read(alloc, name.as_slice())? else {
        return missing(alloc);
    };
    let (gateway_id, call_id) = (GxSid::of(id.try_copy()?), AfSid::of(id));
    let mut look = SessionLook::of(&gateway_id, &call_id);
    all.server.site.look(rt, &mut look);
    if look.is_refused {
        return Err(AllocError);
    }
    match session_shown(alloc, &look)? {
        Some(text) => Answered::json(text),
        None => missing(alloc),
    }
}

/// Which page of a list a query asks for: that of the number under `page`, the first where it gives none.
fn page_in(alloc: Global, query: &[u8]) -> Result<usize, AllocError> {
    for pair in parse(alloc, query) {
        let (name, value) = pair?;
        if name.as_str() == "page" {
            return Ok(value.as_str().parse::<usize>().unwrap_or(1).max(1));
        }
    }
    Ok(1)
}

/// Which sessions a subscriber of that name has.
pub fn subscriber<'s, 'r, S: Looked, M: Machine, G: Log>(
    rt: &M,
    all: &Shared<'s, 'r, S, M, G>,
    written: &[u8],
    query: &[u8],
) -> Result<Answered, AllocError> {
    let alloc = all.furniture.alloc;
    let Some(name) = name_of(alloc, written)? else {
        return missing(alloc);
    };
    let Some(name) = SubscriptionData::read(alloc, name.as_slice())? else {
        return missing(alloc);
    };
    let mut look = SubscriberLook::of(alloc, &name);
    all.server.site.look(rt, &mut look);
    if look.is_refused {
        return Err(AllocError);
    }
    let page = page_in(alloc, query)?;
    Answered::json(subscriber_shown(alloc, &look, page)?)
}

/// The address that a text is.
fn address_in(text: &[u8]) -> Option<Ipv4Addr> {
    str::from_utf8(text).ok()?.parse::<Ipv4Addr>().ok()
}

/// Which sessions there are at an address.
pub fn address<'s, 'r, S: Looked, M: Machine, G: Log>(
    rt: &M,
    all: &Shared<'s, 'r, S, M, G>,
    written: &[u8],
    query: &[u8],
) -> Result<Answered, AllocError> {
    let alloc = all.furniture.alloc;
    let Some(name) = name_of(alloc, written)? else {
        return missing(alloc);
    };
    let Some(address) = address_in(name.as_slice()) else {
        return missing(alloc);
    };
    let mut look = AddressLook::of(alloc, address);
    all.server.site.look(rt, &mut look);
    if look.is_refused {
        return Err(AllocError);
    }
    let page = page_in(alloc, query)?;
    Answered::json(address_shown(alloc, &look, page)?)
}

/// What is known of a host.
pub fn gateway<'s, 'r, S: Looked, M: Machine, G: Log>(
    rt: &M,
    all: &Shared<'s, 'r, S, M, G>,
    written: &[u8],
) -> Result<Answered, AllocError> {
    let alloc = all.furniture.alloc;
    let guests = &all.furniture.guests;
    let Some(name) = name_of(alloc, written)? else {
        return missing(alloc);
    };
    for number in 0..guests.count(rt) {
        let Some(seen) = guests.seen(rt, number) else {
            continue;
        };
        if seen.host.as_slice() == name.as_slice() {
            let host = format!(in alloc; "{}", Printable(seen.host.as_slice()))?;
            let (connections, is_waiting) = (u64::from(seen.connections), seen.is_waiting);
            let shown = json!(in alloc; {
                "host": host.as_str(),
                "connections": connections,
                "waiting": is_waiting
            })?;
            return Answered::json(shown.to_string(alloc)?);
        }
    }
    missing(alloc)
}
