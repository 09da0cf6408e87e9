//! How many listings a site's index has of gateways' sessions that share addresses and subscribers, a few for many sessions
//! that come and go: as many as the sessions that are there, whoever was there before.
use crate::fault::{Fault, Unmeasured};
use crate::makers::subscriber_of;
use bind_index::Index;
use pcrf_values::{Subscriber, SubscriptionType};
use site_core::Site;
use std::alloc::Global;
use std::net::Ipv4Addr;

/// The address of a place.
fn address(place: u32) -> Ipv4Addr {
    let [_, high, middle, low] = place.to_be_bytes();
    Ipv4Addr::new(10, high, middle, low)
}

/// The subscriber of a place.
fn subscriber(alloc: Global, place: u32) -> Result<Subscriber, Fault> {
    let digits = format!(in alloc; "00101{place:010}")?;
    match subscriber_of(alloc, SubscriptionType::EndUserImsi, digits.as_str())? {
        Some(subscriber) => Ok(subscriber),
        None => Err(Fault::Unmeasured(Unmeasured::SubscriberTooLong)),
    }
}

/// How many sessions the index lists under the address and under the subscriber of a place.
fn count_at(index: &Index, place: u32, who: &Subscriber) -> usize {
    let mut count = 0_usize;
    if let Some(sessions) = index.gateways_at(address(place)) {
        for _session in sessions.iter() {
            count = count.saturating_add(1);
        }
    }
    if let Some(sessions) = index.gateways_of(who) {
        for _session in sessions.iter() {
            count = count.saturating_add(1);
        }
    }
    count
}

/// How many listings the index of a site has under so many addresses and subscribers.
pub fn count_listings(alloc: Global, site: &Site, places: u32) -> Result<usize, Fault> {
    let Some(index) = site.index() else {
        return Err(Fault::Unmeasured(Unmeasured::IndexNotWhole));
    };
    let mut count = 0_usize;
    for place in 0..places {
        let who = subscriber(alloc, place)?;
        count = count.saturating_add(count_at(index, place, &who));
        drop(who);
    }
    Ok(count)
}
