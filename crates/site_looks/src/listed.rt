//! Which sessions are found at a site by a subscriber's name or an address.
ghost use Rattle.std.specs.Prelude.{◌≡◌, IfOk};
ghost use Rattle.bind_index.specs.Listings.{sessions_of};
ghost use Rattle.pcrf_values.specs.Numbers.{subscription_number};
ghost use Rattle.site_looks.specs.Looks.{sessions_named, shown};

use pcrf_values::{AfSid, GxSid, Ranked, Subscriber, SubscriptionData, SubscriptionType};
use site_lock::Site;
use std::alloc::{AllocError, Global};
use std::net::Ipv4Addr;

/// The live sessions of gateways that have a subscriber of that name and type.
fn sessions_of_type(
    site: &Site,
    kind: SubscriptionType,
    name: &SubscriptionData,
) -> Result<Vec<GxSid>, AllocError>
    ensures { IfOk result (λ ids. ids.items
        ≡ sessions_of (shown site.now) (subscription_number kind, name.now)) }
{
    let name = name.try_copy()?;
    let subscriber = Subscriber::of(kind, name);
    site.sessions_of(&subscriber)
}

/// The live sessions of gateways that have a subscriber of that name, whatever its type.
pub fn sessions_named(site: &Site, name: &SubscriptionData) -> Result<Vec<GxSid>, AllocError>
    ensures { IfOk result (λ ids. ids.items ≡ sessions_named (shown site.now) name.now) }
{
    let mut all = sessions_of_type(site, SubscriptionType::EndUserE164, name)?;
    let mut more = sessions_of_type(site, SubscriptionType::EndUserImsi, name)?;
    all.append(&mut more)?;
    more = sessions_of_type(site, SubscriptionType::EndUserSipUri, name)?;
    all.append(&mut more)?;
    more = sessions_of_type(site, SubscriptionType::EndUserNai, name)?;
    all.append(&mut more)?;
    more = sessions_of_type(site, SubscriptionType::EndUserPrivate, name)?;
    all.append(&mut more)?;
    Ok(all)
}

/// Whether a live session of a gateway stands at an address.
fn is_gateway_at(site: &Site, id: &GxSid, address: Ipv4Addr) -> bool {
    let Some(known) = site.sessions().gx(id) else {
        return false;
    };
    let Some((_, own)) = known.address() else {
        return false;
    };
    known.live() && *own == address
}

/// Whether a live session of an application function stands at an address.
fn is_call_at(site: &Site, id: &AfSid, address: Ipv4Addr) -> bool {
    let Some(known) = site.sessions().af(id) else {
        return false;
    };
    let Some((_, own)) = known.address() else {
        return false;
    };
    known.live() && *own == address
}

/// The live sessions of gateways at an address; none where the site has no index of its sessions.
pub fn gateways_at(
    alloc: Global,
    site: &Site,
    address: Ipv4Addr,
) -> Result<Vec<GxSid>, AllocError> {
    let mut found = Vec::new(alloc);
    let Some(index) = site.index() else {
        return Ok(found);
    };
    let Some(ids) = index.gateways_at(address) else {
        return Ok(found);
    };
    for id in ids.iter() {
        if is_gateway_at(site, id, address) {
            found.push(id.try_copy()?)?;
        }
    }
    Ok(found)
}

/// The live sessions of application functions at an address; none where the site has no index of its sessions.
pub fn calls_at(alloc: Global, site: &Site, address: Ipv4Addr) -> Result<Vec<AfSid>, AllocError> {
    let mut found = Vec::new(alloc);
    let Some(index) = site.index() else {
        return Ok(found);
    };
    let Some(ids) = index.calls_at(address) else {
        return Ok(found);
    };
    for id in ids.iter() {
        if is_call_at(site, id, address) {
            found.push(id.try_copy()?)?;
        }
    }
    Ok(found)
}
