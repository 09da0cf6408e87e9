//! What a request of either interface says of its session.
ghost use Rattle.std.specs.Prelude.{◌≡◌, ◌++◌, IfOk, OnOk, option_map, option_to_list};
ghost use Rattle.lattice_core.specs.declared.fact.SessionValue.TheVariants as value;
ghost use Rattle.site_machine.specs.Given.{values_given};

use dia_base::Origin;
use lattice_core::SessionValue;
use pcrf_values::{Apn, Ipv6Prefix, Ranked, Subscribers};
use std::alloc::{AllocError, Global};
use std::net::Ipv4Addr;

/// What a request says of its user.
#[derive(Clone, Copy)]
pub(crate) struct User<'a> {
    pub address: Option<Ipv4Addr>,
    pub prefix: Option<Ipv6Prefix>,
    pub apn: &'a Option<Apn>,
    pub subscribers: &'a Option<Subscribers>,
}

/// Adds a value, if it is given.
fn put<L: Drop>(
    values: &mut Vec<SessionValue<L>>,
    given: Option<SessionValue<L>>,
) -> Result<(), AllocError>
    ensures { OnOk result (values.new.items ≡ values.old.items ++ option_to_list given) }
{
    if let Some(value) = given {
        values.push(value)?;
    }
    Ok(())
}

/// The address, if it is given.
fn address<L>(given: Option<Ipv4Addr>) -> Option<SessionValue<L>>
    ensures { result ≡ option_map value.Address given }
{
    Some(SessionValue::Address(given?))
}

/// The prefix, if it is given.
fn prefix<L>(given: Option<Ipv6Prefix>) -> Option<SessionValue<L>>
    ensures { result ≡ option_map value.Prefix given }
{
    Some(SessionValue::Prefix(given?))
}

/// A copy of the access point name, if it is given.
fn apn<L>(given: &Option<Apn>) -> Result<Option<SessionValue<L>>, AllocError>
    ensures { IfOk result (λ copy. copy ≡ option_map value.Apn given.now) }
{
    match given {
        Some(apn) => Ok(Some(SessionValue::Apn(apn.try_copy()?))),
        None => Ok(None),
    }
}

/// A copy of the subscribers, if they are given.
fn subscribers<L>(given: &Option<Subscribers>) -> Result<Option<SessionValue<L>>, AllocError>
    ensures { IfOk result (λ copy. copy ≡ option_map value.Subscribers given.now) }
{
    match given {
        Some(subscribers) => Ok(Some(SessionValue::Subscribers(subscribers.try_copy()?))),
        None => Ok(None),
    }
}

/// What a request says of its session: whom it serves, as far as that is given, who sends it, and of which type it is.
pub(crate) fn session_values<L: Drop>(
    alloc: Global,
    user: User<'_>,
    origin: &Origin,
    last: L,
) -> Result<Vec<SessionValue<L>>, AllocError>
    ensures { IfOk result (λ values. values.items ≡ values_given
        user.entry.address user.entry.prefix user.entry.apn.now user.entry.subscribers.now
        origin.now.host origin.now.realm last) }
{
    let mut values = Vec::new(alloc);
    put(&mut values, address(user.address))?;
    put(&mut values, apn(user.apn)?)?;
    put(&mut values, subscribers(user.subscribers)?)?;
    values.push(SessionValue::Host(origin.host.try_copy()?))?;
    values.push(SessionValue::Realm(origin.realm.try_copy()?))?;
    values.push(SessionValue::Last(last))?;
    put(&mut values, prefix(user.prefix))?;
    Ok(values)
}
