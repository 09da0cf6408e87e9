//! The applications that a capabilities exchange advertises.
ghost use Rattle.std.specs.Prelude.{◌≡◌, ◌↔◌, ◌++◌, length, map, IfOk, IfErr, IsTrue, OnOk};
ghost use Rattle.std.specs.List.{flat_map};
ghost use Rattle.dia_codec.specs.Spelling.{avp_views};
ghost use Rattle.dia_base.specs.Rows.{AcceptsAll, IsFaultOf, rows_refusal};
ghost use Rattle.dia_base.specs.NeighbourRequests.{alone_rows, application_rows, applications_among, applications_of, number_of};

use crate::codes::avps::AUTH_APPLICATION_ID;
use crate::codes::results::INVALID_AVP_LENGTH;
use crate::neighbours::codes::avps::VENDOR_SPECIFIC_APPLICATION_ID;
use crate::read_fault::ReadFault;
use crate::rows::{FromValue, base_key, read_avps, read_each};
use dia_codec::Avp;
use pcrf_values::Refusal;
use std::alloc::{AllocError, Global};
use std::marker::Model;

/// An Application-Id (RFC 6733, 2.4).
#[derive(Clone, Copy, Drop, Debug, PartialEq, Eq)]
pub struct ApplicationId {
    /// The number.
    pub number: u32,
}

impl FromValue for ApplicationId {
    ghost use Rattle.dia_base.specs.Rows.{unsigned32};
    ghost use Rattle.dia_base.specs.NeighbourRequests.{application};

    ghost kind = { unsigned32 };

    ghost of_value = { application };

    #[tactic(auto, unfolding(dia_codec::specs::Fields::word_at))]
    fn from_value(_alloc: Global, value: &[u8]) -> Result<ApplicationId, ReadFault> {
        if value.len() != 4 {
            return Err(ReadFault::Refused(Refusal::base(INVALID_AVP_LENGTH)));
        }
        let number = u32::from_be_bytes([value[0], value[1], value[2], value[3]]);
        Ok(ApplicationId { number })
    }
}

/// The applications that a Vendor-Specific-Application-Id advertises (RFC 6733, 6.11).
#[derive(Drop)]
struct VendorApplications {
    each: Vec<ApplicationId>,
}

impl Model for VendorApplications {
    ghost use Rattle.std.specs.Prelude.{List};
    ghost use Rattle.dia_base.specs.declared.neighbours.applications.ApplicationId.{ApplicationId};

    ghost Value = { List ApplicationId };

    ghost view = { λ a. a.each.items };
}

impl FromValue for VendorApplications {
    ghost use Rattle.dia_base.specs.NeighbourRequests.{vendor_application, vendor_applications};

    ghost kind = { vendor_application };

    ghost of_value = { vendor_applications };

    fn from_value(alloc: Global, value: &[u8]) -> Result<VendorApplications, ReadFault> {
        let avps = read_avps(alloc, value)?;
        let each = read_alone(alloc, &avps)?;
        Ok(VendorApplications { each })
    }
}

/// Reads the applications that stand by themselves.
fn read_alone(alloc: Global, avps: &[Avp<'_>]) -> Result<Vec<ApplicationId>, ReadFault>
    ensures accepted { OnOk result (AcceptsAll alone_rows (avp_views avps.now)) }
    ensures read { IfOk result (λ each. each.items ≡ applications_among (avp_views avps.now)) }
    ensures refused { IfErr result (IsFaultOf (rows_refusal alone_rows (avp_views avps.now))) }
{
    read_each::<ApplicationId>(alloc, avps, base_key(AUTH_APPLICATION_ID), None)
}

/// Adds the applications of one group.
fn add_group(found: &mut Vec<ApplicationId>, group: &VendorApplications) -> Result<(), AllocError>
    ensures { OnOk result (found.new.items ≡ found.old.items ++ group.now) }
{
    for application in group.each.as_slice() {
        found.push(*application)?;
    }
    Ok(())
}

/// Adds the applications of groups.
fn add_groups(
    found: &mut Vec<ApplicationId>,
    groups: &[VendorApplications],
) -> Result<(), AllocError>
    ensures { OnOk result (found.new.items ≡ found.old.items ++ flat_map (λ g. g) groups.now) }
{
    for group in groups {
        add_group(found, group)?;
    }
    Ok(())
}

/// Reads the applications that are advertised: each by itself, and then those of each vendor.
pub(crate) fn read_applications(
    alloc: Global,
    avps: &[Avp<'_>],
) -> Result<Vec<ApplicationId>, ReadFault>
    ensures accepted { OnOk result (AcceptsAll application_rows (avp_views avps.now)) }
    ensures read { IfOk result (λ found. found.items ≡ applications_of (avp_views avps.now)) }
    ensures refused { IfErr result
        (IsFaultOf (rows_refusal application_rows (avp_views avps.now))) }
{
    let mut found = read_alone(alloc, avps)?;
    let vendors = base_key(VENDOR_SPECIFIC_APPLICATION_ID);
    let groups = read_each::<VendorApplications>(alloc, avps, vendors, None)?;
    add_groups(&mut found, groups.as_slice())?;
    Ok(found)
}

/// Both lists have the same applications in the same order.
pub(crate) fn same_applications(ours: &[ApplicationId], theirs: &[ApplicationId]) -> bool
    ensures { IsTrue result ↔ (map number_of ours.now ≡ map number_of theirs.now) }
{
    let mut rest = theirs;
    for application in ours {
        let Some((first, others)) = rest.split_first() else {
            return false;
        };
        if application.number != first.number {
            return false;
        }
        rest = others;
    }
    rest.is_empty()
}
