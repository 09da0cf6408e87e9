//! What the PCRF says of itself in an exchange of capabilities (RFC 6733, 5.3.2).
ghost use Rattle.std.specs.Prelude.{◌≡◌, IfOk};
ghost use Rattle.dia_base.specs.NeighbourAnswers.{address_value};
ghost use Rattle.dia_codec.specs.Spelling.{owned_views};
ghost use Rattle.dia_base.specs.Besides.{node_avps, whole_node_avps};

use crate::codes::TGPP;
use crate::codes::avps::VENDOR_ID;
use crate::identity::Identity;
use crate::standard::listed::{NEEDED, OPTIONAL, base_avp, number_avp, text_avp};
use dia_codec::OwnedAvp;
use std::alloc::{AllocError, Global};

/// Host-IP-Address (RFC 6733, 5.3.5).
const HOST_IP_ADDRESS: u32 = 257;

/// Supported-Vendor-Id (5.3.6).
const SUPPORTED_VENDOR_ID: u32 = 265;

/// Firmware-Revision (5.3.4).
const FIRMWARE_REVISION: u32 = 267;

/// Product-Name (5.3.7).
const PRODUCT_NAME: u32 = 269;

/// The name of the program.
const PRODUCT: &[u8] = b"pcrf";

/// The one revision that there is.
const REVISION: u32 = 1;

/// The value of the Host-IP-Address: the family of IPv4, and the address (RFC 6733, 4.3.1).
fn address_value(alloc: Global, identity: &Identity) -> Result<Vec<u8>, AllocError>
    ensures { IfOk result (λ value. value.items ≡ address_value identity.now) }
{
    let mut value = Vec::from_slice(alloc, &[0, 1])?;
    value.extend_from_slice(&identity.address.octets())?;
    Ok(value)
}

/// What a granted exchange's answer lacks of what the PCRF is: whose AVPs it understands, and its revision.
pub(crate) fn node_avps(alloc: Global) -> Result<Vec<OwnedAvp>, AllocError>
    ensures { IfOk result (λ node. owned_views node.items ≡ node_avps) }
{
    let mut node = Vec::with_capacity(alloc, 2)?;
    node.push(number_avp(alloc, SUPPORTED_VENDOR_ID, NEEDED, TGPP)?)?;
    node.push(number_avp(alloc, FIRMWARE_REVISION, OPTIONAL, REVISION)?)?;
    Ok(node)
}

/// All that the PCRF is: its address, that it is of no vendor, its name, and what `node_avps` says.
pub(crate) fn whole_node_avps(
    alloc: Global,
    identity: &Identity,
) -> Result<Vec<OwnedAvp>, AllocError>
    ensures { IfOk result (λ node. owned_views node.items ≡ whole_node_avps identity.now) }
{
    let address = address_value(alloc, identity)?;
    let mut whole = Vec::with_capacity(alloc, 5)?;
    whole.push(base_avp(HOST_IP_ADDRESS, NEEDED, address))?;
    whole.push(number_avp(alloc, VENDOR_ID, NEEDED, 0)?)?;
    whole.push(text_avp(alloc, PRODUCT_NAME, OPTIONAL, PRODUCT)?)?;
    let mut node = node_avps(alloc)?;
    whole.append(&mut node)?;
    Ok(whole)
}
