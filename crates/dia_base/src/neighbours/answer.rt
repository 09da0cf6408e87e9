//! Answers of the base protocol.
ghost use Rattle.std.specs.Prelude.{◌≡◌, ◌≤◌, ◌+◌, ◌∷◌, [], None, Some, if◌then◌else◌, length, map, IfOk, OnOk};
ghost use Rattle.dia_codec.specs.Limits.{longest_message};
ghost use Rattle.std.specs.List.{list_any, sum_by};
ghost use Rattle.pcrf_values.specs.Results.{no_common_application};
ghost use Rattle.dia_codec.specs.Drafts.{Adds};
ghost use Rattle.dia_codec.specs.Written.{padded_len, written_len, written_spelling};
ghost use Rattle.pcrf_model.specs.Refusals.{base_refusal, is_common};
ghost use Rattle.dia_base.specs.NeighbourAnswers.{address_value, base_answer, base_avps, capabilities_avps, kind_avps, node_avps, supported_application, supported_avps};
ghost use Rattle.dia_base.specs.NeighbourRequests.{base_view, kind_view, number_of};

use crate::answer::{AvpWriter, answer_header, put_origin, put_result};
use crate::codes::avps::{AUTH_APPLICATION_ID, VENDOR_ID};
use crate::codes::{GX, RX, TGPP};
use crate::identity::Identity;
use crate::neighbours::applications::ApplicationId;
use crate::neighbours::codes::avps::{
    HOST_IP_ADDRESS, PRODUCT_NAME, VENDOR_SPECIFIC_APPLICATION_ID,
};
use crate::neighbours::codes::{NO_COMMON_APPLICATION, RELAY};
use crate::neighbours::request::{BaseKind, BaseRequest};
use dia_codec::Header;
use pcrf_values::Refusal;
use std::alloc::{AllocError, Global};

/// The name of the program, which it tells its peers (RFC 6733, 5.3.7).
const PRODUCT: &[u8] = b"pcrf";

/// Whether an application is one that the PCRF speaks, or stands for every one.
fn is_common(application: ApplicationId) -> bool
    ensures { result ≡ is_common application.number }
{
    application.number == GX || application.number == RX || application.number == RELAY
}

/// The refusal of a request that was read, if it is refused: a capabilities exchange that advertises no application in
/// common.
pub fn base_refusal(request: &BaseRequest) -> Option<Refusal>
    ensures { result ≡ base_refusal (kind_view request.now.kind) }
{
    match &request.kind {
        BaseKind::CapabilitiesExchange(applications) => refusal_among(applications.as_slice()),
        BaseKind::DeviceWatchdog | BaseKind::DisconnectPeer => None,
    }
}

/// Whether one of these applications is one in common.
fn has_common(applications: &[ApplicationId]) -> bool
    ensures { result ≡ list_any is_common (map number_of applications.now) }
{
    for application in applications {
        if is_common(*application) {
            return true;
        }
    }
    false
}

/// The refusal where none of these applications is one in common.
fn refusal_among(applications: &[ApplicationId]) -> Option<Refusal>
    ensures { result ≡ (if list_any is_common (map number_of applications.now) then None
        else Some no_common_application) }
{
    match has_common(applications) {
        true => None,
        false => Some(Refusal::base(NO_COMMON_APPLICATION)),
    }
}

/// Does nothing: its contract tells a proof how long the value of the Host-IP-Address is.
fn note_address(identity: &Identity)
    ensures { length (address_value identity.now) ≡ 6 }
{
    let _octets = identity.address.octets();
}

/// Writes the address of the PCRF behind its family, IPv4 (RFC 6733, 4.3.1), and that it is of no vendor.
fn put_node(out: &mut AvpWriter, identity: &Identity) -> Result<(), AllocError>
    ensures { OnOk result (Adds out.old out.new (node_avps identity.now)) }
{
    let [a0, a1, a2, a3] = identity.address.octets();
    out.text(HOST_IP_ADDRESS, &[0, 1, a0, a1, a2, a3])?;
    out.number(VENDOR_ID, 0)?;
    Ok(())
}

/// Writes what a Vendor-Specific-Application-Id of 3GPP holds (RFC 6733, 6.11).
fn put_application(out: &mut AvpWriter, application: u32) -> Result<(), AllocError>
    ensures { OnOk result (Adds out.old out.new (supported_avps application)) }
{
    out.number(VENDOR_ID, TGPP)?;
    out.number(AUTH_APPLICATION_ID, application)?;
    Ok(())
}

/// Writes the Vendor-Specific-Application-Id of an application that the PCRF speaks.
fn put_supported(out: &mut AvpWriter, application: u32) -> Result<(), AllocError>
    ensures { OnOk result (Adds out.old out.new (supported_application application ∷ [])) }
{
    let mark = out.open(VENDOR_SPECIFIC_APPLICATION_ID)?;
    put_application(out, application)?;
    out.close(mark);
    Ok(())
}

/// Writes what the PCRF is and can.
fn put_capabilities(out: &mut AvpWriter, identity: &Identity) -> Result<(), AllocError>
    ensures { OnOk result (Adds out.old out.new (capabilities_avps identity.now)) }
{
    put_node(out, identity)?;
    out.plain_text(PRODUCT_NAME, PRODUCT)?;
    put_supported(out, GX)?;
    put_supported(out, RX)?;
    Ok(())
}

/// Writes what an answer has besides the result and the origin.
fn put_kind(out: &mut AvpWriter, identity: &Identity, kind: &BaseKind) -> Result<(), AllocError>
    ensures { OnOk result (Adds out.old out.new (kind_avps identity.now (kind_view kind.now))) }
{
    match kind {
        BaseKind::CapabilitiesExchange(_) => {
            put_capabilities(out, identity)?;
            Ok(())
        }
        BaseKind::DeviceWatchdog | BaseKind::DisconnectPeer => Ok(()),
    }
}

/// The AVPs of an answer. Every answer fits a message.
#[tactic(auto, unfolding(crate::specs::NeighbourAnswers::base_avps))]
fn base_avps(
    alloc: Global,
    identity: &Identity,
    request: &BaseRequest,
) -> Result<AvpWriter, AllocError>
    ensures added { IfOk result (λ out.
        Adds [] out (base_avps identity.now (base_view request.now))) }
    ensures within { OnOk result
        (20 + sum_by padded_len (base_avps identity.now (base_view request.now)) ≤ longest_message) }
{
    identity.note_names();
    note_address(identity);
    let mut out = AvpWriter::start(alloc)?;
    put_result(&mut out, base_refusal(request))?;
    put_origin(&mut out, identity)?;
    put_kind(&mut out, identity, &request.kind)?;
    Ok(out)
}

/// The bytes of the answer to a request of the base protocol: success, or that no application is in common. Every answer fits a
/// message.
pub fn write_base_answer(
    alloc: Global,
    identity: &Identity,
    header: &Header,
    request: &BaseRequest,
) -> Result<Vec<u8>, AllocError>
    ensures written { IfOk result (λ bytes. bytes.items
        ≡ written_spelling (base_answer identity.now header.now (base_view request.now))) }
    ensures fits { OnOk result
        (written_len (base_answer identity.now header.now (base_view request.now)) ≤ longest_message) }
{
    let out = base_avps(alloc, identity, request)?;
    match out.into_bytes(&answer_header(header, base_refusal(request))) {
        Some(bytes) => Ok(bytes),
        None => unreachable!(),
    }
}
