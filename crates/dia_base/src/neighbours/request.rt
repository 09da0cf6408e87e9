//! Requests of the base protocol.
ghost use Rattle.std.specs.Prelude.{◌≡◌, ◌↔◌, OnOk, IfOk, IfErr, IsTrue};
ghost use Rattle.dia_codec.specs.Spelling.{avp_views};
ghost use Rattle.dia_base.specs.Rows.{AcceptsAll, IsFaultOf, rows_refusal};
ghost use Rattle.dia_base.specs.NeighbourAvps.{is_base_command};
ghost use Rattle.dia_base.specs.NeighbourRequests.{base_of, base_rows, base_view, kind_of, kind_rows, kind_view};

use crate::neighbours::applications::{ApplicationId, read_applications, same_applications};
use crate::neighbours::codes::commands::{CAPABILITIES_EXCHANGE, DEVICE_WATCHDOG, DISCONNECT_PEER};
use crate::read_fault::ReadFault;
use crate::rows::{Origin, read_origin};
use dia_codec::{Avp, Message};
use pcrf_values::Exact;
use std::alloc::{AllocError, Global};

/// What a request of the base protocol asks for.
#[derive(Debug, Drop, PartialEq, Eq)]
pub enum BaseKind {
    /// What the peers can (5.3.1): with the applications that the peer advertises.
    CapabilitiesExchange(Vec<ApplicationId>),
    /// Whether the peer is there (5.5.1).
    DeviceWatchdog,
    /// That the connection ends (5.4.1).
    DisconnectPeer,
}

/// A request of the base protocol as it was read.
#[derive(Debug, Drop, PartialEq, Eq)]
pub struct BaseRequest {
    /// What it asks for.
    pub kind: BaseKind,
    /// Origin-Host and Origin-Realm: the peer.
    pub origin: Origin,
}

impl BaseKind {
    /// The same, copied.
    fn try_copy(&self) -> Result<BaseKind, AllocError>
        ensures { IfOk result (λ copy. kind_view copy ≡ kind_view self.now) }
    {
        match self {
            BaseKind::CapabilitiesExchange(each) => {
                let copies = Vec::from_slice(*each.allocator(), each.as_slice())?;
                Ok(BaseKind::CapabilitiesExchange(copies))
            }
            BaseKind::DeviceWatchdog => Ok(BaseKind::DeviceWatchdog),
            BaseKind::DisconnectPeer => Ok(BaseKind::DisconnectPeer),
        }
    }

    /// Both ask for the same.
    fn equal(&self, other: &BaseKind) -> bool
        ensures { IsTrue result ↔ (kind_view self.now ≡ kind_view other.now) }
    {
        match (self, other) {
            (BaseKind::CapabilitiesExchange(ours), BaseKind::CapabilitiesExchange(theirs)) => {
                same_applications(ours.as_slice(), theirs.as_slice())
            }
            (BaseKind::DeviceWatchdog, BaseKind::DeviceWatchdog) => true,
            (BaseKind::DisconnectPeer, BaseKind::DisconnectPeer) => true,
            _ => false,
        }
    }
}

impl BaseRequest {
    /// An equal request.
    pub fn try_copy(&self) -> Result<BaseRequest, AllocError>
        ensures { IfOk result (λ copy. base_view copy ≡ base_view self.now) }
    {
        let kind = self.kind.try_copy()?;
        let origin = self.origin.try_copy()?;
        Ok(BaseRequest { kind, origin })
    }

    /// Both ask for the same.
    pub fn equal(&self, other: &BaseRequest) -> bool
        ensures { IsTrue result ↔ (base_view self.now ≡ base_view other.now) }
    {
        self.kind.equal(&other.kind) && self.origin.equal(&other.origin)
    }
}

/// Whether a command is one of these requests'.
pub fn is_base_command(command: u32) -> bool
    ensures { result ≡ is_base_command command }
{
    command == CAPABILITIES_EXCHANGE || command == DEVICE_WATCHDOG || command == DISCONNECT_PEER
}

/// Reads what a command has besides the origin.
fn read_kind(alloc: Global, command: u32, avps: &[Avp<'_>]) -> Result<BaseKind, ReadFault>
    ensures accepted { OnOk result (AcceptsAll (kind_rows command) (avp_views avps.now)) }
    ensures kind { IfOk result (λ kind. kind_view kind ≡ kind_of command (avp_views avps.now)) }
    ensures refused { IfErr result
        (IsFaultOf (rows_refusal (kind_rows command) (avp_views avps.now))) }
{
    if command == CAPABILITIES_EXCHANGE {
        let applications = read_applications(alloc, avps)?;
        return Ok(BaseKind::CapabilitiesExchange(applications));
    }
    if command == DEVICE_WATCHDOG {
        return Ok(BaseKind::DeviceWatchdog);
    }
    Ok(BaseKind::DisconnectPeer)
}

/// Reads a request of the base protocol, or gives the first refusal of what breaks its command's table. A command that is
/// neither a capabilities exchange nor a watchdog is read as the end of a connection.
pub fn read_base(alloc: Global, message: &Message<'_>) -> Result<BaseRequest, ReadFault>
    ensures accepted { OnOk result (AcceptsAll (base_rows message.now.header.command)
        (avp_views message.now.avps.items)) }
    ensures request { IfOk result (λ request. base_view request
        ≡ base_of message.now.header.command (avp_views message.now.avps.items)) }
    ensures refused { IfErr result (IsFaultOf (rows_refusal
        (base_rows message.now.header.command) (avp_views message.now.avps.items))) }
{
    let avps = message.avps.as_slice();
    let origin = read_origin(alloc, avps)?;
    let kind = read_kind(alloc, message.header.command, avps)?;
    Ok(BaseRequest { kind, origin })
}
