//! Which messages are told apart where they are counted.
ghost use Rattle.std.specs.Prelude.{◌≡◌, ◌<◌};

use dia_base::codes::commands::{
    ABORT_SESSION, AUTHORIZATION, CREDIT_CONTROL, SESSION_TERMINATION,
};
use dia_base::codes::{GX, RX};

/// The application of the base protocol (RFC 6733, 2.4).
const BASE: u32 = 0;

/// The commands of the base protocol between neighbours, and Re-Auth (RFC 6733, 3.1).
const CAPABILITIES_EXCHANGE: u32 = 257;

const DEVICE_WATCHDOG: u32 = 280;

const DISCONNECT_PEER: u32 = 282;

const RE_AUTH: u32 = 258;

/// How many kinds there are.
pub const KIND_COUNT: usize = 9;

/// An application with one of its commands, as far as they are told apart.
#[derive(Clone, Copy, Debug, PartialEq, Eq)]
pub enum MessageKind {
    CapabilitiesExchange,
    DeviceWatchdog,
    DisconnectPeer,
    CreditControl,
    ReAuth,
    Authorization,
    SessionTermination,
    AbortSession,
    /// Any other.
    Other,
}

/// All of them, each at its place.
pub const KINDS: [MessageKind; KIND_COUNT] = [
    MessageKind::CapabilitiesExchange,
    MessageKind::DeviceWatchdog,
    MessageKind::DisconnectPeer,
    MessageKind::CreditControl,
    MessageKind::ReAuth,
    MessageKind::Authorization,
    MessageKind::SessionTermination,
    MessageKind::AbortSession,
    MessageKind::Other,
];

impl MessageKind {
    /// That of a message with such a header.
    pub fn of(application: u32, command: u32) -> MessageKind {
        match (application, command) {
            (BASE, CAPABILITIES_EXCHANGE) => MessageKind::CapabilitiesExchange,
            (BASE, DEVICE_WATCHDOG) => MessageKind::DeviceWatchdog,
            (BASE, DISCONNECT_PEER) => MessageKind::DisconnectPeer,
            (GX, CREDIT_CONTROL) => MessageKind::CreditControl,
            (GX, RE_AUTH) => MessageKind::ReAuth,
            (RX, AUTHORIZATION) => MessageKind::Authorization,
            (RX, SESSION_TERMINATION) => MessageKind::SessionTermination,
            (RX, ABORT_SESSION) => MessageKind::AbortSession,
            _ => MessageKind::Other,
        }
    }

    /// Its place among all.
    pub fn place(self) -> usize
        ensures { result < KIND_COUNT }
    {
        match self {
            MessageKind::CapabilitiesExchange => 0,
            MessageKind::DeviceWatchdog => 1,
            MessageKind::DisconnectPeer => 2,
            MessageKind::CreditControl => 3,
            MessageKind::ReAuth => 4,
            MessageKind::Authorization => 5,
            MessageKind::SessionTermination => 6,
            MessageKind::AbortSession => 7,
            MessageKind::Other => 8,
        }
    }

    /// What its application is called.
    pub fn application(self) -> &'static str {
        match self {
            MessageKind::CapabilitiesExchange
            | MessageKind::DeviceWatchdog
            | MessageKind::DisconnectPeer => "base",
            MessageKind::CreditControl | MessageKind::ReAuth => "Gx",
            MessageKind::Authorization
            | MessageKind::SessionTermination
            | MessageKind::AbortSession => "Rx",
            MessageKind::Other => "other",
        }
    }

    /// What its command is called.
    pub fn command(self) -> &'static str {
        match self {
            MessageKind::CapabilitiesExchange => "Capabilities-Exchange",
            MessageKind::DeviceWatchdog => "Device-Watchdog",
            MessageKind::DisconnectPeer => "Disconnect-Peer",
            MessageKind::CreditControl => "Credit-Control",
            MessageKind::ReAuth => "Re-Auth",
            MessageKind::Authorization => "AA",
            MessageKind::SessionTermination => "Session-Termination",
            MessageKind::AbortSession => "Abort-Session",
            MessageKind::Other => "other",
        }
    }
}
