//! Numbers of the base protocol's own messages.

/// Commands (RFC 6733, 3.1).
pub(crate) mod commands {
    /// Capabilities-Exchange.
    pub(crate) const CAPABILITIES_EXCHANGE: u32 = 257;
    /// Device-Watchdog.
    pub(crate) const DEVICE_WATCHDOG: u32 = 280;
    /// Disconnect-Peer.
    pub(crate) const DISCONNECT_PEER: u32 = 282;
}

/// AVP codes (RFC 6733, 4.5).
pub(crate) mod avps {
    pub(crate) const HOST_IP_ADDRESS: u32 = 257;

    pub(crate) const VENDOR_SPECIFIC_APPLICATION_ID: u32 = 260;

    pub(crate) const PRODUCT_NAME: u32 = 269;
}

/// The Application-Id of the base protocol's own messages (RFC 6733, 2.4).
pub(crate) const BASE: u32 = 0;

/// The Application-Id of relays (RFC 6733, 2.4).
pub(crate) const RELAY: u32 = 0xffff_ffff;

/// DIAMETER_NO_COMMON_APPLICATION (RFC 6733, 7.1.5).
pub(crate) const NO_COMMON_APPLICATION: u32 = 5010;
