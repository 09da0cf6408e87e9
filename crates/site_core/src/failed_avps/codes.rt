//! Numbers that the standards give out, beside those of `dia_base`.

/// ETSI's enterprise number.
pub const ETSI: u32 = 13_019;

/// That of 3GPP2.
pub const TGPP2: u32 = 5535;

/// Commands of the base protocol (RFC 6733, 3.1).
pub mod commands {
    pub const CAPABILITIES_EXCHANGE: u32 = 257;

    pub const DEVICE_WATCHDOG: u32 = 280;

    pub const DISCONNECT_PEER: u32 = 282;
}

/// Values of Result-Code (RFC 6733, 7.1.5).
pub mod results {
    pub const AVP_UNSUPPORTED: u32 = 5001;
}

/// AVP codes of the base protocol (RFC 6733, 4.5).
pub mod avps {
    pub const VENDOR_SPECIFIC_APPLICATION_ID: u32 = 260;

    pub const FAILED_AVP: u32 = 279;
}

/// AVP codes of 3GPP (TS 29.214, 5.3).
pub mod tgpp {
    pub const FLOW_DESCRIPTION: u32 = 507;

    pub const FLOW_NUMBER: u32 = 509;

    pub const FLOW_STATUS: u32 = 511;

    pub const FLOW_USAGE: u32 = 512;

    pub const MAX_REQUESTED_BANDWIDTH_DL: u32 = 515;

    pub const MAX_REQUESTED_BANDWIDTH_UL: u32 = 516;

    pub const MEDIA_COMPONENT_DESCRIPTION: u32 = 517;

    pub const MEDIA_COMPONENT_NUMBER: u32 = 518;

    pub const MEDIA_SUB_COMPONENT: u32 = 519;

    pub const MEDIA_TYPE: u32 = 520;
}
