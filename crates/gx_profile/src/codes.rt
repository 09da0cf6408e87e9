//! Numbers that TS 29.212 gives out.

/// AVP codes of 3GPP (TS 29.212, 5.3, where nothing else is said).
pub mod avps {
    /// 5.3.2.
    pub const CHARGING_RULE_INSTALL: u32 = 1001;

    /// 5.3.3.
    pub const CHARGING_RULE_REMOVE: u32 = 1002;

    /// 5.3.4.
    pub const CHARGING_RULE_DEFINITION: u32 = 1003;

    /// 5.3.6.
    pub const CHARGING_RULE_NAME: u32 = 1005;

    /// 5.3.11.
    pub const PRECEDENCE: u32 = 1010;

    /// 5.3.16.
    pub const QOS_INFORMATION: u32 = 1016;

    /// 5.3.17.
    pub const QOS_CLASS_IDENTIFIER: u32 = 1028;

    /// 5.3.25.
    pub const GUARANTEED_BITRATE_DL: u32 = 1025;

    /// 5.3.26.
    pub const GUARANTEED_BITRATE_UL: u32 = 1026;

    /// 5.3.32.
    pub const ALLOCATION_RETENTION_PRIORITY: u32 = 1034;

    /// 5.3.39.
    pub const APN_AGGREGATE_MAX_BITRATE_DL: u32 = 1040;

    /// 5.3.40.
    pub const APN_AGGREGATE_MAX_BITRATE_UL: u32 = 1041;

    /// 5.3.45.
    pub const PRIORITY_LEVEL: u32 = 1046;

    /// 5.3.46.
    pub const PRE_EMPTION_CAPABILITY: u32 = 1047;

    /// 5.3.47.
    pub const PRE_EMPTION_VULNERABILITY: u32 = 1048;

    /// 5.3.48.
    pub const DEFAULT_EPS_BEARER_QOS: u32 = 1049;

    /// 5.3.53.
    pub const FLOW_INFORMATION: u32 = 1058;

    /// 5.3.65.
    pub const FLOW_DIRECTION: u32 = 1080;

    /// TS 29.214, 5.3.8.
    pub const FLOW_DESCRIPTION: u32 = 507;

    /// TS 29.214, 5.3.11.
    pub const FLOW_STATUS: u32 = 511;

    /// TS 29.214, 5.3.14.
    pub const MAX_REQUESTED_BANDWIDTH_DL: u32 = 515;

    /// TS 29.214, 5.3.15.
    pub const MAX_REQUESTED_BANDWIDTH_UL: u32 = 516;
}

/// What a request that a server makes has of the base protocol (RFC 6733).
pub mod base {
    /// The command Re-Auth (8.3).
    pub const RE_AUTH: u32 = 258;

    /// 8.12.
    pub const RE_AUTH_REQUEST_TYPE: u32 = 285;

    /// The Re-Auth-Request-Type that asks for an authorisation alone (8.12).
    pub const AUTHORIZE_ONLY: u32 = 0;
}
