//! Numbers that TS 29.214 gives out.

/// The Abort-Cause BEARER_RELEASED (TS 29.214, 5.3.1).
pub const BEARER_RELEASED: u32 = 0;

/// AVP codes of 3GPP (TS 29.214, 5.3).
pub mod avps {
    /// 5.3.1.
    pub const ABORT_CAUSE: u32 = 500;

    /// 5.3.8.
    pub const FLOW_DESCRIPTION: u32 = 507;

    /// 5.3.9.
    pub const FLOW_NUMBER: u32 = 509;

    /// 5.3.11.
    pub const FLOW_STATUS: u32 = 511;

    /// 5.3.12.
    pub const FLOW_USAGE: u32 = 512;

    /// 5.3.14.
    pub const MAX_REQUESTED_BANDWIDTH_DL: u32 = 515;

    /// 5.3.15.
    pub const MAX_REQUESTED_BANDWIDTH_UL: u32 = 516;

    /// 5.3.16.
    pub const MEDIA_COMPONENT_DESCRIPTION: u32 = 517;

    /// 5.3.17.
    pub const MEDIA_COMPONENT_NUMBER: u32 = 518;

    /// 5.3.18.
    pub const MEDIA_SUB_COMPONENT: u32 = 519;

    /// 5.3.19.
    pub const MEDIA_TYPE: u32 = 520;
}
