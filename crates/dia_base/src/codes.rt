//! Numbers that the standards give out.

/// The application of the gateways' requests (TS 29.212, 5.1).
pub const GX: u32 = 16_777_238;

/// The application of the application functions' requests (TS 29.214, 5.1).
pub const RX: u32 = 16_777_236;

/// 3GPP as a vendor (TS 29.230).
pub const TGPP: u32 = 10_415;

/// Commands (RFC 6733, 3.1; RFC 8506, 3; TS 29.214, 5.6).
pub mod commands {
    /// Credit-Control.
    pub const CREDIT_CONTROL: u32 = 272;
    /// AA of Rx.
    pub const AUTHORIZATION: u32 = 265;
    /// Abort-Session of Rx.
    pub const ABORT_SESSION: u32 = 274;
    /// Session-Termination of Rx.
    pub const SESSION_TERMINATION: u32 = 275;
}

/// AVP codes (RFC 6733, 4.5; RFC 8506, 8; RFC 2865, 5; RFC 3162, 2).
pub mod avps {
    pub const FRAMED_IP_ADDRESS: u32 = 8;

    pub const CALLED_STATION_ID: u32 = 30;

    pub const FRAMED_IPV6_PREFIX: u32 = 97;

    pub const AUTH_APPLICATION_ID: u32 = 258;

    pub const SESSION_ID: u32 = 263;

    pub const ORIGIN_HOST: u32 = 264;

    pub const VENDOR_ID: u32 = 266;

    pub const RESULT_CODE: u32 = 268;

    pub const DESTINATION_REALM: u32 = 283;

    pub const DESTINATION_HOST: u32 = 293;

    pub const ORIGIN_REALM: u32 = 296;

    pub const EXPERIMENTAL_RESULT: u32 = 297;

    pub const EXPERIMENTAL_RESULT_CODE: u32 = 298;

    pub const CC_REQUEST_NUMBER: u32 = 415;

    pub const CC_REQUEST_TYPE: u32 = 416;

    pub const SUBSCRIPTION_ID: u32 = 443;

    pub const SUBSCRIPTION_ID_DATA: u32 = 444;

    pub const SUBSCRIPTION_ID_TYPE: u32 = 450;
}

/// Values of Result-Code and Experimental-Result-Code (RFC 6733, 7.1; TS 29.212, 5.5; TS 29.214, 5.5).
pub mod results {
    /// DIAMETER_SUCCESS.
    pub const SUCCESS: u32 = 2001;
    /// DIAMETER_COMMAND_UNSUPPORTED.
    pub const COMMAND_UNSUPPORTED: u32 = 3001;
    /// DIAMETER_APPLICATION_UNSUPPORTED.
    pub const APPLICATION_UNSUPPORTED: u32 = 3007;
    /// DIAMETER_INVALID_HDR_BITS.
    pub const INVALID_HDR_BITS: u32 = 3008;
    /// DIAMETER_UNKNOWN_SESSION_ID.
    pub const UNKNOWN_SESSION_ID: u32 = 5002;
    /// DIAMETER_AUTHORIZATION_REJECTED.
    pub const AUTHORIZATION_REJECTED: u32 = 5003;
    /// DIAMETER_INVALID_AVP_VALUE.
    pub const INVALID_AVP_VALUE: u32 = 5004;
    /// DIAMETER_MISSING_AVP.
    pub const MISSING_AVP: u32 = 5005;
    /// DIAMETER_AVP_OCCURS_TOO_MANY_TIMES.
    pub const AVP_OCCURS_TOO_MANY_TIMES: u32 = 5009;
    /// DIAMETER_UNSUPPORTED_VERSION.
    pub const UNSUPPORTED_VERSION: u32 = 5011;
    /// DIAMETER_UNABLE_TO_COMPLY.
    pub const UNABLE_TO_COMPLY: u32 = 5012;
    /// DIAMETER_INVALID_AVP_LENGTH.
    pub const INVALID_AVP_LENGTH: u32 = 5014;
    /// INVALID_SERVICE_INFORMATION of 3GPP.
    pub const INVALID_SERVICE_INFORMATION: u32 = 5061;
    /// FILTER_RESTRICTIONS of 3GPP.
    pub const FILTER_RESTRICTIONS: u32 = 5062;
    /// REQUESTED_SERVICE_NOT_AUTHORIZED of 3GPP.
    pub const SERVICE_NOT_AUTHORIZED: u32 = 5063;
    /// IP-CAN_SESSION_NOT_AVAILABLE of 3GPP.
    pub const SESSION_NOT_AVAILABLE: u32 = 5065;
    /// DIAMETER_ERROR_INITIAL_PARAMETERS of 3GPP.
    pub const INITIAL_PARAMETERS: u32 = 5140;
}
