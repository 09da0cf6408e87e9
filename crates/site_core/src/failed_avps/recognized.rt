//! Which AVPs are recognized.
ghost use Rattle.std.specs.Prelude.{◌≡◌};
ghost use Rattle.site_core.specs.Recognized.{is_recognized, is_within, recognized_codes};

use crate::failed_avps::codes::{ETSI, TGPP2};
use dia_base::codes::TGPP;
use dia_codec::AvpKey;

/// The codes from the first to the last that a vendor gave out, None for the IETF.
#[derive(Clone, Copy, Debug, PartialEq, Eq)]
struct CodeRange {
    vendor: Option<u32>,
    first: u32,
    last: u32,
}

/// Codes of the IETF.
macro_rules! ietf {
    ($first:expr, $last:expr) => {
        CodeRange {
            vendor: None,
            first: $first,
            last: $last,
        }
    };
}

/// Codes of a vendor.
macro_rules! vendor {
    ($vendor:expr, $first:expr, $last:expr) => {
        CodeRange {
            vendor: Some($vendor),
            first: $first,
            last: $last,
        }
    };
}

/// The AVPs that are recognized, by the standards that were given their codes.
fn recognized_codes() -> &'static [CodeRange]
    ensures { result.now ≡ recognized_codes }
{
    &[
        // The attributes of RADIUS (RFC 6733, 4.5).
        ietf!(1, 255),
        // The base protocol (RFC 6733, 4.5) and DRMP (RFC 7944).
        ietf!(257, 301),
        // Access servers (RFC 7155, 4).
        ietf!(363, 366),
        ietf!(400, 408),
        // Credit control (RFC 8506, 8).
        ietf!(411, 461),
        // Accounting (RFC 6733, 9.8).
        ietf!(480, 485),
        // Mobility and the quality of service (RFC 5447, RFC 5778, RFC 5624, RFC 5779, RFC 6611).
        ietf!(486, 507),
        // Filters (RFC 5777).
        ietf!(508, 578),
        // Overload (RFC 7683).
        ietf!(621, 627),
        // Overload of agents (RFC 8581), load (RFC 8583) and what was added to credit control (RFC 8506, 8).
        ietf!(648, 669),
        // Gi and SGi (TS 29.061, 16.4.7).
        vendor!(TGPP, 1, 255),
        // Rx (TS 29.214, 5.3).
        vendor!(TGPP, 500, 599),
        // Cx (TS 29.229, 6.3), with Supported-Features.
        vendor!(TGPP, 600, 699),
        // Sh (TS 29.329, 6.3).
        vendor!(TGPP, 700, 799),
        // Charging (TS 32.299, 7.2).
        vendor!(TGPP, 800, 899),
        // Gmb (TS 29.061, 17.7), with RAI.
        vendor!(TGPP, 900, 999),
        // Gx (TS 29.212, 5.3).
        vendor!(TGPP, 1000, 1099),
        // Charging (TS 32.299, 7.2).
        vendor!(TGPP, 1200, 1299),
        // S6a (TS 29.272, 7.3).
        vendor!(TGPP, 1400, 1499),
        // Access that isn't 3GPP's (TS 29.273).
        vendor!(TGPP, 1500, 1599),
        // S6a (TS 29.272, 7.3).
        vendor!(TGPP, 1600, 1699),
        // Charging (TS 32.299, 7.2).
        vendor!(TGPP, 2000, 2199),
        // S9 (TS 29.215, 5.3).
        vendor!(TGPP, 2200, 2299),
        // Charging (TS 32.299, 7.2).
        vendor!(TGPP, 2300, 2399),
        // Gx (TS 29.212, 5.3).
        vendor!(TGPP, 2800, 2899),
        // Sy (TS 29.219, 5.3).
        vendor!(TGPP, 2900, 2999),
        // Nt (TS 29.154, 5.3), with Reference-Id.
        vendor!(TGPP, 4200, 4299),
        // Where a user is attached (TS 183 066), with Logical-Access-Id and Physical-Access-Id.
        vendor!(ETSI, 300, 399),
        // Gq' (TS 183 017), with Reservation-Priority.
        vendor!(ETSI, 450, 459),
        // 3GPP2-BSID (X.S0057).
        vendor!(TGPP2, 9010, 9010),
    ]
}

/// Whether an AVP is one of a range.
fn is_within(key: AvpKey, range: &CodeRange) -> bool
    ensures { result ≡ is_within key range.now }
{
    key.vendor == range.vendor && range.first <= key.code && key.code <= range.last
}

/// Whether an AVP is one of the standards whose AVPs requests of the base protocol, of Gx and of Rx may have.
#[tactic(auto, unfolding(crate::specs::Recognized::is_recognized))]
pub fn is_recognized(key: AvpKey) -> bool
    ensures { result ≡ is_recognized key }
{
    recognized_codes().iter().any(|range| is_within(key, range))
}
