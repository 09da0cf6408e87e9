//! The limits of this project's profile, as the code has them. The definitions have the same as numbers of their own (`specs/Limits.antt`).
ghost use Rattle.pcrf_values.specs.Limits as profile;
ghost use Rattle.std.specs.Prelude.{◌≡◌};

/// The most bytes of a Session-Id (RFC 6733, 8.8).
pub const SESSION_ID_LIMIT: usize = 512;

/// The most bytes of an Origin-Host or an Origin-Realm (RFC 6733, 4.3.1: a name of the DNS, RFC 1035, 2.3.4).
pub const IDENTITY_LIMIT: usize = 255;

/// The most bytes of an access point name (Called-Station-Id, TS 29.212, 5.3; TS 23.003, 9.1).
pub const APN_LIMIT: usize = 255;

/// The most bytes of a Subscription-Id-Data (RFC 8506, 8.48).
pub const SUBSCRIPTION_DATA_LIMIT: usize = 255;

/// How many Subscription-Ids a request may have, and how many subscribers a session.
pub const SUBSCRIBERS_LIMIT: usize = 16;

/// How many media components an AA request may have.
pub const COMPONENTS_LIMIT: usize = 64;

/// How many flows a component of a request may have.
pub const FLOWS_LIMIT: usize = 64;

/// How many filters a flow may have: one for each direction (TS 29.214, 5.3.8).
pub const FILTERS_LIMIT: usize = 2;

/// The most bytes of a filter.
pub const FILTER_LIMIT: usize = 255;

/// The most bytes of a Charging-Rule-Name: there is room for a Session-Id and two numbers.
pub const RULE_NAME_LIMIT: usize = 600;

/// The most bytes of the name that an operator gives a rule.
pub const OPERATOR_RULE_NAME_LIMIT: usize = 64;

/// How many sites there may be, with the numbers below.
pub const SITE_LIMIT: u8 = 16;

/// The last counter of an operation, and the last position in a log.
pub const LAST_COUNTER: u64 = (1 << 63) - 1;

/// The last epoch of a site.
pub const LAST_EPOCH: u16 = 65_535;

/// How many entries of a difference one message carries.
pub const DELTA_LIMIT: usize = 40;

/// How many operations one letter carries.
pub const RANGE_LIMIT: usize = 100;

/// Each limit of the code is the profile's number.
pub fn limits_are_the_profiles()
    ensures session_id { SESSION_ID_LIMIT ≡ profile.session_id_limit }
    ensures identity { IDENTITY_LIMIT ≡ profile.identity_limit }
    ensures apn { APN_LIMIT ≡ profile.apn_limit }
    ensures subscription_data { SUBSCRIPTION_DATA_LIMIT ≡ profile.subscription_data_limit }
    ensures subscribers { SUBSCRIBERS_LIMIT ≡ profile.subscribers_limit }
    ensures components { COMPONENTS_LIMIT ≡ profile.components_limit }
    ensures flows { FLOWS_LIMIT ≡ profile.flows_limit }
    ensures filters { FILTERS_LIMIT ≡ profile.filters_limit }
    ensures filter { FILTER_LIMIT ≡ profile.filter_limit }
    ensures rule_name { RULE_NAME_LIMIT ≡ profile.rule_name_limit }
    ensures operator_rule_name { OPERATOR_RULE_NAME_LIMIT ≡ profile.operator_rule_name_limit }
    ensures site { SITE_LIMIT ≡ profile.site_limit }
    ensures last_counter { LAST_COUNTER ≡ profile.last_counter }
    ensures last_epoch { LAST_EPOCH ≡ profile.last_epoch }
    ensures delta { DELTA_LIMIT ≡ profile.delta_limit }
    ensures range { RANGE_LIMIT ≡ profile.range_limit }
{}
