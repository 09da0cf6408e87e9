//! How many rows operator tables may have: this project's own limits, as the code has them. The definitions have the same as numbers of
//! their own (`specs/Places.antt`).
ghost use Rattle.op_tables.specs.Places.{apns_limit, media_limit, rules_limit};
ghost use Rattle.std.specs.Prelude.{◌≡◌};

/// The most kinds of media that tables may have.
pub(crate) const MOST_MEDIA: usize = 64;

/// The most access points that tables may have.
pub(crate) const MOST_APNS: usize = 1000;

/// The most rules that an access point may have.
pub(crate) const MOST_RULES: usize = 64;

/// Each limit of the code is the profile's number.
pub fn limits_are_the_profiles()
    ensures media { MOST_MEDIA ≡ media_limit }
    ensures access_points { MOST_APNS ≡ apns_limit }
    ensures rules { MOST_RULES ≡ rules_limit }
{}
