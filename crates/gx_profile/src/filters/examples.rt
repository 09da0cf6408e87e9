//! Worked examples: what becomes of filters, against what is worked out by hand.
ghost use Rattle.std.specs.Prelude.{◌≡◌, codes};
ghost use Rattle.gx_profile.specs.Downlinks.{as_downlink, as_given, direction_of, direction_number};

/// A filter from the terminal becomes one to it: addresses are exchanged, each with its ports, and the protocol stays.
#[tactic(auto, unfolding(crate::specs::Downlinks::as_downlink, crate::specs::Filters::parts_of, crate::specs::Filters::is_rule, crate::specs::Filters::spelled))]
pub fn ends_are_exchanged()
    ensures plain { as_downlink (codes "permit in ip from any to 192.0.2.9")
        ≡ codes "permit out ip from 192.0.2.9 to any" }
    ensures ports { as_downlink
        (codes "permit in 17 from 10.0.0.1 5004 to 192.0.2.9 7000,7002-7009")
        ≡ codes "permit out 17 from 192.0.2.9 7000,7002-7009 to 10.0.0.1 5004" }
    ensures source { as_downlink (codes "permit in 6 from 10.0.0.1/32 80 to any")
        ≡ codes "permit out 6 from any to 10.0.0.1/32 80" }
    ensures sixth { as_downlink (codes "permit in 17 from 2001:DB8::1/128 to !assigned 53")
        ≡ codes "permit out 17 from !assigned 53 to 2001:DB8::1/128" }
{}

/// Options stay behind the ends, also where no ports come before them.
#[tactic(auto, unfolding(crate::specs::Downlinks::as_downlink, crate::specs::Filters::parts_of, crate::specs::Filters::is_rule, crate::specs::Filters::spelled))]
pub fn options_stay_behind()
    ensures { as_downlink (codes "permit in 1 from any 7 to 10.0.0.1 icmptypes 0,8 frag")
        ≡ codes "permit out 1 from 10.0.0.1 to any 7 icmptypes 0,8 frag" }
{}

/// A filter to the terminal stays as it is, and so does what is no filter by its words.
#[tactic(auto, unfolding(crate::specs::Downlinks::as_downlink, crate::specs::Filters::parts_of, crate::specs::Filters::is_rule, crate::specs::Filters::spelled))]
pub fn others_stay()
    ensures downlink { as_downlink (codes "permit out 17 from 192.0.2.9 to 10.0.0.1 5004")
        ≡ codes "permit out 17 from 192.0.2.9 to 10.0.0.1 5004" }
    ensures named { as_downlink (codes "permit in udp from any to any")
        ≡ codes "permit in udp from any to any" }
    ensures spaces { as_downlink (codes "permit in ip from any  to any")
        ≡ codes "permit in ip from any  to any" }
    ensures cut { as_downlink (codes "permit in ip from any to ")
        ≡ codes "permit in ip from any to " }
{}

/// The second word gives the direction, of what is no filter too.
pub fn second_word_directs()
    ensures uplink { direction_number (direction_of (codes "permit in udp from any to any")) ≡ 2 }
    ensures downlink { direction_number (direction_of (codes "permit out ip from any to any")) ≡ 1 }
{}

/// What a gateway was given leads back to what the application function gave.
#[tactic(auto, unfolding(crate::specs::Filters::parts_of, crate::specs::Filters::is_rule, crate::specs::Filters::spelled))]
pub fn it_comes_back()
    ensures { as_given (direction_of (codes "permit in 17 from 10.0.0.1 5004 to any"))
        (codes "permit out 17 from any to 10.0.0.1 5004")
        ≡ codes "permit in 17 from 10.0.0.1 5004 to any" }
{}
