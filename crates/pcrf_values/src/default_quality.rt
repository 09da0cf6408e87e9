//! Default qualities of service.
use crate::numbers::BoundedNumber;
use crate::rule::RetentionPriority;

/// The quality of service class of a default bearer, which has no guaranteed bit rate (TS 23.203, 6.1.7).
pub type DefaultClass = BoundedNumber<5, 9>;

/// What the sessions of an access point have by default: the class and the priority of the default bearer
/// (Default-EPS-Bearer-QoS, TS 29.212, 5.3.48), and the greatest bit rates up and down of all bearers together that have no
/// guaranteed rate (APN-Aggregate-Max-Bitrate-UL and -DL, TS 29.212, 5.3.39 and 5.3.40).
#[derive(Clone, Copy, Debug, PartialEq, Eq)]
pub struct DefaultQuality {
    pub class: DefaultClass,
    pub priority: RetentionPriority,
    /// In bit/s.
    pub aggregate_uplink: u32,
    /// In bit/s.
    pub aggregate_downlink: u32,
}
