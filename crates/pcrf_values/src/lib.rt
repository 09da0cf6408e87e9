//! The values that requests, facts, rules and letters share: total orders whose equals are the same value, finite sets as ascending
//! lists, values that keep their ranges by their types, and the facts of one session, which overshadow each other.
//!
//! Where two sites have to choose the same one of two values, whichever they heard of first, they choose the greater one.
//! So each type that they choose from has a total order, in which only a value itself is equal to it.
#![tactic(auto)]

mod default_quality;
pub mod fact_laws;
mod hashing;
mod ipv6_prefix;
pub mod laws;
pub mod limits;
mod lists;
mod numbers;
mod order;
pub mod order_laws;
mod permit_filter;
mod refusal;
mod rule;
mod session_id;
mod subscribers;
mod tag;
mod text;

pub use default_quality::{DefaultClass, DefaultQuality};
pub use hashing::HashSeed;
pub use ipv6_prefix::Ipv6Prefix;
pub use lists::{BoundedList, Filters, Listed, ascending_of};
pub use numbers::{
    BoundedNumber, Enumerated, Enumeration, FlowUsage, PriorityLevel, QosClass, RequestKind,
};
pub use order::{Exact, Ranked, compare_bytes, equal_bytes, same, same_address, same_items};
pub use permit_filter::{PermitFilter, PermitFilters, texts_of};
pub use refusal::Refusal;
pub use rule::{Delta, FlowStatus, Preemption, RetentionPriority, Rule, RuleQos};
pub use session_id::{AfSid, GxSid};
pub use subscribers::{Subscriber, Subscribers, SubscriptionType};
pub use tag::Tag;
pub use text::{
    Apn, BoundedText, DiameterIdentity, FilterText, RuleName, SessionId, SubscriptionData, Text,
};
