//! Joins of replicated facts, and records of the facts of one session, each as one ascending list of the facts that are kept.
//!
//! The sites of a network share what they know by joining it: a join is commutative, associative and idempotent, so the
//! order in which facts arrive, and how often, makes no difference.
#![tactic(auto)]

mod entries;
mod fact;
mod fact_set;
mod join;
mod keeping;
pub mod laws;
mod map;
mod placing;
mod record;
mod reg;
mod tombed;
mod tree;

pub use entries::Entries;
pub use fact::{
    Beneath, COMPONENT_FIELD, FLOW_FIELD, Position, RULE_NAME, SessionValue, TypedFact,
    compare_values, position_of_field, session_position,
};
pub use fact_set::{FactSet, same_facts};
pub use join::Join;
pub use keeping::are_kept;
pub use map::JoinMap;
pub use pcrf_values::{Delta, Ranked, Rule, Tag};
pub use record::{Record, copy_facts};
pub use reg::Reg;
pub use tombed::Tombed;
pub use tree::JoinTree;
