//! Operator tables (this project's profile), read from TOML: which access points there are and with which default quality
//! of service, which rules each of their sessions has, and which class of service each kind of media has.
#![tactic(auto)]

mod apns;
mod class;
mod copies;
mod fault;
pub mod laws;
mod limits;
mod media;
mod place;
mod quality;
mod reading;
mod tables;
mod texts;

pub use apns::{AccessPoint, OperatorRule, OperatorRuleName, Word};
pub use class::Class;
pub use fault::{PlacedFault, TableFault};
pub use limits::limits_are_the_profiles;
pub use place::{Place, Step, TableKey};
pub use tables::{Tables, read_placed, read_tables};
