//! The definitions of the product: sessions, bindings, rules and differences as a model, and its laws; and what a site tells a gateway,
//! apart from any message: the answer to a credit control request, and a push.
#![tactic(auto)]

pub mod abort_examples;
mod answer;
pub mod edge_examples;
mod entries;
pub mod examples;
pub mod form_examples;
pub mod laws;
pub mod neighbour_examples;
pub mod prefix_examples;
mod push;
pub mod ranges;
pub mod retell_examples;

pub use answer::GxReply;
pub use entries::FirstEntries;
pub use push::PushOut;
