//! How sites agree that sessions which ended may be forgotten: the site that asks and the others, what each keeps of a question, and the
//! laws of it.
#![tactic(auto)]

pub mod laws;
