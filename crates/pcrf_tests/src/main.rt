//! The tests of the product: of messages, sites, connections, links, and of what stands around them. They stand apart from the crates that
//! they are about, so that the proofs of these are made once, and in one crate, so that all of it is compiled once for all tests.
#![tactic(auto)]

#[cfg(test)]
mod books;
#[cfg(test)]
mod calls;
#[cfg(test)]
mod challenges;
#[cfg(test)]
mod checks;
#[cfg(test)]
mod codec;
#[cfg(test)]
mod cursors;
#[cfg(test)]
mod devices;
#[cfg(test)]
mod downlink_filters;
#[cfg(test)]
mod events;
#[cfg(test)]
mod exchanging;
#[cfg(test)]
mod facts;
#[cfg(test)]
mod failed_avps;
#[cfg(test)]
mod fault_texts;
#[cfg(test)]
mod indexes;
#[cfg(test)]
mod living;
#[cfg(test)]
mod locks;
#[cfg(test)]
mod many;
#[cfg(test)]
mod messages;
#[cfg(test)]
mod notices;
#[cfg(test)]
mod outboxes;
#[cfg(test)]
mod reached_hosts;
#[cfg(test)]
mod recent_messages;
#[cfg(test)]
mod refused_pushes;
#[cfg(test)]
mod sealed;
#[cfg(test)]
mod serving;
#[cfg(test)]
mod session_notes;
#[cfg(test)]
mod sites;
#[cfg(test)]
mod split_notices;
#[cfg(test)]
mod standard_form;
#[cfg(test)]
mod status;
#[cfg(test)]
mod tables;
#[cfg(test)]
mod texts;
#[cfg(test)]
mod told;
#[cfg(test)]
mod two_connections;
#[cfg(test)]
mod values;

/// Does nothing: what this crate has are tests.
fn main() {}
