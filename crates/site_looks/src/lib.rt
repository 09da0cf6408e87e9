//! What an operator looks up at a running site: one session, the sessions of a subscriber, and those at an address, each found by an index under
//! the site's lock, and shown as JSON apart from it; how many sessions there are, counted some at a time; which ended, until they may be
//! forgotten; and a site whose calls are timed.
#![tactic(auto)]

mod counting;
mod ended;
mod found;
mod known;
mod listed;
mod lookers;
mod metered;
mod meters;
mod notes;
mod shown;

pub use counting::{CallCounts, CallPiece, GatewayCounts, GatewayPiece, PIECE};
pub use ended::EndedSessions;
pub use found::{CallFound, GatewayFound, Unbound, call, gateway_session};
pub use known::KnownSessions;
pub use listed::{calls_at, gateways_at, sessions_named};
pub use lookers::{AddressLook, SessionLook, SubscriberLook};
pub use metered::MeteredSite;
pub use meters::Meters;
pub use notes::{NotesRoom, SessionNotes};
pub use shown::{PAGE, address_shown, session_shown, subscriber_shown};
