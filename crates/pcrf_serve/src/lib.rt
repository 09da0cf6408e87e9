//! Connections of a locked site: of gateways and application functions, served side by side, one worker for each; how gateways are
//! reached, by pushes and after they went over from another site; and of peer sites, which exchange letters.
//!
//! A worker reads what there is, has each whole message answered as a site answers it (`site_core`), writes the answers of one
//! read together, and after each message that was served pushes to the gateways that can be reached.
#![tactic(auto)]

mod conversing;
mod counting;
mod demand;
mod dialing;
mod end;
mod exchange;
mod gate;
mod gateways;
mod going_over;
mod granting;
mod half;
mod heading;
mod leaves;
mod letters;
mod link;
mod listening;
mod observer;
mod outgoing;
mod peer_link;
mod push_answers;
mod pushes;
mod pushing;
mod repeats;
mod seat_at_site;
mod taking;
mod workers;

pub use conversing::serve_connection;
pub use counting::first_end_id;
pub use demand::Demand;
pub use end::LinkEnd;
pub use exchange::{Role, exchange_with};
pub use gate::Gate;
pub use gateways::Gateways;
pub use going_over::{GoneOver, go_over};
pub use granting::is_grantable;
pub use half::Half;
pub use leaves::Leaves;
pub use link::Server;
pub use observer::{Observer, Unobserved};
pub use outgoing::Outgoing;
pub use peer_exchange::Cursors;
pub use pushes::Pushes;
pub use pushing::{push_all, tell_entries};
pub use repeats::{Repeats, Unrepeated};
pub use seat_at_site::SeatAtSite;
pub use site_lock::{
    Dated, Event, Grown, HISTORY_LIMIT, LockedSite, Reply, Request, SEAT_LIMIT, Seat, SharedSite,
    Site, StepFault,
};
pub use taking::{PIECE, next_updates};
pub use workers::{KeepsEarlier, serve_sessions};
