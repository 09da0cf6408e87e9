//! Connections of a server that stays: who waits for a seat, what waits to be written to a peer and who writes it, messages that are
//! kept for a while, what gateways may have lost of what they were told, and the order of a connection's life, which its peer has to
//! keep: a capabilities exchange first, no other host later, and some byte now and then.
#![tactic(auto)]

mod avps;
mod cause;
mod counted;
mod desk;
mod frames;
mod guests;
mod hall;
mod kinds;
pub mod laws;
mod measures;
mod message;
mod messages;
mod origin_states;
mod outbox;
mod own;
mod post;
mod printable;
mod pushes;
mod quiet;
mod refused;
mod renamed;
mod shelf;
mod stage;
mod watching;

pub use avps::{AvpBytes, first_avp};
pub use cause::Cause;
pub use counted::{KindCounts, MessageCounts};
pub use desk::{Desk, desks};
pub use guests::{Guests, HostStatus};
pub use hall::{Arrived, Hall};
pub use kinds::{KIND_COUNT, KINDS, MessageKind};
pub use message::{MessageKey, RecentMessage};
pub use messages::RecentMessages;
pub use origin_states::OriginStates;
pub use outbox::{Outbox, PutFault};
pub use own::Own;
pub use post::{Post, Posting};
pub use printable::Printable;
pub use pushes::SentPushes;
pub use quiet::Quiet;
pub use refused::{PIECE, Refused, RefusedPushes};
pub use renamed::with_hop_id;
pub use watching::Watched;
