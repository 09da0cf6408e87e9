//! A site behind sockets: it serves gateways and application functions, exchanges letters with its peers, and settles its
//! history when all have gone.

mod accepting;
mod carrying;
mod ending;
mod exchanging;
mod fault;
mod journal;
mod open;
mod serving;
mod settings;
mod sockets;

pub(crate) use ending::Ending;
pub use fault::ServerFault;
pub(crate) use journal::{
    tell_connected, tell_exchanged, tell_listens, tell_no_start, tell_unreached,
};
pub use serving::run_server;
pub use settings::{Addresses, SeatPlan, Settings, SiteEpoch};
pub(crate) use sockets::prepare;
