//! A site that stays: connections come and go, each seat serves one behind the other, and it ends by a signal alone.

mod accepting;
mod answers;
mod chairs;
mod exchange;
mod forgetting_ended;
mod going_over;
mod journal;
pub mod keeping;
pub mod machine;
mod own_log;
mod reach;
mod retelling;
mod serving;
pub mod showing;
mod sockets;
mod status;
mod working;

pub use keeping::Housekeeper;
pub use machine::Machine;
pub use serving::{StaySettings, run_staying};
pub use showing::{Console, Input, Output};
