//! What a running site can be asked over HTTP: whether it serves, and its figures. Workers of its own answer; they take no seat, and wait for no
//! connection.

mod accepting;
mod answered;
mod answering;
mod counting;
mod families;
mod figures;
mod history;
mod letters;
mod looked;
mod looking;
mod sessions;
mod telling;

pub use accepting::accept_asks;
pub use answering::{ASKS, answer_asks};
pub use counting::count_sessions;
pub use figures::{ConnectionFigures, Figures, SenderFigures, SiteFigures};
pub use looked::Looked;
