//! A world of sites that serve, push, abort sessions, retell them, make letters, take them and start again; and scripts of it: what a
//! line asks for, and what it prints.
#![tactic(auto)]

mod addressed;
mod console;
mod fault;
mod identity;
mod lines;
mod messages;
mod printing;
mod script;
mod session_words;
mod site;
pub mod words;
mod world;

pub use console::Console;
pub use dia_codec::ScriptEnd;
pub use fault::{BadLine, Unobeyed};
pub use identity::identity_of;
pub use lines::{Line, SiteCount, read_line};
pub use messages::put_messages;
pub use printing::put_outcome;
pub use script::{ScriptRun, run_script, run_told};
pub use session_words::read_bytes;
pub use world::{World, WorldEvent, WorldFault, WorldOutcome};
