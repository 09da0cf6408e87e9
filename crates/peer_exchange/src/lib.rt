//! What sites send each other: letters, read from bytes and written as bytes, their frames cut from a stream in whatever pieces it
//! comes; what a site took of each maker's operations, and what it knows that its peers took of its own: cursors, and the
//! acknowledgements that tell them.
#![tactic(auto)]

mod ack;
mod assembling;
mod body;
mod cursor;
mod cursors;
pub mod examples;
mod fault;
pub mod laws;
mod letter;
mod limits;
mod making;
mod reading;
mod writing;

pub use ack::Ack;
pub use assembling::LetterAssembler;
pub use body::{Acknowledgement, Body, Range, Snapshot};
pub use cursor::Cursor;
pub use cursors::Cursors;
pub use fault::{FrameFault, LetterFault};
pub use letter::Letter;
pub use limits::limits_are_the_profiles;
pub use reading::{read_letter, read_letter_seeded};
pub use writing::write_letter;
