//! Diameter messages as bytes (RFC 6733, sections 3 and 4), readers and writers that are watched, and scripts that are read line by
//! line over them.
//!
//! `read_message` and `read_group` read exactly what `specs/Spelling.antt` calls a spelling, and tell the first fault
//! of anything else. No value is copied: an `Avp` borrows its value from the bytes that were read, and an `OwnedAvp`
//! is one that has its own. `write_message` writes one spelling of each message, with all padding and with zeros where the
//! bits are free, so that `read_message` gives the message back (`round_trip`). A `MessageWriter` writes the same
//! spelling from front to back into one buffer, without a list of AVPs. An `Assembler` cuts a stream into messages by
//! their length fields, however its bytes come, and `frames_of` does so for a whole stream.
//!
//! `Counted` wraps a reader or a writer, and remembers whether a call of it has failed, and whether the reader is at its end.
//! `run_lines` reads a script line by line, has each obeyed by whoever obeys lines, and writes what each prints.
#![tactic(auto)]

mod counted;
mod fault;
mod line_fault;
mod lines;
mod message;
mod reading;
mod stream;
mod writing;

pub use counted::Counted;
pub use fault::{FrameFault, MsgFault, WriteFault};
pub use line_fault::LineFault;
pub use lines::{Obey, ScriptEnd, read_limit_is_the_profiles, run_lines};
pub use message::{Avp, AvpKey, Flags, Header, Message, OwnedAvp};
pub use reading::{
    HEADER_BYTES, longest_message_is_the_profiles, read_group, read_header, read_message,
    read_message_with,
};
pub use stream::{Assembler, FramedStream, StreamEnd, frames_of, one_cut};
pub use writing::{Mark, MessageWriter, round_trip, write_group, write_message};
