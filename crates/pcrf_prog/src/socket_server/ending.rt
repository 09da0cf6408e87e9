//! How a connection ended, in words.
use pcrf_serve::LinkEnd;
use std::fmt::{self, Display, Formatter, Write};

/// How a connection ended, in words.
#[derive(Clone, Copy)]
pub struct Ending(pub LinkEnd);

impl Display for Ending {
    fn fmt<W: Write>(&self, f: &mut Formatter<W>) -> fmt::Result {
        match self.0 {
            LinkEnd::Closed => f.write_str("nothing more was to come"),
            LinkEnd::Cut => f.write_str("it was closed within a message"),
            LinkEnd::Disconnected => f.write_str("its peer asked to disconnect"),
            LinkEnd::Frame(_) => f.write_str("a header had a length that no message has"),
            LinkEnd::ReadFailed => f.write_str("a read failed"),
            LinkEnd::WriteFailed => f.write_str("a write failed"),
            LinkEnd::NoMemory => f.write_str("memory ran out"),
            LinkEnd::Gate => f.write_str("the server let no more through"),
            LinkEnd::Letter(fault) => write!(f, "a letter had a fault: {fault}"),
            LinkEnd::HistoryFull => f.write_str("the history is full"),
        }
    }
}
