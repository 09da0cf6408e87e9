//! How a stream ended.
use dia_codec::FrameFault;

/// How a stream ended.
#[derive(Clone, Copy, Debug, PartialEq, Eq)]
pub enum Ended {
    /// The input ended between messages.
    Closed,
    /// The input ended within a message.
    Cut,
    /// A request for the end of the connection was granted (RFC 6733, 5.4).
    Disconnected,
    /// A length stood in a header that no message can have. Nothing is answered to it.
    Frame(FrameFault),
    /// The reader failed, or gave no end within 2^40 reads.
    ReadFailed,
    /// The writer failed.
    WriteFailed,
    /// Memory ran out.
    NoMemory,
}
