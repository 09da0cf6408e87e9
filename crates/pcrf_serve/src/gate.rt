//! What lets messages through.

/// Lets each message of a connection in, and is told once it was answered. A connection goes by the number of its seat, its
/// messages by their order, from 0.
pub trait Gate {
    /// A message is there, and the site's lock isn't asked for yet. False ends the connection.
    fn enter(&self, connection: usize, message: u64) -> bool;

    /// The answer to the message is written; where letters are sent, the acknowledgement is read. False ends the connection.
    fn leave(&self, connection: usize, message: u64) -> bool;
}
