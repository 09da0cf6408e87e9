//! What is answered.

/// What is answered, by what its answer has besides.
#[derive(Clone, Copy, Debug, PartialEq, Eq)]
pub enum Answered {
    /// An exchange of capabilities.
    Capabilities,
    /// A request that could not be read, or isn't served.
    Unread,
    /// Any other request.
    Other,
}
