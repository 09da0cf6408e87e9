//! In which form messages are written.

/// In which form a site writes its messages. What it reads is the same in each.
#[derive(Clone, Copy, Debug, PartialEq, Eq)]
pub enum MessageForm {
    /// As this project's profile has it.
    Own,
    /// As the standards' strictest readers want it: what they leave to the writer stands as each of them takes it.
    Standard,
}
