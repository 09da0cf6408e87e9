//! Replies that say in which epoch of the site they were given.
use site_machine::Reply;

/// A reply, and how often the site had begun anew when it gave it: the epoch that it started in and this many more are the epoch
/// of the reply.
#[derive(Drop)]
pub struct Dated {
    pub reply: Reply,
    pub begun: u16,
}

/// What a call was told that waited for the site to grow.
#[derive(Drop)]
pub enum Grown {
    /// The site grew, and gave this reply.
    Told(Reply),
    /// The site has begun anew, so often by now: what was waited for won't come, and no call was made.
    BegunAnew(u16),
}
