//! A message that is kept, and what it is found by.
ghost use Rattle.std.specs.Prelude.{◌≡◌, ◌≤◌, vec_len, IfOk, IfSome};
ghost use Rattle.watched_links.specs.Keys.{same_key};
ghost use Rattle.watched_links.specs.Limits.{longest_kept, longest_name, longest_session};

use std::alloc::AllocError;

/// The most bytes of a host's name: as many as an Origin-Host has.
const LONGEST_NAME: usize = 255;

/// The most bytes of a Session-Id.
const LONGEST_SESSION: usize = 512;

/// The most bytes of a message (RFC 6733, 3: its length has 24 bits).
const LONGEST_KEPT: usize = 1 << 24;

/// What a message is found by: the answer to a peer's request by all of it, a request of the site's own by its command and number.
#[derive(PartialEq, Eq, Hash, Drop)]
pub struct MessageKey {
    /// Its command.
    pub command: u32,
    /// One of its identifiers.
    pub number: u32,
    /// Its Session-Id.
    pub session: Vec<u8>,
    /// Its Origin-Host.
    pub host: Vec<u8>,
    /// The host that exchanged capabilities on its connection.
    pub peer: Vec<u8>,
}

impl MessageKey {
    /// The same.
    pub(crate) fn try_copy(&self) -> Result<MessageKey, AllocError>
        ensures { IfOk result (λ copy. (q : MessageKey) →
            same_key copy q ≡ same_key self.now q) }
    {
        Ok(MessageKey {
            command: self.command,
            number: self.number,
            session: self.session.clone()?,
            host: self.host.clone()?,
            peer: self.peer.clone()?,
        })
    }
}

/// A message that is kept.
#[derive(Drop)]
pub struct RecentMessage {
    pub(crate) key: MessageKey,
    /// The time from which it is kept.
    pub(crate) at: u64,
    pub(crate) bytes: Vec<u8>,
    ghost short_session: { vec_len key.session ≤ longest_session },
    ghost short_host: { vec_len key.host ≤ longest_name },
    ghost short_peer: { vec_len key.peer ≤ longest_name },
    ghost short: { vec_len bytes ≤ longest_kept },
}

impl RecentMessage {
    /// A message that is found by this key, with the time from which it is kept; none where a part of the key or the message is
    /// longer than one of Diameter.
    pub fn of(key: MessageKey, at: u64, bytes: Vec<u8>) -> Option<RecentMessage>
        ensures key { IfSome result (λ m. m.key ≡ key) }
        ensures at { IfSome result (λ m. m.at ≡ at) }
        ensures bytes { IfSome result (λ m. m.bytes ≡ bytes) }
    {
        let is_short = key.session.len() <= LONGEST_SESSION
            && key.host.len() <= LONGEST_NAME
            && key.peer.len() <= LONGEST_NAME
            && bytes.len() <= LONGEST_KEPT;
        if !is_short {
            return None;
        }
        Some(RecentMessage { key, at, bytes })
    }
}
