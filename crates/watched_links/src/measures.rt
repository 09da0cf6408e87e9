//! How much room a message that is kept takes.
ghost use Rattle.std.specs.Prelude.{◌≡◌, ◌≤◌, ◌+◌, ◌*◌};
ghost use Rattle.watched_links.specs.Kept.{size_of};
ghost use Rattle.watched_links.specs.Limits.{entry_bytes, longest_key, longest_kept};

use crate::message::RecentMessage;

/// How many bytes a message takes beside its own and those of its key, of which there are two: more than its two entries have.
const ENTRY_BYTES: usize = 256;

impl RecentMessage {
    /// The message.
    pub(crate) fn bytes(&self) -> &[u8]
        ensures { result.now ≡ self.now.bytes.items }
    {
        self.bytes.as_slice()
    }

    /// How many bytes it takes.
    pub(crate) fn size(&self) -> usize
        ensures size { result ≡ size_of self.now }
        ensures within { result ≤ entry_bytes + 2 * longest_key + longest_kept }
    {
        let key = &self.key;
        let names = key.session.len() + key.host.len() + key.peer.len();
        ENTRY_BYTES + 2 * names + self.bytes.len()
    }
}
