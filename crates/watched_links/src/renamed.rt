//! A message under another Hop-by-Hop Identifier.
ghost use Rattle.std.specs.Prelude.{◌≡◌, ◌≤◌, length, IfOk};
ghost use Rattle.watched_links.specs.Kept.{with_hop_id};
ghost use Rattle.watched_links.specs.Limits.{header_bytes};

use std::alloc::{AllocError, Global};

/// Where the Hop-by-Hop Identifier stands, and what comes behind it (RFC 6733, 3).
const HOP_ID: usize = 12;

const BEHIND: usize = 16;

/// The same bytes but for the Hop-by-Hop Identifier, which is that one: whoever repeats a request over another connection gives it an
/// Identifier of that connection (RFC 6733, 3).
#[tactic(auto, unfolding(dia_codec::specs::Written::word_bytes))]
pub fn with_hop_id(alloc: Global, message: &[u8], hop_id: u32) -> Result<Vec<u8>, AllocError>
    requires { header_bytes ≤ length message.now }
    ensures { IfOk result (λ bytes. bytes.items ≡ with_hop_id hop_id message.now) }
{
    let mut bytes = Vec::with_capacity(alloc, message.len())?;
    bytes.extend_from_slice(&message[..HOP_ID])?;
    bytes.extend_from_slice(&hop_id.to_be_bytes())?;
    bytes.extend_from_slice(&message[BEHIND..])?;
    Ok(bytes)
}
