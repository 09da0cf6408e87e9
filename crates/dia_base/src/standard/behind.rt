//! AVPs behind those of a message that is written.
ghost use Rattle.std.specs.Prelude.{◌≡◌, ◌≤◌, ◌++◌, length, take, drop, IfOk};
ghost use Rattle.dia_codec.specs.Limits.{length_field_end};
ghost use Rattle.dia_codec.specs.Spelling.{avp_views, owned_views};
ghost use Rattle.dia_codec.specs.Written.{three_bytes};
ghost use Rattle.dia_base.specs.Behind.{behind, with_more};

use dia_codec::{Avp, OwnedAvp, WriteFault, write_group};
use std::alloc::{AllocError, Global};

/// The most bytes that a message has (this project's profile).
const MOST_BYTES: usize = 65_532;

/// The first bytes of a message, to the end of its length field (RFC 6733, 3).
const LENGTH_FIELD_END: usize = 4;

/// Sets the length field to how many bytes there are.
#[tactic(auto, unfolding(dia_codec::specs::Written::three_bytes))]
fn set_length(bytes: &mut Vec<u8>)
    requires { length_field_end ≤ length bytes.old.items }
    ensures { bytes.new.items ≡ take 1 bytes.old.items
        ++ (three_bytes (length bytes.old.items) ++ drop length_field_end bytes.old.items) }
{
    let [_, _, _, _, _, high, middle, low] = bytes.len().to_be_bytes();
    bytes[1..LENGTH_FIELD_END].copy_from_slice(&[high, middle, low]);
}

/// A message and more bytes behind it, whose length field counts both.
fn with_more(bytes: Vec<u8>, more: &[u8]) -> Result<Vec<u8>, AllocError>
    requires { length_field_end ≤ length bytes.items }
    ensures { IfOk result (λ both. both.items ≡ with_more bytes.items more.now) }
{
    let mut both = bytes;
    both.extend_from_slice(more)?;
    set_length(&mut both);
    Ok(both)
}

/// AVPs with their values borrowed.
fn lent(alloc: Global, avps: &[OwnedAvp]) -> Result<Vec<Avp<'_>>, AllocError>
    ensures { IfOk result (λ lent. avp_views lent.items ≡ owned_views avps.now) }
{
    let mut lent = Vec::with_capacity(alloc, avps.len())?;
    for avp in avps {
        lent.push(avp.as_avp())?;
    }
    Ok(lent)
}

/// A written message with these AVPs behind its own, where it then is no longer than a message may be; else it stays as it was. What
/// has no length field is no message, and stays so too.
#[tactic(auto, unfolding(crate::specs::Behind::behind))]
pub fn put_behind(alloc: Global, avps: &[OwnedAvp], bytes: Vec<u8>) -> Result<Vec<u8>, AllocError>
    ensures { IfOk result (λ both. both.items ≡ behind (owned_views avps.now) bytes.items) }
{
    let lent = lent(alloc, avps)?;
    let more = match write_group(alloc, &lent) {
        Ok(more) => more,
        Err(WriteFault::TooLong) => return Ok(bytes),
        Err(WriteFault::NoMemory) => return Err(AllocError),
    };
    if bytes.len() < LENGTH_FIELD_END || bytes.len() + more.len() > MOST_BYTES {
        return Ok(bytes);
    }
    with_more(bytes, &more)
}
