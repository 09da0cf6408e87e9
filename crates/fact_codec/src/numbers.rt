//! Numbers and bytes at the front of a slice, each with the bytes after it.
ghost use Rattle.std.specs.Prelude.{◌≡◌, ◌++◌, ◌∷◌, length, IfOk, Some, None};
ghost use Rattle.fact_codec.specs.Spelling.{short_bytes, word_bytes, long_bytes};
ghost use Rattle.fact_codec.specs.Reading.{Gives, byte, short, word, long, exactly};

use crate::fault::Unread;

/// The first byte.
#[tactic(auto, unfolding(crate::specs::Reading::byte))]
pub fn byte_at(bytes: &[u8]) -> Result<(u8, &[u8]), Unread>
    ensures read { Gives (λ x. (x.0, x.1.now)) result (byte bytes.now) }
    ensures spelled { IfOk result (λ x. bytes.now ≡ x.0 ∷ x.1.now) }
{
    match bytes {
        [] => Err(Unread::BadShape),
        [first, rest @ ..] => Ok((*first, rest)),
    }
}

/// The first so many bytes.
#[tactic(auto, unfolding(crate::specs::Reading::exactly))]
pub fn bytes_at(count: usize, bytes: &[u8]) -> Result<(&[u8], &[u8]), Unread>
    ensures read { Gives (λ x. (x.0.now, x.1.now)) result (exactly count bytes.now) }
    ensures spelled { IfOk result (λ x. bytes.now ≡ x.0.now ++ x.1.now) }
    ensures counted { IfOk result (λ x. length x.0.now ≡ count) }
{
    if bytes.len() < count {
        return Err(Unread::BadShape);
    }
    Ok(bytes.split_at(count))
}

/// A number of two bytes, big-endian.
#[tactic(auto, unfolding(crate::specs::Reading::short))]
pub fn short_at(bytes: &[u8]) -> Result<(u16, &[u8]), Unread>
    ensures read { Gives (λ x. (x.0, x.1.now)) result (short bytes.now) }
    ensures spelled { IfOk result (λ x. bytes.now ≡ short_bytes x.0 ++ x.1.now) }
{
    if bytes.len() < 2 {
        return Err(Unread::BadShape);
    }
    let (front, rest) = bytes.split_at(2);
    Ok((u16::from_be_bytes([front[0], front[1]]), rest))
}

/// A number of four bytes, big-endian.
#[tactic(auto, unfolding(crate::specs::Reading::word))]
pub fn word_at(bytes: &[u8]) -> Result<(u32, &[u8]), Unread>
    ensures read { Gives (λ x. (x.0, x.1.now)) result (word bytes.now) }
    ensures spelled { IfOk result (λ x. bytes.now ≡ word_bytes x.0 ++ x.1.now) }
{
    if bytes.len() < 4 {
        return Err(Unread::BadShape);
    }
    let (front, rest) = bytes.split_at(4);
    let number = u32::from_be_bytes([front[0], front[1], front[2], front[3]]);
    Ok((number, rest))
}

/// A number of eight bytes, big-endian.
#[tactic(auto, unfolding(crate::specs::Reading::long))]
pub fn long_at(bytes: &[u8]) -> Result<(u64, &[u8]), Unread>
    ensures read { Gives (λ x. (x.0, x.1.now)) result (long bytes.now) }
    ensures spelled { IfOk result (λ x. bytes.now ≡ long_bytes x.0 ++ x.1.now) }
{
    if bytes.len() < 8 {
        return Err(Unread::BadShape);
    }
    let (front, rest) = bytes.split_at(8);
    let number = u64::from_be_bytes([
        front[0], front[1], front[2], front[3], front[4], front[5], front[6], front[7],
    ]);
    Ok((number, rest))
}
