//! Codes of messages: HMAC-SHA-256 (RFC 2104, FIPS 180-4).
ghost use Rattle.std.specs.Prelude.{◌≡◌, ◌≤◌, ◌++◌, length};
ghost use Rattle.peer_lines.specs.Hmac.{block_bytes, block_of, code_under, hmac, masked, padded, same_bytes};

use sha2::{Digest, Sha256};

/// How many bytes a block of the hash has.
const BLOCK_BYTES: usize = 64;

/// How many bytes a code has.
pub const CODE_BYTES: usize = 32;

/// What each byte of the key is combined with before the message (RFC 2104, 2: ipad).
const INNER_MASK: u8 = 0x36;

/// What each byte of the key is combined with before the inner digest (RFC 2104, 2: opad).
const OUTER_MASK: u8 = 0x5C;

/// Zeros behind bytes, up to a block.
fn padded(bytes: &[u8]) -> [u8; BLOCK_BYTES]
    requires { length bytes.now ≤ block_bytes }
    ensures { result ≡ padded bytes.now }
{
    let mut block = [0u8; BLOCK_BYTES];
    block[..bytes.len()].copy_from_slice(bytes);
    block
}

/// A block with each byte combined with a mask.
fn masked(block: &[u8; BLOCK_BYTES], mask: u8) -> [u8; BLOCK_BYTES]
    ensures { result ≡ masked mask block.now }
{
    let mut combined = *block;
    for byte in combined.iter_mut() {
        *byte ^= mask;
    }
    combined
}

/// A key, as the block that codes are made with.
#[derive(Clone, Copy)]
pub struct Key {
    pub(crate) block: [u8; BLOCK_BYTES],
}

impl Key {
    /// The key of these bytes, which may be any number.
    pub fn of(bytes: &[u8]) -> Key
        ensures { result.block ≡ block_of bytes.now }
    {
        if bytes.len() > BLOCK_BYTES {
            let digest = Sha256::digest(bytes);
            return Key {
                block: padded(&digest),
            };
        }
        Key {
            block: padded(bytes),
        }
    }

    /// The code of a message that is handed in as three parts, one behind the other.
    #[tactic(auto, unfolding(crate::specs::Hmac::code_under))]
    pub fn code(&self, first: &[u8], second: &[u8], third: &[u8]) -> [u8; CODE_BYTES]
        ensures { result ≡ code_under self.now.block (first.now ++ second.now ++ third.now) }
    {
        let mut inner = Sha256::new();
        inner.update(masked(&self.block, INNER_MASK));
        inner.update(first);
        inner.update(second);
        inner.update(third);
        let mut outer = Sha256::new();
        outer.update(masked(&self.block, OUTER_MASK));
        outer.update(inner.finalize());
        outer.finalize()
    }
}

/// The code of a message under a key of any length.
pub fn hmac_sha256(key: &[u8], message: &[u8]) -> [u8; CODE_BYTES]
    ensures { result ≡ hmac key.now message.now }
{
    Key::of(key).code(message, &[], &[])
}

/// Whether two codes are the same. Each byte is compared, and counted where it differs, so that it takes as long wherever that is.
pub fn are_same(one: &[u8], other: &[u8]) -> bool
    requires { length one.now ≡ length other.now }
    ensures { result ≡ same_bytes one.now other.now }
{
    let mut differing: usize = 0;
    for i in 0..one.len() {
        differing += usize::from(one[i] != other[i]);
    }
    differing == 0
}
