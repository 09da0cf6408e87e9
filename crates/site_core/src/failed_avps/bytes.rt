//! Numbers at places where there may be no bytes, which then count as zeros.
ghost use Rattle.std.specs.Prelude.{◌≡◌, get_or};
ghost use Rattle.dia_codec.specs.Fields.{three_at, word_at};

/// The byte at a place.
pub fn byte_at(bytes: &[u8], at: usize) -> u8
    ensures { result ≡ get_or bytes.now at 0 }
{
    bytes.get(at).copied().unwrap_or(0)
}

/// The number that the first four bytes are, big-endian.
#[tactic(auto, unfolding(dia_codec::specs::Fields::word_at))]
pub fn first_word(bytes: &[u8]) -> u32
    ensures { result ≡ word_at bytes.now 0 }
{
    u32::from_be_bytes([
        byte_at(bytes, 0),
        byte_at(bytes, 1),
        byte_at(bytes, 2),
        byte_at(bytes, 3),
    ])
}

/// The number that the four bytes behind an AVP's first eight are.
#[tactic(auto, unfolding(dia_codec::specs::Fields::word_at))]
pub fn vendor_word(bytes: &[u8]) -> u32
    ensures { result ≡ word_at bytes.now 8 }
{
    u32::from_be_bytes([
        byte_at(bytes, 8),
        byte_at(bytes, 9),
        byte_at(bytes, 10),
        byte_at(bytes, 11),
    ])
}

/// The length field of an AVP (RFC 6733, 4.1).
#[tactic(auto, unfolding(dia_codec::specs::Fields::three_at))]
pub fn length_field(bytes: &[u8]) -> u32
    ensures { result ≡ three_at bytes.now 5 }
{
    u32::from_be_bytes([0, byte_at(bytes, 5), byte_at(bytes, 6), byte_at(bytes, 7)])
}
