//! AVPs as they stand in a message (RFC 6733, 4.1), for who reads a few of them and keeps nothing.

/// How many bytes the header of an AVP has, and with the vendor that gave its code out.
const HEADER_BYTES: u32 = 8;

const VENDOR_HEADER_BYTES: u32 = 12;

/// The flag of one with a vendor.
const VENDOR: u32 = 0x8000_0000;

/// An AVP at the front of bytes, and what stands behind it.
#[derive(Clone, Copy)]
pub struct AvpBytes<'a> {
    pub code: u32,
    /// A vendor gave the code out.
    pub has_vendor: bool,
    pub value: &'a [u8],
    pub rest: &'a [u8],
}

/// The number at a place.
fn number_at(bytes: &[u8], place: usize) -> Option<u32> {
    let four = bytes.get(place..)?.first_chunk::<4>()?;
    Some(u32::from_be_bytes(*four))
}

/// The AVP at the front, if there is a whole one.
pub fn first_avp(bytes: &[u8]) -> Option<AvpBytes<'_>> {
    let (code, word) = (number_at(bytes, 0)?, number_at(bytes, 4)?);
    let (has_vendor, length) = (word & VENDOR != 0, word & 0x00ff_ffff);
    let head = if has_vendor {
        VENDOR_HEADER_BYTES
    } else {
        HEADER_BYTES
    };
    if length < head {
        return None;
    }
    let padded = length.saturating_add(3) & !3;
    Some(AvpBytes {
        code,
        has_vendor,
        value: bytes.get(head as usize..length as usize)?,
        rest: bytes.get(padded as usize..).unwrap_or(&[]),
    })
}
