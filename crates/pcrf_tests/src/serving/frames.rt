//! What was written to a connection, in words.
use std::alloc::AllocError;
use std::fmt::Write as _;

/// The length that a frame's head gives.
fn length_of(bytes: &[u8]) -> Option<usize> {
    let [_, high, middle, low] = *bytes.first_chunk::<4>()?;
    Some(u32::from_be_bytes([0, high, middle, low]) as usize)
}

/// The frame at the front, and what is behind it.
fn cut(bytes: &[u8]) -> Option<(&[u8], &[u8])> {
    bytes.split_at_checked(length_of(bytes)?)
}

/// A number among the bytes of a frame.
fn number_at(frame: &[u8], place: usize) -> Option<u32> {
    let bytes = frame.get(place..)?.first_chunk::<4>()?;
    Some(u32::from_be_bytes(*bytes))
}

/// The three bytes behind a place, as a number.
fn three_at(frame: &[u8], place: usize) -> Option<u32> {
    Some(number_at(frame, place)? & 0x00ff_ffff)
}

/// The length of an AVP with its padding.
fn padded(length: u32) -> usize {
    (length.saturating_add(3) & !3) as usize
}

/// The value of the first AVP of a code that has no vendor.
fn value_of(avps: &[u8], code: u32) -> Option<&[u8]> {
    let mut rest = avps;
    for _ in 0..avps.len() {
        let length = three_at(rest, 4)?;
        if number_at(rest, 0)? == code {
            return rest.get(8..length as usize);
        }
        rest = rest.get(padded(length)..)?;
    }
    None
}

/// The Result-Code of a message's AVPs, or the Experimental-Result-Code.
fn result_of(avps: &[u8]) -> Option<u32> {
    match value_of(avps, 268) {
        Some(value) => number_at(value, 0),
        None => number_at(value_of(value_of(avps, 297)?, 298)?, 0),
    }
}

/// The value of an AVP as text.
fn text_of(avps: &[u8], code: u32) -> &str {
    std::str::from_utf8(value_of(avps, code).unwrap_or(&[])).unwrap_or("?")
}

/// Writes the two identifiers of a request, its Session-Id, and its Destination-Host.
fn put_request(out: &mut String, frame: &[u8], avps: &[u8]) -> Result<(), AllocError> {
    let hop_id = number_at(frame, 12).unwrap_or(0);
    let end_id = number_at(frame, 16).unwrap_or(0);
    let (session, host) = (text_of(avps, 263), text_of(avps, 293));
    write!(out, "#{hop_id}#{end_id}:{session}@{host}")
}

/// Writes a frame's command, and behind it the result of an answer, or what stands in a request.
fn put_frame(out: &mut String, frame: &[u8]) -> Result<(), AllocError> {
    let command = three_at(frame, 4).unwrap_or(0);
    let avps = frame.get(20..).unwrap_or(&[]);
    write!(out, " {command}")?;
    if frame.get(4).is_some_and(|flags| *flags & 0x80 != 0) {
        return put_request(out, frame, avps);
    }
    let result = result_of(avps).unwrap_or(0);
    write!(out, "={result}")
}

/// Writes all frames of a stream.
pub fn put_frames(out: &mut String, bytes: &[u8]) -> Result<(), AllocError> {
    let mut rest = bytes;
    for _ in 0..bytes.len() {
        let Some((frame, behind)) = cut(rest) else {
            return Ok(());
        };
        put_frame(out, frame)?;
        rest = behind;
    }
    Ok(())
}
