//! Bytes as a script spells them: as it prints them.
ghost use Rattle.std.specs.Prelude.{◌<◌, IfSome};

use pcrf_values::{GxSid, SessionId};
use std::alloc::{AllocError, Global};

/// The bytes that a word spells as they are printed, where each may also stand as `\x` and two digits; `None` where it spells none.
pub fn read_bytes(alloc: Global, word: &str) -> Result<Option<Vec<u8>>, AllocError> {
    let mut bytes = Vec::new(alloc);
    if !put_word(&mut bytes, word)? {
        return Ok(None);
    }
    Ok(Some(bytes))
}

/// The Session-Id of a gateway's session that a word spells so; `None` where it spells none.
pub(crate) fn read_session(alloc: Global, word: &str) -> Result<Option<GxSid>, AllocError> {
    let Some(bytes) = read_bytes(alloc, word)? else {
        return Ok(None);
    };
    match SessionId::of(bytes)? {
        Some(id) => Ok(Some(GxSid::of(id))),
        None => Ok(None),
    }
}

/// Adds the bytes that a word spells: those before the first backslash as they are, and behind each backslash a byte and what
/// follows it. Whether it spells any.
fn put_word(bytes: &mut Vec<u8>, word: &str) -> Result<bool, AllocError> {
    let mut parts = word.split("\\");
    let plain = parts.next().unwrap_or("");
    if !put_plain(bytes, plain.as_bytes())? {
        return Ok(false);
    }
    for part in parts {
        if !put_part(bytes, part.as_bytes())? {
            return Ok(false);
        }
    }
    Ok(true)
}

/// Adds the byte that `x` and two digits spell, and what follows them.
fn put_part(bytes: &mut Vec<u8>, part: &[u8]) -> Result<bool, AllocError> {
    if part.len() < 3 || part[0] != b'x' {
        return Ok(false);
    }
    let Some(high) = digit(part[1]) else {
        return Ok(false);
    };
    let Some(low) = digit(part[2]) else {
        return Ok(false);
    };
    bytes.push(high * 16 + low)?;
    put_plain(bytes, &part[3..])
}

/// Adds bytes that stand as they are, if all may.
fn put_plain(bytes: &mut Vec<u8>, plain: &[u8]) -> Result<bool, AllocError> {
    for byte in plain {
        if !byte.is_ascii_graphic() {
            return Ok(false);
        }
        bytes.push(*byte)?;
    }
    Ok(true)
}

/// The value of a hexadecimal digit.
fn digit(byte: u8) -> Option<u8>
    ensures { IfSome result (λ value. value < 16) }
{
    match byte {
        b'0'..=b'9' => Some(byte - b'0'),
        b'a'..=b'f' => Some(byte - b'a' + 10),
        _ => None,
    }
}
