//! The words of lines: how many there are, and the numbers, bytes and Session-Ids that they spell.
use crate::fault::{BadLine, Unobeyed};
use crate::session_words::read_session;
use pcrf_values::GxSid;
use std::alloc::Global;

/// A site or a letter as a line names it: any decimal number. Those that no world has are `usize::MAX`.
pub type Named = usize;

/// What stands behind a line's first word, as far as it is looked at: no line has more than three further words.
pub type Further<'a> = (
    Option<&'a str>,
    Option<&'a str>,
    Option<&'a str>,
    Option<&'a str>,
);

/// The first word of a line without its end, and what stands behind it. Words are parted by one space.
pub fn words_of(line: &str) -> (&str, Further<'_>) {
    let mut words = line.split(" ");
    let first = words.next().unwrap_or("");
    let further = (words.next(), words.next(), words.next(), words.next());
    (first, further)
}

/// The one further word.
pub fn one(further: Further<'_>) -> Result<&str, Unobeyed> {
    match further {
        (Some(word), None, _, _) => Ok(word),
        (None, _, _, _) => Err(Unobeyed::Bad(BadLine::MissingWord)),
        (Some(_), Some(_), _, _) => Err(Unobeyed::Bad(BadLine::ExtraWord)),
    }
}

/// The two further words.
pub fn two(further: Further<'_>) -> Result<(&str, &str), Unobeyed> {
    match further {
        (Some(word), Some(last), None, _) => Ok((word, last)),
        (None, _, _, _) | (Some(_), None, _, _) => Err(Unobeyed::Bad(BadLine::MissingWord)),
        (Some(_), Some(_), Some(_), _) => Err(Unobeyed::Bad(BadLine::ExtraWord)),
    }
}

/// The three further words.
pub fn three(further: Further<'_>) -> Result<(&str, &str, &str), Unobeyed> {
    match further {
        (Some(word), Some(next), Some(last), None) => Ok((word, next, last)),
        (Some(_), Some(_), Some(_), Some(_)) => Err(Unobeyed::Bad(BadLine::ExtraWord)),
        _ => Err(Unobeyed::Bad(BadLine::MissingWord)),
    }
}

/// A decimal number without leading zeros; one of more than 64 bits is the greatest there is.
pub fn number(word: &str) -> Result<Named, Unobeyed> {
    let digits = word.as_bytes();
    if digits.is_empty() || !digits.iter().all(|digit| digit.is_ascii_digit()) {
        return Err(Unobeyed::Bad(BadLine::NoNumber));
    }
    if digits.len() > 1 && digits.first() == Some(&b'0') {
        return Err(Unobeyed::Bad(BadLine::NoNumber));
    }
    Ok(word.parse().unwrap_or(usize::MAX))
}

/// The bytes that pairs of hexadecimal digits spell, one pair at least.
pub fn bytes(alloc: Global, word: &str) -> Result<Vec<u8>, Unobeyed> {
    if word.is_empty() {
        return Err(Unobeyed::Bad(BadLine::NoBytes));
    }
    match hex::decode(alloc, word) {
        Ok(bytes) => Ok(bytes),
        Err(hex::FromHexError::OutOfMemory) => Err(Unobeyed::NoMemory),
        Err(_) => Err(Unobeyed::Bad(BadLine::NoBytes)),
    }
}

/// The Session-Id that a word spells.
pub fn session(alloc: Global, word: &str) -> Result<GxSid, Unobeyed> {
    match read_session(alloc, word)? {
        Some(session) => Ok(session),
        None => Err(Unobeyed::Bad(BadLine::NoSessionId)),
    }
}
