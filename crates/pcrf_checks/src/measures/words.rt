//! The words of a line.
use crate::fault::{Fault, Unmeasured};

/// The first word, and those behind it.
pub fn word_before(words: &str) -> Result<(&str, &str), Fault> {
    match words.split_once(' ') {
        Some(parted) => Ok(parted),
        None => Err(Fault::Unmeasured(Unmeasured::NoWord)),
    }
}

/// The number before other words, and these.
pub fn number_before(words: &str) -> Result<(u32, &str), Fault> {
    let (first, rest) = word_before(words)?;
    match first.parse::<u32>() {
        Ok(number) => Ok((number, rest)),
        Err(_) => Err(Fault::Unmeasured(Unmeasured::NoNumber)),
    }
}

/// Which of two words comes before others, and these.
pub fn choice_before<'a>(words: &'a str, one: &str, other: &str) -> Result<(bool, &'a str), Fault> {
    match word_before(words)? {
        (word, rest) if word == one => Ok((true, rest)),
        (word, rest) if word == other => Ok((false, rest)),
        _ => Err(Fault::Unmeasured(Unmeasured::NeitherWord)),
    }
}
