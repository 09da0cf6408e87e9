//! How much memory the process has.
use crate::files::read_file;

/// Where the system tells it, in pages, as the second number of a line (proc(5)).
const STATM: &str = "/proc/self/statm";

/// The most bytes that it tells.
const STATM_LIMIT: u64 = 256;

/// How many bytes a page has.
const PAGE_BYTES: u64 = 4096;

/// The number that a text is, in decimal digits.
fn number_of(text: &[u8]) -> Option<u64> {
    let mut number = 0u64;
    for digit in text {
        if !digit.is_ascii_digit() {
            return None;
        }
        number = number
            .checked_mul(10)?
            .checked_add(u64::from(digit.saturating_sub(b'0')))?;
    }
    Some(number)
}

/// What such a line tells, in bytes.
fn resident_in(line: &[u8]) -> Option<u64> {
    let pages = line.split(|byte| *byte == b' ').nth(1)?;
    number_of(pages)?.checked_mul(PAGE_BYTES)
}

/// Who knows how much memory the process has.
pub trait Resident {
    /// How many bytes of the machine's memory the process has; none where that can't be had.
    fn resident(&self) -> Option<u64>;
}

// For this runtime alone: what is known of a type that has `Files` isn't known in another thread.
impl Resident for HostRuntime {
    fn resident(&self) -> Option<u64> {
        let line = read_file(self, STATM, STATM_LIMIT).ok()?;
        resident_in(line.as_slice())
    }
}
