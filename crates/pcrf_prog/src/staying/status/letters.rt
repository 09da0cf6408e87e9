//! What is known of letters by their kinds, as text.
use crate::staying::status::families::{
    LETTER_BYTES_SENT, LETTER_BYTES_TAKEN, LETTERS_SENT, LETTERS_TAKEN,
};
use crate::staying::status::figures::Figures;
use crate::staying::status::telling::put_labelled;
use peer_lines::{LETTER_KINDS, LetterCount, LetterCounts};
use site_status::{Exposition, Family};
use std::alloc::AllocError;

/// What a figure says of letters.
#[derive(Clone, Copy)]
enum LetterFigure {
    Letters,
    Bytes,
}

impl LetterFigure {
    /// What it says.
    fn of(self, count: &LetterCount) -> u64 {
        match self {
            LetterFigure::Letters => count.letters.get(),
            LetterFigure::Bytes => count.bytes.get(),
        }
    }
}

/// Writes a figure of each kind of letter.
fn put_kinds(
    out: &mut Exposition,
    family: &Family<'_>,
    figure: LetterFigure,
    counts: &LetterCounts,
) -> Result<(), AllocError> {
    out.heading(family)?;
    for kind in LETTER_KINDS {
        let count = figure.of(counts.of(kind));
        put_labelled(out, family, "kind", kind.name(), count)?;
    }
    Ok(())
}

/// Writes how many letters of each kind went and came, and their bytes.
pub fn put_traffic(out: &mut Exposition, figures: &Figures) -> Result<(), AllocError> {
    let (sent, taken) = (&figures.traffic.sent, &figures.traffic.taken);
    put_kinds(out, &LETTERS_SENT, LetterFigure::Letters, sent)?;
    put_kinds(out, &LETTER_BYTES_SENT, LetterFigure::Bytes, sent)?;
    put_kinds(out, &LETTERS_TAKEN, LetterFigure::Letters, taken)?;
    put_kinds(out, &LETTER_BYTES_TAKEN, LetterFigure::Bytes, taken)
}
