//! Texts by their words.
ghost use Rattle.std.specs.Prelude.{◌≡◌, option_map};
ghost use Rattle.std.specs.List.{position_or_len};
ghost use Rattle.std.specs.Option.{option_copied};
ghost use Rattle.gx_profile.specs.Filters.{behind};
ghost use Rattle.gx_profile.specs.Views.{rest_view, word_view};
ghost use Rattle.gx_profile.specs.Words.{first_word, is_space, words_left};

use pcrf_values::equal_bytes;

/// How many bytes stand before the first space.
fn word_length(text: &[u8]) -> usize
    ensures { result ≡ position_or_len is_space text.now }
{
    for length in 0..text.len() {
        if text[length] == b' ' {
            return length;
        }
    }
    text.len()
}

/// The first word of what is left of a text, and what is left behind it.
pub(crate) fn next_word(text: Option<&[u8]>) -> Option<(&[u8], Option<&[u8]>)>
    ensures { option_map word_view result ≡ first_word (words_left (option_copied text.entry)) }
{
    let text = text?;
    let length = word_length(text);
    if length == text.len() {
        return Some((text, None));
    }
    let (word, rest) = text.split_at(length);
    let Some((_, rest)) = rest.split_first() else {
        unreachable!()
    };
    Some((word, Some(rest)))
}

/// What is left of a text behind a word, where it comes first.
pub(crate) fn behind<'a>(text: Option<&'a [u8]>, word: &[u8]) -> Option<Option<&'a [u8]>>
    ensures { option_map rest_view result
        ≡ behind word.now (words_left (option_copied text.entry)) }
{
    let (first, rest) = next_word(text)?;
    if !equal_bytes(first, word) {
        return None;
    }
    Some(rest)
}
