//! Laws of letters.
//!
//! The functions do nothing: what they say are their contracts.
ghost use Rattle.std.specs.Prelude.{◌≡◌, ◌++◌, ℕ, List, true, Ok};
ghost use Rattle.pcrf_model.specs.Letters.{LetterValue};
ghost use Rattle.peer_exchange.specs.Form.{IsReadIn, is_letter};
ghost use Rattle.peer_exchange.specs.Reading.{letter_of};
ghost use Rattle.peer_exchange.specs.Spelling.{spelling, spelling_in};

/// What is spelled as a letter, in a version that is read and has all that it says, is read as that letter. The last one has all.
pub fn spelled_letters_are_read()
    ensures in_versions { (v : ℕ) (l : LetterValue) → IsReadIn v l
        → letter_of l.edition (spelling_in v l) ≡ Ok l }
    ensures in_the_last { (l : LetterValue) → is_letter l ≡ true
        → letter_of l.edition (spelling l) ≡ Ok l }
{}

/// No spelling begins another: where two letters' spellings begin the same bytes, they are the same letter, and what follows
/// is the same too.
pub fn no_spelling_begins_another()
    ensures { (v w : ℕ) (l m : LetterValue) (x y : List ℕ) → IsReadIn v l → IsReadIn w m
        → spelling_in v l ++ x ≡ spelling_in w m ++ y → (l ≡ m) × (x ≡ y) }
{}
