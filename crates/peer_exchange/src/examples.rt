//! Worked examples: letters and their bytes, worked out by hand.
ghost use Rattle.std.specs.Prelude.{◌≡◌, ℕ, true, false, Ok, Err};
ghost use Rattle.peer_exchange.specs.Form.{has_body, is_letter};
ghost use Rattle.peer_exchange.specs.Reading.{letter_of};
ghost use Rattle.peer_exchange.specs.declared.fault.LetterFault.TheVariants.{BadShape};
ghost use Rattle.peer_exchange.specs.Spelling.{spelling, spelling_in};
ghost use Rattle.peer_exchange.specs.Samples.{aborted, aborted_bytes, reached, reached_bytes, ended, ended_bytes, known, known_bytes, taken, taken_bytes};

/// A range of one operation, which ends a gateway's session.
pub fn range_is_spelled()
    ensures form { is_letter ended ≡ true }
    ensures bytes { spelling ended ≡ ended_bytes }
{}

/// A range of one operation, the abort of a call, which letters have from version 3 on.
pub fn abort_is_spelled()
    ensures form { is_letter aborted ≡ true }
    ensures bytes { spelling aborted ≡ aborted_bytes }
    ensures versions { has_body 2 aborted.body ≡ false }
{}

/// A range of one operation, which gives a prefix: in each version from 2 on it is read, and in version 1 it is none.
pub fn prefix_is_spelled()
    ensures form { is_letter reached ≡ true }
    ensures bytes { (v : ℕ) → spelling_in v reached ≡ reached_bytes v }
    ensures second { letter_of 7 (reached_bytes 2) ≡ Ok reached }
    ensures first { letter_of 7 (reached_bytes 1) ≡ Err BadShape }
{}

/// An acknowledgement of it.
pub fn acknowledgement_is_spelled()
    ensures form { is_letter taken ≡ true }
    ensures bytes { spelling taken ≡ taken_bytes }
{}

/// A whole state: what the range ended, and a call's host with its tag.
pub fn whole_state_is_spelled()
    ensures form { is_letter known ≡ true }
    ensures bytes { spelling known ≡ known_bytes }
{}
