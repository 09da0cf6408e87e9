//! How large a book may be: this project's own limits, as the code has them. The definitions have the same as numbers of their own
//! (`specs/Limits.antt`).
ghost use Rattle.site_book.specs.Limits.{most_entries, most_seats};
ghost use Rattle.std.specs.Prelude.{◌≡◌};

/// The most seats.
pub const SEAT_LIMIT: usize = 64;

/// The most entries of a history.
pub const HISTORY_LIMIT: usize = 1_000_000;

/// Each limit of the code is the profile's number.
pub fn limits_are_the_profiles()
    ensures seats { SEAT_LIMIT ≡ most_seats }
    ensures entries { HISTORY_LIMIT ≡ most_entries }
{}
