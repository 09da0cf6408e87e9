//! Which way packets go.
ghost use Rattle.std.specs.Prelude.{◌≡◌};
ghost use Rattle.gx_profile.specs.Downlinks.{direction_number, direction_of};

/// Which way packets go (RFC 6733, 4.3.1; TS 29.212, 5.3.65).
#[derive(Clone, Copy, Debug, PartialEq, Eq)]
pub enum Direction {
    /// From the terminal.
    Uplink,
    /// To the terminal.
    Downlink,
}

impl Direction {
    /// The direction of a filter by its first two words. What isn't from the terminal is to it.
    pub fn of(filter: &[u8]) -> Direction
        ensures { result ≡ direction_of filter.now }
    {
        if filter.starts_with(b"permit in ") {
            Direction::Uplink
        } else {
            Direction::Downlink
        }
    }

    /// The value of a Flow-Direction.
    pub fn number(self) -> u32
        ensures { result ≡ direction_number self }
    {
        match self {
            Direction::Uplink => 2,
            Direction::Downlink => 1,
        }
    }
}
