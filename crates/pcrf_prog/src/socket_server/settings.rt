//! What a server is told.
ghost use Rattle.std.specs.Prelude.{◌≡◌, ◌≤◌, ◌<◌, ◌+◌, ◌*◌};
ghost use Rattle.pcrf_values.specs.Limits.{site_limit};
ghost use Rattle.pcrf_serve.specs.Limits.{most_seats};

use pcrf_serve::SEAT_LIMIT;
use pcrf_values::limits::SITE_LIMIT;

/// A site's number, and the epoch that it begins: how often it has started.
#[derive(Clone, Copy, Debug, PartialEq, Eq)]
pub struct SiteEpoch {
    pub(crate) number: u8,
    pub(crate) epoch: u16,
    ghost number_within: { number < site_limit },
    ghost epoch_from_one: { 1 ≤ epoch },
}

impl SiteEpoch {
    /// A number below 16, and an epoch from 1.
    pub fn of(number: u8, epoch: u16) -> Option<SiteEpoch> {
        if number >= SITE_LIMIT || epoch == 0 {
            return None;
        }
        Some(SiteEpoch { number, epoch })
    }
}

/// How many connections a server accepts, and how many peer sites it has: each of these takes two seats, one to send it letters
/// and one to take its letters.
#[derive(Clone, Copy, Debug, PartialEq, Eq)]
pub struct SeatPlan {
    pub(crate) connections: usize,
    pub(crate) peers: usize,
    ghost some: { 1 ≤ connections },
    ghost within: { connections + 2 * peers ≤ most_seats },
}

impl SeatPlan {
    /// One connection at least, and 64 seats in all at most.
    pub fn of(connections: usize, peers: usize) -> Option<SeatPlan> {
        if connections == 0 || connections > SEAT_LIMIT || peers > SEAT_LIMIT {
            return None;
        }
        if connections + 2 * peers > SEAT_LIMIT {
            return None;
        }
        Some(SeatPlan { connections, peers })
    }

    /// How many seats these are.
    pub(crate) fn seats(self) -> usize
        ensures some { 1 ≤ result }
        ensures within { result ≤ most_seats }
    {
        self.connections + 2 * self.peers
    }
}

/// Where a server listens, and where its peer sites do: an IPv4 address, a colon and a port each.
#[derive(Clone, Copy)]
pub struct Addresses<'a> {
    /// Where gateways and application functions connect.
    pub listen: &'a str,
    /// Where peer sites connect that send letters.
    pub exchange: &'a str,
    /// Where each peer site takes letters.
    pub peers: &'a [&'a str],
}

/// What a server is told beside its names and tables.
#[derive(Clone, Copy)]
pub struct Settings<'a> {
    /// Which site it is.
    pub place: SiteEpoch,
    /// Its seats.
    pub plan: SeatPlan,
    /// How many letters each exchange with a peer site has.
    pub turns: u32,
    /// Where it and its peer sites are.
    pub addresses: Addresses<'a>,
}
