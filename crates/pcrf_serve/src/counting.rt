//! From where the identifiers of a site's requests count.
ghost use Rattle.std.specs.Prelude.{◌≡◌};
ghost use Rattle.pcrf_serve.specs.Requests.{first_end_id};

/// How many numbers the time's bits of an identifier tell apart, and the random ones (RFC 6733, 3).
const TIMES: u64 = 1 << 12;

const RANDOMS: u32 = 1 << 20;

/// The End-to-End Identifier from which those of a site count that starts so many seconds after 1970, by a random number: so a site that
/// starts again repeats none for minutes (RFC 6733, 3).
pub fn first_end_id(seconds: u64, random: u32) -> u32
    ensures { result ≡ first_end_id seconds random }
{
    (seconds % TIMES) as u32 * RANDOMS + random % RANDOMS
}
