//! The networks under which sessions are listed by their IPv6 prefixes.
ghost use Rattle.std.specs.Prelude.{◌≡◌};
ghost use Rattle.bind_index.specs.Networks.{all_networks, network_of, spans_networks};

use pcrf_values::Ipv6Prefix;

/// The bits of a prefix that say its network: an interface's identifier takes the others (RFC 4291, 2.5.1).
const NETWORK_BITS: u8 = 64;

/// The prefix has fewer bits than say a network, so it may cover prefixes of several.
pub fn spans_networks(prefix: &Ipv6Prefix) -> bool
    ensures { result ≡ spans_networks prefix.now }
{
    prefix.bits() < NETWORK_BITS
}

/// The prefix that covers all: what spans networks is listed under it.
pub fn all_networks() -> Ipv6Prefix
    ensures { result ≡ all_networks }
{
    let Some(all) = Ipv6Prefix::of(0, &[]) else {
        unreachable!()
    };
    all
}

/// The network under which a session with this prefix is listed: the first 64 bits, and where there are fewer that of all.
pub fn network_of(prefix: &Ipv6Prefix) -> Ipv6Prefix
    ensures { result ≡ network_of prefix.now }
{
    if spans_networks(prefix) {
        return all_networks();
    }
    let Some(network) = Ipv6Prefix::of(NETWORK_BITS, prefix.octets()) else {
        unreachable!()
    };
    network
}
