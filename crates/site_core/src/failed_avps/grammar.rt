//! What a grammar has: AVPs, how often, and of which type and range each is.
ghost use Rattle.std.specs.Prelude.{◌≡◌};
ghost use Rattle.site_core.specs.Faults.{least_length};

use dia_codec::AvpKey;

/// The type of an AVP, and the range of its values (RFC 6733, 4.2 to 4.4).
#[derive(Clone, Copy, Debug, PartialEq, Eq)]
pub enum AvpType {
    /// A number.
    Unsigned32,
    /// A number from the first to the second.
    Enumerated(u32, u32),
    /// One byte to so many.
    Text(usize),
    /// Any bytes.
    OctetString,
    /// An IPv4 address.
    Ipv4Address,
    /// An IPv6 prefix.
    Ipv6Prefix,
    /// AVPs of a grammar.
    Grouped(Grammar),
}

impl AvpType {
    /// How many bytes a value has at least.
    pub fn least_length(self) -> usize
        ensures { result ≡ least_length self }
    {
        match self {
            AvpType::Unsigned32 | AvpType::Enumerated(_, _) | AvpType::Ipv4Address => 4,
            AvpType::Text(_) => 1,
            AvpType::Ipv6Prefix => 2,
            AvpType::OctetString | AvpType::Grouped(_) => 0,
        }
    }
}

/// The requests that are served, and the groups in them.
#[derive(Clone, Copy, Debug, PartialEq, Eq)]
pub enum Grammar {
    /// Capabilities-Exchange-Request (RFC 6733, 5.3.1).
    CapabilitiesExchange,
    /// Device-Watchdog-Request and Disconnect-Peer-Request (RFC 6733, 5.5.1 and 5.4.1).
    PeerCommand,
    /// Vendor-Specific-Application-Id (RFC 6733, 6.11).
    VendorApplication,
    /// CC-Request of Gx (TS 29.212, 5.6.2).
    CreditControl,
    /// Subscription-Id (RFC 8506, 8.46).
    Subscription,
    /// AA-Request of Rx (TS 29.214, 5.6.1).
    Authorization,
    /// Media-Component-Description (TS 29.214, 5.3.16).
    MediaComponent,
    /// Media-Sub-Component (TS 29.214, 5.3.18).
    MediaSubComponent,
    /// Session-Termination-Request of Rx (TS 29.214, 5.6.4).
    SessionTermination,
}

/// An AVP of a grammar.
#[derive(Clone, Copy, Debug, PartialEq, Eq)]
pub struct GrammarRow {
    pub key: AvpKey,
    /// How often it stands at least.
    pub least: usize,
    /// How often it stands at most, if there is a limit.
    pub most: Option<usize>,
    pub kind: AvpType,
}
